//! Why a listing is not read, as a text.

use crate::reader::Why;
use un_base::memory_error::NoMemory;
use un_ir::text::{put_number, put_text};

/// What would be accepted in place of a line.
fn accepted(why: Why) -> &'static [u8] {
    match why {
        Why::NoForm => {
            b"outside of packets stand `block L` or a label `L:`, `frame F`, a directive `.WORD ..` and comments `// ..`; instructions stand in braces, as `{ r1 = add(r2,r3); r4 = #7 }`"
        }
        Why::Frame => b"a frame is a number of bytes: `frame 8`",
        Why::Empty => b"a packet has an instruction: a cycle of waiting is `{ nop }`",
        Why::Inside => b"a packet begins within a packet: the one before lacks its `}`",
        Why::Behind => b"behind a packet's `}` stands nothing but a mark such as `:endloop0`",
        Why::Unclosed => b"the packet that begins here lacks its `}`",
        Why::Nothing =>
            b"there is no packet: they stand in braces, as `{ r1 = add(r2,r3); r4 = #7 }`, under `block L` or a label `L:`",
    }
}

/// The line of a text with this number, from 1.
fn line_at(text: &[u8], line: u32) -> &[u8] {
    let mut number: u32 = 1;
    for it in text.split(|b| *b == b'\n') {
        if number == line {
            return it;
        }
        number = number.saturating_add(1);
    }
    &[]
}

/// Appends why a listing is not read: its line, and what would be accepted.
pub fn put_unread(out: &mut Vec<u8>, listing: &[u8], line: u32, why: Why) -> Result<(), NoMemory> {
    put_text(out, b"the listing's line ")?;
    put_number(out, u64::from(line))?;
    put_text(out, b" is not read\n  | ")?;
    put_text(out, line_at(listing, line))?;
    put_text(out, b"\n  = ")?;
    put_text(out, accepted(why))?;
    put_text(out, b"\n")
}
