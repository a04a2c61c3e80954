//! The lines of a listing, each as what it spells.

ghost use Rattle.std.specs.Prelude.{◌≡◌, ◌≤◌, IfOk};
ghost use Rattle.std.specs.List.{AllZip};
ghost use Rattle.un_isa.specs.declared.reg.TheConstants.{FRAME};
ghost use Rattle.un_base.specs.Lines.{pieces_of};
ghost use Rattle.un_listing_reader.specs.Reading.{IsReadAs};

use crate::line::{Line, read_line};
use std::alloc::Global;
use un_base::memory_error::NoMemory;
use un_lists::items::Items;
use un_words::pieces::first_len;

/// The lines of a text behind the first line of a listing, each as what it spells with a frame of so many bytes.
///
/// # Errors
/// `NoMemory` where there is no memory for the lines or for what they are compared with.
pub fn read_lines(alloc: Global, frame: u32, text: &[u8]) -> Result<Items<Option<Line>>, NoMemory>
    requires { frame ≤ FRAME }
    ensures { IfOk result (λ lines. AllZip (IsReadAs frame) (pieces_of text.now) lines) }
{
    let mut lines = Items::new(alloc);
    let mut rest = text;
    while !rest.is_empty() {
        let len = first_len(rest);
        let line = read_line(alloc, frame, &rest[..len])?;
        lines.push(line)?;
        rest = &rest[len..];
    }
    Ok(lines)
}
