//! A listing from its text, line by line.

use crate::listing::{Label, Listed, Listing, Spelled};
use crate::matched::own_block;
use crate::spelling::leaves;
use crate::text::{cut, find, parted, trimmed};
use std::alloc::Global;
use un_base::decimal::read_decimal;
use un_base::memory_error::NoMemory;
use un_ir::function::Function;
use un_lists::items::Items;

/// What is wrong with a line.
#[derive(Clone, Copy)]
pub enum Why {
    /// Outside of packets, it has none of the forms that may stand there.
    NoForm,
    /// The frame is no number.
    Frame,
    /// The packet has no instruction.
    Empty,
    /// A brace opens within a packet.
    Inside,
    /// Something stands behind a packet.
    Behind,
    /// The packet that begins there is not closed.
    Unclosed,
    /// There is no packet.
    Nothing,
}

/// Why a listing is not read.
#[derive(Clone, Copy)]
pub enum Unread {
    NoMemory,
    Line { line: u32, why: Why },
}

impl From<NoMemory> for Unread {
    ghost use Rattle.std.specs.Prelude.{◌≡◌};
    ghost use Rattle.un_foreign.specs.declared.reader.Unread.TheVariants.{NoMemory};

    ghost from_gives = { λ _ error. error ≡ NoMemory };

    fn from(_error: NoMemory) -> Unread {
        Unread::NoMemory
    }
}

/// A listing as far as it is read.
#[derive(Drop)]
struct Reader<'a> {
    listing: Listing<'a>,
    /// The line that is read, from 1.
    line: u32,
    /// The line of a brace that is not closed.
    open: Option<u32>,
    /// Whether the last block has a packet.
    filled: bool,
    /// Whether the last packet leaves its block.
    left: bool,
}

impl<'a> Reader<'a> {
    /// Nothing read.
    fn new(alloc: Global) -> Reader<'a> {
        Reader {
            listing: Listing {
                frame: None,
                blocks: 0,
                labels: Items::new(alloc),
                packets: Items::new(alloc),
                instrs: Items::new(alloc),
            },
            line: 0,
            open: None,
            filled: false,
            left: false,
        }
    }

    /// This line, with what is wrong.
    fn wrong(&self, why: Why) -> Unread {
        Unread::Line {
            line: self.line,
            why,
        }
    }

    /// The number of the last packet.
    fn last_packet(&self) -> u32 {
        let last = self.listing.packets.len().saturating_sub(1);
        u32::try_from(last).unwrap_or(u32::MAX)
    }

    /// Begins a block.
    fn begin_block(&mut self) {
        self.listing.blocks = self.listing.blocks.saturating_add(1);
        self.filled = false;
        self.left = false;
    }

    /// Begins a block, where the last one has packets or there is none.
    fn part(&mut self) {
        if self.filled || self.listing.blocks == 0 {
            self.begin_block();
        }
    }

    /// Adds a label of the last block.
    fn add_label(&mut self, text: &'a [u8]) -> Result<(), NoMemory> {
        let block = self.listing.blocks.saturating_sub(1);
        self.listing.labels.push(Label { block, text })?;
        Ok(())
    }

    /// Begins a packet.
    fn begin_packet(&mut self) -> Result<(), NoMemory> {
        if self.listing.blocks == 0 || (self.filled && self.left) {
            self.begin_block();
        }
        self.filled = true;
        self.left = false;
        self.open = Some(self.line);
        let block = self.listing.blocks.saturating_sub(1);
        let line = self.line;
        self.listing.packets.push(Listed { block, line })?;
        Ok(())
    }

    /// Adds an instruction to the last packet, where the text is not blank.
    fn add_instr(&mut self, text: &'a [u8]) -> Result<(), NoMemory> {
        let text = trimmed(text);
        if text.is_empty() {
            return Ok(());
        }
        if leaves(text) {
            self.left = true;
        }
        let packet = self.last_packet();
        let line = self.line;
        self.listing.instrs.push(Spelled { packet, line, text })?;
        Ok(())
    }

    /// Adds the instructions between semicolons.
    fn add_instrs(&mut self, text: &'a [u8]) -> Result<(), Unread> {
        if text.iter().any(|b| *b == b'{') {
            return Err(self.wrong(Why::Inside));
        }
        for part in text.split(|b| *b == b';') {
            self.add_instr(part)?;
        }
        Ok(())
    }

    /// Whether the last packet has an instruction.
    fn has_instr(&self) -> bool {
        match self.listing.instrs.as_slice().last() {
            Some(instr) => instr.packet == self.last_packet(),
            None => false,
        }
    }

    /// Closes a packet, behind whose brace this stands.
    fn close(&mut self, behind: &'a [u8]) -> Result<(), Unread> {
        if !self.has_instr() {
            return Err(self.wrong(Why::Empty));
        }
        self.open = None;
        let behind = trimmed(behind);
        if behind.is_empty() || behind.starts_with(b":") {
            self.add_instr(behind)?;
            return Ok(());
        }
        Err(self.wrong(Why::Behind))
    }

    /// Reads what stands in a packet, and its end.
    fn read_inside(&mut self, text: &'a [u8]) -> Result<(), Unread> {
        let Some(place) = text.iter().position(|b| *b == b'}') else {
            return self.add_instrs(text);
        };
        let halves = parted(text, place);
        self.add_instrs(halves.front)?;
        self.close(parted(halves.behind, 1).behind)
    }

    /// Reads a label; those that the compiler makes for other purposes are passed over.
    fn read_label(&mut self, f: &Function, text: &'a [u8]) -> Result<(), Unread> {
        if text.starts_with(b".Ltmp") || text.starts_with(b".Lfunc") {
            return Ok(());
        }
        if own_block(f, text).is_some() {
            self.begin_block();
        } else {
            self.part();
        }
        self.add_label(text)?;
        Ok(())
    }

    /// Reads a line `block L`.
    fn read_block(&mut self, label: &'a [u8]) -> Result<(), Unread> {
        let label = trimmed(label);
        if label.is_empty() {
            return Err(self.wrong(Why::NoForm));
        }
        self.begin_block();
        self.add_label(label)?;
        Ok(())
    }

    /// Reads the size of the frame.
    fn read_frame(&mut self, text: &[u8]) -> Result<(), Unread> {
        match read_decimal(trimmed(text)) {
            Some(bytes) => {
                self.listing.frame = Some(u32::try_from(bytes).unwrap_or(u32::MAX));
                Ok(())
            }
            None => Err(self.wrong(Why::Frame)),
        }
    }

    /// Reads a line outside of packets, without its comment.
    fn read_outside(&mut self, f: &Function, text: &'a [u8]) -> Result<(), Unread> {
        if let Some(rest) = text.strip_prefix(b"{") {
            self.begin_packet()?;
            return self.read_inside(rest);
        }
        if let Some(label) = text.strip_suffix(b":") {
            return self.read_label(f, label);
        }
        if let Some(label) = text.strip_prefix(b"block ") {
            return self.read_block(label);
        }
        if let Some(bytes) = text.strip_prefix(b"frame ") {
            return self.read_frame(bytes);
        }
        if text.is_empty() || text.starts_with(b".") {
            return Ok(());
        }
        Err(self.wrong(Why::NoForm))
    }

    /// Reads what a comment says of blocks and of the frame.
    fn read_comment(&mut self, text: &'a [u8]) -> Result<(), Unread> {
        let Some(text) = text.strip_prefix(b"// ") else {
            return Ok(());
        };
        if text.starts_with(b"%bb.") {
            self.part();
            self.add_label(cut(text, b':').front)?;
        }
        match text.strip_prefix(b"frame ") {
            Some(bytes) => self.read_frame(bytes),
            None => Ok(()),
        }
    }

    /// Reads a line.
    fn read_line(&mut self, f: &Function, line: &'a [u8]) -> Result<(), Unread> {
        let text = without_comment(line);
        if self.open.is_some() {
            return self.read_inside(text);
        }
        if text.is_empty() {
            return self.read_comment(trimmed(line));
        }
        self.read_outside(f, text)
    }

    /// The listing, where it is whole.
    fn into_listing(self) -> Result<Listing<'a>, Unread> {
        if let Some(line) = self.open {
            return Err(Unread::Line {
                line,
                why: Why::Unclosed,
            });
        }
        if self.listing.packets.is_empty() {
            return Err(Unread::Line {
                line: 1,
                why: Why::Nothing,
            });
        }
        Ok(self.listing)
    }
}

/// A line without its comment and blanks at its ends.
fn without_comment(line: &[u8]) -> &[u8] {
    match find(line, b"//") {
        Some(place) => trimmed(parted(line, place).front),
        None => trimmed(line),
    }
}

/// Whether a line begins the code of the function: it is the function's name and a colon.
fn is_symbol(f: &Function, line: &[u8]) -> bool {
    match without_comment(line).strip_suffix(b":") {
        Some(name) => name == f.name.as_bytes(),
        None => false,
    }
}

/// Whether a line ends the code of a function: it tells its size.
fn is_end(line: &[u8]) -> bool {
    trimmed(line).starts_with(b".size")
}

/// Whether the text has the function's code under its name, as an assembler's source.
fn has_symbol(f: &Function, text: &[u8]) -> bool {
    for line in text.split(|b| *b == b'\n') {
        if is_symbol(f, line) {
            return true;
        }
    }
    false
}

/// Reads the lines of the function's code: all of a text, or those from the function's name up to its size.
fn read_lines<'a>(reader: &mut Reader<'a>, f: &Function, text: &'a [u8]) -> Result<(), Unread> {
    let mut inside = !has_symbol(f, text);
    for line in text.split(|b| *b == b'\n') {
        reader.line = reader.line.saturating_add(1);
        if !inside {
            inside = is_symbol(f, line);
        } else if is_end(line) {
            return Ok(());
        } else {
            reader.read_line(f, line)?;
        }
    }
    Ok(())
}

/// The listing of a function in a text: as `alloc` prints it, or an assembler's source.
///
/// # Errors
/// `Line` with the first line that is not read; `NoMemory` where there is no memory for the listing.
pub fn read_listing<'a>(
    alloc: Global,
    f: &Function,
    text: &'a [u8],
) -> Result<Listing<'a>, Unread> {
    let mut reader = Reader::new(alloc);
    read_lines(&mut reader, f, text)?;
    reader.into_listing()
}
