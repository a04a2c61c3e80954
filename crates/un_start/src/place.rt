//! Which line of a start may stand where.

ghost use Rattle.std.specs.Prelude.{◌≡◌};
ghost use Rattle.un_isa.specs.Starts.{is_clobbered};
ghost use Rattle.un_start.specs.Places.{holds, takes_junk, is_good, follows, has_word, has_room, fits_in};

use crate::line::Line;
use un_isa::reg::{GENERALS, LINK, REGISTERS};

/// How many words a memory may have.
pub const WORDS: usize = 4096;

/// How many calls may be replied to.
pub const REPLIES: usize = 256;

/// How many blocks may be entered at most.
pub(crate) const MOST_BLOCKS: u32 = 1_000_000;

/// Whether a register may hold a number.
fn holds(reg: u32, value: u32) -> bool
    ensures { result ≡ holds reg value }
{
    reg < GENERALS || value < 2
}

/// Whether a call writes a register.
fn is_clobbered(reg: u32) -> bool
    ensures { result ≡ is_clobbered reg }
{
    reg < 16 || reg == 28 || reg == LINK || reg >= GENERALS
}

/// Whether a call leaves junk in a register.
fn takes_junk(reg: u32) -> bool
    ensures { result ≡ takes_junk reg }
{
    reg > 0 && reg < REGISTERS && is_clobbered(reg)
}

/// Whether a line may stand somewhere.
fn is_good(line: Line) -> bool
    ensures { result ≡ is_good line }
{
    match line {
        Line::Reg { reg, value } => reg < REGISTERS && holds(reg, value),
        Line::Mem { address, .. } => address % 4 == 0,
        Line::Reply(_) => true,
        Line::Set { .. } => true,
        Line::Junk { reg, value } => takes_junk(reg) && holds(reg, value),
        Line::Blocks(count) => count <= MOST_BLOCKS,
    }
}

/// Whether a line may stand directly behind another one, or first.
fn follows(line: Line, last: Option<Line>) -> bool
    ensures { result ≡ follows line last }
{
    match line {
        Line::Reg { reg, .. } => match last {
            None => true,
            Some(Line::Reg { reg: low, .. }) => low < reg,
            Some(_) => false,
        },
        Line::Mem { address, .. } => match last {
            None => true,
            Some(Line::Reg { .. }) => true,
            Some(Line::Mem { address: low, .. }) => low < address,
            Some(_) => false,
        },
        Line::Set { address, .. } => match last {
            Some(Line::Reply(_)) => true,
            Some(Line::Set { address: low, .. }) => low < address,
            _ => false,
        },
        Line::Junk { reg, .. } => match last {
            Some(Line::Reply(_)) => true,
            Some(Line::Set { .. }) => true,
            Some(Line::Junk { reg: low, .. }) => low < reg,
            _ => false,
        },
        Line::Reply(_) => !matches!(last, Some(Line::Blocks(_))),
        Line::Blocks(_) => !matches!(last, Some(Line::Blocks(_))),
    }
}

/// Whether there is a word at an address.
fn has_word(words: &[(u32, u32)], address: u32) -> bool
    ensures { result ≡ has_word words.now address }
{
    words.iter().any(|w| w.0 == address)
}

/// Whether a line has room behind these words and so many replies.
fn has_room(line: Line, words: &[(u32, u32)], replies: usize) -> bool
    ensures { result ≡ has_room line words.now replies }
{
    match line {
        Line::Mem { .. } => words.len() < WORDS,
        Line::Reply(_) => replies < REPLIES,
        Line::Set { address, .. } => has_word(words, address),
        Line::Reg { .. } => true,
        Line::Junk { .. } => true,
        Line::Blocks(_) => true,
    }
}

/// Whether a line may stand behind this line, these words and so many replies.
pub(crate) fn fits_in(line: Line, last: Option<Line>, words: &[(u32, u32)], replies: usize) -> bool
    ensures { result ≡ fits_in line last words.now replies }
{
    is_good(line) && follows(line, last) && has_room(line, words, replies)
}
