//! What reports of a version may have.

ghost use Rattle.std.specs.Prelude.{◌≡◌};
ghost use Rattle.un_report_reader.specs.Limits.{AreSmall, limits_of};

use un_isa::reg::{FRAME, SLOTS};

// What reports of version 1 may have. These stay as they are.
pub(crate) const OLD_SLOTS: u32 = 64;

pub(crate) const OLD_FRAME: u32 = 256;

pub(crate) const OLD_LINES: u32 = 200_000;

/// How many lines a tree may have.
pub(crate) const LINES: u32 = 400_000;

/// How many slots, bytes of a frame and lines of a tree a report may have, and whether the tree may have Splits.
#[derive(Clone, Copy)]
pub struct Limits {
    pub slots: u32,
    pub frame: u32,
    pub lines: u32,
    pub splits: bool,
}

/// The limits of a version.
pub(crate) fn limits_of(version: u8) -> Limits
    ensures is { result ≡ limits_of version }
    ensures small { AreSmall result }
{
    if version == 1 {
        Limits {
            slots: OLD_SLOTS,
            frame: OLD_FRAME,
            lines: OLD_LINES,
            splits: false,
        }
    } else {
        Limits {
            slots: SLOTS,
            frame: FRAME,
            lines: LINES,
            splits: true,
        }
    }
}
