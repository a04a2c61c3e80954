//! What a run starts from.

ghost use Rattle.std.specs.Prelude.{◌≡◌, true};
ghost use Rattle.un_isa.specs.Starts.{is_start};

use crate::memory::Memory;
use crate::reg::REGISTERS;
use std::alloc::AllocError;
use un_lists::items::Items;

/// What a called function did.
#[derive(Drop)]
pub struct Reply {
    /// The result that it gives in r0.
    pub result: u32,
    /// The words of memory that it changed: each an address with its new word, by rising addresses.
    pub changed: Items<(u32, u32)>,
    /// What it left in each register that a call clobbers, by register number; 0 elsewhere and in r0.
    pub junk: [u32; REGISTERS as usize],
}

impl Clone for Reply {
    ghost use Rattle.std.specs.Prelude.{◌≡◌};

    ghost is_clone = { λ a b. b ≡ a };

    fn clone(&self) -> Result<Self, AllocError> {
        let changed = self.changed.clone()?;
        Ok(Reply {
            result: self.result,
            changed,
            junk: self.junk,
        })
    }
}

/// What a run starts from. Each reply changes only addresses of the memory, and leaves junk only in clobbered registers other
/// than r0.
#[derive(Drop)]
pub struct Start {
    /// What each register holds, by number: r0 to r31, and p0 to p3 behind them, which are 0 or 1.
    pub regs: [u32; REGISTERS as usize],
    /// The words of memory: what is not there cannot be read or written.
    pub memory: Memory,
    /// What the calls do, in the order in which they are made.
    pub replies: Items<Reply>,
    ghost well: { is_start regs memory replies ≡ true },
}
