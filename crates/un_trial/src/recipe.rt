//! What a trial of a block may vary.

use crate::table::overwrite;
use std::alloc::{AllocError, Global};

/// Where a value stands that crosses a call.
#[derive(Clone, Copy, PartialEq)]
pub enum Crossing {
    /// In a kept register, in which it is defined where one is free.
    Kept,
    /// In a kept register, to which it is copied at the call.
    KeptLate,
    /// In a slot.
    Slot,
}

/// What a trial does besides following its order.
#[derive(Clone, Copy, PartialEq)]
pub struct Manner {
    /// Whether a saved value that ends in a register may be spilled in between.
    pub spill_saved: bool,
    /// Whether the link, which each call overwrites, is spilled before all else where there is a call.
    pub link_first: bool,
    /// Whether a result that the next call reads as an argument is defined in the argument's register, where that is free.
    pub to_arguments: bool,
    /// Whether a call's result that crosses the next call is saved from that at once.
    pub save_at_once: bool,
    /// Whether a result is defined in the register where it ends although a value that ends in a slot stands there, which leaves it.
    pub make_room: bool,
}

/// Nothing besides.
pub const PLAIN: Manner = Manner {
    spill_saved: false,
    link_first: false,
    to_arguments: false,
    save_at_once: false,
    make_room: false,
};

/// What a trial follows.
#[derive(Drop)]
pub struct Recipe {
    /// The source operations of the block without its terminator, in the order in which a trial places them.
    pub order: Vec<u32>,
    /// What a trial does besides.
    pub manner: Manner,
    /// Where each value of the block stands that crosses a call, by number; those behind the list's end in kept registers.
    pub crossing: Vec<Crossing>,
}

impl Recipe {
    /// The recipe of a block without operations. It takes no memory.
    pub fn new(alloc: Global) -> Recipe {
        Recipe {
            order: Vec::new(alloc),
            manner: PLAIN,
            crossing: Vec::new(alloc),
        }
    }

    /// Whether a trial by the other recipe would be the same.
    pub fn is_same(&self, other: &Recipe) -> bool {
        self.manner == other.manner
            && self.order.as_slice() == other.order.as_slice()
            && self.crossing.as_slice() == other.crossing.as_slice()
    }

    /// Makes the recipe one of this order and manner, by which all values that cross a call stand in kept registers.
    pub fn restart(&mut self, order: &[u32], manner: Manner) -> Result<(), AllocError> {
        self.manner = manner;
        self.crossing.clear();
        overwrite(&mut self.order, order)
    }

    /// Makes the recipe another one.
    pub fn copy_from(&mut self, other: &Recipe) -> Result<(), AllocError> {
        self.manner = other.manner;
        overwrite(&mut self.crossing, other.crossing.as_slice())?;
        overwrite(&mut self.order, other.order.as_slice())
    }

    /// Where one of a block's so many values stands that crosses a call.
    pub fn set_crossing(
        &mut self,
        v: u32,
        count: u32,
        crossing: Crossing,
    ) -> Result<(), AllocError> {
        self.crossing.resize(count as usize, Crossing::Kept)?;
        if let Some(place) = self.crossing.get_mut(v as usize) {
            *place = crossing;
        }
        Ok(())
    }
}
