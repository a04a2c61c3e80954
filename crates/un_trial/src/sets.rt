//! Registers and slots, and sets of them.

use crate::table::NONE;
use un_isa::reg::{self, FIRST_SLOT, GENERALS};

/// How many registers and slots there are in a trial: the general registers, the predicates, and the slots that a frame may have.
pub const REGISTERS: u32 = FIRST_SLOT + reg::SLOTS;

/// How many slots a word of a set tells of.
const WORD: u32 = u64::BITS;

/// How many words tell of all slots.
const SLOT_WORDS: usize = ((reg::SLOTS + WORD - 1) / WORD) as usize;

/// The bits of the general registers.
const GENERAL_BITS: u64 = (1 << GENERALS) - 1;

/// The bits of all registers.
const REGISTER_BITS: u64 = (1 << FIRST_SLOT) - 1;

/// A set of registers, without slots, in one word.
#[derive(Clone, Copy, PartialEq)]
pub struct RegisterMask {
    /// Bit r stands for register r: the general ones and the predicates.
    bits: u64,
}

/// No register.
pub(crate) const NO_REGISTERS: RegisterMask = RegisterMask { bits: 0 };
/// All registers.
pub(crate) const ALL_REGISTERS: RegisterMask = RegisterMask {
    bits: REGISTER_BITS,
};
/// The general registers.
pub(crate) const GENERAL_REGISTERS: RegisterMask = RegisterMask { bits: GENERAL_BITS };
/// The predicates.
pub(crate) const PREDICATE_REGISTERS: RegisterMask = RegisterMask {
    bits: REGISTER_BITS - GENERAL_BITS,
};

impl RegisterMask {
    /// Whether a register is in the set; a slot never is.
    #[inline(always)]
    pub fn has(self, r: u32) -> bool {
        r < FIRST_SLOT && (self.bits >> r) & 1 == 1
    }

    /// With one register more, which is no slot.
    #[inline(always)]
    pub fn with(self, r: u32) -> RegisterMask {
        if r < FIRST_SLOT {
            RegisterMask {
                bits: self.bits | 1 << r,
            }
        } else {
            self
        }
    }

    /// With one register less.
    #[inline(always)]
    pub fn without(self, r: u32) -> RegisterMask {
        if r < FIRST_SLOT {
            RegisterMask {
                bits: self.bits & !(1 << r),
            }
        } else {
            self
        }
    }

    /// What is in both sets.
    #[inline(always)]
    pub fn and(self, other: RegisterMask) -> RegisterMask {
        RegisterMask {
            bits: self.bits & other.bits,
        }
    }

    /// What is in this set and not in the other.
    #[inline(always)]
    pub fn minus(self, other: RegisterMask) -> RegisterMask {
        RegisterMask {
            bits: self.bits & !other.bits,
        }
    }

    /// Takes the smallest register out of the set; None where it has none.
    #[inline(always)]
    pub fn take_least(&mut self) -> Option<u32> {
        if self.bits == 0 {
            return None;
        }
        let r = self.bits.trailing_zeros();
        self.bits &= self.bits.wrapping_sub(1);
        Some(r)
    }
}

/// A set of registers and slots.
#[derive(Clone, Copy, PartialEq)]
pub struct RegisterSet {
    /// Bit r stands for register r: the general ones and the predicates.
    registers: u64,
    /// Bit i of word k stands for slot k · WORD + i.
    slots: [u64; SLOT_WORDS],
}

/// No register.
pub const EMPTY: RegisterSet = RegisterSet {
    registers: 0,
    slots: [0; SLOT_WORDS],
};
/// All registers and slots.
pub const ALL: RegisterSet = RegisterSet {
    registers: REGISTER_BITS,
    slots: [u64::MAX; SLOT_WORDS],
};
/// The general registers.
pub const GENERAL: RegisterSet = RegisterSet {
    registers: GENERAL_BITS,
    slots: [0; SLOT_WORDS],
};
/// The predicates.
pub const PREDICATES: RegisterSet = RegisterSet {
    registers: REGISTER_BITS - GENERAL_BITS,
    slots: [0; SLOT_WORDS],
};
/// All slots.
pub const SLOTS: RegisterSet = RegisterSet {
    registers: 0,
    slots: [u64::MAX; SLOT_WORDS],
};

/// The number of a slot: a register's number behind the first slot's.
fn slot_of(r: u32) -> u32 {
    r.saturating_sub(FIRST_SLOT)
}

impl RegisterSet {
    /// The registers of a mask, in which bit r stands for register r.
    pub fn of_mask(mask: u64) -> RegisterSet {
        RegisterSet {
            registers: mask & REGISTER_BITS,
            ..EMPTY
        }
    }

    /// The set of one register.
    pub fn one(r: u32) -> RegisterSet {
        EMPTY.with(r)
    }

    /// The registers of the set, without its slots.
    #[inline(always)]
    pub fn registers(&self) -> RegisterMask {
        RegisterMask {
            bits: self.registers,
        }
    }

    /// The word of a slot.
    fn word(self, slot: u32) -> u64 {
        self.slots.get((slot / WORD) as usize).copied().unwrap_or(0)
    }

    /// Whether a register is in the set.
    pub fn has(self, r: u32) -> bool {
        if r < FIRST_SLOT {
            return (self.registers >> r) & 1 == 1;
        }
        let slot = slot_of(r);
        (self.word(slot) >> (slot % WORD)) & 1 == 1
    }

    /// Puts one register more into the set.
    #[inline(always)]
    pub fn insert(&mut self, r: u32) {
        if r < FIRST_SLOT {
            self.registers |= 1 << r;
        } else {
            self.insert_slot(slot_of(r));
        }
    }

    fn insert_slot(&mut self, slot: u32) {
        if let Some(word) = self.slots.get_mut((slot / WORD) as usize) {
            *word |= 1 << (slot % WORD);
        }
    }

    /// Takes a register out of the set.
    #[inline(always)]
    pub fn remove(&mut self, r: u32) {
        if r < FIRST_SLOT {
            self.registers &= !(1 << r);
        } else {
            self.remove_slot(slot_of(r));
        }
    }

    fn remove_slot(&mut self, slot: u32) {
        if let Some(word) = self.slots.get_mut((slot / WORD) as usize) {
            *word &= !(1 << (slot % WORD));
        }
    }

    /// With one register more.
    pub fn with(self, r: u32) -> RegisterSet {
        let mut set = self;
        set.insert(r);
        set
    }

    /// With one register less.
    pub fn without(self, r: u32) -> RegisterSet {
        let mut set = self;
        set.remove(r);
        set
    }

    /// What is in both sets.
    pub fn and(self, other: RegisterSet) -> RegisterSet {
        let mut set = self;
        set.registers &= other.registers;
        for k in 0..SLOT_WORDS {
            set.slots[k] &= other.slots[k];
        }
        set
    }

    /// What is in either set.
    pub fn or(self, other: RegisterSet) -> RegisterSet {
        let mut set = self;
        set.registers |= other.registers;
        for k in 0..SLOT_WORDS {
            set.slots[k] |= other.slots[k];
        }
        set
    }

    /// What is in this set and not in the other.
    pub fn minus(self, other: RegisterSet) -> RegisterSet {
        let mut set = self;
        set.registers &= !other.registers;
        for k in 0..SLOT_WORDS {
            set.slots[k] &= !other.slots[k];
        }
        set
    }

    /// Takes the smallest register out of the set; None where it has none.
    pub fn take_least(&mut self) -> Option<u32> {
        if self.registers == 0 {
            return self.take_slot();
        }
        let r = self.registers.trailing_zeros();
        self.registers &= self.registers.wrapping_sub(1);
        Some(r)
    }

    /// Takes the smallest slot out of the set.
    fn take_slot(&mut self) -> Option<u32> {
        let mut first = FIRST_SLOT;
        for word in self.slots.iter_mut() {
            if *word != 0 {
                let r = first.saturating_add(word.trailing_zeros());
                *word &= word.wrapping_sub(1);
                return Some(r);
            }
            first = first.saturating_add(WORD);
        }
        None
    }

    /// Takes the greatest register out of a set without slots.
    pub fn drop_greatest(&mut self) {
        let mut left = *self;
        let mut greatest = NONE;
        for _ in 0..FIRST_SLOT {
            let Some(r) = left.take_least() else {
                break;
            };
            greatest = r;
        }
        *self = self.without(greatest);
    }

    /// The smallest register.
    pub fn least(self) -> u32 {
        if self.registers != 0 {
            return self.registers.trailing_zeros();
        }
        let mut first = FIRST_SLOT;
        for word in self.slots {
            if word != 0 {
                return first.saturating_add(word.trailing_zeros());
            }
            first = first.saturating_add(WORD);
        }
        NONE
    }
}

/// Where a value stands.
#[derive(Clone, Copy, PartialEq)]
pub enum Space {
    General,
    Predicate,
    Slot,
}

/// The space of a register, predicate register or slot.
#[inline(always)]
pub fn space_at(r: u32) -> Space {
    if r < GENERALS {
        Space::General
    } else if r < FIRST_SLOT {
        Space::Predicate
    } else {
        Space::Slot
    }
}
