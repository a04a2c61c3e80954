//! Sets of registers, and the sets that a table names.

ghost use Rattle.std.specs.Prelude.{◌≡◌, ℕ, ◌<◌, ◌≤◌, ◌||◌, nat_eq, false, length, IfOk};
ghost use Rattle.un_isa.specs.RegSets.{has, members};
ghost use Rattle.un_isa.specs.Registers.{callee_saved, saved_registers};
ghost use Rattle.un_isa.specs.Tables.{in_mask};

use crate::reg::{GENERALS, LINK, REGISTERS};
use crate::table::Table;
use std::alloc::Global;
use std::marker::Model;
use un_base::memory_error::NoMemory;
use un_lists::items::Items;

/// Whether a register is in a mask, in which bit r stands for register r.
pub fn is_in_mask(mask: u64, r: u32) -> bool
    ensures { result ≡ in_mask mask r }
{
    r < 64 && (mask >> r) & 1 == 1
}

/// A set of registers below 64, of which contracts see who is in it.
#[derive(Clone, Copy, PartialEq)]
pub struct RegSet {
    mask: u64,
}

impl Model for RegSet {
    ghost use Rattle.std.specs.Prelude.{ℕ};

    ghost Value = { ℕ };

    ghost view = { λ s. s.mask };

    ghost inverse = { λ mask. record { mask = mask } };
}

impl RegSet {
    /// The set without registers.
    pub fn empty() -> RegSet
        ensures { (r : ℕ) → has result r ≡ false }
    {
        RegSet { mask: 0 }
    }

    /// The set of a mask, in which bit r stands for register r.
    pub fn of_mask(mask: u64) -> RegSet
        ensures { result ≡ mask }
    {
        RegSet { mask }
    }

    /// Whether a register is in the set.
    pub fn contains(&self, r: u32) -> bool
        ensures { result ≡ has self.now r }
    {
        is_in_mask(self.mask, r)
    }

    /// Puts a register into the set.
    pub fn insert(&mut self, r: u32)
        requires { r < 64 }
        ensures { (q : ℕ) → has self.new q ≡ (has self.old q || nat_eq r q) }
    {
        self.mask |= 1 << r;
    }

    /// The registers of either set.
    pub fn union(&self, other: &RegSet) -> RegSet
        ensures { (q : ℕ) → has result q ≡ (has self.now q || has other.now q) }
    {
        RegSet {
            mask: self.mask | other.mask,
        }
    }

    /// The registers of the set, rising.
    ///
    /// # Errors
    /// `NoMemory` where there is no memory for the list.
    pub fn members(&self, alloc: Global) -> Result<Vec<u32>, NoMemory>
        ensures { IfOk result (λ registers. registers.items ≡ members self.now) }
    {
        let registers = (0..REGISTERS).filter(|r| self.contains(*r)).collect(alloc)?;
        Ok(registers)
    }
}

/// The general registers that a function keeps, rising.
///
/// # Errors
/// `NoMemory` where there is no memory for the list.
#[tactic(auto, unfolding(crate::specs::Registers::callee_saved))]
pub fn callee_saved(alloc: Global, t: &Table) -> Result<Vec<u32>, NoMemory>
    ensures registers { IfOk result (λ registers. registers.items ≡ callee_saved t.now) }
    ensures few { IfOk result (λ registers. length registers.items ≤ GENERALS) }
{
    let saved = RegSet::of_mask(t.saved);
    let registers = (0..GENERALS).filter(|r| saved.contains(*r)).collect(alloc)?;
    Ok(registers)
}

/// The registers whose values at a function's entry are wanted at its return: those that it keeps, rising, then the link register.
///
/// # Errors
/// `NoMemory` where there is no memory for the list.
pub fn saved_registers(alloc: Global, t: &Table) -> Result<Items<u32>, NoMemory>
    ensures { IfOk result (λ registers. registers ≡ saved_registers t.now) }
{
    let mut registers = Items::from_vec(callee_saved(alloc, t)?);
    registers.push(LINK)?;
    Ok(registers)
}
