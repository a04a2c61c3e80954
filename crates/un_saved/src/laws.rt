//! What each solution of a model owes to its saved values.

ghost use Rattle.std.specs.Prelude.{ℕ, ◌≡◌, ◌<◌, ◌≤◌, ◌+◌, true, List, Some, Contains, count_by, length, slice_get};
ghost use Rattle.un_base.specs.declared.ids.TempId.{TempId};
ghost use Rattle.un_isa.specs.Fit.{IsFit};
ghost use Rattle.un_isa.specs.Registers.{callee_saved, saved_registers};
ghost use Rattle.un_ir.specs.Extended.{IsExtended};
ghost use Rattle.un_ir.specs.Kinds.{is_call_kind};
ghost use Rattle.un_ir.specs.declared.extended.ExtBlock.{ExtBlock};
ghost use Rattle.un_ir.specs.declared.extended.ExtOp.{ExtOp};
ghost use Rattle.un_model.specs.Options.{AreOptions};
ghost use Rattle.un_model.specs.Schedules.{issues_of, schedule_of};
ghost use Rattle.un_model.specs.Solutions.{IsSolution};
ghost use Rattle.un_model.specs.Variables.{IsModel, model_of};
ghost use Rattle.un_lists.proofs.Lists.{Member};
ghost use Rattle.un_model.proofs.Placed.{Placed};
ghost use Rattle.un_model.proofs.PlacedSchedules.{all};
ghost use Rattle.un_model.proofs.Readings.{Solved};
ghost use Rattle.un_press.specs.Accesses.{Reloads};
ghost use Rattle.un_press.proofs.Descent.{cycle_at};
ghost use Rattle.un_saved.specs.Names.{AreNames};
ghost use Rattle.un_saved.specs.Owed.{spills_inside, reloads_behind};
ghost use Rattle.un_saved.specs.Reads.{reads_saved};
ghost use Rattle.un_saved.specs.Saved.{hands_own, keeps_places};
ghost use Rattle.un_saved.specs.Standing.{place_at, IsJoined, in_slots};
ghost use Rattle.un_saved.specs.declared.boundary.Boundary.{Boundary};
ghost use Rattle.un_saved.specs.declared.boundary.Boundary.TheVariants.{StartOf, EndOf};

use un_model::model::{Model, Solution};

/// Each saved value has one register at all boundaries of blocks that are joined to the end of the entry, so as many of them have slots
/// at each. It does nothing.
pub fn one_place(m: &Model, s: &Solution)
    requires model { IsModel m.now }
    requires extended { IsExtended m.now.ext }
    requires fit { IsFit m.now.ext.table }
    requires options { AreOptions m.now.options }
    requires solution { IsSolution m.now s.now }
    ensures place { (c : Boundary) → IsJoined m.now.ext.blocks c → (j : ℕ) → j < length (saved_registers m.now.ext.table)
        → place_at (schedule_of m.now s.now.values) m.now.ext.blocks (EndOf 0) j
        ≡ place_at (schedule_of m.now s.now.values) m.now.ext.blocks c j }
    ensures count { (c : Boundary) → IsJoined m.now.ext.blocks c
        → in_slots (schedule_of m.now s.now.values) m.now.ext.blocks (EndOf 0) (length (saved_registers m.now.ext.table))
        ≡ in_slots (schedule_of m.now s.now.values) m.now.ext.blocks c (length (saved_registers m.now.ext.table)) }
{
    let _ = m;
    let _ = s;
}

/// Each saved value that has a slot at the end of the entry is spilled there, by a copy of its own. It does nothing.
pub fn spilled_at_entry(m: &Model, s: &Solution)
    requires model { IsModel m.now }
    requires extended { IsExtended m.now.ext }
    requires fit { IsFit m.now.ext.table }
    requires options { AreOptions m.now.options }
    requires solution { IsSolution m.now s.now }
    ensures { (b : ExtBlock) → slice_get m.now.ext.blocks 0 ≡ Some b → hands_own b ≡ true
        → in_slots (schedule_of m.now s.now.values) m.now.ext.blocks (EndOf 0) (length (saved_registers m.now.ext.table))
        ≤ count_by (spills_inside 0) (issues_of m.now s.now.values) }
{
    let _ = m;
    let _ = s;
}

/// Each saved value that has a slot at the start of a block which reads it in a register is reloaded there, by a copy of its own. It does
/// nothing.
pub fn reloaded_by_end(m: &Model, s: &Solution)
    requires model { IsModel m.now }
    requires extended { IsExtended m.now.ext }
    requires fit { IsFit m.now.ext.table }
    requires options { AreOptions m.now.options }
    requires solution { IsSolution m.now s.now }
    ensures { (k : ℕ) (b : ExtBlock) → slice_get m.now.ext.blocks k ≡ Some b → reads_saved b ≡ true → Reloads m.now s.now k 0
        (in_slots (schedule_of m.now s.now.values) m.now.ext.blocks (StartOf k) (length (saved_registers m.now.ext.table))) }
{
    let _ = m;
    let _ = s;
}

/// A block that keeps its saved values in their places has as many of them in slots as a call in it has no registers for. It does nothing.
pub fn crowded_by_call(m: &Model, s: &Solution)
    requires model { IsModel m.now }
    requires extended { IsExtended m.now.ext }
    requires fit { IsFit m.now.ext.table }
    requires options { AreOptions m.now.options }
    requires solution { IsSolution m.now s.now }
    ensures { (k : ℕ) (b : ExtBlock) (op : ExtOp) → slice_get m.now.ext.blocks k ≡ Some b → keeps_places b ≡ true
        → Contains b.ops op → is_call_kind op.kind ≡ true
        → length (saved_registers m.now.ext.table) ≤ length (callee_saved m.now.ext.table)
        + in_slots (schedule_of m.now s.now.values) m.now.ext.blocks (StartOf k) (length (saved_registers m.now.ext.table)) }
{
    let _ = m;
    let _ = s;
}

/// Of names that cross a call of a block which keeps its saved values in their places, and that operations before the block's end read in
/// registers, so many are reloaded behind the call as are more than the registers which the call keeps, beside the saved values that have
/// none: each by a copy of its own, whose result is there before the end. It does nothing.
pub fn reloaded_behind_call(m: &Model, s: &Solution)
    ensures { (solved : Solved m.now.ext m.now.options s.now.values) (c : Placed) (vs : List TempId) (n : ℕ)
        → Member c (all m.now.ext m.now.options s.now.values) → keeps_places c.owner ≡ true → is_call_kind c.op.kind ≡ true
        → AreNames m.now.ext m.now.options s.now.values solved c vs
        → n + (length (callee_saved m.now.ext.table) + in_slots (schedule_of (model_of m.now.ext m.now.options) s.now.values) m.now.ext.blocks
        (StartOf c.block) (length (saved_registers m.now.ext.table))) ≤ length vs + length (saved_registers m.now.ext.table)
        → n ≤ count_by (reloads_behind m.now.ext.table c.block (cycle_at m.now.ext m.now.options s.now.values solved c))
        (issues_of (model_of m.now.ext m.now.options) s.now.values) }
{
    let _ = m;
    let _ = s;
}
