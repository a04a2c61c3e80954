//! What the rows of a model are.

ghost use Rattle.std.specs.Prelude.{ℕ, ◌≡◌, ◌≤◌, ◌<◌, ◌+◌, ◌++◌, true, All, List, Contains, length, map, min, slice_index};
ghost use Rattle.std.specs.List.{AllByRecursion};
ghost use Rattle.un_base.specs.declared.ids.VarId.{VarId};
ghost use Rattle.un_isa.specs.PacketCounts.{places_of};
ghost use Rattle.un_isa.specs.declared.packet_counts.Resource.{Resource};
ghost use Rattle.un_ir.specs.declared.extended.ExtBlock.{ExtBlock};
ghost use Rattle.un_model.specs.Cost.{cost_of, value_of};
ghost use Rattle.un_model.specs.Variables.{IsModel};
ghost use Rattle.un_model.specs.declared.model.BlockVars.{BlockVars};
ghost use Rattle.un_length.specs.Blocks.{cycle_of, taken, FitsBlock};
ghost use Rattle.un_length.specs.Places.{Leads};
ghost use Rattle.un_length.specs.declared.block.Precedence.{Precedence};
ghost use Rattle.un_length.specs.declared.block.Task.{Task};
ghost use Rattle.un_least.specs.Least.{least_end_of};
ghost use Rattle.un_counted.specs.Counted.{counted_holds};
ghost use Rattle.un_counted.specs.declared.counted.LeastEnd.{LeastEnd};
ghost use Rattle.un_rows.specs.Drafts.{drafted_arcs, drafted_ops};
ghost use Rattle.un_rows.specs.Kept.{AreKept, IsKeptBy, owed_taken};
ghost use Rattle.un_rows.specs.Rows.{rows_of};
ghost use Rattle.un_rows.specs.declared.draft.Draft.{Draft};

use un_isa::table::Table;
use un_model::model::{Model, Solution};

/// Each row has the ends of all blocks with their frequencies: so its cost at these ends is what the function costs. It does nothing.
pub fn rows_whole(m: &Model)
    requires model { IsModel m.now }
    ensures freqs { (row : List LeastEnd) → Contains (rows_of m.now) row
        → map (λ (e : LeastEnd). e.freq) row ≡ map (λ (b : ExtBlock). b.freq) m.now.ext.blocks }
    ensures ends { (row : List LeastEnd) → Contains (rows_of m.now) row
        → map (λ (e : LeastEnd). e.end) row ≡ map (λ (v : BlockVars). v.end) m.now.blocks }
{
    let _ = m;
}

/// Where a solution's ends are no less than some row has them, and it costs less than a limit, the rows hold under that limit. It does
/// nothing.
pub fn rows_hold(m: &Model, s: &Solution, limit: u64)
    requires model { IsModel m.now }
    ensures { (row : List LeastEnd) → Contains (rows_of m.now) row
        → All (λ (e : LeastEnd). e.least ≤ value_of s.now.values e.end) row → cost_of m.now s.now < limit
        → counted_holds (rows_of m.now) limit s.now.values ≡ true }
{
    let _ = m;
    let _ = s;
    let _ = limit;
}

/// Where a block's own operations keep it, and the instructions of a draft issue when they are asked to, in cycles in which there is room
/// for them beside those, the least end that both leave is no later than the block's. It does nothing.
pub fn drafted_no_later(t: &Table)
    ensures { (ops : List Task) (arcs : List Precedence) (d : Draft) (x : List ℕ) (close : VarId) (cs : List ℕ)
        (fits : FitsBlock ops arcs close x) (lead : All (Leads (length ops)) arcs)
        (issued : All (λ (u : Task). min u.tail 1 ≤ cycle_of x u) ops) (kept : AreKept (slice_index x close.0) d.owed cs)
        → AllByRecursion (IsKeptBy (map (cycle_of x) ops ++ cs)) d.front → AllByRecursion (IsKeptBy (map (cycle_of x) ops ++ cs)) d.back
        → ((r : Resource) (c : ℕ) → taken r ops x c + owed_taken t.now r d.owed cs c ≤ places_of r)
        → (horizon : ℕ) (from : ℕ) → from ≤ slice_index x close.0
        → least_end_of (drafted_ops t.now ops d) (drafted_arcs (length (drafted_ops t.now ops d)) arcs d) horizon from
        ≤ slice_index x close.0 }
{
    let _ = t;
}
