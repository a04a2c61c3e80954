//! The operations of a block that each solution issues, and their precedences.

ghost use Rattle.std.specs.Prelude.{◌↔◌, All, IsTrue, length};
ghost use Rattle.un_length.specs.Places.{Leads};

use un_base::ids::VarId;
use un_isa::table::Needs;
use un_lists::items::Items;

/// An operation. It takes one place for an instruction from the packet of its cycle, and what it needs.
#[derive(Clone, Copy)]
pub struct Task {
    /// The variable of its cycle, or for the block's end the variable of the end.
    pub at: VarId,
    /// The least cycle in which it may issue: more than 0 for a call by which values are spilled.
    pub head: u32,
    /// How many cycles before the block's end it issues, at least: 1, more for a call after which values are reloaded, and 0 for the end.
    pub tail: u32,
    /// What it takes of each resource of its packet.
    pub needs: Needs,
}

/// A precedence between two operations of a block's list.
#[derive(Clone, Copy)]
pub struct Precedence {
    /// The place in the list of the operation that comes first.
    pub from: u32,
    /// The place in the list of the operation that waits.
    pub to: u32,
    /// How many cycles after the first the second issues, at least.
    pub gap: u32,
}

/// Whether both places of a precedence are among the first `count`.
fn leads(arc: Precedence, count: usize) -> bool
    ensures { IsTrue result ↔ Leads count arc }
{
    (arc.from as usize) < count && (arc.to as usize) < count
}

/// Whether both places of each precedence are among the first `count`: those of a block have to be.
pub fn all_lead(arcs: &[Precedence], count: usize) -> bool
    ensures { IsTrue result ↔ All (Leads count) arcs.now }
{
    arcs.iter().all(|arc| leads(*arc, count))
}

/// Operations of a block, and precedences among them.
#[derive(Drop)]
pub struct Block {
    /// The operations, the block's end with them.
    pub ops: Items<Task>,
    /// Precedences between places of `ops`, best with rising `to` and with `from` before it: others tell less.
    pub arcs: Items<Precedence>,
    /// The variable of the block's end, in cycles: one more than the cycle of its last packet.
    pub end: VarId,
    /// Room is looked for only where the greatest end and the number of operations are together less than this.
    pub horizon: u32,
    ghost within: { All (Leads (length ops)) arcs },
}
