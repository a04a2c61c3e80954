//! Items, which take resources of packets.

use un_base::ids::VarId;
use un_isa::table::Needs;
use un_lists::items::Items;
use un_prop::act::Act;

/// An operation. Where it is active it takes from the packet of its cycle one place for an instruction, and its needs.
#[derive(Drop)]
pub struct Item {
    /// Its activity, whose number says which needs it has: that of its instruction, or 1 for an operation that is always active.
    pub on: Act,
    /// The variable of its cycle.
    pub at: VarId,
    /// What it takes of each resource, at the place of its activity's number.
    pub uses: Items<Needs>,
}
