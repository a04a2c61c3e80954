//! Where the check of a tree stands: outside of parts, or in the part of a block.

ghost use Rattle.std.specs.Prelude.{◌≡◌, cond};
ghost use Rattle.un_domains.specs.Sets.{Sets};
ghost use Rattle.un_tree.specs.Waits.{is_outside};
ghost use Rattle.un_check.specs.Walks.{here};
ghost use Rattle.un_check.specs.Steps.{outer_stage};

use un_stand::room::Room;

/// Where a check stands beside its outer room.
#[derive(Drop)]
pub(crate) enum Stage {
    /// At the outer room's box.
    AtBox,
    /// Where the part of this block begins, of a Split of the outer room's box.
    AtPart(u32),
    /// In the part of this block, under this number or none, at the box of a room of its own.
    InPart(u32, Option<u64>, Room),
    /// Behind the end of the tree.
    AtEnd,
}

/// Where a check stands.
#[derive(Drop)]
pub(crate) struct Position {
    /// At a box outside of parts, with the model's propagators.
    pub outer: Room,
    pub stage: Stage,
}

/// The stage at the outer room, where there is more of the tree or none.
pub(crate) fn stage_of(more: bool) -> Stage
    ensures { result ≡ outer_stage more }
{
    if more { Stage::AtBox } else { Stage::AtEnd }
}

/// How many outer nodes stand at a stage: one at the outer room's box.
pub(crate) fn outer_at(stage: &Stage) -> u32
    ensures { (b : Sets) → result ≡ cond (is_outside (here b stage.now)) 1 0 }
{
    match stage {
        Stage::AtBox => 1,
        Stage::AtPart(_) => 0,
        Stage::InPart(_, _, _) => 0,
        Stage::AtEnd => 0,
    }
}
