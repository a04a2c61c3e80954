//! The way over a tree outside of parts, and from part to part.

ghost use Rattle.std.specs.Prelude.{◌≡◌, ◌≢◌, ◌++◌, OnOk};
ghost use Rattle.un_tree.specs.Waits.{Whole, HasSidesIn, IsPlain, MayStand, after};
ghost use Rattle.un_tree.specs.declared.node.Node.TheVariants.{Split};
ghost use Rattle.un_certificate.specs.Joints.{blocks_of};
ghost use Rattle.un_stand.specs.Rooms.{IsAt};
ghost use Rattle.un_check.specs.Walks.{IsPositionAt, box_of, outside_of, parts_from, waiting_of};

use crate::stage::{Position, Stage, stage_of};
use un_base::memory_error::NoMemory;
use un_stand::room::{step, turn};
use un_stand::rules::Rules;
use un_tree::node::Node;
use un_walk::branch::branch_of;

/// Goes on from the outer room's box behind a node that is no Split.
fn leave_box(rules: &Rules, at: &mut Position, node: Node) -> Result<(), NoMemory>
    requires at { IsAt rules.now.m.now rules.now.limit at.old.outer }
    requires sides { HasSidesIn node (Whole (box_of rules.now.m.now at.old)) }
    requires plain { IsPlain node }
    ensures at { OnOk result (IsPositionAt rules.now.m.now rules.now.limit at.new) }
    ensures waits { OnOk result (let m = rules.now.m.now in
        after (blocks_of m) node (Whole (box_of m at.old)) (outside_of m at.old) ≡ waiting_of m at.new) }
{
    let _ = rules;
    let more = step(&mut at.outer, branch_of(node))?;
    at.stage = stage_of(more);
    Ok(())
}

/// Goes on to the part of block `k`, or behind the last part.
pub(crate) fn next_part(rules: &Rules, at: &mut Position, k: u32) -> Result<(), NoMemory>
    requires at { IsAt rules.now.m.now rules.now.limit at.old.outer }
    ensures at { OnOk result (IsPositionAt rules.now.m.now rules.now.limit at.new) }
    ensures waits { OnOk result (let m = rules.now.m.now in
        parts_from (blocks_of m) k (box_of m at.old) ++ outside_of m at.old ≡ waiting_of m at.new) }
{
    let blocks = rules.m.ext.blocks.len();
    if (k as usize) < blocks {
        at.stage = Stage::AtPart(k);
        return Ok(());
    }
    let more = turn(&mut at.outer)?;
    at.stage = stage_of(more);
    Ok(())
}

/// Goes on from the outer room's box behind a node.
pub(crate) fn pass_box(rules: &Rules, at: &mut Position, node: Node) -> Result<(), NoMemory>
    requires at { IsAt rules.now.m.now rules.now.limit at.old.outer }
    requires sides { HasSidesIn node (Whole (box_of rules.now.m.now at.old)) }
    requires stands { MayStand node (Whole (box_of rules.now.m.now at.old)) }
    ensures at { OnOk result (IsPositionAt rules.now.m.now rules.now.limit at.new) }
    ensures waits { OnOk result (let m = rules.now.m.now in
        after (blocks_of m) node (Whole (box_of m at.old)) (outside_of m at.old) ≡ waiting_of m at.new) }
{
    match node {
        Node::Split => next_part(rules, at, 0),
        Node::Branch { .. } | Node::Closed | Node::Open | Node::Part { .. } => leave_box(
            rules, at, node,
        ),
    }
}
