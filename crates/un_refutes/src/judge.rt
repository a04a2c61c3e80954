//! Whether a node of a tree with mirrors keeps its point.

ghost use Rattle.std.specs.Prelude.{◌≡◌, ◌↔◌, IsTrue};
ghost use Rattle.un_model.specs.Boxes.{root_of};
ghost use Rattle.un_mirrors.specs.Exchanged.{AreRegisters};
ghost use Rattle.un_stand.specs.Rooms.{CanCheck, IsAt, path_of};
ghost use Rattle.un_tree.specs.Boxes.{Splits, reached};
ghost use Rattle.un_refutes.specs.SymVerdicts.{KeepsAt, point_of};
ghost use Rattle.un_refutes.specs.SymWalks.{IsJudged};

use crate::verdict::SymVerdict;
use un_base::ids::VarId;
use un_mirrors::mirror::is_mirror;
use un_mirrors::registers::Registers;
use un_stand::room::{Room, is_lost};
use un_stand::rules::Rules;
use un_symtree::node::SymNode;
use un_walk::branch::splits;

/// Whether a branch has both sides in the room's box.
fn is_strict(rules: &Rules, room: &Room, var: VarId, val: u32) -> bool
    requires at { IsAt rules.now.m.now rules.now.limit room.now }
    ensures { IsTrue result ↔ Splits (reached (root_of rules.now.m.now) (path_of room.now)) var val }
{
    let _ = rules;
    splits(&room.stand.cuts, var, val)
}

/// Whether a node that stands at the room's box keeps its point.
fn keeps(rules: &Rules, registers: &Registers, room: &Room, node: SymNode) -> bool
    requires rules { CanCheck rules.now }
    requires registers { AreRegisters rules.now.m.now registers.now }
    requires at { IsAt rules.now.m.now rules.now.limit room.now }
    ensures { IsTrue result ↔ KeepsAt rules.now.m.now rules.now.limit node (path_of room.now) }
{
    match node {
        SymNode::Branch { var, val } => is_strict(rules, room, var, val),
        SymNode::Closed => is_lost(room),
        SymNode::Mirror { a, b, depth } => {
            is_mirror(rules.m, registers, &room.stand, a, b, depth)
        }
    }
}

/// The point that nodes of this kind have, with a place.
fn point_of(node: SymNode, place: u32) -> SymVerdict
    ensures { result ≡ point_of node place }
{
    match node {
        SymNode::Branch { .. } => SymVerdict::NotStrict(place),
        SymNode::Closed => SymVerdict::NotClosed(place),
        SymNode::Mirror { .. } => SymVerdict::NotMirror(place),
    }
}

/// Which point a node breaks that stands at the room's box, at this place of the list.
pub(crate) fn judge(
    rules: &Rules,
    registers: &Registers,
    room: &Room,
    node: SymNode,
    place: u32,
) -> Option<SymVerdict>
    requires rules { CanCheck rules.now }
    requires registers { AreRegisters rules.now.m.now registers.now }
    requires at { IsAt rules.now.m.now rules.now.limit room.now }
    ensures { IsJudged rules.now.m.now rules.now.limit place node (path_of room.now) result }
{
    if keeps(rules, registers, room, node) {
        None
    } else {
        Some(point_of(node, place))
    }
}
