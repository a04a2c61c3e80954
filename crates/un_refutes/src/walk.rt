//! The check of a tree with mirrors, node after node.

ghost use Rattle.std.specs.Prelude.{◌≡◌, ◌+◌, List, [], ◌∷◌, MatchOption, OnOk, IfOk};
ghost use Rattle.un_mirrors.specs.Exchanged.{AreRegisters};
ghost use Rattle.un_mirrors.specs.Mirrors.{sym_branch_at};
ghost use Rattle.un_stand.specs.Rooms.{CanCheck, IsAt, path_of};
ghost use Rattle.un_symtree.specs.declared.node.SymNode.{SymNode};
ghost use Rattle.un_walk.specs.Routes.{paths_after};
ghost use Rattle.un_walk.specs.Turns.{paths_at, paths_behind};
ghost use Rattle.un_refutes.specs.SymVerdicts.{IsVerdict, KeepsAt};
ghost use Rattle.un_refutes.specs.SymWalks.{IsWalk};

use crate::judge::judge;
use crate::verdict::SymVerdict;
use un_base::ids::VarId;
use un_base::memory_error::NoMemory;
use un_base::numbers::later;
use un_mirrors::registers::Registers;
use un_stand::room::{Room, step};
use un_stand::rules::Rules;
use un_symtree::node::SymNode;

/// How far the check of a tree has come.
#[derive(Drop)]
pub(crate) struct Walk {
    pub room: Room,
    /// Whether a box waits, which is then the room's.
    pub more: bool,
    /// How many nodes were looked at.
    pub place: u32,
}

/// The variable and the greatest value of the side below, where the node branches.
fn branch_of(node: SymNode) -> Option<(VarId, u32)>
    ensures { result ≡ sym_branch_at node }
{
    match node {
        SymNode::Branch { var, val } => Some((var, val)),
        SymNode::Closed => None,
        SymNode::Mirror { .. } => None,
    }
}

/// Goes on behind a node that keeps its point.
fn pass(rules: &Rules, walk: &mut Walk, node: SymNode) -> Result<(), NoMemory>
    requires rules { CanCheck rules.now }
    requires at { IsAt rules.now.m.now rules.now.limit walk.old.room }
    requires keeps { KeepsAt rules.now.m.now rules.now.limit node (path_of walk.old.room) }
    ensures at { OnOk result (IsAt rules.now.m.now rules.now.limit walk.new.room) }
    ensures waits { OnOk result (paths_after (sym_branch_at node) (path_of walk.old.room) (paths_behind [] (path_of walk.old.room))
        ≡ paths_at (path_of walk.new.room) walk.new.more) }
    ensures place { OnOk result (walk.new.place ≡ walk.old.place + 1) }
{
    let _ = rules;
    walk.place = later(walk.place, 1)?;
    walk.more = step(&mut walk.room, branch_of(node))?;
    Ok(())
}

/// One node more: the verdict where it breaks its point, or where no box waits for it.
pub(crate) fn visit(
    rules: &Rules,
    registers: &Registers,
    walk: &mut Walk,
    node: SymNode,
) -> Result<Option<SymVerdict>, NoMemory>
    requires rules { CanCheck rules.now }
    requires registers { AreRegisters rules.now.m.now registers.now }
    requires at { IsAt rules.now.m.now rules.now.limit walk.old.room }
    ensures at { OnOk result (IsAt rules.now.m.now rules.now.limit walk.new.room) }
    ensures visited { IfOk result (λ verdict. (nodes rest : List SymNode)
        → IsWalk rules.now.m.now rules.now.limit nodes (node ∷ rest) walk.old
        → MatchOption verdict (IsWalk rules.now.m.now rules.now.limit nodes rest walk.new)
        (IsVerdict rules.now.m.now rules.now.limit nodes)) }
{
    if !walk.more {
        return Ok(Some(SymVerdict::Short));
    }
    match judge(rules, registers, &walk.room, node, walk.place) {
        Some(verdict) => Ok(Some(verdict)),
        None => {
            pass(rules, walk, node)?;
            Ok(None)
        }
    }
}
