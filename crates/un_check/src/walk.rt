//! The check of a tree, node after node.

ghost use Rattle.std.specs.Prelude.{◌≡◌, ◌+◌, ◌<◌, List, ◌∷◌, MatchOption, OnOk, IfOk, cond};
ghost use Rattle.un_post.specs.Postable.{IsPostable};
ghost use Rattle.un_tree.specs.Waits.{after, is_outside};
ghost use Rattle.un_tree.specs.declared.node.Node.{Node};
ghost use Rattle.un_certificate.specs.Joints.{blocks_of};
ghost use Rattle.un_check.specs.Judging.{HasBehind, HasScratch, IsBehind};
ghost use Rattle.un_check.specs.Steps.{CanPass, CanStep};
ghost use Rattle.un_check.specs.Verdicts.{IsNo};
ghost use Rattle.un_check.specs.Walks.{IsPositionAt, IsWalk, behind_of, box_of, here_of, lowered, waiting_of};

use crate::judge::{Judged, judge};
use crate::outer::{next_part, pass_box};
use crate::part::{open_part, step_part};
use crate::stage::{Position, Stage, outer_at};
use crate::verdict::TreeVerdict;
use std::alloc::Global;
use un_base::memory_error::NoMemory;
use un_base::numbers::later;
use un_prop::propagator::Scratch;
use un_stand::rules::Rules;
use un_tree::node::Node;
use un_tree::parts::Parts;

/// How far the check of a tree has come.
#[derive(Drop)]
pub(crate) struct Walk {
    /// Where it stands.
    pub at: Position,
    pub scratch: Scratch,
    /// How many nodes were looked at.
    pub place: u32,
    /// How many of them are in no part.
    pub outer_nodes: u32,
    /// How many of them are open leaves.
    pub open_leaves: u32,
    /// The least of the least costs of the relaxation in these leaves' boxes.
    pub least: Option<u64>,
}

/// The lower of two least costs, where there is a first.
fn lowered(first: Option<u64>, second: u64) -> u64
    ensures { result ≡ lowered first second }
{
    match first {
        None => second,
        Some(first) => first.min(second),
    }
}

/// Goes on in a part behind a node, or to what comes behind the part.
fn pass_part(rules: &Rules, at: &mut Position, node: Node) -> Result<(), NoMemory>
    requires at { IsPositionAt rules.now.m.now rules.now.limit at.old }
    requires step { CanStep node at.old.stage }
    ensures at { OnOk result (IsPositionAt rules.now.m.now rules.now.limit at.new) }
    ensures waits { OnOk result (let m = rules.now.m.now in
        after (blocks_of m) node (here_of m at.old) (behind_of m at.old) ≡ waiting_of m at.new) }
{
    match step_part(&mut at.stage, node)? {
        None => Ok(()),
        Some(next) => next_part(rules, at, next),
    }
}

/// Goes on to what waits behind a node.
fn advance(alloc: Global, rules: &Rules, at: &mut Position, node: Node) -> Result<(), NoMemory>
    requires postable { IsPostable rules.now.m.now }
    requires at { IsPositionAt rules.now.m.now rules.now.limit at.old }
    requires pass { CanPass (box_of rules.now.m.now at.old) node at.old.stage }
    ensures at { OnOk result (IsPositionAt rules.now.m.now rules.now.limit at.new) }
    ensures waits { OnOk result (let m = rules.now.m.now in
        after (blocks_of m) node (here_of m at.old) (behind_of m at.old) ≡ waiting_of m at.new) }
{
    match &at.stage {
        Stage::AtBox => pass_box(rules, at, node),
        Stage::AtPart(k) => {
            let k = *k;
            open_part(alloc, rules, at, k, node)
        }
        Stage::InPart(_, _, _) => pass_part(rules, at, node),
        Stage::AtEnd => Ok(()),
    }
}

/// Goes on behind a node that keeps all points.
fn pass(alloc: Global, rules: &Rules, walk: &mut Walk, node: Node) -> Result<(), NoMemory>
    requires postable { IsPostable rules.now.m.now }
    requires at { IsPositionAt rules.now.m.now rules.now.limit walk.old.at }
    requires pass { CanPass (box_of rules.now.m.now walk.old.at) node walk.old.at.stage }
    ensures at { OnOk result (IsPositionAt rules.now.m.now rules.now.limit walk.new.at) }
    ensures waits { OnOk result (let m = rules.now.m.now in
        after (blocks_of m) node (here_of m walk.old.at) (behind_of m walk.old.at) ≡ waiting_of m walk.new.at) }
    ensures place { OnOk result (walk.new.place ≡ walk.old.place + 1) }
    ensures outer { OnOk result (walk.new.outer_nodes
        ≡ walk.old.outer_nodes + cond (is_outside (here_of rules.now.m.now walk.old.at)) 1 0) }
    ensures count { OnOk result (walk.new.open_leaves ≡ walk.old.open_leaves) }
    ensures least { OnOk result (walk.new.least ≡ walk.old.least) }
    ensures scratch { OnOk result (walk.new.scratch ≡ walk.old.scratch) }
{
    walk.place = later(walk.place, 1)?;
    walk.outer_nodes = later(walk.outer_nodes, outer_at(&walk.at.stage))?;
    advance(alloc, rules, &mut walk.at, node)?;
    Ok(())
}

/// One node more, where this is told of the parts behind it: the verdict where it breaks a point, or where nothing waits for it.
pub(crate) fn visit(
    alloc: Global,
    rules: &Rules,
    walk: &mut Walk,
    node: Node,
    parts: Parts,
) -> Result<Option<TreeVerdict>, NoMemory>
    requires postable { IsPostable rules.now.m.now }
    requires at { IsPositionAt rules.now.m.now rules.now.limit walk.old.at }
    requires room { HasScratch rules.now.m.now walk.old.scratch }
    requires behind { HasBehind rules.now.m.now node parts }
    ensures at { OnOk result (IsPositionAt rules.now.m.now rules.now.limit walk.new.at) }
    ensures room { OnOk result (HasScratch rules.now.m.now walk.new.scratch) }
    ensures visited { IfOk result (λ verdict. (nodes rest : List Node) → IsBehind rules.now.m.now node rest parts
        → IsWalk rules.now.m.now rules.now.limit nodes (node ∷ rest) walk.old
        → MatchOption verdict (IsWalk rules.now.m.now rules.now.limit nodes rest walk.new) (IsNo rules.now.m.now rules.now.limit nodes)) }
{
    match judge(rules, &walk.at, &mut walk.scratch, node, parts, walk.place) {
        Judged::Broken(verdict) => Ok(Some(verdict)),
        Judged::Kept => {
            pass(alloc, rules, walk, node)?;
            Ok(None)
        }
        Judged::Leaf(least) => {
            walk.open_leaves = later(walk.open_leaves, 1)?;
            walk.least = Some(lowered(walk.least, least));
            pass(alloc, rules, walk, node)?;
            Ok(None)
        }
    }
}
