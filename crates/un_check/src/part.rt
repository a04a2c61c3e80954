//! The way over the part of a block: a room of its own, with what is posted for the block under the part's number.

ghost use Rattle.std.specs.Prelude.{◌≡◌, ◌∷◌, ◌++◌, ◌+◌, ◌<◌, ℕ, List, [], IfOk, OnOk, Option};
ghost use Rattle.un_domains.specs.Sets.{Sets};
ghost use Rattle.un_model.specs.Boxes.{root_of};
ghost use Rattle.un_model.specs.declared.model.Model.{Model};
ghost use Rattle.un_post.specs.Postable.{IsPostable};
ghost use Rattle.un_tree.specs.Boxes.{IsBox, reached};
ghost use Rattle.un_tree.specs.Waits.{Waiting, Begins, Inside, after};
ghost use Rattle.un_tree.specs.declared.node.Node.{Node};
ghost use Rattle.un_certificate.specs.Joints.{blocks_of};
ghost use Rattle.un_stand.specs.Rooms.{IsAt, IsPartAt, IsRoom, path_of};
ghost use Rattle.un_check.specs.Judging.{IsJudged};
ghost use Rattle.un_check.specs.Steps.{CanStep, IsOnIn, number_at, over_waits};
ghost use Rattle.un_check.specs.Walks.{IsPositionAt, behind, box_of, here, outside_of, parts_from, waiting_of};

use crate::judge::Judged;
use crate::stage::{Position, Stage};
use crate::verdict::TreeVerdict;
use std::alloc::Global;
use un_base::ids::{BlockId, VarId};
use un_base::memory_error::NoMemory;
use un_base::numbers::later;
use un_certificate::split::is_own;
use un_domains::store::Store;
use un_model::model::Model;
use un_post::part::post_block;
use un_post::post::Posted;
use un_stand::room::{Room, first_room, is_lost, step};
use un_stand::rules::Rules;
use un_tree::node::Node;
use un_walk::branch::{branch_of, splits};

/// A room at a box, with what is posted for block `k` under a number or none.
fn room_of(
    alloc: Global,
    m: &Model,
    cuts: &Store,
    k: u32,
    number: Option<u64>,
) -> Result<Room, NoMemory>
    requires postable { IsPostable m.now }
    requires block { k < blocks_of m.now }
    requires first { IsBox (root_of m.now) cuts.now.sets }
    ensures at { IfOk result (IsPartAt cuts.now.sets m.now k number) }
    ensures path { IfOk result (λ room. path_of room ≡ []) }
{
    let posted = post_block(alloc, m, BlockId(k), number)?;
    let first = cuts.copy(alloc)?;
    let store = cuts.copy(alloc)?;
    let Posted { props, horizon, .. } = posted;
    let room = first_room(alloc, first, props, store, horizon)?;
    Ok(room)
}

/// The number of a Part, where there is one.
fn number_of(node: Node) -> Option<u64>
    ensures { result ≡ number_at node }
{
    match node {
        Node::Part { least } => least,
        Node::Branch { .. } | Node::Closed | Node::Open | Node::Split => None,
    }
}

/// Goes into the part of block `k` that a node begins.
pub(crate) fn open_part(
    alloc: Global,
    rules: &Rules,
    at: &mut Position,
    k: u32,
    node: Node,
) -> Result<(), NoMemory>
    requires postable { IsPostable rules.now.m.now }
    requires at { IsAt rules.now.m.now rules.now.limit at.old.outer }
    requires block { k < blocks_of rules.now.m.now }
    ensures at { OnOk result (IsPositionAt rules.now.m.now rules.now.limit at.new) }
    ensures waits { OnOk result (let m = rules.now.m.now in
        Inside k (number_at node) (box_of m at.old) ∷ (parts_from (blocks_of m) (k + 1) (box_of m at.old) ++ outside_of m at.old)
        ≡ waiting_of m at.new) }
{
    let number = number_of(node);
    let room = room_of(alloc, rules.m, &at.outer.stand.cuts, k, number)?;
    at.stage = Stage::InPart(k, number, room);
    Ok(())
}

/// Goes on behind a node in a part. Answers the block whose part comes next, where the part is over.
pub(crate) fn step_part(stage: &mut Stage, node: Node) -> Result<Option<u32>, NoMemory>
    requires { CanStep node stage.old }
    ensures at { IfOk result (λ over. (m : Model) (b : Sets) → IsOnIn m b stage.old stage.new) }
    ensures waits { IfOk result (λ over. (n : ℕ) (b : Sets) (ws : List Waiting)
        → after n node (here b stage.old) (behind n b ws stage.old) ≡ over_waits n b ws stage.new over) }
{
    match stage {
        Stage::InPart(k, _, room) => {
            let more = step(room, branch_of(node))?;
            if more {
                return Ok(None);
            }
            let next = later(*k, 1)?;
            Ok(Some(next))
        }
        Stage::AtBox => Ok(None),
        Stage::AtPart(_) => Ok(None),
        Stage::AtEnd => Ok(None),
    }
}

/// Which point a node breaks where a part must begin.
pub(crate) fn judge_begin(node: Node, place: u32) -> Judged
    ensures { (m : Model) (limit : Option ℕ) (k : ℕ) (b : Sets) (rest : List Node) → IsJudged m limit place node (Begins k b) rest result }
{
    match node {
        Node::Part { .. } => Judged::Kept,
        Node::Branch { .. } => Judged::Broken(TreeVerdict::NotSplit(place)),
        Node::Closed => Judged::Broken(TreeVerdict::NotSplit(place)),
        Node::Open => Judged::Broken(TreeVerdict::NotSplit(place)),
        Node::Split => Judged::Broken(TreeVerdict::NotSplit(place)),
    }
}

/// Which point a branch in the part of block `k` breaks.
fn judge_branch_in(m: &Model, k: u32, room: &Room, var: VarId, val: u32, place: u32) -> Judged
    requires at { IsRoom room.now }
    ensures { (first : Sets) (limit : Option ℕ) (number : Option ℕ) (rest : List Node) → IsPartAt first m.now k number room.now
        → IsJudged m.now limit place (Node.Branch var val) (Inside k number (reached first (path_of room.now))) rest result }
{
    if !splits(&room.stand.cuts, var, val) {
        return Judged::Broken(TreeVerdict::NotStrict(place));
    }
    if !is_own(m, k, var) {
        return Judged::Broken(TreeVerdict::NotStrict(place));
    }
    Judged::Kept
}

/// Which point a closed leaf in a part breaks.
fn judge_closed_in(m: &Model, k: u32, room: &Room, place: u32) -> Judged
    ensures { (first : Sets) (limit : Option ℕ) (number : Option ℕ) (rest : List Node) → IsPartAt first m.now k number room.now
        → IsJudged m.now limit place Node.Closed (Inside k number (reached first (path_of room.now))) rest result }
{
    let _ = m;
    let _ = k;
    if is_lost(room) {
        Judged::Kept
    } else {
        Judged::Broken(TreeVerdict::NotClosed(place))
    }
}

/// Which point a node in the part of block `k` breaks, at the box of the part's room.
pub(crate) fn judge_in(m: &Model, k: u32, room: &Room, node: Node, place: u32) -> Judged
    requires at { IsRoom room.now }
    ensures { (first : Sets) (limit : Option ℕ) (number : Option ℕ) (rest : List Node) → IsPartAt first m.now k number room.now
        → IsJudged m.now limit place node (Inside k number (reached first (path_of room.now))) rest result }
{
    match node {
        Node::Branch { var, val } => judge_branch_in(m, k, room, var, val, place),
        Node::Closed => judge_closed_in(m, k, room, place),
        Node::Open => Judged::Broken(TreeVerdict::NotSplit(place)),
        Node::Split => Judged::Broken(TreeVerdict::NotSplit(place)),
        Node::Part { .. } => Judged::Broken(TreeVerdict::NotSplit(place)),
    }
}
