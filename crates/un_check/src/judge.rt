//! Which point a node of a tree breaks.

ghost use Rattle.std.specs.Prelude.{◌≡◌, ◌↔◌, List, IsTrue, length};
ghost use Rattle.un_domains.specs.Sets.{NoneEmpty};
ghost use Rattle.un_bound.specs.Relaxations.{IsRelaxation};
ghost use Rattle.un_post.specs.Postable.{IsPostable};
ghost use Rattle.un_tree.specs.Boxes.{reached};
ghost use Rattle.un_tree.specs.Parts.{IsRightIn, part_numbers, told};
ghost use Rattle.un_tree.specs.Waits.{Whole};
ghost use Rattle.un_tree.specs.declared.node.Node.{Node};
ghost use Rattle.un_model.specs.Boxes.{root_of};
ghost use Rattle.un_certificate.specs.Joints.{blocks_of, AreJoined};
ghost use Rattle.un_stand.specs.Rooms.{IsAt, path_of};
ghost use Rattle.un_check.specs.Judging.{HasScratch, IsBehind, IsFound, IsJudged, IsUnder, IsLeastUnder};
ghost use Rattle.un_check.specs.Walks.{IsPositionAt, box_of};

use crate::part::{judge_begin, judge_in};
use crate::stage::{Position, Stage};
use crate::verdict::TreeVerdict;
use un_base::ids::VarId;
use un_bound::relax::{RelaxAnswer, relax_bound};
use un_certificate::split::are_joined;
use un_domains::store::Store;
use un_prop::propagator::Scratch;
use un_stand::room::{Room, is_lost};
use un_stand::rules::Rules;
use un_tree::node::Node;
use un_tree::parts::{Parts, come_to};
use un_walk::branch::splits;

/// What was found of a node.
#[derive(Clone, Copy)]
pub(crate) enum Judged {
    /// It breaks a point.
    Broken(TreeVerdict),
    /// It keeps all points, and is no open leaf.
    Kept,
    /// It is an open leaf that keeps all points, with the least cost of the relaxation in its box.
    Leaf(u64),
}

/// The relaxation of the model in a box.
fn relaxed(rules: &Rules, cuts: &Store, scratch: &mut Scratch) -> RelaxAnswer
    requires postable { IsPostable rules.now.m.now }
    requires long { length cuts.now.sets ≡ length (root_of rules.now.m.now) }
    requires live { NoneEmpty cuts.now.sets }
    requires room { HasScratch rules.now.m.now scratch.old }
    ensures room { HasScratch rules.now.m.now scratch.new }
    ensures answer { IsRelaxation rules.now.m.now cuts.now.sets result }
{
    relax_bound(rules.m, cuts, scratch)
}

/// The least cost of a relaxation, where it is below the limit.
fn under(limit: Option<u64>, answer: RelaxAnswer) -> Option<u64>
    ensures { IsUnder limit answer result }
{
    match answer {
        RelaxAnswer::Empty => None,
        RelaxAnswer::Least(least) => match limit {
            None => Some(least),
            Some(limit) => { if least < limit { Some(least) } else { None } }
        },
    }
}

/// The least cost of the relaxation in the room's box, where it is below the limit.
fn least_under(rules: &Rules, room: &Room, scratch: &mut Scratch) -> Option<u64>
    requires postable { IsPostable rules.now.m.now }
    requires at { IsAt rules.now.m.now rules.now.limit room.now }
    requires room { HasScratch rules.now.m.now scratch.old }
    ensures room { HasScratch rules.now.m.now scratch.new }
    ensures least { IsLeastUnder rules.now.m.now rules.now.limit (reached (root_of rules.now.m.now) (path_of room.now)) result }
{
    let answer = relaxed(rules, &room.stand.cuts, scratch);
    under(rules.limit, answer)
}

/// Which point a branch breaks.
fn judge_branch(
    rules: &Rules,
    room: &Room,
    scratch: &mut Scratch,
    var: VarId,
    val: u32,
    place: u32,
) -> Judged
    requires postable { IsPostable rules.now.m.now }
    requires at { IsAt rules.now.m.now rules.now.limit room.now }
    requires room { HasScratch rules.now.m.now scratch.old }
    ensures room { HasScratch rules.now.m.now scratch.new }
    ensures judged { (rest : List Node) → IsJudged rules.now.m.now rules.now.limit place (Node.Branch var val)
        (Whole (reached (root_of rules.now.m.now) (path_of room.now))) rest result }
{
    if !splits(&room.stand.cuts, var, val) {
        return Judged::Broken(TreeVerdict::NotStrict(place));
    }
    match least_under(rules, room, scratch) {
        None => Judged::Broken(TreeVerdict::NotAlive(place)),
        Some(_) => Judged::Kept,
    }
}

/// Which point an open leaf breaks.
fn judge_open(rules: &Rules, room: &Room, scratch: &mut Scratch, place: u32) -> Judged
    requires postable { IsPostable rules.now.m.now }
    requires at { IsAt rules.now.m.now rules.now.limit room.now }
    requires room { HasScratch rules.now.m.now scratch.old }
    ensures room { HasScratch rules.now.m.now scratch.new }
    ensures judged { (rest : List Node) → IsJudged rules.now.m.now rules.now.limit place Node.Open
        (Whole (reached (root_of rules.now.m.now) (path_of room.now))) rest result }
{
    match least_under(rules, room, scratch) {
        None => Judged::Broken(TreeVerdict::NotAlive(place)),
        Some(least) => Judged::Leaf(least),
    }
}

/// Which point a closed leaf breaks.
fn judge_closed(rules: &Rules, room: &Room, place: u32) -> Judged
    requires at { IsAt rules.now.m.now rules.now.limit room.now }
    ensures { (rest : List Node) → IsJudged rules.now.m.now rules.now.limit place Node.Closed
        (Whole (reached (root_of rules.now.m.now) (path_of room.now))) rest result }
{
    let _ = rules;
    if is_lost(room) {
        Judged::Kept
    } else {
        Judged::Broken(TreeVerdict::NotClosed(place))
    }
}

/// Whether what joins the blocks is single in a box, and the parts behind come to the limit.
fn is_right(rules: &Rules, cuts: &Store, parts: Parts) -> bool
    ensures { (rest : List Node) → parts ≡ told (part_numbers (blocks_of rules.now.m.now) rest)
        → IsTrue result ↔ IsRightIn (AreJoined rules.now.m.now) (blocks_of rules.now.m.now) rules.now.limit Node.Split
        (Whole cuts.now.sets) rest }
{
    are_joined(rules.m, cuts) && come_to(parts, rules.limit)
}

/// Which point a Split breaks, before parts of which this is told.
fn judge_split(rules: &Rules, room: &Room, parts: Parts, place: u32) -> Judged
    requires at { IsAt rules.now.m.now rules.now.limit room.now }
    ensures { (rest : List Node) → parts ≡ told (part_numbers (blocks_of rules.now.m.now) rest)
        → IsJudged rules.now.m.now rules.now.limit place Node.Split
        (Whole (reached (root_of rules.now.m.now) (path_of room.now))) rest result }
{
    if is_right(rules, &room.stand.cuts, parts) {
        Judged::Kept
    } else {
        Judged::Broken(TreeVerdict::NotSplit(place))
    }
}

/// Which point a node breaks at the outer room's box, at this place of the list, where this is told of the parts behind it.
fn judge_box(
    rules: &Rules,
    room: &Room,
    scratch: &mut Scratch,
    node: Node,
    parts: Parts,
    place: u32,
) -> Judged
    requires postable { IsPostable rules.now.m.now }
    requires at { IsAt rules.now.m.now rules.now.limit room.now }
    requires room { HasScratch rules.now.m.now scratch.old }
    ensures room { HasScratch rules.now.m.now scratch.new }
    ensures judged { (rest : List Node) → IsBehind rules.now.m.now node rest parts → IsJudged rules.now.m.now rules.now.limit place node
        (Whole (reached (root_of rules.now.m.now) (path_of room.now))) rest result }
{
    match node {
        Node::Branch { var, val } => judge_branch(rules, room, scratch, var, val, place),
        Node::Closed => judge_closed(rules, room, place),
        Node::Open => judge_open(rules, room, scratch, place),
        Node::Split => judge_split(rules, room, parts, place),
        Node::Part { .. } => Judged::Broken(TreeVerdict::NotSplit(place)),
    }
}

/// Which point a node breaks where the check stands, at this place of the list, where this is told of the parts behind it.
pub(crate) fn judge(
    rules: &Rules,
    at: &Position,
    scratch: &mut Scratch,
    node: Node,
    parts: Parts,
    place: u32,
) -> Judged
    requires postable { IsPostable rules.now.m.now }
    requires at { IsPositionAt rules.now.m.now rules.now.limit at.now }
    requires room { HasScratch rules.now.m.now scratch.old }
    ensures room { HasScratch rules.now.m.now scratch.new }
    ensures found { (rest : List Node) → IsBehind rules.now.m.now node rest parts
        → IsFound rules.now.m.now rules.now.limit place node rest (box_of rules.now.m.now at.now) at.now.stage result }
{
    match &at.stage {
        Stage::AtBox => judge_box(rules, &at.outer, scratch, node, parts, place),
        Stage::AtPart(_) => judge_begin(node, place),
        Stage::InPart(k, _, room) => judge_in(rules.m, *k, room, node, place),
        Stage::AtEnd => Judged::Broken(TreeVerdict::Short),
    }
}
