//! Whether the tree of a report shows what its answer says.

ghost use Rattle.std.specs.Prelude.{◌≡◌, ◌↔◌, ℕ, List, Option, IsTrue, Contains, OnOk, MatchResult, All};
ghost use Rattle.un_model.specs.declared.model.Model.{Model};
ghost use Rattle.un_bound.specs.Arcs.{IsShort};
ghost use Rattle.un_problem.specs.Problems.{IsProblemOf};
ghost use Rattle.un_post.specs.Postable.{IsPostable};
ghost use Rattle.un_tree.specs.Waits.{IsOdd, open_count, outer_count};
ghost use Rattle.un_tree.specs.declared.node.Node.{Node};
ghost use Rattle.un_tree.specs.declared.node.Node.TheVariants.{Open};
ghost use Rattle.un_certificate.specs.Bounds.{IsLeastOpen};
ghost use Rattle.un_certificate.specs.Certificates.{IsStanding};
ghost use Rattle.un_certificate.specs.Joints.{visits_in};
ghost use Rattle.un_check.specs.Causes.{FitsAnswer, HasRightBound, HasRightLeaves, IsRightHead, IsToldBy, IsTreeCause, limit_of};
ghost use Rattle.un_check.specs.Seen.{IsSeen};
ghost use Rattle.un_check.specs.Verdicts.{IsYes};

use crate::tree::Seen;
use crate::verdict::TreeVerdict;
use un_certificate::bound::bound_of;
use un_ir::function::Function;
use un_model::model::Model;
use un_outside::status::NoCause;
use un_report::report::Answered;

/// The open leaves of a tree: the least of the least costs in their boxes, and how many they are.
#[derive(Clone, Copy)]
struct Leaves {
    least: Option<u64>,
    count: u32,
}

/// The limit of an answer's tree: for code its cost.
pub fn limit_of(answer: &Answered) -> Option<u64>
    ensures { result ≡ limit_of answer.now }
{
    match answer {
        Answered::Code { cost, .. } => Some(*cost),
        Answered::Infeasible => None,
        Answered::Spent => None,
    }
}

/// Whether a number is the greatest odd one of at most so many nodes.
fn is_odd(count: u32, nodes: u32) -> bool
    ensures { IsTrue result ↔ IsOdd count nodes }
{
    count % 2 == 1 && count <= nodes && nodes - count < 2
}

/// Whether a tree has as many of so many nodes as it can have, where a leaf is open. Those in parts do not count.
fn uses_nodes(nodes: u32, outer_nodes: u32, open_leaves: u32) -> bool
    ensures { (t : List Node) → open_leaves ≡ open_count t → (IsTrue result ↔ (Contains t Open → IsOdd outer_nodes nodes)) }
{
    if open_leaves == 0 {
        return true;
    }
    is_odd(outer_nodes, nodes)
}

/// Whether an answer fits the number of open leaves.
fn fits_answer(answer: &Answered, open_leaves: u32) -> bool
    ensures { (t : List Node) → open_leaves ≡ open_count t → (IsTrue result ↔ FitsAnswer answer.now t) }
{
    match answer {
        Answered::Code { .. } => true,
        Answered::Infeasible => open_leaves == 0,
        Answered::Spent => open_leaves != 0,
    }
}

/// Whether the open leaves of a tree are right.
fn has_right_leaves(nodes: u32, answer: &Answered, outer_nodes: u32, open_leaves: u32) -> bool
    ensures { (m : Model) (t : List Node) → outer_nodes ≡ outer_count (visits_in m t) → open_leaves ≡ open_count t
        → (IsTrue result ↔ HasRightLeaves m nodes answer.now t) }
{
    uses_nodes(nodes, outer_nodes, open_leaves) && fits_answer(answer, open_leaves)
}

/// Whether the bound of an answer is the tree's.
fn has_right_bound(m: &Model, answer: &Answered, least: Option<u64>) -> bool
    requires postable { IsPostable m.now }
    requires short { All IsShort m.now.ext.blocks }
    ensures { (t : List Node) → IsLeastOpen m.now (visits_in m.now t) least
        → (IsTrue result ↔ HasRightBound m.now answer.now t) }
{
    match answer {
        Answered::Code { cost, bound, .. } => *bound == bound_of(m, *cost, least),
        Answered::Infeasible => true,
        Answered::Spent => true,
    }
}

/// Whether the open leaves of a tree that keeps all points, and the bound of the answer, are right. The tree has so many nodes in no part.
fn judge_leaves(
    f: &Function,
    m: &Model,
    nodes: u32,
    answer: &Answered,
    outer_nodes: u32,
    leaves: Leaves,
) -> Result<(), NoCause>
    requires problem { IsProblemOf f.now m.now }
    ensures { (name : List ℕ) (t : List Node) → outer_nodes ≡ outer_count (visits_in m.now t)
        → IsYes m.now (limit_of answer.now) t leaves.least leaves.count
        → IsRightHead f.now.name m.now (record { name = name; nodes = nodes; answer = answer.now; tree = t })
        → IsToldBy f.now.name m.now (record { name = name; nodes = nodes; answer = answer.now; tree = t }) result }
{
    if !has_right_leaves(nodes, answer, outer_nodes, leaves.count) {
        return Err(NoCause::Spent);
    }
    if !has_right_bound(m, answer, leaves.least) {
        return Err(NoCause::Bound);
    }
    Ok(())
}

/// The open leaves of a tree that keeps all points, or which point it breaks.
fn leaves_of(seen: Seen) -> Result<Leaves, NoCause>
    ensures told { (m : Model) (limit : Option ℕ) (t : List Node) → IsSeen m limit t seen
        → MatchResult result (λ leaves. IsYes m limit t leaves.least leaves.count) (IsTreeCause m limit t) }
    ensures outer { (m : Model) (limit : Option ℕ) (t : List Node) → IsSeen m limit t seen
        → OnOk result (seen.outer_nodes ≡ outer_count (visits_in m t)) }
    ensures standing { (m : Model) (limit : Option ℕ) (t : List Node) → IsSeen m limit t seen → OnOk result (IsStanding m limit t) }
{
    match seen.verdict {
        TreeVerdict::Yes { least, open_leaves } => Ok(Leaves {
            least,
            count: open_leaves,
        }),
        TreeVerdict::NotStrict(place) => Err(NoCause::Strict(place)),
        TreeVerdict::NotSplit(place) => Err(NoCause::Split(place)),
        TreeVerdict::NotAlive(place) => Err(NoCause::Alive(place)),
        TreeVerdict::NotClosed(place) => Err(NoCause::Closed(place)),
        TreeVerdict::Short => Err(NoCause::Short),
    }
}

/// Whether the tree of a report shows what its answer says, from what was seen of it. The name, the numbers, the cost and the listing are
/// right.
pub(crate) fn judge_tree(
    f: &Function,
    m: &Model,
    nodes: u32,
    answer: &Answered,
    seen: Seen,
) -> Result<(), NoCause>
    requires problem { IsProblemOf f.now m.now }
    ensures told { (name : List ℕ) (t : List Node) → IsSeen m.now (limit_of answer.now) t seen
        → IsRightHead f.now.name m.now (record { name = name; nodes = nodes; answer = answer.now; tree = t })
        → IsToldBy f.now.name m.now (record { name = name; nodes = nodes; answer = answer.now; tree = t }) result }
    ensures standing { (t : List Node) → IsSeen m.now (limit_of answer.now) t seen
        → OnOk result (IsStanding m.now (limit_of answer.now) t) }
{
    match leaves_of(seen) {
        Err(cause) => Err(cause),
        Ok(leaves) => judge_leaves(f, m, nodes, answer, seen.outer_nodes, leaves),
    }
}
