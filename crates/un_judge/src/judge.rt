//! The judge: a step log, leaf after leaf of a tree.

ghost use Rattle.std.specs.Prelude.{◌≡◌, ◌∷◌, ℕ, List, All, MatchOption, OnOk, IfOk, length};
ghost use Rattle.un_isa.specs.Fit.{IsFit};
ghost use Rattle.un_ir.specs.Extended.{IsExtended};
ghost use Rattle.un_domains.specs.Sets.{Sets};
ghost use Rattle.un_model.specs.Boxes.{IsBelow, root_of};
ghost use Rattle.un_model.specs.Options.{AreOptions};
ghost use Rattle.un_model.specs.Variables.{IsModel};
ghost use Rattle.un_tree.specs.Covered.{OuterStands};
ghost use Rattle.un_tree.specs.Waits.{IsTreeOf, IsPlain, HasSides, HasSidesIn, Whole, visits_of, after};
ghost use Rattle.un_tree.specs.declared.node.Node.{Node};
ghost use Rattle.un_walk.specs.Finished.{NoneIn};
ghost use Rattle.un_walk.specs.Stands.{IsStandAt};
ghost use Rattle.un_walk.specs.Turns.{waits, waiting_at};
ghost use Rattle.un_steps.specs.Keeping.{IsGround};
ghost use Rattle.un_judge.specs.Judged.{IsJudged, OnYes};
ghost use Rattle.un_judge.specs.Leaves.{LeftComes};
ghost use Rattle.un_judge.specs.Walks.{IsWalk, NotYes, Passes, TextComes, blocks_of};
ghost use Rattle.un_judge.specs.declared.verdict.StepVerdict.{StepVerdict};

use crate::leaf::{LeafEnd, Left, Rules, close};
use crate::verdict::StepVerdict;
use std::alloc::Global;
use un_base::memory_error::NoMemory;
use un_model::model::Model;
use un_root::store::first_box;
use un_tree::node::{Node, Tree};
use un_walk::branch::branch_of;
use un_walk::stand::{Stand, first_stand, step};

/// How far the judging of a log has come.
#[derive(Drop)]
pub struct Walk<'a> {
    pub stand: Stand,
    /// Whether a box waits, which is then the stand's.
    pub more: bool,
    /// What is left of the log.
    pub left: Left<'a>,
}

/// Goes over the lines of a closed leaf. Answers the verdict where they do not close it.
fn close_here(r: &Rules<'_>, walk: &mut Walk<'_>) -> Result<Option<StepVerdict>, NoMemory>
    requires ground { IsGround r.now.m.now }
    requires at { IsStandAt (root_of r.now.m.now) walk.old.stand }
    ensures at { OnOk result (IsStandAt (root_of r.now.m.now) walk.new.stand) }
    ensures path { OnOk result (walk.new.stand.path.items ≡ walk.old.stand.path.items) }
    ensures more { OnOk result (walk.new.more ≡ walk.old.more) }
    ensures comes { IfOk result (λ told. (boxes : List Sets) (verdict : StepVerdict)
        → MatchOption told (LeftComes r.now walk.new.left boxes verdict) (λ bad. verdict ≡ bad)
        → LeftComes r.now walk.old.left (walk.old.stand.cuts.sets ∷ boxes) verdict) }
    ensures refuted { IfOk result (λ told. MatchOption told (NoneIn (IsBelow r.now.m.now r.now.limit) walk.old.stand.cuts.sets) NotYes) }
{
    walk.stand.cuts.mark()?;
    let end = close(r, &mut walk.stand.cuts, walk.left)?;
    walk.stand.cuts.undo();
    match end {
        LeafEnd::Closed(left) => {
            walk.left = left;
            Ok(None)
        }
        LeafEnd::Bad(line) => Ok(Some(StepVerdict::BadStep(line))),
        LeafEnd::Short => Ok(Some(StepVerdict::Short)),
    }
}

/// Goes over the lines of a node: a closed leaf has some. Answers the verdict where they do not close it.
fn lines_of(r: &Rules<'_>, walk: &mut Walk<'_>, node: Node) -> Result<Option<StepVerdict>, NoMemory>
    requires ground { IsGround r.now.m.now }
    requires at { IsStandAt (root_of r.now.m.now) walk.old.stand }
    ensures at { OnOk result (IsStandAt (root_of r.now.m.now) walk.new.stand) }
    ensures path { OnOk result (walk.new.stand.path.items ≡ walk.old.stand.path.items) }
    ensures more { OnOk result (walk.new.more ≡ walk.old.more) }
    ensures passes { IfOk result (Passes r.now node walk.old walk.new) }
{
    match node {
        Node::Branch { .. } => Ok(None),
        Node::Closed => { close_here(r, walk) }
        Node::Open => Ok(None),
        Node::Split => Ok(None),
        Node::Part { .. } => Ok(None),
    }
}

/// Goes on behind a node. Answers whether a box waits there.
fn advance(r: &Rules<'_>, stand: &mut Stand, node: Node) -> Result<bool, NoMemory>
    requires at { IsStandAt (root_of r.now.m.now) stand.old }
    requires plain { IsPlain node }
    requires strict { HasSidesIn node (Whole stand.old.cuts.sets) }
    ensures at { OnOk result (IsStandAt (root_of r.now.m.now) stand.new) }
    ensures waits { IfOk result (λ more. after (blocks_of r.now) node (Whole stand.old.cuts.sets) (waits (root_of r.now.m.now) stand.old.path.items)
        ≡ waiting_at (root_of r.now.m.now) stand.new.path.items more) }
{
    let _ = r;
    let more = step(stand, branch_of(node))?;
    Ok(more)
}

/// One node more: the verdict where a line is bad, or where the log ends there.
fn visit(r: &Rules<'_>, walk: &mut Walk<'_>, node: Node) -> Result<Option<StepVerdict>, NoMemory>
    requires ground { IsGround r.now.m.now }
    requires at { IsStandAt (root_of r.now.m.now) walk.old.stand }
    requires plain { IsPlain node }
    requires strict { HasSidesIn node (Whole walk.old.stand.cuts.sets) }
    ensures visited { IfOk result (λ told. (nodes rest : List Node) (log : List ℕ) → IsWalk r.now nodes log (node ∷ rest) walk.old
        → MatchOption told (IsWalk r.now nodes log rest walk.new)
        (λ bad. NotYes bad × IsJudged r.now.rules r.now.m.now r.now.limit nodes log bad)) }
{
    let told = lines_of(r, walk, node)?;
    if let Some(verdict) = told {
        return Ok(Some(verdict));
    }
    walk.more = advance(r, &mut walk.stand, node)?;
    Ok(None)
}

/// Before the first node.
fn begin<'a>(alloc: Global, r: &Rules<'_>, log: &'a [u8]) -> Result<Walk<'a>, NoMemory>
    requires ground { IsGround r.now.m.now }
    ensures first { IfOk result (λ walk. (nodes : List Node) → IsTreeOf (blocks_of r.now) (root_of r.now.m.now) nodes
        → All IsPlain nodes → All HasSides (visits_of (blocks_of r.now) (root_of r.now.m.now) nodes) → IsWalk r.now nodes log.now nodes walk) }
{
    let cuts = first_box(alloc, r.m)?;
    Ok(Walk {
        stand: first_stand(alloc, cuts),
        more: true,
        left: Left { text: log, read: 0 },
    })
}

/// What the end of a log comes to behind the last leaf.
fn end_of(text: &[u8]) -> StepVerdict
    ensures { TextComes text.now result }
{
    if text.is_empty() {
        StepVerdict::Yes
    } else {
        StepVerdict::Short
    }
}

/// What a log comes to by the first so many rules.
fn judge_by(alloc: Global, r: &Rules<'_>, t: &Tree, log: &[u8]) -> Result<StepVerdict, NoMemory>
    requires ground { IsGround r.now.m.now }
    requires whole { IsTreeOf (blocks_of r.now) (root_of r.now.m.now) t.now.nodes.items }
    requires plain { All IsPlain t.now.nodes.items }
    requires strict { All HasSides (visits_of (blocks_of r.now) (root_of r.now.m.now) t.now.nodes.items) }
    ensures verdict { IfOk result (IsJudged r.now.rules r.now.m.now r.now.limit t.now.nodes.items log.now) }
    ensures stands { IfOk result (OnYes (All (OuterStands (IsBelow r.now.m.now r.now.limit))
        (visits_of (blocks_of r.now) (root_of r.now.m.now) t.now.nodes.items))) }
{
    let mut walk = begin(alloc, r, log)?;
    for node in &t.nodes {
        let told = visit(r, &mut walk, *node)?;
        if let Some(verdict) = told {
            return Ok(verdict);
        }
    }
    Ok(end_of(walk.left.text))
}

/// What a step log comes to by the first so many rules, for the closed leaves of a tree without a Split whose branches have both sides. Where
/// the answer is `Yes`, no closed leaf holds a solution below the limit. More rules than there are mean all.
///
/// # Errors
/// Where memory is short, or where there are more variables or lines than numbers below 2^32.
pub fn judge(
    alloc: Global,
    m: &Model,
    limit: Option<u64>,
    rules: u32,
    t: &Tree,
    log: &[u8],
) -> Result<StepVerdict, NoMemory>
    requires model { IsModel m.now }
    requires extended { IsExtended m.now.ext }
    requires fit { IsFit m.now.ext.table }
    requires options { AreOptions m.now.options }
    requires whole { IsTreeOf (length m.now.ext.blocks) (root_of m.now) t.now.nodes.items }
    requires plain { All IsPlain t.now.nodes.items }
    requires strict { All HasSides (visits_of (length m.now.ext.blocks) (root_of m.now) t.now.nodes.items) }
    ensures verdict { IfOk result (IsJudged rules m.now limit t.now.nodes.items log.now) }
    ensures stands { IfOk result (OnYes (All (OuterStands (IsBelow m.now limit))
        (visits_of (length m.now.ext.blocks) (root_of m.now) t.now.nodes.items))) }
{
    let r = Rules { rules, m, limit };
    let verdict = judge_by(alloc, &r, t, log)?;
    Ok(verdict)
}
