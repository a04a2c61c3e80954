//! Step logs: leaf after leaf of a tree.

ghost use Rattle.std.specs.Prelude.{◌≡◌, [], ◌∷◌, ℕ, List, All, OnOk, IfOk, IfErr, Err, length};
ghost use Rattle.std.specs.Bool.{OnTrue, OnFalse};
ghost use Rattle.un_isa.specs.Fit.{IsFit};
ghost use Rattle.un_ir.specs.Extended.{IsExtended};
ghost use Rattle.un_model.specs.Boxes.{root_of};
ghost use Rattle.un_model.specs.Options.{AreOptions};
ghost use Rattle.un_model.specs.Variables.{IsModel};
ghost use Rattle.un_tree.specs.Waits.{IsTreeOf, IsPlain, HasSides, HasSidesIn, Whole, visits_of, after};
ghost use Rattle.un_tree.specs.declared.node.Node.{Node};
ghost use Rattle.un_walk.specs.Stands.{IsStandAt};
ghost use Rattle.un_walk.specs.Turns.{waits, waiting_at};
ghost use Rattle.un_judge.specs.Judged.{IsJudged};
ghost use Rattle.un_judge.specs.Walks.{blocks_of};
ghost use Rattle.un_judge.specs.declared.verdict.StepVerdict.TheVariants.{Yes};
ghost use Rattle.un_steps.specs.Keeping.{IsGround};
ghost use Rattle.un_logs.specs.Goods.{Ends};
ghost use Rattle.un_logs.specs.Stuck.{IsStuck, IsStuckBy, IsFirstStuck};
ghost use Rattle.un_logs.specs.Walks.{IsWalk, Passes};

use crate::leaf::write_leaf;
use std::alloc::Global;
use un_base::memory_error::NoMemory;
use un_base::numbers::later;
use un_judge::leaf::Rules;
use un_model::model::Model;
use un_root::store::first_box;
use un_tree::node::{Node, Tree};
use un_walk::branch::branch_of;
use un_walk::stand::{Stand, first_stand, step};

/// How far the logging of a tree has come.
#[derive(Drop)]
pub struct Walk {
    pub stand: Stand,
    /// Whether a box waits, which is then the stand's.
    pub more: bool,
    /// How many nodes were gone over.
    pub place: u32,
    /// The lines so far.
    pub text: Vec<u8>,
}

/// Appends the lines of a closed leaf. Answers whether they end it.
fn write_here(r: &Rules<'_>, walk: &mut Walk) -> Result<bool, NoMemory>
    requires { IsStandAt (root_of r.now.m.now) walk.old.stand }
    ensures at { OnOk result (IsStandAt (root_of r.now.m.now) walk.new.stand) }
    ensures path { OnOk result (walk.new.stand.path.items ≡ walk.old.stand.path.items) }
    ensures place { OnOk result (walk.new.place ≡ walk.old.place) }
    ensures ends { IfOk result (λ ended. OnTrue ended (Ends r.now walk.old.stand.cuts.sets walk.old.text.items walk.new.text.items)) }
    ensures lost { IfOk result (λ ended. OnTrue ended (IsStuck r.now.rules r.now.m.now r.now.limit walk.old.stand.cuts.sets → ⊥)) }
    ensures stuck { IfOk result (λ ended. OnFalse ended (IsStuck r.now.rules r.now.m.now r.now.limit walk.old.stand.cuts.sets)) }
{
    walk.stand.cuts.mark()?;
    let ended = write_leaf(r, &mut walk.stand.cuts, &mut walk.text)?;
    walk.stand.cuts.undo();
    Ok(ended)
}

/// Appends the lines of a node: a closed leaf has some. Answers whether they end it.
fn write_node(r: &Rules<'_>, walk: &mut Walk, node: Node) -> Result<bool, NoMemory>
    requires { IsStandAt (root_of r.now.m.now) walk.old.stand }
    ensures at { OnOk result (IsStandAt (root_of r.now.m.now) walk.new.stand) }
    ensures path { OnOk result (walk.new.stand.path.items ≡ walk.old.stand.path.items) }
    ensures place { OnOk result (walk.new.place ≡ walk.old.place) }
    ensures passes { IfOk result (λ ended. OnTrue ended
        (Passes r.now node walk.old.stand.cuts.sets walk.old.text.items walk.new.text.items)) }
    ensures stuck { IfOk result (λ ended. OnFalse ended
        (IsStuckBy r.now.rules r.now.m.now r.now.limit node (Whole walk.old.stand.cuts.sets))) }
{
    match node {
        Node::Branch { .. } => Ok(true),
        Node::Closed => {
            let ended = write_here(r, walk)?;
            Ok(ended)
        }
        Node::Open => Ok(true),
        Node::Split => Ok(true),
        Node::Part { .. } => Ok(true),
    }
}

/// Goes on behind a node. Answers whether a box waits there.
fn advance(r: &Rules<'_>, stand: &mut Stand, node: Node) -> Result<bool, NoMemory>
    requires at { IsStandAt (root_of r.now.m.now) stand.old }
    requires plain { IsPlain node }
    requires strict { HasSidesIn node (Whole stand.old.cuts.sets) }
    ensures at { OnOk result (IsStandAt (root_of r.now.m.now) stand.new) }
    ensures waits { IfOk result (λ more. after (blocks_of r.now) node (Whole stand.old.cuts.sets) (waits (root_of r.now.m.now) stand.old.path.items)
        ≡ waiting_at (root_of r.now.m.now) stand.new.path.items more) }
{
    let _ = r;
    let more = step(stand, branch_of(node))?;
    Ok(more)
}

/// One node more. Answers whether the walk goes on: it ends at a closed leaf that the rules do not empty.
fn visit(r: &Rules<'_>, walk: &mut Walk, node: Node) -> Result<bool, NoMemory>
    requires at { IsStandAt (root_of r.now.m.now) walk.old.stand }
    requires plain { IsPlain node }
    requires strict { HasSidesIn node (Whole walk.old.stand.cuts.sets) }
    ensures on { IfOk result (λ on. OnTrue on ((nodes rest : List Node) → IsWalk r.now nodes (node ∷ rest) walk.old
        → IsWalk r.now nodes rest walk.new)) }
    ensures stuck { IfOk result (λ on. OnFalse on ((nodes rest : List Node) → IsWalk r.now nodes (node ∷ rest) walk.old
        → IsFirstStuck r.now.rules r.now.m.now r.now.limit nodes walk.new.place)) }
{
    let ended = write_node(r, walk, node)?;
    if !ended {
        return Ok(false);
    }
    let place = later(walk.place, 1)?;
    let more = advance(r, &mut walk.stand, node)?;
    walk.place = place;
    walk.more = more;
    Ok(true)
}

/// The empty text.
fn no_lines(alloc: Global) -> Vec<u8>
    ensures { result.items ≡ [] }
{
    Vec::new(alloc)
}

/// Before the first node.
fn begin(alloc: Global, r: &Rules<'_>) -> Result<Walk, NoMemory>
    requires ground { IsGround r.now.m.now }
    ensures first { IfOk result (λ walk. (nodes : List Node) → IsTreeOf (blocks_of r.now) (root_of r.now.m.now) nodes
        → All IsPlain nodes → All HasSides (visits_of (blocks_of r.now) (root_of r.now.m.now) nodes) → IsWalk r.now nodes nodes walk) }
{
    let cuts = first_box(alloc, r.m)?;
    Ok(Walk {
        stand: first_stand(alloc, cuts),
        more: true,
        place: 0,
        text: no_lines(alloc),
    })
}

/// A step log of a tree by the first so many rules, or its first leaf without one.
fn log_by(alloc: Global, r: &Rules<'_>, t: &Tree) -> Result<Result<Vec<u8>, u32>, NoMemory>
    requires ground { IsGround r.now.m.now }
    requires whole { IsTreeOf (blocks_of r.now) (root_of r.now.m.now) t.now.nodes.items }
    requires plain { All IsPlain t.now.nodes.items }
    requires strict { All HasSides (visits_of (blocks_of r.now) (root_of r.now.m.now) t.now.nodes.items) }
    ensures log { IfOk result (λ told. IfOk told (λ text. IsJudged r.now.rules r.now.m.now r.now.limit t.now.nodes.items text.items Yes)) }
    ensures stuck { IfOk result (λ told. IfErr told (IsFirstStuck r.now.rules r.now.m.now r.now.limit t.now.nodes.items)) }
    ensures none { IfOk result (λ told. OnOk told ((i : ℕ) → IsFirstStuck r.now.rules r.now.m.now r.now.limit t.now.nodes.items i → ⊥)) }
{
    let mut walk = begin(alloc, r)?;
    for node in &t.nodes {
        let on = visit(r, &mut walk, *node)?;
        if !on {
            return Ok(Err(walk.place));
        }
    }
    Ok(Ok(walk.text))
}

/// A step log of a tree without a Split whose branches have both sides: at each closed leaf the first so many rules take all values that may go, at every
/// place in order, round after round, until some set is empty or a round changes nothing. The inner error is the first closed leaf, by
/// its place among the nodes from 0, whose rounds end with no empty set; it comes exactly where there is one.
///
/// # Errors
/// Where memory is short, or where there are more variables, nodes or places than numbers below 2^32.
pub fn log_tree(
    alloc: Global,
    m: &Model,
    limit: Option<u64>,
    rules: u32,
    t: &Tree,
) -> Result<Result<Vec<u8>, u32>, NoMemory>
    requires model { IsModel m.now }
    requires extended { IsExtended m.now.ext }
    requires fit { IsFit m.now.ext.table }
    requires options { AreOptions m.now.options }
    requires whole { IsTreeOf (length m.now.ext.blocks) (root_of m.now) t.now.nodes.items }
    requires plain { All IsPlain t.now.nodes.items }
    requires strict { All HasSides (visits_of (length m.now.ext.blocks) (root_of m.now) t.now.nodes.items) }
    ensures log { IfOk result (λ told. IfOk told (λ text. IsJudged rules m.now limit t.now.nodes.items text.items Yes)) }
    ensures stuck { IfOk result (λ told. IfErr told (IsFirstStuck rules m.now limit t.now.nodes.items)) }
    ensures exactly { IfOk result (λ told. (i : ℕ) → IsFirstStuck rules m.now limit t.now.nodes.items i → told ≡ Err i) }
{
    let held = Rules { rules, m, limit };
    let told = log_by(alloc, &held, t)?;
    Ok(told)
}
