//! The check of a tree.

ghost use Rattle.std.specs.Prelude.{◌≡◌, ℕ, List, [], All, IfOk, MatchOption, Option};
ghost use Rattle.un_ir.specs.Extended.{IsExtended};
ghost use Rattle.un_isa.specs.Fit.{IsFit};
ghost use Rattle.un_model.specs.Options.{AreOptions};
ghost use Rattle.un_model.specs.Variables.{IsModel};
ghost use Rattle.un_model.specs.declared.model.Model.{Model};
ghost use Rattle.un_post.specs.Postable.{IsPostable};
ghost use Rattle.un_tree.specs.Texts.{Fits, tree_text};
ghost use Rattle.un_tree.specs.declared.node.Node.{Node};
ghost use Rattle.un_certificate.specs.Certificates.{IsStanding};
ghost use Rattle.un_check.specs.Judging.{HasScratch};
ghost use Rattle.un_check.specs.Seen.{IsSeen};
ghost use Rattle.un_check.specs.Verdicts.{IsNo, IsVerdict, OnYes};
ghost use Rattle.un_check.specs.Walks.{AreNodeLines, IsPositionAt, IsWalk};

use crate::behind::{nodes_behind, told_in, told_of};
use crate::stage::{Position, Stage};
use crate::verdict::TreeVerdict;
use crate::walk::{Walk, visit};
use std::alloc::Global;
use un_base::memory_error::NoMemory;
use un_model::model::Model;
use un_post::post::{Posted, post};
use un_prop::propagator::Scratch;
use un_stand::room::first_room;
use un_stand::rules::Rules;
use un_tree::node::{Node, Tree};
use un_tree::read::{Step, first_node};

/// What was seen of a tree: the verdict, and where all is well, how many nodes are in no part.
#[derive(Clone, Copy)]
pub(crate) struct Seen {
    pub verdict: TreeVerdict,
    pub outer_nodes: u32,
}

/// Before the first node.
fn begin(alloc: Global, rules: &Rules) -> Result<Walk, NoMemory>
    requires postable { IsPostable rules.now.m.now }
    ensures at { IfOk result (λ walk. IsPositionAt rules.now.m.now rules.now.limit walk.at) }
    ensures room { IfOk result (λ walk. HasScratch rules.now.m.now walk.scratch) }
    ensures walk { IfOk result (λ walk. (nodes : List Node) → IsWalk rules.now.m.now rules.now.limit nodes nodes walk) }
{
    let posted = post(alloc, rules.m, rules.limit)?;
    let scratch = Scratch::new(alloc, posted.store.len(), posted.horizon)?;
    let cuts = posted.store.copy(alloc)?;
    let Posted {
        props,
        store,
        horizon,
        ..
    } = posted;
    let outer = first_room(alloc, cuts, props, store, horizon)?;
    Ok(Walk {
        at: Position {
            outer,
            stage: Stage::AtBox,
        },
        scratch,
        place: 0,
        outer_nodes: 0,
        open_leaves: 0,
        least: None,
    })
}

/// What was seen where a node is the first that breaks a point, or stands behind the end of the tree.
fn seen_no(walk: &Walk, verdict: TreeVerdict) -> Seen
    ensures { (m : Model) (limit : Option ℕ) (nodes : List Node) → IsNo m limit nodes verdict → IsSeen m limit nodes result }
{
    Seen {
        verdict,
        outer_nodes: walk.outer_nodes,
    }
}

/// What was seen behind the last node.
fn seen_whole(walk: &Walk) -> Seen
    ensures { (m : Model) (limit : Option ℕ) (nodes : List Node) → IsWalk m limit nodes [] walk.now → IsSeen m limit nodes result }
{
    match &walk.at.stage {
        Stage::AtEnd => Seen {
            verdict: TreeVerdict::Yes {
                least: walk.least,
                open_leaves: walk.open_leaves,
            },
            outer_nodes: walk.outer_nodes,
        },
        Stage::AtBox => seen_no(walk, TreeVerdict::Short),
        Stage::AtPart(_) => seen_no(walk, TreeVerdict::Short),
        Stage::InPart(_, _, _) => seen_no(walk, TreeVerdict::Short),
    }
}

/// What was seen where a node was refused, or where none was.
fn seen_after(walk: &Walk, told: Option<TreeVerdict>) -> Seen
    ensures { (m : Model) (limit : Option ℕ) (nodes : List Node)
        → MatchOption told (IsWalk m limit nodes [] walk.now) (IsNo m limit nodes) → IsSeen m limit nodes result }
{
    match told {
        None => seen_whole(walk),
        Some(verdict) => seen_no(walk, verdict),
    }
}

/// Goes over all nodes, up to the first that breaks a point or stands behind the end of the tree, for which it answers the verdict.
fn visit_nodes(
    alloc: Global,
    rules: &Rules,
    walk: &mut Walk,
    nodes: &[Node],
) -> Result<Option<TreeVerdict>, NoMemory>
    requires postable { IsPostable rules.now.m.now }
    requires at { IsPositionAt rules.now.m.now rules.now.limit walk.old.at }
    requires room { HasScratch rules.now.m.now walk.old.scratch }
    requires first { IsWalk rules.now.m.now rules.now.limit nodes.now nodes.now walk.old }
    ensures { IfOk result (λ told. MatchOption told (IsWalk rules.now.m.now rules.now.limit nodes.now [] walk.new)
        (IsNo rules.now.m.now rules.now.limit nodes.now)) }
{
    for (i, node) in nodes.iter().enumerate() {
        let rest = nodes_behind(nodes, i);
        let parts = told_in(*node, rest, rules.m.ext.blocks.len());
        let told = visit(alloc, rules, walk, *node, parts)?;
        if let Some(verdict) = told {
            return Ok(Some(verdict));
        }
    }
    Ok(None)
}

/// The same over the lines of a tree's text.
fn visit_lines(
    alloc: Global,
    rules: &Rules,
    walk: &mut Walk,
    tree: &[u8],
) -> Result<Option<TreeVerdict>, NoMemory>
    requires postable { IsPostable rules.now.m.now }
    requires at { IsPositionAt rules.now.m.now rules.now.limit walk.old.at }
    requires room { HasScratch rules.now.m.now walk.old.scratch }
    requires first { (nodes : List Node) → IsWalk rules.now.m.now rules.now.limit nodes nodes walk.old }
    requires lines { AreNodeLines tree.now }
    ensures { (nodes : List Node) → All Fits nodes → tree.now ≡ tree_text nodes → IfOk result (λ told.
        MatchOption told (IsWalk rules.now.m.now rules.now.limit nodes [] walk.new) (IsNo rules.now.m.now rules.now.limit nodes)) }
{
    let mut left = tree;
    loop {
        match first_node(left) {
            Step::End => return Ok(None),
            Step::Bad => unreachable!(),
            Step::Node { node, rest, .. } => {
                let parts = told_of(node, rest, rules.m.ext.blocks.len());
                let told = visit(alloc, rules, walk, node, parts)?;
                if let Some(verdict) = told {
                    return Ok(Some(verdict));
                }
                left = rest;
            }
        }
    }
}

/// What is seen of a tree of a model under a limit on the cost.
///
/// # Errors
/// Those of `check_tree`.
pub(crate) fn see_tree(
    alloc: Global,
    m: &Model,
    limit: Option<u64>,
    nodes: &[Node],
) -> Result<Seen, NoMemory>
    requires postable { IsPostable m.now }
    ensures { IfOk result (IsSeen m.now limit nodes.now) }
{
    let rules = Rules { m, limit };
    let mut walk = begin(alloc, &rules)?;
    let told = visit_nodes(alloc, &rules, &mut walk, nodes)?;
    Ok(seen_after(&walk, told))
}

/// What is seen of the tree whose text this is. It goes through the lines of a part twice, and through the others once.
///
/// # Errors
/// Those of `check_lines`.
pub(crate) fn see_lines(
    alloc: Global,
    m: &Model,
    limit: Option<u64>,
    tree: &[u8],
) -> Result<Seen, NoMemory>
    requires postable { IsPostable m.now }
    requires lines { AreNodeLines tree.now }
    ensures { (nodes : List Node) → All Fits nodes → tree.now ≡ tree_text nodes → IfOk result (IsSeen m.now limit nodes) }
{
    let rules = Rules { m, limit };
    let mut walk = begin(alloc, &rules)?;
    let told = visit_lines(alloc, &rules, &mut walk, tree)?;
    Ok(seen_after(&walk, told))
}

/// The check of a tree of a model under a limit on the cost: which node is the first that breaks a point, and whether the list is one
/// whole tree. Where all is well, each solution below the limit is in the box of an open leaf.
///
/// # Errors
/// Where memory is short, or there are more nodes, variables or operations than numbers below 2^32.
pub fn check_tree(
    alloc: Global,
    m: &Model,
    limit: Option<u64>,
    t: &Tree,
) -> Result<TreeVerdict, NoMemory>
    requires model { IsModel m.now }
    requires extended { IsExtended m.now.ext }
    requires fit { IsFit m.now.ext.table }
    requires options { AreOptions m.now.options }
    ensures verdict { IfOk result (IsVerdict m.now limit t.now.nodes.items) }
    ensures sound { IfOk result (OnYes (IsStanding m.now limit t.now.nodes.items)) }
{
    let seen = see_tree(alloc, m, limit, t.nodes.as_slice())?;
    Ok(seen.verdict)
}

/// The check of the tree whose text this is: what `check_tree` answers for it. It goes through the lines of a part twice, and through the
/// others once.
///
/// # Errors
/// Where memory is short, or there are more nodes, variables or operations than numbers below 2^32.
pub fn check_lines(
    alloc: Global,
    m: &Model,
    limit: Option<u64>,
    tree: &[u8],
) -> Result<TreeVerdict, NoMemory>
    requires model { IsModel m.now }
    requires extended { IsExtended m.now.ext }
    requires fit { IsFit m.now.ext.table }
    requires options { AreOptions m.now.options }
    requires lines { AreNodeLines tree.now }
    ensures verdict { (nodes : List Node) → All Fits nodes → tree.now ≡ tree_text nodes → IfOk result (IsVerdict m.now limit nodes) }
    ensures sound { (nodes : List Node) → All Fits nodes → tree.now ≡ tree_text nodes
        → IfOk result (OnYes (IsStanding m.now limit nodes)) }
{
    let seen = see_lines(alloc, m, limit, tree)?;
    Ok(seen.verdict)
}
