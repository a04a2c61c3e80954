//! An attempt at a solution of a model that costs less than a limit.

ghost use Rattle.std.specs.Prelude.{◌≡◌, ◌<◌, ◌∷◌, [], IfOk, IfSome, Some};
ghost use Rattle.un_ir.specs.Extended.{IsExtended};
ghost use Rattle.un_isa.specs.Fit.{IsFit};
ghost use Rattle.un_model.specs.Options.{AreOptions};
ghost use Rattle.un_model.specs.Variables.{IsModel};
ghost use Rattle.un_post.specs.Postable.{IsPostable};
ghost use Rattle.un_model.specs.Boxes.{IsCheaper};
ghost use Rattle.un_tree.specs.declared.node.Node.TheVariants.{Closed};
ghost use Rattle.un_search.specs.Answers.{OnFound, OnRefuted, OnCut, AreEnough, IsRefuted, IsCutOff, IsByRoot, IsAnswerOf};
ghost use Rattle.un_search.specs.Roots.{AreAtRoot, IsLost, IsPosting, IsRoot};

use crate::expand::ModelRounds;
use crate::root::{Posting, Root, begin, root_under};
use crate::rounds::{ModelStores, first_place, stores_of};
use std::alloc::Global;
use un_base::memory_error::NoMemory;
use un_branching::attempt::{Tried as Answer, attempt as attempt_by};
use un_branching::growth::leaf_alone;
use un_lists::items::Items;
use un_model::model::{Model, Solution};
use un_stand::jump::to_first;
use un_stand::rules::Rules;
use un_tree::node::{Node, Tree};

/// What an attempt found: a solution that costs less than the limit; a tree without an open leaf, so that there is none; or a tree of
/// all nodes that it was given, with the least cost of the relaxation in the box of an open leaf.
#[derive(Drop)]
pub enum Tried {
    Found(Solution),
    Refuted(Tree),
    Cut { tree: Tree, least: u64 },
}

/// The answer of the search of a model, from that of a search.
fn answer_of(tried: Answer) -> Tried
    ensures { IsAnswerOf tried result }
{
    match tried {
        Answer::Found(values) => Tried::Found(Solution {
            values: Items::from_vec(values),
        }),
        Answer::Refuted(tree) => Tried::Refuted(tree),
        Answer::Cut { tree, least } => Tried::Cut { tree, least },
    }
}

/// What an attempt found, with its stores at the first box again.
#[derive(Drop)]
struct Attempted {
    tried: Tried,
    stores: ModelStores,
}

/// Searches from stores at the first box.
fn search(
    alloc: Global,
    m: &Model,
    limit: Option<u64>,
    stores: ModelStores,
    nodes: u32,
) -> Result<Attempted, NoMemory>
    requires root { AreAtRoot m.now limit stores }
    requires some { 0 < nodes }
    ensures found { IfOk result (λ a. OnFound (IsCheaper m.now limit) a.tried) }
    ensures refuted { IfOk result (λ a. OnRefuted (IsRefuted m.now limit nodes) a.tried) }
    ensures cut { IfOk result (λ a. OnCut (IsCutOff m.now limit nodes) a.tried) }
    ensures first { nodes < 3 → IfOk result (λ a. IsByRoot m.now limit a.tried) }
    ensures enough { AreEnough m.now nodes → IfOk result (λ a. OnCut (λ t low. ⊥) a.tried) }
    ensures root { IfOk result (λ a. AreAtRoot m.now limit a.stores) }
{
    let rounds = ModelRounds {
        alloc,
        rules: Rules { m, limit },
    };
    let mut place = first_place(alloc, stores);
    let tried = attempt_by(alloc, &rounds, &mut place, nodes)?;
    to_first(&mut place.room);
    Ok(Attempted {
        tried: answer_of(tried),
        stores: stores_of(&rounds.rules, place),
    })
}

/// A tree of one closed leaf.
fn closed_leaf(alloc: Global) -> Result<Tree, NoMemory>
    ensures { IfOk result (λ t. t.nodes.items ≡ Closed ∷ []) }
{
    let tree = leaf_alone(alloc, Node::Closed)?;
    Ok(tree)
}

/// The answer where the rounds fail on the first box.
fn refuted(alloc: Global, m: &Model, limit: Option<u64>, nodes: u32) -> Result<Tried, NoMemory>
    requires lost { IsLost m.now limit }
    requires some { 0 < nodes }
    ensures found { IfOk result (OnFound (IsCheaper m.now limit)) }
    ensures refuted { IfOk result (OnRefuted (IsRefuted m.now limit nodes)) }
    ensures cut { IfOk result (OnCut (IsCutOff m.now limit nodes)) }
    ensures first { IfOk result (IsByRoot m.now limit) }
    ensures enough { IfOk result (OnCut (λ t low. ⊥)) }
{
    let _ = m;
    let _ = limit;
    let _ = nodes;
    let tree = closed_leaf(alloc)?;
    Ok(Tried::Refuted(tree))
}

/// Looks for a solution of a model that costs less than a limit, with at most so many nodes. With one or two nodes the answer follows
/// from what the rounds leave of the first box. With more than twice as many as that box has assignments it is not cut off.
///
/// # Errors
/// Where memory is short, or there are more variables or operations than numbers below 2^32.
pub fn attempt(alloc: Global, m: &Model, limit: Option<u64>, nodes: u32) -> Result<Tried, NoMemory>
    requires model { IsModel m.now }
    requires extended { IsExtended m.now.ext }
    requires fit { IsFit m.now.ext.table }
    requires options { AreOptions m.now.options }
    requires some { 0 < nodes }
    ensures found { IfOk result (OnFound (IsCheaper m.now limit)) }
    ensures refuted { IfOk result (OnRefuted (IsRefuted m.now limit nodes)) }
    ensures cut { IfOk result (OnCut (IsCutOff m.now limit nodes)) }
    ensures first { nodes < 3 → IfOk result (IsByRoot m.now limit) }
    ensures enough { AreEnough m.now nodes → IfOk result (OnCut (λ t low. ⊥)) }
{
    match begin(alloc, m, limit)? {
        None => refuted(alloc, m, limit, nodes),
        Some(begun) => {
            let attempted = search(alloc, m, limit, begun.stores, nodes)?;
            Ok(attempted.tried)
        }
    }
}

/// What an attempt under a limit found, with the root where there is one.
#[derive(Drop)]
pub(crate) struct Under {
    pub tried: Tried,
    pub root: Option<Root>,
}

/// Searches from a root.
fn search_from(alloc: Global, m: &Model, root: Root, nodes: u32) -> Result<Under, NoMemory>
    requires root { IsRoot m.now root }
    requires some { 0 < nodes }
    ensures found { IfOk result (λ u. OnFound (IsCheaper m.now (Some root.limit)) u.tried) }
    ensures refuted { IfOk result (λ u. OnRefuted (IsRefuted m.now (Some root.limit) nodes) u.tried) }
    ensures cut { IfOk result (λ u. OnCut (IsCutOff m.now (Some root.limit) nodes) u.tried) }
    ensures first { nodes < 3 → IfOk result (λ u. IsByRoot m.now (Some root.limit) u.tried) }
    ensures root { IfOk result (λ u. IfSome u.root (λ r. IsRoot m.now r × (r.limit ≡ root.limit))) }
{
    let Root {
        stores,
        limit,
        limit_at,
    } = root;
    let Attempted { tried, stores } = search(alloc, m, Some(limit), stores, nodes)?;
    Ok(Under {
        tried,
        root: Some(Root {
            stores,
            limit,
            limit_at,
        }),
    })
}

/// The same as `attempt` under a limit, by what is posted under it.
pub(crate) fn attempt_under(
    alloc: Global,
    m: &Model,
    posting: Posting,
    limit: u64,
    nodes: u32,
) -> Result<Under, NoMemory>
    requires postable { IsPostable m.now }
    requires posting { IsPosting m.now limit posting }
    requires some { 0 < nodes }
    ensures found { IfOk result (λ u. OnFound (IsCheaper m.now (Some limit)) u.tried) }
    ensures refuted { IfOk result (λ u. OnRefuted (IsRefuted m.now (Some limit) nodes) u.tried) }
    ensures cut { IfOk result (λ u. OnCut (IsCutOff m.now (Some limit) nodes) u.tried) }
    ensures first { nodes < 3 → IfOk result (λ u. IsByRoot m.now (Some limit) u.tried) }
    ensures root { IfOk result (λ u. IfSome u.root (λ r. IsRoot m.now r × (r.limit ≡ limit))) }
{
    match root_under(alloc, m, posting, limit)? {
        None => {
            let tried = refuted(alloc, m, Some(limit), nodes)?;
            Ok(Under { tried, root: None })
        }
        Some(root) => {
            let under = search_from(alloc, m, root, nodes)?;
            Ok(under)
        }
    }
}
