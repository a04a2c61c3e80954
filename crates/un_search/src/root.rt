//! A model that is posted once: its stores at the first box, under a limit on the cost that may fall.

ghost use Rattle.std.specs.Prelude.{◌≡◌, ◌≤◌, [], Some, All, IfOk, IfSome, length};
ghost use Rattle.un_domains.specs.Sets.{Sets, NoneEmpty};
ghost use Rattle.un_prop.specs.Pruning.{IsFix};
ghost use Rattle.un_prop.specs.Rounds.{fix_of};
ghost use Rattle.un_prop.specs.declared.run.Fix.TheVariants.{Stable};
ghost use Rattle.un_kinds.specs.AnyProps.{cut_of};
ghost use Rattle.un_post.specs.Lowered.{AreTighter, IsTighter, with_counted, with_lower};
ghost use Rattle.un_post.specs.Postable.{IsPostable};
ghost use Rattle.un_post.specs.Posts.{ReadsFrom};
ghost use Rattle.un_search.specs.Roots.{IsBegun, IsPosting, IsRoot, IsRooted};

use crate::best::Best;
use crate::rounds::{ModelStores, first_stores};
use std::alloc::Global;
use un_base::memory_error::NoMemory;
use un_engine::engine::Engine;
use un_kinds::any::AnyProp;
use un_model::model::Model;
use un_post::lower::{Lowered, lower_limit};
use un_post::post::{Posted, post};
use un_prop::run::Fix;

/// Stores at the first box of a model, at what the rounds leave of it, and the place of the limit's propagator.
#[derive(Drop)]
pub(crate) struct Begun {
    pub stores: ModelStores,
    pub limit_at: usize,
}

/// Stores at the first box of a model, at what the rounds leave of it under a limit that may fall.
#[derive(Drop)]
pub(crate) struct Root {
    /// The stores, without marks.
    pub stores: ModelStores,
    /// What a solution is to cost less than.
    pub limit: u64,
    /// The place of the limit's propagator.
    pub limit_at: usize,
}

/// What is posted for a model under a limit.
#[derive(Drop)]
pub(crate) enum Posting {
    /// Nothing yet.
    Nothing,
    /// The model under the limit; no root where the rounds fail on the first box.
    Begun(Option<Root>),
}

/// The best solution so far, with what is posted for those that cost less.
#[derive(Drop)]
pub(crate) struct Incumbent {
    pub best: Best,
    pub posting: Posting,
}

/// Posts a model under a limit or none, and runs on its first box. No stores where the rounds fail there.
pub(crate) fn begin(alloc: Global, m: &Model, limit: Option<u64>) -> Result<Option<Begun>, NoMemory>
    requires postable { IsPostable m.now }
    ensures { IfOk result (IsBegun m.now limit) }
{
    let posted = post(alloc, m, limit)?;
    let cuts = posted.store.copy(alloc)?;
    let Posted {
        props,
        store,
        horizon,
        limit_at,
    } = posted;
    match Engine::new(alloc, props, store, horizon)? {
        None => Ok(None),
        Some(engine) => {
            let stores = first_stores(alloc, m, engine, cuts, horizon)?;
            Ok(Some(Begun { stores, limit_at }))
        }
    }
}

/// Posts a model under a limit that may fall. No root where the rounds fail on its first box.
pub(crate) fn first_root(alloc: Global, m: &Model, limit: u64) -> Result<Option<Root>, NoMemory>
    requires postable { IsPostable m.now }
    ensures { IfOk result (IsRooted m.now limit) }
{
    match begin(alloc, m, Some(limit))? {
        None => Ok(None),
        Some(Begun { stores, limit_at }) => Ok(Some(Root {
            stores,
            limit,
            limit_at,
        })),
    }
}

/// Puts the rows under a lower limit in their place, where they are posted, and runs what that wakes.
fn tighten_rows(engine: &mut Engine<AnyProp>, at: usize, counted: Option<AnyProp>) -> Fix
    requires live { NoneEmpty engine.old.store.sets }
    requires fresh { engine.old.store.marked ≡ [] }
    requires tighter { IfSome counted (IsTighter engine.old.props at) }
    ensures props { engine.new.props ≡ with_counted engine.old.props at counted }
    ensures long { length engine.new.store.sets ≡ length engine.old.store.sets }
    ensures fresh { engine.new.store.marked ≡ [] }
    ensures fix { (box : Sets) → NoneEmpty box → length box ≡ length engine.old.store.sets
        → fix_of cut_of engine.old.props box ≡ Some engine.old.store.sets
        → IsFix (fix_of cut_of (with_counted engine.old.props at counted) box) engine.new.store.sets result }
{
    match counted {
        None => Fix::Stable,
        Some(p) => engine.tighten(at, p),
    }
}

/// Puts the propagators of a lower limit in their places, and runs what that wakes.
fn tighten(engine: &mut Engine<AnyProp>, at: usize, lower: Lowered) -> Fix
    requires live { NoneEmpty engine.old.store.sets }
    requires fresh { engine.old.store.marked ≡ [] }
    requires reads { All (ReadsFrom engine.old.store.sets) engine.old.props }
    requires tighter { AreTighter engine.old.props at lower }
    ensures props { result ≡ Stable → engine.new.props ≡ with_lower engine.old.props at lower }
    ensures long { length engine.new.store.sets ≡ length engine.old.store.sets }
    ensures fresh { engine.new.store.marked ≡ [] }

    // From what the rounds leave of a box to what they leave of it with these.
    ensures fix { (box : Sets) → NoneEmpty box → length box ≡ length engine.old.store.sets
        → fix_of cut_of engine.old.props box ≡ Some engine.old.store.sets
        → IsFix (fix_of cut_of (with_lower engine.old.props at lower) box) engine.new.store.sets result }
{
    engine.facts();
    let Lowered { cost, counted } = lower;
    // A list has no more items than there are numbers: so the place behind has one.
    let _count = engine.props().len();
    match engine.tighten(at, cost) {
        Fix::Failed => Fix::Failed,
        Fix::Stable => tighten_rows(engine, at + 1, counted),
    }
}

/// Lowers the limit where it stands, and runs what that wakes. No root where the rounds fail then.
fn lower(alloc: Global, m: &Model, root: Root, limit: u64) -> Result<Option<Root>, NoMemory>
    requires root { IsRoot m.now root }
    requires lower { limit ≤ root.limit }
    ensures { IfOk result (IsRooted m.now limit) }
{
    let Root {
        mut stores,
        limit: _,
        limit_at,
    } = root;
    let lower = lower_limit(alloc, m, stores.engine.props(), limit_at, limit)?;
    match tighten(&mut stores.engine, limit_at, lower) {
        Fix::Failed => Ok(None),
        Fix::Stable => Ok(Some(Root {
            stores,
            limit,
            limit_at,
        })),
    }
}

/// What is posted under a lower limit, from where a root is.
pub(crate) fn lowered(
    alloc: Global,
    m: &Model,
    root: Option<Root>,
    limit: u64,
) -> Result<Posting, NoMemory>
    requires root { IfSome root (λ r. IsRoot m.now r × (limit ≤ r.limit)) }
    ensures { IfOk result (IsPosting m.now limit) }
{
    match root {
        None => Ok(Posting::Nothing),
        Some(root) => {
            let root = lower(alloc, m, root, limit)?;
            Ok(Posting::Begun(root))
        }
    }
}

/// The root under a limit: posted now, where nothing was posted yet.
pub(crate) fn root_under(
    alloc: Global,
    m: &Model,
    posting: Posting,
    limit: u64,
) -> Result<Option<Root>, NoMemory>
    requires postable { IsPostable m.now }
    requires posting { IsPosting m.now limit posting }
    ensures { IfOk result (IsRooted m.now limit) }
{
    match posting {
        Posting::Nothing => first_root(alloc, m, limit),
        Posting::Begun(root) => Ok(root),
    }
}
