//! What is posted for a model: a store and propagators that all hold for exactly the solutions that cost less than a limit.

ghost use Rattle.std.specs.Prelude.{◌≡◌, [], All, IfOk, Option, map};
ghost use Rattle.un_isa.specs.Fit.{IsFit};
ghost use Rattle.un_domains.specs.Domains.{values_of};
ghost use Rattle.un_ir.specs.Extended.{IsExtended};
ghost use Rattle.un_model.specs.Options.{AreOptions};
ghost use Rattle.un_model.specs.Variables.{IsModel};
ghost use Rattle.un_kinds.specs.AnyProps.{constraint_of, cut_of};
ghost use Rattle.un_domains.specs.Sets.{Sets, NoneEmpty};
ghost use Rattle.un_prop.specs.Rounds.{fix_of};
ghost use Rattle.un_sites.specs.Places.{definers_of, places_of};
ghost use Rattle.un_post.specs.Listed.{all_postings_of};
ghost use Rattle.un_post.specs.Lowered.{limit_place};
ghost use Rattle.un_post.specs.Posts.{IsExact, ReadsFrom, IsGrounded, SpansAtMost, FailsWhereEmpty, FailsWhereOverfull, fix_at, largest_horizon};
ghost use Rattle.un_kinds.specs.Scopes.{IsTight};
ghost use Rattle.un_sites.specs.Sites.{place_of, definers_in};

use crate::post_parts::post_each;
use crate::post_store::{largest_horizon, store_of};
use std::alloc::Global;
use un_base::memory_error::NoMemory;
use un_domains::store::Store;
use un_kinds::any::AnyProp;
use un_kinds::props::Props;
use un_model::model::Model;
use un_sites::sites::{Site, Spot};
use un_sites::tables::{all_sites, all_spots};

/// What is posted for a model.
#[derive(Drop)]
pub struct Posted {
    /// The propagators, in the order in which they are posted.
    pub props: Vec<AnyProp>,
    /// The store with the domains of the model's variables, without marks.
    pub store: Store,
    /// The largest horizon of a block, in cycles: no propagator counts over more.
    pub horizon: u32,
    /// The place of the limit's propagator among them; where it would stand, where there is no limit.
    pub limit_at: usize,
}

/// Propagators, and the place of the limit's among them.
#[derive(Drop)]
pub(crate) struct Listed {
    pub(crate) props: Props,
    pub(crate) limit_at: usize,
}

/// The store and the horizon of a model, with propagators for it.
#[tactic(auto, using(crate::proofs::ModelDomains::domains_are))]
pub(crate) fn with_store(alloc: Global, m: &Model, listed: Listed) -> Result<Posted, NoMemory>
    requires model { IsModel m.now }
    requires extended { IsExtended m.now.ext }
    requires fit { IsFit m.now.ext.table }
    requires options { AreOptions m.now.options }
    ensures asks { IfOk result (λ p. map constraint_of p.props.items ≡ listed.props) }
    ensures sets { IfOk result (λ p. p.store.sets ≡ map values_of m.now.domains) }
    ensures marked { IfOk result (λ p. p.store.marked ≡ []) }
    ensures horizon { IfOk result (λ p. p.horizon ≡ largest_horizon m.now.ext.blocks) }
    ensures tight { IfOk result (λ p. All IsTight p.props.items) }
    ensures limited { IfOk result (λ p. p.limit_at ≡ listed.limit_at) }
{
    let Listed { props, limit_at } = listed;
    let store = store_of(alloc, m.domains.as_slice())?;
    let horizon = largest_horizon(m.ext.blocks.as_slice());
    Ok(Posted {
        props: props.into_vec(),
        store,
        horizon,
        limit_at,
    })
}

/// The propagators of a model, of which these are the tables.
fn with_tables(
    alloc: Global,
    m: &Model,
    limit: Option<u64>,
    sites: &[Site<'_>],
    spots: &[Spot<'_>],
) -> Result<Listed, NoMemory>
    requires sites { definers_in sites.now ≡ definers_of m.now }
    requires spots { map place_of spots.now ≡ places_of m.now }
    ensures asks { IfOk result (λ l. l.props ≡ all_postings_of m.now limit) }
    ensures limited { IfOk result (λ l. l.limit_at ≡ limit_place m.now) }
{
    let mut props = Props::new(alloc);
    let limit_at = post_each(&mut props, m, limit, sites, spots)?;
    Ok(Listed { props, limit_at })
}

/// The propagators of a model.
fn all_props(alloc: Global, m: &Model, limit: Option<u64>) -> Result<Listed, NoMemory>
    ensures asks { IfOk result (λ l. l.props ≡ all_postings_of m.now limit) }
    ensures limited { IfOk result (λ l. l.limit_at ≡ limit_place m.now) }
{
    let spots = all_spots(alloc, m)?;
    let sites = all_sites(alloc, spots.as_slice(), m.temps.as_slice())?;
    with_tables(alloc, m, limit, sites.as_slice(), spots.as_slice())
}

/// What is posted for a model under a limit on the cost, or none. It fails where memory is short, or where there are more
/// variables or operations than numbers below 2^32.
pub fn post(alloc: Global, m: &Model, limit: Option<u64>) -> Result<Posted, NoMemory>
    requires model { IsModel m.now }
    requires extended { IsExtended m.now.ext }
    requires fit { IsFit m.now.ext.table }
    requires options { AreOptions m.now.options }
    ensures asks { IfOk result (λ p. map constraint_of p.props.items ≡ all_postings_of m.now limit) }
    ensures sets { IfOk result (λ p. p.store.sets ≡ map values_of m.now.domains) }
    ensures marked { IfOk result (λ p. p.store.marked ≡ []) }

    // The solutions below the limit are exactly the assignments of the store for which all propagators hold.
    ensures exact { IfOk result (λ p. IsExact m.now limit p.store.sets p.props.items) }

    // Rounds may begin on the store, and fail on each within it where the relaxation under the limit has no member.
    ensures live { IfOk result (λ p. NoneEmpty p.store.sets) }
    ensures reads { IfOk result (λ p. All (ReadsFrom p.store.sets) p.props.items) }
    ensures tight { IfOk result (λ p. All IsTight p.props.items) }
    ensures grounded { IfOk result (λ p. All IsGrounded p.props.items) }
    ensures horizon { IfOk result (λ p. p.horizon ≡ largest_horizon m.now.ext.blocks) }
    ensures spans { IfOk result (λ p. All (SpansAtMost p.horizon) p.props.items) }
    ensures fails { IfOk result (λ p. FailsWhereEmpty m.now limit p.store.sets p.props.items) }

    // A limit's propagator stands at one place of the list, whatever the limit is.
    ensures limited { IfOk result (λ p. p.limit_at ≡ limit_place m.now) }

    // They fail, too, where more values are there in a cycle, or cross a call, than there is room for.
    ensures overfull { IfOk result (λ p. FailsWhereOverfull m.now p.store.sets p.props.items) }

    // What rounds leave of a box is one function of the model, the limit and the box, whichever list was posted.
    ensures fixed { IfOk result (λ p. (box : Sets) → fix_of cut_of p.props.items box ≡ fix_at m.now limit box) }
{
    let listed = all_props(alloc, m, limit)?;
    let posted = with_store(alloc, m, listed)?;
    Ok(posted)
}
