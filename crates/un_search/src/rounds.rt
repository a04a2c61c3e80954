//! The stores of a search: at the first box, and where the search stands in its tree.

ghost use Rattle.std.specs.Prelude.{◌≡◌, ◌≢◌, ◌+◌, [], IfOk, None, Some, length};
ghost use Rattle.un_domains.specs.Sets.{NoneEmpty};
ghost use Rattle.un_prop.specs.Pruning.{HasRoom};
ghost use Rattle.un_model.specs.Boxes.{root_of};
ghost use Rattle.un_post.specs.Posts.{fix_at};
ghost use Rattle.un_stand.specs.Rooms.{path_of};
ghost use Rattle.un_walk.specs.Stands.{IsStandAt};
ghost use Rattle.un_search.specs.Stores.{IsPlace};

use crate::order::{BlockOrder, order_of};
use std::alloc::Global;
use un_base::memory_error::NoMemory;
use un_domains::store::Store;
use un_engine::engine::Engine;
use un_kinds::any::AnyProp;
use un_model::model::Model;
use un_prop::propagator::Scratch;
use un_stand::room::Room;
use un_stand::rules::Rules;
use un_walk::stand::first_stand;

/// The stores of a search at the first box, with room for looks at them.
#[derive(Drop)]
pub struct ModelStores {
    /// The propagators, and a store with what their rounds leave of the box.
    pub engine: Engine<AnyProp>,
    /// The box itself: the first domains, without any propagation.
    pub cuts: Store,
    /// Room for the relaxation of the box.
    pub scratch: Scratch,
    /// The order in which variables are split, block by block.
    pub order: Vec<BlockOrder>,
}

/// Where a search stands in its tree, with room for looks.
#[derive(Drop)]
pub struct Place {
    /// The node's box, and what the rounds leave of it.
    pub room: Room,
    /// Room for the relaxation of the box.
    pub scratch: Scratch,
    /// The order in which variables are split, block by block.
    pub order: Vec<BlockOrder>,
}

/// Stores with room for looks and the order of a model, whose cycles go from 0 to `horizon`.
pub(crate) fn first_stores(
    alloc: Global,
    m: &Model,
    engine: Engine<AnyProp>,
    cuts: Store,
    horizon: u32,
) -> Result<ModelStores, NoMemory>
    ensures engine { IfOk result (λ s. s.engine ≡ engine) }
    ensures cuts { IfOk result (λ s. s.cuts ≡ cuts) }
    ensures room { IfOk result (λ s. HasRoom (length cuts.sets) (horizon + 1) s.scratch) }
{
    let scratch = Scratch::new(alloc, cuts.len(), horizon)?;
    let order = order_of(alloc, m)?;
    Ok(ModelStores {
        engine,
        cuts,
        scratch,
        order,
    })
}

/// A place at the first box.
pub fn first_place(alloc: Global, stores: ModelStores) -> Place
    requires full { NoneEmpty stores.cuts.sets }
    requires fresh { stores.cuts.marked ≡ [] }
    ensures stand { IsStandAt stores.cuts.sets result.room.stand }
    ensures first { path_of result.room ≡ [] }
    ensures engine { result.room.engine ≡ Some stores.engine }
    ensures scratch { result.scratch ≡ stores.scratch }
{
    let ModelStores {
        engine,
        cuts,
        scratch,
        order,
    } = stores;
    let stand = first_stand(alloc, cuts);
    let room = Room {
        stand,
        engine: Some(engine),
    };
    Place {
        room,
        scratch,
        order,
    }
}

/// The stores of a place at the first box, on which the rounds do not fail.
pub(crate) fn stores_of(rules: &Rules, place: Place) -> ModelStores
    requires at { IsPlace rules.now place }
    requires first { path_of place.room ≡ [] }
    requires rests { fix_at rules.now.m.now rules.now.limit (root_of rules.now.m.now) ≢ None }
    ensures engine { place.room.engine ≡ Some result.engine }
    ensures cuts { result.cuts ≡ place.room.stand.cuts }
    ensures scratch { result.scratch ≡ place.scratch }
{
    let _ = rules;
    let Place {
        room,
        scratch,
        order,
    } = place;
    let Room { stand, engine } = room;
    match engine {
        None => unreachable!(),
        Some(engine) => ModelStores {
            engine,
            cuts: stand.cuts,
            scratch,
            order,
        },
    }
}
