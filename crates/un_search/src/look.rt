//! How the rounds end where a search stands.

ghost use Rattle.std.specs.Prelude.{◌≡◌, ◌+◌, Some, IfOk, length};
ghost use Rattle.un_domains.specs.Sets.{NoneEmpty};
ghost use Rattle.un_tree.specs.Boxes.{IsBox, reached};
ghost use Rattle.un_ir.specs.Extended.{IsExtended};
ghost use Rattle.un_isa.specs.Fit.{IsFit};
ghost use Rattle.un_prop.specs.Pruning.{HasRoom};
ghost use Rattle.un_model.specs.Boxes.{IsBelow, root_of};
ghost use Rattle.un_model.specs.Variables.{IsModel};
ghost use Rattle.un_bound.specs.Relaxations.{IsLeast, IsRelaxation};
ghost use Rattle.un_post.specs.Posts.{fix_at, largest_horizon};
ghost use Rattle.un_branching.specs.Searched.{IsLook};
ghost use Rattle.un_stand.specs.Rooms.{CanCheck, path_of};
ghost use Rattle.un_search.specs.Looks.{IsLookOf};
ghost use Rattle.un_search.specs.Stores.{IsPlace};

use crate::choices::{first_open, single_values};
use crate::rounds::Place;
use std::alloc::Global;
use un_base::memory_error::NoMemory;
use un_bound::relax::{RelaxAnswer, relax_bound};
use un_branching::problem::Look;
use un_domains::store::Store;
use un_model::model::Model;
use un_prop::propagator::Scratch;
use un_stand::room::is_lost;
use un_stand::rules::Rules;

/// The relaxation of a model in a box.
fn relaxed(m: &Model, cuts: &Store, scratch: &mut Scratch) -> RelaxAnswer
    requires model { IsModel m.now }
    requires extended { IsExtended m.now.ext }
    requires table { IsFit m.now.ext.table }
    requires long { length cuts.now.sets ≡ length (root_of m.now) }
    requires live { NoneEmpty cuts.now.sets }
    requires room { HasRoom (length (root_of m.now)) (largest_horizon m.now.ext.blocks + 1) scratch.old }
    ensures answer { IsRelaxation m.now cuts.now.sets result }
    ensures room { HasRoom (length (root_of m.now)) (largest_horizon m.now.ext.blocks + 1) scratch.new }
{
    relax_bound(m, cuts, scratch)
}

/// An open box with its least cost, or a box without a relaxation.
fn look_of(answer: RelaxAnswer) -> Look
    ensures { IsLookOf answer result }
{
    match answer {
        RelaxAnswer::Empty => Look::Failed,
        RelaxAnswer::Least(least) => Look::Open(least),
    }
}

/// Looks at what the rounds leave of a box.
fn look_at(
    alloc: Global,
    rules: &Rules,
    cuts: &Store,
    ends: &Store,
    scratch: &mut Scratch,
) -> Result<Look, NoMemory>
    requires rules { CanCheck rules.now }
    requires inside { IsBox (root_of rules.now.m.now) cuts.now.sets }
    requires stable { fix_at rules.now.m.now rules.now.limit cuts.now.sets ≡ Some ends.now.sets }
    requires room { HasRoom (length (root_of rules.now.m.now)) (largest_horizon rules.now.m.now.ext.blocks + 1) scratch.old }
    ensures room { IfOk result (λ look.
        HasRoom (length (root_of rules.now.m.now)) (largest_horizon rules.now.m.now.ext.blocks + 1) scratch.new) }
    ensures look { IfOk result (IsLook (fix_at rules.now.m.now rules.now.limit) (IsLeast rules.now.m.now)
        (IsBelow rules.now.m.now rules.now.limit) cuts.now.sets) }
{
    match first_open(ends) {
        None => {
            let values = single_values(alloc, ends)?;
            Ok(Look::Found(values))
        }
        Some(_) => {
            let answer = relaxed(rules.m, cuts, scratch);
            Ok(look_of(answer))
        }
    }
}

/// Looks at where a search stands.
pub(crate) fn look(alloc: Global, rules: &Rules, place: &mut Place) -> Result<Look, NoMemory>
    requires at { IsPlace rules.now place.old }
    ensures at { IfOk result (λ look. IsPlace rules.now place.new) }
    ensures path { IfOk result (λ look. path_of place.new.room ≡ path_of place.old.room) }
    ensures look { IfOk result (IsLook (fix_at rules.now.m.now rules.now.limit) (IsLeast rules.now.m.now)
        (IsBelow rules.now.m.now rules.now.limit) (reached (root_of rules.now.m.now) (path_of place.old.room))) }
{
    if is_lost(&place.room) {
        return Ok(Look::Failed);
    }
    match &place.room.engine {
        None => Ok(Look::Failed),
        Some(engine) => {
            let cuts = &place.room.stand.cuts;
            let look = look_at(alloc, rules, cuts, engine.store(), &mut place.scratch)?;
            Ok(look)
        }
    }
}
