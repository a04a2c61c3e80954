//! How a search goes on at an open node: it goes there, chooses, and looks at both sides.

ghost use Rattle.std.specs.Prelude.{◌≡◌, ◌++◌, ◌∷◌, [], IfOk, MatchOption};
ghost use Rattle.un_domains.specs.Sets.{NoneEmpty};
ghost use Rattle.un_tree.specs.Boxes.{Splits, decided, reached};
ghost use Rattle.un_tree.specs.Searched.{HasTwo, IsOpenBox};
ghost use Rattle.un_model.specs.Boxes.{IsBelow, root_of};
ghost use Rattle.un_bound.specs.Relaxations.{IsLeast};
ghost use Rattle.un_post.specs.Posts.{fix_at};
ghost use Rattle.un_branching.specs.Searched.{IsExpansion, IsLook};
ghost use Rattle.un_certificate.specs.Posted.{IsPosted};
ghost use Rattle.un_stand.specs.Rooms.{path_of};
ghost use Rattle.un_walk.specs.Stands.{AllSplit};
ghost use Rattle.un_search.specs.Stores.{IsPlace};

use crate::choices::{Choice, choice_of};
use crate::lifts::first_lift;
use crate::look::look;
use crate::order::BlockOrder;
use crate::rounds::Place;
use std::alloc::Global;
use un_base::ids::VarId;
use un_base::memory_error::NoMemory;
use un_branching::problem::{Expansion, Look, Problem};
use un_domains::side::Side;
use un_engine::engine::Engine;
use un_kinds::any::AnyProp;
use un_stand::jump::go_to;
use un_stand::room::{go_down, go_up};
use un_stand::rules::Rules;
use un_tree::node::Decision;

/// A model for which propagators were posted, under a limit on the cost.
#[derive(Drop)]
pub(crate) struct ModelRounds<'a> {
    /// The allocator for what the rounds and looks need.
    pub alloc: Global,
    /// The model whose solutions are searched for, and what a solution is to cost less than; none where each solution will do.
    pub rules: Rules<'a>,
    pub ghost posted: { ∥ IsPosted rules.m.now rules.limit ∥₁ },
}

/// Chooses where an engine has a choice left: where a block's end is lifted, or what the order says.
fn choose_in(
    engine: &mut Engine<AnyProp>,
    flag: VarId,
    order: &mut [BlockOrder],
    decided: Option<VarId>,
) -> Result<Choice, NoMemory>
    requires live { NoneEmpty engine.old.store.sets }
    requires two { HasTwo engine.old.store.sets }
    ensures same { IfOk result (λ choice. engine.new ≡ engine.old) }
    ensures splits { IfOk result (λ choice. Splits engine.old.store.sets choice.var choice.val) }
{
    let lift = first_lift(engine, order, decided)?;
    match lift {
        Some(choice) => Ok(choice),
        None => Ok(choice_of(engine.store(), flag, order)),
    }
}

/// The variable of the last decision on the way to where a search stands; none at the first box.
fn decided_last(place: &Place) -> Option<VarId> {
    match place.room.stand.path.as_slice().last() {
        None => None,
        Some(decision) => Some(decision.var),
    }
}

/// Chooses where a search stands. It may try decisions there, and takes them back.
fn choose(rules: &Rules, place: &mut Place) -> Result<Choice, NoMemory>
    requires at { IsPlace rules.now place.old }
    requires choice { IsOpenBox (fix_at rules.now.m.now rules.now.limit) (reached (root_of rules.now.m.now) (path_of place.old.room)) }
    ensures at { IfOk result (λ choice. IsPlace rules.now place.new) }
    ensures path { IfOk result (λ choice. path_of place.new.room ≡ path_of place.old.room) }
    ensures splits { IfOk result (λ choice.
        MatchOption (fix_at rules.now.m.now rules.now.limit (reached (root_of rules.now.m.now) (path_of place.old.room))) ⊥
        (λ f. Splits f choice.var choice.val)) }
{
    let decided = decided_last(place);
    match &mut place.room.engine {
        None => unreachable!(),
        Some(engine) => {
            let choice = choose_in(engine, rules.m.flag, place.order.as_mut_slice(), decided)?;
            Ok(choice)
        }
    }
}

/// Goes down to a side, and looks at it.
fn enter(
    alloc: Global,
    rules: &Rules,
    place: &mut Place,
    decision: Decision,
) -> Result<Look, NoMemory>
    requires at { IsPlace rules.now place.old }
    requires split { Splits (reached (root_of rules.now.m.now) (path_of place.old.room)) decision.var decision.val }
    ensures at { IfOk result (λ look. IsPlace rules.now place.new) }
    ensures path { IfOk result (λ look. path_of place.new.room ≡ path_of place.old.room ++ decision ∷ []) }
    ensures look { IfOk result (IsLook (fix_at rules.now.m.now rules.now.limit) (IsLeast rules.now.m.now)
        (IsBelow rules.now.m.now rules.now.limit) (decided decision (reached (root_of rules.now.m.now) (path_of place.old.room)))) }
{
    go_down(&mut place.room, decision)?;
    let look = look(alloc, rules, place)?;
    Ok(look)
}

/// Looks at a side, and comes back.
fn peek(
    alloc: Global,
    rules: &Rules,
    place: &mut Place,
    decision: Decision,
) -> Result<Look, NoMemory>
    requires at { IsPlace rules.now place.old }
    requires split { Splits (reached (root_of rules.now.m.now) (path_of place.old.room)) decision.var decision.val }
    ensures at { IfOk result (λ look. IsPlace rules.now place.new) }
    ensures path { IfOk result (λ look. path_of place.new.room ≡ path_of place.old.room) }
    ensures look { IfOk result (IsLook (fix_at rules.now.m.now rules.now.limit) (IsLeast rules.now.m.now)
        (IsBelow rules.now.m.now rules.now.limit) (decided decision (reached (root_of rules.now.m.now) (path_of place.old.room)))) }
{
    let look = enter(alloc, rules, place, decision)?;
    go_up(&mut place.room);
    Ok(look)
}

/// Chooses at the end of a path, and looks at both sides. It ends on the left side, which the search takes next while no other open
/// node has a lower least cost.
fn expand(
    alloc: Global,
    rules: &Rules,
    place: &mut Place,
    path: &[Decision],
) -> Result<Expansion, NoMemory>
    requires at { IsPlace rules.now place.old }
    requires split { AllSplit (root_of rules.now.m.now) path.now }
    requires choice { IsOpenBox (fix_at rules.now.m.now rules.now.limit) (reached (root_of rules.now.m.now) path.now) }
    ensures at { IfOk result (λ e. IsPlace rules.now place.new) }
    ensures expansion { IfOk result (IsExpansion (fix_at rules.now.m.now rules.now.limit) (IsLeast rules.now.m.now)
        (IsBelow rules.now.m.now rules.now.limit) (reached (root_of rules.now.m.now) path.now)) }
{
    go_to(&mut place.room, path)?;
    let choice = choose(rules, place)?;
    let above = Decision {
        var: choice.var,
        val: choice.val,
        side: Side::Above,
    };
    let right = peek(alloc, rules, place, above)?;
    let at_most = Decision {
        var: choice.var,
        val: choice.val,
        side: Side::AtMost,
    };
    let left = enter(alloc, rules, place, at_most)?;
    Ok(Expansion {
        var: choice.var,
        val: choice.val,
        left,
        right,
    })
}

/// Looks at the first box.
fn first(alloc: Global, rules: &Rules, place: &mut Place) -> Result<Look, NoMemory>
    requires at { IsPlace rules.now place.old }
    requires fresh { path_of place.old.room ≡ [] }
    ensures at { IfOk result (λ look. IsPlace rules.now place.new) }
    ensures look { IfOk result (IsLook (fix_at rules.now.m.now rules.now.limit) (IsLeast rules.now.m.now)
        (IsBelow rules.now.m.now rules.now.limit) (root_of rules.now.m.now)) }
{
    let look = look(alloc, rules, place)?;
    Ok(look)
}

impl Problem for ModelRounds<'_> {
    ghost use Rattle.std.specs.Prelude.{◌≡◌, []};
    ghost use Rattle.un_bound.specs.Relaxations.{IsLeast};
    ghost use Rattle.un_certificate.specs.Joints.{blocks_of};
    ghost use Rattle.un_certificate.specs.ModelLaws.{model_inside, model_keeps, model_rises};
    ghost use Rattle.un_model.specs.Boxes.{IsBelow, root_of};
    ghost use Rattle.un_post.specs.Posts.{fix_at};
    ghost use Rattle.un_stand.specs.Rooms.{path_of};
    ghost use Rattle.un_search.specs.Stores.{IsPlace};

    type Room = Place;

    ghost block_count = { λ r. blocks_of r.rules.m.now };

    ghost root = { λ r. root_of r.rules.m.now };

    ghost fix = { λ r. fix_at r.rules.m.now r.rules.limit };

    ghost least = { λ r. IsLeast r.rules.m.now };

    ghost is_good = { λ r. IsBelow r.rules.m.now r.rules.limit };

    ghost is_fresh = { λ r place. IsPlace r.rules place × (path_of place.room ≡ []) };

    ghost is_ready = { λ r place. IsPlace r.rules place };

    fn first(&self, room: &mut Place) -> Result<Look, NoMemory> {
        first(self.alloc, &self.rules, room)
    }

    fn expand(&self, room: &mut Place, path: &[Decision]) -> Result<Expansion, NoMemory> {
        expand(self.alloc, &self.rules, room, path)
    }

    ghost inside = { λ r b f i e. model_inside r.rules.m.now r.rules.limit r.posted b f i e };

    ghost keeps = { λ r b x i there good none. model_keeps r.rules.m.now r.rules.limit r.posted b x i there good none };

    ghost rises = { λ r b c k n i j below large small. model_rises r.rules.m.now b c k n below large small };
}
