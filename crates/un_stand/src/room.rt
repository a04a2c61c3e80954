//! Where a walk over boxes stands: the box there, and what rounds leave of it.

ghost use Rattle.std.specs.Prelude.{◌≡◌, ◌<◌, ◌++◌, ◌∷◌, [], List, All, None, true, false, OnOk, IfOk, IfSome, IfNone, length};
ghost use Rattle.std.specs.Option.{option_to_list};
ghost use Rattle.un_domains.specs.Sets.{Sets, NoneEmpty};
ghost use Rattle.std.specs.declared.option.Option.{Option};
ghost use Rattle.un_tree.specs.Boxes.{Splits};
ghost use Rattle.un_kinds.specs.declared.any.AnyProp.{AnyProp};
ghost use Rattle.un_post.specs.Posts.{ReadsFrom, SpansAtMost};
ghost use Rattle.un_certificate.specs.Posted.{AreRounds};
ghost use Rattle.un_stand.specs.Engines.{IsLeft, IsDecided};
ghost use Rattle.un_stand.specs.Rooms.{Goes, IsEndBy, IsLost, IsRoom, IsRoomAt, Rests, path_of};
ghost use Rattle.un_walk.specs.Routes.{paths_after};
ghost use Rattle.un_walk.specs.Turns.{paths_behind, paths_at};

use std::alloc::Global;
use un_base::ids::VarId;
use un_base::memory_error::NoMemory;
use un_domains::side::Side;
use un_domains::store::Store;
use un_engine::engine::Engine;
use un_kinds::any::AnyProp;
use un_prop::run::Fix;
use un_tree::node::Decision;
use un_walk::stand;
use un_walk::stand::Stand;

/// Where a walk over boxes stands. The rounds do not fail on the boxes that the first decisions make, and fail on those of the others.
#[derive(Drop)]
pub struct Room {
    /// The box of all decisions.
    pub stand: Stand,
    /// At what the rounds leave of the box of the first decisions, with a mark for each; none where they fail on the first box.
    pub engine: Option<Engine<AnyProp>>,
}

/// At a first box: that of `cuts`, with propagators whose cycles go from 0 to `horizon`, and a store with the same box for them.
///
/// # Errors
/// Where memory is short.
pub fn first_room(
    alloc: Global,
    cuts: Store,
    props: Vec<AnyProp>,
    store: Store,
    horizon: u32,
) -> Result<Room, NoMemory>
    requires same { store.sets ≡ cuts.sets }
    requires spans { All (SpansAtMost horizon) props.items }
    requires reads { All (ReadsFrom cuts.sets) props.items }
    requires live { NoneEmpty cuts.sets }
    requires fresh { cuts.marked ≡ [] }
    requires unmarked { store.marked ≡ [] }
    ensures at { IfOk result (λ room. (fix : Sets → Option Sets) → AreRounds cuts.sets fix props.items
        → IsRoomAt cuts.sets fix props.items room) }
    ensures first { IfOk result (λ room. path_of room ≡ []) }
{
    let stand = stand::first_stand(alloc, cuts);
    let engine = Engine::new(alloc, props, store, horizon)?;
    Ok(Room { stand, engine })
}

/// Whether the rounds fail on the box.
pub fn is_lost(room: &Room) -> bool
    ensures lost { result ≡ true → IsLost room.now }
    ensures rests { result ≡ false → Rests room.now }
{
    match &room.engine {
        None => true,
        Some(engine) => engine.store().marks() < room.stand.cuts.marks(),
    }
}

/// Takes a decision in an engine. Answers whether the rounds do not fail on its side: where they do, the engine stays where it was.
fn decide_in(engine: &mut Engine<AnyProp>, decision: Decision) -> Result<bool, NoMemory>
    requires there { decision.var.0 < length engine.old.store.sets }
    requires live { NoneEmpty engine.old.store.sets }
    ensures { IfOk result (IsDecided decision engine.old engine.new) }
{
    let fix = engine.decide(decision.var, decision.val, decision.side)?;
    match fix {
        Fix::Stable => Ok(true),
        Fix::Failed => {
            engine.undo();
            Ok(false)
        }
    }
}

/// Takes a decision in the engine, if the rounds do not fail on the box.
fn enter(room: &mut Room, decision: Decision) -> Result<(), NoMemory>
    requires at { IsRoom room.old }
    requires split { Splits room.old.stand.cuts.sets decision.var decision.val }
    ensures stand { OnOk result (room.new.stand ≡ room.old.stand) }
    ensures end { OnOk result ((root : Sets) (fix : Sets → Option Sets) (ps : List AnyProp) → IsRoomAt root fix ps room.old
        → IsEndBy root fix ps (path_of room.old ++ decision ∷ []) room.new.engine) }
{
    if is_lost(room) {
        return Ok(());
    }
    match &mut room.engine {
        None => Ok(()),
        Some(engine) => {
            decide_in(engine, decision)?;
            Ok(())
        }
    }
}

/// Goes down to a side of the box.
///
/// # Errors
/// Where memory is short; then the room is good for nothing but to be dropped.
pub fn go_down(room: &mut Room, decision: Decision) -> Result<(), NoMemory>
    requires at { IsRoom room.old }
    requires split { Splits room.old.stand.cuts.sets decision.var decision.val }
    ensures at { OnOk result (Goes room.old room.new) }
    ensures path { OnOk result (path_of room.new ≡ path_of room.old ++ decision ∷ []) }
{
    enter(room, decision)?;
    stand::go_down(&mut room.stand, decision)?;
    Ok(())
}

/// Takes the last mark of an engine back, if the last decision was one of the first, on whose boxes the rounds do not fail.
fn leave(engine: &mut Option<Engine<AnyProp>>, lost: bool)
    requires { lost ≡ false → IfSome engine.old (λ e. 0 < length e.store.marked) }
    ensures { IsLeft engine.old engine.new lost }
{
    if lost {
        return;
    }
    match engine {
        None => {}
        Some(engine) => engine.undo(),
    }
}

/// Takes the last decision back, and answers it.
pub fn go_up(room: &mut Room) -> Option<Decision>
    requires { IsRoom room.old }
    ensures at { Goes room.old room.new }
    ensures path { path_of room.old ≡ path_of room.new ++ option_to_list result }
    ensures none { IfNone result (path_of room.old ≡ []) }
{
    let lost = is_lost(room);
    match stand::go_up(&mut room.stand) {
        None => None,
        Some(decision) => {
            leave(&mut room.engine, lost);
            Some(decision)
        }
    }
}

/// Goes up to the last decision for the side below, and down to the other side. Answers whether there was one.
///
/// # Errors
/// Where memory is short; then the room is good for nothing but to be dropped.
pub fn turn(room: &mut Room) -> Result<bool, NoMemory>
    requires { IsRoom room.old }
    ensures at { OnOk result (Goes room.old room.new) }
    ensures waits { IfOk result (λ more. paths_behind [] (path_of room.old) ≡ paths_at (path_of room.new) more) }
{
    while let Some(decision) = go_up(room) {
        if let Side::AtMost = decision.side {
            let other = Decision {
                var: decision.var,
                val: decision.val,
                side: Side::Above,
            };
            go_down(room, other)?;
            return Ok(true);
        }
    }
    Ok(false)
}

/// Goes on behind a node: down to the side below of its branch, or on to what waits. Answers whether there is more.
///
/// # Errors
/// Where memory is short; then the room is good for nothing but to be dropped.
pub fn step(room: &mut Room, branch: Option<(VarId, u32)>) -> Result<bool, NoMemory>
    requires at { IsRoom room.old }
    requires strict { IfSome branch (λ b. Splits room.old.stand.cuts.sets b.0 b.1) }
    ensures at { OnOk result (Goes room.old room.new) }
    ensures waits { IfOk result (λ more. paths_after branch (path_of room.old) (paths_behind [] (path_of room.old))
        ≡ paths_at (path_of room.new) more) }
{
    match branch {
        None => {
            let more = turn(room)?;
            Ok(more)
        }
        Some((var, val)) => {
            let side = Side::AtMost;
            go_down(room, Decision { var, val, side })?;
            Ok(true)
        }
    }
}
