//! Where a walk over a tree stands: the box that decisions make of a first one.

ghost use Rattle.std.specs.Prelude.{◌≡◌, ◌<◌, ◌++◌, ◌∷◌, [], OnOk, IfOk, IfSome, IfNone, length};
ghost use Rattle.std.specs.Option.{option_to_list};
ghost use Rattle.un_domains.specs.Sets.{Sets, NoneEmpty};
ghost use Rattle.un_tree.specs.Boxes.{Splits, decided};
ghost use Rattle.un_walk.specs.Stands.{IsStand, IsStandAt};
ghost use Rattle.un_walk.specs.Turns.{paths_behind, paths_at};
ghost use Rattle.un_walk.specs.Routes.{paths_after};

use std::alloc::Global;
use un_base::ids::VarId;
use un_base::memory_error::NoMemory;
use un_domains::side::Side;
use un_domains::store::Store;
use un_tree::node::Decision;

/// Where a walk over a tree stands: it knows no model and no propagators.
#[derive(Drop)]
pub struct Stand {
    /// The box that the decisions make of the first one, with a mark for each.
    pub cuts: Store,
    /// The decisions on the way, the first one first.
    pub path: Vec<Decision>,
}

/// At a first box.
pub fn first_stand(alloc: Global, cuts: Store) -> Stand
    requires full { NoneEmpty cuts.sets }
    requires fresh { cuts.marked ≡ [] }
    ensures at { IsStandAt cuts.sets result }
    ensures first { result.path.items ≡ [] }
{
    Stand {
        cuts,
        path: Vec::new(alloc),
    }
}

/// Marks a store, and cuts it by a decision.
pub(crate) fn mark_and_cut(store: &mut Store, decision: Decision) -> Result<(), NoMemory>
    requires there { decision.var.0 < length store.old.sets }
    requires live { NoneEmpty store.old.sets }
    ensures cut { OnOk result (store.new.sets ≡ decided decision store.old.sets) }
    ensures marked { OnOk result (store.new.marked ≡ store.old.marked ++ store.old.sets ∷ []) }
{
    store.mark()?;
    let _ = match decision.side {
        Side::AtMost => store.keep_le(decision.var, decision.val),
        Side::Above => store.keep_gt(decision.var, decision.val),
    };
    Ok(())
}

/// Adds a decision.
fn push(path: &mut Vec<Decision>, decision: Decision) -> Result<(), NoMemory>
    ensures { OnOk result (path.new.items ≡ path.old.items ++ decision ∷ []) }
{
    match path.push(decision) {
        Ok(_) => Ok(()),
        Err(_) => Err(NoMemory),
    }
}

/// Goes down to a side of the box.
///
/// # Errors
/// Where memory is short; then the stand is good for nothing but to be dropped.
pub fn go_down(stand: &mut Stand, decision: Decision) -> Result<(), NoMemory>
    requires at { IsStand stand.old }
    requires split { Splits stand.old.cuts.sets decision.var decision.val }
    ensures at { OnOk result ((root : Sets) → IsStandAt root stand.old → IsStandAt root stand.new) }
    ensures path { OnOk result (stand.new.path.items ≡ stand.old.path.items ++ decision ∷ []) }
{
    mark_and_cut(&mut stand.cuts, decision)?;
    push(&mut stand.path, decision)?;
    Ok(())
}

/// Takes the last decision back, and answers it.
pub fn go_up(stand: &mut Stand) -> Option<Decision>
    requires { IsStand stand.old }
    ensures at { (root : Sets) → IsStandAt root stand.old → IsStandAt root stand.new }
    ensures path { stand.old.path.items ≡ stand.new.path.items ++ option_to_list result }
    ensures none { IfNone result (stand.old.path.items ≡ []) }
{
    match stand.path.pop() {
        None => None,
        Some(decision) => {
            stand.cuts.undo();
            Some(decision)
        }
    }
}

/// Goes up to the last decision for the side below, and down to the other side. Answers whether there was one.
///
/// # Errors
/// Where memory is short; then the stand is good for nothing but to be dropped.
pub fn turn(stand: &mut Stand) -> Result<bool, NoMemory>
    requires { IsStand stand.old }
    ensures at { OnOk result ((root : Sets) → IsStandAt root stand.old → IsStandAt root stand.new) }
    ensures waits { IfOk result (λ more. paths_behind [] stand.old.path.items ≡ paths_at stand.new.path.items more) }
{
    while let Some(decision) = go_up(stand) {
        if let Side::AtMost = decision.side {
            let other = Decision {
                var: decision.var,
                val: decision.val,
                side: Side::Above,
            };
            go_down(stand, other)?;
            return Ok(true);
        }
    }
    Ok(false)
}

/// Goes on behind a node: down to the side below of its branch, or on to what waits. Answers whether there is more.
///
/// # Errors
/// Where memory is short; then the stand is good for nothing but to be dropped.
pub fn step(stand: &mut Stand, branch: Option<(VarId, u32)>) -> Result<bool, NoMemory>
    requires at { IsStand stand.old }
    requires strict { IfSome branch (λ b. Splits stand.old.cuts.sets b.0 b.1) }
    ensures at { OnOk result ((root : Sets) → IsStandAt root stand.old → IsStandAt root stand.new) }
    ensures waits { IfOk result (λ more. paths_after branch stand.old.path.items (paths_behind [] stand.old.path.items)
        ≡ paths_at stand.new.path.items more) }
{
    match branch {
        None => {
            let more = turn(stand)?;
            Ok(more)
        }
        Some((var, val)) => {
            let side = Side::AtMost;
            go_down(stand, Decision { var, val, side })?;
            Ok(true)
        }
    }
}
