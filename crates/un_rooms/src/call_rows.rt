//! The calls of a block, and what a temporary knows of each.

ghost use Rattle.std.specs.Prelude.{◌≡◌, ◌==◌, not, List, All, IfOk, filter, length, map};
ghost use Rattle.std.specs.List.{AllZip};
ghost use Rattle.un_model.specs.declared.model.Arc.{Arc};
ghost use Rattle.un_rooms.specs.Calls.{SeesCall, before_by};
ghost use Rattle.un_rooms.specs.Gathered.{IsAmong};
ghost use Rattle.un_sites.specs.Places.{Place};
ghost use Rattle.un_sites.specs.Rooms.{call_at};
ghost use Rattle.un_sites.specs.Sites.{definer_at};
ghost use Rattle.un_rooms.specs.declared.call_rows.CallSite.{CallSite};

use crate::reach::mark_at;
use std::alloc::{AllocError, Global};
use un_base::ids::{TempId, VarId};
use un_lists::items::Items;
use un_prop::act::UserOf;
use un_rect::clobber::ClobberCall;
use un_sites::sites::Site;

/// A call of a block, with what leads to it, and what reads behind it.
#[derive(Drop)]
pub struct CallSite {
    /// The number of the call's operation in the function.
    pub op: u32,
    /// The variable of the call's cycle.
    pub at: VarId,
    /// The number of the operation that the first mark of `leading` is of.
    pub low: u32,
    /// Marks, one an operation from number `low` on: whether arcs lead from it to the call, or it is the call itself.
    pub leading: Items<bool>,
    /// For each temporary of a span, by its place there, its users among the operations behind the call whatever the cycles.
    pub users: Items<Items<UserOf>>,
}

/// Whether a definer is before a call, whatever the cycles.
fn is_before(call: &CallSite, definer: &Site<'_>) -> bool
    ensures { result ≡ before_by (definer_at definer.now).place call.now }
{
    match definer.place {
        None => true,
        Some(p) => p.it.kind.is_in() || mark_at(call.low, call.leading.as_slice(), p.op),
    }
}

/// The number of a definer; what is not defined has the number 0.
fn op_of(definer: &Site<'_>) -> u32
    ensures { result ≡ (definer_at definer.now).place.op }
{
    match definer.place {
        None => 0,
        Some(p) => p.op,
    }
}

/// A copy of a list of users.
pub(crate) fn copy_users(alloc: Global, users: &[UserOf]) -> Result<Items<UserOf>, AllocError>
    ensures { IfOk result (λ list. list ≡ users.now) }
{
    let list = users.to_vec(alloc)?;
    Ok(Items::from_vec(list))
}

/// A call, for a temporary with this definer, where the users of temporaries stand from `first` on.
fn call_at(
    alloc: Global,
    call: &CallSite,
    first: u32,
    t: TempId,
    definer: &Site<'_>,
) -> Result<ClobberCall, AllocError>
    requires { IsAmong first (length call.now.users) t }
    ensures { IfOk result (λ made. (arcs : List Arc) (ps : List Place) (q : Place) → SeesCall arcs ps first q call.now
        → made ≡ call_at arcs ps t (definer_at definer.now).place q) }
{
    let users = call.users.get((t.0 - first) as usize);
    let behind = copy_users(alloc, users.as_slice())?;
    Ok(ClobberCall {
        at: call.at,
        before: is_before(call, definer),
        behind,
    })
}

/// The calls, for a temporary with this definer: all but the one of which it is the result.
pub fn calls_but(
    alloc: Global,
    calls: &[CallSite],
    first: u32,
    t: TempId,
    definer: &Site<'_>,
) -> Result<Items<ClobberCall>, AllocError>
    requires { All (λ (s : CallSite). IsAmong first (length s.users) t) calls.now }
    ensures { IfOk result (λ made. (arcs : List Arc) (ps qs : List Place) → AllZip (SeesCall arcs ps first) qs calls.now
        → made ≡ map (call_at arcs ps t (definer_at definer.now).place)
        (filter (λ (p : Place). not (p.op == (definer_at definer.now).place.op)) qs)) }
{
    let own = op_of(definer);
    let mut made = Items::new(alloc);
    for call in calls {
        if call.op != own {
            made.push(call_at(alloc, call, first, t, definer)?)?;
        }
    }
    Ok(made)
}
