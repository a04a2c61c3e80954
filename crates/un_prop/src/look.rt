//! Looks through a window at times and activities.

ghost use Rattle.std.specs.Prelude.{◌≡◌, ◌<◌, length, true};
ghost use Rattle.un_domains.specs.Sets.{set_at, least, greatest, NoneEmpty};
ghost use Rattle.un_prop.specs.Rounds.{HasVars};
ghost use Rattle.un_prop.specs.Acts.{act_vars, at_vars};
ghost use Rattle.un_prop.specs.Looks.{at_set, sure};

use crate::act::{Act, At};
use un_domains::window::Window;

/// The least value that a time has.
pub fn least_time(w: &Window<'_>, at: At) -> u32
    requires known { HasVars (at_vars at) w.now.store.now.sets }
    requires live { NoneEmpty w.now.store.now.sets }
    ensures { result ≡ least (at_set at w.now.store.now.sets) }
{
    match at {
        At::Const(n) => n,
        At::Var(v) => w.min(v),
    }
}

/// The greatest value that a time has.
pub fn greatest_time(w: &Window<'_>, at: At) -> u32
    requires known { HasVars (at_vars at) w.now.store.now.sets }
    requires live { NoneEmpty w.now.store.now.sets }
    ensures { result ≡ greatest (at_set at w.now.store.now.sets) }
{
    match at {
        At::Const(n) => n,
        At::Var(v) => w.max(v),
    }
}

/// Whether an activity is sure: its number cannot be 0.
pub fn is_sure(w: &Window<'_>, on: Act) -> bool
    requires { HasVars (act_vars on) w.now.store.now.sets }
    ensures { result ≡ sure on w.now.store.now.sets }
{
    match on {
        Act::Always => true,
        Act::Var(v) => !w.has(v, 0),
    }
}
