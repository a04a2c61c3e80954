//! Which variables of a temporary have other than one value.

ghost use Rattle.std.specs.Prelude.{◌≡◌, All, true};
ghost use Rattle.un_prop.specs.Among.{among, AllAmong};
ghost use Rattle.un_prop.specs.Acts.{act_vars, at_vars};
ghost use Rattle.un_prop.specs.Rounds.{HasVars};
ghost use Rattle.un_rect.specs.Spans.{choice_vars, UserVars, TempVars};
ghost use Rattle.un_rect.specs.Apart.{user_vars, users_vars, temp_vars};
ghost use Rattle.un_rect.specs.Opened.{opened_at, opened_after, is_more};

use un_base::ids::VarId;
use un_domains::window::Window;
use un_prop::act::{Act, At, Temp, UserOf};

/// The variables that have other than one value: none, one alone, or more.
#[derive(Clone, Copy)]
pub(crate) enum Opened {
    Nothing,
    One(VarId),
    More,
}

/// Whether there are more than one.
pub(crate) fn is_more(o: Opened) -> bool
    ensures { result ≡ is_more o }
{
    match o {
        Opened::Nothing => false,
        Opened::One(_) => false,
        Opened::More => true,
    }
}

/// What is open with one more variable.
pub(crate) fn with_var(w: &Window<'_>, before: Opened, v: VarId) -> Opened
    requires vars { among w.now.vars.now v ≡ true }
    requires known { HasVars w.now.vars.now w.now.store.now.sets }
    ensures { result ≡ opened_at w.now.store.now.sets before v }
{
    if w.is_single(v) {
        return before;
    }
    match before {
        Opened::Nothing => Opened::One(v),
        Opened::One(u) => { if u.0 == v.0 { before } else { Opened::More } }
        Opened::More => Opened::More,
    }
}

/// With the variable of an activity.
fn with_act(w: &Window<'_>, before: Opened, on: Act) -> Opened
    requires vars { AllAmong w.now.vars.now (act_vars on) }
    requires known { HasVars w.now.vars.now w.now.store.now.sets }
    ensures { result ≡ opened_after w.now.store.now.sets (act_vars on) before }
{
    match on {
        Act::Always => before,
        Act::Var(v) => with_var(w, before, v),
    }
}

/// With the variable of a time.
fn with_time(w: &Window<'_>, before: Opened, at: At) -> Opened
    requires vars { AllAmong w.now.vars.now (at_vars at) }
    requires known { HasVars w.now.vars.now w.now.store.now.sets }
    ensures { result ≡ opened_after w.now.store.now.sets (at_vars at) before }
{
    match at {
        At::Const(_) => before,
        At::Var(v) => with_var(w, before, v),
    }
}

/// With the variable of a choice.
fn with_choice(w: &Window<'_>, before: Opened, choice: Option<VarId>) -> Opened
    requires vars { AllAmong w.now.vars.now (choice_vars choice) }
    requires known { HasVars w.now.vars.now w.now.store.now.sets }
    ensures { result ≡ opened_after w.now.store.now.sets (choice_vars choice) before }
{
    match choice {
        None => before,
        Some(v) => with_var(w, before, v),
    }
}

/// With the variables of a user.
fn with_user(w: &Window<'_>, before: Opened, u: &UserOf) -> Opened
    requires vars { UserVars w.now.vars.now u.now }
    requires known { HasVars w.now.vars.now w.now.store.now.sets }
    ensures { result ≡ opened_after w.now.store.now.sets (user_vars u.now) before }
{
    let first = with_act(w, before, u.on);
    let second = with_time(w, first, u.at);
    with_choice(w, second, u.choice)
}

/// With the variables of some users.
pub(crate) fn with_users(w: &Window<'_>, before: Opened, users: &[UserOf]) -> Opened
    requires vars { All (UserVars w.now.vars.now) users.now }
    requires known { HasVars w.now.vars.now w.now.store.now.sets }
    ensures { result ≡ opened_after w.now.store.now.sets (users_vars users.now) before }
{
    let mut so_far = before;
    for u in users {
        if is_more(so_far) {
            return Opened::More;
        }
        so_far = with_user(w, so_far, u);
    }
    so_far
}

/// With the variables of a temporary, its register first.
pub(crate) fn with_temp(w: &Window<'_>, before: Opened, a: &Temp) -> Opened
    requires vars { TempVars w.now.vars.now a.now }
    requires known { HasVars w.now.vars.now w.now.store.now.sets }
    ensures { result ≡ opened_after w.now.store.now.sets (temp_vars a.now) before }
{
    let first = with_var(w, before, a.reg);
    let second = with_act(w, first, a.on);
    if is_more(second) {
        return Opened::More;
    }
    let third = with_time(w, second, a.at);
    with_users(w, third, a.users.as_slice())
}
