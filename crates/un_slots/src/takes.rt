//! Whether an item surely takes some of a resource.

ghost use Rattle.std.specs.Prelude.{◌≡◌, ◌<◌, length, nat_eq};
ghost use Rattle.std.specs.List.{list_any};
ghost use Rattle.un_domains.specs.Sets.{NoneEmpty, set_at};
ghost use Rattle.un_prop.specs.Acts.{act_vars};
ghost use Rattle.un_prop.specs.Rounds.{HasVars};
ghost use Rattle.un_slots.specs.Slots.{share_at};
ghost use Rattle.un_slots.specs.Crowds.{surely_takes};

use crate::item::Item;
use un_base::ids::VarId;
use un_domains::window::Window;
use un_isa::packet_counts::{Resource, share};
use un_isa::table::Needs;
use un_prop::act::Act;
use un_prop::look::is_sure;

/// Whether the entry of `uses` at place `n` takes none of it.
fn takes_none(r: Resource, uses: &[Needs], n: u32) -> bool
    ensures { result ≡ nat_eq (share_at r uses.now n) 0 }
{
    let n = n as usize;
    if n < uses.len() {
        share(r, uses[n]) == 0
    } else {
        true
    }
}

/// Whether some number that `v` has left takes none of it.
fn some_takes_none(w: &Window<'_>, r: Resource, uses: &[Needs], v: VarId) -> bool
    requires there { v.0 < length w.now.store.now.sets }
    requires live { NoneEmpty w.now.store.now.sets }
    ensures { result ≡ list_any (λ n. nat_eq (share_at r uses.now n) 0) (set_at w.now.store.now.sets v.0) }
{
    let low = u64::from(w.min(v));
    let end = u64::from(w.max(v)) + 1;
    for n in low..end {
        if w.has(v, n as u32) {
            if takes_none(r, uses, n as u32) {
                return true;
            }
        }
    }
    false
}

/// Whether an item surely takes some of a resource.
pub(crate) fn surely_takes(w: &Window<'_>, r: Resource, item: &Item) -> bool
    requires known { HasVars (act_vars item.now.on) w.now.store.now.sets }
    requires live { NoneEmpty w.now.store.now.sets }
    ensures { result ≡ surely_takes r w.now.store.now.sets item.now }
{
    if !is_sure(w, item.on) {
        return false;
    }
    match item.on {
        Act::Always => !takes_none(r, item.uses.as_slice(), 1),
        Act::Var(v) => !some_takes_none(w, r, item.uses.as_slice(), v),
    }
}
