//! The cost is less than a limit.

ghost use Rattle.std.specs.Prelude.{◌≡◌, ◌≢◌, ◌<◌, ◌+◌, ◌-◌, ◌*◌, ◌^◌, length, min, slice_index_or};
ghost use Rattle.un_domains.specs.Sets.{NoneEmpty};
ghost use Rattle.un_prop.specs.Rounds.{HasVars, round};
ghost use Rattle.un_prop.specs.Going.{Stepped};
ghost use Rattle.un_prop.specs.LastLaws.{Ascend};
ghost use Rattle.un_prop.specs.declared.propagator.Pruned.TheVariants.{Same, Failed};
ghost use Rattle.un_prec.specs.Below.{BelowVars, cost_at, least_cost, end_cut, below_steps};
ghost use Rattle.un_prec.specs.declared.below.Weighted.{Weighted};

use un_base::ids::VarId;
use un_domains::window::Window;
use un_lists::items::Items;
use un_prop::act::value;
use un_prop::last::check_last;
use un_prop::propagator::{Predicate, Propagator, Pruned, Scratch};
use un_prop::step::{fail, keep_le};

/// A block as a cost counts it.
#[derive(Clone, Copy)]
pub struct Weighted {
    /// The variable of its end, in cycles: one more than the cycle of its last packet.
    pub end: VarId,
    /// How often it runs: each of its packets costs so much.
    pub freq: u32,
}

/// The sum over the blocks of frequency times the block end less 1 is less than `limit`.
#[derive(Drop)]
pub struct Below {
    /// The ends of all blocks with their frequencies.
    pub ends: Items<Weighted>,
    /// What the cost is to be less than.
    pub limit: u64,
    /// The variables of the ends, rising, each once: it reads these, and cuts these alone.
    pub vars: Items<VarId>,
    ghost ascend: { Ascend vars },
    ghost among: { BelowVars vars ends },
}

/// One block's cost more, up to the greatest number.
fn add(total: u64, freq: u32, end: u32) -> u64
    ensures { result ≡ min (total + freq * (end - 1)) (2 ^ 64 - 1) }
{
    let length = u64::from(end.saturating_sub(1));
    total.saturating_add(u64::from(freq).saturating_mul(length))
}

/// The cost of an assignment, up to the greatest number.
fn cost(ends: &[Weighted], fixed: &[u32]) -> u64
    ensures { result ≡ min (cost_at ends.now fixed.now) (2 ^ 64 - 1) }
{
    let mut total = 0;
    for e in ends {
        total = add(total, e.freq, value(fixed, e.end));
    }
    total
}

/// The cost of the least ends, up to the greatest number.
fn cost_in(w: &Window<'_>, ends: &[Weighted]) -> u64
    requires vars { BelowVars w.now.vars.now ends.now }
    requires known { HasVars w.now.vars.now w.now.store.now.sets }
    requires live { NoneEmpty w.now.store.now.sets }
    ensures { result ≡ min (least_cost ends.now w.now.store.now.sets) (2 ^ 64 - 1) }
{
    let mut total = 0;
    for e in ends {
        total = add(total, e.freq, w.min(e.end));
    }
    total
}

/// Keeps of an end what the limit leaves it: `room` is what it leaves above the cost of the least ends.
fn keep_end(w: &mut Window<'_>, before: Pruned, p: &Below, i: usize, room: u64) -> Pruned
    requires there { i < length p.now.ends }
    requires vars { w.old.vars.now ≡ p.now.vars }
    requires known { HasVars p.now.vars w.old.store.now.sets }
    requires live { before ≢ Failed → NoneEmpty w.old.store.now.sets }
    requires room { before ≢ Failed → least_cost p.now.ends w.old.store.now.sets + room + 1 ≡ p.now.limit }
    ensures step { (d : Weighted) → Stepped w.old.vars.now (end_cut p.now.ends p.now.limit (slice_index_or p.now.ends i d))
        w.old.store.now w.new.store.now before result }
    ensures room { result ≢ Failed → least_cost p.now.ends w.new.store.now.sets + room + 1 ≡ p.now.limit }
    ensures same_reference { w.new.store.ghost_name ≡ w.old.store.ghost_name }
    ensures vars { w.new.vars ≡ w.old.vars }
{
    if before == Pruned::Failed {
        return before;
    }
    let e = p.ends.as_slice()[i];
    if e.freq == 0 {
        return before;
    }
    let least = u64::from(w.min(e.end).max(1));
    let high = least.saturating_add(room / u64::from(e.freq));
    let greatest = u64::from(w.max(e.end));
    if greatest <= high {
        return before;
    }
    keep_le(w, before, e.end, high as u32)
}

/// Keeps of each end what the limit leaves it.
fn keep_ends(w: &mut Window<'_>, before: Pruned, p: &Below, room: u64) -> Pruned
    requires vars { w.old.vars.now ≡ p.now.vars }
    requires known { HasVars p.now.vars w.old.store.now.sets }
    requires live { before ≢ Failed → NoneEmpty w.old.store.now.sets }
    requires room { before ≢ Failed → least_cost p.now.ends w.old.store.now.sets + room + 1 ≡ p.now.limit }
    ensures step { Stepped w.old.vars.now (round (end_cut p.now.ends p.now.limit) p.now.ends) w.old.store.now w.new.store.now before result }
    ensures same_reference { w.new.store.ghost_name ≡ w.old.store.ghost_name }
    ensures vars { w.new.vars ≡ w.old.vars }
{
    let mut did = before;
    for i in 0..p.ends.len() {
        did = keep_end(w, did, p, i, room);
    }
    did
}

/// Fails where the least ends cost the limit or more, and else keeps of each end what the limit leaves it.
fn keep_cost(w: &mut Window<'_>, p: &Below) -> Pruned
    requires vars { w.old.vars.now ≡ p.now.vars }
    requires known { HasVars p.now.vars w.old.store.now.sets }
    requires live { NoneEmpty w.old.store.now.sets }
    ensures step { Stepped w.old.vars.now (below_steps w.old.vars.now p.now.ends p.now.limit) w.old.store.now w.new.store.now Same result }
    ensures same_reference { w.new.store.ghost_name ≡ w.old.store.ghost_name }
    ensures vars { w.new.vars ≡ w.old.vars }
{
    let cost = cost_in(w, p.ends.as_slice());
    if cost < p.limit {
        return keep_ends(w, Pruned::Same, p, p.limit - cost - 1);
    }
    fail(w, Pruned::Same)
}

impl Predicate for Below {
    ghost use Rattle.un_prec.specs.Below.{below_holds, below_steps, BelowVars, BelowStrong};
    ghost use Rattle.un_prec.specs.BelowLaws.{below_looks, below_lawful, below_keeps, below_strong};

    ghost scope = { λ p. p.vars };

    ghost holds = { λ p x. below_holds p.ends p.limit x };

    fn reads(&self) -> &[VarId] {
        self.vars.as_slice()
    }

    fn test(&self, fixed: &[u32]) -> bool {
        cost(self.ends.as_slice(), fixed) < self.limit
    }

    ghost looks = { λ p x y same. below_looks p.vars p.ends p.limit p.among x y same };
}

impl Propagator for Below {
    ghost use Rattle.un_prop.specs.Last.{last_cut};
    ghost use Rattle.un_prop.specs.PartLaws.{one_part, one_whole, lawful_checked, keeps_checked, forward_checked, stable_first};
    ghost use Rattle.un_prop.specs.WithinLaws.{one_within};
    ghost use Rattle.std.specs.Prelude.{option_and_then};
    ghost use Rattle.un_prec.specs.Below.{below_holds, below_steps, BelowVars, BelowStrong};
    ghost use Rattle.un_prec.specs.BelowLaws.{below_looks, below_lawful, below_keeps, below_strong};

    ghost cut = { λ p s. option_and_then (last_cut p.vars (below_holds p.ends p.limit)) (below_steps p.vars p.ends p.limit s) };

    ghost parts = { λ p. one_part p.vars (below_holds p.ends p.limit) };

    ghost strong = { λ p s. BelowStrong p.ends p.limit s };

    ghost span = { λ p. 0 };

    fn prune_in(&self, w: &mut Window<'_>, scratch: &mut Scratch) -> Pruned {
        let did = keep_cost(w, self);
        check_last(self, w, scratch, did)
    }

    ghost keeps = { λ p s x k full there holds. keeps_checked p.vars (below_holds p.ends p.limit)
        (below_looks p.vars p.ends p.limit p.among) p.ascend (below_steps p.vars p.ends p.limit)
        (below_lawful p.vars p.ends p.limit p.among) s x k (below_keeps p.vars p.ends p.limit p.among s x k there holds) there.long holds };

    ghost lawful = { λ p. lawful_checked p.vars (below_holds p.ends p.limit) (below_looks p.vars p.ends p.limit p.among) p.ascend
        (below_steps p.vars p.ends p.limit) (below_lawful p.vars p.ends p.limit p.among) };

    ghost whole = { λ p x. one_whole p.vars (below_holds p.ends p.limit) x };

    ghost within = { λ p. one_within p.vars (below_holds p.ends p.limit) };

    ghost forward = { λ p. forward_checked p.vars (below_holds p.ends p.limit) (below_looks p.vars p.ends p.limit p.among) p.ascend
        (below_steps p.vars p.ends p.limit) (below_lawful p.vars p.ends p.limit p.among) };

    ghost strength = { λ p s k full words grounded e. below_strong p.vars p.ends p.limit p.among s k full words grounded
        (stable_first p.vars (below_holds p.ends p.limit) (below_looks p.vars p.ends p.limit p.among) p.ascend
        (below_steps p.vars p.ends p.limit) (below_lawful p.vars p.ends p.limit p.among) s k full e) };
}
