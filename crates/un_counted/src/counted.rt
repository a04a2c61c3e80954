//! The ends of blocks are no less than one of several rows has them, and cost less than a limit.

ghost use Rattle.std.specs.Prelude.{◌≡◌, ◌<◌, ◌+◌, ◌-◌, ◌*◌, ◌^◌, length, min, All};
ghost use Rattle.std.specs.List.{list_all, list_any};
ghost use Rattle.un_domains.specs.Sets.{NoneEmpty};
ghost use Rattle.un_prop.specs.Rounds.{HasVars};
ghost use Rattle.un_prop.specs.Going.{Stepped};
ghost use Rattle.un_prop.specs.LastLaws.{Ascend};
ghost use Rattle.un_prop.specs.declared.propagator.Pruned.TheVariants.{Same};
ghost use Rattle.un_counted.specs.Counted.{value_at, lowest, highest, reaches, cost_of, row_holds, RowVars, RowsVars, counted_test, counted_cut};

use un_base::ids::VarId;
use un_domains::window::Window;
use un_lists::items::Items;
use un_prop::act::value;
use un_prop::last::check_last;
use un_prop::propagator::{Predicate, Propagator, Pruned, Scratch};
use un_prop::step::fail;

/// The end of a block as a row has it.
#[derive(Clone, Copy)]
pub struct LeastEnd {
    /// The variable of the end, in cycles: one more than the cycle of the block's last packet.
    pub end: VarId,
    /// How often the block runs: each of its packets costs so much.
    pub freq: u32,
    /// What the end is at least, in cycles.
    pub least: u32,
}

/// The ends of blocks are no less than one of the rows has them, all ends of one row together, and cost less than `limit`: the sum over
/// the row of frequency times the end less 1. It fails where each row asks for an end that is too great, or where its ends cost the limit,
/// and takes no value away before all variables but one are fixed: so it raises no end.
#[derive(Drop)]
pub struct Counted {
    /// The rows, each with the ends that it speaks of.
    pub rows: Items<Items<LeastEnd>>,
    /// What the cost of a row's ends is to be less than.
    pub limit: u64,
    /// The variables of the ends, rising, each once: it reads these, and cuts these alone.
    pub vars: Items<VarId>,
    ghost ascend: { Ascend vars },
    ghost among: { RowsVars vars rows },
}

/// One block's cost more, up to the greatest number.
fn add(total: u64, freq: u32, end: u32) -> u64
    ensures { result ≡ min (total + freq * (end - 1)) (2 ^ 64 - 1) }
{
    let length = u64::from(end.saturating_sub(1));
    total.saturating_add(u64::from(freq).saturating_mul(length))
}

/// What the ends of a row cost in an assignment, up to the greatest number.
fn cost(row: &[LeastEnd], fixed: &[u32]) -> u64
    ensures { result ≡ min (cost_of row.now (value_at fixed.now)) (2 ^ 64 - 1) }
{
    let mut total = 0;
    for e in row {
        total = add(total, e.freq, value(fixed, e.end).max(e.least));
    }
    total
}

/// Whether each end of a row is as great as the row has it.
fn are_reached(row: &[LeastEnd], fixed: &[u32]) -> bool
    ensures { result ≡ list_all (reaches (value_at fixed.now)) row.now }
{
    row.iter().all(|e| e.least <= value(fixed, e.end))
}

/// Whether a row is met.
fn row_holds(row: &Items<LeastEnd>, limit: u64, fixed: &[u32]) -> bool
    ensures { result ≡ row_holds limit (value_at fixed.now) (value_at fixed.now) row.now }
{
    if !are_reached(row.as_slice(), fixed) {
        return false;
    }
    cost(row.as_slice(), fixed) < limit
}

/// What the least ends that are left of a row cost, up to the greatest number.
fn cost_in(w: &Window<'_>, row: &[LeastEnd]) -> u64
    requires vars { RowVars w.now.vars.now row.now }
    requires known { HasVars w.now.vars.now w.now.store.now.sets }
    requires live { NoneEmpty w.now.store.now.sets }
    ensures { result ≡ min (cost_of row.now (lowest w.now.store.now.sets)) (2 ^ 64 - 1) }
{
    let mut total = 0;
    for e in row {
        total = add(total, e.freq, w.min(e.end).max(e.least));
    }
    total
}

/// Whether each end of a row may be as great as the row has it.
fn may_be_reached(w: &Window<'_>, row: &[LeastEnd]) -> bool
    requires vars { RowVars w.now.vars.now row.now }
    requires known { HasVars w.now.vars.now w.now.store.now.sets }
    requires live { NoneEmpty w.now.store.now.sets }
    ensures { result ≡ list_all (reaches (highest w.now.store.now.sets)) row.now }
{
    for e in row {
        if w.max(e.end) < e.least {
            return false;
        }
    }
    true
}

/// Whether a row may be met.
fn row_may_hold(w: &Window<'_>, row: &Items<LeastEnd>, limit: u64) -> bool
    requires vars { RowVars w.now.vars.now row.now }
    requires known { HasVars w.now.vars.now w.now.store.now.sets }
    requires live { NoneEmpty w.now.store.now.sets }
    ensures { result ≡ row_holds limit (lowest w.now.store.now.sets) (highest w.now.store.now.sets) row.now }
{
    if !may_be_reached(w, row.as_slice()) {
        return false;
    }
    cost_in(w, row.as_slice()) < limit
}

/// Whether some row may be met.
fn some_may_hold(w: &Window<'_>, rows: &[Items<LeastEnd>], limit: u64) -> bool
    requires vars { RowsVars w.now.vars.now rows.now }
    requires known { HasVars w.now.vars.now w.now.store.now.sets }
    requires live { NoneEmpty w.now.store.now.sets }
    ensures { result ≡ counted_test rows.now limit w.now.store.now.sets }
{
    for row in rows {
        if row_may_hold(w, row, limit) {
            return true;
        }
    }
    false
}

/// Fails where no row may be met.
fn keep_counted(w: &mut Window<'_>, p: &Counted) -> Pruned
    requires vars { w.old.vars.now ≡ p.now.vars }
    requires known { HasVars p.now.vars w.old.store.now.sets }
    requires live { NoneEmpty w.old.store.now.sets }
    ensures step { Stepped w.old.vars.now (counted_cut w.old.vars.now p.now.rows p.now.limit) w.old.store.now w.new.store.now Same result }
    ensures same_reference { w.new.store.ghost_name ≡ w.old.store.ghost_name }
    ensures vars { w.new.vars ≡ w.old.vars }
{
    if some_may_hold(w, p.rows.as_slice(), p.limit) {
        return Pruned::Same;
    }
    fail(w, Pruned::Same)
}

impl Predicate for Counted {
    ghost use Rattle.un_counted.specs.Counted.{counted_holds};
    ghost use Rattle.un_counted.specs.CountedLaws.{counted_looks};

    ghost scope = { λ p. p.vars };

    ghost holds = { λ p x. counted_holds p.rows p.limit x };

    fn reads(&self) -> &[VarId] {
        self.vars.as_slice()
    }

    fn test(&self, fixed: &[u32]) -> bool {
        let limit = self.limit;
        self.rows
            .as_slice()
            .iter()
            .any(|row| row_holds(row, limit, fixed))
    }

    ghost looks = { λ p x y same. counted_looks p.vars p.rows p.limit p.among x y same };
}

impl Propagator for Counted {
    ghost use Rattle.std.specs.Prelude.{option_and_then};
    ghost use Rattle.un_prop.specs.Last.{last_cut};
    ghost use Rattle.un_prop.specs.PartLaws.{one_part, one_whole, lawful_checked, keeps_checked, forward_checked};
    ghost use Rattle.un_prop.specs.WithinLaws.{one_within};
    ghost use Rattle.un_counted.specs.Counted.{counted_holds};
    ghost use Rattle.un_counted.specs.CountedLaws.{counted_looks, counted_lawful, counted_keeps};

    ghost cut = { λ p s. option_and_then (last_cut p.vars (counted_holds p.rows p.limit)) (counted_cut p.vars p.rows p.limit s) };

    ghost parts = { λ p. one_part p.vars (counted_holds p.rows p.limit) };

    ghost strong = { λ p s. Unit {0} };

    ghost span = { λ p. 0 };

    fn prune_in(&self, w: &mut Window<'_>, scratch: &mut Scratch) -> Pruned {
        let did = keep_counted(w, self);
        check_last(self, w, scratch, did)
    }

    ghost keeps = { λ p s x k full there holds. keeps_checked p.vars (counted_holds p.rows p.limit)
        (counted_looks p.vars p.rows p.limit p.among) p.ascend (counted_cut p.vars p.rows p.limit)
        (counted_lawful p.vars p.rows p.limit p.among) s x k (counted_keeps p.vars p.rows p.limit p.among s x k there holds) there.long
        holds };

    ghost lawful = { λ p. lawful_checked p.vars (counted_holds p.rows p.limit) (counted_looks p.vars p.rows p.limit p.among) p.ascend
        (counted_cut p.vars p.rows p.limit) (counted_lawful p.vars p.rows p.limit p.among) };

    ghost whole = { λ p x. one_whole p.vars (counted_holds p.rows p.limit) x };

    ghost within = { λ p. one_within p.vars (counted_holds p.rows p.limit) };

    ghost forward = { λ p. forward_checked p.vars (counted_holds p.rows p.limit) (counted_looks p.vars p.rows p.limit p.among) p.ascend
        (counted_cut p.vars p.rows p.limit) (counted_lawful p.vars p.rows p.limit p.among) };

    ghost strength = { λ p s k full words grounded e. tt };
}
