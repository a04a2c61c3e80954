//! Rounds from the root of a search, and after one decision, timed.

ghost use Rattle.std.specs.Prelude.{◌≡◌, ℕ, ◌<◌, ◌≤◌, [], length, All, OnOk, IsTrue};
ghost use Rattle.un_domains.specs.Sets.{NoneEmpty};
ghost use Rattle.un_prop.specs.Rounds.{HasVars};

use crate::clock::{mean, now, put_time};
use std::alloc::Global;
use std::time::CpuClock;
use un_base::ids::VarId;
use un_base::memory_error::NoMemory;
use un_domains::side::Side;
use un_domains::store::Store;
use un_engine::engine::Engine;
use un_prop::propagator::Propagator;

/// The middle of the values that a variable has.
fn middle(store: &Store, v: VarId) -> u32
    requires there { v.0 < length store.now.sets }
    requires live { NoneEmpty store.now.sets }
{
    let (low, high) = (store.min(v), store.max(v));
    low / 2 + high / 2
}

/// A decision on a variable with the run after it, and the way back: the time without the way back.
fn decide<P: Propagator + Drop>(
    rt: &impl CpuClock,
    engine: &mut Engine<P>,
    v: VarId,
) -> Result<u64, NoMemory>
    requires there { v.0 < length engine.old.store.sets }
    requires live { NoneEmpty engine.old.store.sets }
    ensures { OnOk result (engine.new ≡ engine.old) }
{
    let x = middle(engine.store(), v);
    let start = now(rt);
    engine.decide(v, x, Side::AtMost)?;
    let run = mean(rt, start, 1);
    engine.undo();
    Ok(run)
}

/// Whether a variable is there and has more than one value.
fn is_open<P: Propagator + Drop>(engine: &Engine<P>, v: VarId) -> bool
    ensures { IsTrue result → v.0 < length engine.now.store.sets }
{
    v.0 < engine.store().len() && !engine.store().is_single(v)
}

/// A decision on each of these variables that has more than one value: how many there were, and the time of their runs.
fn decide_each<P: Propagator + Drop>(
    rt: &impl CpuClock,
    engine: &mut Engine<P>,
    vars: &[VarId],
) -> Result<(u64, u64), NoMemory>
    requires { NoneEmpty engine.old.store.sets }
{
    let mut n: u64 = 0;
    let mut runs: u64 = 0;
    for v in vars {
        if is_open(engine, *v) {
            let run = decide(rt, engine, *v)?;
            runs = runs.saturating_add(run);
            n = n.saturating_add(1);
        }
    }
    Ok((n, runs))
}

/// The mean time of a decision on each of these variables with the way back, and without it.
fn time_decisions<P: Propagator + Drop>(
    rt: &impl CpuClock,
    engine: &mut Engine<P>,
    vars: &[VarId],
) -> Result<(u64, u64), NoMemory>
    requires { NoneEmpty engine.old.store.sets }
{
    let start = now(rt);
    let (n, runs) = decide_each(rt, engine, vars)?;
    Ok((mean(rt, start, n), runs / n.max(1)))
}

/// Appends the time of making an engine, with its run from the root, and the mean time of a decision on each of these variables with
/// the run after it and the way back. It answers the mean time of such a decision without the way back.
pub(crate) fn put_runs<P: Propagator + Drop>(
    rt: &impl CpuClock,
    alloc: Global,
    out: &mut Vec<u8>,
    props: Vec<P>,
    store: Store,
    horizon: u32,
    vars: &[VarId],
) -> Result<u64, NoMemory>
    requires known { All (λ p. HasVars (P.scope p) store.sets) props.items }
    requires spans { All (λ p. P.span p ≤ horizon) props.items }
    requires live { NoneEmpty store.sets }
    requires fresh { store.marked ≡ [] }
{
    let start = now(rt);
    let made = Engine::new(alloc, props, store, horizon)?;
    put_time(alloc, out, "root", mean(rt, start, 1))?;
    let (decision, run) = match made {
        Some(mut engine) => time_decisions(rt, &mut engine, vars)?,
        None => (0, 0),
    };
    put_time(alloc, out, "decision", decision)?;
    Ok(run)
}
