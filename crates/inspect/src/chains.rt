//! A store and thousands of precedences in chains, timed: how what a search does grows with the size of its problem.

ghost use Rattle.std.specs.Prelude.{◌≡◌, ℕ, ◌<◌, ◌≤◌, ◌*◌, ◌+◌, ◌/◌, [], length, All, IfOk, true};
ghost use Rattle.un_base.specs.declared.ids.VarId.{VarId};
ghost use Rattle.un_domains.specs.Domains.{IsDomain};
ghost use Rattle.un_domains.specs.Sets.{NoneEmpty};
ghost use Rattle.un_kinds.specs.AnyProps.{scope_of, span_of};
ghost use Rattle.un_kinds.specs.declared.any.AnyProp.{AnyProp};
ghost use Rattle.un_prop.specs.Among.{among};
ghost use Rattle.un_prop.specs.LastLaws.{Ascend};

use crate::clock::{mean, now, put_time};
use crate::runs::put_runs;
use std::alloc::{AllocError, Global};
use std::time::CpuClock;
use un_base::ids::VarId;
use un_base::memory_error::NoMemory;
use un_domains::domain::Domain;
use un_domains::store::Store;
use un_kinds::any::AnyProp;
use un_lists::items::Items;
use un_prec::before::Before;
use un_prop::act::{Act, At};

/// How many precedences follow one another, from one variable to the next.
const CHAIN: u32 = 4;

/// How many precedences there are where nothing else is said, and at most.
const LINKS: u32 = 5_000;

const MOST: u32 = 1_000_000;

/// Two variables.
fn two(alloc: Global, a: VarId, b: VarId) -> Result<Items<VarId>, AllocError>
    requires { a.0 < b.0 }
    ensures ascend { IfOk result (λ vs. Ascend vs) }
    ensures first { IfOk result (λ vs. among vs a ≡ true) }
    ensures second { IfOk result (λ vs. among vs b ≡ true) }
    ensures below { (n : ℕ) → b.0 < n → IfOk result (λ vs. All (λ v. v.0 < n) vs) }
{
    let vars = [a, b].to_vec(alloc)?;
    Ok(Items::from_vec(vars))
}

/// The precedence at place `i`: chains of precedences, none of them connected with another.
fn link(alloc: Global, i: u32) -> Result<AnyProp, AllocError>
    requires { i < 1_000_000 }
    ensures among { (n : ℕ) → i + i / 4 + 1 < n → IfOk result (λ p. All (λ v. v.0 < n) (scope_of p)) }
    ensures span { IfOk result (λ p. span_of p ≤ 0) }
{
    let a = VarId(i + i / CHAIN);
    let b = VarId(i + i / CHAIN + 1);
    let vars = two(alloc, a, b)?;
    Ok(AnyProp::Before(Before {
        a: At::Var(a),
        a_on: Act::Always,
        b: At::Var(b),
        b_on: Act::Always,
        gap: 1,
        vars,
    }))
}

/// So many precedences.
fn all_links(alloc: Global, links: u32) -> Result<Vec<AnyProp>, AllocError>
    requires { links ≤ 1_000_000 }
    ensures among { IfOk result (λ ps. All (λ (p : AnyProp). All (λ v. v.0 < 5 * (links / 4 + 1)) (scope_of p)) ps.items) }
    ensures spans { IfOk result (λ ps. All (λ (p : AnyProp). span_of p ≤ 0) ps.items) }
{
    let mut props = Vec::new(alloc);
    for i in 0..links {
        let p = link(alloc, i)?;
        props.push(p)?;
    }
    Ok(props)
}

/// As many domains of a thousand values.
fn ranges(alloc: Global, vars: u32) -> Result<Vec<Domain>, AllocError>
    ensures each { IfOk result (λ v. All IsDomain v.items) }
    ensures long { IfOk result (λ v. length v.items ≡ vars) }
{
    let mut domains = Vec::new(alloc);
    for _ in 0..vars {
        domains.push(Domain::Range { lo: 0, hi: 999 })?;
    }
    Ok(domains)
}

/// The store of these domains.
fn range_store(alloc: Global, vars: u32) -> Result<Store, NoMemory>
    ensures live { IfOk result (λ s. NoneEmpty s.sets) }
    ensures fresh { IfOk result (λ s. s.marked ≡ []) }
    ensures long { IfOk result (λ s. length s.sets ≡ vars) }
{
    let domains = ranges(alloc, vars)?;
    Store::new(alloc, domains)
}

/// The last variables of so many chains.
fn ends(alloc: Global, chains: u32) -> Result<Vec<VarId>, AllocError>
    requires { chains ≤ 1_000_000 }
{
    let mut vars = Vec::new(alloc);
    for chain in 0..chains {
        vars.push(VarId((CHAIN + 1) * chain + CHAIN))?;
    }
    Ok(vars)
}

/// The mean time of a mark that is taken back at once.
fn time_marks(rt: &impl CpuClock, store: &mut Store, n: u32) -> Result<u64, NoMemory>
    requires { NoneEmpty store.old.sets }
    ensures { IfOk result (λ t. store.new ≡ store.old) }
{
    let start = now(rt);
    for _ in 0..n {
        store.mark()?;
        store.undo();
    }
    Ok(mean(rt, start, u64::from(n)))
}

/// Takes a value from each variable, where it is the least.
fn cut_each(store: &mut Store, x: u32) {
    for v in 0..store.len() {
        store.keep_gt(VarId(v), x);
    }
}

/// Takes so many values from each variable, the least each time.
fn cut_all(store: &mut Store, n: u32) {
    for x in 0..n {
        cut_each(store, x);
    }
}

/// The mean time of a cut after a mark, where each variable loses so many values.
fn time_cuts(rt: &impl CpuClock, store: &mut Store, n: u32) -> Result<u64, NoMemory>
    requires { NoneEmpty store.old.sets }
{
    let cuts = u64::from(n) * u64::from(store.len());
    store.mark()?;
    let start = now(rt);
    cut_all(store, n);
    Ok(mean(rt, start, cuts))
}

/// Appends the mean times of a mark and of a cut.
fn put_cuts(
    rt: &impl CpuClock,
    alloc: Global,
    out: &mut Vec<u8>,
    store: &mut Store,
    n: u32,
) -> Result<(), NoMemory>
    requires { NoneEmpty store.old.sets }
{
    let mark = time_marks(rt, store, n)?;
    put_time(alloc, out, "mark", mark)?;
    let cut = time_cuts(rt, store, n)?;
    put_time(alloc, out, "cut", cut)
}

/// The same of a store of so many variables.
fn put_store(
    rt: &impl CpuClock,
    alloc: Global,
    out: &mut Vec<u8>,
    vars: u32,
    n: u32,
) -> Result<(), NoMemory> {
    let mut store = range_store(alloc, vars)?;
    put_cuts(rt, alloc, out, &mut store, n)
}

/// Appends the times of runs of precedences in so many chains.
fn put_chains(
    rt: &impl CpuClock,
    alloc: Global,
    out: &mut Vec<u8>,
    props: Vec<AnyProp>,
    chains: u32,
) -> Result<(), NoMemory>
    requires few { chains ≤ 1_000_000 }
    requires among { All (λ p. All (λ v. v.0 < 5 * chains) (scope_of p)) props.items }
    requires spans { All (λ p. span_of p ≤ 0) props.items }
{
    let vars = ends(alloc, chains)?;
    let store = range_store(alloc, (CHAIN + 1) * chains)?;
    let run = put_runs(rt, alloc, out, props, store, 0, vars.as_slice())?;
    put_time(alloc, out, "run", run)
}

/// Appends the mean times of a mark, a cut, an engine of so many precedences with its run from the root, a decision with the run after
/// it and the way back, and the same without the way back.
pub(crate) fn put_scale(
    rt: &impl CpuClock,
    alloc: Global,
    out: &mut Vec<u8>,
    links: Option<u32>,
    marks: u32,
) -> Result<(), NoMemory> {
    let links = links.unwrap_or(LINKS).min(MOST);
    let chains = links / CHAIN + 1;
    put_store(rt, alloc, out, (CHAIN + 1) * chains, marks)?;
    let props = all_links(alloc, links)?;
    put_chains(rt, alloc, out, props, chains)
}
