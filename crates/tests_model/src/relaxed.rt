//! The relaxation of a model of which one variable is at most so much.

ghost use Rattle.std.specs.Prelude.{◌≡◌, ◌<◌, ◌≤◌, All, IfOk, MatchOption, ⊤, length};
ghost use Rattle.un_domains.specs.Domains.{IsDomain};
ghost use Rattle.un_domains.specs.Sets.{NoneEmpty};
ghost use Rattle.un_ir.specs.Extended.{IsExtended};
ghost use Rattle.un_isa.specs.Fit.{IsFit};
ghost use Rattle.un_model.specs.Variables.{IsModel};

use std::alloc::{AllocError, Global};
use un_base::memory_error::NoMemory;
use un_bound::plain::is_short;
use un_bound::relax::{RelaxAnswer, relax_bound};
use un_domains::domain::Domain;
use un_domains::store::Store;
use un_ir::extended::ExtBlock;
use un_model::model::Model;
use un_prop::propagator::Scratch;

/// A range, where it is one of small numbers.
fn range(lo: u32, hi: u32) -> Domain
    ensures { IsDomain result }
{
    if lo <= hi && hi < 10000 {
        Domain::Range { lo, hi }
    } else {
        Domain::Range { lo: 0, hi: 0 }
    }
}

/// A range up to `most`, and one value in place of another domain: those of cycles and of ends are ranges.
fn time_domain(d: &Domain, most: u32) -> Domain
    ensures { IsDomain result }
{
    match d {
        Domain::Range { lo, hi } => range(*lo, (*hi).min(most)),
        Domain::Set(_) => range(0, 0),
    }
}

/// The limit of the variable at place `i`, of which the one at place `v` alone has one.
fn limit(i: usize, v: u32, most: u32) -> u32 {
    if i == v as usize { most } else { 9999 }
}

/// The domains of cycles and of ends, with variable `v` at most at `most`.
fn time_domains(
    alloc: Global,
    domains: &[Domain],
    v: u32,
    most: u32,
) -> Result<Vec<Domain>, AllocError>
    ensures each { IfOk result (λ ds. All IsDomain ds.items) }
    ensures long { IfOk result (λ ds. length ds.items ≡ length domains.now) }
{
    let mut all = Vec::new(alloc);
    for i in 0..domains.len() {
        let domain = time_domain(&domains[i], limit(i, v, most));
        all.push(domain)?;
    }
    Ok(all)
}

/// The store with these domains.
fn store_of(alloc: Global, domains: Vec<Domain>) -> Result<Store, NoMemory>
    requires few { length domains.items < 10000 }
    requires each { All IsDomain domains.items }
    ensures live { IfOk result (λ s. NoneEmpty s.sets) }
    ensures long { IfOk result (λ s. length s.sets ≡ length domains.items) }
{
    let store = Store::new(alloc, domains)?;
    Ok(store)
}

/// The largest horizon of blocks.
fn horizon(blocks: &[ExtBlock]) -> u32
    ensures { All (λ block. block.horizon ≤ result) blocks.now }
{
    let mut most = 0;
    for k in 0..blocks.len() {
        most = most.max(blocks[k].horizon);
    }
    most
}

/// The least cost of the relaxation on a store.
fn relaxed_on(alloc: Global, m: &Model, store: &Store) -> Result<RelaxAnswer, NoMemory>
    requires model { IsModel m.now }
    requires extended { IsExtended m.now.ext }
    requires fit { IsFit m.now.ext.table }
    requires live { NoneEmpty store.now.sets }
    requires long { length store.now.sets ≡ length m.now.domains }
{
    let last = horizon(m.ext.blocks.as_slice());
    let mut scratch = Scratch::new(alloc, store.len(), last)?;
    Ok(relax_bound(m, store, &mut scratch))
}

/// The least cost of the relaxation of a model whose variable `v` is at most at `most`.
pub(crate) fn relaxed(alloc: Global, m: &Model, v: u32, most: u32) -> Result<RelaxAnswer, NoMemory>
    requires model { IsModel m.now }
    requires extended { IsExtended m.now.ext }
    requires fit { IsFit m.now.ext.table }
{
    if m.domains.len() >= 10000 {
        return Err(NoMemory);
    }
    let domains = time_domains(alloc, m.domains.as_slice(), v, most)?;
    let store = store_of(alloc, domains)?;
    relaxed_on(alloc, m, &store)
}
