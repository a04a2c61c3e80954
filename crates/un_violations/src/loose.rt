//! The domains of schedules of any length.

ghost use Rattle.std.specs.Prelude.{◌≡◌, ◌==◌, ◌||◌, ℕ, Bool, IfOk};
ghost use Rattle.un_violations.specs.Loose.{is_cycle, is_time_in, is_time, loosened, loose_domains};
ghost use Rattle.un_violations.specs.Marks.{AreMarked};

use std::alloc::{AllocError, Global};
use un_base::ids::VarId;
use un_base::memory_error::NoMemory;
use un_domains::domain::Domain;
use un_lists::items::Items;
use un_model::model::{BlockVars, Model, OpVars};

/// Marks a variable.
fn mark(times: &mut Items<bool>, v: VarId)
    ensures { (p : ℕ → Bool) (n : ℕ) → AreMarked p times.old n → AreMarked (λ k. p k || k == v.0) times.new n }
{
    let k = v.0 as usize;
    if k < times.len() {
        times.set(k, true);
    }
}

/// Marks the cycles of operations.
fn mark_cycles(times: &mut Items<bool>, ops: &[OpVars])
    ensures { (p : ℕ → Bool) (n : ℕ) → AreMarked p times.old n → AreMarked (λ k. p k || is_cycle ops.now k) times.new n }
{
    for op in ops {
        match op.cycle {
            Some(v) => mark(times, v),
            None => {}
        }
    }
}

/// Marks the cycles and the end of a block.
fn mark_block(times: &mut Items<bool>, vars: &BlockVars)
    ensures { (p : ℕ → Bool) (n : ℕ) → AreMarked p times.old n → AreMarked (λ k. p k || is_time_in vars.now k) times.new n }
{
    mark_cycles(times, vars.ops.as_slice());
    mark(times, vars.end);
}

/// Of the first `n` variables, which are cycles or ends of these blocks.
fn times(alloc: Global, blocks: &[BlockVars], n: usize) -> Result<Items<bool>, NoMemory>
    ensures { IfOk result (λ times. AreMarked (is_time blocks.now) times n) }
{
    let mut times = Items::from_vec(vec![in alloc; false; n]?);
    for vars in blocks {
        mark_block(&mut times, vars);
    }
    Ok(times)
}

/// A domain without its upper bound where it is one of times, and else the domain once more.
fn loosened(is_time: bool, d: &Domain) -> Result<Domain, AllocError>
    ensures { IfOk result (λ loose. loose ≡ loosened is_time d.now) }
{
    match d {
        Domain::Range { lo, .. } if is_time => Ok(Domain::Range {
            lo: *lo,
            hi: u32::MAX,
        }),
        _ => d.copy(),
    }
}

/// The domains of a model with those of cycles and ends loosened.
pub(crate) fn loose_domains(alloc: Global, m: &Model) -> Result<Items<Domain>, NoMemory>
    ensures { IfOk result (λ loose. loose ≡ loose_domains m.now) }
{
    let times = times(alloc, m.blocks.as_slice(), m.domains.len())?;
    let mut loose = Items::new(alloc);
    for k in 0..m.domains.len() {
        loose.push(loosened(*times.get(k), m.domains.get(k))?)?;
    }
    Ok(loose)
}
