//! Two interchangeable registers exchanged in a solution.

ghost use Rattle.std.specs.Prelude.{◌≡◌, IfOk};
ghost use Rattle.un_model.specs.Cost.{cost_of};
ghost use Rattle.un_model.specs.Solutions.{IsSolution};
ghost use Rattle.un_model.specs.Variables.{IsModel};
ghost use Rattle.un_symm.specs.Exchanges.{exchanged, exchanged_values, exchange_of};
ghost use Rattle.un_symm.specs.Interchangeable.{AreInterchangeable};

use crate::laws::exchanges;
use std::alloc::Global;
use un_base::memory_error::NoMemory;
use un_isa::reg::Reg;
use un_lists::items::Items;
use un_model::cost::value;
use un_model::model::{Model, Solution, TempVars};

/// The register that stands for another where two are exchanged.
fn exchanged(a: Reg, b: Reg, r: u32) -> u32
    ensures { result ≡ exchanged a.0 b.0 r }
{
    if r == a.0 {
        b.0
    } else if r == b.0 {
        a.0
    } else {
        r
    }
}

/// The same values once more.
fn copied(alloc: Global, values: &[u32]) -> Result<Items<u32>, NoMemory>
    ensures { IfOk result (λ same. same ≡ values.now) }
{
    let same = values.to_vec(alloc)?;
    Ok(Items::from_vec(same))
}

/// The values with two registers exchanged in the registers of these temporaries.
fn exchanged_values(
    alloc: Global,
    temps: &[TempVars],
    old: &[u32],
    a: Reg,
    b: Reg,
) -> Result<Items<u32>, NoMemory>
    ensures { IfOk result (λ new. new ≡ exchanged_values temps.now a.0 b.0 old.now) }
{
    let mut new = copied(alloc, old)?;
    for t in temps {
        let k = t.reg.0 as usize;
        if k < new.len() {
            new.set(k, exchanged(a, b, value(old, t.reg)));
        }
    }
    Ok(new)
}

/// A solution of equal cost, in which two interchangeable registers are exchanged: each register variable that had one has the
/// other, and all else stays.
///
/// # Errors
/// `NoMemory` where there is no memory for the values.
#[tactic(auto, unfolding(crate::specs::Exchanges::exchange_of))]
pub fn exchange(
    alloc: Global,
    m: &Model,
    s: &Solution,
    a: Reg,
    b: Reg,
) -> Result<Solution, NoMemory>
    requires model { IsModel m.now }
    requires solution { IsSolution m.now s.now }
    requires alike { AreInterchangeable m.now a.0 b.0 }
    ensures exchanged { IfOk result (λ new. new ≡ exchange_of m.now a.0 b.0 s.now) }
    ensures solution { IfOk result (λ new. IsSolution m.now new) }
    ensures cost { IfOk result (λ new. cost_of m.now new ≡ cost_of m.now s.now) }
{
    exchanges(m, s, a, b);
    let values = exchanged_values(alloc, m.temps.as_slice(), s.values.as_slice(), a, b)?;
    Ok(Solution { values })
}
