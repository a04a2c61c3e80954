//! The store of a model: each variable has all values of its domain.

ghost use Rattle.std.specs.Prelude.{◌≡◌, [], All, IfOk, map};
ghost use Rattle.un_isa.specs.Fit.{IsFit};
ghost use Rattle.un_ir.specs.Extended.{IsExtended};
ghost use Rattle.un_domains.specs.Domains.{IsDomain, values_of};
ghost use Rattle.un_domains.specs.Sets.{NoneEmpty};
ghost use Rattle.un_model.specs.Boxes.{root_of};
ghost use Rattle.un_model.specs.Options.{AreOptions};
ghost use Rattle.un_model.specs.Variables.{IsModel};

use std::alloc::{AllocError, Global};
use un_base::memory_error::NoMemory;
use un_base::numbers::number;
use un_domains::domain::Domain;
use un_domains::store::Store;
use un_model::model::Model;

/// The same domains once more.
fn copy_domains(alloc: Global, domains: &[Domain]) -> Result<Vec<Domain>, AllocError>
    ensures { IfOk result (λ same. same.items ≡ domains.now) }
{
    let mut same = Vec::new(alloc);
    for domain in domains {
        same.push(domain.copy()?)?;
    }
    Ok(same)
}

/// The store of these domains. It fails where memory is short, or where there are more variables than numbers below 2^32.
fn store_of(alloc: Global, domains: &[Domain]) -> Result<Store, NoMemory>
    requires { All IsDomain domains.now }
    ensures sets { IfOk result (λ s. s.sets ≡ map values_of domains.now) }
    ensures marked { IfOk result (λ s. s.marked ≡ []) }
{
    number(domains.len())?;
    let same = copy_domains(alloc, domains)?;
    Store::new(alloc, same)
}

/// The first box of a model. It fails where memory is short, or where there are more variables than numbers below 2^32.
///
/// # Errors
/// Where memory is short.
#[tactic(auto, using(crate::proofs::ModelDomains::domains_are, crate::proofs::ModelDomains::domains_live))]
pub fn first_box(alloc: Global, m: &Model) -> Result<Store, NoMemory>
    requires model { IsModel m.now }
    requires extended { IsExtended m.now.ext }
    requires fit { IsFit m.now.ext.table }
    requires options { AreOptions m.now.options }
    ensures sets { IfOk result (λ s. s.sets ≡ root_of m.now) }
    ensures marked { IfOk result (λ s. s.marked ≡ []) }
    ensures full { NoneEmpty (root_of m.now) }
{
    store_of(alloc, m.domains.as_slice())
}
