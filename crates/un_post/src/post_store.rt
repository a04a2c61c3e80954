//! The store of a model: each variable has all values of its domain.

ghost use Rattle.std.specs.Prelude.{◌≡◌, [], All, IfOk, map};
ghost use Rattle.un_domains.specs.Domains.{IsDomain, values_of};
ghost use Rattle.un_post.specs.Posts.{largest_horizon};

use std::alloc::{AllocError, Global};
use un_base::memory_error::NoMemory;
use un_base::numbers::number;
use un_domains::domain::Domain;
use un_domains::store::Store;
use un_ir::extended::ExtBlock;

/// The same domains once more.
fn copy_domains(alloc: Global, domains: &[Domain]) -> Result<Vec<Domain>, AllocError>
    ensures { IfOk result (λ same. same.items ≡ domains.now) }
{
    let mut same = Vec::new(alloc);
    for domain in domains {
        same.push(domain.copy()?)?;
    }
    Ok(same)
}

/// The store of these domains. It fails where memory is short, or where there are more variables than numbers below 2^32.
pub fn store_of(alloc: Global, domains: &[Domain]) -> Result<Store, NoMemory>
    requires { All IsDomain domains.now }
    ensures sets { IfOk result (λ s. s.sets ≡ map values_of domains.now) }
    ensures marked { IfOk result (λ s. s.marked ≡ []) }
{
    number(domains.len())?;
    let same = copy_domains(alloc, domains)?;
    Store::new(alloc, same)
}

/// The largest horizon of the blocks.
pub fn largest_horizon(blocks: &[ExtBlock]) -> u32
    ensures { result ≡ largest_horizon blocks.now }
{
    let mut largest = 0;
    for block in blocks {
        largest = block.horizon.max(largest);
    }
    largest
}
