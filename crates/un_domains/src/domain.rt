//! The domains of variables.

ghost use Rattle.std.specs.Prelude.{◌≡◌, IfOk};
ghost use Rattle.un_domains.specs.declared.domain.Domain.TheVariants.{Set};

use std::alloc::{AllocError, Global};
use un_lists::shared::Shared;

/// The values that a variable may have: those from `lo` to `hi`, or a rising list of them, which copies share.
#[derive(Drop)]
pub enum Domain {
    Range { lo: u32, hi: u32 },
    Set(Shared<u32>),
}

impl Domain {
    /// The list of these values as a domain.
    pub fn of(alloc: Global, values: Vec<u32>) -> Result<Domain, AllocError>
        ensures { IfOk result (λ d. d ≡ Set values.items) }
    {
        let shared = Shared::new(alloc, values)?;
        Ok(Domain::Set(shared))
    }

    /// The same domain once more: a list is shared.
    pub fn copy(&self) -> Result<Domain, AllocError>
        ensures { IfOk result (λ d. d ≡ self.now) }
    {
        match self {
            Domain::Range { lo, hi } => Ok(Domain::Range { lo: *lo, hi: *hi }),
            Domain::Set(values) => {
                let same = values.share()?;
                Ok(Domain::Set(same))
            }
        }
    }
}
