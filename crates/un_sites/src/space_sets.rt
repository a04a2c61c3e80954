//! The registers of a space.

ghost use Rattle.std.specs.Prelude.{◌≡◌, ◌+◌, ◌<◌, ◌^◌, IfOk};
ghost use Rattle.std.specs.List.{range_with_len};
ghost use Rattle.un_sites.specs.Postings.{registers_in};

use std::alloc::{AllocError, Global};
use un_alt::span::Span;
use un_base::memory_error::NoMemory;
use un_isa::reg::{FIRST_SLOT, GENERALS, PREDICATES, Space};
use un_lists::items::Items;

/// So many numbers from `first` on.
fn numbers_from(alloc: Global, first: u32, n: u32) -> Result<Items<u32>, AllocError>
    requires { first + n < 2 ^ 32 }
    ensures { IfOk result (λ rs. rs ≡ range_with_len first n) }
{
    let mut numbers = Items::from_vec(Vec::with_capacity(alloc, n as usize)?);
    for i in 0..n {
        numbers.push(first + i)?;
    }
    Ok(numbers)
}

/// The registers of a space of a machine with so many slots; where no space is asked for, all of them.
pub fn space_registers(
    alloc: Global,
    slots: u32,
    space: Option<Space>,
) -> Result<Items<u32>, NoMemory>
    ensures { IfOk result (λ rs. rs ≡ registers_in slots space) }
{
    let Some(end) = FIRST_SLOT.checked_add(slots) else {
        return Err(NoMemory);
    };
    match space {
        None => Ok(numbers_from(alloc, 0, end)?),
        Some(Space::R) => Ok(numbers_from(alloc, 0, GENERALS)?),
        Some(Space::P) => Ok(numbers_from(alloc, GENERALS, PREDICATES)?),
        Some(Space::M) => Ok(numbers_from(alloc, FIRST_SLOT, slots)?),
    }
}

/// The registers of a space of a machine with so many slots, as a range, which takes no memory; where no space is asked for, all
/// of them.
pub fn space_span(slots: u32, space: Option<Space>) -> Result<Span, NoMemory>
    ensures { IfOk result (λ rs. rs ≡ registers_in slots space) }
{
    let Some(end) = FIRST_SLOT.checked_add(slots) else {
        return Err(NoMemory);
    };
    match space {
        None => Ok(Span::new(0, end)),
        Some(Space::R) => Ok(Span::new(0, GENERALS)),
        Some(Space::P) => Ok(Span::new(GENERALS, PREDICATES)),
        Some(Space::M) => Ok(Span::new(FIRST_SLOT, slots)),
    }
}
