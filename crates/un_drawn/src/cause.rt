//! Why a block has as many packets as it has: what asks for that many.

use crate::blocks::{Section, Sheet};
use crate::counts::{Crowd, heaviest};
use crate::reach::{Reaches, longest, reaches_of};
use crate::waits::Fixed;
use std::alloc::Global;
use un_base::memory_error::NoMemory;

/// What asks for most packets of a block, where so much of the code at hand is given.
#[derive(Drop)]
pub struct Demand {
    /// What of the code is given.
    pub fixed: Fixed,
    /// The operations with what they wait for.
    pub reaches: Reaches,
    /// The operation on the longest chain of waits, by its place.
    pub last: u32,
    /// How many packets that chain asks for.
    pub chained: u32,
    /// The operations that share a resource and ask for most packets.
    pub crowd: Crowd,
}

impl Demand {
    /// How many packets the block has at least.
    pub fn packets(&self) -> u32 {
        self.chained.max(self.crowd.packets)
    }
}

/// What asks for most packets of a block, where so much of the code at hand is given.
pub fn demand_of(
    alloc: Global,
    sheet: &Sheet<'_>,
    section: &Section<'_>,
    fixed: Fixed,
) -> Result<Demand, NoMemory> {
    let reaches = reaches_of(alloc, sheet, section, fixed)?;
    let (last, chained) = longest(reaches.all.as_slice());
    let table = &sheet.m.ext.table;
    let crowd = heaviest(alloc, table, reaches.all.as_slice(), section.length)?;
    Ok(Demand {
        fixed,
        reaches,
        last,
        chained,
        crowd,
    })
}

/// The least number of packets that a block has in any solution, by precedences and by counts.
pub fn least_packets(
    alloc: Global,
    sheet: &Sheet<'_>,
    section: &Section<'_>,
) -> Result<u32, NoMemory> {
    let demand = demand_of(alloc, sheet, section, Fixed::Nothing)?;
    Ok(demand.packets())
}

/// What of the code is given, the least first.
static GIVEN: [Fixed; 3] = [Fixed::Nothing, Fixed::Copies, Fixed::Registers];

/// What asks for all packets of a block, with as little of the code given as can be; None where nothing that is looked at does.
pub fn cause(
    alloc: Global,
    sheet: &Sheet<'_>,
    section: &Section<'_>,
) -> Result<Option<Demand>, NoMemory> {
    for fixed in GIVEN.iter() {
        let demand = demand_of(alloc, sheet, section, *fixed)?;
        if demand.packets() >= section.length {
            return Ok(Some(demand));
        }
    }
    Ok(None)
}
