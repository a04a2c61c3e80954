//! The least length of a block that the counts of its packets allow, together with what its operations wait for.

use crate::reach::Reach;
use std::alloc::{AllocError, Global};
use un_base::memory_error::NoMemory;
use un_isa::packet_counts::{Resource, places};
use un_isa::table::Table;
use un_model::instructions::share;

/// Operations of a block that share a resource of its packets, and lie all behind some packets and before some.
#[derive(Clone, Copy)]
pub struct Crowd {
    /// The resource of a packet that is counted.
    pub resource: Resource,
    /// How much of it they take together.
    pub needed: u32,
    /// How much of it a packet has, at least 1.
    pub places: u32,
    /// The first cycle in which one of them can issue, from 1.
    pub head: u32,
    /// How many cycles before the block's end each of them issues, from 1.
    pub tail: u32,
    /// How many packets the block has at least, by that.
    pub packets: u32,
}

/// How much of a resource the operations take that issue in a cycle or later, and as many cycles before the end or more.
fn needed(t: &Table, all: &[Reach], resource: Resource, head: u32, tail: u32) -> u32 {
    let mut sum: u32 = 0;
    for reach in all {
        if reach.head >= head && reach.tail >= tail {
            sum = sum.saturating_add(share(t, resource, reach.instr));
        }
    }
    sum
}

/// Those operations.
fn crowd_of(t: &Table, all: &[Reach], resource: Resource, head: u32, tail: u32) -> Crowd {
    let needed = needed(t, all, resource, head, tail);
    let places = places(resource).max(1);
    let filled = needed.saturating_add(places - 1) / places;
    let around = head.saturating_add(tail).saturating_sub(2);
    Crowd {
        resource,
        needed,
        places,
        head,
        tail,
        packets: if needed == 0 {
            0
        } else {
            filled.saturating_add(around)
        },
    }
}

/// The crowd that asks for more packets, the first where both ask for as many.
fn greater(one: Crowd, other: Crowd) -> Crowd {
    if other.packets > one.packets {
        other
    } else {
        one
    }
}

/// The crowd that asks for most packets, of those that can issue from a cycle on.
fn heaviest_from(t: &Table, all: &[Reach], resource: Resource, head: u32, length: u32) -> Crowd {
    let mut most = crowd_of(t, all, resource, head, 1);
    for tail in 1..length.saturating_add(1) {
        most = greater(most, crowd_of(t, all, resource, head, tail));
    }
    most
}

/// The crowd of a resource that asks for most packets.
fn heaviest_of(t: &Table, all: &[Reach], resource: Resource, length: u32) -> Crowd {
    let mut most = crowd_of(t, all, resource, 1, 1);
    for head in 1..length.saturating_add(1) {
        most = greater(most, heaviest_from(t, all, resource, head, length));
    }
    most
}

/// The operations that issue.
fn issued(alloc: Global, all: &[Reach]) -> Result<Vec<Reach>, AllocError> {
    let mut issued = Vec::new(alloc);
    for reach in all {
        if reach.instr.is_some() {
            issued.push(*reach)?;
        }
    }
    Ok(issued)
}

/// The crowd that asks for most packets of a block that has so many; of those that ask for as many the one with the most operations.
pub(crate) fn heaviest(
    alloc: Global,
    t: &Table,
    all: &[Reach],
    length: u32,
) -> Result<Crowd, NoMemory> {
    let issued = issued(alloc, all)?;
    let mut most = crowd_of(t, issued.as_slice(), Resource::Instructions, 1, 1);
    for resource in Resource::ALL.iter() {
        most = greater(most, heaviest_of(t, issued.as_slice(), *resource, length));
    }
    Ok(most)
}

/// Whether an operation is one of a crowd.
pub fn is_in(t: &Table, crowd: &Crowd, reach: &Reach) -> bool {
    let takes = share(t, crowd.resource, reach.instr) > 0;
    takes && reach.head >= crowd.head && reach.tail >= crowd.tail
}

/// What a resource is, in words.
pub(crate) fn resource_words(resource: Resource) -> &'static [u8] {
    match resource {
        Resource::Instructions => b"instructions",
        Resource::Memory => b"loads and stores",
        Resource::Stores => b"stores",
        Resource::MultiplyOrControl => b"multiplications, shifts, predicate moves and transfers",
        Resource::Control => b"control transfers",
    }
}
