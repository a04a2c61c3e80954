//! What first solutions read of the processor's table and of a model's options, once a model.

use crate::sets::{EMPTY, RegisterSet};
use std::alloc::{AllocError, Global};
use un_base::memory_error::NoMemory;
use un_ir::extended::TO_PREDICATE;
use un_isa::op::Op;
use un_isa::packet_counts::{
    CONTROL_PLACES, MEM_PLACES, PACKET, Resource, STORE_PLACES, XC_PLACES, share,
};
use un_isa::reg::{FIRST_SLOT, LINK, STACK};
use un_isa::reg_set::saved_registers;
use un_isa::table::Table;
use un_model::instructions::{copy, gap, latency, needs};
use un_model::model::{Model, Options};

/// How many resources a packet has.
pub const RESOURCES: usize = Resource::ALL.len();

/// Needs of a packet, or what it has given away: so much of each resource, in their order.
pub type Needs = [u8; RESOURCES];

/// Nothing.
pub const NO_NEEDS: Needs = [0; RESOURCES];

/// What a packet has of each resource.
pub const ROOM: Needs = [
    PACKET as u8,
    MEM_PLACES as u8,
    STORE_PLACES as u8,
    XC_PLACES as u8,
    CONTROL_PLACES as u8,
];

/// How many numbers a copy's instruction may have: 0 is none.
const COPIES: usize = TO_PREDICATE as usize + 1;

/// An instruction of copies.
#[derive(Clone, Copy)]
pub struct CopyFacts {
    /// What it does; None for the copy that is left out.
    pub op: Option<Op>,
    /// What it needs of its packet.
    pub needs: Needs,
    /// How many cycles after it its result can be read.
    pub latency: u32,
}

/// The copy that is left out.
const LEFT_OUT: CopyFacts = CopyFacts {
    op: None,
    needs: NO_NEEDS,
    latency: 1,
};

/// A processor, and what may be used of it.
#[derive(Drop)]
pub struct Machine {
    /// Its latencies, needs and calling convention.
    pub table: Table,
    /// The instructions of copies, by number.
    copies: [CopyFacts; COPIES],
    /// The general registers that may be assigned.
    pub assignable: RegisterSet,
    /// The frame slots that there are.
    pub slots: RegisterSet,
    /// The registers that a call keeps and a return restores.
    pub kept: RegisterSet,
    /// The registers that a call writes.
    pub clobbered: RegisterSet,
    /// The register of a call's result.
    pub result: u32,
    /// The registers whose values at a function's entry are wanted at its return: those that it keeps, rising, then the link register.
    pub saved: Vec<u32>,
}

/// What an instruction needs of a packet.
pub fn needs_by(table: &Table, op: Option<Op>) -> Needs {
    let mut all = NO_NEEDS;
    if op.is_some() {
        for k in 0..RESOURCES {
            all[k] = share(Resource::ALL[k], needs(table, op));
        }
    }
    all
}

fn copies(table: &Table) -> [CopyFacts; COPIES] {
    let mut all = [LEFT_OUT; COPIES];
    for n in 0..TO_PREDICATE {
        let op = copy(n + 1);
        all[n as usize + 1] = CopyFacts {
            op,
            needs: needs_by(table, op),
            latency: latency(table, op),
        };
    }
    all
}

/// The registers that may be assigned: all but the stack pointer and the frame pointer, or the first few.
fn assignable(options: Options) -> RegisterSet {
    let mut set = EMPTY;
    for r in 0..STACK {
        if options.regs.is_none_or(|n| r < n) {
            set = set.with(r);
        }
    }
    if options.regs.is_none() {
        set.with(LINK)
    } else {
        set
    }
}

fn slots(options: Options) -> RegisterSet {
    let mut set = EMPTY;
    for i in 0..options.slots {
        set = set.with(FIRST_SLOT.saturating_add(i));
    }
    set
}

impl Machine {
    /// What a model's table and options say.
    ///
    /// # Errors
    /// `NoMemory` where there is no memory for the list of registers.
    pub fn of(alloc: Global, m: &Model) -> Result<Machine, NoMemory> {
        let table = m.ext.table;
        let saved = saved_registers(alloc, &table)?;
        Ok(Machine {
            table,
            copies: copies(&table),
            assignable: assignable(m.options),
            slots: slots(m.options),
            kept: RegisterSet::of_mask(table.saved),
            clobbered: RegisterSet::of_mask(table.clobbered),
            result: u32::from(table.result),
            saved: saved.into_vec(),
        })
    }

    /// The instruction of a copy with this number.
    pub fn copy(&self, number: u32) -> CopyFacts {
        self.copies
            .get(number as usize)
            .copied()
            .unwrap_or(LEFT_OUT)
    }

    /// How many cycles after its definer a user of what that gives may issue.
    pub fn gap(&self, definer: Option<Op>, user: Option<Op>) -> u32 {
        gap(&self.table, definer, user)
    }
}
