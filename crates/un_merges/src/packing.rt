//! The packets of a block listed again, each as early as what it reads, what it writes and its packet's room seem to allow. Nothing
//! is promised of it but that it is safe: its answers are judged.

use std::alloc::{AllocError, Global};
use un_base::ids::BlockId;
use un_base::memory_error::NoMemory;
use un_isa::does::is_transfer;
use un_isa::op::Op;
use un_isa::packet_counts::{Resource, places};
use un_isa::reg::{FIRST_SLOT, SLOTS};
use un_isa::table::Table;
use un_model::distances::{frame_distance, memory_distance};
use un_model::instructions::{gap, share};
use un_model::model::{BlockVars, Model};
use un_model::schedule::{Issue, LiveRange, Read, Schedule};

/// How many resources a packet has.
const RESOURCES: usize = Resource::ALL.len();

/// What a packet has of each resource, or what instructions take.
type Counts = [u32; RESOURCES];

/// Nothing.
const NOTHING: Counts = [0; RESOURCES];

/// A block of a schedule as it is listed again.
#[derive(Drop)]
struct Packing<'a> {
    table: &'a Table,
    issues: &'a [Issue],
    reads: &'a [Read],
    ranges: &'a [LiveRange],
    block: BlockId,
    /// The new cycle of each operation of the function, 0 so far for those that follow.
    cycles: Vec<u32>,
    /// What the instructions of each cycle take.
    taken: Vec<Counts>,
    /// From which cycle each register may be written again.
    free_from: Vec<u32>,
    /// The last cycle in which an instruction issues.
    last: u32,
}

fn at(list: &[u32], i: u32) -> u32 {
    list.get(i as usize).copied().unwrap_or(0)
}

fn raise(list: &mut [u32], i: u32, x: u32) {
    if let Some(place) = list.get_mut(i as usize) {
        *place = x.max(*place);
    }
}

/// What an instruction takes.
fn counts(table: &Table, instr: Option<Op>) -> Counts {
    let mut needed = NOTHING;
    for k in 0..RESOURCES {
        needed[k] = share(table, Resource::ALL[k], instr);
    }
    needed
}

fn fits(taken: Counts, more: Counts) -> bool {
    for k in 0..RESOURCES {
        if taken[k].saturating_add(more[k]) > places(Resource::ALL[k]) {
            return false;
        }
    }
    true
}

fn both(taken: Counts, more: Counts) -> Counts {
    let mut sum = taken;
    for k in 0..RESOURCES {
        sum[k] = sum[k].saturating_add(more[k]);
    }
    sum
}

impl<'a> Packing<'a> {
    /// Whether an operation of the block issues an instruction in this cycle of the old schedule.
    fn is_in(&self, i: &Issue, old: u32) -> bool {
        i.block == self.block && i.active && i.instr.is_some() && i.cycle == old
    }

    /// The least cycle in which an operation may read what it reads.
    fn read_from(&self, i: &Issue) -> u32 {
        let mut from = 1;
        for r in self.reads {
            if r.user == i.op
                && let Some(h) = self.ranges.get(r.temp.0 as usize)
            {
                let defined = at(self.cycles.as_slice(), h.op.0);
                from = from.max(defined.saturating_add(gap(self.table, h.instr, i.instr)));
            }
        }
        from
    }

    /// The least cycle in which an operation may write its registers, a call also those that it clobbers.
    fn write_from(&self, i: &Issue) -> u32 {
        let mut from = 1;
        for h in self.ranges {
            if h.op == i.op {
                from = from.max(at(self.free_from.as_slice(), h.reg));
            }
        }
        from
    }

    /// The least cycle that the registers which a call clobbers allow.
    fn clobber_from(&self) -> u32 {
        let mut from = 1;
        for r in 0..FIRST_SLOT {
            if (self.table.clobbered >> r) & 1 == 1 {
                from = from.max(at(self.free_from.as_slice(), r));
            }
        }
        from
    }

    /// The least cycle that the operations before allow, by their accesses to memory and to the frame.
    fn order_from(&self, i: &Issue) -> u32 {
        let mut from = 1;
        for e in self.issues {
            if e.block != self.block || !e.active || e.cycle >= i.cycle {
                continue;
            }
            let memory = memory_distance(e.instr, i.instr).unwrap_or(0);
            let frame = frame_distance(e.instr, i.instr).unwrap_or(0);
            let kept = memory_distance(e.instr, i.instr).is_some()
                || frame_distance(e.instr, i.instr).is_some();
            if kept {
                let cycle = at(self.cycles.as_slice(), e.op.0);
                from = from.max(cycle.saturating_add(memory.max(frame)));
            }
        }
        from
    }

    /// The least cycle in which an instruction may issue.
    fn issue_from(&self, i: &Issue) -> u32 {
        let from = self
            .read_from(i)
            .max(self.write_from(i))
            .max(self.order_from(i));
        match i.instr {
            Some(Op::Call) => from.max(self.clobber_from()),
            Some(op) if is_transfer(op) => from
                .max(self.last)
                .max(self.end_from().saturating_sub(1)),
            _ => from,
        }
    }

    /// The least end of the block that what is read there allows.
    fn end_from(&self) -> u32 {
        let mut from = 1;
        for i in self.issues {
            if i.block == self.block && i.active && i.instr.is_none() {
                from = from.max(self.read_from(i));
            }
        }
        from
    }

    /// The first cycle, from one on, that has room for instructions with these needs.
    fn first_fit(&self, from: u32, needed: Counts) -> u32 {
        let mut cycle = from;
        for taken in self.taken.as_slice().iter().skip(from as usize) {
            if fits(*taken, needed) {
                return cycle;
            }
            cycle = cycle.saturating_add(1);
        }
        cycle
    }

    /// Occupies the registers that an operation writes, from its new cycle on.
    fn write(&mut self, i: &Issue, cycle: u32) {
        for h in self.ranges {
            if h.op == i.op {
                raise(
                    self.free_from.as_mut_slice(),
                    h.reg,
                    cycle.saturating_add(1),
                );
            }
        }
        if i.instr == Some(Op::Call) {
            self.clobber(cycle);
        }
    }

    fn clobber(&mut self, cycle: u32) {
        for r in 0..FIRST_SLOT {
            if (self.table.clobbered >> r) & 1 == 1 {
                raise(self.free_from.as_mut_slice(), r, cycle.saturating_add(1));
            }
        }
    }

    /// Occupies the registers that an operation reads, up to its new cycle.
    fn read(&mut self, i: &Issue, cycle: u32) {
        for r in self.reads {
            if r.user == i.op
                && let Some(h) = self.ranges.get(r.temp.0 as usize)
            {
                raise(self.free_from.as_mut_slice(), h.reg, cycle);
            }
        }
    }

    /// Issues an operation in a cycle.
    fn put(&mut self, i: &Issue, cycle: u32) {
        if let Some(place) = self.cycles.get_mut(i.op.0 as usize) {
            *place = cycle;
        }
        self.read(i, cycle);
        self.write(i, cycle);
    }

    /// Lists the packet of a cycle of the old schedule.
    fn list(&mut self, old: u32) {
        let mut from = 1;
        let mut needed = NOTHING;
        for i in self.issues {
            if self.is_in(i, old) {
                from = self.issue_from(i).max(from);
                needed = both(needed, counts(self.table, i.instr));
            }
        }
        if needed[0] > 0 {
            self.put_all(old, needed, self.first_fit(from, needed));
        }
    }

    /// Issues the packet of a cycle of the old schedule in a cycle.
    fn put_all(&mut self, old: u32, needed: Counts, cycle: u32) {
        if let Some(taken) = self.taken.get_mut(cycle as usize) {
            *taken = both(*taken, needed);
        }
        self.last = self.last.max(cycle);
        for i in self.issues {
            if self.is_in(i, old) {
                self.put(i, cycle);
            }
        }
    }

    /// Occupies the registers of the values at the block's start.
    fn start(&mut self) {
        for i in self.issues {
            if i.block == self.block && i.active && i.instr.is_none() && i.cycle == 0 {
                self.put(i, 0);
            }
        }
    }

    /// Lists the packets of the block. Answers its end.
    fn list_all(&mut self, end: u32) -> u32 {
        self.start();
        for old in 1..end {
            self.list(old);
        }
        self.end_from().max(self.last.saturating_add(1))
    }
}

/// Another value for a variable.
fn set(values: &mut [u32], v: u32, x: u32) {
    if let Some(place) = values.get_mut(v as usize) {
        *place = x;
    }
}

/// Writes the new cycles of the block's operations, of which the first has this number.
fn write_cycles(p: &Packing<'_>, vars: &BlockVars, first: u32, values: &mut [u32]) {
    let mut n = first;
    for op in vars.ops.as_slice() {
        if let Some(v) = op.cycle
            && let Some(i) = p.issues.get(n as usize)
            && i.active
        {
            set(values, v.0, at(p.cycles.as_slice(), n));
        }
        n = n.saturating_add(1);
    }
}

/// The number of the first operation of a block.
fn first_op(issues: &[Issue], block: BlockId) -> u32 {
    for i in issues {
        if i.block == block {
            return i.op.0;
        }
    }
    0
}

/// The end of a block in the old schedule.
fn old_end(issues: &[Issue], block: BlockId) -> u32 {
    for i in issues {
        if i.block == block {
            return i.end;
        }
    }
    0
}

fn filled<T: Copy>(alloc: Global, count: usize, item: T) -> Result<Vec<T>, AllocError> {
    let mut list = Vec::new(alloc);
    list.resize(count, item)?;
    Ok(list)
}

/// The values with the packets of a block listed again in their order, each instruction in the register where it is.
pub(crate) fn packed(
    alloc: Global,
    m: &Model,
    t: &Schedule,
    block: BlockId,
    values: &[u32],
) -> Result<Vec<u32>, NoMemory> {
    let mut new = values.to_vec(alloc)?;
    let issues = t.issues.as_slice();
    let end = old_end(issues, block);
    let mut p = Packing {
        table: &m.ext.table,
        issues,
        reads: t.reads.as_slice(),
        ranges: t.ranges.as_slice(),
        block,
        cycles: filled(alloc, issues.len(), 0)?,
        taken: filled(alloc, end as usize, NOTHING)?,
        free_from: filled(alloc, (FIRST_SLOT + SLOTS) as usize, 0)?,
        last: 0,
    };
    if let Some(vars) = m.blocks.as_slice().get(block.0 as usize) {
        set(new.as_mut_slice(), vars.end.0, p.list_all(end));
        write_cycles(&p, vars, first_op(issues, block), new.as_mut_slice());
    }
    Ok(new)
}
