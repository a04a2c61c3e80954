//! In which packets of a listing a cycle passes first, since they read what is not there yet by a table of the processor: a word that is
//! loaded, or multiplied, can be read two cycles later, say. Of each instruction, whether of the subset or not, it is seen in its text
//! which registers it reads and writes, and what it does.

use crate::listing::{Listing, block_of};
use crate::spelling::{always_leaves, jump_in, loop_in, put_plain};
use crate::text::{Halves, cut, find, is_blank, parted, trimmed};
use std::alloc::Global;
use un_base::memory_error::NoMemory;
use un_ir::function::Function;
use un_isa::op::Op;
use un_isa::table::{Table, latency};
use un_lists::items::Items;

/// Registers: bit n stands for rn, bit 32 + n for pn.
type Registers = u64;

/// The number that a text begins with, of at most two digits, and what stands behind it.
fn number_in(text: &[u8]) -> Option<(u32, &[u8])> {
    let (first, rest) = text.split_first()?;
    if !first.is_ascii_digit() {
        return None;
    }
    let tens = u32::from(*first - b'0');
    match rest.split_first() {
        Some((second, behind)) if second.is_ascii_digit() => {
            let ones = u32::from(*second - b'0');
            Some((tens * 10 + ones, behind))
        }
        _ => Some((tens, rest)),
    }
}

/// Whether a byte may stand in a word.
fn is_in_word(b: u8) -> bool {
    b.is_ascii_alphanumeric() || b == b'_' || b == b'.'
}

/// Whether a text goes on with a word.
fn goes_on(text: &[u8]) -> bool {
    match text.first() {
        Some(b) => is_in_word(*b),
        None => false,
    }
}

/// The register with a number among those of a first byte; none where there is no such one.
fn register(first: u8, number: u32) -> Registers {
    match first {
        b'r' if number < 32 => 1 << number,
        b'p' if number < 4 => 1 << (32 + number),
        _ => 0,
    }
}

/// The second register of a pair, as `:16` behind `r17`.
fn second_of(first: u8, behind: &[u8]) -> Registers {
    match behind.strip_prefix(b":") {
        Some(rest) => match number_in(rest) {
            Some((number, _)) => register(first, number),
            None => 0,
        },
        None => 0,
    }
}

/// The registers that the word at the front of a text names; none where that is no register, or one that is read in the cycle in which it
/// is written.
fn registers_at(text: &[u8]) -> Registers {
    let Some((first, rest)) = text.split_first() else {
        return 0;
    };
    match number_in(rest) {
        Some((number, behind)) if !goes_on(behind) => {
            register(*first, number) | second_of(*first, behind)
        }
        _ => 0,
    }
}

/// The registers that a text names.
fn registers_in(text: &[u8]) -> Registers {
    let mut found = 0;
    let mut within = false;
    for (place, b) in text.iter().enumerate() {
        if !within {
            found |= registers_at(parted(text, place).behind);
        }
        within = is_in_word(*b);
    }
    found
}

/// An instruction in parts: its condition, what it assigns, and the rest.
#[derive(Clone, Copy)]
struct Parts<'a> {
    condition: &'a [u8],
    assigned: &'a [u8],
    rest: &'a [u8],
}

/// The condition at the front of an instruction, and what stands behind it.
fn behind_condition(text: &[u8]) -> Halves<'_> {
    if !text.starts_with(b"if ") {
        return parted(text, 0);
    }
    match text.iter().position(|b| *b == b')') {
        Some(place) => parted(text, place.saturating_add(1)),
        None => parted(text, 0),
    }
}

/// The parts of an instruction.
fn parts_of(text: &[u8]) -> Parts<'_> {
    let halves = behind_condition(text);
    match halves.behind.iter().position(|b| *b == b'=') {
        Some(place) => Parts {
            condition: halves.front,
            assigned: trimmed(parted(halves.behind, place).front),
            rest: trimmed(cut(halves.behind, b'=').behind),
        },
        None => Parts {
            condition: halves.front,
            assigned: &[],
            rest: halves.behind,
        },
    }
}

/// Whether what is assigned is a register or a pair alone, with no mark of what is done with its old value.
fn is_register(assigned: &[u8]) -> bool {
    match assigned.last() {
        Some(last) => last.is_ascii_digit() && !assigned.iter().any(|b| is_blank(*b)),
        None => false,
    }
}

/// The registers that an instruction reads.
fn reads(text: &[u8]) -> Registers {
    let parts = parts_of(text);
    let read = registers_in(parts.condition) | registers_in(parts.rest);
    if is_register(parts.assigned) {
        read
    } else {
        read | registers_in(parts.assigned)
    }
}

/// How instructions of an operation begin behind what they assign.
struct Beginning {
    text: &'static [u8],
    op: Op,
}

/// The beginnings of operations that do not go by a number; those with one have the latency of the like.
static BEGINNINGS: [Beginning; 15] = [
    Beginning {
        text: b"mem",
        op: Op::Load,
    },
    Beginning {
        text: b"add(",
        op: Op::Add,
    },
    Beginning {
        text: b"sub(",
        op: Op::Sub,
    },
    Beginning {
        text: b"and(",
        op: Op::And,
    },
    Beginning {
        text: b"or(",
        op: Op::Or,
    },
    Beginning {
        text: b"xor(",
        op: Op::Xor,
    },
    Beginning {
        text: b"mux(",
        op: Op::Mux,
    },
    Beginning {
        text: b"asl(",
        op: Op::Asl,
    },
    Beginning {
        text: b"asr(",
        op: Op::Asr,
    },
    Beginning {
        text: b"lsr(",
        op: Op::Lsr,
    },
    Beginning {
        text: b"cmp.eq(",
        op: Op::CmpEq,
    },
    Beginning {
        text: b"cmp.gt(",
        op: Op::CmpGt,
    },
    Beginning {
        text: b"cmp.gtu(",
        op: Op::CmpGtu,
    },
    Beginning {
        text: b"#",
        op: Op::Imm,
    },
    Beginning {
        text: b"p",
        op: Op::P2R,
    },
];

/// The operation with a number in place of its last operand.
fn with_number(op: Op) -> Op {
    match op {
        Op::Add => Op::Addi,
        Op::And => Op::Andi,
        Op::Or => Op::Ori,
        Op::CmpEq => Op::CmpEqi,
        Op::CmpGt => Op::CmpGti,
        other => other,
    }
}

/// The operation that an instruction does behind what it assigns, where its text tells; any that multiplies counts as a product.
fn operation_of(rest: &[u8]) -> Option<Op> {
    if find(rest, b"mpy").is_some() {
        return Some(Op::Mpyi);
    }
    for beginning in BEGINNINGS.iter() {
        if rest.starts_with(beginning.text) {
            let has_number = find(rest, b"#").is_some();
            return Some(if has_number {
                with_number(beginning.op)
            } else {
                beginning.op
            });
        }
    }
    None
}

/// The registers that an instruction writes and the next packet can't read yet, by a table.
fn late(t: &Table, text: &[u8]) -> Registers {
    let parts = parts_of(text);
    match operation_of(parts.rest) {
        Some(op) if latency(t, op) > 1 && find(parts.assigned, b"(").is_none() => {
            registers_in(parts.assigned)
        }
        _ => 0,
    }
}

/// What a packet reads, and what the next packet can't read yet.
#[derive(Clone, Copy)]
struct Flow {
    reads: Registers,
    late: Registers,
}

/// The flow of an instruction, in its plain spelling: there a call shows what it reads, and a jump's label is no register's name.
fn flow_of(
    alloc: Global,
    t: &Table,
    listing: &Listing<'_>,
    f: &Function,
    text: &[u8],
) -> Result<Flow, NoMemory> {
    let mut plain = Vec::new(alloc);
    put_plain(&mut plain, listing, f, text)?;
    Ok(Flow {
        reads: reads(plain.as_slice()),
        late: late(t, plain.as_slice()),
    })
}

/// No flow for each packet.
fn no_flows(alloc: Global, count: usize) -> Result<Items<Flow>, NoMemory> {
    let mut found = Items::new(alloc);
    for _packet in 0..count {
        found.push(Flow { reads: 0, late: 0 })?;
    }
    Ok(found)
}

/// Adds the flow of an instruction to its packet's.
fn add_flow(flows: &mut [Flow], packet: u32, flow: Flow) {
    if let Some(all) = flows.get_mut(packet as usize) {
        all.reads |= flow.reads;
        all.late |= flow.late;
    }
}

/// The flows of all packets.
fn flows(
    alloc: Global,
    t: &Table,
    listing: &Listing<'_>,
    f: &Function,
) -> Result<Items<Flow>, NoMemory> {
    let mut found = no_flows(alloc, listing.packets.len())?.into_vec();
    for instr in listing.instrs.as_slice() {
        let flow = flow_of(alloc, t, listing, f, instr.text)?;
        add_flow(found.as_mut_slice(), instr.packet, flow);
    }
    Ok(Items::from_vec(found))
}

/// The block of a packet.
fn block_at(listing: &Listing<'_>, packet: u32) -> Option<u32> {
    match listing.packets.as_slice().get(packet as usize) {
        Some(listed) => Some(listed.block),
        None => None,
    }
}

/// What the last packet of a block leaves late; None where it has no packet.
fn left_late(listing: &Listing<'_>, flows: &[Flow], block: u32) -> Option<Registers> {
    let mut late = None;
    for (listed, flow) in listing.packets.as_slice().iter().zip(flows) {
        if listed.block == block {
            late = Some(flow.late);
        }
    }
    late
}

/// Whether a block is always left by a jump.
fn is_left(listing: &Listing<'_>, block: u32) -> bool {
    let mut left = false;
    for instr in listing.instrs.as_slice() {
        if block_at(listing, instr.packet) == Some(block) && always_leaves(instr.text) {
            left = true;
        }
    }
    left
}

/// The block to which an instruction jumps; `back` is the one to which the last hardware loop goes back.
fn target(listing: &Listing<'_>, text: &[u8], back: Option<u32>) -> Option<u32> {
    if text.starts_with(b":endloop") {
        return back;
    }
    let jump = jump_in(text)?;
    block_of(listing, jump.label)
}

/// What is late where control comes to a block by jumps.
fn jumped_late(listing: &Listing<'_>, flows: &[Flow], block: u32) -> Registers {
    let mut late = 0;
    let mut back = None;
    for instr in listing.instrs.as_slice() {
        if let Some(label) = loop_in(instr.text) {
            back = block_of(listing, label);
        }
        if target(listing, instr.text, back) == Some(block) {
            late |= late_behind(listing, flows, instr.packet);
        }
    }
    late
}

/// What is late behind the block of a packet.
fn late_behind(listing: &Listing<'_>, flows: &[Flow], packet: u32) -> Registers {
    match block_at(listing, packet) {
        Some(block) => left_late(listing, flows, block).unwrap_or(0),
        None => 0,
    }
}

/// How many packets of a block wait, where this is late at its start.
fn block_waits(listing: &Listing<'_>, flows: &[Flow], block: u32, at_start: Registers) -> u64 {
    let mut late = at_start;
    let mut waits: u64 = 0;
    for (listed, flow) in listing.packets.as_slice().iter().zip(flows) {
        if listed.block == block {
            if flow.reads & late != 0 {
                waits = waits.saturating_add(1);
            }
            late = flow.late;
        }
    }
    waits
}

/// How many cycles the packets of each block wait by a table. What is late at a block's start is what it is on some way into it.
pub fn waits(
    alloc: Global,
    t: &Table,
    listing: &Listing<'_>,
    f: &Function,
) -> Result<Items<u64>, NoMemory> {
    let flows = flows(alloc, t, listing, f)?;
    let mut found = Items::new(alloc);
    let mut fallen = 0;
    for block in 0..listing.blocks {
        let late = fallen | jumped_late(listing, flows.as_slice(), block);
        found.push(block_waits(listing, flows.as_slice(), block, late))?;
        let behind = left_late(listing, flows.as_slice(), block).unwrap_or(late);
        fallen = if is_left(listing, block) { 0 } else { behind };
    }
    Ok(found)
}
