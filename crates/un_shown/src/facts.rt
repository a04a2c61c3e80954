//! What a model is, as plain lines of a word and numbers, for a program that shares no code with this one.

use crate::domains::put_domain;
use un_base::ids::{OpId, TempId, VarId};
use un_base::memory_error::NoMemory;
use un_domains::domain::Domain;
use un_ir::extended::{ExtBlock, ExtKind, ExtOp, Operand, TO_PREDICATE};
use un_ir::function::{Function, Term};
use un_ir::text::{put_number, put_text};
use un_isa::does::{is_branch, is_compare};
use un_isa::op::Op;
use un_isa::packet_counts::{Resource, places};
use un_isa::reg::{FIRST_SLOT, GENERALS, Space};
use un_isa::table::LAST;
use un_model::ends::{live_in_temps, place, term};
use un_model::instructions::{instruction, latency, share, space_given, space_read};
use un_model::model::{Arc, BlockVars, Model, OpVars, Options};

/// Appends a line: a word, and numbers behind it.
fn put_fact(out: &mut Vec<u8>, word: &[u8], numbers: &[u64]) -> Result<(), NoMemory> {
    put_text(out, word)?;
    for n in numbers {
        put_text(out, b" ")?;
        put_number(out, *n)?;
    }
    put_text(out, b"\n")
}

/// The number of a kind of registers.
fn space_number(space: Space) -> u64 {
    match space {
        Space::R => 0,
        Space::P => 1,
        Space::M => 2,
    }
}

/// Appends the registers of each kind, from the first to the last.
fn put_spaces(out: &mut Vec<u8>) -> Result<(), NoMemory> {
    let predicates = u64::from(GENERALS);
    let slots = u64::from(FIRST_SLOT);
    put_fact(out, b"space", &[0, 0, predicates - 1])?;
    put_fact(out, b"space", &[1, predicates, slots - 1])?;
    put_fact(out, b"space", &[2, slots, u64::from(u32::MAX)])
}

/// Appends how much of each resource a packet has.
fn put_packet(out: &mut Vec<u8>) -> Result<(), NoMemory> {
    for (k, resource) in Resource::ALL.iter().enumerate() {
        put_fact(out, b"packet", &[k as u64, u64::from(places(*resource))])?;
    }
    Ok(())
}

/// Appends the options of a model, as a report has them.
fn put_options(out: &mut Vec<u8>, options: &Options) -> Result<(), NoMemory> {
    put_text(out, b"model regs ")?;
    match options.regs {
        None => put_text(out, b"all")?,
        Some(n) => put_number(out, u64::from(n))?,
    }
    put_fact(out, b" slots", &[u64::from(options.slots)])
}

/// Appends the values of each variable.
fn put_domains(out: &mut Vec<u8>, domains: &[Domain]) -> Result<(), NoMemory> {
    for (v, domain) in domains.iter().enumerate() {
        put_text(out, b"domain ")?;
        put_number(out, v as u64)?;
        put_text(out, b" ")?;
        put_domain(out, domain)?;
        put_text(out, b"\n")?;
    }
    Ok(())
}

/// Whether a domain has a value.
fn has_value(domain: &Domain, n: u32) -> bool {
    match domain {
        Domain::Range { lo, hi } => *lo <= n && n <= *hi,
        Domain::Set(values) => values.as_slice().iter().any(|it| *it == n),
    }
}

/// Whether a variable may be `n`.
fn may_be(m: &Model, v: VarId, n: u32) -> bool {
    match m.domains.as_slice().get(v.0 as usize) {
        None => false,
        Some(domain) => has_value(domain, n),
    }
}

/// The word for what an operation is: a block's start or end, one that every solution issues, a copy, or one that moves the stack pointer.
fn kind_word(kind: &ExtKind) -> &'static [u8] {
    match kind {
        ExtKind::In => b"in",
        ExtKind::Out => b"out",
        ExtKind::Body(_) | ExtKind::End(_) => b"own",
        ExtKind::Copy(_) => b"copy",
        ExtKind::Enter | ExtKind::Leave => b"frame",
    }
}

/// Whether a jump of its own packet may test what an instruction writes.
fn is_fresh(m: &Model, instr: Option<Op>) -> bool {
    match instr {
        None => false,
        Some(op) => is_compare(op) && m.ext.table.fresh,
    }
}

/// Whether an instruction jumps by a predicate.
fn is_jump(instr: Option<Op>) -> bool {
    match instr {
        None => false,
        Some(op) => is_branch(op),
    }
}

/// Appends what an instruction of an operation takes of a packet.
fn put_takes(
    out: &mut Vec<u8>,
    m: &Model,
    op: u64,
    n: u32,
    instr: Option<Op>,
) -> Result<(), NoMemory> {
    for (k, resource) in Resource::ALL.iter().enumerate() {
        let amount = share(&m.ext.table, *resource, instr);
        if amount > 0 {
            put_fact(
                out,
                b"takes",
                &[op, u64::from(n), k as u64, u64::from(amount)],
            )?;
        }
    }
    Ok(())
}

/// Appends the kinds of registers that an instruction of an operation asks of its first operands, of which there are so many.
fn put_reads(
    out: &mut Vec<u8>,
    op: u64,
    n: u32,
    instr: Option<Op>,
    operands: u32,
) -> Result<(), NoMemory> {
    for j in 0..operands {
        if let Some(space) = space_read(instr, j) {
            put_fact(
                out,
                b"reads",
                &[op, u64::from(n), u64::from(j), space_number(space)],
            )?;
        }
    }
    Ok(())
}

/// Appends what instruction `n` of an operation is: its latency; where that is so, that a jump of its own packet may test what it writes,
/// or that it is such a jump; what it takes; and the kinds of registers that it reads and gives.
fn put_instruction(
    out: &mut Vec<u8>,
    m: &Model,
    op: u64,
    it: &ExtOp,
    n: u32,
) -> Result<(), NoMemory> {
    let instr = instruction(&it.kind, n);
    let wait = u64::from(latency(&m.ext.table, instr));
    put_fact(out, b"latency", &[op, u64::from(n), wait])?;
    if is_fresh(m, instr) {
        put_fact(out, b"fresh", &[op, u64::from(n), 1])?;
    }
    if is_jump(instr) {
        put_fact(out, b"jumps", &[op, u64::from(n), 1])?;
    }
    put_takes(out, m, op, n, instr)?;
    let operands = u32::try_from(it.operands.len()).unwrap_or(u32::MAX);
    put_reads(out, op, n, instr, operands)?;
    if let Some(space) = space_given(instr) {
        put_fact(out, b"gives", &[op, u64::from(n), space_number(space)])?;
    }
    Ok(())
}

/// Appends the instructions that an operation may have.
fn put_instructions(
    out: &mut Vec<u8>,
    m: &Model,
    op: u64,
    it: &ExtOp,
    vars: &OpVars,
) -> Result<(), NoMemory> {
    let Some(v) = vars.instr else {
        return put_instruction(out, m, op, it, 0);
    };
    put_fact(out, b"instr", &[op, u64::from(v.0)])?;
    for n in 1..TO_PREDICATE + 1 {
        if may_be(m, v, n) {
            put_instruction(out, m, op, it, n)?;
        }
    }
    Ok(())
}

/// Appends what operand `j` of an operation may read, and where that has to be.
fn put_operand(out: &mut Vec<u8>, op: u64, j: u64, operand: &Operand) -> Result<(), NoMemory> {
    for (i, temp) in operand.alts.as_slice().iter().enumerate() {
        put_fact(out, b"alternative", &[op, j, i as u64, u64::from(temp.0)])?;
    }
    if let Some(home) = operand.home {
        put_fact(out, b"home", &[op, j, u64::from(home.0)])?;
    }
    Ok(())
}

/// Appends the operands of an operation, and the variables of their choices.
fn put_operands(out: &mut Vec<u8>, op: u64, it: &ExtOp, vars: &OpVars) -> Result<(), NoMemory> {
    for (j, operand) in it.operands.as_slice().iter().enumerate() {
        put_operand(out, op, j as u64, operand)?;
    }
    for (j, v) in vars.choices.as_slice().iter().enumerate() {
        put_fact(out, b"choice", &[op, j as u64, u64::from(v.0)])?;
    }
    Ok(())
}

/// Appends the temporaries that an operation gives.
fn put_results(out: &mut Vec<u8>, op: u64, temps: &[TempId]) -> Result<(), NoMemory> {
    for (k, temp) in temps.iter().enumerate() {
        put_fact(out, b"result", &[op, k as u64, u64::from(temp.0)])?;
    }
    Ok(())
}

/// Appends what an operation of block `b` is.
fn put_operation(
    out: &mut Vec<u8>,
    m: &Model,
    id: OpId,
    b: u64,
    it: &ExtOp,
    vars: &OpVars,
) -> Result<(), NoMemory> {
    let op = u64::from(id.0);
    put_fact(out, kind_word(&it.kind), &[op, b])?;
    if let Some(v) = vars.cycle {
        put_fact(out, b"cycle", &[op, u64::from(v.0)])?;
    }
    put_instructions(out, m, op, it, vars)?;
    put_operands(out, op, it, vars)?;
    put_results(out, op, it.results.as_slice())
}

/// Appends the operations of block `b`, of which the first has the number `first`, and answers the number after the last.
fn put_operations(
    out: &mut Vec<u8>,
    m: &Model,
    first: OpId,
    b: u64,
    block: &ExtBlock,
    vars: &BlockVars,
) -> Result<OpId, NoMemory> {
    let mut id = first;
    for k in 0..block.ops.len().min(vars.ops.len()) {
        put_operation(out, m, id, b, block.ops.get(k), vars.ops.get(k))?;
        id = OpId(id.0.saturating_add(1));
    }
    Ok(id)
}

/// Appends at which places of what a block, number `b`, hands over stands what the next one takes.
fn put_over(
    out: &mut Vec<u8>,
    b: usize,
    block: &ExtBlock,
    next: Option<&ExtBlock>,
) -> Result<(), NoMemory> {
    let Some(next) = next else {
        return Ok(());
    };
    let temps = live_in_temps(&next.ops);
    for j in 0..temps.len() {
        let at = place(block, next, j);
        put_fact(out, b"over", &[b as u64, at as u64, u64::from(temps[j].0)])?;
    }
    Ok(())
}

/// The same of each block that may follow block `b`.
fn put_edges(out: &mut Vec<u8>, m: &Model, b: usize, block: &ExtBlock) -> Result<(), NoMemory> {
    let blocks = m.ext.blocks.as_slice();
    let behind = blocks.get(b.saturating_add(1));
    match term(&block.ops) {
        Term::Fall => put_over(out, b, block, behind),
        Term::Jump(to) => put_over(out, b, block, blocks.get(to.0 as usize)),
        Term::Branch { to, .. } => {
            put_over(out, b, block, behind)?;
            put_over(out, b, block, blocks.get(to.0 as usize))
        }
        Term::Ret(_) => Ok(()),
    }
}

/// Appends what each block is.
fn put_blocks(out: &mut Vec<u8>, m: &Model) -> Result<(), NoMemory> {
    let mut id = OpId(0);
    for k in 0..m.ext.blocks.len().min(m.blocks.len()) {
        let block = m.ext.blocks.get(k);
        let vars = m.blocks.get(k);
        put_fact(
            out,
            b"block",
            &[k as u64, u64::from(block.freq), u64::from(vars.end.0)],
        )?;
        id = put_operations(out, m, id, k as u64, block, vars)?;
        put_edges(out, m, k, block)?;
    }
    Ok(())
}

/// Appends the definer and the register's variable of each temporary.
fn put_temps(out: &mut Vec<u8>, m: &Model) -> Result<(), NoMemory> {
    for (k, temp) in m.temps.as_slice().iter().enumerate() {
        put_fact(
            out,
            b"temp",
            &[k as u64, u64::from(temp.op.0), u64::from(temp.reg.0)],
        )?;
    }
    Ok(())
}

/// Appends precedences.
fn put_arcs(out: &mut Vec<u8>, arcs: &[Arc]) -> Result<(), NoMemory> {
    for arc in arcs {
        put_fact(
            out,
            b"arc",
            &[
                u64::from(arc.from.0),
                u64::from(arc.to.0),
                u64::from(arc.gap),
            ],
        )?;
    }
    Ok(())
}

/// Appends the precedences of each block.
fn put_all_arcs(out: &mut Vec<u8>, m: &Model) -> Result<(), NoMemory> {
    for arcs in m.arcs.as_slice() {
        put_arcs(out, arcs.as_slice())?;
    }
    Ok(())
}

/// Appends what the model of a function is: the processor's part, the variables with their values, the blocks with their operations, the
/// temporaries and the precedences.
pub fn put_facts(out: &mut Vec<u8>, f: &Function, m: &Model) -> Result<(), NoMemory> {
    put_fact(out, b"unison", &[u64::from(LAST)])?;
    put_text(out, b"function ")?;
    put_text(out, f.name.as_bytes())?;
    put_text(out, b"\n")?;
    put_options(out, &m.options)?;
    put_spaces(out)?;
    put_packet(out)?;
    put_domains(out, m.domains.as_slice())?;
    put_fact(out, b"flag", &[u64::from(m.flag.0)])?;
    put_blocks(out, m)?;
    put_temps(out, m)?;
    put_all_arcs(out, m)?;
    put_fact(out, b"end", &[])
}
