//! The packets of each block.

ghost use Rattle.std.specs.Prelude.{◌≡◌, ◌==◌, ◌-◌, ◌++◌, ◌∷◌, ℕ, List, [], IfOk, OnOk, if◌then◌else◌, map, replicate};
ghost use Rattle.std.specs.List.{range_with_len};
ghost use Rattle.std.specs.Option.{option_to_list};
ghost use Rattle.un_emit.specs.Bounds.{FitFrame};
ghost use Rattle.un_emit.specs.Emitted.{packet_with, code_block, code_blocks};
ghost use Rattle.un_isa.specs.declared.instr.Instr.{Instr};
ghost use Rattle.un_model.specs.Cost.{value_of};
ghost use Rattle.un_model.specs.Emission.{nop, or_nop, instrs_in};
ghost use Rattle.un_model.specs.Schedules.{block_issues, schedule_of};

use crate::instructions::emitted;
use std::alloc::{AllocError, Global};
use un_base::memory_error::NoMemory;
use un_ir::extended::ExtBlock;
use un_isa::instr::Instr;
use un_isa::op::Op;
use un_lists::few::Few;
use un_lists::items::Items;
use un_model::cost::value;
use un_model::model::{BlockVars, Model};
use un_model::schedule::{Issue, LiveRange, Schedule};
use un_packet::code::{CodeBlock, Packet};

/// The instruction that does nothing.
fn nop(alloc: Global) -> Instr
    ensures { result ≡ nop }
{
    Instr {
        op: Op::Nop,
        dst: None,
        srcs: Few::new(alloc),
        imm: 0,
        label: None,
    }
}

/// So many cycles in which nothing issues.
fn idle_cycles(alloc: Global, n: u32) -> Result<Vec<Items<Instr>>, AllocError>
    ensures { IfOk result (λ cycles. cycles.items ≡ replicate n []) }
{
    let mut cycles = Vec::new(alloc);
    for _ in 0..n {
        cycles.push(Items::new(alloc))?;
    }
    Ok(cycles)
}

/// An instruction after those of its cycle, where the block has that: its cycles count from 1.
fn push_at(cycles: &mut Vec<Items<Instr>>, c: u32, i: Instr) -> Result<(), NoMemory>
    ensures { OnOk result ((f : ℕ → List Instr) (n : ℕ) → cycles.old.items ≡ map f (range_with_len 1 n)
        → cycles.new.items ≡ map (λ k. f k ++ (if c == k then i ∷ [] else [])) (range_with_len 1 n)) }
{
    let place = c as usize;
    if 1 <= place && place <= cycles.len() {
        cycles[place - 1].push(i)?;
    }
    Ok(())
}

/// An instruction, where there is one, after those of its cycle.
fn push_issued(cycles: &mut Vec<Items<Instr>>, c: u32, i: Option<Instr>) -> Result<(), NoMemory>
    ensures { OnOk result ((f : ℕ → List Instr) (n : ℕ) → cycles.old.items ≡ map f (range_with_len 1 n)
        → cycles.new.items ≡ map (λ k. f k ++ (if c == k then option_to_list i else [])) (range_with_len 1 n)) }
{
    match i {
        None => Ok(()),
        Some(instr) => push_at(cycles, c, instr),
    }
}

/// The instructions of each cycle of a block, in the order of the extended function.
fn cycles(
    alloc: Global,
    m: &Model,
    values: &[u32],
    frame: u32,
    issues: &[Issue],
    ranges: &[LiveRange],
    block: &ExtBlock,
    vars: &BlockVars,
) -> Result<Vec<Items<Instr>>, NoMemory>
    requires frame { FitFrame m.now values.now frame }
    requires issues { (b : ℕ) × (n : ℕ) × (issues.now ≡ block_issues values.now b n block.now vars.now) }
    requires ranges { ranges.now ≡ (schedule_of m.now values.now).ranges }
    ensures { IfOk result (λ cycles. cycles.items
        ≡ map (instrs_in m.now values.now block.now vars.now) (range_with_len 1 (value_of values.now vars.now.end - 1))) }
{
    let mut cycles = idle_cycles(alloc, value(values, vars.end).saturating_sub(1))?;
    for k in 0..issues.len() {
        let issue = &issues[k];
        let op = block.ops.get(k);
        let i = emitted(
            alloc,
            m,
            values,
            ranges,
            frame,
            issue.instr,
            op,
            vars.ops.get(k),
        )?;
        push_issued(&mut cycles, issue.cycle, i)?;
    }
    Ok(cycles)
}

/// The packet of a cycle, which is never empty.
fn packet(alloc: Global, instrs: Items<Instr>) -> Result<Packet, NoMemory>
    ensures { IfOk result (λ p. p ≡ packet_with (or_nop instrs)) }
{
    let mut instrs = instrs;
    if instrs.is_empty() {
        instrs.push(nop(alloc))?;
    }
    Ok(Packet { instrs })
}

/// The packets of these cycles.
fn packets(alloc: Global, cycles: Vec<Items<Instr>>) -> Result<Items<Packet>, NoMemory>
    ensures { IfOk result (λ packets. packets ≡ map (λ instrs. packet_with (or_nop instrs)) cycles.items) }
{
    let mut packets = Items::new(alloc);
    for instrs in cycles {
        packets.push(packet(alloc, instrs)?)?;
    }
    Ok(packets)
}

/// The packets of a block under its label, of which the issues are these, where the temporaries have these live ranges.
fn code_block(
    alloc: Global,
    m: &Model,
    values: &[u32],
    frame: u32,
    issues: &[Issue],
    ranges: &[LiveRange],
    block: &ExtBlock,
    vars: &BlockVars,
) -> Result<CodeBlock, NoMemory>
    requires frame { FitFrame m.now values.now frame }
    requires issues { (b : ℕ) × (n : ℕ) × (issues.now ≡ block_issues values.now b n block.now vars.now) }
    requires ranges { ranges.now ≡ (schedule_of m.now values.now).ranges }
    ensures { IfOk result (λ code. code ≡ code_block m.now values.now block.now vars.now) }
{
    let cycles = cycles(alloc, m, values, frame, issues, ranges, block, vars)?;
    let packets = packets(alloc, cycles)?;
    Ok(CodeBlock {
        label: block.label,
        packets,
    })
}

/// The packets of all blocks.
pub(crate) fn code_blocks(
    alloc: Global,
    m: &Model,
    values: &[u32],
    frame: u32,
    t: &Schedule,
) -> Result<Items<CodeBlock>, NoMemory>
    requires frame { FitFrame m.now values.now frame }
    requires schedule { t.now ≡ schedule_of m.now values.now }
    ensures { IfOk result (λ blocks. blocks ≡ code_blocks m.now values.now) }
{
    let mut code = Items::new(alloc);
    let mut rest = t.issues.as_slice();
    let ranges = t.ranges.as_slice();
    for k in 0..m.ext.blocks.len().min(m.blocks.len()) {
        let block = m.ext.blocks.get(k);
        let vars = m.blocks.get(k);
        let (own, later) = rest.split_at(block.ops.len().min(vars.ops.len()));
        code.push(code_block(alloc, m, values, frame, own, ranges, block, vars)?)?;
        rest = later;
    }
    Ok(code)
}
