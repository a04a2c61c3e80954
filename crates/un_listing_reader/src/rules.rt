//! The rules of an instruction and of a packet of code, decided.

ghost use Rattle.std.specs.Prelude.{◌≡◌, ◌≢◌, ◌≤◌, ◌<◌, ◌+◌, ◌↔◌, ◌++◌, ◌==◌, IsTrue, ℕ, true, length, map, sum_by, All, AllPairs, OnOk};
ghost use Rattle.std.specs.Prelude.{IfOk};
ghost use Rattle.std.specs.List.{list_any, range_with_len, flat_map};
ghost use Rattle.std.specs.Bool.{OnTrue};
ghost use Rattle.un_isa.specs.declared.reg.TheConstants.{FRAME};
ghost use Rattle.un_isa.specs.Operands.{HasLiteral};
ghost use Rattle.un_isa.specs.PacketCounts.{FitPacket};
ghost use Rattle.un_isa.specs.Registers.{space_of};
ghost use Rattle.un_listing_reader.specs.Needed.{counts_from, is_distinct};
ghost use Rattle.un_packet.specs.CodeRules.{ReadsItsSpaces, WritesItsSpace, HasItsBase, HasItsNumber, HasItsLabel, IsGoodInstr};
ghost use Rattle.un_packet.specs.CodeRules.{IsGoodPacket, IsSomeName, HasItsCompare, gives_predicate, written, needs_of, number};
ghost use Rattle.un_isa.specs.Does.{is_nop};

use crate::needs::fit_packet;
use std::alloc::Global;
use un_base::memory_error::NoMemory;
use un_base::name::Name;
use un_isa::does::{Does, does_of, is_compare, is_new};
use un_isa::facts::{is_in_range, literal_range, operand_spaces, result_space};
use un_isa::instr::Instr;
use un_isa::op::Op;
use un_isa::reg::{GENERALS, LINK, Reg, STACK, Space, space_of};
use un_packet::code::{ARGUMENTS, Packet};

/// The registers that a call counts as writing: r0 to r5, the link register and the predicates.
const CALL_WRITES: [u32; 11] = [
    0,
    1,
    2,
    3,
    4,
    5,
    LINK,
    GENERALS,
    GENERALS + 1,
    GENERALS + 2,
    GENERALS + 3,
];

/// Whether the registers are r0, r1 and so on.
fn count_up(regs: &[Reg]) -> bool
    ensures { result ≡ counts_from 0 regs.now }
{
    for (i, reg) in regs.iter().enumerate() {
        if reg.0 as usize != i {
            return false;
        }
    }
    true
}

/// Whether a register lies in the space.
pub(crate) fn is_in(reg: Reg, space: Space) -> bool
    ensures { IsTrue result ↔ (space_of reg.0 ≡ space) }
{
    match space {
        Space::R => matches!(space_of(reg.0), Space::R),
        Space::P => matches!(space_of(reg.0), Space::P),
        Space::M => matches!(space_of(reg.0), Space::M),
    }
}

/// Whether the registers lie in these spaces, one for one.
pub(crate) fn are_in(regs: &[Reg], spaces: &[Space]) -> bool
    ensures { IsTrue result ↔ (map (λ r. space_of r.0) regs.now ≡ spaces.now) }
{
    if regs.len() != spaces.len() {
        return false;
    }
    for (i, reg) in regs.iter().enumerate() {
        if !is_in(*reg, spaces[i]) {
            return false;
        }
    }
    true
}

/// Whether the operands are those of the operation.
#[tactic(auto, using(crate::proofs::NeedLaws::counts_decides))]
fn reads_its_spaces(op: Op, srcs: &[Reg]) -> bool
    ensures { IsTrue result ↔ (ReadsItsSpaces op srcs.now) }
{
    match op {
        Op::Call => srcs.len() <= ARGUMENTS as usize && count_up(srcs),
        _ => are_in(srcs, operand_spaces(op)),
    }
}

/// Whether the register that is written is one of the operation.
pub(crate) fn writes_its_space(op: Op, dst: Option<Reg>) -> bool
    ensures { IsTrue result ↔ (WritesItsSpace op dst) }
{
    match op {
        Op::Call => dst.is_none(),
        _ => match (dst, result_space(op)) {
            (None, None) => true,
            (Some(reg), Some(space)) => is_in(reg, space),
            _ => false,
        },
    }
}

/// Whether the stack pointer is no base of a Load or a Store.
fn has_its_base(op: Op, srcs: &[Reg]) -> bool
    ensures { IsTrue result ↔ (HasItsBase op srcs.now) }
{
    match (op, srcs) {
        (Op::Load | Op::Store, [base, ..]) => base.0 != STACK,
        _ => true,
    }
}

/// Whether the number is in the range of the operation's literal, or 0 where it has none.
pub(crate) fn has_literal(op: Op, n: i32) -> bool
    ensures { IsTrue result ↔ (HasLiteral op n) }
{
    match literal_range(op) {
        None => n == 0,
        Some(range) => is_in_range(range, n),
    }
}

/// Whether the number is one of the operation, in code with a frame of so many bytes.
fn has_its_number(frame: u32, op: Op, n: i32) -> bool
    requires { frame ≤ FRAME }
    ensures { IsTrue result ↔ (HasItsNumber frame op n) }
{
    match op {
        Op::Enter => frame > 0 && n == -(frame as i32),
        Op::Leave => frame > 0 && n == frame as i32,
        _ => has_literal(op, n),
    }
}

/// Whether there is a name.
fn is_some_name(name: &Option<Name>) -> bool
    ensures { IsTrue result ↔ (IsSomeName name.now) }
{
    match name {
        Some(name) => !name.as_bytes().is_empty(),
        None => false,
    }
}

/// Whether there is a label exactly where the operation has one.
pub(crate) fn has_its_label(op: Op, label: &Option<Name>) -> bool
    ensures { IsTrue result ↔ (HasItsLabel op label.now) }
{
    match does_of(op) {
        Does::Calls | Does::Jumps(_) => is_some_name(label),
        _ => label.is_none(),
    }
}

/// Whether the stack pointer is not written by name.
fn spares_stack(dst: Option<Reg>) -> bool
    ensures { IsTrue result ↔ (dst ≢ Some (record { 0 = STACK })) }
{
    match dst {
        Some(reg) => reg.0 != STACK,
        None => true,
    }
}

/// Whether it is an instruction of code with a frame of so many bytes.
fn is_good_instr(frame: u32, i: &Instr) -> bool
    requires { frame ≤ FRAME }
    ensures { IsTrue result ↔ (IsGoodInstr frame i.now) }
{
    if !reads_its_spaces(i.op, i.srcs.as_slice()) || !writes_its_space(i.op, i.dst) {
        return false;
    }
    if !spares_stack(i.dst) || !has_its_base(i.op, i.srcs.as_slice()) {
        return false;
    }
    has_its_number(frame, i.op, i.imm) && has_its_label(i.op, &i.label)
}

/// Whether all are instructions of code with a frame of so many bytes.
fn are_good(frame: u32, instrs: &[Instr]) -> bool
    requires { frame ≤ FRAME }
    ensures { IsTrue result ↔ (All (IsGoodInstr frame) instrs.now) }
{
    for i in instrs {
        if !is_good_instr(frame, i) {
            return false;
        }
    }
    true
}

/// Whether one of them is a `nop`.
fn has_nop(instrs: &[Instr]) -> bool
    ensures { result ≡ list_any (λ i. is_nop i.op) instrs.now }
{
    for i in instrs {
        if matches!(does_of(i.op), Does::Rests) {
            return true;
        }
    }
    false
}

/// Whether a `nop` stands alone.
fn idles_alone(instrs: &[Instr]) -> bool
    ensures { IsTrue result ↔ (OnTrue (list_any (λ i. is_nop i.op) instrs.now) (length instrs.now ≡ 1)) }
{
    !has_nop(instrs) || instrs.len() == 1
}

/// Whether it is a compare that writes the register with this number.
fn gives_predicate(n: u32, i: &Instr) -> bool
    ensures { result ≡ gives_predicate n i.now }
{
    match i.dst {
        Some(reg) => reg.0 == n && is_compare(i.op),
        None => false,
    }
}

/// Whether one of them is a compare that writes the register with this number.
fn is_compared(instrs: &[Instr], n: u32) -> bool
    ensures { result ≡ list_any (gives_predicate n) instrs.now }
{
    for i in instrs {
        if gives_predicate(n, i) {
            return true;
        }
    }
    false
}

/// Whether a compare among these writes what the instruction tests, where it tests what its own packet writes.
fn has_its_compare(instrs: &[Instr], i: &Instr) -> bool
    ensures { IsTrue result ↔ (HasItsCompare instrs.now i.now) }
{
    if !is_new(i.op) {
        return true;
    }
    match i.srcs.as_slice() {
        [pred, ..] => is_compared(instrs, pred.0),
        [] => is_compared(instrs, 0),
    }
}

/// Whether each jump on a fresh predicate has its compare beside it.
fn have_compares(instrs: &[Instr]) -> bool
    ensures { IsTrue result ↔ (All (HasItsCompare instrs.now) instrs.now) }
{
    for i in instrs {
        if !has_its_compare(instrs, i) {
            return false;
        }
    }
    true
}

/// Appends the registers that an instruction writes.
fn push_written(out: &mut Vec<u32>, i: &Instr) -> Result<(), NoMemory>
    ensures { OnOk result (out.new.items ≡ out.old.items ++ written i.now) }
{
    match i.op {
        Op::Call => out.extend_from_slice(&CALL_WRITES)?,
        Op::Enter | Op::Leave => out.extend_from_slice(&[STACK])?,
        _ => {
            if let Some(reg) = i.dst {
                out.extend_from_slice(&[reg.0])?;
            }
        }
    }
    Ok(())
}

/// The registers that instructions write, one after another.
fn all_written(alloc: Global, instrs: &[Instr]) -> Result<Vec<u32>, NoMemory>
    ensures { IfOk result (λ regs. regs.items ≡ flat_map written instrs.now) }
{
    let mut regs = Vec::new(alloc);
    for i in instrs {
        push_written(&mut regs, i)?;
    }
    Ok(regs)
}

/// Whether the number is among these.
fn has(numbers: &[u32], n: u32) -> bool
    ensures { result ≡ list_any (λ m. m == n) numbers.now }
{
    for m in numbers {
        if *m == n {
            return true;
        }
    }
    false
}

/// Whether no number is there twice.
fn are_distinct(numbers: &[u32]) -> bool
    ensures { result ≡ is_distinct numbers.now }
{
    for (k, n) in numbers.iter().enumerate() {
        if has(&numbers[k + 1..], *n) {
            return false;
        }
    }
    true
}

/// Whether the instructions are a packet of code with a frame of so many bytes.
///
/// # Errors
/// `NoMemory` where there is no memory for the list of the registers that they write.
#[tactic(auto, using(crate::proofs::NeedLaws::distinct_decides))]
pub(crate) fn is_good_packet(alloc: Global, frame: u32, packet: &Packet) -> Result<bool, NoMemory>
    requires { frame ≤ FRAME }
    ensures { IfOk result (λ good. IsTrue good ↔ (IsGoodPacket frame packet.now)) }
{
    let instrs = packet.instrs.as_slice();
    if instrs.is_empty() || !fit_packet(instrs) || !idles_alone(instrs) {
        return Ok(false);
    }
    if !are_good(frame, instrs) || !have_compares(instrs) {
        return Ok(false);
    }
    let regs = all_written(alloc, instrs)?;
    Ok(are_distinct(regs.as_slice()))
}
