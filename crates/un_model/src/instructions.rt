//! What the operations of an extended function are as instructions.

ghost use Rattle.std.specs.Prelude.{◌≡◌, ◌^◌, ◌<◌, ◌≤◌};
ghost use Rattle.un_model.specs.Instructions.{transfer_of, copy_of, frame_instr, instruction_of, latency_by, needs_by, no_needs};
ghost use Rattle.un_model.specs.Instructions.{operand_space_in, result_space_in, space_read, space_given};
ghost use Rattle.un_model.specs.Instructions.{is_predicate_space, gives_truth};
ghost use Rattle.un_model.specs.Solutions.{share_of, latency_gap, least_wait};

use un_ir::extended::{ExtKind, FROM_PREDICATE, MOVE, RELOAD, SPILL, TO_PREDICATE};
use un_ir::function::Term;
use un_isa::does::is_branch;
use un_isa::facts::{operand_space, result_space};
use un_isa::op::Op;
use un_isa::packet_counts::{self, Resource};
use un_isa::reg::Space;
use un_isa::table::{self, Needs, Table};

/// The instruction of a terminator; None where the block falls through.
pub fn transfer(term: Term) -> Option<Op>
    ensures { result ≡ transfer_of term }
{
    match term {
        Term::Fall => None,
        Term::Jump(_) => Some(Op::Jump),
        Term::Branch { sense: true, .. } => Some(Op::JumpIf),
        Term::Branch { sense: false, .. } => Some(Op::JumpIfNot),
        Term::Ret(_) => Some(Op::Jumpr),
    }
}

/// The instruction of a copy whose variable of the instruction has this value; None where it is inactive.
pub fn copy(n: u32) -> Option<Op>
    ensures { result ≡ copy_of n }
{
    match n {
        MOVE => Some(Op::Mov),
        SPILL => Some(Op::Spill),
        RELOAD => Some(Op::Reload),
        FROM_PREDICATE => Some(Op::P2R),
        TO_PREDICATE => Some(Op::R2P),
        _ => None,
    }
}

/// The instruction of Enter or Leave whose variable of the instruction has this value.
fn frame_instruction(op: Op, n: u32) -> Option<Op>
    ensures { result ≡ frame_instr op n }
{
    if n == 0 { None } else { Some(op) }
}

/// The instruction that an operation issues, whose variable of the instruction has the value `n`: None at the bounds of a
/// block and where it is inactive.
pub fn instruction(kind: &ExtKind, n: u32) -> Option<Op>
    ensures { result ≡ instruction_of kind.now n }
{
    match kind {
        ExtKind::In | ExtKind::Out => None,
        ExtKind::Body(source) => Some(source.op),
        ExtKind::End(term) => transfer(*term),
        ExtKind::Copy(_) => copy(n),
        ExtKind::Enter => frame_instruction(Op::Enter, n),
        ExtKind::Leave => frame_instruction(Op::Leave, n),
    }
}

/// The latency of an instruction, and 1 for the values at a block's start.
pub fn latency(t: &Table, op: Option<Op>) -> u32
    ensures { result ≡ latency_by t.now op }
{
    match op {
        None => 1,
        Some(instruction) => table::latency(t, instruction),
    }
}

/// How many cycles after its definer a user of what that gives may issue, as the table says: 1 after what is there at a block's
/// start, and the definer's latency at a block's end.
pub fn gap(t: &Table, definer: Option<Op>, user: Option<Op>) -> u32
    ensures { result ≡ latency_gap t.now definer user }
{
    match definer {
        None => 1,
        Some(given) => match user {
            None => table::latency(t, given),
            Some(reading) => table::gap(t, given, reading),
        },
    }
}

/// How many cycles an instruction waits at least, whatever gives what it reads.
pub fn least_wait(t: &Table, user: Option<Op>) -> u32
    ensures wait { result ≡ least_wait t.now user }
    ensures small { result ≤ 1 }
{
    match user {
        None => 1,
        Some(reading) => { if is_branch(reading) && t.fresh { 0 } else { 1 } }
    }
}

/// What an instruction needs of a packet.
pub fn needs(t: &Table, op: Option<Op>) -> Needs
    ensures { result ≡ needs_by t.now op }
{
    match op {
        None => Needs {
            mem: 0,
            store: 0,
            xc: 0,
            control: 0,
        },
        Some(instruction) => table::uses(t, instruction),
    }
}

/// Whether an operation of the source gives a truth value.
pub fn gives_truth(op: Op) -> bool
    ensures { result ≡ gives_truth op }
{
    matches!(result_space(op), Some(Space::P))
}

/// The space that an instruction asks of its operand at place `j`; None where it may be in any.
pub fn space_read(instruction: Option<Op>, j: u32) -> Option<Space>
    ensures { result ≡ space_read instruction j }
{
    match instruction {
        None => None,
        Some(Op::Reload) => Some(Space::M),
        Some(op) => operand_space(op, j as usize),
    }
}

/// The space that an instruction asks of its result; None where it may be in any.
pub fn space_given(instruction: Option<Op>) -> Option<Space>
    ensures { result ≡ space_given instruction }
{
    match instruction {
        None => None,
        Some(Op::Spill) => Some(Space::M),
        Some(op) => result_space(op),
    }
}

/// How much of a resource an instruction takes, if there is one.
pub fn share(t: &Table, resource: Resource, instr: Option<Op>) -> u32
    ensures value { result ≡ share_of t.now resource instr }
    ensures few { result < 2 ^ 8 }
{
    match instr {
        None => 0,
        Some(_) => u32::from(packet_counts::share(resource, needs(t, instr))),
    }
}
