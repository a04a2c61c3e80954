//! One operation after another.

ghost use Rattle.std.specs.Prelude.{◌≡◌, ◌+◌, ◌<◌, ◌++◌, List, map, slice_index, slice_get, Some, None, IsSome, IfOk, All};
ghost use Rattle.std.specs.Option.{option_map};
ghost use Rattle.un_isa.specs.Memories.{word_at};
ghost use Rattle.un_isa.specs.Operands.{IsShift};
ghost use Rattle.un_isa.specs.Words.{eval, address_of};
ghost use Rattle.un_isa.specs.declared.start.Reply.{Reply};
ghost use Rattle.un_ir.specs.Source.{op_step, ops_run, record_of, loads, address_in};
ghost use Rattle.un_source.specs.States.{state_of, stop_of, values_of, IsStep, CanRun, stored, called, end_of};

use crate::state::{State, Stop, assign, value_in};
use std::alloc::Global;
use un_base::ids::NameId;
use un_base::memory_error::NoMemory;
use un_ir::function::SrcOp;
use un_isa::alu::value;
use un_isa::op::Op;
use un_isa::outcome::CallRecord;
use un_isa::start::Reply;
use un_lists::items::Items;

/// The value of the operand at place `k`, 0 where there is none.
fn operand(values: &[u32], names: &[NameId], k: usize) -> u32
    ensures { result ≡ slice_index (values_of values.now names.now) k }
{
    match names.get(k) {
        Some(name) => value_in(values, *name),
        None => 0,
    }
}

/// The values of names.
fn values_of(alloc: Global, values: &[u32], names: &[NameId]) -> Result<Items<u32>, NoMemory>
    ensures { IfOk result (λ xs. xs ≡ values_of values.now names.now) }
{
    let mut xs = Items::new(alloc);
    for name in names {
        xs.push(value_in(values, *name))?;
    }
    Ok(xs)
}

/// What an operation computes of the values of its operands.
fn computed(o: &SrcOp, values: &[u32]) -> u32
    requires { IsShift o.now.op o.now.imm }
    ensures { result ≡ eval o.now.op (values_of values.now o.now.srcs) o.now.imm }
{
    let names = o.srcs.as_slice();
    value(
        o.op,
        operand(values, names, 0),
        operand(values, names, 1),
        operand(values, names, 2),
        o.imm,
    )
}

/// The address of a load or a store: the base and the offset, which wrap at 32 bits.
fn address(o: &SrcOp, values: &[u32]) -> u32
    ensures { result ≡ address_of (slice_index (values_of values.now o.now.srcs) 0) o.now.imm }
{
    operand(values, o.srcs.as_slice(), 0).wrapping_add(o.imm.cast_unsigned())
}

/// A load: it traps where the address is not there.
fn load(o: &SrcOp, s: &mut State) -> Option<Stop>
    ensures { (replies : List Reply) → let old = state_of replies s.old in
        IsStep (loads o.now old (word_at (address_in o.now old) old.memory)) old (state_of replies s.new) result }
{
    match s.memory.get(address(o, s.values.as_slice())) {
        None => Some(Stop::Trapped),
        Some(v) => {
            assign(&mut s.values, o.dst, v);
            None
        }
    }
}

/// A store: it traps where the address is not there.
fn store(o: &SrcOp, s: &mut State) -> Option<Stop>
    ensures { (replies : List Reply) → let old = state_of replies s.old in
        IsStep (stored o.now old) old (state_of replies s.new) result }
{
    let values = s.values.as_slice();
    let address = address(o, values);
    let v = operand(values, o.srcs.as_slice(), 1);
    match s.memory.get(address) {
        None => Some(Stop::Trapped),
        Some(_) => {
            s.memory.set(address, v);
            None
        }
    }
}

/// A call as its callee sees it.
fn record_of(alloc: Global, o: &SrcOp, s: &State) -> Result<CallRecord, NoMemory>
    requires { IsSome o.now.callee }
    ensures { IfOk result (λ call. (replies : List Reply) → call ≡ record_of o.now (state_of replies s.now)) }
{
    let args = values_of(alloc, s.values.as_slice(), o.srcs.as_slice())?;
    let memory = s.memory.clone()?;
    Ok(CallRecord {
        name: o.callee.unwrap(),
        args,
        memory,
    })
}

/// A call: it waits where no reply is left.
fn call(
    alloc: Global,
    o: &SrcOp,
    replies: &[Reply],
    s: &mut State,
) -> Result<Option<Stop>, NoMemory>
    requires { IsSome o.now.callee }
    ensures { IfOk result (IsStep (called o.now (state_of replies.now s.old)) (state_of replies.now s.old) (state_of replies.now s.new)) }
{
    let record = record_of(alloc, o, s)?;
    match replies.get(s.replied) {
        None => Ok(Some(Stop::Waiting(record))),
        Some(reply) => {
            s.calls.push(record)?;
            s.replied += 1;
            s.memory.set_all(reply.changed.as_slice());
            assign(&mut s.values, o.dst, reply.result);
            Ok(None)
        }
    }
}

/// One operation.
fn step(
    alloc: Global,
    o: &SrcOp,
    replies: &[Reply],
    s: &mut State,
) -> Result<Option<Stop>, NoMemory>
    requires { CanRun o.now }
    ensures { IfOk result (IsStep (op_step o.now (state_of replies.now s.old)) (state_of replies.now s.old) (state_of replies.now s.new)) }
{
    match o.op {
        Op::Load => Ok(load(o, s)),
        Op::Store => Ok(store(o, s)),
        Op::Call => call(alloc, o, replies, s),
        _ => {
            let v = computed(o, s.values.as_slice());
            assign(&mut s.values, o.dst, v);
            Ok(None)
        }
    }
}

/// Operations, one after another, up to the first that stops.
pub(crate) fn run_ops(
    alloc: Global,
    ops: &[SrcOp],
    replies: &[Reply],
    s: &mut State,
) -> Result<Option<Stop>, NoMemory>
    requires { All CanRun ops.now }
    ensures { IfOk result (λ stop. ops_run ops.now (state_of replies.now s.old) ≡ end_of stop (state_of replies.now s.new)) }
{
    for o in ops {
        if let Some(stop) = step(alloc, o, replies, s)? {
            return Ok(Some(stop));
        }
    }
    Ok(None)
}
