//! The variables of a model with their domains.

use crate::domains::put_domain;
use crate::text::put_between;
use un_base::ids::{OpId, TempId, VarId};
use un_base::memory_error::NoMemory;
use un_ir::extended::ExtOp;
use un_ir::text::{put_number, put_text};
use un_model::model::{BlockVars, Model, OpVars};
use un_parts::pieces::put_temp;

/// Appends the number of a variable, the operation to which it belongs, and what it is of that.
fn put_op_var(out: &mut Vec<u8>, var: VarId, op: OpId, meaning: &[u8]) -> Result<(), NoMemory> {
    put_between(out, b"v", u64::from(var.0), b" o")?;
    put_between(out, b"", u64::from(op.0), meaning)
}

/// Appends what ends the line of a variable: its domain.
fn put_end(out: &mut Vec<u8>, m: &Model, var: VarId) -> Result<(), NoMemory> {
    put_text(out, b": ")?;
    if let Some(domain) = m.domains.as_slice().get(var.0 as usize) {
        put_domain(out, domain)?;
    }
    put_text(out, b"\n")
}

/// Appends the line of an operation's instruction or cycle, where it has one.
fn put_single(
    out: &mut Vec<u8>,
    m: &Model,
    op: OpId,
    meaning: &[u8],
    var: Option<VarId>,
) -> Result<(), NoMemory> {
    let Some(var) = var else {
        return Ok(());
    };
    put_op_var(out, var, op, meaning)?;
    put_end(out, m, var)
}

/// Appends the line of the choice of the operand at a place.
fn put_choice(
    out: &mut Vec<u8>,
    m: &Model,
    op: OpId,
    place: usize,
    var: VarId,
) -> Result<(), NoMemory> {
    put_op_var(out, var, op, b" choice ")?;
    put_number(out, place as u64)?;
    put_end(out, m, var)
}

/// Appends the lines of an operation's choices.
fn put_choices(out: &mut Vec<u8>, m: &Model, op: OpId, choices: &[VarId]) -> Result<(), NoMemory> {
    for (place, var) in choices.iter().enumerate() {
        put_choice(out, m, op, place, *var)?;
    }
    Ok(())
}

/// Appends the line of the register of a temporary that an operation defines.
fn put_register(out: &mut Vec<u8>, m: &Model, op: OpId, temp: TempId) -> Result<(), NoMemory> {
    let Some(vars) = m.temps.as_slice().get(temp.0 as usize) else {
        return Ok(());
    };
    put_op_var(out, vars.reg, op, b" register ")?;
    put_temp(out, temp)?;
    put_end(out, m, vars.reg)
}

/// Appends the lines of an operation's variables.
fn put_op_vars(
    out: &mut Vec<u8>,
    m: &Model,
    id: OpId,
    op: &ExtOp,
    vars: &OpVars,
) -> Result<(), NoMemory> {
    put_single(out, m, id, b" instruction", vars.instr)?;
    put_single(out, m, id, b" cycle", vars.cycle)?;
    put_choices(out, m, id, vars.choices.as_slice())?;
    for temp in op.results.as_slice() {
        put_register(out, m, id, *temp)?;
    }
    Ok(())
}

/// Appends the lines of the variables of a block's operations, of which the first has the number `first`, and answers the
/// number after the last.
fn put_ops(
    out: &mut Vec<u8>,
    m: &Model,
    first: OpId,
    ops: &[ExtOp],
    vars: &[OpVars],
) -> Result<OpId, NoMemory> {
    let mut id = first;
    for k in 0..ops.len().min(vars.len()) {
        put_op_vars(out, m, id, &ops[k], &vars[k])?;
        id = OpId(id.0.saturating_add(1));
    }
    Ok(id)
}

/// Appends the line of the end of the block with this label.
fn put_block_end(
    out: &mut Vec<u8>,
    m: &Model,
    label: &[u8],
    vars: &BlockVars,
) -> Result<(), NoMemory> {
    put_between(out, b"v", u64::from(vars.end.0), b" end ")?;
    put_text(out, label)?;
    put_end(out, m, vars.end)
}

/// Appends the line of the frame flag.
fn put_flag(out: &mut Vec<u8>, m: &Model) -> Result<(), NoMemory> {
    put_between(out, b"v", u64::from(m.flag.0), b" flag")?;
    put_end(out, m, m.flag)
}

/// Appends the lines of the variables of all blocks.
fn put_blocks(out: &mut Vec<u8>, m: &Model) -> Result<(), NoMemory> {
    let mut id = OpId(0);
    for k in 0..m.ext.blocks.len().min(m.blocks.len()) {
        let block = m.ext.blocks.get(k);
        let vars = m.blocks.get(k);
        id = put_ops(out, m, id, block.ops.as_slice(), vars.ops.as_slice())?;
        put_block_end(out, m, block.label.as_bytes(), vars)?;
    }
    Ok(())
}

/// Appends a line for each variable in order: its number, what it is, and its domain.
pub fn put_variables(out: &mut Vec<u8>, m: &Model) -> Result<(), NoMemory> {
    put_blocks(out, m)?;
    put_flag(out, m)
}
