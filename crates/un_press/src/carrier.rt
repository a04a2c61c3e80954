//! What carries a value in a cycle.

ghost use Rattle.std.specs.Prelude.{◌≡◌, ◌↔◌, ◌||◌, ◌==◌, ◌&&◌, nat_le, is_some, IsTrue, None};
ghost use Rattle.std.specs.List.{find};
ghost use Rattle.un_isa.specs.Fit.{IsFit};
ghost use Rattle.un_ir.specs.Extended.{IsExtended};
ghost use Rattle.un_model.specs.Cost.{value_of};
ghost use Rattle.un_model.specs.Options.{AreOptions};
ghost use Rattle.un_model.specs.Pairs.{places_from};
ghost use Rattle.un_model.specs.Schedules.{choice_of, cycle_by, is_active, value_by};
ghost use Rattle.un_model.specs.Solutions.{IsSolution};
ghost use Rattle.un_model.specs.Variables.{IsModel};
ghost use Rattle.un_press.specs.Carriers.{Crosses, Carries};
ghost use Rattle.un_press.specs.Searches.{block_cycle, by_cycle, cycle_in, is_there, is_defined, read_by, read_in, read_in_blocks};

use un_base::ids::{OpId, TempId, VarId};
use un_ir::extended::{ExtBlock, ExtKind, ExtOp};
use un_model::cost::value;
use un_model::instructions::instruction;
use un_model::model::{BlockVars, Model, OpVars, Solution};
use un_model::placement::{choice, cycle, optional_value};

/// Whether an operation is active.
fn is_active(values: &[u32], op: &ExtOp, vars: &OpVars) -> bool
    ensures { result ≡ is_active values.now op.now vars.now }
{
    let instr = instruction(&op.kind, optional_value(values, vars.instr));
    op.kind.is_delimiter() || instr.is_some()
}

/// The cycle of the operation at place `k` of a block, 0 where there is none.
fn block_cycle(values: &[u32], block: &ExtBlock, vars: &BlockVars, k: usize) -> u32
    ensures { result ≡ block_cycle values.now block.now vars.now k }
{
    let Some(op) = block.ops.as_slice().get(k) else {
        return 0;
    };
    let Some(op_vars) = vars.ops.as_slice().get(k) else {
        return 0;
    };
    cycle(values, value(values, vars.end), &op.kind, op_vars)
}

/// The cycle of an operation, 0 where there is none.
fn cycle_at(m: &Model, values: &[u32], op: OpId) -> u32
    ensures { result ≡ cycle_in values.now op.0 m.now.ext.blocks m.now.blocks }
{
    let mut left = op.0 as usize;
    for k in 0..m.ext.blocks.len().min(m.blocks.len()) {
        let block = m.ext.blocks.get(k);
        let vars = m.blocks.get(k);
        if left < block.ops.len() {
            return block_cycle(values, block, vars, left);
        }
        left -= block.ops.len();
    }
    0
}

/// What is looked for: temporaries that carry a value and are defined by a cycle, where one is given.
#[derive(Clone, Copy)]
struct Sought {
    value: TempId,
    by: Option<u32>,
}

/// Whether a cycle is early enough, where a latest one is given.
fn by_cycle(by: Option<u32>, cycle: u32) -> bool
    ensures { result ≡ by_cycle by cycle }
{
    match by {
        None => true,
        Some(t) => cycle <= t,
    }
}

/// Whether a temporary is one that is looked for.
fn is_there(m: &Model, values: &[u32], sought: Sought, y: TempId) -> bool
    ensures { result ≡ is_there m.now values.now sought.value sought.by y }
{
    match m.temps.as_slice().get(y.0 as usize) {
        None => false,
        Some(temp) => {
            temp.value.0 == sought.value.0 && by_cycle(sought.by, cycle_at(m, values, temp.op))
        }
    }
}

/// The first one that an operation reads.
fn first_there(
    m: &Model,
    values: &[u32],
    sought: Sought,
    op: &ExtOp,
    vars: &OpVars,
) -> Option<TempId>
    ensures { result ≡ find (is_there m.now values.now sought.value sought.by)
        (places_from (choice_of values.now vars.now) 0 op.now.operands) }
{
    for j in 0..op.operands.len() {
        let operand = op.operands.get(j);
        let y = choice(values, vars, j, operand);
        if is_there(m, values, sought, y) {
            return Some(y);
        }
    }
    None
}

/// The same of an operation of a block with this end, where it issues after cycle `t`.
fn read_by(
    m: &Model,
    values: &[u32],
    sought: Sought,
    t: u32,
    end: u32,
    op: &ExtOp,
    vars: &OpVars,
) -> Option<TempId>
    ensures { result ≡ read_by (is_there m.now values.now sought.value sought.by) values.now t end op.now vars.now }
{
    if is_active(values, op, vars) && t < cycle(values, end, &op.kind, vars) {
        first_there(m, values, sought, op, vars)
    } else {
        None
    }
}

/// The same of the operations of a block.
fn read_in(
    m: &Model,
    values: &[u32],
    sought: Sought,
    t: u32,
    block: &ExtBlock,
    vars: &BlockVars,
) -> Option<TempId>
    ensures { result ≡ read_in (is_there m.now values.now sought.value sought.by) values.now t
        (value_of values.now vars.now.end) block.now.ops vars.now.ops }
{
    let end = value(values, vars.end);
    for k in 0..block.ops.len().min(vars.ops.len()) {
        let op = block.ops.get(k);
        let op_vars = vars.ops.get(k);
        if let Some(y) = read_by(m, values, sought, t, end, op, op_vars) {
            return Some(y);
        }
    }
    None
}

/// The same of all operations.
fn read_in_blocks(m: &Model, values: &[u32], sought: Sought, t: u32) -> Option<TempId>
    ensures { result ≡ read_in_blocks (is_there m.now values.now sought.value sought.by) values.now t
        m.now.ext.blocks m.now.blocks }
{
    for k in 0..m.ext.blocks.len().min(m.blocks.len()) {
        let block = m.ext.blocks.get(k);
        let vars = m.blocks.get(k);
        if let Some(y) = read_in(m, values, sought, t, block, vars) {
            return Some(y);
        }
    }
    None
}

/// Whether temporary `x` is defined by cycle `t`.
fn is_defined(m: &Model, values: &[u32], x: TempId, t: u32) -> bool
    ensures { result ≡ is_defined m.now values.now x t }
{
    match m.temps.as_slice().get(x.0 as usize) {
        None => false,
        Some(temp) => cycle_at(m, values, temp.op) <= t,
    }
}

/// Whether an operation reads value `x` after cycle `t`.
fn is_read(m: &Model, values: &[u32], x: TempId, t: u32) -> bool
    ensures { result ≡ is_some (read_in_blocks (is_there m.now values.now x None) values.now t m.now.ext.blocks m.now.blocks) }
{
    let sought = Sought { value: x, by: None };
    let read = read_in_blocks(m, values, sought, t);
    read.is_some()
}

/// Whether value `x` is defined by cycle `t` and is read later.
pub fn crosses(m: &Model, s: &Solution, x: TempId, t: u32) -> bool
    requires model { IsModel m.now }
    requires extended { IsExtended m.now.ext }
    requires fit { IsFit m.now.ext.table }
    requires options { AreOptions m.now.options }
    requires solution { IsSolution m.now s.now }
    ensures { IsTrue result ↔ Crosses m.now s.now x t }
{
    let values = s.values.as_slice();
    let defined = is_defined(m, values, x, t);
    let read = is_read(m, values, x, t);
    defined && read
}

/// An active temporary of value `x` that occupies its register in cycle `t`: `x` is defined by then, and is read later.
pub fn carrier(m: &Model, s: &Solution, x: TempId, t: u32) -> TempId
    requires model { IsModel m.now }
    requires extended { IsExtended m.now.ext }
    requires fit { IsFit m.now.ext.table }
    requires options { AreOptions m.now.options }
    requires solution { IsSolution m.now s.now }
    requires crosses { Crosses m.now s.now x t }
    ensures { Carries m.now s.now x t result }
{
    let sought = Sought {
        value: x,
        by: Some(t),
    };
    match read_in_blocks(m, s.values.as_slice(), sought, t) {
        Some(y) => y,
        None => unreachable!(),
    }
}
