//! The facts of a block's operations, read from the model. Operations and temporaries are numbered from 0 in the block.

use std::alloc::{AllocError, Global};
use un_base::ids::{NameId, OpId, TempId, VarId};
use un_ir::extended::{ExtBlock, ExtKind, ExtOp, NodeCopy, Operand};
use un_ir::function::Term;
use un_isa::op::Op;
use un_model::instructions::{gap, instruction, latency};
use un_model::model::{Arc, BlockVars, Model, OpVars, TempVars};
use un_trial::facts::{self, Gap, Operation};
use un_trial::machine::{Machine, NO_NEEDS, needs_by};
use un_trial::table::{NONE, Table};

/// A block of a model, with the numbers at which it begins.
#[derive(Clone, Copy)]
pub struct Scope<'a> {
    /// The model that the block is of.
    pub m: &'a Model,
    /// What its table and options say.
    pub machine: &'a Machine,
    /// The block with its operations.
    pub block: &'a ExtBlock,
    /// The variables of the block's operations, and of its end.
    pub vars: &'a BlockVars,
    /// The block's precedences, whose operations have their numbers in the function.
    pub arcs: &'a [Arc],
    /// The number of its first operation in the function.
    pub first_op: u32,
    /// The number of its first temporary in the function.
    pub first_temp: u32,
    /// How many temporaries it defines: their numbers follow one another.
    pub temps: u32,
    /// Whether it is the function's first block.
    pub is_entry: bool,
}

/// The number of a variable, NONE where there is none.
pub fn number_of(v: Option<VarId>) -> u32 {
    match v {
        Some(var) => var.0,
        None => NONE,
    }
}

/// Which copy an operation is.
fn copy_kind(kind: &ExtKind) -> Option<NodeCopy> {
    match kind {
        ExtKind::Copy(node) => Some(*node),
        _ => None,
    }
}

/// Whether every solution issues an operation, and with an instruction.
pub(crate) fn is_source_or_end(kind: &ExtKind) -> bool {
    matches!(kind, ExtKind::Body(_) | ExtKind::End(_))
}

impl<'a> Scope<'a> {
    /// An operation of the block.
    pub fn op(&self, o: u32) -> Option<&'a ExtOp> {
        self.block.ops.as_slice().get(o as usize)
    }

    /// A temporary of the block.
    pub fn temp(&self, t: u32) -> Option<TempVars> {
        let place = self.first_temp.saturating_add(t);
        self.m.temps.as_slice().get(place as usize).copied()
    }

    /// The number of a temporary in the block.
    pub fn local(&self, t: TempId) -> u32 {
        t.0.saturating_sub(self.first_temp)
    }

    /// The number of an operation in the block.
    pub(crate) fn local_op(&self, o: OpId) -> u32 {
        o.0.saturating_sub(self.first_op)
    }

    /// The variable of an operation's cycle, NONE where there is none.
    pub fn cycle(&self, o: u32) -> u32 {
        match self.vars.ops.as_slice().get(o as usize) {
            Some(vars) => number_of(vars.cycle),
            None => NONE,
        }
    }

    /// The value that a temporary carries.
    pub fn value(&self, t: u32) -> u32 {
        match self.temp(t) {
            Some(vars) => self.local(vars.value),
            None => NONE,
        }
    }

    /// The operation that defines a temporary.
    pub fn definer(&self, t: u32) -> u32 {
        match self.temp(t) {
            Some(vars) => self.local_op(vars.op),
            None => NONE,
        }
    }

    /// Whether an operation is this copy.
    pub fn is_copy(&self, o: u32, which: NodeCopy) -> bool {
        match self.op(o) {
            Some(op) => copy_kind(&op.kind) == Some(which),
            None => false,
        }
    }

    /// The value that an operand reads.
    pub fn value_read(&self, x: &Operand) -> u32 {
        match x.alts.as_slice().first() {
            Some(t) => self.value(self.local(*t)),
            None => NONE,
        }
    }

    /// The operand's own copy: the last of these among the definers of its alternatives, since those of earlier readers of the
    /// value stand before it.
    fn copy_among(&self, x: &Operand, which: NodeCopy) -> u32 {
        let mut last = NONE;
        for t in x.alts.as_slice() {
            let o = self.definer(self.local(*t));
            if self.is_copy(o, which) {
                last = o;
            }
        }
        last
    }

    /// The key of the operand at place `j` of those at the block's end.
    pub(crate) fn end_key(&self, j: u32) -> u32 {
        self.key_among(self.block.live_out.as_slice(), j)
    }

    /// The key of the value at place `j` of those at the block's start.
    pub(crate) fn start_key(&self, j: u32) -> u32 {
        self.key_among(self.block.live_in.as_slice(), j)
    }

    /// The key at place `j` of names and saved values behind them.
    fn key_among(&self, names: &[NameId], j: u32) -> u32 {
        let count = u32::try_from(names.len()).unwrap_or(u32::MAX);
        match names.get(j as usize) {
            Some(name) => name.0,
            None => self.names().saturating_add(j.saturating_sub(count)),
        }
    }

    /// How many names the function has.
    pub fn names(&self) -> u32 {
        u32::try_from(self.m.ext.names.len()).unwrap_or(u32::MAX)
    }
}

fn alternatives(alloc: Global, s: &Scope<'_>, x: &Operand) -> Result<Vec<u32>, AllocError> {
    let mut list = Vec::new(alloc);
    for t in x.alts.as_slice() {
        list.push(s.local(*t))?;
    }
    Ok(list)
}

fn operand(
    alloc: Global,
    s: &Scope<'_>,
    x: &Operand,
    choice: u32,
    key: u32,
) -> Result<facts::Operand, AllocError> {
    let alternatives = alternatives(alloc, s, x)?;
    Ok(facts::Operand {
        value: s.value_read(x),
        alternatives,
        home: x.home.map_or(NONE, |r| r.0),
        choice,
        copy: s.copy_among(x, NodeCopy::U),
        second_copy: s.copy_among(x, NodeCopy::U2),
        key,
    })
}

fn operands(
    alloc: Global,
    s: &Scope<'_>,
    op: &ExtOp,
    vars: &OpVars,
) -> Result<Vec<facts::Operand>, AllocError> {
    let mut list = Vec::new(alloc);
    let mut j = 0u32;
    for x in op.operands.as_slice() {
        let choice = number_of(vars.choices.as_slice().get(j as usize).copied());
        let key = match op.kind {
            ExtKind::Out => s.end_key(j),
            _ => NONE,
        };
        list.push(operand(alloc, s, x, choice, key)?)?;
        j = j.saturating_add(1);
    }
    Ok(list)
}

/// Whether an operation of the block, by its number in the function, issues in every solution.
fn is_issued(s: &Scope<'_>, o: OpId) -> bool {
    match s.op(s.local_op(o)) {
        Some(op) => is_source_or_end(&op.kind),
        None => false,
    }
}

/// The instruction of an operation of the block, by its number in the function; None where it has none.
fn instruction_of(s: &Scope<'_>, o: OpId) -> Option<Op> {
    match s.op(s.local_op(o)) {
        Some(op) => instruction(&op.kind, 1),
        None => None,
    }
}

/// How many cycles a precedence asks for: those of the model, and as many as the machine has where that lets a jump wait longer for what it
/// tests than the model's table does.
fn cycles(s: &Scope<'_>, arc: &Arc) -> u32 {
    let definer = instruction_of(s, arc.from);
    let user = instruction_of(s, arc.to);
    let wait = s.machine.gap(definer, user);
    if wait > gap(&s.m.ext.table, definer, user) {
        arc.gap.max(wait)
    } else {
        arc.gap
    }
}

/// The precedences to an operation, from others that every solution issues.
fn gaps(alloc: Global, s: &Scope<'_>, o: OpId) -> Result<Vec<Gap>, AllocError> {
    let mut list = Vec::new(alloc);
    if !is_issued(s, o) {
        return Ok(list);
    }
    for arc in s.arcs {
        if arc.to == o && is_issued(s, arc.from) {
            list.push(Gap {
                from: s.local_op(arc.from),
                issue: s.cycle(s.local_op(arc.from)),
                cycles: cycles(s, arc),
            })?;
        }
    }
    Ok(list)
}

/// The temporary that an operation defines, NONE at the block's start.
fn result_of(s: &Scope<'_>, op: &ExtOp) -> u32 {
    match (&op.kind, op.results.as_slice().first()) {
        (ExtKind::In, _) | (_, None) => NONE,
        (_, Some(t)) => s.local(*t),
    }
}

fn is_call(kind: &ExtKind) -> bool {
    match kind {
        ExtKind::Body(source) => source.op == Op::Call,
        _ => false,
    }
}

/// The operation at place `o` of the block.
fn operation(
    alloc: Global,
    s: &Scope<'_>,
    o: u32,
    op: &ExtOp,
    vars: &OpVars,
) -> Result<Operation, AllocError> {
    let operands = operands(alloc, s, op, vars)?;
    let before = gaps(alloc, s, OpId(s.first_op.saturating_add(o)))?;
    let instr = instruction(&op.kind, 1);
    Ok(Operation {
        operands,
        result: result_of(s, op),
        op: instr,
        latency: latency(&s.machine.table, instr),
        needs: needs_by(&s.machine.table, instr),
        is_call: is_call(&op.kind),
        is_return: matches!(op.kind, ExtKind::End(Term::Ret(_))),
        instruction: number_of(vars.instr),
        cycle: number_of(vars.cycle),
        before,
    })
}

/// The operations of a block.
pub fn operations(alloc: Global, s: &Scope<'_>) -> Result<Vec<Operation>, AllocError> {
    let mut list = Vec::new(alloc);
    let mut o = 0u32;
    for (op, vars) in s.block.ops.as_slice().iter().zip(s.vars.ops.as_slice()) {
        list.push(operation(alloc, s, o, op, vars)?)?;
        o = o.saturating_add(1);
    }
    Ok(list)
}

/// For each operation, how many cycles behind it the block ends at least: precedences lead to later ones alone.
pub fn tails(alloc: Global, operations: &[Operation]) -> Result<Table<u32>, AllocError> {
    let mut tails = Table::of(Vec::new(alloc), 0);
    tails.refill(u32::try_from(operations.len()).unwrap_or(0), 0)?;
    let mut o = tails.len();
    for op in operations.iter().rev() {
        o = o.saturating_sub(1);
        if op.cycle != NONE {
            tails.raise(o, 1);
        }
        raise_tails(op, tails.at(o), &mut tails);
    }
    Ok(tails)
}

/// Raises the tails of the operations that stand before one with this tail.
fn raise_tails(op: &Operation, tail: u32, tails: &mut Table<u32>) {
    for gap in &op.before {
        tails.raise(gap.from, tail.saturating_add(gap.cycles));
    }
}

/// What stands for an operation where there is none.
pub(crate) fn no_operation(alloc: Global) -> Operation {
    Operation {
        operands: Vec::new(alloc),
        result: NONE,
        op: None,
        latency: 1,
        needs: NO_NEEDS,
        is_call: false,
        is_return: false,
        instruction: NONE,
        cycle: NONE,
        before: Vec::new(alloc),
    }
}
