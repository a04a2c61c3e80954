//! What the copies of a block do where every name is spilled.

ghost use Rattle.std.specs.Prelude.{◌≡◌, ◌+◌, IfOk, length, slice_get, slice_index};
ghost use Rattle.un_isa.specs.Tables.{latency_of};
ghost use Rattle.un_isa.specs.declared.op.Op.TheVariants.{Reload};
ghost use Rattle.un_baseline.specs.SpillEverywhere.{slot_of, last_place, is_placed, kept_place, slot_at_start, move, no_move, spilled_to};
ghost use Rattle.un_baseline.specs.SpillEverywhere.{kept_by_kind, first_copy, second_copy, result_wait, operand_copy, truth_copy};
ghost use Rattle.un_baseline.specs.SpillEverywhere.{first_alts, copy_move, after_move, next_cycle, next_value, next_operand};

use crate::plan::{Definer, Move, PREDICATE, Progress, Purpose, Setting};
use un_base::ids::{NameId, TempId};
use un_base::memory_error::NoMemory;
use un_base::numbers::{later, number};
use un_ir::extended::{
    Ext, ExtOp, FROM_PREDICATE, NodeCopy, RELOAD, SPILL, TO_PREDICATE, first_of, name_kind,
};
use un_ir::function::{Kind, Term};
use un_isa::op::Op;
use un_isa::reg::{FIRST_SLOT, LINK};
use un_isa::table::{Table, latency};
use un_lists::items::Items;
use un_model::instructions;

/// The name at place `j`, where there is one.
pub(crate) fn name_at(names: &Items<NameId>, j: usize) -> Option<NameId>
    ensures { result ≡ slice_get names.now j }
{
    names.as_slice().get(j).copied()
}

/// The slot of a name, as a register.
pub(crate) fn slot_of(name: NameId) -> Result<u32, NoMemory>
    ensures { IfOk result (λ slot. slot ≡ slot_of name) }
{
    later(FIRST_SLOT, name.0)
}

/// The place of the last of the temporaries that an operand may choose.
pub(crate) fn last_place(alts: &[TempId]) -> Result<u32, NoMemory>
    ensures { IfOk result (λ place. place ≡ last_place alts.now) }
{
    number(alts.len().saturating_sub(1))
}

/// Whether the value that an operand reads stands where it is kept from the block's start on.
pub(crate) fn is_placed(s: &Setting, alts: &[TempId]) -> bool
    ensures { result ≡ is_placed s.now alts.now }
{
    first_of(alts) < s.placed
}

/// The place, among a value and its copies, of the one that stands where the value is kept.
fn kept_place(s: &Setting, alts: &[TempId]) -> Result<u32, NoMemory>
    ensures { IfOk result (λ place. place ≡ kept_place s.now alts.now) }
{
    if is_placed(s, alts) {
        Ok(0)
    } else {
        last_place(alts)
    }
}

/// What a copy does that does nothing.
fn no_move() -> Move
    ensures { result ≡ no_move }
{
    Move {
        instr: 0,
        cycle: 0,
        place: 0,
        register: 0,
    }
}

/// The slot to which the value at place `i` of the entry's start moves, where it moves.
fn slot_at_start(s: &Setting, i: u32, name: Option<NameId>) -> Result<Option<u32>, NoMemory>
    ensures { IfOk result (λ slot. slot ≡ slot_at_start s.now i name) }
{
    match name {
        Some(n) => Ok(Some(slot_of(n)?)),
        None => {
            if later(i, 1)? == s.values {
                Ok(Some(s.link))
            } else {
                Ok(None)
            }
        }
    }
}

/// A Spill to a slot, where there is one.
fn spilled_to(slot: Option<u32>, now: u32) -> Move
    ensures { result ≡ spilled_to slot now }
{
    match slot {
        None => no_move(),
        Some(register) => Move {
            instr: SPILL,
            cycle: now,
            place: 0,
            register,
        },
    }
}

/// The first copy of a value that an operation assigns to a name of this kind.
fn kept_by_kind(kind: Kind, name: NameId, now: u32) -> Result<Move, NoMemory>
    ensures { IfOk result (λ m. m ≡ kept_by_kind kind name now) }
{
    match kind {
        Kind::General => Ok(Move {
            instr: SPILL,
            cycle: now,
            place: 0,
            register: slot_of(name)?,
        }),
        Kind::Pred => Ok(Move {
            instr: FROM_PREDICATE,
            cycle: now,
            place: 0,
            register: 0,
        }),
    }
}

/// The first copy of a value.
fn first_copy(
    names: &Items<Kind>,
    live_in: &Items<NameId>,
    s: &Setting,
    p: &Progress,
) -> Result<Move, NoMemory>
    ensures { IfOk result (λ m. m ≡ first_copy names.now live_in.now s.now p.now p.now.definer) }
{
    match p.definer {
        Definer::Start => {
            let name = name_at(live_in, p.values as usize);
            Ok(spilled_to(slot_at_start(s, p.values, name)?, p.cycle))
        }
        Definer::Assigns(name) => kept_by_kind(name_kind(names.as_slice(), name), name, p.cycle),
        Definer::Other => Ok(no_move()),
    }
}

/// The second copy of a truth value, which may read these temporaries.
fn second_copy(p: &Progress, alts: &[TempId]) -> Result<Move, NoMemory>
    ensures { IfOk result (λ m. m ≡ second_copy p.now alts.now p.now.definer) }
{
    match p.definer {
        Definer::Assigns(name) => Ok(Move {
            instr: SPILL,
            cycle: p.cycle,
            place: last_place(alts)?,
            register: slot_of(name)?,
        }),
        _ => Ok(no_move()),
    }
}

/// How many cycles a return waits for its result.
pub(crate) fn result_wait(t: &Table, term: Term) -> u32
    ensures { result ≡ result_wait t.now term }
{
    match term {
        Term::Ret(Some(_)) => latency(t, Op::Reload),
        _ => 0,
    }
}

/// The first copy of an operand, which may read these temporaries.
fn operand_copy(
    t: &Table,
    s: &Setting,
    p: &Progress,
    alts: &[TempId],
    purpose: Purpose,
) -> Result<Move, NoMemory>
    ensures { IfOk result (λ m. m ≡ operand_copy t.now s.now p.now alts.now purpose) }
{
    let place = kept_place(s, alts)?;
    let (cycle, register) = match purpose {
        Purpose::Operands => (p.cycle, p.operands),
        Purpose::Link => (later(p.cycle, result_wait(t, s.term))?, LINK),
        Purpose::Returned if p.operands == 0 => (p.cycle, 0),
        _ => return Ok(no_move()),
    };
    Ok(Move {
        instr: RELOAD,
        cycle,
        place,
        register,
    })
}

/// The second copy of an operand that reads a truth value, which may read these temporaries.
fn truth_copy(p: &Progress, alts: &[TempId], purpose: Purpose) -> Result<Move, NoMemory>
    ensures { IfOk result (λ m. m ≡ truth_copy p.now alts.now purpose) }
{
    match purpose {
        Purpose::Operands => Ok(Move {
            instr: TO_PREDICATE,
            cycle: p.cycle,
            place: last_place(alts)?,
            register: PREDICATE,
        }),
        _ => Ok(no_move()),
    }
}

/// What a copy that may read these temporaries does.
fn move_of(
    e: &Ext,
    live_in: &Items<NameId>,
    s: &Setting,
    p: &Progress,
    purpose: Purpose,
    alts: &[TempId],
    node: NodeCopy,
) -> Result<Move, NoMemory>
    ensures { IfOk result (λ m. m ≡ copy_move e.now live_in.now s.now p.now purpose alts.now node) }
{
    match node {
        NodeCopy::D => first_copy(&e.names, live_in, s, p),
        NodeCopy::D2 => second_copy(p, alts),
        NodeCopy::U => operand_copy(&e.table, s, p, alts, purpose),
        NodeCopy::U2 => truth_copy(p, alts, purpose),
    }
}

/// The next cycle after a copy that issues in the cycle `now`, or does nothing.
fn after_move(t: &Table, now: u32, m: &Move) -> Result<u32, NoMemory>
    ensures { IfOk result (λ next. next ≡ after_move t.now now m.now) }
{
    if m.instr == 0 {
        Ok(now)
    } else {
        later(now, instructions::latency(t, instructions::copy(m.instr)))
    }
}

/// The next cycle of the plan after a copy that does this.
fn next_cycle(
    t: &Table,
    now: u32,
    m: &Move,
    purpose: Purpose,
    node: NodeCopy,
) -> Result<u32, NoMemory>
    ensures { IfOk result (λ next. next ≡ next_cycle t.now now m.now purpose node) }
{
    match (node, purpose) {
        (NodeCopy::D | NodeCopy::D2, _) => after_move(t, now, m),
        (_, Purpose::Operands) => after_move(t, now, m),
        _ => Ok(now),
    }
}

/// How many values have had their first copy with this one.
fn next_value(n: u32, node: NodeCopy) -> Result<u32, NoMemory>
    ensures { IfOk result (λ next. next ≡ next_value n node) }
{
    match node {
        NodeCopy::D => later(n, 1),
        _ => Ok(n),
    }
}

/// How many operands have had their first copy with this one.
fn next_operand(n: u32, node: NodeCopy) -> Result<u32, NoMemory>
    ensures { IfOk result (λ next. next ≡ next_operand n node) }
{
    match node {
        NodeCopy::U => later(n, 1),
        _ => Ok(n),
    }
}

/// The temporaries that the first operand may choose, and what the copy does.
pub(crate) fn copy_move(
    e: &Ext,
    live_in: &Items<NameId>,
    s: &Setting,
    p: &Progress,
    purpose: Purpose,
    op: &ExtOp,
    node: NodeCopy,
) -> Result<Move, NoMemory>
    ensures { IfOk result (λ m.
        m ≡ copy_move e.now live_in.now s.now p.now purpose (first_alts op.now.operands) node) }
{
    match op.operands.as_slice() {
        [] => move_of(e, live_in, s, p, purpose, &[], node),
        [operand, ..] => move_of(e, live_in, s, p, purpose, operand.alts.as_slice(), node),
    }
}

/// The progress behind a copy that does this.
pub(crate) fn after_copy(
    t: &Table,
    p: &Progress,
    m: &Move,
    purpose: Purpose,
    node: NodeCopy,
) -> Result<Progress, NoMemory>
    ensures { IfOk result (λ after.
        after ≡ record {
          cycle = next_cycle t.now p.now.cycle m.now purpose node;
          values = next_value p.now.values node;
          operands =
              next_operand p.now.operands node;
          definer = p.now.definer;
        }) }
{
    Ok(Progress {
        cycle: next_cycle(t, p.cycle, m, purpose, node)?,
        values: next_value(p.values, node)?,
        operands: next_operand(p.operands, node)?,
        definer: p.definer,
    })
}
