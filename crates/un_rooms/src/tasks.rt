//! What a block issues in every solution, as the propagator of its length names it.

ghost use Rattle.std.specs.Prelude.{◌≡◌, ◌+◌, ◌<◌, ◌++◌, All, IfOk, OnOk, map, length, if◌then◌else◌, [], ◌∷◌};
ghost use Rattle.un_ir.specs.Linear.{is_out};
ghost use Rattle.un_length.specs.Places.{Leads};
ghost use Rattle.un_rooms.specs.Demands.{end_by, task_by};
ghost use Rattle.un_rooms.specs.Waits.{before_of, befores_by};
ghost use Rattle.un_sites.specs.Lengths.{is_task, var_in, tasks_in, task_place, precedence_at, precedence_by, precedences_by};
ghost use Rattle.un_sites.specs.Sites.{place_of};

use crate::demands::{Demand, demands_in, most, owed_head};
use crate::saved::is_out;
use crate::shares::{cycles_with, has_leave};
use crate::span::reach_of;
use crate::wait::Wait;
use std::alloc::{AllocError, Global};
use un_base::ids::VarId;
use un_base::memory_error::NoMemory;
use un_base::numbers::{later, number};
use un_ir::extended::ExtKind;
use un_isa::table::Table;
use un_length::block::{Precedence, Task};
use un_lists::items::Items;
use un_model::instructions::{instruction, needs};
use un_model::model::Arc;
use un_prop::act::At;
use un_sites::edges::Accesses;
use un_sites::sites::Spot;

/// The variable of a time; a number has none.
pub(crate) fn var_in(time: At) -> VarId
    ensures { result ≡ var_in time }
{
    match time {
        At::Const(_) => VarId(0),
        At::Var(v) => v,
    }
}

/// Whether every solution issues it, or it is the block's end.
fn is_task(kind: &ExtKind) -> bool
    ensures { result ≡ is_task kind.now }
{
    kind.is_source() || kind.ends_block()
}

/// The first cycle of an operation, of which the demand is known, in a block whose end has the head `end`.
fn head_of(kind: &ExtKind, end: u32, demand: Demand) -> u32
    ensures { result ≡ (if is_out kind.now then end else demand.head) }
{
    if is_out(kind) { end } else { demand.head }
}

/// An operation as what takes a place before the end.
fn task_by(t: &Table, end: u32, p: &Spot<'_>, demand: Demand) -> Task
    ensures { result ≡ task_by t.now end (place_of p.now) demand }
{
    Task {
        at: var_in(p.time()),
        head: head_of(&p.it.kind, end, demand),
        tail: demand.tail,
        needs: needs(t, instruction(&p.it.kind, 0)),
    }
}

/// Adds an operation, where every solution issues it or it is the end.
fn add_task(
    ops: &mut Items<Task>,
    t: &Table,
    end: u32,
    p: &Spot<'_>,
    demand: Demand,
) -> Result<(), AllocError>
    ensures { OnOk result (ops.new
        ≡ ops.old ++ (if is_task (place_of p.now).it.kind then task_by t.now end (place_of p.now) demand ∷ [] else [])) }
{
    if is_task(&p.it.kind) {
        ops.push(task_by(t, end, p, demand))?;
    }
    Ok(())
}

/// The first cycle of the end of a block that owes so much and whose operations ask for this.
fn end_of(
    t: &Table,
    owed: Accesses,
    spots: &[Spot<'_>],
    demands: &[Demand],
) -> Result<u32, NoMemory>
    ensures { IfOk result (λ end. end ≡ end_by t.now owed (map place_of spots.now) demands.now) }
{
    let cycles = cycles_with(t, spots, has_leave(spots), most(owed, demands))?;
    let filled = later(cycles, 1)?;
    let accessed = owed_head(t, owed)?;
    Ok(filled.max(accessed))
}

/// Those of a block's operations that every solution issues, and its end, of a block that has so many registers and owes so much.
pub(crate) fn tasks_in(
    alloc: Global,
    t: &Table,
    registers: usize,
    is_entry: bool,
    owed: Accesses,
    arcs: &[Arc],
    spots: &[Spot<'_>],
) -> Result<Items<Task>, NoMemory>
    ensures { IfOk result (λ ops. ops ≡ tasks_in t.now registers is_entry owed arcs.now (map place_of spots.now)) }
{
    let reach = reach_of(spots, arcs);
    let demands = demands_in(alloc, t, registers, is_entry, reach, arcs, spots)?;
    let end = end_of(t, owed, spots, demands.as_slice())?;
    let mut ops = Items::new(alloc);
    for i in 0..spots.len() {
        add_task(&mut ops, t, end, &spots[i], *demands.get(i))?;
    }
    Ok(ops)
}

/// The place of the first one with a variable; where none has it, how many there are.
pub(crate) fn task_place(ops: &[Task], v: VarId) -> usize
    ensures { result ≡ task_place ops.now v }
{
    for i in 0..ops.len() {
        if ops[i].at.0 == v.0 {
            return i;
        }
    }
    ops.len()
}

/// Adds a precedence between two places, where both are among the first `count`.
fn add_between(
    arcs: &mut Items<Precedence>,
    count: usize,
    i: usize,
    j: usize,
    gap: u32,
) -> Result<(), NoMemory>
    ensures { OnOk result (arcs.new ≡ arcs.old ++ precedence_at count i j gap) }
{
    if i < count && j < count {
        let from = number(i)?;
        let to = number(j)?;
        arcs.push(Precedence { from, to, gap })?;
    }
    Ok(())
}

/// Adds a precedence as one between places.
fn add_precedence(arcs: &mut Items<Precedence>, ops: &[Task], wait: Wait) -> Result<(), NoMemory>
    ensures { OnOk result (arcs.new ≡ arcs.old ++ precedence_by ops.now (before_of wait)) }
{
    match wait.from {
        At::Const(_) => Ok(()),
        At::Var(a) => match wait.to {
            At::Const(_) => Ok(()),
            At::Var(b) => add_between(
                arcs,
                ops.len(),
                task_place(ops, a),
                task_place(ops, b),
                wait.gap,
            ),
        },
    }
}

/// The precedences among these operations.
pub(crate) fn precedences_by(
    alloc: Global,
    ops: &[Task],
    waits: &[Wait],
) -> Result<Items<Precedence>, NoMemory>
    ensures is { IfOk result (λ arcs. arcs ≡ precedences_by ops.now (befores_by waits.now)) }
    ensures lead { IfOk result (All (Leads (length ops.now))) }
{
    let mut arcs = Items::new(alloc);
    for wait in waits {
        add_precedence(&mut arcs, ops, *wait)?;
    }
    Ok(arcs)
}
