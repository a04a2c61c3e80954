//! The registers to which the values of a block are preassigned, and which values are truth values, in one pass.

ghost use Rattle.std.specs.Prelude.{◌≡◌, ℕ, ◌<◌, ◌≤◌, ◌==◌, ◌&&◌, ◌||◌, false, IfOk, OnOk};
ghost use Rattle.std.specs.List.{list_any};
ghost use Rattle.un_base.specs.declared.ids.TempId.{TempId};
ghost use Rattle.un_isa.specs.Registers.{saved_registers};
ghost use Rattle.un_model.specs.Homes.{home_of, AddsMarks, is_mark, is_operand_mark, is_operands_mark, is_result_mark, is_results_mark};
ghost use Rattle.un_model.specs.Homes.{is_op_mark, is_block_mark, TellsHomes};

use crate::registers::{gives_truth_at, result_home};
use std::alloc::Global;
use std::collections::BTreeMap;
use un_base::ids::{NameId, TempId};
use un_base::memory_error::NoMemory;
use un_ir::extended::{Ext, ExtBlock, ExtOp, Operand};
use un_isa::reg::{GENERALS, Reg};
use un_isa::reg_set::RegSet;
use un_lists::items::Items;

/// What is told of a value.
#[derive(Clone, Copy)]
pub(crate) struct Home {
    /// The general registers to which it is preassigned.
    pub(crate) registers: RegSet,
    /// Whether it is a truth value.
    pub(crate) truth: bool,
}

/// What is told of each value, by its number.
pub(crate) type Homes = BTreeMap<u32, Home>;

/// What is told of a value: no register and no truth value where nothing is.
pub(crate) fn home_at(homes: &Homes, x: TempId) -> Home
    ensures { result ≡ home_of homes.now x }
{
    match homes.get(&x.0) {
        Some(home) => *home,
        None => Home {
            registers: RegSet::of_mask(0),
            truth: false,
        },
    }
}

/// That a general register is a home of a value.
fn add_register(homes: &mut Homes, x: TempId, r: u32) -> Result<(), NoMemory>
    requires { r < GENERALS }
    ensures { OnOk result (AddsMarks (λ y i. x.0 == y.0 && r == i) homes.old homes.new) }
{
    let Home {
        mut registers,
        truth,
    } = home_at(homes, x);
    registers.insert(r);
    match homes.insert(x.0, Home { registers, truth }) {
        Ok(_) => Ok(()),
        Err(_) => Err(NoMemory),
    }
}

/// That a value is a truth value.
fn add_truth(homes: &mut Homes, x: TempId) -> Result<(), NoMemory>
    ensures { OnOk result (AddsMarks (λ y i. x.0 == y.0 && GENERALS == i) homes.old homes.new) }
{
    let registers = home_at(homes, x).registers;
    let told = Home {
        registers,
        truth: true,
    };
    match homes.insert(x.0, told) {
        Ok(_) => Ok(()),
        Err(_) => Err(NoMemory),
    }
}

/// That a general register is a home of each of these values.
fn add_alternatives(homes: &mut Homes, alts: &Items<TempId>, r: u32) -> Result<(), NoMemory>
    requires { r < GENERALS }
    ensures { OnOk result
        (AddsMarks (λ y i. list_any (λ t. t.0 == y.0 && r == i) alts.now) homes.old homes.new) }
{
    for j in 0..alts.len() {
        add_register(homes, *alts.get(j), r)?;
    }
    Ok(())
}

/// The home of an operand, for each value that it may read.
fn add_operand(homes: &mut Homes, operand: &Operand) -> Result<(), NoMemory>
    ensures { OnOk result (AddsMarks (λ y i. is_operand_mark operand.now y i) homes.old homes.new) }
{
    if let Some(reg) = operand.home {
        if reg.0 < GENERALS {
            add_alternatives(homes, &operand.alts, reg.0)?;
        }
    }
    Ok(())
}

/// The homes of the operands of an operation.
fn add_operands(homes: &mut Homes, op: &ExtOp) -> Result<(), NoMemory>
    ensures { OnOk result (AddsMarks (λ y i. is_operands_mark op.now y i) homes.old homes.new) }
{
    for j in 0..op.operands.len() {
        add_operand(homes, op.operands.get(j))?;
    }
    Ok(())
}

/// That a value is a truth value, where it is.
fn add_kind(homes: &mut Homes, x: TempId, truth: bool) -> Result<(), NoMemory>
    ensures { OnOk result (AddsMarks (λ y i. x.0 == y.0 && (truth && GENERALS == i)) homes.old homes.new) }
{
    if truth {
        add_truth(homes, x)?;
    }
    Ok(())
}

/// The home of a value, where it has one.
fn add_own_home(homes: &mut Homes, x: TempId, home: Option<Reg>) -> Result<(), NoMemory>
    ensures { OnOk result (AddsMarks (λ y i. x.0 == y.0 && is_mark false home i) homes.old homes.new) }
{
    if let Some(reg) = home {
        if reg.0 < GENERALS {
            add_register(homes, x, reg.0)?;
        }
    }
    Ok(())
}

/// The home of a value, where it has one, and whether it is a truth value.
fn add_result(homes: &mut Homes, x: TempId, truth: bool, home: Option<Reg>) -> Result<(), NoMemory>
    ensures { OnOk result (AddsMarks (λ y i. x.0 == y.0 && is_mark truth home i) homes.old homes.new) }
{
    add_kind(homes, x, truth)?;
    add_own_home(homes, x, home)?;
    Ok(())
}

/// The homes of the results of an operation, and which are truth values.
fn add_results(
    homes: &mut Homes,
    e: &Ext,
    saved: &Items<u32>,
    is_entry: bool,
    live_in: &Items<NameId>,
    op: &ExtOp,
) -> Result<(), NoMemory>
    requires { saved.now ≡ saved_registers e.now.table }
    ensures { OnOk result (AddsMarks (λ y i. is_results_mark e.now is_entry live_in.now op.now y i) homes.old homes.new) }
{
    for j in 0..op.results.len() {
        let truth = gives_truth_at(&e.names, live_in, &op.kind, j);
        let home = result_home(&e.table, saved, is_entry, live_in, &op.kind, j);
        add_result(homes, *op.results.get(j), truth, home)?;
    }
    Ok(())
}

/// The homes of the operands and of the results of an operation, and which results are truth values.
fn add_op(
    homes: &mut Homes,
    e: &Ext,
    saved: &Items<u32>,
    is_entry: bool,
    live_in: &Items<NameId>,
    op: &ExtOp,
) -> Result<(), NoMemory>
    requires { saved.now ≡ saved_registers e.now.table }
    ensures { OnOk result (AddsMarks (λ y i. is_op_mark e.now is_entry live_in.now y i op.now) homes.old homes.new) }
{
    add_operands(homes, op)?;
    add_results(homes, e, saved, is_entry, live_in, op)?;
    Ok(())
}

/// The homes of all values of a block, and which are truth values.
pub(crate) fn homes(
    alloc: Global,
    e: &Ext,
    saved: &Items<u32>,
    is_entry: bool,
    block: &ExtBlock,
) -> Result<Homes, NoMemory>
    requires { saved.now ≡ saved_registers e.now.table }
    ensures { IfOk result (λ homes. TellsHomes e.now is_entry block.now homes) }
{
    let mut homes = BTreeMap::new(alloc);
    for i in 0..block.ops.len() {
        add_op(
            &mut homes,
            e,
            saved,
            is_entry,
            &block.live_in,
            block.ops.get(i),
        )?;
    }
    Ok(homes)
}
