//! The names that are live at the start of each block.

ghost use Rattle.std.specs.Prelude.{◌≡◌, ◌+◌, ◌<◌, ◌≤◌, ◌^◌, ◌++◌, ℕ, [], ◌∷◌, map, length, IfOk, OnOk, if◌then◌else◌};
ghost use Rattle.std.specs.List.{range_with_len};
ghost use Rattle.un_ir.specs.LinearOf.{AreLive};
ghost use Rattle.un_live.specs.Tables.{table_of};
ghost use Rattle.un_live.specs.Marks.{marked, name_of, names_from, AreColumns};

use crate::marks::{column, marked};
use crate::meeting::Meeting;
use crate::tables::block_tables;
use std::alloc::Global;
use un_base::ids::NameId;
use un_base::memory_error::NoMemory;
use un_ir::extended::LiveSets;
use un_ir::function::{Block, Function};
use un_lists::items::Items;

/// Adds of each block whether the name with this number is live at its start, behind the same of the names before it.
#[tactic(auto, using(crate::proofs::LiveLists::columns_more))]
fn push_column(
    alloc: Global,
    columns: &mut Items<Items<bool>>,
    blocks: &[Block],
    tables: &Items<Items<Meeting>>,
    name: usize,
) -> Result<(), NoMemory>
    requires few { length blocks.now < 2 ^ 32 }
    requires tables { (names : ℕ) × (name < names) × (tables.now ≡ map (table_of names) blocks.now) }
    requires before { AreColumns blocks.now name columns.old }
    ensures { OnOk result (AreColumns blocks.now (name + 1) columns.new) }
{
    let marks = column(alloc, blocks, tables, name)?;
    columns.push(Items::from_vec(marks))?;
    Ok(())
}

/// Of each name and each block, whether the name is live at the block's start.
fn columns(
    alloc: Global,
    blocks: &[Block],
    tables: &Items<Items<Meeting>>,
    names: usize,
) -> Result<Items<Items<bool>>, NoMemory>
    requires few { length blocks.now < 2 ^ 32 }
    requires tables { tables.now ≡ map (table_of names) blocks.now }
    ensures { IfOk result (λ columns. AreColumns blocks.now names columns) }
{
    let mut columns = Items::new(alloc);
    for name in 0..names {
        push_column(alloc, &mut columns, blocks, tables, name)?;
    }
    Ok(columns)
}

/// Of each of so many names and each block, whether the name is live at the block's start.
///
/// # Errors
/// `NoMemory` where there is no memory for them.
pub fn columns_of(
    alloc: Global,
    blocks: &[Block],
    names: usize,
) -> Result<Items<Items<bool>>, NoMemory>
    requires { length blocks.now < 2 ^ 32 }
    ensures { IfOk result (λ columns. AreColumns blocks.now names columns) }
{
    let tables = block_tables(alloc, blocks, names)?;
    columns(alloc, blocks, &tables, names)
}

/// Adds the name with this number, where block `b` is marked.
fn push_marked(
    names: &mut Items<NameId>,
    marks: &[bool],
    b: usize,
    name: usize,
) -> Result<(), NoMemory>
    requires { name < 2 ^ 32 }
    ensures { OnOk result (names.new ≡ names.old ++ (if marked marks.now b then name_of name ∷ [] else [])) }
{
    if marked(marks, b) {
        names.push(NameId(name as u32))?;
    }
    Ok(())
}

/// The names that are live at the start of block `b`.
#[tactic(auto, using(crate::proofs::LiveLists::names_step, crate::proofs::LiveLists::names_end))]
fn block_names(alloc: Global, columns: &[Items<bool>], b: usize) -> Result<Items<NameId>, NoMemory>
    requires { length columns.now < 2 ^ 32 }
    ensures { IfOk result (λ names. names ≡ names_from 0 columns.now b) }
{
    let mut names = Items::new(alloc);
    for (name, marks) in columns.iter().enumerate() {
        push_marked(&mut names, marks.as_slice(), b, name)?;
    }
    Ok(names)
}

/// Adds the names that are live at the start of block `b`.
fn push_names(
    alloc: Global,
    lists: &mut Items<Items<NameId>>,
    columns: &Items<Items<bool>>,
    b: usize,
) -> Result<(), NoMemory>
    requires { length columns.now < 2 ^ 32 }
    ensures { OnOk result (lists.new ≡ lists.old ++ names_from 0 columns.now b ∷ []) }
{
    let names = block_names(alloc, columns.as_slice(), b)?;
    lists.push(names)?;
    Ok(())
}

/// The same of each block.
fn all_names(
    alloc: Global,
    columns: &Items<Items<bool>>,
    blocks: usize,
) -> Result<Items<Items<NameId>>, NoMemory>
    requires { length columns.now < 2 ^ 32 }
    ensures { IfOk result (λ lists. lists ≡ map (names_from 0 columns.now) (range_with_len 0 blocks)) }
{
    let mut lists = Items::new(alloc);
    for b in 0..blocks {
        push_names(alloc, &mut lists, columns, b)?;
    }
    Ok(lists)
}

/// The names that are live at the start of each block, in the order of their first appearance.
///
/// # Errors
/// `NoMemory` where there is no memory for them.
pub fn live_in(alloc: Global, f: &Function) -> Result<LiveSets, NoMemory>
    ensures { IfOk result (λ live. AreLive f.now.blocks live.at_start) }
{
    let blocks = f.blocks.as_slice();
    let names = f.names.len();
    let columns = columns_of(alloc, blocks, names)?;
    let at_start = all_names(alloc, &columns, blocks.len())?;
    Ok(LiveSets { at_start })
}
