//! What each block does to each name first, in one pass over its operations.

ghost use Rattle.std.specs.Prelude.{◌≡◌, ◌++◌, [], ◌∷◌, length, map, replicate, slice_set, IfOk, OnOk};
ghost use Rattle.un_ir.specs.Live.{read_by_term};
ghost use Rattle.un_live.specs.Tables.{meet, met, noted, noted_all, noted_dst, noted_ops, noted_term, table_of};
ghost use Rattle.un_live.specs.declared.meeting.Meeting.{Meeting};

use crate::meeting::Meeting;
use std::alloc::Global;
use un_base::ids::NameId;
use un_base::memory_error::NoMemory;
use un_ir::function::{Block, SrcOp, Term};
use un_lists::items::Items;

/// What is done first, where the one is done before the other.
fn meet(first: Meeting, later: Meeting) -> Meeting
    ensures { result ≡ meet first later }
{
    match first {
        Meeting::Read => Meeting::Read,
        Meeting::Assigned => Meeting::Assigned,
        Meeting::Neither => later,
    }
}

/// Notes at a name what is done to it, behind what was done before.
fn note(table: &mut [Meeting], name: NameId, meeting: Meeting)
    ensures { table.new ≡ noted table.old name meeting }
{
    let place = name.0 as usize;
    if place < table.len() {
        table[place] = meet(table[place], meeting);
    }
}

/// Notes the same at each name.
fn note_all(table: &mut [Meeting], names: &[NameId], meeting: Meeting)
    ensures { table.new ≡ noted_all table.old names.now meeting }
{
    for name in names {
        note(table, *name, meeting);
    }
}

/// Notes what an operation does: it reads before it assigns.
fn note_op(table: &mut [Meeting], o: &SrcOp)
    ensures { table.new ≡ noted_dst (noted_all table.old o.now.srcs Meeting.Read) o.now.dst }
{
    note_all(table, o.srcs.as_slice(), Meeting::Read);
    if let Some(name) = o.dst {
        note(table, name, Meeting::Assigned);
    }
}

/// Notes what a terminator reads.
fn note_term(table: &mut [Meeting], term: &Term)
    ensures { table.new ≡ noted_term table.old term.now }
{
    match term {
        Term::Branch { pred, .. } => note(table, *pred, Meeting::Read),
        Term::Ret(Some(value)) => note(table, *value, Meeting::Read),
        _ => {}
    }
}

/// Notes what a block does.
fn note_block(table: &mut [Meeting], block: &Block)
    ensures { table.new ≡ noted_term (noted_ops table.old block.now.ops) block.now.term }
{
    for o in block.ops.as_slice() {
        note_op(table, o);
    }
    note_term(table, &block.term);
}

/// What a block does first to each of so many names.
fn block_table(alloc: Global, block: &Block, names: usize) -> Result<Vec<Meeting>, NoMemory>
    ensures { IfOk result (λ table. table.items ≡ table_of names block.now) }
{
    let mut table = vec![in alloc; Meeting::Neither; names]?;
    note_block(&mut table, block);
    Ok(table)
}

/// Adds the table of a block.
fn push_table(
    alloc: Global,
    tables: &mut Items<Items<Meeting>>,
    block: &Block,
    names: usize,
) -> Result<(), NoMemory>
    ensures { OnOk result (tables.new ≡ tables.old ++ table_of names block.now ∷ []) }
{
    let table = block_table(alloc, block, names)?;
    tables.push(Items::from_vec(table))?;
    Ok(())
}

/// What each block does first to each of so many names.
pub(crate) fn block_tables(
    alloc: Global,
    blocks: &[Block],
    names: usize,
) -> Result<Items<Items<Meeting>>, NoMemory>
    ensures { IfOk result (λ tables. tables ≡ map (table_of names) blocks.now) }
{
    let mut tables = Items::new(alloc);
    for block in blocks {
        push_table(alloc, &mut tables, block, names)?;
    }
    Ok(tables)
}
