//! Marking the blocks at whose start a name is live.

ghost use Rattle.std.specs.Prelude.{◌≡◌, ◌+◌, ◌<◌, ◌≤◌, ◌^◌, ℕ, map, length, true, false, slice_set, Some, slice_get, IfOk, if◌then◌else◌};
ghost use Rattle.un_ir.specs.declared.function.Block.{Block};
ghost use Rattle.un_live.specs.Tables.{met, table_of};
ghost use Rattle.un_live.specs.Marks.{marked, leads, live_by, lives_at, unmarked, name_of, AreSound, AreClosed, IsColumn};

use crate::meeting::Meeting;
use std::alloc::Global;
use un_base::memory_error::NoMemory;
use un_ir::function::{Block, Term};
use un_lists::items::Items;

/// Whether block `b` is marked.
pub fn marked(marks: &[bool], b: usize) -> bool
    ensures { result ≡ marked marks.now b }
{
    match marks.get(b) {
        Some(mark) => *mark,
        None => false,
    }
}

/// Whether a block to which the terminator of block `b` may lead is marked.
fn leads(marks: &[bool], b: usize, term: &Term) -> bool
    requires { b < 2 ^ 32 }
    ensures { result ≡ leads marks.now b term.now }
{
    match term {
        Term::Fall => marked(marks, b + 1),
        Term::Jump(to) => marked(marks, to.0 as usize),
        Term::Branch { to, .. } => marked(marks, b + 1) || marked(marks, to.0 as usize),
        Term::Ret(_) => false,
    }
}

/// What a block does first to the name with this number, by the block's table.
fn met(table: &[Meeting], name: usize) -> Meeting
    ensures { result ≡ met table.now name }
{
    match table.get(name) {
        Some(meeting) => *meeting,
        None => Meeting::Neither,
    }
}

/// Whether the name with this number is live at the start of block `b`, by the block's table and the marks.
fn lives(table: &[Meeting], name: usize, marks: &[bool], b: usize, term: &Term) -> bool
    requires { b < 2 ^ 32 }
    ensures { result ≡ live_by (met table.now name) (leads marks.now b term.now) }
{
    match met(table, name) {
        Meeting::Read => true,
        Meeting::Assigned => false,
        Meeting::Neither => leads(marks, b, term),
    }
}

/// Marks block `b` where it is to be marked and is not, and answers whether it did.
fn mark(
    blocks: &[Block],
    tables: &Items<Items<Meeting>>,
    name: usize,
    marks: &mut [bool],
    b: usize,
) -> bool
    requires few { length blocks.now < 2 ^ 32 }
    requires place { b < length blocks.now }
    requires long { length marks.old ≡ length blocks.now }
    requires tables { (names : ℕ) × (name < names) × (tables.now ≡ map (table_of names) blocks.now) }
    ensures marks { marks.new ≡ (if result then slice_set marks.old b true else marks.old) }
    ensures yes { result ≡ true → (marked marks.old b ≡ false) × (lives_at blocks.now (name_of name) marks.old b ≡ true) }
    ensures no { result ≡ false → lives_at blocks.now (name_of name) marks.old b ≡ true → marked marks.old b ≡ true }
{
    if marked(marks, b) {
        return false;
    }
    if lives(tables.get(b).as_slice(), name, marks, b, &blocks[b].term) {
        marks[b] = true;
        return true;
    }
    false
}

/// One pass over the blocks from the last to the first, which marks those that are to be marked. Answers whether it marked
/// one.
fn sweep(blocks: &[Block], tables: &Items<Items<Meeting>>, name: usize, marks: &mut [bool]) -> bool
    requires few { length blocks.now < 2 ^ 32 }
    requires tables { (names : ℕ) × (name < names) × (tables.now ≡ map (table_of names) blocks.now) }
    requires long { length marks.old ≡ length blocks.now }
    requires sound { AreSound blocks.now (name_of name) marks.old }
    ensures sound { AreSound blocks.now (name_of name) marks.new }
    ensures yes { result ≡ true → unmarked marks.new < unmarked marks.old }
    ensures no { result ≡ false → AreClosed blocks.now (name_of name) marks.new }
{
    let mut changed = false;
    let mut rest = blocks.len();
    while rest > 0 {
        rest -= 1;
        if mark(blocks, tables, name, marks, rest) {
            changed = true;
        }
    }
    changed
}

/// Passes over the blocks until one marks none.
fn spread(blocks: &[Block], tables: &Items<Items<Meeting>>, name: usize, marks: &mut [bool])
    requires few { length blocks.now < 2 ^ 32 }
    requires tables { (names : ℕ) × (name < names) × (tables.now ≡ map (table_of names) blocks.now) }
    requires long { length marks.old ≡ length blocks.now }
    requires sound { AreSound blocks.now (name_of name) marks.old }
    ensures { IsColumn blocks.now (name_of name) marks.new }
{
    'sweeps: while sweep(blocks, tables, name, marks) {}
}

/// Of each block, whether the name with this number is live at its start.
pub fn column(
    alloc: Global,
    blocks: &[Block],
    tables: &Items<Items<Meeting>>,
    name: usize,
) -> Result<Vec<bool>, NoMemory>
    requires few { length blocks.now < 2 ^ 32 }
    requires tables { (names : ℕ) × (name < names) × (tables.now ≡ map (table_of names) blocks.now) }
    ensures { IfOk result (λ marks. IsColumn blocks.now (name_of name) marks.items) }
{
    let mut marks = vec![in alloc; false; blocks.len()]?;
    spread(blocks, tables, name, &mut marks);
    Ok(marks)
}
