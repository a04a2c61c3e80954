//! The temporaries of names, and the names that are live where a block ends.

ghost use Rattle.std.specs.Prelude.{◌≡◌, ◌+◌, ◌<◌, ◌^◌, ◌++◌, [], ◌∷◌, length, replicate, slice_index, IfOk, OnOk, List, Some, false};
ghost use Rattle.std.specs.Prelude.{if◌then◌else◌};
ghost use Rattle.un_ir.specs.Live.{targets_of};
ghost use Rattle.un_ir.specs.LinearOf.{assigned, first_temps, live_at, name_of, live_after};
ghost use Rattle.un_lssa.specs.Making.{marked_with, marked_at, names_of_marks};

use std::alloc::Global;
use un_base::ids::NameId;
use un_base::memory_error::NoMemory;
use un_ir::extended::LiveSets;
use un_ir::function::Term;
use un_lists::items::Items;

/// The temporary of a name, 0 where it has none.
pub(crate) fn current_temp(current: &[u32], name: NameId) -> u32
    ensures { result ≡ slice_index current.now name.0 }
{
    current.get(name.0 as usize).copied().unwrap_or(0)
}

/// A name that is assigned has temporary `n` from there on.
pub fn assign(current: &mut [u32], name: NameId, n: u32)
    ensures { current.new ≡ assigned current.old (Some name) n }
{
    let place = name.0 as usize;
    if place < current.len() {
        current[place] = n;
    }
}

/// Names that are live at a block's start have the temporaries from `first` on.
pub fn assign_all(current: &mut [u32], first: u32, names: &[NameId])
    requires { first + length names.now < 2 ^ 32 }
    ensures { current.new ≡ first_temps current.old first names.now }
{
    let mut n = first;
    for name in names {
        assign(current, *name, n);
        n += 1;
    }
}

/// The names that are live at the start of block `b`.
pub fn live_at(live: &LiveSets, b: usize) -> &[NameId]
    ensures { result.now ≡ live_at live.now.at_start b }
{
    match live.at_start.as_slice().get(b) {
        Some(names) => names.as_slice(),
        None => &[],
    }
}

/// Marks names, by their numbers.
fn mark(marks: &mut [bool], names: &[NameId])
    ensures { marks.new ≡ marked_with marks.old names.now }
{
    for name in names {
        let place = name.0 as usize;
        if place < marks.len() {
            marks[place] = true;
        }
    }
}

/// Marks the names that are live at the start of a block to which block `b` may lead.
fn mark_next(marks: &mut [bool], live: &LiveSets, b: usize, term: &Term)
    requires { b < 2 ^ 32 }
    ensures { marks.new ≡ marked_at live.now.at_start marks.old (targets_of b term.now) }
{
    match term {
        Term::Fall => mark(marks, live_at(live, b + 1)),
        Term::Jump(to) => mark(marks, live_at(live, to.0 as usize)),
        Term::Branch { to, .. } => {
            mark(marks, live_at(live, b + 1));
            mark(marks, live_at(live, to.0 as usize));
        }
        Term::Ret(_) => {}
    }
}

/// Adds the name with this number where it is marked.
fn push_marked(names: &mut Items<NameId>, mark: bool, name: usize) -> Result<(), NoMemory>
    requires { name < 2 ^ 32 }
    ensures { OnOk result (names.new ≡ names.old ++ (if mark then name_of name ∷ [] else [])) }
{
    if mark {
        names.push(NameId(name as u32))?;
    }
    Ok(())
}

/// The names that are marked.
fn marked_names(alloc: Global, marks: &[bool]) -> Result<Items<NameId>, NoMemory>
    requires { length marks.now < 2 ^ 32 }
    ensures { IfOk result (λ names. names ≡ names_of_marks 0 marks.now) }
{
    let mut names = Items::new(alloc);
    for (n, mark) in marks.iter().enumerate() {
        push_marked(&mut names, *mark, n)?;
    }
    Ok(names)
}

/// The names that are live at the start of a block to which block `b` may lead. `marks` has a place for each name, of which
/// none is marked.
fn live_by_marks(
    alloc: Global,
    marks: &mut [bool],
    live: &LiveSets,
    b: usize,
    term: &Term,
) -> Result<Items<NameId>, NoMemory>
    requires place { b < 2 ^ 32 }
    requires fresh { marks.old ≡ replicate (length marks.old) false }
    requires names { length marks.old < 2 ^ 32 }
    ensures { IfOk result (λ after. after ≡ live_after live.now.at_start (length marks.old) b term.now) }
{
    mark_next(marks, live, b, term);
    marked_names(alloc, marks)
}

/// Of so many names those that are live at the start of a block to which block `b` may lead.
pub fn live_after(
    alloc: Global,
    live: &LiveSets,
    names: usize,
    b: usize,
    term: &Term,
) -> Result<Items<NameId>, NoMemory>
    requires place { b < 2 ^ 32 }
    requires names { names < 2 ^ 32 }
    ensures { IfOk result (λ after. after ≡ live_after live.now.at_start names b term.now) }
{
    let mut marks = vec![in alloc; false; names]?;
    live_by_marks(alloc, &mut marks, live, b, term)
}
