//! The values that are read behind a call, or for which the result of an operation stands: marks by their numbers, so that each value
//! is looked up and not sought.

ghost use Rattle.std.specs.Prelude.{◌≡◌, ◌==◌, ◌≤◌, ◌&&◌, ◌||◌, Bool, List, IfOk, OnOk, filter, length, map, ℕ};
ghost use Rattle.std.specs.List.{list_any};
ghost use Rattle.std.specs.Option.{option_to_list};
ghost use Rattle.un_base.specs.declared.ids.TempId.{TempId};
ghost use Rattle.un_ir.specs.declared.extended.Operand.{Operand};
ghost use Rattle.un_ir.specs.Linear.{first_of};
ghost use Rattle.un_rooms.specs.Marked.{is_marked, MarksWhere};
ghost use Rattle.un_sites.specs.Crossings.{is_asked, reads_value, is_carried, first_new, handed_by, handed};
ghost use Rattle.un_sites.specs.Places.{Place};
ghost use Rattle.un_sites.specs.Sites.{place_of};

use crate::crossings::is_asked;
use std::alloc::{AllocError, Global};
use un_base::ids::TempId;
use un_ir::extended::{ExtKind, Operand, first_of};
use un_sites::sites::Spot;

/// Whether a value is marked.
pub(crate) fn is_marked(marks: &[bool], n: u32) -> bool
    ensures { result ≡ is_marked marks.now n }
{
    let i = n as usize;
    i < marks.len() && marks[i]
}

/// Makes room for so many marks.
fn grow(marks: &mut Vec<bool>, count: usize) -> Result<(), AllocError>
    ensures long { OnOk result (count ≤ length marks.new.items) }
    ensures same { OnOk result ((k : ℕ) → is_marked marks.new.items k ≡ is_marked marks.old.items k) }
{
    if marks.len() < count {
        marks.resize(count, false)?;
    }
    Ok(())
}

/// Marks a value. There are marks up to the greatest value that was marked.
fn mark(marks: &mut Vec<bool>, n: u32) -> Result<(), AllocError>
    ensures { OnOk result ((k : ℕ) → is_marked marks.new.items k ≡ (is_marked marks.old.items k || n == k)) }
{
    let i = n as usize;
    grow(marks, i + 1)?;
    marks[i] = true;
    Ok(())
}

/// Marks what the operands of an operation of this kind read.
fn mark_operands(
    marks: &mut Vec<bool>,
    in_register: bool,
    kind: &ExtKind,
    operands: &[Operand],
) -> Result<(), AllocError>
    ensures { OnOk result ((n : ℕ) → is_marked marks.new.items n ≡ (is_marked marks.old.items n
        || list_any (λ (x : Operand). first_of x.alts == n && is_asked in_register kind.now x) operands.now)) }
{
    for x in operands {
        if is_asked(in_register, kind, x) {
            mark(marks, first_of(x.alts.as_slice()))?;
        }
    }
    Ok(())
}

/// Marks what an operation reads in every solution.
fn mark_reads(marks: &mut Vec<bool>, in_register: bool, p: &Spot<'_>) -> Result<(), AllocError>
    ensures { OnOk result ((n : ℕ) → is_marked marks.new.items n
        ≡ (is_marked marks.old.items n || reads_value in_register n (place_of p.now))) }
{
    if p.it.kind.is_mandatory() {
        mark_operands(marks, in_register, &p.it.kind, p.it.operands.as_slice())?;
    }
    Ok(())
}

/// Marks of the values that these operations read in every solution.
fn reads_of(alloc: Global, in_register: bool, behind: &[Spot<'_>]) -> Result<Vec<bool>, AllocError>
    ensures { IfOk result (λ marks. MarksWhere (λ (n : ℕ). list_any (reads_value in_register n) (map place_of behind.now)) marks.items) }
{
    let mut marks = Vec::new(alloc);
    for p in behind {
        mark_reads(&mut marks, in_register, p)?;
    }
    Ok(marks)
}

/// The first value that operands read and that is not marked.
fn first_new(marks: &[bool], operands: &[Operand]) -> Option<u32>
    ensures { result ≡ first_new (is_marked marks.now) operands.now }
{
    for x in operands {
        let n = first_of(x.alts.as_slice());
        if !is_marked(marks, n) {
            return Some(n);
        }
    }
    None
}

/// Whether some result of an operation is marked.
fn gives_marked(marks: &[bool], results: &[TempId]) -> bool
    ensures { result ≡ list_any (λ (t : TempId). is_marked marks.now t.0) results.now }
{
    results.iter().any(|t| is_marked(marks, t.0))
}

/// The value for which an operation's result stands, where that is marked.
fn handed_by(marks: &[bool], p: &Spot<'_>) -> Option<u32>
    ensures { result ≡ handed_by (is_marked marks.now) (place_of p.now) }
{
    if gives_marked(marks, p.it.results.as_slice()) {
        first_new(marks, p.it.operands.as_slice())
    } else {
        None
    }
}

/// Marks it.
fn hand(marks: &mut Vec<bool>, p: &Spot<'_>) -> Result<(), AllocError>
    ensures { OnOk result ((n : ℕ) → is_marked marks.new.items n ≡ (is_marked marks.old.items n
        || list_any (λ (m : ℕ). m == n) (option_to_list (handed_by (is_marked marks.old.items) (place_of p.now))))) }
{
    match handed_by(marks.as_slice(), p) {
        None => Ok(()),
        Some(n) => mark(marks, n),
    }
}

/// Marks those of several operations, the last one first.
fn hand_all(marks: &mut Vec<bool>, loose: &[Spot<'_>]) -> Result<(), AllocError>
    ensures { OnOk result ((in_register : Bool) (behind : List Place)
        → MarksWhere (λ (n : ℕ). list_any (reads_value in_register n) behind) marks.old.items
        → MarksWhere (is_carried in_register behind (handed in_register behind (map place_of loose.now))) marks.new.items) }
{
    let mut j = loose.len();
    while j > 0 {
        j -= 1;
        hand(marks, &loose[j])?;
    }
    Ok(())
}

/// Marks of the values that are read by the operations behind a call, or for which a result of these others stands.
pub(crate) fn carried(
    alloc: Global,
    in_register: bool,
    behind: &[Spot<'_>],
    loose: &[Spot<'_>],
) -> Result<Vec<bool>, AllocError>
    ensures { IfOk result (λ marks. MarksWhere (is_carried in_register (map place_of behind.now)
        (handed in_register (map place_of behind.now) (map place_of loose.now))) marks.items) }
{
    let mut marks = reads_of(alloc, in_register, behind)?;
    hand_all(&mut marks, loose)?;
    Ok(marks)
}

/// How many of these values are marked.
pub(crate) fn marked_count(marks: &[bool], values: &[TempId]) -> usize
    ensures { result ≡ length (filter (λ (t : TempId). is_marked marks.now t.0) values.now) }
{
    values.iter().filter(|t| is_marked(marks, t.0)).count()
}
