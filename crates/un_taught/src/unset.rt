//! A name that may be used before it is assigned, and the line of such a use.

use crate::blocks::{block_named, target_on, term_on};
use crate::lesson::{Lesson, at_word, told, whole};
use crate::row::Row;
use crate::word::{Word, as_shown};
use std::alloc::Global;
use un_base::memory_error::NoMemory;
use un_base::name::Name;
use un_faults::before::same_name;
use un_ir::function::{BLOCKS, Kind};
use un_words::line::{Line, TermLine};
use un_words::token::Token;

/// What a line does to a name first.
#[derive(Clone, Copy)]
enum Step {
    Uses,
    Assigns,
    Neither,
}

/// Whether a list has the name.
fn has(names: &[(Name, Kind)], name: &(Name, Kind)) -> bool {
    names.iter().any(|other| same_name(name, other))
}

/// What a line does to a name first: an operation reads before it assigns.
fn step_of(row: &Row<'_>, name: &(Name, Kind)) -> Step {
    match &row.line {
        Some(Line::Func { params, .. }) if has(params.as_slice(), name) => Step::Assigns,
        Some(Line::Operation(o)) if has(o.srcs.as_slice(), name) => Step::Uses,
        Some(Line::Operation(o)) => match &o.dst {
            Some(dst) if same_name(name, dst) => Step::Assigns,
            _ => Step::Neither,
        },
        Some(Line::Terminator(TermLine::Branch { pred, .. })) if same_name(name, pred) =>
            Step::Uses,
        Some(Line::Terminator(TermLine::Ret(Some(value)))) if same_name(name, value) => Step::Uses,
        _ => Step::Neither,
    }
}

/// Whether the code goes on at the line behind this one.
fn goes_on(row: &Row<'_>) -> bool {
    !matches!(term_on(row), Some(TermLine::Jump(_) | TermLine::Ret(_)))
}

/// What is known on the way through a text of one name: the lines that may be reached while it is not assigned.
#[derive(Drop)]
struct Reached {
    /// Whether the line at each place may be.
    lines: Vec<bool>,
    /// Whether something was added in this pass.
    changed: bool,
}

impl Reached {
    /// Whether the line at a place may be reached so.
    fn is_at(&self, place: usize) -> bool {
        self.lines.get(place).copied().unwrap_or(false)
    }

    /// Adds the line at a place.
    fn add(&mut self, place: usize) {
        if let Some(mark) = self.lines.get_mut(place) {
            if !*mark {
                *mark = true;
                self.changed = true;
            }
        }
    }
}

/// Goes from a line that may be reached to those behind it, where it does nothing to the name.
fn follow(rows: &[Row<'_>], reached: &mut Reached, row: &Row<'_>, name: &(Name, Kind)) {
    if !reached.is_at(row.number.saturating_sub(1))
        || !matches!(step_of(row, name), Step::Neither)
    {
        return;
    }
    if goes_on(row) {
        reached.add(row.number);
    }
    if let Some(label) = target_on(row) {
        if let Some(block) = block_named(rows, &label) {
            reached.add(block.number.saturating_sub(1));
        }
    }
}

/// The lines of a text that may be reached while the name is not assigned: a pass finds all that stand behind a jump, so there are
/// as many passes as blocks.
fn reached_lines(
    alloc: Global,
    rows: &[Row<'_>],
    name: &(Name, Kind),
) -> Result<Reached, NoMemory> {
    let lines = vec![in alloc; false; rows.len()]?;
    let mut reached = Reached {
        lines,
        changed: false,
    };
    reached.add(0);
    for _pass in 0..BLOCKS {
        reached.changed = false;
        for row in rows {
            follow(rows, &mut reached, row, name);
        }
        if !reached.changed {
            return Ok(reached);
        }
    }
    Ok(reached)
}

/// The name that a word is.
fn name_in(word: &Word<'_>) -> Option<(Name, Kind)> {
    match word.form {
        Token::Named(name) => Some(name),
        Token::Negated(name) => Some(name),
        _ => None,
    }
}

/// Whether a line uses a name which may not be assigned there.
fn is_unset(
    alloc: Global,
    rows: &[Row<'_>],
    row: &Row<'_>,
    name: &(Name, Kind),
) -> Result<bool, NoMemory> {
    if !matches!(step_of(row, name), Step::Uses) {
        return Ok(false);
    }
    let reached = reached_lines(alloc, rows, name)?;
    Ok(reached.is_at(row.number.saturating_sub(1)))
}

/// The place of the last word of a line that uses a name which may not be assigned there, with the name.
fn unset_word(
    alloc: Global,
    rows: &[Row<'_>],
    row: &Row<'_>,
) -> Result<Option<(usize, (Name, Kind))>, NoMemory> {
    let mut last = None;
    for (place, word) in row.words().iter().enumerate() {
        if let Some(name) = name_in(word) {
            if is_unset(alloc, rows, row, &name)? {
                last = Some((place, name));
            }
        }
    }
    Ok(last)
}

/// What is said of the use of a name of this kind, which is the word at a place.
fn use_lesson(
    alloc: Global,
    row: &Row<'_>,
    place: usize,
    name: &(Name, Kind),
) -> Result<Lesson, NoMemory> {
    let shown = as_shown(&name.0);
    let place = at_word(row, place);
    match name.1 {
        Kind::General => {
            let wrong = format!(in alloc;
                "`%{shown}` is used here, and on a way to this line it is not assigned"
            );
            let help = format!(in alloc;
                "assign it on each way from the entry, as by `%{shown} = imm #0`, or make it a parameter"
            );
            told(place, wrong, help)
        }
        Kind::Pred => {
            let wrong = format!(in alloc;
                "`${shown}` is used here, and on a way to this line it is not assigned"
            );
            let help = format!(in alloc;
                "assign it on each way from the entry by a comparison, as `${shown} = cmpgti %a, #0`"
            );
            told(place, wrong, help)
        }
    }
}

/// What is said of a name that may be used before it is assigned: of the first line with such a use.
pub(crate) fn unset_lesson(
    alloc: Global,
    rows: &[Row<'_>],
    entry: &Row<'_>,
) -> Result<Lesson, NoMemory> {
    for row in rows {
        if let Some((place, name)) = unset_word(alloc, rows, row)? {
            return use_lesson(alloc, row, place, &name);
        }
    }
    let wrong = format!(in alloc; "a name that is no parameter may be used before it is assigned");
    told(
        whole(entry),
        wrong,
        format!(in alloc; "assign each name on each way from the entry to a use"),
    )
}
