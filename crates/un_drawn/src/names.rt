//! What a temporary carries, by the source's name.

use crate::blocks::{Section, Sheet, operation};
use crate::pieces::put_place;
use un_base::ids::{NameId, TempId};
use un_base::memory_error::NoMemory;
use un_ir::extended::{ExtKind, ExtOp};
use un_ir::print::put_name;
use un_ir::text::put_text;
use un_model::model::{Model, TempVars};

/// What a value is for a reader of the source: one of a name, what the caller left in a register, or a call's result that no name
/// takes.
#[derive(Clone, Copy)]
pub enum Meaning {
    Named(NameId),
    Saved(u32),
    Unnamed,
}

/// The value at a place of those at a block's start: the names that are live there, and then the registers that a function keeps.
fn at_start(sheet: &Sheet<'_>, section: &Section<'_>, place: usize) -> Meaning {
    let names = section.block.live_in.as_slice();
    if let Some(name) = names.get(place) {
        return Meaning::Named(*name);
    }
    match sheet.saved.get(place.saturating_sub(names.len())) {
        Some(reg) => Meaning::Saved(*reg),
        None => Meaning::Unnamed,
    }
}

/// The place of a temporary among an operation's results, 0 where it is none of them.
fn place_in(op: &ExtOp, temp: TempId) -> usize {
    op.results
        .as_slice()
        .iter()
        .position(|t| *t == temp)
        .unwrap_or(0)
}

/// What a value is that an operation gives.
fn given(sheet: &Sheet<'_>, section: &Section<'_>, op: &ExtOp, value: TempId) -> Meaning {
    match &op.kind {
        ExtKind::In => at_start(sheet, section, place_in(op, value)),
        ExtKind::Body(source) => match source.dst {
            Some(name) => Meaning::Named(name),
            None => Meaning::Unnamed,
        },
        _ => Meaning::Unnamed,
    }
}

/// The temporary of a number, with what the model knows of it.
fn vars_of(m: &Model, temp: TempId) -> Option<TempVars> {
    m.temps.as_slice().get(temp.0 as usize).copied()
}

/// What a temporary of a block carries, where there is such a temporary.
fn carried(sheet: &Sheet<'_>, section: &Section<'_>, temp: TempId) -> Option<Meaning> {
    let vars = vars_of(sheet.m, temp)?;
    let own = vars_of(sheet.m, vars.value)?;
    let op = operation(section, own.op)?;
    Some(given(sheet, section, op, vars.value))
}

/// What a temporary of a block carries.
pub(crate) fn meaning_of(sheet: &Sheet<'_>, section: &Section<'_>, temp: TempId) -> Meaning {
    carried(sheet, section, temp).unwrap_or(Meaning::Unnamed)
}

/// Appends what a value is, in few bytes.
pub(crate) fn put_meaning(
    out: &mut Vec<u8>,
    sheet: &Sheet<'_>,
    meaning: Meaning,
) -> Result<(), NoMemory> {
    match meaning {
        Meaning::Named(name) => put_name(out, sheet.names, name),
        Meaning::Saved(reg) => put_place(out, reg),
        Meaning::Unnamed => put_text(out, b"*"),
    }
}

/// Appends what a value is, in words.
pub(crate) fn put_meaning_in_words(
    out: &mut Vec<u8>,
    sheet: &Sheet<'_>,
    meaning: Meaning,
) -> Result<(), NoMemory> {
    match meaning {
        Meaning::Named(_) => put_meaning(out, sheet, meaning),
        Meaning::Saved(_) => {
            put_text(out, b"the saved ")?;
            put_meaning(out, sheet, meaning)
        }
        Meaning::Unnamed => put_text(out, b"a call's result"),
    }
}
