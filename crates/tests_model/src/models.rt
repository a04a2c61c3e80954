//! What is so of the models of functions. Between two `|` stands a row: a function, `^` and values of the variables of its model, `?`, a
//! question, `:` and the answer. `&` is the function and the values of the row before, and a row that begins with `#` is a comment. A
//! question begins with its letter.

ghost use Rattle.std.specs.Prelude.{IfOk, IsTrue, All};
ghost use Rattle.un_bound.specs.Arcs.{IsShort};
ghost use Rattle.un_ir.specs.Extended.{IsExtended};
ghost use Rattle.un_isa.specs.Fit.{IsFit};
ghost use Rattle.un_model.specs.Options.{AreOptions};
ghost use Rattle.un_model.specs.Variables.{IsModel};

use crate::broken::BROKEN;
use crate::carriers::CARRIERS;
use crate::compactions::COMPACTIONS;
use crate::merges::MERGES;
use crate::orders::ORDERS;
use crate::relaxed::relaxed;
use crate::symmetry::SYMMETRY;
use crate::ways::WAYS;
use crate::words::{cut, number, number_at};
use std::alloc::Global;
use un_base::ids::{BlockId, TempId};
use un_base::memory_error::NoMemory;
use un_bound::plain::{is_short, plain_bound};
use un_bound::relax::RelaxAnswer;
use un_compact::compact::compact;
use un_ir::text::{put_number, put_text};
use un_isa::reg::{Reg, SLOTS};
use un_isa::table::hexagon;
use un_lists::items::Items;
use un_merges::merges::without_merges;
use un_model::cost::value;
use un_model::model::{ASSIGNABLE, Arc, Model, Options, Solution};
use un_model::verdict::Broken;
use un_press::carrier::{carrier, crosses};
use un_problem::problem::{default_options, model};
use un_reader::read::read_function;
use un_symm::exchange::exchange;
use un_symm::interchangeable::interchangeable;
use un_violations::violations::{loose_violations, violations};

/// Options with so many general registers and slots; all registers and the most slots where there are none of so many.
fn options_by(regs: u32, slots: u32) -> Options
    ensures { AreOptions result }
{
    let regs = if regs >= 1 && regs <= ASSIGNABLE {
        Some(regs)
    } else {
        None
    };
    Options {
        regs,
        slots: slots.min(SLOTS),
    }
}

/// The options of a question, which one about registers names behind the registers.
fn options_of(question: &[u8]) -> Options
    ensures { AreOptions result }
{
    match question.first() {
        Some(b'i') => options_by(number_at(question, 3), number_at(question, 4)),
        Some(b'x') => options_by(number_at(question, 3), number_at(question, 4)),
        _ => default_options(),
    }
}

/// The model of the function that a text is, under these options.
fn model_of(alloc: Global, function: &[u8], options: &Options) -> Result<Model, NoMemory>
    requires { AreOptions options.now }
    ensures model { IfOk result IsModel }
    ensures extended { IfOk result (λ m. IsExtended m.ext) }
    ensures fit { IfOk result (λ m. IsFit m.ext.table) }
    ensures options { IfOk result (λ m. AreOptions m.options) }
{
    let Ok(f) = read_function(alloc, function) else {
        return Err(NoMemory);
    };
    model(alloc, &f, &hexagon(), options)
}

/// The numbers of a text, between spaces and at the ends of lines.
fn numbers(alloc: Global, text: &[u8]) -> Result<Items<u32>, NoMemory> {
    let mut list = Items::new(alloc);
    for word in text.split(|b| *b == b' ' || *b == b'\n') {
        if !word.is_empty() {
            list.push(number(word))?;
        }
    }
    Ok(list)
}

/// Puts other values at the places of a question.
fn change(values: &mut Items<u32>, question: &[u8]) {
    for word in question.split(|b| *b == b' ') {
        let (place, value) = cut(word, b'=');
        let place = number(place) as usize;
        if place < values.len() && !value.is_empty() {
            values.set(place, number(value));
        }
    }
}

/// Appends the numbers of broken clauses, each behind a space.
fn put_clauses(out: &mut Vec<u8>, found: &[Broken]) -> Result<(), NoMemory> {
    for broken in found {
        put_text(out, b" ")?;
        put_number(out, u64::from(broken.clause))?;
    }
    Ok(())
}

/// Appends the clauses that values break.
fn put_broken(alloc: Global, out: &mut Vec<u8>, m: &Model, s: &Solution) -> Result<(), NoMemory>
    requires { IsModel m.now }
{
    let found = violations(alloc, m, s)?;
    put_clauses(out, found.as_slice())
}

/// Appends the clauses that the values of a row break where some are those of the question.
fn put_changed(
    alloc: Global,
    out: &mut Vec<u8>,
    m: &Model,
    values: &[u8],
    question: &[u8],
) -> Result<(), NoMemory>
    requires { IsModel m.now }
{
    let mut values = numbers(alloc, values)?;
    change(&mut values, question);
    put_broken(alloc, out, m, &Solution { values })
}

/// Appends the line of a precedence: the earlier operation, the later one and the gap.
fn put_arc(out: &mut Vec<u8>, arc: &Arc) -> Result<(), NoMemory> {
    put_number(out, u64::from(arc.from.0))?;
    put_text(out, b" ")?;
    put_number(out, u64::from(arc.to.0))?;
    put_text(out, b" ")?;
    put_number(out, u64::from(arc.gap))?;
    put_text(out, b"\n")
}

/// Appends the precedences of a block.
fn put_arcs(out: &mut Vec<u8>, m: &Model, block: u32) -> Result<(), NoMemory> {
    if block as usize >= m.arcs.len() {
        return put_text(out, b"no block");
    }
    for arc in m.arcs(BlockId(block)) {
        put_arc(out, arc)?;
    }
    Ok(())
}

/// Appends the bound that knows no domain.
fn put_bound(out: &mut Vec<u8>, m: &Model) -> Result<(), NoMemory>
    requires model { IsModel m.now }
    requires extended { IsExtended m.now.ext }
    requires fit { IsFit m.now.ext.table }
{
    if is_short(m) {
        put_number(out, plain_bound(m))
    } else {
        put_text(out, b"long")
    }
}

/// Appends the least cost of the relaxation where the end of the block of a question is at most so much.
fn put_relaxed(alloc: Global, out: &mut Vec<u8>, m: &Model, question: &[u8]) -> Result<(), NoMemory>
    requires model { IsModel m.now }
    requires extended { IsExtended m.now.ext }
    requires fit { IsFit m.now.ext.table }
{
    let Some(block) = m.blocks.as_slice().get(number_at(question, 1) as usize) else {
        return put_text(out, b"no block");
    };
    if !is_short(m) {
        return put_text(out, b"long");
    }
    match relaxed(alloc, m, block.end.0, number_at(question, 2))? {
        RelaxAnswer::Empty => put_text(out, b"empty"),
        RelaxAnswer::Least(n) => put_number(out, n),
    }
}

/// Whether the first block ends as early as a question says.
fn ends_by(m: &Model, s: &Solution, question: &[u8]) -> bool {
    match m.blocks.as_slice().first() {
        Some(block) => value(s.values.as_slice(), block.end) <= number_at(question, 1),
        None => false,
    }
}

/// Appends whether the first block of a solution ends as early as a question says, once merges are taken.
fn put_merged(
    alloc: Global,
    out: &mut Vec<u8>,
    m: &Model,
    values: &[u8],
    question: &[u8],
) -> Result<(), NoMemory>
    requires model { IsModel m.now }
{
    let values = numbers(alloc, values)?;
    let s = Solution { values };
    if !violations(alloc, m, &s)?.is_empty() {
        return put_text(out, b"no solution");
    }
    let merged = without_merges(alloc, m, s)?;
    put_text(
        out,
        if ends_by(m, &merged, question) {
            b"yes".as_slice()
        } else {
            b"no".as_slice()
        },
    )
}

/// Appends the clauses that values break as a schedule of any length.
fn put_loose(alloc: Global, out: &mut Vec<u8>, m: &Model, values: &[u8]) -> Result<(), NoMemory>
    requires model { IsModel m.now }
{
    let values = numbers(alloc, values)?;
    let found = loose_violations(alloc, m, &Solution { values })?;
    put_clauses(out, found.as_slice())
}

/// Appends the places at which two lists differ, each with the number of the second.
fn put_changes(out: &mut Vec<u8>, old: &[u32], new: &[u32]) -> Result<(), NoMemory> {
    for k in 0..old.len().min(new.len()) {
        if old[k] != new[k] {
            put_text(out, b" ")?;
            put_number(out, k as u64)?;
            put_text(out, b"=")?;
            put_number(out, u64::from(new[k]))?;
        }
    }
    Ok(())
}

/// Appends what compacting changes of the values of a schedule of any length.
fn put_compacted(alloc: Global, out: &mut Vec<u8>, m: &Model, values: &[u8]) -> Result<(), NoMemory>
    requires model { IsModel m.now }
    requires extended { IsExtended m.now.ext }
    requires fit { IsFit m.now.ext.table }
{
    let values = numbers(alloc, values)?;
    let s = Solution { values };
    if !loose_violations(alloc, m, &s)?.is_empty() {
        return put_text(out, b"no schedule");
    }
    let new = compact(alloc, m, &s)?;
    put_changes(out, s.values.as_slice(), new.values.as_slice())
}

/// Appends whether the registers of a question are interchangeable.
fn put_alike(out: &mut Vec<u8>, m: &Model, question: &[u8]) -> Result<(), NoMemory> {
    let (a, b) = (Reg(number_at(question, 1)), Reg(number_at(question, 2)));
    put_text(
        out,
        if interchangeable(m, a, b) {
            b"yes".as_slice()
        } else {
            b"no".as_slice()
        },
    )
}

/// Appends what an exchange of the registers of a question changes of the values of a solution.
fn put_exchanged(
    alloc: Global,
    out: &mut Vec<u8>,
    m: &Model,
    values: &[u8],
    question: &[u8],
) -> Result<(), NoMemory>
    requires model { IsModel m.now }
{
    let values = numbers(alloc, values)?;
    let s = Solution { values };
    if !violations(alloc, m, &s)?.is_empty() {
        return put_text(out, b"no solution");
    }
    let (a, b) = (Reg(number_at(question, 1)), Reg(number_at(question, 2)));
    if !interchangeable(m, a, b) {
        return put_text(out, b"not alike");
    }
    let new = exchange(alloc, m, &s, a, b)?;
    put_changes(out, s.values.as_slice(), new.values.as_slice())
}

/// Appends the temporary that carries a value in a cycle of a solution.
fn put_carrier(
    alloc: Global,
    out: &mut Vec<u8>,
    m: &Model,
    values: &[u8],
    question: &[u8],
) -> Result<(), NoMemory>
    requires model { IsModel m.now }
    requires extended { IsExtended m.now.ext }
    requires fit { IsFit m.now.ext.table }
    requires options { AreOptions m.now.options }
{
    let values = numbers(alloc, values)?;
    let s = Solution { values };
    if !violations(alloc, m, &s)?.is_empty() {
        return put_text(out, b"no solution");
    }
    let x = TempId(number_at(question, 1));
    let t = number_at(question, 2);
    if !crosses(m, &s, x, t) {
        return put_text(out, b"none");
    }
    put_number(out, u64::from(carrier(m, &s, x, t).0))
}

/// Appends the answer to a question about a model and values of its variables.
fn put_answer(
    alloc: Global,
    out: &mut Vec<u8>,
    m: &Model,
    values: &[u8],
    question: &[u8],
) -> Result<(), NoMemory>
    requires model { IsModel m.now }
    requires extended { IsExtended m.now.ext }
    requires fit { IsFit m.now.ext.table }
    requires options { AreOptions m.now.options }
{
    match question.first() {
        Some(b'a') => put_arcs(out, m, number_at(question, 1)),
        Some(b'b') => put_bound(out, m),
        Some(b'r') => put_relaxed(alloc, out, m, question),
        Some(b'm') => put_merged(alloc, out, m, values, question),
        Some(b'l') => put_loose(alloc, out, m, values),
        Some(b'c') => put_compacted(alloc, out, m, values),
        Some(b'k') => put_carrier(alloc, out, m, values, question),
        Some(b'i') => put_alike(out, m, question),
        Some(b'x') => put_exchanged(alloc, out, m, values, question),
        _ => put_changed(alloc, out, m, values, question),
    }
}

/// Whether a model has the answer of a section.
fn has_answer(alloc: Global, m: &Model, values: &[u8], section: &[u8]) -> Result<bool, NoMemory>
    requires model { IsModel m.now }
    requires extended { IsExtended m.now.ext }
    requires fit { IsFit m.now.ext.table }
    requires options { AreOptions m.now.options }
{
    let (question, answer) = cut(section, b':');
    let mut out = Vec::new(alloc);
    put_answer(alloc, &mut out, m, values, question)?;
    Ok(out.as_slice() == answer)
}

/// The same for the model of a row.
fn is_answered(alloc: Global, text: &[u8], section: &[u8]) -> Result<bool, NoMemory> {
    let (function, values) = cut(text, b'^');
    let (question, _) = cut(section, b':');
    let m = model_of(alloc, function, &options_of(question))?;
    has_answer(alloc, &m, values, section)
}

/// Whether each row has its answer.
fn all_answered(alloc: Global, rows: &[u8]) -> Result<bool, NoMemory> {
    let mut text: &[u8] = &[];
    for row in rows.split(|b| *b == b'|') {
        let (own, section) = cut(row, b'?');
        if own.starts_with(b"#") {
            continue;
        }
        if own != b"&".as_slice() {
            text = own;
        }
        if !is_answered(alloc, text, section)? {
            return Ok(false);
        }
    }
    Ok(true)
}

#[test]
fn answers_of_models(rt: HostRuntime) {
    let broken = matches!(all_answered(rt.alloc(), BROKEN), Ok(true));
    let ways = matches!(all_answered(rt.alloc(), WAYS), Ok(true));
    let orders = matches!(all_answered(rt.alloc(), ORDERS), Ok(true));
    let merges = matches!(all_answered(rt.alloc(), MERGES), Ok(true));
    let carriers = matches!(all_answered(rt.alloc(), CARRIERS), Ok(true));
    let compactions = matches!(all_answered(rt.alloc(), COMPACTIONS), Ok(true));
    let symmetry = matches!(all_answered(rt.alloc(), SYMMETRY), Ok(true));
    assert!(rt; broken && ways && orders && merges && carriers && compactions && symmetry);
}
