//! From LLVM's text to the input language.

use crate::body::{Block, Body};
use crate::coalesce::coalesce;
use crate::edges::{Layout, parameters};
use crate::flow::{flow_of, order};
use crate::frequency::all_frequencies;
use crate::limits::{are_far_too_many, is_far_too_large, is_too_large};
use crate::lowering::Lowering;
use crate::print::print;
use crate::reuse::{reuse, used};
use crate::tidy::{drop_idle, hoist, join};
use std::alloc::Global;
use un_base::lines::lines;
use un_base::memory_error::NoMemory;
use un_base::name::Name;
use un_ir::function::NAMES;
use un_ir::text::{put_number, put_text};
use un_llvm::function::{BlockId, Function};
use un_llvm::module::{Module, function};
use un_llvm::refusal::{Missing, Refusal};

/// What comes of a text of LLVM's.
#[derive(Drop)]
pub enum Imported {
    /// The function in the input language.
    Function(Vec<u8>),
    /// A line that says what is missing, and where.
    Refused(Vec<u8>),
}

/// The operations of a block of LLVM's, and its end.
fn lower_block<'a>(
    low: &mut Lowering<'_, 'a>,
    layout: &mut Layout<'a>,
    place: BlockId,
) -> Result<(), Refusal<'a>> {
    let function = low.function;
    let Some(block) = function.blocks.get(place) else {
        return Ok(());
    };
    let mut at = place;
    for instruction in &block.instructions {
        at = layout.lower(low, place, at, instruction)?;
    }
    match block.instructions.last() {
        Some(last) => layout.end(low, place, at, last),
        None => Err(low.lacks(Missing::Form)),
    }
}

/// The operations of a function, with a copy on each way for each value that comes in by it.
fn lowered<'a>(alloc: Global, f: &Function<'a>) -> Result<Body<'a>, Refusal<'a>> {
    let flow = flow_of(alloc, f)?;
    let order = order(alloc, &flow)?;
    let frequencies = all_frequencies(alloc, &flow, order.as_slice())?;
    let mut low = Lowering::new(alloc, f)?;
    let mut layout = Layout::new(alloc, &low, flow, frequencies)?;
    let parameters = parameters(&mut low)?;
    for place in &order {
        lower_block(&mut low, &mut layout, *place)?;
    }
    for place in 0..layout.blocks.len() {
        if order.contains(&place) || place >= f.blocks.len() {
            layout.lead(&mut low, place)?;
        }
    }
    let blocks: Vec<Block<'a>> = layout.into_blocks();
    Ok(Body {
        names: low.into_names(),
        parameters,
        blocks,
    })
}

/// Makes a function's operations fewer.
fn improve(alloc: Global, body: &mut Body<'_>) -> Result<(), NoMemory> {
    join(alloc, body)?;
    drop_idle(alloc, body)?;
    coalesce(alloc, body)?;
    drop_idle(alloc, body)?;
    join(alloc, body)?;
    hoist(alloc, body)?;
    join(alloc, body)?;
    coalesce(alloc, body)?;
    reuse(alloc, body)
}

/// The text of a function of this name whose operations are made fewer first; none where it is larger than the language allows.
fn improved(alloc: Global, name: &[u8], body: &mut Body<'_>) -> Result<Option<Vec<u8>>, NoMemory> {
    improve(alloc, body)?;
    let names = used(alloc, body)?.len();
    let text = print(alloc, name, body)?;
    if names > NAMES as usize || is_too_large(text.as_slice()) {
        return Ok(None);
    }
    Ok(Some(text))
}

/// A function in the input language.
fn text_of<'a>(alloc: Global, f: &Function<'a>) -> Result<Vec<u8>, Refusal<'a>> {
    if Name::from_bytes(f.name).is_none() {
        return Err(Refusal::Lacks {
            line: f.line,
            missing: Missing::Name,
            word: f.name,
        });
    }
    let too_large = Refusal::Lacks {
        line: f.line,
        missing: Missing::Size,
        word: b"",
    };
    if are_far_too_many(f.blocks.len()) {
        return Err(too_large);
    }
    let mut body = lowered(alloc, f)?;
    if is_far_too_large(&body) {
        return Err(too_large);
    }
    let text = improved(alloc, f.name, &mut body)?;
    text.ok_or(too_large)
}

/// Appends a line of a text, as it stands there.
fn put_line(out: &mut Vec<u8>, text: &[u8], wanted: u32) -> Result<(), NoMemory> {
    let mut number: u32 = 0;
    for line in lines(text) {
        number = number.saturating_add(1);
        if number == wanted {
            put_text(out, b"  ")?;
            put_text(out, line.trim_ascii())?;
            put_text(out, b"\n")?;
        }
    }
    Ok(())
}

/// The lines that say what a line of a text has that is missing, and how that line is written.
fn refused(
    alloc: Global,
    text: &[u8],
    line: u32,
    missing: Missing,
    word: &[u8],
) -> Result<Imported, NoMemory> {
    let mut out = Vec::new(alloc);
    if line > 0 {
        put_text(&mut out, b"line ")?;
        put_number(&mut out, u64::from(line))?;
        put_text(&mut out, b": ")?;
    }
    put_text(&mut out, missing.text())?;
    if !word.is_empty() {
        put_text(&mut out, b": '")?;
        put_text(&mut out, word)?;
        put_text(&mut out, b"'")?;
    }
    put_text(&mut out, b"\n")?;
    put_line(&mut out, text, line)?;
    Ok(Imported::Refused(out))
}

/// The function of this name in LLVM's text, the first one where no name is given, in the input language.
///
/// # Errors
/// `NoMemory` where there is no memory for it.
pub fn import(alloc: Global, text: &[u8], wanted: Option<&[u8]>) -> Result<Imported, NoMemory> {
    let module = Module::new(alloc, text)?;
    match function(alloc, &module, wanted) {
        Ok(f) => match text_of(alloc, &f) {
            Ok(text) => Ok(Imported::Function(text)),
            Err(Refusal::NoMemory) => Err(NoMemory),
            Err(
                Refusal::Lacks {
                    line,
                    missing,
                    word,
                },
            ) => refused(alloc, text, line, missing, word),
        },
        Err(Refusal::NoMemory) => Err(NoMemory),
        Err(
            Refusal::Lacks {
                line,
                missing,
                word,
            },
        ) => refused(alloc, text, line, missing, word),
    }
}
