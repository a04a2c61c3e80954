//! A function of a module, by its name.

use crate::cursor::Cursor;
use crate::function::{Action, Block, Function, Instruction, Parameter};
use crate::instructions::{Read, instruction};
use crate::lists::push;
use crate::places::{Scope, attributes};
use crate::refusal::{Missing, Refusal};
use crate::statements::{Span, Statements, read_statements};
use crate::token::{Token, number_of};
use crate::types::Types;
use std::alloc::Global;
use un_base::memory_error::NoMemory;

/// A module in statements.
#[derive(Drop)]
pub struct Module<'a> {
    statements: Statements<'a>,
}

/// Where a function stands among the statements of a module, and its name.
#[derive(Clone, Copy)]
struct Found<'a> {
    name: &'a [u8],
    /// The place of its first line.
    at: usize,
}

/// What stands before the name of a block that has no label of its own: so many values without names.
static LABELS: [&[u8]; 7] = [b"0", b"1", b"2", b"3", b"4", b"5", b"6"];

impl<'a> Module<'a> {
    /// The module of a text.
    pub fn new(alloc: Global, text: &'a [u8]) -> Result<Module<'a>, NoMemory> {
        let statements = read_statements(alloc, text)?;
        Ok(Module { statements })
    }

    /// The tokens of a statement.
    fn cursor(&self, span: &Span<'a>) -> Cursor<'_, 'a> {
        let tokens = self.statements.tokens.as_slice();
        let (_, rest) = tokens.split_at(span.start.min(tokens.len()));
        let len = span.end.saturating_sub(span.start);
        let (inside, _) = rest.split_at(len.min(rest.len()));
        Cursor {
            line: span.line,
            tokens: inside,
            taken: 0,
        }
    }
}

/// The name of the function that a statement defines.
fn defined<'a>(cursor: &Cursor<'_, 'a>) -> Option<&'a [u8]> {
    let mut cursor = *cursor;
    if !cursor.takes_word(b"define") {
        return None;
    }
    for _ in 0..cursor.left() {
        if let Some(Token::Global(name)) = cursor.take() {
            return Some(name);
        }
    }
    None
}

/// The function of this name, or the first one.
fn function_named<'a>(module: &Module<'a>, wanted: Option<&[u8]>) -> Option<Found<'a>> {
    for (at, span) in module.statements.spans.iter().enumerate() {
        if let Some(name) = defined(&module.cursor(span))
            && wanted.is_none_or(|w| w == name)
        {
            return Some(Found { name, at });
        }
    }
    None
}

/// How deep types are named within one another at most. (A type within another one may have its line behind that one's.)
const DEPTH: u32 = 8;

/// Reads the lines of a module that name types. What stands in a line that is not read is not known.
fn name_types<'a>(module: &Module<'a>, types: &mut Types<'a>) -> Result<(), NoMemory> {
    for span in module.statements.spans.iter() {
        let mut cursor = module.cursor(span);
        let Some(Token::Local(name)) = cursor.take() else {
            continue;
        };
        if cursor.takes_mark(b'=') && cursor.takes_word(b"type") {
            match types.read(&mut cursor) {
                Ok(kind) => types.define(name, kind)?,
                Err(Refusal::NoMemory) => return Err(NoMemory),
                Err(_) => {}
            }
        }
    }
    Ok(())
}

/// The types that the lines of a module name.
fn types<'a>(alloc: Global, module: &Module<'a>) -> Result<Types<'a>, NoMemory> {
    let mut types = Types::new(alloc);
    for _ in 0..DEPTH {
        name_types(module, &mut types)?;
    }
    Ok(types)
}

/// The statements of a function behind its first line, and not its last one, which is a bracket.
fn body<'m, 'a>(module: &'m Module<'a>, found: &Found<'a>) -> &'m [Span<'a>] {
    let spans = module.statements.spans.as_slice();
    let (_, rest) = spans.split_at(found.at.saturating_add(1).min(spans.len()));
    let end = rest.iter().position(|span| {
        let cursor = module.cursor(span);
        matches!(cursor.peek(), Some(Token::Mark(b'}')))
    });
    let (inside, _) = rest.split_at(end.unwrap_or(rest.len()).min(rest.len()));
    inside
}

/// A parameter: its type, words, and its name.
fn parameter<'a>(
    scope: &mut Scope<'a>,
    cursor: &mut Cursor<'_, 'a>,
) -> Result<Parameter, Refusal<'a>> {
    let width = scope.types.read_width(cursor)?;
    let _ = attributes(cursor);
    match cursor.take() {
        Some(Token::Local(name)) => Ok(Parameter {
            name: scope.name(name)?,
            width,
        }),
        Some(Token::Word(word)) => Err(cursor.lacks_word(Missing::Form, word)),
        _ => Err(cursor.lacks(Missing::Form)),
    }
}

/// The parameters of a function, behind the bracket before them.
fn parameters<'a>(
    scope: &mut Scope<'a>,
    cursor: &mut Cursor<'_, 'a>,
) -> Result<Vec<Parameter>, Refusal<'a>> {
    let mut found = Vec::new(scope.alloc);
    if cursor.takes_mark(b')') {
        return Ok(found);
    }
    for _ in 0..cursor.left() {
        let parameter = parameter(scope, cursor)?;
        push(&mut found, parameter)?;
        if !cursor.takes_mark(b',') {
            break;
        }
    }
    if found.len() > 6 {
        return Err(cursor.lacks(Missing::Arguments));
    }
    Ok(found)
}

/// What a function gives.
#[derive(Clone, Copy)]
struct ResultShape {
    width: u32,
    signed: bool,
}

/// What a function gives whose first line this is; what stands before its parameters is taken.
fn given<'a>(
    scope: &mut Scope<'a>,
    cursor: &mut Cursor<'_, 'a>,
) -> Result<ResultShape, Refusal<'a>> {
    let mut signed = false;
    for _ in 0..cursor.left() {
        let mut ahead = *cursor;
        if let Ok(width) = scope.types.read_width(&mut ahead)
            && let Some(Token::Global(_)) = ahead.take()
        {
            cursor.taken = ahead.taken;
            cursor.mark(b'(')?;
            return Ok(ResultShape { width, signed });
        }
        if cursor.takes_word(b"signext") {
            signed = true;
        } else {
            let _ = cursor.take();
        }
    }
    Err(cursor.lacks(Missing::Result))
}

/// The label of a first block that has none: the number of the parameters without names.
fn first_label(scope: &Scope<'_>) -> &'static [u8] {
    let mut count: usize = 0;
    for name in &scope.names {
        if number_of(name).is_some() {
            count = count.saturating_add(1);
        }
    }
    LABELS.get(count).copied().unwrap_or(b"0")
}

/// The labels of a function's blocks.
fn labels<'a>(
    alloc: Global,
    first: &'a [u8],
    body: &[Span<'a>],
) -> Result<Vec<&'a [u8]>, NoMemory> {
    let mut found: Vec<&'a [u8]> = Vec::new(alloc);
    if let Some(span) = body.first()
        && span.label.is_none()
    {
        push(&mut found, first)?;
    }
    for span in body {
        if let Some(label) = span.label {
            push(&mut found, label)?;
        }
    }
    Ok(found)
}

/// The weights that a line of this name tells.
fn weights<'a>(module: &Module<'a>, name: &[u8]) -> Option<(u32, u32)> {
    for span in module.statements.spans.iter() {
        let mut cursor = module.cursor(span);
        match cursor.take() {
            Some(Token::Metadata(n)) if n == name => {}
            _ => continue,
        }
        if cursor.takes_mark(b'=') {
            return two_numbers(&cursor);
        }
    }
    None
}

/// Whether a text says that numbers behind it are weights, or that they come from what is expected.
fn is_of_weights(text: &[u8]) -> bool {
    text == b"branch_weights".as_slice() || text == b"expected".as_slice()
}

/// The first two numbers of a line that are weights.
fn two_numbers(cursor: &Cursor<'_, '_>) -> Option<(u32, u32)> {
    let mut first: Option<u32> = None;
    for token in cursor.tokens {
        match (token, first) {
            (Token::Text(text), _) if !is_of_weights(text) => return None,
            (Token::Number(number), None) => first = u32::try_from(*number).ok(),
            (Token::Number(number), Some(first)) => {
                return Some((first, u32::try_from(*number).ok()?));
            }
            _ => {}
        }
    }
    None
}

/// An instruction with the weights that it names.
fn weighted<'a>(module: &Module<'a>, read: Read<'a>) -> Instruction<'a> {
    let Read {
        mut instruction,
        weights: name,
    } = read;
    if let Action::Branch(branch) = &mut instruction.action
        && let Some(name) = name
    {
        branch.weights = weights(module, name);
    }
    instruction
}

/// Adds an instruction to the last block.
fn add_instruction<'a>(
    blocks: &mut Vec<Block<'a>>,
    instruction: Instruction<'a>,
) -> Result<(), NoMemory> {
    let Some(
        Block {
            label,
            mut instructions,
        },
    ) = blocks.pop()
    else {
        return Ok(());
    };
    push(&mut instructions, instruction)?;
    let block = Block {
        label,
        instructions,
    };
    push(blocks, block)
}

/// Adds a statement to the blocks: a block, or an instruction of the last one.
fn add_statement<'a>(
    module: &Module<'a>,
    scope: &mut Scope<'a>,
    blocks: &mut Vec<Block<'a>>,
    span: &Span<'a>,
) -> Result<(), Refusal<'a>> {
    let label = match (span.label, blocks.is_empty()) {
        (Some(label), _) => Some(label),
        (None, true) => scope.labels.first().copied(),
        (None, false) => None,
    };
    if let Some(label) = label {
        let instructions = Vec::new(scope.alloc);
        let block = Block {
            label,
            instructions,
        };
        push(blocks, block)?;
    }
    if span.label.is_some() {
        return Ok(());
    }
    let Some(read) = instruction(scope, &mut module.cursor(span))? else {
        return Ok(());
    };
    add_instruction(blocks, weighted(module, read))?;
    Ok(())
}

/// The blocks of a function.
fn blocks<'a>(
    module: &Module<'a>,
    scope: &mut Scope<'a>,
    body: &[Span<'a>],
) -> Result<Vec<Block<'a>>, Refusal<'a>> {
    let mut blocks = Vec::new(scope.alloc);
    for span in body {
        add_statement(module, scope, &mut blocks, span)?;
    }
    Ok(blocks)
}

/// The function of this name in a module, or the first one where no name is given.
///
/// # Errors
/// What is missing, with its line; `NoMemory`.
pub fn function<'a>(
    alloc: Global,
    module: &Module<'a>,
    wanted: Option<&[u8]>,
) -> Result<Function<'a>, Refusal<'a>> {
    let nowhere = Refusal::Lacks {
        line: 0,
        missing: Missing::Function,
        word: b"",
    };
    let Some(found) = function_named(module, wanted) else {
        return Err(nowhere);
    };
    let Some(span) = module.statements.spans.get(found.at) else {
        return Err(nowhere);
    };
    let mut scope = Scope::new(alloc, types(alloc, module)?, Vec::new(alloc));
    let mut cursor = module.cursor(span);
    let given = given(&mut scope, &mut cursor)?;
    let parameters = parameters(&mut scope, &mut cursor)?;
    let body = body(module, &found);
    let first = first_label(&scope);
    let labels = labels(alloc, first, body)?;
    scope.labels = labels;
    let blocks = blocks(module, &mut scope, body)?;
    let Scope { names, .. } = scope;
    Ok(Function {
        name: found.name,
        line: span.line,
        parameters,
        gives: given.width,
        signed: given.signed,
        names,
        blocks,
    })
}
