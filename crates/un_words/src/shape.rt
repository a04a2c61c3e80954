//! The shapes of a line.

ghost use Rattle.std.specs.Prelude.{◌≡◌, ◌==◌, ◌&&◌, codes, IfOk, drop, slice_get, false};
ghost use Rattle.std.specs.Option.{option_and_then, option_map_or};
ghost use Rattle.std.specs.Str.{bytes_eq};
ghost use Rattle.un_words.specs.Shapes.{is_slot, word_at, text_ops, op_named, slots_of, result_fits, operands_fit, callee_of, op_line_of};
ghost use Rattle.un_words.specs.Shapes.{op_shape, operation_shape, func_shape, block_shape, jump_shape, branch_shape, return_shape};
ghost use Rattle.un_words.specs.Shapes.{assigned_shape, head_word, head_of, shape_by, shape_of};

use crate::forms::{
    are_names, condition_at, from_place, have_forms, is_list, is_slot, is_text, is_word_at,
    literal_at, name_at, names_at, plain_at, word_at,
};
use crate::line::{Line, OpLine, TermLine};
use crate::slot::{Head, Slot};
use crate::token::Token;
use std::alloc::Global;
use un_base::memory_error::NoMemory;
use un_base::name::Name;
use un_ir::function::Kind;
use un_isa::does::is_call;
use un_isa::facts::{result_space, source_name};
use un_isa::op::Op;

/// The operations that a text may have.
const TEXT_OPS: [Op; 23] = [
    Op::Imm,
    Op::Mov,
    Op::Add,
    Op::Sub,
    Op::And,
    Op::Or,
    Op::Xor,
    Op::Addi,
    Op::Andi,
    Op::Ori,
    Op::Mux,
    Op::CmpEq,
    Op::CmpGt,
    Op::CmpGtu,
    Op::CmpEqi,
    Op::CmpGti,
    Op::Mpyi,
    Op::Asl,
    Op::Asr,
    Op::Lsr,
    Op::Load,
    Op::Store,
    Op::Call,
];

/// A name, a comma and a literal.
const NAME_LITERAL: &[Slot] = &[Slot::Named, Slot::Comma, Slot::Literal];

/// A name, a comma and a name.
const TWO_NAMES: &[Slot] = &[Slot::Named, Slot::Comma, Slot::Named];

/// The operation with this word.
fn op_named(word: &[u8]) -> Option<Op>
    ensures { result ≡ op_named word.now }
{
    TEXT_OPS
        .iter()
        .copied()
        .find(|op| is_text(word, source_name(*op)))
}

/// The forms of the words behind an operation's own word: a name for each operand, a literal where there is one, and
/// commas between them.
fn slots(op: Op) -> &'static [Slot]
    ensures { result.now ≡ slots_of op }
{
    match op {
        Op::Call | Op::Jump | Op::Enter | Op::Leave | Op::Nop => &[],
        Op::Imm | Op::Reload => &[Slot::Literal],
        Op::Mov | Op::JumpIf | Op::JumpIfNot | Op::Jumpr | Op::P2R | Op::R2P => &[Slot::Named],
        Op::JumpIfNew | Op::JumpIfNotNew => &[Slot::Named],
        Op::Addi | Op::Andi | Op::Ori | Op::CmpEqi | Op::CmpGti => NAME_LITERAL,
        Op::Asl | Op::Asr | Op::Lsr | Op::Load | Op::Spill => NAME_LITERAL,
        Op::Add | Op::Sub | Op::And | Op::Or | Op::Xor | Op::Mpyi => TWO_NAMES,
        Op::CmpEq | Op::CmpGt | Op::CmpGtu => TWO_NAMES,
        Op::Mux => &[
            Slot::Named,
            Slot::Comma,
            Slot::Named,
            Slot::Comma,
            Slot::Named,
        ],
        Op::Store => &[
            Slot::Named,
            Slot::Comma,
            Slot::Literal,
            Slot::Comma,
            Slot::Named,
        ],
    }
}

/// Whether the operation has a result where it wants one, and none where it has none. A call may leave its result.
fn result_fits(op: Op, dst: &Option<(Name, Kind)>) -> bool
    ensures { result ≡ result_fits op dst.now }
{
    match result_space(op) {
        None => dst.is_none(),
        Some(_) => is_call(op) || dst.is_some(),
    }
}

/// Whether the words from the operation's own word on are its operands: for a call, its callee and a list of arguments.
fn operands_fit(op: Op, tokens: &[Token]) -> bool
    ensures { result ≡ operands_fit op tokens.now }
{
    if is_call(op) {
        return word_at(tokens, 1).is_some() && is_list(from_place(tokens, 2));
    }
    have_forms(slots(op), from_place(tokens, 1))
}

/// The function that an operation calls.
fn callee(op: Op, tokens: &[Token]) -> Option<Name>
    ensures { result ≡ callee_of op tokens.now }
{
    if is_call(op) {
        word_at(tokens, 1)
    } else {
        None
    }
}

/// The line of an operation, whose words fit.
fn op_line(
    alloc: Global,
    op: Op,
    dst: Option<(Name, Kind)>,
    tokens: &[Token],
) -> Result<OpLine, NoMemory>
    ensures { IfOk result (λ line. line ≡ op_line_of op dst tokens.now) }
{
    let srcs = names_at(alloc, tokens)?;
    let imm = literal_at(tokens);
    let callee = callee(op, tokens);
    Ok(OpLine {
        op,
        dst,
        srcs,
        imm,
        callee,
    })
}

/// The operation that the word at place 0 names.
fn first_op(tokens: &[Token]) -> Option<Op>
    ensures { result ≡ option_and_then op_named (word_at 0 tokens.now) }
{
    let word = word_at(tokens, 0)?;
    op_named(word.as_bytes())
}

/// An operation with this result, from its own word on.
fn operation_shape(
    alloc: Global,
    dst: Option<(Name, Kind)>,
    tokens: &[Token],
) -> Result<Option<Line>, NoMemory>
    ensures { IfOk result (λ line. line ≡ operation_shape dst tokens.now) }
{
    match first_op(tokens) {
        None => Ok(None),
        Some(op) => {
            if !result_fits(op, &dst) || !operands_fit(op, tokens) {
                return Ok(None);
            }
            let line = op_line(alloc, op, dst, tokens)?;
            Ok(Some(Line::Operation(line)))
        }
    }
}

/// `func NAME %p ..`
fn func_shape(alloc: Global, tokens: &[Token]) -> Result<Option<Line>, NoMemory>
    ensures { IfOk result (λ line. line ≡ func_shape tokens.now) }
{
    if !are_names(from_place(tokens, 2)) {
        return Ok(None);
    }
    match word_at(tokens, 1) {
        None => Ok(None),
        Some(name) => {
            let params = names_at(alloc, tokens)?;
            Ok(Some(Line::Func { name, params }))
        }
    }
}

/// `block LABEL freq N`
fn block_shape(tokens: &[Token]) -> Option<Line>
    ensures { result ≡ block_shape tokens.now }
{
    if tokens.len() != 4 || !is_word_at(tokens, 2, b"freq") {
        return None;
    }
    let label = word_at(tokens, 1)?;
    let freq = plain_at(tokens, 3)?;
    Some(Line::Block { label, freq })
}

/// `jump L`
fn jump_shape(tokens: &[Token]) -> Option<Line>
    ensures { result ≡ jump_shape tokens.now }
{
    if tokens.len() != 2 {
        return None;
    }
    let to = word_at(tokens, 1)?;
    Some(Line::Terminator(TermLine::Jump(to)))
}

/// `if $p jump L` and `if !$p jump L`
fn branch_shape(tokens: &[Token]) -> Option<Line>
    ensures { result ≡ branch_shape tokens.now }
{
    if tokens.len() != 4 || !is_word_at(tokens, 2, b"jump") {
        return None;
    }
    let to = word_at(tokens, 3)?;
    let (pred, sense) = condition_at(tokens, 1)?;
    Some(Line::Terminator(TermLine::Branch { pred, sense, to }))
}

/// `ret` and `ret %v`
fn return_shape(tokens: &[Token]) -> Option<Line>
    ensures { result ≡ return_shape tokens.now }
{
    if tokens.len() == 1 {
        return Some(Line::Terminator(TermLine::Ret(None)));
    }
    if tokens.len() != 2 {
        return None;
    }
    let name = name_at(tokens, 1)?;
    Some(Line::Terminator(TermLine::Ret(Some(name))))
}

/// Whether an equals sign stands at place 1.
fn is_assignment(tokens: &[Token]) -> bool
    ensures { result ≡ option_map_or (is_slot Slot.Equals) (slice_get tokens.now 1) false }
{
    match tokens.get(1) {
        Some(token) => is_slot(Slot::Equals, token),
        None => false,
    }
}

/// `%d = ..`
fn assigned_shape(alloc: Global, tokens: &[Token]) -> Result<Option<Line>, NoMemory>
    ensures { IfOk result (λ line. line ≡ assigned_shape tokens.now) }
{
    if is_assignment(tokens) {
        operation_shape(alloc, name_at(tokens, 0), from_place(tokens, 2))
    } else {
        Ok(None)
    }
}

/// What kind of line a first word begins.
fn head_word(word: &[u8]) -> Head
    ensures { result ≡ head_word word.now }
{
    if is_text(word, b"func") {
        Head::Func
    } else if is_text(word, b"block") {
        Head::Block
    } else if is_text(word, b"jump") {
        Head::Jump
    } else if is_text(word, b"if") {
        Head::If
    } else if is_text(word, b"ret") {
        Head::Ret
    } else {
        Head::Bare
    }
}

/// What kind of line the words begin.
fn head(tokens: &[Token]) -> Head
    ensures { result ≡ head_of tokens.now }
{
    match tokens.first() {
        None => Head::Nothing,
        Some(Token::Word(word)) => head_word(word.as_bytes()),
        Some(Token::Named(_)) => Head::Assigned,
        Some(_) => Head::Unknown,
    }
}

/// The line that these words are, or `None` where they have no shape.
pub fn read_line(alloc: Global, tokens: &[Token]) -> Result<Option<Line>, NoMemory>
    ensures { IfOk result (λ line. line ≡ shape_of tokens.now) }
{
    match head(tokens) {
        Head::Nothing => Ok(Some(Line::Blank)),
        Head::Func => func_shape(alloc, tokens),
        Head::Block => Ok(block_shape(tokens)),
        Head::Jump => Ok(jump_shape(tokens)),
        Head::If => Ok(branch_shape(tokens)),
        Head::Ret => Ok(return_shape(tokens)),
        Head::Assigned => assigned_shape(alloc, tokens),
        Head::Bare => operation_shape(alloc, None, tokens),
        Head::Unknown => Ok(None),
    }
}
