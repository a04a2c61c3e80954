//! The instruction that words spell, if they are the words of one.

ghost use Rattle.std.specs.Prelude.{◌≡◌, IfOk, OnOk, ◌++◌, slice_get, take, drop, is_some, if◌then◌else◌};
ghost use Rattle.std.specs.List.{filter_map, find};
ghost use Rattle.std.specs.Option.{option_and_then};
ghost use Rattle.un_listing.specs.Recognized.{fresh_in, is_fresh_at, branch_by, operand_in};
ghost use Rattle.un_listing.specs.Recognized.{word_at, name_in, name_at, is_word_at, reg_in, reg_at, is_general, is_stack, is_stack_at};
ghost use Rattle.un_listing.specs.Recognized.{literal_at, is_negated, is_negated_at, literal_or, literal_of_words, op_with, computed_ops};
ghost use Rattle.un_listing.specs.Recognized.{literal_ops, copy_between, is_minus, moved_by, assigned_op, worded_op, op_of, has_result};
ghost use Rattle.un_listing.specs.Recognized.{first_operand, operand_words, operands_in, label_in, result_in, instr_with, instr_of};

use crate::form::{Form, form_of};
use crate::word::{Word, read_fresh, read_reg};
use std::alloc::Global;
use un_base::memory_error::NoMemory;
use un_base::name::Name;
use un_isa::facts::printed_name;
use un_isa::instr::Instr;
use un_isa::op::Op;
use un_isa::reg::{GENERALS, Reg, STACK};
use un_lists::few::Few;
use un_words::forms::is_text;

/// The operations of the form `rD = add(rA,rB)`.
const COMPUTED_OPS: [Op; 10] = [
    Op::Add,
    Op::Sub,
    Op::And,
    Op::Or,
    Op::Xor,
    Op::Mpyi,
    Op::Mux,
    Op::CmpEq,
    Op::CmpGt,
    Op::CmpGtu,
];

/// The operations of the form `rD = add(rA,#n)`.
const LITERAL_OPS: [Op; 8] = [
    Op::Addi,
    Op::Andi,
    Op::Ori,
    Op::CmpEqi,
    Op::CmpGti,
    Op::Asl,
    Op::Asr,
    Op::Lsr,
];

/// The word at place `k`, or `Other` where there is none.
fn word_at(words: &[Word], k: usize) -> Word
    ensures { result ≡ word_at k words.now }
{
    match words.get(k) {
        Some(word) => *word,
        None => Word::Other,
    }
}

/// The name at place `k`.
fn name_at(words: &[Word], k: usize) -> Option<Name>
    ensures { result ≡ name_at k words.now }
{
    match word_at(words, k) {
        Word::Named(name) => Some(name),
        _ => None,
    }
}

/// Whether this very word stands at place `k`.
fn is_word_at(words: &[Word], k: usize, text: &[u8]) -> bool
    ensures { result ≡ is_word_at k text.now words.now }
{
    match name_at(words, k) {
        Some(name) => is_text(name.as_bytes(), text),
        None => false,
    }
}

/// The register that the word is, or has behind `!`.
fn reg_in(word: &Word) -> Option<Reg>
    ensures { result ≡ reg_in word.now }
{
    match word {
        Word::Named(name) => read_reg(name.as_bytes()),
        Word::Negated(reg) => Some(*reg),
        _ => None,
    }
}

/// The register that the word is before `.new`, or has behind `!` and before `.new`.
fn fresh_in(word: &Word) -> Option<Reg>
    ensures { result ≡ fresh_in word.now }
{
    match word {
        Word::Named(name) => read_fresh(name.as_bytes()),
        Word::NegatedFresh(reg) => Some(*reg),
        _ => None,
    }
}

/// The register at place `k`.
fn reg_at(words: &[Word], k: usize) -> Option<Reg>
    ensures { result ≡ reg_at k words.now }
{
    reg_in(&word_at(words, k))
}

/// Whether the stack pointer stands at place `k`.
fn is_stack_at(words: &[Word], k: usize) -> bool
    ensures { result ≡ is_stack_at k words.now }
{
    match reg_at(words, k) {
        Some(reg) => reg.0 == STACK,
        None => false,
    }
}

/// The literal at place `k`.
fn literal_at(words: &[Word], k: usize) -> Option<i32>
    ensures { result ≡ literal_at k words.now }
{
    match word_at(words, k) {
        Word::Literal(n) => Some(n),
        _ => None,
    }
}

/// Whether a word behind `!` stands at place `k`.
fn is_negated_at(words: &[Word], k: usize) -> bool
    ensures { result ≡ is_negated_at k words.now }
{
    matches!(word_at(words, k), Word::Negated(_) | Word::NegatedFresh(_))
}

/// Whether a register before `.new` stands at place `k`.
fn is_fresh_at(words: &[Word], k: usize) -> bool
    ensures { result ≡ is_fresh_at k words.now }
{
    fresh_in(&word_at(words, k)).is_some()
}

/// The first literal, or 0.
fn literal_of(words: &[Word]) -> i32
    ensures { result ≡ literal_of_words words.now }
{
    for word in words {
        if let Word::Literal(n) = word {
            return *n;
        }
    }
    0
}

/// The operation of these with this mnemonic.
fn op_with(ops: &[Op], word: &[u8]) -> Option<Op>
    ensures { result ≡ op_with ops.now word.now }
{
    ops.iter()
        .copied()
        .find(|op| is_text(word, printed_name(*op)))
}

/// A copy between registers.
fn copy_between(to: Reg, from: Reg) -> Op
    ensures { result ≡ copy_between (is_general to) (is_general from) }
{
    if to.0 >= GENERALS {
        Op::R2P
    } else if from.0 < GENERALS {
        Op::Mov
    } else {
        Op::P2R
    }
}

/// Enter where the number is negative, else Leave.
fn moved_by(n: i32) -> Op
    ensures { result ≡ moved_by n }
{
    if n < 0 { Op::Enter } else { Op::Leave }
}

/// A load of a frame word or of another.
fn loaded(is_frame: bool) -> Op
    ensures { result ≡ (if is_frame then Op.Reload else Op.Load) }
{
    if is_frame { Op::Reload } else { Op::Load }
}

/// A store to a frame word or to another.
fn stored(is_frame: bool) -> Op
    ensures { result ≡ (if is_frame then Op.Spill else Op.Store) }
{
    if is_frame { Op::Spill } else { Op::Store }
}

/// A jump where a predicate is false, or true, which its own packet writes or not.
fn branch(is_negated: bool, is_fresh: bool) -> Op
    ensures { result ≡ branch_by is_negated is_fresh }
{
    match (is_negated, is_fresh) {
        (false, false) => Op::JumpIf,
        (true, false) => Op::JumpIfNot,
        (false, true) => Op::JumpIfNew,
        (true, true) => Op::JumpIfNotNew,
    }
}

/// The operation that writes this register, the first word.
fn assigned_op(to: Reg, words: &[Word]) -> Option<Op>
    ensures { result ≡ assigned_op to words.now }
{
    if literal_at(words, 1).is_some() {
        return Some(Op::Imm);
    }
    if let Some(from) = reg_at(words, 1) {
        return Some(copy_between(to, from));
    }
    if is_word_at(words, 1, b"memw") {
        return Some(loaded(is_stack_at(words, 2)));
    }
    match literal_at(words, 3) {
        Some(n) if to.0 == STACK => Some(moved_by(n)),
        Some(_) => op_with(&LITERAL_OPS, name_at(words, 1)?.as_bytes()),
        None => op_with(&COMPUTED_OPS, name_at(words, 1)?.as_bytes()),
    }
}

/// The operation that is printed with a word of its own first.
fn worded_op(words: &[Word]) -> Option<Op>
    ensures { result ≡ worded_op words.now }
{
    if is_word_at(words, 0, b"nop") {
        Some(Op::Nop)
    } else if is_word_at(words, 0, b"jump") {
        Some(Op::Jump)
    } else if is_word_at(words, 0, b"jumpr") {
        Some(Op::Jumpr)
    } else if is_word_at(words, 0, b"call") {
        Some(Op::Call)
    } else if is_word_at(words, 0, b"if") {
        Some(branch(is_negated_at(words, 1), is_fresh_at(words, 1)))
    } else if is_word_at(words, 0, b"memw") {
        Some(stored(is_stack_at(words, 1)))
    } else {
        None
    }
}

/// The operation that the words spell.
fn op_of(words: &[Word]) -> Option<Op>
    ensures { result ≡ op_of words.now }
{
    match reg_at(words, 0) {
        Some(to) => assigned_op(to, words),
        None => worded_op(words),
    }
}

/// The register that is written, where it is the first word.
fn result_in(form: Form, words: &[Word]) -> Option<Reg>
    ensures { result ≡ result_in form words.now }
{
    match form {
        Form::Literal | Form::Copied | Form::Computed => reg_at(words, 0),
        Form::WithLiteral | Form::Loaded | Form::Reloaded => reg_at(words, 0),
        _ => None,
    }
}

/// The place of the first word that is an operand.
fn first_operand(form: Form) -> usize
    ensures { result ≡ first_operand form }
{
    match form {
        Form::Copied | Form::Stored | Form::Returned => 1,
        Form::JumpedIf | Form::JumpedIfNot | Form::JumpedIfNew | Form::JumpedIfNotNew => 1,
        _ => 2,
    }
}

/// How many words from there on may be operands.
fn operand_words(form: Form) -> usize
    ensures { result ≡ operand_words form }
{
    match form {
        Form::Called => 6,
        Form::Computed | Form::Stored => 3,
        Form::Spilled => 2,
        Form::Literal | Form::Reloaded | Form::StackMoved | Form::Jumped | Form::Idle => 0,
        _ => 1,
    }
}

/// At most so many words from place `from` on.
fn words_from(words: &[Word], from: usize, count: usize) -> &[Word]
    ensures { result.now ≡ take count (drop from words.now) }
{
    if from >= words.len() {
        return &[];
    }
    let rest = &words[from..];
    if count < rest.len() {
        &rest[..count]
    } else {
        rest
    }
}

/// The register that a word is as an operand of the form.
fn operand_in(form: Form, word: &Word) -> Option<Reg>
    ensures { result ≡ operand_in form word.now }
{
    match form {
        Form::JumpedIfNew | Form::JumpedIfNotNew => fresh_in(word),
        _ => reg_in(word),
    }
}

/// The registers among words, as operands of the form.
fn registers(alloc: Global, form: Form, words: &[Word]) -> Result<Few<Reg>, NoMemory>
    ensures { IfOk result (λ regs. regs ≡ filter_map (operand_in form) words.now) }
{
    let mut regs = Few::new(alloc);
    for word in words {
        if let Some(reg) = operand_in(form, word) {
            regs.push(reg)?;
        }
    }
    Ok(regs)
}

/// The label.
fn label_in(form: Form, words: &[Word]) -> Option<Name>
    ensures { result ≡ label_in form words.now }
{
    match form {
        Form::Called | Form::Jumped => name_at(words, 1),
        Form::JumpedIf | Form::JumpedIfNot => name_at(words, 3),
        Form::JumpedIfNew | Form::JumpedIfNotNew => name_at(words, 3),
        _ => None,
    }
}

/// The instruction with this operation and these words.
fn instr_with(alloc: Global, op: Op, words: &[Word]) -> Result<Instr, NoMemory>
    ensures { IfOk result (λ instr. instr ≡ instr_with op words.now) }
{
    let form = form_of(op);
    let operands = words_from(words, first_operand(form), operand_words(form));
    let srcs = registers(alloc, form, operands)?;
    Ok(Instr {
        op,
        dst: result_in(form, words),
        srcs,
        imm: literal_of(words),
        label: label_in(form, words),
    })
}

/// The instruction that the words spell.
///
/// # Errors
/// `NoMemory` where there is no memory for its operands.
pub fn recognize(alloc: Global, words: &[Word]) -> Result<Option<Instr>, NoMemory>
    ensures { IfOk result (λ instr. instr ≡ instr_of words.now) }
{
    match op_of(words) {
        Some(op) => {
            let instr = instr_with(alloc, op, words)?;
            Ok(Some(instr))
        }
        None => Ok(None),
    }
}
