//! Lines of operations that have no form.

use crate::calls::call_lesson;
use crate::forms::{HEADS, form_of, form_of_head, operation_named, stand_in, twin};
use crate::lesson::{Lesson, at, at_word, behind, told, whole};
use crate::literals::literal_lesson;
use crate::near::nearest;
use crate::row::Row;
use crate::word::{Shown, Word, words_of};
use std::alloc::{AllocError, Global};
use un_base::memory_error::NoMemory;
use un_isa::facts::{result_space, source_name};
use un_isa::op::Op;
use un_words::token::Token;

/// Whether two words have the same form.
fn same_form(a: &Token, b: &Token) -> bool {
    match a {
        Token::Comma => matches!(b, Token::Comma),
        Token::Equals => matches!(b, Token::Equals),
        Token::Named(_) => matches!(b, Token::Named(_)),
        Token::Literal(_) => matches!(b, Token::Literal(_)),
        Token::Word(_) => matches!(b, Token::Word(_)),
        _ => false,
    }
}

/// Whether a word stands for one of an operation's form, which writes `#n` for any literal.
fn fits(word: &Word<'_>, wanted: &Word<'_>) -> bool {
    if wanted.text == b"#n".as_slice() {
        return matches!(word.form, Token::Literal(_));
    }
    same_form(&word.form, &wanted.form)
}

/// The first place at which words are not those of a form.
fn first_apart(words: &[Word<'_>], form: &[Word<'_>]) -> usize {
    for (place, (word, wanted)) in words.iter().zip(form).enumerate() {
        if !fits(word, wanted) {
            return place;
        }
    }
    words.len().min(form.len())
}

/// The words that may begin a line or stand behind an equals sign.
fn heads(alloc: Global) -> Result<Vec<&'static [u8]>, AllocError> {
    HEADS.iter().map(|head| head.as_bytes()).collect(alloc)
}

/// What is said of a word that is no operation.
pub(crate) fn unknown_lesson(
    alloc: Global,
    row: &Row<'_>,
    word: &Word<'_>,
) -> Result<Lesson, NoMemory> {
    let place = at(row, word);
    let wrong = format!(in alloc; "there is no operation `{word}`");
    if let Some(other) = stand_in(word.text) {
        return told(place, wrong, format!(in alloc; "write {other}"));
    }
    let heads = heads(alloc)?;
    match nearest(alloc, word.text, heads.as_slice())? {
        Some(near) => {
            let form = form_of_head(near);
            let near = Shown(near);
            let help = format!(in alloc;
                "did you mean `{near}`? A line with it is written `{form}`"
            );
            told(place, wrong, help)
        }
        None => {
            let help = format!(in alloc;
                "the operations are imm, mov, add, sub, and, or, xor, addi, andi, ori, mpyi, asl, asr, lsr, mux, \
                cmpeq, cmpgt, cmpgtu, cmpeqi, cmpgti, load, store and call"
            );
            told(place, wrong, help)
        }
    }
}

/// What is said of an operation whose result does not stand before an equals sign.
fn order_lesson(alloc: Global, row: &Row<'_>, op: Op) -> Result<Lesson, NoMemory> {
    let name = Shown(source_name(op));
    let form = form_of(op);
    let wrong = format!(in alloc; "`{name}` has a result, which stands before `=`");
    let count = words_of(alloc, form.as_bytes())?.len();
    let (Some(first), Some(third)) = (row.words().get(1), row.words().get(3)) else {
        return told(
            whole(row),
            wrong,
            format!(in alloc; "it is written `{form}`"),
        );
    };
    let rest = Shown(row.bytes.get(third.column..).unwrap_or(&[]));
    if matches!(first.form, Token::Named(_)) && row.words().len() == count {
        let help = format!(in alloc; "did you mean `{first} = {name} {rest}`?");
        return told(at(row, first), wrong, help);
    }
    told(
        whole(row),
        wrong,
        format!(in alloc; "it is written `{form}`"),
    )
}

/// What is said of a number where an operation takes a name, or of a name where it takes a number.
fn twin_lesson(
    alloc: Global,
    row: &Row<'_>,
    word: &Word<'_>,
    op: Op,
    takes: &str,
) -> Result<Lesson, NoMemory> {
    let name = Shown(source_name(op));
    let form = form_of(op);
    let wrong = format!(in alloc; "`{name}` takes {takes} here, and `{word}` is none");
    let help = match twin(op) {
        Some(other) => {
            let other = Shown(source_name(other));
            format!(in alloc; "did you mean `{other}`? `{name}` is written `{form}`")
        }
        None => format!(in alloc;
            "`{name}` is written `{form}`; a number comes into a name by `%d = imm #n`"
        ),
    };
    told(at(row, word), wrong, help)
}

/// What is said of a word in place of a name.
fn name_lesson(
    alloc: Global,
    row: &Row<'_>,
    word: &Word<'_>,
    wanted: &Word<'_>,
    op: Op,
) -> Result<Lesson, NoMemory> {
    let form = form_of(op);
    match word.form {
        Token::Word(_) => {
            let sigil = if wanted.text.first() == Some(&b'$') {
                "$"
            } else {
                "%"
            };
            let wrong = format!(in alloc; "`{word}` lacks the sigil of a name");
            told(
                at(row, word),
                wrong,
                format!(in alloc; "did you mean `{sigil}{word}`?"),
            )
        }
        Token::Literal(_) | Token::Plain(_) => twin_lesson(alloc, row, word, op, "a name"),
        Token::Negated(_) => {
            let wrong = format!(in alloc; "`!` stands in `if` lines alone");
            told(
                at(row, word),
                wrong,
                format!(in alloc; "the line is written `{form}`"),
            )
        }
        _ => {
            let wrong = format!(in alloc;
                "`{word}` is no name: `%` or `$`, a letter or `_`, then letters, digits, `_` and `.`, 32 at most"
            );
            told(
                at(row, word),
                wrong,
                format!(in alloc; "the line is written `{form}`"),
            )
        }
    }
}

/// What is said of a word that stands where the form of an operation has another.
fn word_lesson(
    alloc: Global,
    row: &Row<'_>,
    word: &Word<'_>,
    wanted: &Word<'_>,
    op: Op,
) -> Result<Lesson, NoMemory> {
    if wanted.text == b"#n".as_slice() {
        if matches!(word.form, Token::Named(_)) {
            return twin_lesson(alloc, row, word, op, "a literal");
        }
        return literal_lesson(alloc, row, word, op);
    }
    match wanted.form {
        Token::Named(_) => name_lesson(alloc, row, word, wanted, op),
        Token::Comma => {
            let wrong = format!(in alloc; "a `,` is missing before `{word}`");
            let form = form_of(op);
            told(
                at(row, word),
                wrong,
                format!(in alloc; "the line is written `{form}`"),
            )
        }
        _ => {
            let wrong = format!(in alloc; "`{word}` may not stand here");
            let form = form_of(op);
            told(
                at(row, word),
                wrong,
                format!(in alloc; "the line is written `{form}`"),
            )
        }
    }
}

/// What is said of a line whose words are not those of its operation's form, from this place on.
fn apart_lesson(
    alloc: Global,
    row: &Row<'_>,
    op: Op,
    form: &[Word<'_>],
    place: usize,
) -> Result<Lesson, NoMemory> {
    let name = Shown(source_name(op));
    let text = form_of(op);
    match (row.words().get(place), form.get(place)) {
        (Some(word), Some(wanted)) => word_lesson(alloc, row, word, wanted, op),
        (Some(word), None) => {
            let wrong = format!(in alloc;
                "nothing may stand behind the operands of `{name}`, and `{word}` does"
            );
            told(
                at(row, word),
                wrong,
                format!(in alloc; "the line is written `{text}`"),
            )
        }
        (None, _) => {
            let wrong = format!(in alloc; "`{name}` lacks an operand");
            told(
                behind(row),
                wrong,
                format!(in alloc; "the line is written `{text}`"),
            )
        }
    }
}

/// What is said of a line with this operation, whose word stands at a place of the line.
pub(crate) fn operation_lesson(
    alloc: Global,
    row: &Row<'_>,
    op: Op,
    place: usize,
) -> Result<Lesson, NoMemory> {
    if matches!(op, Op::Call) {
        return call_lesson(alloc, row, place);
    }
    let has_result = result_space(op).is_some();
    if has_result && place == 0 {
        return order_lesson(alloc, row, op);
    }
    let name = Shown(source_name(op));
    let text = form_of(op);
    if !has_result && place > 0 {
        let wrong = format!(in alloc; "`{name}` has no result");
        return told(
            at_word(row, 0),
            wrong,
            format!(in alloc; "the line is written `{text}`"),
        );
    }
    let form = words_of(alloc, text.as_bytes())?;
    let place = first_apart(row.words(), form.as_slice());
    apart_lesson(alloc, row, op, form.as_slice(), place)
}

/// What is said of the word at a place of a line where an operation should stand.
pub fn operation_at(
    alloc: Global,
    row: &Row<'_>,
    word: &Word<'_>,
    place: usize,
) -> Result<Lesson, NoMemory> {
    match operation_named(word.text) {
        Some(op) => operation_lesson(alloc, row, op, place),
        None => unknown_lesson(alloc, row, word),
    }
}
