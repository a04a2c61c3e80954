//! Lines that have no form, by the word that they begin with.

use crate::lesson::{Lesson, at, at_word, behind, told};
use crate::operations::{operation_at, unknown_lesson};
use crate::row::Row;
use crate::word::{Shown, Word};
use std::alloc::Global;
use un_base::memory_error::NoMemory;
use un_words::token::Token;

/// What is said of a line that lacks a word at its end.
fn short_lesson(alloc: Global, row: &Row<'_>, lacks: &str, form: &str) -> Result<Lesson, NoMemory> {
    let wrong = format!(in alloc; "{lacks} is missing");
    told(
        behind(row),
        wrong,
        format!(in alloc; "the line is written `{form}`"),
    )
}

/// What is said of a word that may not stand at its place of a line, where something else should.
fn other_lesson(
    alloc: Global,
    row: &Row<'_>,
    word: &Word<'_>,
    wanted: &str,
    form: &str,
) -> Result<Lesson, NoMemory> {
    let wrong = format!(in alloc; "`{word}` stands where {wanted} should");
    told(
        at(row, word),
        wrong,
        format!(in alloc; "the line is written `{form}`"),
    )
}

/// What is said of a word of a `func` line that is no parameter.
fn parameter_lesson(alloc: Global, row: &Row<'_>, word: &Word<'_>) -> Result<Lesson, NoMemory> {
    match word.form {
        Token::Comma => {
            let wrong = format!(in alloc; "parameters stand without commas");
            told(
                at(row, word),
                wrong,
                format!(in alloc; "blanks part them: `func NAME %p %q`"),
            )
        }
        Token::Word(_) => {
            let wrong = format!(in alloc; "`{word}` lacks the sigil of a name");
            told(
                at(row, word),
                wrong,
                format!(in alloc; "did you mean `%{word}`?"),
            )
        }
        _ => other_lesson(
            alloc,
            row,
            word,
            "a parameter, `%` and a name,",
            "func NAME %p %q",
        ),
    }
}

/// What is said of a `func` line.
fn func_lesson(alloc: Global, row: &Row<'_>) -> Result<Lesson, NoMemory> {
    let Some(name) = row.words().get(1) else {
        return short_lesson(alloc, row, "the function's name", "func NAME %p %q");
    };
    if name.text.contains(&b'(') {
        let wrong = format!(in alloc; "parameters stand without parentheses");
        return told(
            at(row, name),
            wrong,
            format!(in alloc; "blanks part them: `func NAME %p %q`"),
        );
    }
    if !matches!(name.form, Token::Word(_)) {
        return other_lesson(
            alloc,
            row,
            name,
            "the function's name, without a sigil,",
            "func NAME %p %q",
        );
    }
    for word in row.words().iter().skip(2) {
        if !matches!(word.form, Token::Named(_)) {
            return parameter_lesson(alloc, row, word);
        }
    }
    other_lesson(alloc, row, name, "the function's name", "func NAME %p %q")
}

/// What is said of a `block` line.
fn block_lesson(alloc: Global, row: &Row<'_>) -> Result<Lesson, NoMemory> {
    let form = "block LABEL freq N";
    match row.words().get(1) {
        None => return short_lesson(alloc, row, "the label", form),
        Some(label) => {
            if !matches!(label.form, Token::Word(_)) {
                return other_lesson(
                    alloc,
                    row,
                    label,
                    "the label, a name without a sigil,",
                    form,
                );
            }
        }
    }
    match row.words().get(2) {
        None => return short_lesson(
            alloc,
            row,
            "`freq N`, how often the block is entered,",
            form,
        ),
        Some(word) => {
            if word.text != b"freq".as_slice() {
                return other_lesson(alloc, row, word, "`freq`", form);
            }
        }
    }
    match (row.words().get(3), row.words().get(4)) {
        (None, _) => short_lesson(alloc, row, "the frequency", form),
        (Some(_), Some(more)) => other_lesson(alloc, row, more, "the end of the line", form),
        (Some(number), None) => other_lesson(
            alloc,
            row,
            number,
            "a whole number, 1 to 1000000,",
            form,
        ),
    }
}

/// What is said of a `jump` line.
fn jump_lesson(alloc: Global, row: &Row<'_>) -> Result<Lesson, NoMemory> {
    let form = "jump LABEL";
    match (row.words().get(1), row.words().get(2)) {
        (None, _) => short_lesson(alloc, row, "the label", form),
        (Some(label), _) if !matches!(label.form, Token::Word(_)) => {
            other_lesson(alloc, row, label, "a label, without a sigil,", form)
        }
        (Some(_), Some(more)) => other_lesson(alloc, row, more, "the end of the line", form),
        (Some(label), None) => other_lesson(alloc, row, label, "a label", form),
    }
}

/// What is said of the condition of an `if` line.
fn condition_lesson(alloc: Global, row: &Row<'_>, word: &Word<'_>) -> Result<Lesson, NoMemory> {
    let place = at(row, word);
    if word.text == b"not".as_slice() || word.text == b"!".as_slice() {
        let wrong = format!(in alloc; "`{word}` is no condition");
        return told(
            place,
            wrong,
            format!(in alloc; "an `!` before the name turns it round: `if !$p jump LABEL`"),
        );
    }
    if matches!(word.form, Token::Word(_)) {
        let wrong = format!(in alloc; "`{word}` lacks the sigil of a predicate");
        return told(place, wrong, format!(in alloc; "did you mean `${word}`?"));
    }
    other_lesson(
        alloc,
        row,
        word,
        "a predicate, `$p` or `!$p`,",
        "if $p jump LABEL",
    )
}

/// What is said of an `if` line.
fn branch_lesson(alloc: Global, row: &Row<'_>) -> Result<Lesson, NoMemory> {
    let form = "if $p jump LABEL";
    let Some(condition) = row.words().get(1) else {
        return short_lesson(alloc, row, "the predicate", form);
    };
    if !matches!(condition.form, Token::Named(_) | Token::Negated(_)) {
        return condition_lesson(alloc, row, condition);
    }
    match row.words().get(2) {
        None => return short_lesson(alloc, row, "`jump LABEL`", form),
        Some(word) => {
            if word.text != b"jump".as_slice() {
                return other_lesson(alloc, row, word, "`jump`", form);
            }
        }
    }
    match (row.words().get(3), row.words().get(4)) {
        (None, _) => short_lesson(alloc, row, "the label", form),
        (Some(_), Some(more)) => {
            let wrong = format!(in alloc;
                "nothing may stand behind the label of an `if`, and `{more}` does"
            );
            let help = format!(in alloc;
                "where the predicate does not hold the next block follows"
            );
            told(at(row, more), wrong, help)
        }
        (Some(label), None) => other_lesson(alloc, row, label, "a label, without a sigil,", form),
    }
}

/// What is said of a `ret` line.
fn return_lesson(alloc: Global, row: &Row<'_>) -> Result<Lesson, NoMemory> {
    let form = "ret %v";
    match (row.words().get(1), row.words().get(2)) {
        (Some(word), _) if matches!(word.form, Token::Word(_)) => {
            let wrong = format!(in alloc; "`{word}` lacks the sigil of a name");
            told(
                at(row, word),
                wrong,
                format!(in alloc; "did you mean `%{word}`?"),
            )
        }
        (Some(word), _) if matches!(word.form, Token::Literal(_) | Token::Plain(_)) => {
            let wrong = format!(in alloc; "`ret` returns a name, and `{word}` is a number");
            told(
                at(row, word),
                wrong,
                format!(in alloc; "a number comes into a name by `%d = imm #n`"),
            )
        }
        (Some(_), Some(more)) => other_lesson(alloc, row, more, "the end of the line", form),
        (_, _) => {
            let wrong = format!(in alloc; "`ret` takes one name or none");
            told(
                at_word(row, 1),
                wrong,
                format!(in alloc; "the line is written `ret` or `ret %v`"),
            )
        }
    }
}

/// What is said of a line that begins with a name.
fn assigned_lesson(alloc: Global, row: &Row<'_>, name: &Word<'_>) -> Result<Lesson, NoMemory> {
    match row.words().get(1) {
        Some(sign) if matches!(sign.form, Token::Equals) => {}
        _ => {
            let wrong = format!(in alloc; "`=` is missing behind `{name}`");
            return told(
                at_word(row, 1),
                wrong,
                format!(in alloc; "a line that begins with a name assigns it: `%d = add %a, %b`"),
            );
        }
    }
    let Some(word) = row.words().get(2) else {
        return short_lesson(alloc, row, "the operation behind `=`", "%d = add %a, %b");
    };
    match word.form {
        Token::Word(_) => operation_at(alloc, row, word, 2),
        Token::Named(_) => {
            let wrong = format!(in alloc; "an operation stands behind `=`, and `{word}` is a name");
            told(
                at(row, word),
                wrong,
                format!(in alloc; "did you mean `{name} = mov {word}`?"),
            )
        }
        Token::Literal(_) => {
            let wrong = format!(in alloc;
                "an operation stands behind `=`, and `{word}` is a number"
            );
            told(
                at(row, word),
                wrong,
                format!(in alloc; "did you mean `{name} = imm {word}`?"),
            )
        }
        Token::Plain(_) => {
            let wrong = format!(in alloc;
                "an operation stands behind `=`, and `{word}` is a number"
            );
            told(
                at(row, word),
                wrong,
                format!(in alloc; "did you mean `{name} = imm #{word}`?"),
            )
        }
        _ => unknown_lesson(alloc, row, word),
    }
}

/// What is said of a line that begins with a word that begins none.
fn strange_lesson(alloc: Global, row: &Row<'_>, word: &Word<'_>) -> Result<Lesson, NoMemory> {
    let place = at(row, word);
    if word.text.starts_with(b"//") || word.text.starts_with(b"#") {
        let wrong = format!(in alloc; "a comment begins with `;`");
        return told(
            place,
            wrong,
            format!(in alloc; "write `;` in place of `{word}`"),
        );
    }
    if let Some(label) = word.text.strip_suffix(b":") {
        let label = Shown(label);
        let wrong = format!(in alloc; "a label has a line of its own kind");
        return told(
            place,
            wrong,
            format!(in alloc; "a block begins with a line `block {label} freq N`"),
        );
    }
    let wrong = format!(in alloc; "no line begins with `{word}`");
    let help = format!(in alloc;
        "a line begins with `func`, `block`, `jump`, `if`, `ret`, `store`, `call`, or a name that it assigns"
    );
    told(place, wrong, help)
}

/// What is said of a line that has no form.
pub(crate) fn head_lesson(alloc: Global, row: &Row<'_>) -> Result<Lesson, NoMemory> {
    let Some(first) = row.words().first() else {
        let wrong = format!(in alloc; "the line has none of the forms of a line");
        return told(
            behind(row),
            wrong,
            format!(in alloc; "docs/LANGUAGE.md has them"),
        );
    };
    match first.form {
        Token::Word(_) => match first.text {
            b"func" => func_lesson(alloc, row),
            b"block" => block_lesson(alloc, row),
            b"jump" => jump_lesson(alloc, row),
            b"if" => branch_lesson(alloc, row),
            b"ret" => return_lesson(alloc, row),
            _ => operation_at(alloc, row, first, 0),
        },
        Token::Named(_) => assigned_lesson(alloc, row, first),
        _ => strange_lesson(alloc, row, first),
    }
}
