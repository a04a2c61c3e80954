//! Lines of calls that have no form.

use crate::lesson::{Lesson, at, behind, told};
use crate::row::Row;
use crate::word::Word;
use std::alloc::Global;
use un_base::memory_error::NoMemory;
use un_words::token::Token;

/// How calls are written.
const FORM: &str = "`call F %a, %b`, or `%d = call F %a`";

/// What is said of a word that stands where an argument should.
fn argument_lesson(alloc: Global, row: &Row<'_>, word: &Word<'_>) -> Result<Lesson, NoMemory> {
    let place = at(row, word);
    match word.form {
        Token::Word(_) => {
            let wrong = format!(in alloc; "`{word}` lacks the sigil of a name");
            told(place, wrong, format!(in alloc; "did you mean `%{word}`?"))
        }
        Token::Literal(_) | Token::Plain(_) => {
            let wrong = format!(in alloc; "an argument is a name, and `{word}` is a number");
            told(
                place,
                wrong,
                format!(in alloc; "a number comes into a name by `%d = imm #n`"),
            )
        }
        _ => {
            let wrong = format!(in alloc; "an argument is a name, and `{word}` is none");
            told(place, wrong, format!(in alloc; "a call is written {FORM}"))
        }
    }
}

/// What is said of the arguments of a call, which stand from a place of the line on.
fn arguments_lesson(alloc: Global, row: &Row<'_>, from: usize) -> Result<Lesson, NoMemory> {
    let mut named = true;
    for word in row.words().iter().skip(from) {
        if named && !matches!(word.form, Token::Named(_)) {
            return argument_lesson(alloc, row, word);
        }
        if !named && !matches!(word.form, Token::Comma) {
            let wrong = format!(in alloc; "a `,` is missing before `{word}`");
            return told(
                at(row, word),
                wrong,
                format!(in alloc; "a call is written {FORM}"),
            );
        }
        named = !named;
    }
    let wrong = format!(in alloc; "an argument is missing behind the `,`");
    told(
        behind(row),
        wrong,
        format!(in alloc; "a call is written {FORM}"),
    )
}

/// What is said of a line with a call, whose word stands at a place of the line.
pub(crate) fn call_lesson(alloc: Global, row: &Row<'_>, place: usize) -> Result<Lesson, NoMemory> {
    let callee = place.saturating_add(1);
    let Some(word) = row.words().get(callee) else {
        let wrong = format!(in alloc; "the name of the function that is called is missing");
        return told(
            behind(row),
            wrong,
            format!(in alloc; "a call is written {FORM}"),
        );
    };
    if matches!(word.form, Token::Word(_)) {
        return arguments_lesson(alloc, row, callee.saturating_add(1));
    }
    let wrong = if word.text.contains(&b'(') {
        format!(in alloc; "the arguments of a call stand without parentheses")
    } else {
        format!(in alloc;
            "`{word}` is no name of a function: a letter or `_`, then letters, digits, `_` and `.`, 32 at most"
        )
    };
    told(
        at(row, word),
        wrong,
        format!(in alloc; "a call is written {FORM}"),
    )
}
