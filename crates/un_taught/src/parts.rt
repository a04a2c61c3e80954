//! What is said of a line of a listing, a start, a report or another second part, which may not stand there.

use crate::lesson::{Lesson, Place, at_word, behind, told, whole};
use crate::near::nearest;
use crate::numbers::number_told;
use crate::packets::packet_told;
use crate::row::{Row, row_of};
use crate::word::Shown;
use std::alloc::{AllocError, Global};
use un_base::decimal::read_decimal;
use un_base::lines::lines;
use un_base::memory_error::NoMemory;

/// A form of a part's lines.
#[derive(Clone, Copy)]
pub struct Form {
    /// The word that a line of this form begins with.
    pub head: &'static str,
    /// How many words it has; 0 where that differs.
    pub count: usize,
    /// Whether the words behind the first are numbers.
    pub numbers: bool,
    /// How it is written.
    pub text: &'static str,
}

/// What may stand in a part.
#[derive(Clone, Copy)]
pub struct Grammar {
    pub forms: &'static [Form],
    /// How its lines follow each other.
    pub order: &'static str,
}

/// The lines of a start.
static START: [Form; 6] = [
    Form {
        head: "reg",
        count: 3,
        numbers: true,
        text: "`reg R N`, with R from 0 to 35, where 32 to 35 are p0 to p3, and N from 0 to 4294967295",
    },
    Form {
        head: "mem",
        count: 3,
        numbers: true,
        text: "`mem ADDRESS WORD`, with a multiple of 4 and a number from 0 to 4294967295",
    },
    Form {
        head: "reply",
        count: 2,
        numbers: true,
        text: "`reply N`, what a call returns",
    },
    Form {
        head: "set",
        count: 3,
        numbers: true,
        text: "`set ADDRESS WORD`, a word that the call changes",
    },
    Form {
        head: "junk",
        count: 3,
        numbers: true,
        text: "`junk R N`, what the call leaves in a register",
    },
    Form {
        head: "blocks",
        count: 2,
        numbers: true,
        text: "`blocks N`, how many blocks may be entered",
    },
];

/// The lines of a listing.
static LISTING: [Form; 3] = [
    Form {
        head: "frame",
        count: 2,
        numbers: true,
        text: "`frame F`, a multiple of 8 up to 1024",
    },
    Form {
        head: "block",
        count: 2,
        numbers: false,
        text: "`block LABEL`",
    },
    Form {
        head: "{",
        count: 0,
        numbers: false,
        text: "`{ .. }`, up to four instructions with `;` between them, as `alloc` prints them",
    },
];

/// The lines of a report.
static REPORT: [Form; 18] = [
    Form {
        head: "unison",
        count: 2,
        numbers: false,
        text: "`unison V`, V from 1 to 3",
    },
    Form {
        head: "function",
        count: 2,
        numbers: false,
        text: "`function NAME`",
    },
    Form {
        head: "model",
        count: 7,
        numbers: false,
        text: "`model regs R slots S nodes N`",
    },
    Form {
        head: "answer",
        count: 2,
        numbers: false,
        text: "`answer code`, `answer infeasible` or `answer spent`",
    },
    Form {
        head: "cost",
        count: 2,
        numbers: true,
        text: "`cost N`",
    },
    Form {
        head: "bound",
        count: 2,
        numbers: true,
        text: "`bound N`",
    },
    Form {
        head: "listing",
        count: 2,
        numbers: true,
        text: "`listing N`, the number of the lines of packets and blocks that follow",
    },
    Form {
        head: "frame",
        count: 2,
        numbers: true,
        text: "`frame F`, a multiple of 8 up to 1024",
    },
    Form {
        head: "block",
        count: 2,
        numbers: false,
        text: "`block LABEL`",
    },
    Form {
        head: "{",
        count: 0,
        numbers: false,
        text: "`{ .. }`, a packet",
    },
    Form {
        head: "solution",
        count: 2,
        numbers: true,
        text: "`solution N`, the number of the values that follow",
    },
    Form {
        head: "tree",
        count: 2,
        numbers: true,
        text: "`tree N`, the number of the nodes that follow",
    },
    Form {
        head: "B",
        count: 3,
        numbers: true,
        text: "`B V N`, a branch",
    },
    Form {
        head: "C",
        count: 1,
        numbers: true,
        text: "`C`, a closed leaf",
    },
    Form {
        head: "O",
        count: 1,
        numbers: true,
        text: "`O`, an open leaf",
    },
    Form {
        head: "S",
        count: 1,
        numbers: true,
        text: "`S`, a split",
    },
    Form {
        head: "P",
        count: 2,
        numbers: false,
        text: "`P N` or `P -`, where the part of a block begins",
    },
    Form {
        head: "end",
        count: 1,
        numbers: true,
        text: "`end`",
    },
];

/// The lines of a part, by the name of its kind.
pub fn grammar_of(kind: &[u8]) -> Option<Grammar> {
    match kind {
        b"start" => Some(Grammar {
            forms: &START,
            order: "registers rise, then addresses, then replies follow, each with its `set` and `junk` lines, and last stands `blocks N`; \
                for packets r29 is a multiple of 8 and at least the frame",
        }),
        b"listing" => Some(Grammar {
            forms: &LISTING,
            order: "first stands `frame F`, then each `block LABEL` with the packets of the block behind it, and a jump leads to a block",
        }),
        b"report" => Some(Grammar {
            forms: &REPORT,
            order: "a report has the lines that `alloc` prints, in their order and number, up to a last line `end`",
        }),
        _ => None,
    }
}

/// The line of this number, from 1.
fn line_at(text: &[u8], number: usize) -> Option<&[u8]> {
    lines(text).nth(number.saturating_sub(1))
}

/// The heads of forms.
fn heads(alloc: Global, forms: &[Form]) -> Result<Vec<&'static [u8]>, AllocError> {
    forms.iter().map(|form| form.head.as_bytes()).collect(alloc)
}

/// What is said of a line with a first word that no form has.
fn head_told(
    alloc: Global,
    row: &Row<'_>,
    first: &[u8],
    grammar: Grammar,
) -> Result<Lesson, NoMemory> {
    let heads = heads(alloc, grammar.forms)?;
    let near = nearest(alloc, first, heads.as_slice())?;
    let order = grammar.order;
    let word = Shown(first);
    let wrong = format!(in alloc; "no line begins with `{word}` here");
    match near {
        Some(near) => {
            let near = Shown(near);
            told(
                at_word(row, 0),
                wrong,
                format!(in alloc; "did you mean `{near}`?"),
            )
        }
        None => told(at_word(row, 0), wrong, format!(in alloc; "{order}")),
    }
}

/// The place of the first word behind the head that is no number.
fn no_number(row: &Row<'_>) -> Option<usize> {
    for (place, word) in row.words().iter().enumerate() {
        if place > 0 && read_decimal(word.text).is_none() {
            return Some(place);
        }
    }
    None
}

/// What is said of a line whose words are its form's: of a word that is at fault by itself, or else of where the line stands.
fn place_told(
    alloc: Global,
    row: &Row<'_>,
    form: Form,
    grammar: Grammar,
    part: &[u8],
) -> Result<Lesson, NoMemory> {
    let lesson = if form.head == "{" {
        packet_told(alloc, row, part)?
    } else {
        number_told(alloc, row, form.head.as_bytes())?
    };
    if let Some(lesson) = lesson {
        return Ok(lesson);
    }
    let text = form.text;
    let order = grammar.order;
    told(
        whole(row),
        format!(in alloc; "the line may not stand here, or a number of it is out of its range"),
        format!(in alloc; "it is written {text}; {order}"),
    )
}

/// What is said of a line of a form, whose words may not be its or which may not stand where it does.
fn form_told(
    alloc: Global,
    row: &Row<'_>,
    form: Form,
    grammar: Grammar,
    part: &[u8],
) -> Result<Lesson, NoMemory> {
    let text = form.text;
    let count = row.words().len();
    if form.count > count {
        return told(
            behind(row),
            format!(in alloc; "the line lacks a word"),
            format!(in alloc; "it is written {text}"),
        );
    }
    if form.count > 0 && form.count < count {
        let wrong = format!(in alloc; "the line has a word too many");
        return told(
            at_word(row, form.count),
            wrong,
            format!(in alloc; "it is written {text}"),
        );
    }
    if form.numbers {
        if let Some(place) = no_number(row) {
            let word = row.word(place);
            let wrong = format!(in alloc; "`{word}` is no decimal number without a sign");
            return told(
                at_word(row, place),
                wrong,
                format!(in alloc; "the line is written {text}"),
            );
        }
    }
    place_told(alloc, row, form, grammar, part)
}

/// What is said of a line that begins with a number.
fn numbers_told(alloc: Global, row: &Row<'_>, grammar: Grammar) -> Result<Lesson, NoMemory> {
    let order = grammar.order;
    let wrong = format!(in alloc;
        "a line of numbers may not stand here, or one of its words is no number"
    );
    told(whole(row), wrong, format!(in alloc; "{order}"))
}

/// What is said of a line of a part.
fn row_told(
    alloc: Global,
    row: &Row<'_>,
    grammar: Grammar,
    part: &[u8],
) -> Result<Lesson, NoMemory> {
    let Some(first) = row.words().first() else {
        let order = grammar.order;
        return told(
            whole(row),
            format!(in alloc; "an empty line may not stand here"),
            format!(in alloc; "{order}"),
        );
    };
    let found = grammar
        .forms
        .iter()
        .copied()
        .find(|form| form.head.as_bytes() == first.text);
    match found {
        Some(form) => form_told(alloc, row, form, grammar, part),
        None if read_decimal(first.text).is_some() => numbers_told(alloc, row, grammar),
        None => head_told(alloc, row, first.text, grammar),
    }
}

/// What is said of the line of this number of a part, from 1.
pub fn teach_part(
    alloc: Global,
    text: &[u8],
    number: usize,
    grammar: Grammar,
) -> Result<Lesson, NoMemory> {
    match line_at(text, number) {
        Some(line) => {
            let row = row_of(alloc, number, line.strip_suffix(b"\r").unwrap_or(line))?;
            row_told(alloc, &row, grammar, text)
        }
        None => {
            let place = Place {
                line: number,
                column: 0,
                length: 0,
            };
            let order = grammar.order;
            told(
                place,
                format!(in alloc; "the text ends before this line"),
                format!(in alloc; "{order}"),
            )
        }
    }
}
