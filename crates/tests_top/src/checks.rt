//! The check of changed reports on the smallest function, and of their views.

ghost use Rattle.std.specs.Prelude.{IfOk};
ghost use Rattle.un_isa.specs.Versions.{IsVersion};
ghost use Rattle.un_model.specs.Options.{AreOptions};

use crate::rows::{cut, named, number, number_at};
use std::alloc::Global;
use un_base::memory_error::NoMemory;
use un_base::name::Name;
use un_check::lines::count_lines;
use un_check::report::{check_report, check_view};
use un_ir::function::Function;
use un_ir::text::{put_number, put_text};
use un_isa::reg::SLOTS;
use un_isa::table::LAST;
use un_listing_reader::read::read_code;
use un_lists::items::Items;
use un_model::model::{Options, Solution};
use un_outside::status::NoCause;
use un_packet::code::Code;
use un_reader::read::read_function;
use un_report::report::{Answered, Report};
use un_report::view::ReportView;
use un_tree::read::read_tree;

/// The smallest function.
static FUNCTION: &[u8] = b"func f\nblock e freq 1\nret\n";

/// The numbers of its solution.
static NUMBERS: &[u8] = b"16 17 18 19 20 21 22 23 24 25 26 27 31 0 0 0 \
0 0 0 0 0 0 0 0 0 0 0 0 0 0 0 0 \
0 0 0 0 0 0 0 0 0 0 0 0 0 0 0 0 \
0 0 0 0 0 0 0 0 0 0 0 0 1 0 0 0 \
0 0 0 0 0 0 0 0 0 0 0 0 0 0 0 0 \
0 0 0 0 0 0 0 0 0 0 0 0 0 0 0 0 \
0 0 0 0 0 0 0 0 0 0 0 0 0 0 0 0 \
0 0 0 0 0 0 0 0 0 0 2 0";

/// The listing of its code, and the same after a packet that does nothing.
static LISTING: &[u8] = b"frame 0\nblock e\n{ jumpr r31 }\n";

static LATER: &[u8] = b"frame 0\nblock e\n{ nop }\n{ jumpr r31 }\n";

/// Between two `|` stands a report with what the check answers for it: a line with the name, the answer, the cost, the bound, and the places
/// and values of two numbers that are others; the lines of the tree; and behind `?` the answer. The answer `code` has the code of the
/// solution, `later` the code with one more packet.
static REPORTS: &[u8] = b"f code 1 1 200 0 200 0
C
?yes|g code 1 1 200 0 200 0
C
?no name|f code 1 1 60 2 200 0
C
?no solution 5|f code 2 1 200 0 200 0
C
?no cost|f later 1 1 200 0 200 0
C
?no listing|f code 1 1 200 0 200 0
B 0 16
C
C
?no strict 0|f code 1 1 200 0 200 0
B 500 0
C
C
?no strict 0|f code 1 1 200 0 200 0
O
?no alive 0|f code 1 1 200 0 200 0
C
C
?no short|f code 1 1 200 0 200 0
?no short|f later 2 2 60 2 122 3
C
?no closed 0|f code 1 2 200 0 200 0
C
?no bound|f code 1 0 200 0 200 0
C
?no bound|f infeasible 0 0 200 0 200 0
O
?no spent|f infeasible 0 0 200 0 200 0
C
?no closed 0|f spent 0 0 200 0 200 0
O
?no spent|h spent 0 0 200 0 200 0
O
?no name";

/// The numbers of the solution, but for two.
fn numbers(alloc: Global, head: &[u8]) -> Result<Solution, NoMemory> {
    let mut values = Items::new(alloc);
    for (place, word) in NUMBERS.split(|b| *b == b' ').enumerate() {
        let place = place as u64;
        let value = if place == number_at(head, 4) {
            number_at(head, 5)
        } else if place == number_at(head, 6) {
            number_at(head, 7)
        } else {
            number(word)
        };
        values.push(value.min(1000) as u32)?;
    }
    Ok(Solution { values })
}

/// The code of a listing.
fn code(alloc: Global, listing: &[u8]) -> Result<Code, NoMemory> {
    match read_code(alloc, listing) {
        Ok(code) => Ok(code),
        Err(_) => Err(NoMemory),
    }
}

/// The answer of a row.
fn answer(alloc: Global, head: &[u8]) -> Result<Answered, NoMemory> {
    let word = head.split(|b| *b == b' ').nth(1).unwrap_or(&[]);
    let listing = match word.first() {
        Some(b'c') => LISTING,
        Some(b'l') => LATER,
        Some(b'i') => return Ok(Answered::Infeasible),
        _ => return Ok(Answered::Spent),
    };
    Ok(Answered::Code {
        cost: number_at(head, 2),
        bound: number_at(head, 3),
        code: code(alloc, listing)?,
        solution: numbers(alloc, head)?,
    })
}

/// The name of a row.
fn name(head: &[u8]) -> &[u8] {
    cut(head, b' ').0
}

/// All registers and slots.
fn options() -> Options
    ensures { AreOptions result }
{
    Options {
        regs: None,
        slots: SLOTS,
    }
}

/// The report of a row.
fn report(alloc: Global, head: &[u8], tree: &[u8]) -> Result<Report, NoMemory>
    ensures version { IfOk result (λ r. IsVersion r.version) }
    ensures options { IfOk result (λ r. AreOptions r.options) }
{
    let Some(name) = Name::from_bytes(name(head)) else {
        return Err(NoMemory);
    };
    let answer = answer(alloc, head)?;
    let Ok(tree) = read_tree(alloc, tree) else {
        return Err(NoMemory);
    };
    Ok(Report {
        version: LAST,
        name,
        options: options(),
        nodes: 2000,
        answer,
        tree,
    })
}

/// What the check answers for the view of a row.
fn told_by_view(
    alloc: Global,
    f: &Function,
    head: &[u8],
    tree: &[u8],
) -> Result<Result<(), NoCause>, NoMemory> {
    let answer = answer(alloc, head)?;
    let Some(count) = count_lines(tree) else {
        return Err(NoMemory);
    };
    let Ok(count) = u32::try_from(count) else {
        return Err(NoMemory);
    };
    let view = ReportView {
        version: LAST,
        name: name(head),
        options: options(),
        nodes: 2000,
        answer,
        tree,
        count,
    };
    check_view(alloc, f, &view)
}

/// Appends a word and a number.
fn put_part(out: &mut Vec<u8>, word: &[u8], n: u32) -> Result<(), NoMemory> {
    put_text(out, word)?;
    put_number(out, u64::from(n))
}

/// Appends a cause.
fn put_cause(out: &mut Vec<u8>, cause: NoCause) -> Result<(), NoMemory> {
    match cause {
        NoCause::Name => put_text(out, b"no name"),
        NoCause::Solution(rule) => put_part(out, b"no solution ", u32::from(rule)),
        NoCause::Cost => put_text(out, b"no cost"),
        NoCause::Listing => put_text(out, b"no listing"),
        NoCause::Strict(place) => put_part(out, b"no strict ", place),
        NoCause::Split(place) => put_part(out, b"no split ", place),
        NoCause::Alive(place) => put_part(out, b"no alive ", place),
        NoCause::Closed(place) => put_part(out, b"no closed ", place),
        NoCause::Mirror(place) => put_part(out, b"no mirror ", place),
        NoCause::Short => put_text(out, b"no short"),
        NoCause::Spent => put_text(out, b"no spent"),
        NoCause::Bound => put_text(out, b"no bound"),
    }
}

/// Whether an answer is what is wanted.
fn is_wanted(alloc: Global, told: Result<(), NoCause>, wanted: &[u8]) -> Result<bool, NoMemory> {
    let mut out = Vec::new(alloc);
    match told {
        Ok(()) => put_text(&mut out, b"yes")?,
        Err(cause) => put_cause(&mut out, cause)?,
    }
    Ok(out.as_slice() == wanted)
}

/// Whether the report of a row and its view have their answer.
fn is_told(alloc: Global, f: &Function, row: &[u8]) -> Result<bool, NoMemory> {
    let (text, wanted) = cut(row, b'?');
    let (head, tree) = cut(text, b'\n');
    let report = report(alloc, head, tree)?;
    let told = check_report(alloc, f, &report)?;
    if !is_wanted(alloc, told, wanted)? {
        return Ok(false);
    }
    let told = told_by_view(alloc, f, head, tree)?;
    is_wanted(alloc, told, wanted)
}

/// The first row whose answer is another, if there is one.
fn first_wrong(alloc: Global) -> Result<Option<&'static [u8]>, NoMemory> {
    let Ok(f) = read_function(alloc, FUNCTION) else {
        return Err(NoMemory);
    };
    for row in REPORTS.split(|b| *b == b'|') {
        if !is_told(alloc, &f, row)? {
            return Ok(Some(row));
        }
    }
    Ok(None)
}

#[test]
fn changed_reports(rt: HostRuntime) {
    let wrong = named(first_wrong(rt.alloc()));
    assert!(rt; wrong.is_empty(), "{wrong}");
}
