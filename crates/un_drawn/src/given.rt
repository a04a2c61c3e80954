//! What stands behind a function: a report, or values alone.

ghost use Rattle.un_isa.specs.Versions.{IsVersion};

use un_base::decimal::read_decimal;
use un_base::lines::lines;
use un_isa::table::LAST;

/// What stands behind a function for a drawing.
#[derive(Clone, Copy)]
pub struct Given<'a> {
    /// The text of the values of a solution: its numbers alone.
    pub values: &'a [u8],
    /// How many lines of what stands behind the function come before those numbers; 0 where it is no report.
    pub before: u32,
    /// The bound that a report has; None where there is none.
    pub bound: Option<u64>,
    /// How many open leaves a report's tree has; 0 where there is no tree.
    pub open: u32,
}

/// How far a report is read: the lines so far, where the values begin and end once their lines have come, the bound, and open leaves.
#[derive(Clone, Copy)]
struct Marks {
    line: u32,
    before: u32,
    begin: Option<usize>,
    end: Option<usize>,
    bound: Option<u64>,
    open: u32,
}

/// The marks with a line that begins at `at` and behind which the text goes on at `next`. After the values' line come values, up to the
/// tree's, and then nodes.
fn marked(marks: Marks, line: &[u8], at: usize, next: usize) -> Marks {
    let mut marks = marks;
    marks.line = marks.line.saturating_add(1);
    if marks.begin.is_none() && line.starts_with(b"solution ") {
        marks.begin = Some(next);
        marks.before = marks.line;
    } else if marks.end.is_none() && line.starts_with(b"tree ") {
        marks.end = Some(at);
    } else if marks.bound.is_none() {
        marks.bound = line.strip_prefix(b"bound ").and_then(read_decimal);
    } else if marks.end.is_some() && line == b"O".as_slice() {
        marks.open = marks.open.saturating_add(1);
    }
    marks
}

/// The marks of a text.
fn marks_of(text: &[u8]) -> Marks {
    let mut marks = Marks {
        line: 0,
        before: 0,
        begin: None,
        end: None,
        bound: None,
        open: 0,
    };
    let mut at: usize = 0;
    for line in lines(text) {
        let next = at.saturating_add(line.len()).saturating_add(1);
        marks = marked(marks, line, at, next);
        at = next;
    }
    marks
}

/// What a text gives: of a report the numbers between the line `solution V` and the line `tree T`; of another text all of it.
pub fn read_given(text: &[u8]) -> Given<'_> {
    let marks = marks_of(text);
    let begin = marks.begin.unwrap_or(0);
    let end = marks.end.unwrap_or(text.len());
    Given {
        values: text.get(begin..end).unwrap_or(text),
        before: marks.before,
        bound: marks.bound,
        open: marks.open,
    }
}

/// The version of the report that a text is, by its first line; the last one where the text is none.
pub fn version_of(text: &[u8]) -> u8
    ensures { IsVersion result }
{
    if text.starts_with(b"unison 1") {
        1
    } else if text.starts_with(b"unison 2") {
        2
    } else {
        LAST
    }
}
