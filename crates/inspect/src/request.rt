//! What the words of the command line ask for.

ghost use Rattle.std.specs.Prelude.{◌≤◌, ◌<◌, ◌^◌, IfOk, IfSome};
ghost use Rattle.un_model.specs.Options.{AreOptions, IsCountOfRegisters};

use crate::swept::sweep_options;
use un_base::decimal::read_decimal;
use un_drawn::drawn::Form;
use un_isa::reg::SLOTS;
use un_model::model::{ASSIGNABLE, Options};
use un_outside::words::Word;

/// What is shown of a function's model.
#[derive(Clone, Copy)]
pub enum Shown {
    /// Its variables with their domains.
    Variables,
    /// The cost of a solution, or the clauses that values break.
    Violations,
    /// The code of a solution, or the clauses that values break.
    Emit,
    /// The precedences among the operations that every solution issues, and what every solution costs at least by them.
    Arcs,
    /// All that it is, as plain lines.
    Facts,
    /// What rounds of propagators leave of the variables' domains, under a limit on the cost and decisions.
    Rounds,
    /// A solution drawn or explained, or the clauses that values break.
    Drawn(Form),
}

/// Which part of a function's problem is shown, or what is timed.
#[derive(Clone, Copy)]
pub enum Part {
    /// The names live at each block's start.
    Live,
    /// The extended function.
    Extended,
    /// A part of its model.
    Model(Shown),
    /// The solution of its model that keeps each name in a frame slot.
    Baseline,
    /// The parts of `alloc` and of a search.
    Times,
    /// Attempts at a solution that costs less than the one before.
    Search,
    /// The first solution, and what it costs beside the root's bound.
    First,
    /// A store with chains of precedences, of no function.
    Chains,
    /// What code costs with each number of registers.
    Sweep,
}

/// The numbers behind a word: each is 1 to 1,000,000.
#[derive(Clone, Copy)]
pub struct Counts {
    /// How often a part is called, how many nodes an attempt or a search has, or how many precedences there are; None where it is left
    /// out.
    pub first: Option<u32>,
    /// How often a model is posted, by how many trials attempts begin, or how many marks are set; 1 where it is left out.
    pub second: u32,
}

/// What the words ask for.
#[derive(Clone, Copy)]
pub struct Request {
    /// What is shown or timed.
    pub part: Part,
    /// The options of the function's model; all registers and slots where the words give none.
    pub options: Options,
    /// How often or how large, for what is timed.
    pub counts: Counts,
}

/// The largest count.
const MOST: u32 = 1_000_000;

/// No count but the second's.
const ONCE: Counts = Counts {
    first: None,
    second: 1,
};

/// All registers, and all slots.
const DEFAULT: Options = Options {
    regs: None,
    slots: SLOTS,
};

/// The words, and the part that each names.
static PARTS: [(&[u8], Part); 16] = [
    (b"live", Part::Live),
    (b"extended", Part::Extended),
    (b"variables", Part::Model(Shown::Variables)),
    (b"baseline", Part::Baseline),
    (b"violations", Part::Model(Shown::Violations)),
    (b"emit", Part::Model(Shown::Emit)),
    (b"arcs", Part::Model(Shown::Arcs)),
    (b"facts", Part::Model(Shown::Facts)),
    (b"rounds", Part::Model(Shown::Rounds)),
    (b"draw", Part::Model(Shown::Drawn(Form::Tables))),
    (b"explain", Part::Model(Shown::Drawn(Form::Words))),
    (b"times", Part::Times),
    (b"search", Part::Search),
    (b"first", Part::First),
    (b"chains", Part::Chains),
    (b"sweep", Part::Sweep),
];

/// The part that a word names.
fn named_part(word: &Word) -> Option<Part> {
    for (name, part) in PARTS.iter() {
        if word.is(name) {
            return Some(*part);
        }
    }
    None
}

/// The number that a word is, where it is one from `low` to `high`.
fn number_in(word: &Word, low: u32, high: u32) -> Option<u32>
    ensures low { IfSome result (λ n. low ≤ n) }
    ensures high { IfSome result (λ n. n ≤ high) }
{
    match read_decimal(word.as_bytes()) {
        Some(n) if n >= u64::from(low) && n <= u64::from(high) => Some(n as u32),
        _ => None,
    }
}

/// The number that stands at a place of the words, where it is one from `low` to `high`.
///
/// # Errors
/// The place, where it is none.
pub(crate) fn number_at(words: &[Word], place: u32, low: u32, high: u32) -> Result<u32, u32>
    ensures low { IfOk result (λ n. low ≤ n) }
    ensures high { IfOk result (λ n. n ≤ high) }
{
    match words.get(place as usize) {
        None => Err(place),
        Some(word) => match number_in(word, low, high) {
            Some(n) => Ok(n),
            None => Err(place),
        },
    }
}

/// The options so far, each once.
#[derive(Clone, Copy)]
struct Given {
    regs: Option<u32>,
    slots: Option<u32>,
}

/// The options with the one at a place of the words, and its number behind it.
///
/// # Errors
/// The place at which no accepted list of words goes on so.
fn with_option(words: &[Word], place: u32, given: Given) -> Result<Given, u32>
    requires place { place < 2 ^ 31 }
    requires regs { IfSome given.regs IsCountOfRegisters }
    requires slots { IfSome given.slots (λ n. n ≤ SLOTS) }
    ensures regs { IfOk result (λ g. IfSome g.regs IsCountOfRegisters) }
    ensures slots { IfOk result (λ g. IfSome g.slots (λ n. n ≤ SLOTS)) }
{
    match words.get(place as usize) {
        Some(word) if word.is(b"--regs") && given.regs.is_none() => {
            let regs = number_at(words, place + 1, 1, ASSIGNABLE)?;
            Ok(Given {
                regs: Some(regs),
                slots: given.slots,
            })
        }
        Some(word) if word.is(b"--slots") && given.slots.is_none() => {
            let slots = number_at(words, place + 1, 0, SLOTS)?;
            Ok(Given {
                regs: given.regs,
                slots: Some(slots),
            })
        }
        _ => Err(place),
    }
}

/// The options that the words behind the first give: two pairs of words at most.
///
/// # Errors
/// The least place at which no accepted list of words begins so.
fn options(words: &[Word]) -> Result<Options, u32>
    ensures { IfOk result AreOptions }
{
    let mut given = Given {
        regs: None,
        slots: None,
    };
    for pair in 0..3u32 {
        let place = 1 + 2 * pair;
        if words.len() <= place as usize {
            return Ok(Options {
                regs: given.regs,
                slots: given.slots.unwrap_or(SLOTS),
            });
        }
        given = with_option(words, place, given)?;
    }
    Err(5)
}

/// The options that words behind the first give for a part. The solution that keeps each name in a slot is the same under all
/// options under which it is one, so it takes none.
///
/// # Errors
/// The least place at which no accepted list of words begins so.
fn options_of(part: Part, words: &[Word]) -> Result<Options, u32>
    ensures { IfOk result AreOptions }
{
    match part {
        Part::Baseline if words.len() > 1 => Err(1),
        _ => options(words),
    }
}

/// The count that stands at a place of the words, where there are so many.
///
/// # Errors
/// The place, where another word stands there.
fn count_at(words: &[Word], place: u32) -> Result<Option<u32>, u32> {
    if words.len() <= place as usize {
        return Ok(None);
    }
    match number_at(words, place, 1, MOST) {
        Ok(n) => Ok(Some(n)),
        Err(place) => Err(place),
    }
}

/// The counts that the words behind the first are: two at most.
///
/// # Errors
/// The least place at which no accepted list of words begins so.
fn counts_in(words: &[Word]) -> Result<Counts, u32> {
    let first = count_at(words, 1)?;
    let second = count_at(words, 2)?;
    if words.len() > 3 {
        return Err(3);
    }
    Ok(Counts {
        first,
        second: second.unwrap_or(1),
    })
}

/// What words ask for that begin with a part's.
///
/// # Errors
/// The least place at which no accepted list of words begins so.
fn request_of(part: Part, words: &[Word]) -> Result<Request, u32>
    ensures { IfOk result (λ r. AreOptions r.options) }
{
    let mut asked = Request {
        part,
        options: DEFAULT,
        counts: ONCE,
    };
    match part {
        Part::Times | Part::Search | Part::First | Part::Chains => asked.counts = counts_in(words)?,
        _ => asked.options = options_of(part, words)?,
    }
    Ok(asked)
}

/// What words ask for that begin with `sweep`.
///
/// # Errors
/// The least place at which no accepted list of words begins so.
fn sweep_of(words: &[Word]) -> Result<Request, u32>
    ensures { IfOk result (λ r. AreOptions r.options) }
{
    let swept = sweep_options(words)?;
    let slots = swept.slots.unwrap_or(SLOTS);
    Ok(Request {
        part: Part::Sweep,
        options: Options { regs: None, slots },
        counts: Counts {
            first: swept.nodes,
            second: 1,
        },
    })
}

/// What words ask for that begin with a part's and `--svg`, which only the part of tables takes.
///
/// # Errors
/// The least place at which no accepted list of words begins so.
fn drawing_of(part: Part, words: &[Word]) -> Result<Request, u32>
    ensures { IfOk result (λ r. AreOptions r.options) }
{
    match part {
        Part::Model(Shown::Drawn(Form::Tables)) => {
            let drawing = Part::Model(Shown::Drawn(Form::Drawing));
            match request_of(drawing, words.get(1..).unwrap_or(words)) {
                Ok(asked) => Ok(asked),
                Err(place) => Err(place.saturating_add(1)),
            }
        }
        _ => request_of(part, words),
    }
}

/// Whether the second word is `--svg`.
fn has_svg(words: &[Word]) -> bool {
    match words.get(1) {
        Some(word) => word.is(b"--svg"),
        None => false,
    }
}

/// What the words ask for.
///
/// # Errors
/// The least place, from 0, at which no accepted list of words begins with the words up to and with that place.
pub fn asked_for(words: &[Word]) -> Result<Request, u32>
    ensures { IfOk result (λ r. AreOptions r.options) }
{
    match words.first().and_then(named_part) {
        Some(Part::Sweep) => sweep_of(words),
        Some(part) if has_svg(words) => drawing_of(part, words),
        Some(part) => request_of(part, words),
        None => Err(0),
    }
}
