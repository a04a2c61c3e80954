//! The lines of a start, read.

ghost use Rattle.std.specs.Prelude.{◌≡◌, ◌≢◌, ℕ, ◌<◌, ◌^◌, List, ◌∷◌, ◌++◌, IfSome, IfNone, decimal};
ghost use Rattle.un_start.specs.declared.line.Line.{Line};
ghost use Rattle.un_start.specs.Lines.{Fits, AreWords, two_numbers, word_of, numbers_text, line_text, BeginsWith, BeginsNoLine};

use crate::word::{Word, word_of};
use un_base::decimal::number_of;
use un_base::lines::cut;

/// A line of a start.
#[derive(Clone, Copy)]
pub enum Line {
    /// A register and its number.
    Reg { reg: u32, value: u32 },
    /// An address and the word there.
    Mem { address: u32, word: u32 },
    /// The result of a call.
    Reply(u32),
    /// An address and the word that the call puts there.
    Set { address: u32, word: u32 },
    /// A register and what the call leaves there.
    Junk { reg: u32, value: u32 },
    /// How many blocks may be entered.
    Blocks(u32),
}

/// The two numbers whose text this is.
fn numbers_of(text: &[u8]) -> Option<(u32, u32)>
    ensures some { IfSome result (λ p. text.now ≡ two_numbers p.0 p.1) }
    ensures none { IfNone result ((m n : ℕ) → AreWords m n → text.now ≢ two_numbers m n) }
{
    let (first, second) = cut(text, b' ')?;
    let first = number_of(first)?;
    let second = number_of(second)?;
    Some((first, second))
}

/// The line with these numbers, whose first word is this one.
fn line_with(kind: Word, numbers: &[u8]) -> Option<Line>
    ensures some { IfSome result (λ l. (word_of l ≡ kind) × (numbers.now ≡ numbers_text l)) }
    ensures none { IfNone result ((l : Line) → Fits l → word_of l ≡ kind → numbers.now ≢ numbers_text l) }
{
    match kind {
        Word::Reg => match numbers_of(numbers) {
            Some((reg, value)) => Some(Line::Reg { reg, value }),
            None => None,
        },
        Word::Mem => match numbers_of(numbers) {
            Some((address, word)) => Some(Line::Mem { address, word }),
            None => None,
        },
        Word::Reply => match number_of(numbers) {
            Some(n) => Some(Line::Reply(n)),
            None => None,
        },
        Word::Set => match numbers_of(numbers) {
            Some((address, word)) => Some(Line::Set { address, word }),
            None => None,
        },
        Word::Junk => match numbers_of(numbers) {
            Some((reg, value)) => Some(Line::Junk { reg, value }),
            None => None,
        },
        Word::Blocks => match number_of(numbers) {
            Some(n) => Some(Line::Blocks(n)),
            None => None,
        },
    }
}

/// The line that a text is, without its line feed.
fn line_of(text: &[u8]) -> Option<Line>
    ensures some { IfSome result (λ l. text.now ≡ line_text l) }
    ensures none { IfNone result ((l : Line) → Fits l → text.now ≢ line_text l) }
{
    let (kind, numbers) = cut(text, b' ')?;
    line_with(word_of(kind)?, numbers)
}

/// The line with which a text begins, and what stands behind its line feed.
pub(crate) fn first_line(text: &[u8]) -> Option<(Line, &[u8])>
    ensures some { IfSome result (λ p. BeginsWith text.now p.0 p.1.now) }
    ensures none { IfNone result (BeginsNoLine text.now) }
{
    let (line, rest) = cut(text, b'\n')?;
    let line = line_of(line)?;
    Some((line, rest))
}
