//! The lines of a step log, read.

ghost use Rattle.std.specs.Prelude.{◌≡◌, ◌≢◌, ◌↔◌, ℕ, ◌<◌, ◌≤◌, ◌^◌, List, [], ◌∷◌, ◌++◌, IsTrue, codes, IfSome, IfNone, decimal};
ghost use Rattle.un_judge.specs.Lines.{rule_number, numbered, step_text, Fits, Says, Begins};
ghost use Rattle.un_steps.specs.declared.step.Rule.{Rule};
ghost use Rattle.un_steps.specs.declared.step.Step.{Step};

use un_base::decimal::number_of;
use un_base::ids::VarId;
use un_base::lines::cut;
use un_steps::step::{Rule, Step};

/// A line of a log.
#[derive(Clone, Copy)]
pub enum Line {
    /// The end of a leaf.
    Dot,
    /// Values that go.
    Takes(Step),
    /// Neither.
    Other,
}

/// What a log begins with.
#[derive(Clone, Copy)]
pub enum First<'a> {
    /// Nothing is left.
    End,
    /// A line, and what stands behind it.
    Next { line: Line, rest: &'a [u8] },
}

/// The rule with this number.
fn rule_of(number: u32) -> Option<Rule>
    ensures some { IfSome result (λ rule. number ≡ rule_number rule) }
    ensures none { IfNone result ((rule : Rule) → number ≢ rule_number rule) }
{
    match number {
        1 => Some(Rule::TooSoon),
        2 => Some(Rule::Idle),
        3 => Some(Rule::OutsideBlock),
        4 => Some(Rule::FromIdle),
        5 => Some(Rule::TooLateFor),
        6 => Some(Rule::OutsideSpace),
        7 => Some(Rule::NoSpace),
        8 => Some(Rule::Alike),
        9 => Some(Rule::NotHome),
        10 => Some(Rule::NotCongruent),
        11 => Some(Rule::TooDear),
        12 => Some(Rule::NoFrame),
        13 => Some(Rule::TooFull),
        _ => None,
    }
}

/// The rule with this number, if it is one of the first that hold.
fn held_rule(rules: u32, number: u32) -> Option<Rule>
    ensures some { IfSome result (λ rule. (number ≡ rule_number rule) × (rule_number rule ≤ rules)) }
    ensures none { IfNone result ((rule : Rule) → rule_number rule ≤ rules → number ≢ rule_number rule) }
{
    if rules < number {
        return None;
    }
    rule_of(number)
}

/// The number before the first blank, and what stands behind it.
fn number_first(text: &[u8]) -> Option<(u32, &[u8])>
    ensures some { IfSome result (λ parts. text.now ≡ numbered parts.0 parts.1.now) }
    ensures small { IfSome result (λ parts. parts.0 < 2 ^ 32) }
    ensures none { IfNone result ((n : ℕ) (rest : List ℕ) → n < 2 ^ 32 → text.now ≢ numbered n rest) }
{
    let (first, rest) = cut(text, b' ')?;
    let number = number_of(first)?;
    Some((number, rest))
}

/// The step whose text this is.
fn step_of(rules: u32, text: &[u8]) -> Option<Step>
    ensures some { IfSome result (λ s. (text.now ≡ step_text s) × (rule_number s.rule ≤ rules)) }
    ensures none { IfNone result ((s : Step) → Fits rules s → text.now ≢ step_text s) }
{
    let (number, text) = number_first(text)?;
    let rule = held_rule(rules, number)?;
    let (place, text) = number_first(text)?;
    let (var, text) = number_first(text)?;
    let (first, text) = number_first(text)?;
    let last = number_of(text)?;
    let var = VarId(var);
    Some(Step {
        rule,
        place,
        var,
        first,
        last,
    })
}

/// Whether this is a dot.
fn is_dot(text: &[u8]) -> bool
    ensures { IsTrue result ↔ (text.now ≡ codes ".") }
{
    text == b".".as_slice()
}

/// What a line says, without its line feed.
fn line_of(rules: u32, text: &[u8]) -> Line
    ensures { Says rules (text.now ++ 10 ∷ []) result }
{
    if is_dot(text) {
        return Line::Dot;
    }
    match step_of(rules, text) {
        None => Line::Other,
        Some(step) => Line::Takes(step),
    }
}

/// Reads the first line of what is left of a log, by so many rules. It takes no memory.
pub fn first_line(rules: u32, text: &[u8]) -> First<'_>
    ensures { Begins rules text.now result }
{
    if text.is_empty() {
        return First::End;
    }
    match cut(text, b'\n') {
        None => First::Next {
            line: Line::Other,
            rest: &[],
        },
        Some((line, rest)) => First::Next {
            line: line_of(rules, line),
            rest,
        },
    }
}
