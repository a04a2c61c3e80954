//! Lines of step logs, written.

ghost use Rattle.std.specs.Prelude.{◌≡◌, ◌++◌, ◌∷◌, [], OnOk, decimal, codes};
ghost use Rattle.un_judge.specs.Lines.{rule_number, numbered, step_line, dot_line};

use un_base::memory_error::NoMemory;
use un_ir::text::{put_number, put_text};
use un_steps::step::{Rule, Step};

/// The number of a rule.
fn rule_number(rule: Rule) -> u32
    ensures { result ≡ rule_number rule }
{
    match rule {
        Rule::TooSoon => 1,
        Rule::Idle => 2,
        Rule::OutsideBlock => 3,
        Rule::FromIdle => 4,
        Rule::TooLateFor => 5,
        Rule::OutsideSpace => 6,
        Rule::NoSpace => 7,
        Rule::Alike => 8,
        Rule::NotHome => 9,
        Rule::NotCongruent => 10,
        Rule::TooDear => 11,
        Rule::NoFrame => 12,
        Rule::TooFull => 13,
    }
}

/// Appends a number and a blank.
fn put_part(text: &mut Vec<u8>, n: u32) -> Result<(), NoMemory>
    ensures { OnOk result (text.new.items ≡ text.old.items ++ numbered n []) }
{
    put_number(text, u64::from(n))?;
    put_text(text, b" ")
}

/// Appends a number and a line feed.
fn put_last(text: &mut Vec<u8>, n: u32) -> Result<(), NoMemory>
    ensures { OnOk result (text.new.items ≡ text.old.items ++ (decimal n ++ codes "\n")) }
{
    put_number(text, u64::from(n))?;
    put_text(text, b"\n")
}

/// Appends the line of a step.
pub(crate) fn put_step(text: &mut Vec<u8>, step: &Step) -> Result<(), NoMemory>
    ensures { OnOk result (text.new.items ≡ text.old.items ++ step_line step.now) }
{
    put_part(text, rule_number(step.rule))?;
    put_part(text, step.place)?;
    put_part(text, step.var.0)?;
    put_part(text, step.first)?;
    put_last(text, step.last)
}

/// Appends the line that ends a leaf.
pub(crate) fn put_dot(text: &mut Vec<u8>) -> Result<(), NoMemory>
    ensures { OnOk result (text.new.items ≡ text.old.items ++ dot_line) }
{
    put_text(text, b".\n")
}
