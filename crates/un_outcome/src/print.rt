//! Outcomes as text. Each function that appends has `NoMemory` where it finds no room.

ghost use Rattle.std.specs.Prelude.{◌≡◌, ◌++◌, ◌∷◌, [], map, OnOk, IfOk, codes};
ghost use Rattle.un_base.specs.Lines.{joined_lines};
ghost use Rattle.un_outcome.specs.Outcomes.{call_text, returned_line, value_line, end_lines, call_line, word_line, cycle_lines, outcome_text};

use crate::pieces::{put_behind, put_call, put_next};
use std::alloc::Global;
use un_base::ids::NameId;
use un_base::memory_error::NoMemory;
use un_base::name::Name;
use un_ir::function::Kind;
use un_ir::print::put_name;
use un_ir::text::{put_number, put_text};
use un_isa::outcome::{CallRecord, End, Outcome};

/// Appends the line of a return.
fn put_returned(out: &mut Vec<u8>, value: Option<u32>, target: Option<u32>) -> Result<(), NoMemory>
    ensures { OnOk result (out.new.items ≡ out.old.items ++ (returned_line value target ++ codes "\n")) }
{
    put_text(out, b"returned")?;
    put_behind(out, b" ", value)?;
    put_behind(out, b" target ", target)?;
    put_text(out, b"\n")
}

/// Appends the line of a name's value.
fn put_value(
    out: &mut Vec<u8>,
    names: &[(Name, Kind)],
    name: NameId,
    value: u32,
) -> Result<(), NoMemory>
    ensures { OnOk result (out.new.items ≡ out.old.items ++ (value_line names.now (name, value) ++ codes "\n")) }
{
    put_text(out, b"value ")?;
    put_name(out, names, name)?;
    put_next(out, value)?;
    put_text(out, b"\n")
}

/// Appends the lines of names' values.
fn put_values(
    out: &mut Vec<u8>,
    names: &[(Name, Kind)],
    values: &[(NameId, u32)],
) -> Result<(), NoMemory>
    ensures { OnOk result (out.new.items ≡ out.old.items ++ joined_lines (map (value_line names.now) values.now)) }
{
    for value in values {
        put_value(out, names, value.0, value.1)?;
    }
    Ok(())
}

/// Appends the lines of a run that would go on at a block with this label.
fn put_running(
    out: &mut Vec<u8>,
    names: &[(Name, Kind)],
    label: Name,
    values: &[(NameId, u32)],
) -> Result<(), NoMemory>
    ensures { OnOk result (out.new.items ≡ out.old.items
        ++ ((codes "running " ++ label ++ codes "\n") ++ joined_lines (map (value_line names.now) values.now))) }
{
    put_text(out, b"running ")?;
    put_text(out, label.as_bytes())?;
    put_text(out, b"\n")?;
    put_values(out, names, values)
}

/// Appends the line of a call, behind this word.
fn put_call_line(out: &mut Vec<u8>, word: &[u8], call: &CallRecord) -> Result<(), NoMemory>
    ensures { OnOk result (out.new.items ≡ out.old.items ++ ((word.now ++ call_text call.now) ++ codes "\n")) }
{
    put_text(out, word)?;
    put_call(out, call)?;
    put_text(out, b"\n")
}

/// Appends the lines of how a run ended.
fn put_end(out: &mut Vec<u8>, names: &[(Name, Kind)], end: &End) -> Result<(), NoMemory>
    ensures { OnOk result (out.new.items ≡ out.old.items ++ joined_lines (end_lines names.now end.now)) }
{
    match end {
        End::Returned { result, target } => put_returned(out, *result, *target),
        End::Trapped => put_text(out, b"trapped\n"),
        End::Waiting(call) => put_call_line(out, b"waiting ", call),
        End::Running { label, values } => put_running(out, names, *label, values.as_slice()),
    }
}

/// Appends the lines of calls.
fn put_calls(out: &mut Vec<u8>, calls: &[CallRecord]) -> Result<(), NoMemory>
    ensures { OnOk result (out.new.items ≡ out.old.items ++ joined_lines (map call_line calls.now)) }
{
    for call in calls {
        put_call_line(out, b"call ", call)?;
    }
    Ok(())
}

/// Appends the line of a word of memory.
fn put_word(out: &mut Vec<u8>, address: u32, word: u32) -> Result<(), NoMemory>
    ensures { OnOk result (out.new.items ≡ out.old.items ++ (word_line (address, word) ++ codes "\n")) }
{
    put_text(out, b"mem")?;
    put_next(out, address)?;
    put_next(out, word)?;
    put_text(out, b"\n")
}

/// Appends the lines of words of memory.
fn put_memory(out: &mut Vec<u8>, words: &[(u32, u32)]) -> Result<(), NoMemory>
    ensures { OnOk result (out.new.items ≡ out.old.items ++ joined_lines (map word_line words.now)) }
{
    for word in words {
        put_word(out, word.0, word.1)?;
    }
    Ok(())
}

/// Appends the line of the cycles, where they are counted.
fn put_cycles(out: &mut Vec<u8>, cycles: Option<u64>) -> Result<(), NoMemory>
    ensures { OnOk result (out.new.items ≡ out.old.items ++ joined_lines (cycle_lines cycles)) }
{
    match cycles {
        None => Ok(()),
        Some(n) => {
            put_text(out, b"cycles ")?;
            put_number(out, n)?;
            put_text(out, b"\n")
        }
    }
}

/// Appends an outcome.
fn put_outcome(out: &mut Vec<u8>, names: &[(Name, Kind)], o: &Outcome) -> Result<(), NoMemory>
    ensures { OnOk result (out.new.items ≡ out.old.items ++ outcome_text names.now o.now) }
{
    put_end(out, names, &o.end)?;
    put_calls(out, o.calls.as_slice())?;
    put_memory(out, o.memory.words())?;
    put_cycles(out, o.cycles)
}

/// The text of an outcome, by the names of the function that ran; of code there are none. First how the run ended: `returned` with the
/// result, where there is one, and for packets `target` with the address to which they return; `trapped`; `waiting` with what is called
/// and its arguments; or `running` with the label of the block that would be entered, and for a function a line `value` for each name
/// that is live there. Then a line `call` for each call, a line `mem` for each word of memory, and for packets a line `cycles`. What is no
/// place in `names` has no spelling, and the empty text stands for it.
///
/// # Errors
/// `NoMemory` where there is no memory for the text.
pub fn print_outcome(
    alloc: Global,
    names: &[(Name, Kind)],
    o: &Outcome,
) -> Result<Vec<u8>, NoMemory>
    ensures { IfOk result (λ text. text.items ≡ outcome_text names.now o.now) }
{
    let mut out = Vec::new(alloc);
    put_outcome(&mut out, names, o)?;
    Ok(out)
}
