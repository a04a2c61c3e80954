//! Pieces of the lines of an outcome. Each function appends one to a text, and there is `NoMemory` where it finds no room.

ghost use Rattle.std.specs.Prelude.{◌≡◌, ◌++◌, OnOk, codes, decimal};
ghost use Rattle.un_outcome.specs.Outcomes.{spaced_numbers, number_behind, call_text};

use un_base::memory_error::NoMemory;
use un_ir::text::{put_number, put_text};
use un_isa::outcome::CallRecord;

/// Appends a space and a number.
pub(crate) fn put_next(out: &mut Vec<u8>, n: u32) -> Result<(), NoMemory>
    ensures { OnOk result (out.new.items ≡ out.old.items ++ (codes " " ++ decimal n)) }
{
    put_text(out, b" ")?;
    put_number(out, u64::from(n))
}

/// Appends numbers, each behind a space.
fn put_all(out: &mut Vec<u8>, numbers: &[u32]) -> Result<(), NoMemory>
    ensures { OnOk result (out.new.items ≡ out.old.items ++ spaced_numbers numbers.now) }
{
    for n in numbers {
        put_next(out, *n)?;
    }
    Ok(())
}

/// Appends a text and a number, where there is a number.
pub(crate) fn put_behind(
    out: &mut Vec<u8>,
    text: &[u8],
    number: Option<u32>,
) -> Result<(), NoMemory>
    ensures { OnOk result (out.new.items ≡ out.old.items ++ number_behind text.now number) }
{
    match number {
        None => Ok(()),
        Some(n) => {
            put_text(out, text)?;
            put_number(out, u64::from(n))
        }
    }
}

/// Appends a call: the name of what is called, and the arguments.
pub(crate) fn put_call(out: &mut Vec<u8>, call: &CallRecord) -> Result<(), NoMemory>
    ensures { OnOk result (out.new.items ≡ out.old.items ++ call_text call.now) }
{
    put_text(out, call.name.as_bytes())?;
    put_all(out, call.args.as_slice())
}
