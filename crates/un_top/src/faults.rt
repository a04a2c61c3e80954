//! The line on `err`.

ghost use Rattle.std.specs.Prelude.{◌≡◌, ◌⊎◌, ◌++◌, ℕ, ◌<◌, ◌≤◌, ◌^◌, List, OnOk, OnErr, map};
ghost use Rattle.std.specs.List.{concat};
ghost use Rattle.std.specs.Io.KnownBytes.{Appends};
ghost use Rattle.un_outside.specs.Causes.{Rose, AppendsPrefix};
ghost use Rattle.un_top.specs.Runs.{fault_line, table_line, numbered, line_of};

use itoa::Buffer;
use un_faults::fault;
use un_outside::outside::{Failed, Sink};
use un_outside::status::Status;
use un_outside::transfer::write_all;
use un_target::error;

/// Writes parts one after another.
fn write_parts<K: Sink>(sink: &mut K, parts: &[&[u8]]) -> Result<(), Failed>
    ensures all { OnOk result (Appends (K.held sink.old) (K.held sink.new) (concat (map (λ part. part.now) parts.now))) }
    ensures failed { OnErr result (Rose (K.faults sink.old) (K.faults sink.new)) }
    ensures prefix { OnErr result (AppendsPrefix (K.held sink.old) (K.held sink.new) (concat (map (λ part. part.now) parts.now))) }
{
    for part in parts {
        match write_all(sink, part) {
            Ok(()) => {}
            Err(failed) => return Err(failed),
        }
    }
    Ok(())
}

/// Writes a text, a number and a line feed.
fn write_numbered<K: Sink>(sink: &mut K, before: &[u8], number: u32) -> Result<(), Failed>
    ensures all { OnOk result (Appends (K.held sink.old) (K.held sink.new) (numbered before.now number)) }
    ensures failed { OnErr result (Rose (K.faults sink.old) (K.faults sink.new)) }
    ensures prefix { OnErr result (AppendsPrefix (K.held sink.old) (K.held sink.new) (numbered before.now number)) }
{
    let mut buffer = Buffer::new();
    let digits = buffer.format(number).as_bytes();
    write_parts(sink, &[before, digits, b"\n"])
}

/// Writes the line for a fault of the text.
fn write_fault<K: Sink>(sink: &mut K, line: u32, code: u8) -> Result<(), Failed>
    ensures all { OnOk result (Appends (K.held sink.old) (K.held sink.new) (fault_line line code)) }
    ensures failed { OnErr result (Rose (K.faults sink.old) (K.faults sink.new)) }
    ensures prefix { OnErr result (AppendsPrefix (K.held sink.old) (K.held sink.new) (fault_line line code)) }
{
    let mut line_buffer = Buffer::new();
    let mut code_buffer = Buffer::new();
    let line_digits = line_buffer.format(line).as_bytes();
    let code_digits = code_buffer.format(code).as_bytes();
    let name = fault::name_of(code);
    write_parts(
        sink,
        &[b"line ", line_digits, b": ", code_digits, b" ", name, b"\n"],
    )
}

/// Writes the line for a table that is refused.
fn write_table<K: Sink>(sink: &mut K, code: u8) -> Result<(), Failed>
    ensures all { OnOk result (Appends (K.held sink.old) (K.held sink.new) (table_line code)) }
    ensures failed { OnErr result (Rose (K.faults sink.old) (K.faults sink.new)) }
    ensures prefix { OnErr result (AppendsPrefix (K.held sink.old) (K.held sink.new) (table_line code)) }
{
    let mut buffer = Buffer::new();
    let digits = buffer.format(code).as_bytes();
    let name = error::name_of(code);
    write_parts(sink, &[b"bad table: ", digits, b" ", name, b"\n"])
}

/// Writes the line for a status, which takes no memory.
pub fn write_line<K: Sink>(sink: &mut K, status: Status) -> Result<(), Failed>
    ensures all { OnOk result (Appends (K.held sink.old) (K.held sink.new) (line_of status)) }
    ensures failed { OnErr result (Rose (K.faults sink.old) (K.faults sink.new)) }
    ensures prefix { OnErr result (AppendsPrefix (K.held sink.old) (K.held sink.new) (line_of status)) }
{
    match status {
        Status::Done | Status::Infeasible | Status::Spent | Status::No(_) => write_all(sink, b""),
        Status::Found { .. } | Status::Cut => write_all(sink, b""),
        Status::TextFault { line, code } => write_fault(sink, line, code),
        Status::Usage { word } => write_numbered(sink, b"usage: word ", word),
        Status::ReadFault => write_all(sink, b"read fault\n"),
        Status::WriteFault => write_all(sink, b"write fault\n"),
        Status::NoMemory => write_all(sink, b"no memory\n"),
        Status::BadReport { line } => write_numbered(sink, b"bad report: line ", line),
        Status::BadTable { code } => write_table(sink, code),
        Status::NoLog { node } => write_numbered(sink, b"no log: node ", node),
        Status::BadSteps { line } => write_numbered(sink, b"bad steps: line ", line),
    }
}
