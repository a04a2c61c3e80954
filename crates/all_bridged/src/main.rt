//! Compares the assembly of some reports, and what is made of some functions of LLVM's, with files of what is expected. An emulator and the
//! assembler said that the assembly does what the functions do, and the same of the imported functions, when the files were made.
#![tactic(auto)]

use std::alloc::Global;
use std::rt::Files;
use std::{fs, io};
use un_assembly::assembly::assembly;
use un_base::memory_error::NoMemory;
use un_imported::import::{Imported, import};
use un_report::report::Answered;
use un_report_reader::read::read_view;

/// The names of reports: `NAME.report` has one, and `NAME.s` its assembly.
static ASSEMBLED: [&str; 2] = ["dot", "total"];

/// The names of functions of LLVM's: `NAME.ll` has one, and `NAME.uni` what is made of it, or the lines that say what is missing.
static IMPORTED: [&str; 5] = ["crc", "digits", "grade", "list_find", "wide"];

/// What is said of a text beside the expected one.
fn verdict(expected: Result<bool, NoMemory>) -> &'static str {
    match expected {
        Ok(true) => "as expected",
        Ok(false) => "otherwise",
        Err(_) => "no memory",
    }
}

/// Whether a report's assembly is the expected one.
fn is_assembled(alloc: Global, report: &[u8], want: &[u8]) -> Result<bool, NoMemory> {
    let Ok(view) = read_view(alloc, report) else {
        return Ok(false);
    };
    match &view.answer {
        Answered::Code { code, .. } => {
            let text = assembly(alloc, view.name, code)?;
            Ok(text.as_slice() == want)
        }
        _ => Ok(false),
    }
}

/// Whether what is made of a function of LLVM's, or what is said of it, is the expected text.
fn is_imported(alloc: Global, module: &[u8], want: &[u8]) -> Result<bool, NoMemory> {
    match import(alloc, module, None)? {
        Imported::Function(text) => Ok(text.as_slice() == want),
        Imported::Refused(text) => Ok(text.as_slice() == want),
    }
}

/// The text of a file.
fn file(rt: &(impl Files + AllocGlobal), name: &str, ending: &str) -> io::Result<String> {
    let path = format!(in rt.alloc(); "{name}.{ending}")?;
    fs::read_to_string(rt, path.as_str())
}

/// Says of the report of this name whether its assembly is the expected one.
fn tell_assembled(rt: &(impl Files + Print + AllocGlobal), name: &str) -> io::Result<()> {
    let report = file(rt, name, "report")?;
    let want = file(rt, name, "s")?;
    let said = verdict(is_assembled(rt.alloc(), report.as_bytes(), want.as_bytes()));
    println!(rt; "{name}, assembled: {said}")
}

/// Says of the function of this name whether what is made of it is the expected text.
fn tell_imported(rt: &(impl Files + Print + AllocGlobal), name: &str) -> io::Result<()> {
    let module = file(rt, name, "ll")?;
    let want = file(rt, name, "uni")?;
    let said = verdict(is_imported(rt.alloc(), module.as_bytes(), want.as_bytes()));
    println!(rt; "{name}, imported: {said}")
}

fn main(rt: HostRuntime) -> io::Result<()> {
    for name in ASSEMBLED.iter() {
        tell_assembled(&rt, name)?;
    }
    for name in IMPORTED.iter() {
        tell_imported(&rt, name)?;
    }
    Ok(())
}
