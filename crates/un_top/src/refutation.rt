//! The check of a refutation, as the program answers it.

ghost use Rattle.std.specs.Prelude.{◌≡◌, ◌↔◌, ◌≤◌, IsTrue, IfOk, IfErr, length};
ghost use Rattle.un_isa.specs.Versions.{table_of};
ghost use Rattle.un_isa.specs.declared.table.TheConstants.{LAST};
ghost use Rattle.un_model.specs.Options.{AreOptions};
ghost use Rattle.un_refutation.specs.Readings.{IsRefutationRead};
ghost use Rattle.un_top.specs.Behaviours.{of_refutation};
ghost use Rattle.un_top.specs.Checks.{no_line};
ghost use Rattle.un_top.specs.Refutations.{IsJudgedSo, IsRefutationTold, IsRefutationCheck, verdict_line, verdict_status};
ghost use Rattle.un_top.specs.Refutations.{RefusesRefutation, RefusesRefutationCheck};
ghost use Rattle.un_top.specs.Runs.{IsWritten, RefusesText};
ghost use Rattle.un_top.specs.declared.limits.TheConstants.{INPUT};

use crate::check::{put_counted, put_no};
use crate::output::Output;
use crate::produce::status_by;
use crate::reading::refutation_of;
use std::alloc::Global;
use un_base::memory_error::NoMemory;
use un_ir::function::Function;
use un_isa::table::{LAST, table_of};
use un_outside::status::{NoCause, Status};
use un_problem::problem::model;
use un_refutation::refutation::Refutation;
use un_refutes::check::check_sym;
use un_refutes::verdict::SymVerdict;
use un_runs::input::split;
use un_runs::refused::Refused;
use un_runs::runs::function_of;

/// The line for a verdict on the tree of a refutation under a limit.
fn verdict_text(alloc: Global, limit: u64, verdict: SymVerdict) -> Result<Vec<u8>, NoMemory>
    ensures { IfOk result (λ text. text.items ≡ verdict_line limit verdict) }
{
    let mut out = Vec::new(alloc);
    match verdict {
        SymVerdict::Yes => put_counted(&mut out, b"yes refuted ", limit)?,
        SymVerdict::NotStrict(place) => put_no(&mut out, NoCause::Strict(place))?,
        SymVerdict::NotClosed(place) => put_no(&mut out, NoCause::Closed(place))?,
        SymVerdict::NotMirror(place) => put_no(&mut out, NoCause::Mirror(place))?,
        SymVerdict::Short => put_no(&mut out, NoCause::Short)?,
    }
    Ok(out)
}

/// How a run ends that writes it.
fn verdict_status(verdict: SymVerdict) -> Status
    ensures is { result ≡ verdict_status verdict }
    ensures written { IsWritten result }
{
    match verdict {
        SymVerdict::Yes => Status::Done,
        SymVerdict::NotStrict(place) => Status::No(NoCause::Strict(place)),
        SymVerdict::NotClosed(place) => Status::No(NoCause::Closed(place)),
        SymVerdict::NotMirror(place) => Status::No(NoCause::Mirror(place)),
        SymVerdict::Short => Status::No(NoCause::Short),
    }
}

/// What is put out where a refutation is of a function of another name.
fn other_name(alloc: Global) -> Result<Output, NoMemory>
    ensures ends { IfOk result (λ out. out.status ≡ Status.No NoCause.Name) }
    ensures printed { IfOk result (λ out. out.text.items ≡ no_line NoCause.Name) }
    ensures written { IfOk result (λ out. IsWritten out.status) }
{
    let mut text = Vec::new(alloc);
    put_no(&mut text, NoCause::Name)?;
    Ok(Output {
        text,
        status: Status::No(NoCause::Name),
    })
}

/// The verdict on the tree of a refutation, by the function's model under its options.
fn judged(alloc: Global, f: &Function, r: &Refutation) -> Result<Output, NoMemory>
    requires options { AreOptions r.now.options }
    requires same { r.now.name ≡ f.now.name }
    ensures told { IfOk result (λ out. IsJudgedSo (table_of LAST) f.now r.now out.status out.text.items) }
    ensures written { IfOk result (λ out. IsWritten out.status) }
{
    let model = model(alloc, f, &table_of(LAST), &r.options)?;
    let verdict = check_sym(alloc, &model, r.limit, &r.tree)?;
    let text = verdict_text(alloc, r.limit, verdict)?;
    Ok(Output {
        text,
        status: verdict_status(verdict),
    })
}

/// Whether a refutation is of this function, by its name.
fn is_of(f: &Function, r: &Refutation) -> bool
    ensures { IsTrue result ↔ (r.now.name ≡ f.now.name) }
{
    r.name.as_bytes() == f.name.as_bytes()
}

/// The answer to a refutation, on a function.
fn told(alloc: Global, f: &Function, text: &[u8], r: &Refutation) -> Result<Output, NoMemory>
    requires read { IsRefutationRead text.now r.now }
    ensures told { IfOk result (λ out. IsRefutationTold (table_of LAST) f.now text.now out.status out.text.items) }
    ensures written { IfOk result (λ out. IsWritten out.status) }
{
    let _ = text;
    if is_of(f, r) {
        judged(alloc, f, r)
    } else {
        other_name(alloc)
    }
}

/// The check of the refutation that a text is, on a function.
fn check_of(alloc: Global, f: &Function, text: &[u8]) -> Result<Output, Refused>
    ensures ok { IfOk result (λ out. IsRefutationTold (table_of LAST) f.now text.now out.status out.text.items) }
    ensures written { IfOk result (λ out. IsWritten out.status) }
    ensures refused { IfErr result (RefusesRefutation text.now) }
{
    let refutation = refutation_of(alloc, text)?;
    let out = told(alloc, f, text, &refutation)?;
    Ok(out)
}

/// The check of the refutation in the second part of an input, on the function in the first one.
///
/// # Errors
/// `TextFault` with the first fault of the function's text; `BadSecond` with the first bad line of the refutation; `NoMemory` where there is
/// no memory for the check.
fn refutation_check(alloc: Global, input: &[u8]) -> Result<Output, Refused>
    ensures ok { IfOk result (λ out. IsRefutationCheck (table_of LAST) input.now out.status out.text.items) }
    ensures written { IfOk result (λ out. IsWritten out.status) }
    ensures refused { IfErr result (RefusesRefutationCheck input.now) }
{
    let parts = split(input);
    let f = function_of(alloc, parts.first)?;
    let out = check_of(alloc, &f, parts.second)?;
    Ok(out)
}

/// The same, with want of an outcome as the status of a run.
pub(crate) fn refutation_output(alloc: Global, input: &[u8]) -> Result<Output, Status>
    requires few { length input.now ≤ INPUT }
    ensures ok { IfOk result (λ out. of_refutation.Output input.now out.status out.text.items) }
    ensures written { IfOk result (λ out. IsWritten out.status) }
    ensures refused { IfErr result (RefusesText of_refutation input.now) }
{
    match refutation_check(alloc, input) {
        Ok(output) => Ok(output),
        Err(refused) => Err(status_by(refused)),
    }
}
