//! The log of a report's tree, and the check of a log, as the program answers them.

ghost use Rattle.std.specs.Prelude.{◌≡◌, ◌+◌, ◌≤◌, ◌⊎◌, IfOk, IfErr, MatchResult, codes, length};
ghost use Rattle.un_base.specs.Lines.{pieces_of};
ghost use Rattle.un_check.specs.Causes.{IsRight, claim_of};
ghost use Rattle.un_problem.specs.Problems.{IsProblemOf};
ghost use Rattle.un_report_reader.specs.Readings.{IsReport};
ghost use Rattle.un_top.specs.Behaviours.{of_steps, of_steps_check};
ghost use Rattle.un_top.specs.Checks.{no_line};
ghost use Rattle.un_top.specs.Runs.{IsWritten, RefusesText};
ghost use Rattle.un_top.specs.Steps.{rules_by, AreRead, HasNoSplit, IsAccepted, IsRefused, IsLog, IsGoodLog, IsWithoutLog, IsNotGood};
ghost use Rattle.un_top.specs.Steps.{IsLogOf, IsLogTold, IsLateLog, IsLateTold, RefusesBy};
ghost use Rattle.un_top.specs.declared.limits.TheConstants.{INPUT};

use crate::check::put_no;
use crate::output::Output;
use crate::produce::{done, status_by};
use crate::reading::report_in;
use std::alloc::Global;
use un_base::memory_error::NoMemory;
use un_base::numbers::{later, number};
use un_check::leaves::limit_of;
use un_check::report::check_report;
use un_ir::function::Function;
use un_ir::text::put_text;
use un_isa::table::table_of;
use un_judge::judge::judge;
use un_judge::verdict::StepVerdict;
use un_logs::log::log_tree;
use un_model::model::Model;
use un_outside::status::{NoCause, Status};
use un_problem::problem::model;
use un_report::report::Report;
use un_runs::input::{split, split_three};
use un_runs::runs::function_of;
use un_steps::step::{ALL_RULES, PLAIN_RULES};
use un_tree::split::first_split;
use un_words::pieces::first_len;

/// How many rules hold.
fn rules_by(counts: bool) -> u32
    ensures { result ≡ rules_by counts }
{
    if counts { ALL_RULES } else { PLAIN_RULES }
}

/// The model of a function by which its report is accepted, or the cause why it is not.
fn settle(alloc: Global, f: &Function, r: &Report) -> Result<Result<Model, NoCause>, NoMemory>
    requires report { IsReport r.now }
    ensures told { IfOk result (λ told. MatchResult told (IsAccepted f.now r.now) (IsRefused f.now r.now)) }
    ensures problem { IfOk result (λ told. IfOk told (IsProblemOf f.now)) }
{
    match check_report(alloc, f, r)? {
        Err(cause) => Ok(Err(cause)),
        Ok(()) => {
            let m = model(alloc, f, &table_of(r.version), &r.options)?;
            Ok(Ok(m))
        }
    }
}

/// What is put out of a report that is not accepted.
fn rejected(alloc: Global, cause: NoCause) -> Result<Output, Status>
    ensures ends { IfOk result (λ out. out.status ≡ Status.No cause) }
    ensures printed { IfOk result (λ out. out.text.items ≡ no_line cause) }
    ensures written { IfOk result (λ out. IsWritten out.status) }
    ensures short { IfErr result (λ s. s ≡ Status.NoMemory) }
{
    let mut text = Vec::new(alloc);
    match put_no(&mut text, cause) {
        Ok(()) => Ok(Output {
            text,
            status: Status::No(cause),
        }),
        Err(_) => Err(Status::NoMemory),
    }
}

/// How a run ends where a tree has a Split, the first one at this place.
fn split_status(place: usize) -> Status
    ensures { (result ≡ Status.NoMemory) ⊎ (result ≡ Status.NoLog place) }
{
    match number(place) {
        Ok(node) => Status::NoLog { node },
        Err(_) => Status::NoMemory,
    }
}

/// The log of an accepted report's tree without Splits, where each closed leaf gives one.
fn plain_log(
    alloc: Global,
    f: &Function,
    m: &Model,
    r: &Report,
    counts: bool,
) -> Result<Output, Status>
    requires problem { IsProblemOf f.now m.now }
    requires right { IsRight f.now.name m.now (claim_of r.now) }
    requires plain { HasNoSplit r.now.tree.nodes.items }
    ensures ends { IfOk result (λ out. out.status ≡ Status.Done) }
    ensures log { IfOk result (λ out. IsLog counts m.now r.now out.text.items) }
    ensures written { IfOk result (λ out. IsWritten out.status) }
    ensures refused { IfErr result (IsWithoutLog counts m.now r.now) }
{
    let _ = f;
    match log_tree(alloc, m, limit_of(&r.answer), rules_by(counts), &r.tree) {
        Ok(Ok(text)) => Ok(done(text)),
        Ok(Err(node)) => Err(Status::NoLog { node }),
        Err(_) => Err(Status::NoMemory),
    }
}

/// The log of an accepted report's tree, where it has no Split and each closed leaf gives one.
fn log_of(
    alloc: Global,
    f: &Function,
    m: &Model,
    r: &Report,
    counts: bool,
) -> Result<Output, Status>
    requires problem { IsProblemOf f.now m.now }
    requires right { IsRight f.now.name m.now (claim_of r.now) }
    ensures ends { IfOk result (λ out. out.status ≡ Status.Done) }
    ensures log { IfOk result (λ out. IsLog counts m.now r.now out.text.items) }
    ensures written { IfOk result (λ out. IsWritten out.status) }
    ensures refused { IfErr result (IsWithoutLog counts m.now r.now) }
{
    match first_split(r.tree.nodes.as_slice()) {
        Some(place) => Err(split_status(place)),
        None => plain_log(alloc, f, m, r, counts),
    }
}

/// What comes of a function and its report, which are read: the log of the report's tree.
fn steps_of(
    alloc: Global,
    first: &[u8],
    second: &[u8],
    f: &Function,
    r: &Report,
    counts: bool,
) -> Result<Output, Status>
    requires read { AreRead first.now second.now f.now r.now }
    ensures ok { IfOk result (λ out. IsLogOf counts first.now second.now out.status out.text.items) }
    ensures written { IfOk result (λ out. IsWritten out.status) }
    ensures refused { IfErr result (RefusesBy (IsLateLog counts first.now second.now) first.now) }
{
    let _ = first;
    let _ = second;
    match settle(alloc, f, r) {
        Ok(Ok(m)) => log_of(alloc, f, &m, r, counts),
        Ok(Err(cause)) => rejected(alloc, cause),
        Err(_) => Err(Status::NoMemory),
    }
}

/// The same of their texts.
fn steps_over(alloc: Global, first: &[u8], second: &[u8], counts: bool) -> Result<Output, Status>
    ensures ok { IfOk result (λ out. IsLogOf counts first.now second.now out.status out.text.items) }
    ensures written { IfOk result (λ out. IsWritten out.status) }
    ensures refused { IfErr result (RefusesBy (IsLateLog counts first.now second.now) first.now) }
{
    let f = match function_of(alloc, first) {
        Ok(f) => f,
        Err(refused) => return Err(status_by(refused)),
    };
    let r = match report_in(alloc, second) {
        Ok(r) => r,
        Err(refused) => return Err(status_by(refused)),
    };
    steps_of(alloc, first, second, &f, &r, counts)
}

/// The log of the tree of the report in the second part of an input, of the function in the first one.
///
/// # Errors
/// `TextFault` with the first fault of the function's text; `BadReport` with the first bad line of the report; `NoLog` with the first Split of
/// the tree, where it has none with its first closed leaf that gives no log; `NoMemory`.
pub(crate) fn steps_output(alloc: Global, input: &[u8], counts: bool) -> Result<Output, Status>
    requires few { length input.now ≤ INPUT }
    ensures ok { IfOk result (λ out. (of_steps counts).Output input.now out.status out.text.items) }
    ensures written { IfOk result (λ out. IsWritten out.status) }
    ensures refused { IfErr result (RefusesText (of_steps counts) input.now) }
{
    let parts = split(input);
    steps_over(alloc, parts.first, parts.second, counts)
}

/// The number of the line past the last one of a text, from 1.
fn past_last(text: &[u8]) -> Result<u32, NoMemory>
    ensures { IfOk result (λ n. n ≡ length (pieces_of text.now) + 1) }
{
    let mut count = 1;
    let mut rest = text;
    while !rest.is_empty() {
        count = later(count, 1)?;
        rest = &rest[first_len(rest)..];
    }
    Ok(count)
}

/// What is put out of a log that is accepted.
fn yes_steps(alloc: Global) -> Result<Output, Status>
    ensures ends { IfOk result (λ out. out.status ≡ Status.Done) }
    ensures printed { IfOk result (λ out. out.text.items ≡ codes "yes steps\n") }
    ensures written { IfOk result (λ out. IsWritten out.status) }
    ensures short { IfErr result (λ s. s ≡ Status.NoMemory) }
{
    let mut text = Vec::new(alloc);
    match put_text(&mut text, b"yes steps\n") {
        Ok(()) => Ok(done(text)),
        Err(_) => Err(Status::NoMemory),
    }
}

/// How a run ends whose log ends too early or goes on.
fn short_log(log: &[u8]) -> Status
    ensures { (result ≡ Status.NoMemory) ⊎ (result ≡ Status.BadSteps (length (pieces_of log.now) + 1)) }
{
    match past_last(log) {
        Ok(line) => Status::BadSteps { line },
        Err(_) => Status::NoMemory,
    }
}

/// The answer to a log for the tree without Splits of an accepted report.
fn told_plain(
    alloc: Global,
    f: &Function,
    m: &Model,
    r: &Report,
    log: &[u8],
    counts: bool,
) -> Result<Output, Status>
    requires problem { IsProblemOf f.now m.now }
    requires right { IsRight f.now.name m.now (claim_of r.now) }
    requires plain { HasNoSplit r.now.tree.nodes.items }
    ensures ends { IfOk result (λ out. out.status ≡ Status.Done) }
    ensures printed { IfOk result (λ out. out.text.items ≡ codes "yes steps\n") }
    ensures good { IfOk result (λ out. IsGoodLog counts m.now r.now log.now) }
    ensures written { IfOk result (λ out. IsWritten out.status) }
    ensures refused { IfErr result (IsNotGood counts m.now r.now log.now) }
{
    let _ = f;
    match judge(
        alloc,
        m,
        limit_of(&r.answer),
        rules_by(counts),
        &r.tree,
        log,
    ) {
        Ok(StepVerdict::Yes) => yes_steps(alloc),
        Ok(StepVerdict::BadStep(line)) => Err(Status::BadSteps { line }),
        Ok(StepVerdict::Short) => Err(short_log(log)),
        Err(_) => Err(Status::NoMemory),
    }
}

/// The answer to a log for the tree of an accepted report: where it has a Split, no log is one for it.
fn told_log(
    alloc: Global,
    f: &Function,
    m: &Model,
    r: &Report,
    log: &[u8],
    counts: bool,
) -> Result<Output, Status>
    requires problem { IsProblemOf f.now m.now }
    requires right { IsRight f.now.name m.now (claim_of r.now) }
    ensures ends { IfOk result (λ out. out.status ≡ Status.Done) }
    ensures printed { IfOk result (λ out. out.text.items ≡ codes "yes steps\n") }
    ensures good { IfOk result (λ out. IsGoodLog counts m.now r.now log.now) }
    ensures written { IfOk result (λ out. IsWritten out.status) }
    ensures refused { IfErr result (IsNotGood counts m.now r.now log.now) }
{
    match first_split(r.tree.nodes.as_slice()) {
        Some(place) => Err(split_status(place)),
        None => told_plain(alloc, f, m, r, log, counts),
    }
}

/// What comes of a function and its report, which are read, and of a log.
fn told_of(
    alloc: Global,
    first: &[u8],
    second: &[u8],
    log: &[u8],
    f: &Function,
    r: &Report,
    counts: bool,
) -> Result<Output, Status>
    requires read { AreRead first.now second.now f.now r.now }
    ensures ok { IfOk result (λ out. IsLogTold counts first.now second.now log.now out.status out.text.items) }
    ensures written { IfOk result (λ out. IsWritten out.status) }
    ensures refused { IfErr result (RefusesBy (IsLateTold counts first.now second.now log.now) first.now) }
{
    let _ = first;
    let _ = second;
    match settle(alloc, f, r) {
        Ok(Ok(m)) => told_log(alloc, f, &m, r, log, counts),
        Ok(Err(cause)) => rejected(alloc, cause),
        Err(_) => Err(Status::NoMemory),
    }
}

/// The same of their texts.
fn told_over(
    alloc: Global,
    first: &[u8],
    second: &[u8],
    log: &[u8],
    counts: bool,
) -> Result<Output, Status>
    ensures ok { IfOk result (λ out. IsLogTold counts first.now second.now log.now out.status out.text.items) }
    ensures written { IfOk result (λ out. IsWritten out.status) }
    ensures refused { IfErr result (RefusesBy (IsLateTold counts first.now second.now log.now) first.now) }
{
    let f = match function_of(alloc, first) {
        Ok(f) => f,
        Err(refused) => return Err(status_by(refused)),
    };
    let r = match report_in(alloc, second) {
        Ok(r) => r,
        Err(refused) => return Err(status_by(refused)),
    };
    told_of(alloc, first, second, log, &f, &r, counts)
}

/// The answer to the log in the last part of an input, for the tree of the report in the middle part, of the function in the first one.
///
/// # Errors
/// `TextFault` with the first fault of the function's text; `BadReport` with the first bad line of the report; `NoLog` with the first Split of
/// the tree; `BadSteps` with the first bad line of the log, or with the one past its last where lines lack or are left over; `NoMemory`.
pub(crate) fn steps_check_output(
    alloc: Global,
    input: &[u8],
    counts: bool,
) -> Result<Output, Status>
    requires few { length input.now ≤ INPUT }
    ensures ok { IfOk result (λ out. (of_steps_check counts).Output input.now out.status out.text.items) }
    ensures written { IfOk result (λ out. IsWritten out.status) }
    ensures refused { IfErr result (RefusesText (of_steps_check counts) input.now) }
{
    let parts = split_three(input);
    told_over(alloc, parts.first, parts.middle, parts.last, counts)
}
