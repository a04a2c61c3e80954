//! The parts of `alloc`, and of a search for a function, each called many times; how many first solutions were refused; and how large a
//! function's problem is.

ghost use Rattle.std.specs.Prelude.{◌≡◌, [], All, IfOk};
ghost use Rattle.inspect.specs.Inputs.{AreInputs};
ghost use Rattle.un_domains.specs.Sets.{NoneEmpty};
ghost use Rattle.un_ir.specs.LinearOf.{AreLive};
ghost use Rattle.un_baseline.specs.RoomyOptions.{AreRoomyFor};
ghost use Rattle.un_model.specs.Solutions.{IsSolution};
ghost use Rattle.un_post.specs.Posts.{ReadsFrom, SpansAtMost};
ghost use Rattle.un_problem.specs.Problems.{IsProblemOf};

use crate::clock::{mean, now, put_time};
use crate::firsts::put_refused;
use crate::request::Counts;
use crate::runs::put_runs;
use std::alloc::{AllocError, Global};
use std::time::CpuClock;
use un_base::ids::VarId;
use un_base::memory_error::NoMemory;
use un_baseline::spill::spill_everywhere;
use un_extend::extend::extend;
use un_ir::extended::{LiveSets, Lssa};
use un_ir::function::Function;
use un_listing::print::print_code;
use un_live::live::live_in;
use un_lssa::linearize::linearize;
use un_model::build::build;
use un_model::model::{Model, Solution};
use un_packet::code::Code;
use un_post::post::{Posted, post};
use un_reader::read::read_function;
use un_shown::text::put_between;
use un_top::search::{code_of, search_report};
use un_violations::violations::violations;

/// How many nodes the search that is timed has.
const NODES: u32 = 2_000;

/// A part that is timed.
#[derive(Clone, Copy)]
enum Call {
    Live,
    Linear,
    Extend,
    Build,
    Violations,
    Read,
    Solution,
    Code,
    Listing,
    Post,
    Search,
}

/// The parts of `alloc`, in the order in which their times are told.
static PARTS: [Call; 9] = [
    Call::Live,
    Call::Linear,
    Call::Extend,
    Call::Build,
    Call::Violations,
    Call::Read,
    Call::Solution,
    Call::Code,
    Call::Listing,
];

/// What the parts are called on: a function with its text, and what each part makes of it.
#[derive(Clone, Copy)]
struct Inputs<'a> {
    text: &'a [u8],
    f: &'a Function,
    m: &'a Model,
    s: &'a Solution,
    code: &'a Code,
    live: &'a LiveSets,
    linear: &'a Lssa,
}

/// The name of a part.
fn name_of(part: Call) -> &'static str {
    match part {
        Call::Live => "live_in",
        Call::Linear => "linearize",
        Call::Extend => "extend",
        Call::Build => "build",
        Call::Violations => "violations",
        Call::Read => "read",
        Call::Solution => "solution",
        Call::Code => "code",
        Call::Listing => "listing",
        Call::Search => "search",
        Call::Post => "post",
    }
}

/// Calls one of the last parts once, and answers whether there was memory.
fn call_late(alloc: Global, part: Call, x: &Inputs<'_>) -> bool
    requires { AreInputs x.now }
{
    match part {
        Call::Read => read_function(alloc, x.text).is_ok(),
        Call::Solution => spill_everywhere(alloc, x.m).is_ok(),
        Call::Code => code_of(alloc, x.f, x.m, x.s).is_ok(),
        Call::Listing => print_code(alloc, x.code).is_ok(),
        Call::Search => search_report(alloc, x.f, x.m, NODES).is_ok(),
        _ => posted(alloc, x.f, x.m).is_ok(),
    }
}

/// Calls a part once, and answers whether there was memory.
fn call_once(alloc: Global, part: Call, x: &Inputs<'_>) -> bool
    requires { AreInputs x.now }
{
    match part {
        Call::Live => live_in(alloc, x.f).is_ok(),
        Call::Linear => linearize(alloc, x.f, x.live, &x.m.ext.table).is_ok(),
        Call::Extend => extend(alloc, x.linear).is_ok(),
        Call::Build => build(alloc, &x.m.ext, &x.m.options).is_ok(),
        Call::Violations => violations(alloc, x.m, x.s).is_ok(),
        _ => call_late(alloc, part, x),
    }
}

/// Appends the mean time of a part that is called so often.
fn put_part(
    rt: &impl CpuClock,
    alloc: Global,
    out: &mut Vec<u8>,
    part: Call,
    x: &Inputs<'_>,
    calls: u32,
) -> Result<(), NoMemory>
    requires { AreInputs x.now }
{
    let start = now(rt);
    for _ in 0..calls {
        if !call_once(alloc, part, x) {
            return Err(NoMemory);
        }
    }
    put_time(alloc, out, name_of(part), mean(rt, start, u64::from(calls)))
}

/// Appends the mean times of the parts of `alloc`.
fn put_parts(
    rt: &impl CpuClock,
    alloc: Global,
    out: &mut Vec<u8>,
    x: &Inputs<'_>,
    calls: u32,
) -> Result<(), NoMemory>
    requires { AreInputs x.now }
{
    for part in PARTS.iter() {
        put_part(rt, alloc, out, *part, x, calls)?;
    }
    Ok(())
}

/// The variables of the cycles of a model.
fn cycles(alloc: Global, m: &Model) -> Result<Vec<VarId>, AllocError> {
    let mut vars = Vec::new(alloc);
    for block in m.blocks.as_slice() {
        for op in block.ops.as_slice() {
            if let Some(v) = op.cycle {
                vars.push(v)?;
            }
        }
    }
    Ok(vars)
}

/// What is posted for the model of a function.
fn posted(alloc: Global, f: &Function, m: &Model) -> Result<Posted, NoMemory>
    requires { IsProblemOf f.now m.now }
    ensures live { IfOk result (λ p. NoneEmpty p.store.sets) }
    ensures fresh { IfOk result (λ p. p.store.marked ≡ []) }
    ensures reads { IfOk result (λ p. All (ReadsFrom p.store.sets) p.props.items) }
    ensures spans { IfOk result (λ p. All (SpansAtMost p.horizon) p.props.items) }
{
    let _ = f;
    post(alloc, m, None)
}

/// Appends the times of rounds of what is posted, with decisions on these variables.
fn put_rounds(
    rt: &impl CpuClock,
    alloc: Global,
    out: &mut Vec<u8>,
    x: &Inputs<'_>,
    vars: &[VarId],
) -> Result<(), NoMemory>
    requires { AreInputs x.now }
{
    let Posted {
        props,
        store,
        horizon,
        ..
    } = posted(alloc, x.f, x.m)?;
    let _ = put_runs(rt, alloc, out, props, store, horizon, vars)?;
    Ok(())
}

/// Appends the mean times of the parts of `alloc`, of posting and of a search, how many first solutions it refused, and the times of rounds
/// of what is posted.
fn put_times(
    rt: &impl CpuClock,
    alloc: Global,
    out: &mut Vec<u8>,
    x: &Inputs<'_>,
    calls: u32,
    posts: u32,
) -> Result<(), NoMemory>
    requires { AreInputs x.now }
{
    put_parts(rt, alloc, out, x, calls)?;
    put_part(rt, alloc, out, Call::Post, x, posts)?;
    put_part(rt, alloc, out, Call::Search, x, 1)?;
    put_refused(alloc, out, x.f, x.m)?;
    let vars = cycles(alloc, x.m)?;
    put_rounds(rt, alloc, out, x, vars.as_slice())
}

/// Appends the same times, of a solution of the model, its code and the names live at each block's start.
fn put_live(
    rt: &impl CpuClock,
    alloc: Global,
    out: &mut Vec<u8>,
    counts: Counts,
    text: &[u8],
    f: &Function,
    m: &Model,
    s: &Solution,
    code: &Code,
    live: &LiveSets,
) -> Result<(), NoMemory>
    requires problem { IsProblemOf f.now m.now }
    requires roomy { AreRoomyFor f.now m.now.options }
    requires solution { IsSolution m.now s.now }
    requires live { AreLive f.now.blocks live.now.at_start }
{
    let linear = linearize(alloc, f, live, &m.ext.table)?;
    let x = Inputs {
        text,
        f,
        m,
        s,
        code,
        live,
        linear: &linear,
    };
    put_times(rt, alloc, out, &x, counts.first.unwrap_or(1), counts.second)
}

/// Appends the same times, of a solution of the model and its code.
fn put_coded(
    rt: &impl CpuClock,
    alloc: Global,
    out: &mut Vec<u8>,
    counts: Counts,
    text: &[u8],
    f: &Function,
    m: &Model,
    s: &Solution,
    code: &Code,
) -> Result<(), NoMemory>
    requires problem { IsProblemOf f.now m.now }
    requires roomy { AreRoomyFor f.now m.now.options }
    requires solution { IsSolution m.now s.now }
{
    let live = live_in(alloc, f)?;
    put_live(rt, alloc, out, counts, text, f, m, s, code, &live)
}

/// Appends the same times, of a function and its model.
fn put_all(
    rt: &impl CpuClock,
    alloc: Global,
    out: &mut Vec<u8>,
    counts: Counts,
    text: &[u8],
    f: &Function,
    m: &Model,
) -> Result<(), NoMemory>
    requires problem { IsProblemOf f.now m.now }
    requires roomy { AreRoomyFor f.now m.now.options }
{
    let s = spill_everywhere(alloc, m)?;
    let code = code_of(alloc, f, m, &s)?;
    put_coded(rt, alloc, out, counts, text, f, m, &s, &code)
}

/// Appends how many variables and propagators a function has.
fn put_sizes(alloc: Global, out: &mut Vec<u8>, f: &Function, m: &Model) -> Result<(), NoMemory>
    requires { IsProblemOf f.now m.now }
{
    let posted = posted(alloc, f, m)?;
    put_between(out, b"", u64::from(posted.store.len()), b" variables, ")?;
    put_between(out, b"", posted.props.len() as u64, b" propagators\n")
}

/// Appends the mean times of the parts, where the words say how often they are called, and else how many variables and
/// propagators a function has.
pub(crate) fn put_timed(
    rt: &impl CpuClock,
    alloc: Global,
    out: &mut Vec<u8>,
    counts: Counts,
    text: &[u8],
    f: &Function,
    m: &Model,
) -> Result<(), NoMemory>
    requires problem { IsProblemOf f.now m.now }
    requires roomy { AreRoomyFor f.now m.now.options }
{
    match counts.first {
        None => put_sizes(alloc, out, f, m),
        Some(_) => put_all(rt, alloc, out, counts, text, f, m),
    }
}
