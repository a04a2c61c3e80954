//! The operations and the definers of temporaries, as propagators name them.

ghost use Rattle.std.specs.Prelude.{◌≡◌, ◌++◌, IfOk, OnOk, map, slice_get};
ghost use Rattle.std.specs.Option.{option_map};
ghost use Rattle.un_sites.specs.Befores.{place_with};
ghost use Rattle.un_sites.specs.Places.{act_by, act_of, time_by, time_of, definer_or, registers_at, definers_at};
ghost use Rattle.un_sites.specs.Postings.{cycle_var, registers_of};
ghost use Rattle.un_sites.specs.Sites.{place_of, definer_at, definers_in, cycle_time};

use std::alloc::{AllocError, Global};
use un_base::ids::{OpId, TempId, VarId};
use un_ir::extended::{ExtKind, ExtOp};
use un_lists::items::Items;
use un_model::model::OpVars;
use un_prop::act::{Act, At};

/// An operation of the function with its variables and its block.
#[derive(Clone, Copy)]
pub struct Spot<'a> {
    /// The number of its block: its place among the function's blocks, 0 for the entry.
    pub block: u32,
    /// The variable of its block's end, in cycles.
    pub end: VarId,
    /// Its number in the whole function, as an OpId has it.
    pub op: u32,
    /// The operation: its kind, its operands and its results.
    pub it: &'a ExtOp,
    /// The variables of its instruction, its cycle and its choices, as far as it has them.
    pub vars: &'a OpVars,
}

/// Where a temporary comes from, and where it stands.
#[derive(Clone, Copy)]
pub struct Site<'a> {
    /// The operation that defines it; None for a temporary that no operation defines.
    pub place: Option<Spot<'a>>,
    /// The variable of its register.
    pub reg: VarId,
}

/// The activity of an operation with this variable for its instruction.
pub fn act_by(instr: Option<VarId>) -> Act
    ensures { result ≡ act_by instr }
{
    match instr {
        None => Act::Always,
        Some(v) => Act::Var(v),
    }
}

/// The time at a cycle, where there is one.
fn time_at(cycle: Option<VarId>) -> At
    ensures { result ≡ cycle_time cycle }
{
    match cycle {
        None => At::Const(0),
        Some(v) => At::Var(v),
    }
}

/// The time of an operation of a block with this end.
fn time_by(end: VarId, kind: &ExtKind, cycle: Option<VarId>) -> At
    ensures { result ≡ time_by end kind.now cycle }
{
    match kind {
        ExtKind::In => At::Const(0),
        ExtKind::Out => At::Var(end),
        ExtKind::Body(_) => time_at(cycle),
        ExtKind::End(_) => time_at(cycle),
        ExtKind::Copy(_) => time_at(cycle),
        ExtKind::Enter => time_at(cycle),
        ExtKind::Leave => time_at(cycle),
    }
}

impl Spot<'_> {
    /// The activity of the operation.
    pub fn act(&self) -> Act
        ensures { result ≡ act_of (place_of self.now) }
    {
        act_by(self.vars.instr)
    }

    /// The time of the operation: its cycle, 0 for a block's start, and the end of its block for `out`.
    pub fn time(&self) -> At
        ensures { result ≡ time_of (place_of self.now) }
    {
        time_by(self.end, &self.it.kind, self.vars.cycle)
    }
}

impl Site<'_> {
    /// The definer's activity; what is not defined is there always.
    pub fn act(&self) -> Act
        ensures { result ≡ act_of (definer_at self.now).place }
    {
        match self.place {
            None => Act::Always,
            Some(p) => p.act(),
        }
    }

    /// The definer's time; what is not defined is there in cycle 0.
    pub fn time(&self) -> At
        ensures { result ≡ time_of (definer_at self.now).place }
    {
        match self.place {
            None => At::Const(0),
            Some(p) => p.time(),
        }
    }
}

/// The time of the operation with a number; what is not there is at a block's start.
pub fn time_with(spots: &[Spot<'_>], op: OpId) -> At
    ensures { result ≡ time_of (place_with (map place_of spots.now) op.0) }
{
    let i = op.0 as usize;
    if i < spots.len() {
        spots[i].time()
    } else {
        At::Const(0)
    }
}

/// The variable of an operation's cycle.
pub fn cycle_var(p: &Spot<'_>) -> VarId
    ensures { result ≡ cycle_var (place_of p.now) }
{
    match p.vars.cycle {
        None => VarId(0),
        Some(v) => v,
    }
}

/// The variable of a choice, where there is one.
pub fn choice_at(choices: &[VarId], j: u32) -> Option<VarId>
    ensures { result ≡ slice_get choices.now j }
{
    let j = j as usize;
    if j < choices.len() {
        Some(choices[j])
    } else {
        None
    }
}

/// The one of these operations that stands at a place.
pub fn spot_at<'a>(spots: &[Spot<'a>], i: usize) -> Option<Spot<'a>>
    ensures at { result ≡ slice_get spots.now i }
    ensures place { option_map place_of result ≡ slice_get (map place_of spots.now) i }
{
    if i < spots.len() {
        Some(spots[i])
    } else {
        None
    }
}

/// The definer of a temporary in the table of all.
pub fn site_of<'a>(sites: &[Site<'a>], x: TempId) -> Site<'a>
    ensures { definer_at result ≡ definer_or (slice_get (definers_in sites.now) x.0) }
{
    let i = x.0 as usize;
    if i < sites.len() {
        sites[i]
    } else {
        Site {
            place: None,
            reg: VarId(0),
        }
    }
}

/// Adds the registers of temporaries.
pub fn add_registers(
    regs: &mut Items<VarId>,
    sites: &[Site<'_>],
    xs: &[TempId],
) -> Result<(), AllocError>
    ensures { OnOk result (regs.new ≡ regs.old ++ registers_at (definers_in sites.now) xs.now) }
{
    for x in xs {
        let site = site_of(sites, *x);
        regs.push(site.reg)?;
    }
    Ok(())
}

/// The registers of temporaries.
pub fn registers_at(
    alloc: Global,
    sites: &[Site<'_>],
    xs: &[TempId],
) -> Result<Items<VarId>, AllocError>
    ensures { IfOk result (λ regs. regs ≡ registers_at (definers_in sites.now) xs.now) }
{
    let mut regs = Items::from_vec(Vec::with_capacity(alloc, xs.len())?);
    add_registers(&mut regs, sites, xs)?;
    Ok(regs)
}

/// The definers of temporaries.
pub fn sites_at<'a>(
    alloc: Global,
    sites: &[Site<'a>],
    xs: &[TempId],
) -> Result<Items<Site<'a>>, AllocError>
    ensures { IfOk result (λ found. definers_in found ≡ definers_at (definers_in sites.now) xs.now) }
{
    let mut found = Items::from_vec(Vec::with_capacity(alloc, xs.len())?);
    for x in xs {
        found.push(site_of(sites, *x))?;
    }
    Ok(found)
}

/// The registers of these definers.
pub fn registers_of(alloc: Global, alts: &[Site<'_>]) -> Result<Items<VarId>, AllocError>
    ensures { IfOk result (λ regs. regs ≡ registers_of (definers_in alts.now)) }
{
    let mut regs = Items::from_vec(Vec::with_capacity(alloc, alts.len())?);
    for site in alts {
        regs.push(site.reg)?;
    }
    Ok(regs)
}
