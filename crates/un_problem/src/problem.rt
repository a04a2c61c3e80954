//! The problem of a function: its extended function, and the model of that.

ghost use Rattle.std.specs.Prelude.{◌≡◌, IfOk};
ghost use Rattle.un_isa.specs.Fit.{IsFit};
ghost use Rattle.un_ir.specs.LinearOf.{AreLive};
ghost use Rattle.un_model.specs.Options.{AreOptions};
ghost use Rattle.un_problem.specs.Problems.{IsExtOf, IsModelOf, IsProblemOf, default_options};

use std::alloc::Global;
use un_base::memory_error::NoMemory;
use un_extend::extend::extend;
use un_ir::extended::{Ext, LiveSets};
use un_ir::function::Function;
use un_isa::reg::SLOTS;
use un_isa::table::Table;
use un_live::live::live_in;
use un_lssa::linearize::linearize;
use un_model::build::build;
use un_model::model::{Model, Options};

/// The options of a model where no words change them: all of r0 to r28 and r31 may be assigned, and the frame has all its
/// slots.
pub fn default_options() -> Options
    ensures { result ≡ default_options }
{
    Options {
        regs: None,
        slots: SLOTS,
    }
}

/// The extended function of a function whose names are live so.
fn extended_by(alloc: Global, f: &Function, live: &LiveSets, t: &Table) -> Result<Ext, NoMemory>
    requires { AreLive f.now.blocks live.now.at_start }
    ensures { IfOk result (IsExtOf t.now f.now) }
{
    let linear = linearize(alloc, f, live, t)?;
    extend(alloc, &linear)
}

/// The extended function of a function, for a table.
///
/// # Errors
/// `NoMemory` where there is no memory for it.
pub fn extended(alloc: Global, f: &Function, t: &Table) -> Result<Ext, NoMemory>
    ensures { IfOk result (IsExtOf t.now f.now) }
{
    let live = live_in(alloc, f)?;
    extended_by(alloc, f, &live, t)
}

/// The model of a function for a table and under options.
///
/// # Errors
/// `NoMemory` where there is no memory for it.
pub fn model(alloc: Global, f: &Function, t: &Table, options: &Options) -> Result<Model, NoMemory>
    requires fit { IsFit t.now }
    requires options { AreOptions options.now }
    ensures gives { IfOk result (IsModelOf t.now f.now options.now) }
    ensures problem { IfOk result (IsProblemOf f.now) }
{
    let ext = extended(alloc, f, t)?;
    let model = build(alloc, &ext, options)?;
    Ok(model)
}
