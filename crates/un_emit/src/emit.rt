//! The code of a solution of the model of a function.

ghost use Rattle.std.specs.Prelude.{◌≡◌, IfOk, List};
ghost use Rattle.un_base.specs.declared.ids.NameId.{NameId};
ghost use Rattle.un_isa.specs.Fit.{IsFit};
ghost use Rattle.un_ir.specs.ExtendOf.{extend_of};
ghost use Rattle.un_ir.specs.LinearOf.{AreLive, lin_of};
ghost use Rattle.un_model.specs.Cost.{cost_of};
ghost use Rattle.un_model.specs.Options.{AreOptions};
ghost use Rattle.un_model.specs.Solutions.{IsSolution};
ghost use Rattle.un_model.specs.Variables.{model_of};
ghost use Rattle.un_simulation.specs.Count.{count_of};
ghost use Rattle.un_simulation.specs.Simulation.{Simulates};
ghost use Rattle.un_emit.specs.Emitted.{IsEmitted, start_places};

use crate::solution_code::solution_code;
use std::alloc::Global;
use un_base::memory_error::NoMemory;
use un_ir::extended::Ext;
use un_ir::function::Function;
use un_model::model::{Model, Solution};
use un_packet::code::Code;

/// The code of a solution of the model of a function. Under the label of each block there is a packet for each cycle from 1 to
/// the one before the block's end: the active operations that issue in it, in the order of the extended function, on the
/// registers and slots that the solution gives to what they read and define, or `nop` where there is none. The code does what
/// the function does, with the names that are live at each block's start in the solution's places, and its packets, as often as
/// they run, are the solution's cost.
///
/// # Errors
/// `NoMemory` where there is no memory for the code.
pub fn emit(alloc: Global, f: &Function, e: &Ext, m: &Model, s: &Solution) -> Result<Code, NoMemory>
    requires extended { (live : List (List NameId)) × AreLive f.now.blocks live
        × (e.now ≡ extend_of (lin_of f.now live e.now.table)) }
    requires fit { IsFit e.now.table }
    requires options { AreOptions m.now.options }
    requires model { m.now ≡ model_of e.now m.now.options }
    requires solution { IsSolution m.now s.now }
    ensures code { IfOk result (IsEmitted m.now s.now.values) }
    ensures simulates { IfOk result (λ code. Simulates e.now.table f.now (start_places m.now s.now.values) code) }
    ensures cost { IfOk result (λ code. count_of f.now code ≡ cost_of m.now s.now) }
{
    let _ = f;
    let _ = e;
    let code = solution_code(alloc, m, s)?;
    Ok(code)
}
