//! The code of a solution.

ghost use Rattle.std.specs.Prelude.{IfOk};
ghost use Rattle.un_emit.specs.Emitted.{IsEmitted};
ghost use Rattle.un_emit.specs.OfSource.{IsRightFor};
ghost use Rattle.un_ir.specs.Extended.{IsExtended};
ghost use Rattle.un_isa.specs.Fit.{IsFit};
ghost use Rattle.un_model.specs.Options.{AreOptions};
ghost use Rattle.un_model.specs.Solutions.{IsSolution};
ghost use Rattle.un_model.specs.Variables.{IsModel};

use crate::frame::frame;
use crate::packets::code_blocks;
use std::alloc::Global;
use un_base::memory_error::NoMemory;
use un_model::model::{Model, Solution};
use un_model::placement::schedule;
use un_packet::code::Code;

/// The code of a solution of the model of an extended function. Under the label of each block there is a packet for each cycle
/// from 1 to the one before the block's end: the instructions of the operations that issue in it, in the order of the extended
/// function, on the registers and slots that the solution gives to what they read and define, or `nop` where there is none.
/// The code does what each source of the extended function does, and costs what the solution costs. The answer is `NoMemory`
/// where there is no memory for the code.
pub(crate) fn solution_code(alloc: Global, m: &Model, s: &Solution) -> Result<Code, NoMemory>
    requires model { IsModel m.now }
    requires extended { IsExtended m.now.ext }
    requires fit { IsFit m.now.ext.table }
    requires options { AreOptions m.now.options }
    requires solution { IsSolution m.now s.now }
    ensures emitted { IfOk result (IsEmitted m.now s.now.values) }
    ensures right { IfOk result (IsRightFor m.now s.now) }
{
    let t = schedule(alloc, m, s)?;
    let values = s.values.as_slice();
    let frame = frame(m, values, &t);
    let code = code_blocks(alloc, m, values, frame, &t)?;
    Ok(Code {
        frame,
        blocks: code,
    })
}
