//! The registers and slots that the values of a model's variables give to the temporaries.

ghost use Rattle.std.specs.Prelude.{◌≡◌, IfOk};
ghost use Rattle.un_model.specs.Emission.{temp_register, operand_registers, result_register};

use std::alloc::Global;
use un_base::ids::TempId;
use un_base::memory_error::NoMemory;
use un_ir::extended::ExtOp;
use un_isa::reg::Reg;
use un_lists::few::Few;
use un_model::cost::value;
use un_model::model::{Model, OpVars};
use un_model::placement::choice;

/// The register or slot of a temporary.
fn register(m: &Model, values: &[u32], x: TempId) -> Reg
    ensures { result ≡ temp_register m.now values.now x }
{
    match m.temps.as_slice().get(x.0 as usize) {
        None => Reg(0),
        Some(vars) => Reg(value(values, vars.reg)),
    }
}

/// The registers of the temporaries that the operands choose.
pub(crate) fn operand_registers(
    alloc: Global,
    m: &Model,
    values: &[u32],
    op: &ExtOp,
    vars: &OpVars,
) -> Result<Few<Reg>, NoMemory>
    ensures { IfOk result (λ regs. regs ≡ operand_registers m.now values.now op.now vars.now) }
{
    let mut regs = Few::new(alloc);
    for j in 0..op.operands.len() {
        let x = choice(values, vars, j, op.operands.get(j));
        regs.push(register(m, values, x))?;
    }
    Ok(regs)
}

/// The register of the first result, where there is one.
pub(crate) fn result_register(m: &Model, values: &[u32], op: &ExtOp) -> Option<Reg>
    ensures { result ≡ result_register m.now values.now op.now }
{
    let x = op.results.as_slice().get(0)?;
    Some(register(m, values, *x))
}
