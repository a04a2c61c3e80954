//! Pieces of the texts: names, numbers of things, registers.

use un_base::ids::{OpId, TempId};
use un_base::memory_error::NoMemory;
use un_ir::text::{put_number, put_text};
use un_isa::reg::Reg;

/// Appends the number of an operation.
pub fn put_op(out: &mut Vec<u8>, op: OpId) -> Result<(), NoMemory> {
    put_text(out, b"o")?;
    put_number(out, u64::from(op.0))
}

/// Appends the number of a temporary.
pub fn put_temp(out: &mut Vec<u8>, temp: TempId) -> Result<(), NoMemory> {
    put_text(out, b"t")?;
    put_number(out, u64::from(temp.0))
}

/// Appends the register to which a value or an operand is preassigned, where there is one.
pub(crate) fn put_home(out: &mut Vec<u8>, home: Option<Reg>) -> Result<(), NoMemory> {
    let Some(reg) = home else {
        return Ok(());
    };
    put_text(out, b"@r")?;
    put_number(out, u64::from(reg.0))
}
