//! Which variables of a model are registers of temporaries.

ghost use Rattle.std.specs.Prelude.{◌≡◌, ◌<◌, IfOk, length, false, slice_index_or};
ghost use Rattle.un_mirrors.specs.Exchanged.{AreRegisters};

use std::alloc::Global;
use un_base::ids::VarId;
use un_base::memory_error::NoMemory;
use un_model::model::Model;

/// Which variables are registers of temporaries.
#[derive(Drop)]
pub struct Registers {
    /// A mark for each variable.
    pub marks: Vec<bool>,
}

impl Registers {
    /// Whether a variable is the register of a temporary.
    pub fn has(&self, v: VarId) -> bool
        requires { v.0 < length self.now.marks.items }
        ensures { result ≡ slice_index_or self.now.marks.items v.0 false }
    {
        self.marks[v.0 as usize]
    }
}

/// Marks the registers of temporaries.
///
/// # Errors
/// `NoMemory` where there is no memory for the marks.
pub fn registers_of(alloc: Global, m: &Model) -> Result<Registers, NoMemory>
    ensures { IfOk result (AreRegisters m.now) }
{
    let mut marks = vec![in alloc; false; m.domains.len()]?;
    for t in m.temps.as_slice() {
        let k = t.reg.0 as usize;
        if k < marks.len() {
            marks[k] = true;
        }
    }
    Ok(Registers { marks })
}
