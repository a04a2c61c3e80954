//! Equal registers and instructions are identical.

ghost use Rattle.std.specs.Prelude.{◌≡◌, true};
ghost use Rattle.un_isa.specs.Exactness.{reg_exact, reg_reflexive, instr_exact, instr_reflexive};

use crate::instr::Instr;
use crate::reg::Reg;
use un_lists::exact::Exact;

impl Exact for Reg {
    ghost is_exact = { reg_exact };

    ghost is_reflexive = { reg_reflexive };
}

impl Exact for Instr {
    ghost is_exact = { instr_exact };

    ghost is_reflexive = { instr_reflexive };
}
