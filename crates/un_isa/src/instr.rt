//! Instructions.

use crate::op::Op;
use crate::reg::Reg;
use un_base::name::Name;
use un_lists::few::Few;

/// An instruction. A field that its printed form does not show is None, 0 or without items.
#[derive(PartialEq, Drop)]
pub struct Instr {
    /// What it does.
    pub op: Op,
    /// The register of its result; None where it has none, for a Call, whose result is in r0, and for Enter and Leave.
    pub dst: Option<Reg>,
    /// The registers that it reads, in order: of a Spill the value alone, none of a Reload, an Enter or a Leave.
    pub srcs: Few<Reg>,
    /// The number as printed: a literal, or an offset in bytes; for Enter the frame's size in bytes with a minus sign.
    pub imm: i32,
    /// The label to which a jump leads, or the name of the function that a Call calls.
    pub label: Option<Name>,
}
