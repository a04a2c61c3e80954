//! Operations.

/// How many operations there are.
pub const OPERATIONS: usize = 36;

/// An operation of the source or an instruction of the processor. `does_of` says what each does, `value` what
/// it computes.
#[derive(Clone, Copy, PartialEq)]
pub enum Op {
    Imm,
    Mov,
    Add,
    Sub,
    And,
    Or,
    Xor,
    Addi,
    Andi,
    Ori,
    Mux,
    CmpEq,
    CmpGt,
    CmpGtu,
    CmpEqi,
    CmpGti,
    Mpyi,
    Asl,
    Asr,
    Lsr,
    Load,
    Store,
    Call,
    Jump,
    JumpIf,
    JumpIfNot,
    Jumpr,
    Spill,
    Reload,
    P2R,
    R2P,
    Enter,
    Leave,
    Nop,
    JumpIfNew,
    JumpIfNotNew,
}
