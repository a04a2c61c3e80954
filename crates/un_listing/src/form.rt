//! The forms in which instructions are printed.

ghost use Rattle.std.specs.Prelude.{◌≡◌};
ghost use Rattle.un_isa.specs.Facts.{operand_spaces, literal_range};
ghost use Rattle.un_listing.specs.Forms.{computed_form, form_of};

use un_isa::does::{Does, When, does_of};
use un_isa::facts::{literal_range, operand_spaces};
use un_isa::op::Op;

/// How an instruction is printed, as the Hexagon V4 Programmer's Reference Manual writes it. `rD` is its register, `rA`
/// and `rB` are its operands, `n` is its number and `L` its label.
#[derive(Clone, Copy)]
pub enum Form {
    /// `rD = #n`
    Literal,
    /// `rD = rA`
    Copied,
    /// `rD = add(rA,rB)`: the mnemonic and all operands.
    Computed,
    /// `rD = add(rA,#n)`: the mnemonic, the first operand and the number.
    WithLiteral,
    /// `rD = memw(rA+#n)`
    Loaded,
    /// `memw(rA+#n) = rB`
    Stored,
    /// `rD = memw(r29+#n)`
    Reloaded,
    /// `memw(r29+#n) = rA`
    Spilled,
    /// `r29 = add(r29,#n)`
    StackMoved,
    /// `call L(r0,r1)`: all operands.
    Called,
    /// `jump L`
    Jumped,
    /// `if (pA) jump L`
    JumpedIf,
    /// `if (!pA) jump L`
    JumpedIfNot,
    /// `if (pA.new) jump L`
    JumpedIfNew,
    /// `if (!pA.new) jump L`
    JumpedIfNotNew,
    /// `jumpr rA`
    Returned,
    /// `nop`
    Idle,
}

/// The form of an operation that computes or compares.
fn computed_form(op: Op) -> Form
    ensures { result ≡ computed_form (operand_spaces op) (literal_range op) }
{
    match (operand_spaces(op), literal_range(op)) {
        (_, None) => Form::Computed,
        ([], Some(_)) => Form::Literal,
        ([_, ..], Some(_)) => Form::WithLiteral,
    }
}

/// The form of an operation.
pub fn form_of(op: Op) -> Form
    ensures { result ≡ form_of op }
{
    match does_of(op) {
        Does::Computes | Does::Compares => computed_form(op),
        Does::Moves => Form::Copied,
        Does::Loads => Form::Loaded,
        Does::Stores => Form::Stored,
        Does::Reloads => Form::Reloaded,
        Does::Spills => Form::Spilled,
        Does::OpensFrame | Does::ClosesFrame => Form::StackMoved,
        Does::Calls => Form::Called,
        Does::Jumps(When::Always) => Form::Jumped,
        Does::Jumps(When::IfTrue) => Form::JumpedIf,
        Does::Jumps(When::IfFalse) => Form::JumpedIfNot,
        Does::Jumps(When::IfNewTrue) => Form::JumpedIfNew,
        Does::Jumps(When::IfNewFalse) => Form::JumpedIfNotNew,
        Does::Returns => Form::Returned,
        Does::Rests => Form::Idle,
    }
}
