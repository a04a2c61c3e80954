//! The literals of operations, as they are written.

ghost use Rattle.std.specs.Prelude.{◌≡◌};
ghost use Rattle.un_isa.specs.Operands.{in_range};
ghost use Rattle.un_faults.specs.Literals.{literal_value, literal_fits};

use un_isa::facts::{is_in_range, literal_range};
use un_isa::op::Op;
use un_words::token::Number;

/// The number that is written, or the nearest that fits.
pub fn literal_value(n: Number) -> i32
    ensures { result ≡ literal_value n }
{
    let size = n.size.min(i32::MAX as u32) as i32;
    if n.negative { -size } else { size }
}

/// Whether the literal is in the range of its operation, where that has one.
pub(crate) fn literal_fits(op: Op, n: Number) -> bool
    ensures { result ≡ literal_fits op n }
{
    match literal_range(op) {
        None => true,
        Some(range) => is_in_range(range, literal_value(n)),
    }
}
