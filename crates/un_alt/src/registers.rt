//! The register at a chosen place.

ghost use Rattle.std.specs.Prelude.{◌≡◌};
ghost use Rattle.un_alt.specs.Registers.{place_of, value_at, chosen_value};

use un_base::ids::VarId;
use un_prop::act::value;

/// The place of a choice; 0 where there is none.
fn place(fixed: &[u32], choice: Option<VarId>) -> u32
    ensures { result ≡ place_of choice fixed.now }
{
    match choice {
        Some(v) => value(fixed, v),
        None => 0,
    }
}

/// The value of the chosen one of these registers, where the list has one at that place.
pub(crate) fn chosen(fixed: &[u32], choice: Option<VarId>, regs: &[VarId]) -> Option<u32>
    ensures { result ≡ chosen_value choice regs.now fixed.now }
{
    let i = place(fixed, choice) as usize;
    if i < regs.len() {
        Some(value(fixed, regs[i]))
    } else {
        None
    }
}
