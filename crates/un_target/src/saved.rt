//! The saved registers of the text of a table.

ghost use Rattle.std.specs.Prelude.{◌≡◌, ◌↔◌, ℕ, ◌<◌, ◌^◌, ◌&&◌, not, IsTrue, true, IfSome, IfNone};
ghost use Rattle.un_isa.specs.Hexagon.{is_saved};
ghost use Rattle.un_isa.specs.Starts.{is_clobbered};
ghost use Rattle.un_isa.specs.Tables.{in_mask};
ghost use Rattle.serde_json.specs.View.{items_view};
ghost use Rattle.un_target.specs.Saved.{AreSaved};

use crate::entries::number_within;
use serde_json::Value;
use un_isa::reg::REGISTERS;
use un_isa::reg_set::is_in_mask;
use un_isa::table::hexagon;

/// The first register that may be saved.
const FIRST: u8 = 6;

/// The last register that may be saved.
const LAST: u8 = 28;

/// Whether r16 to r27 are in a mask.
pub(crate) fn keeps_all(mask: u64) -> bool
    ensures { IsTrue result ↔ ((r : ℕ) → is_saved r ≡ true → in_mask mask r ≡ true) }
{
    for r in 16..28 {
        if !is_in_mask(mask, r) {
            return false;
        }
    }
    true
}

/// The mask of the registers that are listed.
pub(crate) fn saved_mask(items: &[Value]) -> Option<u64>
    ensures some { IfSome result (AreSaved (items_view items.now)) }
    ensures none { IfNone result ((mask : ℕ) → AreSaved (items_view items.now) mask → ⊥) }
{
    let mut mask = 0;
    let mut least = FIRST;
    for item in items {
        let Some(r) = number_within(item, least, LAST) else {
            return None;
        };
        mask |= 1u64 << r;
        least = r + 1;
    }
    if keeps_all(mask) { Some(mask) } else { None }
}

/// The mask of the registers that a call clobbers where these are saved.
pub(crate) fn clobbered_mask(saved: u64) -> u64
    ensures bits { (r : ℕ) → r < REGISTERS → in_mask result r ≡ (is_clobbered r && not (in_mask saved r)) }
    ensures no_others { result < 2 ^ REGISTERS }
{
    hexagon().clobbered & !saved
}
