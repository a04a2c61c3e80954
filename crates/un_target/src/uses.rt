//! What operations need of a packet by the text of a table.

ghost use Rattle.std.specs.Prelude.{◌≡◌, ◌↔◌, ℕ, ◌≤◌, List, IsTrue, IfSome, IfNone};
ghost use Rattle.un_isa.specs.declared.table.Needs.{Needs};
ghost use Rattle.un_isa.specs.Fit.{AreFitNeeds};
ghost use Rattle.serde_json.specs.Data.{array};
ghost use Rattle.serde_json.specs.View.{view};
ghost use Rattle.un_target.specs.Lending.{lent_parts};
ghost use Rattle.un_target.specs.Uses.{four, IsUse, AreUses};

use crate::entries::{entry_of, number_within};
use crate::names::op_at;
use crate::parts::Lent;
use serde_json::Value;
use un_isa::op::{OPERATIONS, Op};
use un_isa::table::{Needs, hexagon, uses};

/// The needs that a list of four numbers is, each 1 at most and no less than the least ones.
fn needs_above(value: &Value, least: &Needs) -> Option<Needs>
    ensures some { IfSome result (λ n. (view value.now ≡ array (four n)) × AreFitNeeds least.now n) }
    ensures none { IfNone result ((n : Needs) → view value.now ≡ array (four n) → AreFitNeeds least.now n → ⊥) }
{
    let [mem, store, xc, control] = value.as_array()?.as_slice() else {
        return None;
    };
    Some(Needs {
        mem: number_within(mem, least.mem, 1)?,
        store: number_within(store, least.store, 1)?,
        xc: number_within(xc, least.xc, 1)?,
        control: number_within(control, least.control, 1)?,
    })
}

/// The needs of an operation.
fn needs(parts: &Lent<'_>, op: Op) -> Option<Needs>
    ensures some { IfSome result (IsUse (lent_parts parts.now) op) }
    ensures none { IfNone result ((n : Needs) → IsUse (lent_parts parts.now) op n → ⊥) }
{
    let least = uses(&hexagon(), op);
    match entry_of(parts.uses, op) {
        Some(value) => needs_above(value, &least),
        None => Some(least),
    }
}

/// The needs of all operations, by their numbers.
pub(crate) fn all_needs(parts: &Lent<'_>) -> Option<[Needs; OPERATIONS]>
    ensures some { IfSome result (AreUses (lent_parts parts.now)) }
    ensures none { IfNone result ((all : List Needs) → AreUses (lent_parts parts.now) all → ⊥) }
{
    let mut all = hexagon().uses;
    for number in 0..OPERATIONS {
        let op = op_at(number);
        let Some(n) = needs(parts, op) else {
            return None;
        };
        all[number] = n;
    }
    Some(all)
}
