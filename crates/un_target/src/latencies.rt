//! The latencies of the text of a table.

ghost use Rattle.std.specs.Prelude.{◌≡◌, ◌↔◌, ℕ, ◌≤◌, List, IsTrue, true, IfSome, IfNone};
ghost use Rattle.un_isa.specs.Does.{is_compare};
ghost use Rattle.un_isa.specs.Facts.{latency_by};
ghost use Rattle.un_isa.specs.Fit.{IsFitLatency};
ghost use Rattle.serde_json.specs.View.{members_view};
ghost use Rattle.un_target.specs.Latencies.{HasLatency, IsLatency, AreLatencies};
ghost use Rattle.un_target.specs.Lending.{lent_parts};

use crate::entries::{entry_of, number_within};
use crate::names::op_at;
use crate::parts::Lent;
use serde_json::{Map, Value};
use un_isa::does::is_compare;
use un_isa::facts::result_space;
use un_isa::op::{OPERATIONS, Op};
use un_isa::table::hexagon;

/// Whether an operation may have this latency, where jumps may test what compares of their own packets write or not.
pub(crate) fn is_fit_latency(op: Op, n: u8, fresh: bool) -> bool
    ensures { IsTrue result ↔ (IsFitLatency op n × (fresh ≡ true → is_compare op ≡ true → n ≡ 1)) }
{
    n == 1 || n == 2 && result_space(op).is_some() && !(fresh && is_compare(op))
}

/// The latency of an operation on HEXAGON.
fn usual(op: Op) -> u8
    ensures { result ≡ latency_by op }
{
    hexagon().lat[op as usize]
}

/// The latency that the entries say, 1 or 2.
fn entered(entries: &Map<String, Value>, op: Op) -> Option<u8>
    ensures some { IfSome result (HasLatency (members_view entries.now.entries) op) }
    ensures none { IfNone result ((n : ℕ) → 1 ≤ n → n ≤ 2 → HasLatency (members_view entries.now.entries) op n → ⊥) }
{
    match entry_of(entries, op) {
        Some(value) => number_within(value, 1, 2),
        None => Some(usual(op)),
    }
}

/// The latency of an operation.
fn latency(parts: &Lent<'_>, op: Op) -> Option<u8>
    ensures some { IfSome result (IsLatency (lent_parts parts.now) op) }
    ensures none { IfNone result ((n : ℕ) → IsLatency (lent_parts parts.now) op n → ⊥) }
{
    let Some(n) = entered(parts.latency, op) else {
        return None;
    };
    if is_fit_latency(op, n, parts.fresh) {
        Some(n)
    } else {
        None
    }
}

/// The latencies of all operations, by their numbers.
pub(crate) fn latencies(parts: &Lent<'_>) -> Option<[u8; OPERATIONS]>
    ensures some { IfSome result (AreLatencies (lent_parts parts.now)) }
    ensures none { IfNone result ((lat : List ℕ) → AreLatencies (lent_parts parts.now) lat → ⊥) }
{
    let mut lat = [0; OPERATIONS];
    for number in 0..OPERATIONS {
        let op = op_at(number);
        let Some(n) = latency(parts, op) else {
            return None;
        };
        lat[number] = n;
    }
    Some(lat)
}
