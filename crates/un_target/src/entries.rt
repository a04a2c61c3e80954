//! What stands in a JSON value.

ghost use Rattle.std.specs.Prelude.{◌≡◌, ℕ, ◌≤◌, Bool, IfSome, IfNone, Some, option_map};
ghost use Rattle.serde_json.specs.Data.{Items, Members, Data, array, boolean, object};
ghost use Rattle.serde_json.specs.Find.{get_member};
ghost use Rattle.serde_json.specs.View.{view, items_view, members_view};
ghost use Rattle.un_target.specs.Latencies.{IsNumber};
ghost use Rattle.un_target.specs.Names.{name_of};

use crate::names::name;
use serde_json::{Map, Value};
use un_isa::op::Op;

/// What an object has under a key.
fn entry<'v>(entries: &'v Map<String, Value>, key: &str) -> Option<&'v Value>
    ensures { option_map (λ v. view v.now) result ≡ get_member key.now (members_view entries.now.entries) }
{
    entries.get(key)
}

/// What an object has under the name of an operation.
pub(crate) fn entry_of(entries: &Map<String, Value>, op: Op) -> Option<&Value>
    ensures { option_map (λ v. view v.now) result ≡ get_member (name_of op) (members_view entries.now.entries) }
{
    entry(entries, name(op))
}

/// The object that stands under a key.
pub(crate) fn object_at<'v>(
    entries: &'v Map<String, Value>,
    key: &str,
) -> Option<&'v Map<String, Value>>
    ensures some { IfSome result (λ m. get_member key.now (members_view entries.now.entries) ≡ Some (object (members_view m.now.entries))) }
    ensures none { IfNone result ((m : Members) → get_member key.now (members_view entries.now.entries) ≡ Some (object m) → ⊥) }
{
    entry(entries, key)?.as_object()
}

/// The list that stands under a key.
pub(crate) fn list_at<'v>(entries: &'v Map<String, Value>, key: &str) -> Option<&'v Vec<Value>>
    ensures some { IfSome result (λ v. get_member key.now (members_view entries.now.entries) ≡ Some (array (items_view v.now.items))) }
    ensures none { IfNone result ((v : Items) → get_member key.now (members_view entries.now.entries) ≡ Some (array v) → ⊥) }
{
    entry(entries, key)?.as_array()
}

/// The truth value that stands under a key.
pub(crate) fn truth_at(entries: &Map<String, Value>, key: &str) -> Option<bool>
    ensures some { IfSome result (λ b. get_member key.now (members_view entries.now.entries) ≡ Some (boolean b)) }
    ensures none { IfNone result ((b : Bool) → get_member key.now (members_view entries.now.entries) ≡ Some (boolean b) → ⊥) }
{
    match entry(entries, key) {
        Some(found) => found.as_bool(),
        None => None,
    }
}

/// The number from `least` to `most` that a value is, written as digits alone.
pub(crate) fn number_within(value: &Value, least: u8, most: u8) -> Option<u8>
    ensures some { IfSome result (λ n. IsNumber (view value.now) n × (least ≤ n) × (n ≤ most)) }
    ensures none { IfNone result ((n : ℕ) → least ≤ n → n ≤ most → IsNumber (view value.now) n → ⊥) }
{
    let n = u8::try_from(value.as_u64()?).ok()?;
    if least <= n && n <= most {
        Some(n)
    } else {
        None
    }
}
