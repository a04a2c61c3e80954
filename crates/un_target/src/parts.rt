//! The parts of the text of a table, lent.

ghost use Rattle.std.specs.Prelude.{◌≡◌, ◌↔◌, ℕ, List, IsTrue, IsSome, IfSome, IfNone};
ghost use Rattle.un_isa.specs.declared.op.Op.{Op};
ghost use Rattle.serde_json.specs.Data.{object};
ghost use Rattle.serde_json.specs.Find.{get, get_member, as_array};
ghost use Rattle.serde_json.specs.View.{view, members_view};
ghost use Rattle.un_target.specs.Names.{name_of};
ghost use Rattle.un_target.specs.Parts.{Parts, IsKey, AreNamed, IsFour, AreRight, HasParts};
ghost use Rattle.un_target.specs.Lending.{lent_parts};

use crate::entries::{entry_of, list_at, object_at, truth_at};
use crate::names::{is_named, op_at};
use serde_json::{Map, Value};
use un_isa::op::{OPERATIONS, Op};

/// What stands under the four keys.
#[derive(Clone, Copy)]
pub(crate) struct Lent<'v> {
    pub(crate) latency: &'v Map<String, Value>,
    pub(crate) uses: &'v Map<String, Value>,
    pub(crate) saved: &'v Vec<Value>,
    pub(crate) fresh: bool,
}

/// Whether a text is one of the four keys.
fn is_key(text: &str) -> bool
    ensures { IsTrue result ↔ IsKey text.now }
{
    text == "latency" || text == "uses" || text == "saved" || text == "fresh"
}

/// Whether each key is one of the four.
#[tactic(auto, using(crate::proofs::EntryLaws::all_ahead))]
fn are_keys(entries: &Map<String, Value>) -> bool
    ensures { IsTrue result ↔ ((key : List ℕ) → IsSome (get_member key (members_view entries.now.entries)) → IsKey key) }
{
    for key in entries.keys() {
        if !is_key(key.as_str()) {
            return false;
        }
    }
    true
}

/// Whether each key is the name of an operation.
#[tactic(auto, using(crate::proofs::EntryLaws::all_ahead))]
fn are_named(entries: &Map<String, Value>) -> bool
    ensures { IsTrue result ↔ AreNamed (members_view entries.now.entries) }
{
    for key in entries.keys() {
        if !is_named(key.as_str()) {
            return false;
        }
    }
    true
}

/// Whether a value is a list of four.
fn is_four(value: &Value) -> bool
    ensures { IsTrue result ↔ IsFour (view value.now) }
{
    match value.as_array() {
        Some(items) => items.as_slice().len() == 4,
        None => false,
    }
}

/// Whether the entry of an operation, if there is one, is a list of four.
fn has_four(entries: &Map<String, Value>, op: Op) -> bool
    ensures { IsTrue result ↔ IfSome (get_member (name_of op) (members_view entries.now.entries)) IsFour }
{
    match entry_of(entries, op) {
        Some(value) => is_four(value),
        None => true,
    }
}

/// Whether each entry of an operation is a list of four.
fn are_fours(entries: &Map<String, Value>) -> bool
    ensures { IsTrue result ↔ ((op : Op) → IfSome (get_member (name_of op) (members_view entries.now.entries)) IsFour) }
{
    for number in 0..OPERATIONS {
        if !has_four(entries, op_at(number)) {
            return false;
        }
    }
    true
}

/// Whether keys are right, and so are the entries of uses.
fn are_right(
    entries: &Map<String, Value>,
    latency: &Map<String, Value>,
    uses: &Map<String, Value>,
) -> bool
    ensures { IsTrue result ↔
        AreRight (members_view entries.now.entries) (members_view latency.now.entries) (members_view uses.now.entries) }
{
    if !are_keys(entries) {
        return false;
    }
    if !are_named(latency) {
        return false;
    }
    if !are_named(uses) {
        return false;
    }
    are_fours(uses)
}

/// The parts of a value, where it has those of a table.
pub(crate) fn parts(value: &Value) -> Option<Lent<'_>>
    ensures some { IfSome result (λ l. HasParts (view value.now) (lent_parts l)) }
    ensures none { IfNone result ((p : Parts) → HasParts (view value.now) p → ⊥) }
{
    let Some(entries) = value.as_object() else {
        return None;
    };
    let Some(latency) = object_at(entries, "latency") else {
        return None;
    };
    let Some(uses) = object_at(entries, "uses") else {
        return None;
    };
    let Some(saved) = list_at(entries, "saved") else {
        return None;
    };
    let Some(fresh) = truth_at(entries, "fresh") else {
        return None;
    };
    if are_right(entries, latency, uses) {
        Some(Lent {
            latency,
            uses,
            saved,
            fresh,
        })
    } else {
        None
    }
}
