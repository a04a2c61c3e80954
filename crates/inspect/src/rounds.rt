//! What rounds of propagators leave of a model's domains at a node of a search.

ghost use Rattle.std.specs.Prelude.{◌≡◌, ◌<◌, [], All, IsTrue, length};
ghost use Rattle.inspect.specs.Nodes.{IsOn};
ghost use Rattle.un_domains.specs.Cuts.{IsCut};
ghost use Rattle.un_domains.specs.Sets.{NoneEmpty, set_at};
ghost use Rattle.un_ir.specs.Extended.{IsExtended};
ghost use Rattle.un_isa.specs.Fit.{IsFit};
ghost use Rattle.un_model.specs.Options.{AreOptions};
ghost use Rattle.un_model.specs.Variables.{IsModel};
ghost use Rattle.un_post.specs.Posts.{ReadsFrom, SpansAtMost};
ghost use Rattle.un_domains.specs.Sides.{side_test};

use crate::node::{Decision, Node};
use std::alloc::{AllocError, Global};
use un_base::ids::VarId;
use un_base::memory_error::NoMemory;
use un_domains::cut::Cut;
use un_domains::side::Side;
use un_domains::store::Store;
use un_engine::engine::Engine;
use un_ir::text::put_text;
use un_model::model::Model;
use un_post::post::{Posted, post};
use un_shown::domains::put_values;
use un_shown::text::put_between;

/// Cuts a store to one side of a decision.
fn cut_to(store: &mut Store, decision: &Decision) -> Cut
    requires { decision.now.var.0 < length store.old.sets }
    ensures { IsCut (side_test decision.now.side decision.now.value) decision.now.var.0 store.old store.new result }
{
    match decision.side {
        Side::AtMost => store.keep_le(decision.var, decision.value),
        Side::Above => store.keep_gt(decision.var, decision.value),
    }
}

/// Cuts a store to one side of a decision, and answers whether the variable has a value left.
fn decide(store: &mut Store, decision: &Decision) -> bool
    requires there { decision.now.var.0 < length store.old.sets }
    requires live { NoneEmpty store.old.sets }
    ensures live { IsTrue result → NoneEmpty store.new.sets }
    ensures long { length store.new.sets ≡ length store.old.sets }
    ensures marked { store.new.marked ≡ store.old.marked }
{
    match cut_to(store, decision) {
        Cut::Same => true,
        Cut::Changed => true,
        Cut::Emptied => false,
    }
}

/// Cuts a store by decisions, and answers whether each variable has a value left.
fn decide_all(store: &mut Store, decisions: &[Decision]) -> bool
    requires known { All (IsOn (length store.old.sets)) decisions.now }
    requires live { NoneEmpty store.old.sets }
    ensures live { IsTrue result → NoneEmpty store.new.sets }
    ensures long { length store.new.sets ≡ length store.old.sets }
    ensures marked { store.new.marked ≡ store.old.marked }
{
    for decision in decisions {
        if !decide(store, decision) {
            return false;
        }
    }
    true
}

/// The values that a variable has left.
fn values_left(alloc: Global, store: &Store, v: VarId) -> Result<Vec<u32>, AllocError>
    requires there { v.0 < length store.now.sets }
    requires some { 0 < length (set_at store.now.sets v.0) }
{
    let mut values = Vec::new(alloc);
    let low = store.min(v);
    let high = store.max(v);
    for k in 0..high.saturating_sub(low) {
        if store.has(v, low + k) {
            values.push(low + k)?;
        }
    }
    values.push(high)?;
    Ok(values)
}

/// Appends the line of a variable: its number, and the values that it has left.
fn put_left(alloc: Global, out: &mut Vec<u8>, store: &Store, v: VarId) -> Result<(), NoMemory>
    requires there { v.0 < length store.now.sets }
    requires some { 0 < length (set_at store.now.sets v.0) }
{
    let values = values_left(alloc, store, v)?;
    put_between(out, b"v", u64::from(v.0), b": ")?;
    put_values(out, values.as_slice())?;
    put_text(out, b"\n")
}

/// Appends a line for each variable, with the values that it has left.
fn put_all_left(alloc: Global, out: &mut Vec<u8>, store: &Store) -> Result<(), NoMemory>
    requires { NoneEmpty store.now.sets }
{
    for v in 0..store.len() {
        put_left(alloc, out, store, VarId(v))?;
    }
    Ok(())
}

/// Appends the lines for what the rounds leave of a store after decisions.
fn put_lines_left(
    alloc: Global,
    out: &mut Vec<u8>,
    posted: Posted,
    decisions: &[Decision],
) -> Result<(), NoMemory>
    requires known { All (IsOn (length posted.store.sets)) decisions.now }
    requires live { NoneEmpty posted.store.sets }
    requires fresh { posted.store.marked ≡ [] }
    requires reads { All (ReadsFrom posted.store.sets) posted.props.items }
    requires spans { All (SpansAtMost posted.horizon) posted.props.items }
{
    let Posted {
        props,
        mut store,
        horizon,
        ..
    } = posted;
    if !decide_all(&mut store, decisions) {
        return put_text(out, b"failed\n");
    }
    match Engine::new(alloc, props, store, horizon)? {
        Some(engine) => put_all_left(alloc, out, engine.store()),
        None => put_text(out, b"failed\n"),
    }
}

/// Appends a line for each variable with the values that the rounds leave it at a node of a search, or the line for rounds that
/// fail.
pub(crate) fn put_rounds(
    alloc: Global,
    out: &mut Vec<u8>,
    m: &Model,
    node: &Node,
) -> Result<(), NoMemory>
    requires model { IsModel m.now }
    requires extended { IsExtended m.now.ext }
    requires fit { IsFit m.now.ext.table }
    requires options { AreOptions m.now.options }
    requires known { All (IsOn (length m.now.domains)) node.now.decisions.items }
{
    let posted = post(alloc, m, node.limit)?;
    put_lines_left(alloc, out, posted, node.decisions.as_slice())
}
