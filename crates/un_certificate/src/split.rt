//! What a Split of a model's tree asks: which variables are a block's own, and whether what joins the blocks is single.

ghost use Rattle.std.specs.Prelude.{◌≡◌, ◌↔◌, ◌+◌, IsTrue, All, slice_get};
ghost use Rattle.un_model.specs.Congruences.{live_in_temps};
ghost use Rattle.un_certificate.specs.Joints.{AreJoined, HasOne, HasRegister, IsOwn, first_own, past_end};

use un_base::ids::{TempId, VarId};
use un_domains::store::Store;
use un_ir::extended::ExtBlock;
use un_model::ends::live_in_temps;
use un_model::model::{BlockVars, Model};

/// The number behind a variable's.
fn next_to(number: u32) -> u64
    ensures { result ≡ number + 1 }
{
    u64::from(number) + 1
}

/// The variable behind the last one of block `k`; the first one of all where there is no such block.
fn past_end(blocks: &[BlockVars], k: usize) -> u64
    ensures { result ≡ past_end (slice_get blocks.now k) }
{
    match blocks.get(k) {
        None => 0,
        Some(vars) => next_to(vars.end.0),
    }
}

/// The first variable of block `k`.
fn first_own(blocks: &[BlockVars], k: usize) -> u64
    ensures { result ≡ first_own blocks.now k }
{
    if k == 0 {
        return 0;
    }
    past_end(blocks, k - 1)
}

/// Whether a variable is one of block `k`: neither another block's nor the flag.
pub fn is_own(m: &Model, k: u32, v: VarId) -> bool
    ensures { IsTrue result ↔ IsOwn m.now k v }
{
    let blocks = m.blocks.as_slice();
    let at = u64::from(v.0);
    first_own(blocks, k as usize) <= at && at < past_end(blocks, k as usize)
}

/// Whether a variable has one value.
fn has_one(store: &Store, v: VarId) -> bool
    ensures { IsTrue result ↔ HasOne store.now.sets v }
{
    if v.0 >= store.len() {
        return false;
    }
    store.is_single(v)
}

/// Whether the register of a temporary has one value.
fn has_register(m: &Model, store: &Store, x: TempId) -> bool
    ensures { IsTrue result ↔ HasRegister m.now store.now.sets x }
{
    match m.temps.as_slice().get(x.0 as usize) {
        None => true,
        Some(temp) => has_one(store, temp.reg),
    }
}

/// Whether the registers of the values at a block's start have one value each.
fn is_joined(m: &Model, store: &Store, block: &ExtBlock) -> bool
    ensures { IsTrue result ↔ All (HasRegister m.now store.now.sets) (live_in_temps block.now.ops) }
{
    live_in_temps(&block.ops)
        .iter()
        .all(|x| has_register(m, store, *x))
}

/// Whether the flag has one value, and the register of each value at a block's start.
pub fn are_joined(m: &Model, store: &Store) -> bool
    ensures { IsTrue result ↔ AreJoined m.now store.now.sets }
{
    let blocks = m.ext.blocks.as_slice();
    has_one(store, m.flag) && blocks.iter().all(|block| is_joined(m, store, block))
}
