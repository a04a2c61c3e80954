//! Whether a register is a home of a value or of an operand.

ghost use Rattle.std.specs.Prelude.{◌≡◌, slice_get};
ghost use Rattle.std.specs.List.{list_any};
ghost use Rattle.un_model.specs.Registers.{is_register, name_home, saved_home, start_home, call_home, result_home};
ghost use Rattle.un_symm.specs.Interchangeable.{reads_home, gives_home, is_home_at, is_home_in_block, is_home_in};

use un_base::ids::NameId;
use un_ir::extended::{ExtBlock, ExtKind, ExtOp};
use un_isa::op::Op;
use un_isa::reg::{GENERALS, LINK, Reg};
use un_isa::reg_set::is_in_mask;
use un_isa::table::Table;
use un_model::model::Model;

/// Whether a home is this register.
fn is_register(home: Option<Reg>, r: Reg) -> bool
    ensures { result ≡ is_register home r.0 }
{
    match home {
        None => false,
        Some(home) => home.0 == r.0,
    }
}

/// The home of the value at place `k` of those that a function hands back.
fn saved_home(t: &Table, k: usize) -> Option<Reg>
    ensures { result ≡ saved_home t.now k }
{
    let mut left = k;
    for r in 0..GENERALS {
        if is_in_mask(t.saved, r) {
            if left == 0 {
                return Some(Reg(r));
            }
            left -= 1;
        }
    }
    if left == 0 { Some(Reg(LINK)) } else { None }
}

/// The home of a name in the entry or elsewhere.
fn name_home(t: &Table, is_entry: bool, name: NameId) -> Option<Reg>
    ensures { result ≡ name_home t.now is_entry name }
{
    if is_entry {
        let r = t.args.get(name.0 as usize).copied().map_or(0, u32::from);
        Some(Reg(r))
    } else {
        None
    }
}

/// The home of the value at place `j` of those at a block's start.
fn start_home(t: &Table, is_entry: bool, live_in: &[NameId], j: usize) -> Option<Reg>
    ensures { result ≡ start_home t.now is_entry live_in.now j (slice_get live_in.now j) }
{
    match live_in.get(j) {
        None => saved_home(t, j.saturating_sub(live_in.len())),
        Some(name) => name_home(t, is_entry, *name),
    }
}

/// The home of the result of an operation of the source.
fn call_home(t: &Table, op: Op) -> Option<Reg>
    ensures { result ≡ call_home t.now op }
{
    match op {
        Op::Call => Some(Reg(u32::from(t.result))),
        _ => None,
    }
}

/// The home of the result at place `j` of an operation.
fn result_home(
    t: &Table,
    is_entry: bool,
    live_in: &[NameId],
    kind: &ExtKind,
    j: usize,
) -> Option<Reg>
    ensures { result ≡ result_home t.now is_entry live_in.now kind.now j }
{
    match kind {
        ExtKind::In => start_home(t, is_entry, live_in, j),
        ExtKind::Body(source) => call_home(t, source.op),
        _ => None,
    }
}

/// Whether an operand of an operation has this home.
fn reads_home(op: &ExtOp, r: Reg) -> bool
    ensures { result ≡ reads_home op.now r.0 }
{
    op.operands.iter().any(|x| is_register(x.home, r))
}

/// Whether a result of an operation has this home.
fn gives_home(t: &Table, is_entry: bool, live_in: &[NameId], op: &ExtOp, r: Reg) -> bool
    ensures { result ≡ gives_home t.now is_entry live_in.now op.now r.0 }
{
    (0..op.results.len()).any(|j| is_register(result_home(t, is_entry, live_in, &op.kind, j), r))
}

/// Whether a register is a home of an operation of a block.
fn is_home_at(t: &Table, is_entry: bool, live_in: &[NameId], r: Reg, op: &ExtOp) -> bool
    ensures { result ≡ is_home_at t.now is_entry live_in.now r.0 op.now }
{
    reads_home(op, r) || gives_home(t, is_entry, live_in, op, r)
}

/// Whether a register is a home in a block.
fn is_home_in_block(t: &Table, r: Reg, is_entry: bool, block: &ExtBlock) -> bool
    ensures { result ≡ list_any (is_home_at t.now is_entry block.now.live_in r.0) block.now.ops }
{
    let live_in = block.live_in.as_slice();
    block
        .ops
        .iter()
        .any(|op| is_home_at(t, is_entry, live_in, r, op))
}

/// Whether a value or an operand of a block has this home.
pub(crate) fn is_home_in(m: &Model, r: Reg) -> bool
    ensures { result ≡ is_home_in m.now r.0 }
{
    for k in 0..m.ext.blocks.len() {
        if is_home_in_block(&m.ext.table, r, k == 0, m.ext.blocks.get(k)) {
            return true;
        }
    }
    false
}
