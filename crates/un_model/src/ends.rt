//! What a block's operations say of its start and its end: the values that it takes and hands over, and its terminator.

ghost use Rattle.std.specs.Prelude.{◌≡◌, ◌+◌, ◌-◌, ◌^◌, ◌<◌, ◌==◌, unwrap_or, if◌then◌else◌, List, Some, None};
ghost use Rattle.std.specs.Prelude.{length, slice_get};
ghost use Rattle.std.specs.List.{position_or_len};
ghost use Rattle.un_base.specs.declared.ids.TempId.{TempId};
ghost use Rattle.un_ir.specs.declared.function.Term.{Term};
ghost use Rattle.un_ir.specs.Linear.{place_by, place_over};
ghost use Rattle.un_model.specs.Congruences.{term_or, term_of, results_of_start, live_in_temps};

use un_base::ids::{NameId, TempId};
use un_ir::extended::{ExtBlock, ExtKind, ExtOp};
use un_ir::function::Term;
use un_lists::items::Items;

/// The terminator that an operation is.
fn own_term(kind: &ExtKind) -> Option<Term>
    ensures { (later : Term) → unwrap_or result later ≡ term_or kind.now later }
{
    match kind {
        ExtKind::End(term) => Some(*term),
        _ => None,
    }
}

/// The terminator of a block with these operations.
pub fn term(ops: &Items<ExtOp>) -> Term
    ensures { result ≡ term_of ops.now }
{
    for k in 0..ops.len() {
        if let Some(found) = own_term(&ops.get(k).kind) {
            return found;
        }
    }
    Term::Fall
}

/// The live-in temporaries of a block with these operations.
pub fn live_in_temps(ops: &Items<ExtOp>) -> &[TempId]
    ensures { result.now ≡ live_in_temps ops.now }
{
    for k in 0..ops.len() {
        let op = ops.get(k);
        if op.kind.is_in() {
            return op.results.as_slice();
        }
    }
    &[]
}

/// The place of a name, the number of names where it is not among them.
fn position(names: &[NameId], name: NameId) -> usize
    ensures { result ≡ position_or_len (λ n. n.0 == name.0) names.now }
{
    for k in 0..names.len() {
        if names[k].0 == name.0 {
            return k;
        }
    }
    names.len()
}

/// The place among what block `a` hands over of what block `b` takes at place `j`.
pub fn place(a: &ExtBlock, b: &ExtBlock, j: usize) -> usize
    requires { j < 2 ^ 62 }
    ensures { result ≡ place_over a.now b.now j }
{
    let handed = a.live_out.as_slice();
    let taken = b.live_in.as_slice();
    match taken.get(j) {
        None => handed.len() + (j - taken.len()),
        Some(name) => position(handed, *name),
    }
}
