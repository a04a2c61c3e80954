//! The saved values of a block: whether its end hands them over, and whether where the block takes them.

ghost use Rattle.std.specs.Prelude.{◌≡◌, ◌==◌, drop};
ghost use Rattle.un_base.specs.declared.ids.TempId.{TempId};
ghost use Rattle.un_ir.specs.Linear.{first_of, is_out};
ghost use Rattle.un_saved.specs.Saved.{saved_in, saved_out, end_operands, reads_alone, read_alone, keeps_places};
ghost use Rattle.un_saved.specs.Saved.{reads_own, hands_own};

use un_base::ids::TempId;
use un_ir::extended::{ExtBlock, ExtKind, ExtOp, Operand, first_of};
use un_lists::items::Items;
use un_model::ends::live_in_temps;

/// Whether it is a block's end.
fn is_out(kind: &ExtKind) -> bool
    ensures { result ≡ is_out kind.now }
{
    matches!(kind, ExtKind::Out)
}

/// What a block's end reads.
fn end_operands(ops: &Items<ExtOp>) -> &[Operand]
    ensures { result.now ≡ end_operands ops.now }
{
    for k in 0..ops.len() {
        let op = ops.get(k);
        if is_out(&op.kind) {
            return op.operands.as_slice();
        }
    }
    &[]
}

/// The temporaries behind the first ones.
fn temps_behind(temps: &[TempId], first: usize) -> &[TempId]
    ensures { result.now ≡ drop first temps.now }
{
    if first < temps.len() {
        &temps[first..]
    } else {
        &[]
    }
}

/// The operands behind the first ones.
fn operands_behind(operands: &[Operand], first: usize) -> &[Operand]
    ensures { result.now ≡ drop first operands.now }
{
    if first < operands.len() {
        &operands[first..]
    } else {
        &[]
    }
}

/// The saved values that a block takes.
pub fn saved_in(block: &ExtBlock) -> &[TempId]
    ensures { result.now ≡ saved_in block.now }
{
    temps_behind(live_in_temps(&block.ops), block.live_in.len())
}

/// Those that it hands over.
pub fn saved_out(block: &ExtBlock) -> &[Operand]
    ensures { result.now ≡ saved_out block.now }
{
    operands_behind(end_operands(&block.ops), block.live_out.len())
}

/// Whether an operand reads this temporary, and may choose no other.
fn reads_alone(t: TempId, x: &Operand) -> bool
    ensures { result ≡ reads_alone t x.now }
{
    x.alts.len() == 1 && first_of(x.alts.as_slice()) == t.0
}

/// Whether operands read these temporaries alone, one after another.
#[tactic(auto, using(crate::proofs::Saving::not_alone))]
fn read_alone(temps: &[TempId], operands: &[Operand]) -> bool
    ensures { result ≡ read_alone temps.now operands.now }
{
    for i in 0..temps.len() {
        if i >= operands.len() {
            return false;
        }
        if !reads_alone(temps[i], &operands[i]) {
            return false;
        }
    }
    true
}

/// Whether a block hands its saved values over where it takes them.
pub fn keeps_places(block: &ExtBlock) -> bool
    ensures { result ≡ keeps_places block.now }
{
    read_alone(saved_in(block), saved_out(block))
}

/// Whether an operand reads this value, by itself or by a copy.
fn reads_first(t: TempId, x: &Operand) -> bool
    ensures { result ≡ (first_of x.now.alts == t.0) }
{
    first_of(x.alts.as_slice()) == t.0
}

/// Whether operands read these values, one after another, each by itself or by a copy.
#[tactic(auto, using(crate::proofs::Saving::not_own))]
fn reads_own(temps: &[TempId], operands: &[Operand]) -> bool
    ensures { result ≡ reads_own temps.now operands.now }
{
    for i in 0..temps.len() {
        if i >= operands.len() {
            return false;
        }
        if !reads_first(temps[i], &operands[i]) {
            return false;
        }
    }
    true
}

/// Whether a block hands over the saved values that it takes, wherever they stand.
pub fn hands_own(block: &ExtBlock) -> bool
    ensures { result ≡ hands_own block.now }
{
    reads_own(saved_in(block), saved_out(block))
}
