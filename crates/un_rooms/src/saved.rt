//! Which blocks hand their saved values over where they take them, with a call that keeps fewer registers.

ghost use Rattle.std.specs.Prelude.{◌≡◌, true, map};
ghost use Rattle.std.specs.List.{list_all, list_any};
ghost use Rattle.un_base.specs.declared.ids.TempId.{TempId};
ghost use Rattle.un_ir.specs.Linear.{is_out};
ghost use Rattle.un_sites.specs.Crossings.{reads_value as reads_one};
ghost use Rattle.un_sites.specs.Saved.{keeps_places, has_call, is_crowded, reads_saved};
ghost use Rattle.un_sites.specs.Sites.{place_of};

use crate::crossings::is_read;
use un_base::ids::TempId;
use un_ir::extended::{ExtBlock, ExtKind};
use un_saved::places;
use un_saved::places::saved_in;
use un_sites::sites::Spot;

/// Whether it is a block's end.
pub(crate) fn is_out(kind: &ExtKind) -> bool
    ensures { result ≡ is_out kind.now }
{
    matches!(kind, ExtKind::Out)
}

/// Whether a block hands its saved values over where it takes them.
#[tactic(auto, using(crate::proofs::Saving::keeps_same))]
pub(crate) fn keeps_places(block: &ExtBlock) -> bool
    ensures { result ≡ keeps_places block.now }
{
    places::keeps_places(block)
}

/// Whether a block has a call.
fn has_call(block: &ExtBlock) -> bool
    ensures { result ≡ has_call block.now }
{
    block.ops.iter().any(|op| op.kind.is_call())
}

/// Whether in every solution a block has a saved value in a slot, where a call keeps so many registers.
pub(crate) fn is_crowded(kept: usize, block: &ExtBlock) -> bool
    ensures { result ≡ is_crowded kept block.now }
{
    has_call(block) && (kept < saved_in(block).len() && keeps_places(block))
}

/// Whether some of these operations reads a value in a register.
fn is_read_in_register(spots: &[Spot<'_>], t: TempId) -> bool
    ensures { result ≡ list_any (reads_one true t.0) (map place_of spots.now) }
{
    is_read(true, spots, t.0)
}

/// Whether these operations read each of these values in a register.
fn are_read(spots: &[Spot<'_>], temps: &[TempId]) -> bool
    ensures { result ≡ list_all (λ (t : TempId). list_any (reads_one true t.0) (map place_of spots.now)) temps.now }
{
    temps.iter().all(|t| is_read_in_register(spots, *t))
}

/// Whether a block with these operations reads each saved value that it takes in a register.
pub(crate) fn reads_saved(block: &ExtBlock, spots: &[Spot<'_>]) -> bool
    ensures { result ≡ reads_saved block.now (map place_of spots.now) }
{
    are_read(spots, saved_in(block))
}
