//! The operations of a block have room before its end.

ghost use Rattle.std.specs.Prelude.{◌≡◌};
ghost use Rattle.un_prop.specs.LastLaws.{Ascend};
ghost use Rattle.un_length.specs.Blocks.{BlockVars};

use crate::block::Block;
use crate::holds::block_holds;
use crate::room::keep_length;
use un_base::ids::VarId;
use un_domains::window::Window;
use un_lists::items::Items;
use un_prop::last::check_last;
use un_prop::propagator::{Predicate, Propagator, Pruned, Scratch};

/// The operations of a block keep its precedences and issue before its end, and in no cycle do they take more of a resource than a
/// packet has. It fails where they have no room before the greatest end, and takes no value away before all variables but one are
/// fixed: so it raises no end.
#[derive(Drop)]
pub struct Length {
    /// The operations, precedences and end of the block.
    pub block: Block,
    /// The variables of the operations and of the end, rising, each once: it reads these, and cuts these alone.
    pub vars: Items<VarId>,
    ghost ascend: { Ascend vars },
    ghost among: { BlockVars vars block.ops block.end },
}

impl Predicate for Length {
    ghost use Rattle.un_length.specs.Blocks.{block_holds};
    ghost use Rattle.un_length.specs.BlockLaws.{block_looks};

    ghost scope = { λ p. p.vars };

    ghost holds = { λ p x. block_holds p.block.ops p.block.arcs p.block.end x };

    fn reads(&self) -> &[VarId] {
        self.vars.as_slice()
    }

    fn test(&self, fixed: &[u32]) -> bool {
        block_holds(&self.block, fixed)
    }

    ghost looks = { λ p x y same. block_looks p.vars p.block.ops p.block.arcs p.block.end p.among x y same };
}

impl Propagator for Length {
    ghost use Rattle.std.specs.Prelude.{option_and_then};
    ghost use Rattle.un_prop.specs.Last.{last_cut};
    ghost use Rattle.un_prop.specs.PartLaws.{one_part, one_whole, lawful_checked, keeps_checked, forward_checked, stable_first};
    ghost use Rattle.un_prop.specs.WithinLaws.{one_within};
    ghost use Rattle.un_length.specs.Blocks.{block_holds};
    ghost use Rattle.un_length.specs.BlockLaws.{block_looks};
    ghost use Rattle.un_length.specs.Lengths.{length_cut, LengthStrong};
    ghost use Rattle.un_length.specs.LengthLaws.{length_lawful, length_keeps, length_strong};

    ghost cut = { λ p s. option_and_then (last_cut p.vars (block_holds p.block.ops p.block.arcs p.block.end))
        (length_cut p.vars p.block.ops p.block.arcs p.block.end p.block.horizon s) };

    ghost parts = { λ p. one_part p.vars (block_holds p.block.ops p.block.arcs p.block.end) };

    ghost strong = { λ p s. LengthStrong p.vars p.block.ops p.block.arcs p.block.end p.block.horizon s };

    ghost span = { λ p. p.block.horizon };

    fn is_heavy(&self) -> bool {
        true
    }

    fn prune_in(&self, w: &mut Window<'_>, scratch: &mut Scratch) -> Pruned {
        let did = keep_length(&self.block, w, scratch);
        check_last(self, w, scratch, did)
    }

    ghost keeps = { λ p s x k full there holds. keeps_checked p.vars (block_holds p.block.ops p.block.arcs p.block.end)
        (block_looks p.vars p.block.ops p.block.arcs p.block.end p.among) p.ascend
        (length_cut p.vars p.block.ops p.block.arcs p.block.end p.block.horizon)
        (length_lawful p.vars p.block.ops p.block.arcs p.block.end p.block.horizon p.among) s x k
        (length_keeps p.vars p.block.ops p.block.arcs p.block.end p.block.horizon p.among s x k there holds) there.long holds };

    ghost lawful = { λ p. lawful_checked p.vars (block_holds p.block.ops p.block.arcs p.block.end)
        (block_looks p.vars p.block.ops p.block.arcs p.block.end p.among) p.ascend
        (length_cut p.vars p.block.ops p.block.arcs p.block.end p.block.horizon)
        (length_lawful p.vars p.block.ops p.block.arcs p.block.end p.block.horizon p.among) };

    ghost whole = { λ p x. one_whole p.vars (block_holds p.block.ops p.block.arcs p.block.end) x };

    ghost within = { λ p. one_within p.vars (block_holds p.block.ops p.block.arcs p.block.end) };

    ghost forward = { λ p. forward_checked p.vars (block_holds p.block.ops p.block.arcs p.block.end)
        (block_looks p.vars p.block.ops p.block.arcs p.block.end p.among) p.ascend
        (length_cut p.vars p.block.ops p.block.arcs p.block.end p.block.horizon)
        (length_lawful p.vars p.block.ops p.block.arcs p.block.end p.block.horizon p.among) };

    ghost strength = { λ p s k full words grounded e. length_strong p.vars p.block.ops p.block.arcs p.block.end p.block.horizon p.among s
        k full (stable_first p.vars (block_holds p.block.ops p.block.arcs p.block.end)
        (block_looks p.vars p.block.ops p.block.arcs p.block.end p.among) p.ascend
        (length_cut p.vars p.block.ops p.block.arcs p.block.end p.block.horizon)
        (length_lawful p.vars p.block.ops p.block.arcs p.block.end p.block.horizon p.among) s k full e) };
}
