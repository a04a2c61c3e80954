//! No more values cross a call than there is room for.

ghost use Rattle.std.specs.Prelude.{◌≡◌};
ghost use Rattle.un_prop.specs.LastLaws.{Ascend};

use un_base::ids::VarId;
use un_domains::window::Window;
use un_lists::items::Items;
use un_prop::last::check_last;
use un_prop::propagator::{Predicate, Propagator, Pruned, Scratch};

/// The values that cross a call in every solution are no more than there is room for. It holds of every assignment or of none.
#[derive(Drop)]
pub struct Across {
    /// The variable of the call's cycle.
    pub call: VarId,
    /// How many values are there before the call and are read behind it, whatever the cycles.
    pub sure: u32,
    /// How many registers and slots there are for them that the call leaves as they are.
    pub room: u32,
    /// The variable of the call's cycle alone: it reads it, and cuts it alone.
    pub vars: Items<VarId>,
    ghost ascend: { Ascend vars },
}

impl Predicate for Across {
    ghost use Rattle.std.specs.Prelude.{refl};
    ghost use Rattle.un_press.specs.Pressures.{across_holds};

    ghost scope = { λ p. p.vars };

    ghost holds = { λ p x. across_holds p.sure p.room x };

    fn reads(&self) -> &[VarId] {
        self.vars.as_slice()
    }

    fn test(&self, fixed: &[u32]) -> bool {
        let _ = fixed;
        self.sure <= self.room
    }

    ghost looks = { λ p x y same. refl };
}

impl Propagator for Across {
    ghost use Rattle.std.specs.Prelude.{refl};
    ghost use Rattle.un_prop.specs.Last.{last_cut};
    ghost use Rattle.un_prop.specs.LastLaws.{last_lawful, last_keeps};
    ghost use Rattle.un_prop.specs.PartLaws.{one_part, one_whole, forward_one};
    ghost use Rattle.un_prop.specs.WithinLaws.{one_within};
    ghost use Rattle.un_press.specs.Pressures.{across_holds};

    ghost cut = { λ p s. last_cut p.vars (across_holds p.sure p.room) s };

    ghost parts = { λ p. one_part p.vars (across_holds p.sure p.room) };

    ghost strong = { λ p s. Unit {0} };

    ghost span = { λ p. 0 };

    fn prune_in(&self, w: &mut Window<'_>, scratch: &mut Scratch) -> Pruned {
        if self.sure <= self.room {
            return Pruned::Same;
        }
        check_last(self, w, scratch, Pruned::Same)
    }

    ghost keeps = { λ p s x k full there holds. last_keeps p.vars (across_holds p.sure p.room) (λ x y same. refl) s x k there holds };

    ghost lawful = { λ p. last_lawful p.vars (across_holds p.sure p.room) (λ x y same. refl) };

    ghost whole = { λ p x. one_whole p.vars (across_holds p.sure p.room) x };

    ghost within = { λ p. one_within p.vars (across_holds p.sure p.room) };

    ghost forward = { λ p. forward_one p.vars (across_holds p.sure p.room) (λ x y same. refl) p.ascend };

    ghost strength = { λ p s k full words grounded e. tt };
}
