//! What a search asks of a problem.

ghost use Rattle.std.specs.Prelude.{◌≡◌, ℕ, ◌≤◌, List, Option, Some, None, IfOk};
ghost use Rattle.un_domains.specs.Sets.{Sets, IsIn, NoneEmpty};
ghost use Rattle.un_domains.specs.Order.{Below};
ghost use Rattle.un_tree.specs.Boxes.{reached, IsBox};
ghost use Rattle.un_tree.specs.Searched.{IsOpenBox};
ghost use Rattle.un_walk.specs.Stands.{AllSplit};
ghost use Rattle.un_branching.specs.Searched.{IsLook, IsExpansion};

use un_base::ids::VarId;
use un_base::memory_error::NoMemory;
use un_tree::node::Decision;

/// How the rounds end on a node's box: they fail, leave single values that are a solution, or leave a choice, with the least cost in
/// the box.
#[derive(Drop)]
pub enum Look {
    Failed,
    Found(Vec<u32>),
    Open(u64),
}

/// How a node is split, and how the rounds end on both sides.
#[derive(Drop)]
pub struct Expansion {
    /// The variable on which it is split.
    pub var: VarId,
    /// The greatest value of the left side; the right side has the values above it.
    pub val: u32,
    /// How the rounds end where the variable is at most `val`.
    pub left: Look,
    /// How the rounds end where the variable is above `val`.
    pub right: Look,
}

/// A problem. What it branches on is its own choice: it may depend on the room alone.
pub trait Problem {
    /// What it works in.
    type Room;

    /// The number of blocks; a search makes no Split, and never looks at it.
    ghost block_count: { Self → ℕ };

    /// The first box.
    ghost root: { Self → Sets };

    /// How rounds end on a box.
    ghost fix: { Self → Sets → Option Sets };

    /// The least cost in a box, without a limit, as a relation.
    ghost least: { Self → Sets → ℕ → Type 0 };

    /// The solutions below the limit.
    ghost is_good: { Self → List ℕ → Type 0 };

    /// The room has the first box.
    ghost is_fresh: { Self → Self.Room → Type 0 };

    /// Expansions may begin.
    ghost is_ready: { Self → Self.Room → Type 0 };

    /// Looks at the first box.
    fn first(&self, room: &mut Self::Room) -> Result<Look, NoMemory>
        requires { is_fresh self.now room.old }
        ensures ready { IfOk result (λ look. is_ready self.now room.new) }
        ensures look { IfOk result (λ look. IsLook (fix self.now) (least self.now) (is_good self.now) (root self.now) look) };

    /// Chooses at the box that these decisions lead to, and looks at its sides.
    fn expand(&self, room: &mut Self::Room, path: &[Decision]) -> Result<Expansion, NoMemory>
        requires ready { is_ready self.now room.old }
        requires split { AllSplit (root self.now) path.now }
        requires open { IsOpenBox (fix self.now) (reached (root self.now) path.now) }
        ensures ready { IfOk result (λ e. is_ready self.now room.new) }
        ensures expansion { IfOk result
            (IsExpansion (fix self.now) (least self.now) (is_good self.now) (reached (root self.now) path.now)) };

    /// Rounds take values away.
    ghost inside: { (p : Self) (b f : Sets) → IsBox (root p) b → fix p b ≡ Some f → Below f b × NoneEmpty f };

    /// Rounds lose no solution.
    ghost keeps: { (p : Self) (b : Sets) (x : List ℕ) → IsBox (root p) b → IsIn x b → is_good p x → fix p b ≡ None → ⊥ };

    /// A smaller box has no smaller least cost.
    ghost rises: { (p : Self) (b c : Sets) (n m : ℕ) → IsBox (root p) b → IsBox (root p) c → Below c b → least p b n → least p c m
        → n ≤ m };
}
