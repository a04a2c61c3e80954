//! Activities, times, users and temporaries, as propagators name them.

ghost use Rattle.std.specs.Prelude.{◌≡◌, slice_index};
ghost use Rattle.un_prop.specs.Acts.{act_number, is_active, at_value};

use un_base::ids::VarId;
use un_lists::items::Items;

/// An activity: always, or where a variable, as an instruction or a cycle, is not 0.
#[derive(Clone, Copy)]
pub enum Act {
    Always,
    Var(VarId),
}

/// A time: a number, or a variable, as a cycle or a block's end.
#[derive(Clone, Copy)]
pub enum At {
    Const(u32),
    Var(VarId),
}

/// A user of a temporary: an operand that may choose it. It reads the temporary where its operation is active and it chooses it.
#[derive(Clone, Copy)]
pub struct UserOf {
    /// The activity of the operation that reads.
    pub on: Act,
    /// The cycle in which that operation issues, or the end of the block for an operand of `out`.
    pub at: At,
    /// The variable of the operand's choice; None where it has no other alternative, and reads the temporary where it is active.
    pub choice: Option<VarId>,
    /// The place of the temporary among the operand's alternatives, from 0: it is read where the choice has this value.
    pub value: u32,
}

/// A temporary. Where its definer is active it occupies its register from its definer's time, inclusive, to the largest time of
/// its users, exclusive, and at least at its definer's time.
#[derive(Drop)]
pub struct Temp {
    /// The activity of its definer.
    pub on: Act,
    /// The cycle in which its definer issues; 0 for a value at a block's start.
    pub at: At,
    /// The variable of its register, whose values are numbers of registers: frame slots from 36 on.
    pub reg: VarId,
    /// The operands that may choose it.
    pub users: Items<UserOf>,
}

/// The value of a variable; 0 for a variable that the assignment does not have.
pub fn value(fixed: &[u32], v: VarId) -> u32
    ensures { result ≡ slice_index fixed.now v.0 }
{
    let i = v.0 as usize;
    if i < fixed.len() { fixed[i] } else { 0 }
}

/// The number of an activity: 1 for always, and else the variable's value.
pub fn number(fixed: &[u32], on: Act) -> u32
    ensures { result ≡ act_number on fixed.now }
{
    match on {
        Act::Always => 1,
        Act::Var(v) => value(fixed, v),
    }
}

/// Whether an activity is on.
pub fn active(fixed: &[u32], on: Act) -> bool
    ensures { result ≡ is_active on fixed.now }
{
    number(fixed, on) != 0
}

/// The value of a time.
pub fn time(fixed: &[u32], at: At) -> u32
    ensures { result ≡ at_value at fixed.now }
{
    match at {
        At::Const(n) => n,
        At::Var(v) => value(fixed, v),
    }
}
