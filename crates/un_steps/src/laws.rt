//! That no rule takes a value of a solution below the limit. The functions do nothing.

ghost use Rattle.std.specs.Prelude.{ℕ, List};
ghost use Rattle.un_domains.specs.Sets.{Sets, IsIn};
ghost use Rattle.un_model.specs.Boxes.{IsBelow};
ghost use Rattle.un_steps.specs.Allowed.{IsAllowed, after};
ghost use Rattle.un_steps.specs.Keeping.{IsGround, Keeps};
ghost use Rattle.un_steps.specs.declared.step.Rule.{Rule};
ghost use Rattle.un_steps.specs.declared.step.Step.{Step};
ghost use Rattle.un_steps.specs.declared.step.Rule.TheVariants.{TooSoon, Idle, OutsideBlock, FromIdle, TooLateFor, OutsideSpace};
ghost use Rattle.un_steps.specs.declared.step.Rule.TheVariants.{NoSpace, Alike, NotHome, NotCongruent, TooDear, NoFrame, TooFull};

use un_model::model::Model;

/// Cycles and ends that leave no place in the block.
fn outside_block(m: &Model, limit: Option<u64>)
    requires { IsGround m.now }
    ensures { Keeps m.now limit OutsideBlock }
{
    let _ = m;
    let _ = limit;
}

/// Alternatives whose definer is off.
fn from_idle(m: &Model, limit: Option<u64>)
    requires { IsGround m.now }
    ensures { Keeps m.now limit FromIdle }
{
    let _ = m;
    let _ = limit;
}

/// Alternatives without a register in the operand's space.
fn no_space(m: &Model, limit: Option<u64>)
    requires { IsGround m.now }
    ensures { Keeps m.now limit NoSpace }
{
    let _ = m;
    let _ = limit;
}

/// Alternatives that are given too late.
fn too_late_for(m: &Model, limit: Option<u64>)
    requires { IsGround m.now }
    ensures { Keeps m.now limit TooLateFor }
{
    let _ = m;
    let _ = limit;
}

/// Alternatives that cannot be at the operand's home.
fn not_home(m: &Model, limit: Option<u64>)
    requires { IsGround m.now }
    ensures { Keeps m.now limit NotHome }
{
    let _ = m;
    let _ = limit;
}

/// Registers outside the space of a copy's one instruction.
fn outside_space(m: &Model, limit: Option<u64>)
    requires { IsGround m.now }
    ensures { Keeps m.now limit OutsideSpace }
{
    let _ = m;
    let _ = limit;
}

/// What accesses a frame that there is not, and that there is none.
fn no_frame(m: &Model, limit: Option<u64>)
    requires { IsGround m.now }
    ensures { Keeps m.now limit NoFrame }
{
    let _ = m;
    let _ = limit;
}

/// All but 0 of an operation that is off.
fn idle(m: &Model, limit: Option<u64>)
    requires { IsGround m.now }
    ensures { Keeps m.now limit Idle }
{
    let _ = m;
    let _ = limit;
}

/// Cycles too close to the other end of an arc.
fn too_soon(m: &Model, limit: Option<u64>)
    requires { IsGround m.now }
    ensures { Keeps m.now limit TooSoon }
{
    let _ = m;
    let _ = limit;
}

/// Ends that cost the limit.
fn too_dear(m: &Model, limit: Option<u64>)
    requires { IsGround m.now }
    ensures { Keeps m.now limit TooDear }
{
    let _ = m;
    let _ = limit;
}

/// Alternatives that cannot stand where a successor takes them.
fn not_congruent(m: &Model, limit: Option<u64>)
    requires { IsGround m.now }
    ensures { Keeps m.now limit NotCongruent }
{
    let _ = m;
    let _ = limit;
}

/// Alternatives that leave another operand no register.
fn alike(m: &Model, limit: Option<u64>)
    requires { IsGround m.now }
    ensures { Keeps m.now limit Alike }
{
    let _ = m;
    let _ = limit;
}

/// Cycles and the end of a block whose packets are to hold more than they can.
fn too_full(m: &Model, limit: Option<u64>)
    requires { IsGround m.now }
    ensures { Keeps m.now limit TooFull }
{
    let _ = m;
    let _ = limit;
}

/// No rule takes a value of a solution below the limit from a box in which it lies, and so the solution lies in what an allowed step
/// leaves. It does nothing.
pub fn keeps(m: &Model, limit: Option<u64>)
    requires { IsGround m.now }
    ensures rules { (rule : Rule) → Keeps m.now limit rule }
    ensures steps { (s : Sets) (step : Step) (x : List ℕ) → IsAllowed m.now limit s step → IsIn x s → IsBelow m.now limit x → IsIn x (after s step) }
{
    too_soon(m, limit);
    idle(m, limit);
    outside_block(m, limit);
    from_idle(m, limit);
    too_late_for(m, limit);
    outside_space(m, limit);
    no_space(m, limit);
    alike(m, limit);
    not_home(m, limit);
    not_congruent(m, limit);
    too_dear(m, limit);
    no_frame(m, limit);
    too_full(m, limit);
}
