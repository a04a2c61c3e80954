//! The lines of one leaf, written.

ghost use Rattle.std.specs.Prelude.{◌≡◌, IfOk};
ghost use Rattle.std.specs.Bool.{OnTrue, OnFalse};
ghost use Rattle.un_domains.specs.Sets.{NoneEmpty};
ghost use Rattle.un_logs.specs.Goods.{Ends};
ghost use Rattle.un_logs.specs.Stuck.{IsStuck};

use crate::pass::Pass;
use crate::print::put_dot;
use crate::round::round;
use un_base::memory_error::NoMemory;
use un_domains::store::Store;
use un_judge::leaf::Rules;

/// Takes values from a leaf's box, round after round, until some set is empty or nothing goes any more, and appends the lines. Answers
/// whether some set is empty.
pub(crate) fn write_leaf(
    r: &Rules<'_>,
    cuts: &mut Store,
    text: &mut Vec<u8>,
) -> Result<bool, NoMemory>
    requires { NoneEmpty cuts.old.sets }
    ensures ends { IfOk result (λ ended. OnTrue ended (Ends r.now cuts.old.sets text.old.items text.new.items)) }
    ensures lost { IfOk result (λ ended. OnTrue ended (IsStuck r.now.rules r.now.m.now r.now.limit cuts.old.sets → ⊥)) }
    ensures stuck { IfOk result (λ ended. OnFalse ended (IsStuck r.now.rules r.now.m.now r.now.limit cuts.old.sets)) }
    ensures marked { cuts.new.marked ≡ cuts.old.marked }
{
    loop {
        match round(r, cuts, text)? {
            Pass::Same => return Ok(false),
            Pass::Taken => {}
            Pass::Emptied => {
                put_dot(text)?;
                return Ok(true);
            }
        }
    }
}
