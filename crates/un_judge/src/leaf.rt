//! The lines of one leaf.

ghost use Rattle.std.specs.Prelude.{◌≡◌, ◌<◌, ℕ, List, ◌∷◌, ⊤, IsTrue, ◌↔◌, OnOk, IfOk, length, not, nat_eq};
ghost use Rattle.un_domains.specs.Sets.{Sets, kept, IsIn};
ghost use Rattle.un_model.specs.Boxes.{IsBelow};
ghost use Rattle.un_steps.specs.Allowed.{after};
ghost use Rattle.un_steps.specs.Keeping.{IsGround};
ghost use Rattle.un_judge.specs.Judged.{HasEmpty};
ghost use Rattle.un_judge.specs.Leaves.{Does, LeftComes, EndComes, OnClosed};
ghost use Rattle.un_judge.specs.Lines.{IsStepLine, Says};
ghost use Rattle.un_judge.specs.declared.verdict.StepVerdict.{StepVerdict};

use crate::line::{First, Line, first_line};
use un_base::ids::VarId;
use un_base::memory_error::NoMemory;
use un_base::numbers::later;
use un_domains::store::Store;
use un_model::model::Model;
use un_steps::allowed::is_allowed;
use un_steps::laws::keeps;
use un_steps::look;
use un_steps::step::Step;

/// What steps are judged by.
#[derive(Clone, Copy)]
pub struct Rules<'a> {
    /// How many rules hold, from the first on.
    pub rules: u32,
    pub m: &'a Model,
    pub limit: Option<u64>,
}

/// What is left of a log.
#[derive(Clone, Copy)]
pub struct Left<'a> {
    pub text: &'a [u8],
    /// How many lines were read.
    pub read: u32,
}

/// What a line does.
#[derive(Clone, Copy)]
enum Done {
    /// It ends the leaf.
    Ended,
    /// It takes values.
    Went,
    /// It is bad.
    Bad,
}

/// How the lines of a leaf end.
#[derive(Clone, Copy)]
pub enum LeafEnd<'a> {
    /// With a dot where some set is empty, and this is left.
    Closed(Left<'a>),
    /// With the line of this number, which is bad.
    Bad(u32),
    /// Before that.
    Short,
}

/// Whether some set is empty.
fn has_empty(cuts: &Store) -> bool
    ensures { IsTrue result ↔ HasEmpty cuts.now.sets }
{
    for v in 0..cuts.len() {
        if cuts.size(VarId(v)) == 0 {
            return true;
        }
    }
    false
}

/// Takes a value, if it is there.
fn take_value(cuts: &mut Store, v: VarId, y: u32)
    requires { v.0 < length cuts.old.sets }
    ensures sets { cuts.new.sets ≡ kept (λ k. not (nat_eq k y)) cuts.old.sets v.0 }
    ensures marked { cuts.new.marked ≡ cuts.old.marked }
{
    if look::has(cuts, v, y) {
        let _ = cuts.drop_value(v, y);
    }
}

/// Takes the values of a step.
pub fn take(cuts: &mut Store, step: &Step)
    requires { step.now.var.0 < length cuts.old.sets }
    ensures sets { cuts.new.sets ≡ after cuts.old.sets step.now }
    ensures marked { cuts.new.marked ≡ cuts.old.marked }
{
    let end = look::end(cuts, step.var);
    let last = end.min(u64::from(step.last) + 1);
    for y in u64::from(step.first)..last {
        take_value(cuts, step.var, y as u32);
    }
}

/// Tries a step.
fn try_step(r: &Rules<'_>, cuts: &mut Store, step: &Step) -> Done
    ensures does { (bytes : List ℕ) → IsStepLine r.now.rules bytes step.now → Does r.now bytes cuts.old.sets cuts.new.sets result }
    ensures marked { cuts.new.marked ≡ cuts.old.marked }
{
    if !is_allowed(r.m, r.limit, cuts, step) {
        return Done::Bad;
    }
    take(cuts, step);
    Done::Went
}

/// Tries a line.
fn try_line(r: &Rules<'_>, cuts: &mut Store, line: Line) -> Done
    ensures does { (bytes : List ℕ) → Says r.now.rules bytes line → Does r.now bytes cuts.old.sets cuts.new.sets result }
    ensures marked { cuts.new.marked ≡ cuts.old.marked }
{
    match line {
        Line::Dot => {
            if !has_empty(cuts) {
                return Done::Bad;
            }
            Done::Ended
        }
        Line::Takes(step) => try_step(r, cuts, &step),
        Line::Other => Done::Bad,
    }
}

/// Goes over the lines of a leaf. Where it is closed by them, no solution below the limit is in the box that was given.
///
/// # Errors
/// Where there are more lines than numbers below 2^32.
pub fn close<'a>(r: &Rules<'_>, cuts: &mut Store, log: Left<'a>) -> Result<LeafEnd<'a>, NoMemory>
    requires { IsGround r.now.m.now }
    ensures comes { IfOk result (λ end. (boxes : List Sets) (verdict : StepVerdict)
        → EndComes r.now end boxes verdict → LeftComes r.now log.entry (cuts.old.sets ∷ boxes) verdict) }
    ensures refuted { IfOk result (OnClosed ((x : List ℕ) → IsIn x cuts.old.sets → IsBelow r.now.m.now r.now.limit x → ⊥)) }
    ensures marked { cuts.new.marked ≡ cuts.old.marked }
{
    keeps(r.m, r.limit);
    let mut left = log;
    loop {
        match first_line(r.rules, left.text) {
            First::End => return Ok(LeafEnd::Short),
            First::Next { line, rest } => {
                let read = later(left.read, 1)?;
                match try_line(r, cuts, line) {
                    Done::Ended => return Ok(LeafEnd::Closed(Left { text: rest, read })),
                    Done::Bad => return Ok(LeafEnd::Bad(read)),
                    Done::Went => left = Left { text: rest, read },
                }
            }
        }
    }
}
