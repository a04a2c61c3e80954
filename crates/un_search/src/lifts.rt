//! Where the end of a block is lifted: at the greatest value at which the rounds fail at once.

ghost use Rattle.std.specs.Prelude.{◌≡◌, ◌<◌, ◌≤◌, length, IfOk, IfSome};
ghost use Rattle.un_domains.specs.Sets.{NoneEmpty};
ghost use Rattle.un_tree.specs.Boxes.{Splits};

use crate::choices::Choice;
use crate::order::BlockOrder;
use un_base::ids::VarId;
use un_base::memory_error::NoMemory;
use un_domains::side::Side;
use un_domains::store::Store;
use un_engine::engine::Engine;
use un_kinds::any::AnyProp;
use un_prop::run::Fix;

/// Whether the rounds fail at once where a variable is at most a value.
fn fails_at(engine: &mut Engine<AnyProp>, v: VarId, x: u32) -> Result<bool, NoMemory>
    requires there { v.0 < length engine.old.store.sets }
    requires live { NoneEmpty engine.old.store.sets }
    ensures same { engine.new ≡ engine.old }
{
    let fix = engine.decide(v, x, Side::AtMost)?;
    engine.undo();
    match fix {
        Fix::Stable => Ok(false),
        Fix::Failed => Ok(true),
    }
}

/// Values of a variable: the rounds fail at once at one of them, and at the other they do not, or it is not known.
#[derive(Clone, Copy)]
struct Between {
    fails: u32,
    holds: u32,
}

/// A value at which the rounds fail at once, where they do so at `low`: `hint`, if they do so there.
fn first_failing(
    engine: &mut Engine<AnyProp>,
    v: VarId,
    low: u32,
    high: u32,
    hint: u32,
) -> Result<Option<Between>, NoMemory>
    requires there { v.0 < length engine.old.store.sets }
    requires live { NoneEmpty engine.old.store.sets }
    requires some { low < high }
    ensures same { IfOk result (λ found. engine.new ≡ engine.old) }
    ensures within { IfOk result (λ found. IfSome found (λ b. (low ≤ b.fails) × ((b.fails < b.holds) × (b.holds ≤ high)))) }
{
    let mut holds = high;
    if low < hint && hint < high {
        if fails_at(engine, v, hint)? {
            return Ok(Some(Between { fails: hint, holds }));
        }
        holds = hint;
    }
    if fails_at(engine, v, low)? {
        Ok(Some(Between { fails: low, holds }))
    } else {
        Ok(None)
    }
}

/// The same values closer together, found by steps that double: the greatest at which the rounds fail is mostly near.
fn after_steps(engine: &mut Engine<AnyProp>, v: VarId, first: Between) -> Result<Between, NoMemory>
    requires there { v.0 < length engine.old.store.sets }
    requires live { NoneEmpty engine.old.store.sets }
    requires some { first.fails < first.holds }
    ensures same { IfOk result (λ found. engine.new ≡ engine.old) }
    ensures within { IfOk result (λ b. (first.fails ≤ b.fails) × ((b.fails < b.holds) × (b.holds ≤ first.holds))) }
{
    let holds = first.holds;
    let mut fails = first.fails;
    let mut step = 1u32;
    while step < holds - fails {
        let next = fails + step;
        if !fails_at(engine, v, next)? {
            return Ok(Between { fails, holds: next });
        }
        fails = next;
        step = step.saturating_mul(2);
    }
    Ok(Between { fails, holds })
}

/// The greatest value at which the rounds fail, between two values, found by halving.
fn halved(engine: &mut Engine<AnyProp>, v: VarId, first: Between) -> Result<u32, NoMemory>
    requires there { v.0 < length engine.old.store.sets }
    requires live { NoneEmpty engine.old.store.sets }
    requires some { first.fails < first.holds }
    ensures same { IfOk result (λ found. engine.new ≡ engine.old) }
    ensures within { IfOk result (λ x. (first.fails ≤ x) × (x < first.holds)) }
{
    let mut fails = first.fails;
    let mut holds = first.holds;
    while holds - fails > 1 {
        let middle = fails + (holds - fails) / 2;
        if fails_at(engine, v, middle)? {
            fails = middle;
        } else {
            holds = middle;
        }
    }
    Ok(fails)
}

/// The greatest value below `high` at which the rounds fail at once, where they do so at `low`. It is looked for from `hint` on.
fn greatest_failing(
    engine: &mut Engine<AnyProp>,
    v: VarId,
    low: u32,
    high: u32,
    hint: u32,
) -> Result<Option<u32>, NoMemory>
    requires there { v.0 < length engine.old.store.sets }
    requires live { NoneEmpty engine.old.store.sets }
    requires some { low < high }
    ensures same { IfOk result (λ found. engine.new ≡ engine.old) }
    ensures within { IfOk result (λ found. IfSome found (λ x. (low ≤ x) × (x < high))) }
{
    match first_failing(engine, v, low, high, hint)? {
        None => Ok(None),
        Some(first) => {
            let closer = after_steps(engine, v, first)?;
            let greatest = halved(engine, v, closer)?;
            Ok(Some(greatest))
        }
    }
}

/// Where a variable is lifted, if it is. A value at which the rounds may fail is tried first.
pub(crate) fn lift_of(
    engine: &mut Engine<AnyProp>,
    var: VarId,
    hint: u32,
) -> Result<Option<Choice>, NoMemory>
    requires live { NoneEmpty engine.old.store.sets }
    ensures same { IfOk result (λ lift. engine.new ≡ engine.old) }
    ensures splits { IfOk result (λ lift. IfSome lift (λ c. Splits engine.old.store.sets c.var c.val)) }
{
    let store = engine.store();
    if var.0 >= store.len() {
        return Ok(None);
    }
    let low = store.min(var);
    let high = store.max(var);
    if low >= high {
        return Ok(None);
    }
    match greatest_failing(engine, var, low, high, hint)? {
        None => Ok(None),
        Some(val) => Ok(Some(Choice { var, val })),
    }
}

/// The least value of a variable; 0 where there is none of this number.
fn least_of(store: &Store, v: VarId) -> u32
    requires { NoneEmpty store.now.sets }
{
    if v.0 < store.len() { store.min(v) } else { 0 }
}

/// The lift of a block, if it has one, where it is worth a look.
fn lift_in(
    engine: &mut Engine<AnyProp>,
    block: &mut BlockOrder,
    decided: Option<VarId>,
) -> Result<Option<Choice>, NoMemory>
    requires live { NoneEmpty engine.old.store.sets }
    ensures same { IfOk result (λ lift. engine.new ≡ engine.old) }
    ensures splits { IfOk result (λ lift. IfSome lift (λ c. Splits engine.old.store.sets c.var c.val)) }
{
    let least = least_of(engine.store(), block.end);
    if !block.is_due(least, decided) {
        return Ok(None);
    }
    let lift = lift_of(engine, block.end, block.hint)?;
    if lift.is_none() {
        block.held = least;
    }
    Ok(lift)
}

/// The lift of the first block that has one, where this variable was decided last.
pub(crate) fn first_lift(
    engine: &mut Engine<AnyProp>,
    order: &mut [BlockOrder],
    decided: Option<VarId>,
) -> Result<Option<Choice>, NoMemory>
    requires live { NoneEmpty engine.old.store.sets }
    ensures same { IfOk result (λ lift. engine.new ≡ engine.old) }
    ensures splits { IfOk result (λ lift. IfSome lift (λ c. Splits engine.old.store.sets c.var c.val)) }
{
    for block in order {
        match lift_in(engine, block, decided)? {
            None => {}
            Some(choice) => return Ok(Some(choice)),
        }
    }
    Ok(None)
}
