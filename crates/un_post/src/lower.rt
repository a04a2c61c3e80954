//! A lower limit on the cost, for what was posted under a higher one.

ghost use Rattle.std.specs.Prelude.{◌≡◌, ◌≤◌, ◌<◌, ◌+◌, ℕ, List, None, Some, All, IfOk, IsSomeAnd, length, map, slice_get};
ghost use Rattle.un_counted.specs.declared.counted.LeastEnd.{LeastEnd};
ghost use Rattle.un_kinds.specs.AnyProps.{constraint_of};
ghost use Rattle.un_kinds.specs.Constraints.{Counted};
ghost use Rattle.un_kinds.specs.Scopes.{IsTight, Makes};
ghost use Rattle.un_kinds.specs.declared.any.AnyProp.{AnyProp};
ghost use Rattle.un_post.specs.Listed.{all_postings_of};
ghost use Rattle.un_post.specs.Lowered.{IsLowering, limit_place};

use std::alloc::Global;
use un_base::memory_error::NoMemory;
use un_kinds::any::AnyProp;
use un_kinds::make_counted::counted_below;
use un_model::model::Model;
use un_single::post_limit::limit_prop;

/// The propagators of a limit on the cost of a model.
#[derive(Drop)]
pub struct Lowered {
    /// By it the cost is less than the limit.
    pub cost: AnyProp,
    /// The rows of the model under the limit, where they are posted.
    pub counted: Option<AnyProp>,
}

/// The same rows under another limit, where a propagator is of this kind.
fn rows_below(alloc: Global, p: &AnyProp, limit: u64) -> Result<Option<AnyProp>, NoMemory>
    ensures { IfOk result (λ r. (rows : List (List LeastEnd)) (high : ℕ) → constraint_of p.now ≡ Counted rows high
        → IsSomeAnd r (Makes (Counted rows limit))) }
{
    match p {
        AnyProp::Counted(p) => {
            let made = counted_below(alloc, p, limit)?;
            Ok(Some(made))
        }
        _ => Ok(None),
    }
}

/// The rows that stand behind the limit's propagator, which is at this place, under another limit.
fn lower_rows(
    alloc: Global,
    m: &Model,
    props: &[AnyProp],
    at: usize,
    limit: u64,
) -> Result<Option<AnyProp>, NoMemory>
    ensures one { IfOk result (λ r. length m.now.ext.blocks ≤ 1 → r ≡ None) }
    ensures several { IfOk result (λ r. 1 < length m.now.ext.blocks → (rows : List (List LeastEnd)) (high : ℕ) (p : AnyProp)
        → slice_get props.now (at + 1) ≡ Some p → constraint_of p ≡ Counted rows high → IsSomeAnd r (Makes (Counted rows limit))) }
{
    if m.ext.blocks.len() <= 1 || at >= props.len() {
        return Ok(None);
    }
    match props.get(at + 1) {
        None => Ok(None),
        Some(p) => rows_below(alloc, p, limit),
    }
}

/// The propagators of a limit on the cost of a model. In their places in what was posted under a limit that is no lower, of which the
/// cost's is at this place, they make of that what is posted under this limit.
///
/// # Errors
/// Where memory is short.
pub fn lower_limit(
    alloc: Global,
    m: &Model,
    props: &[AnyProp],
    at: usize,
    limit: u64,
) -> Result<Lowered, NoMemory>
    ensures { IfOk result (λ l. (most : ℕ) → limit ≤ most → map constraint_of props.now ≡ all_postings_of m.now (Some most)
        → All IsTight props.now → at ≡ limit_place m.now → IsLowering m.now limit props.now l) }
{
    let cost = limit_prop(alloc, m, limit)?;
    let counted = lower_rows(alloc, m, props, at, limit)?;
    Ok(Lowered { cost, counted })
}
