//! The numbers from the least of a block's operations to the greatest, with those of its arcs.

ghost use Rattle.std.specs.Prelude.{◌≡◌, ◌-◌, ℕ, All};
ghost use Rattle.un_model.specs.declared.model.Arc.{Arc};
ghost use Rattle.un_rooms.specs.Reach.{IsBetween, IsArcBetween, IsWithin, IsArcWithin};
ghost use Rattle.un_sites.specs.declared.sites.Spot.{Spot};

use crate::reach::Reach;
use un_model::model::Arc;
use un_sites::sites::Spot;

/// The numbers from `low` on, before `past`.
#[derive(Clone, Copy)]
struct Span {
    low: u32,
    past: usize,
}

/// A span with one number more.
fn with_number(span: Span, n: u32) -> Span
    ensures it { IsBetween result.low result.past n }
    ensures kept { (k : ℕ) → IsBetween span.low span.past k → IsBetween result.low result.past k }
{
    Span {
        low: span.low.min(n),
        past: span.past.max(n as usize + 1),
    }
}

/// A span with the operations of arcs.
fn with_arcs(span: Span, arcs: &[Arc]) -> Span
    ensures arcs { All (IsArcBetween result.low result.past) arcs.now }
    ensures kept { (k : ℕ) → IsBetween span.low span.past k → IsBetween result.low result.past k }
{
    let mut wider = span;
    for arc in arcs {
        let one = with_number(wider, arc.from.0);
        wider = with_number(one, arc.to.0);
    }
    wider
}

/// The span of some operations.
fn span_of(spots: &[Spot<'_>]) -> Span
    ensures { All (λ (p : Spot). IsBetween result.low result.past p.op) spots.now }
{
    let mut span = Span {
        low: u32::MAX,
        past: 0,
    };
    for p in spots {
        span = with_number(span, p.op);
    }
    span
}

/// The numbers from the least of these operations, and of those of these arcs, to the greatest.
pub fn reach_of(spots: &[Spot<'_>], arcs: &[Arc]) -> Reach
    ensures spots { All (λ (p : Spot). IsWithin result.low result.count p.op) spots.now }
    ensures arcs { All (IsArcWithin result.low result.count) arcs.now }
{
    let span = with_arcs(span_of(spots), arcs);
    Reach {
        low: span.low,
        count: span.past.saturating_sub(span.low as usize),
    }
}
