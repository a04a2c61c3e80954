//! What the arcs of a block lead to from an operation, and what they lead from: marks by one pass over the arcs.

ghost use Rattle.std.specs.Prelude.{◌≡◌, ◌-◌, ◌<◌, ◌&&◌, ◌||◌, nat_lt, [], ◌∷◌, ℕ, List, false, true, All, IfOk, fold, length, slice_set};
ghost use Rattle.un_model.specs.declared.model.Arc.{Arc};
ghost use Rattle.un_rooms.specs.Reach.{mark_at, Marks, IsWithin, IsArcWithin, leading};
ghost use Rattle.un_sites.specs.Rooms.{led_by, reached, waits_by, waiting};

use std::alloc::{AllocError, Global};
use un_model::model::Arc;

/// Consecutive numbers of operations.
#[derive(Clone, Copy)]
pub struct Reach {
    /// The number of the first operation; the greatest word where there is none.
    pub low: u32,
    /// How many operations there are from `low` on.
    pub count: usize,
}

/// Whether operation `n` is marked.
pub fn mark_at(low: u32, marks: &[bool], n: u32) -> bool
    ensures { result ≡ mark_at low marks.now n }
{
    if n < low {
        return false;
    }
    let i = (n - low) as usize;
    if i < marks.len() { marks[i] } else { false }
}

/// Marks operation `n`.
fn mark(low: u32, marks: &mut [bool], n: u32)
    requires { IsWithin low (length marks.old) n }
    ensures { marks.new ≡ slice_set marks.old (n - low) true }
{
    marks[(n - low) as usize] = true;
}

/// Marks what the arcs lead on to from what is marked.
fn mark_on(low: u32, marks: &mut [bool], arcs: &[Arc])
    requires { All (IsArcWithin low (length marks.old)) arcs.now }
    ensures { (ns : List ℕ) → Marks low marks.old ns → Marks low marks.new (fold led_by ns arcs.now) }
{
    for arc in arcs {
        if mark_at(low, marks, arc.from.0) {
            mark(low, marks, arc.to.0);
        }
    }
}

/// Marks what the arcs lead from, to what is marked.
fn mark_back(low: u32, marks: &mut [bool], arcs: &[Arc])
    requires { All (IsArcWithin low (length marks.old)) arcs.now }
    ensures { (ns : List ℕ) → Marks low marks.old ns → Marks low marks.new (leading arcs.now ns) }
{
    for k in 0..arcs.len() {
        let arc = &arcs[arcs.len() - 1 - k];
        if mark_at(low, marks, arc.to.0) {
            mark(low, marks, arc.from.0);
        }
    }
}

/// Whether what an arc leads to waits: by the arc's own gap, or by one on the way to it.
fn waits_for(low: u32, reached: &[bool], late: &[bool], arc: &Arc) -> bool
    ensures { result ≡ (mark_at low late.now arc.now.from.0 || (nat_lt 0 arc.now.gap && mark_at low reached.now arc.now.from.0)) }
{
    mark_at(low, late, arc.from.0) || (arc.gap > 0 && mark_at(low, reached, arc.from.0))
}

/// Marks what arcs with a gap lead to from what is reached, and what arcs lead on to from that.
fn mark_waits(low: u32, reached: &[bool], late: &mut [bool], arcs: &[Arc])
    requires { All (IsArcWithin low (length late.old)) arcs.now }
    ensures { (ns ms : List ℕ) → Marks low reached.now ns → Marks low late.old ms
        → Marks low late.new (fold (waits_by ns) ms arcs.now) }
{
    for arc in arcs {
        if waits_for(low, reached, late, arc) {
            mark(low, late, arc.to.0);
        }
    }
}

/// So many operations of which none is marked.
fn no_marks(alloc: Global, reach: Reach) -> Result<Vec<bool>, AllocError>
    ensures long { IfOk result (λ marks. length marks.items ≡ reach.count) }
    ensures none { IfOk result (λ marks. Marks reach.low marks.items []) }
{
    let marks = vec![in alloc; false; reach.count]?;
    Ok(marks)
}

/// So many operations of which only `n` is marked.
fn one_mark(alloc: Global, reach: Reach, n: u32) -> Result<Vec<bool>, AllocError>
    requires { IsWithin reach.low reach.count n }
    ensures long { IfOk result (λ marks. length marks.items ≡ reach.count) }
    ensures one { IfOk result (λ marks. Marks reach.low marks.items (n ∷ [])) }
{
    let mut marks = vec![in alloc; false; reach.count]?;
    marks[(n - reach.low) as usize] = true;
    Ok(marks)
}

/// Marks of the operations to which arcs lead from operation `n`, and of `n`.
pub(crate) fn mark_reached(
    alloc: Global,
    reach: Reach,
    arcs: &[Arc],
    n: u32,
) -> Result<Vec<bool>, AllocError>
    requires arcs { All (IsArcWithin reach.low reach.count) arcs.now }
    requires start { IsWithin reach.low reach.count n }
    ensures { IfOk result (λ marks. Marks reach.low marks.items (reached arcs.now n)) }
{
    let mut marks = one_mark(alloc, reach, n)?;
    mark_on(reach.low, marks.as_mut_slice(), arcs);
    Ok(marks)
}

/// Marks of the operations that issue after operation `n`, whatever the cycles are.
pub(crate) fn mark_waiting(
    alloc: Global,
    reach: Reach,
    arcs: &[Arc],
    n: u32,
) -> Result<Vec<bool>, AllocError>
    requires arcs { All (IsArcWithin reach.low reach.count) arcs.now }
    requires start { IsWithin reach.low reach.count n }
    ensures { IfOk result (λ marks. Marks reach.low marks.items (waiting arcs.now n)) }
{
    let reached = mark_reached(alloc, reach, arcs, n)?;
    let mut late = no_marks(alloc, reach)?;
    mark_waits(reach.low, reached.as_slice(), late.as_mut_slice(), arcs);
    Ok(late)
}

/// Marks of the operations from which arcs lead to operation `n`, and of `n`.
pub(crate) fn mark_leading(
    alloc: Global,
    reach: Reach,
    arcs: &[Arc],
    n: u32,
) -> Result<Vec<bool>, AllocError>
    requires arcs { All (IsArcWithin reach.low reach.count) arcs.now }
    requires start { IsWithin reach.low reach.count n }
    ensures { IfOk result (λ marks. Marks reach.low marks.items (leading arcs.now (n ∷ []))) }
{
    let mut marks = one_mark(alloc, reach, n)?;
    mark_back(reach.low, marks.as_mut_slice(), arcs);
    Ok(marks)
}
