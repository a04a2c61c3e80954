//! The ends of sets, noted beside them, so that a look at the least or the greatest value of a variable costs one word.

ghost use Rattle.std.specs.Prelude.{◌≡◌, ◌+◌, ◌*◌, ◌<◌, All, IfOk, length, slice_index};
ghost use Rattle.un_domains.specs.Domains.{IsDomain};
ghost use Rattle.un_domains.specs.Noted.{AreEnds, AreNoted, IsNote};
ghost use Rattle.un_domains.specs.Shapes.{IsLaid, set_of, sets_of};

use crate::places::value_at;
use crate::rows::bounds_at;
use crate::shape::Shape;
use crate::trail::Words;
use std::alloc::{AllocError, Global};
use un_base::ids::VarId;

/// The least and the greatest value of a set, or 1 and 0 where it is empty.
#[derive(Clone, Copy)]
pub struct Ends {
    /// The least value.
    pub least: u32,
    /// The greatest value.
    pub greatest: u32,
}

/// The ends of a variable's set.
pub fn ends_of(words: &[u64], shape: &Shape) -> Ends
    requires laid { IsLaid words.now shape.now }
    requires domain { IsDomain shape.now.first }
    ensures { AreEnds (set_of words.now shape.now) result.least result.greatest }
{
    let bounds = bounds_at(words, shape.at);
    if bounds.lo == bounds.end {
        return Ends {
            least: 1,
            greatest: 0,
        };
    }
    Ends {
        least: value_at(&shape.first, bounds.lo),
        greatest: value_at(&shape.first, bounds.end - 1),
    }
}

/// The ends of all variables' sets, by number.
pub(crate) fn all_ends(
    alloc: Global,
    words: &[u64],
    shapes: &[Shape],
) -> Result<Vec<u64>, AllocError>
    requires laid { All (IsLaid words.now) shapes.now }
    requires domains { All (λ (h : Shape). IsDomain h.first) shapes.now }
    ensures { IfOk result (λ noted. AreNoted (sets_of shapes.now words.now) noted.items) }
{
    let mut noted = Vec::new(alloc);
    for shape in shapes {
        let ends = ends_of(words, shape);
        noted.push(ends.least as u64)?;
        noted.push(ends.greatest as u64)?;
    }
    Ok(noted)
}

/// The noted ends of `v`.
pub fn ends_at(noted: &Words, v: VarId) -> (u64, u64)
    requires { 2 * v.0 + 1 < length noted.now.words }
    ensures least { result.0 ≡ slice_index noted.now.words (2 * v.0) }
    ensures greatest { result.1 ≡ slice_index noted.now.words (2 * v.0 + 1) }
{
    let at = 2 * v.0 as usize;
    (noted.get(at), noted.get(at + 1))
}

/// Notes the ends of `v` anew. It takes no memory.
pub fn note(noted: &mut Words, v: VarId, words: &[u64], shape: &Shape)
    requires there { 2 * v.0 + 1 < length noted.old.words }
    requires laid { IsLaid words.now shape.now }
    requires domain { IsDomain shape.now.first }
    ensures { IsNote v.0 (set_of words.now shape.now) noted.old noted.new }
{
    let ends = ends_of(words, shape);
    let at = 2 * v.0 as usize;
    noted.set(at, ends.least as u64);
    noted.set(at + 1, ends.greatest as u64);
}
