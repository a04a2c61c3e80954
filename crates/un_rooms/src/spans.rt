//! The values of a block, with the times of what defines them and of what reads them in every solution.

ghost use Rattle.std.specs.Prelude.{◌≡◌, ◌++◌, IfOk, OnOk, false, filter, map};
ghost use Rattle.un_ir.specs.Kinds.{is_mandatory};
ghost use Rattle.un_sites.specs.Crossings.{reads_value};
ghost use Rattle.un_sites.specs.Places.{time_of};
ghost use Rattle.un_sites.specs.Postings.{with_kind};
ghost use Rattle.un_sites.specs.Pressures.{span_of, own_spans, spans_in};
ghost use Rattle.un_sites.specs.Sites.{place_of};

use crate::crossings::reads_value;
use std::alloc::{AllocError, Global};
use un_base::ids::TempId;
use un_lists::items::Items;
use un_press::live::Span;
use un_prop::act::At;
use un_sites::sites::Spot;

/// Those of some operations that every solution issues.
pub(crate) fn mandatory_in<'a>(
    alloc: Global,
    spots: &[Spot<'a>],
) -> Result<Items<Spot<'a>>, AllocError>
    ensures { IfOk result (λ found. map place_of found ≡ with_kind is_mandatory (map place_of spots.now)) }
{
    let mut found = Items::new(alloc);
    for p in spots {
        if p.it.kind.is_mandatory() {
            found.push(*p)?;
        }
    }
    Ok(found)
}

/// The times of those of the operations that read a value.
fn uses_of(alloc: Global, spots: &[Spot<'_>], t: TempId) -> Result<Items<At>, AllocError>
    ensures { IfOk result (λ uses. uses ≡ map time_of (filter (reads_value false t.0) (map place_of spots.now))) }
{
    let mut uses = Items::new(alloc);
    for p in spots {
        if reads_value(false, t.0, p) {
            uses.push(p.time())?;
        }
    }
    Ok(uses)
}

/// A value that an operation defines.
fn span_of(alloc: Global, spots: &[Spot<'_>], p: &Spot<'_>, t: TempId) -> Result<Span, AllocError>
    ensures { IfOk result (λ span. span ≡ span_of (map place_of spots.now) (place_of p.now) t) }
{
    let uses = uses_of(alloc, spots, t)?;
    Ok(Span {
        def: p.time(),
        uses,
    })
}

/// Adds the values that an operation defines.
fn add_spans(
    alloc: Global,
    values: &mut Items<Span>,
    spots: &[Spot<'_>],
    p: &Spot<'_>,
) -> Result<(), AllocError>
    ensures { OnOk result (values.new ≡ values.old ++ own_spans (map place_of spots.now) (place_of p.now)) }
{
    for t in p.it.results.as_slice() {
        values.push(span_of(alloc, spots, p, *t)?)?;
    }
    Ok(())
}

/// The values that these operations define, as they read them.
pub(crate) fn spans_in(alloc: Global, spots: &[Spot<'_>]) -> Result<Items<Span>, AllocError>
    ensures { IfOk result (λ values. values ≡ spans_in (map place_of spots.now)) }
{
    let mut values = Items::new(alloc);
    for p in spots {
        add_spans(alloc, &mut values, spots, p)?;
    }
    Ok(values)
}
