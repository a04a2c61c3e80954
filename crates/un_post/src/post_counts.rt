//! What is posted of the counts of saved values.

ghost use Rattle.std.specs.Prelude.{◌≡◌, ◌++◌, IfOk, OnOk, map};
ghost use Rattle.un_sites.specs.Places.{definers_of, places_of};
ghost use Rattle.un_sites.specs.Sites.{place_of, definers_in};
ghost use Rattle.un_post.specs.Listed.{counts_of, unmet};

use std::alloc::Global;
use un_base::memory_error::NoMemory;
use un_counted::counted::LeastEnd;
use un_kinds::make_counted::make_counted;
use un_kinds::props::Props;
use un_lists::items::Items;
use un_model::model::Model;
use un_rooms::knowns::rows_of;
use un_sites::sites::{Site, Spot};

/// A row that no values meet, of the frame's flag: so no end is the last open variable of the rows as long as the flag has both values.
fn unmet(alloc: Global, m: &Model) -> Result<Items<LeastEnd>, NoMemory>
    ensures { IfOk result (λ row. row ≡ unmet m.now) }
{
    let mut row = Items::new(alloc);
    row.push(LeastEnd {
        end: m.flag,
        freq: 0,
        least: u32::MAX,
    })?;
    Ok(row)
}

/// The rows of a model, of which these are the tables, under a limit, where there is one and the function has several blocks.
pub(crate) fn post_counts(
    props: &mut Props,
    m: &Model,
    limit: Option<u64>,
    sites: &[Site<'_>],
    spots: &[Spot<'_>],
) -> Result<(), NoMemory>
    requires sites { definers_in sites.now ≡ definers_of m.now }
    requires spots { map place_of spots.now ≡ places_of m.now }
    ensures { OnOk result (props.new ≡ props.old ++ counts_of m.now limit) }
{
    match limit {
        None => Ok(()),
        Some(most) => {
            if m.ext.blocks.len() <= 1 {
                return Ok(());
            }
            let alloc = props.alloc();
            let mut rows = rows_of(alloc, m, sites, spots)?;
            let unmet = unmet(alloc, m)?;
            rows.push(unmet)?;
            let made = make_counted(alloc, rows, most)?;
            props.push(made)
        }
    }
}
