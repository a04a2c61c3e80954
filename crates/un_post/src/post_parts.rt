//! What is posted for a model, part by part.

ghost use Rattle.std.specs.Prelude.{◌≡◌, ◌+◌, ◌++◌, IfOk, OnOk, length, map};
ghost use Rattle.un_sites.specs.Befores.{lengths_of};
ghost use Rattle.un_sites.specs.Places.{definers_of, places_of};
ghost use Rattle.un_sites.specs.Postings.{postings_of};
ghost use Rattle.un_sites.specs.Pressures.{pressures_of};
ghost use Rattle.un_sites.specs.Rooms.{rooms_of};
ghost use Rattle.un_sites.specs.Sites.{place_of, definers_in};
ghost use Rattle.un_post.specs.Listed.{all_postings_of};
ghost use Rattle.un_post.specs.Lowered.{limit_place};

use crate::post_counts::post_counts;
use un_base::memory_error::NoMemory;
use un_kinds::props::Props;
use un_model::model::Model;
use un_rooms::post_aparts::post_aparts;
use un_rooms::post_clobbers::post_clobbers;
use un_rooms::post_lengths::post_lengths;
use un_rooms::post_packets::post_packets;
use un_rooms::post_pressures::post_pressures;
use un_rooms::post_twos::post_twos;
use un_single::post_arcs::post_arcs;
use un_single::post_edges::post_edges;
use un_single::post_frame::post_frame;
use un_single::post_limit::post_limit;
use un_single::post_places::post_operations;
use un_sites::sites::{Site, Spot};

/// What is posted of single operations, of edges, of the frame and of the cost of a model, of which these are the tables. Answers the
/// place of the limit's propagator, or where it would stand.
#[tactic(auto, using(un_kinds::proofs::Appends::four_added))]
fn post_single(
    props: &mut Props,
    m: &Model,
    limit: Option<u64>,
    sites: &[Site<'_>],
    spots: &[Spot<'_>],
) -> Result<usize, NoMemory>
    requires sites { definers_in sites.now ≡ definers_of m.now }
    requires spots { map place_of spots.now ≡ places_of m.now }
    ensures added { IfOk result (λ at. props.new ≡ props.old ++ postings_of m.now limit) }
    ensures place { IfOk result (λ at. at ≡ length props.old + limit_place m.now) }
{
    post_operations(props, m, sites, spots)?;
    post_edges(props, m, sites)?;
    post_frame(props, m, sites, spots)?;
    let at = props.len();
    post_limit(props, m, limit)?;
    Ok(at)
}

/// What is posted of registers, calls, packets and two operands of a model, of which these are the tables.
#[tactic(auto, using(un_kinds::proofs::Appends::four_added))]
fn post_rooms(
    props: &mut Props,
    m: &Model,
    sites: &[Site<'_>],
    spots: &[Spot<'_>],
) -> Result<(), NoMemory>
    requires sites { definers_in sites.now ≡ definers_of m.now }
    requires spots { map place_of spots.now ≡ places_of m.now }
    ensures { OnOk result (props.new ≡ props.old ++ rooms_of m.now) }
{
    post_aparts(props, m, sites)?;
    post_clobbers(props, m, sites)?;
    post_packets(props, m)?;
    post_twos(props, m, sites, spots)?;
    Ok(())
}

/// What is posted of the lengths and the pressure of blocks, of which these are the tables: the rest implies it.
#[tactic(auto, using(un_kinds::proofs::Appends::two_added))]
fn post_implied(
    props: &mut Props,
    m: &Model,
    sites: &[Site<'_>],
    spots: &[Spot<'_>],
) -> Result<(), NoMemory>
    requires sites { definers_in sites.now ≡ definers_of m.now }
    requires spots { map place_of spots.now ≡ places_of m.now }
    ensures { OnOk result (props.new ≡ props.old ++ (lengths_of m.now ++ pressures_of m.now)) }
{
    post_lengths(props, m, sites, spots)?;
    post_pressures(props, m, sites)?;
    Ok(())
}

/// All that is posted for a model, of which these are the tables. Answers the place of the limit's propagator, or where it would stand.
#[tactic(auto, using(un_kinds::proofs::Appends::five_added))]
pub(crate) fn post_each(
    props: &mut Props,
    m: &Model,
    limit: Option<u64>,
    sites: &[Site<'_>],
    spots: &[Spot<'_>],
) -> Result<usize, NoMemory>
    requires sites { definers_in sites.now ≡ definers_of m.now }
    requires spots { map place_of spots.now ≡ places_of m.now }
    ensures added { IfOk result (λ at. props.new ≡ props.old ++ all_postings_of m.now limit) }
    ensures place { IfOk result (λ at. at ≡ length props.old + limit_place m.now) }
{
    let at = post_single(props, m, limit, sites, spots)?;
    post_counts(props, m, limit, sites, spots)?;
    post_arcs(props, m, spots)?;
    post_rooms(props, m, sites, spots)?;
    post_implied(props, m, sites, spots)?;
    Ok(at)
}
