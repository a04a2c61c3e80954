//! What is posted of the arcs: the later operation of each waits its gap for the earlier one.

ghost use Rattle.std.specs.Prelude.{◌≡◌, [], ◌∷◌, ◌++◌, OnOk, map};
ghost use Rattle.un_model.specs.Pairs.{joined};
ghost use Rattle.un_sites.specs.Befores.{arc_before, befores_in, befores_of};
ghost use Rattle.un_sites.specs.Places.{places_of};
ghost use Rattle.un_sites.specs.Sites.{place_of};

use un_base::memory_error::NoMemory;
use un_kinds::make_prec::make_before;
use un_kinds::props::Props;
use un_lists::items::Items;
use un_model::model::{Arc, Model};
use un_prop::act::Act;
use un_sites::sites::{Spot, time_with};

/// What is posted of an arc.
fn post_arc(props: &mut Props, spots: &[Spot<'_>], arc: &Arc) -> Result<(), NoMemory>
    ensures { OnOk result (props.new ≡ props.old ++ arc_before (map place_of spots.now) arc.now ∷ []) }
{
    let made = make_before(
        props.alloc(),
        time_with(spots, arc.from),
        Act::Always,
        time_with(spots, arc.to),
        Act::Always,
        arc.gap,
    )?;
    props.push(made)
}

/// What is posted of the arcs of a block.
pub fn post_arcs_in(props: &mut Props, spots: &[Spot<'_>], arcs: &[Arc]) -> Result<(), NoMemory>
    ensures { OnOk result (props.new ≡ props.old ++ befores_in (map place_of spots.now) arcs.now) }
{
    for arc in arcs {
        post_arc(props, spots, arc)?;
    }
    Ok(())
}

/// What is posted of the arcs of one block after another.
fn post_blocks(props: &mut Props, spots: &[Spot<'_>], blocks: &[Items<Arc>]) -> Result<(), NoMemory>
    ensures { OnOk result (props.new ≡ props.old ++ joined (map (befores_in (map place_of spots.now)) blocks.now)) }
{
    for arcs in blocks {
        post_arcs_in(props, spots, arcs.as_slice())?;
    }
    Ok(())
}

/// What is posted of all arcs of a model, of which this is the table of operations.
pub fn post_arcs(props: &mut Props, m: &Model, spots: &[Spot<'_>]) -> Result<(), NoMemory>
    requires { map place_of spots.now ≡ places_of m.now }
    ensures { OnOk result (props.new ≡ props.old ++ befores_of m.now) }
{
    post_blocks(props, spots, m.arcs.as_slice())
}
