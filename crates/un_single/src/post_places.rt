//! What is posted of an operation, and of one operation after another.

ghost use Rattle.std.specs.Prelude.{◌≡◌, ◌++◌, OnOk, map, slice_get};
ghost use Rattle.un_model.specs.Pairs.{joined};
ghost use Rattle.un_sites.specs.Places.{act_of, asked, asked_by, places_of, definers_of};
ghost use Rattle.un_sites.specs.Postings.{chosen_by, waits_by, space_by, home_by, registers_of, of_operand, of_place, over_places};
ghost use Rattle.un_sites.specs.Sites.{place_of, definers_in};

use crate::post_own::{post_issue, post_zeros};
use crate::post_reads::{post_chosen, post_home, post_waits};
use crate::post_spaces::{post_results, post_space};
use un_base::memory_error::NoMemory;
use un_base::numbers::number;
use un_ir::extended::Operand;
use un_isa::reg::Reg;
use un_isa::table::Table;
use un_kinds::props::Props;
use un_model::model::Model;
use un_sites::sites::{Site, Spot, choice_at, sites_at};

/// What is posted of an operand at place `j` with this choice, these alternatives and this home.
#[tactic(auto, using(un_kinds::proofs::Appends::four_added))]
fn post_read(
    props: &mut Props,
    t: &Table,
    slots: u32,
    p: &Spot<'_>,
    j: u32,
    alts: &[Site<'_>],
    home: Option<Reg>,
) -> Result<(), NoMemory>
    ensures { OnOk result (let choice = slice_get p.now.vars.now.choices j in let ds = definers_in alts.now in props.new ≡ props.old
        ++ (chosen_by (act_of (place_of p.now)) choice ds ++ (waits_by t.now (place_of p.now) choice ds
        ++ (space_by slots p.now.it.now.kind (act_of (place_of p.now)) j choice (registers_of ds)
        ++ home_by choice (registers_of ds) home)))) }
{
    let on = p.act();
    let choice = choice_at(p.vars.choices.as_slice(), j);
    post_chosen(props, on, choice, alts)?;
    post_waits(props, t, p, choice, alts)?;
    post_space(props, slots, &p.it.kind, on, j, choice, alts)?;
    post_home(props, choice, alts, home)?;
    Ok(())
}

/// What is posted of an operand.
fn post_operand(
    props: &mut Props,
    t: &Table,
    slots: u32,
    sites: &[Site<'_>],
    p: &Spot<'_>,
    j: u32,
    operand: &Operand,
) -> Result<(), NoMemory>
    ensures { OnOk result (props.new ≡ props.old
        ++ of_operand t.now slots (asked (definers_in sites.now) (place_of p.now) j operand.now)) }
{
    let alts = sites_at(props.alloc(), sites, operand.alts.as_slice())?;
    post_read(props, t, slots, p, j, alts.as_slice(), operand.home)
}

/// What is posted of the operands of an operation.
fn post_operands(
    props: &mut Props,
    t: &Table,
    slots: u32,
    sites: &[Site<'_>],
    p: &Spot<'_>,
) -> Result<(), NoMemory>
    ensures { OnOk result (props.new ≡ props.old
        ++ joined (map (of_operand t.now slots) (asked_by (definers_in sites.now) (place_of p.now)))) }
{
    for i in 0..p.it.operands.len() {
        let j = number(i)?;
        post_operand(props, t, slots, sites, p, j, p.it.operands.get(i))?;
    }
    Ok(())
}

/// What is posted of an operation.
#[tactic(auto, using(un_kinds::proofs::Appends::four_added))]
fn post_place(
    props: &mut Props,
    t: &Table,
    slots: u32,
    sites: &[Site<'_>],
    p: &Spot<'_>,
) -> Result<(), NoMemory>
    ensures { OnOk result (props.new ≡ props.old ++ of_place t.now slots (definers_in sites.now) (place_of p.now)) }
{
    post_zeros(props, sites, p)?;
    post_issue(props, p)?;
    post_operands(props, t, slots, sites, p)?;
    post_results(props, slots, sites, p)?;
    Ok(())
}

/// What is posted of one operation after another.
pub fn post_places(
    props: &mut Props,
    t: &Table,
    slots: u32,
    sites: &[Site<'_>],
    spots: &[Spot<'_>],
) -> Result<(), NoMemory>
    ensures { OnOk result (props.new ≡ props.old
        ++ joined (map (of_place t.now slots (definers_in sites.now)) (map place_of spots.now))) }
{
    for p in spots {
        post_place(props, t, slots, sites, p)?;
    }
    Ok(())
}

/// What is posted of all operations of a model, of which these are the tables.
pub fn post_operations(
    props: &mut Props,
    m: &Model,
    sites: &[Site<'_>],
    spots: &[Spot<'_>],
) -> Result<(), NoMemory>
    requires sites { definers_in sites.now ≡ definers_of m.now }
    requires spots { map place_of spots.now ≡ places_of m.now }
    ensures { OnOk result (props.new ≡ props.old
        ++ over_places (of_place m.now.ext.table m.now.options.slots (definers_of m.now)) m.now) }
{
    post_places(props, &m.ext.table, m.options.slots, sites, spots)
}
