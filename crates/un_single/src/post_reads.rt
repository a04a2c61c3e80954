//! What is posted of an operand: it chooses an active temporary, waits for it, and lies in its space and its home.

ghost use Rattle.std.specs.Prelude.{◌≡◌, ◌+◌, [], ◌∷◌, ◌++◌, IfOk, OnOk, map};
ghost use Rattle.un_sites.specs.Places.{Definer, act_of};
ghost use Rattle.un_sites.specs.Postings.{chosen_by, read_alt, lone_read, waits_by, home_by, registers_of};
ghost use Rattle.un_sites.specs.Sites.{place_of, definer_at, definers_in};

use std::alloc::{AllocError, Global};
use un_base::ids::VarId;
use un_base::memory_error::NoMemory;
use un_isa::reg::Reg;
use un_isa::table::Table;
use un_kinds::make_alt::{make_chosen, make_home};
use un_kinds::make_prec::{make_before, make_reads};
use un_kinds::props::Props;
use un_lists::items::Items;
use un_prec::reads::ReadAlt;
use un_prop::act::Act;
use un_sites::numbers::{first_gap, gaps};
use un_sites::sites::{Site, Spot, registers_of};

/// The activities of definers.
fn acts_of(alloc: Global, alts: &[Site<'_>]) -> Result<Items<Act>, AllocError>
    ensures { IfOk result (λ acts. acts ≡ map (λ (d : Definer). act_of d.place) (definers_in alts.now)) }
{
    let mut acts = Items::new(alloc);
    for site in alts {
        acts.push(site.act())?;
    }
    Ok(acts)
}

/// An operand chooses an active temporary.
pub(crate) fn post_chosen(
    props: &mut Props,
    on: Act,
    choice: Option<VarId>,
    alts: &[Site<'_>],
) -> Result<(), NoMemory>
    ensures { OnOk result (props.new ≡ props.old ++ chosen_by on choice (definers_in alts.now)) }
{
    match choice {
        None => Ok(()),
        Some(v) => {
            let acts = acts_of(props.alloc(), alts)?;
            let made = make_chosen(props.alloc(), on, v, acts)?;
            props.push(made)
        }
    }
}

/// A definer that a user may choose.
fn read_alt(
    alloc: Global,
    t: &Table,
    user: &Spot<'_>,
    site: &Site<'_>,
) -> Result<ReadAlt, AllocError>
    ensures { IfOk result (λ a. a ≡ read_alt t.now (place_of user.now) (definer_at site.now)) }
{
    let gaps = gaps(alloc, t, user, site)?;
    Ok(ReadAlt {
        at: site.time(),
        on: site.act(),
        gaps,
    })
}

/// The definers that a user may choose.
fn read_alts(
    alloc: Global,
    t: &Table,
    user: &Spot<'_>,
    alts: &[Site<'_>],
) -> Result<Items<ReadAlt>, AllocError>
    ensures { IfOk result (λ found. found ≡ map (read_alt t.now (place_of user.now)) (definers_in alts.now)) }
{
    let mut found = Items::new(alloc);
    for site in alts {
        found.push(read_alt(alloc, t, user, site)?)?;
    }
    Ok(found)
}

/// The operand of a copy of a value waits for the value.
fn post_lone(props: &mut Props, t: &Table, p: &Spot<'_>, site: &Site<'_>) -> Result<(), NoMemory>
    ensures { OnOk result (props.new ≡ props.old ++ lone_read t.now (place_of p.now) (definer_at site.now) ∷ []) }
{
    let gap = first_gap(t, p, site);
    let made = make_before(
        props.alloc(),
        site.time(),
        site.act(),
        p.time(),
        p.act(),
        gap,
    )?;
    props.push(made)
}

/// The operand of a copy of a value waits for each of these.
fn post_lones(props: &mut Props, t: &Table, p: &Spot<'_>, alts: &[Site<'_>]) -> Result<(), NoMemory>
    ensures { OnOk result (props.new ≡ props.old ++ map (lone_read t.now (place_of p.now)) (definers_in alts.now)) }
{
    for site in alts {
        post_lone(props, t, p, site)?;
    }
    Ok(())
}

/// An operand waits for what it chooses.
pub(crate) fn post_waits(
    props: &mut Props,
    t: &Table,
    p: &Spot<'_>,
    choice: Option<VarId>,
    alts: &[Site<'_>],
) -> Result<(), NoMemory>
    ensures { OnOk result (props.new ≡ props.old ++ waits_by t.now (place_of p.now) choice (definers_in alts.now)) }
{
    match choice {
        None => { post_lones(props, t, p, alts) }
        Some(v) => {
            let found = read_alts(props.alloc(), t, p, alts)?;
            let made = make_reads(props.alloc(), p.time(), p.act(), v, found)?;
            props.push(made)
        }
    }
}

/// An operand chooses what has its home.
pub(crate) fn post_home(
    props: &mut Props,
    choice: Option<VarId>,
    alts: &[Site<'_>],
    home: Option<Reg>,
) -> Result<(), NoMemory>
    ensures { OnOk result (props.new ≡ props.old ++ home_by choice (registers_of (definers_in alts.now)) home) }
{
    match home {
        None => Ok(()),
        Some(reg) => {
            let regs = registers_of(props.alloc(), alts)?;
            let made = make_home(props.alloc(), choice, regs, reg)?;
            props.push(made)
        }
    }
}
