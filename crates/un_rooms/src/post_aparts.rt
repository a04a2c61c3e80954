//! What is posted of the registers of a block: no two of its temporaries share one in a cycle. One pass over the block's
//! operands gathers the users of all its temporaries, of which the numbers are consecutive.

ghost use Rattle.std.specs.Prelude.{◌≡◌, ◌==◌, [], ◌∷◌, ◌++◌, List, All, IfOk, OnOk, length, map, slice_get, replicate, if◌then◌else◌};
ghost use Rattle.un_base.specs.declared.ids.TempId.{TempId};
ghost use Rattle.un_prop.specs.declared.act.UserOf.{UserOf};
ghost use Rattle.un_kinds.specs.Constraints as constraint;
ghost use Rattle.un_rooms.specs.Gathered.{gathered, Gathers, IsAmong, temp_with};
ghost use Rattle.un_model.specs.Pairs.{joined, places_from};
ghost use Rattle.un_sites.specs.Places.{definer_or, definers_of};
ghost use Rattle.un_sites.specs.Rooms.{user_if, place_users, users_of, temp_at, temps_in, apart_in, aparts_of};
ghost use Rattle.un_sites.specs.Sites.{place_of, definer_at, definers_in};

use crate::call_rows::copy_users;
use std::alloc::{AllocError, Global};
use un_base::ids::{TempId, VarId};
use un_base::memory_error::NoMemory;
use un_base::numbers::{advance, number};
use un_ir::extended::ExtBlock;
use un_kinds::make_rect::make_apart;
use un_kinds::props::Props;
use un_lists::items::Items;
use un_model::model::{BlockVars, Model};
use un_prop::act::{Temp, UserOf};
use un_sites::sites::{Site, Spot, choice_at, site_of};
use un_sites::tables::add_block;

/// Consecutive numbers of temporaries.
#[derive(Clone, Copy)]
pub struct Span {
    /// The number of the first temporary; the greatest word where there is none.
    pub first: u32,
    /// How many temporaries there are from `first` on.
    pub count: usize,
}

/// Adds temporaries.
fn add_temps(temps: &mut Items<TempId>, more: &[TempId]) -> Result<(), AllocError>
    ensures { OnOk result (temps.new ≡ temps.old ++ more.now) }
{
    for t in more {
        temps.push(*t)?;
    }
    Ok(())
}

/// The temporaries that operations define.
pub fn temps_in(alloc: Global, spots: &[Spot<'_>]) -> Result<Items<TempId>, AllocError>
    ensures { IfOk result (λ temps. temps ≡ temps_in (map place_of spots.now)) }
{
    let mut temps = Items::new(alloc);
    for p in spots {
        add_temps(&mut temps, p.it.results.as_slice())?;
    }
    Ok(temps)
}

/// The numbers from the least of these temporaries to the greatest.
pub fn span_of(temps: &[TempId]) -> Span
    ensures { All (IsAmong result.first result.count) temps.now }
{
    let mut first = u32::MAX;
    let mut past = 0;
    for t in temps {
        first = first.min(t.0);
        past = past.max(t.0 as usize + 1);
    }
    Span {
        first,
        count: past.saturating_sub(first as usize),
    }
}

/// So many temporaries without users.
fn no_users(alloc: Global, count: usize) -> Result<Vec<Items<UserOf>>, AllocError>
    ensures { IfOk result (λ lists. lists.items ≡ replicate count []) }
{
    let mut lists = Items::from_vec(Vec::with_capacity(alloc, count)?);
    for _ in 0..count {
        lists.push(Items::new(alloc))?;
    }
    Ok(lists.into_vec())
}

/// One user more of a temporary, where it is one of those from `first` on.
fn add_user(
    lists: &mut Vec<Items<UserOf>>,
    first: u32,
    x: TempId,
    user: UserOf,
) -> Result<(), AllocError>
    ensures { OnOk result (Gathers first (λ (t : TempId). if x.0 == t.0 then user ∷ [] else []) lists.old.items lists.new.items) }
{
    if first <= x.0 {
        let place = (x.0 - first) as usize;
        if place < lists.len() {
            lists[place].push(user)?;
        }
    }
    Ok(())
}

/// The users of each temporary that an operand with this choice is.
fn add_operand(
    lists: &mut Vec<Items<UserOf>>,
    first: u32,
    p: &Spot<'_>,
    choice: Option<VarId>,
    alts: &Items<TempId>,
) -> Result<(), NoMemory>
    ensures { OnOk result (Gathers first (λ (t : TempId). joined (places_from (user_if t (place_of p.now) choice) 0 alts.now))
        lists.old.items lists.new.items) }
{
    for i in 0..alts.len() {
        let value = number(i)?;
        let user = UserOf {
            on: p.act(),
            at: p.time(),
            choice,
            value,
        };
        add_user(lists, first, *alts.get(i), user)?;
    }
    Ok(())
}

/// The users of each temporary that an operation is.
fn add_place(lists: &mut Vec<Items<UserOf>>, first: u32, p: &Spot<'_>) -> Result<(), NoMemory>
    ensures { OnOk result (Gathers first (λ (t : TempId). place_users t (place_of p.now)) lists.old.items lists.new.items) }
{
    for j in 0..p.it.operands.len() {
        let operand = p.it.operands.get(j);
        let place = number(j)?;
        let choice = choice_at(p.vars.choices.as_slice(), place);
        add_operand(lists, first, p, choice, &operand.alts)?;
    }
    Ok(())
}

/// The users of each temporary that operations are.
fn add_places(
    lists: &mut Vec<Items<UserOf>>,
    first: u32,
    spots: &[Spot<'_>],
) -> Result<(), NoMemory>
    ensures { OnOk result (Gathers first (users_of (map place_of spots.now)) lists.old.items lists.new.items) }
{
    for p in spots {
        add_place(lists, first, p)?;
    }
    Ok(())
}

/// The users of each of so many temporaries from `first` on.
pub(crate) fn all_users(
    alloc: Global,
    first: u32,
    count: usize,
    spots: &[Spot<'_>],
) -> Result<Items<Items<UserOf>>, NoMemory>
    ensures { IfOk result (λ lists. lists ≡ gathered first count (users_of (map place_of spots.now))) }
{
    let mut lists = no_users(alloc, count)?;
    add_places(&mut lists, first, spots)?;
    Ok(Items::from_vec(lists))
}

/// A temporary with these users.
pub(crate) fn temp_with(
    alloc: Global,
    site: &Site<'_>,
    users: &[UserOf],
) -> Result<Temp, AllocError>
    ensures { IfOk result (λ temp. temp ≡ temp_with (definer_at site.now) users.now) }
{
    let list = copy_users(alloc, users)?;
    Ok(Temp {
        on: site.act(),
        at: site.time(),
        reg: site.reg,
        users: list,
    })
}

/// A temporary with its users, where the lists of users stand from `first` on.
fn temp_at(
    alloc: Global,
    sites: &[Site<'_>],
    first: u32,
    lists: &Items<Items<UserOf>>,
    t: TempId,
) -> Result<Temp, AllocError>
    requires { IsAmong first (length lists.now) t }
    ensures { IfOk result (λ made. (f : TempId → List UserOf) → lists.now ≡ gathered first (length lists.now) f
        → made ≡ temp_with (definer_or (slice_get (definers_in sites.now) t.0)) (f t)) }
{
    let site = site_of(sites, t);
    let users = lists.get((t.0 - first) as usize);
    let made = temp_with(alloc, &site, users.as_slice())?;
    Ok(made)
}

/// Temporaries with their users, where the lists of users stand from `first` on.
fn with_users(
    alloc: Global,
    sites: &[Site<'_>],
    first: u32,
    lists: &Items<Items<UserOf>>,
    temps: &[TempId],
) -> Result<Items<Temp>, AllocError>
    requires { All (IsAmong first (length lists.now)) temps.now }
    ensures { IfOk result (λ made. (f : TempId → List UserOf) → lists.now ≡ gathered first (length lists.now) f
        → made ≡ map (λ (t : TempId). temp_with (definer_or (slice_get (definers_in sites.now) t.0)) (f t)) temps.now) }
{
    let mut made = Items::new(alloc);
    for t in temps {
        made.push(temp_at(alloc, sites, first, lists, *t)?)?;
    }
    Ok(made)
}

/// The temporaries of a block with these operations.
fn temps_at(alloc: Global, sites: &[Site<'_>], spots: &[Spot<'_>]) -> Result<Items<Temp>, NoMemory>
    ensures { IfOk result (λ temps. temps ≡ map (temp_at (definers_in sites.now) (map place_of spots.now))
        (temps_in (map place_of spots.now))) }
{
    let temps = temps_in(alloc, spots)?;
    let span = span_of(temps.as_slice());
    let lists = all_users(alloc, span.first, span.count, spots)?;
    let made = with_users(alloc, sites, span.first, &lists, temps.as_slice())?;
    Ok(made)
}

/// What is posted of the registers of a block with these operations.
pub fn post_apart(props: &mut Props, sites: &[Site<'_>], spots: &[Spot<'_>]) -> Result<(), NoMemory>
    ensures { OnOk result (props.new ≡ props.old
        ++ constraint.Apart (map (temp_at (definers_in sites.now) (map place_of spots.now)) (temps_in (map place_of spots.now))) ∷ []) }
{
    let temps = temps_at(props.alloc(), sites, spots)?;
    let made = make_apart(props.alloc(), temps)?;
    props.push(made)
}

/// What is posted of the registers of block `b`, of which the first operation has the number `first`.
fn post_apart_in(
    props: &mut Props,
    sites: &[Site<'_>],
    b: u32,
    first: u32,
    block: &ExtBlock,
    vars: &BlockVars,
) -> Result<(), NoMemory>
    ensures { OnOk result (props.new ≡ props.old ++ apart_in (definers_in sites.now) b first block.now vars.now) }
{
    let mut spots = Items::from_vec(Vec::with_capacity(props.alloc(), block.ops.len())?);
    add_block(&mut spots, b, first, block, vars)?;
    post_apart(props, sites, spots.as_slice())
}

/// What is posted of the registers of all blocks of a model, of which this is the table of definers.
pub fn post_aparts(props: &mut Props, m: &Model, sites: &[Site<'_>]) -> Result<(), NoMemory>
    requires { definers_in sites.now ≡ definers_of m.now }
    ensures { OnOk result (props.new ≡ props.old ++ aparts_of m.now) }
{
    let mut n = 0;
    for k in 0..m.ext.blocks.len().min(m.blocks.len()) {
        let b = number(k)?;
        let block = m.ext.blocks.get(k);
        post_apart_in(props, sites, b, n, block, m.blocks.get(k))?;
        n = advance(n, block.ops.len())?;
    }
    Ok(())
}
