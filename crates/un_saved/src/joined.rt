//! Which boundaries of blocks are joined to the end of the entry: there each solution has the saved values where the entry leaves them.

ghost use Rattle.std.specs.Prelude.{◌≡◌, ◌++◌, false, true, IfOk, OnOk, fold, length, replicate, slice_set};
ghost use Rattle.un_saved.specs.Joined.{edge_to, edges_of, through_of, links_of, links_between, is_marked, is_at, marked, marked_by};
ghost use Rattle.un_saved.specs.Joined.{marked_after, entry_alone, joined_in, AreJoined};

use crate::boundary::{Boundary, Link, Marks};
use crate::places::keeps_places;
use std::alloc::{AllocError, Global};
use un_base::memory_error::NoMemory;
use un_base::numbers::{later, number};
use un_ir::extended::ExtBlock;
use un_ir::function::Term;
use un_lists::items::Items;
use un_model::ends::term;

/// Adds the edge from block `k` to block `l`, where there is such a block of so many.
fn add_edge(links: &mut Items<Link>, count: usize, k: u32, l: u32) -> Result<(), AllocError>
    ensures { OnOk result (links.new ≡ links.old ++ edge_to count k l) }
{
    if (l as usize) < count {
        links.push(Link {
            from: Boundary::EndOf(k),
            to: Boundary::StartOf(l),
        })?;
    }
    Ok(())
}

/// Adds the edges that leave block `k`.
#[tactic(auto, using(crate::proofs::Joining::one_edge, crate::proofs::Joining::two_edges))]
fn add_edges(
    links: &mut Items<Link>,
    count: usize,
    k: u32,
    block: &ExtBlock,
) -> Result<(), NoMemory>
    ensures { OnOk result (links.new ≡ links.old ++ edges_of count k block.now) }
{
    match term(&block.ops) {
        Term::Fall => {
            let next = later(k, 1)?;
            add_edge(links, count, k, next)?;
            Ok(())
        }
        Term::Jump(to) => {
            add_edge(links, count, k, to.0)?;
            Ok(())
        }
        Term::Branch { to, .. } => {
            let next = later(k, 1)?;
            add_edge(links, count, k, next)?;
            add_edge(links, count, k, to.0)?;
            Ok(())
        }
        Term::Ret(_) => Ok(()),
    }
}

/// Adds the way through block `k`, where it hands its saved values over where it takes them.
fn add_through(links: &mut Items<Link>, k: u32, block: &ExtBlock) -> Result<(), AllocError>
    ensures { OnOk result (links.new ≡ links.old ++ through_of k block.now) }
{
    if keeps_places(block) {
        links.push(Link {
            from: Boundary::StartOf(k),
            to: Boundary::EndOf(k),
        })?;
    }
    Ok(())
}

/// Adds both.
#[tactic(auto, using(crate::proofs::Joining::both_added))]
fn add_links(
    links: &mut Items<Link>,
    count: usize,
    k: u32,
    block: &ExtBlock,
) -> Result<(), NoMemory>
    ensures { OnOk result (links.new ≡ links.old ++ links_of count k block.now) }
{
    add_edges(links, count, k, block)?;
    add_through(links, k, block)?;
    Ok(())
}

/// The links between the boundaries of these blocks.
fn links_between(alloc: Global, blocks: &Items<ExtBlock>) -> Result<Items<Link>, NoMemory>
    ensures { IfOk result (λ links. links ≡ links_between blocks.now) }
{
    let mut links = Items::new(alloc);
    for k in 0..blocks.len() {
        add_links(&mut links, blocks.len(), number(k)?, blocks.get(k))?;
    }
    Ok(links)
}

/// Whether block `k` is marked.
fn is_marked(marks: &[bool], k: u32) -> bool
    ensures { result ≡ is_marked marks.now k }
{
    let i = k as usize;
    if i < marks.len() { marks[i] } else { false }
}

/// Whether a boundary is marked.
pub fn is_at(m: &Marks, c: Boundary) -> bool
    ensures { result ≡ is_at m.now c }
{
    match c {
        Boundary::StartOf(k) => is_marked(m.starts.as_slice(), k),
        Boundary::EndOf(k) => is_marked(m.ends.as_slice(), k),
    }
}

/// Marks block `k`, where there is one.
#[tactic(auto, using(crate::proofs::Joining::past_marked))]
fn mark(marks: &mut Items<bool>, k: u32)
    ensures { marks.new ≡ slice_set marks.old k true }
{
    let i = k as usize;
    if i < marks.len() {
        marks.set(i, true);
    }
}

/// Marks a boundary.
fn mark_at(m: &mut Marks, c: Boundary)
    ensures { m.new ≡ marked m.old c }
{
    match c {
        Boundary::StartOf(k) => mark(&mut m.starts, k),
        Boundary::EndOf(k) => mark(&mut m.ends, k),
    }
}

/// Marks both boundaries of a link where one is marked.
fn mark_by(m: &mut Marks, e: Link)
    ensures { m.new ≡ marked_by m.old e }
{
    if is_at(m, e.from) || is_at(m, e.to) {
        mark_at(m, e.from);
        mark_at(m, e.to);
    }
}

/// So for all links, one after another.
fn mark_on(m: &mut Marks, links: &[Link])
    ensures { m.new ≡ fold marked_by m.old links.now }
{
    for e in links {
        mark_by(m, *e);
    }
}

/// Does so in as many rounds.
fn mark_all(rounds: usize, links: &[Link], m: &mut Marks)
    ensures { m.new ≡ marked_after rounds links.now m.old }
{
    for _ in 0..rounds {
        mark_on(m, links);
    }
}

/// No mark of so many.
fn no_marks(alloc: Global, count: usize) -> Result<Items<bool>, AllocError>
    ensures { IfOk result (λ marks. marks ≡ replicate count false) }
{
    let marks = vec![in alloc; false; count]?;
    Ok(Items::from_vec(marks))
}

/// The mark of the end of the entry alone, in so many blocks.
fn entry_alone(alloc: Global, count: usize) -> Result<Marks, AllocError>
    ensures { IfOk result (λ m. m ≡ entry_alone count) }
{
    let starts = no_marks(alloc, count)?;
    let mut ends = no_marks(alloc, count)?;
    mark(&mut ends, 0);
    Ok(Marks { starts, ends })
}

/// Marks of the boundaries that are joined to the end of the entry.
pub fn joined(alloc: Global, blocks: &Items<ExtBlock>) -> Result<Marks, NoMemory>
    ensures is { IfOk result (λ m. m ≡ joined_in blocks.now) }
    ensures joined { IfOk result (AreJoined blocks.now) }
{
    let count = number(blocks.len())?;
    let links = links_between(alloc, blocks)?;
    let mut m = entry_alone(alloc, blocks.len())?;
    mark_all(2 * (count as usize), links.as_slice(), &mut m);
    Ok(m)
}
