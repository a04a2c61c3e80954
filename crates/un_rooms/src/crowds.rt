//! Which blocks have a saved value in a slot in every solution, and what their neighbours owe for it.

ghost use Rattle.std.specs.Prelude.{◌≡◌, ◌==◌, ◌&&◌, ◌++◌, true, IfOk, OnOk, fold, map, slice_set};
ghost use Rattle.un_isa.specs.Registers.{callee_saved};
ghost use Rattle.un_sites.specs.Saved.{edges_from, edges_between, keeps_places, is_crowded, is_marked, marked_from, marked_over};
ghost use Rattle.un_sites.specs.Saved.{marked_after, crowded_in, crowded_of, leads_there, comes_from, owed_by};
ghost use Rattle.un_sites.specs.Sites.{place_of};

use crate::saved::{is_crowded, keeps_places, reads_saved};
use std::alloc::{AllocError, Global};
use un_base::memory_error::NoMemory;
use un_base::numbers::{later, number};
use un_ir::extended::ExtBlock;
use un_ir::function::Term;
use un_isa::reg_set::callee_saved;
use un_lists::items::Items;
use un_model::ends::term;
use un_model::model::Model;
use un_sites::edges::{Accesses, Edge};
use un_sites::sites::Spot;

/// The edges between the blocks of a function, and which blocks have a saved value in a slot.
#[derive(Drop)]
pub(crate) struct Crowds {
    pub(crate) edges: Items<Edge>,
    pub(crate) crowded: Items<bool>,
}

/// Adds the edges that leave block `k`.
fn add_edges(edges: &mut Items<Edge>, k: u32, a: &ExtBlock) -> Result<(), NoMemory>
    ensures { OnOk result (edges.new ≡ edges.old ++ edges_from k a.now) }
{
    match term(&a.ops) {
        Term::Fall => {
            let to = later(k, 1)?;
            edges.push(Edge { from: k, to })?;
            Ok(())
        }
        Term::Jump(to) => {
            edges.push(Edge { from: k, to: to.0 })?;
            Ok(())
        }
        Term::Branch { to, .. } => {
            let next = later(k, 1)?;
            edges.push(Edge { from: k, to: next })?;
            edges.push(Edge { from: k, to: to.0 })?;
            Ok(())
        }
        Term::Ret(_) => Ok(()),
    }
}

/// The edges between these blocks.
fn edges_between(alloc: Global, blocks: &Items<ExtBlock>) -> Result<Items<Edge>, NoMemory>
    ensures { IfOk result (λ edges. edges ≡ edges_between blocks.now) }
{
    let mut edges = Items::new(alloc);
    for k in 0..blocks.len() {
        add_edges(&mut edges, number(k)?, blocks.get(k))?;
    }
    Ok(edges)
}

/// Whether each of these blocks has a saved value in a slot by its own calls, which keep so many registers.
fn crowded_by_calls(
    alloc: Global,
    kept: usize,
    blocks: &Items<ExtBlock>,
) -> Result<Items<bool>, AllocError>
    ensures { IfOk result (λ crowded. crowded ≡ map (is_crowded kept) blocks.now) }
{
    let mut crowded = Items::new(alloc);
    for k in 0..blocks.len() {
        crowded.push(is_crowded(kept, blocks.get(k)))?;
    }
    Ok(crowded)
}

/// Whether each of these blocks hands its saved values over where it takes them.
fn keeping_in(alloc: Global, blocks: &Items<ExtBlock>) -> Result<Items<bool>, AllocError>
    ensures { IfOk result (λ keeping. keeping ≡ map keeps_places blocks.now) }
{
    let mut keeping = Items::new(alloc);
    for k in 0..blocks.len() {
        keeping.push(keeps_places(blocks.get(k)))?;
    }
    Ok(keeping)
}

/// Whether block `k` is marked.
fn is_marked(marks: &[bool], k: u32) -> bool
    ensures { result ≡ is_marked marks.now k }
{
    let i = k as usize;
    if i < marks.len() { marks[i] } else { false }
}

/// Marks block `k`, where there is one.
#[tactic(auto, using(crate::proofs::Saving::past_marked))]
fn mark(marks: &mut Items<bool>, k: u32)
    ensures { marks.new ≡ slice_set marks.old k true }
{
    let i = k as usize;
    if i < marks.len() {
        marks.set(i, true);
    }
}

/// Marks block `l` where block `k` is marked, if it hands its saved values over where it takes them.
fn mark_from(keeping: &[bool], marks: &mut Items<bool>, k: u32, l: u32)
    ensures { marks.new ≡ marked_from keeping.now k l marks.old }
{
    if is_marked(marks.as_slice(), k) && is_marked(keeping, l) {
        mark(marks, l);
    }
}

/// Carries a mark over an edge, on and back.
fn mark_over(keeping: &[bool], marks: &mut Items<bool>, e: Edge)
    ensures { marks.new ≡ marked_over keeping.now marks.old e }
{
    mark_from(keeping, marks, e.from, e.to);
    mark_from(keeping, marks, e.to, e.from);
}

/// Carries marks over all edges, one after another.
fn mark_on(keeping: &[bool], marks: &mut Items<bool>, edges: &[Edge])
    ensures { marks.new ≡ fold (marked_over keeping.now) marks.old edges.now }
{
    for e in edges {
        mark_over(keeping, marks, *e);
    }
}

/// Does so in as many rounds.
fn mark_all(rounds: usize, keeping: &[bool], edges: &[Edge], marks: &mut Items<bool>)
    ensures { marks.new ≡ marked_after rounds keeping.now edges.now marks.old }
{
    for _ in 0..rounds {
        mark_on(keeping, marks, edges);
    }
}

/// Whether each of these blocks, between which there are these edges, has a saved value in a slot, where a call keeps so many registers.
fn crowded_in(
    alloc: Global,
    kept: usize,
    blocks: &Items<ExtBlock>,
    edges: &[Edge],
) -> Result<Items<bool>, AllocError>
    requires { edges.now ≡ edges_between blocks.now }
    ensures { IfOk result (λ crowded. crowded ≡ crowded_in kept blocks.now) }
{
    let keeping = keeping_in(alloc, blocks)?;
    let mut crowded = crowded_by_calls(alloc, kept, blocks)?;
    mark_all(blocks.len(), keeping.as_slice(), edges, &mut crowded);
    Ok(crowded)
}

/// The edges of a model's blocks, and which of these have a saved value in a slot.
pub(crate) fn crowds_of(alloc: Global, m: &Model) -> Result<Crowds, NoMemory>
    ensures edges { IfOk result (λ crowds. crowds.edges ≡ edges_between m.now.ext.blocks) }
    ensures crowded { IfOk result (λ crowds. crowds.crowded ≡ crowded_of m.now) }
{
    let kept = callee_saved(alloc, &m.ext.table)?;
    let edges = edges_between(alloc, &m.ext.blocks)?;
    let crowded = crowded_in(alloc, kept.len(), &m.ext.blocks, edges.as_slice())?;
    Ok(Crowds { edges, crowded })
}

/// Whether an edge leads from block `k` to one that is marked.
fn leads_there(marks: &[bool], edges: &[Edge], k: u32) -> bool
    ensures { result ≡ leads_there marks.now edges.now k }
{
    edges.iter().any(|e| e.from == k && is_marked(marks, e.to))
}

/// Whether an edge leads from a marked block to block `k`.
fn comes_from(marks: &[bool], edges: &[Edge], k: u32) -> bool
    ensures { result ≡ comes_from marks.now edges.now k }
{
    edges.iter().any(|e| e.to == k && is_marked(marks, e.from))
}

/// What block `k`, with these operations, owes for the crowded blocks beside it.
pub(crate) fn owed_by(crowds: &Crowds, k: u32, block: &ExtBlock, spots: &[Spot<'_>]) -> Accesses
    ensures { result ≡ owed_by crowds.now.crowded crowds.now.edges k block.now (map place_of spots.now) }
{
    let edges = crowds.edges.as_slice();
    let crowded = crowds.crowded.as_slice();
    let spills = k == 0 && leads_there(crowded, edges, k);
    let reloads = comes_from(crowded, edges, k) && reads_saved(block, spots);
    Accesses {
        spills: u32::from(spills),
        reloads: u32::from(reloads),
    }
}
