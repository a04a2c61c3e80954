//! What is posted of the edges between blocks: a value has one register where a block hands it over and where the next one takes it.

ghost use Rattle.std.specs.Prelude.{◌≡◌, ◌+◌, ◌<◌, ◌^◌, [], ◌∷◌, ◌++◌, IfOk, OnOk, map, length, slice_get, Some};
ghost use Rattle.un_ir.specs.Live.{targets_of};
ghost use Rattle.un_ir.specs.declared.extended.ExtBlock.{ExtBlock};
ghost use Rattle.un_model.specs.Congruences.{term_of, live_in_temps};
ghost use Rattle.un_model.specs.Pairs.{joined, over_blocks, places_from};
ghost use Rattle.un_kinds.specs.Constraints as constraint;
ghost use Rattle.un_sites.specs.Places.{block_places, definer_or, definers_of, registers_at};
ghost use Rattle.un_sites.specs.Postings.{last_place, same_by, congruence, over_edge, edges_of};
ghost use Rattle.un_sites.specs.Sites.{place_in, place_of, definers_in};

use std::alloc::Global;
use un_base::ids::{TempId, VarId};
use un_base::memory_error::NoMemory;
use un_base::numbers::{advance, number};
use un_ir::extended::{ExtBlock, Operand};
use un_ir::function::Term;
use un_kinds::make_alt::make_same;
use un_kinds::props::Props;
use un_lists::items::Items;
use un_model::ends::{live_in_temps, place, term};
use un_model::model::{BlockVars, Model};
use un_sites::sites::{Site, Spot, registers_at, site_of};
use un_sites::tables::add_block;

/// The last of these operations.
#[tactic(auto, using(crate::proofs::Edges::last_is))]
fn last_of<'a>(spots: &[Spot<'a>]) -> Option<Spot<'a>>
    ensures { place_in result ≡ last_place (map place_of spots.now) }
{
    let n = spots.len();
    if n == 0 { None } else { Some(spots[n - 1]) }
}

/// The operation at a block's end.
fn end_of<'a>(
    alloc: Global,
    b: u32,
    n: u32,
    block: &'a ExtBlock,
    vars: &'a BlockVars,
) -> Result<Option<Spot<'a>>, NoMemory>
    ensures { IfOk result (λ out. place_in out ≡ last_place (block_places b n block.now vars.now)) }
{
    let mut spots = Items::new(alloc);
    add_block(&mut spots, b, n, block, vars)?;
    Ok(last_of(spots.as_slice()))
}

/// What this operand chooses has the register of a temporary.
fn post_same(
    props: &mut Props,
    sites: &[Site<'_>],
    x: TempId,
    operand: &Operand,
    choice: VarId,
) -> Result<(), NoMemory>
    ensures { OnOk result (let ds = definers_in sites.now in props.new ≡ props.old
        ++ constraint.Same choice (registers_at ds operand.now.alts) (definer_or (slice_get ds x.0)).reg ∷ []) }
{
    let regs = registers_at(props.alloc(), sites, operand.alts.as_slice())?;
    let made = make_same(props.alloc(), choice, regs, site_of(sites, x).reg)?;
    props.push(made)
}

/// What the operand at place `k` of a block's end chooses has the register of a temporary.
#[tactic(auto, using(crate::proofs::Edges::none_handed, crate::proofs::Edges::none_chosen))]
fn post_handed(
    props: &mut Props,
    sites: &[Site<'_>],
    out: &Spot<'_>,
    k: usize,
    x: TempId,
) -> Result<(), NoMemory>
    ensures { OnOk result (props.new ≡ props.old ++ same_by (definers_in sites.now) x
        (slice_get out.now.it.now.operands k) (slice_get out.now.vars.now.choices k)) }
{
    if k >= out.it.operands.len() {
        return Ok(());
    }
    if k >= out.vars.choices.len() {
        return Ok(());
    }
    post_same(
        props,
        sites,
        x,
        out.it.operands.get(k),
        *out.vars.choices.get(k),
    )
}

/// The value at place `j` of those that block `b` takes has the register of what the end of block `a` hands over for it.
fn post_value(
    props: &mut Props,
    sites: &[Site<'_>],
    out: &Option<Spot<'_>>,
    a: &ExtBlock,
    b: &ExtBlock,
    j: usize,
    x: TempId,
) -> Result<(), NoMemory>
    requires { j < 2 ^ 62 }
    ensures { OnOk result (props.new ≡ props.old ++ congruence (definers_in sites.now) (place_in out.now) a.now b.now j x) }
{
    match out {
        None => Ok(()),
        Some(p) => { post_handed(props, sites, p, place(a, b, j), x) }
    }
}

/// Each value that block `b` takes has the register of what the end of block `a` hands over for it.
fn post_values(
    props: &mut Props,
    sites: &[Site<'_>],
    out: &Option<Spot<'_>>,
    a: &ExtBlock,
    b: &ExtBlock,
) -> Result<(), NoMemory>
    ensures { OnOk result (props.new ≡ props.old ++ joined (places_from
        (congruence (definers_in sites.now) (place_in out.now) a.now b.now) 0 (live_in_temps b.now.ops))) }
{
    let temps = live_in_temps(&b.ops);
    for j in 0..temps.len() {
        post_value(props, sites, out, a, b, j, temps[j])?;
    }
    Ok(())
}

/// What is posted of the edge from block `a` to block `l`, where there is one.
#[tactic(auto, using(crate::proofs::Edges::none_there))]
fn post_edge(
    props: &mut Props,
    sites: &[Site<'_>],
    blocks: &Items<ExtBlock>,
    out: &Option<Spot<'_>>,
    a: &ExtBlock,
    l: usize,
) -> Result<(), NoMemory>
    ensures { OnOk result (props.new ≡ props.old
        ++ over_edge (definers_in sites.now) (place_in out.now) a.now (slice_get blocks.now l)) }
{
    if l >= blocks.len() {
        return Ok(());
    }
    post_values(props, sites, out, a, blocks.get(l))
}

/// What is posted of the edges from block `a`, number `k`.
#[tactic(auto, using(crate::proofs::Edges::one_edge, crate::proofs::Edges::two_edges))]
fn post_edges_from(
    props: &mut Props,
    sites: &[Site<'_>],
    blocks: &Items<ExtBlock>,
    out: &Option<Spot<'_>>,
    k: u32,
    a: &ExtBlock,
) -> Result<(), NoMemory>
    ensures { OnOk result (props.new ≡ props.old ++ joined (map
        (λ l. over_edge (definers_in sites.now) (place_in out.now) a.now (slice_get blocks.now l)) (targets_of k (term_of a.now.ops)))) }
{
    match term(&a.ops) {
        Term::Fall => {
            let next = advance(k, 1)?;
            post_edge(props, sites, blocks, out, a, next as usize)
        }
        Term::Jump(to) => post_edge(props, sites, blocks, out, a, to.0 as usize),
        Term::Branch { to, .. } => {
            let next = advance(k, 1)?;
            post_edge(props, sites, blocks, out, a, next as usize)?;
            post_edge(props, sites, blocks, out, a, to.0 as usize)?;
            Ok(())
        }
        Term::Ret(_) => Ok(()),
    }
}

/// What is posted of the edges from block `k`, of which the first operation has the number `n`.
pub fn post_block(
    props: &mut Props,
    sites: &[Site<'_>],
    blocks: &Items<ExtBlock>,
    k: usize,
    n: u32,
    vars: &BlockVars,
) -> Result<(), NoMemory>
    requires { k < length blocks.now }
    ensures { OnOk result ((a : ExtBlock) → slice_get blocks.now k ≡ Some a
        → props.new ≡ props.old ++ edges_of blocks.now (definers_in sites.now) k n a vars.now) }
{
    let b = number(k)?;
    let a = blocks.get(k);
    let out = end_of(props.alloc(), b, n, a, vars)?;
    post_edges_from(props, sites, blocks, &out, b, a)
}

/// What is posted of the edges between these blocks.
fn post_blocks(
    props: &mut Props,
    sites: &[Site<'_>],
    blocks: &Items<ExtBlock>,
    vars: &Items<BlockVars>,
) -> Result<(), NoMemory>
    ensures { OnOk result (props.new ≡ props.old
        ++ over_blocks (edges_of blocks.now (definers_in sites.now)) 0 0 blocks.now vars.now) }
{
    let mut n = 0;
    for k in 0..blocks.len().min(vars.len()) {
        post_block(props, sites, blocks, k, n, vars.get(k))?;
        n = advance(n, blocks.get(k).ops.len())?;
    }
    Ok(())
}

/// What is posted of the edges of a model, of which this is the table of definers.
pub fn post_edges(props: &mut Props, m: &Model, sites: &[Site<'_>]) -> Result<(), NoMemory>
    requires { definers_in sites.now ≡ definers_of m.now }
    ensures { OnOk result (props.new ≡ props.old
        ++ over_blocks (edges_of m.now.ext.blocks (definers_of m.now)) 0 0 m.now.ext.blocks m.now.blocks) }
{
    post_blocks(props, sites, &m.ext.blocks, &m.blocks)
}
