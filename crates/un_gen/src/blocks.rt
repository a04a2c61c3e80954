//! Blocks of a generated function.

ghost use Rattle.std.specs.Prelude.{◌≡◌, ◌<◌, ◌≤◌, ◌+◌, ◌-◌, ◌++◌, ◌∷◌, [], true, IfOk, OnOk};
ghost use Rattle.un_base.specs.Names.{is_name};
ghost use Rattle.un_ir.specs.declared.function.TheConstants.{BLOCKS};
ghost use Rattle.un_gen.specs.Generated.{label_of, end_by, behind_end_by, first_body, drawn_body, block_of, behind, all_blocks};

use crate::draws::Draws;
use crate::ops::{TRUTH, drawn_ops, entry_ops};
use std::alloc::Global;
use un_base::ids::{BlockId, NameId};
use un_base::memory_error::NoMemory;
use un_base::name::Name;
use un_ir::function::{BLOCKS, Block, SrcOp, Term};
use un_ir::text::{put_number, put_text};
use un_lists::items::Items;

/// The highest frequency that is drawn.
const FREQUENCY: u32 = 1000;

/// How many ways there are for a block to end; the first two of them jump.
const WAYS: u32 = 4;

/// The name with these bytes.
pub(crate) fn name_of(bytes: &[u8]) -> Name
    requires { is_name bytes.now ≡ true }
    ensures { result ≡ bytes.now }
{
    Name::from_bytes(bytes).unwrap()
}

/// The label of block `b`.
fn label_of(alloc: Global, b: u32) -> Result<Name, NoMemory>
    requires { b < BLOCKS }
    ensures { IfOk result (λ label. label ≡ label_of b) }
{
    let mut text = Vec::new(alloc);
    put_text(&mut text, b"b")?;
    put_number(&mut text, u64::from(b))?;
    Ok(name_of(text.as_slice()))
}

/// The end of a block of so many, behind which there are `more`.
fn drawn_end(draws: &mut Draws, size: u32, more: u32) -> Term
    requires { more < size }
    ensures term { result ≡ end_by size more draws.old.state }
    ensures state { draws.new.state ≡ behind_end_by more draws.old.state }
{
    if more == 0 {
        return Term::Ret(Some(NameId(0)));
    }
    let way = draws.draw(WAYS);
    if way >= 2 {
        return Term::Fall;
    }
    let to = draws.draw(size - 1) + 1;
    Term::Branch {
        pred: TRUTH,
        sense: way == 0,
        to: BlockId(to),
    }
}

/// The block with this label, frequency and operations, one of so many, behind which there are `more`.
fn ended(
    draws: &mut Draws,
    size: u32,
    more: u32,
    label: Name,
    freq: u32,
    ops: Items<SrcOp>,
) -> Block
    requires { more < size }
    ensures block { result ≡ record { label = label; freq = freq; ops = ops; term = end_by size more draws.old.state } }
    ensures state { draws.new.state ≡ behind_end_by more draws.old.state }
{
    let term = drawn_end(draws, size, more);
    Block {
        label,
        freq,
        ops,
        term,
    }
}

/// The first of so many blocks.
fn first_block(alloc: Global, draws: &mut Draws, size: u32) -> Result<Block, NoMemory>
    requires { 0 < size }
    ensures block { IfOk result (λ block. block ≡ block_of size 0 (size - 1) (first_body draws.old.state)) }
    ensures state { OnOk result (draws.new.state ≡ behind (size - 1) (first_body draws.old.state)) }
{
    let label = label_of(alloc, 0)?;
    let ops = entry_ops(alloc)?;
    Ok(ended(draws, size, size - 1, label, 1, ops))
}

/// Block `b` of so many, behind the first.
fn drawn_block(alloc: Global, draws: &mut Draws, size: u32, b: u32) -> Result<Block, NoMemory>
    requires place { b < size }
    requires few { size ≤ BLOCKS }
    ensures block { IfOk result (λ block. block ≡ block_of size b (size - 1 - b) (drawn_body draws.old.state)) }
    ensures state { OnOk result (draws.new.state ≡ behind (size - 1 - b) (drawn_body draws.old.state)) }
{
    let label = label_of(alloc, b)?;
    let freq = draws.draw(FREQUENCY) + 1;
    let ops = drawn_ops(alloc, draws)?;
    Ok(ended(draws, size, size - 1 - b, label, freq, ops))
}

/// Adds block `b` of so many, behind the first.
fn push_block(
    alloc: Global,
    draws: &mut Draws,
    blocks: &mut Items<Block>,
    size: u32,
    b: u32,
) -> Result<(), NoMemory>
    requires place { b < size }
    requires few { size ≤ BLOCKS }
    ensures block { OnOk result (blocks.new ≡ blocks.old ++ block_of size b (size - 1 - b) (drawn_body draws.old.state) ∷ []) }
    ensures state { OnOk result (draws.new.state ≡ behind (size - 1 - b) (drawn_body draws.old.state)) }
{
    let block = drawn_block(alloc, draws, size, b)?;
    blocks.push(block)?;
    Ok(())
}

/// All blocks of a function of so many, by its seed.
pub(crate) fn all_blocks(alloc: Global, seed: u64, size: u32) -> Result<Items<Block>, NoMemory>
    requires some { 0 < size }
    requires few { size ≤ BLOCKS }
    ensures { IfOk result (λ blocks. blocks ≡ all_blocks seed size) }
{
    let mut draws = Draws { state: seed };
    let mut blocks = Items::new(alloc);
    blocks.push(first_block(alloc, &mut draws, size)?)?;
    for b in 1..size {
        push_block(alloc, &mut draws, &mut blocks, size, b)?;
    }
    Ok(blocks)
}
