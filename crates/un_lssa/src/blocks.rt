//! Blocks of a linear function.

ghost use Rattle.std.specs.Prelude.{◌≡◌, ◌+◌, ◌<◌, ◌≤◌, ◌^◌, ◌++◌, [], ◌∷◌, length, replicate, IfOk, OnOk, All};
ghost use Rattle.un_isa.specs.Registers.{callee_saved};
ghost use Rattle.un_ir.specs.LinearOf.{first_temps, live_at, live_after, in_op, body_ops, current_after, end_ops, out_op, past_all};
ghost use Rattle.un_ir.specs.LinearOf.{linear_ops, linear_block, linear_blocks, past_block};
ghost use Rattle.un_ir.specs.declared.function.Block.{Block};
ghost use Rattle.un_lssa.specs.Making.{past_blocks};

use crate::names::{assign_all, live_after, live_at};
use crate::ops::{push_body, push_end, push_in, push_out};
use std::alloc::Global;
use un_base::ids::NameId;
use un_base::memory_error::NoMemory;
use un_ir::extended::{ExtBlock, ExtOp, LiveSets, LssaBlock};
use un_ir::function::{Block, SrcOp, Term};
use un_isa::table::Table;
use un_lists::items::Items;

/// A block of a linear function whose temporaries are numbered.
#[derive(Drop)]
pub struct Numbered {
    /// The block, whose temporaries have their numbers in the whole function.
    pub block: LssaBlock,
    /// The number of the temporary that comes next behind the block.
    pub next: u32,
}

/// A block's values at its start, of which the first is temporary `n`, and its operations behind them. Answers the next
/// temporary.
#[tactic(auto, using(crate::proofs::Operands::past_all_grows))]
fn push_start(
    alloc: Global,
    t: &Table,
    ops: &mut Items<ExtOp>,
    current: &mut [u32],
    n: u32,
    count: u32,
    source: &[SrcOp],
) -> Result<u32, NoMemory>
    requires { past_all (n + count) source.now < 2 ^ 32 }
    ensures ops { OnOk result (ops.new ≡ ops.old ++ in_op n count ∷ body_ops t.now current.old (n + count) source.now) }
    ensures current { OnOk result (current.new ≡ current_after current.old (n + count) source.now) }
    ensures next { IfOk result (λ next. next ≡ past_all (n + count) source.now) }
{
    push_in(alloc, ops, n, count)?;
    push_body(alloc, t, ops, current, n + count, source)
}

/// The terminator and the values at the block's end, behind the operations. The first saved value is temporary `saved`.
fn finish(
    alloc: Global,
    t: &Table,
    registers: &[u32],
    ops: &mut Items<ExtOp>,
    current: &[u32],
    saved: u32,
    live_out: &[NameId],
    term: Term,
) -> Result<(), NoMemory>
    requires kept { registers.now ≡ callee_saved t.now }
    requires fit { saved + length registers.now + 1 < 2 ^ 32 }
    ensures { OnOk result (ops.new ≡ ops.old ++ (end_ops current.now (saved + length registers.now) term
        ++ out_op t.now current.now saved live_out.now term ∷ [])) }
{
    let link = saved + registers.len() as u32;
    push_end(alloc, ops, current, link, term)?;
    push_out(alloc, t, registers, ops, current, saved, live_out, term)
}

/// The operations of a block whose first temporary is `n`. Answers the next temporary. `current` has a place for each name of
/// the function.
fn push_ops(
    alloc: Global,
    t: &Table,
    registers: &[u32],
    ops: &mut Items<ExtOp>,
    current: &mut [u32],
    n: u32,
    live_in: &[NameId],
    live_out: &[NameId],
    block: &Block,
) -> Result<u32, NoMemory>
    requires kept { registers.now ≡ callee_saved t.now }
    requires empty { ops.old ≡ [] }
    requires fresh { current.old ≡ replicate (length current.old) 0 }
    requires room { n + (length live_in.now + length registers.now + 1) < 2 ^ 32 }
    requires fit { past_all (n + (length live_in.now + length registers.now + 1)) block.now.ops < 2 ^ 32 }
    ensures ops { OnOk result (ops.new ≡ linear_ops t.now (length current.old) n live_in.now live_out.now block.now) }
    ensures few { OnOk result (length ops.new ≤ length block.now.ops + 3) }
    ensures next { IfOk result (λ next. next ≡ past_all (n + (length live_in.now + length registers.now + 1)) block.now.ops) }
{
    let saved = n + live_in.len() as u32;
    let count = live_in.len() as u32 + registers.len() as u32 + 1;
    assign_all(current, n, live_in);
    let source = block.ops.as_slice();
    let next = push_start(alloc, t, ops, current, n, count, source)?;
    finish(
        alloc, t, registers, ops, current, saved, live_out, block.term,
    )?;
    Ok(next)
}

/// The operations of a block whose first temporary is `n`, of a function with so many names. Answers the next temporary.
fn block_ops(
    alloc: Global,
    t: &Table,
    registers: &[u32],
    ops: &mut Items<ExtOp>,
    names: usize,
    n: u32,
    live_in: &[NameId],
    live_out: &[NameId],
    block: &Block,
) -> Result<u32, NoMemory>
    requires kept { registers.now ≡ callee_saved t.now }
    requires empty { ops.old ≡ [] }
    requires room { n + (length live_in.now + length registers.now + 1) < 2 ^ 32 }
    requires fit { past_all (n + (length live_in.now + length registers.now + 1)) block.now.ops < 2 ^ 32 }
    ensures ops { OnOk result (ops.new ≡ linear_ops t.now names n live_in.now live_out.now block.now) }
    ensures few { OnOk result (length ops.new ≤ length block.now.ops + 3) }
    ensures next { IfOk result (λ next. next ≡ past_all (n + (length live_in.now + length registers.now + 1)) block.now.ops) }
{
    let mut current = vec![in alloc; 0; names]?;
    push_ops(
        alloc,
        t,
        registers,
        ops,
        &mut current,
        n,
        live_in,
        live_out,
        block,
    )
}

/// The block at place `b` of a function with so many names, whose first temporary is `n`.
fn linear_block(
    alloc: Global,
    t: &Table,
    registers: &[u32],
    live: &LiveSets,
    names: usize,
    b: usize,
    n: u32,
    block: &Block,
) -> Result<Numbered, NoMemory>
    requires kept { registers.now ≡ callee_saved t.now }
    requires place { b < 2 ^ 32 }
    requires names { names < 2 ^ 32 }
    requires few { length block.now.ops < 2 ^ 30 }
    requires fit { past_block t.now live.now.at_start b n block.now < 2 ^ 32 }
    ensures block { IfOk result (λ r. r.block ≡ linear_block t.now names live.now.at_start b n block.now) }
    ensures next { IfOk result (λ r. r.next ≡ past_block t.now live.now.at_start b n block.now) }
{
    let names_in = live_at(live, b);
    let live_out = live_after(alloc, live, names, b, &block.term)?;
    let mut ops = Items::new(alloc);
    let next = block_ops(
        alloc,
        t,
        registers,
        &mut ops,
        names,
        n,
        names_in,
        live_out.as_slice(),
        block,
    )?;
    let copied = Vec::from_slice(alloc, names_in)?;
    let live_in = Items::from_vec(copied);
    let horizon = 2 * ops.len() as u32 + 2;
    Ok(Numbered {
        block: LssaBlock {
            freq: block.freq,
            label: block.label,
            live_in,
            live_out,
            ops,
            horizon,
        },
        next,
    })
}

/// The blocks of a function with so many names.
#[tactic(auto, using(crate::proofs::BlockLaws::blocks_end))]
pub fn linear_blocks(
    alloc: Global,
    t: &Table,
    registers: &[u32],
    live: &LiveSets,
    names: usize,
    blocks: &[Block],
) -> Result<Items<LssaBlock>, NoMemory>
    requires kept { registers.now ≡ callee_saved t.now }
    requires names { names < 2 ^ 32 }
    requires blocks { length blocks.now < 2 ^ 32 }
    requires few { All (λ (block : Block). length block.ops < 2 ^ 30) blocks.now }
    requires fit { past_blocks t.now live.now.at_start 0 0 blocks.now < 2 ^ 32 }
    ensures { IfOk result (λ bs. bs ≡ linear_blocks t.now names live.now.at_start 0 0 blocks.now) }
{
    let mut made = Items::new(alloc);
    let mut n = 0;
    for (b, block) in blocks.iter().enumerate() {
        let Numbered { block, next } = linear_block(alloc, t, registers, live, names, b, n, block)?;
        made.push(block)?;
        n = next;
    }
    Ok(made)
}
