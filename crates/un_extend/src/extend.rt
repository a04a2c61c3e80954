//! Making an extended function.

ghost use Rattle.std.specs.Prelude.{◌≡◌, ◌+◌, ◌*◌, ◌++◌, [], ◌∷◌, true, IfOk, OnOk};
ghost use Rattle.un_extend.specs.Choices.{HasAllChoices, KeepsOperations};
ghost use Rattle.un_extend.specs.Returns.{returns_by};
ghost use Rattle.un_extend.specs.Runs.{RunsAsLinear};
ghost use Rattle.un_ir.specs.Extended.{IsExtended, IsLinear};
ghost use Rattle.un_ir.specs.ExtendOf.{grown_block, with_ops, extended_blocks, extend_of};

use crate::copies::copied;
use crate::ops::{is_return, push_all_extended};
use std::alloc::Global;
use std::mem;
use un_base::memory_error::NoMemory;
use un_ir::extended::{Ext, ExtBlock, ExtKind, ExtOp, Growth, Lssa, LssaBlock};
use un_ir::function::Kind;
use un_lists::items::Items;

/// Whether a block with these operations returns.
fn has_return(ops: &[ExtOp]) -> bool
    ensures { result ≡ returns_by ops.now }
{
    for op in ops {
        if let ExtKind::End(term) = &op.kind {
            return is_return(*term);
        }
    }
    false
}

/// Adds the block's operations, extended, to a growth that has no operations yet.
fn grow_block(
    alloc: Global,
    g: &mut Growth,
    names: &[Kind],
    is_entry: bool,
    block: &LssaBlock,
) -> Result<(), NoMemory>
    requires { g.old.ops ≡ [] }
    ensures { OnOk result (g.new ≡ grown_block names.now is_entry g.old.values g.old.next block.now) }
{
    let saved = is_entry || has_return(block.ops.as_slice());
    push_all_extended(
        alloc,
        g,
        names,
        block.live_in.as_slice(),
        is_entry,
        saved,
        block.ops.as_slice(),
    )
}

/// The block with the operations that were added, which leave the growth, and the horizon that fits them.
fn with_ops(alloc: Global, g: &mut Growth, block: &LssaBlock) -> Result<ExtBlock, NoMemory>
    ensures block { IfOk result (λ b. b ≡ with_ops block.now g.old.ops) }
    ensures rest { OnOk result (g.new ≡ record g.old { ops = [] }) }
{
    let horizon = horizon_of(g.ops.len())?;
    let live_in = copied(alloc, block.live_in.as_slice())?;
    let live_out = copied(alloc, block.live_out.as_slice())?;
    let ops = mem::replace(&mut g.ops, Items::new(alloc));
    Ok(ExtBlock {
        freq: block.freq,
        label: block.label,
        live_in,
        live_out,
        ops,
        horizon,
    })
}

/// The horizon of a block of so many operations: one past the last of its cycles.
fn horizon_of(count: usize) -> Result<u32, NoMemory>
    ensures { IfOk result (λ h. h ≡ 2 * count + 2) }
{
    if count >= 0x7FFF_FFFF {
        return Err(NoMemory);
    }
    Ok(2 * count as u32 + 2)
}

/// Adds the block with its operations extended, and leaves in the growth the values and the number behind it.
fn push_block(
    alloc: Global,
    extended: &mut Items<ExtBlock>,
    g: &mut Growth,
    names: &[Kind],
    is_entry: bool,
    block: &LssaBlock,
) -> Result<(), NoMemory>
    requires { g.old.ops ≡ [] }
    ensures block { OnOk result (extended.new ≡ extended.old
        ++ (let grown = grown_block names.now is_entry g.old.values g.old.next block.now in with_ops block.now grown.ops ∷ [])) }
    ensures rest { OnOk result (g.new ≡
        (let grown = grown_block names.now is_entry g.old.values g.old.next block.now in record grown { ops = [] })) }
{
    grow_block(alloc, g, names, is_entry, block)?;
    let block = with_ops(alloc, g, block)?;
    extended.push(block)?;
    Ok(())
}

/// The blocks with their operations extended.
fn extended_all(
    alloc: Global,
    names: &[Kind],
    blocks: &[LssaBlock],
) -> Result<Items<ExtBlock>, NoMemory>
    ensures { IfOk result (λ bs. bs ≡ extended_blocks names.now true [] 0 blocks.now) }
{
    let mut extended = Items::new(alloc);
    let mut g = Growth {
        ops: Items::new(alloc),
        values: Items::new(alloc),
        next: 0,
    };
    let mut is_entry = true;
    for block in blocks {
        push_block(alloc, &mut extended, &mut g, names, is_entry, block)?;
        is_entry = false;
    }
    Ok(extended)
}

/// The extended function of a linear function: optional copies of values and operands, with the alternatives of each
/// operand. From each start it comes to what the linear function comes to, for any number of blocks entered. Its
/// mandatory operations are those of the linear function. It has all copies that there can be, and its operations may choose all
/// that they could.
///
/// # Errors
/// `NoMemory` where there is no memory for it, or where its temporaries are too many to be numbered.
pub fn extend(alloc: Global, l: &Lssa) -> Result<Ext, NoMemory>
    ensures extended { IfOk result (λ e. e ≡ extend_of l.now) }
    ensures runs { IsLinear l.now → IfOk result (RunsAsLinear l.now) }
    ensures kept { IsLinear l.now → IfOk result IsExtended }
    ensures operations { IsLinear l.now → IfOk result (KeepsOperations l.now) }
    ensures choices { IsLinear l.now → IfOk result HasAllChoices }
{
    let names = copied(alloc, l.names.as_slice())?;
    let blocks = extended_all(alloc, l.names.as_slice(), l.blocks.as_slice())?;
    Ok(Ext {
        table: l.table,
        names,
        blocks,
    })
}
