//! Copies.

ghost use Rattle.std.specs.Prelude.{◌≡◌, ◌+◌, ◌++◌, [], ◌∷◌, map, IfOk, OnOk, None};
ghost use Rattle.std.specs.List.{range_with_len};
ghost use Rattle.un_ir.specs.Extended.{temp};
ghost use Rattle.un_ir.specs.ExtendOf.{frame_op, with_op, with_copy, with_copies, copy_count};

use std::alloc::Global;
use un_base::ids::TempId;
use un_base::memory_error::NoMemory;
use un_base::numbers::later;
use un_ir::extended::{ExtKind, ExtOp, Growth, NodeCopy, Operand, Sort};
use un_ir::function::Kind;
use un_lists::items::Items;

/// These items, as a list of their own.
pub fn copied<T: Copy>(alloc: Global, items: &[T]) -> Result<Items<T>, NoMemory>
    ensures { IfOk result (λ own. own ≡ items.now) }
{
    let own = Vec::from_slice(alloc, items)?;
    Ok(Items::from_vec(own))
}

/// So many temporaries from number `first` on, behind those so far.
pub(crate) fn push_temps(temps: &mut Items<TempId>, first: u32, count: u32) -> Result<(), NoMemory>
    ensures { OnOk result (temps.new ≡ temps.old ++ map temp (range_with_len first count)) }
{
    for k in 0..count {
        temps.push(TempId(later(first, k)?))?;
    }
    Ok(())
}

/// Adds an operation of these parts.
pub fn add_op(
    g: &mut Growth,
    kind: ExtKind,
    operands: Items<Operand>,
    results: Items<TempId>,
) -> Result<(), NoMemory>
    ensures { OnOk result (g.new ≡ with_op g.old (record { kind = kind; operands = operands; results = results })) }
{
    g.ops.push(ExtOp {
        kind,
        operands,
        results,
    })?;
    Ok(())
}

/// Adds the operation that moves the stack pointer, Enter or Leave.
pub(crate) fn push_frame_op(alloc: Global, g: &mut Growth, kind: ExtKind) -> Result<(), NoMemory>
    ensures { OnOk result (g.new ≡ with_op g.old (frame_op kind)) }
{
    add_op(g, kind, Items::new(alloc), Items::new(alloc))
}

/// An operand alone, which may read these temporaries.
fn reader(alloc: Global, alts: &[TempId]) -> Result<Items<Operand>, NoMemory>
    ensures { IfOk result (λ operands. operands ≡ record { alts = alts.now; home = None } ∷ []) }
{
    let alts = copied(alloc, alts)?;
    let mut operands = Items::new(alloc);
    operands.push(Operand { alts, home: None })?;
    Ok(operands)
}

/// Adds a copy that may read these temporaries.
fn push_copy(alloc: Global, g: &mut Growth, node: NodeCopy, alts: &[TempId]) -> Result<(), NoMemory>
    ensures { OnOk result (g.new ≡ with_copy node alts.now g.old) }
{
    let n = g.next;
    g.next = later(n, 1)?;
    let operands = reader(alloc, alts)?;
    let results = copied(alloc, &[TempId(n)])?;
    add_op(g, ExtKind::Copy(node), operands, results)
}

/// Adds two copies: the first may read these temporaries, and the second the first besides.
fn push_two_copies(
    alloc: Global,
    g: &mut Growth,
    first: NodeCopy,
    second: NodeCopy,
    alts: &[TempId],
) -> Result<(), NoMemory>
    ensures { OnOk result (g.new ≡ with_copy second (alts.now ++ temp g.old.next ∷ []) (with_copy first alts.now g.old)) }
{
    let mut more = copied(alloc, alts)?;
    more.push(TempId(g.next))?;
    push_copy(alloc, g, first, alts)?;
    push_copy(alloc, g, second, more.as_slice())
}

/// Adds the copies of a value of this sort, or of an operand that reads it, where there are any: the first may read these
/// temporaries, and the second the first besides.
pub(crate) fn push_copies(
    alloc: Global,
    g: &mut Growth,
    first: NodeCopy,
    second: NodeCopy,
    sort: Sort,
    alts: &[TempId],
) -> Result<(), NoMemory>
    ensures { OnOk result (g.new ≡ with_copies first second sort.kind sort.copied alts.now g.old) }
{
    if !sort.copied {
        return Ok(());
    }
    match sort.kind {
        Kind::General => push_copy(alloc, g, first, alts),
        Kind::Pred => push_two_copies(alloc, g, first, second, alts),
    }
}

/// How many copies there are of a value of this sort, and of an operand that reads it.
pub fn copy_count(sort: Sort) -> u32
    ensures { result ≡ copy_count sort }
{
    if !sort.copied {
        return 0;
    }
    match sort.kind {
        Kind::General => 1,
        Kind::Pred => 2,
    }
}
