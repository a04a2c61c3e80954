//! Values with their copies, and operands that read them.

ghost use Rattle.std.specs.Prelude.{◌≡◌, ◌++◌, [], ◌∷◌, ◌<◌, map, length, slice_get, IfOk, OnOk};
ghost use Rattle.std.specs.List.{range_with_len};
ghost use Rattle.un_ir.specs.Extended.{temp};
ghost use Rattle.un_ir.specs.ExtendOf.{with_value, with_values, with_operand, chosen_from, with_operand_by, alternatives, with_operands};
ghost use Rattle.un_ir.specs.ExtendOf.{new_operands, copy_count};

use crate::copies::{copied, copy_count, push_copies, push_temps};
use std::alloc::Global;
use un_base::ids::TempId;
use un_base::memory_error::NoMemory;
use un_base::numbers::later;
use un_ir::extended::{Growth, NodeCopy, Operand, Sort, Value, first_of};
use un_lists::items::Items;

/// The temporary `n` of a value of this sort and its own copies, which begin with temporary `next`.
fn own_temps(alloc: Global, n: u32, sort: Sort, next: u32) -> Result<Items<TempId>, NoMemory>
    ensures { IfOk result (λ own. own ≡ temp n ∷ map temp (range_with_len next (copy_count sort))) }
{
    let mut own = Items::new(alloc);
    own.push(TempId(n))?;
    push_temps(&mut own, next, copy_count(sort))?;
    Ok(own)
}

/// A value with temporary `n`. Its own copies begin with temporary `next`.
fn new_value(alloc: Global, n: u32, sort: Sort, next: u32) -> Result<Value, NoMemory>
    ensures { IfOk result (λ v. v ≡ (let own = temp n ∷ map temp (range_with_len next (copy_count sort)) in
        record { own = own; all = own; sort = sort })) }
{
    let own = own_temps(alloc, n, sort, next)?;
    let all = copied(alloc, own.as_slice())?;
    Ok(Value { own, all, sort })
}

/// Adds a value with temporary `n`, with its copies.
fn push_value(alloc: Global, g: &mut Growth, n: u32, sort: Sort) -> Result<(), NoMemory>
    ensures { OnOk result (g.new ≡ with_value n sort g.old) }
{
    let value = new_value(alloc, n, sort, g.next)?;
    g.values.push(value)?;
    push_copies(alloc, g, NodeCopy::D, NodeCopy::D2, sort, &[TempId(n)])
}

/// Adds values of these sorts whose temporaries begin with `first`, each with its copies.
pub(crate) fn push_values(
    alloc: Global,
    g: &mut Growth,
    first: u32,
    sorts: &[Sort],
) -> Result<(), NoMemory>
    ensures { OnOk result (g.new ≡ with_values first sorts.now g.old) }
{
    let mut n = first;
    for sort in sorts {
        push_value(alloc, g, n, *sort)?;
        n = later(n, 1)?;
    }
    Ok(())
}

/// The copies of an operand that reads a value, behind the value's temporaries so far. The next temporary is `next`.
fn all_temps(alloc: Global, v: &Value, next: u32) -> Result<Items<TempId>, NoMemory>
    ensures { IfOk result (λ all. all ≡ v.now.all ++ map temp (range_with_len next (copy_count v.now.sort))) }
{
    let mut all = copied(alloc, v.all.as_slice())?;
    push_temps(&mut all, next, copy_count(v.sort))?;
    Ok(all)
}

/// The value with the copies of an operand that reads it. The next temporary is `next`.
fn read_once_more(alloc: Global, v: &Value, next: u32) -> Result<Value, NoMemory>
    ensures { IfOk result (λ w. w ≡ record v.now { all = v.now.all ++ map temp (range_with_len next (copy_count v.now.sort)) }) }
{
    let own = copied(alloc, v.own.as_slice())?;
    let all = all_temps(alloc, v, next)?;
    Ok(Value {
        own,
        all,
        sort: v.sort,
    })
}

/// Adds the copies of an operand that reads this value, which has number `x`, and answers all its alternatives.
fn read_value(alloc: Global, g: &mut Growth, x: usize) -> Result<Items<TempId>, NoMemory>
    requires { x < length g.old.values }
    ensures grown { OnOk result (g.new ≡ with_operand_by x (slice_get g.old.values x) g.old) }
    ensures alternatives { IfOk result (λ alts. alts ≡ alternatives
        (slice_get (let grown = with_operand_by x (slice_get g.old.values x) g.old in grown.values) x)) }
{
    let v = read_once_more(alloc, g.values.get(x), g.next)?;
    push_copies(
        alloc,
        g,
        NodeCopy::U,
        NodeCopy::U2,
        v.sort,
        v.own.as_slice(),
    )?;
    g.values.set(x, v);
    copied(alloc, g.values.get(x).all.as_slice())
}

/// Adds the copies of an operand, and answers the operand with its alternatives.
fn push_operand(alloc: Global, g: &mut Growth, x: &Operand) -> Result<Operand, NoMemory>
    ensures grown { OnOk result (g.new ≡ with_operand x.now g.old) }
    ensures operand { IfOk result (λ y. y ≡ chosen_from x.now (with_operand x.now g.old)) }
{
    let first = first_of(x.alts.as_slice()) as usize;
    if first >= g.values.len() {
        return Ok(Operand {
            alts: Items::new(alloc),
            home: x.home,
        });
    }
    let alts = read_value(alloc, g, first)?;
    Ok(Operand { alts, home: x.home })
}

/// Adds the copies of operands, and the operands with their alternatives behind those so far.
pub fn push_operands(
    alloc: Global,
    operands: &mut Items<Operand>,
    g: &mut Growth,
    xs: &[Operand],
) -> Result<(), NoMemory>
    ensures grown { OnOk result (g.new ≡ with_operands xs.now g.old) }
    ensures operands { OnOk result (operands.new ≡ operands.old ++ new_operands xs.now g.old) }
{
    for x in xs {
        let operand = push_operand(alloc, g, x)?;
        operands.push(operand)?;
    }
    Ok(())
}
