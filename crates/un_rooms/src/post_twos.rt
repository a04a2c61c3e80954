//! What is posted of each two operands of an operation of the source: where they read different values, they have different
//! registers.

ghost use Rattle.std.specs.Prelude.{◌≡◌, ◌+◌, ◌<◌, [], ◌∷◌, ◌++◌, IfOk, OnOk, drop, length, map, slice_get, Some, if◌then◌else◌};
ghost use Rattle.un_model.specs.Pairs.{joined, places_from};
ghost use Rattle.un_kinds.specs.Constraints as constraint;
ghost use Rattle.un_sites.specs.Places.{definers_of, places_of};
ghost use Rattle.un_sites.specs.Rooms.{one_value, operand_side, two_at, two_by, twos_in, twos_of};
ghost use Rattle.un_sites.specs.Sites.{place_of, definers_in};
ghost use Rattle.un_ir.specs.Kinds.{is_source};
ghost use Rattle.un_rect.specs.Operands.{side};

use std::alloc::Global;
use un_base::ids::{TempId, VarId};
use un_base::memory_error::NoMemory;
use un_base::numbers::number;
use un_ir::extended::{ExtKind, Operand, first_of};
use un_isa::op::Op;
use un_kinds::make_rect::{OperandFields, make_operands};
use un_kinds::props::Props;
use un_model::instructions::space_read;
use un_model::model::Model;
use un_sites::sites::{Site, Spot, choice_at, registers_at};
use un_sites::space_sets::space_registers;

/// An operand of an operation, with where it stands and the variable of its choice.
#[derive(Clone, Copy)]
pub struct Read<'a> {
    /// The place of the operand among those of its operation, from 0.
    pub at: u32,
    /// The operand, with its alternatives and its home.
    pub it: &'a Operand,
    /// The variable of its choice; None where it has none.
    pub choice: Option<VarId>,
}

/// Whether two operands read one value.
fn one_value(a: &Operand, b: &Operand) -> bool
    ensures { result ≡ one_value a.now b.now }
{
    first_of(a.alts.as_slice()) == first_of(b.alts.as_slice())
}

/// An operand with this choice of an instruction, with the registers of the space that is asked for.
fn operand_fields(
    alloc: Global,
    slots: u32,
    sites: &[Site<'_>],
    op: Op,
    read: Read<'_>,
    choice: VarId,
) -> Result<OperandFields, NoMemory>
    ensures { IfOk result (λ f. side f.choice f.regs f.allowed ≡
        operand_side slots (definers_in sites.now) op read.entry.at choice read.entry.it.now) }
{
    let regs = registers_at(alloc, sites, read.it.alts.as_slice())?;
    let allowed = space_registers(alloc, slots, space_read(Some(op), read.at))?;
    Ok(OperandFields {
        choice,
        regs,
        allowed,
    })
}

/// Two operands of an operation, with these choices.
fn both_fields(
    alloc: Global,
    slots: u32,
    sites: &[Site<'_>],
    op: Op,
    a: Read<'_>,
    c: VarId,
    b: Read<'_>,
    d: VarId,
) -> Result<(OperandFields, OperandFields), NoMemory>
    ensures first { IfOk result (λ fs. side fs.0.choice fs.0.regs fs.0.allowed ≡
        operand_side slots (definers_in sites.now) op a.entry.at c a.entry.it.now) }
    ensures second { IfOk result (λ fs. side fs.1.choice fs.1.regs fs.1.allowed ≡
        operand_side slots (definers_in sites.now) op b.entry.at d b.entry.it.now) }
{
    let first = operand_fields(alloc, slots, sites, op, a, c)?;
    let second = operand_fields(alloc, slots, sites, op, b, d)?;
    Ok((first, second))
}

/// Two operands with these choices have different registers.
fn post_different(
    props: &mut Props,
    slots: u32,
    sites: &[Site<'_>],
    op: Op,
    a: Read<'_>,
    c: VarId,
    b: Read<'_>,
    d: VarId,
) -> Result<(), NoMemory>
    ensures { OnOk result (props.new ≡ props.old ++ constraint.Operands
        (operand_side slots (definers_in sites.now) op a.entry.at c a.entry.it.now)
        (operand_side slots (definers_in sites.now) op b.entry.at d b.entry.it.now) ∷ []) }
{
    let (first, second) = both_fields(props.alloc(), slots, sites, op, a, c, b, d)?;
    let made = make_operands(props.alloc(), first, second)?;
    props.push(made)
}

/// Two operands of an operation of the source have different registers, where both have choices.
fn post_two_by(
    props: &mut Props,
    slots: u32,
    sites: &[Site<'_>],
    kind: &ExtKind,
    a: Read<'_>,
    b: Read<'_>,
) -> Result<(), NoMemory>
    ensures { OnOk result (props.new ≡ props.old
        ++ two_by slots (definers_in sites.now) kind.now
        a.entry.at a.entry.it.now a.entry.choice b.entry.at b.entry.it.now b.entry.choice) }
{
    let ExtKind::Body(source) = kind else {
        return Ok(());
    };
    match a.choice {
        None => Ok(()),
        Some(c) => match b.choice {
            None => Ok(()),
            Some(d) => post_different(props, slots, sites, source.op, a, c, b, d),
        },
    }
}

/// The operand at a place of an operation.
fn read_at<'a>(p: &Spot<'a>, i: usize) -> Result<Read<'a>, NoMemory>
    requires { i < length p.now.it.now.operands }
    ensures at { IfOk result (λ r. r.at ≡ i) }
    ensures it { IfOk result (λ r. slice_get p.now.it.now.operands i ≡ Some r.it.now) }
    ensures choice { IfOk result (λ r. r.choice ≡ slice_get p.now.vars.now.choices i) }
{
    let at = number(i)?;
    Ok(Read {
        at,
        it: p.it.operands.get(i),
        choice: choice_at(p.vars.choices.as_slice(), at),
    })
}

/// Two operands of an operation that read different values have different registers.
fn post_two(
    props: &mut Props,
    slots: u32,
    sites: &[Site<'_>],
    kind: &ExtKind,
    a: Read<'_>,
    b: Read<'_>,
) -> Result<(), NoMemory>
    ensures { OnOk result (props.new ≡ props.old ++ (if one_value a.entry.it.now b.entry.it.now then [] else
        two_by slots (definers_in sites.now) kind.now a.entry.at a.entry.it.now a.entry.choice b.entry.at b.entry.it.now b.entry.choice)) }
{
    if one_value(a.it, b.it) {
        Ok(())
    } else {
        post_two_by(props, slots, sites, kind, a, b)
    }
}

/// What is posted of the operand at place `i` of an operation with each that follows it.
fn post_following(
    props: &mut Props,
    slots: u32,
    sites: &[Site<'_>],
    p: &Spot<'_>,
    i: usize,
    a: Read<'_>,
) -> Result<(), NoMemory>
    requires at { a.at ≡ i }
    requires choice { a.choice ≡ slice_get p.now.vars.now.choices i }
    requires within { i < length p.now.it.now.operands }
    ensures { OnOk result (props.new ≡ props.old ++ joined (places_from
        (two_at slots (definers_in sites.now) (place_of p.now) i a.entry.it.now) (i + 1) (drop (i + 1) p.now.it.now.operands))) }
{
    for j in i + 1..p.it.operands.len() {
        let b = read_at(p, j)?;
        post_two(props, slots, sites, &p.it.kind, a, b)?;
    }
    Ok(())
}

/// What is posted of each two operands of an operation.
fn post_each_two(
    props: &mut Props,
    slots: u32,
    sites: &[Site<'_>],
    p: &Spot<'_>,
) -> Result<(), NoMemory>
    ensures { OnOk result (props.new ≡ props.old ++ twos_in slots (definers_in sites.now) (place_of p.now)) }
{
    for i in 0..p.it.operands.len() {
        let a = read_at(p, i)?;
        post_following(props, slots, sites, p, i, a)?;
    }
    Ok(())
}

/// What is posted of each two operands of an operation: nothing but of those of the source.
fn post_twos_in(
    props: &mut Props,
    slots: u32,
    sites: &[Site<'_>],
    p: &Spot<'_>,
) -> Result<(), NoMemory>
    ensures { OnOk result (props.new ≡ props.old ++ twos_in slots (definers_in sites.now) (place_of p.now)) }
{
    if p.it.kind.is_source() {
        post_each_two(props, slots, sites, p)
    } else {
        Ok(())
    }
}

/// What is posted of each two operands of one operation after another.
pub fn post_twos_at(
    props: &mut Props,
    slots: u32,
    sites: &[Site<'_>],
    spots: &[Spot<'_>],
) -> Result<(), NoMemory>
    ensures { OnOk result (props.new ≡ props.old
        ++ joined (map (twos_in slots (definers_in sites.now)) (map place_of spots.now))) }
{
    for p in spots {
        post_twos_in(props, slots, sites, p)?;
    }
    Ok(())
}

/// What is posted of each two operands of all operations of a model, of which these are the tables.
pub fn post_twos(
    props: &mut Props,
    m: &Model,
    sites: &[Site<'_>],
    spots: &[Spot<'_>],
) -> Result<(), NoMemory>
    requires sites { definers_in sites.now ≡ definers_of m.now }
    requires spots { map place_of spots.now ≡ places_of m.now }
    ensures { OnOk result (props.new ≡ props.old ++ twos_of m.now) }
{
    post_twos_at(props, m.options.slots, sites, spots)
}
