//! What is posted of spaces: an operand and a copy's result lie in the space of the operation's instruction.

ghost use Rattle.std.specs.Prelude.{◌≡◌, [], ◌∷◌, ◌++◌, IfOk, OnOk, map, None};
ghost use Rattle.un_base.specs.declared.ids.VarId.{VarId};
ghost use Rattle.un_kinds.specs.Constraints as constraint;
ghost use Rattle.un_sites.specs.Places.{registers_at};
ghost use Rattle.un_sites.specs.Postings.{operand_sets, result_sets, registers_of, space_by, results_in};
ghost use Rattle.un_sites.specs.Sites.{place_of, definers_in};

use std::alloc::Global;
use un_alt::span::Span;
use un_base::ids::{TempId, VarId};
use un_base::memory_error::NoMemory;
use un_ir::extended::ExtKind;
use un_kinds::make_alt::make_spaces;
use un_kinds::props::Props;
use un_lists::items::Items;
use un_model::instructions::{instruction, space_given, space_read};
use un_prop::act::Act;
use un_sites::numbers::number_count;
use un_sites::sites::{Site, Spot, registers_of, site_of};
use un_sites::space_sets::space_span;

/// The registers that each number of an operation lets its operand at place `j` have.
fn operand_sets(alloc: Global, slots: u32, kind: &ExtKind, j: u32) -> Result<Items<Span>, NoMemory>
    ensures { IfOk result (λ sets. sets ≡ operand_sets slots kind.now j) }
{
    let mut sets = Items::new(alloc);
    for n in 0..number_count(kind) {
        let set = space_span(slots, space_read(instruction(kind, n), j))?;
        sets.push(set)?;
    }
    Ok(sets)
}

/// The registers that each number of an operation lets its result have.
fn result_sets(alloc: Global, slots: u32, kind: &ExtKind) -> Result<Items<Span>, NoMemory>
    ensures { IfOk result (λ sets. sets ≡ result_sets slots kind.now) }
{
    let mut sets = Items::new(alloc);
    for n in 0..number_count(kind) {
        let set = space_span(slots, space_given(instruction(kind, n)))?;
        sets.push(set)?;
    }
    Ok(sets)
}

/// An operand lies in the space of the operation's instruction.
fn post_in_space(
    props: &mut Props,
    slots: u32,
    kind: &ExtKind,
    on: Act,
    j: u32,
    choice: Option<VarId>,
    alts: &[Site<'_>],
) -> Result<(), NoMemory>
    ensures { OnOk result (props.new ≡ props.old
        ++ constraint.Spaces on choice (registers_of (definers_in alts.now)) (operand_sets slots kind.now j) ∷ []) }
{
    let regs = registers_of(props.alloc(), alts)?;
    let sets = operand_sets(props.alloc(), slots, kind, j)?;
    let made = make_spaces(props.alloc(), on, choice, regs, sets)?;
    props.push(made)
}

/// An operand lies in the space of the operation's instruction, but at a block's end in any.
pub(crate) fn post_space(
    props: &mut Props,
    slots: u32,
    kind: &ExtKind,
    on: Act,
    j: u32,
    choice: Option<VarId>,
    alts: &[Site<'_>],
) -> Result<(), NoMemory>
    ensures { OnOk result (props.new ≡ props.old ++ space_by slots kind.now on j choice (registers_of (definers_in alts.now))) }
{
    match kind {
        ExtKind::Out => Ok(()),
        ExtKind::In
        | ExtKind::Body(_)
        | ExtKind::End(_)
        | ExtKind::Copy(_)
        | ExtKind::Enter
        | ExtKind::Leave => post_in_space(props, slots, kind, on, j, choice, alts),
    }
}

/// A copy's result lies in the space of its instruction.
fn post_result(
    props: &mut Props,
    slots: u32,
    kind: &ExtKind,
    on: Act,
    reg: VarId,
) -> Result<(), NoMemory>
    ensures { OnOk result (props.new ≡ props.old ++ constraint.Spaces on None (reg ∷ []) (result_sets slots kind.now) ∷ []) }
{
    let mut regs = Items::new(props.alloc());
    regs.push(reg)?;
    let sets = result_sets(props.alloc(), slots, kind)?;
    let made = make_spaces(props.alloc(), on, None, regs, sets)?;
    props.push(made)
}

/// The results of a copy lie in the space of its instruction.
fn post_results_of(
    props: &mut Props,
    slots: u32,
    sites: &[Site<'_>],
    kind: &ExtKind,
    on: Act,
    xs: &[TempId],
) -> Result<(), NoMemory>
    ensures { OnOk result (props.new ≡ props.old ++ map
        (λ (r : VarId). constraint.Spaces on None (r ∷ []) (result_sets slots kind.now)) (registers_at (definers_in sites.now) xs.now)) }
{
    for x in xs {
        let site = site_of(sites, *x);
        post_result(props, slots, kind, on, site.reg)?;
    }
    Ok(())
}

/// A copy's results lie in the space of its instruction; what the source defines has a domain in its space.
pub(crate) fn post_results(
    props: &mut Props,
    slots: u32,
    sites: &[Site<'_>],
    p: &Spot<'_>,
) -> Result<(), NoMemory>
    ensures { OnOk result (props.new ≡ props.old ++ results_in slots (definers_in sites.now) (place_of p.now)) }
{
    match &p.it.kind {
        ExtKind::Copy(_) => {
            let on = p.act();
            post_results_of(props, slots, sites, &p.it.kind, on, p.it.results.as_slice())
        }
        ExtKind::In | ExtKind::Out | ExtKind::Body(_) | ExtKind::End(_) => Ok(()),
        ExtKind::Enter | ExtKind::Leave => Ok(()),
    }
}
