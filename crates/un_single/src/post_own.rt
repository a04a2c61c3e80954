//! What is posted of an operation's own variables: they are zeros where it is not active, and it issues within its block.

ghost use Rattle.std.specs.Prelude.{◌≡◌, [], ◌∷◌, ◌++◌, IfOk, OnOk};
ghost use Rattle.std.specs.Option.{option_to_list};
ghost use Rattle.un_prop.specs.declared.act.Act.TheVariants as activity;
ghost use Rattle.un_prop.specs.declared.act.At.TheVariants as moment;
ghost use Rattle.un_kinds.specs.Constraints as constraint;
ghost use Rattle.un_sites.specs.Places.{registers_at};
ghost use Rattle.un_sites.specs.Postings.{zeros_of, issue_by, issues_in};
ghost use Rattle.un_sites.specs.Sites.{place_of, definers_in};

use std::alloc::{AllocError, Global};
use un_base::ids::VarId;
use un_base::memory_error::NoMemory;
use un_ir::extended::ExtKind;
use un_ir::function::Term;
use un_kinds::make_alt::make_zeros;
use un_kinds::make_prec::{make_before, make_inside, make_last};
use un_kinds::props::Props;
use un_kinds::vars::Naming;
use un_lists::items::Items;
use un_prop::act::{Act, At};
use un_sites::sites::{Site, Spot, registers_at};

/// The variables of an optional operation but that of its instruction.
fn idle_vars(alloc: Global, sites: &[Site<'_>], p: &Spot<'_>) -> Result<Items<VarId>, AllocError>
    ensures { IfOk result (λ vs. vs ≡ option_to_list p.now.vars.now.cycle
        ++ (p.now.vars.now.choices ++ registers_at (definers_in sites.now) p.now.it.now.results)) }
{
    let mut vars = Vec::new(alloc);
    p.vars.cycle.add_to(&mut vars)?;
    p.vars.choices.add_to(&mut vars)?;
    let regs = registers_at(alloc, sites, p.it.results.as_slice())?;
    regs.add_to(&mut vars)?;
    Ok(Items::from_vec(vars))
}

/// An operation that is never active has cycle 0.
fn post_never(props: &mut Props, at: VarId) -> Result<(), NoMemory>
    ensures { OnOk result (props.new ≡ props.old
        ++ constraint.Before (moment.Var at) activity.Always (moment.Const 0) activity.Always 0 ∷ []) }
{
    let made = make_before(
        props.alloc(),
        At::Var(at),
        Act::Always,
        At::Const(0),
        Act::Always,
        0,
    )?;
    props.push(made)
}

/// An optional operation that is not active has only zeros.
fn post_idle(props: &mut Props, instr: VarId, others: Items<VarId>) -> Result<(), NoMemory>
    ensures { OnOk result (props.new ≡ props.old ++ constraint.Zeros instr others ∷ []) }
{
    let made = make_zeros(props.alloc(), instr, others)?;
    props.push(made)
}

/// An operation that is not active has only zeros.
pub(crate) fn post_zeros(
    props: &mut Props,
    sites: &[Site<'_>],
    p: &Spot<'_>,
) -> Result<(), NoMemory>
    ensures { OnOk result (props.new ≡ props.old ++ zeros_of (definers_in sites.now) (place_of p.now)) }
{
    if p.it.kind.is_fall() {
        if let Some(at) = p.vars.cycle {
            post_never(props, at)?;
            return Ok(());
        }
    }
    match p.vars.instr {
        None => Ok(()),
        Some(instr) => {
            let others = idle_vars(props.alloc(), sites, p)?;
            post_idle(props, instr, others)
        }
    }
}

/// A terminator issues in the block's last cycle.
fn post_last(props: &mut Props, at: VarId, end: VarId) -> Result<(), NoMemory>
    ensures { OnOk result (props.new ≡ props.old ++ constraint.Last at end ∷ []) }
{
    let made = make_last(props.alloc(), at, end)?;
    props.push(made)
}

/// An operation issues within its block.
fn post_inside(props: &mut Props, at: VarId, on: Act, end: VarId) -> Result<(), NoMemory>
    ensures { OnOk result (props.new ≡ props.old ++ constraint.Inside at on end ∷ []) }
{
    let made = make_inside(props.alloc(), at, on, end)?;
    props.push(made)
}

/// When an operation with this cycle issues.
fn post_issue_at(
    props: &mut Props,
    kind: &ExtKind,
    on: Act,
    end: VarId,
    at: VarId,
) -> Result<(), NoMemory>
    ensures { OnOk result (props.new ≡ props.old ++ issue_by kind.now on end (Some at)) }
{
    match kind {
        ExtKind::End(Term::Fall) => Ok(()),
        ExtKind::End(Term::Jump(_) | Term::Branch { .. } | Term::Ret(_)) => {
            post_last(props, at, end)
        }
        ExtKind::In
        | ExtKind::Out
        | ExtKind::Body(_)
        | ExtKind::Copy(_)
        | ExtKind::Enter
        | ExtKind::Leave => post_inside(props, at, on, end),
    }
}

/// When an operation issues.
pub(crate) fn post_issue(props: &mut Props, p: &Spot<'_>) -> Result<(), NoMemory>
    ensures { OnOk result (props.new ≡ props.old ++ issues_in (place_of p.now)) }
{
    match p.vars.cycle {
        None => Ok(()),
        Some(at) => { post_issue_at(props, &p.it.kind, p.act(), p.end, at) }
    }
}
