//! Propagators of choices and of the frame, from their fields.

ghost use Rattle.std.specs.Prelude.{◌≡◌, ◌++◌, IfOk, OnOk};
ghost use Rattle.un_prop.specs.Acts.{act_vars};
ghost use Rattle.un_alt.specs.Registers.{choice_vars};
ghost use Rattle.un_kinds.specs.Constraints as constraint;
ghost use Rattle.un_kinds.specs.Scopes.{IsScope, Makes, vars_in, own_var, enter_vars, use_vars, leave_vars};

use crate::any::AnyProp;
use crate::vars::{Naming, rising};
use std::alloc::{AllocError, Global};
use un_alt::chosen::Chosen;
use un_alt::frame::{Frame, FrameLeave, FrameOp, FrameUse};
use un_alt::home::Home;
use un_alt::same::Same;
use un_alt::spaces::Spaces;
use un_alt::span::Span;
use un_alt::zeros::Zeros;
use un_base::ids::VarId;
use un_base::memory_error::NoMemory;
use un_isa::reg::Reg;
use un_lists::items::Items;
use un_prop::act::Act;

/// The variables of an operand and the definers that it may choose.
fn chosen_vars(
    alloc: Global,
    user: Act,
    choice: VarId,
    alts: &Items<Act>,
) -> Result<Items<VarId>, AllocError>
    ensures { IfOk result (λ vs. IsScope vs (act_vars user ++ own_var choice ++ vars_in act_vars alts.now)) }
{
    let mut vars = Vec::with_capacity(alloc, alts.len().saturating_add(2))?;
    user.add_to(&mut vars)?;
    choice.add_to(&mut vars)?;
    alts.add_to(&mut vars)?;
    rising(alloc, vars)
}

/// An operand of `user` that chooses an active temporary.
pub fn make_chosen(
    alloc: Global,
    user: Act,
    choice: VarId,
    alts: Items<Act>,
) -> Result<AnyProp, NoMemory>
    ensures { IfOk result (Makes (constraint.Chosen user choice alts)) }
{
    let vars = chosen_vars(alloc, user, choice, &alts)?;
    let made = Chosen {
        user,
        choice,
        alts,
        vars,
    };
    Ok(AnyProp::Chosen(made))
}

/// The variables of an optional operation.
fn zeros_vars(
    alloc: Global,
    instr: VarId,
    others: &Items<VarId>,
) -> Result<Items<VarId>, AllocError>
    ensures { IfOk result (λ vs. IsScope vs (own_var instr ++ vars_in own_var others.now)) }
{
    let mut vars = Vec::with_capacity(alloc, others.len().saturating_add(1))?;
    instr.add_to(&mut vars)?;
    others.add_to(&mut vars)?;
    rising(alloc, vars)
}

/// An optional operation that has only zeros where it is not active.
pub fn make_zeros(alloc: Global, instr: VarId, others: Items<VarId>) -> Result<AnyProp, NoMemory>
    ensures { IfOk result (Makes (constraint.Zeros instr others)) }
{
    let vars = zeros_vars(alloc, instr, &others)?;
    let made = Zeros {
        instr,
        others,
        vars,
    };
    Ok(AnyProp::Zeros(made))
}

/// The variables of an operand or a result in a space.
fn spaces_vars(
    alloc: Global,
    on: Act,
    choice: Option<VarId>,
    regs: &Items<VarId>,
) -> Result<Items<VarId>, AllocError>
    ensures { IfOk result (λ vs. IsScope vs (act_vars on ++ choice_vars choice ++ vars_in own_var regs.now)) }
{
    let mut vars = Vec::with_capacity(alloc, regs.len().saturating_add(2))?;
    on.add_to(&mut vars)?;
    choice.add_to(&mut vars)?;
    regs.add_to(&mut vars)?;
    rising(alloc, vars)
}

/// An operand or a result that lies in the set of its operation's number.
pub fn make_spaces(
    alloc: Global,
    on: Act,
    choice: Option<VarId>,
    regs: Items<VarId>,
    sets: Items<Span>,
) -> Result<AnyProp, NoMemory>
    ensures { IfOk result (Makes (constraint.Spaces on choice regs sets)) }
{
    let vars = spaces_vars(alloc, on, choice, &regs)?;
    let made = Spaces {
        on,
        choice,
        regs,
        sets,
        vars,
    };
    Ok(AnyProp::Spaces(made))
}

/// The variables of a congruence.
fn same_vars(
    alloc: Global,
    choice: VarId,
    regs: &Items<VarId>,
    to: VarId,
) -> Result<Items<VarId>, AllocError>
    ensures { IfOk result (λ vs. IsScope vs (own_var choice ++ vars_in own_var regs.now ++ own_var to)) }
{
    let mut vars = Vec::with_capacity(alloc, regs.len().saturating_add(2))?;
    choice.add_to(&mut vars)?;
    regs.add_to(&mut vars)?;
    to.add_to(&mut vars)?;
    rising(alloc, vars)
}

/// A congruence: what is chosen has the register of another.
pub fn make_same(
    alloc: Global,
    choice: VarId,
    regs: Items<VarId>,
    to: VarId,
) -> Result<AnyProp, NoMemory>
    ensures { IfOk result (Makes (constraint.Same choice regs to)) }
{
    let vars = same_vars(alloc, choice, &regs, to)?;
    let made = Same {
        choice,
        regs,
        to,
        vars,
    };
    Ok(AnyProp::Same(made))
}

/// The variables of a preassigned operand or result.
fn home_vars(
    alloc: Global,
    choice: Option<VarId>,
    regs: &Items<VarId>,
) -> Result<Items<VarId>, AllocError>
    ensures { IfOk result (λ vs. IsScope vs (choice_vars choice ++ vars_in own_var regs.now)) }
{
    let mut vars = Vec::with_capacity(alloc, regs.len().saturating_add(1))?;
    choice.add_to(&mut vars)?;
    regs.add_to(&mut vars)?;
    rising(alloc, vars)
}

/// An operand that chooses what has its home.
pub fn make_home(
    alloc: Global,
    choice: Option<VarId>,
    regs: Items<VarId>,
    home: Reg,
) -> Result<AnyProp, NoMemory>
    ensures { IfOk result (Makes (constraint.Home choice regs home.0)) }
{
    let vars = home_vars(alloc, choice, &regs)?;
    let made = Home {
        choice,
        regs,
        home,
        vars,
    };
    Ok(AnyProp::Home(made))
}

/// What a Frame asks for, without the list of its variables.
#[derive(Drop)]
pub struct FrameFields {
    /// Whether all of the function is here. A part of it may have the flag set for a use elsewhere.
    pub is_whole: bool,
    /// The variable of the frame flag: 1 where the code has a frame, else 0.
    pub flag: VarId,
    /// The variables of the instructions of the copies, each of which needs the frame where it is a Spill or a Reload.
    pub touch: Items<VarId>,
    /// The variables of the registers of the values at blocks' starts, each of which needs the frame where it has a slot.
    pub ins: Items<VarId>,
    /// Enter, where the entry block is here.
    pub enter: Option<FrameOp>,
    /// What has to issue after Enter where it needs the frame: the copies of the entry block, its calls, and its Leave.
    pub entry: Items<FrameUse>,
    /// Each Leave, with what has to issue before it in its block.
    pub leaves: Items<FrameLeave>,
}

/// Adds the variables of the flag and of what needs the frame.
fn add_needs(vars: &mut Vec<VarId>, f: &FrameFields) -> Result<(), AllocError>
    ensures { OnOk result
        (vars.new.items ≡ vars.old.items ++ own_var f.now.flag ++ vars_in own_var f.now.touch ++ vars_in own_var f.now.ins) }
{
    f.flag.add_to(vars)?;
    f.touch.add_to(vars)?;
    f.ins.add_to(vars)?;
    Ok(())
}

/// The variables of the frame.
fn frame_vars(alloc: Global, f: &FrameFields) -> Result<Items<VarId>, AllocError>
    ensures { IfOk result (λ vs. IsScope vs (own_var f.now.flag ++ vars_in own_var f.now.touch ++ vars_in own_var f.now.ins
        ++ enter_vars f.now.enter ++ vars_in use_vars f.now.entry ++ vars_in leave_vars f.now.leaves)) }
{
    let mut vars = Vec::new(alloc);
    add_needs(&mut vars, f)?;
    f.enter.add_to(&mut vars)?;
    f.entry.add_to(&mut vars)?;
    f.leaves.add_to(&mut vars)?;
    rising(alloc, vars)
}

/// The frame: its flag, Enter and Leave agree with its use.
pub fn make_frame(alloc: Global, f: FrameFields) -> Result<AnyProp, NoMemory>
    ensures { IfOk result (Makes (constraint.Frame f.is_whole f.flag f.touch f.ins f.enter f.entry f.leaves)) }
{
    let vars = frame_vars(alloc, &f)?;
    let FrameFields {
        is_whole,
        flag,
        touch,
        ins,
        enter,
        entry,
        leaves,
    } = f;
    let made = Frame {
        is_whole,
        flag,
        touch,
        ins,
        enter,
        entry,
        leaves,
        vars,
    };
    Ok(AnyProp::Frame(made))
}
