//! What is posted of the frame: its flag, Enter and Leave agree with its use.

ghost use Rattle.std.specs.Prelude.{◌≡◌, [], ◌∷◌, ◌++◌, IfOk, OnOk, map};
ghost use Rattle.un_ir.specs.Extended.{is_copy, is_enter, is_leave};
ghost use Rattle.un_ir.specs.Linear.{is_in};
ghost use Rattle.un_model.specs.Pairs.{joined, over_blocks};
ghost use Rattle.un_kinds.specs.Constraints as constraint;
ghost use Rattle.un_sites.specs.Places.{Place, registers_at};
ghost use Rattle.un_ir.specs.Kinds.{is_call_kind};
ghost use Rattle.un_sites.specs.Postings.{copy_use, cycle_var, frame_by, frame_of, frame_op, in_entry, instr_var};
ghost use Rattle.un_sites.specs.Postings.{leave_of, leaves_in, single_use, uses_of, with_kind, enter_among, part_frame};
ghost use Rattle.un_sites.specs.Sites.{place_of, definers_in};

use std::alloc::{AllocError, Global};
use un_alt::frame::{FrameLeave, FrameOp, FrameUse};
use un_base::ids::VarId;
use un_base::memory_error::NoMemory;
use un_base::numbers::{advance, number};
use un_ir::extended::{ExtBlock, RELOAD, SPILL};
use un_kinds::make_alt::{FrameFields, make_frame};
use un_kinds::props::Props;
use un_lists::items::Items;
use un_model::model::{BlockVars, Model};
use un_sites::sites::{Site, Spot, add_registers, cycle_var};
use un_sites::tables::add_block;

/// The variable of an operation's instruction.
fn instr_var(p: &Spot<'_>) -> VarId
    ensures { result ≡ instr_var (place_of p.now) }
{
    match p.vars.instr {
        None => VarId(0),
        Some(v) => v,
    }
}

/// Enter or a Leave.
fn frame_op(p: &Spot<'_>) -> FrameOp
    ensures { result ≡ frame_op (place_of p.now) }
{
    FrameOp {
        instr: instr_var(p),
        at: cycle_var(p),
    }
}

/// A copy, which needs the frame where it is a Spill or a Reload.
fn copy_use(p: &Spot<'_>) -> FrameUse
    ensures { result ≡ copy_use (place_of p.now) }
{
    FrameUse {
        instr: p.act(),
        least: SPILL,
        most: RELOAD,
        at: cycle_var(p),
    }
}

/// A Call or a Leave, which needs the frame where it is active.
fn single_use(p: &Spot<'_>) -> FrameUse
    ensures { result ≡ single_use (place_of p.now) }
{
    FrameUse {
        instr: p.act(),
        least: 1,
        most: 1,
        at: cycle_var(p),
    }
}

/// The variables of the copies' instructions.
fn touches(alloc: Global, spots: &[Spot<'_>]) -> Result<Items<VarId>, AllocError>
    ensures { IfOk result (λ vs. vs ≡ map instr_var (with_kind is_copy (map place_of spots.now))) }
{
    let mut vars = Items::new(alloc);
    for p in spots {
        if p.it.kind.is_copy() {
            vars.push(instr_var(p))?;
        }
    }
    Ok(vars)
}

/// The registers of what the blocks take.
fn taken(alloc: Global, sites: &[Site<'_>], spots: &[Spot<'_>]) -> Result<Items<VarId>, AllocError>
    ensures { IfOk result (λ vs. vs ≡ joined (map (λ (p : Place). registers_at (definers_in sites.now) p.it.results)
        (with_kind is_in (map place_of spots.now)))) }
{
    let mut vars = Items::new(alloc);
    for p in spots {
        if p.it.kind.is_in() {
            add_registers(&mut vars, sites, p.it.results.as_slice())?;
        }
    }
    Ok(vars)
}

/// The operations of the first block.
fn entry_spots<'a>(alloc: Global, spots: &[Spot<'a>]) -> Result<Items<Spot<'a>>, AllocError>
    ensures { IfOk result (λ found. map place_of found ≡ in_entry (map place_of spots.now)) }
{
    let mut found = Items::new(alloc);
    for p in spots {
        if p.block == 0 {
            found.push(*p)?;
        }
    }
    Ok(found)
}

/// Adds the copies.
fn add_copies(uses: &mut Items<FrameUse>, spots: &[Spot<'_>]) -> Result<(), AllocError>
    ensures { OnOk result (uses.new ≡ uses.old ++ map copy_use (with_kind is_copy (map place_of spots.now))) }
{
    for p in spots {
        if p.it.kind.is_copy() {
            uses.push(copy_use(p))?;
        }
    }
    Ok(())
}

/// Adds the Calls.
fn add_calls(uses: &mut Items<FrameUse>, spots: &[Spot<'_>]) -> Result<(), AllocError>
    ensures { OnOk result (uses.new ≡ uses.old ++ map single_use (with_kind is_call_kind (map place_of spots.now))) }
{
    for p in spots {
        if p.it.kind.is_call() {
            uses.push(single_use(p))?;
        }
    }
    Ok(())
}

/// Adds the Leaves.
fn add_leaves(uses: &mut Items<FrameUse>, spots: &[Spot<'_>]) -> Result<(), AllocError>
    ensures { OnOk result (uses.new ≡ uses.old ++ map single_use (with_kind is_leave (map place_of spots.now))) }
{
    for p in spots {
        if p.it.kind.is_leave() {
            uses.push(single_use(p))?;
        }
    }
    Ok(())
}

/// The operations that may need the frame.
#[tactic(auto, using(un_kinds::proofs::Appends::three_added))]
fn uses_of(alloc: Global, spots: &[Spot<'_>]) -> Result<Items<FrameUse>, AllocError>
    ensures { IfOk result (λ uses. uses ≡ uses_of (map place_of spots.now)) }
{
    let mut uses = Items::new(alloc);
    add_copies(&mut uses, spots)?;
    add_calls(&mut uses, spots)?;
    add_leaves(&mut uses, spots)?;
    Ok(uses)
}

/// The operations of the first block that may need the frame.
fn entry_uses(alloc: Global, spots: &[Spot<'_>]) -> Result<Items<FrameUse>, AllocError>
    ensures { IfOk result (λ uses. uses ≡ uses_of (in_entry (map place_of spots.now))) }
{
    let entry = entry_spots(alloc, spots)?;
    uses_of(alloc, entry.as_slice())
}

/// The cycles of the Calls.
fn call_cycles(alloc: Global, spots: &[Spot<'_>]) -> Result<Items<VarId>, AllocError>
    ensures { IfOk result (λ vs. vs ≡ map cycle_var (with_kind is_call_kind (map place_of spots.now))) }
{
    let mut vars = Items::new(alloc);
    for p in spots {
        if p.it.kind.is_call() {
            vars.push(cycle_var(p))?;
        }
    }
    Ok(vars)
}

/// A Leave, with the copies and the Calls of its block.
fn leave_of(alloc: Global, spots: &[Spot<'_>], p: &Spot<'_>) -> Result<FrameLeave, AllocError>
    ensures { IfOk result (λ l. l ≡ leave_of (map place_of spots.now) (place_of p.now)) }
{
    let mut copies = Items::new(alloc);
    add_copies(&mut copies, spots)?;
    let calls = call_cycles(alloc, spots)?;
    Ok(FrameLeave {
        leave: frame_op(p),
        copies,
        calls,
    })
}

/// Adds the Leaves of these operations of a block.
fn add_leaves_of(
    leaves: &mut Items<FrameLeave>,
    alloc: Global,
    spots: &[Spot<'_>],
) -> Result<(), AllocError>
    ensures { OnOk result (leaves.new ≡ leaves.old
        ++ map (leave_of (map place_of spots.now)) (with_kind is_leave (map place_of spots.now))) }
{
    for p in spots {
        if p.it.kind.is_leave() {
            leaves.push(leave_of(alloc, spots, p)?)?;
        }
    }
    Ok(())
}

/// Adds the Leaves of a block.
fn add_leaves_in(
    leaves: &mut Items<FrameLeave>,
    alloc: Global,
    b: u32,
    n: u32,
    block: &ExtBlock,
    vars: &BlockVars,
) -> Result<(), NoMemory>
    ensures { OnOk result (leaves.new ≡ leaves.old ++ leaves_in b n block.now vars.now) }
{
    let mut spots = Items::new(alloc);
    add_block(&mut spots, b, n, block, vars)?;
    add_leaves_of(leaves, alloc, spots.as_slice())?;
    Ok(())
}

/// The Leaves of all blocks.
fn all_leaves(alloc: Global, m: &Model) -> Result<Items<FrameLeave>, NoMemory>
    ensures { IfOk result (λ leaves. leaves ≡ over_blocks leaves_in 0 0 m.now.ext.blocks m.now.blocks) }
{
    let mut leaves = Items::new(alloc);
    let mut n = 0;
    for k in 0..m.ext.blocks.len().min(m.blocks.len()) {
        let b = number(k)?;
        let block = m.ext.blocks.get(k);
        add_leaves_in(&mut leaves, alloc, b, n, block, m.blocks.get(k))?;
        n = advance(n, block.ops.len())?;
    }
    Ok(leaves)
}

/// What uses the frame, for this Enter.
fn fields(
    alloc: Global,
    m: &Model,
    sites: &[Site<'_>],
    spots: &[Spot<'_>],
    enter: &Spot<'_>,
) -> Result<FrameFields, NoMemory>
    ensures { IfOk result (λ f. constraint.Frame f.is_whole f.flag f.touch f.ins f.enter f.entry f.leaves
        ≡ frame_by m.now (definers_in sites.now) (map place_of spots.now) (place_of enter.now)) }
{
    let touch = touches(alloc, spots)?;
    let ins = taken(alloc, sites, spots)?;
    let entry = entry_uses(alloc, spots)?;
    let leaves = all_leaves(alloc, m)?;
    Ok(FrameFields {
        is_whole: true,
        flag: m.flag,
        touch,
        ins,
        enter: Some(frame_op(enter)),
        entry,
        leaves,
    })
}

/// The frame agrees with its use, for this Enter.
fn post_enter(
    props: &mut Props,
    m: &Model,
    sites: &[Site<'_>],
    spots: &[Spot<'_>],
    enter: &Spot<'_>,
) -> Result<(), NoMemory>
    ensures { OnOk result (props.new ≡ props.old
        ++ frame_by m.now (definers_in sites.now) (map place_of spots.now) (place_of enter.now) ∷ []) }
{
    let f = fields(props.alloc(), m, sites, spots, enter)?;
    let made = make_frame(props.alloc(), f)?;
    props.push(made)
}

/// The frame agrees with its use.
pub fn post_frame(
    props: &mut Props,
    m: &Model,
    sites: &[Site<'_>],
    spots: &[Spot<'_>],
) -> Result<(), NoMemory>
    ensures { OnOk result (props.new ≡ props.old ++ frame_of m.now (definers_in sites.now) (map place_of spots.now)) }
{
    for p in spots {
        if p.it.kind.is_enter() {
            post_enter(props, m, sites, spots, p)?;
        }
    }
    Ok(())
}

/// The Enter among these operations, where there is one.
fn enter_among(spots: &[Spot<'_>]) -> Option<FrameOp>
    ensures { result ≡ enter_among (with_kind is_enter (map place_of spots.now)) }
{
    for p in spots {
        if p.it.kind.is_enter() {
            return Some(frame_op(p));
        }
    }
    None
}

/// The Leaves among these operations of a block.
fn leaves_among(alloc: Global, spots: &[Spot<'_>]) -> Result<Items<FrameLeave>, AllocError>
    ensures { IfOk result (λ leaves. leaves ≡ map (leave_of (map place_of spots.now)) (with_kind is_leave (map place_of spots.now))) }
{
    let mut leaves = Items::new(alloc);
    add_leaves_of(&mut leaves, alloc, spots)?;
    Ok(leaves)
}

/// What uses the frame in a block with these operations.
fn part_fields(
    alloc: Global,
    m: &Model,
    sites: &[Site<'_>],
    spots: &[Spot<'_>],
) -> Result<FrameFields, NoMemory>
    ensures { IfOk result (λ f. constraint.Frame f.is_whole f.flag f.touch f.ins f.enter f.entry f.leaves
        ≡ part_frame m.now (definers_in sites.now) (map place_of spots.now)) }
{
    let touch = touches(alloc, spots)?;
    let ins = taken(alloc, sites, spots)?;
    let entry = uses_of(alloc, spots)?;
    let leaves = leaves_among(alloc, spots)?;
    Ok(FrameFields {
        is_whole: false,
        flag: m.flag,
        touch,
        ins,
        enter: enter_among(spots),
        entry,
        leaves,
    })
}

/// The frame in a block with these operations: its flag may be set for a use in another block.
pub fn post_part_frame(
    props: &mut Props,
    m: &Model,
    sites: &[Site<'_>],
    spots: &[Spot<'_>],
) -> Result<(), NoMemory>
    ensures { OnOk result (props.new ≡ props.old ++ part_frame m.now (definers_in sites.now) (map place_of spots.now) ∷ []) }
{
    let f = part_fields(props.alloc(), m, sites, spots)?;
    let made = make_frame(props.alloc(), f)?;
    props.push(made)
}
