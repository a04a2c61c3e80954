//! Operations whose results nothing needs, ways over blocks that only jump, and blocks that go on in no other way than to the next.

use crate::body::{Block, BlockId, Body, End, Fork, Label, Step, ways_out};
use crate::live::{Live, live_names};
use crate::names::NameId;
use std::alloc::Global;
use un_base::memory_error::NoMemory;
use un_ir::function::BLOCKS;
use un_isa::op::Op;
use un_llvm::lists::push;

/// Whether nothing but its result says that an operation was done.
fn is_silent(op: Op) -> bool {
    !matches!(op, Op::Load | Op::Store | Op::Call)
}

/// The operations of a block without those whose results nothing needs, from the last to the first.
fn needed<'a>(alloc: Global, live: &mut Live, block: &mut Block<'a>) -> Result<bool, NoMemory> {
    live.begin(block);
    let mut steps = std::mem::replace(&mut block.steps, Vec::new(alloc));
    steps.reverse();
    let mut changed = false;
    for step in steps {
        let is_idle = is_silent(step.op) && step.dst.is_some_and(|name| !live.here(name));
        if is_idle {
            changed = true;
        } else {
            live.pass(&step);
            push(&mut block.steps, step)?;
        }
    }
    block.steps.reverse();
    Ok(changed)
}

/// Takes out the operations whose results nothing needs.
pub(crate) fn drop_idle(alloc: Global, body: &mut Body<'_>) -> Result<(), NoMemory> {
    for _ in 0..body.names.len() {
        let mut live = live_names(alloc, body)?;
        let mut changed = false;
        for block in body.blocks.iter_mut() {
            changed = needed(alloc, &mut live, block)? || changed;
        }
        if !changed {
            break;
        }
    }
    Ok(())
}

/// The end of a block that leads elsewhere in place of to a block.
fn led_elsewhere(end: End, old: BlockId, new: BlockId) -> End {
    let to = |way: BlockId| if way == old { new } else { way };
    match end {
        End::Jump(way) => End::Jump(to(way)),
        End::Fork(fork) => End::Fork(Fork {
            yes: to(fork.yes),
            no: to(fork.no),
            ..fork
        }),
        End::Return(name) => End::Return(name),
    }
}

/// How many ways lead to a block.
fn ways_in(body: &Body<'_>, to: BlockId) -> usize {
    let mut count: usize = 0;
    for block in &body.blocks {
        for way in ways_out(block.end) {
            if way == Some(to) {
                count = count.saturating_add(1);
            }
        }
    }
    count
}

/// Where a block without operations only jumps to.
fn only_jump(body: &Body<'_>, place: BlockId) -> Option<BlockId> {
    let block = body.blocks.get(place)?;
    match block.end {
        End::Jump(to) if block.steps.is_empty() && to != place && place != 0 => Some(to),
        _ => None,
    }
}

/// Leads all ways past the blocks that only jump.
fn lead_past(body: &mut Body<'_>) {
    for place in 0..body.blocks.len() {
        if let Some(to) = only_jump(body, place) {
            for block in body.blocks.iter_mut() {
                block.end = led_elsewhere(block.end, place, to);
            }
            if let Some(block) = body.blocks.get_mut(place) {
                block.end = End::Return(None);
            }
        }
    }
}

/// Makes a jump of a branch both ways of which lead to one block.
fn straighten(body: &mut Body<'_>) {
    for block in body.blocks.iter_mut() {
        if let End::Fork(fork) = block.end
            && fork.yes == fork.no
        {
            block.end = End::Jump(fork.yes);
        }
    }
}

/// The block that follows a block in no other way than by its jump.
fn only_next(body: &Body<'_>, place: BlockId) -> Option<BlockId> {
    let block = body.blocks.get(place)?;
    match block.end {
        End::Jump(to) if to != place && to != 0 && ways_in(body, to) == 1 => Some(to),
        _ => None,
    }
}

/// Takes a block's operations and its end away.
fn taken<'a>(alloc: Global, body: &mut Body<'a>, place: BlockId) -> Option<Block<'a>> {
    let block = body.blocks.get_mut(place)?;
    let steps = std::mem::replace(&mut block.steps, Vec::new(alloc));
    let end = block.end;
    block.end = End::Return(None);
    Some(Block {
        label: block.label,
        freq: block.freq,
        steps,
        end,
        origin: block.origin,
    })
}

/// Adds operations behind others.
fn push_all<'a>(steps: &mut Vec<Step<'a>>, more: Vec<Step<'a>>) -> Result<(), NoMemory> {
    for step in more {
        push(steps, step)?;
    }
    Ok(())
}

/// Puts a block in its place.
fn put_back<'a>(body: &mut Body<'a>, place: BlockId, block: Block<'a>) {
    if let Some(slot) = body.blocks.get_mut(place) {
        *slot = block;
    }
}

/// Adds to a block the operations and the end of the one behind it.
fn append(
    alloc: Global,
    body: &mut Body<'_>,
    place: BlockId,
    next: BlockId,
) -> Result<(), NoMemory> {
    let Some(mut block) = taken(alloc, body, place) else {
        return Ok(());
    };
    let Some(Block { steps, end, .. }) = taken(alloc, body, next) else {
        return Ok(());
    };
    push_all(&mut block.steps, steps)?;
    block.end = end;
    put_back(body, place, block);
    Ok(())
}

/// Makes one block of two where the second follows the first in no other way.
fn join_blocks(alloc: Global, body: &mut Body<'_>) -> Result<(), NoMemory> {
    for place in 0..body.blocks.len() {
        for _ in 0..body.blocks.len() {
            let Some(next) = only_next(body, place) else {
                break;
            };
            append(alloc, body, place, next)?;
        }
    }
    Ok(())
}

/// Which of the blocks can be reached.
pub fn reached(alloc: Global, body: &Body<'_>) -> Result<Vec<bool>, NoMemory> {
    let mut found = Vec::new(alloc);
    for place in 0..body.blocks.len() {
        push(&mut found, place == 0)?;
    }
    for _ in 0..body.blocks.len() {
        spread(body, &mut found);
    }
    Ok(found)
}

/// Adds to the blocks that can be reached those to which they lead.
fn spread(body: &Body<'_>, found: &mut Vec<bool>) {
    for (place, block) in body.blocks.iter().enumerate() {
        if found.get(place).copied().unwrap_or(false) {
            for way in ways_out(block.end) {
                if let Some(to) = way
                    && let Some(flag) = found.get_mut(to)
                {
                    *flag = true;
                }
            }
        }
    }
}

/// Ends the blocks that are not reached, so that they lead nowhere.
fn cut_off(alloc: Global, body: &mut Body<'_>) -> Result<(), NoMemory> {
    let reached = reached(alloc, body)?;
    for (block, is_reached) in body.blocks.iter_mut().zip(reached.as_slice()) {
        if !*is_reached {
            block.end = End::Return(None);
            block.steps = Vec::new(alloc);
        }
    }
    Ok(())
}

/// Joins blocks and leads ways past those that do nothing.
pub fn join(alloc: Global, body: &mut Body<'_>) -> Result<(), NoMemory> {
    cut_off(alloc, body)?;
    lead_past(body);
    straighten(body);
    join_blocks(alloc, body)?;
    cut_off(alloc, body)
}

/// A block that is only a way from another one, whose operations may as well be done before that way is chosen.
#[derive(Clone, Copy)]
struct Early {
    before: BlockId,
    way: BlockId,
}

/// Whether nothing that a block assigns is needed by the branch to it or elsewhere.
fn is_harmless(live: &Live, block: &Block<'_>, pred: NameId, elsewhere: BlockId) -> bool {
    for step in &block.steps {
        if let Some(name) = step.dst
            && (name == pred || live.at_start(elsewhere, name))
        {
            return false;
        }
        if !is_silent(step.op) {
            return false;
        }
    }
    true
}

/// Whether a block may be done before the branch that leads to it, and else elsewhere: it costs no more where it runs for at least half of
/// the branches, and is done anyway where there are too many blocks.
fn is_early(
    body: &Body<'_>,
    live: &Live,
    freq: u64,
    pred: NameId,
    way: BlockId,
    elsewhere: BlockId,
) -> bool {
    let Some(block) = body.blocks.get(way) else {
        return false;
    };
    let pays = block.freq.saturating_mul(2) >= freq || count(body) > BLOCKS;
    pays && matches!(block.end, End::Jump(_))
        && matches!(block.label, Label::New)
        && way != elsewhere
        && ways_in(body, way) == 1
        && is_harmless(live, block, pred, elsewhere)
}

/// How many blocks have operations or lead somewhere.
fn count(body: &Body<'_>) -> u32 {
    let mut count: u32 = 0;
    for (place, block) in body.blocks.iter().enumerate() {
        if place == 0 || ways_in(body, place) > 0 || !block.steps.is_empty() {
            count = count.saturating_add(1);
        }
    }
    count
}

/// The next block that may be done before the branch that leads to it.
fn next_early(body: &Body<'_>, live: &Live) -> Option<Early> {
    for (before, block) in body.blocks.iter().enumerate() {
        if let End::Fork(fork) = block.end {
            for (way, elsewhere) in [(fork.yes, fork.no), (fork.no, fork.yes)] {
                if is_early(body, live, block.freq, fork.pred, way, elsewhere) {
                    return Some(Early { before, way });
                }
            }
        }
    }
    None
}

/// Does a block's operations before the branch that leads to it.
fn do_early(alloc: Global, body: &mut Body<'_>, early: Early) -> Result<(), NoMemory> {
    let Some(mut way) = taken(alloc, body, early.way) else {
        return Ok(());
    };
    let steps = std::mem::replace(&mut way.steps, Vec::new(alloc));
    put_back(body, early.way, way);
    let Some(mut before) = taken(alloc, body, early.before) else {
        return Ok(());
    };
    push_all(&mut before.steps, steps)?;
    put_back(body, early.before, before);
    Ok(())
}

/// Does what ways copy before the ways are chosen, where that harms nothing.
pub(crate) fn hoist(alloc: Global, body: &mut Body<'_>) -> Result<(), NoMemory> {
    for _ in 0..body.blocks.len() {
        let live = live_names(alloc, body)?;
        let Some(early) = next_early(body, &live) else {
            break;
        };
        do_early(alloc, body, early)?;
        lead_past(body);
    }
    Ok(())
}
