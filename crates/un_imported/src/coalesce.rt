//! Names that are copies of one another become one name, where neither is needed while the other has another value.

use crate::body::{Block, Body, End, Fork, Step};
use crate::live::{Live, Rows, live_names};
use crate::names::NameId;
use std::alloc::Global;
use un_base::memory_error::NoMemory;
use un_isa::op::Op;
use un_lists::few::Few;
use un_llvm::lists::push;

/// The name that an operation copies.
fn copied(step: &Step<'_>) -> Option<NameId> {
    if step.op == Op::Mov {
        step.srcs.as_slice().first().copied()
    } else {
        None
    }
}

/// Notes that two names are needed at once.
fn note(clashes: &mut Rows, a: NameId, b: NameId) {
    if a != b {
        clashes.put(a, b, true);
        clashes.put(b, a, true);
    }
}

/// Notes what is needed behind an operation beside the name that it assigns.
fn note_step(clashes: &mut Rows, live: &Live, step: &Step<'_>, names: usize) {
    let Some(name) = step.dst else {
        return;
    };
    let same = copied(step);
    for other in 0..names {
        if live.here(other) && same != Some(other) {
            note(clashes, name, other);
        }
    }
}

/// Notes what is needed at once in a block.
fn note_block(clashes: &mut Rows, live: &mut Live, block: &Block<'_>, names: usize) {
    live.begin(block);
    for step in block.steps.iter().rev() {
        note_step(clashes, live, step, names);
        live.pass(step);
    }
}

/// Notes what is needed at once where a function begins.
fn note_parameters(clashes: &mut Rows, live: &Live, body: &Body<'_>) {
    for name in &body.parameters {
        for other in 0..body.names.len() {
            if live.at_start(0, other) || body.parameters.contains(&other) {
                note(clashes, *name, other);
            }
        }
    }
}

/// Which names are needed at once.
pub fn clashes(alloc: Global, body: &Body<'_>) -> Result<Rows, NoMemory> {
    let names = body.names.len();
    let mut clashes = Rows::new(alloc, names, names)?;
    let mut live = live_names(alloc, body)?;
    note_parameters(&mut clashes, &live, body);
    for block in &body.blocks {
        note_block(&mut clashes, &mut live, block, names);
    }
    Ok(clashes)
}

/// A name in place of another one.
fn instead(name: NameId, old: NameId, new: NameId) -> NameId {
    if name == old { new } else { name }
}

/// The end of a block with a name in place of another one.
fn renamed_end(end: End, old: NameId, new: NameId) -> End {
    match end {
        End::Jump(to) => End::Jump(to),
        End::Fork(fork) => End::Fork(Fork {
            pred: instead(fork.pred, old, new),
            ..fork
        }),
        End::Return(Some(name)) => End::Return(Some(instead(name, old, new))),
        End::Return(None) => End::Return(None),
    }
}

/// Names with one in place of another one.
fn renamed(
    alloc: Global,
    names: &[NameId],
    old: NameId,
    new: NameId,
) -> Result<Few<NameId>, NoMemory> {
    let mut found = Few::new(alloc);
    for name in names {
        found.push(instead(*name, old, new))?;
    }
    Ok(found)
}

/// Puts a name in place of another one in the operations of a block.
fn rename_steps(
    alloc: Global,
    block: &mut Block<'_>,
    old: NameId,
    new: NameId,
) -> Result<(), NoMemory> {
    for step in block.steps.iter_mut() {
        if step.srcs.as_slice().contains(&old) {
            step.srcs = renamed(alloc, step.srcs.as_slice(), old, new)?;
        }
        if step.dst == Some(old) {
            step.dst = Some(new);
        }
    }
    Ok(())
}

/// Puts a name in place of another one everywhere.
pub(crate) fn rename(
    alloc: Global,
    body: &mut Body<'_>,
    old: NameId,
    new: NameId,
) -> Result<(), NoMemory> {
    for block in body.blocks.iter_mut() {
        rename_steps(alloc, block, old, new)?;
        block.end = renamed_end(block.end, old, new);
    }
    Ok(())
}

/// Two names of which one may stand for both.
#[derive(Clone, Copy)]
struct Pair {
    old: NameId,
    new: NameId,
}

/// The names of a copy as one: a parameter keeps its name.
fn pair_of(body: &Body<'_>, clashes: &Rows, step: &Step<'_>) -> Option<Pair> {
    let from = copied(step)?;
    let to = step.dst?;
    if from != to && clashes.has(from, to) {
        return None;
    }
    if body.parameters.contains(&to) {
        Some(Pair { old: from, new: to })
    } else {
        Some(Pair { old: to, new: from })
    }
}

/// The next copy in a block whose names may become one.
fn pair_in(body: &Body<'_>, clashes: &Rows, block: &Block<'_>) -> Option<Pair> {
    for step in &block.steps {
        if let Some(pair) = pair_of(body, clashes, step) {
            return Some(pair);
        }
    }
    None
}

/// The next copy whose names may become one, in the block that runs most often.
fn next_pair(body: &Body<'_>, clashes: &Rows) -> Option<Pair> {
    let mut best: Option<(u64, Pair)> = None;
    for block in &body.blocks {
        if let Some(pair) = pair_in(body, clashes, block)
            && best.is_none_or(|(freq, _)| freq < block.freq)
        {
            best = Some((block.freq, pair));
        }
    }
    best.map(|(_, pair)| pair)
}

/// The operations of a block without copies of a name to itself.
fn without_idle(alloc: Global, block: &mut Block<'_>) -> Result<(), NoMemory> {
    let steps = std::mem::replace(&mut block.steps, Vec::new(alloc));
    for step in steps {
        if copied(&step).is_none() || copied(&step) != step.dst {
            push(&mut block.steps, step)?;
        }
    }
    Ok(())
}

/// Makes one name of two.
fn unite(alloc: Global, body: &mut Body<'_>, pair: Pair) -> Result<(), NoMemory> {
    rename(alloc, body, pair.old, pair.new)?;
    for block in body.blocks.iter_mut() {
        without_idle(alloc, block)?;
    }
    Ok(())
}

/// Makes one name of the names of each copy where they may be one.
pub(crate) fn coalesce(alloc: Global, body: &mut Body<'_>) -> Result<(), NoMemory> {
    for _ in 0..body.names.len() {
        let clashes = clashes(alloc, body)?;
        let Some(pair) = next_pair(body, &clashes) else {
            break;
        };
        unite(alloc, body, pair)?;
    }
    Ok(())
}
