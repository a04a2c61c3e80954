//! Fewer names, where a function has more than the language allows: a name is used again where it is not needed any more.

use crate::body::{Body, Step};
use crate::coalesce::{clashes, rename};
use crate::live::Rows;
use crate::names::NameId;
use std::alloc::Global;
use un_base::memory_error::NoMemory;
use un_ir::function::NAMES;
use un_llvm::lists::push;

/// Names that one name stands for.
#[derive(Drop)]
struct Group {
    names: Vec<NameId>,
}

/// Adds a name that is not there yet.
fn note(found: &mut Vec<NameId>, name: NameId) -> Result<(), NoMemory> {
    if found.contains(&name) {
        return Ok(());
    }
    push(found, name)
}

/// Adds the names that an operation reads and assigns.
fn note_step(found: &mut Vec<NameId>, step: &Step<'_>) -> Result<(), NoMemory> {
    for name in step.srcs.as_slice() {
        note(found, *name)?;
    }
    match step.dst {
        Some(name) => note(found, name),
        None => Ok(()),
    }
}

/// The names that are read or assigned somewhere, in the order of their first appearance, the parameters first.
pub fn used(alloc: Global, body: &Body<'_>) -> Result<Vec<NameId>, NoMemory> {
    let mut found: Vec<NameId> = Vec::new(alloc);
    for name in &body.parameters {
        note(&mut found, *name)?;
    }
    for block in &body.blocks {
        for step in &block.steps {
            note_step(&mut found, step)?;
        }
    }
    Ok(found)
}

/// Whether a name may stand in a group: it is of its kind, is needed with none of its names, and there is one parameter at most.
fn fits(body: &Body<'_>, clashes: &Rows, group: &Group, name: NameId) -> bool {
    for other in &group.names {
        if !body.names.are_alike(*other, name) || clashes.has(*other, name) {
            return false;
        }
    }
    true
}

/// Adds a name to the first group in which it may stand, or to a new one.
fn add(
    alloc: Global,
    body: &Body<'_>,
    clashes: &Rows,
    groups: &mut Vec<Group>,
    name: NameId,
) -> Result<(), NoMemory> {
    for group in groups.iter_mut() {
        if fits(body, clashes, group, name) {
            return push(&mut group.names, name);
        }
    }
    let mut names = Vec::new(alloc);
    push(&mut names, name)?;
    push(groups, Group { names })
}

/// Puts the first name of a group in place of its others.
fn unite(alloc: Global, body: &mut Body<'_>, group: &Group) -> Result<(), NoMemory> {
    let Some(first) = group.names.first() else {
        return Ok(());
    };
    for name in &group.names {
        if name != first {
            rename(alloc, body, *name, *first)?;
        }
    }
    Ok(())
}

/// Uses names again where there are more than the language allows.
pub(crate) fn reuse(alloc: Global, body: &mut Body<'_>) -> Result<(), NoMemory> {
    let names = used(alloc, body)?;
    if names.len() <= NAMES as usize {
        return Ok(());
    }
    let clashes = clashes(alloc, body)?;
    let mut groups = Vec::new(alloc);
    for name in &names {
        add(alloc, body, &clashes, &mut groups, *name)?;
    }
    for group in &groups {
        unite(alloc, body, group)?;
    }
    Ok(())
}
