//! The values of all variables, from the schedules of a plan's blocks.

use crate::plan::Plan;
use std::alloc::{AllocError, Global};
use un_blocks::facts::{Block, Facts, at};
use un_ir::extended::{RELOAD, SPILL};
use un_isa::reg::FIRST_SLOT;

/// Another value for a variable.
fn set(values: &mut [u32], v: u32, x: u32) {
    if let Some(place) = values.get_mut(v as usize) {
        *place = x;
    }
}

/// Writes the values of a block's variables.
fn write_block(block: &Block, from: &[u32], values: &mut [u32]) {
    let mut v = block.facts.first_variable;
    for x in from {
        set(values, v, *x);
        v = v.saturating_add(1);
    }
}

/// Whether a Spill, a Reload or a slot at a block's start came about.
fn uses_frame(facts: &Facts, values: &[u32]) -> bool {
    for v in &facts.copy_instructions {
        let instruction = at(values, *v);
        if instruction == SPILL || instruction == RELOAD {
            return true;
        }
    }
    for v in &facts.start_registers {
        if at(values, *v) >= FIRST_SLOT {
            return true;
        }
    }
    false
}

/// Makes Enter and Leave inactive.
fn without_frame(facts: &Facts, values: &mut [u32]) {
    for block in &facts.blocks {
        for o in [block.facts.enter, block.facts.leave] {
            let op = block.operation(o);
            set(values, op.instruction, 0);
            set(values, op.cycle, 0);
        }
    }
}

/// The values of all variables, under a plan that has a schedule for each block.
pub fn assembled(alloc: Global, facts: &Facts, plan: &Plan) -> Result<Vec<u32>, AllocError> {
    let mut values = Vec::new(alloc);
    values.resize(facts.variables as usize, 0)?;
    for (block, mine) in facts.blocks.as_slice().iter().zip(plan.blocks.as_slice()) {
        write_block(block, mine.best.values.as_slice(), values.as_mut_slice());
    }
    let frame = uses_frame(facts, values.as_slice());
    set(values.as_mut_slice(), facts.flag, u32::from(frame));
    if !frame {
        without_frame(facts, values.as_mut_slice());
    }
    Ok(values)
}
