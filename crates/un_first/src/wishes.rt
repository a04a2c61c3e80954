//! Which block's places are changed, and what its schedule would like.

use crate::chance::Noise;
use crate::changes::{Change, saved_home};
use crate::plan::{BlockPlan, Plan};
use un_blocks::facts::{Block, Facts, at};
use un_isa::reg::LINK;
use un_trial::facts::Operation;
use un_trial::table::NONE;

/// What is to be saved in a block.
#[derive(Clone, Copy)]
enum Saving {
    /// What it costs above its least end.
    Cycles,
    /// Its copies, by frequency.
    Copies,
}

impl Saving {
    /// How much of it there is in a block.
    fn of(self, block: &Block, mine: &BlockPlan) -> u64 {
        if !mine.is_found {
            return 0;
        }
        let size = match self {
            Saving::Cycles => mine.best.end.saturating_sub(block.least_end),
            Saving::Copies => mine.best.copies,
        };
        block.frequency.saturating_mul(u64::from(size))
    }

    /// How much of it there is in all blocks.
    fn total(self, facts: &Facts, plan: &Plan) -> u64 {
        let mut sum = 0u64;
        for (block, mine) in facts.blocks.as_slice().iter().zip(plan.blocks.as_slice()) {
            sum = sum.saturating_add(self.of(block, mine));
        }
        sum
    }
}

/// A block by chance: by the cost above its least, where no block has any by its copies, one in four any.
pub(crate) fn pick_block(facts: &Facts, plan: &Plan, noise: &mut Noise) -> u32 {
    let above = Saving::Cycles.total(facts, plan);
    let (saving, total) = if above > 0 {
        (Saving::Cycles, above)
    } else {
        (Saving::Copies, Saving::Copies.total(facts, plan))
    };
    if noise.one_in(4) {
        return noise.place(u32::try_from(facts.blocks.len()).unwrap_or(0));
    }
    let mut rest = noise.below(total);
    let mut b = 0u32;
    for (block, mine) in facts.blocks.as_slice().iter().zip(plan.blocks.as_slice()) {
        let excess = saving.of(block, mine);
        if rest < excess {
            return b;
        }
        rest = rest.saturating_sub(excess);
        b = b.saturating_add(1);
    }
    0
}

/// A block's schedule as it is read: the values of variables.
#[derive(Clone, Copy)]
struct Reading<'a> {
    block: &'a Block,
    values: &'a [u32],
}

impl<'a> Reading<'a> {
    /// The value of a variable, 0 where the block has none.
    fn value(&self, variable: u32) -> u32 {
        at(
            self.values,
            variable.saturating_sub(self.block.facts.first_variable),
        )
    }

    /// The register of a temporary.
    fn register(&self, t: u32) -> u32 {
        self.value(self.block.temporary(t).register)
    }

    /// Whether a copy is active.
    fn is_active(&self, op: &Operation) -> bool {
        self.value(op.instruction) > 0
    }

    /// How many active copies there are of values that stand at the block's start or at its end.
    fn copies(&self) -> u32 {
        let mut count = 0u32;
        for o in &self.block.bound_copies {
            if self.is_active(self.block.operation(*o)) {
                count = count.saturating_add(1);
            }
        }
        count
    }

    /// One of them.
    fn copy(&self, place: u32) -> Option<&'a Operation> {
        let mut left = place;
        for o in &self.block.bound_copies {
            let op = self.block.operation(*o);
            if self.is_active(op) {
                if left == 0 {
                    return Some(op);
                }
                left = left.saturating_sub(1);
            }
        }
        None
    }

    /// The temporary that a copy reads.
    fn source(&self, op: &Operation) -> Option<u32> {
        let x = op.operands.first()?;
        let choice = if x.choice == NONE {
            0
        } else {
            self.value(x.choice)
        };
        x.alternatives.get(choice as usize).copied()
    }
}

/// Whether a call overwrites the link where it would stand in its register from a group to this block's start, or from there on.
fn is_overwritten(facts: &Facts, block: &Block, key: u32) -> bool {
    if block.has_call() {
        return true;
    }
    for other in &facts.blocks {
        if other.has_call() && facts.is_beside(block.group_in, other.group_out, key) {
            return true;
        }
    }
    false
}

/// Where a value from a block's start would stand, of which a copy went to this register: there, but for the link where a call overwrites
/// it: that stands where another saved value does.
fn wished(facts: &Facts, block: &Block, key: u32, register: u32, noise: &mut Noise) -> u32 {
    if register == LINK && is_overwritten(facts, block, key) {
        saved_home(facts, facts.kept(), noise)
    } else {
        register
    }
}

/// A place that makes a copy of a block's schedule needless: where a copy of a value from the block's start went, or where a value
/// stood that was copied to its place at the end.
pub(crate) fn wish_of(
    facts: &Facts,
    block: &Block,
    mine: &BlockPlan,
    noise: &mut Noise,
) -> Option<Change> {
    if !mine.is_found {
        return None;
    }
    let reading = Reading {
        block,
        values: mine.best.values.as_slice(),
    };
    let op = reading.copy(noise.place(reading.copies()))?;
    let source = reading.source(op)?;
    let v = op.operands.first()?.value;
    let x = block.temporary(v);
    let is_start = block.is_in(v) && (x.at_end == NONE || noise.one_in(2));
    if is_start {
        Some(Change {
            group: block.group_in,
            key: x.key,
            place: wished(facts, block, x.key, reading.register(op.result), noise),
        })
    } else {
        Some(Change {
            group: block.group_out,
            key: x.key,
            place: reading.register(source),
        })
    }
}
