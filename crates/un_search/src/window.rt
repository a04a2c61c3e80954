//! A window of a block's cycles, and what stays as it is in a solution when the window or the whole block is made one cycle shorter.

use std::alloc::{AllocError, Global};
use un_base::ids::{OpId, TempId, VarId};
use un_ir::extended::ExtBlock;
use un_model::ends::live_in_temps;
use un_model::model::{BlockVars, Model, OpVars, Solution, TempVars};

/// Cycles of a block, from `low` to `high`.
#[derive(Clone, Copy)]
pub(crate) struct CycleRange {
    pub(crate) low: u32,
    pub(crate) high: u32,
}

impl CycleRange {
    fn has(self, cycle: u32) -> bool {
        self.low <= cycle && cycle <= self.high
    }

    /// Where an instruction goes when the window is one cycle shorter: those behind it issue a cycle earlier.
    fn moved(self, cycle: u32) -> u32 {
        if cycle > self.high {
            cycle.saturating_sub(1)
        } else {
            cycle
        }
    }
}

/// What of a block is looked for anew.
#[derive(Clone, Copy)]
pub(crate) enum Part {
    /// The cycles and registers of what it issues.
    Cycles,
    /// What it issues in a window of its cycles.
    In(CycleRange),
}

/// A value that a variable is to keep, where the rounds let it.
#[derive(Clone, Copy)]
pub(crate) struct Hint {
    pub(crate) var: VarId,
    pub(crate) val: u32,
}

/// A block of a solution.
#[derive(Clone, Copy)]
pub(crate) struct BlockOf<'a> {
    /// The model.
    pub(crate) m: &'a Model,
    /// The solution near which another one is looked for.
    pub(crate) solution: &'a Solution,
    /// The variables of the block.
    pub(crate) block: &'a BlockVars,
    /// The number of its first operation.
    pub(crate) first: usize,
}

impl BlockOf<'_> {
    /// The value of a variable; 0 where there is none of this number.
    pub(crate) fn value(self, v: VarId) -> u32 {
        match self.solution.values.as_slice().get(v.0 as usize) {
            None => 0,
            Some(x) => *x,
        }
    }

    /// The cycle of an operation; 0 where it is inactive, and for the block's start and end.
    fn cycle(self, op: &OpVars) -> u32 {
        match op.cycle {
            None => 0,
            Some(v) => self.value(v),
        }
    }

    /// The place in the block of an operation, where it is one of it.
    fn place(self, op: OpId) -> Option<usize> {
        let place = (op.0 as usize).checked_sub(self.first)?;
        if place < self.block.ops.len() {
            Some(place)
        } else {
            None
        }
    }

    /// The place of the operation that defines a temporary.
    fn definer(self, t: TempId) -> Option<usize> {
        let temp = self.m.temps.as_slice().get(t.0 as usize)?;
        self.place(temp.op)
    }

    /// Whether a temporary is an inactive copy of a value that is defined in the window.
    fn is_free_copy(self, temp: &TempVars, place: usize, free: &[bool]) -> bool {
        let Some(op) = self.block.ops.as_slice().get(place) else {
            return false;
        };
        let is_copy = op.cycle.is_some() && self.cycle(op) == 0;
        match self.definer(temp.value) {
            None => false,
            Some(definer) => is_copy && is_set(free, definer),
        }
    }

    /// Whether each operation of the block is free: those in the window, and the copies that are not made of what they define.
    pub(crate) fn free(self, alloc: Global, window: CycleRange) -> Result<Vec<bool>, AllocError> {
        let mut free = Vec::new(alloc);
        for op in self.block.ops.as_slice() {
            let cycle = self.cycle(op);
            free.push(cycle > 0 && window.has(cycle))?;
        }
        for temp in self.m.temps.as_slice() {
            if let Some(place) = self.place(temp.op) {
                if self.is_free_copy(temp, place, free.as_slice()) {
                    set(free.as_mut_slice(), place);
                }
            }
        }
        Ok(free)
    }

    /// What a variable has in the solution.
    fn kept(self, var: VarId) -> Hint {
        Hint {
            var,
            val: self.value(var),
        }
    }

    /// The registers of what is not free.
    fn hint_registers(self, free: &[bool], hints: &mut Vec<Hint>) -> Result<(), AllocError> {
        for temp in self.m.temps.as_slice() {
            if let Some(place) = self.place(temp.op) {
                if !is_set(free, place) {
                    hints.push(self.kept(temp.reg))?;
                }
            }
        }
        Ok(())
    }

    /// The instruction and the choices of an operation.
    fn hint_operation(self, op: &OpVars, hints: &mut Vec<Hint>) -> Result<(), AllocError> {
        if let Some(instr) = op.instr {
            hints.push(self.kept(instr))?;
        }
        for choice in op.choices.as_slice() {
            hints.push(self.kept(*choice))?;
        }
        Ok(())
    }

    /// The instructions and choices of what is not free.
    fn hint_operations(self, free: &[bool], hints: &mut Vec<Hint>) -> Result<(), AllocError> {
        for (op, is_free) in self.block.ops.as_slice().iter().zip(free) {
            if !*is_free {
                self.hint_operation(op, hints)?;
            }
        }
        Ok(())
    }

    /// The cycles of what is not free, without one cycle of the window.
    fn hint_cycles(
        self,
        free: &[bool],
        window: CycleRange,
        hints: &mut Vec<Hint>,
    ) -> Result<(), AllocError> {
        for (op, is_free) in self.block.ops.as_slice().iter().zip(free) {
            if let Some(var) = op.cycle {
                if !*is_free {
                    let val = window.moved(self.value(var));
                    hints.push(Hint { var, val })?;
                }
            }
        }
        Ok(())
    }

    /// What is to stay as it is outside a window.
    fn hint_outside(
        self,
        alloc: Global,
        window: CycleRange,
        hints: &mut Vec<Hint>,
    ) -> Result<(), AllocError> {
        let free = self.free(alloc, window)?;
        self.hint_registers(free.as_slice(), hints)?;
        self.hint_operations(free.as_slice(), hints)?;
        self.hint_cycles(free.as_slice(), window, hints)
    }

    /// The registers at the start of a block of the function.
    fn hint_start(self, block: &ExtBlock, hints: &mut Vec<Hint>) -> Result<(), AllocError> {
        for t in live_in_temps(&block.ops) {
            if let Some(temp) = self.m.temps.as_slice().get(t.0 as usize) {
                hints.push(self.kept(temp.reg))?;
            }
        }
        Ok(())
    }

    /// What is to stay as it is where the block issues what it does: that, and where the blocks take their values.
    fn hint_issued(self, hints: &mut Vec<Hint>) -> Result<(), AllocError> {
        for block in self.m.ext.blocks.as_slice() {
            self.hint_start(block, hints)?;
        }
        for op in self.block.ops.as_slice() {
            self.hint_operation(op, hints)?;
        }
        Ok(())
    }

    /// What is to stay as it is where a part of the block is looked for anew.
    pub(crate) fn hints(self, alloc: Global, part: Part) -> Result<Vec<Hint>, AllocError> {
        let mut hints = Vec::new(alloc);
        hints.push(self.kept(self.m.flag))?;
        match part {
            Part::Cycles => self.hint_issued(&mut hints)?,
            Part::In(window) => self.hint_outside(alloc, window, &mut hints)?,
        }
        Ok(hints)
    }
}

fn is_set(list: &[bool], place: usize) -> bool {
    place < list.len() && list[place]
}

fn set(list: &mut [bool], place: usize) {
    if place < list.len() {
        list[place] = true;
    }
}
