//! The ends of blocks, and what is copied on the ways between them for the values that come in from several blocks.

use crate::body::{Block, BlockId, End, Fork, Label};
use crate::flow::Flow;
use crate::frequency::Frequencies;
use crate::lowering::{Held, Lowering, Truth, number_of_width};
use crate::names::NameId;
use std::alloc::Global;
use un_base::memory_error::NoMemory;
use un_ir::function::Kind;
use un_isa::op::Op;
use un_llvm::function::{Action, Case, Instruction, Operand};
use un_llvm::lists::push;
use un_llvm::refusal::{Missing, Refusal};

/// A copy: the name that is assigned, and the one that is read.
#[derive(Clone, Copy)]
struct Copied {
    to: NameId,
    from: NameId,
}

/// The copies of a way that are left to make.
#[derive(Drop)]
struct Copies {
    left: Vec<Copied>,
}

impl Copies {
    /// Whether a name is read by another copy than the one at a place.
    fn is_read(&self, name: NameId, place: usize) -> bool {
        for (k, copied) in self.left.iter().enumerate() {
            if k != place && copied.from == name {
                return true;
            }
        }
        false
    }

    /// Takes a copy that assigns a name which no other one reads.
    fn take_free(&mut self) -> Option<Copied> {
        for place in 0..self.left.len() {
            let copied = *self.left.get(place)?;
            if !self.is_read(copied.to, place) {
                let last = self.left.pop()?;
                if let Some(slot) = self.left.get_mut(place) {
                    *slot = last;
                }
                return Some(copied);
            }
        }
        None
    }

    /// Reads a name in place of another one.
    fn reads_instead(&mut self, old: NameId, new: NameId) {
        for copied in self.left.iter_mut() {
            if copied.from == old {
                copied.from = new;
            }
        }
    }
}

impl<'f, 'a> Lowering<'f, 'a> {
    /// Makes copies at once, one by one: a name that others still read is kept in a new one.
    fn copy_all(&mut self, copies: &mut Copies) -> Result<(), NoMemory> {
        for _ in 0..copies.left.len().saturating_mul(2) {
            if let Some(copied) = copies.take_free() {
                if copied.to != copied.from {
                    self.put(Op::Mov, Some(copied.to), &[copied.from], 0)?;
                }
                continue;
            }
            let Some(copied) = copies.left.first().copied() else {
                break;
            };
            let kept = self.made(Op::Mov, &[copied.to], 0)?;
            copies.reads_instead(copied.to, kept);
        }
        Ok(())
    }

    /// The copies on the way from a block of LLVM's to another.
    fn copies(&mut self, from: BlockId, to: BlockId) -> Result<Copies, Refusal<'a>> {
        let mut left = Vec::new(self.alloc);
        let function = self.function;
        let Some(block) = function.blocks.get(to) else {
            return Ok(Copies { left });
        };
        for instruction in &block.instructions {
            let Action::Merge(incoming) = &instruction.action else {
                break;
            };
            self.line = instruction.line;
            let (Some(value), Some(came)) = (
                instruction.result,
                incoming.iter().find(|i| i.from == from),
            ) else {
                return Err(self.lacks(Missing::Block));
            };
            let name = self.word(&Operand::Name(value))?;
            // (a number of its own for each copy, so that both can be one name)
            self.forget_numbers();
            let source = self.word(&came.value)?;
            push(
                &mut left,
                Copied {
                    to: name,
                    from: source,
                },
            )?;
        }
        Ok(Copies { left })
    }
}

/// A switch: the block of LLVM's that it ends, the place from which it is made, and the word of its value, which has so many bits.
#[derive(Clone, Copy)]
struct Switched {
    origin: BlockId,
    place: BlockId,
    word: NameId,
    width: u32,
}

/// The blocks so far, and what is known of LLVM's.
#[derive(Drop)]
pub struct Layout<'a> {
    alloc: Global,
    pub blocks: Vec<Block<'a>>,
    frequencies: Frequencies,
    flow: Flow,
}

impl<'a> Layout<'a> {
    /// The blocks of LLVM's function, without operations.
    pub fn new(
        alloc: Global,
        low: &Lowering<'_, 'a>,
        flow: Flow,
        frequencies: Frequencies,
    ) -> Result<Layout<'a>, NoMemory> {
        let mut blocks = Vec::new(alloc);
        for (origin, block) in low.function.blocks.iter().enumerate() {
            let made = Block {
                label: Label::Given(block.label),
                freq: frequencies.block(origin),
                steps: Vec::new(alloc),
                end: End::Return(None),
                origin,
            };
            push(&mut blocks, made)?;
        }
        Ok(Layout {
            alloc,
            blocks,
            frequencies,
            flow,
        })
    }

    /// The blocks.
    pub(crate) fn into_blocks(self) -> Vec<Block<'a>> {
        let Layout { blocks, .. } = self;
        blocks
    }

    /// A new block behind one of LLVM's.
    pub fn add(&mut self, origin: BlockId, freq: u64, end: End) -> Result<BlockId, NoMemory> {
        let place = self.blocks.len();
        let block = Block {
            label: Label::New,
            freq,
            steps: Vec::new(self.alloc),
            end,
            origin,
        };
        push(&mut self.blocks, block)?;
        Ok(place)
    }

    /// How often a block of LLVM's runs.
    pub fn often(&self, origin: BlockId) -> u64 {
        self.frequencies.block(origin)
    }

    /// Gives a block its operations and its end.
    pub fn fill(&mut self, low: &mut Lowering<'_, 'a>, place: BlockId, end: End) {
        let steps = low.take_steps();
        if let Some(block) = self.blocks.get_mut(place) {
            block.steps = steps;
            block.end = end;
        }
    }

    /// Where a way out of a block leads: to a new block that copies what comes in, where there is something to copy.
    fn led(
        &mut self,
        low: &mut Lowering<'_, 'a>,
        from: BlockId,
        way: usize,
        to: BlockId,
    ) -> Result<BlockId, Refusal<'a>> {
        let mut copies = low.copies(from, to)?;
        if copies.left.is_empty() {
            return Ok(to);
        }
        low.copy_all(&mut copies)?;
        let freq = self.frequencies.way(from, way);
        let place = self.add(from, freq, End::Jump(to))?;
        self.fill(low, place, End::Jump(to));
        Ok(place)
    }

    /// Leads the ways out of the blocks that end a block of LLVM's over the copies.
    pub fn lead(&mut self, low: &mut Lowering<'_, 'a>, place: BlockId) -> Result<(), Refusal<'a>> {
        let Some(block) = self.blocks.get(place) else {
            return Ok(());
        };
        let (origin, end) = (block.origin, block.end);
        let end = match end {
            End::Jump(to) => End::Jump(self.led_old(low, origin, to)?),
            End::Fork(fork) => {
                let yes = self.led_old(low, origin, fork.yes)?;
                let no = self.led_old(low, origin, fork.no)?;
                End::Fork(Fork { yes, no, ..fork })
            }
            End::Return(name) => End::Return(name),
        };
        if let Some(block) = self.blocks.get_mut(place) {
            block.end = end;
        }
        Ok(())
    }

    /// Where a way leads that may lead to a block of LLVM's.
    fn led_old(
        &mut self,
        low: &mut Lowering<'_, 'a>,
        origin: BlockId,
        to: BlockId,
    ) -> Result<BlockId, Refusal<'a>> {
        if to >= low.function.blocks.len() {
            return Ok(to);
        }
        let way = self.way_to(origin, to);
        self.led(low, origin, way, to)
    }

    /// Which way out of a block of LLVM's leads to another.
    fn way_to(&self, from: BlockId, to: BlockId) -> usize {
        let ways = self.flow.ways_of(from);
        ways.iter().position(|way| way.to == to).unwrap_or(0)
    }

    /// The end of a switch: a chain of blocks from a place on, each of which asks for one value.
    fn chained(
        &mut self,
        low: &mut Lowering<'_, 'a>,
        from: Switched,
        cases: &[Case],
        otherwise: BlockId,
    ) -> Result<(), Refusal<'a>> {
        let Switched {
            origin,
            mut place,
            word,
            width,
        } = from;
        for (k, case) in cases.iter().enumerate() {
            let pred = low.is_number(word, number_of_width(case.value, width, false))?;
            let is_last = k.saturating_add(1) == cases.len();
            let next = if is_last {
                otherwise
            } else {
                let freq = self.frequencies.block(origin);
                self.add(origin, freq, End::Jump(otherwise))?
            };
            let fork = Fork {
                pred,
                negated: false,
                yes: case.to,
                no: next,
            };
            self.fill(low, place, End::Fork(fork));
            place = next;
        }
        if cases.is_empty() {
            self.fill(low, place, End::Jump(otherwise));
        }
        Ok(())
    }

    /// The end of a block of LLVM's, the last part of which is made at a place.
    pub fn end(
        &mut self,
        low: &mut Lowering<'_, 'a>,
        origin: BlockId,
        place: BlockId,
        last: &Instruction<'a>,
    ) -> Result<(), Refusal<'a>> {
        let end = match &last.action {
            Action::Jump(to) => End::Jump(*to),
            Action::Branch(branch) => {
                let Truth { pred, negated } = low.truth(&branch.condition)?;
                End::Fork(Fork {
                    pred,
                    negated,
                    yes: branch.yes,
                    no: branch.no,
                })
            }
            Action::Switch {
                value,
                otherwise,
                cases,
            } => {
                let from = Switched {
                    origin,
                    place,
                    word: low.full(value, last.width, false)?,
                    width: last.width,
                };
                return self.chained(low, from, cases.as_slice(), *otherwise);
            }
            Action::Return(Some(value)) => {
                let function = low.function;
                End::Return(Some(low.full(value, function.gives, function.signed)?))
            }
            Action::Return(None) => End::Return(None),
            Action::Unreachable if low.function.gives > 0 => End::Return(Some(low.number(0)?)),
            Action::Unreachable => End::Return(None),
            _ => return Err(low.lacks(Missing::Form)),
        };
        self.fill(low, place, end);
        Ok(())
    }
}

/// Parameters of a function, each a word.
pub fn parameters<'a>(low: &mut Lowering<'_, 'a>) -> Result<Vec<NameId>, Refusal<'a>> {
    let mut found = Vec::new(low.alloc);
    let function = low.function;
    for parameter in &function.parameters {
        let name = low.name_for(Some(parameter.name), Kind::General)?;
        push(&mut found, name)?;
        low.hold(Some(parameter.name), Held::Word(name));
    }
    for parameter in &function.parameters {
        if parameter.width == 1 {
            let word = low.word(&Operand::Name(parameter.name))?;
            let bit = low.made(Op::Andi, &[word], 1)?;
            low.hold(Some(parameter.name), Held::Bit(bit));
        }
    }
    Ok(found)
}
