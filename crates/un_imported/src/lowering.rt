//! What values of LLVM's stand in, and the operations made for them so far.

use crate::body::Step;
use crate::names::{NameId, Names};
use std::alloc::Global;
use un_base::memory_error::NoMemory;
use un_ir::function::Kind;
use un_isa::op::Op;
use un_lists::few::Few;
use un_llvm::function::{Function, NameId as ValueId, Operand};
use un_llvm::lists::push;
use un_llvm::refusal::{Missing, Refusal};

/// What a value stands in.
#[derive(Clone, Copy)]
pub enum Held {
    /// It is not there yet.
    Nowhere,
    /// A word.
    Word(NameId),
    /// A number that stands nowhere.
    Number(i64),
    /// An address, and the base and offset that it is the sum of.
    Place {
        word: NameId,
        base: NameId,
        offset: i32,
    },
    /// A truth value in a predicate, which may be turned round.
    Truth {
        pred: NameId,
        negated: bool,
    },
    /// A truth value in a word that is 0 or 1.
    Bit(NameId),
}

/// A predicate, which may be turned round.
#[derive(Clone, Copy)]
pub struct Truth {
    pub pred: NameId,
    pub negated: bool,
}

/// A number that stands in a name from a place of the block on.
#[derive(Clone, Copy)]
struct Loaded {
    number: i32,
    name: NameId,
}

/// A multiple of a word that stands in a name from a place of the block on.
#[derive(Clone, Copy)]
struct Multiple {
    of: NameId,
    bytes: u32,
    name: NameId,
}

/// A function while its operations are made.
#[derive(Drop)]
pub struct Lowering<'f, 'a> {
    pub alloc: Global,
    pub function: &'f Function<'a>,
    pub names: Names<'a>,
    /// What each of LLVM's values stands in.
    pub held: Vec<Held>,
    /// The operations of the block that is being made.
    pub steps: Vec<Step<'a>>,
    /// The numbers that stand in names there.
    loaded: Vec<Loaded>,
    /// The multiples of words that stand in names there.
    multiples: Vec<Multiple>,
    /// The line of the instruction that is being lowered.
    pub line: u32,
}

/// The low 32 bits of a number, with their sign.
pub(crate) fn low_word(number: i64) -> i32 {
    let low = number.rem_euclid(0x1_0000_0000);
    let signed = if low >= 0x8000_0000 {
        low.saturating_sub(0x1_0000_0000)
    } else {
        low
    };
    i32::try_from(signed).unwrap_or(0)
}

/// What is left of a number where a range is taken away as often as it is there.
fn within(number: i64, range: i64) -> i64 {
    if range > 0 {
        number.rem_euclid(range)
    } else {
        0
    }
}

/// A number of so many bits without or with its sign, as one of 32 bits with its sign.
pub(crate) fn number_of_width(number: i64, width: u32, signed: bool) -> i64 {
    let mut range: i64 = 1;
    for _ in 0..width.min(32) {
        range = range.saturating_mul(2);
    }
    let low = within(number, range);
    if (signed || width >= 32) && low >= range / 2 {
        low.saturating_sub(range)
    } else {
        low
    }
}

/// The lower half of a number, with its sign.
fn low_half(number: i32) -> i32 {
    let low = number.rem_euclid(0x1_0000);
    if low >= 0x8000 {
        low.saturating_sub(0x1_0000)
    } else {
        low
    }
}

/// Whether a number lies in a range.
pub fn is_within(number: i32, least: i32, most: i32) -> bool {
    least <= number && number <= most
}

impl<'f, 'a> Lowering<'f, 'a> {
    /// No operations, and no value anywhere.
    pub fn new(alloc: Global, function: &'f Function<'a>) -> Result<Lowering<'f, 'a>, NoMemory> {
        let mut held = Vec::new(alloc);
        for _ in 0..function.names.len() {
            push(&mut held, Held::Nowhere)?;
        }
        Ok(Lowering {
            alloc,
            function,
            names: Names::new(alloc),
            held,
            steps: Vec::new(alloc),
            loaded: Vec::new(alloc),
            multiples: Vec::new(alloc),
            line: function.line,
        })
    }

    /// The operations made since the last time, and none from now on.
    pub(crate) fn take_steps(&mut self) -> Vec<Step<'a>> {
        self.forget_numbers();
        self.multiples = Vec::new(self.alloc);
        std::mem::replace(&mut self.steps, Vec::new(self.alloc))
    }

    /// Makes each number anew from now on.
    pub(crate) fn forget_numbers(&mut self) {
        self.loaded = Vec::new(self.alloc);
    }

    /// The name in which a multiple of a word stands, where it does.
    pub fn multiple(&self, of: NameId, bytes: u32) -> Option<NameId> {
        for multiple in &self.multiples {
            if multiple.of == of && multiple.bytes == bytes {
                return Some(multiple.name);
            }
        }
        None
    }

    /// Says that a multiple of a word stands in a name.
    pub(crate) fn keep_multiple(
        &mut self,
        of: NameId,
        bytes: u32,
        name: NameId,
    ) -> Result<(), NoMemory> {
        push(&mut self.multiples, Multiple { of, bytes, name })
    }

    /// The names.
    pub(crate) fn into_names(self) -> Names<'a> {
        let Lowering { names, .. } = self;
        names
    }

    /// What is missing at the line.
    pub fn lacks(&self, missing: Missing) -> Refusal<'a> {
        Refusal::Lacks {
            line: self.line,
            missing,
            word: b"",
        }
    }

    /// A new name.
    pub fn fresh(&mut self, kind: Kind) -> Result<NameId, NoMemory> {
        self.names.add(kind, b"")
    }

    /// A name that is called as a value of LLVM's.
    pub(crate) fn name_for(
        &mut self,
        value: Option<ValueId>,
        kind: Kind,
    ) -> Result<NameId, NoMemory> {
        let text = match value {
            Some(value) => self.function.names.get(value).copied().unwrap_or(b""),
            None => b"",
        };
        self.names.add(kind, text)
    }

    /// Says what a value stands in.
    pub fn hold(&mut self, value: Option<ValueId>, held: Held) {
        if let Some(value) = value
            && let Some(place) = self.held.get_mut(value)
        {
            *place = held;
        }
    }

    /// What a value stands in.
    pub fn held(&self, value: ValueId) -> Held {
        self.held.get(value).copied().unwrap_or(Held::Nowhere)
    }

    /// An operation more, with this result.
    pub fn put(
        &mut self,
        op: Op,
        dst: Option<NameId>,
        srcs: &[NameId],
        imm: i32,
    ) -> Result<(), NoMemory> {
        let mut few = Few::new(self.alloc);
        for src in srcs {
            few.push(*src)?;
        }
        let step = Step {
            op,
            dst,
            srcs: few,
            imm,
            callee: b"",
        };
        push(&mut self.steps, step)
    }

    /// An operation more, whose result is a new word.
    pub fn made(&mut self, op: Op, srcs: &[NameId], imm: i32) -> Result<NameId, NoMemory> {
        let dst = self.fresh(Kind::General)?;
        self.put(op, Some(dst), srcs, imm)?;
        Ok(dst)
    }

    /// A comparison more, whose result is a new predicate.
    pub fn tested(&mut self, op: Op, srcs: &[NameId], imm: i32) -> Result<NameId, NoMemory> {
        let dst = self.fresh(Kind::Pred)?;
        self.put(op, Some(dst), srcs, imm)?;
        Ok(dst)
    }

    /// A new word with a number that one operation does not make: its upper half shifted into place, and the rest, which has a sign, added.
    fn wide(&mut self, number: i32) -> Result<NameId, NoMemory> {
        let low = low_half(number);
        let upper = i64::from(number).saturating_sub(i64::from(low)) / 0x1_0000;
        // (one more than the largest upper half is the least one, since words wrap)
        let upper = if upper > 32767 { -32768 } else { upper };
        let high = self.made(Op::Imm, &[], i32::try_from(upper).unwrap_or(0))?;
        let high = self.made(Op::Asl, &[high], 16)?;
        if low == 0 {
            return Ok(high);
        }
        self.made(Op::Addi, &[high], low)
    }

    /// A name with a number.
    pub fn number(&mut self, number: i64) -> Result<NameId, NoMemory> {
        let number = low_word(number);
        for loaded in &self.loaded {
            if loaded.number == number {
                return Ok(loaded.name);
            }
        }
        let name = if is_within(number, -32768, 32767) {
            self.made(Op::Imm, &[], number)?
        } else {
            self.wide(number)?
        };
        push(&mut self.loaded, Loaded { number, name })?;
        Ok(name)
    }

    /// A word that is one of two numbers.
    pub fn chosen(&mut self, pred: NameId, yes: i64, no: i64) -> Result<NameId, NoMemory> {
        let yes = self.number(yes)?;
        let no = self.number(no)?;
        self.made(Op::Mux, &[pred, yes, no], 0)
    }

    /// A word with what a value stands in; 0 or 1 for a truth value.
    fn word_held(&mut self, held: Held) -> Result<NameId, Refusal<'a>> {
        match held {
            Held::Nowhere => Err(self.lacks(Missing::Value)),
            Held::Word(name) | Held::Bit(name) => Ok(name),
            Held::Place { word, .. } => Ok(word),
            Held::Number(number) => Ok(self.number(number)?),
            Held::Truth { pred, negated } => {
                let (yes, no) = if negated { (0, 1) } else { (1, 0) };
                Ok(self.chosen(pred, yes, no)?)
            }
        }
    }

    /// A word with an operand.
    ///
    /// # Errors
    /// `Address` where it is one of a variable; `Value` where it is not there.
    pub fn word(&mut self, operand: &Operand<'a>) -> Result<NameId, Refusal<'a>> {
        match operand {
            Operand::Name(value) => self.word_held(self.held(*value)),
            Operand::Number(number) => Ok(self.number(*number)?),
            Operand::Address(word) => Err(Refusal::Lacks {
                line: self.line,
                missing: Missing::Address,
                word,
            }),
        }
    }

    /// The number that an operand is, where it is one.
    pub fn constant(&self, operand: &Operand<'a>) -> Option<i64> {
        match operand {
            Operand::Number(number) => Some(*number),
            Operand::Name(value) => match self.held(*value) {
                Held::Number(number) => Some(number),
                _ => None,
            },
            Operand::Address(_) => None,
        }
    }

    /// The predicate in which a truth value stands, where it does.
    pub(crate) fn truth_held(&self, operand: &Operand<'a>) -> Option<Truth> {
        match operand {
            Operand::Name(value) => match self.held(*value) {
                Held::Truth { pred, negated } => Some(Truth { pred, negated }),
                _ => None,
            },
            _ => None,
        }
    }

    /// A predicate with a truth value.
    pub fn truth(&mut self, operand: &Operand<'a>) -> Result<Truth, Refusal<'a>> {
        if let Some(truth) = self.truth_held(operand) {
            return Ok(truth);
        }
        let word = self.word(operand)?;
        let pred = self.tested(Op::CmpEqi, &[word], 0)?;
        Ok(Truth {
            pred,
            negated: true,
        })
    }

    /// A word with a number of so many bits, as one of 32 bits without or with its sign.
    pub fn full(
        &mut self,
        operand: &Operand<'a>,
        width: u32,
        signed: bool,
    ) -> Result<NameId, Refusal<'a>> {
        if let Some(number) = self.constant(operand) {
            return Ok(self.number(number_of_width(number, width, signed))?);
        }
        let word = self.word(operand)?;
        if width >= 32 || (width == 1 && !signed) {
            return Ok(word);
        }
        let by = i32::try_from(32u32.saturating_sub(width)).unwrap_or(0);
        if width <= 8 && !signed {
            return Ok(self.made(Op::Andi, &[word], low_bits(width))?);
        }
        let up = self.made(Op::Asl, &[word], by)?;
        let down = if signed { Op::Asr } else { Op::Lsr };
        Ok(self.made(down, &[up], by)?)
    }
}

/// The number whose lowest bits are set, so many, at most eight.
fn low_bits(width: u32) -> i32 {
    match width {
        0 => 0,
        1 => 1,
        2 => 3,
        3 => 7,
        4 => 15,
        5 => 31,
        6 => 63,
        7 => 127,
        _ => 255,
    }
}
