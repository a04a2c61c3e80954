//! Computations of two values.

use crate::lowering::{Held, Lowering, Truth, is_within, low_word};
use crate::names::NameId;
use un_ir::function::Kind;
use un_isa::op::Op;
use un_llvm::function::{Action, Binary, Instruction, NameId as ValueId, Operand, Relation};
use un_llvm::refusal::{Missing, Refusal};

/// The operation of two words that a computation is.
fn plain(what: Binary) -> Option<Op> {
    match what {
        Binary::Add => Some(Op::Add),
        Binary::Sub => Some(Op::Sub),
        Binary::Mul => Some(Op::Mpyi),
        Binary::And => Some(Op::And),
        Binary::Or => Some(Op::Or),
        Binary::Xor => Some(Op::Xor),
        _ => None,
    }
}

/// The shift that a computation is.
fn shift(what: Binary) -> Option<Op> {
    match what {
        Binary::ShiftLeft => Some(Op::Asl),
        Binary::ShiftRight => Some(Op::Lsr),
        Binary::ShiftSigned => Some(Op::Asr),
        _ => None,
    }
}

/// Whether the operands may be changed round.
fn commutes(what: Binary) -> bool {
    matches!(
        what,
        Binary::Add | Binary::Mul | Binary::And | Binary::Or | Binary::Xor
    )
}

/// The relation by which the greater or the smaller of two values is chosen, and whether the first is taken where it holds.
fn chooser(what: Binary) -> Option<(Relation, bool)> {
    match what {
        Binary::Least => Some((Relation::Greater, false)),
        Binary::Most => Some((Relation::Greater, true)),
        Binary::LeastUnsigned => Some((Relation::GreaterUnsigned, false)),
        Binary::MostUnsigned => Some((Relation::GreaterUnsigned, true)),
        _ => None,
    }
}

/// The power of two that a number is, 1 to 30.
fn power(number: i32) -> Option<i32> {
    let mut found: i32 = 2;
    for power in 1..31i32 {
        if found == number {
            return Some(power);
        }
        found = found.saturating_mul(2);
    }
    None
}

/// The operation with a number, and the number, that a computation with it is.
fn with_number(what: Binary, number: i32) -> Option<(Op, i32)> {
    match what {
        Binary::Add if is_within(number, -32768, 32767) => Some((Op::Addi, number)),
        Binary::Sub if is_within(number, -32767, 32768) => {
            Some((Op::Addi, 0i32.saturating_sub(number)))
        }
        Binary::And if is_within(number, -512, 511) => Some((Op::Andi, number)),
        Binary::Or if is_within(number, -512, 511) => Some((Op::Ori, number)),
        Binary::Mul => Some((Op::Asl, power(number)?)),
        _ => None,
    }
}

impl<'f, 'a> Lowering<'f, 'a> {
    /// An operation whose result is the word of a value.
    pub(crate) fn word_for(
        &mut self,
        value: Option<ValueId>,
        op: Op,
        srcs: &[NameId],
        imm: i32,
    ) -> Result<(), Refusal<'a>> {
        let dst = self.name_for(value, Kind::General)?;
        self.put(op, Some(dst), srcs, imm)?;
        self.hold(value, Held::Word(dst));
        Ok(())
    }

    /// The one or the other of two words, which is the word of a value.
    pub(crate) fn choice_for(
        &mut self,
        value: Option<ValueId>,
        truth: Truth,
        yes: NameId,
        no: NameId,
    ) -> Result<(), Refusal<'a>> {
        let (yes, no) = if truth.negated { (no, yes) } else { (yes, no) };
        self.word_for(value, Op::Mux, &[truth.pred, yes, no], 0)
    }

    /// A shift.
    fn shifted(
        &mut self,
        value: Option<ValueId>,
        op: Op,
        width: u32,
        left: &Operand<'a>,
        right: &Operand<'a>,
    ) -> Result<(), Refusal<'a>> {
        let word = match op {
            Op::Asl => self.word(left)?,
            _ => self.full(left, width, op == Op::Asr)?,
        };
        let Some(number) = self.constant(right) else {
            let amount = self.word(right)?;
            let shifted = self.shifted_by(op, word, amount)?;
            self.hold(value, Held::Word(shifted));
            return Ok(());
        };
        let by = i32::try_from(number.rem_euclid(32)).unwrap_or(0);
        self.word_for(value, op, &[word], by)
    }

    /// The power of two by which an instruction divides numbers with signs, where it is one that does.
    pub(crate) fn power_divided(&self, instruction: &Instruction<'a>) -> Option<i32> {
        match &instruction.action {
            Action::Compute {
                what: Binary::Divide | Binary::Remainder,
                right,
                ..
            } if instruction.width == 32 => self.constant(right).and_then(|n| power(low_word(n))),
            _ => None,
        }
    }

    /// A division by a power of two: what a negative number lacks to the next multiple is added before it is shifted. The remainder is what
    /// the number is more than the multiple.
    fn divided(
        &mut self,
        value: Option<ValueId>,
        what: Binary,
        left: &Operand<'a>,
        right: &Operand<'a>,
    ) -> Result<(), Refusal<'a>> {
        let Some(by) = self.constant(right).and_then(|n| power(low_word(n))) else {
            return Err(self.lacks(Missing::Instruction));
        };
        let word = self.word(left)?;
        let sign = self.made(Op::Asr, &[word], 31)?;
        let most = self.made(Op::Lsr, &[sign], 32i32.saturating_sub(by))?;
        let sum = self.made(Op::Add, &[word, most], 0)?;
        if what == Binary::Divide {
            return self.word_for(value, Op::Asr, &[sum], by);
        }
        let quotient = self.made(Op::Asr, &[sum], by)?;
        let multiple = self.made(Op::Asl, &[quotient], by)?;
        self.word_for(value, Op::Sub, &[word, multiple], 0)
    }

    /// The greater or the smaller of two values.
    fn extreme(
        &mut self,
        value: Option<ValueId>,
        chooser: (Relation, bool),
        width: u32,
        left: &Operand<'a>,
        right: &Operand<'a>,
    ) -> Result<(), Refusal<'a>> {
        let (relation, takes_first) = chooser;
        let truth = self.related(None, relation, width, left, right)?;
        let first = self.word(left)?;
        let second = self.word(right)?;
        if takes_first {
            self.choice_for(value, truth, first, second)
        } else {
            self.choice_for(value, truth, second, first)
        }
    }

    /// A sum or a difference of numbers without signs, which ends at the largest number or at 0.
    fn limited(
        &mut self,
        value: Option<ValueId>,
        what: Binary,
        left: &Operand<'a>,
        right: &Operand<'a>,
    ) -> Result<(), Refusal<'a>> {
        let (first, second) = (self.word(left)?, self.word(right)?);
        if what == Binary::SubLimited {
            self.less_limited(value, first, second)
        } else {
            self.sum_limited(value, first, second)
        }
    }

    /// A difference of words without signs, or 0.
    fn less_limited(
        &mut self,
        value: Option<ValueId>,
        first: NameId,
        second: NameId,
    ) -> Result<(), Refusal<'a>> {
        let pred = self.tested(Op::CmpGtu, &[first, second], 0)?;
        let less = self.made(Op::Sub, &[first, second], 0)?;
        let zero = self.number(0)?;
        self.word_for(value, Op::Mux, &[pred, less, zero], 0)
    }

    /// A sum of words without signs, or the largest number.
    fn sum_limited(
        &mut self,
        value: Option<ValueId>,
        first: NameId,
        second: NameId,
    ) -> Result<(), Refusal<'a>> {
        let sum = self.made(Op::Add, &[first, second], 0)?;
        let pred = self.tested(Op::CmpGtu, &[first, sum], 0)?;
        let most = self.number(-1)?;
        self.word_for(value, Op::Mux, &[pred, most, sum], 0)
    }

    /// A computation of two truth values, as one of words that are 0 or 1.
    fn logical(
        &mut self,
        value: Option<ValueId>,
        what: Binary,
        left: &Operand<'a>,
        right: &Operand<'a>,
    ) -> Result<(), Refusal<'a>> {
        if what == Binary::Xor && self.constant(right).is_some_and(|n| n % 2 != 0) {
            let Truth { pred, negated } = self.truth(left)?;
            self.hold(
                value,
                Held::Truth {
                    pred,
                    negated: !negated,
                },
            );
            return Ok(());
        }
        let (first, second) = (self.word(left)?, self.word(right)?);
        let op = match what {
            Binary::And | Binary::Mul => Op::And,
            Binary::Or => Op::Or,
            Binary::Xor | Binary::Add | Binary::Sub => Op::Xor,
            _ => return Err(self.lacks(Missing::Width)),
        };
        let dst = self.name_for(value, Kind::General)?;
        self.put(op, Some(dst), &[first, second], 0)?;
        self.hold(value, Held::Bit(dst));
        Ok(())
    }

    /// A computation of two words, one of which may be a number.
    fn computed(
        &mut self,
        value: Option<ValueId>,
        what: Binary,
        left: &Operand<'a>,
        right: &Operand<'a>,
    ) -> Result<(), Refusal<'a>> {
        let changes = commutes(what) && self.constant(left).is_some();
        let (left, right) = if changes {
            (right, left)
        } else {
            (left, right)
        };
        if let Some(number) = self.constant(right)
            && let Some((op, imm)) = with_number(what, low_word(number))
        {
            let word = self.word(left)?;
            return self.word_for(value, op, &[word], imm);
        }
        let Some(op) = plain(what) else {
            return Err(self.lacks(Missing::Instruction));
        };
        let (first, second) = (self.word(left)?, self.word(right)?);
        self.word_for(value, op, &[first, second], 0)
    }

    /// A computation of two values of so many bits.
    pub fn compute(
        &mut self,
        value: Option<ValueId>,
        what: Binary,
        width: u32,
        left: &Operand<'a>,
        right: &Operand<'a>,
    ) -> Result<(), Refusal<'a>> {
        if width == 1 {
            return self.logical(value, what, left, right);
        }
        if let Some(op) = shift(what) {
            return self.shifted(value, op, width, left, right);
        }
        if let Some(chooser) = chooser(what) {
            return self.extreme(value, chooser, width, left, right);
        }
        match what {
            Binary::Divide | Binary::Remainder => self.divided(value, what, left, right),
            Binary::AddLimited | Binary::SubLimited if width == 32 => {
                self.limited(value, what, left, right)
            }
            Binary::AddLimited | Binary::SubLimited => Err(self.lacks(Missing::Width)),
            Binary::DivideUnsigned | Binary::RemainderUnsigned => {
                Err(self.lacks(Missing::Instruction))
            }
            _ => self.computed(value, what, left, right),
        }
    }
}
