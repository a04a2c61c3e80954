//! Shifts by amounts that are not known, rotations, and what is computed of the bits of a word: steps of powers of two.

use crate::lowering::{Held, Lowering};
use crate::names::NameId;
use un_base::memory_error::NoMemory;
use un_isa::op::Op;
use un_llvm::function::{Action, Bits, NameId as ValueId, Operand};
use un_llvm::refusal::{Missing, Refusal};

/// Bits that are set in turns: so many are not, and so many are, from the upper end on.
#[derive(Clone, Copy)]
struct Turn {
    many: i32,
    mask: i64,
}

/// The turns, from single bits to half of a word.
static TURNS: [Turn; 5] = [
    Turn {
        many: 1,
        mask: 0x5555_5555,
    },
    Turn {
        many: 2,
        mask: 0x3333_3333,
    },
    Turn {
        many: 4,
        mask: 0x0f0f_0f0f,
    },
    Turn {
        many: 8,
        mask: 0x00ff_00ff,
    },
    Turn {
        many: 16,
        mask: 0x0000_ffff,
    },
];

/// The shifts that a shift by less than 32 is made of.
static SHIFTS: [i32; 5] = [1, 2, 4, 8, 16];

impl<'f, 'a> Lowering<'f, 'a> {
    /// A word shifted, or left as it is, as a bit of an amount says.
    fn shifted_once(
        &mut self,
        op: Op,
        word: NameId,
        amount: NameId,
        by: i32,
    ) -> Result<NameId, NoMemory> {
        let bit = self.made(Op::Andi, &[amount], by)?;
        let stays = self.tested(Op::CmpEqi, &[bit], 0)?;
        let moved = self.made(op, &[word], by)?;
        self.made(Op::Mux, &[stays, word, moved], 0)
    }

    /// A word shifted by the lower five bits of an amount.
    pub(crate) fn shifted_by(
        &mut self,
        op: Op,
        word: NameId,
        amount: NameId,
    ) -> Result<NameId, NoMemory> {
        let mut shifted = word;
        for by in SHIFTS.iter() {
            shifted = self.shifted_once(op, shifted, amount, *by)?;
        }
        Ok(shifted)
    }

    /// One half of two numbers of so many bits side by side that are shifted to the left by a number of bits, less than theirs.
    fn funnel_by(
        &mut self,
        value: Option<ValueId>,
        width: i32,
        high: &Operand<'a>,
        low: &Operand<'a>,
        left: i32,
    ) -> Result<(), Refusal<'a>> {
        if left == 0 {
            return self.same(value, high);
        }
        let bits = u32::try_from(width).unwrap_or(32);
        let (high, low) = (self.word(high)?, self.full(low, bits, false)?);
        let high = self.made(Op::Asl, &[high], left)?;
        let low = self.made(Op::Lsr, &[low], width.saturating_sub(left))?;
        self.word_for(value, Op::Or, &[high, low], 0)
    }

    /// One half of two words side by side that are shifted by an amount: one word is shifted by it, and the other one by one and by what is
    /// left to 31.
    fn funnel_variably(
        &mut self,
        value: Option<ValueId>,
        high: NameId,
        low: NameId,
        amount: NameId,
        right: bool,
    ) -> Result<(), Refusal<'a>> {
        let rest = self.inverted(amount)?;
        let (by_high, by_low) = if right {
            (rest, amount)
        } else {
            (amount, rest)
        };
        let (high, low) = if right {
            (self.made(Op::Asl, &[high], 1)?, low)
        } else {
            (high, self.made(Op::Lsr, &[low], 1)?)
        };
        let high = self.shifted_by(Op::Asl, high, by_high)?;
        let low = self.shifted_by(Op::Lsr, low, by_low)?;
        self.word_for(value, Op::Or, &[high, low], 0)
    }

    /// What shifts two words side by side.
    pub(crate) fn shifted_around(
        &mut self,
        value: Option<ValueId>,
        width: u32,
        action: &Action<'a>,
    ) -> Result<(), Refusal<'a>> {
        let Action::Funnel {
            high,
            low,
            amount,
            right,
        } = action
        else {
            return Ok(());
        };
        let Some(number) = self.constant(amount) else {
            if width != 32 {
                return Err(self.lacks(Missing::Width));
            }
            let (high, low) = (self.word(high)?, self.word(low)?);
            let amount = self.word(amount)?;
            return self.funnel_variably(value, high, low, amount, *right);
        };
        let (bits, by) = match width {
            8 => (8, number.rem_euclid(8)),
            16 => (16, number.rem_euclid(16)),
            32 => (32, number.rem_euclid(32)),
            _ => return Err(self.lacks(Missing::Width)),
        };
        let by = i32::try_from(by).unwrap_or(0);
        match (by, *right) {
            (0, true) => self.same(value, low),
            (by, true) => self.funnel_by(value, bits, high, low, bits.saturating_sub(by)),
            (by, false) => self.funnel_by(value, bits, high, low, by),
        }
    }

    /// A word whose bits are set where those of another one are not.
    fn inverted(&mut self, word: NameId) -> Result<NameId, NoMemory> {
        let ones = self.number(-1)?;
        self.made(Op::Xor, &[word, ones], 0)
    }

    /// The bits of a word in turns: those that a mask has, and the others behind them.
    fn parted(&mut self, word: NameId, turn: &Turn) -> Result<(NameId, NameId), NoMemory> {
        let mask = self.number(turn.mask)?;
        let kept = self.made(Op::And, &[word, mask], 0)?;
        let moved = self.made(Op::Lsr, &[word], turn.many)?;
        let moved = self.made(Op::And, &[moved, mask], 0)?;
        Ok((kept, moved))
    }

    /// How many bits of a word are set: sums of neighbours, which grow together.
    fn population(&mut self, word: NameId) -> Result<NameId, NoMemory> {
        let mut sums = word;
        for turn in TURNS.iter() {
            let (kept, moved) = self.parted(sums, turn)?;
            sums = self.made(Op::Add, &[kept, moved], 0)?;
        }
        Ok(sums)
    }

    /// A word whose parts change places with their neighbours, from parts of so many bits on.
    fn reversed(&mut self, word: NameId, from: i32) -> Result<NameId, NoMemory> {
        let mut found = word;
        for turn in TURNS.iter() {
            if turn.many >= from {
                let (kept, moved) = self.parted(found, turn)?;
                let kept = self.made(Op::Asl, &[kept], turn.many)?;
                found = self.made(Op::Or, &[kept, moved], 0)?;
            }
        }
        Ok(found)
    }

    /// How many bits of a word stand before the first one that is set: those that are not set when all behind it are.
    fn leading(&mut self, word: NameId) -> Result<NameId, NoMemory> {
        let mut filled = word;
        for by in SHIFTS.iter() {
            let moved = self.made(Op::Lsr, &[filled], *by)?;
            filled = self.made(Op::Or, &[filled, moved], 0)?;
        }
        let others = self.inverted(filled)?;
        self.population(others)
    }

    /// The bits behind the last one that is set: those that are not set, and are where one is taken away.
    fn behind_last(&mut self, word: NameId) -> Result<NameId, NoMemory> {
        let others = self.inverted(word)?;
        let less = self.made(Op::Addi, &[word], -1)?;
        self.made(Op::And, &[others, less], 0)
    }

    /// What is computed of the bits of a word.
    fn counted_word(&mut self, what: Bits, word: NameId) -> Result<NameId, NoMemory> {
        match what {
            Bits::Population => self.population(word),
            Bits::Leading => self.leading(word),
            Bits::Trailing => {
                let behind = self.behind_last(word)?;
                self.population(behind)
            }
            Bits::Reversed => self.reversed(word, 1),
            Bits::Swapped => self.reversed(word, 8),
        }
    }

    /// What is computed of the bits of a number of so many bits. What changes the order of bits brings those of fewer to the upper end.
    pub fn counted(
        &mut self,
        value: Option<ValueId>,
        what: Bits,
        width: u32,
        operand: &Operand<'a>,
    ) -> Result<(), Refusal<'a>> {
        let is_order = matches!(what, Bits::Reversed | Bits::Swapped);
        if width < 32 && !is_order {
            return Err(self.lacks(Missing::Width));
        }
        let word = self.word(operand)?;
        let found = self.counted_word(what, word)?;
        if width >= 32 {
            self.hold(value, Held::Word(found));
            return Ok(());
        }
        let by = i32::try_from(32u32.saturating_sub(width)).unwrap_or(0);
        self.word_for(value, Op::Lsr, &[found], by)
    }
}
