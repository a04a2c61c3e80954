//! Divisions: a loop over the bits of the number that is divided, from the first to the last.

use crate::body::{BlockId, End, Fork};
use crate::edges::Layout;
use crate::lowering::{Held, Lowering};
use crate::names::NameId;
use un_base::memory_error::NoMemory;
use un_isa::op::Op;
use un_llvm::function::{Action, Binary, BlockId as Origin, Instruction};
use un_llvm::refusal::Refusal;

/// The names of a division: the number, which becomes the quotient bit by bit; what is left of its bits so far; the divisor; the turns that
/// are left.
#[derive(Clone, Copy)]
struct Divided {
    number: NameId,
    rest: NameId,
    by: NameId,
    turns: NameId,
}

/// What a division asks for: numbers of so many bits with or without signs, and their quotient or their remainder.
#[derive(Clone, Copy)]
struct Asked {
    signed: bool,
    remainder: bool,
}

/// What a computation asks for, where it is a division.
fn asked_of(what: Binary) -> Option<Asked> {
    let (signed, remainder) = match what {
        Binary::Divide => (true, false),
        Binary::Remainder => (true, true),
        Binary::DivideUnsigned => (false, false),
        Binary::RemainderUnsigned => (false, true),
        _ => return None,
    };
    Some(Asked { signed, remainder })
}

impl<'f, 'a> Lowering<'f, 'a> {
    /// All bits of a word set where it is negative, and none else.
    fn sign(&mut self, word: NameId) -> Result<NameId, NoMemory> {
        self.made(Op::Asr, &[word], 31)
    }

    /// A word turned round where a sign is one of a negative number.
    fn turned(&mut self, word: NameId, sign: NameId) -> Result<NameId, NoMemory> {
        let flipped = self.made(Op::Xor, &[word, sign], 0)?;
        self.made(Op::Sub, &[flipped, sign], 0)
    }

    /// A word without its sign.
    fn without_sign(&mut self, word: NameId) -> Result<NameId, NoMemory> {
        let sign = self.sign(word)?;
        self.turned(word, sign)
    }

    /// A new name with a number.
    fn counter(&mut self, number: i32) -> Result<NameId, NoMemory> {
        self.made(Op::Imm, &[], number)
    }

    /// The names of a division of two words without signs.
    fn begun(&mut self, number: NameId, by: NameId) -> Result<Divided, NoMemory> {
        Ok(Divided {
            number: self.made(Op::Mov, &[number], 0)?,
            rest: self.counter(0)?,
            by,
            turns: self.counter(32)?,
        })
    }

    /// What is left of a number's bits so far, with its next bit.
    fn next_rest(&mut self, divided: Divided) -> Result<NameId, NoMemory> {
        let top = self.made(Op::Lsr, &[divided.number], 31)?;
        let moved = self.made(Op::Asl, &[divided.rest], 1)?;
        self.made(Op::Or, &[moved, top], 0)
    }

    /// Takes the divisor away from what is left, where it is not more.
    fn take_away(&mut self, divided: Divided, left: NameId, less: NameId) -> Result<(), NoMemory> {
        let taken = self.made(Op::Sub, &[left, divided.by], 0)?;
        self.put(Op::Mux, Some(divided.rest), &[less, left, taken], 0)
    }

    /// Adds a bit to the quotient: whether the divisor was taken away.
    fn add_bit(&mut self, divided: Divided, less: NameId) -> Result<(), NoMemory> {
        let zero = self.made(Op::Asl, &[divided.number], 1)?;
        let one = self.made(Op::Addi, &[zero], 1)?;
        self.put(Op::Mux, Some(divided.number), &[less, zero, one], 0)
    }

    /// One turn of a division; answers the predicate that there are more.
    fn divide_once(&mut self, divided: Divided) -> Result<NameId, NoMemory> {
        let left = self.next_rest(divided)?;
        let less = self.tested(Op::CmpGtu, &[divided.by, left], 0)?;
        self.take_away(divided, left, less)?;
        self.add_bit(divided, less)?;
        let turns = divided.turns;
        self.put(Op::Addi, Some(turns), &[turns], -1)?;
        self.tested(Op::CmpGti, &[turns], 0)
    }

    /// The quotient or the remainder of a division that is done, with its sign: the remainder has that of the number.
    fn ended(
        &mut self,
        asked: Asked,
        divided: Divided,
        number: NameId,
        by: NameId,
    ) -> Result<NameId, NoMemory> {
        let found = if asked.remainder {
            divided.rest
        } else {
            divided.number
        };
        if !asked.signed {
            return Ok(found);
        }
        let both = if asked.remainder {
            number
        } else {
            self.made(Op::Xor, &[number, by], 0)?
        };
        let sign = self.sign(both)?;
        self.turned(found, sign)
    }
}

impl<'a> Layout<'a> {
    /// The loop of a division, behind what is made at a place; answers the place behind it.
    fn divide_all(
        &mut self,
        low: &mut Lowering<'_, 'a>,
        origin: Origin,
        at: BlockId,
        divided: Divided,
    ) -> Result<BlockId, NoMemory> {
        let often = self.often(origin);
        let turns = often.saturating_mul(32).min(1_000_000);
        let body = self.add(origin, turns, End::Return(None))?;
        let after = self.add(origin, often, End::Return(None))?;
        self.fill(low, at, End::Jump(body));
        let pred = low.divide_once(divided)?;
        let fork = Fork {
            pred,
            negated: false,
            yes: body,
            no: after,
        };
        self.fill(low, body, End::Fork(fork));
        Ok(after)
    }

    /// The quotient or the remainder of two words, behind what is made at a place; answers the place behind that, and the word.
    fn divide(
        &mut self,
        low: &mut Lowering<'_, 'a>,
        origin: Origin,
        at: BlockId,
        asked: Asked,
        words: (NameId, NameId),
    ) -> Result<(BlockId, NameId), NoMemory> {
        let (number, by) = words;
        let divided = if asked.signed {
            let positive = low.without_sign(number)?;
            let by = low.without_sign(by)?;
            low.begun(positive, by)?
        } else {
            low.begun(number, by)?
        };
        let after = self.divide_all(low, origin, at, divided)?;
        let found = low.ended(asked, divided, number, by)?;
        Ok((after, found))
    }

    /// The operations of an instruction, behind what is made at a place; answers the place behind them.
    pub fn lower(
        &mut self,
        low: &mut Lowering<'_, 'a>,
        origin: Origin,
        at: BlockId,
        instruction: &Instruction<'a>,
    ) -> Result<BlockId, Refusal<'a>> {
        low.line = instruction.line;
        match &instruction.action {
            Action::Copy { .. } | Action::Fill { .. } => {
                self.stored(low, origin, at, &instruction.action)
            }
            Action::Compute { what, left, right } => match asked_of(*what) {
                Some(asked) if low.power_divided(instruction).is_none() => {
                    let width = instruction.width;
                    let number = low.full(left, width, asked.signed)?;
                    let by = low.full(right, width, asked.signed)?;
                    let (after, found) = self.divide(low, origin, at, asked, (number, by))?;
                    low.hold(instruction.result, Held::Word(found));
                    Ok(after)
                }
                _ => low.lower(instruction).map(|()| at),
            },
            _ => low.lower(instruction).map(|()| at),
        }
    }
}
