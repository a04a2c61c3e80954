//! Memory that is copied or filled: word by word, a few words at once and more of them by a loop.

use crate::body::{BlockId, End, Fork};
use crate::edges::Layout;
use crate::lowering::Lowering;
use crate::names::NameId;
use un_base::memory_error::NoMemory;
use un_isa::op::Op;
use un_llvm::function::{
    Action, Binary, BlockId as Origin, Instruction, NameId as ValueId, Operand,
};
use un_llvm::lists::push;
use un_llvm::refusal::{Missing, Refusal};

/// How many bytes are copied or filled without a loop.
const FEW: i64 = 64;

/// What is stored: copies of the words from an address on, or one word.
#[derive(Clone, Copy)]
enum Stored {
    From(NameId),
    Word(NameId),
}

/// Where words are stored, and which.
#[derive(Clone, Copy)]
struct Row {
    to: NameId,
    stored: Stored,
}

/// A row that is stored word by word: how far it is to the next word, four where nothing is said, and where there is none.
#[derive(Clone, Copy)]
struct Walk {
    row: Row,
    step: Option<NameId>,
    end: NameId,
}

/// A row, how many bytes it has, and whether what is stored may lie where it is stored.
#[derive(Clone, Copy)]
struct Moved<'o, 'a> {
    row: Row,
    bytes: &'o Operand<'a>,
    overlaps: bool,
}

/// Whether a value is a multiple of four: always, where another one is, or nobody knows.
#[derive(Clone, Copy)]
enum Fours<'a> {
    Always,
    As(Operand<'a>),
    Unknown,
}

/// Whether what is computed of a value and a number is a multiple of four.
fn computed_fours<'a>(what: Binary, left: Operand<'a>, number: i64) -> Fours<'a> {
    let is_of_fours = number.rem_euclid(4) == 0;
    match what {
        Binary::ShiftLeft if number >= 2 && number < 32 => Fours::Always,
        Binary::Mul | Binary::And if is_of_fours => Fours::Always,
        Binary::Add | Binary::Sub if is_of_fours => Fours::As(left),
        _ => Fours::Unknown,
    }
}

/// Whether the value that an instruction makes is a multiple of four.
fn made_fours<'a>(instruction: &Instruction<'a>) -> Fours<'a> {
    match &instruction.action {
        Action::Compute {
            what,
            left,
            right: Operand::Number(number),
        } if instruction.width == 32 => computed_fours(*what, *left, *number),
        _ => Fours::Unknown,
    }
}

/// How many instructions are looked at to see whether a value is a multiple of four.
const LOOKS: u32 = 8;

impl<'f, 'a> Lowering<'f, 'a> {
    /// Whether a value is a multiple of four.
    fn fours(&self, value: ValueId) -> Fours<'a> {
        for block in &self.function.blocks {
            for instruction in &block.instructions {
                if instruction.result == Some(value) {
                    return made_fours(instruction);
                }
            }
        }
        Fours::Unknown
    }

    /// Whether an operand is known to be a multiple of four.
    fn is_of_fours(&self, operand: &Operand<'a>) -> bool {
        let mut at = *operand;
        for _ in 0..LOOKS {
            let fours = match at {
                Operand::Number(number) => return number.rem_euclid(4) == 0,
                Operand::Name(value) => self.fours(value),
                Operand::Address(_) => Fours::Unknown,
            };
            match fours {
                Fours::Always => return true,
                Fours::As(operand) => at = operand,
                Fours::Unknown => return false,
            }
        }
        false
    }

    /// A word that is four times a byte.
    fn four_bytes(&mut self, byte: &Operand<'a>) -> Result<NameId, Refusal<'a>> {
        if let Some(number) = self.constant(byte) {
            return Ok(self.number(number.rem_euclid(256).saturating_mul(0x0101_0101))?);
        }
        let byte = self.full(byte, 8, false)?;
        let times = self.number(0x0101_0101)?;
        Ok(self.made(Op::Mpyi, &[byte, times], 0)?)
    }

    /// The words at an address, so many.
    fn loaded(&mut self, from: NameId, count: i32) -> Result<Vec<NameId>, NoMemory> {
        let mut words = Vec::new(self.alloc);
        for k in 0..count {
            let word = self.made(Op::Load, &[from], k.saturating_mul(4))?;
            push(&mut words, word)?;
        }
        Ok(words)
    }

    /// Stores a few words: all are loaded before the first is stored.
    fn store_few(&mut self, row: Row, count: i32) -> Result<(), NoMemory> {
        let words = match row.stored {
            Stored::From(from) => self.loaded(from, count)?,
            Stored::Word(_) => Vec::new(self.alloc),
        };
        for k in 0..count {
            let place = usize::try_from(k).unwrap_or(0);
            let word = match row.stored {
                Stored::Word(word) => Some(word),
                Stored::From(_) => words.get(place).copied(),
            };
            if let Some(word) = word {
                self.put(Op::Store, None, &[row.to, word], k.saturating_mul(4))?;
            }
        }
        Ok(())
    }

    /// A walk over a row of so many bytes from its first word to its last. All names that it changes are new.
    fn forward(&mut self, row: Row, bytes: NameId) -> Result<Walk, NoMemory> {
        let end = self.made(Op::Add, &[row.to, bytes], 0)?;
        let to = self.made(Op::Mov, &[row.to], 0)?;
        let stored = match row.stored {
            Stored::From(from) => Stored::From(self.made(Op::Mov, &[from], 0)?),
            Stored::Word(word) => Stored::Word(word),
        };
        Ok(Walk {
            row: Row { to, stored },
            step: None,
            end,
        })
    }

    /// Where there is no more word of a row: before it where the walk goes back, and behind it.
    fn end_of(&mut self, back: NameId, to: NameId, bytes: NameId) -> Result<NameId, NoMemory> {
        let before = self.made(Op::Addi, &[to], -4)?;
        let behind = self.made(Op::Add, &[to, bytes], 0)?;
        self.made(Op::Mux, &[back, before, behind], 0)
    }

    /// How far behind its start a walk over so many bytes begins.
    fn first_of(&mut self, back: NameId, bytes: NameId) -> Result<NameId, NoMemory> {
        let last = self.made(Op::Addi, &[bytes], -4)?;
        let none = self.number(0)?;
        self.made(Op::Mux, &[back, last, none], 0)
    }

    /// A walk over a row of so many bytes that are copied to a place which they may have words in common with: it goes from the last word to
    /// the first where that place stands behind.
    fn careful(&mut self, to: NameId, from: NameId, bytes: NameId) -> Result<Walk, NoMemory> {
        let back = self.tested(Op::CmpGtu, &[to, from], 0)?;
        let end = self.end_of(back, to, bytes)?;
        let first = self.first_of(back, bytes)?;
        let step = self.chosen(back, -4, 4)?;
        let row = Row {
            to: self.made(Op::Add, &[to, first], 0)?,
            stored: Stored::From(self.made(Op::Add, &[from, first], 0)?),
        };
        Ok(Walk {
            row,
            step: Some(step),
            end,
        })
    }

    /// Goes on from an address to the next.
    fn go_on(&mut self, address: NameId, step: Option<NameId>) -> Result<(), NoMemory> {
        match step {
            Some(step) => self.put(Op::Add, Some(address), &[address, step], 0),
            None => self.put(Op::Addi, Some(address), &[address], 4),
        }
    }

    /// Stores a word, goes on to the next, and answers the predicate that there is none.
    fn store_next(&mut self, walk: Walk) -> Result<NameId, NoMemory> {
        let Walk { row, step, end } = walk;
        match row.stored {
            Stored::Word(word) => self.put(Op::Store, None, &[row.to, word], 0)?,
            Stored::From(from) => {
                let word = self.made(Op::Load, &[from], 0)?;
                self.put(Op::Store, None, &[row.to, word], 0)?;
                self.go_on(from, step)?;
            }
        }
        self.go_on(row.to, step)?;
        self.tested(Op::CmpEq, &[row.to, end], 0)
    }
}

impl<'a> Layout<'a> {
    /// A loop that stores words, behind what is made at a place; answers the place behind it.
    fn store_all(
        &mut self,
        low: &mut Lowering<'_, 'a>,
        origin: Origin,
        at: BlockId,
        walk: Walk,
        bytes: NameId,
    ) -> Result<BlockId, NoMemory> {
        let none = low.tested(Op::CmpEqi, &[bytes], 0)?;
        let often = self.often(origin);
        let turns = often.saturating_mul(10).min(1_000_000);
        let body = self.add(origin, turns, End::Return(None))?;
        let after = self.add(origin, often, End::Return(None))?;
        let fork = |pred: NameId| Fork {
            pred,
            negated: false,
            yes: after,
            no: body,
        };
        self.fill(low, at, End::Fork(fork(none)));
        let last = low.store_next(walk)?;
        self.fill(low, body, End::Fork(fork(last)));
        Ok(after)
    }

    /// Stores so many bytes of words, behind what is made at a place; answers the place behind that.
    fn store_row(
        &mut self,
        low: &mut Lowering<'_, 'a>,
        origin: Origin,
        at: BlockId,
        moved: Moved<'_, 'a>,
    ) -> Result<BlockId, Refusal<'a>> {
        let row = moved.row;
        if let Some(number) = low.constant(moved.bytes)
            && number <= FEW
        {
            low.store_few(row, i32::try_from(number / 4).unwrap_or(0))?;
            return Ok(at);
        }
        let bytes = low.word(moved.bytes)?;
        let walk = match row.stored {
            Stored::From(from) if moved.overlaps => low.careful(row.to, from, bytes)?,
            _ => low.forward(row, bytes)?,
        };
        Ok(self.store_all(low, origin, at, walk, bytes)?)
    }

    /// The operations of an instruction that stores words, behind what is made at a place; answers the place behind them.
    pub fn stored(
        &mut self,
        low: &mut Lowering<'_, 'a>,
        origin: Origin,
        at: BlockId,
        action: &Action<'a>,
    ) -> Result<BlockId, Refusal<'a>> {
        let (to, stored, bytes, overlaps) = match action {
            Action::Copy {
                to,
                from,
                bytes,
                overlaps,
            } => (to, Stored::From(low.word(from)?), bytes, *overlaps),
            Action::Fill { to, byte, bytes } => {
                (to, Stored::Word(low.four_bytes(byte)?), bytes, false)
            }
            _ => return Ok(at),
        };
        if !low.is_of_fours(bytes) {
            return Err(low.lacks(Missing::Words));
        }
        let row = Row {
            to: low.word(to)?,
            stored,
        };
        let moved = Moved {
            row,
            bytes,
            overlaps,
        };
        self.store_row(low, origin, at, moved)
    }
}
