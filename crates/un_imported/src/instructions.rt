//! The operations of an instruction.

use crate::body::Step;
use crate::lowering::{Held, Lowering, Truth, is_within};
use crate::names::NameId;
use un_base::memory_error::NoMemory;
use un_base::name::Name;
use un_ir::function::Kind;
use un_isa::op::Op;
use un_lists::few::Few;
use un_llvm::function::{Action, Argument, Instruction, NameId as ValueId, Operand, Scaled};
use un_llvm::lists::push;
use un_llvm::refusal::{Missing, Refusal};

/// A base, and how many bytes behind it.
#[derive(Clone, Copy)]
struct Address {
    base: NameId,
    offset: i32,
}

/// Whether a load and a store have room for an offset.
fn is_offset(offset: i32) -> bool {
    is_within(offset, -4096, 4092) && offset.rem_euclid(4) == 0
}

/// How far a size shifts, where it is a power of two.
fn shift_of(bytes: u32) -> Option<i32> {
    let mut size: u32 = 1;
    for shift in 0..31i32 {
        if size == bytes {
            return Some(shift);
        }
        size = size.saturating_mul(2);
    }
    None
}

impl<'f, 'a> Lowering<'f, 'a> {
    /// The base and the offset of an operand that is an address.
    fn address(&mut self, operand: &Operand<'a>) -> Result<Address, Refusal<'a>> {
        if let Operand::Name(value) = operand
            && let Held::Place { base, offset, .. } = self.held(*value)
        {
            return Ok(Address { base, offset });
        }
        let base = self.word(operand)?;
        Ok(Address { base, offset: 0 })
    }

    /// A word times a size.
    fn multiplied(&mut self, word: NameId, bytes: u32) -> Result<NameId, NoMemory> {
        match shift_of(bytes) {
            Some(shift) => self.made(Op::Asl, &[word], shift),
            None => {
                let size = self.number(i64::from(bytes))?;
                self.made(Op::Mpyi, &[word, size], 0)
            }
        }
    }

    /// A word that is an operand times a size.
    fn scaled(&mut self, part: &Scaled<'a>) -> Result<NameId, Refusal<'a>> {
        let word = self.word(&part.operand)?;
        if part.bytes == 1 {
            return Ok(word);
        }
        if let Some(name) = self.multiple(word, part.bytes) {
            return Ok(name);
        }
        let name = self.multiplied(word, part.bytes)?;
        self.keep_multiple(word, part.bytes, name)?;
        Ok(name)
    }

    /// The word of an address that is a base and an offset.
    fn place_for(&mut self, value: Option<ValueId>, address: Address) -> Result<(), Refusal<'a>> {
        let Address { base, offset } = address;
        if offset == 0 {
            self.hold(value, Held::Word(base));
            return Ok(());
        }
        let word = self.name_for(value, Kind::General)?;
        if is_within(offset, -32768, 32767) {
            self.put(Op::Addi, Some(word), &[base], offset)?;
        } else {
            let far = self.number(i64::from(offset))?;
            self.put(Op::Add, Some(word), &[base, far], 0)?;
        }
        let held = if is_offset(offset) {
            Held::Place { word, base, offset }
        } else {
            Held::Word(word)
        };
        self.hold(value, held);
        Ok(())
    }

    /// An address that is made of a base, operands times sizes, and a number of bytes.
    fn locate(
        &mut self,
        value: Option<ValueId>,
        base: &Operand<'a>,
        parts: &[Scaled<'a>],
        offset: i64,
    ) -> Result<(), Refusal<'a>> {
        let mut address = if parts.is_empty() {
            self.address(base)?
        } else {
            let base = self.word(base)?;
            Address { base, offset: 0 }
        };
        for part in parts {
            let more = self.scaled(part)?;
            address.base = self.made(Op::Add, &[address.base, more], 0)?;
        }
        let sum = offset.saturating_add(i64::from(address.offset));
        let Ok(offset) = i32::try_from(sum) else {
            return Err(self.lacks(Missing::Width));
        };
        address.offset = offset;
        self.place_for(value, address)
    }

    /// A call.
    fn called(
        &mut self,
        value: Option<ValueId>,
        callee: &'a [u8],
        arguments: &[Argument<'a>],
        width: u32,
    ) -> Result<(), Refusal<'a>> {
        if Name::from_bytes(callee).is_none() {
            return Err(Refusal::Lacks {
                line: self.line,
                missing: Missing::Name,
                word: callee,
            });
        }
        let mut srcs = Few::new(self.alloc);
        for argument in arguments {
            let word = self.full(&argument.operand, argument.width, argument.signed)?;
            srcs.push(word)?;
        }
        let dst = match value {
            Some(_) => Some(self.name_for(value, Kind::General)?),
            None => None,
        };
        let step = Step {
            op: Op::Call,
            dst,
            srcs,
            imm: 0,
            callee,
        };
        push(&mut self.steps, step)?;
        match dst {
            Some(word) => self.hold_given(value, word, width),
            None => Ok(()),
        }
    }

    /// Says of a word that it is what a function gave: a truth value is its lowest bit.
    fn hold_given(
        &mut self,
        value: Option<ValueId>,
        word: NameId,
        width: u32,
    ) -> Result<(), Refusal<'a>> {
        let held = if width == 1 {
            Held::Bit(self.made(Op::Andi, &[word], 1)?)
        } else {
            Held::Word(word)
        };
        self.hold(value, held);
        Ok(())
    }

    /// One of two values.
    fn choose(
        &mut self,
        value: Option<ValueId>,
        width: u32,
        condition: &Operand<'a>,
        yes: &Operand<'a>,
        no: &Operand<'a>,
    ) -> Result<(), Refusal<'a>> {
        let yes = self.word(yes)?;
        let no = self.word(no)?;
        let truth = self.truth(condition)?;
        self.choice_for(value, truth, yes, no)?;
        self.as_bit(value, width);
        Ok(())
    }

    /// Says of a word of one bit that it is a truth value.
    fn as_bit(&mut self, value: Option<ValueId>, width: u32) {
        if width == 1
            && let Some(id) = value
            && let Held::Word(word) = self.held(id)
        {
            self.hold(value, Held::Bit(word));
        }
    }

    /// The same value under another name.
    pub fn same(
        &mut self,
        value: Option<ValueId>,
        operand: &Operand<'a>,
    ) -> Result<(), Refusal<'a>> {
        let held = match operand {
            Operand::Name(id) => self.held(*id),
            Operand::Number(number) => Held::Number(*number),
            Operand::Address(_) => Held::Word(self.word(operand)?),
        };
        self.hold(value, held);
        Ok(())
    }

    /// A value of fewer bits as one of more.
    fn widen(
        &mut self,
        value: Option<ValueId>,
        operand: &Operand<'a>,
        from: u32,
        signed: bool,
    ) -> Result<(), Refusal<'a>> {
        let word = match self.truth_held(operand) {
            Some(Truth { pred, negated }) => {
                let yes = if signed { -1 } else { 1 };
                let (yes, no) = if negated { (0, yes) } else { (yes, 0) };
                self.chosen(pred, yes, no)?
            }
            None => self.full(operand, from, signed)?,
        };
        self.hold(value, Held::Word(word));
        Ok(())
    }

    /// The low bits of a value.
    fn narrow(
        &mut self,
        value: Option<ValueId>,
        operand: &Operand<'a>,
        width: u32,
    ) -> Result<(), Refusal<'a>> {
        let word = self.word(operand)?;
        if width > 1 {
            self.hold(value, Held::Word(word));
            return Ok(());
        }
        let bit = self.name_for(value, Kind::General)?;
        self.put(Op::Andi, Some(bit), &[word], 1)?;
        self.hold(value, Held::Bit(bit));
        Ok(())
    }

    /// A number of more than one bit without its sign.
    fn absolute(
        &mut self,
        value: Option<ValueId>,
        width: u32,
        operand: &Operand<'a>,
    ) -> Result<(), Refusal<'a>> {
        if width < 2 {
            return Err(self.lacks(Missing::Width));
        }
        let word = self.full(operand, width, true)?;
        let zero = self.number(0)?;
        let turned = self.made(Op::Sub, &[zero, word], 0)?;
        let pred = self.tested(Op::CmpGti, &[word], -1)?;
        self.word_for(value, Op::Mux, &[pred, word, turned], 0)
    }

    /// The name of a value that comes in from several blocks.
    fn merged(&mut self, value: Option<ValueId>, width: u32) -> Result<(), Refusal<'a>> {
        let word = self.name_for(value, Kind::General)?;
        let held = if width == 1 {
            Held::Bit(word)
        } else {
            Held::Word(word)
        };
        self.hold(value, held);
        Ok(())
    }

    /// An access of memory.
    fn accessed(
        &mut self,
        value: Option<ValueId>,
        place: &Operand<'a>,
        stored: Option<&Operand<'a>>,
    ) -> Result<(), Refusal<'a>> {
        let Address { base, offset } = self.address(place)?;
        let Some(stored) = stored else {
            return self.word_for(value, Op::Load, &[base], offset);
        };
        let word = self.word(stored)?;
        self.put(Op::Store, None, &[base, word], offset)?;
        Ok(())
    }

    /// The operations of an instruction that does not end its block.
    pub fn lower(&mut self, instruction: &Instruction<'a>) -> Result<(), Refusal<'a>> {
        self.line = instruction.line;
        let value = instruction.result;
        let width = instruction.width;
        match &instruction.action {
            Action::Compute { what, left, right } => {
                self.compute(value, *what, width, left, right)
            }
            Action::Compare {
                relation,
                left,
                right,
            } => self.compare(value, *relation, width, left, right),
            Action::Choose { condition, yes, no } => {
                self.choose(value, width, condition, yes, no)
            }
            Action::Merge(_) => self.merged(value, width),
            Action::Locate {
                base,
                parts,
                offset,
            } => self.locate(value, base, parts.as_slice(), *offset),
            Action::Load(place) => self.accessed(value, place, None),
            Action::Store {
                address,
                value: stored,
            } => { self.accessed(None, address, Some(stored)) }
            Action::Call { callee, arguments } => {
                self.called(value, callee, arguments.as_slice(), width)
            }
            Action::Same(operand) => self.same(value, operand),
            Action::Widen {
                value: operand,
                from,
                signed,
            } => self.widen(value, operand, *from, *signed),
            Action::Narrow(operand) => self.narrow(value, operand, width),
            Action::Absolute(operand) => self.absolute(value, width, operand),
            Action::Count {
                what,
                value: operand,
            } => self.counted(value, *what, width, operand),
            action => self.shifted_around(value, width, action),
        }
    }
}
