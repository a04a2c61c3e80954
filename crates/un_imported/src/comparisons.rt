//! Comparisons: by the three relations that the language has, with their operands changed round or their truth turned round.

use crate::lowering::{Held, Lowering, Truth, is_within, low_word, number_of_width};
use crate::names::NameId;
use un_base::memory_error::NoMemory;
use un_ir::function::Kind;
use un_isa::op::Op;
use un_llvm::function::{NameId as ValueId, Operand, Relation};
use un_llvm::refusal::Refusal;

/// How a relation is said: by which comparison, with operands changed round, and with the truth turned round.
#[derive(Clone, Copy)]
struct Saying {
    op: Op,
    changed: bool,
    negated: bool,
}

/// How a relation is said.
fn said_by(relation: Relation) -> Saying {
    let (op, changed, negated) = match relation {
        Relation::Equal => (Op::CmpEq, false, false),
        Relation::NotEqual => (Op::CmpEq, false, true),
        Relation::Greater => (Op::CmpGt, false, false),
        Relation::GreaterEqual => (Op::CmpGt, true, true),
        Relation::Less => (Op::CmpGt, true, false),
        Relation::LessEqual => (Op::CmpGt, false, true),
        Relation::GreaterUnsigned => (Op::CmpGtu, false, false),
        Relation::GreaterEqualUnsigned => (Op::CmpGtu, true, true),
        Relation::LessUnsigned => (Op::CmpGtu, true, false),
        Relation::LessEqualUnsigned => (Op::CmpGtu, false, true),
    };
    Saying {
        op,
        changed,
        negated,
    }
}

/// Whether a relation is one of numbers with signs.
fn is_signed(relation: Relation) -> bool {
    matches!(
        relation,
        Relation::Greater | Relation::GreaterEqual | Relation::Less | Relation::LessEqual
    )
}

/// A comparison with a number that an operation has room for.
#[derive(Clone, Copy)]
struct Direct {
    op: Op,
    number: i32,
    negated: bool,
}

/// A relation to a number as a comparison with one, where there is room.
fn direct_with(relation: Relation, number: i32) -> Option<Direct> {
    let (op, number, negated) = match relation {
        Relation::Equal => (Op::CmpEqi, number, false),
        Relation::NotEqual => (Op::CmpEqi, number, true),
        Relation::Greater => (Op::CmpGti, number, false),
        Relation::LessEqual => (Op::CmpGti, number, true),
        Relation::GreaterEqual => (Op::CmpGti, number.checked_sub(1)?, false),
        Relation::Less => (Op::CmpGti, number.checked_sub(1)?, true),
        _ => return None,
    };
    if is_within(number, -512, 511) {
        Some(Direct {
            op,
            number,
            negated,
        })
    } else {
        None
    }
}

impl<'f, 'a> Lowering<'f, 'a> {
    /// A comparison whose predicate is called as a value.
    fn tested_for(
        &mut self,
        value: Option<ValueId>,
        op: Op,
        srcs: &[NameId],
        imm: i32,
    ) -> Result<NameId, Refusal<'a>> {
        let dst = self.name_for(value, Kind::Pred)?;
        self.put(op, Some(dst), srcs, imm)?;
        Ok(dst)
    }

    /// Whether a relation holds of two words of so many bits.
    pub fn related(
        &mut self,
        value: Option<ValueId>,
        relation: Relation,
        width: u32,
        left: &Operand<'a>,
        right: &Operand<'a>,
    ) -> Result<Truth, Refusal<'a>> {
        let signed = is_signed(relation);
        let first = self.full(left, width, signed)?;
        if let Some(number) = self.constant(right)
            && let Some(direct) = direct_with(
                relation,
                low_word(number_of_width(number, width, signed)),
            )
        {
            let pred = self.tested_for(value, direct.op, &[first], direct.number)?;
            return Ok(Truth {
                pred,
                negated: direct.negated,
            });
        }
        let second = self.full(right, width, signed)?;
        let saying = said_by(relation);
        let srcs = if saying.changed {
            [second, first]
        } else {
            [first, second]
        };
        let pred = self.tested_for(value, saying.op, &srcs, 0)?;
        Ok(Truth {
            pred,
            negated: saying.negated,
        })
    }

    /// Whether a word is a number.
    pub fn is_number(&mut self, word: NameId, number: i64) -> Result<NameId, NoMemory> {
        let low = low_word(number);
        if is_within(low, -512, 511) {
            return self.tested(Op::CmpEqi, &[word], low);
        }
        let number = self.number(number)?;
        self.tested(Op::CmpEq, &[word, number], 0)
    }

    /// A comparison.
    pub fn compare(
        &mut self,
        value: Option<ValueId>,
        relation: Relation,
        width: u32,
        left: &Operand<'a>,
        right: &Operand<'a>,
    ) -> Result<(), Refusal<'a>> {
        let Truth { pred, negated } = self.related(value, relation, width, left, right)?;
        self.hold(value, Held::Truth { pred, negated });
        Ok(())
    }
}
