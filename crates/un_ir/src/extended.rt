//! Live names, linear functions and extended functions: every temporary is local to its block, as in the TOPLAS paper's
//! linear SSA form with copy extension and alternative temporaries.

ghost use Rattle.std.specs.Prelude.{◌≡◌};
ghost use Rattle.un_ir.specs.Extended.{is_copy, is_enter, is_leave, name_kind};
ghost use Rattle.un_ir.specs.Kinds.{is_optional, is_mandatory, is_delimiter, is_frame_op, has_choices, is_source, is_call_kind, is_fall};
ghost use Rattle.un_ir.specs.Kinds.{ends_block, issues_kind};
ghost use Rattle.un_ir.specs.Linear.{first_of, is_in};

use crate::function::{Kind, NAMES, OPS, PARAMS, SrcOp, Term};
use std::alloc::AllocError;
use un_base::ids::{NameId, TempId};
use un_base::name::Name;
use un_isa::does::is_call;
use un_isa::reg::{GENERALS, Reg};
use un_isa::table::Table;
use un_lists::items::Items;

/// The most operations, operands and results of a block of the linear function of a function, together: its start gives and its end
/// reads a value for each name and each register that a function keeps, an operation reads at most as many names as a call has
/// arguments and assigns one, and a terminator reads one.
pub const BLOCK_SIZE: u32 = 2 * (NAMES + GENERALS + 1) + (PARAMS + 2) * OPS + 4;

/// The most operations of a block of the extended function of a function.
pub const BLOCK_OPS: u32 = 2 * BLOCK_SIZE;

/// The number of a copy's instruction that moves a register into another; 0 is a copy that is left out.
pub const MOVE: u32 = 1;

/// The number of a copy's instruction that writes a frame slot.
pub const SPILL: u32 = 2;

/// The number of a copy's instruction that reads a frame slot.
pub const RELOAD: u32 = 3;

/// The number of a copy's instruction that moves a truth value from a predicate to a general register.
pub const FROM_PREDICATE: u32 = 4;

/// The number of a copy's instruction that moves a truth value from a general register to a predicate.
pub const TO_PREDICATE: u32 = 5;

/// The kind of a name, by the kinds of all names; General where there is no such name.
pub fn name_kind(names: &[Kind], name: NameId) -> Kind
    ensures { result ≡ name_kind names.now name }
{
    match names.get(name.0 as usize) {
        Some(kind) => *kind,
        None => Kind::General,
    }
}

/// The number of the first of the temporaries that an operand may choose: the temporary of its value. 0 where there are none.
pub fn first_of(alts: &[TempId]) -> u32
    ensures { result ≡ first_of alts.now }
{
    match alts {
        [] => 0,
        [first, ..] => first.0,
    }
}

/// The names that are live at the start of each block.
#[derive(Drop)]
pub struct LiveSets {
    /// For each block the names that are live at its start, in the order of their first appearance in the text.
    pub at_start: Items<Items<NameId>>,
}

/// Which copy of a value or of an operand: the first or second of the value, the first or second of the operand.
#[derive(Clone, Copy, PartialEq)]
pub enum NodeCopy {
    D,
    D2,
    U,
    U2,
}

/// What an operation of an extended block is: the values at its start, those at its end, an operation or terminator of the
/// source, an optional copy, and the optional operations that move the stack pointer.
#[derive(Drop)]
pub enum ExtKind {
    In,
    Out,
    Body(SrcOp),
    End(Term),
    Copy(NodeCopy),
    Enter,
    Leave,
}

impl ExtKind {
    /// Whether it is a block's start.
    pub fn is_in(&self) -> bool
        ensures { result ≡ is_in self.now }
    {
        matches!(self, ExtKind::In)
    }

    /// Whether it is a copy.
    pub fn is_copy(&self) -> bool
        ensures { result ≡ is_copy self.now }
    {
        matches!(self, ExtKind::Copy(_))
    }

    /// Whether it is an Enter.
    pub fn is_enter(&self) -> bool
        ensures { result ≡ is_enter self.now }
    {
        matches!(self, ExtKind::Enter)
    }

    /// Whether it is a Leave.
    pub fn is_leave(&self) -> bool
        ensures { result ≡ is_leave self.now }
    {
        matches!(self, ExtKind::Leave)
    }

    /// Whether a solution may leave it out.
    pub fn is_optional(&self) -> bool
        ensures { result ≡ is_optional self.now }
    {
        matches!(self, ExtKind::Copy(_) | ExtKind::Enter | ExtKind::Leave)
    }

    /// Whether every solution issues it.
    pub fn is_mandatory(&self) -> bool
        ensures { result ≡ is_mandatory self.now }
    {
        !self.is_optional()
    }

    /// Whether it is a block's start or its end.
    pub fn is_delimiter(&self) -> bool
        ensures { result ≡ is_delimiter self.now }
    {
        matches!(self, ExtKind::In | ExtKind::Out)
    }

    /// Whether it is Enter or Leave.
    pub fn is_frame_op(&self) -> bool
        ensures { result ≡ is_frame_op self.now }
    {
        matches!(self, ExtKind::Enter | ExtKind::Leave)
    }

    /// Whether its operands have choices.
    pub fn has_choices(&self) -> bool
        ensures { result ≡ has_choices self.now }
    {
        !matches!(self, ExtKind::Copy(NodeCopy::D))
    }

    /// Whether it is an operation of the source.
    pub fn is_source(&self) -> bool
        ensures { result ≡ is_source self.now }
    {
        matches!(self, ExtKind::Body(_))
    }

    /// Whether it is a call.
    pub fn is_call(&self) -> bool
        ensures { result ≡ is_call_kind self.now }
    {
        match self {
            ExtKind::Body(source) => is_call(source.op),
            _ => false,
        }
    }

    /// Whether it is an end that falls through to the next block.
    pub fn is_fall(&self) -> bool
        ensures { result ≡ is_fall self.now }
    {
        matches!(self, ExtKind::End(Term::Fall))
    }

    /// Whether it stands last in its block: a terminator that is issued, or the block's end.
    pub fn ends_block(&self) -> bool
        ensures { result ≡ ends_block self.now }
    {
        match self {
            ExtKind::End(term) => !matches!(term, Term::Fall),
            _ => matches!(self, ExtKind::Out),
        }
    }

    /// Whether it issues an instruction where it is active.
    pub fn issues(&self) -> bool
        ensures { result ≡ issues_kind self.now }
    {
        match self {
            ExtKind::End(term) => !matches!(term, Term::Fall),
            _ => !self.is_delimiter(),
        }
    }
}

impl Clone for ExtKind {
    ghost is_clone = { λ a b. b ≡ a };

    fn clone(&self) -> Result<Self, AllocError> {
        let copy = match self {
            ExtKind::In => ExtKind::In,
            ExtKind::Out => ExtKind::Out,
            ExtKind::Body(op) => ExtKind::Body(op.clone()?),
            ExtKind::End(term) => ExtKind::End(*term),
            ExtKind::Copy(node) => ExtKind::Copy(*node),
            ExtKind::Enter => ExtKind::Enter,
            ExtKind::Leave => ExtKind::Leave,
        };
        Ok(copy)
    }
}

/// An operand of an operation of an extended block.
#[derive(Drop)]
pub struct Operand {
    /// The temporaries that it may choose, in the order of its choice's values: the value itself comes first.
    pub alts: Items<TempId>,
    /// The register to which it is preassigned; None where there is none.
    pub home: Option<Reg>,
}

impl Clone for Operand {
    ghost is_clone = { λ a b. b ≡ a };

    fn clone(&self) -> Result<Self, AllocError> {
        let alts = self.alts.clone()?;
        Ok(Operand {
            alts,
            home: self.home,
        })
    }
}

/// An operation of an extended block.
#[derive(Drop)]
pub struct ExtOp {
    /// Which operation it is: a block's start or end, one of the source, a terminator, a copy, Enter or Leave.
    pub kind: ExtKind,
    /// Its operands, in order.
    pub operands: Items<Operand>,
    /// The temporaries that it defines: many at a block's start, else one at most.
    pub results: Items<TempId>,
}

impl Clone for ExtOp {
    ghost is_clone = { λ a b. b ≡ a };

    fn clone(&self) -> Result<Self, AllocError> {
        let kind = self.kind.clone()?;
        let operands = self.operands.clone()?;
        let results = self.results.clone()?;
        Ok(ExtOp {
            kind,
            operands,
            results,
        })
    }
}

/// An extended block.
#[derive(Drop)]
pub struct ExtBlock {
    /// How often it runs: 1 to 1,000,000.
    pub freq: u32,
    /// Its label in the text.
    pub label: Name,
    /// The names whose values are the first that `In` defines, by first appearance in the text; the saved values follow.
    pub live_in: Items<NameId>,
    /// The names whose values are the first that `Out` reads, by first appearance in the text; the saved values follow.
    pub live_out: Items<NameId>,
    /// Its operations, `In` first and `Out` last.
    pub ops: Items<ExtOp>,
    /// One past the last of its cycles: an operation issues before it, and the block's end is at most this.
    pub horizon: u32,
}

impl Clone for ExtBlock {
    ghost is_clone = { λ a b. b ≡ a };

    fn clone(&self) -> Result<Self, AllocError> {
        let live_in = self.live_in.clone()?;
        let live_out = self.live_out.clone()?;
        let ops = self.ops.clone()?;
        Ok(ExtBlock {
            freq: self.freq,
            label: self.label,
            live_in,
            live_out,
            ops,
            horizon: self.horizon,
        })
    }
}

/// An extended function with its table.
#[derive(Drop)]
pub struct Ext {
    /// The processor that it is made for.
    pub table: Table,
    /// The kind of each name of the function, by its number.
    pub names: Items<Kind>,
    /// Its blocks, in order; the first is the entry.
    pub blocks: Items<ExtBlock>,
}

impl Clone for Ext {
    ghost is_clone = { λ a b. b ≡ a };

    fn clone(&self) -> Result<Self, AllocError> {
        let names = self.names.clone()?;
        let blocks = self.blocks.clone()?;
        Ok(Ext {
            table: self.table,
            names,
            blocks,
        })
    }
}

/// A block of a linear function: an extended block without copies, Enter and Leave, with one alternative per operand.
pub type LssaBlock = ExtBlock;

/// A linear function with its table.
#[derive(Drop)]
pub struct Lssa {
    /// The processor that it is made for.
    pub table: Table,
    /// The kind of each name of the function, by its number.
    pub names: Items<Kind>,
    /// Its blocks, in order; the first is the entry.
    pub blocks: Items<LssaBlock>,
}

/// What a value of a linear function is to have in the extended one.
#[derive(Clone, Copy)]
pub struct Sort {
    /// What it stands for: a truth value has a second copy.
    pub kind: Kind,
    /// Whether it and the operands that read it have copies.
    pub copied: bool,
}

/// A value of a linear function as the extended one has it.
#[derive(Drop)]
pub struct Value {
    /// Its temporary, and behind it those of its own copies d and d2.
    pub own: Items<TempId>,
    /// All temporaries so far that carry it, its own first: what a further operand may choose.
    pub all: Items<TempId>,
    /// Its kind, and whether it has copies.
    pub sort: Sort,
}

/// How far an extended function has come.
#[derive(Drop)]
pub struct Growth {
    /// The operations of the block so far.
    pub ops: Items<ExtOp>,
    /// The values so far, by their numbers in the linear function.
    pub values: Items<Value>,
    /// The number of the next temporary.
    pub next: u32,
}
