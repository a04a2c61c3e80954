//! What a trial reads of a block. Operations and temporaries are numbered from 0 in the block, variables in the function.

use crate::machine::Needs;
use crate::sets::Space;
use crate::table::Table;
use un_ir::extended::{FROM_PREDICATE, MOVE, RELOAD, SPILL, TO_PREDICATE};
use un_isa::op::Op;

/// The instruction of a copy between two spaces.
pub(crate) fn copy_instruction(from: Space, to: Space) -> Option<u32> {
    match (from, to) {
        (Space::General, Space::General) => Some(MOVE),
        (Space::General, Space::Slot) => Some(SPILL),
        (Space::Slot, Space::General) => Some(RELOAD),
        (Space::Predicate, Space::General) => Some(FROM_PREDICATE),
        (Space::General, Space::Predicate) => Some(TO_PREDICATE),
        _ => None,
    }
}

/// An operand of an operation, or of the block's end.
#[derive(Drop)]
pub struct Operand {
    /// The value that it reads, by the number of that value's own temporary; NONE where there is none.
    pub value: u32,
    /// The temporaries that it may choose, in the order of its choice's values.
    pub alternatives: Vec<u32>,
    /// The register that its temporary must stand in, by number; NONE where it may be any.
    pub home: u32,
    /// The variable of its choice; NONE where it has none.
    pub choice: u32,
    /// The operation that is its copy u; NONE where it has none.
    pub copy: u32,
    /// The operation that is its copy u2, which a predicate has; NONE where it has none.
    pub second_copy: u32,
    /// The name or saved value that it hands over at the block's end; NONE for an operand of any other operation.
    pub key: u32,
}

/// A precedence to an operation, from another one: every solution issues both.
#[derive(Clone, Copy)]
pub struct Gap {
    /// The operation that comes first.
    pub from: u32,
    /// The variable of its cycle; NONE where it is the block's start.
    pub issue: u32,
    /// How many cycles after it the other issues, at least.
    pub cycles: u32,
}

/// An operation of the block.
#[derive(Drop)]
pub struct Operation {
    /// Its operands, in order.
    pub operands: Vec<Operand>,
    /// The temporary that it defines; NONE where it defines none, and for the operation of the block's start.
    pub result: u32,
    /// What it does, where it is issued; None at the block's start and end. A copy counts as a Mov here and in the next two.
    pub op: Option<Op>,
    /// How many cycles after it its result can be read.
    pub latency: u32,
    /// What it takes of its packet.
    pub needs: Needs,
    /// Whether it is a call of the source.
    pub is_call: bool,
    /// Whether it is the terminator of a block that returns.
    pub is_return: bool,
    /// The variable of its instruction; NONE where it is not optional.
    pub instruction: u32,
    /// The variable of its cycle; NONE for the block's start and end.
    pub cycle: u32,
    /// The precedences to it.
    pub before: Vec<Gap>,
}

/// A temporary: a value, or a copy of one. Of a copy only `value`, `definer`, `register` and `is_root` are told.
#[derive(Drop)]
pub struct Temporary {
    /// The value that it carries, by the number of that value's own temporary: its own number where it is no copy.
    pub value: u32,
    /// The operation that defines it.
    pub definer: u32,
    /// The variable of its register.
    pub register: u32,
    /// Whether its value is a truth value.
    pub is_predicate: bool,
    /// Whether every later reader of its value may choose it: so of the value itself and of its copies d and d2.
    pub is_root: bool,
    /// The saved register of which its value is what stood there at the function's entry; NONE for other values.
    pub saved: u32,
    /// The key that its value stands for: a name, or a saved value; NONE where it stands for none.
    pub key: u32,
    /// The operation that is the copy d of its value; NONE where there is none.
    pub copy: u32,
    /// The operation that is the copy d2 of its value, which a predicate has; NONE where there is none.
    pub second_copy: u32,
    /// The temporary that the copy d of its value defines; NONE where there is none.
    pub first_carrier: u32,
    /// The temporaries that carry this value, its own among them.
    pub carriers: Vec<u32>,
    /// The operations that every solution issues and that read this value, rising, without the block's end.
    pub readers: Vec<u32>,
    /// The place of the first operand of the block's end that reads this value; NONE where none does.
    pub at_end: u32,
}

/// A block as a trial reads it.
#[derive(Drop)]
pub struct BlockFacts {
    /// The block's horizon: its cycles go from 0 to `horizon` − 1, and its end is at most this.
    pub horizon: u32,
    /// The variable of its end, which is the last variable of the block.
    pub end: u32,
    /// Its first variable.
    pub first_variable: u32,
    /// How many variables it has: their numbers follow one another, from `first_variable` to `end`.
    pub variables: u32,
    /// Its operations, by number.
    pub operations: Table<Operation>,
    /// For each operation, how many cycles behind it the block ends at least.
    pub tails: Table<u32>,
    /// Its temporaries, by number.
    pub temporaries: Table<Temporary>,
    /// Its source operations without the terminator, in the order of the source.
    pub body: Vec<u32>,
    /// The temporaries of the values at its start: those of names, and then those of saved values.
    pub input: Vec<u32>,
    /// The operation of its end, which reads what is handed over.
    pub output: u32,
    /// The operation Enter; NONE where it is not the entry block.
    pub enter: u32,
    /// The operation Leave; NONE where the block does not return.
    pub leave: u32,
    /// The operation that ends it; NONE where it falls through.
    pub terminator: u32,
}
