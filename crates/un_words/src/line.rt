//! Lines by their shapes, as they are spelled: names are not numbered yet, and labels are not looked up.

use crate::token::Number;
use un_base::name::Name;
use un_ir::function::Kind;
use un_isa::op::Op;
use un_lists::items::Items;

/// The line of an operation.
#[derive(Drop)]
pub struct OpLine {
    /// What it does.
    pub op: Op,
    /// The name that it assigns; None where it assigns none.
    pub dst: Option<(Name, Kind)>,
    /// Its operands in the order of the text.
    pub srcs: Items<(Name, Kind)>,
    /// Its literal; 0 where it has none.
    pub imm: Number,
    /// The name of the function that a call calls; None for other operations.
    pub callee: Option<Name>,
}

/// The line of a terminator. A branch jumps where the predicate has the value `sense`.
#[derive(Clone, Copy)]
pub enum TermLine {
    Jump(Name),
    Branch {
        pred: (Name, Kind),
        sense: bool,
        to: Name,
    },
    Ret(Option<(Name, Kind)>),
}

/// A line of a text.
#[derive(Drop)]
pub enum Line {
    Blank,
    Func {
        name: Name,
        params: Items<(Name, Kind)>,
    },
    Block {
        label: Name,
        freq: Number,
    },
    Operation(OpLine),
    Terminator(TermLine),
}
