//! A function of LLVM's: its blocks, and what their instructions do with words, truth values and addresses.

/// A value by the place of its name among the function's names.
pub type NameId = usize;

/// A block by its place in the function.
pub type BlockId = usize;

/// What an instruction works on.
#[derive(Clone, Copy)]
pub enum Operand<'a> {
    Name(NameId),
    /// A number; 0 and 1 for false and true, 0 for the address that is none and for what is left open.
    Number(i64),
    /// The address of a variable or a function.
    Address(&'a [u8]),
}

/// What is computed of two values.
#[derive(Clone, Copy, PartialEq)]
pub enum Binary {
    Add,
    Sub,
    Mul,
    And,
    Or,
    Xor,
    ShiftLeft,
    ShiftRight,
    ShiftSigned,
    /// A division, which rounds towards 0.
    Divide,
    /// Its remainder.
    Remainder,
    DivideUnsigned,
    RemainderUnsigned,
    Least,
    Most,
    LeastUnsigned,
    MostUnsigned,
    /// A sum of numbers without signs, the largest number where it is larger.
    AddLimited,
    /// A difference of numbers without signs, 0 where it is less.
    SubLimited,
}

/// What is computed of the bits of a word.
#[derive(Clone, Copy, PartialEq)]
pub enum Bits {
    /// How many are set.
    Population,
    /// How many stand before the first one that is set.
    Leading,
    /// How many stand behind the last one that is set.
    Trailing,
    /// The bits from the last to the first.
    Reversed,
    /// The bytes from the last to the first.
    Swapped,
}

/// What holds of two values where a comparison is true.
#[derive(Clone, Copy, PartialEq)]
pub enum Relation {
    Equal,
    NotEqual,
    Greater,
    GreaterEqual,
    Less,
    LessEqual,
    GreaterUnsigned,
    GreaterEqualUnsigned,
    LessUnsigned,
    LessEqualUnsigned,
}

/// A part of an address: an operand, and how many bytes each one of it is.
#[derive(Clone, Copy)]
pub struct Scaled<'a> {
    pub operand: Operand<'a>,
    pub bytes: u32,
}

/// A value that comes in from a block.
#[derive(Clone, Copy)]
pub struct Incoming<'a> {
    pub value: Operand<'a>,
    pub from: BlockId,
}

/// A way out of a switch.
#[derive(Clone, Copy)]
pub struct Case {
    pub value: i64,
    pub to: BlockId,
}

/// Where a branch leads; the weights say how often each way is taken, where they are told.
#[derive(Clone, Copy)]
pub struct Branch<'a> {
    pub condition: Operand<'a>,
    pub yes: BlockId,
    pub no: BlockId,
    pub weights: Option<(u32, u32)>,
}

/// What a call passes on: how many bits it has, and whether it is a number with a sign.
#[derive(Clone, Copy)]
pub struct Argument<'a> {
    pub operand: Operand<'a>,
    pub width: u32,
    pub signed: bool,
}

/// What an instruction does.
#[derive(Drop)]
pub enum Action<'a> {
    Compute {
        what: Binary,
        left: Operand<'a>,
        right: Operand<'a>,
    },
    Compare {
        relation: Relation,
        left: Operand<'a>,
        right: Operand<'a>,
    },
    Choose {
        condition: Operand<'a>,
        yes: Operand<'a>,
        no: Operand<'a>,
    },
    Merge(Vec<Incoming<'a>>),
    /// An address: a base, operands times their sizes, and a number of bytes.
    Locate {
        base: Operand<'a>,
        parts: Vec<Scaled<'a>>,
        offset: i64,
    },
    Load(Operand<'a>),
    Store {
        address: Operand<'a>,
        value: Operand<'a>,
    },
    Call {
        callee: &'a [u8],
        arguments: Vec<Argument<'a>>,
    },
    /// Copies so many bytes; where `overlaps`, the places may have bytes in common.
    Copy {
        to: Operand<'a>,
        from: Operand<'a>,
        bytes: Operand<'a>,
        overlaps: bool,
    },
    /// Stores a byte so many times.
    Fill {
        to: Operand<'a>,
        byte: Operand<'a>,
        bytes: Operand<'a>,
    },
    /// The same value under another name.
    Same(Operand<'a>),
    /// A value of fewer bits as a number without or with a sign.
    Widen {
        value: Operand<'a>,
        from: u32,
        signed: bool,
    },
    /// The low bits of a value.
    Narrow(Operand<'a>),
    /// The bits of `high` and `low` side by side, shifted to the left, of which the upper half is kept; or to the right, and the lower half.
    Funnel {
        high: Operand<'a>,
        low: Operand<'a>,
        amount: Operand<'a>,
        right: bool,
    },
    Absolute(Operand<'a>),
    Count {
        what: Bits,
        value: Operand<'a>,
    },
    Jump(BlockId),
    Branch(Branch<'a>),
    Switch {
        value: Operand<'a>,
        otherwise: BlockId,
        cases: Vec<Case>,
    },
    Return(Option<Operand<'a>>),
    /// The end of a block that is never reached.
    Unreachable,
}

/// An instruction.
#[derive(Drop)]
pub struct Instruction<'a> {
    /// Its line in the text, from 1.
    pub line: u32,
    /// The name of its result.
    pub result: Option<NameId>,
    /// How many bits the values have that it works on.
    pub width: u32,
    pub action: Action<'a>,
}

/// A block.
#[derive(Drop)]
pub struct Block<'a> {
    pub label: &'a [u8],
    pub instructions: Vec<Instruction<'a>>,
}

/// A parameter.
#[derive(Clone, Copy)]
pub struct Parameter {
    pub name: NameId,
    pub width: u32,
}

/// A function.
#[derive(Drop)]
pub struct Function<'a> {
    pub name: &'a [u8],
    /// The line on which it begins.
    pub line: u32,
    pub parameters: Vec<Parameter>,
    /// How many bits its result has, 0 where it gives none.
    pub gives: u32,
    /// Whether the result is a number with a sign, which fills its word.
    pub signed: bool,
    /// The names of its values.
    pub names: Vec<&'a [u8]>,
    /// Its blocks, the first of which is entered first.
    pub blocks: Vec<Block<'a>>,
}
