//! What can be wrong with a text, by number and by name.

ghost use Rattle.std.specs.Prelude.{◌≡◌};
ghost use Rattle.un_faults.specs.Codes.{code_of, fault_name};

/// A fault of a line or of a whole text.
#[derive(Clone, Copy)]
pub enum Fault {
    /// A byte before the comment is neither a tab nor 32 to 126.
    BadByte,
    /// The line has no shape, or is a `func` line in another place than first, or repeats a parameter.
    BadLine,
    /// A number of an operation is outside its range.
    WideLiteral,
    /// The label stands on an earlier block line.
    DupLabel,
    /// A jump names no block.
    UnknownLabel,
    /// There is no block line, or an operation or terminator stands before the first.
    NoBlock,
    /// An operation or terminator stands after the block's terminator.
    AfterEnd,
    /// The last block does not end by a jump or a return.
    FallsOff,
    /// A jump names the entry.
    JumpToEntry,
    /// A name has the sigil of the other kind.
    KindClash,
    /// A return has another form than the first one.
    MixedResult,
    /// A name that is no parameter is live at the start of the entry.
    LiveAtEntry,
    /// More bytes, parameters, arguments, blocks, operations or names than the limits allow.
    TooMany,
    /// The frequency is outside its range.
    BadFreq,
}

impl Fault {
    /// The number that reports give for the fault.
    pub fn code(self) -> u8
        ensures { result ≡ code_of self }
    {
        match self {
            Fault::BadByte => 1,
            Fault::BadLine => 2,
            Fault::WideLiteral => 3,
            Fault::DupLabel => 4,
            Fault::UnknownLabel => 5,
            Fault::NoBlock => 6,
            Fault::AfterEnd => 7,
            Fault::FallsOff => 8,
            Fault::JumpToEntry => 9,
            Fault::KindClash => 10,
            Fault::MixedResult => 11,
            Fault::LiveAtEntry => 12,
            Fault::TooMany => 13,
            Fault::BadFreq => 14,
        }
    }
}

/// The name of the fault of a number, and no byte for another number.
pub fn name_of(code: u8) -> &'static [u8]
    ensures { result.now ≡ fault_name code }
{
    match code {
        1 => b"BadByte",
        2 => b"BadLine",
        3 => b"WideLiteral",
        4 => b"DupLabel",
        5 => b"UnknownLabel",
        6 => b"NoBlock",
        7 => b"AfterEnd",
        8 => b"FallsOff",
        9 => b"JumpToEntry",
        10 => b"KindClash",
        11 => b"MixedResult",
        12 => b"LiveAtEntry",
        13 => b"TooMany",
        14 => b"BadFreq",
        _ => b"",
    }
}
