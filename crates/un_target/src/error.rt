//! Why a text is no table's.

ghost use Rattle.std.specs.Prelude.{◌≡◌};
ghost use Rattle.un_target.specs.Causes.{code_of, table_fault_name};

/// Why a text is no table's. Each cause stands where none before it does.
#[derive(Clone, Copy, PartialEq)]
pub enum TableCause {
    /// It is no JSON value.
    NotJson,
    /// It is no object of the four keys, a value is of another kind, a key is no operation's name, or an entry of uses is no
    /// list of four.
    BadShape,
    /// A latency is not 1 or 2, or none that fits.
    BadLatency,
    /// A need is not 0 or 1, or below what the operation needs at least.
    BadUse,
    /// A saved register is no number of one, they do not rise, or are none that fit.
    BadSaved,
}

impl TableCause {
    /// The code of the cause, 1 to 5 in the order of the variants.
    pub fn code(&self) -> u8
        ensures { result ≡ code_of self.now }
    {
        match self {
            TableCause::NotJson => 1,
            TableCause::BadShape => 2,
            TableCause::BadLatency => 3,
            TableCause::BadUse => 4,
            TableCause::BadSaved => 5,
        }
    }
}

/// The name of the cause of a number, and no byte for another number.
pub fn name_of(code: u8) -> &'static [u8]
    ensures { result.now ≡ table_fault_name code }
{
    match code {
        1 => b"NotJson",
        2 => b"BadShape",
        3 => b"BadLatency",
        4 => b"BadUse",
        5 => b"BadSaved",
        _ => b"",
    }
}

/// Why there is no table.
#[derive(Clone, Copy, PartialEq)]
pub enum TableError {
    /// There was no memory for the reading.
    NoMemory,
    /// The text is no table's.
    Bad(TableCause),
}
