//! The forms that words of a line have, and the lines that a first word begins.

/// A form of a word: one for each kind of Token that a line may have in a fixed place.
#[derive(Clone, Copy)]
pub enum Slot {
    Comma,
    Equals,
    Named,
    Literal,
    Plain,
    Word,
}

/// What kind of line the first word begins.
#[derive(Clone, Copy)]
pub enum Head {
    /// There is no word.
    Nothing,
    Func,
    Block,
    Jump,
    If,
    Ret,
    /// A name, which the line assigns.
    Assigned,
    /// Another word without a sigil, which may be an operation.
    Bare,
    /// No line begins so.
    Unknown,
}
