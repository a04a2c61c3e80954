//! What a text of LLVM's has that the input language lacks.

use std::alloc::AllocError;
use un_base::memory_error::NoMemory;

/// What is missing.
#[derive(Clone, Copy)]
pub enum Missing {
    /// The module has no function of that name, or none at all.
    Function,
    /// A line that is spelled in no way that is read here.
    Form,
    /// A type that is neither a word, a truth value, an address nor nothing.
    Type,
    /// A width that is not asked for.
    Width,
    /// An instruction that the language has nothing for.
    Instruction,
    /// A function of LLVM's own.
    Intrinsic,
    /// The address of a variable or a function.
    Address,
    /// A call of no function by its name.
    Indirect,
    /// A call that passes on as many arguments as it likes.
    Variadic,
    /// More parameters or arguments than there are registers for them.
    Arguments,
    /// An access of something else than a word.
    Access,
    /// An access of a word that may not lie at a multiple of four.
    Alignment,
    /// Memory that is copied or filled otherwise than by words.
    Words,
    /// More blocks, operations or names than a function may have.
    Size,
    /// A name that is no name of the language.
    Name,
    /// A block that is not there.
    Block,
    /// A value that is not there.
    Value,
    /// A function whose result is not found.
    Result,
}

impl Missing {
    /// What is missing, in words.
    pub fn text(self) -> &'static [u8] {
        match self {
            Missing::Function => b"there is no such function",
            Missing::Form => b"the line has a form that is not read",
            Missing::Type =>
                b"there are no values of this type, only words of 32 bits, truth values and addresses",
            Missing::Width => b"this is not done on numbers of so many bits",
            Missing::Instruction => b"there is nothing for this instruction",
            Missing::Intrinsic => b"there is nothing for this function of LLVM's own",
            Missing::Address => b"there are no addresses of variables and functions",
            Missing::Indirect => b"a call names the function that it calls",
            Missing::Variadic => b"a function has a fixed number of arguments",
            Missing::Arguments => b"there are at most six parameters and arguments",
            Missing::Access => b"memory is read and written by words of 32 bits",
            Missing::Alignment => b"words in memory lie at multiples of four",
            Missing::Words => b"memory is copied and filled by words, at multiples of four",
            Missing::Size => b"a function has at most 64 blocks, 400 operations and 120 names",
            Missing::Name => b"a name has 1 to 32 letters, digits, '_' and '.'",
            Missing::Block => b"there is no such block",
            Missing::Value => b"there is no such value",
            Missing::Result => b"a function gives a word or nothing",
        }
    }
}

/// Why a function is not imported.
#[derive(Clone, Copy)]
pub enum Refusal<'a> {
    NoMemory,
    /// At this line of the text something is missing; `word` is what it is about, where a word says more.
    Lacks {
        line: u32,
        missing: Missing,
        word: &'a [u8],
    },
}

impl From<NoMemory> for Refusal<'_> {
    fn from(_error: NoMemory) -> Self {
        Refusal::NoMemory
    }
}

impl From<AllocError> for Refusal<'_> {
    fn from(_error: AllocError) -> Self {
        Refusal::NoMemory
    }
}
