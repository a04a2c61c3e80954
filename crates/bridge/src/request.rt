//! The words of the command line.

use un_outside::words::Word;

/// What the words ask for.
#[derive(Clone, Copy)]
pub enum Request<'a> {
    /// The assembly of a report's code.
    Asm,
    /// A function of LLVM's in the input language: the one with this name, the first one where there is none.
    Import(Option<&'a [u8]>),
}

/// The name that the words behind the first ask for.
///
/// # Errors
/// The least place, from 0, at which no accepted list of words begins so.
fn function_named(words: &[Word]) -> Result<Option<&[u8]>, u32> {
    match (words.get(1), words.get(2), words.get(3)) {
        (None, _, _) => Ok(None),
        (Some(option), Some(name), None) if option.is(b"--function") => Ok(Some(name.as_bytes())),
        (Some(option), None, _) if option.is(b"--function") => Err(2),
        (Some(option), Some(_), Some(_)) if option.is(b"--function") => Err(3),
        _ => Err(1),
    }
}

/// What the words ask for.
///
/// # Errors
/// The least place, from 0, at which no accepted list of words begins so.
pub fn asked_for(words: &[Word]) -> Result<Request<'_>, u32> {
    match words.first() {
        Some(word) if word.is(b"asm") && words.len() == 1 => Ok(Request::Asm),
        Some(word) if word.is(b"asm") => Err(1),
        Some(word) if word.is(b"import") => {
            let name = function_named(words)?;
            Ok(Request::Import(name))
        }
        _ => Err(0),
    }
}
