//! The word that is meant by one that is written otherwise.

use std::alloc::{AllocError, Global};
use strsim::generic_levenshtein;

/// The bytes in small letters.
fn in_small_letters(alloc: Global, word: &[u8]) -> Result<Vec<u8>, AllocError> {
    word.iter()
        .map(|byte| byte.to_ascii_lowercase())
        .collect(alloc)
}

/// How many letters may differ at most in a word of so many.
fn most_edits(length: usize) -> usize {
    if length < 6 { 1 } else { 2 }
}

/// The first of the words to which the fewest edits lead from this one, where they are few.
fn nearest_to<'a>(
    alloc: Global,
    word: &[u8],
    candidates: &[&'a [u8]],
) -> Result<Option<&'a [u8]>, AllocError> {
    let mut least = most_edits(word.len()).saturating_add(1);
    let mut nearest = None;
    for candidate in candidates {
        let edits = generic_levenshtein(alloc, word, *candidate)?;
        if edits < least {
            least = edits;
            nearest = Some(*candidate);
        }
    }
    Ok(nearest)
}

/// The word that is meant by this one, where one of them is near.
pub fn nearest<'a>(
    alloc: Global,
    word: &[u8],
    candidates: &[&'a [u8]],
) -> Result<Option<&'a [u8]>, AllocError> {
    let small = in_small_letters(alloc, word)?;
    nearest_to(alloc, small.as_slice(), candidates)
}
