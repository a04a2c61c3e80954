//! Words of a command line.

ghost use Rattle.std.specs.Prelude.{◌≡◌, ◌↔◌, ◌++◌, ◌∷◌, [], IfOk, OnOk, OnErr, IsTrue, drop, map, string_bytes};
ghost use Rattle.std.specs.Vec.Iter.{into_iter_items};

use std::alloc::Global;
use std::env;
use std::env::Args;
use std::marker::Model;
use std::rt::Env;
use un_base::memory_error::NoMemory;

/// A word of a command line, a text of its own that contracts see as the list of its bytes.
#[derive(Drop)]
pub struct Word {
    bytes: Vec<u8>,
}

impl Model for Word {
    ghost use Rattle.std.specs.Prelude.{ℕ, List};

    ghost Value = { List ℕ };

    ghost view = { λ word. word.bytes.items };
}

impl Word {
    /// The word with the bytes of `text`.
    ///
    /// # Errors
    /// `NoMemory` where there is no memory for them.
    pub fn new(alloc: Global, text: &str) -> Result<Word, NoMemory>
        ensures { IfOk result (λ word. word ≡ text.now) }
    {
        let bytes = text.as_bytes().to_vec(alloc)?;
        Ok(Word { bytes })
    }

    /// The bytes of the word.
    pub fn as_bytes(&self) -> &[u8]
        ensures { result.now ≡ self.now }
    {
        self.bytes.as_slice()
    }

    /// Whether the word has exactly the bytes of `text`.
    pub fn is(&self, text: &[u8]) -> bool
        ensures { IsTrue result ↔ (self.now ≡ text.now) }
    {
        self.bytes.as_slice() == text
    }
}

/// Appends a word of a command line.
///
/// # Errors
/// `NoMemory` where there is no memory for it. Then the words are as they were.
pub fn push_word(alloc: Global, words: &mut Vec<Word>, text: &str) -> Result<(), NoMemory>
    ensures pushed { OnOk result (words.new.items ≡ words.old.items ++ text.now ∷ []) }
    ensures kept { OnErr result (words.new.items ≡ words.old.items) }
{
    let word = Word::new(alloc, text)?;
    match words.push(word) {
        Ok(()) => Ok(()),
        Err(_) => Err(NoMemory),
    }
}

/// The words among the texts of a command line: all but the first one, which names the program.
///
/// # Errors
/// `NoMemory` where there is no memory for them.
pub(crate) fn words_among(alloc: Global, texts: Args) -> Result<Vec<Word>, NoMemory>
    ensures { IfOk result (λ words. words.items ≡ map string_bytes (drop 1 (into_iter_items texts))) }
{
    let mut rest = texts;
    let _name = rest.next();
    let mut words = Vec::new(alloc);
    for text in rest {
        push_word(alloc, &mut words, text.as_str())?;
    }
    Ok(words)
}

/// The arguments of the program, without its own name.
///
/// # Errors
/// `NoMemory` where there is no memory for them, or where one of them is no text.
pub fn words(rt: &(impl Env + AllocGlobal)) -> Result<Vec<Word>, NoMemory> {
    match env::args(rt) {
        Ok(texts) => words_among(rt.alloc(), texts),
        Err(_) => Err(NoMemory),
    }
}
