//! Words with marks that can be taken back.

ghost use Rattle.std.specs.Prelude.{◌≡◌, ℕ, ◌+◌, ◌<◌, ◌≤◌, List, [], ◌∷◌, ◌++◌, length, slice_index, slice_set, OnOk, OnErr, All};

use crate::levels::{Saves, mark, no_saves, save, take_back};
use std::alloc::{AllocError, Global};
use std::marker::Model;

/// Words with marks: `undo` gives back the words of the last. All marks share one list of saved words, so that a mark and its way back
/// cost what changed in between.
#[derive(Drop)]
pub struct Words {
    words: Vec<u64>,
    saves: Saves,
}

impl Model for Words {
    ghost use Rattle.std.specs.Prelude.{length};
    ghost use Rattle.un_domains.specs.Levels.{MarkedWords, marked_of, AreSaves};

    ghost Value = { MarkedWords };

    ghost view = { λ a. record { words = a.words.items; marked = marked_of a.saves a.words.items } };

    ghost invariant = { λ a. AreSaves (length a.words.items) a.saves };
}

impl Words {
    ghost use Rattle.un_domains.specs.Levels.{MarkedWords};

    /// These words, without marks. It takes no memory.
    pub fn new(alloc: Global, words: Vec<u64>) -> Words
        ensures words { result.words ≡ words.items }
        ensures marked { result.marked ≡ [] }
    {
        Words {
            words,
            saves: no_saves(alloc),
        }
    }

    /// The words, lent.
    pub fn as_slice(&self) -> &[u64]
        ensures { result.now ≡ self.now.words }
    {
        self.words.as_slice()
    }

    /// The word at place `i`.
    pub fn get(&self, i: usize) -> u64
        requires { i < length self.now.words }
        ensures { result ≡ slice_index self.now.words i }
    {
        self.words[i]
    }

    /// How many marks there are.
    pub fn marks(&self) -> usize
        ensures { result ≡ length self.now.marked }
    {
        self.saves.starts.len()
    }

    /// Writes a word. It takes no memory, and none is saved where nothing changes.
    pub fn set(&mut self, i: usize, word: u64)
        requires { i < length self.old.words }
        ensures words { self.new.words ≡ slice_set self.old.words i word }
        ensures marked { self.new.marked ≡ self.old.marked }
    {
        let old = self.words[i];
        if old == word {
            return;
        }
        save(&mut self.saves, self.words.len(), i, old);
        self.words[i] = word;
    }

    /// A mark of the words as they are. Room for each of them is taken here, unless a mark that was taken back left it.
    pub fn mark(&mut self, alloc: Global) -> Result<(), AllocError>
        ensures ok { OnOk result (self.new.marked ≡ self.old.marked ++ self.old.words ∷ []) }
        ensures words { self.new.words ≡ self.old.words }
        ensures err { OnErr result (self.new ≡ self.old) }
    {
        mark(&mut self.saves, alloc, self.words.len())
    }

    /// Takes the words of the last mark back. It takes no memory, and costs what was saved since.
    pub fn undo(&mut self)
        requires { 0 < length self.old.marked }
        ensures { self.old.marked ≡ self.new.marked ++ self.new.words ∷ [] }
    {
        take_back(&mut self.words, &mut self.saves);
    }
}
