//! Memory: words under addresses.

ghost use Rattle.std.specs.Prelude.{◌≡◌, ◌↔◌, true, length, IsSome, IfSome, IfOk, IfErr};
ghost use Rattle.un_isa.specs.Memories.{is_memory, word_at, set_word, set_words, IsAddressAt, IsGapAt};

use std::alloc::AllocError;
use std::marker::Model;
use un_lists::items::Items;

/// Words under rising addresses, each a multiple of 4. Contracts see the list of (address, word).
#[derive(PartialEq, Drop)]
pub struct Memory {
    words: Items<(u32, u32)>,
}

impl Model for Memory {
    ghost use Rattle.std.specs.Prelude.{◌≡◌, ℕ, List, true};
    ghost use Rattle.un_isa.specs.Memories.{is_memory};

    ghost Value = { List (ℕ × ℕ) };

    ghost view = { λ m. m.words };

    ghost invariant = { λ m. is_memory m.words ≡ true };

    ghost inverse = { λ ws. record { words = ws } };
}

/// Whether the addresses are multiples of 4 and rise.
fn is_memory(words: &[(u32, u32)]) -> bool
    ensures { result ≡ is_memory words.now }
{
    let mut low: u64 = 0;
    for word in words {
        let address = word.0 as u64;
        if address < low || address % 4 != 0 {
            return false;
        }
        low = address + 1;
    }
    true
}

/// The place of the word with this address, or the place where it would stand.
fn place_of(words: &[(u32, u32)], address: u32) -> Result<usize, usize>
    requires { is_memory words.now ≡ true }
    ensures found { IfOk result (IsAddressAt words.now address) }
    ensures absent { IfErr result (IsGapAt words.now address) }
{
    words.binary_search_by_key(&address, |&(a, _)| a)
}

impl Memory {
    /// The memory of these words, where their addresses rise and are multiples of 4.
    pub fn new(words: Vec<(u32, u32)>) -> Option<Memory>
        ensures exactly { IsSome result ↔ (is_memory words.items ≡ true) }
        ensures words { IfSome result (λ m. m ≡ words.items) }
    {
        if !is_memory(&words) {
            return None;
        }
        Some(Memory {
            words: Items::from_vec(words),
        })
    }

    /// The words with their addresses, which rise and are multiples of 4.
    pub fn words(&self) -> &[(u32, u32)]
        ensures words { result.now ≡ self.now }
        ensures memory { is_memory self.now ≡ true }
    {
        self.words.as_slice()
    }

    /// The word at an address, where there is one.
    pub fn get(&self, address: u32) -> Option<u32>
        ensures { result ≡ word_at address self.now }
    {
        let words = self.words.as_slice();
        match place_of(words, address) {
            Ok(place) => Some(words[place].1),
            Err(_) => None,
        }
    }

    /// Puts another word at an address. Where the address is not there, nothing changes.
    pub fn set(&mut self, address: u32, word: u32)
        ensures { self.new ≡ set_word address word self.old }
    {
        match place_of(self.words.as_slice(), address) {
            Ok(place) => self.words.set(place, (address, word)),
            Err(_) => {}
        }
    }

    /// Puts other words at addresses, one after another. What is not there does not change.
    pub fn set_all(&mut self, changed: &[(u32, u32)])
        ensures { self.new ≡ set_words changed.now self.old }
    {
        for change in changed {
            self.set(change.0, change.1);
        }
    }
}

impl Clone for Memory {
    ghost is_clone = { λ a b. b ≡ a };

    fn clone(&self) -> Result<Self, AllocError> {
        let words = self.words.clone()?;
        Ok(Memory { words })
    }
}

/// Writes these words over as many others.
fn copy_words(to: &mut Items<(u32, u32)>, from: &[(u32, u32)])
    requires { length to.old ≡ length from.now }
    ensures { to.new ≡ from.now }
{
    for i in 0..from.len() {
        to.set(i, from[i]);
    }
}

impl Memory {
    /// Takes over the words of another memory of as many words. It takes no memory of the machine.
    pub fn copy_from(&mut self, other: &Memory)
        requires { length self.old ≡ length other.now }
        ensures { self.new ≡ other.now }
    {
        copy_words(&mut self.words, other.words());
    }
}
