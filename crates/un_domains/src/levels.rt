//! What the words that changed since each mark were, in one list for all marks: a mark costs what changes behind it.

ghost use Rattle.std.specs.Prelude.{◌≡◌, ℕ, ◌+◌, ◌<◌, ◌≤◌, List, [], ◌∷◌, ◌++◌, length, slice_index, slice_set, take, drop, OnOk, OnErr, All};
ghost use Rattle.std.specs.Prelude.{vec_capacity};
ghost use Rattle.un_domains.specs.Levels.{AreSaves, marked_of, unwind, unstamp};
ghost use Rattle.un_domains.specs.declared.levels.Saved.{Saved};

use std::alloc::{AllocError, Global};

/// How many marks there may be at once.
const MOST_MARKS: usize = u32::MAX as usize;

/// A word before a change.
#[derive(Clone, Copy)]
pub struct Saved {
    /// The place of the word in the store's list of words.
    pub at: usize,
    /// What the word was.
    pub old: u64,
    /// The stamp that it had.
    pub stamp: u32,
}

/// What the words were at each mark.
#[derive(Drop)]
pub struct Saves {
    /// A stamp for each word: the number of the mark behind which it was saved last, from 1 on, or 0. There are none before the first
    /// mark.
    pub stamps: Vec<u32>,
    /// The words that were saved, the oldest first: behind each mark those that changed, each once.
    pub entries: Vec<Saved>,
    /// How many entries there were at each mark.
    pub starts: Vec<usize>,
}

/// Nothing saved, and no mark. It takes no memory.
pub(crate) fn no_saves(alloc: Global) -> Saves
    ensures saves { (n : ℕ) → AreSaves n result }
    ensures marked { (ws : List ℕ) → marked_of result ws ≡ [] }
{
    Saves {
        stamps: Vec::new(alloc),
        entries: Vec::new(alloc),
        starts: Vec::new(alloc),
    }
}

/// Saves what word `i` of `n` was at the last mark, where there is one and it is not saved. It takes no memory.
pub fn save(saves: &mut Saves, n: usize, i: usize, old: u64)
    requires saves { AreSaves n saves.old }
    requires within { i < n }
    ensures saves { AreSaves n saves.new }
    ensures marked { (ws : List ℕ) (w : ℕ) → slice_index ws i ≡ old → i < length ws
        → marked_of saves.new (slice_set ws i w) ≡ marked_of saves.old ws }
{
    let depth = saves.starts.len();
    if depth == 0 {
        return;
    }
    let stamp = saves.stamps[i];
    if stamp as usize == depth {
        return;
    }
    saves.stamps[i] = depth as u32;
    match saves.entries.push(Saved { at: i, old, stamp }) {
        Ok(()) => {}
        Err(_) => unreachable!(),
    }
}

/// Stamps for `n` words, where there are none.
fn stamp_all(saves: &mut Saves, alloc: Global, n: usize) -> Result<(), AllocError>
    requires { AreSaves n saves.old }
    ensures saves { AreSaves n saves.new }
    ensures long { OnOk result (length saves.new.stamps.items ≡ n) }
    ensures starts { saves.new.starts ≡ saves.old.starts }
    ensures entries { saves.new.entries ≡ saves.old.entries }
{
    if saves.stamps.len() != n {
        saves.stamps = vec![in alloc; 0; n]?;
    }
    Ok(())
}

/// A mark of `n` words as they are. Room for each of them is taken here.
pub fn mark(saves: &mut Saves, alloc: Global, n: usize) -> Result<(), AllocError>
    requires { AreSaves n saves.old }
    ensures saves { AreSaves n saves.new }
    ensures ok { OnOk result ((ws : List ℕ) → marked_of saves.new ws ≡ marked_of saves.old ws ++ ws ∷ []) }
    ensures err { OnErr result ((ws : List ℕ) → marked_of saves.new ws ≡ marked_of saves.old ws) }
{
    if saves.starts.len() >= MOST_MARKS {
        return Err(AllocError);
    }
    stamp_all(saves, alloc, n)?;
    saves.entries.reserve(n)?;
    let start = saves.entries.len();
    saves.starts.push(start)?;
    Ok(())
}

/// Gives back what was saved from entry `start` on, the last first.
fn give_back(words: &mut Vec<u64>, saves: &mut Saves, start: usize)
    requires there { start ≤ length saves.old.entries.items }
    requires within { All (λ (e : Saved). e.at < length words.old.items) (drop start saves.old.entries.items) }
    requires flags { length saves.old.stamps.items ≡ length words.old.items }
    ensures words { words.new.items ≡ unwind (drop start saves.old.entries.items) words.old.items }
    ensures stamps { saves.new.stamps.items ≡ unstamp (drop start saves.old.entries.items) saves.old.stamps.items }
    ensures entries { saves.new.entries.items ≡ take start saves.old.entries.items }
    ensures starts { saves.new.starts.items ≡ saves.old.starts.items }
    ensures capacity { vec_capacity saves.new.entries ≡ vec_capacity saves.old.entries }
{
    while start < saves.entries.len() {
        match saves.entries.pop() {
            Some(entry) => {
                words[entry.at] = entry.old;
                saves.stamps[entry.at] = entry.stamp;
            }
            None => unreachable!(),
        }
    }
}

/// Gives back what was saved since the last mark, and takes that mark away. It takes no memory, and costs what was saved.
pub(crate) fn take_back(words: &mut Vec<u64>, saves: &mut Saves)
    requires saves { AreSaves (length words.old.items) saves.old }
    requires some { 0 < length saves.old.starts.items }
    ensures saves { AreSaves (length words.new.items) saves.new }
    ensures marked { marked_of saves.old words.old.items ≡ marked_of saves.new words.new.items ++ words.new.items ∷ [] }
{
    if let Some(start) = saves.starts.pop() {
        give_back(words, saves, start);
    }
}
