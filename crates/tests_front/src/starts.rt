//! Starts of runs, from texts.

ghost use Rattle.std.specs.Prelude.{◌≡◌, true, is_some, IfOk, OnOk};
ghost use Rattle.std.specs.List.{list_all};
ghost use Rattle.un_isa.specs.Memories.{is_memory, word_at};
ghost use Rattle.un_isa.specs.Starts.{are_predicates, is_reply};

use crate::rows::{cut, number, number_at};
use std::alloc::{AllocError, Global};
use un_base::memory_error::NoMemory;
use un_isa::memory::Memory;
use un_isa::reg::REGISTERS;
use un_isa::start::{Reply, Start};
use un_lists::items::Items;

/// The registers from r0, then r16; the stack pointer is 4096, the link register 100, and every other is 0.
fn registers(text: &[u8]) -> [u32; REGISTERS as usize]
    ensures { are_predicates result ≡ true }
{
    let r0 = number_at(text, 0);
    let r1 = number_at(text, 1);
    let r2 = number_at(text, 2);
    let r3 = number_at(text, 3);
    let r4 = number_at(text, 4);
    let r5 = number_at(text, 5);
    let r16 = number_at(text, 6);
    [
        r0, r1, r2, r3, r4, r5, 0, 0, 0, 0, 0, 0, 0, 0, 0, 0, r16, 0, 0, 0, 0, 0, 0, 0, 0, 0, 0, 0,
        0, 4096, 0, 100, 0, 0, 0, 0,
    ]
}

/// The words of a text: each behind its address and `=`.
fn words(alloc: Global, text: &[u8]) -> Result<Vec<(u32, u32)>, AllocError> {
    let mut words = Vec::new(alloc);
    for word in text.split(|b| *b == b' ') {
        let (address, value) = cut(word, b'=');
        if !word.is_empty() {
            words.push((number(address), number(value)))?;
        }
    }
    Ok(words)
}

/// The memory of a text.
fn memory_of(alloc: Global, text: &[u8]) -> Result<Memory, NoMemory> {
    let words = words(alloc, text)?;
    Memory::new(words).ok_or(NoMemory)
}

/// Whether each of these words stands in a memory.
fn stand_in(memory: &Memory, words: &[(u32, u32)]) -> bool
    ensures { result ≡ list_all (λ w. is_some (word_at w.0 memory.now)) words.now }
{
    words.iter().all(|w| memory.get(w.0).is_some())
}

/// The words that a call changes.
fn changed_words(alloc: Global, text: &[u8]) -> Result<Items<(u32, u32)>, NoMemory>
    ensures { IfOk result (λ list. is_memory list ≡ true) }
{
    let memory = memory_of(alloc, text)?;
    let list = memory.words().to_vec(alloc)?;
    Ok(Items::from_vec(list))
}

/// What a call that runs on a memory answers: its result, and the words that it changes. It leaves nothing in other registers.
fn reply(alloc: Global, memory: &Memory, text: &[u8]) -> Result<Reply, NoMemory>
    ensures { IfOk result (λ r. is_reply memory.now r ≡ true) }
{
    let (given, changed) = cut(text, b' ');
    let changed = changed_words(alloc, changed)?;
    if !stand_in(memory, changed.as_slice()) {
        return Err(NoMemory);
    }
    Ok(Reply {
        result: number(given),
        changed,
        junk: [0; REGISTERS as usize],
    })
}

/// Adds what a call that runs on a memory answers.
fn add_reply(
    alloc: Global,
    memory: &Memory,
    list: &mut Items<Reply>,
    text: &[u8],
) -> Result<(), NoMemory>
    requires { list_all (is_reply memory.now) list.old ≡ true }
    ensures { OnOk result (list_all (is_reply memory.now) list.new ≡ true) }
{
    let reply = reply(alloc, memory, text)?;
    list.push(reply)?;
    Ok(())
}

/// What calls that run on a memory answer, in order.
fn replies(alloc: Global, memory: &Memory, text: &[u8]) -> Result<Items<Reply>, NoMemory>
    ensures { IfOk result (λ list. list_all (is_reply memory.now) list ≡ true) }
{
    let mut list = Items::new(alloc);
    for answer in text.split(|b| *b == b';') {
        if !answer.is_empty() {
            add_reply(alloc, memory, &mut list, answer)?;
        }
    }
    Ok(list)
}

/// The start of a text: registers, words of memory and answers of calls, with `;` between them.
pub(crate) fn start(alloc: Global, text: &[u8]) -> Result<Start, NoMemory> {
    let (regs, rest) = cut(text, b';');
    let (memory, answers) = cut(rest, b';');
    let memory = memory_of(alloc, memory)?;
    let replies = replies(alloc, &memory, answers)?;
    Ok(Start {
        regs: registers(regs),
        memory,
        replies,
    })
}
