//! What the lines of a start give, one after another.

ghost use Rattle.std.specs.Prelude.{◌≡◌, ◌+◌, ◌++◌, ◌∷◌, [], true, List, None, IfOk, OnOk, length};
ghost use Rattle.std.specs.Option.{option_to_list};
ghost use Rattle.un_isa.specs.Starts.{is_start};
ghost use Rattle.un_start.specs.declared.line.Line.{Line};
ghost use Rattle.un_start.specs.Places.{with_register, with_junk, word_on, change_on, is_good, fits_in};
ghost use Rattle.un_start.specs.Drafts.{IsDraftOf, with_last, with_own, with_line};

use crate::line::Line;
use crate::place::fits_in;
use std::alloc::{AllocError, Global};
use un_base::memory_error::NoMemory;
use un_base::numbers::later;
use un_isa::memory::Memory;
use un_isa::reg::REGISTERS;
use un_isa::start::{Reply, Start};
use un_lists::items::Items;

/// What lines give: the last of them, how many there are, the registers, the words of memory and the replies.
#[derive(Drop)]
pub(crate) struct Draft {
    pub(crate) last: Option<Line>,
    pub(crate) count: u32,
    pub(crate) regs: [u32; REGISTERS as usize],
    pub(crate) words: Vec<(u32, u32)>,
    pub(crate) replies: Vec<Reply>,
}

/// Puts the number of a line into its register.
fn set_register(regs: &mut [u32; REGISTERS as usize], line: Line)
    requires { is_good line ≡ true }
    ensures { regs.new ≡ with_register regs.old line }
{
    if let Line::Reg { reg, value } = line {
        regs[reg as usize] = value;
    }
}

/// Puts the junk of a line into its register.
fn set_junk(junk: &mut [u32; REGISTERS as usize], line: Line)
    requires { is_good line ≡ true }
    ensures { junk.new ≡ with_junk junk.old line }
{
    if let Line::Junk { reg, value } = line {
        junk[reg as usize] = value;
    }
}

/// Adds the word of a line.
fn add_word(words: &mut Vec<(u32, u32)>, line: Line) -> Result<(), AllocError>
    ensures { OnOk result (words.new.items ≡ words.old.items ++ option_to_list (word_on line)) }
{
    match line {
        Line::Mem { address, word } => {
            words.push((address, word))?;
            Ok(())
        }
        _ => Ok(()),
    }
}

/// Adds the change of a line.
fn add_change(changed: &mut Items<(u32, u32)>, line: Line) -> Result<(), NoMemory>
    ensures { OnOk result (changed.new ≡ changed.old ++ option_to_list (change_on line)) }
{
    match line {
        Line::Set { address, word } => {
            changed.push((address, word))?;
            Ok(())
        }
        _ => Ok(()),
    }
}

/// The reply with one line more of its own.
fn with_own(reply: Reply, line: Line) -> Result<Reply, NoMemory>
    requires { is_good line ≡ true }
    ensures { IfOk result (λ r. r ≡ with_own line reply) }
{
    let Reply {
        result,
        mut changed,
        mut junk,
    } = reply;
    add_change(&mut changed, line)?;
    set_junk(&mut junk, line);
    Ok(Reply {
        result,
        changed,
        junk,
    })
}

/// Adds a reply.
fn push_reply(replies: &mut Vec<Reply>, reply: Reply) -> Result<(), AllocError>
    ensures { OnOk result (replies.new.items ≡ replies.old.items ++ reply ∷ []) }
{
    replies.push(reply)?;
    Ok(())
}

/// Adds a line to the last reply.
fn add_own(replies: &mut Vec<Reply>, line: Line) -> Result<(), NoMemory>
    requires { is_good line ≡ true }
    ensures { OnOk result (replies.new.items ≡ with_last (with_own line) replies.old.items) }
{
    match replies.pop() {
        Some(reply) => {
            push_reply(replies, with_own(reply, line)?)?;
            Ok(())
        }
        None => Ok(()),
    }
}

/// Adds a line to replies: it begins one, or is one of the last one's own.
fn add_to_replies(alloc: Global, replies: &mut Vec<Reply>, line: Line) -> Result<(), NoMemory>
    requires { is_good line ≡ true }
    ensures { OnOk result (replies.new.items ≡ with_line replies.old.items line) }
{
    match line {
        Line::Reply(result) => {
            let reply = Reply {
                result,
                changed: Items::new(alloc),
                junk: [0; REGISTERS as usize],
            };
            push_reply(replies, reply)?;
            Ok(())
        }
        Line::Set { .. } => add_own(replies, line),
        Line::Junk { .. } => add_own(replies, line),
        Line::Reg { .. } => Ok(()),
        Line::Mem { .. } => Ok(()),
        Line::Blocks(_) => Ok(()),
    }
}

impl Draft {
    /// What no line gives.
    pub(crate) fn new(alloc: Global) -> Draft
        ensures { IsDraftOf result [] }
    {
        Draft {
            last: None,
            count: 0,
            regs: [0; REGISTERS as usize],
            words: Vec::new(alloc),
            replies: Vec::new(alloc),
        }
    }

    /// Whether a line may stand behind the lines so far.
    pub(crate) fn takes(&self, line: Line) -> bool
        ensures { result ≡ fits_in line self.now.last self.now.words.items (length self.now.replies.items) }
    {
        fits_in(line, self.last, self.words.as_slice(), self.replies.len())
    }

    /// Adds a line.
    pub(crate) fn add(&mut self, alloc: Global, line: Line) -> Result<(), NoMemory>
        requires { is_good line ≡ true }
        ensures { OnOk result ((ls : List Line) → IsDraftOf self.old ls → IsDraftOf self.new (ls ++ line ∷ [])) }
    {
        self.count = later(self.count, 1)?;
        add_word(&mut self.words, line)?;
        add_to_replies(alloc, &mut self.replies, line)?;
        set_register(&mut self.regs, line);
        self.last = Some(line);
        Ok(())
    }

    /// The start that the lines give.
    pub(crate) fn into_start(self) -> Start
        requires { is_start self.regs self.words.items self.replies.items ≡ true }
        ensures regs { result.regs ≡ self.regs }
        ensures memory { result.memory ≡ self.words.items }
        ensures replies { result.replies ≡ self.replies.items }
    {
        let Draft {
            last: _,
            count: _,
            regs,
            words,
            replies,
        } = self;
        Start {
            regs,
            memory: Memory::new(words).unwrap(),
            replies: Items::from_vec(replies),
        }
    }
}
