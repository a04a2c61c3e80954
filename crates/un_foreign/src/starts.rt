//! Starts of runs that are made from a number, as texts that `run` takes: parameters that the function loads or stores by are addresses
//! of words that are there, the others small numbers, and a few are anything.

use un_base::ids::NameId;
use un_base::memory_error::NoMemory;
use un_ir::function::{Block, Function, SrcOp};
use un_ir::text::{put_number, put_text};
use un_isa::op::Op;

/// Where the words of memory lie.
const MEMORY: u32 = 4096;

/// How many words there are.
const WORDS: u32 = 32;

/// How many starts are made.
const STARTS: u32 = 100;

/// How many calls are replied to.
const REPLIES: u32 = 24;

/// How many blocks may be entered.
const BLOCKS: u32 = 1000;

/// The stack pointer.
const STACK: u32 = 65536;

/// Where the caller goes on.
const CALLER: u32 = 32768;

/// Numbers drawn from a seed.
#[derive(Drop)]
struct Draw {
    state: u64,
}

impl Draw {
    /// The next number below another.
    fn below(&mut self, limit: u32) -> u32 {
        self.state = self
            .state
            .wrapping_mul(6_364_136_223_846_793_005)
            .wrapping_add(1_442_695_040_888_963_407);
        let high = u32::try_from(self.state >> 33).unwrap_or(0);
        high % limit.max(1)
    }

    /// The address of a word.
    fn address(&mut self) -> u32 {
        MEMORY.saturating_add(self.below(WORDS / 2).saturating_mul(4))
    }

    /// A word: mostly a small number, else a small negative one or any.
    fn word(&mut self) -> u32 {
        let small = self.below(13);
        match self.below(8) {
            0 => small.wrapping_neg(),
            1 => self.below(0x7fff_ffff).wrapping_mul(2),
            _ => small,
        }
    }
}

/// Whether an operation loads or stores by a name.
fn addresses_by(block: &Block, name: NameId) -> bool {
    for op in block.ops.as_slice() {
        if matches!(op.op, Op::Load | Op::Store) {
            if let Some(base) = op.srcs.as_slice().first() {
                if base.0 == name.0 {
                    return true;
                }
            }
        }
    }
    false
}

/// Whether the function loads or stores by a name.
fn is_base(f: &Function, name: NameId) -> bool {
    for block in f.blocks.as_slice() {
        if addresses_by(block, name) {
            return true;
        }
    }
    false
}

/// Whether an operation makes an address of a name, as the first that it reads.
fn leads_to_base(f: &Function, op: &SrcOp, name: NameId) -> bool {
    let moves = matches!(op.op, Op::Mov | Op::Add | Op::Addi);
    match (op.srcs.as_slice().first(), op.dst) {
        (Some(first), Some(made)) => moves && first.0 == name.0 && is_base(f, made),
        _ => false,
    }
}

/// Whether a block makes an address of a name.
fn makes_address(f: &Function, block: &Block, name: NameId) -> bool {
    for op in block.ops.as_slice() {
        if leads_to_base(f, op, name) {
            return true;
        }
    }
    false
}

/// Whether a name is an address, or one is made of it.
fn is_address(f: &Function, name: NameId) -> bool {
    for block in f.blocks.as_slice() {
        if addresses_by(block, name) || makes_address(f, block, name) {
            return true;
        }
    }
    false
}

/// Whether a block has a call.
fn calls(block: &Block) -> bool {
    for op in block.ops.as_slice() {
        if matches!(op.op, Op::Call) {
            return true;
        }
    }
    false
}

/// Whether the function has a call.
fn has_call(f: &Function) -> bool {
    for block in f.blocks.as_slice() {
        if calls(block) {
            return true;
        }
    }
    false
}

/// Appends a line of a word and numbers.
fn put_line(out: &mut Vec<u8>, word: &[u8], numbers: &[u32]) -> Result<(), NoMemory> {
    put_text(out, word)?;
    for number in numbers {
        put_text(out, b" ")?;
        put_number(out, u64::from(*number))?;
    }
    put_text(out, b"\n")
}

/// Appends what the registers hold.
fn put_registers(out: &mut Vec<u8>, draw: &mut Draw, f: &Function) -> Result<(), NoMemory> {
    let mut register: u32 = 0;
    for name in f.params.as_slice() {
        let by = is_address(f, *name) && draw.below(32) > 0;
        let value = if by { draw.address() } else { draw.word() };
        put_line(out, b"reg", &[register, value])?;
        register = register.saturating_add(1);
    }
    put_line(out, b"reg", &[29, STACK])?;
    put_line(out, b"reg", &[31, CALLER])
}

/// Appends the words of memory.
fn put_memory(out: &mut Vec<u8>, draw: &mut Draw) -> Result<(), NoMemory> {
    for word in 0..WORDS {
        let value = if draw.below(8) == 0 {
            draw.address()
        } else {
            draw.word()
        };
        put_line(out, b"mem", &[MEMORY.saturating_add(word * 4), value])?;
    }
    Ok(())
}

/// Appends what a call leaves in the registers that it may change.
fn put_junk(out: &mut Vec<u8>, draw: &mut Draw) -> Result<(), NoMemory> {
    for register in 1..36u32 {
        let changes = register < 16 || register == 28 || register == 31;
        if changes {
            put_line(out, b"junk", &[register, draw.word()])?;
        } else if register >= 32 {
            put_line(out, b"junk", &[register, draw.below(2)])?;
        }
    }
    Ok(())
}

/// Appends what a call does.
fn put_reply(out: &mut Vec<u8>, draw: &mut Draw) -> Result<(), NoMemory> {
    put_line(out, b"reply", &[draw.word()])?;
    if draw.below(2) == 0 {
        let address = draw.address();
        put_line(out, b"set", &[address, draw.word()])?;
    }
    put_junk(out, draw)
}

/// Appends what the calls do.
fn put_replies(out: &mut Vec<u8>, draw: &mut Draw) -> Result<(), NoMemory> {
    for _reply in 0..REPLIES {
        put_reply(out, draw)?;
    }
    Ok(())
}

/// Appends the start for a function that a number makes.
fn put_start(out: &mut Vec<u8>, f: &Function, number: u32) -> Result<(), NoMemory> {
    let mut draw = Draw {
        state: u64::from(number),
    };
    let _first = draw.below(2);
    put_registers(out, &mut draw, f)?;
    put_memory(out, &mut draw)?;
    if has_call(f) {
        put_replies(out, &mut draw)?;
    }
    put_line(out, b"blocks", &[BLOCKS])
}

/// Appends a hundred starts for a function, each behind a line `---`.
pub fn put_starts(out: &mut Vec<u8>, f: &Function) -> Result<(), NoMemory> {
    for number in 0..STARTS {
        put_text(out, b"---\n")?;
        put_start(out, f, number)?;
    }
    Ok(())
}
