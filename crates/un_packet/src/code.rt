//! Code: packets under labels.

ghost use Rattle.un_packet.specs.CodeRules.{KeepsRules};

use un_base::name::Name;
use un_isa::instr::Instr;
use un_lists::items::Items;

/// Code has fewer packets than this.
pub const PACKETS: u32 = 0x1000_0000;

/// Code has fewer blocks than this.
pub const BLOCKS: u32 = 0x1000_0000;

/// How many arguments a call may have.
pub const ARGUMENTS: u32 = 6;

/// Instructions that issue in one cycle: all read the state before it, and write together at its end.
#[derive(PartialEq, Drop)]
pub struct Packet {
    /// Its instructions, as they are printed: one to four, or a `nop` alone.
    pub instrs: Items<Instr>,
}

/// The packets under a label.
#[derive(PartialEq, Drop)]
pub struct CodeBlock {
    /// The label under which they stand, which no other block has.
    pub label: Name,
    /// Its packets, one a cycle, in order; there may be none.
    pub packets: Items<Packet>,
}

/// The packets of a function. `frame` is the size of its frame in bytes.
///
/// The type keeps the rules of code: the frame is a multiple of 8 of at most 1,024 bytes; there is a block, and there are fewer
/// than 2^28 blocks and packets; labels are distinct names, and each jump leads to one of them; what leaves a block stands in its
/// last packet, and the last block ends by a jump or a return; a packet has an instruction, keeps the counts of a packet, has
/// a `nop` only alone, one writer of each register, and beside a jump on a fresh predicate a compare that writes the predicate; and
/// each instruction has operands, a result, a literal and a label as its operation asks, where only Enter and Leave write the
/// stack pointer.
#[derive(Drop)]
pub struct Code {
    /// The size of its frame in bytes: a multiple of 8 from 0 to 1,024.
    pub frame: u32,
    /// Its blocks, in order: what does not jump goes on with the next one.
    pub blocks: Items<CodeBlock>,
    pub ghost rules: { ∥ KeepsRules frame blocks ∥₁ },
}
