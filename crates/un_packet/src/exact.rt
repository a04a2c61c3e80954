//! Equal packets, blocks and code are identical.

ghost use Rattle.std.specs.Prelude.{◌≡◌, ◌↔◌, IsTrue};
ghost use Rattle.un_isa.specs.Exactness.{instr_exact, instr_reflexive};
ghost use Rattle.un_packet.specs.Exactness.{packet_exact, packet_reflexive, block_exact, block_reflexive};

use crate::code::{Code, CodeBlock, Packet};
use un_base::name::Name;
use un_isa::instr::Instr;
use un_lists::exact::{Exact, same};
use un_lists::items::Items;

impl Exact for Packet {
    ghost is_exact = { packet_exact ⟦<Instr as PartialEq>⟧.eq instr_exact };

    ghost is_reflexive = { packet_reflexive ⟦<Instr as PartialEq>⟧.eq instr_reflexive };
}

impl Exact for CodeBlock {
    ghost is_exact = { block_exact ⟦<Packet as PartialEq>⟧.eq (packet_exact ⟦<Instr as PartialEq>⟧.eq instr_exact) };

    ghost is_reflexive = { block_reflexive ⟦<Packet as PartialEq>⟧.eq (packet_reflexive ⟦<Instr as PartialEq>⟧.eq instr_reflexive) };
}

/// Whether two codes are one.
pub fn same_code(a: &Code, b: &Code) -> bool
    ensures { IsTrue result ↔ (a.now ≡ b.now) }
{
    a.frame == b.frame && same(&a.blocks, &b.blocks)
}
