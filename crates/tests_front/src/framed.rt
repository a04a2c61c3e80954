//! Code that enters and leaves the largest frame.

ghost use Rattle.std.specs.Prelude.{◌≡◌, ◌∷◌, [], None, IfOk, codes};
ghost use Rattle.tests_front.specs.Framed.{back, entering, leaving, framed};

use std::alloc::Global;
use un_base::memory_error::NoMemory;
use un_base::name::Name;
use un_isa::instr::Instr;
use un_isa::op::Op;
use un_isa::reg::{LINK, Reg};
use un_lists::few::Few;
use un_lists::items::Items;
use un_packet::code::{Code, CodeBlock, Packet};

/// An instruction without a result.
fn instr(op: Op, srcs: Few<Reg>, imm: i32) -> Instr
    ensures { result ≡ record { op = op; dst = None; srcs = srcs; imm = imm; label = None } }
{
    Instr {
        op,
        dst: None,
        srcs,
        imm,
        label: None,
    }
}

/// `{ r29 = add(r29,#-1024) }`
fn entering(alloc: Global) -> Result<Packet, NoMemory>
    ensures { IfOk result (λ p. p ≡ entering) }
{
    let mut instrs = Items::new(alloc);
    instrs.push(instr(Op::Enter, Few::new(alloc), -1024))?;
    Ok(Packet { instrs })
}

/// `jumpr r31`
fn back(alloc: Global) -> Result<Instr, NoMemory>
    ensures { IfOk result (λ i. i ≡ back) }
{
    let mut srcs = Few::new(alloc);
    srcs.push(Reg(LINK))?;
    Ok(instr(Op::Jumpr, srcs, 0))
}

/// `{ r29 = add(r29,#1024); jumpr r31 }`
fn leaving(alloc: Global) -> Result<Packet, NoMemory>
    ensures { IfOk result (λ p. p ≡ leaving) }
{
    let mut instrs = Items::new(alloc);
    instrs.push(instr(Op::Leave, Few::new(alloc), 1024))?;
    instrs.push(back(alloc)?)?;
    Ok(Packet { instrs })
}

/// The label `e`.
fn label() -> Name
    ensures { result ≡ codes "e" }
{
    match Name::from_bytes(b"e") {
        Some(name) => name,
        None => unreachable!(),
    }
}

/// Both packets.
fn packets(alloc: Global) -> Result<Items<Packet>, NoMemory>
    ensures { IfOk result (λ ps. ps ≡ entering ∷ leaving ∷ []) }
{
    let mut packets = Items::new(alloc);
    packets.push(entering(alloc)?)?;
    packets.push(leaving(alloc)?)?;
    Ok(packets)
}

/// Both packets under a label.
pub(crate) fn framed_code(alloc: Global) -> Result<Code, NoMemory>
    ensures blocks { IfOk result (λ c. c.blocks ≡ framed) }
    ensures frame { IfOk result (λ c. c.frame ≡ 1024) }
{
    let packets = packets(alloc)?;
    let mut blocks = Items::new(alloc);
    let label = label();
    blocks.push(CodeBlock { label, packets })?;
    Ok(Code {
        frame: 1024,
        blocks,
    })
}
