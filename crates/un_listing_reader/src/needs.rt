//! What the instructions of a packet need of its resources.

ghost use Rattle.std.specs.Prelude.{◌≡◌, ◌≤◌, ◌+◌, ◌↔◌, IsTrue, length, map, sum_by};
ghost use Rattle.un_isa.specs.PacketCounts.{FitPacket, share_of};
ghost use Rattle.un_packet.specs.CodeRules.{needs_of};

use un_isa::facts::{Class, class_of};
use un_isa::instr::Instr;
use un_isa::packet_counts::{PACKET, Resource, places};

/// How many places of a resource an instruction takes.
fn need(resource: Resource, instr: &Instr) -> u32
    ensures value { result ≡ share_of resource (needs_of instr.now) }
    ensures small { result ≤ 1 }
{
    match class_of(instr.op) {
        Class::Alu32 | Class::Nothing => match resource {
            Resource::Instructions => 1,
            _ => 0,
        },
        Class::Xtype => match resource {
            Resource::Instructions | Resource::MultiplyOrControl => 1,
            _ => 0,
        },
        Class::Loading => match resource {
            Resource::Instructions | Resource::Memory => 1,
            _ => 0,
        },
        Class::Storing => match resource {
            Resource::Instructions | Resource::Memory | Resource::Stores => 1,
            _ => 0,
        },
        Class::Control => match resource {
            Resource::Instructions | Resource::MultiplyOrControl | Resource::Control => 1,
            _ => 0,
        },
    }
}

/// How many places of a resource the instructions take.
fn total(resource: Resource, instrs: &[Instr]) -> u32
    requires { length instrs.now ≤ PACKET }
    ensures { result ≡ sum_by (λ i. share_of resource (needs_of i)) instrs.now }
{
    let mut total = 0;
    for instr in instrs {
        total += need(resource, instr);
    }
    total
}

/// Whether the instructions have room in one packet.
#[tactic(auto, using(crate::proofs::NeedLaws::totals_fit))]
pub fn fit_packet(instrs: &[Instr]) -> bool
    ensures { IsTrue result ↔ (FitPacket (map needs_of instrs.now)) }
{
    instrs.len() <= PACKET as usize
        && total(Resource::Memory, instrs) <= places(Resource::Memory)
        && total(Resource::Stores, instrs) <= places(Resource::Stores)
        && total(Resource::MultiplyOrControl, instrs) <= places(Resource::MultiplyOrControl)
        && total(Resource::Control, instrs) <= places(Resource::Control)
}
