//! What one packet may hold, and how much of it an instruction takes. The counts are this project's profile of Hexagon V4.

ghost use Rattle.std.specs.Prelude.{◌≡◌};
ghost use Rattle.un_isa.specs.PacketCounts.{places_of, share_of};

use crate::table::Needs;

/// How many instructions a packet may have.
pub const PACKET: u32 = 4;

/// How many loads and stores together a packet may have.
pub const MEM_PLACES: u32 = 2;

/// How many stores a packet may have.
pub const STORE_PLACES: u32 = 1;

/// How many multiplications, shifts, predicate moves and control transfers together a packet may have.
pub const XC_PLACES: u32 = 2;

/// How many control transfers a packet may have.
pub const CONTROL_PLACES: u32 = 1;

/// What the instructions of a packet share: its places for instructions, for loads and stores, for stores, for
/// multiplications, shifts, predicate moves and control transfers, and for control transfers.
#[derive(Clone, Copy, PartialEq, Eq)]
pub enum Resource {
    Instructions,
    Memory,
    Stores,
    MultiplyOrControl,
    Control,
}

impl Resource {
    /// All resources.
    pub const ALL: [Resource; 5] = [
        Resource::Instructions,
        Resource::Memory,
        Resource::Stores,
        Resource::MultiplyOrControl,
        Resource::Control,
    ];
}

/// How much of a resource a packet has.
pub fn places(r: Resource) -> u32
    ensures { result ≡ places_of r }
{
    match r {
        Resource::Instructions => PACKET,
        Resource::Memory => MEM_PLACES,
        Resource::Stores => STORE_PLACES,
        Resource::MultiplyOrControl => XC_PLACES,
        Resource::Control => CONTROL_PLACES,
    }
}

/// How much of a resource an instruction with these needs takes.
pub fn share(r: Resource, n: Needs) -> u8
    ensures { result ≡ share_of r n }
{
    match r {
        Resource::Instructions => 1,
        Resource::Memory => n.mem,
        Resource::Stores => n.store,
        Resource::MultiplyOrControl => n.xc,
        Resource::Control => n.control,
    }
}
