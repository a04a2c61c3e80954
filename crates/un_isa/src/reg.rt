//! Registers and the spaces that they lie in.

ghost use Rattle.std.specs.Prelude.{◌≡◌};
ghost use Rattle.un_isa.specs.Registers.{space_of};

/// The number of the stack pointer.
pub const STACK: u32 = 29;

/// The number of the link register, which holds the address to return to.
pub const LINK: u32 = 31;

/// How many general registers there are; the number of the first predicate.
pub const GENERALS: u32 = 32;

/// How many predicates there are.
pub const PREDICATES: u32 = 4;

/// How many registers there are, general ones and predicates.
pub const REGISTERS: u32 = GENERALS + PREDICATES;

/// The number of the first frame slot.
pub const FIRST_SLOT: u32 = REGISTERS;

/// How many slots a frame may have.
pub const SLOTS: u32 = 256;

/// How many bytes a frame may have.
pub const FRAME: u32 = 1024;

/// A register or frame slot: 0 to 31 are r0 to r31, 32 to 35 are p0 to p3, 36 + i is frame slot i.
#[derive(Clone, Copy, Default, PartialEq)]
pub struct Reg(pub u32);

/// A kind of register: the general ones, the predicates, the frame slots.
#[derive(Clone, Copy, PartialEq)]
pub enum Space {
    R,
    P,
    M,
}

/// The space of the register or slot with this number.
pub fn space_of(r: u32) -> Space
    ensures { result ≡ space_of r }
{
    if r < GENERALS {
        Space::R
    } else if r < FIRST_SLOT {
        Space::P
    } else {
        Space::M
    }
}
