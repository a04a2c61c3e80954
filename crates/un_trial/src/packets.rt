//! What packets have given away, in one word for each packet.

use crate::machine::{Needs, RESOURCES, ROOM};
use un_isa::packet_counts::Resource;

/// How many bits of the word tell of a resource. Two needs come to less than half of what they may tell.
const LANE: u32 = 12;

const _: () = prove!(RESOURCES == 5);

/// One of each resource.
const ONES: u64 = 1 | 1 << LANE | 1 << (2 * LANE) | 1 << (3 * LANE) | 1 << (4 * LANE);

/// The highest bit of each resource.
const OVER: u64 = ONES << (LANE - 1);

/// What a packet has of each resource.
const ALL_ROOM: u64 = ROOM[0] as u64
    | (ROOM[1] as u64) << LANE
    | (ROOM[2] as u64) << (2 * LANE)
    | (ROOM[3] as u64) << (3 * LANE)
    | (ROOM[4] as u64) << (4 * LANE);

/// What lacks to a highest bit behind the room: with it a resource has its highest bit where it is above the room.
const SLACK: u64 = OVER - ONES - ALL_ROOM;

/// So much of each resource of a packet.
#[derive(Clone, Copy)]
pub struct Share {
    bits: u64,
}

/// Nothing.
pub(crate) const NO_SHARE: Share = Share { bits: 0 };

/// What an instruction needs that needs nothing but its place.
pub(crate) const ONE_PLACE: Share = Share {
    bits: 1 << (LANE * Resource::Instructions as u32),
};

impl Share {
    /// So much as is needed.
    #[inline(always)]
    pub fn of(needs: Needs) -> Share {
        Share {
            bits: u64::from(needs[0])
                | u64::from(needs[1]) << LANE
                | u64::from(needs[2]) << (2 * LANE)
                | u64::from(needs[3]) << (3 * LANE)
                | u64::from(needs[4]) << (4 * LANE),
        }
    }

    /// Both together.
    #[inline(always)]
    pub fn and(self, other: Share) -> Share {
        Share {
            bits: self.bits.wrapping_add(other.bits),
        }
    }

    /// Whether a packet that gave this away has room for more.
    #[inline(always)]
    pub fn has_room(self, more: Share) -> bool {
        self.and(more).bits.wrapping_add(SLACK) & OVER == 0
    }
}
