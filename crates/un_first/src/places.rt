//! Where the keys stand in each group.

use un_blocks::grid::Grid;
use un_trial::sets::{EMPTY, RegisterSet};

/// The place of each key in each group: a register, a predicate register or a slot; NONE where it is not live there.
pub type Places = Grid<u32>;

/// The places that are taken in a group.
pub fn taken(places: &Places, g: u32) -> RegisterSet {
    let mut set = EMPTY;
    for r in places.row(g) {
        set = set.with(*r);
    }
    set
}
