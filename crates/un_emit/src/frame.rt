//! How many bytes the frame has.

ghost use Rattle.std.specs.Prelude.{◌≡◌, ◌≤◌};
ghost use Rattle.un_isa.specs.declared.reg.TheConstants.{FRAME};
ghost use Rattle.un_model.specs.Emission.{larger_slot, largest_slot, frame_of};
ghost use Rattle.un_model.specs.Schedules.{schedule_of};

use un_isa::reg::FIRST_SLOT;
use un_model::cost::value;
use un_model::model::Model;
use un_model::schedule::{LiveRange, Schedule};

/// The larger of `h` and the slot of a temporary that is active and has one.
fn larger_slot(h: u32, range: &LiveRange) -> u32
    ensures { result ≡ larger_slot h range.now }
{
    if range.active && FIRST_SLOT <= range.reg {
        h.max(range.reg - FIRST_SLOT)
    } else {
        h
    }
}

/// The largest slot of these live ranges, counted from 0.
fn largest_slot(ranges: &[LiveRange]) -> u32
    ensures { result ≡ largest_slot ranges.now }
{
    let mut largest = 0;
    for range in ranges {
        largest = larger_slot(largest, range);
    }
    largest
}

/// How many bytes the frame has: a multiple of 8 with room for the largest slot, and none where the frame flag is 0.
pub(crate) fn frame(m: &Model, values: &[u32], t: &Schedule) -> u32
    requires schedule { t.now ≡ schedule_of m.now values.now }
    requires small { frame_of m.now values.now ≤ FRAME }
    ensures { result ≡ frame_of m.now values.now }
{
    if value(values, m.flag) == 0 {
        return 0;
    }
    (largest_slot(t.ranges.as_slice()) + 2) / 2 * 8
}
