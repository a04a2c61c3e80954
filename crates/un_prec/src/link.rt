//! Two times of which the second is at least so much after the first.

ghost use Rattle.std.specs.Prelude.{◌≡◌};
ghost use Rattle.un_prec.specs.Links.{link_holds};

use un_prop::act::{Act, At, active, time};

/// The time `to` is at least `gap` after the time `from`, where both `from_on` and `to_on` are active.
#[derive(Clone, Copy)]
pub struct Link {
    /// The time of the first operation: its cycle, or 0 for a block's start.
    pub from: At,
    /// The activity of the first operation.
    pub from_on: Act,
    /// The time of the second operation: its cycle, or a block's end.
    pub to: At,
    /// The activity of the second operation.
    pub to_on: Act,
    /// How many cycles the second is after the first, at least.
    pub gap: u32,
}

/// Whether an assignment keeps a link.
pub(crate) fn keeps_gap(fixed: &[u32], link: Link) -> bool
    ensures { result ≡ link_holds link fixed.now }
{
    if !active(fixed, link.from_on) {
        return true;
    }
    if !active(fixed, link.to_on) {
        return true;
    }
    let from = u64::from(time(fixed, link.from));
    let to = u64::from(time(fixed, link.to));
    from + u64::from(link.gap) <= to
}
