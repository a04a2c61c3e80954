//! What a run comes to.

use crate::memory::Memory;
use un_base::ids::NameId;
use un_base::name::Name;
use un_lists::items::Items;

/// A call as its callee saw it.
#[derive(PartialEq, Drop)]
pub struct CallRecord {
    /// The name of the function that was called.
    pub name: Name,
    /// The arguments, in order.
    pub args: Items<u32>,
    /// The memory at that moment.
    pub memory: Memory,
}

/// How a run ended.
#[derive(PartialEq, Drop)]
pub enum End {
    /// The function returned: with a result where it has one, and for packets to the address `target`.
    Returned {
        result: Option<u32>,
        target: Option<u32>,
    },
    /// An access at an address that is not there.
    Trapped,
    /// A call for which no reply was left.
    Waiting(CallRecord),
    /// A further block would be entered: its label, and for the source the values of the names live at its start.
    Running {
        label: Name,
        values: Items<(NameId, u32)>,
    },
}

/// How a run ended.
#[derive(PartialEq, Drop)]
pub struct Outcome {
    /// Whether it returned, trapped, waited for a reply, or went on.
    pub end: End,
    /// The memory at its end.
    pub memory: Memory,
    /// The calls that were answered up to then, in order.
    pub calls: Items<CallRecord>,
    /// For packets the cycle in which the last completed one issued, from 1, and 0 before; None for the source.
    pub cycles: Option<u64>,
}
