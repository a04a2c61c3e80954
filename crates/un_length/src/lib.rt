//! The propagator of the length of a block: it fails where the operations of a block have no room before its greatest end.
#![tactic(auto)]

pub mod block;
pub mod crowd;
mod holds;
pub mod length;
pub mod mixed;
mod room;
pub mod window;
