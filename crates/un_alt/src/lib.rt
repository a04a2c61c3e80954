//! Propagators of choices: activities, spaces of registers, congruences, preassignments and the frame.
#![tactic(auto)]

pub mod chosen;
mod filter;
pub mod frame;
mod frame_cuts;
pub mod home;
pub mod order;
mod registers;
pub mod same;
pub mod spaces;
pub mod span;
pub mod zeros;
