//! What is posted of the registers, the calls, the packets, the length and the pressure of each block, and of each two operands of an
//! operation.
#![tactic(auto)]

mod alive;
mod call_rows;
mod call_sides;
mod call_waits;
mod carried;
mod crossings;
mod crowds;
mod demands;
mod known_calls;
pub mod knowns;
pub mod post_aparts;
pub mod post_clobbers;
pub mod post_lengths;
pub mod post_packets;
pub mod post_pressures;
pub mod post_twos;
mod reach;
mod room;
mod saved;
mod see_calls;
mod shares;
mod span;
mod spans;
mod tasks;
mod wait;
