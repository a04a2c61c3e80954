//! The propagators of all kinds as one type, with the laws of each kind, and how each is made: its variables are those of its fields.
#![tactic(auto)]

pub mod any;
pub mod make_alt;
pub mod make_counted;
pub mod make_prec;
pub mod make_press;
pub mod make_rect;
pub mod make_slots;
pub mod props;
mod sweep;
pub mod table;
pub mod vars;
