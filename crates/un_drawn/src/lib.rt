//! A solution drawn and explained: tables and drawings of what lies in each register in each cycle, and what holds each block's length.
//! No clause is asked of these texts but that they are made safely and end.
#![tactic(auto)]

pub mod bars;
pub mod blocks;
pub mod cause;
pub mod counts;
pub mod crossing;
pub mod drawn;
pub mod explained;
pub mod given;
pub mod held;
pub mod names;
pub mod operations;
pub mod panels;
pub mod pieces;
pub mod reach;
pub mod source;
pub mod spent;
pub mod svg;
pub mod table;
pub mod waits;
