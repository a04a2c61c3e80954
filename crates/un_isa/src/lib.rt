//! The processor: operations, registers, instructions, the table of latencies and resources, memory, starts and
//! outcomes. A narrowed Hexagon V4 (Programmer's Reference Manual); the counts of a packet, the latencies and the
//! ranges of literals are this project's own.
#![tactic(auto)]

pub mod alu;
pub mod does;
pub mod exact;
pub mod facts;
pub mod instr;
pub mod memory;
pub mod op;
pub mod outcome;
pub mod packet_counts;
pub mod reg;
pub mod reg_set;
pub mod start;
pub mod table;
