//! Tests of what stands below models: bytes in and out, the processor and its packets, listings, the input language, and what a function
//! becomes before its model. They are rows of texts with what is asked of them and the answers that were worked out.
#![tactic(auto)]

#[cfg(test)]
mod base;
#[cfg(test)]
mod faults;
#[cfg(test)]
mod framed;
#[cfg(test)]
mod functions;
#[cfg(test)]
mod generated;
#[cfg(test)]
mod known;
#[cfg(test)]
mod listings;
#[cfg(test)]
mod outside_faults;
#[cfg(test)]
mod outside_runs;
#[cfg(test)]
mod processor;
#[cfg(test)]
mod refutation_texts;
#[cfg(test)]
mod report_texts;
#[cfg(test)]
mod rows;
#[cfg(test)]
mod run_texts;
#[cfg(test)]
mod scripts;
#[cfg(test)]
mod start_texts;
#[cfg(test)]
mod starts;
#[cfg(test)]
mod tables;
