//! Tests of the whole program over sources and sinks in memory, command by command, of the code of given values, of what is posted for
//! functions, of searches and first solutions, and of the check of reports.
#![tactic(auto)]

#[cfg(test)]
mod by_table;
#[cfg(test)]
mod checks;
#[cfg(test)]
mod commands;
#[cfg(test)]
mod ends;
#[cfg(test)]
mod firsts;
#[cfg(test)]
mod fresh;
#[cfg(test)]
mod hostile;
#[cfg(test)]
mod improvements;
#[cfg(test)]
mod least_rows;
#[cfg(test)]
mod limits;
#[cfg(test)]
mod machines;
#[cfg(test)]
mod posts;
#[cfg(test)]
mod refutations;
#[cfg(test)]
mod reports;
#[cfg(test)]
mod rows;
#[cfg(test)]
mod runs;
#[cfg(test)]
mod searches;
#[cfg(test)]
mod steps;
#[cfg(test)]
mod values;
#[cfg(test)]
mod verdicts;
#[cfg(test)]
mod versions;
