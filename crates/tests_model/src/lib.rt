//! Tests of stores, propagators and models, with values that were worked out by hand or by another program from the rules alone.
#![tactic(auto)]

#[cfg(test)]
mod broken;
#[cfg(test)]
mod carriers;
#[cfg(test)]
mod compactions;
#[cfg(test)]
mod kinds;
#[cfg(test)]
mod merges;
#[cfg(test)]
mod models;
#[cfg(test)]
mod orders;
#[cfg(test)]
mod prunes;
#[cfg(test)]
mod relaxed;
#[cfg(test)]
mod sets;
#[cfg(test)]
mod stores;
#[cfg(test)]
mod symmetry;
#[cfg(test)]
mod trees;
#[cfg(test)]
mod ways;
#[cfg(test)]
mod words;
