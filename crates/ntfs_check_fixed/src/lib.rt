//! The records with fixed numbers: whether each is as its rule says, whether the mirror has copies of the first four,
//! and what an accepted volume is asked for later.
#![tactic(auto)]

mod cells;
mod fixed;
mod known;
mod mirror;
mod rows;

pub use fixed::check_fixed_records;
pub use known::{Facts, read_facts};
pub use mirror::check_mirror;

#[cfg(test)]
mod tests;
