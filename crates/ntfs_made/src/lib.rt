//! A made volume is a volume: it opens, its records are sound, and no cluster of it has two owners.
#![tactic(auto)]

pub mod laws;
#[cfg(test)]
mod tests;
