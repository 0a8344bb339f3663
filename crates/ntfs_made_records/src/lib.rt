//! What is read back from the records that the generator writes.
#![tactic(auto)]

pub mod laws;
#[cfg(test)]
mod tests;
