//! Laws of the generator: a made volume opens, as which geometry, and with which map of $MFT.
#![tactic(auto)]

pub mod laws;
#[cfg(test)]
mod tests;
