//! Who owns which clusters: the runs of all records of a volume, each record read once.
#![tactic(auto)]

mod findings;
pub mod laws;
mod owners;
mod records;
mod surveying;

pub use owners::{Owner, Survey};
pub use surveying::{survey, survey_volume};

#[cfg(test)]
mod tests;
