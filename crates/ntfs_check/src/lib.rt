//! Whether a volume is accepted: the sixteen rules, in their order; and what is found of one that is.
#![tactic(auto)]

mod checked;
mod findings;
mod judging;
pub mod laws;

pub use checked::{Checked, check};
pub use findings::{Findings, examine};
pub use judging::judge;
pub use ntfs_rules::CheckFault;

#[cfg(test)]
mod damages;
#[cfg(test)]
mod findings_tests;
#[cfg(test)]
mod tests;
