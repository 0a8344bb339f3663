//! Whether a volume is accepted: sixteen rules, in their order.
#![tactic(auto)]

mod asked;
mod bitmap;
mod claims;
mod clusters;
mod gathered;
mod marks;
mod surveyed;

pub use clusters::check_clusters;

#[cfg(test)]
mod tests;
