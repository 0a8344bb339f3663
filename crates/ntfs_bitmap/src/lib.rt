//! Sets of cluster numbers, held as runs, and the bits of `$Bitmap` that they are compared with.
#![tactic(auto)]

mod bits;
mod cluster_set;
mod fault;
pub mod laws;
mod runs;
#[cfg(test)]
mod tests;

pub use bits::bit_of;
pub use cluster_set::{ClusterSet, FreeRun};
pub use fault::ClaimFault;
