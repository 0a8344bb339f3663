//! The walk of a directory's index: the entries of its tree of nodes, in order, over blocks that are fetched one by
//! one.
#![tactic(auto)]

mod allocation;
mod blocks;
mod entry;
mod fault;
pub mod laws;
mod layout;
mod memory;
mod node;
mod path;
#[cfg(test)]
mod tests;
mod walk;

pub use allocation::{block_place, vcn_unit};
pub use blocks::Blocks;
pub use entry::Entry;
pub use fault::{BlockFault, IndexFault};
pub use memory::MemBlocks;
pub use walk::{Walk, start};
