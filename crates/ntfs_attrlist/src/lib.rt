//! Attribute lists in place: the entries that tell in which file record each attribute of a file stands. Nothing is
//! copied, and no memory is taken.
#![tactic(auto)]

mod entry;
mod fault;
pub mod laws;
mod layout;
mod reader;
mod walk;

pub use entry::ListEntry;
pub use fault::BadEntry;
pub use reader::entries;
pub use walk::Entries;

#[cfg(test)]
mod tests;
