//! Fixups of file records and index blocks: `unfix` tests the number at the end of each stride and puts the true
//! bytes back, `refix` saves them and puts the next number there. Both work in place and take no memory.
#![tactic(auto)]

mod header;
pub mod laws;
mod refixing;
#[cfg(test)]
mod tests;
mod unfixing;

pub use header::{Magic, array_count, array_offset, set_array_count, set_array_offset};
pub use refixing::refix;
pub use unfixing::{FixFault, unfix};
