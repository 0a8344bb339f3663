//! The sixteen rules by which a volume is accepted, as definitions on its records, with their laws; and what several
//! rules read of a volume.
#![tactic(auto)]

mod content;
mod fault;
pub mod laws;
mod lists;

pub use content::{Front, read_front, read_vcn};
pub use fault::{CheckFault, cut_of, damaged};
pub use lists::has_list;
