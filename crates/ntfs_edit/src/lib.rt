//! Records edited in place: mapping pairs, a value or sizes of one attribute are replaced, and what follows it is
//! shifted. Nothing is copied, and no memory is taken.
#![tactic(auto)]

mod edits;
pub mod laws;
mod room;
mod steps;

pub use edits::{replace_pairs, set_resident, set_sizes};
pub use room::NoRoom;

#[cfg(test)]
mod tests;
