//! The order of names on an NTFS volume: `$UpCase`, by which names are compared without case, and the text of a name.
//! A name is a slice of bytes in UTF-16LE, two to a unit; a last odd byte plays no part.
#![tactic(auto)]

pub mod laws;
mod text;
mod unit;
mod up_case;

pub use text::{text_of, units_of};
pub use up_case::UpCase;

#[cfg(test)]
mod tests;
