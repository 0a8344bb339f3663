//! The bytes of a gathered stream, read from an image and put to a sink.
#![tactic(auto)]

mod fault;
mod read;
mod row;
mod rows;

pub use fault::StreamFault;
pub use read::{put_stream, read_stream};

#[cfg(test)]
mod tests;
