//! Where a file's clusters lie: mapping pairs, the packed list of signed lengths and deltas of a non-resident
//! attribute, read exactly and written in the one shortest spelling.
#![tactic(auto)]

mod cells;
mod decoding;
mod encoding;
mod fault;
mod front;
pub mod laws;
mod put;
mod reader;
mod run;
mod run_list;
mod walk;
mod writer;

pub use decoding::decode;
pub use encoding::encode_into;
pub use fault::{BadPairs, PairsFault};
pub use reader::pairs;
pub use run::Run;
pub use run_list::RunList;
pub use walk::Pairs;

#[cfg(test)]
mod tests;
