//! Rule C12: in each base record, attributes of one type and name are one stream.
#![tactic(auto)]

mod asked;
mod file;
mod join;
mod list;
mod named;
mod rules;

pub use rules::check_streams;

#[cfg(test)]
mod tests;
