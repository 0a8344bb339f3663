//! Rules C10 and C11, of files whose attributes stand in more than one record.
#![tactic(auto)]

mod asked;
mod bases;
mod collect;
mod compare;
mod extensions;
mod lists;
mod members;
mod rules;

pub use rules::{check_base_references, check_lists};

#[cfg(test)]
mod tests;
