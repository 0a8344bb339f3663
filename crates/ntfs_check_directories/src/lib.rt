//! Rules C13 and C14: the order of directories, and the names that their entries lead to.
#![tactic(auto)]

mod asked;
mod file;
mod leads;
mod list;
mod name;
mod order;
mod row;
mod rules;

pub use rules::{check_names_of_entries, check_orders};

#[cfg(test)]
mod tests;
