//! Who owns the clusters of a volume, printed.
#![tactic(auto)]

mod cluster_query;
mod cluster_rows;
mod cover;
mod file_runs;
mod held;
mod holding;
mod owner_lines;
mod owner_query;
mod reread;
mod row;
mod sweep;

pub use owner_query::{OwnerQuery, owners, show_owners};
