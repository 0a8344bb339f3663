//! What the tools print: the geometry of a volume, the streams of its records, and who owns its clusters.
#![tactic(auto)]

mod info;
mod list_line;
mod list_options;
mod list_path;
mod list_walk;
mod listing;
mod record_info;
mod streams;

pub use info::info_volume;
pub use list_options::ListOptions;
pub use list_path::{list, show_list};
pub use ntfs_owners::{OwnerQuery, owners, show_owners};
pub use ntfs_print::ShowFault;
pub use record_info::{info_record, show_record};
pub use streams::{cat, cat_stream};

#[cfg(test)]
mod list_tests;
#[cfg(test)]
mod tests;
