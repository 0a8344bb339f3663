//! Directories over an image: the walk of a directory's index, whose blocks are read from the image as the walk enters
//! them.
#![tactic(auto)]

mod allocation;
mod blocks;
mod directory;
mod entries;
mod fault;
pub mod laws;
mod parts;
mod path;
mod path_fault;
mod runs;
mod search;
mod up_case;
mod volume;

pub use directory::{Directory, open_directory};
pub use entries::{EntryRecord, name_in_key, namespace_in_key, read_entry};
pub use path::{directory_at, resolve_path};
pub use path_fault::PathFault;
pub use up_case::read_up_case;
pub use volume::{directory_of, resolve, resolve_directory};

#[cfg(test)]
mod tests;
