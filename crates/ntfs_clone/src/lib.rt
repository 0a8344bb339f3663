//! Clone images: the clusters of a volume that its files own, in one stream. Here they are read, restored and
//! saved, and a volume is copied raw; a checked volume comes back as the same volume.
#![tactic(auto)]

mod backup;
mod checked;
mod command;
mod copying;
mod fault;
mod header;
mod input;
pub mod laws;
mod reading;
mod restoring;
mod row;
mod saving;
mod stretch;
mod taking;
mod volume;
mod waiting;
mod writing;

pub use checked::{copy_raw, save};
pub use copying::copy_clusters;
pub use fault::CloneFault;
pub use header::{CloneHeader, read_header};
pub use reading::read_commands;
pub use restoring::{restore, restore_to};
pub use saving::save_clusters;

#[cfg(test)]
mod law_tests;
#[cfg(test)]
mod save_tests;
#[cfg(test)]
mod tests;
