//! The real outside: files on disk and the three standard streams. They tell nothing of content.
#![tactic(auto)]

mod access;
mod counting;
mod disk_file;
mod disk_shelf;
mod input;
mod limits;
mod messages;
mod output;
mod stand_ins;
#[cfg(test)]
mod tests;

pub use access::Access;
pub use disk_file::DiskFile;
pub use disk_shelf::DiskShelf;
pub use input::StdInput;
pub use messages::StdMessages;
pub use output::StdOutput;
pub use stand_ins::StandIns;
