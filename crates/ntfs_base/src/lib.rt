//! What stands outside the program, and how its bytes are read: images, files, sources and sinks as traits, and each of
//! them in memory.
#![tactic(auto)]

mod calls;
mod fault;
mod file_sink;
mod file_source;
mod image;
pub mod in_place;
mod line;
mod memory;
mod names;
mod refusal;
mod shelf;
mod sink;
mod source;

pub use calls::{Calls, FailingCall, Leaves, one_more};
pub use fault::{Failed, Faults, PutFault, ShelfFault, SinkFaults};
pub use file_sink::FileSink;
pub use file_source::FileSource;
pub use image::{HostFile, Image};
pub use line::Line;
pub use memory::{MemContent, MemFile, MemImage, MemShelf, MemSink, MemSource, Place};
pub use names::{is_named, remove_name};
pub use refusal::{Lack, Missing, Named, Rule, UsageKind};
pub use shelf::Shelf;
pub use sink::Sink;
pub use source::Source;

#[cfg(test)]
mod tests;
