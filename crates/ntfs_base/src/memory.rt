//! The outside in memory. Each device counts its calls, and fails those that its list names.
mod content;
mod file;
mod image;
mod place;
mod shelf;
mod sink;
mod source;

pub use content::MemContent;
pub use file::MemFile;
pub use image::MemImage;
pub use place::Place;
pub use shelf::MemShelf;
pub use sink::MemSink;
pub use source::MemSource;
