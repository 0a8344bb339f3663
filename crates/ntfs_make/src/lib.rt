//! The generator: a valid NTFS volume, told by a seed, a number of clusters and their size.
//!
//! What stands on the volume is told by three tables: the areas in their order, each with the stream that it holds
//! from a VCN on (`areas`), the file records with their names, attributes and extents (`rows`), and the names of the
//! root in the order of its index (`root_names`). All else spells a row of these in bytes, or finds its place.
#![tactic(auto)]

mod areas;
mod attribute;
mod boot;
mod extent;
mod fault;
mod field;
mod index;
pub mod laws;
mod layout;
mod making;
mod record;
mod root_names;
mod rows;
mod shape;
mod stream;
mod table;

pub use fault::MakeFault;
pub use making::make;
pub use shape::is_in_range;

#[cfg(test)]
mod tests;
