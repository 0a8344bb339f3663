//! A volume opened: where its file records lie, by $MFT's map, and its records by their numbers.
#![tactic(auto)]

mod fault;
mod gather;
mod known;
pub mod laws;
mod list;
mod mft_map;
mod parts;
mod pieces;
mod scan;
mod slot;
mod stream;
mod table;
mod volume;
mod wanted;

pub use fault::VolumeFault;
pub use gather::{has_base, matches, target};
pub use list::{are_entries, read_list};
pub use mft_map::read_table;
pub use scan::Scan;
pub use stream::Stream;
pub use table::Table;
pub use volume::{Volume, open_volume};
pub use wanted::{Wanted, first_of};

#[cfg(test)]
mod gather_tests;
#[cfg(test)]
mod made;
#[cfg(test)]
mod map_tests;
#[cfg(test)]
mod tests;
