//! The boot sector of an NTFS volume, and the geometry that it gives.
#![tactic(auto)]

mod boot_sector;
mod geometry;
mod volume;

pub use geometry::{BootFault, Geometry, read_geometry};
pub use volume::{ImageFault, read_volume_geometry};

#[cfg(test)]
mod tests;
