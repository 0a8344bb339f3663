//! The meaning of a volume, which is what its records in use say wherever the image has it; and the laws of the streams
//! of an accepted volume.
#![tactic(auto)]

pub mod laws;
