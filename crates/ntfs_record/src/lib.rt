//! File records in place: `parse` tests a whole record once, and its views read it where it lies. Nothing is copied,
//! and no memory is taken.
#![tactic(auto)]

mod attribute;
mod fault;
mod header;
pub mod laws;
pub mod layout;
mod record_view;
mod slot;
mod soundness;

pub use attribute::{AttributeView, Attributes, Body};
pub use fault::RecordFault;
pub use record_view::{RecordView, parse};
pub use slot::{SlotView, is_in_use, slot_in};

#[cfg(test)]
mod tests;
