//! What printing calls share: why they stop, text that waits in a bounded buffer before a sink, labels and numbers.
#![tactic(auto)]

mod buffer;
mod fault;
mod label;
mod numbers;
mod pending;

pub use buffer::zeros;
pub use fault::{ShowFault, gather_refusal};
pub use label::kind_and_name;
pub use numbers::{Label, push_number_line, push_serial_line};
pub use pending::Pending;
