//! A row of clusters that waits to be written.

/// The bytes of clusters in a row, and the place of the first of them on the device, in bytes.
#[derive(Drop)]
pub(crate) struct Row {
    pub(crate) bytes: Vec<u8>,
    pub(crate) place: u64,
}
