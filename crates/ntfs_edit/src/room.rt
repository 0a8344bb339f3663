//! Want of room in a record.

/// The bytes in use that a record would need, and the bytes that it has.
#[derive(Clone, Copy, Debug, PartialEq, Eq)]
pub struct NoRoom {
    pub need: u64,
    pub have: u32,
}
