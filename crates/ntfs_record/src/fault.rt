//! What can be wrong with a file record.

/// The first thing that is wrong with the bytes of a file record: its header comes before its attributes.
#[derive(Clone, Copy, Debug, PartialEq, Eq)]
pub enum RecordFault {
    /// The header is wrong, by the first of its tests that fails: 1 `FILE`, 2 the bytes allocated, 3 the bytes in use,
    /// 4 the place of the first attribute.
    BadHeader { field: u8 },
    /// The attribute at this place is wrong, and those before it are not.
    BadAttribute { place: u32 },
}
