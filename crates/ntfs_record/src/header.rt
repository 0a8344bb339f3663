//! The tests of a file record's header.

ghost use Rattle.std.specs.Prelude.{◌≡◌, ◌≤◌, ◌<◌, ◌^◌, length, IsTrue, IfNone};
ghost use Rattle.ntfs_record.specs.Header as spec;

use crate::layout::{allocated_of, array_count, array_offset, first_attribute_of, in_use_of};

#[tactic(auto, unfolding(crate::specs::Header::begins_file))]
pub(crate) fn begins_file(bytes: &[u8]) -> bool
    ensures { result ≡ spec.begins_file bytes.now }
{
    bytes.starts_with(b"FILE")
}

#[tactic(auto, unfolding(crate::specs::Header::has_size))]
fn has_size(bytes: &[u8]) -> bool
    ensures size { result ≡ spec.has_size bytes.now }
    ensures long { IsTrue result → 32 ≤ length bytes.now }
    ensures small { IsTrue result → length bytes.now < 2 ^ 32 }
{
    bytes.len() >= 32 && allocated_of(bytes) as usize == bytes.len()
}

#[tactic(auto, unfolding(crate::specs::Header::has_room))]
fn has_room(bytes: &[u8]) -> bool
    requires { 32 ≤ length bytes.now }
    ensures { result ≡ spec.has_room bytes.now }
{
    in_use_of(bytes) <= allocated_of(bytes)
}

#[tactic(auto, unfolding(crate::specs::Header::has_first))]
fn has_first(bytes: &[u8]) -> bool
    requires { 32 ≤ length bytes.now }
    ensures { result ≡ spec.has_first bytes.now }
{
    let first = usize::from(first_attribute_of(bytes));
    let array_end = array_offset(bytes) + 2 * array_count(bytes);
    first % 8 == 0 && array_end <= first && 0x28 <= first && first + 4 <= in_use_of(bytes) as usize
}

/// The number of the first test that fails.
#[tactic(auto, unfolding(crate::specs::Header::header_fault_of))]
pub(crate) fn header_fault_of(bytes: &[u8]) -> Option<u8>
    ensures fault { result ≡ spec.header_fault_of bytes.now }
    ensures small { IfNone result (length bytes.now < 2 ^ 32) }
{
    if !begins_file(bytes) {
        Some(1)
    } else if !has_size(bytes) {
        Some(2)
    } else if !has_room(bytes) {
        Some(3)
    } else if !has_first(bytes) {
        Some(4)
    } else {
        None
    }
}
