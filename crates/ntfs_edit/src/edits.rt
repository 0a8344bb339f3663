//! The edits of one attribute of a record.

ghost use Rattle.std.specs.Prelude.{◌≡◌, ◌≤◌, Ok, OnOk, length};
ghost use Rattle.ntfs_base.specs.Bytes.{AreBytes};
ghost use Rattle.ntfs_record.specs.Layout.{first_attribute_of};
ghost use Rattle.ntfs_record.specs.Parsing.{IsAccepted, parse_of};
ghost use Rattle.ntfs_edit.specs.Edits.{changed, with_pairs, with_value, with_sizes, HasRunsAt, HasResidentAt};
ghost use Rattle.ntfs_edit.specs.Respelt.{respelt, respelt_record, need_of, room_for, respelt_where_room, ParsesWith};

use crate::room::NoRoom;
use crate::steps::{put_pairs, put_value};
use ntfs_record::layout::{set_allocated_at, set_size_at, set_valid_at};

/// Replaces the mapping pairs of the non-resident attribute at a place of a record, and the VCN after its highest. The
/// attribute keeps its length where the pairs fit, and grows to the next multiple of 8 where they don't.
pub fn replace_pairs(bytes: &mut [u8], place: u32, pairs: &[u8], next: u64) -> Result<(), NoRoom>
    requires accepted { IsAccepted bytes.old }
    requires there { HasRunsAt place bytes.old }
    ensures answer { result
        ≡ room_for (need_of bytes.old (changed place (with_pairs pairs.now next) bytes.old)) bytes.old }
    ensures bytes { bytes.new ≡ respelt_where_room bytes.old (changed place (with_pairs pairs.now next) bytes.old) }
    ensures parses { OnOk result
        (ParsesWith bytes.old (changed place (with_pairs pairs.now next) bytes.old) bytes.new) }
{
    put_pairs(bytes, place as usize, pairs, next)
}

/// Sets the value of the resident attribute at a place of a record. The attribute's length is the least multiple of 8
/// that has room for it.
pub fn set_resident(bytes: &mut [u8], place: u32, value: &[u8]) -> Result<(), NoRoom>
    requires accepted { IsAccepted bytes.old }
    requires there { HasResidentAt place bytes.old }
    ensures answer { result
        ≡ room_for (need_of bytes.old (changed place (with_value value.now) bytes.old)) bytes.old }
    ensures bytes { bytes.new ≡ respelt_where_room bytes.old (changed place (with_value value.now) bytes.old) }
    ensures parses { OnOk result
        (ParsesWith bytes.old (changed place (with_value value.now) bytes.old) bytes.new) }
{
    put_value(bytes, place as usize, value)
}

/// The items of a slice of bytes are below 2^8.
fn are_bytes(bytes: &[u8])
    ensures { AreBytes bytes.now }
{}

/// Sets the sizes of the non-resident attribute at a place of a record: that of its clusters, that of its stream, and
/// the initialised one.
pub fn set_sizes(bytes: &mut [u8], place: u32, allocated: u64, size: u64, valid: u64)
    requires accepted { IsAccepted bytes.old }
    requires there { HasRunsAt place bytes.old }
    ensures bytes { bytes.new ≡ respelt bytes.old (changed place (with_sizes allocated size valid) bytes.old) }
    ensures parses { 0x30 ≤ first_attribute_of bytes.old
        → parse_of bytes.new
        ≡ Ok (respelt_record bytes.old (changed place (with_sizes allocated size valid) bytes.old)) }
{
    are_bytes(bytes);
    set_allocated_at(bytes, place as usize, allocated);
    set_size_at(bytes, place as usize, size);
    set_valid_at(bytes, place as usize, valid);
}
