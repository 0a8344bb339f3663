//! The steps of an edit: an attribute gets another length, and its body is put in.

ghost use Rattle.std.specs.Prelude.{◌≡◌, ◌≤◌, ◌<◌, ◌+◌, ◌-◌, ◌^◌, length, OnOk};
ghost use Rattle.ntfs_base.specs.Bytes.{overwrite as after_overwrite};
ghost use Rattle.ntfs_record.specs.Attribute.{IsSoundAt, HasRuns, HasValue};
ghost use Rattle.ntfs_record.specs.Layout.{in_use_of as used_of};
ghost use Rattle.ntfs_edit.specs.Edits as spec;
ghost use Rattle.ntfs_edit.specs.Respelt.{room_for, where_room};
ghost use Rattle.ntfs_edit.specs.Steps.{resized, resized_need, pairs_put, value_put, pairs_need_at, value_need_at};

use crate::room::NoRoom;
use ntfs_base::in_place::{move_piece, overwrite, overwrite_zeros};
use ntfs_record::layout::{
    in_use_of, length_at, pairs_offset_at, set_highest_at, set_in_use, set_length_at,
    set_value_length_at, value_offset_at,
};

/// The least multiple of 8 from a number on.
#[tactic(auto, unfolding(crate::specs::Edits::up8))]
fn up8(number: usize) -> usize
    requires { number + 7 < 2 ^ 64 }
    ensures value { result ≡ spec.up8 number }
    ensures least { number ≤ result }
    ensures most { result ≤ number + 7 }
{
    (number + 7) / 8 * 8
}

/// Gives the attribute at a place another length: what follows it in the bytes in use is shifted.
#[tactic(auto, unfolding(crate::specs::Steps::resized, crate::specs::Steps::resized_need))]
fn resize(bytes: &mut [u8], place: usize, size: usize) -> Result<(), NoRoom>
    requires small { length bytes.old < 2 ^ 32 }
    requires within { used_of bytes.old ≤ length bytes.old }
    requires sound { IsSoundAt (used_of bytes.old) place bytes.old }
    requires least { 24 ≤ size }
    requires most { size < 2 ^ 63 + 2 ^ 17 }
    ensures answer { result ≡ room_for (resized_need place size bytes.old) bytes.old }
    ensures bytes { bytes.new
        ≡ where_room (resized_need place size bytes.old) bytes.old (resized place size bytes.old) }
    ensures room { OnOk result (place + size ≤ length bytes.old) }
{
    let used = in_use_of(bytes) as usize;
    let end = place + length_at(bytes, place) as usize;
    let need = place + size + (used - end);
    if bytes.len() < need {
        return Err(NoRoom {
            need: need as u64,
            have: bytes.len() as u32,
        });
    }
    move_piece(bytes, end, used - end, place + size);
    set_in_use(bytes, need as u32);
    set_length_at(bytes, place, size as u32);
    Ok(())
}

/// Puts a text at a place, and zeros behind it up to so many bytes.
fn put_padded(bytes: &mut [u8], place: usize, size: usize, text: &[u8])
    requires text { length text.now ≤ size }
    requires within { place + size ≤ length bytes.old }
    ensures { bytes.new ≡ after_overwrite place (spec.padded size text.now) bytes.old }
{
    overwrite(bytes, place, text);
    overwrite_zeros(bytes, place + text.len(), size - text.len());
}

/// Puts mapping pairs over those of the attribute at a place.
#[tactic(auto, unfolding(crate::specs::Steps::pairs_put, crate::specs::Edits::less_one))]
pub(crate) fn put_pairs(
    bytes: &mut [u8],
    place: usize,
    pairs: &[u8],
    next: u64,
) -> Result<(), NoRoom>
    requires small { length bytes.old < 2 ^ 32 }
    requires within { used_of bytes.old ≤ length bytes.old }
    requires sound { IsSoundAt (used_of bytes.old) place bytes.old }
    requires runs { HasRuns place bytes.old }
    ensures answer { result ≡ room_for (pairs_need_at place (length pairs.now) bytes.old) bytes.old }
    ensures bytes { bytes.new
        ≡ where_room (pairs_need_at place (length pairs.now) bytes.old) bytes.old
        (pairs_put place pairs.now next bytes.old) }
{
    let offset = usize::from(pairs_offset_at(bytes, place));
    let old_size = length_at(bytes, place) as usize;
    let size = old_size.max(up8(offset + pairs.len()));
    resize(bytes, place, size)?;
    set_highest_at(bytes, place, next.wrapping_sub(1));
    put_padded(bytes, place + offset, size - offset, pairs);
    Ok(())
}

/// Puts a value over that of the attribute at a place.
#[tactic(auto, unfolding(crate::specs::Steps::value_put))]
pub(crate) fn put_value(bytes: &mut [u8], place: usize, value: &[u8]) -> Result<(), NoRoom>
    requires small { length bytes.old < 2 ^ 32 }
    requires within { used_of bytes.old ≤ length bytes.old }
    requires sound { IsSoundAt (used_of bytes.old) place bytes.old }
    requires body { HasValue place bytes.old }
    ensures answer { result ≡ room_for (value_need_at place (length value.now) bytes.old) bytes.old }
    ensures bytes { bytes.new
        ≡ where_room (value_need_at place (length value.now) bytes.old) bytes.old
        (value_put place value.now bytes.old) }
{
    let offset = usize::from(value_offset_at(bytes, place));
    let size = up8(offset + value.len());
    resize(bytes, place, size)?;
    set_value_length_at(bytes, place, value.len() as u32);
    put_padded(bytes, place + offset, size - offset, value);
    Ok(())
}
