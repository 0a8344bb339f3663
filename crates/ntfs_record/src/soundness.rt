//! The tests of a file record's attributes.

ghost use Rattle.std.specs.Prelude.{◌≡◌, ◌+◌, ◌≤◌, ◌<◌, ◌^◌, length, IfSome, IsTrue};
ghost use Rattle.ntfs_record.specs.Layout as layout;
ghost use Rattle.ntfs_record.specs.Attribute as spec;
ghost use Rattle.ntfs_record.specs.Header as header;
ghost use Rattle.ntfs_record.specs.Parsing as parsing;

use crate::layout::{
    first_attribute_of, highest_at, in_use_of, kind_at, length_at, lowest_at, name_offset_at,
    name_units_at, non_resident_at, pairs_offset_at, value_length_at, value_offset_at,
};

/// The type that ends the list of attributes.
const END: u32 = 0xFFFF_FFFF;

/// The greatest VCN that an attribute may name.
const MOST_VCN: u64 = 1 << 48;

/// The VCN after the highest, which is a signed number: after -1 it is 0.
pub(crate) fn next_at(bytes: &[u8], place: usize) -> u64
    requires { place + 32 ≤ length bytes.now }
    ensures { result ≡ spec.next_at place bytes.now }
{
    highest_at(bytes, place).wrapping_add(1)
}

fn least_length_at(bytes: &[u8], place: usize) -> u32
    requires { place + 24 ≤ length bytes.now }
    ensures { result ≡ spec.least_length_at place bytes.now }
{
    if non_resident_at(bytes, place) == 0 {
        24
    } else {
        64
    }
}

#[tactic(auto, unfolding(crate::specs::Attribute::has_length))]
fn has_length(bytes: &[u8], used: usize, place: usize) -> bool
    requires room { place + 28 ≤ used }
    requires within { used ≤ length bytes.now }
    requires small { used < 2 ^ 32 }
    ensures test { result ≡ spec.has_length used place bytes.now }
    ensures ends { IsTrue result → place + layout.length_at place bytes.now + 4 ≤ used }
    ensures least { IsTrue result → spec.least_length_at place bytes.now ≤ layout.length_at place bytes.now }
{
    let length = length_at(bytes, place);
    length % 8 == 0
        && least_length_at(bytes, place) <= length
        && place + length as usize + 4 <= used
}

#[tactic(auto, unfolding(crate::specs::Attribute::has_name_inside))]
fn has_name_inside(bytes: &[u8], place: usize) -> bool
    requires { place + 24 ≤ length bytes.now }
    ensures { result ≡ spec.has_name_inside place bytes.now }
{
    let units = u32::from(name_units_at(bytes, place));
    let name_end = u32::from(name_offset_at(bytes, place)) + 2 * units;
    units == 0 || name_end <= length_at(bytes, place)
}

#[tactic(auto, unfolding(crate::specs::Attribute::has_value))]
fn has_value(bytes: &[u8], place: usize) -> bool
    requires { place + 24 ≤ length bytes.now }
    ensures { result ≡ spec.has_value place bytes.now }
{
    let offset = u64::from(value_offset_at(bytes, place));
    let value_end = offset + u64::from(value_length_at(bytes, place));
    24 <= offset && value_end <= u64::from(length_at(bytes, place))
}

#[tactic(auto, unfolding(crate::specs::Attribute::has_runs))]
fn has_runs(bytes: &[u8], place: usize) -> bool
    requires { place + 64 ≤ length bytes.now }
    ensures { result ≡ spec.has_runs place bytes.now }
{
    let offset = u32::from(pairs_offset_at(bytes, place));
    let lowest = lowest_at(bytes, place);
    let next = next_at(bytes, place);
    64 <= offset
        && offset <= length_at(bytes, place)
        && lowest <= MOST_VCN
        && lowest <= next
        && next <= MOST_VCN + 1
}

fn has_body(bytes: &[u8], place: usize) -> bool
    requires within { place + layout.length_at place bytes.now ≤ length bytes.now }
    requires least { spec.least_length_at place bytes.now ≤ layout.length_at place bytes.now }
    ensures { result ≡ spec.has_body place bytes.now }
{
    if non_resident_at(bytes, place) == 0 {
        has_value(bytes, place)
    } else {
        has_runs(bytes, place)
    }
}

/// Whether nothing is wrong with the attribute at a place.
#[tactic(auto, using(crate::proofs::Sound::unsound_short), unfolding(crate::specs::Attribute::is_sound))]
fn is_sound(bytes: &[u8], used: usize, place: usize) -> bool
    requires place_within { place ≤ used }
    requires within { used ≤ length bytes.now }
    requires small { used < 2 ^ 32 }
    ensures { result ≡ spec.is_sound used place bytes.now }
{
    // The fields of the shortest attribute, and the type that ends the list.
    if used < place + 28 {
        return false;
    }
    if !has_length(bytes, used, place) {
        return false;
    }
    non_resident_at(bytes, place) <= 1 && has_name_inside(bytes, place) && has_body(bytes, place)
}

/// Whether the list of attributes ends at a place.
#[tactic(auto, unfolding(crate::specs::Attribute::is_end))]
pub(crate) fn is_end(bytes: &[u8], used: usize, place: usize) -> bool
    requires place_within { place ≤ used }
    requires within { used ≤ length bytes.now }
    requires small { used < 2 ^ 32 }
    ensures { result ≡ spec.is_end used place bytes.now }
{
    place + 4 <= used && kind_at(bytes, place) == END
}

/// The first place from `first` on at which the attribute isn't sound.
fn first_unsound(bytes: &[u8], used: usize, first: usize) -> Option<usize>
    requires place_within { first ≤ used }
    requires within { used ≤ length bytes.now }
    requires is_used { used ≡ layout.in_use_of bytes.now }
    requires small { used < 2 ^ 32 }
    ensures unsound { result ≡ parsing.unsound_of bytes.now first }
    ensures fits { IfSome result (λ place. place < 2 ^ 32) }
{
    let mut place = first;
    'attributes: while !is_end(bytes, used, place) {
        if !is_sound(bytes, used, place) {
            return Some(place);
        }
        place += length_at(bytes, place) as usize;
    }
    None
}

/// The place of the first attribute that isn't sound.
pub(crate) fn unsound_of(bytes: &[u8]) -> Option<u32>
    requires { header.header_fault_of bytes.now ≡ None }
    ensures { result ≡ parsing.unsound_of bytes.now (layout.first_attribute_of bytes.now) }
{
    let used = in_use_of(bytes) as usize;
    let first = usize::from(first_attribute_of(bytes));
    let place = first_unsound(bytes, used, first)?;
    Some(place as u32)
}
