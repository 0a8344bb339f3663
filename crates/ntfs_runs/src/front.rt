ghost use Rattle.std.specs.Prelude.{◌≡◌, ◌≤◌, ◌<◌, ◌+◌, ◌^◌, length};
ghost use Rattle.ntfs_runs.specs.Number.{signed};
ghost use Rattle.std.specs.Bool.{OnTrue};
ghost use Rattle.ntfs_runs.specs.Reading.{length_in, lcn_in, pair_in};
ghost use Rattle.ntfs_runs.specs.Reading.{has_sizes as sizes_are_right};
ghost use Rattle.ntfs_runs.specs.Reading.{front_at as front_in};

use crate::run::Run;
use byteorder::{ByteOrder, LittleEndian};

/// The highest LCN, and the most clusters of one list.
pub(crate) const MOST: u64 = 1 << 48;

/// What stands in front of the bytes.
pub(crate) enum Front {
    /// The closing 0.
    Closing,
    Wrong,
    /// A pair for a run, with its size in bytes.
    Pair { run: Run, size: usize },
}

/// The signed number in the first `size` bytes, the lowest first.
#[tactic(auto, unfolding(crate::specs::Number::signed))]
fn signed_at(bytes: &[u8], size: usize) -> i64
    requires least { 1 ≤ size }
    requires most { size ≤ 8 }
    requires within { size ≤ length bytes.now }
    ensures { result ≡ signed size bytes.now }
{
    LittleEndian::read_int(bytes, size)
}

/// The length in the first `size` bytes, where it is at least 1 and there is room for it.
fn length_at(bytes: &[u8], size: usize, room: u64) -> Option<u64>
    requires least { 1 ≤ size }
    requires most { size ≤ 8 }
    requires within { size ≤ length bytes.now }
    ensures { result ≡ length_in room size bytes.now }
{
    let length = signed_at(bytes, size);
    if length < 1 || length as u64 > room {
        return None;
    }
    Some(length as u64)
}

/// The LCN that a delta of `size` bytes gives behind the last one, or a hole where `size` is 0.
fn lcn_at(bytes: &[u8], size: usize, last: u64) -> Option<Option<u64>>
    requires most { size ≤ 8 }
    requires within { size ≤ length bytes.now }
    ensures { result ≡ lcn_in last size bytes.now }
{
    if size == 0 {
        return Some(None);
    }
    let delta = signed_at(bytes, size);
    let lcn = last.checked_add_signed(delta)?;
    if lcn > MOST {
        return None;
    }
    Some(Some(lcn))
}

/// Whether a header's sizes are right, and the bytes are there.
fn has_sizes(count: usize, delta: usize, left: usize) -> bool
    requires { count + delta < 2 ^ 8 }
    ensures value { result ≡ sizes_are_right count delta left }
    ensures right { OnTrue result ((1 ≤ count) × (count ≤ 8) × (delta ≤ 8) × (count + delta ≤ left)) }
{
    1 <= count && count <= 8 && delta <= 8 && count + delta <= left
}

/// The pair behind a header that tells these sizes.
#[tactic(auto, unfolding(crate::specs::Reading::pair_in))]
fn pair_at(rest: &[u8], count: usize, delta: usize, last: u64, room: u64) -> Front
    requires { count + delta < 2 ^ 8 }
    ensures { result ≡ pair_in last room count delta rest.now }
{
    if !has_sizes(count, delta, rest.len()) {
        return Front::Wrong;
    }
    let Some(length) = length_at(rest, count, room) else {
        return Front::Wrong;
    };
    let Some(lcn) = lcn_at(&rest[count..], delta, last) else {
        return Front::Wrong;
    };
    Front::Pair {
        run: Run { length, lcn },
        size: 1 + count + delta,
    }
}

/// What stands in front of the bytes, behind the last LCN and with room for so many clusters.
#[tactic(auto, unfolding(crate::specs::Reading::front_at))]
pub(crate) fn front_at(bytes: &[u8], last: u64, room: u64) -> Front
    ensures { result ≡ front_in last room bytes.now }
{
    let Some((header, rest)) = bytes.split_first() else {
        return Front::Wrong;
    };
    if *header == 0 {
        return Front::Closing;
    }
    pair_at(
        rest,
        (*header % 16) as usize,
        (*header / 16) as usize,
        last,
        room,
    )
}
