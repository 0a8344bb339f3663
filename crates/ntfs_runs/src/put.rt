ghost use Rattle.std.specs.Prelude.{◌≡◌, ◌≤◌, ◌<◌, ◌+◌, ◌^◌, [], ◌∷◌, length};
ghost use Rattle.std.specs.Option.{SomeIff, OnSome};
ghost use Rattle.ntfs_runs.specs.declared.run.Run.{Run};
ghost use Rattle.ntfs_runs.specs.Number.{reach, shortest};
ghost use Rattle.ntfs_runs.specs.Spelling.{pair};
ghost use Rattle.ntfs_runs.specs.Number.{size_for as size_of_reach};
ghost use Rattle.ntfs_runs.specs.Canon.{run_text};
ghost use Rattle.ntfs_runs.specs.Writing.{put, IsSmall};

use crate::run::Run;
use byteorder::{ByteOrder, LittleEndian};

/// How far a number is from the border of its sign.
#[tactic(auto, unfolding(crate::specs::Number::reach))]
fn reach_of(value: i64) -> u64
    ensures { result ≡ reach value }
{
    if value < 0 {
        -(value + 1) as u64
    } else {
        value as u64
    }
}

/// The fewest bytes of signed form that hold a number of this reach.
#[tactic(auto, unfolding(crate::specs::Number::size_for))]
fn size_for(reach: u64) -> usize
    ensures value { result ≡ size_of_reach reach }
    ensures least { 1 ≤ result }
    ensures most { result ≤ 8 }
{
    if reach < 1 << 7 {
        1
    } else if reach < 1 << 15 {
        2
    } else if reach < 1 << 23 {
        3
    } else if reach < 1 << 31 {
        4
    } else if reach < 1 << 39 {
        5
    } else if reach < 1 << 47 {
        6
    } else if reach < 1 << 55 {
        7
    } else {
        8
    }
}

fn put_byte(into: &mut [u8], at: usize, byte: u8)
    requires { at < length into.old }
    ensures { into.new ≡ put (byte ∷ []) at into.old }
{
    into[at] = byte;
}

/// The fewest bytes of signed form.
fn shortest_size(value: i64) -> usize
    ensures value { result ≡ length (shortest value) }
    ensures least { 1 ≤ result }
    ensures most { result ≤ 8 }
{
    size_for(reach_of(value))
}

/// Writes the shortest bytes of a number at a place.
fn put_number(into: &mut [u8], at: usize, value: i64, size: usize)
    requires size { size ≡ length (shortest value) }
    requires least { 1 ≤ size }
    requires most { size ≤ 8 }
    requires within { at + size ≤ length into.old }
    ensures { into.new ≡ put (shortest value) at into.old }
{
    let (_, rest) = into.split_at_mut(at);
    LittleEndian::write_int(rest, value, size);
}

/// Writes the pair of a hole at a place, and gives the place behind it; `None` where it doesn't fit.
fn put_hole(into: &mut [u8], at: usize, count: i64) -> Option<usize>
    requires { at ≤ length into.old }
    ensures place { SomeIff result (at + length (pair (shortest count) []) ≤ length into.old)
        (at + length (pair (shortest count) [])) }
    ensures written { OnSome result (into.new ≡ put (pair (shortest count) []) at into.old) }
{
    let size = shortest_size(count);
    if into.len() - at < 1 + size {
        return None;
    }
    put_byte(into, at, size as u8);
    put_number(into, at + 1, count, size);
    Some(at + 1 + size)
}

/// Writes the pair of a run of clusters at a place, and gives the place behind it; `None` where it doesn't fit.
fn put_clusters(into: &mut [u8], at: usize, count: i64, delta: i64) -> Option<usize>
    requires { at ≤ length into.old }
    ensures place { SomeIff result (at + length (pair (shortest count) (shortest delta)) ≤ length into.old)
        (at + length (pair (shortest count) (shortest delta))) }
    ensures written { OnSome result (into.new ≡ put (pair (shortest count) (shortest delta)) at into.old) }
{
    let count_size = shortest_size(count);
    let delta_size = shortest_size(delta);
    if into.len() - at < 1 + count_size + delta_size {
        return None;
    }
    put_byte(into, at, (count_size + 16 * delta_size) as u8);
    put_number(into, at + 1, count, count_size);
    put_number(into, at + 1 + count_size, delta, delta_size);
    Some(at + 1 + count_size + delta_size)
}

/// Writes the shortest pair of a run behind the last LCN at a place, and gives the place behind it; `None` where it
/// doesn't fit.
pub(crate) fn put_run(into: &mut [u8], at: usize, last: u64, run: Run) -> Option<usize>
    requires within { at ≤ length into.old }
    requires last { last ≤ 2 ^ 48 }
    requires small { IsSmall run }
    ensures place { SomeIff result (at + length (run_text last run) ≤ length into.old)
        (at + length (run_text last run)) }
    ensures written { OnSome result (into.new ≡ put (run_text last run) at into.old) }
{
    match run.lcn {
        None => put_hole(into, at, run.length as i64),
        Some(lcn) => put_clusters(into, at, run.length as i64, lcn as i64 - last as i64),
    }
}

/// Writes the closing 0 at a place, and gives the place behind it; `None` where it doesn't fit.
pub(crate) fn put_closing(into: &mut [u8], at: usize) -> Option<usize>
    requires { at ≤ length into.old }
    ensures place { SomeIff result (at + 1 ≤ length into.old) (at + 1) }
    ensures written { OnSome result (into.new ≡ put (0 ∷ []) at into.old) }
{
    if at == into.len() {
        return None;
    }
    put_byte(into, at, 0);
    Some(at + 1)
}
