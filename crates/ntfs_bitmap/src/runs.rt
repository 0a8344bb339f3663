//! The runs of a set: an ordered map from the first number of each longest run to its length.

ghost use Rattle.std.specs.Prelude.{◌≡◌, ◌+◌, ◌^◌, ◌-◌, ◌<◌, ◌≤◌, ℕ, None, false, IfSome, IfNone, OnOk, OnErr};
ghost use Rattle.std.specs.BTreeMap.{IsUnchanged};
ghost use Rattle.ntfs_bitmap.specs.ClusterSet.{count_where};
ghost use Rattle.ntfs_bitmap.specs.Runs.{AreFree, AreLongestRuns, IsEndAt, IsJoined, IsLastUpTo, IsLengthBefore, IsLengthFrom, IsNextFirst, is_covered, lengths_of};

use std::alloc::AllocError;
use std::collections::BTreeMap;

/// The last run that begins at a cluster or before it: its first cluster and its length.
fn last_up_to(runs: &BTreeMap<u64, u64>, cluster: u64) -> Option<(u64, u64)>
    ensures run { IfSome result (λ run. IsLastUpTo (lengths_of runs.now) cluster run.0 run.1) }
    ensures none { IfNone result ((first : ℕ) → first ≤ cluster → lengths_of runs.now first ≡ None) }
{
    match runs.range(..=cluster).next_back() {
        Some((first, length)) => Some((*first, *length)),
        None => None,
    }
}

/// Where the first run from a cluster on begins, or the bound where there is none.
pub(crate) fn next_first(runs: &BTreeMap<u64, u64>, bound: u64, cluster: u64) -> u64
    requires runs { AreLongestRuns bound (lengths_of runs.now) }
    requires cluster { cluster ≤ bound }
    ensures { IsNextFirst bound (lengths_of runs.now) cluster result }
{
    match runs.range(cluster..).next() {
        Some((first, _)) => *first,
        None => bound,
    }
}

/// The end of the run that has a cluster.
pub(crate) fn end_at(runs: &BTreeMap<u64, u64>, cluster: u64) -> Option<u64>
    requires { AreLongestRuns (2 ^ 64 - 1) (lengths_of runs.now) }
    ensures end { IfSome result (IsEndAt (lengths_of runs.now) cluster) }
    ensures none { IfNone result (is_covered (lengths_of runs.now) cluster ≡ false) }
{
    let (first, length) = last_up_to(runs, cluster)?;
    if cluster - first < length {
        Some(first + length)
    } else {
        None
    }
}

/// How many clusters below one the runs have.
pub(crate) fn count_below(runs: &BTreeMap<u64, u64>, cluster: u64) -> u64
    requires { (bound : ℕ) × AreLongestRuns bound (lengths_of runs.now) }
    ensures { result ≡ count_where (is_covered (lengths_of runs.now)) cluster }
{
    let mut count = 0u64;
    'runs: for (first, length) in runs.range(..cluster) {
        count += (*length).min(cluster - *first);
    }
    count
}

/// The length of the run that ends where a cluster begins, or 0 where none does.
fn length_before(runs: &BTreeMap<u64, u64>, cluster: u64) -> u64
    requires { AreLongestRuns (2 ^ 64 - 1) (lengths_of runs.now) }
    ensures { IsLengthBefore (lengths_of runs.now) cluster result }
{
    let Some((first, length)) = last_up_to(runs, cluster) else {
        return 0;
    };
    if length == cluster - first { length } else { 0 }
}

/// The length of the run that begins at a cluster, or 0 where none does.
fn length_from(runs: &BTreeMap<u64, u64>, cluster: u64) -> u64
    requires { AreLongestRuns (2 ^ 64 - 1) (lengths_of runs.now) }
    ensures { IsLengthFrom (lengths_of runs.now) cluster result }
{
    match runs.get(&cluster) {
        Some(length) => *length,
        None => 0,
    }
}

/// Adds a run of free clusters, and joins it with the runs that it touches.
pub(crate) fn add_run(
    runs: &mut BTreeMap<u64, u64>,
    first: u64,
    length: u64,
) -> Result<(), AllocError>
    requires runs { AreLongestRuns (2 ^ 64 - 1) (lengths_of runs.old) }
    requires some { 0 < length }
    requires within { first + length < 2 ^ 64 }
    requires free { AreFree (lengths_of runs.old) first length }
    ensures joined { OnOk result (IsJoined (lengths_of runs.old) first length (lengths_of runs.new)) }
    ensures kept { OnErr result (IsUnchanged runs.old runs.new) }
{
    let before = length_before(runs, first);
    let after = length_from(runs, first + length);
    runs.insert(first - before, before + length + after)?;
    runs.remove(&(first + length));
    Ok(())
}
