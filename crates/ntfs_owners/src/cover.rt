//! How many clusters runs have, each counted once.

ghost use Rattle.std.specs.Prelude.{◌≡◌, ◌+◌, ◌<◌, ◌≤◌, ◌||◌, ℕ, false, IfOk, OnOk};
ghost use Rattle.ntfs_bitmap.specs.ClusterSet.{bound_of, count_where, has, in_run};
ghost use Rattle.ntfs_owners.specs.Owners.{owns, runs_have};

use ntfs_bitmap::{ClaimFault, ClusterSet};
use ntfs_runs::Run;
use ntfs_survey::Owner;
use std::alloc::{AllocError, Global};

/// Adds free clusters to a set.
fn claim(set: &mut ClusterSet, first: u64, length: u64) -> Result<(), AllocError>
    requires within { first + length ≤ bound_of set.old }
    requires free { (k : ℕ) → first ≤ k → k < first + length → has set.old k ≡ false }
    ensures bound { bound_of set.new ≡ bound_of set.old }
    ensures added { OnOk result ((k : ℕ) → k < bound_of set.old
        → has set.new k ≡ has set.old k || in_run first length k) }
{
    match set.claim_run(first, length) {
        Ok(()) => Ok(()),
        Err(ClaimFault::Taken { .. } | ClaimFault::NoMemory) => Err(AllocError),
    }
}

/// Adds the clusters of a run that lie below the bound of a set, some of which may be in it.
pub(crate) fn add_row(
    set: &mut ClusterSet,
    bound: u64,
    first: u64,
    length: u64,
) -> Result<(), AllocError>
    requires bound { bound_of set.old ≡ bound }
    ensures bound { bound_of set.new ≡ bound }
    ensures added { OnOk result ((k : ℕ) → k < bound → has set.new k ≡ has set.old k || in_run first length k) }
{
    let end = bound.min(first.saturating_add(length));
    let mut at = first;
    'pieces: while let Some(free) = set.free_run_from(at, end) {
        claim(set, free.first, free.length)?;
        at = free.first + free.length;
    }
    Ok(())
}

/// Adds the clusters of runs that lie below the bound of a set; a hole has none.
pub(crate) fn add_runs(set: &mut ClusterSet, bound: u64, runs: &[Run]) -> Result<(), AllocError>
    requires bound { bound_of set.old ≡ bound }
    ensures bound { bound_of set.new ≡ bound }
    ensures added { OnOk result ((k : ℕ) → k < bound → has set.new k ≡ has set.old k || runs_have runs.now k) }
{
    'runs: for run in runs {
        if let Some(first) = run.lcn {
            add_row(set, bound, first, run.length)?;
        }
    }
    Ok(())
}

/// How many clusters below a bound one of the owners has.
pub(crate) fn owned_count(alloc: Global, owners: &[Owner], bound: u64) -> Result<u64, AllocError>
    ensures count { IfOk result (λ count. count ≡ count_where (owns owners.now) bound) }
    ensures most { IfOk result (λ count. count ≤ bound) }
{
    let mut set = ClusterSet::empty(alloc, bound)?;
    'owners: for owner in owners {
        add_row(&mut set, bound, owner.first, owner.length)?;
    }
    Ok(set.count_below(bound))
}
