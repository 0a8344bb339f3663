//! Sets of clusters.

ghost use Rattle.std.specs.Prelude.{◌≡◌, ◌+◌, ◌-◌, ◌*◌, ◌<◌, ◌≤◌, true, length, IfOk, OnOk, OnErr, IfSome};
ghost use Rattle.std.specs.Option.{option_map};
ghost use Rattle.ntfs_bitmap.specs.Search.{FindsLeast};
ghost use Rattle.ntfs_bitmap.specs.ClusterSet.{Clusters, Differs, IsFree, IsFreeRun, IsTaken, bound_of, with_claim, count_below, empty_set, has, taken_in};
ghost use Rattle.ntfs_bitmap.specs.Stretch.{IsStretch};

use crate::bits::first_other_bit;
use crate::fault::ClaimFault;
use crate::runs::{add_run, count_below, end_at, next_first};
use std::alloc::{AllocError, Global};
use std::collections::BTreeMap;
use std::marker::Model;

/// A set of cluster numbers below a bound.
#[derive(Drop)]
pub struct ClusterSet {
    bound: u64,
    runs: BTreeMap<u64, u64>,
}

impl Model for ClusterSet {
    ghost use Rattle.ntfs_bitmap.specs.ClusterSet.{Clusters};
    ghost use Rattle.ntfs_bitmap.specs.Runs.{AreLongestRuns, lengths_of, set_of};

    ghost Value = { Clusters };

    ghost view = { λ set. set_of set.bound set.runs };

    ghost invariant = { λ set. AreLongestRuns set.bound (lengths_of set.runs) };
}

/// Numbers in a row that aren't in a set.
#[derive(Clone, Copy, Debug, PartialEq, Eq)]
pub struct FreeRun {
    pub first: u64,
    pub length: u64,
}

/// The numbers from one on up to `end` that are all in a set, or all not in it, as many as there are below the bound.
#[derive(Clone, Copy)]
pub(crate) struct Stretch {
    pub is_in: bool,
    pub end: u64,
}

impl ClusterSet {
    /// The set of no numbers below a bound.
    pub fn empty(alloc: Global, bound: u64) -> Result<ClusterSet, AllocError>
        ensures empty { IfOk result (λ set. set ≡ empty_set bound) }
        ensures bound { IfOk result (λ set. bound_of set ≡ bound) }
    {
        Ok(ClusterSet {
            bound,
            runs: BTreeMap::new(alloc),
        })
    }

    fn bound(&self) -> u64
        ensures { result ≡ bound_of self.now }
    {
        self.bound
    }

    /// The stretch that a cluster below the bound lies in, from that cluster on.
    fn stretch_from(&self, cluster: u64) -> Stretch
        requires { cluster < bound_of self.now }
        ensures { IsStretch self.now cluster result }
    {
        let bound = self.bound;
        match end_at(&self.runs, cluster) {
            Some(end) => Stretch { is_in: true, end },
            None => Stretch {
                is_in: false,
                end: next_first(&self.runs, bound, cluster),
            },
        }
    }

    /// The least cluster of a run that is in the set.
    fn first_taken(&self, first: u64, length: u64) -> Option<u64>
        requires { first + length ≤ bound_of self.now }
        ensures { FindsLeast (IsTaken self.now first length) result }
    {
        if length == 0 {
            return None;
        }
        let stretch = self.stretch_from(first);
        if stretch.is_in {
            Some(first)
        } else if stretch.end - first < length {
            Some(stretch.end)
        } else {
            None
        }
    }

    /// Adds the `length` clusters from `first` on, which must be below the bound.
    ///
    /// It answers `Taken` with the least of them that is in the set, exactly where there is one. After a refusal the
    /// set is the same.
    pub fn claim_run(&mut self, first: u64, length: u64) -> Result<(), ClaimFault>
        requires { first + length ≤ bound_of self.old }
        ensures claimed { OnOk result (self.new ≡ with_claim first length self.old) }
        ensures kept { OnErr result (self.new ≡ self.old) }
        ensures bound { bound_of self.new ≡ bound_of self.old }
        ensures taken { FindsLeast (IsTaken self.old first length) (taken_in result) }
    {
        if let Some(cluster) = self.first_taken(first, length) {
            return Err(ClaimFault::Taken { cluster });
        }
        if length > 0 {
            add_run(&mut self.runs, first, length)?;
        }
        Ok(())
    }

    /// Whether a cluster is in the set.
    pub fn contains(&self, cluster: u64) -> bool
        ensures member { result ≡ has self.now cluster }
        ensures below { result ≡ true → cluster < bound_of self.now }
    {
        cluster < self.bound() && self.stretch_from(cluster).is_in
    }

    /// The least cluster from `from` on, below the bound, that isn't in the set.
    pub fn first_free_from(&self, from: u64) -> Option<u64>
        ensures { FindsLeast (IsFree self.now from (bound_of self.now)) result }
    {
        if from >= self.bound() {
            return None;
        }
        let stretch = self.stretch_from(from);
        if !stretch.is_in {
            Some(from)
        } else if stretch.end < self.bound() {
            Some(stretch.end)
        } else {
            None
        }
    }

    /// How many clusters below a cluster are in the set.
    pub fn count_below(&self, cluster: u64) -> u64
        ensures { result ≡ count_below self.now cluster }
    {
        count_below(&self.runs, cluster)
    }

    /// The least cluster from `start` on, below the bound, that is in the set where its bit isn't set, or isn't in
    /// the set where its bit is set. Cluster `start + i` has bit `i` of `bits`; clusters without a bit aren't compared.
    pub fn first_difference(&self, start: u64, bits: &[u8]) -> Option<u64>
        ensures { FindsLeast (Differs self.now start bits.now) result }
    {
        let count = (bits.len() as u64)
            .saturating_mul(8)
            .min(self.bound().saturating_sub(start));
        let mut at = 0u64;
        'stretches: while at < count {
            let stretch = self.stretch_from(start + at);
            let stop = (stretch.end - start).min(count);
            if let Some(place) = first_other_bit(bits, at, stop, stretch.is_in) {
                return Some(start + place);
            }
            at = stop;
        }
        None
    }

    /// The least cluster from `from` on, below `limit`, that isn't in the set, and how many from it on, below
    /// `limit`, follow without one that is in.
    pub fn free_run_from(&self, from: u64, limit: u64) -> Option<FreeRun>
        requires { limit ≤ bound_of self.now }
        ensures first { FindsLeast (IsFree self.now from limit) (option_map (λ run. run.first) result) }
        ensures run { IfSome result (λ run. IsFreeRun self.now limit run.first run.length) }
    {
        let first = self.first_free_from(from)?;
        if first >= limit {
            return None;
        }
        let end = self.stretch_from(first).end.min(limit);
        Some(FreeRun {
            first,
            length: end - first,
        })
    }
}
