//! Where the clusters of a stream lie.

ghost use Rattle.std.specs.Prelude.{◌≡◌, ◌<◌, ◌≤◌, ◌+◌, ◌^◌, ◌&&◌, ◌++◌, ℕ, List, [], ◌∷◌, MatchOption, Some, true};
ghost use Rattle.ntfs_rules.specs.FixedRecords.{are_in_place, begin_with};
ghost use Rattle.ntfs_runs.specs.Cells.{are_cells};
ghost use Rattle.ntfs_runs.specs.Clusters.{AreWithin, row, vcns};
ghost use Rattle.ntfs_volume.specs.StreamBytes.{clusters_in};

use ntfs_runs::Run;
use std::marker::Model;

/// The cells of runs, one after another.
#[derive(Drop)]
pub(crate) struct Cells<'a> {
    run: Run,
    rest: &'a [Run],
}

impl<'a> Model for Cells<'a> {
    ghost use Rattle.std.specs.Prelude.{ℕ, List, ◌∷◌};
    ghost use Rattle.std.specs.Prelude.{Option};
    ghost use Rattle.ntfs_runs.specs.Clusters.{AreWithin, vcns};

    ghost Value = { List (Option ℕ) };

    ghost view = { λ s. vcns (s.run ∷ s.rest.now) };

    ghost invariant = { λ s. AreWithin (s.run ∷ s.rest.now) };
}

/// The run without its first cluster.
fn shortened(run: Run) -> Run
    requires some { 1 ≤ run.length }
    requires within { AreWithin (run ∷ []) }
    ensures cells { row run.length run.lcn ≡ run.lcn ∷ row result.length result.lcn }
    ensures within { AreWithin (result ∷ []) }
{
    match run.lcn {
        None => Run {
            length: run.length - 1,
            lcn: None,
        },
        Some(lcn) => Run {
            length: run.length - 1,
            lcn: Some(lcn.saturating_add(1)),
        },
    }
}

impl<'a> Cells<'a> {
    pub(crate) fn new(runs: &'a [Run]) -> Cells<'a>
        requires { AreWithin runs.now }
        ensures { result ≡ vcns runs.now }
    {
        Cells {
            run: Run {
                length: 0,
                lcn: None,
            },
            rest: runs,
        }
    }

    /// The next cell.
    pub(crate) fn step(&mut self) -> Option<Option<u64>>
        ensures { MatchOption result (self.old ≡ []) (λ cell. self.old ≡ cell ∷ self.new) }
    {
        'runs: while self.run.length == 0 {
            match self.rest.split_first() {
                None => return None,
                Some((first, rest)) => {
                    self.run = *first;
                    self.rest = rest;
                }
            }
        }
        let cell = self.run.lcn;
        self.run = shortened(self.run);
        Some(cell)
    }

    /// The next cell is this cluster.
    fn steps_to(&mut self, cluster: u64) -> bool
        ensures { (rest : List ℕ) → begin_with (cluster ∷ rest) self.old ≡ (result && begin_with rest self.new) }
    {
        match self.step() {
            None => false,
            Some(None) => false,
            Some(Some(own)) => own == cluster,
        }
    }

    /// The cells begin with so many clusters in a row, from this one on; what comes behind them is left.
    pub(crate) fn begin_with_row(&mut self, first: u64, count: u64) -> bool
        requires { first + count ≤ 2 ^ 64 }
        ensures more { (rest : List ℕ) → begin_with (clusters_in (row count (Some first)) ++ rest) self.old
            ≡ (result && begin_with rest self.new) }
        ensures alone { result ≡ begin_with (clusters_in (row count (Some first))) self.old }
    {
        'clusters: for place in 0..count {
            if !self.steps_to(first + place) {
                return false;
            }
        }
        true
    }

    /// The cells begin with the clusters of runs.
    pub(crate) fn begin_with_runs(&mut self, runs: &[Run]) -> bool
        requires { AreWithin runs.now }
        ensures { result ≡ begin_with (clusters_in (vcns runs.now)) self.old }
    {
        'given: for run in runs {
            match run.lcn {
                None => {}
                Some(first) => {
                    if !self.begin_with_row(first, run.length) {
                        return false;
                    }
                }
            }
        }
        true
    }
}

/// The clusters of a run stand at the VCNs of their numbers, from this VCN on.
fn is_in_place(run: &Run, vcn: u64) -> bool
    ensures { result ≡ are_in_place vcn (row run.now.length run.now.lcn) }
{
    match run.lcn {
        None => true,
        Some(lcn) => run.length == 0 || lcn == vcn,
    }
}

/// Each cluster of runs stands at the VCN of its number, where no cluster has a number so high.
pub(crate) fn are_in_place(runs: &[Run], clusters: u64) -> bool
    requires below { are_cells true clusters (vcns runs.now) ≡ true }
    requires few { clusters < 2 ^ 63 }
    ensures { result ≡ are_in_place 0 (vcns runs.now) }
{
    let mut vcn = 0u64;
    'runs: for run in runs {
        if !is_in_place(run, vcn) {
            return false;
        }
        vcn = vcn.saturating_add(run.length);
    }
    true
}
