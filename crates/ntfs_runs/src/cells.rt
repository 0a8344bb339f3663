//! Counts and tests of the cells of runs.

ghost use Rattle.std.specs.Prelude.{◌≡◌, ◌≤◌, ◌^◌, length};
ghost use Rattle.ntfs_runs.specs.Clusters.{row, vcns, AreSpellable};
ghost use Rattle.ntfs_runs.specs.Cells.{are_cells};

use crate::run::Run;

/// How many VCNs the runs have.
pub(crate) fn count_of(runs: &[Run]) -> u64
    requires { AreSpellable runs.now }
    ensures count { result ≡ length (vcns runs.now) }
    ensures most { result ≤ 2 ^ 48 }
{
    let mut count = 0;
    'runs: for run in runs {
        count += run.length;
    }
    count
}

/// The clusters of a run are below so many, or it is a hole where there may be one.
fn is_below(run: &Run, holes: bool, clusters: u64) -> bool
    ensures { result ≡ are_cells holes clusters (row run.now.length run.now.lcn) }
{
    match run.lcn {
        None => holes || run.length == 0,
        Some(lcn) => run.length <= clusters.saturating_sub(lcn),
    }
}

/// All clusters of the runs are below so many, and holes are there only where they may be.
pub(crate) fn are_below(runs: &[Run], holes: bool, clusters: u64) -> bool
    ensures { result ≡ are_cells holes clusters (vcns runs.now) }
{
    'runs: for run in runs {
        if !is_below(run, holes, clusters) {
            return false;
        }
    }
    true
}
