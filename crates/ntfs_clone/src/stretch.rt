//! Owned clusters in a row, and those behind them that aren't.

ghost use Rattle.std.specs.Prelude.{◌≡◌, ◌<◌};
ghost use Rattle.ntfs_bitmap.specs.ClusterSet.{bound_of, has};
ghost use Rattle.ntfs_clone.specs.Saving.{IsOwnedStretch};

use ntfs_bitmap::ClusterSet;

/// Clusters of a volume from one on: owned ones, and then others.
#[derive(Clone, Copy)]
pub(crate) struct Stretch {
    /// The first cluster that isn't owned, or the end.
    pub(crate) free: u64,
    /// The next owned cluster, or the number of clusters.
    pub(crate) end: u64,
}

/// The stretch from a cluster on.
pub(crate) fn stretch_from(owned: &ClusterSet, clusters: u64, from: u64) -> Stretch
    requires bound { bound_of owned.now ≡ clusters }
    requires below { from < clusters }
    ensures { IsOwnedStretch (has owned.now) clusters from result }
{
    match owned.free_run_from(from, clusters) {
        None => Stretch {
            free: clusters,
            end: clusters,
        },
        Some(run) => Stretch {
            free: run.first,
            end: run.first + run.length,
        },
    }
}
