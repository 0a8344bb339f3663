//! The clusters of $MFT that are known so far.

ghost use Rattle.std.specs.Prelude.{◌≡◌, ◌≤◌, ◌+◌, ◌-◌, ◌*◌, ◌^◌, ◌++◌, [], min, OnOk};
ghost use Rattle.ntfs_base.specs.Frames.{Gives, IsJudged};
ghost use Rattle.ntfs_volume.specs.Fault.{volume_origin};
ghost use Rattle.ntfs_volume.specs.Known.{IsKnown, joined_clusters, known_clusters};

use crate::fault::{VolumeFault, no_map};
use ntfs_runs::{PairsFault, Run, RunList, decode};
use std::alloc::{AllocError, Global};

/// The runs of $MFT so far, and how many VCNs they have.
#[derive(Drop)]
pub(crate) struct Known {
    pub(crate) runs: RunList,
    pub(crate) count: u64,
}

/// Puts runs behind others.
fn append(list: &mut RunList, runs: &[Run]) -> Result<(), AllocError>
    ensures { OnOk result (list.new ≡ list.old ++ runs.now) }
{
    'runs: for run in runs {
        list.push(*run)?;
    }
    Ok(())
}

impl Known {
    /// None yet.
    pub(crate) fn new(alloc: Global) -> Known
        ensures runs { result.runs ≡ [] }
        ensures count { result.count ≡ 0 }
    {
        Known {
            runs: RunList::new(alloc),
            count: 0,
        }
    }

    /// Adds the clusters that mapping pairs of a record spell, all below the number of clusters and without holes.
    pub(crate) fn add(
        &mut self,
        alloc: Global,
        pairs: &[u8],
        clusters: u64,
        number: u64,
    ) -> Result<(), VolumeFault>
        requires few { self.old.count ≤ 2 ^ 48 }
        requires known { IsKnown clusters self.old }
        ensures gives { Gives volume_origin (λ done. known_clusters self.new)
            (joined_clusters (known_clusters self.old) clusters number pairs.now) result }
        ensures known { OnOk result (IsKnown clusters self.new) }
        ensures judged { IsJudged volume_origin result }
    {
        match decode(alloc, pairs) {
            Err(PairsFault::NoMemory) => Err(VolumeFault::NoMemory),
            Err(PairsFault::BadPairs { .. }) => Err(no_map(number)),
            Ok(list) => {
                if !list.lies_below(false, clusters) {
                    return Err(no_map(number));
                }
                self.count += list.vcn_count();
                append(&mut self.runs, list.runs())?;
                Ok(())
            }
        }
    }

    /// How many bytes the clusters have, or 2^64 - 1 where there are more.
    pub(crate) fn bytes(&self, cluster: u32) -> u64
        ensures { result ≡ min (self.now.count * cluster) (2 ^ 64 - 1) }
    {
        self.count.saturating_mul(u64::from(cluster))
    }
}
