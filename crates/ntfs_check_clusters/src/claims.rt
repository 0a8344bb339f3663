//! The clusters of all owners, claimed one run after the other.

ghost use Rattle.std.specs.Prelude.{◌≡◌, All};
ghost use Rattle.std.specs.List.{flat_map};
ghost use Rattle.ntfs_base.specs.Frames.{Gives, IsJudged};
ghost use Rattle.ntfs_check_clusters.specs.Outcome.{claimed_once};
ghost use Rattle.ntfs_rules.specs.Outcome.{check_origin};
ghost use Rattle.ntfs_survey.specs.Owned.{LiesBelow, owner_claims};

use ntfs_base::Rule;
use ntfs_bitmap::{ClaimFault, ClusterSet};
use ntfs_rules::{CheckFault, damaged};
use ntfs_survey::Owner;
use std::alloc::Global;

/// The set of the clusters of owners, on a volume of so many clusters. Rule C8: the record of the first owner that has
/// a cluster which is taken is named.
pub(crate) fn claim_all(
    alloc: Global,
    owners: &[Owner],
    clusters: u64,
) -> Result<ClusterSet, CheckFault>
    requires below { All (LiesBelow clusters) owners.now }
    ensures gives { Gives check_origin (λ set. set) (claimed_once clusters (flat_map owner_claims owners.now)) result }
    ensures judged { IsJudged check_origin result }
{
    let mut set = ClusterSet::empty(alloc, clusters)?;
    'owners: for owner in owners {
        match set.claim_run(owner.first, owner.length) {
            Ok(()) => {}
            Err(ClaimFault::NoMemory) => return Err(CheckFault::NoMemory),
            Err(ClaimFault::Taken { .. }) => return Err(damaged(Rule::C8, owner.number)),
        }
    }
    Ok(set)
}
