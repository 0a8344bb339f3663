//! Rules C4 to C9 in their order, and the owned clusters.

ghost use Rattle.std.specs.Prelude.{◌≡◌, All, IfOk};
ghost use Rattle.ntfs_base.specs.Bytes.{cluster_at};
ghost use Rattle.ntfs_base.specs.Frames.{Gives, IfTold, OnlyReads};
ghost use Rattle.ntfs_bitmap.specs.ClusterSet.{bound_of};
ghost use Rattle.ntfs_check_clusters.specs.Outcome.{clusters_judged, judged_first};
ghost use Rattle.ntfs_rules.specs.Outcome.{check_origin};
ghost use Rattle.ntfs_rules.specs.VolumeData.{volume_data};
ghost use Rattle.ntfs_survey.specs.Owned.{LiesBelow};
ghost use Rattle.ntfs_volume.specs.Opened.{HasClusters};

use crate::bitmap::check_bitmap;
use crate::claims::claim_all;
use crate::marks::{check_marks, check_names};
use crate::surveyed::survey_all;
use ntfs_base::{Image, Rule};
use ntfs_bitmap::ClusterSet;
use ntfs_rules::{CheckFault, damaged};
use ntfs_survey::Survey;
use ntfs_volume::Table;
use std::alloc::Global;

/// Rules C7 to C9 by a survey, with the owned clusters.
fn judge_clusters<G: Image>(
    alloc: Global,
    image: &mut G,
    table: &Table,
    found: Result<Survey, u64>,
) -> Result<ClusterSet, CheckFault>
    requires held { HasClusters (G.seen image.old).size table.now }
    requires below { IfOk found (All (LiesBelow table.now.geometry.clusters)) }
    ensures gives { IfTold G.Image image.old (λ content. Gives check_origin (λ set. set) (clusters_judged
        (volume_data table.now (cluster_at content table.now.geometry.cluster)) found) result) }
    ensures bound { IfOk result (λ set. bound_of set ≡ table.now.geometry.clusters) }
    ensures reads { OnlyReads G.Image check_origin image.old image.new result }
{
    match found {
        Err(number) => Err(damaged(Rule::C7, number)),
        Ok(owners) => {
            let set = claim_all(alloc, owners.owners(), table.geometry().clusters)?;
            check_bitmap(alloc, image, table, &set)?;
            Ok(set)
        }
    }
}

/// The owned clusters of a volume that keeps rules C4 to C9; else the first of them that it breaks.
///
/// The records are read three times, each time by way of one buffer of at most a mebibyte. Beside it there is memory
/// for runs, the owners' and the set's, for a bit of each record, and for one cluster.
pub fn check_clusters<G: Image>(
    alloc: Global,
    image: &mut G,
    table: &Table,
) -> Result<ClusterSet, CheckFault>
    requires held { HasClusters (G.seen image.old).size table.now }
    ensures gives { IfTold G.Image image.old (λ content. Gives check_origin (λ set. set)
        (judged_first (volume_data table.now (cluster_at content table.now.geometry.cluster))) result) }
    ensures bound { IfOk result (λ set. bound_of set ≡ table.now.geometry.clusters) }
    ensures reads { OnlyReads G.Image check_origin image.old image.new result }
{
    let found = survey_all(alloc, image, table)?;
    check_marks(alloc, image, table)?;
    check_names(alloc, image, table)?;
    judge_clusters(alloc, image, table, found)
}
