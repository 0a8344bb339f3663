//! All rules, one after the other.

ghost use Rattle.std.specs.Prelude.{◌≡◌, ◌++◌, IfOk};
ghost use Rattle.ntfs_base.specs.Bytes.{cluster_at};
ghost use Rattle.ntfs_base.specs.Frames.{Gives, IfTold, OnlyReads};
ghost use Rattle.ntfs_bitmap.specs.ClusterSet.{bound_of};
ghost use Rattle.ntfs_check.specs.Judged.{Keeps, judged, last_rules};
ghost use Rattle.ntfs_rules.specs.Accepts.{first_rules, further_rules};
ghost use Rattle.ntfs_rules.specs.Outcome.{check_origin, judged_by};
ghost use Rattle.ntfs_rules.specs.VolumeData.{volume_data};
ghost use Rattle.ntfs_volume.specs.Opened.{HasClusters};

use ntfs_base::Image;
use ntfs_bitmap::ClusterSet;
use ntfs_check_clusters::check_clusters;
use ntfs_check_directories::{check_names_of_entries, check_orders};
use ntfs_check_files::{check_base_references, check_lists};
use ntfs_check_fixed::{check_fixed_records, check_mirror};
use ntfs_check_streams::check_streams;
use ntfs_rules::CheckFault;
use ntfs_volume::Table;
use std::alloc::Global;

/// Rules C13 to C16.
fn check_contents<G: Image>(alloc: Global, image: &mut G, table: &Table) -> Result<(), CheckFault>
    requires held { HasClusters (G.seen image.old).size table.now }
    ensures gives { IfTold G.Image image.old (λ content.
        let v = volume_data table.now (cluster_at content table.now.geometry.cluster) in
        Gives check_origin (λ done. done) (judged_by (last_rules v) tt) result) }
    ensures reads { OnlyReads G.Image check_origin image.old image.new result }
{
    check_orders(alloc, image, table)?;
    check_names_of_entries(alloc, image, table)?;
    check_fixed_records(alloc, image, table)?;
    check_mirror(alloc, image, table)
}

/// Rules C10 to C16, of a volume that keeps those before.
fn check_further<G: Image>(alloc: Global, image: &mut G, table: &Table) -> Result<(), CheckFault>
    requires held { HasClusters (G.seen image.old).size table.now }
    ensures gives { IfTold G.Image image.old (λ content.
        let v = volume_data table.now (cluster_at content table.now.geometry.cluster) in
        Keeps (first_rules v) → Gives check_origin (λ done. done) (judged_by (further_rules v) tt) result) }
    ensures reads { OnlyReads G.Image check_origin image.old image.new result }
{
    check_base_references(alloc, image, table)?;
    check_lists(alloc, image, table)?;
    check_streams(alloc, image, table)?;
    check_contents(alloc, image, table)
}

/// The owned clusters of a volume that keeps all sixteen rules; else the first that it breaks, with its record.
pub fn judge<G: Image>(
    alloc: Global,
    image: &mut G,
    table: &Table,
) -> Result<ClusterSet, CheckFault>
    requires held { HasClusters (G.seen image.old).size table.now }
    ensures gives { IfTold G.Image image.old (λ content. Gives check_origin (λ set. set)
        (judged (volume_data table.now (cluster_at content table.now.geometry.cluster))) result) }
    ensures bound { IfOk result (λ set. bound_of set ≡ table.now.geometry.clusters) }
    ensures reads { OnlyReads G.Image check_origin image.old image.new result }
{
    let owned = check_clusters(alloc, image, table)?;
    check_further(alloc, image, table)?;
    Ok(owned)
}
