//! $Bitmap against the owned clusters.

ghost use Rattle.std.specs.Prelude.{◌≡◌, ◌≤◌, ◌<◌, ◌*◌, ◌==◌, ◌&&◌, not, length, false, true, None, Some, IfErr, IfOk, OnOk, if◌then◌else◌};
ghost use Rattle.std.specs.Int.{div_ceil};
ghost use Rattle.ntfs_base.specs.Bytes.{cluster_at};
ghost use Rattle.ntfs_base.specs.Frames.{Gives, IfTold, IsSettled, OnlyReads};
ghost use Rattle.ntfs_base.specs.declared.refusal.Rule.TheVariants as rule;
ghost use Rattle.ntfs_bitmap.specs.ClusterSet.{bound_of, has};
ghost use Rattle.ntfs_check_clusters.specs.Outcome.{bitmap_of};
ghost use Rattle.ntfs_rules.specs.Clusters.{are_bits_of};
ghost use Rattle.ntfs_rules.specs.Content.{AreReadable, shown_bytes};
ghost use Rattle.ntfs_rules.specs.FixedRecords.{is_bitmap};
ghost use Rattle.ntfs_rules.specs.Outcome.{check_origin, unless_number};
ghost use Rattle.ntfs_rules.specs.VolumeData.{volume_data};
ghost use Rattle.ntfs_runs.specs.Clusters.{vcns};
ghost use Rattle.ntfs_boot.specs.Geometry.{IsOpened};
ghost use Rattle.ntfs_stream.specs.StreamBytes.{bytes_of_stream, filled_stream};
ghost use Rattle.ntfs_volume.specs.Opened.{HasClusters};
ghost use Rattle.ntfs_volume.specs.Streams.{IsReadable};

use crate::gathered::gather_unnamed;
use ntfs_base::{Image, Rule};
use ntfs_bitmap::ClusterSet;
use ntfs_boot::Geometry;
use ntfs_rules::{CheckFault, damaged, has_list, read_vcn};
use ntfs_runs::RunList;
use ntfs_volume::{Stream, Table};
use std::alloc::Global;

/// The number of the record of $Bitmap.
const RECORD: u64 = 6;

/// The type of $DATA.
const DATA: u32 = 0x80;

/// The bits that runs show are those of a set, for all clusters of the volume. They are read one cluster at a time, up
/// to the first that has another bit.
fn are_bits_of<G: Image>(
    alloc: Global,
    image: &mut G,
    geometry: &Geometry,
    runs: &RunList,
    valid: u64,
    set: &ClusterSet,
) -> Result<bool, CheckFault>
    requires readable { AreReadable (G.seen image.old).size geometry.now runs.now }
    requires bound { bound_of set.now ≡ geometry.now.clusters }
    requires room { geometry.now.clusters ≤ 8 * (length (vcns runs.now) * geometry.now.cluster) }
    ensures found { IfTold G.Image image.old (λ content. IfOk result (λ is. is ≡ are_bits_of (has set.now)
        geometry.now.clusters (shown_bytes geometry.now content valid runs.now))) }
    ensures cut { IfErr result (λ fault. IsSettled (check_origin fault) → ⊥) }
    ensures reads { OnlyReads G.Image check_origin image.old image.new result }
{
    let cluster = u64::from(geometry.cluster);
    let mut buffer = vec![in alloc; 0; geometry.cluster as usize]?;
    let mut vcn = 0u64;
    'clusters: while 8 * (vcn * cluster) < geometry.clusters {
        if let Err(fault) = read_vcn(image, geometry, runs, valid, vcn, &mut buffer) {
            return Err(fault);
        }
        if set.first_difference(8 * (vcn * cluster), &buffer).is_some() {
            return Ok(false);
        }
        vcn += 1;
    }
    Ok(true)
}

/// A stream is what $Bitmap has to be: of one extent, without flags and holes, with an initialised bit for each
/// cluster.
#[tactic(auto, unfolding(ntfs_rules::specs::FixedRecords::is_bitmap, ntfs_rules::specs::FixedRecords::is_solid))]
fn is_bitmap(geometry: &Geometry, stream: &Stream) -> bool
    ensures { result ≡ is_bitmap geometry.now.clusters stream.now }
{
    let need = geometry.clusters.div_ceil(8);
    match stream.runs() {
        None => false,
        Some(runs) => {
            stream.flags() == 0
                && runs.lies_below(false, geometry.clusters)
                && stream.extents() == 1
                && stream.size() >= need
                && stream.valid() >= need
        }
    }
}

/// Whether a gathered stream is $Bitmap, and its bits are those of a set.
fn stream_matches<G: Image>(
    alloc: Global,
    image: &mut G,
    geometry: &Geometry,
    stream: &Stream,
    set: &ClusterSet,
) -> Result<bool, CheckFault>
    requires opened { IsOpened (G.seen image.old).size geometry.now }
    requires readable { IsReadable geometry.now stream.now.stream }
    requires bound { bound_of set.now ≡ geometry.now.clusters }
    ensures found { IfTold G.Image image.old (λ content. IfOk result (λ is. is ≡
        (is_bitmap geometry.now.clusters stream.now && are_bits_of (has set.now) geometry.now.clusters
        (bytes_of_stream geometry.now.cluster (filled_stream geometry.now content stream.now.stream))))) }
    ensures cut { IfErr result (λ fault. IsSettled (check_origin fault) → ⊥) }
    ensures reads { OnlyReads G.Image check_origin image.old image.new result }
{
    if !is_bitmap(geometry, stream) {
        return Ok(false);
    }
    match stream.runs() {
        None => Ok(false),
        Some(runs) => are_bits_of(alloc, image, geometry, runs, stream.valid(), set),
    }
}

/// Whether record 6 is $Bitmap, and its bits are those of a set.
fn bitmap_matches<G: Image>(
    alloc: Global,
    image: &mut G,
    table: &Table,
    set: &ClusterSet,
) -> Result<bool, CheckFault>
    requires held { HasClusters (G.seen image.old).size table.now }
    requires bound { bound_of set.now ≡ table.now.geometry.clusters }
    ensures found { IfTold G.Image image.old (λ content. IfOk result (λ is. bitmap_of (has set.now)
        (volume_data table.now (cluster_at content table.now.geometry.cluster)) ≡ (if is then None else Some 6))) }
    ensures cut { IfErr result (λ fault. IsSettled (check_origin fault) → ⊥) }
    ensures reads { OnlyReads G.Image check_origin image.old image.new result }
{
    let listed = has_list(alloc, image, table, RECORD)?;
    if listed {
        return Ok(false);
    }
    match gather_unnamed(alloc, image, table, RECORD, DATA)? {
        None => Ok(false),
        Some(stream) => stream_matches(alloc, image, table.geometry(), &stream, set),
    }
}

/// Rule C9: record 6 is $Bitmap, and its bits that are 1, of all clusters of the volume, are those of a set.
pub(crate) fn check_bitmap<G: Image>(
    alloc: Global,
    image: &mut G,
    table: &Table,
    set: &ClusterSet,
) -> Result<(), CheckFault>
    requires held { HasClusters (G.seen image.old).size table.now }
    requires bound { bound_of set.now ≡ table.now.geometry.clusters }
    ensures gives { IfTold G.Image image.old (λ content. Gives check_origin (λ done. done) (unless_number rule.C9
        (bitmap_of (has set.now) (volume_data table.now (cluster_at content table.now.geometry.cluster))) tt)
        result) }
    ensures reads { OnlyReads G.Image check_origin image.old image.new result }
{
    let matches = bitmap_matches(alloc, image, table, set)?;
    if matches {
        Ok(())
    } else {
        Err(damaged(Rule::C9, RECORD))
    }
}
