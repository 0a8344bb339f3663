//! The rows of rule C15: what each record with a fixed number has to be.

ghost use Rattle.std.specs.Prelude.{◌≡◌, ◌≤◌, ◌+◌, ◌^◌, ◌&&◌, ◌∷◌, [], length, true, ℕ, Ok, Some};
ghost use Rattle.ntfs_base.specs.Bytes.{clusters_for, number_at};
ghost use Rattle.ntfs_boot.specs.Geometry.{IsGood};
ghost use Rattle.ntfs_check_fixed.specs.Rows.{HasNoClusters, has_version, row_kind, row_name, row_record, stream_row};
ghost use Rattle.ntfs_rules.specs.FixedRecords.{begin_with, is_bitmap, is_solid};
ghost use Rattle.ntfs_rules.specs.FixedRecords as rules;
ghost use Rattle.ntfs_runs.specs.Cells.{are_cells};
ghost use Rattle.ntfs_runs.specs.Clusters.{AreWithin, row, vcns};
ghost use Rattle.ntfs_volume.specs.Gather.{Lists};
ghost use Rattle.ntfs_volume.specs.StreamBytes.{clusters_in};
ghost use Rattle.ntfs_volume.specs.Streams.{IsReadable};

use crate::cells::{Cells, are_in_place};
use ntfs_boot::Geometry;
use ntfs_runs::Run;
use ntfs_volume::Stream;

/// The records that have a row, in the order of the rows.
#[derive(Clone, Copy)]
pub(crate) enum Row {
    Mft,
    Mirror,
    Log,
    Volume,
    Root,
    Bitmap,
    Boot,
    Bad,
}

/// The record that a row looks at.
pub(crate) fn row_record(row: Row) -> u64
    ensures { result ≡ row_record row }
{
    match row {
        Row::Mft => 0,
        Row::Mirror => 1,
        Row::Log => 2,
        Row::Volume => 3,
        Row::Root => 5,
        Row::Bitmap => 6,
        Row::Boot => 7,
        Row::Bad => 8,
    }
}

/// The type of the stream.
pub(crate) fn row_kind(row: Row) -> u32
    ensures { result ≡ row_kind row }
{
    match row {
        Row::Volume => 0x70,
        _ => 0x80,
    }
}

/// Its name.
pub(crate) fn row_name(row: Row) -> &'static [u8]
    ensures { result.now ≡ row_name row }
{
    match row {
        Row::Bad => &[0x24, 0, 0x42, 0, 0x61, 0, 0x64, 0],
        _ => &[],
    }
}

/// How many clusters so many bytes need.
#[tactic(auto, unfolding(ntfs_base::specs::Bytes::clusters_for))]
fn clusters_for(bytes: u32, cluster: u32) -> u64
    requires { 1 ≤ cluster }
    ensures { result ≡ clusters_for bytes cluster }
{
    (u64::from(bytes) + u64::from(cluster - 1)) / u64::from(cluster)
}

/// It is resident.
fn is_resident(stream: &Stream) -> bool
    ensures { result ≡ stream.now.stream.is_resident }
{
    match stream.runs() {
        None => true,
        Some(_) => false,
    }
}

/// The runs of a stream; a resident one has none.
pub(crate) fn runs_of(stream: &Stream) -> &[Run]
    ensures cells { HasNoClusters stream.now.stream → vcns result.now ≡ stream.now.stream.cells }
    ensures below { (n : ℕ) → are_cells true n stream.now.stream.cells ≡ true
        → are_cells true n (vcns result.now) ≡ true }
    ensures within { AreWithin result.now }
{
    match stream.runs() {
        None => &[],
        Some(runs) => runs.runs(),
    }
}

/// The cells of a stream begin with so many clusters in a row, from this one on.
fn begins_with_row(stream: &Stream, first: u64, count: u64) -> bool
    requires { first + count ≤ 2 ^ 64 }
    ensures { HasNoClusters stream.now.stream
        → result ≡ begin_with (clusters_in (row count (Some first))) stream.now.stream.cells }
{
    Cells::new(runs_of(stream)).begin_with_row(first, count)
}

/// The cells of a stream begin with the clusters of runs.
fn begins_with_runs(stream: &Stream, runs: &[Run]) -> bool
    requires { AreWithin runs.now }
    ensures { HasNoClusters stream.now.stream
        → result ≡ begin_with (clusters_in (vcns runs.now)) stream.now.stream.cells }
{
    Cells::new(runs_of(stream)).begin_with_runs(runs)
}

/// The cells of a stream begin with cluster 0.
#[tactic(auto, unfolding(ntfs_runs::specs::Clusters::row, ntfs_volume::specs::StreamBytes::clusters_in))]
fn begins_at_zero(stream: &Stream) -> bool
    ensures { HasNoClusters stream.now.stream → result ≡ begin_with (0 ∷ []) stream.now.stream.cells }
{
    begins_with_row(stream, 0, 1)
}

/// Each cluster of a stream stands at the VCN of its number.
fn is_in_place(geometry: &Geometry, stream: &Stream) -> bool
    requires good { IsGood geometry.now }
    requires readable { IsReadable geometry.now stream.now.stream }
    ensures { HasNoClusters stream.now.stream → result ≡ rules.are_in_place 0 stream.now.stream.cells }
{
    match stream.runs() {
        None => true,
        Some(runs) => are_in_place(runs.runs(), geometry.clusters),
    }
}

#[tactic(auto, unfolding(ntfs_base::specs::Bytes::number_at))]
fn byte_at(bytes: &[u8], place: usize) -> u8
    requires { place + 1 ≤ length bytes.now }
    ensures { result ≡ number_at 1 place bytes.now }
{
    bytes[place]
}

/// The version of a volume is 3.1, by a value of 12 bytes at least.
fn has_version(value: &[u8]) -> bool
    ensures { result ≡ has_version value.now }
{
    value.len() >= 12 && byte_at(value, 0x08) == 3 && byte_at(value, 0x09) == 1
}

/// The stream is resident, and its value tells that version.
fn tells_version(stream: &Stream) -> bool
    ensures { result ≡ (stream.now.stream.is_resident && has_version stream.now.stream.value) }
{
    match stream.value() {
        None => false,
        Some(value) => has_version(value),
    }
}

/// It has no flags, isn't resident and has no hole.
#[tactic(auto, unfolding(ntfs_rules::specs::FixedRecords::is_solid))]
fn is_solid(geometry: &Geometry, stream: &Stream) -> bool
    ensures { result ≡ is_solid geometry.now.clusters stream.now.stream }
{
    match stream.runs() {
        None => false,
        Some(runs) => stream.flags() == 0 && runs.lies_below(false, geometry.clusters),
    }
}

/// $MFT; `table` are the runs of its map.
#[tactic(auto, unfolding(ntfs_rules::specs::FixedRecords::row_0))]
fn row_0(geometry: &Geometry, table: &[Run], stream: &Stream) -> bool
    requires good { IsGood geometry.now }
    requires within { AreWithin table.now }
    ensures { HasNoClusters stream.now.stream
        → result ≡ rules.row_0 geometry.now (clusters_in (vcns table.now)) (Ok stream.now) }
{
    let count = clusters_for(geometry.record_size, geometry.cluster);
    stream.flags() == 0
        && begins_with_row(stream, geometry.mft, count)
        && begins_with_runs(stream, table)
}

/// $MFTMirr.
#[tactic(auto, unfolding(ntfs_rules::specs::FixedRecords::row_1))]
fn row_1(geometry: &Geometry, has_list: bool, stream: &Stream) -> bool
    requires good { IsGood geometry.now }
    ensures { (listings : Lists) → (listings 1).is_there ≡ has_list → HasNoClusters stream.now.stream
        → result ≡ rules.row_1 geometry.now listings (Ok stream.now) }
{
    let size = 4 * geometry.record_size;
    let count = clusters_for(size, geometry.cluster);
    !has_list
        && is_solid(geometry, stream)
        && u64::from(size) <= stream.size()
        && begins_with_row(stream, geometry.mirror, count)
}

/// $LogFile.
#[tactic(auto, unfolding(ntfs_rules::specs::FixedRecords::row_2))]
fn row_2(geometry: &Geometry, stream: &Stream) -> bool
    ensures { result ≡ rules.row_2 geometry.now (Ok stream.now) }
{
    is_solid(geometry, stream)
}

/// $Volume.
#[tactic(auto, unfolding(ntfs_rules::specs::FixedRecords::row_3))]
fn row_3(has_list: bool, stream: &Stream) -> bool
    ensures { (listings : Lists) → (listings 3).is_there ≡ has_list
        → result ≡ rules.row_3 listings (Ok stream.now) }
{
    !has_list && stream.flags() == 0 && tells_version(stream)
}

/// A stream of one extent without holes, which has a bit for each cluster, all initialised.
#[tactic(auto, unfolding(ntfs_rules::specs::FixedRecords::is_bitmap))]
fn is_bitmap(geometry: &Geometry, stream: &Stream) -> bool
    ensures { result ≡ is_bitmap geometry.now.clusters stream.now }
{
    let need = geometry.clusters.div_ceil(8);
    is_solid(geometry, stream)
        && stream.extents() == 1
        && stream.size() >= need
        && stream.valid() >= need
}

/// $Bitmap.
#[tactic(auto, unfolding(ntfs_rules::specs::FixedRecords::row_6))]
fn row_6(geometry: &Geometry, has_list: bool, stream: &Stream) -> bool
    ensures { (listings : Lists) → (listings 6).is_there ≡ has_list
        → result ≡ rules.row_6 geometry.now listings (Ok stream.now) }
{
    !has_list && is_bitmap(geometry, stream)
}

/// $Boot.
#[tactic(auto, unfolding(ntfs_rules::specs::FixedRecords::row_7))]
fn row_7(geometry: &Geometry, has_list: bool, stream: &Stream) -> bool
    ensures { (listings : Lists) → (listings 7).is_there ≡ has_list → HasNoClusters stream.now.stream
        → result ≡ rules.row_7 geometry.now listings (Ok stream.now) }
{
    !has_list && is_solid(geometry, stream) && begins_at_zero(stream)
}

/// $BadClus.
#[tactic(auto, unfolding(ntfs_rules::specs::FixedRecords::row_8))]
fn row_8(geometry: &Geometry, has_list: bool, stream: &Stream) -> bool
    requires good { IsGood geometry.now }
    requires readable { IsReadable geometry.now stream.now.stream }
    ensures { (listings : Lists) → (listings 8).is_there ≡ has_list → HasNoClusters stream.now.stream
        → result ≡ rules.row_8 listings (Ok stream.now) }
{
    !has_list
        && stream.flags() == 0
        && !is_resident(stream)
        && stream.extents() == 1
        && is_in_place(geometry, stream)
}

/// What a row says of a stream.
pub(crate) fn stream_row(
    geometry: &Geometry,
    table: &[Run],
    has_list: bool,
    row: Row,
    stream: &Stream,
) -> bool
    requires good { IsGood geometry.now }
    requires within { AreWithin table.now }
    requires readable { IsReadable geometry.now stream.now.stream }
    ensures { (listings : Lists) → (listings (row_record row)).is_there ≡ has_list → HasNoClusters stream.now.stream
        → result ≡ stream_row geometry.now (clusters_in (vcns table.now)) listings row (Ok stream.now) }
{
    match row {
        Row::Mft => row_0(geometry, table, stream),
        Row::Mirror => row_1(geometry, has_list, stream),
        Row::Log => row_2(geometry, stream),
        Row::Volume => row_3(has_list, stream),
        Row::Root => false,
        Row::Bitmap => row_6(geometry, has_list, stream),
        Row::Boot => row_7(geometry, has_list, stream),
        Row::Bad => row_8(geometry, has_list, stream),
    }
}
