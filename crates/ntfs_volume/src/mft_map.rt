//! $MFT's map, from record 0 and its attribute list.

ghost use Rattle.std.specs.Prelude.{◌≡◌, ◌≤◌, ◌+◌, ◌*◌, ◌^◌, ◌==◌, not, ◌&&◌, length, min, true, Ok, Err, IfOk, OnOk};
ghost use Rattle.ntfs_attrlist.specs.Views.{shown_entry};
ghost use Rattle.ntfs_attrlist.specs.Reading.{list_entries};
ghost use Rattle.ntfs_base.specs.Bytes.{cluster_at};
ghost use Rattle.ntfs_base.specs.Frames.{Gives, IfTold, IsJudged, OnlyReads};
ghost use Rattle.ntfs_boot.specs.Geometry.{IsGood, IsOpened, bytes_of_clusters};
ghost use Rattle.ntfs_fixup.specs.Fixups.{HasWholeStrides};
ghost use Rattle.ntfs_runs.specs.Clusters.{vcns};
ghost use Rattle.ntfs_volume.specs.Fault.{volume_origin};
ghost use Rattle.ntfs_volume.specs.Known.{IsKnown, behind_known, extended_clusters, known_clusters, listed_clusters};
ghost use Rattle.ntfs_volume.specs.MftMap.{all_clusters, extension_of, extent_in, extent_of_entry, is_further, is_record_count, is_table, map_in, map_of_record, mft_map};
ghost use Rattle.ntfs_volume.specs.Opened.{HasClusters, opened_of};
ghost use Rattle.ntfs_volume.specs.References as references;

use crate::fault::{VolumeFault, no_map};
use crate::known::Known;
use crate::list::{are_entries, have_room, read_list, zeros};
use crate::pieces::read_raw;
use crate::slot::live_record;
use crate::table::Table;
use crate::wanted::{Wanted, first_of};
use ntfs_attrlist::{ListEntry, entries};
use ntfs_base::Image;
use ntfs_boot::{Geometry, read_volume_geometry};
use ntfs_record::{Body, RecordView};
use std::alloc::Global;

/// The number of the record that a reference names.
fn target(reference: u64) -> u64
    ensures { result ≡ references.target reference }
{
    reference % (1 << 48)
}

/// A base reference names record 0, of this sequence number.
#[tactic(auto, unfolding(crate::specs::References::has_base, crate::specs::References::matches))]
fn has_base_0(base: u64, sequence: u16) -> bool
    ensures { result ≡ references.has_base base 0 sequence }
{
    let turn = base >> 48;
    base != 0 && target(base) == 0 && (turn == 0 || turn == u64::from(sequence))
}

/// The entry tells of a further extent of $MFT.
fn is_further(entry: &ListEntry<'_>) -> bool
    ensures { result ≡ is_further (shown_entry entry.now) }
{
    entry.kind == 0x80
        && entry.name.is_empty()
        && !(target(entry.reference) == 0 && entry.lowest == 0)
}

/// Adds the extent that an entry names of a record.
fn add_extent(
    alloc: Global,
    geometry: &Geometry,
    holder: &RecordView<'_>,
    entry: &ListEntry<'_>,
    known: &mut Known,
) -> Result<(), VolumeFault>
    requires known { IsKnown geometry.now.clusters known.old }
    requires begins { entry.now.lowest ≡ known.old.count }
    ensures gives { Gives volume_origin (λ done. known_clusters known.new) (behind_known (known_clusters known.old)
        (extent_in geometry.now.clusters (shown_entry entry.now) holder.now)) result }
    ensures known { OnOk result (IsKnown geometry.now.clusters known.new) }
    ensures judged { IsJudged volume_origin result }
{
    let wanted = Wanted::Extent {
        lowest: entry.lowest,
        instance: entry.instance,
    };
    match first_of(holder, wanted) {
        None => Err(no_map(0)),
        Some(extent) => match extent.body {
            Body::Resident { .. } => Err(no_map(0)),
            Body::Runs { pairs, .. } => {
                known.add(alloc, pairs, geometry.clusters, target(entry.reference))
            }
        },
    }
}

/// Adds the extent that an entry names of an extension record.
fn add_from_extension<G: Image>(
    alloc: Global,
    image: &mut G,
    geometry: &Geometry,
    first: &RecordView<'_>,
    valid: u64,
    entry: &ListEntry<'_>,
    known: &mut Known,
    block: &mut [u8],
) -> Result<(), VolumeFault>
    requires opened { IsOpened (G.seen image.old).size geometry.now }
    requires known { IsKnown geometry.now.clusters known.old }
    requires begins { entry.now.lowest ≡ known.old.count }
    requires block { length block.old ≡ geometry.now.record_size }
    ensures gives { IfTold G.Image image.old (λ content. Gives volume_origin (λ done. known_clusters known.new)
        (extended_clusters geometry.now (cluster_at content geometry.now.cluster) valid first.now
        (known_clusters known.old) (shown_entry entry.now)) result) }
    ensures known { OnOk result (IsKnown geometry.now.clusters known.new) }
    ensures block { length block.new ≡ length block.old }
    ensures reads { OnlyReads G.Image volume_origin image.old image.new result }
{
    let bytes = known.bytes(geometry.cluster).min(valid);
    let number = target(entry.reference);
    if !read_raw(image, geometry, known.runs.runs(), bytes, number, block)? {
        return Err(no_map(0));
    }
    let Some(view) = live_record(block) else {
        return Err(no_map(0));
    };
    if !has_base_0(view.base(), first.sequence()) {
        return Err(no_map(0));
    }
    add_extent(alloc, geometry, &view, entry, known)
}

/// Adds the extent of an entry, which begins where the known clusters end.
fn add_entry<G: Image>(
    alloc: Global,
    image: &mut G,
    geometry: &Geometry,
    first: &RecordView<'_>,
    valid: u64,
    entry: &ListEntry<'_>,
    known: &mut Known,
    block: &mut [u8],
) -> Result<(), VolumeFault>
    requires opened { IsOpened (G.seen image.old).size geometry.now }
    requires known { IsKnown geometry.now.clusters known.old }
    requires block { length block.old ≡ geometry.now.record_size }
    ensures gives { IfTold G.Image image.old (λ content. Gives volume_origin (λ done. known_clusters known.new)
        (behind_known (known_clusters known.old) (extent_of_entry geometry.now (cluster_at content geometry.now.cluster)
        valid first.now (known_clusters known.old) (shown_entry entry.now))) result) }
    ensures known { OnOk result (IsKnown geometry.now.clusters known.new) }
    ensures block { length block.new ≡ length block.old }
    ensures reads { OnlyReads G.Image volume_origin image.old image.new result }
{
    if entry.lowest != known.count {
        return Err(no_map(0));
    }
    if target(entry.reference) == 0 {
        return add_extent(alloc, geometry, first, entry, known);
    }
    add_from_extension(alloc, image, geometry, first, valid, entry, known, block)
}

/// Adds the extents of the entries of a list in which all are right.
fn add_entries<G: Image>(
    alloc: Global,
    image: &mut G,
    geometry: &Geometry,
    first: &RecordView<'_>,
    valid: u64,
    list: &[u8],
    known: &mut Known,
    block: &mut [u8],
) -> Result<(), VolumeFault>
    requires opened { IsOpened (G.seen image.old).size geometry.now }
    requires known { IsKnown geometry.now.clusters known.old }
    requires block { length block.old ≡ geometry.now.record_size }
    ensures gives { IfTold G.Image image.old (λ content. Gives volume_origin (λ done. known_clusters known.new)
        (listed_clusters geometry.now (cluster_at content geometry.now.cluster) valid first.now
        (known_clusters known.old) list.now) result) }
    ensures known { OnOk result (IsKnown geometry.now.clusters known.new) }
    ensures reads { OnlyReads G.Image volume_origin image.old image.new result }
{
    if !are_entries(list) {
        return Err(no_map(0));
    }
    'entries: for item in entries(list) {
        if let Ok(entry) = item {
            if is_further(&entry) {
                add_entry(alloc, image, geometry, first, valid, &entry, known, block)?;
            }
        }
    }
    Ok(())
}

/// Adds the extents of the attribute list of record 0.
fn add_list<G: Image>(
    alloc: Global,
    image: &mut G,
    geometry: &Geometry,
    first: &RecordView<'_>,
    valid: u64,
    known: &mut Known,
) -> Result<(), VolumeFault>
    requires opened { IsOpened (G.seen image.old).size geometry.now }
    requires known { IsKnown geometry.now.clusters known.old }
    ensures gives { IfTold G.Image image.old (λ content. Gives volume_origin (λ done. known_clusters known.new)
        (all_clusters geometry.now (cluster_at content geometry.now.cluster) valid first.now
        (known_clusters known.old)) result) }
    ensures known { OnOk result (IsKnown geometry.now.clusters known.new) }
    ensures reads { OnlyReads G.Image volume_origin image.old image.new result }
{
    let Some(list) = first_of(first, Wanted::List) else {
        return Ok(());
    };
    let mut block = zeros(alloc, geometry.record_size as usize)?;
    match list.body {
        Body::Resident { value } => add_entries(
            alloc, image, geometry, first, valid, value, known, &mut block,
        ),
        Body::Runs { .. } => {
            let bytes = read_list(alloc, image, geometry, first, &list)?;
            add_entries(
                alloc, image, geometry, first, valid, &bytes, known, &mut block,
            )
        }
    }
}

#[tactic(auto, unfolding(crate::specs::MftMap::is_record_count))]
fn is_record_count(count: u64) -> bool
    ensures { result ≡ is_record_count count }
{
    12 <= count && count < 1 << 32
}

/// So many clusters have room for the size, with a right number of records.
#[tactic(auto, unfolding(crate::specs::MftMap::is_table))]
fn is_table(geometry: &Geometry, count: u64, size: u64, valid: u64) -> bool
    requires { IsGood geometry.now }
    ensures { result ≡ is_table geometry.now count size valid }
{
    have_room(geometry.cluster, count, size, valid)
        && is_record_count(size / u64::from(geometry.record_size))
}

/// The map that record 0 gives.
fn map_of_record<G: Image>(
    alloc: Global,
    image: &mut G,
    geometry: &Geometry,
    first: &RecordView<'_>,
) -> Result<Table, VolumeFault>
    requires { IsOpened (G.seen image.old).size geometry.now }
    ensures gives { IfTold G.Image image.old (λ content. Gives volume_origin (λ table. table.map)
        (map_of_record geometry.now (cluster_at content geometry.now.cluster) first.now) result) }
    ensures geometry { IfOk result (λ table. table.geometry ≡ geometry.now) }
    ensures reads { OnlyReads G.Image volume_origin image.old image.new result }
{
    let Some(extent) = first_of(first, Wanted::First) else {
        return Err(no_map(0));
    };
    match extent.body {
        Body::Resident { .. } => Err(no_map(0)),
        Body::Runs {
            size,
            valid,
            pairs,
            ..
        } => {
            let mut known = Known::new(alloc);
            known.add(alloc, pairs, geometry.clusters, 0)?;
            add_list(alloc, image, geometry, first, valid, &mut known)?;
            if !is_table(geometry, known.count, size, valid) {
                return Err(no_map(0));
            }
            Ok(Table::new(*geometry, known.runs, size, valid))
        }
    }
}

/// The map that the bytes of record 0 give, which are unfixed in place.
fn map_in<G: Image>(
    alloc: Global,
    image: &mut G,
    geometry: &Geometry,
    raw: &mut [u8],
) -> Result<Table, VolumeFault>
    requires opened { IsOpened (G.seen image.old).size geometry.now }
    requires strides { HasWholeStrides raw.old }
    ensures gives { IfTold G.Image image.old (λ content. Gives volume_origin (λ table. table.map)
        (map_in geometry.now (cluster_at content geometry.now.cluster) raw.old) result) }
    ensures geometry { IfOk result (λ table. table.geometry ≡ geometry.now) }
    ensures reads { OnlyReads G.Image volume_origin image.old image.new result }
{
    match live_record(raw) {
        None => Err(no_map(0)),
        Some(view) => map_of_record(alloc, image, geometry, &view),
    }
}

/// The place of the record that begins at the boot sector's cluster.
fn place_of(geometry: &Geometry) -> u64
    requires { IsGood geometry.now }
    ensures place { result ≡ geometry.now.mft * geometry.now.cluster }
    ensures within { result + geometry.now.record_size ≤ bytes_of_clusters geometry.now }
{
    geometry.mft * u64::from(geometry.cluster)
}

/// Reads $MFT's map.
fn read_map<G: Image>(
    alloc: Global,
    image: &mut G,
    geometry: &Geometry,
) -> Result<Table, VolumeFault>
    requires { IsOpened (G.seen image.old).size geometry.now }
    ensures gives { IfTold G.Image image.old (λ content. Gives volume_origin (λ table. table.map)
        (mft_map geometry.now (cluster_at content geometry.now.cluster)) result) }
    ensures geometry { IfOk result (λ table. table.geometry ≡ geometry.now) }
    ensures reads { OnlyReads G.Image volume_origin image.old image.new result }
{
    let mut block = zeros(alloc, geometry.record_size as usize)?;
    image.read_at(place_of(geometry), &mut block)?;
    map_in(alloc, image, geometry, &mut block)
}

/// Reads the geometry of an image and $MFT's map: a volume opened, without the image.
pub fn read_table<G: Image>(alloc: Global, image: &mut G) -> Result<Table, VolumeFault>
    ensures gives { IfTold G.Image image.old (λ content.
        Gives volume_origin (λ table. table) (opened_of content) result) }
    ensures held { IfOk result (HasClusters (G.seen image.old).size) }
    ensures reads { OnlyReads G.Image volume_origin image.old image.new result }
{
    let geometry = read_volume_geometry(image)?;
    read_map(alloc, image, &geometry)
}
