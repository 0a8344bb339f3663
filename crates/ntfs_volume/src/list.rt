//! The attribute list of a record.

ghost use Rattle.std.specs.Prelude.{◌≡◌, ◌≤◌, ◌<◌, ◌+◌, ◌*◌, ◌^◌, ◌==◌, if◌then◌else◌, ◌&&◌, ℕ, List, length, replicate, true, false, nat_le, IfOk, is_ok, Ok};
ghost use Rattle.std.specs.Option.{ok_or};
ghost use Rattle.ntfs_base.specs.Bytes.{cluster_at};
ghost use Rattle.ntfs_base.specs.Frames.{Gives, IfTold, IsJudged, OnlyReads};
ghost use Rattle.ntfs_boot.specs.Geometry.{IsOpened};
ghost use Rattle.ntfs_attrlist.specs.Reading.{list_entries};
ghost use Rattle.ntfs_record.specs.FileRecord.{Attribute, Laid, attributes_of};
ghost use Rattle.ntfs_record.specs.Views.{shown_body};
ghost use Rattle.ntfs_runs.specs.Cells.{are_cells, map_cells};
ghost use Rattle.ntfs_runs.specs.Clusters.{vcns};
ghost use Rattle.ntfs_volume.specs.Fault.{volume_origin};
ghost use Rattle.ntfs_volume.specs.ListViews.{FitsList, list_bytes_of, readable_cells};
ghost use Rattle.ntfs_volume.specs.Listing.{lists_named, most_list};
ghost use Rattle.ntfs_volume.specs.MftMap.{no_map};
ghost use Rattle.ntfs_volume.specs.StreamBytes.{have_room, runs_bytes};
ghost use Rattle.ntfs_volume.specs.Views.{is_shown_list, told, told_view};

use crate::fault::{VolumeFault, no_map};
use crate::pieces::read_from;
use ntfs_attrlist::entries;
use ntfs_base::Image;
use ntfs_boot::Geometry;
use ntfs_record::{AttributeView, Body, RecordView};
use ntfs_runs::{PairsFault, Run, RunList, decode};
use std::alloc::{AllocError, Global};

/// The greatest size of a list that isn't resident.
const MOST_LIST: u64 = 1 << 24;

/// So many bytes of 0.
pub(crate) fn zeros(alloc: Global, count: usize) -> Result<Vec<u8>, AllocError>
    ensures { IfOk result (λ bytes. bytes.items ≡ replicate count 0) }
{
    vec![in alloc; 0; count]
}

/// The sizes fit so many VCNs of a cluster's bytes.
pub(crate) fn have_room(cluster: u32, vcns: u64, size: u64, valid: u64) -> bool
    ensures { result ≡ have_room cluster vcns size valid }
{
    size <= vcns.saturating_mul(u64::from(cluster)) && valid <= size
}

/// All bytes of a list are entries.
pub fn are_entries(list: &[u8]) -> bool
    ensures { result ≡ is_ok (list_entries list.now) }
{
    'entries: for item in entries(list) {
        if item.is_err() {
            return false;
        }
    }
    true
}

/// The record has one list of this name.
fn is_only_list(view: &RecordView<'_>, name: &[u8]) -> bool
    ensures { result ≡ (lists_named name.now (attributes_of view.now) == 1) }
{
    let mut count: usize = 0;
    'attributes: for attribute in view.attributes() {
        count = counted(count, is_list_named(&attribute, name));
    }
    count == 1
}

/// One more, where it counts.
fn counted(count: usize, counts: bool) -> usize
    requires { count < 2 ^ 32 }
    ensures { result ≡ if counts then count + 1 else count }
{
    if counts { count + 1 } else { count }
}

fn is_list_named(view: &AttributeView<'_>, name: &[u8]) -> bool
    ensures { result ≡ is_shown_list name.now (told_view view.now) }
{
    view.kind == 0x20 && view.name == name
}

/// The runs of a list that isn't resident and can be read.
fn list_runs(
    alloc: Global,
    geometry: &Geometry,
    list: &AttributeView<'_>,
) -> Result<RunList, VolumeFault>
    ensures gives { Gives volume_origin vcns (readable_cells geometry.now (told_view list.now).body) result }
    ensures cells { IfOk result (λ runs. are_cells true geometry.now.clusters (vcns runs) ≡ true) }
    ensures fits { IfOk result (λ runs. FitsList geometry.now (told_view list.now).body runs) }
    ensures judged { IsJudged volume_origin result }
{
    match list.body {
        Body::Resident { .. } => Err(no_map(0)),
        Body::Runs {
            lowest,
            next,
            size,
            valid,
            pairs,
            ..
        } => match decode(alloc, pairs) {
            Err(PairsFault::NoMemory) => Err(VolumeFault::NoMemory),
            Err(PairsFault::BadPairs { .. }) => Err(no_map(0)),
            Ok(runs) => {
                if !runs.lies_below(true, geometry.clusters) {
                    return Err(no_map(0));
                }
                if !is_readable_list(
                    geometry.cluster,
                    lowest,
                    next,
                    size,
                    valid,
                    runs.vcn_count(),
                ) {
                    return Err(no_map(0));
                }
                Ok(runs)
            }
        },
    }
}

/// So many VCNs are those from 0 on, and have room for a list of these sizes.
fn is_readable_list(cluster: u32, lowest: u64, next: u64, size: u64, valid: u64, vcns: u64) -> bool
    ensures { result ≡ ((lowest == 0) && ((vcns == next)
        && (nat_le size most_list && have_room cluster vcns size valid))) }
{
    lowest == 0 && vcns == next && size <= MOST_LIST && have_room(cluster, vcns, size, valid)
}

/// The bytes of a list of these sizes that isn't resident, where it is one extent of the record and can be read.
pub fn read_list<G: Image>(
    alloc: Global,
    image: &mut G,
    geometry: &Geometry,
    view: &RecordView<'_>,
    list: &AttributeView<'_>,
) -> Result<Vec<u8>, VolumeFault>
    requires opened { IsOpened (G.seen image.old).size geometry.now }
    requires runs { (told_view list.now).body.is_resident ≡ false }
    ensures gives { IfTold G.Image image.old (λ content. (a : Attribute (Laid (List ℕ))) → told a ≡ told_view list.now
        → Gives volume_origin (λ bytes. bytes.items)
        (ok_or (list_bytes_of geometry.now (cluster_at content geometry.now.cluster) a view.now) (no_map 0)) result) }
    ensures reads { OnlyReads G.Image volume_origin image.old image.new result }
{
    if !is_only_list(view, list.name) {
        return Err(no_map(0));
    }
    let (size, valid) = sizes_of(&list.body);
    let runs = match list_runs(alloc, geometry, list) {
        Err(fault) => return Err(fault),
        Ok(runs) => runs,
    };
    let mut bytes = zeros(alloc, size as usize)?;
    read_front(image, geometry, runs.runs(), valid as usize, &mut bytes)?;
    Ok(bytes)
}

/// Reads the first bytes of runs over zeros.
fn read_front<G: Image>(
    image: &mut G,
    geometry: &Geometry,
    runs: &[Run],
    valid: usize,
    bytes: &mut [u8],
) -> Result<(), VolumeFault>
    requires opened { IsOpened (G.seen image.old).size geometry.now }
    requires cells { are_cells true geometry.now.clusters (vcns runs.now) ≡ true }
    requires room { length bytes.old ≤ length (vcns runs.now) * geometry.now.cluster }
    requires valid { valid ≤ length bytes.old }
    requires zeros { bytes.old ≡ replicate (length bytes.old) 0 }
    ensures gives { IfTold G.Image image.old (λ content. Gives volume_origin (λ done. bytes.new)
        (Ok (runs_bytes geometry.now.cluster (length bytes.old) valid
        (map_cells (cluster_at content geometry.now.cluster) (vcns runs.now)))) result) }
    ensures reads { OnlyReads G.Image volume_origin image.old image.new result }
{
    read_from(image, geometry, runs, 0, &mut bytes[..valid])?;
    Ok(())
}

fn sizes_of(body: &Body<'_>) -> (u64, u64)
    ensures size { result.0 ≡ (shown_body body.now).size }
    ensures valid { result.1 ≡ (shown_body body.now).valid }
{
    match body {
        Body::Resident { .. } => (0, 0),
        Body::Runs { size, valid, .. } => (*size, *valid),
    }
}
