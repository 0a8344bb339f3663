//! What the streams in clusters have, and what of them stands in an area.

ghost use Rattle.std.specs.Prelude.{◌≡◌, ◌++◌, ◌+◌, ◌-◌, ◌*◌, ◌≤◌, ◌<◌, ◌^◌, ℕ, false, length, OnOk, IfOk, IsTrue, IsFalse, map, take};
ghost use Rattle.ntfs_base.specs.Bytes.{piece_at};
ghost use Rattle.ntfs_make.specs.Shape.{bitmap_size as size_of_bitmap};
ghost use Rattle.ntfs_make.specs.UpCase as up_case;
ghost use Rattle.ntfs_make.specs.Records.{records_bytes, rows_between};
ghost use Rattle.ntfs_make.specs.Rows.{rows};
ghost use Rattle.ntfs_make.specs.Streams as spec;
ghost use Rattle.ntfs_make.specs.declared.table.Content.TheVariants.{Mft, Counting};

use crate::boot::boot_sector;
use crate::index::index_block;
use crate::layout::{Layout, area_cluster_count};
use crate::record::put_records;
use crate::rows::{file_rows, kind_rows, spare_rows, system_rows};
use crate::shape::{bad_cluster, bitmap_size};
use crate::table::{Area, ClusterCount, Content};
use std::alloc::{AllocError, Global};

// So many bytes FF.
#[tactic(auto, unfolding(crate::specs::Streams::ff_bytes))]
fn ff_bytes(alloc: Global, count: usize) -> Result<Vec<u8>, AllocError>
    ensures { IfOk result (λ bytes. bytes.items ≡ spec.ff_bytes count) }
{
    let mut bytes = Vec::new(alloc);
    'bytes: for place in 0..count {
        bytes.push(0xFF)?;
    }
    Ok(bytes)
}

// So many bytes that count up from a number.
#[tactic(auto, unfolding(crate::specs::Streams::counting_bytes))]
fn counting_bytes(alloc: Global, first: u64, count: u64) -> Result<Vec<u8>, AllocError>
    requires first { first < 2 ^ 60 }
    requires count { count < 2 ^ 60 }
    ensures { IfOk result (λ bytes. bytes.items ≡ spec.counting_bytes first count) }
{
    let mut bytes = Vec::new(alloc);
    'counts: for place in 0..count {
        bytes.push(((first + place) % 256) as u8)?;
    }
    Ok(bytes)
}

// The unit to which $UpCase maps a unit.
#[tactic(auto, using(std::proofs::lemmas::Bool::Decides::nat_tests), unfolding(crate::specs::UpCase::upper))]
fn upper(unit: u16) -> u16
    ensures { result ≡ up_case.upper unit }
{
    if 0x61 <= unit && unit <= 0x7A {
        unit - 0x20
    } else {
        unit
    }
}

// The table of $UpCase.
#[tactic(auto, using(crate::proofs::RangeLemmas::up_case_more), unfolding(crate::specs::UpCase::up_case_bytes))]
fn up_case_bytes(alloc: Global) -> Result<Vec<u8>, AllocError>
    ensures { IfOk result (λ bytes. bytes.items ≡ up_case.up_case_bytes 65536) }
{
    let mut bytes = Vec::new(alloc);
    'units: for unit in 0..0x1_0000u32 {
        bytes.extend_from_slice(&upper(unit as u16).to_le_bytes())?;
    }
    Ok(bytes)
}

// Whether a cluster has an area on it.
fn has_area(areas: &[Area], cluster: u64) -> bool
    ensures { result ≡ spec.has_area areas.now cluster }
{
    'areas: for area in areas {
        if area.start <= cluster && cluster - area.start < area.length {
            return true;
        }
    }
    false
}

// The bit of a cluster in $Bitmap: 1 where it is in use, and from the number of clusters on.
#[tactic(auto, unfolding(crate::specs::Streams::bitmap_bit))]
fn bitmap_bit(layout: &Layout, cluster: u64) -> u8
    ensures exact { result ≡ spec.bitmap_bit layout.now cluster }
    ensures bit { result ≤ 1 }
{
    let clusters = layout.shape().clusters;
    if clusters <= cluster
        || cluster == bad_cluster(clusters)
        || has_area(layout.areas(), cluster)
    {
        1
    } else {
        0
    }
}

// Whether one of the eight clusters from the first on has an area on it.
fn has_area_near(areas: &[Area], first: u64) -> bool
    requires { first < 2 ^ 50 }
    ensures { IsFalse result → (i : ℕ) → i < 8 → spec.has_area areas.now (first + i) ≡ false }
{
    'areas: for area in areas {
        if area.start < first + 8 && first.saturating_sub(area.start) < area.length {
            return true;
        }
    }
    false
}

// Whether the eight clusters of a byte are all free.
fn are_free(layout: &Layout, place: u64) -> bool
    requires { place < 2 ^ 40 }
    ensures { IsTrue result → spec.byte_of layout.now (8 * place) ≡ 0 }
{
    let clusters = layout.shape().clusters;
    if clusters / 8 <= place || bad_cluster(clusters) / 8 == place {
        return false;
    }
    !has_area_near(layout.areas(), 8 * place)
}

// The eight bits from a cluster on, bit by bit.
#[tactic(auto, unfolding(crate::specs::Streams::byte_of))]
fn mixed_byte(layout: &Layout, cluster: u64) -> u8
    requires { cluster < 2 ^ 50 }
    ensures { result ≡ spec.byte_of layout.now cluster }
{
    bitmap_bit(layout, cluster)
        + 2 * bitmap_bit(layout, cluster + 1)
        + 4 * bitmap_bit(layout, cluster + 2)
        + 8 * bitmap_bit(layout, cluster + 3)
        + 16 * bitmap_bit(layout, cluster + 4)
        + 32 * bitmap_bit(layout, cluster + 5)
        + 64 * bitmap_bit(layout, cluster + 6)
        + 128 * bitmap_bit(layout, cluster + 7)
}

// A byte of $Bitmap. Most clusters of a large volume are free, and are told by eight.
fn byte_of(layout: &Layout, place: u64) -> u8
    requires { place < 2 ^ 40 }
    ensures { result ≡ spec.byte_of layout.now (8 * place) }
{
    if are_free(layout, place) {
        0
    } else {
        mixed_byte(layout, 8 * place)
    }
}

// The bits of all clusters.
#[tactic(auto, using(crate::proofs::RangeLemmas::bitmap_more), unfolding(crate::specs::Streams::bitmap_bytes))]
fn bitmap_bytes(alloc: Global, layout: &Layout) -> Result<Vec<u8>, AllocError>
    ensures { IfOk result (λ bytes. bytes.items ≡ spec.bitmap_bytes layout.now (size_of_bitmap layout.now.clusters)) }
{
    let size = bitmap_size(layout.shape().clusters);
    let mut bytes = Vec::new(alloc);
    'bytes: for place in 0..size {
        bytes.push(byte_of(layout, place))?;
    }
    Ok(bytes)
}

/// Bytes of a stream, of which the first stands at this place.
#[derive(Drop)]
pub(crate) struct StreamPart {
    pub bytes: Vec<u8>,
    pub place: u64,
}

// A stream whole.
fn whole(bytes: Vec<u8>) -> StreamPart
    ensures bytes { result.bytes ≡ bytes }
    ensures place { result.place ≡ 0 }
{
    StreamPart { bytes, place: 0 }
}

// The records from a number on, up to another.
fn records_between(
    alloc: Global,
    layout: &Layout,
    first: usize,
    last: usize,
) -> Result<Vec<u8>, AllocError>
    ensures { IfOk result (λ bytes. bytes.items ≡ records_bytes layout.now (rows_between first last rows)) }
{
    let mut bytes = Vec::new(alloc);
    put_records(alloc, &mut bytes, layout, system_rows(), first, last)?;
    put_records(
        alloc,
        &mut bytes,
        layout,
        kind_rows(),
        first.saturating_sub(16),
        last.saturating_sub(16),
    )?;
    put_records(
        alloc,
        &mut bytes,
        layout,
        file_rows(),
        first.saturating_sub(32),
        last.saturating_sub(32),
    )?;
    put_records(
        alloc,
        &mut bytes,
        layout,
        spare_rows(),
        first.saturating_sub(48),
        last.saturating_sub(48),
    )?;
    Ok(bytes)
}

// The records of $MFT that have some of so many bytes from a place on.
fn mft_part(alloc: Global, layout: &Layout, from: u64, count: u64) -> Result<StreamPart, AllocError>
    requires from { from < 2 ^ 60 }
    requires count { count < 2 ^ 60 }
    ensures { IfOk result (λ part. spec.HasBetween from count (spec.content_bytes layout.now Mft) part.place
        part.bytes.items) }
{
    let last = ((from + count + 1023) / 1024).min(64);
    let first = (from / 1024).min(last);
    let bytes = records_between(alloc, layout, first as usize, last as usize)?;
    Ok(StreamPart {
        bytes,
        place: first * 1024,
    })
}

// So many bytes of a stream that counts up from a number in so many clusters, from a place on.
fn counting_part(
    alloc: Global,
    layout: &Layout,
    number: u32,
    vcns: ClusterCount,
    from: u64,
    count: u64,
) -> Result<StreamPart, AllocError>
    requires from { from < 2 ^ 59 }
    ensures { IfOk result (λ part. spec.HasBetween from count (spec.content_bytes layout.now (Counting number vcns))
        part.place part.bytes.items) }
{
    let shape = layout.shape();
    let size = area_cluster_count(&shape, vcns) * shape.cluster;
    let left = size.saturating_sub(from).min(count);
    let bytes = counting_bytes(alloc, u64::from(number) + from, left)?;
    Ok(StreamPart { bytes, place: from })
}

// So much of a stream that it has so many bytes from a place on: what can be large is made in part, and the others
// whole.
#[tactic(auto, unfolding(crate::specs::Streams::content_bytes))]
pub(crate) fn stream_part(
    alloc: Global,
    layout: &Layout,
    content: Content,
    from: u64,
    count: u64,
) -> Result<StreamPart, AllocError>
    requires from { from < 2 ^ 59 }
    requires count { count < 2 ^ 60 }
    ensures { IfOk result (λ part. spec.HasBetween from count (spec.content_bytes layout.now content) part.place
        part.bytes.items) }
{
    match content {
        Content::Boot => Ok(whole(boot_sector(alloc, layout)?)),
        Content::Mft => mft_part(alloc, layout, from, count),
        Content::Mirror => Ok(whole(records_between(alloc, layout, 0, 4)?)),
        Content::Log => Ok(whole(ff_bytes(alloc, 65536)?)),
        Content::Bitmap => Ok(whole(bitmap_bytes(alloc, layout)?)),
        Content::UpCase => Ok(whole(up_case_bytes(alloc)?)),
        Content::Index => Ok(whole(index_block(alloc)?)),
        Content::Counting(number, vcns) => counting_part(alloc, layout, number, vcns, from, count),
    }
}

// So many bytes from a place on, as far as there are any.
#[tactic(auto, unfolding(ntfs_base::specs::Bytes::piece_at))]
pub(crate) fn piece(bytes: &[u8], from: u64, count: u64) -> &[u8]
    ensures { result.now ≡ piece_at from count bytes.now }
{
    let first = from.min(bytes.len() as u64) as usize;
    let rest = &bytes[first..];
    let last = count.min(rest.len() as u64) as usize;
    &rest[..last]
}
