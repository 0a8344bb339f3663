// Streams of made volumes are read back through the tables: by the extents of their records, VCN by VCN.
use super::{has, volume};
use crate::extent::run_of;
use crate::is_in_range;
use crate::layout::Layout;
use crate::rows::{file_rows, kind_rows, spare_rows, system_rows};
use crate::shape::{Shape, bitmap_size};
use crate::stream::piece;
use crate::table::{Attribute, AttributeBody, Extent, PlannedRun, Row};
use ntfs_base::MemImage;
use std::alloc::{AllocError, Global};
use std::process::Abort;
use std::test::Fail;

// A made volume, and where its areas stand.
#[derive(Drop)]
struct Made {
    image: MemImage,
    layout: Layout,
}

// Where the areas stand.
fn layout_of(
    rt: &impl Abort,
    alloc: Global,
    seed: u64,
    clusters: u32,
    cluster: u32,
) -> Result<Layout, AllocError> {
    assert!(rt; is_in_range(clusters, cluster));
    let shape = Shape {
        seed,
        clusters: u64::from(clusters),
        cluster: u64::from(cluster),
    };
    Layout::new(alloc, shape)
}

// The row of a record.
fn row_of(number: usize) -> Option<&'static Row> {
    let table = match number / 16 {
        0 => system_rows(),
        1 => kind_rows(),
        2 => file_rows(),
        _ => spare_rows(),
    };
    table.get(number % 16)
}

// The extent of this type among attributes.
fn extent_in(attributes: &[Attribute], kind: u32) -> Option<Extent> {
    'attributes: for attribute in attributes {
        if attribute.kind == kind
            && let AttributeBody::Extent(extent) = attribute.body
        {
            return Some(extent);
        }
    }
    None
}

// The extent of this type that a record has.
fn extent_of(number: usize, kind: u32) -> Option<Extent> {
    let row = row_of(number)?;
    extent_in(row.attributes, kind)
}

// Puts the bytes of a run; those of holes are zeros.
fn put_run(out: &mut Vec<u8>, made: &Made, planned: PlannedRun) -> Result<(), AllocError> {
    let run = run_of(&made.layout, planned);
    let cluster = made.layout.shape().cluster;
    let count = run.length.wrapping_mul(cluster) as usize;
    let Some(lcn) = run.lcn else {
        'zeros: for place in 0..count {
            out.push(0)?;
        }
        return Ok(());
    };
    let start = lcn.wrapping_mul(cluster) as usize;
    match made
        .image
        .inside
        .bytes
        .get(start..start.wrapping_add(count))
    {
        Some(bytes) => out.extend_from_slice(bytes),
        None => Ok(()),
    }
}

// The bytes of all VCNs of a stream whose extents these records have, in this order.
fn stream(alloc: Global, made: &Made, records: &[usize], kind: u32) -> Result<Vec<u8>, AllocError> {
    let mut bytes = Vec::new(alloc);
    'records: for record in records {
        if let Some(extent) = extent_of(*record, kind) {
            put_run(&mut bytes, made, extent.first)?;
            put_run(&mut bytes, made, extent.second)?;
            put_run(&mut bytes, made, extent.third)?;
        }
    }
    Ok(bytes)
}

fn are_zeros(bytes: &[u8]) -> bool {
    bytes.iter().all(|byte| *byte == 0)
}

// Whether the bytes count up from this number.
fn count_up(bytes: &[u8], first: u64) -> bool {
    let mut next = first;
    'bytes: for byte in bytes {
        if u64::from(*byte) != next % 256 {
            return false;
        }
        next = next.wrapping_add(1);
    }
    true
}

// Whether the record of this number stands at its place in $MFT; zeros where it is not in use.
fn has_record(mft: &[u8], number: u32) -> bool {
    let place = (number as usize).wrapping_mul(1024);
    let Some(record) = mft.get(place..place.wrapping_add(1024)) else {
        return false;
    };
    match row_of(number as usize) {
        Some(row) if row.flags != 0 => {
            has(record, 0, b"FILE")
                && has(record, 0x16, &row.flags.to_le_bytes())
                && has(record, 0x2C, &number.to_le_bytes())
        }
        _ => are_zeros(record),
    }
}

// How many names stand in the block of the root's index.
fn name_count(block: &[u8]) -> usize {
    let mut count = 0usize;
    let mut place = 0x40usize;
    'entries: for turn in 0..100 {
        let (Some(length), Some(flags)) = (
            block.get(place.wrapping_add(8)),
            block.get(place.wrapping_add(12)),
        ) else {
            return 0;
        };
        if *flags == 2 {
            return count;
        }
        count = count.wrapping_add(1);
        place = place.wrapping_add(usize::from(*length));
    }
    0
}

fn has_bit(bitmap: &[u8], cluster: u64) -> bool {
    match bitmap.get((cluster / 8) as usize) {
        Some(byte) => *byte / (1 << (cluster % 8)) % 2 == 1,
        None => false,
    }
}

// Whether the clusters of all areas have their bits.
fn has_bits(bitmap: &[u8], made: &Made) -> bool {
    'areas: for area in made.layout.areas() {
        'clusters: for turn in 0..area.length {
            if !has_bit(bitmap, area.start.wrapping_add(turn)) {
                return false;
            }
        }
    }
    true
}

fn one_count(bitmap: &[u8]) -> u64 {
    let mut count = 0u64;
    'bytes: for byte in bitmap {
        count = count.wrapping_add(u64::from(byte.count_ones()));
    }
    count
}

// How many bits of $Bitmap are 1: those of the areas, of the bad cluster, and behind the number of clusters.
fn bit_count(made: &Made) -> u64 {
    let clusters = made.layout.shape().clusters;
    let mut count = bitmap_size(clusters)
        .wrapping_mul(8)
        .wrapping_sub(clusters)
        .wrapping_add(1);
    'areas: for area in made.layout.areas() {
        count = count.wrapping_add(area.length);
    }
    count
}

// The streams of the system's files.
fn check_system(rt: &impl Abort, alloc: Global, made: &Made) -> Result<(), Fail> {
    let cluster = made.layout.shape().cluster;
    let mft = stream(alloc, made, &[0, 28], 0x80)?;
    'records: for number in 0..64u32 {
        assert!(rt; has_record(&mft, number), "record {number}, {cluster}");
    }
    let mirror = stream(alloc, made, &[1], 0x80)?;
    assert!(rt; mirror.get(..4096) == mft.get(..4096), "mirror, {cluster}");
    let bitmap = stream(alloc, made, &[6], 0x80)?;
    assert!(rt; has_bits(&bitmap, made), "bitmap, {cluster}");
    assert_eq!(rt; one_count(&bitmap), bit_count(made), "bits, {cluster}");
    let index = stream(alloc, made, &[5], 0xA0)?;
    assert!(rt; has(&index, 0, b"INDX"), "index, {cluster}");
    assert_eq!(rt; name_count(&index), 39, "names, {cluster}");
    Ok(())
}

// A stream of so many VCNs that counts up from the number of its record.
fn check_counting(
    rt: &impl Abort,
    alloc: Global,
    made: &Made,
    records: &[usize],
    first: u64,
    vcns: u64,
) -> Result<(), Fail> {
    let cluster = made.layout.shape().cluster;
    let bytes = stream(alloc, made, records, 0x80)?;
    assert_eq!(rt;
        bytes.len() as u64,
        cluster.wrapping_mul(vcns),
        "record {first}, {cluster}"
    );
    assert!(rt; count_up(&bytes, first), "record {first}, {cluster}");
    Ok(())
}

fn check_files(rt: &impl Abort, alloc: Global, made: &Made, seed: u64) -> Result<(), Fail> {
    check_counting(rt, alloc, made, &[19], 19, 2)?;
    check_counting(rt, alloc, made, &[21, 22], 21, 2)?;
    check_counting(rt, alloc, made, &[32], 32, 1 + seed / 4 % 4)?;
    check_counting(rt, alloc, made, &[47], 47, 1 + (seed / 4 + 15) % 4)
}

// `sparse.bin`, of which the third VCN alone has a cluster.
fn check_sparse(rt: &impl Abort, alloc: Global, made: &Made) -> Result<(), Fail> {
    let cluster = made.layout.shape().cluster;
    let bytes = stream(alloc, made, &[18], 0x80)?;
    assert_eq!(rt; bytes.len() as u64, cluster.wrapping_mul(4));
    'vcns: for vcn in 0..4u64 {
        let bytes = piece(&bytes, vcn.wrapping_mul(cluster), cluster);
        if vcn == 2 {
            assert!(rt; count_up(bytes, 18), "{cluster}");
        } else {
            assert!(rt; are_zeros(bytes), "{cluster}");
        }
    }
    Ok(())
}

fn check(
    rt: &impl Abort,
    alloc: Global,
    seed: u64,
    clusters: u32,
    cluster: u32,
) -> Result<(), Fail> {
    let made = Made {
        image: volume(rt, alloc, seed, clusters, cluster)?,
        layout: layout_of(rt, alloc, seed, clusters, cluster)?,
    };
    check_system(rt, alloc, &made)?;
    check_files(rt, alloc, &made, seed)?;
    check_sparse(rt, alloc, &made)
}

fn check_small(rt: &impl Abort, alloc: Global, seed: u64) -> Result<(), Fail> {
    check(rt, alloc, seed, 2048, 512)?;
    check(rt, alloc, seed, 1024, 1024)?;
    check(rt, alloc, seed, 1031, 2048)?;
    check(rt, alloc, seed, 1024, 4096)?;
    check(rt, alloc, seed, 1024, 8192)
}

fn check_large(rt: &impl Abort, alloc: Global, seed: u64) -> Result<(), Fail> {
    check(rt, alloc, seed, 1100, 16384)?;
    check(rt, alloc, seed, 1024, 32768)?;
    check(rt, alloc, seed, 1024, 65536)
}

#[test]
fn streams_of_small_clusters_are_read_back_upwards(rt: HostRuntime) -> Result<(), Fail> {
    check_small(&rt, rt.alloc(), 0)
}

#[test]
fn streams_of_small_clusters_are_read_back_downwards(rt: HostRuntime) -> Result<(), Fail> {
    check_small(&rt, rt.alloc(), 15)
}

#[test]
fn streams_of_large_clusters_are_read_back_upwards(rt: HostRuntime) -> Result<(), Fail> {
    check_large(&rt, rt.alloc(), 9)
}

#[test]
fn streams_of_large_clusters_are_read_back_downwards(rt: HostRuntime) -> Result<(), Fail> {
    check_large(&rt, rt.alloc(), 6)
}
