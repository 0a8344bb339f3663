//! Volumes that are saved and copied: the clone image is spelled here from the format in words.
ghost use Rattle.std.specs.Prelude.{◌≡◌, IfOk};
ghost use Rattle.ntfs_base.specs.MemShelf.{seen_mem_file};
ghost use Rattle.ntfs_bitmap.specs.ClusterSet.{bound_of};

use crate::tests::{empty_file, has_runs, patch, restore_into};
use crate::{CloneFault, copy_clusters, save_clusters};
use ntfs_base::{Image, Leaves, MemFile, MemImage, MemSink, Sink};
use ntfs_bitmap::ClusterSet;
use ntfs_boot::read_volume_geometry;
use std::alloc::{AllocError, Global};
use std::test::Fail;

/// An image of so many bytes: clusters of 1,024 bytes in so many sectors of 512, each filled with its number and 0x40,
/// and the tail with 0xEE, but for the fields of the boot sector.
fn volume(alloc: Global, sectors: u16, len: usize) -> Result<Vec<u8>, AllocError> {
    let mut bytes = vec![in alloc; 0xEE; len]?;
    let clusters = usize::from(sectors) / 2;
    for (place, byte) in bytes.iter_mut().enumerate() {
        if place / 1024 < clusters {
            *byte = 0x40 + (place / 1024 % 100) as u8;
        }
    }
    patch(&mut bytes, 3, b"NTFS    ");
    patch(&mut bytes, 0x0B, &[0, 2, 2]);
    patch(&mut bytes, 0x28, &u64::from(sectors).to_le_bytes());
    patch(&mut bytes, 0x30, &1u64.to_le_bytes());
    patch(&mut bytes, 0x38, &2u64.to_le_bytes());
    patch(&mut bytes, 0x40, &[0xF6, 0, 0, 0, 0xF4]);
    Ok(bytes)
}

/// The set of the clusters of these runs that lie below a bound.
fn set_of(alloc: Global, bound: u64, runs: &[(u64, u64)]) -> Result<ClusterSet, AllocError>
    ensures { IfOk result (λ set. bound_of set ≡ bound) }
{
    let mut set = ClusterSet::empty(alloc, bound)?;
    'runs: for (first, length) in runs {
        if *first <= bound && *length <= bound - *first {
            let _ = set.claim_run(*first, *length);
        }
    }
    Ok(set)
}

/// Saves an image with these clusters owned.
fn save<G: Image, K: Sink>(
    alloc: Global,
    image: &mut G,
    runs: &[(u64, u64)],
    sink: &mut K,
) -> Result<Result<(), CloneFault>, AllocError> {
    let Ok(geometry) = read_volume_geometry(image) else {
        return Ok(Err(CloneFault::BadClone { place: 0 }));
    };
    let owned = set_of(alloc, geometry.clusters, runs)?;
    Ok(save_clusters(alloc, image, &geometry, &owned, sink))
}

/// Copies an image with these clusters owned to an empty file.
fn copy<G: Image>(
    alloc: Global,
    image: &mut G,
    runs: &[(u64, u64)],
    target: &mut MemFile,
) -> Result<Result<(), CloneFault>, AllocError>
    requires { (seen_mem_file target.old).size ≡ 0 }
{
    let Ok(geometry) = read_volume_geometry(image) else {
        return Ok(Err(CloneFault::BadClone { place: 0 }));
    };
    let owned = set_of(alloc, geometry.clusters, runs)?;
    Ok(copy_clusters(alloc, image, &geometry, &owned, target))
}

/// The header of a clone of 10 clusters of 1,024 bytes in 21 sectors, of which none is in use.
const HEADER: [u8; 56] =
    *b"\0ntfsclone-image\x0A\0\0\x04\0\0\0\x2C\0\0\0\0\0\0\x0A\0\0\0\0\0\0\0\x00\0\0\0\0\0\0\0\x38\0\0\0\0\0\0\0\0\0";

/// The same, where so many are in use.
fn header(in_use: u8) -> [u8; 56] {
    let mut front = HEADER;
    front[38] = in_use;
    front
}

/// A piece of a clone image behind its header.
#[derive(Clone, Copy)]
enum Piece {
    Gap(u8),
    /// The cluster of this number.
    Cluster(usize),
    /// A tail with so many bytes of the image.
    Tail(usize),
}

/// The clone image of an image with these pieces.
fn clone(alloc: Global, image: &[u8], in_use: u8, pieces: &[Piece]) -> Result<Vec<u8>, AllocError> {
    let mut bytes = Vec::from_slice(alloc, &header(in_use))?;
    for piece in pieces {
        match piece {
            Piece::Gap(count) => bytes.extend_from_slice(&[0, *count, 0, 0, 0, 0, 0, 0, 0])?,
            Piece::Cluster(number) if *number < 10 => {
                bytes.push(1)?;
                let place = *number * 1024;
                bytes.extend_from_slice(image.get(place..place + 1024).unwrap_or(&[]))?;
            }
            Piece::Cluster(_) => {}
            Piece::Tail(count) => {
                let mut tail = [0; 1024];
                for (index, byte) in tail.iter_mut().enumerate() {
                    if index < *count {
                        *byte = 0xEE;
                    }
                }
                bytes.push(1)?;
                bytes.extend_from_slice(&tail)?;
            }
        }
    }
    Ok(bytes)
}

#[test]
fn a_small_volume_is_saved(rt: HostRuntime) -> Result<(), Fail> {
    let alloc = rt.alloc();
    // The length of the image, the owned clusters, how many they are, and the commands.
    for (len, runs, in_use, pieces) in [
        (
            10_240,
            [].as_slice(),
            0,
            [Piece::Gap(10), Piece::Tail(0)].as_slice(),
        ),
        (
            11_264,
            &[(0, 1), (2, 3), (7, 1)],
            5,
            &[
                Piece::Cluster(0),
                Piece::Gap(1),
                Piece::Cluster(2),
                Piece::Cluster(3),
                Piece::Cluster(4),
                Piece::Gap(2),
                Piece::Cluster(7),
                Piece::Gap(2),
                Piece::Tail(1024),
            ],
        ),
        (
            10_840,
            &[(3, 1), (9, 1)],
            2,
            &[
                Piece::Gap(3),
                Piece::Cluster(3),
                Piece::Gap(5),
                Piece::Cluster(9),
                Piece::Tail(600),
            ],
        ),
        (
            12_000,
            &[(8, 2)],
            2,
            &[
                Piece::Gap(8),
                Piece::Cluster(8),
                Piece::Cluster(9),
                Piece::Tail(1024),
            ],
        ),
    ] {
        let bytes = volume(alloc, 21, len)?;
        let want = clone(alloc, &bytes, in_use, pieces)?;
        let mut image = MemImage::new(alloc, bytes);
        let mut sink = MemSink::new(alloc);
        assert_eq!(rt; save(alloc, &mut image, runs, &mut sink)?, Ok(()));
        assert_eq!(rt; sink.content.as_slice(), want.as_slice());
    }
    Ok(())
}

/// The clusters that the next tests own.
const OWNED: [(u64, u64); 2] = [(1, 2), (7, 1)];

#[test]
fn what_was_saved_is_restored_and_is_the_raw_copy(rt: HostRuntime) -> Result<(), Fail> {
    let alloc = rt.alloc();
    // The length of the image, the owned clusters, and the bytes of the device.
    for (len, runs, want) in [
        (10_240, [].as_slice(), [(11_264, 0)].as_slice()),
        (
            11_264,
            &OWNED,
            &[
                (1024, 0),
                (1024, 0x41),
                (1024, 0x42),
                (4096, 0),
                (1024, 0x47),
                (2048, 0),
                (1024, 0xEE),
            ],
        ),
        (
            10_840,
            &[(9, 1)],
            &[(9216, 0), (1024, 0x49), (600, 0xEE), (424, 0)],
        ),
        (12_000, &[], &[(10_240, 0), (1024, 0xEE)]),
    ] {
        let mut image = MemImage::new(alloc, volume(alloc, 21, len)?);
        let mut sink = MemSink::new(alloc);
        assert_eq!(rt; save(alloc, &mut image, runs, &mut sink)?, Ok(()));
        let mut restored = empty_file(alloc, 0, Leaves::Before)?;
        let clone = Vec::from_slice(alloc, &sink.content)?;
        assert_eq!(rt; restore_into(alloc, clone, &mut restored), Ok(()));
        assert!(rt; has_runs(&restored.inside.bytes, want));
        let mut copied = empty_file(alloc, 0, Leaves::Before)?;
        assert_eq!(rt; copy(alloc, &mut image, runs, &mut copied)?, Ok(()));
        assert!(rt; has_runs(&copied.inside.bytes, want));
    }
    Ok(())
}

#[test]
fn rows_are_read_and_put_in_large_pieces(rt: HostRuntime) -> Result<(), Fail> {
    let alloc = rt.alloc();
    let bytes = volume(alloc, 2201, 1_127_424)?;
    let mut image = MemImage::new(alloc, Vec::from_slice(alloc, &bytes)?);
    let mut sink = MemSink::new(alloc);
    let all = [(0, 1100)];
    assert_eq!(rt; save(alloc, &mut image, &all, &mut sink)?, Ok(()));
    // The boot sector, three rows of up to 511 clusters, and the tail.
    assert_eq!(rt; image.inside.calls.made, 5);
    assert_eq!(rt; sink.calls.made, 3);
    let mut target = empty_file(alloc, 0, Leaves::Before)?;
    let clone = Vec::from_slice(alloc, &sink.content)?;
    assert_eq!(rt; clone.len(), 56 + 1101 * 1025);
    assert_eq!(rt; restore_into(alloc, clone, &mut target), Ok(()));
    assert_eq!(rt; target.inside.bytes.as_slice(), bytes.as_slice());
    Ok(())
}

#[test]
fn a_failed_call_of_a_save_leaves_a_prefix(rt: HostRuntime) -> Result<(), Fail> {
    let alloc = rt.alloc();
    let bytes = volume(alloc, 21, 11_264)?;
    let want = clone(
        alloc,
        &bytes,
        3,
        &[
            Piece::Gap(1),
            Piece::Cluster(1),
            Piece::Cluster(2),
            Piece::Gap(4),
            Piece::Cluster(7),
            Piece::Gap(2),
            Piece::Tail(1024),
        ],
    )?;
    // Calls of the image behind that which reads the boot sector, and of the sink, and how many bytes are put.
    for (read, put, leaves, fault, count) in [
        (2, 0, Leaves::Before, CloneFault::ReadFault, 0),
        (3, 0, Leaves::Before, CloneFault::ReadFault, 0),
        (4, 0, Leaves::Before, CloneFault::ReadFault, 0),
        (0, 1, Leaves::Before, CloneFault::WriteFault, 0),
        (
            0,
            1,
            Leaves::Front { bytes: 70 },
            CloneFault::WriteFault,
            70,
        ),
        (0, 1, Leaves::Asked, CloneFault::WriteFault, want.len()),
    ] {
        let mut image = MemImage::new(alloc, Vec::from_slice(alloc, &bytes)?);
        image.inside.calls.fail(alloc, read, leaves)?;
        let mut sink = MemSink::new(alloc);
        sink.calls.fail(alloc, put, leaves)?;
        assert_eq!(rt; save(alloc, &mut image, &OWNED, &mut sink)?, Err(fault));
        assert_eq!(rt; Some(sink.content.as_slice()), want.get(..count));
    }
    Ok(())
}

#[test]
fn a_failed_call_of_a_copy_leaves_a_front(rt: HostRuntime) -> Result<(), Fail> {
    let alloc = rt.alloc();
    let (read, write) = (CloneFault::ReadFault, CloneFault::WriteFault);
    let first = [(1024, 0), (1024, 0x41), (1024, 0x42), (8192, 0)];
    let both = [(1024, 0), (1024, 0x41), (1024, 0x42), (4096, 0)];
    let (last, end) = ((1024, 0x47), (3072, 0));
    // Calls of the image behind that which reads the boot sector, and of the target, and what stands there.
    for (call, put, leaves, fault, want) in [
        (2, 0, Leaves::Before, read, [(11_264, 0)].as_slice()),
        (3, 0, Leaves::Before, read, &first),
        (
            4,
            0,
            Leaves::Before,
            read,
            &[both[0], both[1], both[2], both[3], last, end],
        ),
        (0, 1, Leaves::Before, write, &[]),
        (0, 1, Leaves::Asked, write, &[(11_264, 0)]),
        (0, 2, Leaves::Before, write, &[(11_264, 0)]),
        (0, 2, Leaves::Asked, write, &first),
        (0, 3, Leaves::Before, write, &first),
        (
            0,
            4,
            Leaves::Before,
            write,
            &[both[0], both[1], both[2], both[3], last, end],
        ),
        (
            0,
            4,
            Leaves::Asked,
            write,
            &[
                both[0],
                both[1],
                both[2],
                both[3],
                last,
                (2048, 0),
                (1024, 0xEE),
            ],
        ),
    ] {
        let mut image = MemImage::new(alloc, volume(alloc, 21, 11_264)?);
        image.inside.calls.fail(alloc, call, leaves)?;
        let mut target = empty_file(alloc, put, leaves)?;
        assert_eq!(rt; copy(alloc, &mut image, &OWNED, &mut target)?, Err(fault));
        assert!(rt; has_runs(&target.inside.bytes, want));
    }
    Ok(())
}
