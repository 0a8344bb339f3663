//! Streams of record 16 of a small volume: 64 clusters of 1,024 bytes, $MFT of 32 records at cluster 4. Each byte from
//! cluster 40 on tells its place.
ghost use Rattle.std.specs.Prelude.{◌<◌, vec_len, IfOk};
ghost use Rattle.ntfs_boot.specs.Geometry.{IsOpened};
ghost use Rattle.ntfs_runs.specs.Clusters.{AreSpellable, AreWithin};
ghost use Rattle.ntfs_stream.specs.StreamBytes.{IsBuffer};

use crate::{StreamFault, read_stream};
use ntfs_base::{Image, Leaves, MemImage, MemSink, Sink};
use ntfs_boot::{Geometry, read_volume_geometry};
use ntfs_runs::{RunList, decode};
use ntfs_volume::{Table, Volume};
use std::alloc::{AllocError, Global};
use std::process::Abort;
use std::test::Fail;

const LENGTH: usize = 66_560;

/// The place of record 16.
const RECORD: usize = 20_480;

/// Writes a text over the bytes, where it lies in them.
fn patch(bytes: &mut [u8], at: usize, text: &[u8]) {
    if at <= bytes.len() && text.len() <= bytes.len() - at {
        bytes[at..at + text.len()].copy_from_slice(text);
    }
}

/// The byte at a place from cluster 40 on.
fn byte_at(place: usize) -> u8 {
    ((place / 1024 + 3 * (place % 1024)) % 251) as u8
}

/// A volume whose record 16 has no attribute yet, but for its end behind one of so many bytes.
fn volume(alloc: Global, behind: u16) -> Result<Vec<u8>, AllocError>
    requires { behind < 1000 }
{
    let mut bytes = vec![in alloc; 0; LENGTH]?;
    patch(&mut bytes, 3, b"NTFS    ");
    patch(&mut bytes, 0x0B, &[0, 2, 2]);
    patch(&mut bytes, 0x28, &[128]);
    patch(&mut bytes, 0x30, &[4]);
    patch(&mut bytes, 0x38, &[40]);
    patch(&mut bytes, 0x40, &[0xF6]);
    patch(&mut bytes, 0x44, &[0xF4]);
    patch(&mut bytes, RECORD, b"FILE");
    patch(&mut bytes, RECORD + 0x04, &[0x30, 0, 3, 0]);
    patch(&mut bytes, RECORD + 0x10, &[3, 0, 1, 0, 56, 0, 1, 0]);
    patch(&mut bytes, RECORD + 0x18, &(behind + 64).to_le_bytes());
    patch(&mut bytes, RECORD + 0x1C, &[0, 4, 0, 0]);
    patch(&mut bytes, RECORD + 0x2C, &[16]);
    patch(&mut bytes, RECORD + 0x30, &[5, 0]);
    patch(&mut bytes, RECORD + 56 + usize::from(behind), &[0xFF; 4]);
    patch(&mut bytes, RECORD + 510, &[5, 0]);
    patch(&mut bytes, RECORD + 1022, &[5, 0]);
    for place in 40_960..65_536 {
        patch(&mut bytes, place, &[byte_at(place)]);
    }
    Ok(bytes)
}

/// What an attribute of unnamed data says that isn't resident.
#[derive(Clone, Copy)]
struct Told<'a> {
    flags: u16,
    next: u64,
    size: u64,
    valid: u64,
    pairs: &'a [u8],
}

/// Eight clusters from 48 on.
const EIGHT: Told<'static> = Told {
    flags: 0,
    next: 8,
    size: 8192,
    valid: 8192,
    pairs: &[0x11, 0x08, 0x30, 0x00],
};

/// A volume whose record 16 has this stream.
fn with_runs(alloc: Global, told: Told<'_>) -> Result<Vec<u8>, AllocError> {
    let mut bytes = volume(alloc, 80)?;
    let at = RECORD + 56;
    patch(&mut bytes, at, &[0x80, 0, 0, 0, 80, 0, 0, 0, 1, 0, 64, 0]);
    patch(&mut bytes, at + 0x0C, &told.flags.to_le_bytes());
    patch(
        &mut bytes,
        at + 0x18,
        &told.next.wrapping_sub(1).to_le_bytes(),
    );
    patch(&mut bytes, at + 0x20, &[64, 0]);
    patch(&mut bytes, at + 0x30, &told.size.to_le_bytes());
    patch(&mut bytes, at + 0x38, &told.valid.to_le_bytes());
    patch(&mut bytes, at + 64, told.pairs);
    Ok(bytes)
}

/// A volume whose record 16 has a resident stream of these flags, `hello, ntfs` or no byte of it.
fn with_value(alloc: Global, flags: u16, length: u8) -> Result<Vec<u8>, AllocError> {
    let mut bytes = volume(alloc, 40)?;
    let at = RECORD + 56;
    patch(&mut bytes, at, &[0x80, 0, 0, 0, 40, 0, 0, 0, 0, 0, 24, 0]);
    patch(&mut bytes, at + 0x0C, &flags.to_le_bytes());
    patch(&mut bytes, at + 0x10, &[length, 0, 0, 0, 24, 0, 0, 0]);
    patch(&mut bytes, at + 24, b"hello, ntfs");
    Ok(bytes)
}

/// A buffer of so many clusters.
fn buffer_of(alloc: Global, clusters: u16, cluster: u32) -> Result<Vec<u8>, AllocError>
    requires { 0 < clusters }
    ensures { IfOk result (λ bytes. IsBuffer cluster (vec_len bytes)) }
{
    vec![in alloc; 0; usize::from(clusters) * cluster as usize]
}

/// Reads at types that are known by their bounds alone.
fn read_from<G: Image, K: Sink>(
    alloc: Global,
    image: &mut G,
    geometry: Geometry,
    runs: RunList,
    clusters: u16,
    sink: &mut K,
) -> Option<Result<(), StreamFault>>
    requires opened { IsOpened (G.seen image.old).size geometry }
    requires spellable { AreSpellable runs }
    requires within { AreWithin runs }
    requires clusters { 0 < clusters }
{
    let Ok(mut buffer) = buffer_of(alloc, clusters, geometry.cluster) else {
        return None;
    };
    let table = Table::fitting(geometry, runs, 32_768, 32_768)?;
    let mut volume = Volume::new(image, table);
    match volume.gather(alloc, 16, 0x80, b"") {
        Err(_) => None,
        Ok(stream) => Some(read_stream(&mut volume, &stream, &mut buffer, sink)),
    }
}

/// The answer for the stream of record 16, by way of a buffer of so many clusters.
fn read(
    alloc: Global,
    image: &mut MemImage,
    clusters: u16,
    sink: &mut MemSink,
) -> Result<Result<(), StreamFault>, Fail>
    requires { 0 < clusters }
{
    match read_volume_geometry(image) {
        Err(_) => Err("a geometry")?,
        Ok(geometry) => match decode(alloc, &[0x11, 0x20, 0x04, 0x00]) {
            Err(_) => Err("runs")?,
            Ok(runs) => {
                Ok(read_from(alloc, image, geometry, runs, clusters, sink).ok_or("a stream")?)
            }
        },
    }
}

/// Bytes that are wanted: so many from the first of a cluster on, and then zeros.
#[derive(Clone, Copy)]
struct Piece {
    cluster: u8,
    count: u16,
    zeros: u16,
}

/// So many bytes from the first of a cluster on, and then zeros.
fn from_cluster(cluster: u8, count: u16, zeros: u16) -> Piece {
    Piece {
        cluster,
        count,
        zeros,
    }
}

fn bytes_of(alloc: Global, pieces: &[Piece]) -> Result<Vec<u8>, AllocError> {
    let mut bytes = Vec::new(alloc);
    for piece in pieces {
        let from = 1024 * usize::from(piece.cluster);
        for i in 0..piece.count {
            bytes.push(byte_at(from + usize::from(i)))?;
        }
        for _ in 0..piece.zeros {
            bytes.push(0)?;
        }
    }
    Ok(bytes)
}

/// The device calls before a stream's own: the geometry and record 16 are read.
const BEFORE: u64 = 2;

/// A stream, read by way of a buffer of so many clusters: how often is read and put, and what.
#[derive(Clone, Copy)]
struct Case<'a> {
    told: Told<'a>,
    buffer: u16,
    reads: u64,
    puts: u64,
    want: [Piece; 2],
}

fn reading(told: Told<'_>, buffer: u16, calls: (u64, u64), want: [Piece; 2]) -> Case<'_> {
    Case {
        told,
        buffer,
        reads: calls.0,
        puts: calls.1,
        want,
    }
}

/// So many bytes of the eight clusters, and then zeros.
fn eight(count: u16, zeros: u16) -> [Piece; 2] {
    [from_cluster(48, count, zeros), from_cluster(48, 0, 0)]
}

fn is_put(rt: &impl Abort, alloc: Global, case: Case<'_>) -> Result<(), Fail> {
    assert!(rt; 0 < case.buffer);
    let mut image = MemImage::new(alloc, with_runs(alloc, case.told)?);
    let mut sink = MemSink::new(alloc);
    let want = bytes_of(alloc, &case.want)?;
    assert_eq!(rt; read(alloc, &mut image, case.buffer, &mut sink)?, Ok(()));
    assert_eq!(rt; sink.content.as_slice(), want.as_slice());
    assert_eq!(rt; image.inside.calls.made.saturating_sub(BEFORE), case.reads);
    assert_eq!(rt; sink.calls.made, case.puts);
    Ok(())
}

#[test]
fn a_run_is_read_by_as_many_clusters_as_the_buffer_has(rt: HostRuntime) -> Result<(), Fail> {
    for (buffer, calls) in [
        (1, 8),
        (2, 4),
        (3, 3),
        (4, 2),
        (5, 2),
        (7, 2),
        (8, 1),
        (20, 1),
    ] {
        let case = reading(EIGHT, buffer, (calls, calls), eight(8192, 0));
        is_put(&rt, rt.alloc(), case)?;
    }
    Ok(())
}

#[test]
fn a_stream_ends_at_its_size(rt: HostRuntime) -> Result<(), Fail> {
    // The size, which is the initialised size too, of eight clusters; the buffer; how often is read.
    for (size, buffer, calls) in [
        // Nothing, a byte, within and at the end of a cluster, and within the last one.
        (0, 4, 0),
        (1, 4, 1),
        (1000, 1, 1),
        (2048, 4, 1),
        (2500, 8, 1),
        (4097, 4, 2),
        (7500, 3, 3),
    ] {
        let told = Told {
            size: u64::from(size),
            valid: u64::from(size),
            ..EIGHT
        };
        let case = reading(told, buffer, (calls, calls), eight(size, 0));
        is_put(&rt, rt.alloc(), case)?;
    }
    Ok(())
}

#[test]
fn what_is_not_initialised_is_zeros_and_not_read(rt: HostRuntime) -> Result<(), Fail> {
    // The initialised size, of 8,000 bytes of eight clusters; the buffer; how often is read and put; the zeros.
    for (valid, buffer, calls, zeros) in [
        (0, 4, (0, 2), 8000),
        (0, 1, (0, 8), 8000),
        // Within a cluster, in the middle of a row, at the end of a cluster and of a row, and within the second row.
        (1, 8, (1, 1), 7999),
        (1500, 4, (1, 2), 6500),
        (1500, 1, (2, 8), 6500),
        (2048, 4, (1, 2), 5952),
        (4096, 4, (1, 2), 3904),
        (4097, 4, (2, 2), 3903),
        (7999, 4, (2, 2), 1),
    ] {
        let told = Told {
            size: 8000,
            valid: u64::from(valid),
            ..EIGHT
        };
        is_put(
            &rt,
            rt.alloc(),
            reading(told, buffer, calls, eight(valid, zeros)),
        )?;
    }
    Ok(())
}

/// A hole of two clusters, and then cluster 50, of a sparse stream.
const HOLE_FIRST: Told<'static> = Told {
    flags: 0x8000,
    next: 3,
    size: 3072,
    valid: 3072,
    pairs: &[0x01, 0x02, 0x11, 0x01, 0x32, 0x00],
};

/// The same; cluster 50 isn't initialised.
const HOLE_ALONE: Told<'static> = Told {
    valid: 2048,
    ..HOLE_FIRST
};

/// Cluster 50, and then a hole of three.
const HOLE_LAST: Told<'static> = Told {
    next: 4,
    size: 3500,
    valid: 3500,
    pairs: &[0x11, 0x01, 0x32, 0x01, 0x03, 0x00],
    ..HOLE_FIRST
};

/// Two clusters from 50 on, and then two from 45 on.
const BACK: Told<'static> = Told {
    flags: 0,
    next: 4,
    size: 4096,
    valid: 4096,
    pairs: &[0x11, 0x02, 0x32, 0x11, 0x02, 0xFB, 0x00],
};

/// Two clusters from 50 on, and then two from 52 on.
const NEIGHBOURS: Told<'static> = Told {
    pairs: &[0x11, 0x02, 0x32, 0x11, 0x02, 0x02, 0x00],
    ..BACK
};

/// No cluster.
const EMPTY: Told<'static> = Told {
    flags: 0,
    next: 0,
    size: 0,
    valid: 0,
    pairs: &[0x00],
};

#[test]
fn holes_are_zeros_and_runs_follow_one_another(rt: HostRuntime) -> Result<(), Fail> {
    let none = from_cluster(50, 0, 0);
    let hole_first = [from_cluster(50, 0, 2048), from_cluster(50, 1024, 0)];
    let back = [from_cluster(50, 2048, 0), from_cluster(45, 2048, 0)];
    for case in [
        reading(EMPTY, 4, (0, 0), [none, none]),
        reading(HOLE_FIRST, 4, (1, 2), hole_first),
        reading(HOLE_FIRST, 1, (1, 3), hole_first),
        reading(HOLE_ALONE, 4, (0, 2), [from_cluster(50, 0, 3072), none]),
        reading(HOLE_LAST, 2, (1, 3), [from_cluster(50, 1024, 2476), none]),
        reading(BACK, 1, (4, 4), back),
        reading(BACK, 4, (2, 2), back),
        reading(NEIGHBOURS, 4, (2, 2), [from_cluster(50, 4096, 0), none]),
    ] {
        is_put(&rt, rt.alloc(), case)?;
    }
    Ok(())
}

#[test]
fn sizes_end_in_one_run_or_the_other(rt: HostRuntime) -> Result<(), Fail> {
    let none = from_cluster(50, 0, 0);
    let first = from_cluster(50, 2048, 0);
    // The sizes of two runs of two clusters each.
    for ((size, valid), calls, want) in [
        ((4096, 2500), (2, 2), [first, from_cluster(45, 452, 1596)]),
        ((4096, 2048), (1, 2), [from_cluster(50, 2048, 2048), none]),
        ((4096, 2000), (1, 2), [from_cluster(50, 2000, 2096), none]),
        ((2049, 2049), (2, 2), [first, from_cluster(45, 1, 0)]),
        ((2048, 2048), (1, 1), [first, none]),
        ((1025, 1025), (1, 1), [from_cluster(50, 1025, 0), none]),
    ] {
        let told = Told {
            size,
            valid,
            ..BACK
        };
        is_put(&rt, rt.alloc(), reading(told, 4, calls, want))?;
    }
    Ok(())
}

#[test]
fn a_value_is_put_at_once(rt: HostRuntime) -> Result<(), Fail> {
    let alloc = rt.alloc();
    for (length, want) in [
        (11, b"hello, ntfs".as_slice()),
        (5, b"hello".as_slice()),
        (0, b"".as_slice()),
    ] {
        let mut image = MemImage::new(alloc, with_value(alloc, 0, length)?);
        let mut sink = MemSink::new(alloc);
        assert_eq!(rt; read(alloc, &mut image, 1, &mut sink)?, Ok(()));
        assert_eq!(rt; sink.content.as_slice(), want);
        assert_eq!(rt; image.inside.calls.made, BEFORE);
        assert_eq!(rt; sink.calls.made, 1);
    }
    Ok(())
}

#[test]
fn compressed_and_encrypted_streams_are_refused(rt: HostRuntime) -> Result<(), Fail> {
    let alloc = rt.alloc();
    for flags in [0x0001, 0x00FF, 0x4000, 0x8001, 0xC000] {
        let volumes = [
            with_runs(alloc, Told { flags, ..EIGHT })?,
            with_value(alloc, flags, 5)?,
        ];
        for bytes in volumes {
            let mut image = MemImage::new(alloc, bytes);
            let mut sink = MemSink::new(alloc);
            let result = read(alloc, &mut image, 4, &mut sink)?;
            assert_eq!(rt; result, Err(StreamFault::NotPlain { flags }));
            assert_eq!(rt; image.inside.calls.made, BEFORE);
            assert_eq!(rt; sink.calls.made, 0);
        }
    }
    Ok(())
}

#[test]
fn each_read_failing_alone_leaves_a_prefix(rt: HostRuntime) -> Result<(), Fail> {
    let alloc = rt.alloc();
    for (failing, count) in [(1, 0), (2, 3072), (3, 6144)] {
        let mut image = MemImage::new(alloc, with_runs(alloc, EIGHT)?);
        image
            .inside
            .calls
            .fail(alloc, BEFORE + failing, Leaves::Before)?;
        let mut sink = MemSink::new(alloc);
        let want = bytes_of(alloc, &[from_cluster(48, count, 0)])?;
        assert_eq!(rt;
            read(alloc, &mut image, 3, &mut sink)?,
            Err(StreamFault::ReadFault)
        );
        assert_eq!(rt; sink.content.as_slice(), want.as_slice());
        assert_eq!(rt; image.inside.calls.made, BEFORE + failing);
    }
    Ok(())
}

#[test]
fn each_put_failing_alone_leaves_a_prefix(rt: HostRuntime) -> Result<(), Fail> {
    let alloc = rt.alloc();
    for (failing, leaves, count) in [
        (1, Leaves::Before, 0),
        (1, Leaves::Front { bytes: 7 }, 7),
        (1, Leaves::Asked, 3072),
        (2, Leaves::Before, 3072),
        (2, Leaves::Front { bytes: 3000 }, 6072),
        (3, Leaves::Front { bytes: 1 }, 6145),
        (3, Leaves::Asked, 8192),
    ] {
        let mut image = MemImage::new(alloc, with_runs(alloc, EIGHT)?);
        let mut sink = MemSink::new(alloc);
        sink.calls.fail(alloc, failing, leaves)?;
        let want = bytes_of(alloc, &[from_cluster(48, count, 0)])?;
        assert_eq!(rt;
            read(alloc, &mut image, 3, &mut sink)?,
            Err(StreamFault::WriteFault)
        );
        assert_eq!(rt; sink.content.as_slice(), want.as_slice());
        assert_eq!(rt; sink.calls.made, failing);
    }
    Ok(())
}

#[test]
fn the_put_of_a_value_failing_leaves_a_prefix(rt: HostRuntime) -> Result<(), Fail> {
    let alloc = rt.alloc();
    for (leaves, want) in [
        (Leaves::Before, b"".as_slice()),
        (Leaves::Front { bytes: 3 }, b"hel".as_slice()),
        (Leaves::Asked, b"hello".as_slice()),
    ] {
        let mut image = MemImage::new(alloc, with_value(alloc, 0, 5)?);
        let mut sink = MemSink::new(alloc);
        sink.calls.fail(alloc, 1, leaves)?;
        assert_eq!(rt;
            read(alloc, &mut image, 1, &mut sink)?,
            Err(StreamFault::WriteFault)
        );
        assert_eq!(rt; sink.content.as_slice(), want);
    }
    Ok(())
}
