// The expected bytes are those of the format (the Linux-NTFS documentation) and of the tables; the sums are those of
// bench/make_reference.py, an independent generator that was written from the rules in words.
ghost use Rattle.std.specs.Prelude.{◌≡◌, ◌+◌, ◌*◌, [], IfOk, replicate};
ghost use Rattle.ntfs_base.specs.Memory.{seen_of};

use crate::{MakeFault, is_in_range, make};
use ntfs_base::{Leaves, MemImage};
use std::alloc::{AllocError, Global};
use std::process::Abort;
use std::test::Fail;

mod streams;

fn zeros(alloc: Global, count: usize) -> Result<Vec<u8>, AllocError>
    ensures { IfOk result (λ bytes. bytes.items ≡ replicate count 0) }
{
    vec![in alloc; 0; count]
}

// An image of zeros for so many clusters of so many bytes.
fn blank(alloc: Global, clusters: u32, cluster: u32) -> Result<MemImage, AllocError>
    ensures content { IfOk result (λ image. (seen_of [] image.inside).content
        ≡ replicate ((clusters + 1) * cluster) 0) }
    ensures size { IfOk result (λ image. (seen_of [] image.inside).size ≡ (clusters + 1) * cluster) }
{
    let bytes = zeros(alloc, (clusters as usize + 1) * cluster as usize)?;
    Ok(MemImage::new(alloc, bytes))
}

// Makes a volume on an image of zeros.
fn attempt(
    rt: &impl Abort,
    alloc: Global,
    image: &mut MemImage,
    seed: u64,
    clusters: u32,
    cluster: u32,
) -> Result<(), MakeFault>
    requires content { (seen_of [] image.old.inside).content ≡ replicate ((clusters + 1) * cluster) 0 }
    requires size { (seen_of [] image.old.inside).size ≡ (clusters + 1) * cluster }
{
    assert!(rt; is_in_range(clusters, cluster));
    make(alloc, image, seed, clusters, cluster)
}

// A made volume.
pub(crate) fn volume(
    rt: &impl Abort,
    alloc: Global,
    seed: u64,
    clusters: u32,
    cluster: u32,
) -> Result<MemImage, Fail> {
    let mut image = blank(alloc, clusters, cluster)?;
    attempt(rt, alloc, &mut image, seed, clusters, cluster)?;
    Ok(image)
}

// The sum of all bytes, each times one more than its place modulo 65,521.
fn weighed_sum(bytes: &[u8]) -> u64 {
    let mut sum = 0u64;
    let mut weight = 0u64;
    'bytes: for byte in bytes {
        weight = if weight < 65521 { weight + 1 } else { 1 };
        sum = sum.wrapping_add(u64::from(*byte).wrapping_mul(weight));
    }
    sum
}

pub(crate) fn has(bytes: &[u8], place: usize, text: &[u8]) -> bool {
    match bytes.get(place..) {
        Some(rest) => rest.starts_with(text),
        None => false,
    }
}

#[test]
fn the_boot_sector_tells_the_volume(rt: HostRuntime) -> Result<(), Fail> {
    let image = volume(&rt, rt.alloc(), 0, 1024, 4096)?;
    let bytes = image.inside.bytes.as_slice();
    assert_eq!(rt; bytes.len(), 4_198_400);
    for (place, text) in [
        (0, b"\xEB\x52\x90NTFS    \x00\x02\x08\0\0".as_slice()),
        (0x10, b"\0\0\0\0\0\0\0\0\0\0\0\0\0\0\0\0".as_slice()),
        (0x20, b"\0\0\0\0\0\0\0\0\x00\x20\0\0\0\0\0\0".as_slice()),
        (0x30, b"\x03\0\0\0\0\0\0\0\x0C\0\0\0\0\0\0\0".as_slice()),
        (0x40, b"\xF6\0\0\0\xF4\0\0\0\0\0\0\0\0\0\0\0".as_slice()),
        (0x1F0, b"\0\0\0\0\0\0\0\0\0\0\0\0\0\0\x55\xAA".as_slice()),
        (
            8192 * 512,
            b"\xEB\x52\x90NTFS    \x00\x02\x08\0\0".as_slice(),
        ),
    ] {
        assert!(rt; has(bytes, place, text), "at {place}");
    }
    Ok(())
}

#[test]
fn record_16_has_a_name_and_a_text(rt: HostRuntime) -> Result<(), Fail> {
    let image = volume(&rt, rt.alloc(), 0, 1024, 4096)?;
    let bytes = image.inside.bytes.as_slice();
    for (place, text) in [
        (0x00, b"FILE\x30\0\x03\0\0\0\0\0\0\0\0\0".as_slice()),
        (
            0x10,
            b"\x01\0\x01\0\x38\0\x01\0\x40\x01\0\0\0\x04\0\0".as_slice(),
        ),
        (0x20, b"\0\0\0\0\0\0\0\0\x03\0\0\0\x10\0\0\0".as_slice()),
        (0x30, b"\x01\0\0\0\0\0\0\0\x10\0\0\0\x60\0\0\0".as_slice()),
        (0x40, b"\0\0\x18\0\0\0\0\0\x48\0\0\0\x18\0\0\0".as_slice()),
        (0x90, b"\0\0\0\0\0\0\0\0\x30\0\0\0\x78\0\0\0".as_slice()),
        (0xA0, b"\0\0\x18\0\0\0\x01\0\x5A\0\0\0\x18\0\0\0".as_slice()),
        (0xB0, b"\x05\0\0\0\0\0\x01\0\0\0\0\0\0\0\0\0".as_slice()),
        (0xF0, b"\x0C\x03r\0e\0s\0i\0d\0e\0n\0".as_slice()),
        (0x100, b"t\0.\0t\0x\0t\0\0\0\0\0\0\0".as_slice()),
        (
            0x110,
            b"\x80\0\0\0\x28\0\0\0\0\0\x18\0\0\0\x02\0".as_slice(),
        ),
        (0x120, b"\x0C\0\0\0\x18\0\0\0hello, n".as_slice()),
        (0x130, b"tfs\n\0\0\0\0\xFF\xFF\xFF\xFF\0\0\0\0".as_slice()),
        (0x1FE, b"\x01\0".as_slice()),
        (0x3FE, b"\x01\0".as_slice()),
    ] {
        assert!(rt;
            has(bytes, 3 * 4096 + 16 * 1024 + place, text),
            "at {place}"
        );
    }
    Ok(())
}

#[test]
fn the_bitmap_and_a_file_stand_at_their_clusters(rt: HostRuntime) -> Result<(), Fail> {
    let image = volume(&rt, rt.alloc(), 0, 1024, 4096)?;
    let bytes = image.inside.bytes.as_slice();
    assert!(rt; has(bytes, 31 * 4096, b"\xFB"));
    assert!(rt; has(bytes, 77 * 4096, b"\x12\x13\x14"));
    Ok(())
}

// Makes the volume of each seed, and compares its sum.
fn compares(
    rt: &impl Abort,
    alloc: Global,
    clusters: u32,
    cluster: u32,
    sums: &[(u64, u64)],
) -> Result<(), Fail> {
    'sums: for (seed, sum) in sums {
        let image = volume(rt, alloc, *seed, clusters, cluster)?;
        assert_eq!(rt;
            weighed_sum(&image.inside.bytes),
            *sum,
            "{seed} {clusters} {cluster}"
        );
    }
    Ok(())
}

#[test]
fn volumes_with_clusters_of_512_bytes(rt: HostRuntime) -> Result<(), Fail> {
    compares(
        &rt,
        rt.alloc(),
        2048,
        512,
        &[
            (0, 1220776471048),
            (1, 1220776471434),
            (2, 1195666829926),
            (3, 1195666830312),
            (4, 1219976296695),
            (5, 1219976297081),
            (6, 1196468789209),
            (7, 1196468789595),
        ],
    )
}

#[test]
fn volumes_with_clusters_of_512_bytes_and_more_seeds(rt: HostRuntime) -> Result<(), Fail> {
    compares(
        &rt,
        rt.alloc(),
        2048,
        512,
        &[
            (8, 1219709568116),
            (9, 1219709568502),
            (10, 1196736127006),
            (11, 1196736127392),
            (12, 1219976291449),
            (13, 1219976291835),
            (14, 1196468817267),
            (15, 1196468817653),
        ],
    )
}

#[test]
fn volumes_with_clusters_of_1024_bytes(rt: HostRuntime) -> Result<(), Fail> {
    compares(
        &rt,
        rt.alloc(),
        1024,
        1024,
        &[
            (0, 1308885409624),
            (1, 1308886287900),
            (2, 1303999808673),
            (3, 1304000891749),
            (5, 1314222837248),
            (6, 1300277084507),
            (7, 1300278169631),
        ],
    )
}

#[test]
fn volumes_with_clusters_of_2048_bytes(rt: HostRuntime) -> Result<(), Fail> {
    compares(
        &rt,
        rt.alloc(),
        1024,
        2048,
        &[
            (0, 1533920075127),
            (1, 1533922691711),
            (2, 1524009499225),
            (3, 1524012819297),
            (5, 1537405522305),
            (6, 1506288131747),
            (7, 1506291457963),
        ],
    )
}

#[test]
fn volumes_with_clusters_of_4096_bytes(rt: HostRuntime) -> Result<(), Fail> {
    compares(
        &rt,
        rt.alloc(),
        1024,
        4096,
        &[
            (0, 1930557403478),
            (1, 1930563554854),
            (2, 1894632652398),
            (3, 1894640549182),
            (5, 1980853853800),
            (6, 1904309268197),
            (7, 1904317179317),
        ],
    )
}

#[test]
fn volumes_with_clusters_of_8192_bytes(rt: HostRuntime) -> Result<(), Fail> {
    compares(
        &rt,
        rt.alloc(),
        1024,
        8192,
        &[
            (0, 2767618454756),
            (1, 2767631972932),
            (2, 2783768656516),
            (3, 2783786022372),
            (5, 2767884183560),
            (6, 2783603788790),
            (7, 2783621185366),
        ],
    )
}

#[test]
fn volumes_with_clusters_of_16384_bytes(rt: HostRuntime) -> Result<(), Fail> {
    compares(
        &rt,
        rt.alloc(),
        1024,
        16384,
        &[
            (0, 4415970389776),
            (1, 4415999878544),
            (2, 4549781482518),
            (3, 4549819018390),
            (5, 4417169969295),
            (6, 4548132161249),
            (7, 4548169760609),
        ],
    )
}

#[test]
fn volumes_with_clusters_of_32768_bytes(rt: HostRuntime) -> Result<(), Fail> {
    compares(
        &rt,
        rt.alloc(),
        1024,
        32768,
        &[
            (0, 7577187937726),
            (1, 7577246043774),
            (2, 7901391422339),
            (3, 7901465978947),
            (5, 7579071777256),
            (6, 7902999781304),
            (7, 7903074466936),
        ],
    )
}

#[test]
fn volumes_with_clusters_of_65536_bytes(rt: HostRuntime) -> Result<(), Fail> {
    compares(
        &rt,
        rt.alloc(),
        1024,
        65536,
        &[
            (0, 14553550916902),
            (1, 14553551941787),
            (2, 14510817719645),
            (3, 14510818491060),
            (5, 14553427993572),
            (6, 14510670269051),
            (7, 14510671038478),
        ],
    )
}

#[test]
fn volumes_of_other_counts_and_seeds(rt: HostRuntime) -> Result<(), Fail> {
    for (seed, clusters, cluster, sum) in [
        (987654321987654321, 2100, 1024, 1309064519165),
        (18446744073709551615, 1030, 2048, 1510106915158),
        (77, 1100, 8192, 2767793145508),
        (3, 5000, 512, 1206666679912),
        (6, 1500, 16384, 4530789987344),
        (9, 1024, 32768, 7576687161589),
    ] {
        compares(&rt, rt.alloc(), clusters, cluster, &[(seed, sum)])?;
    }
    Ok(())
}

// Whether each byte is 0 or that of the whole volume.
fn is_part(left: &[u8], whole: &[u8]) -> bool {
    left.iter()
        .zip(whole)
        .all(|(new, all)| *new == 0 || new == all)
}

// Makes a volume while the write of this number fails, and compares what it leaves with the whole volume.
fn fails_at(
    rt: &impl Abort,
    alloc: Global,
    number: u64,
    leaves: Leaves,
    clusters: u32,
    whole: &[u8],
) -> Result<(), Fail> {
    let mut image = blank(alloc, clusters, 512)?;
    image.inside.calls.fail(alloc, number, leaves)?;
    let result = attempt(rt, alloc, &mut image, 7, clusters, 512);
    assert_eq!(rt; result, Err(MakeFault::WriteFault));
    assert_eq!(rt; image.inside.faults.writes, 1);
    assert_eq!(rt; image.inside.faults.reads, 0);
    assert_eq!(rt; image.inside.calls.made, number);
    assert_eq!(rt; image.inside.bytes.len(), whole.len());
    assert!(rt; is_part(&image.inside.bytes, whole));
    Ok(())
}

#[test]
fn each_write_may_fail(rt: HostRuntime) -> Result<(), Fail> {
    let whole = volume(&rt, rt.alloc(), 7, 2048, 512)?;
    for number in 1..31 {
        fails_at(
            &rt,
            rt.alloc(),
            number,
            Leaves::Before,
            2048,
            &whole.inside.bytes,
        )?;
        fails_at(
            &rt,
            rt.alloc(),
            number,
            Leaves::Asked,
            2048,
            &whole.inside.bytes,
        )?;
    }
    Ok(())
}

#[test]
fn the_range_ends_where_it_is_said(rt: HostRuntime) -> Result<(), Fail> {
    for (clusters, cluster, is) in [
        (1023, 4096, false),
        (1024, 4096, true),
        (2047, 512, false),
        (2048, 512, true),
        (1024, 65536, true),
        (1024, 131072, false),
        (1024, 3072, false),
        (4096, 256, false),
        (1_048_576, 4096, true),
        (1_048_577, 4096, false),
    ] {
        assert_eq!(rt; is_in_range(clusters, cluster), is, "{clusters} {cluster}");
    }
    Ok(())
}

/// Makes a volume: whether it was made. Where it wasn't, memory was wanting. `tools/refused_memory.py` has each
/// allocation of it refused in turn.
fn making_is_whole(rt: &impl Abort, host: &HostRuntime) -> Result<bool, Fail> {
    let alloc = host.alloc();
    let Ok(mut image) = blank(alloc, 2048, 512) else {
        return Ok(false);
    };
    match attempt(rt, alloc, &mut image, 6, 2048, 512) {
        Ok(()) => Ok(true),
        Err(fault) => {
            assert_eq!(rt; fault, MakeFault::NoMemory);
            assert_eq!(rt; image.inside.bytes.len(), 1_049_088);
            assert_eq!(rt; image.inside.faults.writes, 0);
            Ok(false)
        }
    }
}

#[test]
fn with_ample_memory_a_volume_is_made(rt: HostRuntime) -> Result<(), Fail> {
    assert!(rt; making_is_whole(&rt, &rt)?);
    Ok(())
}
