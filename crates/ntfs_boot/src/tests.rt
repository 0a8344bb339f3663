//! Boot sectors: good ones of each sector size, each field's refusal, and the length that an image must have.
use crate::{BootFault, Geometry, ImageFault, read_geometry, read_volume_geometry};
use ntfs_base::{Image, Leaves, MemImage};
use std::alloc::{AllocError, Global};
use std::test::Fail;

/// Writes a text over the bytes, where it lies in them.
fn patch(bytes: &mut [u8], at: usize, text: &[u8]) {
    if at <= bytes.len() && text.len() <= bytes.len() - at {
        bytes[at..at + text.len()].copy_from_slice(text);
    }
}

/// 128 sectors of 512 bytes, two of them a cluster.
fn put_sector(bytes: &mut [u8]) {
    patch(bytes, 3, b"NTFS    ");
    patch(bytes, 0x0B, &[0, 2, 2]);
    patch(bytes, 0x28, &[128]);
    patch(bytes, 0x30, &[4]);
    patch(bytes, 0x38, &[60]);
    patch(bytes, 0x40, &[0xF6, 0, 0, 0, 4]);
    patch(bytes, 0x48, &[8, 7, 6, 5, 4, 3, 2, 1]);
}

const SMALL: Geometry = Geometry {
    sector: 512,
    cluster: 1024,
    record_size: 1024,
    block: 4096,
    sectors: 128,
    clusters: 64,
    mft: 4,
    mirror: 60,
    serial: 0x0102_0304_0506_0708,
};

/// The bytes of a sector and sectors of a cluster, the codes of the record and the block size, and the geometry.
const GOOD: [([u8; 3], [u8; 5], Geometry); 4] = [
    ([0, 2, 2], [0xF6, 0, 0, 0, 4], SMALL),
    (
        [0, 4, 4],
        [0xF6, 0, 0, 0, 1],
        Geometry {
            sector: 1024,
            cluster: 4096,
            clusters: 32,
            mirror: 31,
            ..SMALL
        },
    ),
    (
        [0, 8, 1],
        [1, 0, 0, 0, 0xF0],
        Geometry {
            sector: 2048,
            cluster: 2048,
            record_size: 2048,
            block: 65_536,
            clusters: 128,
            mirror: 124,
            ..SMALL
        },
    ),
    (
        [0, 16, 16],
        [0xF4, 0, 0, 0, 1],
        Geometry {
            sector: 4096,
            cluster: 65_536,
            record_size: 4096,
            block: 65_536,
            clusters: 8,
            mirror: 7,
            ..SMALL
        },
    ),
];

#[test]
fn sectors_of_each_size_are_good(rt: HostRuntime) {
    for (sizes, codes, want) in GOOD {
        let mut sector = [0; 512];
        put_sector(&mut sector);
        patch(&mut sector, 0x0B, &sizes);
        patch(&mut sector, 0x38, &want.mirror.to_le_bytes());
        patch(&mut sector, 0x40, &codes);
        assert_eq!(rt; read_geometry(&sector), Ok(want));
    }
}

#[test]
fn each_wrong_field_is_named_with_its_value(rt: HostRuntime) {
    let cases: [(usize, [u8; 3], u8, u64); 9] = [
        (0x0B, [0, 3, 2], 1, 768),
        (0x0B, [0, 2, 3], 2, 3),
        (0x0B, [0, 16, 32], 3, 131_072),
        (0x40, [0xF7, 0, 0], 4, 0xF7),
        (0x44, [0x80, 0, 0], 5, 0x80),
        (0x28, [1, 0, 0], 6, 1),
        (0x2D, [4, 0, 0], 6, 4_398_046_511_232),
        (0x30, [64, 0, 0], 7, 64),
        (0x38, [61, 0, 0], 8, 61),
    ];
    for (place, text, field, value) in cases {
        let mut sector = [0; 512];
        put_sector(&mut sector);
        patch(&mut sector, place, &text);
        assert_eq!(rt;
            read_geometry(&sector),
            Err(BootFault::BadGeometry { field, value })
        );
    }
    let mut sector = [0; 512];
    put_sector(&mut sector);
    patch(&mut sector, 10, b"5");
    assert_eq!(rt; read_geometry(&sector), Err(BootFault::NotNtfs));
}

/// Reads the geometry at a type that is known by its bound alone.
fn geometry_of<G: Image>(image: &mut G) -> Result<Geometry, ImageFault> {
    read_volume_geometry(image)
}

/// An image of this length that begins with the small volume's boot sector.
fn image(alloc: Global, len: usize) -> Result<MemImage, AllocError> {
    let mut bytes = vec![in alloc; 0; len]?;
    put_sector(&mut bytes);
    Ok(MemImage::new(alloc, bytes))
}

fn short(len: u64, need: u64) -> Result<Geometry, ImageFault> {
    Err(ImageFault::ImageShort { len, need })
}

#[test]
fn an_image_has_its_boot_sector_and_its_clusters(rt: HostRuntime) -> Result<(), Fail> {
    let alloc = rt.alloc();
    let cases = [
        (0, short(0, 512)),
        (511, short(511, 512)),
        (512, short(512, 65_536)),
        (65_535, short(65_535, 65_536)),
        (65_536, Ok(SMALL)),
        (66_048, Ok(SMALL)),
    ];
    for (len, want) in cases {
        assert_eq!(rt; geometry_of(&mut image(alloc, len)?), want);
    }
    let mut failing = image(alloc, 65_536)?;
    failing.inside.calls.fail(alloc, 1, Leaves::Before)?;
    assert_eq!(rt; geometry_of(&mut failing), Err(ImageFault::ReadFault));
    Ok(())
}
