//! `ntfscat` and `ntfsmake` where there is much: clusters above 4,096 bytes, more than a mebibyte, more than 4,096
//! clusters. With ample memory the work is done.
use crate::case::{Case, Image, NO_FAULT, all_answer, run_over};
use crate::volume::{Attribute, FIRST, Patch, Record, image_of, write_records};
use ntfs_run::Status;
use std::alloc::Global;
use std::test::Fail;

const CAT: [&str; 4] = ["ntfscat", "-i", "16", "v"];

/// Record 16 with these attributes.
fn record_16<'a>(attributes: &'a [Attribute<'a>]) -> Record<'a> {
    Record {
        number: 16,
        attributes,
        ..FIRST
    }
}

/// The length of a volume with $MFT at 65,536, the stream at 131,072, and one cluster more.
const WIDE_LEN: usize = 327_680;

/// The size of a cluster: in sectors, how many of them $MFT takes, the first of these, and how many the stream takes,
/// which is also the first of these.
type Clusters = [u8; 4];

/// The boot sector of a volume of 512 sectors in clusters of this size.
fn wide_boot(alloc: Global, [sectors, _, table, _]: Clusters) -> Option<Vec<u8>> {
    let patches: [Patch; 8] = [
        (0x03, b"NTFS    "),
        (0x0B, &[0x00, 0x02]),
        (0x0D, &[sectors]),
        (0x28, &[0x00, 0x02]),
        (0x30, &[table]),
        (0x38, &[table]),
        (0x40, &[0xF6]),
        (0x44, &[0xF4]),
    ];
    image_of(alloc, 61_440, &patches)
}

/// A volume whose stream has 65,536 bytes `1` and then bytes `2`, of which four are initialised. Allocated sizes, which
/// no tool reads, are those of clusters of 1,024 bytes.
fn wide(alloc: Global, clusters: Clusters) -> Option<Vec<u8>> {
    let [_, count, table, cells] = clusters;
    let first = [Attribute::Runs {
        clusters: u64::from(count),
        size: 32_768,
        valid: 32_768,
        pairs: &[0x11, count, table, 0],
    }];
    let stream = [Attribute::Runs {
        clusters: u64::from(cells),
        size: 100_000,
        valid: 65_540,
        pairs: &[0x11, cells, cells, 0],
    }];
    let records = [
        Record {
            attributes: &first,
            ..FIRST
        },
        record_16(&stream),
    ];
    let mut table = image_of(alloc, 69_632, &[])?;
    write_records(&mut table, &records)?;
    let mut bytes = wide_boot(alloc, clusters)?;
    bytes.extend_from_slice(&table).ok()?;
    bytes.resize(196_608, b'1').ok()?;
    bytes.resize(262_144, b'2').ok()?;
    bytes.resize(WIDE_LEN, 0).ok()?;
    Some(bytes)
}

#[test]
fn streams_of_large_clusters_are_put(rt: HostRuntime) -> Result<(), Fail> {
    let alloc = rt.alloc();
    let mut want = Vec::new(alloc);
    want.resize(65_536, b'1')?;
    want.resize(65_540, b'2')?;
    want.resize(100_000, 0)?;
    for clusters in [[16, 4, 8, 16], [32, 2, 4, 8], [64, 1, 2, 4], [128, 1, 1, 2]] {
        let base = wide(alloc, clusters).ok_or("no image")?;
        let case = Case::puts(&CAT, Image::of(WIDE_LEN), &want);
        all_answer(&rt, alloc, &base, &[case])?;
    }
    Ok(())
}

/// The boot sector of a volume of 5,200 clusters of 512 bytes, with $MFT at cluster 8.
const MANY_BOOT: [Patch; 8] = [
    (0x03, b"NTFS    "),
    (0x0B, &[0x00, 0x02]),
    (0x0D, &[1]),
    (0x28, &[0x50, 0x14]),
    (0x30, &[8]),
    (0x38, &[8]),
    (0x40, &[0xF6]),
    (0x44, &[0xF4]),
];

/// The length of that volume, with one cluster more for the copy of the boot sector.
const MANY_LEN: usize = 2_662_912;

/// $MFT in 64 clusters.
const MANY_FIRST: Record = Record {
    attributes: &[Attribute::Runs {
        clusters: 64,
        size: 32_768,
        valid: 32_768,
        pairs: &[0x11, 0x40, 0x08, 0],
    }],
    ..FIRST
};

/// 5,000 clusters from cluster 100 on.
const MANY_CELLS: [Attribute; 1] = [Attribute::Runs {
    clusters: 5000,
    size: 2_560_000,
    valid: 2_560_000,
    pairs: &[0x12, 0x88, 0x13, 0x64, 0],
}];

/// That volume, whose stream has half its bytes `1` and half `2`.
fn many(alloc: Global) -> Option<Vec<u8>> {
    let mut bytes = image_of(alloc, 51_200, &MANY_BOOT)?;
    write_records(&mut bytes, &[MANY_FIRST, record_16(&MANY_CELLS)])?;
    bytes.resize(1_331_200, b'1').ok()?;
    bytes.resize(2_611_200, b'2').ok()?;
    Some(bytes)
}

#[test]
fn a_stream_of_many_clusters_is_put(rt: HostRuntime) -> Result<(), Fail> {
    let alloc = rt.alloc();
    let mut want = Vec::new(alloc);
    want.resize(1_280_000, b'1')?;
    want.resize(2_560_000, b'2')?;
    let base = many(alloc).ok_or("no image")?;
    let case = Case::puts(&CAT, Image::of(MANY_LEN), &want);
    all_answer(&rt, alloc, &base, &[case])
}

#[test]
fn volumes_of_large_and_of_many_clusters_are_made(rt: HostRuntime) -> Result<(), Fail> {
    let alloc = rt.alloc();
    for (words, len) in [
        (["ntfsmake", "v", "2", "1024", "8192"], 8_396_800),
        (["ntfsmake", "v", "3", "5000", "512"], 2_560_512),
    ] {
        let ran = run_over(alloc, &words, None, NO_FAULT)?;
        assert_eq!(rt; ran.status, Status::Done);
        let content = ran.shelf.content("v").ok_or("no file")?;
        assert_eq!(rt; content.len(), len);
    }
    Ok(())
}
