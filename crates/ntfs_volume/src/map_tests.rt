//! Volumes opened: $MFT's map in one extent and in several, what is wrong with it, and its records one after another.
ghost use Rattle.std.specs.Prelude.{◌≡◌};
ghost use Rattle.ntfs_volume.specs.Opened.{HasClusters};

use crate::made::{Entry, Made, Shape, Told, entry, image, patch};
use crate::{Table, VolumeFault, open_volume, read_table};
use ntfs_base::{Image, Leaves, MemImage, Rule};
use std::alloc::{AllocError, Global};
use std::process::Abort;
use std::test::Fail;

/// $MFT in one extent of 16 records.
const WHOLE: Told<'static> = Told {
    kind: 0x80,
    name: b"",
    units: 0,
    flags: 0,
    instance: 1,
    lowest: 0,
    next: 16,
    size: 16_384,
    valid: 16_384,
    pairs: &[0x11, 16, 4, 0],
};

/// The first of three extents.
const FIRST: Told<'static> = Told {
    next: 8,
    pairs: &[0x11, 8, 4, 0],
    ..WHOLE
};

const SECOND: Told<'static> = Told {
    instance: 2,
    lowest: 8,
    next: 12,
    size: 0,
    valid: 0,
    pairs: &[0x11, 4, 20, 0],
    ..WHOLE
};

const THIRD: Told<'static> = Told {
    instance: 3,
    lowest: 12,
    next: 16,
    pairs: &[0x11, 4, 30, 0],
    ..SECOND
};

/// A list in two clusters.
const LIST: Told<'static> = Told {
    kind: 0x20,
    instance: 9,
    next: 2,
    size: 96,
    valid: 96,
    pairs: &[0x11, 2, 50, 0],
    ..WHOLE
};

/// The reference of record 0.
const BASE: u64 = 3 << 48;

const ENTRIES: [Entry<'static>; 3] = [(FIRST, BASE), (SECOND, BASE | 5), (THIRD, BASE | 9)];

/// A volume of 64 clusters of 1,024 bytes, whose $MFT has three extents.
const THREE: Shape<'static> = Shape {
    sectors: 2,
    clusters: 64,
    runs: &[(4, 8), (20, 4), (30, 4)],
};

/// The clusters of the three extents.
const CLUSTERS: [u64; 16] = [4, 5, 6, 7, 8, 9, 10, 11, 20, 21, 22, 23, 30, 31, 32, 33];

/// The places of records in the image.
const RECORD_0: usize = 4096;

const RECORD_5: usize = 9216;

const RECORD_9: usize = 21_504;

/// The records of $MFT in three extents: the second stands in record 5, and the third in record 9, which lies in the
/// second. The list of record 0 is resident, or there are so many lists that aren't.
fn three(alloc: Global, lists: u8) -> Result<Made, AllocError> {
    let mut made = Made::new(alloc, 16)?;
    for number in 0..16u8 {
        made.begin(number, if number == 5 || number == 9 { BASE } else { 0 });
        if number == 0 {
            if lists == 0 {
                made.list(&ENTRIES);
            }
            for _ in 0..lists {
                made.runs(LIST);
            }
            made.runs(FIRST);
        }
        if number == 5 {
            made.runs(SECOND);
        }
        if number == 9 {
            made.runs(THIRD);
        }
        made.end();
    }
    Ok(made)
}

/// The image of these records, with the list in its clusters too.
fn volume(alloc: Global, lists: u8) -> Result<Vec<u8>, AllocError> {
    let made = three(alloc, lists)?;
    let mut bytes = image(alloc, THREE, &made.table)?;
    for (k, (told, reference)) in ENTRIES.iter().enumerate() {
        entry(&mut bytes, 51_200 + 32 * k, *told, *reference);
    }
    Ok(bytes)
}

/// Reads the map at a type that is known by its bound alone.
fn table_of<G: Image>(alloc: Global, image: &mut G) -> Result<Table, VolumeFault> {
    read_table(alloc, image)
}

/// The map that the bytes of a volume give.
fn map_of(alloc: Global, bytes: Vec<u8>) -> Result<Table, VolumeFault> {
    let mut image = MemImage::new(alloc, bytes);
    table_of(alloc, &mut image)
}

/// Opens a volume and reads a record: how many there are.
fn open_and_read<G: Image>(
    alloc: Global,
    image: &mut G,
    number: u64,
    into: &mut [u8],
) -> Result<u64, VolumeFault> {
    let mut volume = open_volume(alloc, image)?;
    if into.len() != volume.geometry().record_size as usize {
        return Err(VolumeFault::NoMemory);
    }
    volume.read_record(number, into)?;
    Ok(volume.record_count())
}

/// The bytes of all records as a scan gives them, through a buffer of so many bytes, and how often a read failed.
fn scan_all<G: Image>(
    alloc: Global,
    image: &mut G,
    table: &Table,
    room: usize,
) -> Result<(Vec<u8>, u64), AllocError>
    requires { HasClusters (G.seen image.old).size table.now }
{
    let mut buffer = vec![in alloc; 0; room]?;
    let mut bytes = Vec::new(alloc);
    let mut faults: u64 = 0;
    let mut scan = table.scan();
    'fills: for _ in 0..99 {
        let first = scan.next_number();
        match scan.fill(image, &mut buffer) {
            Err(_) => faults = faults.saturating_add(1),
            Ok(count) => {
                if count == 0 || scan.next_number() != first.saturating_add(count) {
                    return Ok((bytes, faults));
                }
                if let Some(front) = buffer.get(..1024_u64.saturating_mul(count) as usize) {
                    bytes.extend_from_slice(front)?;
                }
            }
        }
    }
    Ok((bytes, faults))
}

/// The same of a volume that is opened first; nothing is scanned where it can't be.
fn scanned<G: Image>(
    alloc: Global,
    image: &mut G,
    room: usize,
) -> Result<(Vec<u8>, u64), AllocError> {
    match read_table(alloc, image) {
        Err(_) => Ok((Vec::new(alloc), 0)),
        Ok(table) => scan_all(alloc, image, &table, room),
    }
}

/// The map has these clusters and no more.
fn has_clusters(table: &Table, wanted: &[u64]) -> bool {
    for (k, cluster) in wanted.iter().enumerate() {
        if table.record_cluster(k as u64) != Some(*cluster) {
            return false;
        }
    }
    table.record_cluster(wanted.len() as u64).is_none()
}

/// The map of a volume with these records has these clusters, and so many of its 16 records are initialised: these are
/// read, and a scan gives them all.
fn is_read(
    rt: &impl Abort,
    alloc: Global,
    bytes: Vec<u8>,
    records: &[u8],
    wanted: &[u64],
    there: u64,
) -> Result<(), AllocError> {
    let mut image = MemImage::new(alloc, bytes);
    match table_of(alloc, &mut image) {
        Err(fault) => assert_eq!(rt; Some(fault), None),
        Ok(table) => {
            assert!(rt; has_clusters(&table, wanted));
            assert_eq!(rt;
                (table.record_count(), table.initialised_count()),
                (16, there)
            );
        }
    }
    for number in 0..17 {
        let mut block = [0; 1024];
        let want = if number < there {
            Ok(16)
        } else {
            Err(VolumeFault::Absent)
        };
        assert_eq!(rt; open_and_read(alloc, &mut image, number, &mut block), want);
        if number < there {
            assert_eq!(rt;
                (block[0x2C] as u64, block[510], block[1022]),
                (number, 0, 0)
            );
        }
    }
    for room in [1024, 2500, 20_000] {
        let (given, faults) = scanned(alloc, &mut image, room)?;
        assert_eq!(rt;
            Some(given.as_slice()),
            records.get(..1024 * there as usize)
        );
        assert_eq!(rt; faults, 0);
    }
    Ok(())
}

/// $MFT in one extent: where it lies, the clusters that it has, and how many records are initialised.
struct Case<'a> {
    shape: Shape<'a>,
    told: Told<'a>,
    clusters: &'a [u64],
    there: u64,
}

/// Records that are as large as a cluster, in one run and in two; twice as large, in eight runs of which some end
/// amid a record; a fourth as large, in two runs; and an initialised part that ends amid a record.
const CASES: [Case<'static>; 4] = [
    Case {
        shape: Shape {
            sectors: 2,
            clusters: 64,
            runs: &[(4, 16)],
        },
        told: Told {
            valid: 11_999,
            ..WHOLE
        },
        clusters: &[4, 5, 6, 7, 8, 9, 10, 11, 12, 13, 14, 15, 16, 17, 18, 19],
        there: 11,
    },
    Case {
        shape: Shape {
            sectors: 2,
            clusters: 64,
            runs: &[(40, 9), (30, 7)],
        },
        told: Told {
            pairs: &[0x11, 9, 40, 0x11, 7, 0xF6, 0],
            ..WHOLE
        },
        clusters: &[
            40, 41, 42, 43, 44, 45, 46, 47, 48, 30, 31, 32, 33, 34, 35, 36,
        ],
        there: 16,
    },
    Case {
        shape: Shape {
            sectors: 1,
            clusters: 99,
            runs: &[
                (8, 3),
                (12, 5),
                (20, 3),
                (30, 5),
                (40, 3),
                (50, 5),
                (60, 3),
                (70, 5),
            ],
        },
        told: Told {
            next: 32,
            pairs: &[
                0x11, 3, 8, 0x11, 5, 4, 0x11, 3, 8, 0x11, 5, 10, 0x11, 3, 10, 0x11, 5, 10, 0x11, 3,
                10, 0x11, 5, 10, 0,
            ],
            ..WHOLE
        },
        clusters: &[
            8, 9, 10, 12, 13, 14, 15, 16, 20, 21, 22, 30, 31, 32, 33, 34, 40, 41, 42, 50, 51, 52,
            53, 54, 60, 61, 62, 70, 71, 72, 73, 74,
        ],
        there: 16,
    },
    Case {
        shape: Shape {
            sectors: 8,
            clusters: 16,
            runs: &[(9, 3), (4, 1)],
        },
        told: Told {
            next: 4,
            pairs: &[0x11, 3, 9, 0x11, 1, 0xFB, 0],
            ..WHOLE
        },
        clusters: &[9, 10, 11, 4],
        there: 16,
    },
];

#[test]
fn a_map_of_one_extent_is_read(rt: HostRuntime) -> Result<(), Fail> {
    let alloc = rt.alloc();
    for case in &CASES {
        let mut made = Made::new(alloc, 16)?;
        for number in 0..16 {
            made.begin(number, 0);
            if number == 0 {
                made.runs(case.told);
            }
            made.end();
        }
        let bytes = image(alloc, case.shape, &made.table)?;
        is_read(&rt, alloc, bytes, &made.table, case.clusters, case.there)?;
    }
    Ok(())
}

#[test]
fn a_map_by_a_list_is_read(rt: HostRuntime) -> Result<(), Fail> {
    let alloc = rt.alloc();
    for lists in [0, 1] {
        let made = three(alloc, lists)?;
        let bytes = volume(alloc, lists)?;
        is_read(&rt, alloc, bytes, &made.table, &CLUSTERS, 16)?;
    }
    // An entry tells another turn, the record in which an extent stands another number, and an entry of another type
    // a record that isn't there; the map has 12 records at least.
    let changes: [(usize, &[u8]); 4] = [
        (RECORD_0 + 80 + 32 + 0x16, &[9]),
        (RECORD_5 + 0x2C, &[77]),
        (
            RECORD_0 + 80,
            &[0x90, 0, 0, 0, 32, 0, 0, 26, 0, 0, 0, 0, 0, 0, 0, 0, 99],
        ),
        (RECORD_0 + 176 + 0x30, &[0, 0x30, 0, 0, 0, 0, 0, 0, 0, 0x30]),
    ];
    for (place, text) in changes {
        let mut bytes = volume(alloc, 0)?;
        patch(&mut bytes, place, text);
        match map_of(alloc, bytes) {
            Err(fault) => assert_eq!(&rt; Some(fault), None),
            Ok(table) => assert!(&rt; has_clusters(&table, &CLUSTERS)),
        }
    }
    Ok(())
}

/// A text at a place of a volume leaves it without a map, by what stands in a record.
type Damage<'a> = (usize, &'a [u8], u64);

fn are_refused(
    rt: &impl Abort,
    alloc: Global,
    lists: u8,
    damages: &[Damage<'_>],
) -> Result<(), AllocError> {
    for (place, text, number) in damages {
        let mut bytes = volume(alloc, lists)?;
        patch(&mut bytes, *place, text);
        let want = VolumeFault::Damaged {
            rule: Rule::C3,
            number: *number,
        };
        match map_of(alloc, bytes) {
            Err(fault) => assert_eq!(rt; fault, want, "at {place}"),
            Ok(_) => assert_eq!(rt; Some(want), None, "at {place}"),
        }
    }
    Ok(())
}

#[test]
fn wrong_records_0_give_no_map(rt: HostRuntime) -> Result<(), Fail> {
    let data = RECORD_0 + 176;
    let damages: [Damage<'_>; 10] = [
        // Not in use, and torn.
        (RECORD_0 + 0x16, &[0], 0),
        (RECORD_0 + 510, &[6], 0),
        // No data; resident; and none that begins at VCN 0.
        (data, &[0x90], 0),
        (data + 8, &[0, 0, 24, 0, 0, 0, 1, 0, 5, 0, 0, 0, 24], 0),
        (data + 0x10, &[1], 0),
        // A hole, and a cluster at the number of clusters.
        (data + 72, &[0x01, 8, 0], 0),
        (data + 74, &[57], 0),
        // Too few records; a size above the clusters' bytes; and an initialised size above the size.
        (data + 0x30, &[0xFF, 0x2F, 0, 0, 0, 0, 0, 0, 0xFF, 0x2F], 0),
        (data + 0x30, &[1, 0x40], 0),
        (data + 0x38, &[1, 0x40], 0),
    ];
    are_refused(&rt, rt.alloc(), 0, &damages)?;
    Ok(())
}

#[test]
fn wrong_lists_give_no_map(rt: HostRuntime) -> Result<(), Fail> {
    let (second, third) = (RECORD_0 + 80 + 32, RECORD_0 + 80 + 64);
    let damages: [Damage<'_>; 9] = [
        // The list is cut, and an entry has no length.
        (RECORD_0 + 56 + 0x10, &[95], 0),
        (second + 4, &[0], 0),
        // The second extent begins behind the first's end, or before it.
        (second + 8, &[9], 0),
        (RECORD_0 + 176 + 73, &[9], 0),
        // It has another instance; stands in a record that isn't known yet; or in record 0.
        (second + 0x18, &[7], 0),
        (second + 0x10, &[9], 0),
        (second + 0x10, &[0], 0),
        // The third stands in a record that it holds itself, or in one that isn't initialised whole.
        (third + 0x10, &[12], 0),
        (RECORD_0 + 176 + 0x38, &[0xFF, 0x27], 0),
    ];
    are_refused(&rt, rt.alloc(), 0, &damages)?;
    let damages: [Damage<'_>; 7] = [
        // Of a list that isn't resident: no third entry is initialised; the sizes don't fit.
        (RECORD_0 + 56 + 0x38, &[64], 0),
        (RECORD_0 + 56 + 0x38, &[97], 0),
        (RECORD_0 + 56 + 0x30, &[1, 8], 0),
        (RECORD_0 + 56 + 0x30, &[1, 0, 0, 1], 0),
        // Wrong pairs; another number of VCNs; and VCNs from 1 on.
        (RECORD_0 + 56 + 72, &[0x91], 0),
        (RECORD_0 + 56 + 0x18, &[2], 0),
        (RECORD_0 + 56 + 0x10, &[1], 0),
    ];
    are_refused(&rt, rt.alloc(), 1, &damages)?;
    // Two lists of one name, of which both are right.
    are_refused(&rt, rt.alloc(), 2, &[(0, &[], 0)])?;
    Ok(())
}

#[test]
fn wrong_extension_records_give_no_map(rt: HostRuntime) -> Result<(), Fail> {
    let damages: [Damage<'_>; 9] = [
        // Not in use; torn; of another base, of another turn of record 0, and without a base.
        (RECORD_5 + 0x16, &[0], 0),
        (RECORD_5 + 510, &[6], 0),
        (RECORD_5 + 0x20, &[18], 0),
        (RECORD_5 + 0x26, &[2], 0),
        (RECORD_5 + 0x26, &[0], 0),
        // Another type, lowest VCN and instance, and a resident attribute of this instance.
        (RECORD_5 + 56, &[0x90], 0),
        (RECORD_5 + 56 + 0x10, &[9], 0),
        (RECORD_5 + 56 + 0x0E, &[7], 0),
        (
            RECORD_5 + 56 + 8,
            &[0, 0, 24, 0, 0, 0, 2, 0, 5, 0, 0, 0, 24],
            0,
        ),
    ];
    are_refused(&rt, rt.alloc(), 0, &damages)?;
    let damages: [Damage<'_>; 4] = [
        // A hole, a cluster at the number of clusters, and wrong pairs, in the record in which they stand.
        (RECORD_5 + 56 + 72, &[0x01, 4, 0], 5),
        (RECORD_5 + 56 + 74, &[61], 5),
        (RECORD_5 + 56 + 72, &[0x91], 5),
        (RECORD_9 + 56 + 72, &[0x01, 4, 0], 9),
    ];
    are_refused(&rt, rt.alloc(), 0, &damages)?;
    Ok(())
}

#[test]
fn volumes_are_opened_or_refused(rt: HostRuntime) -> Result<(), Fail> {
    let alloc = rt.alloc();
    // The boot sector, record 0, the list, records 5 and 9, and then record 15 are read.
    let cases = [
        (3, b'N', 99, Ok(16)),
        (3, b'n', 99, Err(VolumeFault::NotNtfs)),
        (3, b'N', 1, Err(VolumeFault::ReadFault)),
        (3, b'N', 2, Err(VolumeFault::ReadFault)),
        (3, b'N', 3, Err(VolumeFault::ReadFault)),
        (3, b'N', 4, Err(VolumeFault::ReadFault)),
        (3, b'N', 5, Err(VolumeFault::ReadFault)),
        (3, b'N', 6, Err(VolumeFault::ReadFault)),
        (3, b'N', 7, Ok(16)),
    ];
    for (place, byte, failing, want) in cases {
        let mut bytes = volume(alloc, 1)?;
        patch(&mut bytes, place, &[byte]);
        let mut image = MemImage::new(alloc, bytes);
        image.inside.calls.fail(alloc, failing, Leaves::Before)?;
        let mut block = [0; 1024];
        let found = open_and_read(alloc, &mut image, 15, &mut block);
        assert_eq!(rt; found, want, "call {failing}");
    }
    Ok(())
}

#[test]
fn a_scan_that_fails_goes_on_where_it_stood(rt: HostRuntime) -> Result<(), Fail> {
    let alloc = rt.alloc();
    let made = three(alloc, 0)?;
    // Four reads open the volume, and each row of clusters takes one: through this buffer, five records at a time,
    // these are 1, 2, 2 and 1. What a failing read cut off is read again.
    for (failing, faults, reads) in [(99, 0, 10), (5, 1, 11), (7, 1, 12), (8, 1, 11)] {
        let mut image = MemImage::new(alloc, volume(alloc, 0)?);
        image.inside.calls.fail(alloc, failing, Leaves::Before)?;
        let (given, met) = scanned(alloc, &mut image, 5 * 1024)?;
        assert_eq!(rt; given.as_slice(), made.table.as_slice());
        assert_eq!(rt; (met, image.inside.calls.made), (faults, reads));
    }
    Ok(())
}
