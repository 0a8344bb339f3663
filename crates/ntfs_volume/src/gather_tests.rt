//! Streams gathered on a small volume: clusters of 1,024 bytes, $MFT from cluster 4 on.

use crate::made::{Entry, Made, Shape, Told, entry, image, patch};
use crate::{Stream, VolumeFault, open_volume};
use ntfs_base::{Image, Leaves, MemImage, Rule};
use ntfs_runs::Run;
use std::alloc::{AllocError, Global};
use std::process::Abort;
use std::test::Fail;

const SMALL: Shape<'static> = Shape {
    sectors: 2,
    clusters: 64,
    runs: &[(4, 32)],
};

/// $MFT of 32 records.
const TABLE: Told<'static> = Told {
    kind: 0x80,
    name: b"",
    units: 0,
    flags: 0,
    instance: 1,
    lowest: 0,
    next: 32,
    size: 32_768,
    valid: 32_768,
    pairs: &[0x11, 0x20, 0x04, 0x00],
};

/// One cluster, 50.
const ONE: Told<'static> = Told {
    next: 1,
    size: 1000,
    valid: 900,
    pairs: &[0x11, 0x01, 0x32, 0x00],
    ..TABLE
};

/// Behind it a hole of one cluster.
const HOLE: Told<'static> = Told {
    flags: 7,
    instance: 2,
    lowest: 1,
    next: 2,
    size: 5,
    valid: 5,
    pairs: &[0x01, 0x01, 0x00],
    ..TABLE
};

/// And then cluster 49.
const LAST: Told<'static> = Told {
    instance: 3,
    lowest: 2,
    next: 3,
    pairs: &[0x11, 0x01, 0x31, 0x00],
    ..HOLE
};

/// The reference of record 16 with its sequence number, 3.
const BASE: u64 = 3 << 48 | 16;

/// The places of records in the image, and of the entries of the list of record 16.
const RECORD_16: usize = 20_480;

const RECORD_17: usize = 21_504;

const RECORD_18: usize = 22_528;

const ENTRY_0: usize = RECORD_16 + 80;

const ENTRY_1: usize = ENTRY_0 + 32;

const ENTRY_2: usize = ENTRY_1 + 32;

/// What begins a volume: the record of $MFT, and then record 16.
fn begun(alloc: Global) -> Result<Made, AllocError> {
    let mut made = Made::new(alloc, 32)?;
    made.begin(0, 0);
    made.runs(TABLE);
    made.end();
    made.begin(16, 0);
    Ok(made)
}

/// An extension record of record 16 with this attribute alone.
fn extension(made: &mut Made, number: u8, told: Told<'_>) {
    made.begin(number, BASE);
    made.runs(told);
    made.end();
}

/// A stream of three extents: in the extension records 17 and 18, and at 176 in the base record 16. The list names
/// them, and with an unknown sequence number the base record itself.
fn volume(alloc: Global) -> Result<Vec<u8>, AllocError> {
    let entries: [Entry<'_>; 3] = [(ONE, 3 << 48 | 17), (HOLE, 3 << 48 | 18), (LAST, 16)];
    let mut made = begun(alloc)?;
    made.list(&entries);
    made.runs(LAST);
    made.end();
    extension(&mut made, 17, ONE);
    extension(&mut made, 18, HOLE);
    image(alloc, SMALL, &made.table)
}

/// Gathers a stream of record 16 at a type that is known by its bound alone.
fn gather_in<G: Image>(
    alloc: Global,
    image: &mut G,
    kind: u32,
    name: &[u8],
) -> Result<Stream, VolumeFault> {
    let mut volume = open_volume(alloc, image)?;
    volume.gather(alloc, 16, kind, name)
}

/// The stream of record 16 of this type and name, of a volume of these bytes.
fn gather_of(alloc: Global, bytes: Vec<u8>, kind: u32, name: &[u8]) -> Result<Stream, VolumeFault> {
    let mut image = MemImage::new(alloc, bytes);
    gather_in(alloc, &mut image, kind, name)
}

fn gather(alloc: Global, bytes: Vec<u8>) -> Result<Stream, VolumeFault> {
    gather_of(alloc, bytes, 0x80, b"")
}

/// What a stream has that isn't resident.
#[derive(Clone, Copy)]
struct Wanted<'a> {
    flags: u16,
    size: u64,
    valid: u64,
    first: (u64, u32),
    extents: u64,
    runs: &'a [(u64, Option<u64>)],
}

const THREE: Wanted<'static> = Wanted {
    flags: 0,
    size: 1000,
    valid: 900,
    first: (17, 56),
    extents: 3,
    runs: &[(1, Some(50)), (1, None), (1, Some(49))],
};

fn has_runs(list: &[Run], wanted: &[(u64, Option<u64>)]) -> bool {
    if list.len() != wanted.len() {
        return false;
    }
    for i in 0..list.len() {
        if i < wanted.len() && (list[i].length != wanted[i].0 || list[i].lcn != wanted[i].1) {
            return false;
        }
    }
    true
}

fn gives(rt: &impl Abort, found: Result<Stream, VolumeFault>, wanted: Wanted<'_>) {
    match found {
        Err(fault) => assert_eq!(rt; Some(fault), None),
        Ok(stream) => {
            assert_eq!(rt; stream.flags(), wanted.flags);
            assert_eq!(rt; stream.size(), wanted.size);
            assert_eq!(rt; stream.valid(), wanted.valid);
            assert!(rt; stream.value().is_none());
            assert_eq!(rt; stream.first(), wanted.first);
            assert_eq!(rt; stream.extents(), wanted.extents);
            let same = match stream.runs() {
                None => false,
                Some(list) => has_runs(list.runs(), wanted.runs),
            };
            assert!(rt; same);
        }
    }
}

/// The stream is the value of one attribute, at this place of a record.
fn gives_value(rt: &impl Abort, found: Result<Stream, VolumeFault>, first: (u64, u32)) {
    match found {
        Err(fault) => assert_eq!(rt; Some(fault), None),
        Ok(stream) => {
            assert_eq!(rt; stream.value(), Some(b"value".as_slice()));
            assert_eq!(rt;
                (stream.size(), stream.valid(), stream.extents()),
                (5, 5, 1)
            );
            assert_eq!(rt; stream.first(), first);
            assert!(rt; stream.runs().is_none());
        }
    }
}

fn refused(rt: &impl Abort, found: Result<Stream, VolumeFault>, fault: VolumeFault, at: usize) {
    match found {
        Err(other) => assert_eq!(rt; other, fault, "at {at}"),
        Ok(_) => assert_eq!(rt; Some(fault), None, "at {at}"),
    }
}

fn damaged(rule: Rule, number: u64) -> VolumeFault {
    VolumeFault::Damaged { rule, number }
}

#[test]
fn extents_of_three_records(rt: HostRuntime) -> Result<(), Fail> {
    let alloc = rt.alloc();
    gives(&rt, gather(alloc, volume(alloc)?), THREE);
    // An empty name may stand anywhere in a record, and at the end of an entry; the size may be that of all clusters.
    for (place, byte) in [(RECORD_17 + 56 + 0x0A, 200), (ENTRY_0 + 7, 32)] {
        let mut bytes = volume(alloc)?;
        patch(&mut bytes, place, &[byte]);
        gives(&rt, gather(alloc, bytes), THREE);
    }
    let mut bytes = volume(alloc)?;
    patch(&mut bytes, RECORD_17 + 56 + 0x30, &[0, 12]);
    gives(
        &rt,
        gather(alloc, bytes),
        Wanted {
            size: 3072,
            ..THREE
        },
    );
    // An entry of another type is not looked at, nor is the record that it names.
    let mut bytes = volume(alloc)?;
    entry(&mut bytes, ENTRY_2, Told { kind: 0x90, ..LAST }, 99);
    let want = Wanted {
        extents: 2,
        runs: &[(1, Some(50)), (1, None)],
        ..THREE
    };
    gives(&rt, gather(alloc, bytes), want);
    Ok(())
}

#[test]
fn extents_of_one_record(rt: HostRuntime) -> Result<(), Fail> {
    let alloc = rt.alloc();
    // Of two attributes of record 17 that are the same in all five the first is meant.
    let again = Told {
        pairs: &[0x11, 0x01, 0x31, 0x00],
        ..ONE
    };
    let mut made = begun(alloc)?;
    made.list(&[(ONE, 17)]);
    made.end();
    made.begin(17, BASE);
    made.runs(ONE);
    made.runs(again);
    made.end();
    let one = Wanted {
        extents: 1,
        runs: &[(1, Some(50))],
        ..THREE
    };
    gives(&rt, gather(alloc, image(alloc, SMALL, &made.table)?), one);
    // Without a list all of one type and name are meant, and another name plays no part.
    let named = Told {
        name: b"v\0",
        units: 1,
        ..ONE
    };
    let mut made = begun(alloc)?;
    made.runs(ONE);
    made.runs(HOLE);
    made.value(named);
    made.end();
    let bytes = image(alloc, SMALL, &made.table)?;
    let two = Wanted {
        first: (16, 56),
        extents: 2,
        runs: &[(1, Some(50)), (1, None)],
        ..THREE
    };
    gives(&rt, gather(alloc, bytes), two);
    let bytes = image(alloc, SMALL, &made.table)?;
    gives_value(&rt, gather_of(alloc, bytes, 0x80, b"v\0"), (16, 264));
    let bytes = image(alloc, SMALL, &made.table)?;
    refused(
        &rt,
        gather_of(alloc, bytes, 0x80, b"w\0"),
        VolumeFault::NoAttribute,
        0,
    );
    Ok(())
}

#[test]
fn values_and_empty_streams(rt: HostRuntime) -> Result<(), Fail> {
    let alloc = rt.alloc();
    let mut made = begun(alloc)?;
    made.value(ONE);
    made.end();
    gives_value(
        &rt,
        gather(alloc, image(alloc, SMALL, &made.table)?),
        (16, 56),
    );
    // A value that the list names.
    let mut made = begun(alloc)?;
    made.list(&[(ONE, 3 << 48 | 17)]);
    made.end();
    made.begin(17, BASE);
    made.value(ONE);
    made.end();
    gives_value(
        &rt,
        gather(alloc, image(alloc, SMALL, &made.table)?),
        (17, 56),
    );
    let empty = Told {
        next: 0,
        size: 0,
        valid: 0,
        pairs: &[0],
        ..ONE
    };
    let mut made = begun(alloc)?;
    made.runs(empty);
    made.end();
    let want = Wanted {
        flags: 0,
        size: 0,
        valid: 0,
        first: (16, 56),
        extents: 1,
        runs: &[],
    };
    gives(&rt, gather(alloc, image(alloc, SMALL, &made.table)?), want);
    Ok(())
}

/// A byte at a place of the volume, and the refusal that it brings.
type Damage = (usize, u8, VolumeFault);

fn are_refused(rt: &impl Abort, alloc: Global, damages: &[Damage]) -> Result<(), AllocError> {
    for (place, byte, fault) in damages {
        let mut bytes = volume(alloc)?;
        patch(&mut bytes, *place, &[*byte]);
        refused(rt, gather(alloc, bytes), *fault, *place);
    }
    Ok(())
}

#[test]
fn damage_is_named_by_its_record(rt: HostRuntime) -> Result<(), Fail> {
    let c4 = damaged(Rule::C4, 17);
    let c11 = damaged(Rule::C11, 16);
    let c12 = damaged(Rule::C12, 16);
    let extensions: [Damage; 9] = [
        // The extension record: not in use; torn; with another number; of another base; of another turn than the entry
        // says.
        (RECORD_17 + 0x16, 2, c11),
        (RECORD_17 + 510, 6, c4),
        (RECORD_17 + 0x2C, 18, c4),
        (RECORD_17 + 0x20, 18, c11),
        (RECORD_17 + 0x10, 4, c11),
        // The attribute's type, lowest VCN and instance.
        (RECORD_17 + 56, 0x90, c11),
        (RECORD_17 + 56 + 0x10, 1, c11),
        (RECORD_17 + 56 + 0x0E, 7, c11),
        // The entry names a record that $MFT has no room for.
        (ENTRY_0 + 0x10, 99, c11),
    ];
    are_refused(&rt, rt.alloc(), &extensions)?;
    let others: [Damage; 10] = [
        // Pairs that spell two clusters, of an extension record and of the base record; an LCN past the last cluster.
        (RECORD_17 + 56 + 73, 2, damaged(Rule::C7, 17)),
        (RECORD_16 + 176 + 73, 2, damaged(Rule::C7, 16)),
        (RECORD_17 + 56 + 74, 64, damaged(Rule::C7, 17)),
        // An initialised size above the size, and a size above the clusters' bytes.
        (RECORD_17 + 56 + 0x39, 4, c12),
        (RECORD_17 + 56 + 0x31, 13, c12),
        // An entry of length 0, one whose empty name stands behind it, and a list that is cut.
        (ENTRY_1 + 4, 0, c11),
        (ENTRY_1 + 7, 33, c11),
        (RECORD_16 + 56 + 0x10, 95, c11),
        // The base record is torn, or an extension record.
        (RECORD_16 + 510, 6, damaged(Rule::C4, 16)),
        (RECORD_16 + 0x20, 5, VolumeFault::Absent),
    ];
    are_refused(&rt, rt.alloc(), &others)?;
    are_refused(
        &rt,
        rt.alloc(),
        &[(RECORD_16 + 0x16, 0, VolumeFault::Absent)],
    )?;
    let found = gather_of(rt.alloc(), volume(rt.alloc())?, 0xA0, b"");
    refused(&rt, found, VolumeFault::NoAttribute, 0);
    Ok(())
}

/// Bytes at places of the volume, and the refusal that they bring together.
type Damages<'a> = (&'a [(usize, u8)], VolumeFault);

#[test]
fn of_two_faults_one_is_named(rt: HostRuntime) -> Result<(), Fail> {
    let alloc = rt.alloc();
    let c11 = damaged(Rule::C11, 16);
    let cases: [Damages<'_>; 10] = [
        // The first entry that fails: its record is torn, and that of the next not in use, and the other way round.
        (
            &[(RECORD_17 + 510, 6), (RECORD_18 + 0x16, 0)],
            damaged(Rule::C4, 17),
        ),
        (&[(RECORD_17 + 0x16, 0), (RECORD_18 + 510, 6)], c11),
        // A wrong entry comes first, also where it tells another type.
        (&[(RECORD_17 + 510, 6), (ENTRY_2 + 4, 0)], c11),
        (
            &[(RECORD_17 + 510, 6), (ENTRY_2, 0x90), (ENTRY_2 + 4, 0)],
            c11,
        ),
        // Entries come before pairs, pairs in order, and pairs before extents that don't join or sizes that don't fit.
        (
            &[(RECORD_17 + 56 + 73, 2), (RECORD_18 + 510, 6)],
            damaged(Rule::C4, 18),
        ),
        (
            &[(RECORD_17 + 56 + 73, 2), (RECORD_18 + 56 + 73, 2)],
            damaged(Rule::C7, 17),
        ),
        (
            &[(RECORD_17 + 56 + 0x39, 4), (RECORD_18 + 56 + 73, 2)],
            damaged(Rule::C7, 18),
        ),
        (
            &[
                (ENTRY_1 + 8, 5),
                (RECORD_18 + 56 + 0x10, 5),
                (RECORD_18 + 56 + 0x18, 5),
            ],
            damaged(Rule::C12, 16),
        ),
        // The base record comes before its list.
        (
            &[(RECORD_16 + 510, 6), (ENTRY_0 + 4, 0)],
            damaged(Rule::C4, 16),
        ),
        (
            &[(RECORD_16 + 510, 6), (RECORD_16 + 0x16, 0)],
            VolumeFault::Absent,
        ),
    ];
    for (damages, fault) in cases {
        let mut bytes = volume(alloc)?;
        for (place, byte) in damages {
            patch(&mut bytes, *place, &[*byte]);
        }
        refused(&rt, gather(alloc, bytes), fault, damages.len());
    }
    Ok(())
}

/// The volume of a stream of 200 extents.
const LARGE: Shape<'static> = Shape {
    sectors: 2,
    clusters: 128,
    runs: &[(4, 48)],
};

/// A list of 200 entries.
const LIST: Told<'static> = Told {
    kind: 0x20,
    instance: 9,
    next: 7,
    size: 6400,
    valid: 6400,
    pairs: &[0x11, 7, 60, 0],
    ..TABLE
};

/// The cluster of an extent of the 200, and its attribute with these pairs.
fn cluster_of(extent: u16) -> u8 {
    100 + (extent % 20) as u8
}

fn extent_of<'a>(extent: u16, pairs: &'a [u8]) -> Told<'a> {
    Told {
        instance: extent,
        lowest: u64::from(extent),
        next: u64::from(extent) + 1,
        size: 204_800,
        valid: 204_800,
        pairs,
        ..ONE
    }
}

/// The records from 17 on with nine of 200 extents each.
fn extensions_of_many(made: &mut Made) {
    let mut extent = 0;
    for number in 17..40u8 {
        made.begin(number, BASE);
        for _ in 0..9 {
            if extent < 200 {
                made.runs(extent_of(extent, &[0x11, 1, cluster_of(extent), 0]));
                extent += 1;
            }
        }
        made.end();
    }
}

/// A stream of 200 extents in 23 records. So many lists name them, all in the same clusters.
fn many(alloc: Global, lists: u8) -> Result<Vec<u8>, AllocError> {
    let table = Told {
        next: 48,
        size: 49_152,
        valid: 49_152,
        pairs: &[0x11, 48, 4, 0],
        ..TABLE
    };
    let mut made = Made::new(alloc, 48)?;
    made.begin(0, 0);
    made.runs(table);
    made.end();
    made.begin(16, 0);
    for _ in 0..lists {
        made.runs(LIST);
    }
    made.end();
    extensions_of_many(&mut made);
    let mut bytes = image(alloc, LARGE, &made.table)?;
    for extent in 0..200u16 {
        let holder = 17 + u64::from(extent) / 9;
        let place = 61_440 + 32 * usize::from(extent);
        entry(&mut bytes, place, extent_of(extent, &[]), 3 << 48 | holder);
    }
    Ok(bytes)
}

#[test]
fn a_stream_of_200_extents(rt: HostRuntime) -> Result<(), Fail> {
    let alloc = rt.alloc();
    let mut runs = Vec::new(alloc);
    for extent in 0..200u16 {
        runs.push((1, Some(u64::from(cluster_of(extent)))))?;
    }
    let want = Wanted {
        flags: 0,
        size: 204_800,
        valid: 204_800,
        first: (17, 56),
        extents: 200,
        runs: &runs,
    };
    // Each record is read once: the boot sector, the records 0 and 16, the list, and 23 records.
    let mut image = MemImage::new(alloc, many(alloc, 1)?);
    gives(&rt, gather_in(alloc, &mut image, 0x80, b""), want);
    assert_eq!(rt; image.inside.calls.made, 27);
    let c11 = damaged(Rule::C11, 16);
    let damages: [(usize, &[u8]); 7] = [
        // The last entry isn't initialised; sizes that don't fit.
        (RECORD_16 + 56 + 0x38, &[0xE0, 0x18]),
        (RECORD_16 + 56 + 0x38, &[1, 0x19]),
        (RECORD_16 + 56 + 0x30, &[1, 0x1C]),
        // Wrong pairs; a cluster at the number of clusters; another number of VCNs; and VCNs from 1 on.
        (RECORD_16 + 56 + 72, &[0x91]),
        (RECORD_16 + 56 + 74, &[122]),
        (RECORD_16 + 56 + 0x18, &[7]),
        (RECORD_16 + 56 + 0x10, &[1]),
    ];
    for (place, text) in damages {
        let mut bytes = many(alloc, 1)?;
        patch(&mut bytes, place, text);
        refused(&rt, gather(alloc, bytes), c11, place);
    }
    refused(&rt, gather(alloc, many(alloc, 2)?), c11, 0);
    Ok(())
}

#[test]
fn device_calls_fail_alone(rt: HostRuntime) -> Result<(), Fail> {
    let alloc = rt.alloc();
    for (lists, calls) in [(0, 5_u64), (1, 27)] {
        for failing in 1..calls.saturating_add(2) {
            let bytes = if lists == 0 {
                volume(alloc)?
            } else {
                many(alloc, lists)?
            };
            let mut image = MemImage::new(alloc, bytes);
            image.inside.calls.fail(alloc, failing, Leaves::Before)?;
            let fault = gather_in(alloc, &mut image, 0x80, b"").err();
            let want = if failing > calls {
                None
            } else {
                Some(VolumeFault::ReadFault)
            };
            assert_eq!(rt; fault, want, "call {failing} of {calls}");
        }
    }
    Ok(())
}

/// Gathers a stream of many extents by a list in clusters: whether it was gathered. Where it wasn't, memory was
/// wanting.
fn gathering_is_whole(rt: &impl Abort, host: &HostRuntime) -> Result<bool, Fail> {
    let alloc = host.alloc();
    let Ok(bytes) = many(alloc, 1) else {
        return Ok(false);
    };
    match gather(alloc, bytes) {
        Ok(stream) => {
            assert_eq!(rt; stream.extents(), 200);
            Ok(true)
        }
        Err(fault) => {
            assert!(rt; fault == VolumeFault::NoMemory);
            Ok(false)
        }
    }
}

#[test]
fn with_ample_memory_a_stream_is_gathered(rt: HostRuntime) -> Result<(), Fail> {
    assert!(rt; gathering_is_whole(&rt, &rt)?);
    Ok(())
}
