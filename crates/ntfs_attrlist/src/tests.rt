//! A list of three entries, read whole, and each thing that can be wrong with it.
ghost use Rattle.std.specs.Prelude.{◌≡◌, length};
ghost use Rattle.std.specs.Result.{result_map_both};
ghost use Rattle.ntfs_attrlist.specs.Reading.{list_entries};

use crate::{BadEntry, ListEntry, entries};
use std::process::Abort;
use std::test::Fail;

/// Where a byte stands, and the byte.
type Patch = (usize, u8);

const LENGTH: usize = 91;

/// An entry of 32 bytes without a name.
const FIRST: [Patch; 6] = [
    (0x00, 0x10),
    (0x04, 32),
    (0x07, 26),
    (0x10, 5),
    (0x16, 9),
    (0x18, 0),
];

/// An entry of 32 bytes with a name of two units, and no two bytes alike in a field.
const SECOND: [Patch; 28] = [
    (32, 0x80),
    (33, 1),
    (34, 2),
    (35, 3),
    (36, 32),
    (38, 2),
    (39, 26),
    (40, 0x11),
    (41, 0x12),
    (42, 0x13),
    (43, 0x14),
    (44, 0x15),
    (45, 0x16),
    (46, 0x17),
    (47, 0x18),
    (48, 0x21),
    (49, 0x22),
    (50, 0x23),
    (51, 0x24),
    (52, 0x25),
    (53, 0x26),
    (54, 0x27),
    (55, 0x28),
    (56, 0x31),
    (57, 0x32),
    (58, b'a'),
    (60, b'b'),
    (61, 1),
];

/// An entry of 27 bytes without a name, with which the list ends.
const THIRD: [Patch; 6] = [(64, 0xB0), (68, 27), (71, 26), (72, 1), (80, 7), (88, 2)];

fn put(bytes: &mut [u8], patches: &[Patch]) {
    for (place, value) in patches {
        if let Some(byte) = bytes.get_mut(*place) {
            *byte = *value;
        }
    }
}

/// The list, with some bytes changed.
fn change(patches: &[Patch]) -> [u8; LENGTH] {
    let mut bytes = [0; LENGTH];
    put(&mut bytes, &FIRST);
    put(&mut bytes, &SECOND);
    put(&mut bytes, &THIRD);
    put(&mut bytes, patches);
    bytes
}

#[test]
fn the_entries_are_shown(rt: HostRuntime) {
    let bytes = change(&[]);
    let mut found = entries(&bytes);
    assert_eq!(rt;
        found.next(),
        Some(Ok(ListEntry {
            kind: 0x10,
            name: &[],
            lowest: 0,
            reference: 0x0009_0000_0000_0005,
            instance: 0,
        }))
    );
    assert_eq!(rt;
        found.next(),
        Some(Ok(ListEntry {
            kind: 0x0302_0180,
            name: b"a\0b\x01",
            lowest: 0x1817_1615_1413_1211,
            reference: 0x2827_2625_2423_2221,
            instance: 0x3231,
        }))
    );
    assert_eq!(rt;
        found.next(),
        Some(Ok(ListEntry {
            kind: 0xB0,
            name: &[],
            lowest: 1,
            reference: 7,
            instance: 2,
        }))
    );
    assert_eq!(rt; found.next(), None);
    assert_eq!(rt; found.next(), None);
}

/// What is changed in the list, how much of it is taken, how many entries then come, and the place of the fault behind
/// them.
type Row = ([Patch; 2], usize, usize, Option<usize>);

fn reads(rt: &impl Abort, row: Row) -> Result<(), Fail> {
    let (patches, length, good, bad) = row;
    let bytes = change(&patches);
    let list = bytes.get(..length).ok_or("a length")?;
    let mut found = entries(list);
    for _ in 0..good {
        let entry = found.next().ok_or("an entry")?;
        assert!(rt; entry.is_ok(), "{patches:?} of {length}");
    }
    let want = bad.map(|place| Err(BadEntry { place }));
    assert_eq!(rt; found.next(), want, "{patches:?} of {length}");
    assert_eq!(rt; found.next(), None);
    assert_eq!(rt; found.next(), None);
    Ok(())
}

const BAD: [Row; 10] = [
    // Too few bytes are left: one less than the fields, at the front and behind an entry, or a single one.
    ([(0, 0x10), (4, 25)], 25, 0, Some(0)),
    ([(0, 0x10), (36, 25)], 57, 1, Some(32)),
    ([(0, 0x10), (0, 0x10)], 65, 2, Some(64)),
    // The length: below the fields, nothing, past the end by one, or by its upper byte.
    ([(36, 25), (38, 0)], 91, 1, Some(32)),
    ([(68, 0), (71, 0)], 91, 2, Some(64)),
    ([(68, 28), (68, 28)], 91, 2, Some(64)),
    ([(37, 1), (37, 1)], 91, 1, Some(32)),
    // The name: past the length by one unit, by one byte, or empty and behind it.
    ([(38, 4), (38, 4)], 91, 1, Some(32)),
    ([(70, 1), (70, 1)], 91, 2, Some(64)),
    ([(7, 33), (6, 0)], 91, 0, Some(0)),
];

#[test]
fn the_first_bad_entry_is_named(rt: HostRuntime) -> Result<(), Fail> {
    for row in BAD {
        reads(&rt, row)?;
    }
    Ok(())
}

const EDGES: [Row; 8] = [
    // The list ends where an entry ends.
    ([(0, 0x10), (0, 0x10)], 0, 0, None),
    ([(0, 0x10), (0, 0x10)], 32, 1, None),
    ([(0, 0x10), (0, 0x10)], 64, 2, None),
    ([(0, 0x10), (0, 0x10)], 91, 3, None),
    // An entry of its fields alone.
    ([(68, 26), (68, 26)], 90, 3, None),
    // An empty name at the length, a name that ends there, and one over the fields.
    ([(7, 32), (6, 0)], 91, 3, None),
    ([(38, 3), (38, 3)], 91, 3, None),
    ([(71, 0), (70, 13)], 91, 3, None),
];

#[test]
fn what_is_at_its_edge_is_no_fault(rt: HostRuntime) -> Result<(), Fail> {
    for row in EDGES {
        reads(&rt, row)?;
    }
    Ok(())
}

/// How many entries a list has: a caller that sees the clauses alone.
fn entry_count(list: &[u8]) -> Result<usize, BadEntry>
    ensures { result ≡ result_map_both length (λ fault. fault) (list_entries list.now) }
{
    let mut count = 0;
    'entries: for item in entries(list) {
        match item {
            Ok(_) => count += 1,
            Err(fault) => return Err(fault),
        }
    }
    Ok(count)
}

#[test]
fn a_caller_counts_them(rt: HostRuntime) {
    assert_eq!(rt; entry_count(&change(&[])), Ok(3));
    assert_eq!(rt;
        entry_count(&change(&[(68, 28)])),
        Err(BadEntry { place: 64 })
    );
}
