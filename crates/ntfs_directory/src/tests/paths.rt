//! Paths on volumes of 64 clusters of 4,096 bytes, whose $UpCase maps `a` to `A` and each other unit to itself.
//! Record 5 is the root, 6 a directory, 7 and 9 are files; the sequence number of each is 3.

use super::{damage, push_number, put, record, with_up_case};
use crate::{PathFault, directory_at, resolve, resolve_path};
use ntfs_base::{Leaves, MemImage, Missing};
use ntfs_volume::{open_volume, read_table};
use std::alloc::{AllocError, Global};
use std::process::Abort;
use std::test::Fail;

/// Where record 0 stands.
const TABLE: usize = 4 * 4096;

/// A name in UTF-16LE, and the reference of its entry.
type Named<'a> = (&'a [u8], u64);

/// A record, a place in it, and a byte that is put there.
type Patch = (usize, usize, u8);

/// The place of a byte of a record.
fn at(number: usize, place: usize) -> usize {
    TABLE
        .wrapping_add(number.wrapping_mul(1024))
        .wrapping_add(place)
}

/// Puts an entry, and tells how many bytes it has.
fn entry(bytes: &mut [u8], place: usize, name: &[u8], reference: u64) -> usize {
    let key = 66 + name.len() % 256;
    let length = (16 + key + 7) / 8 * 8;
    put(bytes, place, &reference.to_le_bytes());
    put(bytes, place.wrapping_add(8), &(length as u16).to_le_bytes());
    put(bytes, place.wrapping_add(10), &(key as u16).to_le_bytes());
    put(
        bytes,
        place.wrapping_add(16 + 0x40),
        &[(name.len() / 2 % 256) as u8, 0],
    );
    put(bytes, place.wrapping_add(16 + 0x42), name);
    length
}

/// Puts a directory's record, with an index root of 336 bytes at 88 and these names in it.
fn directory(bytes: &mut [u8], number: u8, names: &[Named<'_>]) {
    let place = at(usize::from(number), 0);
    put(bytes, place, &[0; 1024]);
    record(bytes, place, number, 8);
    let root = place.wrapping_add(56);
    put(bytes, root, &[0x90, 0, 0, 0, 0x70, 1, 0, 0, 0, 4, 24, 0]);
    put(bytes, root.wrapping_add(0x10), &[0x50, 1, 0, 0, 32]);
    put(bytes, root.wrapping_add(24), super::NAME);
    put(
        bytes,
        root.wrapping_add(32),
        &[0x30, 0, 0, 0, 1, 0, 0, 0, 0, 4],
    );
    let header = root.wrapping_add(48);
    let mut used: usize = 16;
    for (name, reference) in names {
        used = used.wrapping_add(entry(bytes, header.wrapping_add(used), name, *reference));
    }
    put(
        bytes,
        header.wrapping_add(used).wrapping_add(8),
        &[16, 0, 0, 0, 2],
    );
    used = used.wrapping_add(16);
    put(bytes, header, &[16]);
    put(
        bytes,
        header.wrapping_add(4),
        &((used % 65536) as u32).to_le_bytes(),
    );
    put(bytes, root.wrapping_add(0x170), &[0xFF; 4]);
}

/// Puts a file's record without attributes.
fn file(bytes: &mut [u8], number: u8) {
    let place = at(usize::from(number), 0);
    record(bytes, place, number, 0);
    put(bytes, place.wrapping_add(0x16), &[1]);
    put(bytes, place.wrapping_add(56), &[0xFF; 4]);
}

/// A volume with these names in the root and in record 6.
fn named(alloc: Global, root: &[Named<'_>], below: &[Named<'_>]) -> Result<Vec<u8>, AllocError> {
    let mut bytes = with_up_case(alloc, 0, b'F')?;
    directory(&mut bytes, 5, root);
    directory(&mut bytes, 6, below);
    file(&mut bytes, 7);
    file(&mut bytes, 9);
    Ok(bytes)
}

/// The image of a volume with a byte put over another.
fn image(alloc: Global, volume: &[u8], patch: Patch) -> Result<MemImage, AllocError> {
    let mut bytes = Vec::from_slice(alloc, volume)?;
    let (number, place, byte) = patch;
    if number != 0 {
        put(&mut bytes, at(number, place), &[byte]);
    }
    Ok(MemImage::new(alloc, bytes))
}

/// An answer as text.
fn text_of(alloc: Global, answer: Result<u64, PathFault>) -> Result<String, AllocError> {
    let mut text = String::new(alloc);
    match answer {
        Ok(number) => push_number(&mut text, number)?,
        Err(
            PathFault::NotFound {
                what: Missing::Part { index },
            },
        ) => {
            text.push_str("part ")?;
            push_number(&mut text, index)?;
        }
        Err(PathFault::NotFound { .. }) => text.push_str("another thing")?,
        Err(PathFault::Damaged { rule, number }) => damage(&mut text, rule as u64 + 1, number)?,
        Err(PathFault::ReadFault) => text.push_str("read fault")?,
        Err(PathFault::NoMemory) => text.push_str("no memory")?,
    }
    Ok(text)
}

/// What a path names, or the directory that it names.
fn told(alloc: Global, image: &mut MemImage, path: &str, ends: bool) -> Result<String, Fail> {
    let mut text = String::new(alloc);
    match read_table(alloc, image) {
        Err(_) => text.push_str("no table")?,
        Ok(table) => {
            let answer = if ends {
                directory_at(alloc, image, &table, path)
            } else {
                resolve_path(alloc, image, &table, path)
            };
            text = text_of(alloc, answer)?;
        }
    }
    Ok(text)
}

/// The names of most tests.
const ROOT: &[Named<'_>] = &[(b"A\0", 7), (b"a\0", 6), (b"\x34\xD8\x1E\xDD", 9)];

const BELOW: &[Named<'_>] = &[(b"a\0A\0", 7), (b"A\0a\0", 9), (b"c\0", 0x3_0000_0000_0009)];

/// Names of which the second names a record that isn't in use, and the third has another sequence number.
const STRAY: &[Named<'_>] = &[(b"A\0", 7), (b"n\0", 11), (b"s\0", 0x4_0000_0000_0007)];

/// Record 0 is never patched.
const NONE: Patch = (0, 0, 0);

/// A path, a byte that is put into a record, and what the path and the directory that it names come to.
type Case<'a> = (&'a str, Patch, &'a str, &'a str);

/// Each path comes to what its row says.
fn tell_all(rt: &impl Abort, alloc: Global, volume: &[u8], cases: &[Case<'_>]) -> Result<(), Fail> {
    for (path, patch, number, directory) in cases {
        let mut image = image(alloc, volume, *patch)?;
        let found = told(alloc, &mut image, path, false)?;
        assert_eq!(rt; found.as_str(), *number, "{path}");
        let found = told(alloc, &mut image, path, true)?;
        assert_eq!(rt; found.as_str(), *directory, "{path}");
    }
    Ok(())
}

const PATHS: &[Case<'_>] = &[
    ("", NONE, "5", "5"),
    ("//", NONE, "5", "5"),
    ("a", NONE, "6", "6"),
    ("/a//", NONE, "6", "6"),
    ("A", NONE, "7", "part 1"),
    ("a//c/", NONE, "9", "part 2"),
    ("a/A\u{61}", NONE, "9", "part 2"),
    ("a/aa", NONE, "7", "part 2"),
    ("\u{1D11E}", NONE, "9", "part 1"),
    ("\u{1D11F}", NONE, "part 0", "part 0"),
    ("x/a", NONE, "part 0", "part 0"),
    ("a/C/a", NONE, "part 1", "part 1"),
    ("/A/c", NONE, "part 1", "part 1"),
];

/// The root that is no directory, isn't in use, or tells another number; and without a table of names.
const ROOTS: &[Case<'_>] = &[
    ("/", (5, 0x16, 1), "5", "part 0"),
    ("/", (5, 0, 0), "5", "part 0"),
    ("/", (5, 0x2C, 6), "5", "C4 5"),
    ("/", (10, 0, 0), "5", "5"),
];

#[test]
fn paths_are_split_and_looked_up(rt: HostRuntime) -> Result<(), Fail> {
    let volume = named(rt.alloc(), ROOT, BELOW)?;
    tell_all(&rt, rt.alloc(), &volume, PATHS)?;
    tell_all(&rt, rt.alloc(), &volume, ROOTS)
}

/// No record in use; another sequence number; an extension; another record's number; the same units before an entry
/// that breaks a rule (its length is 9); a name that is only alike before it.
const ENTRIES: &[Case<'_>] = &[
    ("n", NONE, "C14 5", "C14 5"),
    ("s", NONE, "C14 5", "C14 5"),
    ("A", (7, 0x20, 5), "C14 5", "C14 5"),
    ("A", (7, 0x2C, 6), "C4 7", "C4 7"),
    ("A", (5, 216, 9), "7", "part 1"),
    ("a", (5, 216, 9), "C13 5", "C13 5"),
];

/// No table of names, one of which less is initialised, one whose pairs aren't right; a root that is no directory, an
/// extension, not in use, or tells another number, or that has no index; and a directory without one.
const RECORDS: &[Case<'_>] = &[
    ("A", (10, 0, 0), "C13 10", "C13 10"),
    ("A", (10, 114, 1), "C13 10", "C13 10"),
    ("A", (10, 128, 0x99), "C7 10", "C7 10"),
    ("A", (5, 0x16, 1), "part 0", "part 0"),
    ("A", (5, 0x20, 3), "part 0", "part 0"),
    ("A", (5, 0, 0), "part 0", "part 0"),
    ("A", (5, 0x2C, 6), "C4 5", "C4 5"),
    ("A", (5, 56, 0x80), "C13 5", "C13 5"),
    ("A/A", (7, 0x16, 3), "C13 7", "C13 7"),
];

#[test]
fn damage_is_met_in_order(rt: HostRuntime) -> Result<(), Fail> {
    let volume = named(rt.alloc(), STRAY, BELOW)?;
    tell_all(&rt, rt.alloc(), &volume, ENTRIES)?;
    tell_all(&rt, rt.alloc(), &volume, RECORDS)
}

/// What a path of a volume names.
fn resolved(alloc: Global, image: &mut MemImage, path: &str) -> Result<String, Fail> {
    let mut text = String::new(alloc);
    match open_volume(alloc, image) {
        Err(_) => text.push_str("no volume")?,
        Ok(mut volume) => {
            let answer = resolve(alloc, &mut volume, path);
            text = text_of(alloc, answer)?;
        }
    }
    Ok(text)
}

#[test]
fn each_read_of_a_path_failing_alone_is_a_read_fault(rt: HostRuntime) -> Result<(), Fail> {
    let alloc = rt.alloc();
    let bytes = named(alloc, ROOT, BELOW)?;
    let mut whole = image(alloc, &bytes, NONE)?;
    let found = resolved(alloc, &mut whole, "a/c")?;
    assert_eq!(rt; found.as_str(), "9");
    let all = whole.inside.calls.made;
    for failing in 3..all.saturating_add(1) {
        let mut image = image(alloc, &bytes, NONE)?;
        image.inside.calls.fail(alloc, failing, Leaves::Before)?;
        let found = told(alloc, &mut image, "a/c", false)?;
        assert_eq!(rt; found.as_str(), "read fault");
        assert_eq!(rt; image.inside.calls.made, failing);
    }
    Ok(())
}
