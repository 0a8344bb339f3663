//! Walks of record 5 of small volumes: 64 clusters, $MFT of 12 records at cluster 4, index blocks of 1,024 bytes. What
//! a walk gives is told as text: each entry's reference, and the end.
mod paths;

ghost use Rattle.ntfs_directory.specs.State.{IsOn, answered};
ghost use Rattle.ntfs_volume.specs.Opened.{HasClusters};
ghost use Rattle.std.specs.Prelude.{◌≡◌, None};

use crate::{Directory, directory_of, open_directory, read_up_case};
use ntfs_base::{Image, Leaves, MemImage};
use ntfs_volume::{Table, Volume, VolumeFault, open_volume, read_table};
use std::alloc::{AllocError, Global};
use std::process::Abort;
use std::test::Fail;

/// The name of an index's attributes.
const NAME: &[u8] = b"$\0I\x003\x000\0";

/// An entry of a node, by its reference and its child's VCN; one without a reference ends the node.
#[derive(Clone, Copy)]
struct Item {
    reference: Option<u64>,
    child: Option<u64>,
}

const END: Item = Item {
    reference: None,
    child: None,
};

fn own(reference: u64) -> Item {
    Item {
        reference: Some(reference),
        child: None,
    }
}

fn above(reference: Option<u64>, child: u64) -> Item {
    Item {
        reference,
        child: Some(child),
    }
}

/// A place in the image at which an index block stands, its VCN and its entries.
type Block<'a> = (usize, u64, &'a [Item]);

/// A volume whose record 5 has a directory's index.
#[derive(Clone, Copy)]
struct Shape<'a> {
    /// Sectors of a cluster.
    sectors: u8,
    root: &'a [Item],
    /// The allocation's mapping pairs of six bytes at most, its VCNs, and its size and initialised size.
    allocation: Option<(&'a [u8], u64, u64, u64)>,
    blocks: &'a [Block<'a>],
}

/// Writes bytes over others, as far as they reach.
fn put(bytes: &mut [u8], place: usize, text: &[u8]) {
    for (to, from) in bytes.iter_mut().skip(place).zip(text) {
        *to = *from;
    }
}

/// Puts the header of a node and its entries, which begin so many bytes behind it.
fn node(bytes: &mut [u8], header: usize, first: u8, items: &[Item]) {
    let mut used = usize::from(first);
    for item in items {
        let place = header.wrapping_add(used);
        let (key, flag) = if item.reference.is_some() {
            (72, 0)
        } else {
            (0, 2)
        };
        let (eight, child) = if item.child.is_some() {
            (8, 1)
        } else {
            (0, 0u8)
        };
        put(bytes, place, &item.reference.unwrap_or(0).to_le_bytes());
        put(bytes, place.wrapping_add(8), &[16 + key + eight, 0]);
        put(
            bytes,
            place.wrapping_add(10),
            &[key / 72 * 66, 0, child + flag],
        );
        put(
            bytes,
            place.wrapping_add(16 + usize::from(key)),
            &item.child.unwrap_or(0).to_le_bytes()[..usize::from(eight)],
        );
        used = used.wrapping_add(usize::from(16 + key + eight));
    }
    put(bytes, header, &[first]);
    put(
        bytes,
        header.wrapping_add(4),
        &((used % 65536) as u32).to_le_bytes(),
    );
}

/// Puts an index block of 1,024 bytes, whose fixup number is 7.
fn block(bytes: &mut [u8], place: usize, vcn: u64, items: &[Item]) {
    put(bytes, place, b"INDX\x28\0\x03\0");
    put(bytes, place.wrapping_add(0x10), &vcn.to_le_bytes());
    put(bytes, place.wrapping_add(0x28), &[7, 0]);
    node(bytes, place.wrapping_add(0x18), 0x28, items);
    put(bytes, place.wrapping_add(510), &[7, 0]);
    put(bytes, place.wrapping_add(1022), &[7, 0]);
}

/// Puts a record of this number without attributes, whose fixup number is 5.
fn record(bytes: &mut [u8], place: usize, number: u8, used: u8) {
    put(bytes, place, b"FILE\x30\0\x03\0");
    put(
        bytes,
        place.wrapping_add(0x10),
        &[3, 0, 1, 0, 56, 0, 3, 0, used, 2, 0, 0, 0, 4],
    );
    put(bytes, place.wrapping_add(0x2C), &[number, 0, 0, 0, 5, 0]);
    put(bytes, place.wrapping_add(510), &[5, 0]);
    put(bytes, place.wrapping_add(1022), &[5, 0]);
}

/// Puts an attribute of 88 bytes that isn't resident, whose name stands at 64 and whose pairs stand at 72.
fn runs(bytes: &mut [u8], place: usize, head: [u8; 4], told: (&[u8], u64, u64, u64)) {
    let (pairs, vcns, size, valid) = told;
    let [kind, units, name, flags] = head;
    put(
        bytes,
        place,
        &[kind, 0, 0, 0, 88, 0, 0, 0, 1, units, name, 0, 0, flags],
    );
    put(
        bytes,
        place.wrapping_add(0x18),
        &vcns.wrapping_sub(1).to_le_bytes(),
    );
    put(bytes, place.wrapping_add(0x20), &[72]);
    put(bytes, place.wrapping_add(0x30), &size.to_le_bytes());
    put(bytes, place.wrapping_add(0x38), &valid.to_le_bytes());
    put(
        bytes,
        place.wrapping_add(64),
        &NAME[..usize::from(units.min(4)) * 2],
    );
    put(bytes, place.wrapping_add(72), pairs);
}

/// The image of a volume. In record 5 the allocation stands at 56, and the root behind it, or at 56; its value, of 336
/// bytes, stands at 32 in it.
fn volume(alloc: Global, shape: &Shape<'_>) -> Result<Vec<u8>, AllocError> {
    let cluster = 512 * usize::from(shape.sectors);
    let mut bytes = vec![in alloc; 0; 64 * cluster + 512]?;
    put(&mut bytes, 3, b"NTFS    \0\x02");
    put(&mut bytes, 0x0D, &[shape.sectors]);
    put(
        &mut bytes,
        0x28,
        &(64 * u64::from(shape.sectors)).to_le_bytes(),
    );
    put(&mut bytes, 0x30, &[4]);
    put(&mut bytes, 0x38, &[4]);
    put(&mut bytes, 0x40, &[0xF6]);
    put(&mut bytes, 0x44, &[0xF6]);
    let table = 4 * cluster;
    record(&mut bytes, table, 0, 0);
    let pairs = [0x11, if cluster < 1024 { 24 } else { 6 }, 4];
    let vcns = if cluster < 1024 { 24 } else { 6 };
    runs(
        &mut bytes,
        table + 56,
        [0x80, 0, 64, 0],
        (&pairs, vcns, 12288, 12288),
    );
    put(&mut bytes, table + 144, &[0xFF; 4]);
    directory(&mut bytes, table + 5 * 1024, shape);
    for (place, vcn, items) in shape.blocks {
        block(&mut bytes, *place, *vcn, items);
    }
    Ok(bytes)
}

/// Puts record 5.
fn directory(bytes: &mut [u8], place: usize, shape: &Shape<'_>) {
    record(bytes, place, 5, 8);
    let mut root = place.wrapping_add(56);
    if let Some(told) = shape.allocation {
        runs(bytes, root, [0xA0, 4, 64, 0], told);
        root = root.wrapping_add(88);
    }
    put(bytes, root, &[0x90, 0, 0, 0, 0x70, 1, 0, 0, 0, 4, 24, 0]);
    put(bytes, root.wrapping_add(0x10), &[0x50, 1, 0, 0, 32]);
    put(bytes, root.wrapping_add(24), NAME);
    put(
        bytes,
        root.wrapping_add(32),
        &[0x30, 0, 0, 0, 1, 0, 0, 0, 0, 4],
    );
    node(bytes, root.wrapping_add(48), 16, shape.root);
    put(bytes, root.wrapping_add(0x170), &[0xFF; 4]);
}

fn end_text(text: &mut String, end: Result<(), VolumeFault>) -> Result<(), AllocError> {
    match end {
        Ok(()) => text.push_str("whole"),
        Err(VolumeFault::Absent) => text.push_str("absent"),
        Err(VolumeFault::Damaged { rule, number }) => damage(text, rule as u64 + 1, number),
        Err(VolumeFault::ReadFault) => text.push_str("read fault"),
        Err(_) => text.push_str("another refusal"),
    }
}

fn damage(text: &mut String, rule: u64, number: u64) -> Result<(), AllocError> {
    text.push_str("C")?;
    push_number(text, rule)?;
    text.push_str(" ")?;
    push_number(text, number)
}

fn push_number(text: &mut String, number: u64) -> Result<(), AllocError> {
    if number >= 10 {
        text.push(char::from(b'0' + (number / 10 % 10) as u8))?;
    }
    text.push(char::from(b'0' + (number % 10) as u8))
}

/// What is left of a walk, at a type that is known by its bound alone. The end must come again, and read nothing then.
fn tell<G: Image>(
    image: &mut G,
    table: &Table,
    found: &mut Directory,
    text: &mut String,
) -> Result<(), AllocError>
    requires held { HasClusters (G.seen image.old).size table.now }
    requires on { IsOn table.now.geometry found.old }
    requires sound { answered found.old ≡ None }
{
    'calls: for _ in 0..20 {
        match found.next(image, table) {
            Ok(Some(entry)) => {
                push_number(text, entry.reference)?;
                text.push_str(if found.key().len() == 66 { " " } else { "? " })?;
            }
            Ok(None) => return end_text(text, Ok(())),
            Err(fault) => {
                if found.next(image, table) != Err(fault) {
                    text.push_str("and then another answer than ")?;
                }
                return end_text(text, Err(fault));
            }
        }
    }
    text.push_str("no end")
}

/// What the walk of a record gives.
fn walked(alloc: Global, image: &mut MemImage, number: u64) -> Result<String, Fail> {
    let mut text = String::new(alloc);
    match read_table(alloc, image) {
        Err(_) => Err("a table")?,
        Ok(table) => match open_directory(alloc, image, &table, number) {
            Err(fault) => end_text(&mut text, Err(fault))?,
            Ok(mut found) => tell(image, &table, &mut found, &mut text)?,
        },
    }
    Ok(text)
}

/// A volume without an allocation.
fn alone<'a>(root: &'a [Item]) -> Shape<'a> {
    Shape {
        sectors: 1,
        root,
        allocation: None,
        blocks: &[],
    }
}

/// The first entry of record 5 of a volume, at a type that is known by its bound alone.
fn first_of<G: Image>(alloc: Global, volume: &mut Volume<'_, G>) -> Result<Option<u64>, VolumeFault>
    requires held { HasClusters (G.seen volume.old.image.now).size volume.old.table }
{
    let mut found = directory_of(alloc, volume, 5)?;
    match found.next_of(volume)? {
        None => Ok(None),
        Some(entry) => Ok(Some(entry.reference)),
    }
}

#[test]
fn a_volume_gives_the_same(rt: HostRuntime) -> Result<(), Fail> {
    let alloc = rt.alloc();
    let plain = [own(20), END];
    for (root, want) in [(&plain[..], Some(20)), (&[END][..], None)] {
        let mut image = MemImage::new(alloc, volume(alloc, &alone(root))?);
        match open_volume(alloc, &mut image) {
            Err(_) => Err("a volume")?,
            Ok(mut volume) => assert_eq!(rt; first_of(alloc, &mut volume), Ok(want)),
        }
    }
    Ok(())
}

#[test]
fn roots_are_walked(rt: HostRuntime) -> Result<(), Fail> {
    let alloc = rt.alloc();
    let plain = [own(20), own(21), END];
    let below = [above(Some(20), 0), END];
    for (name, root, place, byte, number, want) in [
        ("no entry", &[END][..], 0, 0, 5, "whole"),
        ("two entries", &plain[..], 0, 0, 5, "20 21 whole"),
        ("a child and no allocation", &below[..], 0, 0, 5, "C13 5"),
        ("no record in use", &plain[..], 0, 0, 6, "absent"),
        ("past the table", &plain[..], 0, 0, 12, "absent"),
        ("an extension", &plain[..], 0x20, 3, 5, "absent"),
        ("another record's number", &plain[..], 0x2C, 6, 5, "C4 5"),
        ("no root", &plain[..], 56, 0x80, 5, "C13 5"),
        ("a root of another name", &plain[..], 80, 0x25, 5, "C13 5"),
        ("another type", &plain[..], 88, 0x31, 5, "C13 5"),
        ("another block size", &plain[..], 97, 8, 5, "C13 5"),
        ("an entry of length 8", &plain[..], 128, 8, 5, "C13 5"),
        ("the second of length 8", &plain[..], 216, 8, 5, "20 C13 5"),
    ] {
        let mut bytes = volume(alloc, &alone(root))?;
        if byte != 0 {
            put(&mut bytes, 2048 + 5 * 1024 + place, &[byte]);
        }
        let mut image = MemImage::new(alloc, bytes);
        let told = walked(alloc, &mut image, number)?;
        assert_eq!(rt; told.as_str(), want, "{name}");
    }
    Ok(())
}

#[test]
fn blocks_are_read_by_their_runs(rt: HostRuntime) -> Result<(), Fail> {
    let alloc = rt.alloc();
    let root = [above(Some(20), 0), own(30), above(None, 4)];
    let first = [above(Some(10), 2), own(11), END];
    let second = [own(1), END];
    let third = [own(31), own(32), END];
    for (name, sectors, pairs, size, valid, places, want) in [
        (
            "in one run",
            1,
            &[0x11, 6, 40][..],
            3072,
            3072,
            [40 * 512, 42 * 512, 44 * 512],
            "1 10 11 20 30 31 32 whole",
        ),
        (
            "a size that ends before the last block",
            1,
            &[0x11, 6, 40][..],
            3071,
            3071,
            [40 * 512, 42 * 512, 44 * 512],
            "1 10 11 20 30 C13 5",
        ),
        (
            "a block of which nothing is initialised",
            1,
            &[0x11, 6, 40][..],
            3072,
            2048,
            [40 * 512, 42 * 512, 44 * 512],
            "1 10 11 20 30 C13 5",
        ),
        (
            "a last block of which a part is initialised",
            1,
            &[0x11, 6, 40][..],
            3072,
            2184,
            [40 * 512, 42 * 512, 44 * 512],
            "1 10 11 20 30 C13 5",
        ),
        (
            "the second block in a hole",
            1,
            &[0x11, 2, 40, 0x01, 2, 0x11, 2, 4][..],
            3072,
            3072,
            [40 * 512, 60 * 512, 44 * 512],
            "C13 5",
        ),
    ] {
        let blocks = [
            (places[0], 0, &first[..]),
            (places[1], 2, &second[..]),
            (places[2], 4, &third[..]),
        ];
        let shape = Shape {
            sectors,
            root: &root,
            allocation: Some((pairs, 6, size, valid)),
            blocks: &blocks,
        };
        let mut image = MemImage::new(alloc, volume(alloc, &shape)?);
        let told = walked(alloc, &mut image, 5)?;
        assert_eq!(rt; told.as_str(), want, "{name}");
    }
    Ok(())
}

#[test]
fn allocations_are_gathered_behind_the_root(rt: HostRuntime) -> Result<(), Fail> {
    let alloc = rt.alloc();
    let root = [above(Some(20), 0), END];
    let leaf = [own(10), END];
    let shape = Shape {
        sectors: 1,
        root: &root,
        allocation: Some((&[0x11, 2, 40], 2, 1024, 1024)),
        blocks: &[(40 * 512, 0, &leaf)],
    };
    for (name, patches, want) in [
        ("as it is", &[][..], "10 20 whole"),
        (
            "an allocation of another name",
            &[(56 + 64, 0x25)][..],
            "C13 5",
        ),
        ("pairs that aren't right", &[(56 + 72, 0x99)][..], "C7 5"),
        (
            "a size above the clusters' bytes",
            &[(56 + 0x31, 5)][..],
            "C12 5",
        ),
        (
            "neither is right: the root comes first",
            &[(56 + 72, 0x99), (144, 0x80)][..],
            "C13 5",
        ),
        (
            "no rule of the root is asked before",
            &[(56 + 72, 0x99), (176, 0x31)][..],
            "C7 5",
        ),
        (
            "a root that isn't resident",
            &[(56, 0x90), (144, 0x80)][..],
            "C13 5",
        ),
    ] {
        let mut bytes = volume(alloc, &shape)?;
        for (place, byte) in patches {
            put(&mut bytes, 7168 + *place, &[*byte]);
        }
        let mut image = MemImage::new(alloc, bytes);
        let told = walked(alloc, &mut image, 5)?;
        assert_eq!(rt; told.as_str(), want, "{name}");
    }
    Ok(())
}

#[test]
fn a_block_may_lie_in_two_runs(rt: HostRuntime) -> Result<(), Fail> {
    let alloc = rt.alloc();
    let leaf = [own(10), own(11), END];
    for (sectors, pairs, child, size, place, other) in [
        (
            1,
            &[0x11, 2, 40, 0x11, 1, 10][..],
            1,
            1536,
            41 * 512,
            50 * 512,
        ),
        (
            4,
            &[0x11, 1, 40, 0x11, 1, 10][..],
            3,
            2560,
            40 * 2048 + 1536,
            50 * 2048,
        ),
    ] {
        let root = [above(Some(20), child), END];
        let shape = Shape {
            sectors,
            root: &root,
            allocation: Some((pairs, if sectors == 1 { 3 } else { 2 }, size, size)),
            blocks: &[(place, child, &leaf)],
        };
        let mut bytes = volume(alloc, &shape)?;
        put(&mut bytes, place + 1022, &[0, 0]);
        let mut image = MemImage::new(alloc, bytes);
        let told = walked(alloc, &mut image, 5)?;
        assert_eq!(rt; told.as_str(), "C13 5");
        let mut bytes = volume(alloc, &shape)?;
        put(&mut bytes, place + 1022, &[0, 0]);
        put(&mut bytes, other + 510, &[7, 0]);
        let mut image = MemImage::new(alloc, bytes);
        let told = walked(alloc, &mut image, 5)?;
        assert_eq!(rt; told.as_str(), "10 11 20 whole");
    }
    Ok(())
}

#[test]
fn each_read_failing_alone_is_a_read_fault(rt: HostRuntime) -> Result<(), Fail> {
    let alloc = rt.alloc();
    let root = [above(Some(20), 0), own(30), END];
    let leaf = [own(10), END];
    let shape = Shape {
        sectors: 1,
        root: &root,
        allocation: Some((&[0x11, 2, 40], 2, 1024, 1024)),
        blocks: &[(40 * 512, 0, &leaf)],
    };
    let mut image = MemImage::new(alloc, volume(alloc, &shape)?);
    let told = walked(alloc, &mut image, 5)?;
    assert_eq!(rt; told.as_str(), "10 20 30 whole");
    let all = image.inside.calls.made;
    for failing in 3..all {
        let mut image = MemImage::new(alloc, volume(alloc, &shape)?);
        image.inside.calls.fail(alloc, failing, Leaves::Before)?;
        let told = walked(alloc, &mut image, 5)?;
        assert_eq!(rt; told.as_str(), "read fault");
        assert_eq!(rt; image.inside.calls.made, failing);
    }
    Ok(())
}

/// A volume of 64 clusters of 4,096 bytes, whose record 10 has the units from 0 on in clusters 20 to 51, so that each
/// but 0x61 is its own upper-case unit; with a byte put at a place of that record.
fn with_up_case(alloc: Global, place: usize, byte: u8) -> Result<Vec<u8>, AllocError> {
    let shape = Shape {
        sectors: 8,
        root: &[END],
        allocation: None,
        blocks: &[],
    };
    let mut bytes = volume(alloc, &shape)?;
    let record_10 = 4 * 4096 + 10 * 1024;
    record(&mut bytes, record_10, 10, 0);
    let told = (&[0x11, 32, 20][..], 32, 131_072, 131_072);
    runs(&mut bytes, record_10 + 56, [0x80, 0, 64, 0], told);
    put(&mut bytes, record_10 + 144, &[0xFF; 4]);
    for unit in 0..65_536u32 {
        put_unit(&mut bytes, 20 * 4096 + 2 * unit as usize, unit);
    }
    put(&mut bytes, 20 * 4096 + 2 * 0x61, &[0x41]);
    put(&mut bytes, record_10.wrapping_add(place), &[byte]);
    Ok(bytes)
}

fn put_unit(bytes: &mut [u8], place: usize, unit: u32) {
    if place < bytes.len() && bytes.len() - place >= 2 {
        bytes[place] = (unit % 256) as u8;
        bytes[place + 1] = (unit / 256 % 256) as u8;
    }
}

#[test]
fn the_table_of_names_is_read(rt: HostRuntime) -> Result<(), Fail> {
    let alloc = rt.alloc();
    for (name, place, byte, want) in [
        ("as it is", 0, b'F', "same"),
        ("no record in use", 0, 0, "C13 10"),
        ("no such stream", 56, 0x81, "C13 10"),
        ("a flag", 56 + 0x0C, 1, "C13 10"),
        ("another size", 56 + 0x30, 1, "C12 10"),
        ("less initialised", 56 + 0x3A, 1, "C13 10"),
        ("pairs that aren't right", 56 + 72, 0x99, "C7 10"),
    ] {
        let mut image = MemImage::new(alloc, with_up_case(alloc, place, byte)?);
        let mut text = String::new(alloc);
        match read_table(alloc, &mut image) {
            Err(_) => Err("a table")?,
            Ok(table) => match read_up_case(alloc, &mut image, &table) {
                Err(fault) => end_text(&mut text, Err(fault))?,
                Ok(names) => {
                    let same = names.same_name(b"a\0B\0", b"A\0B\0")
                        && !names.same_name(b"b\0", b"B\0");
                    text.push_str(if same { "same" } else { "other names" })?;
                }
            },
        }
        assert_eq!(rt; text.as_str(), want, "{name}");
    }
    Ok(())
}
