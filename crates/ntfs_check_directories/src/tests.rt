//! Both rules on a small volume: 64 clusters of 4,096 bytes, $MFT of 12 records at cluster 4. Record 5 is a directory
//! with two names, both of record 11; record 10 has the units from 0 on, of which 0x61 is mapped to 0x41.

use crate::{check_names_of_entries, check_orders};
use ntfs_base::{MemImage, Rule};
use ntfs_rules::{CheckFault, damaged};
use ntfs_volume::read_table;
use std::alloc::{AllocError, Global};
use std::test::Fail;

/// The name of an index's attributes.
const NAME: &[u8] = b"$\0I\x003\x000\0";

/// Where records 5, 10 and 11 stand.
const DIRECTORY: usize = 4 * 4096 + 5 * 1024;

const UP_CASE: usize = 4 * 4096 + 10 * 1024;

const FILE: usize = 4 * 4096 + 11 * 1024;

/// Where the entries of the directory stand, the names in the file, and the size of an entry and of an attribute there.
const ENTRIES: usize = DIRECTORY + 56 + 64;

const ENTRY: usize = 88;

const NAMES: usize = FILE + 56;

const ATTRIBUTE: usize = 96;

/// Writes bytes over others, as far as they reach.
fn put(bytes: &mut [u8], place: usize, text: &[u8]) {
    'bytes: for (to, from) in bytes.iter_mut().skip(place).zip(text) {
        *to = *from;
    }
}

/// Puts a record of this number without attributes, with these flags and the sequence number 3.
fn record(bytes: &mut [u8], place: usize, number: u8, flags: u8) {
    put(bytes, place, b"FILE\x30\0\x03\0");
    let head = [3, 0, 1, 0, 56, 0, flags, 0, 8, 2, 0, 0, 0, 4];
    put(bytes, place.wrapping_add(0x10), &head);
    put(bytes, place.wrapping_add(0x2C), &[number, 0, 0, 0, 5, 0]);
    put(bytes, place.wrapping_add(510), &[5, 0]);
    put(bytes, place.wrapping_add(1022), &[5, 0]);
}

/// Puts unnamed data of one run, and the end of the attributes behind it.
fn data(bytes: &mut [u8], place: usize, run: [u8; 3], size: u32) {
    put(bytes, place, &[0x80, 0, 0, 0, 88, 0, 0, 0, 1, 0, 64]);
    put(bytes, place.wrapping_add(0x18), &[run[1].wrapping_sub(1)]);
    put(bytes, place.wrapping_add(0x20), &[72]);
    put(bytes, place.wrapping_add(0x30), &size.to_le_bytes());
    put(bytes, place.wrapping_add(0x38), &size.to_le_bytes());
    put(bytes, place.wrapping_add(72), &run);
    put(bytes, place.wrapping_add(88), &[0xFF; 4]);
}

/// Puts a $FILE_NAME in record 5, of one unit, in the namespace 1.
fn name(bytes: &mut [u8], place: usize, unit: u8) {
    put(bytes, place, &[5, 0, 0, 0, 0, 0, 3, 0]);
    put(bytes, place.wrapping_add(0x40), &[1, 1, unit, 0]);
}

/// Puts record 5: the root of its index, with two entries and their end.
fn directory(bytes: &mut [u8]) {
    record(bytes, DIRECTORY, 5, 3);
    let root = DIRECTORY + 56;
    put(bytes, root, &[0x90, 0, 0, 0, 0x70, 1, 0, 0, 0, 4, 24, 0]);
    put(bytes, root + 0x10, &[0x50, 1, 0, 0, 32]);
    put(bytes, root + 24, NAME);
    put(bytes, root + 32, &[0x30, 0, 0, 0, 1, 0, 0, 0, 0, 4]);
    put(bytes, root + 48, &[16, 0, 0, 0, 208]);
    entry(bytes, ENTRIES, b'A');
    entry(bytes, ENTRIES + ENTRY, b'b');
    put(bytes, ENTRIES + 2 * ENTRY + 8, &[16, 0, 0, 0, 2]);
    put(bytes, root + 0x170, &[0xFF; 4]);
}

fn entry(bytes: &mut [u8], place: usize, unit: u8) {
    put(bytes, place, &[11, 0, 0, 0, 0, 0, 3, 0, 88, 0, 68]);
    name(bytes, place.wrapping_add(16), unit);
}

/// Puts record 11 with its two names.
fn file(bytes: &mut [u8]) {
    record(bytes, FILE, 11, 1);
    own_name(bytes, NAMES, b'A');
    own_name(bytes, NAMES + ATTRIBUTE, b'b');
    put(bytes, NAMES + 2 * ATTRIBUTE, &[0xFF; 4]);
}

fn own_name(bytes: &mut [u8], place: usize, unit: u8) {
    put(bytes, place, &[0x30, 0, 0, 0, 96]);
    put(bytes, place.wrapping_add(0x10), &[68, 0, 0, 0, 24]);
    name(bytes, place.wrapping_add(24), unit);
}

/// The image of the volume.
fn volume(alloc: Global) -> Result<Vec<u8>, AllocError> {
    let mut bytes = vec![in alloc; 0; 64 * 4096 + 512]?;
    put(&mut bytes, 3, b"NTFS    \0\x02\x08");
    put(&mut bytes, 0x28, &[0, 2]);
    put(&mut bytes, 0x30, &[4]);
    put(&mut bytes, 0x38, &[4]);
    put(&mut bytes, 0x40, &[0xF6]);
    put(&mut bytes, 0x44, &[0xF6]);
    record(&mut bytes, 4 * 4096, 0, 1);
    data(&mut bytes, 4 * 4096 + 56, [0x11, 3, 4], 12_288);
    directory(&mut bytes);
    record(&mut bytes, UP_CASE, 10, 1);
    data(&mut bytes, UP_CASE + 56, [0x11, 32, 20], 131_072);
    file(&mut bytes);
    'units: for unit in 0..0x1_0000u32 {
        let place = (20 * 4096 + 2 * unit) as usize;
        put_unit(&mut bytes, place, unit as u16);
    }
    put(&mut bytes, 20 * 4096 + 2 * 0x61, &[0x41]);
    Ok(bytes)
}

fn put_unit(bytes: &mut [u8], place: usize, unit: u16) {
    if place < bytes.len() && 2 <= bytes.len() - place {
        let [low, high] = unit.to_le_bytes();
        bytes[place] = low;
        bytes[place + 1] = high;
    }
}

/// What is wanted: the record that breaks a rule, where there is one.
fn wanted(rule: Rule, number: Option<u64>) -> Result<(), CheckFault> {
    match number {
        None => Ok(()),
        Some(number) => Err(damaged(rule, number)),
    }
}

#[test]
fn each_rule_names_what_breaks_it(rt: HostRuntime) -> Result<(), Fail> {
    let alloc = rt.alloc();
    let whole = volume(alloc)?;
    for (case, place, byte, order, names) in [
        ("as it is", 0x200, 0, None, None),
        (
            "a name before the other",
            ENTRIES + ENTRY + 0x52,
            b'@',
            Some(5),
            Some(5),
        ),
        (
            "a name that ties",
            ENTRIES + ENTRY + 0x52,
            b'a',
            None,
            Some(5),
        ),
        ("the same name", ENTRIES + ENTRY + 0x52, b'A', Some(5), None),
        (
            "an entry of length 8",
            ENTRIES + ENTRY + 8,
            8,
            Some(5),
            None,
        ),
        ("no $UpCase", UP_CASE, 0, Some(10), None),
        ("another namespace", ENTRIES + 0x51, 2, None, Some(5)),
        (
            "another turn of the directory",
            NAMES + 24 + 6,
            4,
            None,
            Some(5),
        ),
        ("another turn of the file", ENTRIES + 6, 4, None, Some(5)),
        ("no file", FILE, 0, None, Some(5)),
    ] {
        let mut bytes = Vec::from_slice(alloc, &whole)?;
        put(&mut bytes, place, &[byte]);
        let mut image = MemImage::new(alloc, bytes);
        match read_table(alloc, &mut image) {
            Err(_) => Err("a table")?,
            Ok(table) => {
                let told = check_orders(alloc, &mut image, &table);
                assert_eq!(rt; told, wanted(Rule::C13, order), "{case}");
                let told = check_names_of_entries(alloc, &mut image, &table);
                assert_eq!(rt; told, wanted(Rule::C14, names), "{case}");
            }
        }
    }
    Ok(())
}
