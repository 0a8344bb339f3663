//! `ntfsmake`.
use crate::case::{Case, Image, NO_FAULT, all_answer, all_follow, run_over};
use crate::info::{INFO, LINES, ODD_LINES};
use crate::statuses::{LINE, NUMBER, OUTPUT_THERE};
use crate::volume::{BOOT, BOOT_LEN, Patch, image_of, patch};
use ntfs_base::MemShelf;
use ntfs_run::Status;
use std::test::Fail;

const MAKE: [&str; 5] = ["ntfsmake", "v", "0", "1024", "4096"];

/// What the boot sector of this volume has besides `BOOT`: a jump, and the mark at its end.
const JUMP_AND_MARK: [Patch; 2] = [(0x00, b"\xEB\x52\x90"), (0x1FE, b"\x55\xAA")];

/// Record 16 of this volume: its head, $STANDARD_INFORMATION at 0x38, $FILE_NAME at 0x98, $DATA at 0x110 and the end.
/// Its other bytes are zero.
const RECORD_16: [Patch; 18] = [
    (0x00, b"FILE\x30\0\x03\0"),
    (0x10, b"\x01\0\x01\0\x38\0\x01\0\x40\x01\0\0\0\x04\0\0"),
    (0x28, b"\x03"),
    (0x2C, b"\x10"),
    (0x30, b"\x01"),
    (0x38, b"\x10\0\0\0\x60\0\0\0\0\0\x18"),
    (0x48, b"\x48\0\0\0\x18"),
    (0x98, b"\x30\0\0\0\x78\0\0\0\0\0\x18\0\0\0\x01"),
    (0xA8, b"\x5A\0\0\0\x18"),
    (0xB0, b"\x05\0\0\0\0\0\x01"),
    (0xF0, b"\x0C\x03"),
    (0xF2, b"r\0e\0s\0i\0d\0e\0n\0t\0.\0t\0x\0t"),
    (0x110, b"\x80\0\0\0\x28\0\0\0\0\0\x18\0\0\0\x02"),
    (0x120, b"\x0C\0\0\0\x18"),
    (0x128, b"hello, ntfs\n"),
    (0x138, b"\xFF\xFF\xFF\xFF"),
    (0x1FE, b"\x01"),
    (0x3FE, b"\x01"),
];

/// Where record 16 begins: $MFT begins at cluster 3.
const AT_RECORD_16: usize = 28_672;

#[test]
fn a_volume_is_made(rt: HostRuntime) -> Result<(), Fail> {
    let alloc = rt.alloc();
    let ran = run_over(alloc, &MAKE, None, NO_FAULT)?;
    assert_eq!(rt; ran.status, Status::Done);
    assert_eq!(rt; ran.out.content.len(), 0);
    assert_eq!(rt; ran.err.content.len(), 0);
    let content = ran.shelf.content("v").ok_or("no file")?;
    assert_eq!(rt; content.len(), BOOT_LEN);
    for (place, byte) in [
        (31 * 4096, 0xFB),
        (77 * 4096, 0x12),
        (77 * 4096 + 1, 0x13),
        (77 * 4096 + 2, 0x14),
    ] {
        assert_eq!(rt; content.get(place), Some(&byte));
    }
    Ok(())
}

#[test]
fn the_boot_sector_and_record_16_are_made_whole(rt: HostRuntime) -> Result<(), Fail> {
    let alloc = rt.alloc();
    let ran = run_over(alloc, &MAKE, None, NO_FAULT)?;
    let content = ran.shelf.content("v").ok_or("no file")?;
    let mut boot = image_of(alloc, 512, &BOOT).ok_or("no boot sector")?;
    patch(&mut boot, &JUMP_AND_MARK).ok_or("no boot sector")?;
    let record = image_of(alloc, 1024, &RECORD_16).ok_or("no record")?;
    for (place, text) in [(0, &boot), (8192 * 512, &boot), (AT_RECORD_16, &record)] {
        let rest = content.get(place..).ok_or("too short")?;
        assert!(rt; rest.starts_with(text), "at {place}");
    }
    Ok(())
}

/// One command line after the other over the same shelf.
#[test]
fn a_made_volume_stays(rt: HostRuntime) -> Result<(), Fail> {
    let alloc = rt.alloc();
    let mut shelf = MemShelf::new(alloc);
    let empty = Image::of(0);
    let cases = [
        Case::puts(&MAKE, empty, b""),
        Case::puts(&INFO, empty, LINES),
        Case::refuses(&MAKE, empty, OUTPUT_THERE, 2, "ntfsmake: file exists: v\n"),
        Case::puts(&["ntfsmake", "w", "0x1", "1024", "0x1000"], empty, b""),
        Case::puts(&["ntfsinfo", "-m", "w"], empty, ODD_LINES),
        Case::puts(&INFO, empty, LINES),
    ];
    all_follow(&rt, alloc, &mut shelf, &cases)
}

#[test]
fn numbers_of_clusters_are_refused(rt: HostRuntime) -> Result<(), Fail> {
    let number = Case::refuses(&MAKE, Image::of(0), NUMBER, 1, "ntfsmake: usage: number\n");
    let cases = [
        number.with_words(&["ntfsmake", "n", "x", "1024", "4096"]),
        number.with_words(&["ntfsmake", "n", "0", "", "4096"]),
        number.with_words(&["ntfsmake", "n", "0", "1024", "4k"]),
        number.with_words(&["ntfsmake", "n", "0", "1023", "4096"]),
        number.with_words(&["ntfsmake", "n", "0", "1048577", "4096"]),
        number.with_words(&["ntfsmake", "n", "0", "2047", "512"]),
    ];
    all_answer(&rt, rt.alloc(), b"", &cases)
}

#[test]
fn sizes_and_large_numbers_are_refused(rt: HostRuntime) -> Result<(), Fail> {
    let number = Case::refuses(&MAKE, Image::of(0), NUMBER, 1, "ntfsmake: usage: number\n");
    let cases = [
        number.with_words(&["ntfsmake", "n", "0", "1024", "1000"]),
        number.with_words(&["ntfsmake", "n", "0", "1024", "256"]),
        number.with_words(&["ntfsmake", "n", "0", "1024", "131072"]),
        number.with_words(&["ntfsmake", "n", "0", "4294968320", "4096"]),
        number.with_words(&["ntfsmake", "n", "18446744073709551616", "1024", "4096"]),
    ];
    all_answer(&rt, rt.alloc(), b"", &cases)
}

#[test]
fn words_of_ntfsmake_are_refused(rt: HostRuntime) -> Result<(), Fail> {
    let line = Case::refuses(&MAKE, Image::of(0), LINE, 1, "ntfsmake: usage: line\n");
    let cases = [
        line.with_words(&["ntfsmake"]),
        line.with_words(&["ntfsmake", "n", "0", "1024"]),
        line.with_words(&["ntfsmake", "-n", "0", "1024", "4096"]),
        line.with_words(&["ntfsmake", "n", "0", "1024", "4096", "v"]),
    ];
    all_answer(&rt, rt.alloc(), b"", &cases)
}
