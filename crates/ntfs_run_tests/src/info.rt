//! `ntfsinfo`, and words that name no tool.
use crate::case::{Case, Image, NO_FAULT, all_answer, all_follow, run_over};
use crate::statuses::{LINE, NO_IMAGE, TOOL, bad_geometry, damage_of, image_short, no_record};
use crate::volume::{BOOT, BOOT_LEN, image_of};
use ntfs_base::{MemShelf, Rule};
use ntfs_run::Status;
use std::test::Fail;

pub const LINES: &[u8] = b"sector size: 512\n\
    cluster size: 4096\n\
    record size: 1024\n\
    index block size: 4096\n\
    sectors: 8192\n\
    clusters: 1024\n\
    mft cluster: 3\n\
    mirror cluster: 12\n\
    serial: 0000000000000000\n";

/// The lines of a volume with seven sectors more, which fill no cluster, and the serial number 1.
pub const ODD_LINES: &[u8] = b"sector size: 512\n\
    cluster size: 4096\n\
    record size: 1024\n\
    index block size: 4096\n\
    sectors: 8199\n\
    clusters: 1024\n\
    mft cluster: 3\n\
    mirror cluster: 12\n\
    serial: 0000000000000001\n";

pub const INFO: [&str; 3] = ["ntfsinfo", "-m", "v"];

#[test]
fn geometry_is_printed(rt: HostRuntime) -> Result<(), Fail> {
    let alloc = rt.alloc();
    let whole = Image::of(BOOT_LEN);
    let cases = [
        Case::puts(&INFO, whole, LINES),
        Case::puts(
            &INFO,
            whole.with_bytes(&[(0x28, &[0x07]), (0x48, &[1])]),
            ODD_LINES,
        ),
    ];
    let base = image_of(alloc, BOOT_LEN, &BOOT).ok_or("no image")?;
    all_answer(&rt, alloc, &base, &cases)
}

#[test]
fn words_are_refused(rt: HostRuntime) -> Result<(), Fail> {
    let empty = Image::of(0);
    let tool = Case::refuses(&[], empty, TOOL, 1, "ntfsprogs: usage: tool\n");
    let line = Case::refuses(&[], empty, LINE, 1, "ntfsinfo: usage: line\n");
    let absent = Case::refuses(&[], empty, NO_IMAGE, 2, "ntfsinfo: no such file: w\n");
    let cases = [
        tool,
        tool.with_words(&["ntfsfind", "-m", "v"]),
        line.with_words(&["ntfsinfo", "-m"]),
        line.with_words(&["ntfsinfo", "-m", "-v"]),
        line.with_words(&["ntfsinfo", "m", "v"]),
        line.with_words(&["ntfsinfo", "-m", "v", "w"]),
        absent.with_words(&["ntfsinfo", "-m", "w"]),
    ];
    all_answer(&rt, rt.alloc(), b"", &cases)
}

#[test]
fn images_are_refused(rt: HostRuntime) -> Result<(), Fail> {
    let sector = Image::of(512);
    let cut = Image::of(4_194_303).with_bytes(&BOOT);
    let refused = Case::refuses(
        &INFO,
        sector,
        Status::NotNtfs,
        3,
        "ntfsinfo: not an NTFS volume\n",
    );
    let cases = [
        refused.with_image(Image::of(511)).with_refusal(
            image_short(511, 512),
            "ntfsinfo: image has 511 bytes, needs 512\n",
        ),
        refused,
        refused
            .with_image(sector.with_bytes(&[(3, b"NTFS    ")]))
            .with_refusal(
                bad_geometry(1, 0),
                "ntfsinfo: bad geometry: field 1 value 0\n",
            ),
        refused.with_image(cut).with_refusal(
            image_short(4_194_303, 4_194_304),
            "ntfsinfo: image has 4194303 bytes, needs 4194304\n",
        ),
    ];
    all_answer(&rt, rt.alloc(), b"", &cases)
}

#[test]
fn each_field_is_refused(rt: HostRuntime) -> Result<(), Fail> {
    let alloc = rt.alloc();
    let sector = Image::of(512);
    let refused = Case::refuses(&INFO, sector, Status::NotNtfs, 3, "");
    let cases = [
        refused
            .with_image(sector.with_bytes(&[(0x0B, &[0x01])]))
            .with_refusal(
                bad_geometry(1, 513),
                "ntfsinfo: bad geometry: field 1 value 513\n",
            ),
        refused
            .with_image(sector.with_bytes(&[(0x0D, &[3])]))
            .with_refusal(
                bad_geometry(2, 3),
                "ntfsinfo: bad geometry: field 2 value 3\n",
            ),
        refused
            .with_image(sector.with_bytes(&[(0x0B, &[0x00, 0x04, 128])]))
            .with_refusal(
                bad_geometry(3, 131_072),
                "ntfsinfo: bad geometry: field 3 value 131072\n",
            ),
        refused
            .with_image(sector.with_bytes(&[(0x40, &[0xF7])]))
            .with_refusal(
                bad_geometry(4, 0xF7),
                "ntfsinfo: bad geometry: field 4 value 247\n",
            ),
        refused
            .with_image(sector.with_bytes(&[(0x44, &[0])]))
            .with_refusal(
                bad_geometry(5, 0),
                "ntfsinfo: bad geometry: field 5 value 0\n",
            ),
        refused
            .with_image(sector.with_bytes(&[(0x28, &[7, 0])]))
            .with_refusal(
                bad_geometry(6, 7),
                "ntfsinfo: bad geometry: field 6 value 7\n",
            ),
        refused
            .with_image(sector.with_bytes(&[(0x30, &[0x00, 0x04])]))
            .with_refusal(
                bad_geometry(7, 1024),
                "ntfsinfo: bad geometry: field 7 value 1024\n",
            ),
        refused
            .with_image(sector.with_bytes(&[(0x38, &[0x00, 0x04])]))
            .with_refusal(
                bad_geometry(8, 1024),
                "ntfsinfo: bad geometry: field 8 value 1024\n",
            ),
    ];
    let base = image_of(alloc, 512, &BOOT).ok_or("no image")?;
    all_answer(&rt, alloc, &base, &cases)
}

const MAKE: [&str; 5] = ["ntfsmake", "v", "0", "1024", "4096"];

const RECORD_16: &[u8] = b"record: 16\n\
    sequence: 1\n\
    links: 1\n\
    flags: 1\n\
    base: 0\n\
    bytes in use: 320\n\
    0x10 \"\" resident 72\n\
    0x30 \"\" resident 90\n\
    0x80 \"\" resident 12\n";

/// An extension, whose base record is 21 with sequence number 1.
const RECORD_22: &[u8] = b"record: 22\n\
    sequence: 1\n\
    links: 0\n\
    flags: 1\n\
    base: 281474976710677\n\
    bytes in use: 136\n";

#[test]
fn records_are_printed(rt: HostRuntime) -> Result<(), Fail> {
    let alloc = rt.alloc();
    let mut shelf = MemShelf::new(alloc);
    let empty = Image::of(0);
    let record = Case::puts(&[], empty, RECORD_16);
    let missing = Case::refuses(
        &[],
        empty,
        no_record(12),
        7,
        "ntfsinfo: not found: record 12\n",
    );
    let cases = [
        Case::puts(&MAKE, empty, b""),
        record.with_words(&["ntfsinfo", "-i", "16", "v"]),
        record.with_words(&["ntfsinfo", "v", "--inode=0x10"]),
        missing.with_words(&["ntfsinfo", "-i12", "v"]),
    ];
    all_follow(&rt, alloc, &mut shelf, &cases)
}

/// The lines above the attribute whose pairs are wrong stand on the output.
#[test]
fn a_damaged_record_is_printed_in_part(rt: HostRuntime) -> Result<(), Fail> {
    let alloc = rt.alloc();
    let made = run_over(alloc, &MAKE, None, NO_FAULT)?;
    let base = made.shelf.content("v").ok_or("no file")?;
    let pairs = [(0x8878, b"\x91".as_slice())];
    let damage = Case::refuses(
        &["ntfsinfo", "-i", "22", "v"],
        Image::of(BOOT_LEN).with_bytes(&pairs),
        damage_of(Rule::C7, 22),
        4,
        "ntfsinfo: damaged: rule C7 record 22\n",
    );
    let cases = [Case {
        output: RECORD_22,
        ..damage
    }];
    all_answer(&rt, alloc, base, &cases)
}
