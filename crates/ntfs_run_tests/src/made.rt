//! `ntfscat` over a volume that `ntfsmake` makes: 1,024 clusters of 4,096 bytes, $MFT's records 0 to 31 from cluster 3
//! on, and those from 32 on by the attribute list of record 0 and its extension, record 28.
ghost use Rattle.std.specs.Prelude.{◌≡◌, []};
ghost use Rattle.ntfs_base.specs.MemShelf.{seen_mem_shelf};

use crate::case::{Case, Image, NO_FAULT, all_answer, all_follow, run_over, run_words};
use crate::statuses::{damage_of, no_record, not_plain};
use crate::volume::{BOOT_LEN, between_zeros};
use ntfs_base::{MemShelf, MemSink, Missing, Rule};
use ntfs_run::Status;
use std::alloc::Global;
use std::process::Abort;
use std::test::Fail;

const MAKE: [&str; 5] = ["ntfsmake", "v", "0", "1024", "4096"];

/// Where record 0 begins, and where record 28 does.
const AT_RECORD_0: usize = 12_288;

const AT_RECORD_28: usize = 40_960;

/// Where records 21 and 22 begin.
const AT_RECORD_21: usize = 33_792;

const AT_RECORD_22: usize = 34_816;

/// What a stream has to be.
#[derive(Clone, Copy)]
enum Want<'a> {
    /// These bytes.
    Bytes { bytes: &'a [u8] },
    /// So many bytes: the first is this, and each one more than the one before, modulo 256.
    Rising { first: u8, len: usize },
    /// So many bytes with this sum, each times one more than its place modulo 65,521.
    Sum { len: usize, sum: u64 },
}

fn rises(bytes: &[u8], first: u8) -> bool {
    let mut next = first;
    for byte in bytes {
        if *byte != next {
            return false;
        }
        next = next.wrapping_add(1);
    }
    true
}

fn weighed_sum(bytes: &[u8]) -> u64 {
    let mut sum = 0u64;
    let mut weight = 0u64;
    for byte in bytes {
        weight = if weight < 65521 { weight + 1 } else { 1 };
        sum = sum.wrapping_add(u64::from(*byte).wrapping_mul(weight));
    }
    sum
}

impl Want<'_> {
    fn is(&self, put: &[u8]) -> bool {
        match *self {
            Want::Bytes { bytes } => put == bytes,
            Want::Rising { first, len } => put.len() == len && rises(put, first),
            Want::Sum { len, sum } => put.len() == len && weighed_sum(put) == sum,
        }
    }
}

/// A record's number as a word, and its stream.
type Row<'a> = (&'a str, Want<'a>);

/// The records 32 to 47: of 1, 2, 3 and 4 clusters in turn, of which byte j is the record's number and j, modulo 256.
const FILES: [Row<'static>; 16] = [
    (
        "32",
        Want::Rising {
            first: 32,
            len: 4096,
        },
    ),
    (
        "33",
        Want::Rising {
            first: 33,
            len: 8192,
        },
    ),
    (
        "34",
        Want::Rising {
            first: 34,
            len: 12_288,
        },
    ),
    (
        "35",
        Want::Rising {
            first: 35,
            len: 16_384,
        },
    ),
    (
        "36",
        Want::Rising {
            first: 36,
            len: 4096,
        },
    ),
    (
        "37",
        Want::Rising {
            first: 37,
            len: 8192,
        },
    ),
    (
        "38",
        Want::Rising {
            first: 38,
            len: 12_288,
        },
    ),
    (
        "39",
        Want::Rising {
            first: 39,
            len: 16_384,
        },
    ),
    (
        "40",
        Want::Rising {
            first: 40,
            len: 4096,
        },
    ),
    (
        "41",
        Want::Rising {
            first: 41,
            len: 8192,
        },
    ),
    (
        "42",
        Want::Rising {
            first: 42,
            len: 12_288,
        },
    ),
    (
        "43",
        Want::Rising {
            first: 43,
            len: 16_384,
        },
    ),
    (
        "44",
        Want::Rising {
            first: 44,
            len: 4096,
        },
    ),
    (
        "45",
        Want::Rising {
            first: 45,
            len: 8192,
        },
    ),
    (
        "46",
        Want::Rising {
            first: 46,
            len: 12_288,
        },
    ),
    (
        "47",
        Want::Rising {
            first: 47,
            len: 16_384,
        },
    ),
];

const EMPTY: Want<'static> = Want::Bytes { bytes: b"" };

/// The other records whose streams are the same with each seed: $LogFile, $AttrDef, $BadClus, $Secure, $UpCase, and the
/// files. Record 21's stream has one of its two clusters by record 22.
const OTHERS: [Row<'static>; 14] = [
    (
        "2",
        Want::Sum {
            len: 65_536,
            sum: 547_366_068_255,
        },
    ),
    ("4", EMPTY),
    ("8", EMPTY),
    ("9", EMPTY),
    (
        "10",
        Want::Sum {
            len: 131_072,
            sum: 593_622_798_843,
        },
    ),
    (
        "16",
        Want::Bytes {
            bytes: b"hello, ntfs\n",
        },
    ),
    ("17", EMPTY),
    (
        "18",
        Want::Sum {
            len: 16_384,
            sum: 5_361_594_368,
        },
    ),
    (
        "19",
        Want::Sum {
            len: 4101,
            sum: 1375,
        },
    ),
    (
        "21",
        Want::Rising {
            first: 21,
            len: 8192,
        },
    ),
    ("24", Want::Bytes { bytes: b"inner\n" }),
    ("25", EMPTY),
    ("26", Want::Bytes { bytes: b"A\n" }),
    ("27", Want::Bytes { bytes: b"a\n" }),
];

/// The sums of $MFT, of which one half stands in record 28, of its mirror, $Bitmap and $Boot. Sums are those of the
/// streams that `bench/make_reference.py`, an independent generator, has in its tables.
const SEED_0: [u64; 4] = [3_391_368_690, 22_566_951, 34_202, 169_394];

const SEED_1: [u64; 4] = [3_391_368_690, 22_566_951, 34_202, 169_754];

const SEED_2: [u64; 4] = [3_434_327_497, 23_600_213, 439_658, 195_207];

/// `ntfscat` puts this stream of a record of the volume `v` of a shelf.
fn shows(rt: &impl Abort, alloc: Global, shelf: &mut MemShelf, row: Row<'_>) -> Result<(), Fail>
    requires { (seen_mem_shelf shelf.old.places.items shelf.old.attached.items).attached ≡ [] }
    ensures { (seen_mem_shelf shelf.new.places.items shelf.new.attached.items).attached ≡ [] }
{
    let (number, want) = row;
    let mut out = MemSink::new(alloc);
    let mut err = MemSink::new(alloc);
    let words = ["ntfscat", "-i", number, "v"];
    let status = run_words(alloc, &words, shelf, &mut out, &mut err)?;
    assert_eq!(rt; status, Status::Done, "record {number}");
    assert!(rt; want.is(&out.content), "record {number}");
    assert_eq!(rt; err.content.len(), 0);
    Ok(())
}

/// `ntfscat` puts these streams of records of the volume `v` of a shelf.
fn all_show(
    rt: &impl Abort,
    alloc: Global,
    shelf: &mut MemShelf,
    rows: &[Row<'_>],
) -> Result<(), Fail>
    requires { (seen_mem_shelf shelf.old.places.items shelf.old.attached.items).attached ≡ [] }
    ensures { (seen_mem_shelf shelf.new.places.items shelf.new.attached.items).attached ≡ [] }
{
    'rows: for row in rows {
        shows(rt, alloc, shelf, *row)?;
    }
    Ok(())
}

/// The volume `v` of a seed, in a shelf of its own, shows each unnamed stream.
fn shows_all(rt: &impl Abort, alloc: Global, seed: &str, sums: [u64; 4]) -> Result<(), Fail> {
    let mut shelf = MemShelf::new(alloc);
    let mut out = MemSink::new(alloc);
    let mut err = MemSink::new(alloc);
    let words = ["ntfsmake", "v", seed, "1024", "4096"];
    let status = run_words(alloc, &words, &mut shelf, &mut out, &mut err)?;
    assert_eq!(rt; status, Status::Done);
    let [table, mirror, bitmap, boot] = sums;
    let own = [
        (
            "0",
            Want::Sum {
                len: 65_536,
                sum: table,
            },
        ),
        (
            "1",
            Want::Sum {
                len: 4096,
                sum: mirror,
            },
        ),
        (
            "6",
            Want::Sum {
                len: 128,
                sum: bitmap,
            },
        ),
        (
            "7",
            Want::Sum {
                len: 8192,
                sum: boot,
            },
        ),
    ];
    all_show(rt, alloc, &mut shelf, &own)?;
    all_show(rt, alloc, &mut shelf, &OTHERS)?;
    all_show(rt, alloc, &mut shelf, &FILES)
}

#[test]
fn every_stream_of_seed_0_is_put(rt: HostRuntime) -> Result<(), Fail> {
    shows_all(&rt, rt.alloc(), "0", SEED_0)
}

#[test]
fn every_stream_of_seed_1_is_put(rt: HostRuntime) -> Result<(), Fail> {
    shows_all(&rt, rt.alloc(), "1", SEED_1)
}

#[test]
fn every_stream_of_seed_2_is_put(rt: HostRuntime) -> Result<(), Fail> {
    shows_all(&rt, rt.alloc(), "2", SEED_2)
}

/// A stream with two holes, one of which ten bytes are initialised, and one of two extents in two records.
#[test]
fn streams_of_a_made_volume_are_put(rt: HostRuntime) -> Result<(), Fail> {
    let alloc = rt.alloc();
    let mut shelf = MemShelf::new(alloc);
    let empty = Image::of(0);
    let sparse = between_zeros(alloc, 18, [8192, 4096, 4096])?;
    let half = between_zeros(alloc, 19, [0, 10, 4091])?;
    let listed = between_zeros(alloc, 21, [0, 8192, 0])?;
    let cases = [
        Case::puts(&MAKE, empty, b""),
        Case::puts(&["ntfscat", "-i", "18", "v"], empty, &sparse),
        Case::puts(&["ntfscat", "-i", "19", "v"], empty, &half),
        Case::puts(&["ntfscat", "-i", "21", "v"], empty, &listed),
    ];
    all_follow(&rt, alloc, &mut shelf, &cases)
}

#[test]
fn streams_of_a_made_volume_are_refused(rt: HostRuntime) -> Result<(), Fail> {
    let alloc = rt.alloc();
    let mut shelf = MemShelf::new(alloc);
    let empty = Image::of(0);
    let no_stream = Case::refuses(
        &MAKE,
        empty,
        Status::NotFound {
            what: Missing::Stream,
        },
        7,
        "ntfscat: not found: stream\n",
    );
    let cases = [
        Case::puts(&MAKE, empty, b""),
        // $Volume and a directory.
        no_stream.with_words(&["ntfscat", "-i", "3", "v"]),
        no_stream.with_words(&["ntfscat", "-i", "5", "v"]),
        // An extension record, and one that isn't in use.
        no_stream
            .with_words(&["ntfscat", "-i", "28", "v"])
            .with_refusal(no_record(28), "ntfscat: not found: record 28\n"),
        no_stream
            .with_words(&["ntfscat", "-i", "63", "v"])
            .with_refusal(no_record(63), "ntfscat: not found: record 63\n"),
        Case::refuses(
            &["ntfscat", "-i", "20", "v"],
            empty,
            not_plain(0x0001),
            8,
            "ntfscat: stream is not plain: flags 0x0001\n",
        ),
    ];
    all_follow(&rt, alloc, &mut shelf, &cases)
}

/// Nothing is put of a stream whose list or extension record is wrong.
#[test]
fn a_made_list_that_is_damaged_is_refused(rt: HostRuntime) -> Result<(), Fail> {
    let alloc = rt.alloc();
    let made = run_over(alloc, &MAKE, None, NO_FAULT)?;
    let base = made.shelf.content("v").ok_or("no file")?;
    let image = Image::of(BOOT_LEN);
    let words = ["ntfscat", "-i", "21", "v"];
    let listed = between_zeros(alloc, 21, [0, 8192, 0])?;
    let c11 = Case::refuses(
        &words,
        image,
        damage_of(Rule::C11, 21),
        4,
        "ntfscat: damaged: rule C11 record 21\n",
    );
    // The length of the first entry of record 21's list; the flags and the base of record 22.
    let cut = [(AT_RECORD_21 + 0xB4, b"\0".as_slice())];
    let idle = [(AT_RECORD_22 + 0x16, b"\0".as_slice())];
    let other = [(AT_RECORD_22 + 0x20, b"\x05".as_slice())];
    // The end of its first sector, and the first byte of its mapping pairs.
    let torn = [(AT_RECORD_22 + 0x1FE, b"\x09".as_slice())];
    let pairs = [(AT_RECORD_22 + 0x78, b"\x91".as_slice())];
    let cases = [
        Case::puts(&words, image, &listed),
        c11.with_image(image.with_bytes(&cut)),
        c11.with_image(image.with_bytes(&idle)),
        c11.with_image(image.with_bytes(&other)),
        c11.with_image(image.with_bytes(&torn)).with_refusal(
            damage_of(Rule::C4, 22),
            "ntfscat: damaged: rule C4 record 22\n",
        ),
        c11.with_image(image.with_bytes(&pairs)).with_refusal(
            damage_of(Rule::C7, 22),
            "ntfscat: damaged: rule C7 record 22\n",
        ),
    ];
    all_answer(&rt, alloc, base, &cases)
}

#[test]
fn a_made_volume_without_a_map_is_refused(rt: HostRuntime) -> Result<(), Fail> {
    let alloc = rt.alloc();
    let made = run_over(alloc, &MAKE, None, NO_FAULT)?;
    let base = made.shelf.content("v").ok_or("no file")?;
    let image = Image::of(BOOT_LEN);
    let words = ["ntfscat", "-i", "16", "v"];
    let c3 = Case::refuses(
        &words,
        image,
        damage_of(Rule::C3, 0),
        4,
        "ntfscat: damaged: rule C3 record 0\n",
    );
    // The flags and the base of record 28, the length of the first entry of the list, and the lowest VCN of its fourth.
    let idle = [(AT_RECORD_28 + 0x16, b"\0".as_slice())];
    let other = [(AT_RECORD_28 + 0x20, b"\x05".as_slice())];
    let cut = [(AT_RECORD_0 + 0xB4, b"\0".as_slice())];
    let apart = [(AT_RECORD_0 + 0x118, b"\x09".as_slice())];
    // The first byte of the mapping pairs of record 28.
    let pairs = [(AT_RECORD_28 + 0x78, b"\x91".as_slice())];
    let cases = [
        Case::puts(&words, image, b"hello, ntfs\n"),
        c3.with_image(image.with_bytes(&idle)),
        c3.with_image(image.with_bytes(&other)),
        c3.with_image(image.with_bytes(&cut)),
        c3.with_image(image.with_bytes(&apart)),
        c3.with_image(image.with_bytes(&pairs)).with_refusal(
            damage_of(Rule::C3, 28),
            "ntfscat: damaged: rule C3 record 28\n",
        ),
    ];
    all_answer(&rt, alloc, base, &cases)
}
