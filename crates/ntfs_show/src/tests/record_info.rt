//! What is printed of the records of the small volume.

ghost use Rattle.std.specs.Prelude.{◌<◌};

use super::{ONE, TWO, Told, begin, end, patch, record_at, resident, runs, volume};
use crate::{ShowFault, info_record, show_record};
use ntfs_base::{Image, Leaves, MemImage, MemSink, Missing, Rule, Sink};
use ntfs_volume::{VolumeFault, open_volume, read_table};
use std::alloc::{AllocError, Global};
use std::process::Abort;
use std::test::Fail;

/// Another type of the attribute at a place of a record.
fn with_kind(bytes: &mut [u8], number: usize, place: usize, kind: u32)
    requires number { number < 64 }
    requires place { place < 1000 }
{
    patch(bytes, record_at(number) + place, &kind.to_le_bytes());
}

/// Record 24: a value, a stream without a VCN, one with a hole and a name that ends with half a character, an extent
/// without a VCN behind five, two runs side by side, and values of types with little to show.
fn shapes(bytes: &mut [u8]) {
    begin(bytes, 24, 0);
    patch(bytes, record_at(24) + 0x10, &[7, 1, 2, 0]);
    patch(bytes, record_at(24) + 0x16, &[3]);
    resident(bytes, 24, 56, [0x10, 32, 5]);
    let none = Told {
        next: 0,
        size: 0,
        valid: 0,
        pairs: &[0],
        ..TWO
    };
    runs(bytes, 24, 88, none);
    let hole = Told {
        name: &[0x61, 0, 0x34, 0xD8],
        next: 5,
        size: 4500,
        valid: 100,
        pairs: &[0x01, 3, 0x11, 2, 50, 0],
        ..TWO
    };
    runs(bytes, 24, 168, hole);
    with_kind(bytes, 24, 168, 0xA0);
    let behind = Told {
        name: b"s\0",
        lowest: 5,
        next: 5,
        pairs: &[0],
        ..ONE
    };
    runs(bytes, 24, 248, behind);
    let apart = Told {
        pairs: &[0x11, 1, 50, 0x11, 1, 1, 0],
        ..TWO
    };
    runs(bytes, 24, 328, apart);
    resident(bytes, 24, 408, [0, 24, 0]);
    resident(bytes, 24, 432, [0, 24, 0]);
    with_kind(bytes, 24, 432, 0x100);
    end(bytes, 24, 456);
}

/// The small volume with record 24.
fn shaped(alloc: Global) -> Result<Vec<u8>, AllocError> {
    let mut bytes = volume(alloc)?;
    shapes(&mut bytes);
    Ok(bytes)
}

/// Prints a record of a volume at types that are known by their bounds alone.
fn show<G: Image, K: Sink>(
    alloc: Global,
    image: &mut G,
    number: u64,
    out: &mut K,
) -> Result<Result<(), ShowFault>, VolumeFault> {
    let mut volume = open_volume(alloc, image)?;
    Ok(info_record(alloc, &mut volume, number, out))
}

/// Prints it by the table of a volume alone.
fn show_by_table<G: Image, K: Sink>(
    alloc: Global,
    image: &mut G,
    number: u64,
    out: &mut K,
) -> Result<Result<(), ShowFault>, VolumeFault> {
    let table = read_table(alloc, image)?;
    Ok(show_record(alloc, image, &table, number, out))
}

/// These texts, one behind the other.
fn joined(alloc: Global, texts: &[&str]) -> Result<String, AllocError> {
    let mut all = String::new(alloc);
    for text in texts {
        all.push_str(text)?;
    }
    Ok(all)
}

/// Both calls answer this over a volume, and put these texts.
fn prints(
    rt: &impl Abort,
    alloc: Global,
    bytes: &[u8],
    number: u64,
    answer: Result<(), ShowFault>,
    want: &[&str],
) -> Result<(), Fail> {
    let want = joined(alloc, want)?;
    let mut image = MemImage::new(alloc, Vec::from_slice(alloc, bytes)?);
    let mut out = MemSink::new(alloc);
    assert_eq!(rt; show(alloc, &mut image, number, &mut out), Ok(answer));
    assert_eq!(rt; out.content.as_slice(), want.as_bytes());
    let mut out = MemSink::new(alloc);
    assert_eq!(rt;
        show_by_table(alloc, &mut image, number, &mut out),
        Ok(answer)
    );
    assert_eq!(rt; out.content.as_slice(), want.as_bytes());
    Ok(())
}

/// What is printed of record 24, from its head on.
const SHAPES: [&str; 8] = [
    "record: 24\nsequence: 263\nlinks: 2\nflags: 3\nbase: 0\nbytes in use: 464\n",
    "0x10 \"\" resident 5\n",
    "0x80 \"\" vcn 0--1 size 0 valid 0 runs 0\n",
    "0xa0 \"a\u{FFFD}\" vcn 0-4 size 4500 valid 100 runs 2\n",
    "0x80 \"s\" vcn 5-4 size 1000 valid 900 runs 0\n",
    "0x80 \"\" vcn 0-1 size 1500 valid 1030 runs 2\n",
    "0x0 \"\" resident 0\n",
    "0x100 \"\" resident 0\n",
];

#[test]
fn records_are_printed_with_their_attributes(rt: HostRuntime) -> Result<(), Fail> {
    let alloc = rt.alloc();
    let bytes = shaped(alloc)?;
    let file = [
        "record: 16\nsequence: 1\nlinks: 1\nflags: 1\nbase: 0\nbytes in use: 216\n",
        "0x30 \"\" resident 4\n",
        "0x80 \"\" resident 12\n",
        "0x80 \"s\" vcn 0-0 size 1000 valid 900 runs 1\n",
    ];
    // An extension record, with the whole reference of its base record.
    let extension = [
        "record: 20\nsequence: 1\nlinks: 1\nflags: 1\nbase: 281474976710675\nbytes in use: 176\n",
        "0x20 \"\" resident 5\n",
        "0x80 \"\" vcn 0-0 size 1500 valid 900 runs 1\n",
    ];
    let cases: [(u64, &[&str]); 3] = [(16, &file), (20, &extension), (24, &SHAPES)];
    for (number, want) in cases {
        prints(&rt, alloc, &bytes, number, Ok(()), want)?;
    }
    Ok(())
}

#[test]
fn records_that_are_not_in_use_are_not_found(rt: HostRuntime) -> Result<(), Fail> {
    let alloc = rt.alloc();
    let mut bytes = shaped(alloc)?;
    patch(&mut bytes, record_at(16), b"BAAD");
    patch(&mut bytes, record_at(24) + 0x16, &[2]);
    for number in [16, 23, 24, 32, u64::MAX] {
        let fault = ShowFault::NotFound {
            what: Missing::Record { number },
        };
        prints(&rt, alloc, &bytes, number, Err(fault), &[])?;
    }
    Ok(())
}

#[test]
fn damage_comes_behind_the_lines_above_it(rt: HostRuntime) -> Result<(), Fail> {
    let alloc = rt.alloc();
    let shapes = SHAPES;
    let at = record_at(24);
    let cases: [(usize, &[u8], Rule, &[&str]); 8] = [
        // A torn record, one that tells another number, and an attribute that is too short.
        (at + 510, &[6], Rule::C4, &[]),
        (at + 0x2C, &[25], Rule::C4, &[]),
        (at + 408 + 4, &[20], Rule::C4, &[]),
        // Pairs that spell a VCN where there is none, that can't be read, that reach past the volume, and that spell
        // one VCN more.
        (at + 88 + 72, &[0x11, 1, 50, 0], Rule::C7, &shapes[..2]),
        (at + 168 + 72, &[0x91], Rule::C7, &shapes[..3]),
        (at + 168 + 76, &[63], Rule::C7, &shapes[..3]),
        (at + 168 + 73, &[4], Rule::C7, &shapes[..3]),
        (at + 328 + 73, &[2], Rule::C7, &shapes[..5]),
    ];
    for (place, text, rule, want) in cases {
        let mut bytes = shaped(alloc)?;
        patch(&mut bytes, place, text);
        let fault = ShowFault::Damaged { rule, number: 24 };
        prints(&rt, alloc, &bytes, 24, Err(fault), want)?;
    }
    Ok(())
}

/// The opening reads the boot sector and record 0; then the record is read, and all is put at once.
#[test]
fn each_call_of_a_record_failing_alone(rt: HostRuntime) -> Result<(), Fail> {
    let alloc = rt.alloc();
    let mut image = MemImage::new(alloc, shaped(alloc)?);
    image.inside.calls.fail(alloc, 3, Leaves::Before)?;
    let mut out = MemSink::new(alloc);
    assert_eq!(rt;
        show(alloc, &mut image, 24, &mut out),
        Ok(Err(ShowFault::ReadFault))
    );
    assert!(rt; out.content.is_empty());
    assert_eq!(rt; image.inside.calls.made, 3);
    // A volume whose record 24 is right, and one where it is damaged.
    for byte in [0x01, 0x91] {
        let mut bytes = shaped(alloc)?;
        patch(&mut bytes, record_at(24) + 168 + 72, &[byte]);
        let mut image = MemImage::new(alloc, bytes);
        let mut out = MemSink::new(alloc);
        out.calls.fail(alloc, 1, Leaves::Front { bytes: 3 })?;
        assert_eq!(rt;
            show(alloc, &mut image, 24, &mut out),
            Ok(Err(ShowFault::WriteFault))
        );
        assert_eq!(rt; out.content.as_slice(), b"rec".as_slice());
        assert_eq!(rt; out.calls.made, 1);
    }
    Ok(())
}

/// Prints a record: whether all was put. Where it wasn't, memory was wanting, and a front was put.
/// `tools/refused_memory.py` has each allocation of it refused in turn.
fn printing_is_whole(rt: &impl Abort, host: &HostRuntime) -> Result<bool, Fail> {
    let alloc = host.alloc();
    let (Ok(bytes), Ok(want)) = (shaped(alloc), joined(alloc, &SHAPES)) else {
        return Ok(false);
    };
    let mut image = MemImage::new(alloc, bytes);
    let mut out = MemSink::new(alloc);
    let answer = show(alloc, &mut image, 24, &mut out);
    assert!(rt; want.as_bytes().starts_with(out.content.as_slice()));
    if answer == Ok(Ok(())) {
        assert_eq!(rt; out.content.len(), want.len());
        return Ok(true);
    }
    assert!(rt; answer == Err(VolumeFault::NoMemory) || answer == Ok(Err(ShowFault::NoMemory)));
    Ok(false)
}

#[test]
fn with_ample_memory_a_record_is_printed(rt: HostRuntime) -> Result<(), Fail> {
    assert!(rt; printing_is_whole(&rt, &rt)?);
    Ok(())
}
