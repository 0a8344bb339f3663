//! Streams of a small volume: 64 clusters of 1,024 bytes, $MFT of 32 records at cluster 4, the mirror at 40.
mod owners;
mod record_info;

ghost use Rattle.std.specs.Prelude.{◌<◌, ◌^◌};

use crate::{ShowFault, cat, cat_stream};
use ntfs_base::{Image, Leaves, MemImage, MemSink, Missing, Rule, Sink};
use ntfs_volume::{VolumeFault, open_volume, read_table};
use std::alloc::{AllocError, Global};
use std::process::Abort;
use std::test::Fail;

const LENGTH: usize = 66_560;

/// Writes a text over the bytes, where it lies in them.
fn patch(bytes: &mut [u8], at: usize, text: &[u8]) {
    if at <= bytes.len() && text.len() <= bytes.len() - at {
        bytes[at..at + text.len()].copy_from_slice(text);
    }
}

/// The place of a record.
fn record_at(number: usize) -> usize
    requires { number < 64 }
    ensures { result < 2 ^ 17 }
{
    4096 + 1024 * number
}

/// A record without attributes yet, with this base reference.
fn begin(bytes: &mut [u8], number: usize, base: u64)
    requires { number < 64 }
{
    let at = record_at(number);
    patch(bytes, at, b"FILE");
    patch(bytes, at + 0x04, &[0x30, 0, 3, 0]);
    patch(bytes, at + 0x10, &[1, 0, 1, 0, 56, 0, 1, 0]);
    patch(bytes, at + 0x1C, &[0, 4, 0, 0]);
    patch(bytes, at + 0x20, &base.to_le_bytes());
    patch(bytes, at + 0x2C, &[number as u8, 0, 0, 0]);
    patch(bytes, at + 0x30, &[5, 0]);
    patch(bytes, at + 510, &[5, 0]);
    patch(bytes, at + 1022, &[5, 0]);
}

/// The end of a record's attributes.
fn end(bytes: &mut [u8], number: usize, place: u16)
    requires number { number < 64 }
    requires place { place < 1000 }
{
    let at = record_at(number);
    patch(bytes, at + usize::from(place), &[0xFF; 4]);
    patch(bytes, at + 0x18, &(place + 8).to_le_bytes());
}

/// An attribute without a name that says its type, its length, and how many bytes its value has.
fn resident(bytes: &mut [u8], number: usize, place: usize, says: [u8; 3])
    requires number { number < 64 }
    requires place { place < 1000 }
{
    let at = record_at(number) + place;
    let [kind, len, size] = says;
    patch(bytes, at, &[kind, 0, 0, 0, len, 0, 0, 0, 0, 0, 24, 0]);
    patch(bytes, at + 0x10, &[size, 0, 0, 0, 24, 0, 0, 0]);
}

/// What a $DATA says that isn't resident.
#[derive(Clone, Copy)]
struct Told<'a> {
    name: &'a [u8],
    flags: u16,
    lowest: u64,
    next: u64,
    size: u64,
    valid: u64,
    pairs: &'a [u8],
}

/// Two clusters, 50 and then 49.
const TWO: Told<'static> = Told {
    name: b"",
    flags: 0,
    lowest: 0,
    next: 2,
    size: 1500,
    valid: 1030,
    pairs: &[0x11, 0x01, 0x32, 0x11, 0x01, 0xFF, 0x00],
};

/// One cluster, 50.
const ONE: Told<'static> = Told {
    next: 1,
    size: 1000,
    valid: 900,
    pairs: &[0x11, 0x01, 0x32, 0x00],
    ..TWO
};

/// An attribute of 80 bytes; its name of at most four units stands at 64, its pairs at 72.
fn runs(bytes: &mut [u8], number: usize, place: usize, told: Told<'_>)
    requires number { number < 64 }
    requires place { place < 1000 }
{
    let at = record_at(number) + place;
    let units = (told.name.len() / 2 % 256) as u8;
    patch(bytes, at, &[0x80, 0, 0, 0, 80, 0, 0, 0, 1, units, 64, 0]);
    patch(bytes, at + 0x0C, &told.flags.to_le_bytes());
    patch(bytes, at + 0x10, &told.lowest.to_le_bytes());
    patch(bytes, at + 0x18, &told.next.wrapping_sub(1).to_le_bytes());
    patch(bytes, at + 0x20, &[72, 0]);
    patch(bytes, at + 0x30, &told.size.to_le_bytes());
    patch(bytes, at + 0x38, &told.valid.to_le_bytes());
    patch(bytes, at + 64, told.name);
    patch(bytes, at + 72, told.pairs);
}

/// An entry of a list at a place of a record: unnamed data from a VCN on, in the record of a number.
fn entry(bytes: &mut [u8], number: usize, place: usize, says: [u8; 2])
    requires number { number < 64 }
    requires place { place < 1000 }
{
    let at = record_at(number) + place;
    let [lowest, record] = says;
    patch(bytes, at, &[0x80, 0, 0, 0, 32, 0, 0, 26, lowest]);
    patch(bytes, at + 0x10, &[record, 0, 0, 0, 0, 0, 1, 0]);
}

/// Byte i of cluster k, where it isn't a record's.
fn byte_of(k: usize, i: usize) -> u8 {
    (k.wrapping_add(i.wrapping_mul(3)) % 251) as u8
}

/// A volume whose only record is that of $MFT. The clusters 49 and 50 are filled.
fn empty(alloc: Global) -> Result<Vec<u8>, AllocError> {
    let mut bytes = vec![in alloc; 0; LENGTH]?;
    patch(&mut bytes, 3, b"NTFS    ");
    patch(&mut bytes, 0x0B, &[0, 2, 2]);
    patch(&mut bytes, 0x28, &[128]);
    patch(&mut bytes, 0x30, &[4]);
    patch(&mut bytes, 0x38, &[40]);
    patch(&mut bytes, 0x40, &[0xF6]);
    patch(&mut bytes, 0x44, &[0xF4]);
    begin(&mut bytes, 0, 0);
    let table = Told {
        next: 32,
        size: 32_768,
        valid: 32_768,
        pairs: &[0x11, 0x20, 0x04, 0x00],
        ..TWO
    };
    runs(&mut bytes, 0, 56, table);
    end(&mut bytes, 0, 136);
    for i in 0..1024 {
        patch(&mut bytes, 49 * 1024 + i, &[byte_of(49, i)]);
        patch(&mut bytes, 50 * 1024 + i, &[byte_of(50, i)]);
    }
    Ok(bytes)
}

/// A record with this attribute alone.
fn stream(bytes: &mut [u8], number: usize, told: Told<'_>)
    requires { number < 64 }
{
    begin(bytes, number, 0);
    runs(bytes, number, 56, told);
    end(bytes, number, 136);
}

/// The reference of record 19 with its sequence number, 1.
const BASE: u64 = 1 << 48 | 19;

/// Records 19 and 20: a stream of two extents, of which the first stands in the extension record. That one has an
/// attribute list of its own, which nobody reads.
fn listed(bytes: &mut [u8]) {
    begin(bytes, 19, 0);
    resident(bytes, 19, 56, [0x20, 88, 64]);
    entry(bytes, 19, 80, [0, 20]);
    entry(bytes, 19, 112, [1, 19]);
    let hole = Told {
        lowest: 1,
        next: 2,
        pairs: &[0x01, 0x01, 0x00],
        ..ONE
    };
    runs(bytes, 19, 144, hole);
    end(bytes, 19, 224);
    begin(bytes, 20, BASE);
    resident(bytes, 20, 56, [0x20, 32, 5]);
    runs(bytes, 20, 88, Told { size: 1500, ..ONE });
    end(bytes, 20, 168);
}

/// Record 22: a stream of two extents of its own.
fn joined(bytes: &mut [u8]) {
    begin(bytes, 22, 0);
    let first = Told {
        size: 1100,
        valid: 1100,
        ..ONE
    };
    runs(bytes, 22, 56, first);
    let next = Told {
        lowest: 1,
        next: 2,
        pairs: &[0x11, 0x01, 0x31, 0x00],
        ..ONE
    };
    runs(bytes, 22, 136, next);
    end(bytes, 22, 216);
}

/// Record 16 has a file name, an unnamed and a named stream; 17 has two runs, 18 a compressed stream, 21 an encrypted
/// value; 19 has a list, and 20 an extent of it; 22 has two extents and no list.
fn volume(alloc: Global) -> Result<Vec<u8>, AllocError> {
    let mut bytes = empty(alloc)?;
    begin(&mut bytes, 16, 0);
    let at = record_at(16);
    resident(&mut bytes, 16, 56, [0x30, 32, 4]);
    patch(&mut bytes, at + 80, b"name");
    resident(&mut bytes, 16, 88, [0x80, 40, 12]);
    patch(&mut bytes, at + 112, b"hello, ntfs\n");
    runs(
        &mut bytes,
        16,
        128,
        Told {
            name: b"s\0",
            ..ONE
        },
    );
    end(&mut bytes, 16, 208);
    stream(&mut bytes, 17, TWO);
    stream(&mut bytes, 18, Told { flags: 1, ..ONE });
    listed(&mut bytes);
    joined(&mut bytes);
    begin(&mut bytes, 21, 0);
    resident(&mut bytes, 21, 56, [0x80, 32, 4]);
    patch(&mut bytes, record_at(21) + 56 + 0x0C, &[0, 0x40]);
    end(&mut bytes, 21, 88);
    Ok(bytes)
}

/// Which stream is asked for.
#[derive(Clone, Copy)]
struct Asked<'a> {
    number: u64,
    kind: u32,
    name: &'a [u8],
}

/// The unnamed data of a record.
fn data(number: u64) -> Asked<'static> {
    Asked {
        number,
        kind: 0x80,
        name: b"",
    }
}

/// Puts a stream of a volume at types that are known by their bounds alone.
fn show<G: Image, K: Sink>(
    alloc: Global,
    image: &mut G,
    asked: Asked<'_>,
    out: &mut K,
) -> Result<Result<(), ShowFault>, VolumeFault> {
    let mut volume = open_volume(alloc, image)?;
    let Asked { number, kind, name } = asked;
    Ok(cat(alloc, &mut volume, number, kind, name, out))
}

/// Puts a stream by the table of a volume alone.
fn show_by_table<G: Image, K: Sink>(
    alloc: Global,
    image: &mut G,
    asked: Asked<'_>,
    out: &mut K,
) -> Result<Result<(), ShowFault>, VolumeFault> {
    let table = read_table(alloc, image)?;
    let Asked { number, kind, name } = asked;
    Ok(cat_stream(alloc, image, &table, number, kind, name, out))
}

/// Both calls answer this over a volume, and put these bytes.
fn answers(
    rt: &impl Abort,
    alloc: Global,
    bytes: &[u8],
    asked: Asked<'_>,
    answer: Result<(), ShowFault>,
    want: &[u8],
) -> Result<(), Fail> {
    let mut image = MemImage::new(alloc, Vec::from_slice(alloc, bytes)?);
    let mut out = MemSink::new(alloc);
    assert_eq!(rt; show(alloc, &mut image, asked, &mut out), Ok(answer));
    assert_eq!(rt; out.content.as_slice(), want);
    let mut out = MemSink::new(alloc);
    assert_eq!(rt;
        show_by_table(alloc, &mut image, asked, &mut out),
        Ok(answer)
    );
    assert_eq!(rt; out.content.as_slice(), want);
    Ok(())
}

/// So many bytes of cluster 50, so many of cluster 49, and so many zeros.
fn pieces(alloc: Global, counts: [usize; 3]) -> Result<Vec<u8>, AllocError> {
    let [first, second, zeros] = counts;
    let mut bytes = Vec::new(alloc);
    for i in 0..first {
        bytes.push(byte_of(50, i))?;
    }
    for i in 0..second {
        bytes.push(byte_of(49, i))?;
    }
    for _ in 0..zeros {
        bytes.push(0)?;
    }
    Ok(bytes)
}

#[test]
fn streams_are_put_by_type_and_name(rt: HostRuntime) -> Result<(), Fail> {
    let alloc = rt.alloc();
    let bytes = volume(alloc)?;
    let named = pieces(alloc, [900, 0, 100])?;
    let two = pieces(alloc, [1024, 6, 470])?;
    let listed = pieces(alloc, [900, 0, 600])?;
    let joined = pieces(alloc, [1024, 76, 0])?;
    let cases = [
        (data(16), b"hello, ntfs\n".as_slice()),
        (
            Asked {
                kind: 0x30,
                ..data(16)
            },
            b"name".as_slice(),
        ),
        (
            Asked {
                name: b"s\0",
                ..data(16)
            },
            named.as_slice(),
        ),
        (data(17), two.as_slice()),
        (data(19), listed.as_slice()),
        (data(22), joined.as_slice()),
    ];
    for (asked, want) in cases {
        answers(&rt, alloc, &bytes, asked, Ok(()), want)?;
    }
    Ok(())
}

fn no_record(number: u64) -> ShowFault {
    ShowFault::NotFound {
        what: Missing::Record { number },
    }
}

const NO_STREAM: ShowFault = ShowFault::NotFound {
    what: Missing::Stream,
};

#[test]
fn streams_are_refused(rt: HostRuntime) -> Result<(), Fail> {
    let alloc = rt.alloc();
    let bytes = volume(alloc)?;
    // No such type or name; not in use, an extension record, past the end of $MFT; not plain.
    let cases = [
        (
            Asked {
                kind: 0x90,
                ..data(16)
            },
            NO_STREAM,
        ),
        (
            Asked {
                name: b"t\0",
                ..data(16)
            },
            NO_STREAM,
        ),
        (
            Asked {
                kind: 0x30,
                ..data(19)
            },
            NO_STREAM,
        ),
        (data(23), no_record(23)),
        (data(20), no_record(20)),
        (data(u64::MAX), no_record(u64::MAX)),
        (data(18), ShowFault::NotPlain { flags: 1 }),
        (data(21), ShowFault::NotPlain { flags: 0x4000 }),
    ];
    for (asked, fault) in cases {
        answers(&rt, alloc, &bytes, asked, Err(fault), b"")?;
    }
    Ok(())
}

#[test]
fn damage_is_named_by_its_record(rt: HostRuntime) -> Result<(), Fail> {
    let alloc = rt.alloc();
    let cases: [(u64, usize, &[u8], Rule, u64); 9] = [
        // A torn base record and a torn extension record, an entry of length 0, an extension record that isn't in use,
        // wrong pairs in it, and a size above the clusters' bytes.
        (19, record_at(19) + 510, &[6], Rule::C4, 19),
        (19, record_at(20) + 510, &[6], Rule::C4, 20),
        (19, record_at(19) + 84, &[0], Rule::C11, 19),
        (19, record_at(20) + 0x16, &[0], Rule::C11, 19),
        (19, record_at(20) + 88 + 72, &[0x91], Rule::C7, 20),
        (19, record_at(20) + 88 + 0x31, &[9], Rule::C12, 19),
        // Without a list: pairs that spell two VCNs for one, an extent from VCN 2 on, and one alone from VCN 1 on.
        (22, record_at(22) + 136 + 73, &[2], Rule::C7, 22),
        (
            22,
            record_at(22) + 136 + 0x10,
            &[2, 0, 0, 0, 0, 0, 0, 0, 2],
            Rule::C12,
            22,
        ),
        (
            17,
            record_at(17) + 56 + 0x10,
            &[1, 0, 0, 0, 0, 0, 0, 0, 2],
            Rule::C12,
            17,
        ),
    ];
    for (asked, place, text, rule, number) in cases {
        let mut bytes = volume(alloc)?;
        patch(&mut bytes, place, text);
        let fault = ShowFault::Damaged { rule, number };
        answers(&rt, alloc, &bytes, data(asked), Err(fault), b"")?;
    }
    Ok(())
}

#[test]
fn each_read_failing_alone_leaves_a_front(rt: HostRuntime) -> Result<(), Fail> {
    let alloc = rt.alloc();
    // The opening reads the boot sector and record 0.
    for (number, failing, count) in [
        (17, 3, 0),
        (17, 4, 0),
        (17, 5, 1024),
        (19, 3, 0),
        (19, 4, 0),
        (19, 5, 0),
    ] {
        let mut image = MemImage::new(alloc, volume(alloc)?);
        image.inside.calls.fail(alloc, failing, Leaves::Before)?;
        let mut out = MemSink::new(alloc);
        assert_eq!(rt;
            show(alloc, &mut image, data(number), &mut out),
            Ok(Err(ShowFault::ReadFault))
        );
        assert_eq!(rt;
            out.content.as_slice(),
            pieces(alloc, [count, 0, 0])?.as_slice()
        );
        assert_eq!(rt; image.inside.calls.made, failing);
    }
    Ok(())
}

#[test]
fn each_put_failing_alone_leaves_a_front(rt: HostRuntime) -> Result<(), Fail> {
    let alloc = rt.alloc();
    for (failing, leaves, counts) in [
        (1, Leaves::Front { bytes: 3 }, [3, 0, 0]),
        (1, Leaves::Before, [0, 0, 0]),
        (2, Leaves::Front { bytes: 4 }, [1024, 4, 0]),
        (2, Leaves::Before, [1024, 0, 0]),
    ] {
        let mut image = MemImage::new(alloc, volume(alloc)?);
        let mut out = MemSink::new(alloc);
        out.calls.fail(alloc, failing, leaves)?;
        assert_eq!(rt;
            show(alloc, &mut image, data(17), &mut out),
            Ok(Err(ShowFault::WriteFault))
        );
        assert_eq!(rt; out.content.as_slice(), pieces(alloc, counts)?.as_slice());
        assert_eq!(rt; out.calls.made, failing);
    }
    Ok(())
}

/// Puts a stream of two runs: whether all was put. Where it wasn't, memory was wanting, and a front was put.
/// `tools/refused_memory.py` has each allocation of it refused in turn.
fn showing_is_whole(rt: &impl Abort, host: &HostRuntime) -> Result<bool, Fail> {
    let alloc = host.alloc();
    let (Ok(bytes), Ok(want)) = (volume(alloc), pieces(alloc, [1024, 6, 470])) else {
        return Ok(false);
    };
    let mut image = MemImage::new(alloc, bytes);
    let mut out = MemSink::new(alloc);
    let answer = show(alloc, &mut image, data(17), &mut out);
    assert!(rt; want.as_slice().starts_with(out.content.as_slice()));
    if answer == Ok(Ok(())) {
        assert_eq!(rt; out.content.len(), 1500);
        return Ok(true);
    }
    assert!(rt; answer == Err(VolumeFault::NoMemory) || answer == Ok(Err(ShowFault::NoMemory)));
    Ok(false)
}

#[test]
fn with_ample_memory_a_stream_is_put(rt: HostRuntime) -> Result<(), Fail> {
    assert!(rt; showing_is_whole(&rt, &rt)?);
    Ok(())
}
