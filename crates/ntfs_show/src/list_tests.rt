//! Directories of small volumes, listed: clusters and records of 1,024 bytes, $MFT at cluster 4. Each index stands in
//! its root.
ghost use Rattle.ntfs_volume.specs.Opened.{HasClusters};

use crate::{ListOptions, ShowFault, list, show_list};
use ntfs_base::{Image, Leaves, MemImage, MemSink, Missing, Rule, Sink};
use ntfs_volume::{VolumeFault, open_volume, read_table};
use std::alloc::{AllocError, Global};
use std::process::Abort;
use std::test::Fail;

/// The name of an index's attributes.
const NAME: &[u8] = b"$\0I\x003\x000\0";

/// An entry: the reference of its record, its namespace, and its name in UTF-16LE.
type Named<'a> = (u64, u8, &'a [u8]);

/// Writes a text over the bytes, where it lies in them.
fn put(bytes: &mut [u8], place: usize, text: &[u8]) {
    if place <= bytes.len() && text.len() <= bytes.len() - place {
        bytes[place..place + text.len()].copy_from_slice(text);
    }
}

/// The place of a record.
fn record_at(number: u64) -> usize {
    ((number % 65_536) as usize)
        .wrapping_mul(1024)
        .wrapping_add(4096)
}

/// Puts the two bytes at a place into the fixup array, and the fixup number, 5, over them.
fn seal(bytes: &mut [u8], place: usize, saved: usize) {
    if let (Some(first), Some(second)) = (
        bytes.get(place).copied(),
        bytes.get(place.wrapping_add(1)).copied(),
    ) {
        put(bytes, saved, &[first, second]);
        put(bytes, place, &[5, 0]);
    }
}

/// Puts the head of a record with sequence number 3, whose attributes end at a place below 1,000.
fn record(bytes: &mut [u8], number: u64, flags: u8, end: u16) {
    let at = record_at(number);
    put(bytes, at, b"FILE\x30\0\x03\0");
    put(bytes, at.wrapping_add(0x10), &[3, 0, 1, 0, 56, 0, flags, 0]);
    put(
        bytes,
        at.wrapping_add(0x18),
        &end.wrapping_add(8).to_le_bytes(),
    );
    put(bytes, at.wrapping_add(0x1C), &[0, 4]);
    put(
        bytes,
        at.wrapping_add(0x2C),
        &((number % 65_536) as u32).to_le_bytes(),
    );
    put(bytes, at.wrapping_add(0x30), &[5, 0]);
    put(bytes, at.wrapping_add(usize::from(end)), &[0xFF; 4]);
    seal(bytes, at.wrapping_add(510), at.wrapping_add(0x32));
    seal(bytes, at.wrapping_add(1022), at.wrapping_add(0x34));
}

/// Puts a record without attributes.
fn file(bytes: &mut [u8], number: u64) {
    record(bytes, number, 1, 56);
}

/// Puts an entry of a node, and tells how many bytes it has.
fn entry(bytes: &mut [u8], place: usize, named: Named<'_>) -> usize {
    let (reference, namespace, name) = named;
    let key = 66 + name.len() % 512;
    let length = (16 + key).next_multiple_of(8);
    put(bytes, place, &reference.to_le_bytes());
    put(
        bytes,
        place.wrapping_add(8),
        &((length % 1024) as u16).to_le_bytes(),
    );
    put(
        bytes,
        place.wrapping_add(10),
        &((key % 1024) as u16).to_le_bytes(),
    );
    put(
        bytes,
        place.wrapping_add(16 + 0x40),
        &[(name.len() / 2 % 256) as u8, namespace],
    );
    put(bytes, place.wrapping_add(16 + 0x42), name);
    length
}

/// Puts a directory, whose index root has a value of 720 bytes.
fn directory(bytes: &mut [u8], number: u64, entries: &[Named<'_>]) {
    let root = record_at(number).wrapping_add(56);
    put(bytes, root, &[0x90, 0, 0, 0, 0xF0, 2, 0, 0, 0, 4, 24, 0]);
    put(bytes, root.wrapping_add(0x10), &[0xD0, 2, 0, 0, 32]);
    put(bytes, root.wrapping_add(24), NAME);
    put(
        bytes,
        root.wrapping_add(32),
        &[0x30, 0, 0, 0, 1, 0, 0, 0, 0, 4],
    );
    let mut place = root.wrapping_add(64);
    let mut used = 32u64;
    for named in entries {
        let length = entry(bytes, place, *named);
        place = place.wrapping_add(length);
        used = used.wrapping_add(length as u64);
    }
    put(bytes, place.wrapping_add(8), &[16, 0, 0, 0, 2]);
    put(bytes, root.wrapping_add(48), &[16]);
    put(
        bytes,
        root.wrapping_add(52),
        &((used % 65_536) as u32).to_le_bytes(),
    );
    record(bytes, number, 3, 56 + 752);
}

/// A volume of so many records, of which that of $MFT is in use.
fn empty(alloc: Global, records: u16) -> Result<Vec<u8>, AllocError> {
    let clusters = u64::from(records) + 8;
    let mut bytes = vec![in alloc; 0; usize::from(records) * 1024 + 9216]?;
    put(&mut bytes, 3, b"NTFS    \0\x02\x02");
    put(&mut bytes, 0x28, &(2 * clusters).to_le_bytes());
    put(&mut bytes, 0x30, &[4]);
    put(&mut bytes, 0x38, &[4]);
    put(&mut bytes, 0x40, &[0xF6]);
    put(&mut bytes, 0x44, &[0xF6]);
    let data = 4096 + 56;
    let size = (u64::from(records) * 1024).to_le_bytes();
    let [low, high] = records.to_le_bytes();
    put(&mut bytes, data, &[0x80, 0, 0, 0, 88, 0, 0, 0, 1, 0, 64]);
    put(
        &mut bytes,
        data + 0x18,
        &u64::from(records).wrapping_sub(1).to_le_bytes(),
    );
    put(&mut bytes, data + 0x20, &[72]);
    put(&mut bytes, data + 0x30, &size);
    put(&mut bytes, data + 0x38, &size);
    put(&mut bytes, data + 72, &[0x12, low, high, 4, 0]);
    record(&mut bytes, 0, 1, 144);
    Ok(bytes)
}

/// No option.
const PLAIN: ListOptions = ListOptions {
    all: false,
    numbers: false,
    classify: false,
    recursive: false,
    system: false,
    dos: false,
};

const BELOW: ListOptions = ListOptions {
    recursive: true,
    ..PLAIN
};

const KINDS: ListOptions = ListOptions {
    classify: true,
    ..PLAIN
};

/// Lists a directory of a volume at types that are known by their bounds alone.
fn list_volume<G: Image, K: Sink>(
    alloc: Global,
    image: &mut G,
    options: &ListOptions,
    path: &str,
    out: &mut K,
) -> Result<Result<(), ShowFault>, VolumeFault> {
    let mut volume = open_volume(alloc, image)?;
    Ok(list(alloc, &mut volume, options, path, out))
}

/// Lists it by the table of the volume alone.
fn list_by_table<G: Image, K: Sink>(
    alloc: Global,
    image: &mut G,
    options: &ListOptions,
    path: &str,
    out: &mut K,
) -> Result<Result<(), ShowFault>, VolumeFault> {
    let table = read_table(alloc, image)?;
    Ok(show_list(alloc, image, &table, options, path, out))
}

/// Both calls answer this over a volume, and print this text.
fn lists(
    rt: &impl Abort,
    alloc: Global,
    bytes: &[u8],
    asked: (&ListOptions, &str),
    answer: Result<(), ShowFault>,
    text: &str,
) -> Result<(), Fail> {
    let (options, path) = asked;
    let mut image = MemImage::new(alloc, Vec::from_slice(alloc, bytes)?);
    let mut out = MemSink::new(alloc);
    assert_eq!(rt;
        list_volume(alloc, &mut image, options, path, &mut out),
        Ok(answer)
    );
    assert_eq!(rt; out.content.as_slice(), text.as_bytes());
    let mut out = MemSink::new(alloc);
    assert_eq!(rt;
        list_by_table(alloc, &mut image, options, path, &mut out),
        Ok(answer)
    );
    assert_eq!(rt; out.content.as_slice(), text.as_bytes());
    Ok(())
}

/// Three directories: the root, 16 in it, and 19 in that. The last name has a surrogate without a partner, and a pair.
fn three(alloc: Global) -> Result<Vec<u8>, AllocError> {
    let mut bytes = empty(alloc, 32)?;
    directory(
        &mut bytes,
        5,
        &[
            (5, 3, b".\0"),
            (17, 3, b"$\0S\0"),
            (16, 1, b"D\0i\0r\0"),
            (16, 2, b"D\0~\x001\0"),
            (17, 0, b"p\0"),
            (3 << 48 | 18, 3, b"b\0"),
            (18, 1, b"\0\xD8x\0\x3D\xD8\0\xDE"),
        ],
    );
    directory(&mut bytes, 16, &[(18, 3, b"i\0"), (19, 3, b"s\0")]);
    directory(&mut bytes, 19, &[(17, 3, b"x\0")]);
    file(&mut bytes, 17);
    file(&mut bytes, 18);
    Ok(bytes)
}

#[test]
fn options_tell_what_is_shown(rt: HostRuntime) -> Result<(), Fail> {
    let alloc = rt.alloc();
    let bytes = three(alloc)?;
    let cases: [(ListOptions, &str); 8] = [
        (PLAIN, ".\nDir\nb\n\u{FFFD}x\u{1F600}\n"),
        (
            ListOptions { all: true, ..PLAIN },
            ".\nDir\np\nb\n\u{FFFD}x\u{1F600}\n",
        ),
        (
            ListOptions {
                system: true,
                ..PLAIN
            },
            ".\n$S\nDir\nb\n\u{FFFD}x\u{1F600}\n",
        ),
        (ListOptions { dos: true, ..PLAIN }, ".\nD~1\nb\n"),
        (
            ListOptions {
                numbers: true,
                ..PLAIN
            },
            "5 .\n16 Dir\n18 b\n18 \u{FFFD}x\u{1F600}\n",
        ),
        (KINDS, "./\nDir/\nb\n\u{FFFD}x\u{1F600}\n"),
        (
            BELOW,
            ".\nDir\nDir/i\nDir/s\nDir/s/x\nb\n\u{FFFD}x\u{1F600}\n",
        ),
        (
            ListOptions {
                all: true,
                numbers: true,
                classify: true,
                recursive: true,
                system: true,
                dos: true,
            },
            "5 ./\n17 $S\n16 D~1/\n18 D~1/i\n19 D~1/s/\n17 D~1/s/x\n17 p\n18 b\n",
        ),
    ];
    for (options, text) in cases {
        lists(&rt, alloc, &bytes, (&options, ""), Ok(()), text)?;
        lists(&rt, alloc, &bytes, (&options, "//"), Ok(()), text)?;
    }
    Ok(())
}

#[test]
fn a_directory_is_entered_once(rt: HostRuntime) -> Result<(), Fail> {
    let alloc = rt.alloc();
    let mut bytes = empty(alloc, 32)?;
    directory(&mut bytes, 5, &[(16, 3, b"a\0"), (16, 3, b"b\0")]);
    directory(&mut bytes, 16, &[(16, 3, b"c\0"), (5, 3, b"d\0")]);
    lists(&rt, alloc, &bytes, (&BELOW, ""), Ok(()), "a\na/c\na/d\nb\n")
}

/// Records 16 and 17 are a directory and a file; 20 isn't in use, 21 is an extension, and 22 is torn.
fn bad(alloc: Global, reference: u64) -> Result<Vec<u8>, AllocError> {
    let mut bytes = empty(alloc, 32)?;
    directory(&mut bytes, 5, &[(16, 3, b"a\0"), (17, 3, b"z\0")]);
    directory(
        &mut bytes,
        16,
        &[(17, 3, b"b\0"), (reference, 3, b"c\0"), (17, 3, b"d\0")],
    );
    file(&mut bytes, 17);
    file(&mut bytes, 21);
    put(
        &mut bytes,
        record_at(21).wrapping_add(0x20),
        &[17, 0, 0, 0, 0, 0, 3],
    );
    file(&mut bytes, 22);
    put(&mut bytes, record_at(22).wrapping_add(510), &[6]);
    Ok(bytes)
}

#[test]
fn a_record_is_read_before_its_line(rt: HostRuntime) -> Result<(), Fail> {
    let alloc = rt.alloc();
    let cases = [
        (20, Rule::C14, 16),
        (21, Rule::C14, 16),
        (2 << 48 | 17, Rule::C14, 16),
        (40, Rule::C14, 16),
        (22, Rule::C4, 22),
    ];
    for (reference, rule, number) in cases {
        let bytes = bad(alloc, reference)?;
        let answer = Err(ShowFault::Damaged { rule, number });
        lists(&rt, alloc, &bytes, (&BELOW, ""), answer, "a\na/b\n")?;
        lists(&rt, alloc, &bytes, (&KINDS, ""), Ok(()), "a/\nz\n")?;
        lists(&rt, alloc, &bytes, (&PLAIN, ""), Ok(()), "a\nz\n")?;
    }
    Ok(())
}

#[test]
fn lines_stand_before_a_refusal(rt: HostRuntime) -> Result<(), Fail> {
    let alloc = rt.alloc();
    let mut bytes = three(alloc)?;
    // The second entry of record 19, which ends it, has a length of 8.
    put(
        &mut bytes,
        record_at(19).wrapping_add(56 + 64 + 88 + 8),
        &[8],
    );
    let damaged = Err(ShowFault::Damaged {
        rule: Rule::C13,
        number: 19,
    });
    lists(
        &rt,
        alloc,
        &bytes,
        (&BELOW, ""),
        damaged,
        ".\nDir\nDir/i\nDir/s\nDir/s/x\n",
    )?;
    let mut bytes = empty(alloc, 32)?;
    file(&mut bytes, 5);
    let missing = Err(ShowFault::NotFound {
        what: Missing::Part { index: 0 },
    });
    lists(&rt, alloc, &bytes, (&PLAIN, ""), missing, "")
}

/// Directories one below the other, from record 16 on.
fn chain(alloc: Global, length: u16) -> Result<Vec<u8>, AllocError> {
    let mut bytes = empty(alloc, 256)?;
    directory(&mut bytes, 5, &[(16, 3, b"d\0")]);
    for number in 16..u64::from(length).wrapping_add(15) {
        directory(&mut bytes, number, &[(number.wrapping_add(1), 3, b"d\0")]);
    }
    directory(&mut bytes, u64::from(length).wrapping_add(15), &[]);
    Ok(bytes)
}

#[test]
fn a_chain_of_directories(rt: HostRuntime) -> Result<(), Fail> {
    let alloc = rt.alloc();
    let bytes = chain(alloc, 200)?;
    let mut text = String::new(alloc);
    let mut line = String::new(alloc);
    for _ in 0..200 {
        line.push('d')?;
        text.push_str(&line)?;
        text.push('\n')?;
        line.push('/')?;
    }
    lists(&rt, alloc, &bytes, (&BELOW, ""), Ok(()), &text)
}

/// The opening reads the boot sector and record 0.
#[test]
fn each_call_failing_alone_leaves_a_front(rt: HostRuntime) -> Result<(), Fail> {
    let alloc = rt.alloc();
    let text = ".\nDir\nDir/i\nDir/s\nDir/s/x\nb\n\u{FFFD}x\u{1F600}\n";
    let mut image = MemImage::new(alloc, three(alloc)?);
    let mut out = MemSink::new(alloc);
    assert_eq!(rt;
        list_volume(alloc, &mut image, &BELOW, "", &mut out),
        Ok(Ok(()))
    );
    let calls = image.inside.calls.made;
    for failing in 3..calls.min(100).wrapping_add(1) {
        let mut image = MemImage::new(alloc, three(alloc)?);
        image.inside.calls.fail(alloc, failing, Leaves::Before)?;
        let mut out = MemSink::new(alloc);
        assert_eq!(rt;
            list_volume(alloc, &mut image, &BELOW, "", &mut out),
            Ok(Err(ShowFault::ReadFault))
        );
        assert!(rt; text.as_bytes().starts_with(out.content.as_slice()));
        assert_eq!(rt; image.inside.calls.made, failing);
    }
    let mut image = MemImage::new(alloc, three(alloc)?);
    let mut out = MemSink::new(alloc);
    out.calls.fail(alloc, 1, Leaves::Front { bytes: 3 })?;
    assert_eq!(rt;
        list_volume(alloc, &mut image, &BELOW, "", &mut out),
        Ok(Err(ShowFault::WriteFault))
    );
    assert_eq!(rt; out.content.as_slice(), b".\nD".as_slice());
    Ok(())
}
