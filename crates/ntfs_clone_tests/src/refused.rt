//! What `ntfsclone` refuses, and that nothing was put, made or changed by then.
use crate::case::{File, NO_FAULT, Ran, ends, front, run_files, run_with};
use crate::save::{COPY, PUT, SAVE};
use crate::volume::{
    DIRTY, Layout, Patch, SMALL, USUAL, clone_of, patched, restored_of, volume_of, volume_with,
};
use ntfs_base::{Named, Rule, UsageKind};
use ntfs_run::Status;
use std::alloc::Global;
use std::process::Abort;
use std::test::Fail;

const NO_SOURCE: Status = Status::Absent {
    file: Named::Source,
};

const OUTPUT_THERE: Status = Status::Present {
    file: Named::Output,
};

const TOOL: Status = Status::Usage {
    kind: UsageKind::Tool,
};

const LINE: Status = Status::Usage {
    kind: UsageKind::Line,
};

const COMBINATION: Status = Status::Usage {
    kind: UsageKind::Combination,
};

const SAME_NAME: Status = Status::Usage {
    kind: UsageKind::SameName,
};

/// How a refusal ends: its status, exit status and line.
type End<'a> = (Status, u8, &'a str);

/// A run is refused: it has put nothing, and the files are those that were there.
fn is_refused(rt: &impl Abort, ran: &Ran, end: End, files: &[File]) {
    let (status, code, line) = end;
    ends(rt, ran, status, code, line);
    assert_eq!(rt; ran.out.content.len(), 0);
    for (name, bytes) in files {
        assert!(rt; ran.shelf.content(name) == Some(*bytes));
    }
    let there = ran
        .shelf
        .places
        .iter()
        .filter(|place| place.content.is_some());
    assert_eq!(rt; there.count(), files.len());
}

fn refuses(
    rt: &impl Abort,
    alloc: Global,
    words: &[&str],
    end: End,
    files: &[File],
) -> Result<Ran, Fail> {
    let ran = run_files(alloc, words, files)?;
    is_refused(rt, &ran, end, files);
    Ok(ran)
}

/// Words that are refused are so before any file is looked for and anything is read.
fn refuses_words(rt: &impl Abort, alloc: Global, words: &[&str], end: End) -> Result<(), Fail> {
    let ran = refuses(rt, alloc, words, end, &[("v", b"a volume"), ("o", b"old")])?;
    assert_eq!(rt; ran.shelf.made("v"), 0);
    assert_eq!(rt; ran.shelf.made("o"), 0);
    assert_eq!(rt; ran.shelf.made("c"), 0);
    assert_eq!(rt; ran.input.calls.made, 0);
    Ok(())
}

const TOOLS: [&[&str]; 5] = [
    &[],
    &[""],
    &["ntfsclon", "-s", "v"],
    &["ntfsclones", "-s", "-o", "v", "v"],
    &["-s", "ntfsclone", "v"],
];

#[test]
fn words_without_a_tool_are_refused(rt: HostRuntime) -> Result<(), Fail> {
    for words in TOOLS {
        refuses_words(
            &rt,
            rt.alloc(),
            words,
            (TOOL, 1, "ntfsprogs: usage: tool\n"),
        )?;
    }
    Ok(())
}

/// Options that aren't there, or stand without a value or with one too many, and a second SOURCE.
const LINES: [&[&str]; 10] = [
    &["ntfsclone", "-x", "-s", "v"],
    &["ntfsclone", "-h"],
    &["ntfsclone", "--help"],
    &["ntfsclone", "-V"],
    &["ntfsclone", "--rescue", "-s", "v"],
    &["ntfsclone", "-s", "v", "w"],
    &["ntfsclone", "-s", "v", "-o"],
    &["ntfsclone", "-ss", "v"],
    &["ntfsclone", "-o", "c", "--output=d", "v"],
    &["ntfsclone", "--save-image=yes", "v"],
];

/// The same words that would be refused for more than that.
const WORSE_LINES: [&[&str]; 3] = [
    &["ntfsclone", "-s", "-r", "-x", "v"],
    &["ntfsclone", "-x"],
    &["ntfsclone", "-s", "-o", "v", "v", "v"],
];

#[test]
fn lines_are_refused(rt: HostRuntime) -> Result<(), Fail> {
    let end = (LINE, 1, "ntfsclone: usage: line\n");
    for words in LINES {
        refuses_words(&rt, rt.alloc(), words, end)?;
    }
    for words in WORSE_LINES {
        refuses_words(&rt, rt.alloc(), words, end)?;
    }
    Ok(())
}

/// Options that don't go together.
const CLASHES: [&[&str]; 10] = [
    &["ntfsclone", "-s", "-r", "-o", "c", "v"],
    &["ntfsclone", "-s", "-r", "-n", "v"],
    &["ntfsclone", "-s", "-o", "c", "-O", "o", "v"],
    &["ntfsclone", "-r", "-o", "c", "-O", "o", "v"],
    &["ntfsclone", "-o", "c", "--overwrite=o", "v"],
    &["ntfsclone", "-s", "-n", "v"],
    &["ntfsclone", "-n", "-o", "c", "v"],
    &["ntfsclone", "-r", "-n", "-o", "c", "v"],
    &["ntfsclone", "-r", "-n", "-O", "o", "v"],
    &["ntfsclone", "-rf", "-o", "c", "v"],
];

/// Options of which others are wanting.
const GAPS: [&[&str]; 10] = [
    &["ntfsclone"],
    &["ntfsclone", "v"],
    &["ntfsclone", "-f", "v"],
    &["ntfsclone", "-n", "v"],
    &["ntfsclone", "-r"],
    &["ntfsclone", "-r", "v"],
    &["ntfsclone", "-s"],
    &["ntfsclone", "-s", "-o", "c"],
    &["ntfsclone", "-o", "c"],
    &["ntfsclone", "-f", "-O", "o"],
];

/// The same in words that would be refused for one name of two files.
const SAME_CLASHES: [&[&str]; 4] = [
    &["ntfsclone", "-r", "-n", "-f", "v"],
    &["ntfsclone", "-s", "-r", "-o", "v", "v"],
    &["ntfsclone", "-r", "-n", "-O", "v", "v"],
    &["ntfsclone", "-s", "-o", "v", "-O", "v", "v"],
];

#[test]
fn combinations_are_refused(rt: HostRuntime) -> Result<(), Fail> {
    let end = (COMBINATION, 1, "ntfsclone: usage: combination\n");
    for words in CLASHES {
        refuses_words(&rt, rt.alloc(), words, end)?;
    }
    for words in GAPS {
        refuses_words(&rt, rt.alloc(), words, end)?;
    }
    for words in SAME_CLASHES {
        refuses_words(&rt, rt.alloc(), words, end)?;
    }
    Ok(())
}

const SAME_NAMES: [&[&str]; 9] = [
    &["ntfsclone", "-s", "-o", "v", "v"],
    &["ntfsclone", "-s", "-O", "v", "v"],
    &["ntfsclone", "-f", "-s", "-o", "v", "v"],
    &["ntfsclone", "-o", "v", "v"],
    &["ntfsclone", "--overwrite=v", "v"],
    &["ntfsclone", "-r", "-o", "v", "v"],
    &["ntfsclone", "-r", "-O", "v", "v"],
    &["ntfsclone", "-s", "-o", "x", "x"],
    &["ntfsclone", "-s", "-o", "", ""],
];

#[test]
fn one_name_of_two_files_is_refused(rt: HostRuntime) -> Result<(), Fail> {
    for words in SAME_NAMES {
        refuses_words(
            &rt,
            rt.alloc(),
            words,
            (SAME_NAME, 1, "ntfsclone: usage: same name\n"),
        )?;
    }
    Ok(())
}

/// Words whose SOURCE isn't there, whether the output is or not.
const NO_SOURCES: [&[&str]; 10] = [
    &["ntfsclone", "-s", "x"],
    &["ntfsclone", "-s", "-f", "x"],
    &["ntfsclone", "-s", "-o", "c", "x"],
    &["ntfsclone", "-s", "-o", "o", "x"],
    &["ntfsclone", "-s", "-O", "o", "x"],
    &["ntfsclone", "-o", "o", "x"],
    &["ntfsclone", "-O", "o", "x"],
    &["ntfsclone", "-r", "-o", "o", "x"],
    &["ntfsclone", "-r", "-O", "o", "x"],
    &["ntfsclone", "-r", "-n", "x"],
];

#[test]
fn a_source_that_is_not_there_is_refused(rt: HostRuntime) -> Result<(), Fail> {
    for words in NO_SOURCES {
        let end = (NO_SOURCE, 2, "ntfsclone: no such file: x\n");
        let ran = refuses(&rt, rt.alloc(), words, end, &[("o", b"old")])?;
        assert_eq!(rt; ran.shelf.made("o"), 0);
        assert_eq!(rt; ran.shelf.made("c"), 0);
        assert_eq!(rt; ran.input.calls.made, 0);
    }
    Ok(())
}

/// Words that save or copy `v`, to the output, to a new file or over an old one.
const SAVING: [&[&str]; 8] = [
    &SAVE,
    &PUT,
    &COPY,
    &["ntfsclone", "-s", "-f", "-o", "c", "v"],
    &["ntfsclone", "-s", "-o", "o", "v"],
    &["ntfsclone", "-s", "-O", "o", "v"],
    &["ntfsclone", "-o", "o", "v"],
    &["ntfsclone", "-O", "o", "v"],
];

/// A volume is refused by words that would save or copy it, before a file is made or emptied.
fn refuses_all(
    rt: &impl Abort,
    alloc: Global,
    saving: &[&[&str]],
    volume: &[u8],
    end: End,
) -> Result<(), Fail> {
    for words in saving {
        let ran = refuses(rt, alloc, words, end, &[("v", volume), ("o", b"old")])?;
        assert_eq!(rt; ran.shelf.made("o"), 0);
        assert_eq!(rt; ran.shelf.made("c"), 0);
    }
    Ok(())
}

/// Bytes in place of a boot sector's, and what comes of them.
type Wrong<'a> = (&'a [Patch<'a>], Status, &'a str);

const BOOTS: [Wrong; 10] = [
    (
        &[(3, b"\0")],
        Status::NotNtfs,
        "ntfsclone: not an NTFS volume\n",
    ),
    (
        &[(0x0B, b"\0\0")],
        Status::BadGeometry { field: 1, value: 0 },
        "ntfsclone: bad geometry: field 1 value 0\n",
    ),
    (
        &[(0x0D, b"\x03")],
        Status::BadGeometry { field: 2, value: 3 },
        "ntfsclone: bad geometry: field 2 value 3\n",
    ),
    (
        &[(0x0B, b"\0\x04\x80")],
        Status::BadGeometry {
            field: 3,
            value: 131_072,
        },
        "ntfsclone: bad geometry: field 3 value 131072\n",
    ),
    (
        &[(0x40, b"\xF7")],
        Status::BadGeometry {
            field: 4,
            value: 247,
        },
        "ntfsclone: bad geometry: field 4 value 247\n",
    ),
    (
        &[(0x44, b"\0")],
        Status::BadGeometry { field: 5, value: 0 },
        "ntfsclone: bad geometry: field 5 value 0\n",
    ),
    (
        &[(0x28, b"\x01\0")],
        Status::BadGeometry { field: 6, value: 1 },
        "ntfsclone: bad geometry: field 6 value 1\n",
    ),
    (
        &[(0x30, b"\0\x04")],
        Status::BadGeometry {
            field: 7,
            value: 1024,
        },
        "ntfsclone: bad geometry: field 7 value 1024\n",
    ),
    (
        &[(0x38, b"\0\x04")],
        Status::BadGeometry {
            field: 8,
            value: 1024,
        },
        "ntfsclone: bad geometry: field 8 value 1024\n",
    ),
    (
        &[(0x0B, b"\x01\x02\x03")],
        Status::BadGeometry {
            field: 1,
            value: 513,
        },
        "ntfsclone: bad geometry: field 1 value 513\n",
    ),
];

#[test]
fn wrong_boot_sectors_are_refused(rt: HostRuntime) -> Result<(), Fail> {
    let alloc = rt.alloc();
    let volume = volume_of(alloc, &SMALL)?;
    let boot = front(&volume, 512)?;
    for (patches, status, line) in BOOTS {
        let image = patched(alloc, boot, patches)?;
        refuses_all(&rt, alloc, &SAVING, &image, (status, 3, line))?;
    }
    Ok(())
}

/// A length, and the one that is needed.
const SHORT: [(usize, u64, &str); 4] = [
    (0, 512, "ntfsclone: image has 0 bytes, needs 512\n"),
    (511, 512, "ntfsclone: image has 511 bytes, needs 512\n"),
    (
        512,
        1_048_576,
        "ntfsclone: image has 512 bytes, needs 1048576\n",
    ),
    (
        1_048_575,
        1_048_576,
        "ntfsclone: image has 1048575 bytes, needs 1048576\n",
    ),
];

#[test]
fn short_images_are_refused(rt: HostRuntime) -> Result<(), Fail> {
    let alloc = rt.alloc();
    let volume = volume_of(alloc, &SMALL)?;
    for (len, need, line) in SHORT {
        let status = Status::ImageShort {
            len: len as u64,
            need,
        };
        refuses_all(&rt, alloc, &SAVING, front(&volume, len)?, (status, 3, line))?;
    }
    Ok(())
}

/// Bytes in place of a volume's, and the first rule that they break, and its record.
type Damage<'a> = (&'a [Patch<'a>], Rule, u64, &'a str);

/// Words that save or copy `v`, of each kind one.
const FEW_SAVING: [&[&str]; 4] = [
    &SAVE,
    &["ntfsclone", "-s", "-f", "v"],
    &["ntfsclone", "-O", "o", "v"],
    &["ntfsclone", "-o", "o", "v"],
];

fn refuses_damages(
    rt: &impl Abort,
    alloc: Global,
    layout: &Layout,
    damages: &[Damage],
) -> Result<(), Fail> {
    let whole = volume_of(alloc, layout)?;
    for (patches, rule, number, line) in damages {
        let volume = patched(alloc, &whole, patches)?;
        let status = Status::Damaged {
            rule: *rule,
            number: *number,
        };
        let end = (status, 4, *line);
        refuses_all(rt, alloc, &FEW_SAVING, &volume, end)?;
    }
    Ok(())
}

/// The runs of record 33, which take a cluster of record 32; the bit of a free cluster.
const USUAL_DAMAGES: [Damage; 2] = [
    (
        &[(279_872, b"\x21\x02\x5B\0\0")],
        Rule::C8,
        33,
        "ntfsclone: damaged: rule C8 record 33\n",
    ),
    (
        &[(126_976, b"\xFF")],
        Rule::C9,
        6,
        "ntfsclone: damaged: rule C9 record 6\n",
    ),
];

#[test]
fn damaged_volumes_are_refused(rt: HostRuntime) -> Result<(), Fail> {
    refuses_damages(&rt, rt.alloc(), &USUAL, &USUAL_DAMAGES)
}

/// Record 0, its magic; record 16, its magic; the runs of record 33, which pass the last cluster, or take one of
/// record 32.
const DAMAGES: [Damage; 4] = [
    (
        &[(9216, b"X")],
        Rule::C3,
        0,
        "ntfsclone: damaged: rule C3 record 0\n",
    ),
    (
        &[(25_600, b"BAAD")],
        Rule::C4,
        16,
        "ntfsclone: damaged: rule C4 record 16\n",
    ),
    (
        &[(255_296, b"\x21\x02\xFF\x7F\0")],
        Rule::C7,
        33,
        "ntfsclone: damaged: rule C7 record 33\n",
    ),
    (
        &[(255_296, b"\x21\x02\x27\x01\0")],
        Rule::C8,
        33,
        "ntfsclone: damaged: rule C8 record 33\n",
    ),
];

/// Bits of $Bitmap: one of a free cluster, none of the first; the version in record 3 and its mirror; the flag of a
/// dirty volume, in record 3 alone or in the mirror alone.
const LATER_DAMAGES: [Damage; 5] = [
    (
        &[(114_689, b"\xFF")],
        Rule::C9,
        6,
        "ntfsclone: damaged: rule C9 record 6\n",
    ),
    (
        &[(114_688, b"\xFE")],
        Rule::C9,
        6,
        "ntfsclone: damaged: rule C9 record 6\n",
    ),
    (
        &[(12_577, b"\0"), (46_369, b"\0")],
        Rule::C15,
        3,
        "ntfsclone: damaged: rule C15 record 3\n",
    ),
    (
        &[(12_578, b"\x01")],
        Rule::C16,
        3,
        "ntfsclone: damaged: rule C16 record 3\n",
    ),
    (
        &[(46_370, b"\x01")],
        Rule::C16,
        3,
        "ntfsclone: damaged: rule C16 record 3\n",
    ),
];

#[test]
fn damaged_small_volumes_are_refused(rt: HostRuntime) -> Result<(), Fail> {
    refuses_damages(&rt, rt.alloc(), &SMALL, &DAMAGES)
}

#[test]
fn volumes_with_later_damage_are_refused(rt: HostRuntime) -> Result<(), Fail> {
    refuses_damages(&rt, rt.alloc(), &SMALL, &LATER_DAMAGES)
}

/// Words that don't force, and the same that do.
const UNFORCED: [&[&str]; 6] = [
    &SAVE,
    &PUT,
    &COPY,
    &["ntfsclone", "-s", "-O", "o", "v"],
    &["ntfsclone", "-s", "-o", "o", "v"],
    &["ntfsclone", "-o", "o", "v"],
];

#[test]
fn a_dirty_volume_is_refused(rt: HostRuntime) -> Result<(), Fail> {
    let alloc = rt.alloc();
    let volume = volume_with(alloc, &SMALL, &DIRTY)?;
    let end = (Status::Dirty, 5, "ntfsclone: volume is dirty\n");
    refuses_all(&rt, alloc, &UNFORCED, &volume, end)
}

#[test]
fn a_dirty_volume_is_saved_by_force(rt: HostRuntime) -> Result<(), Fail> {
    let alloc = rt.alloc();
    let volume = volume_with(alloc, &SMALL, &DIRTY)?;
    let clone = clone_of(alloc, &SMALL, &volume)?;
    let restored = restored_of(alloc, &SMALL, &volume)?;
    let words = ["ntfsclone", "-f", "-s", "-o", "c", "v"];
    let saved = run_files(alloc, &words, &[("v", &volume)])?;
    ends(&rt, &saved, Status::Done, 0, "");
    assert!(rt; saved.shelf.content("c") == Some(clone.as_slice()));
    let put = run_files(alloc, &["ntfsclone", "-fs", "v"], &[("v", &volume)])?;
    ends(&rt, &put, Status::Done, 0, "");
    assert!(rt; put.out.content == clone);
    let words = ["ntfsclone", "--force", "-o", "c", "v"];
    let copied = run_files(alloc, &words, &[("v", &volume)])?;
    ends(&rt, &copied, Status::Done, 0, "");
    assert!(rt; copied.shelf.content("c") == Some(restored.as_slice()));
    let words = ["ntfsclone", "-f", "-s", "-o", "o", "v"];
    let end = (OUTPUT_THERE, 2, "ntfsclone: file exists: o\n");
    refuses(&rt, alloc, &words, end, &[("v", &volume), ("o", b"old")])?;
    Ok(())
}

/// The other flags of a volume don't make it dirty.
#[test]
fn other_flags_are_not_dirty(rt: HostRuntime) -> Result<(), Fail> {
    let alloc = rt.alloc();
    let flags = [(12_578, b"\xFE\xFF".as_slice()), (46_370, b"\xFE\xFF")];
    let volume = volume_with(alloc, &SMALL, &flags)?;
    let clone = clone_of(alloc, &SMALL, &volume)?;
    let ran = run_files(alloc, &SAVE, &[("v", &volume)])?;
    ends(&rt, &ran, Status::Done, 0, "");
    assert!(rt; ran.shelf.content("c") == Some(clone.as_slice()));
    Ok(())
}

#[test]
fn an_output_that_is_there_is_refused(rt: HostRuntime) -> Result<(), Fail> {
    let alloc = rt.alloc();
    let volume = volume_of(alloc, &SMALL)?;
    let clone = clone_of(alloc, &SMALL, &volume)?;
    let end = (OUTPUT_THERE, 2, "ntfsclone: file exists: o\n");
    for old in [b"".as_slice(), b"old"] {
        let files = [("v", volume.as_slice()), ("k", &clone), ("o", old)];
        for words in [
            ["ntfsclone", "-s", "-o", "o", "v"].as_slice(),
            &["ntfsclone", "-o", "o", "v"],
            &["ntfsclone", "-r", "-o", "o", "k"],
        ] {
            refuses(&rt, alloc, words, end, &files)?;
        }
        let files = [("o", old)];
        let words = ["ntfsclone", "-r", "-o", "o"];
        let ran = run_with(alloc, &words, &files, &clone, NO_FAULT)?;
        is_refused(&rt, &ran, end, &files);
    }
    Ok(())
}

/// The header of a clone image is read before the output is made, and the commands behind that.
#[test]
fn an_output_is_made_behind_the_header(rt: HostRuntime) -> Result<(), Fail> {
    let alloc = rt.alloc();
    let volume = volume_of(alloc, &SMALL)?;
    let clone = clone_of(alloc, &SMALL, &volume)?;
    let words = ["ntfsclone", "-r", "-o", "o", "k"];
    let over = ["ntfsclone", "-r", "-O", "o", "k"];
    for (len, place, line) in [
        (0, 0, "ntfsclone: bad clone image at byte 0\n"),
        (16, 16, "ntfsclone: bad clone image at byte 16\n"),
        (55, 50, "ntfsclone: bad clone image at byte 50\n"),
    ] {
        let files = [("k", front(&clone, len)?), ("o", b"old".as_slice())];
        let end = (Status::BadClone { place }, 9, line);
        refuses(&rt, alloc, &words, end, &files)?;
        refuses(&rt, alloc, &over, end, &files)?;
    }
    let end = (OUTPUT_THERE, 2, "ntfsclone: file exists: o\n");
    for len in [56, 57, 100_000] {
        let files = [("k", front(&clone, len)?), ("o", b"old".as_slice())];
        refuses(&rt, alloc, &words, end, &files)?;
    }
    Ok(())
}
