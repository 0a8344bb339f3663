//! `ntfscat` over the small volume.
use crate::case::{Case, Image, all_answer};
use crate::statuses::{COMBINATION, LINE, NO_IMAGE, NUMBER, damage_of, no_record, not_plain};
use crate::volume::{
    Attribute, DATA, FIRST, IN_USE, LIST, Record, SMALL_LEN, bare_volume, small_volume, two_runs,
    zeros,
};
use ntfs_base::{Missing, Rule};
use ntfs_run::Status;
use std::test::Fail;

/// Record 20 in use, without attributes.
const BLANK: Record = Record {
    number: 20,
    flags: IN_USE,
    base: 0,
    attributes: &[],
};

const TEXT_DATA: Attribute = Attribute::Resident {
    kind: DATA,
    flags: 0,
    value: b"text",
};

/// Record 20 with a text.
const TEXT: Record = Record {
    attributes: &[TEXT_DATA],
    ..BLANK
};

const TWENTY: [&str; 4] = ["ntfscat", "-i", "20", "v"];

#[test]
fn streams_are_put(rt: HostRuntime) -> Result<(), Fail> {
    let alloc = rt.alloc();
    let want = two_runs(alloc)?;
    let hello = Case::puts(&TWENTY, Image::of(SMALL_LEN), b"hello, ntfs\n");
    let runs = Case::puts(&TWENTY, Image::of(SMALL_LEN), &want);
    let cases = [
        hello.with_words(&["ntfscat", "-i", "16", "v"]),
        hello.with_words(&["ntfscat", "-i", "0x10", "v"]),
        hello.with_words(&["ntfscat", "-i", "00000000000000000016", "v"]),
        hello.with_words(&["ntfscat", "-i", "0x0000000000000010", "v"]),
        runs.with_words(&["ntfscat", "-i", "17", "v"]),
        runs.with_words(&["ntfscat", "-i", "0x11", "v"]),
    ];
    let base = small_volume(alloc).ok_or("no image")?;
    all_answer(&rt, alloc, &base, &cases)
}

/// A hole before a cluster.
const HOLE: Record = Record {
    attributes: &[Attribute::Runs {
        clusters: 2,
        size: 1026,
        valid: 1026,
        pairs: &[0x01, 0x01, 0x11, 0x01, 0x32, 0],
    }],
    ..BLANK
};

const NO_RUNS: Record = Record {
    attributes: &[Attribute::Runs {
        clusters: 0,
        size: 0,
        valid: 0,
        pairs: &[0],
    }],
    ..BLANK
};

const NO_VALUE: Record = Record {
    attributes: &[Attribute::Resident {
        kind: DATA,
        flags: 0,
        value: b"",
    }],
    ..BLANK
};

#[test]
fn holes_and_empty_streams_are_put(rt: HostRuntime) -> Result<(), Fail> {
    let alloc = rt.alloc();
    let mut want = zeros(alloc, 1024)?;
    want.extend_from_slice(b"22")?;
    let image = Image::of(SMALL_LEN);
    let cases = [
        Case::puts(&TWENTY, image.with_records(&[FIRST, HOLE]), &want),
        Case::puts(&TWENTY, image.with_records(&[FIRST, NO_RUNS]), b""),
        Case::puts(&TWENTY, image.with_records(&[FIRST, NO_VALUE]), b""),
    ];
    let base = bare_volume(alloc).ok_or("no image")?;
    all_answer(&rt, alloc, &base, &cases)
}

#[test]
fn records_are_missing(rt: HostRuntime) -> Result<(), Fail> {
    let alloc = rt.alloc();
    let missing = Case::refuses(&TWENTY, Image::of(SMALL_LEN), no_record(20), 7, "");
    let cases = [
        missing
            .with_words(&["ntfscat", "-i", "18", "v"])
            .with_refusal(no_record(18), "ntfscat: not found: record 18\n"),
        missing
            .with_words(&["ntfscat", "-i", "32", "v"])
            .with_refusal(no_record(32), "ntfscat: not found: record 32\n"),
        missing
            .with_words(&["ntfscat", "-i", "18446744073709551615", "v"])
            .with_refusal(
                no_record(u64::MAX),
                "ntfscat: not found: record 18446744073709551615\n",
            ),
    ];
    let base = small_volume(alloc).ok_or("no image")?;
    all_answer(&rt, alloc, &base, &cases)
}

/// A record that isn't in use.
const FREE: Record = Record { flags: 0, ..TEXT };

/// An extension record.
const EXTENSION: Record = Record { base: 16, ..TEXT };

/// A text that the attribute list doesn't name.
const LISTED: Record = Record {
    attributes: &[
        Attribute::Resident {
            kind: LIST,
            flags: 0,
            value: b"",
        },
        TEXT_DATA,
    ],
    ..BLANK
};

const NO_STREAM: Status = Status::NotFound {
    what: Missing::Stream,
};

#[test]
fn streams_are_missing(rt: HostRuntime) -> Result<(), Fail> {
    let alloc = rt.alloc();
    let image = Image::of(SMALL_LEN);
    let missing = Case::refuses(
        &TWENTY,
        image,
        no_record(20),
        7,
        "ntfscat: not found: record 20\n",
    );
    let no_stream = missing.with_refusal(NO_STREAM, "ntfscat: not found: stream\n");
    let cases = [
        missing.with_image(image.with_records(&[FIRST, FREE])),
        missing.with_image(image.with_records(&[FIRST, EXTENSION])),
        no_stream.with_image(image.with_records(&[FIRST, BLANK])),
        no_stream.with_image(image.with_records(&[FIRST, LISTED])),
    ];
    let base = bare_volume(alloc).ok_or("no image")?;
    all_answer(&rt, alloc, &base, &cases)
}

const COMPRESSED: Record = Record {
    attributes: &[Attribute::Resident {
        kind: DATA,
        flags: 0x0001,
        value: b"text",
    }],
    ..BLANK
};

const ENCRYPTED: Record = Record {
    attributes: &[Attribute::Resident {
        kind: DATA,
        flags: 0x4000,
        value: b"text",
    }],
    ..BLANK
};

/// A sparse stream is plain.
const SPARSE: Record = Record {
    attributes: &[Attribute::Resident {
        kind: DATA,
        flags: 0x8000,
        value: b"text",
    }],
    ..BLANK
};

#[test]
fn streams_that_are_not_plain_are_refused(rt: HostRuntime) -> Result<(), Fail> {
    let alloc = rt.alloc();
    let image = Image::of(SMALL_LEN);
    let refused = Case::refuses(&TWENTY, image, NO_STREAM, 8, "");
    let cases = [
        refused
            .with_image(image.with_records(&[FIRST, COMPRESSED]))
            .with_refusal(
                not_plain(0x0001),
                "ntfscat: stream is not plain: flags 0x0001\n",
            ),
        refused
            .with_image(image.with_records(&[FIRST, ENCRYPTED]))
            .with_refusal(
                not_plain(0x4000),
                "ntfscat: stream is not plain: flags 0x4000\n",
            ),
        Case::puts(&TWENTY, image.with_records(&[FIRST, SPARSE]), b"text"),
    ];
    let base = bare_volume(alloc).ok_or("no image")?;
    all_answer(&rt, alloc, &base, &cases)
}

const BAD_PAIRS: Record = Record {
    attributes: &[Attribute::Runs {
        clusters: 1,
        size: 1,
        valid: 1,
        pairs: &[0x91, 0x01, 0x32, 0],
    }],
    ..BLANK
};

const LONG_SIZE: Record = Record {
    attributes: &[Attribute::Runs {
        clusters: 1,
        size: 1025,
        valid: 1,
        pairs: &[0x11, 0x01, 0x32, 0],
    }],
    ..BLANK
};

/// An attribute list in which an entry is cut off.
const CUT: Record = Record {
    attributes: &[
        Attribute::Resident {
            kind: LIST,
            flags: 0,
            value: b"\x80\0\0\0\x20\0",
        },
        TEXT_DATA,
    ],
    ..BLANK
};

/// A list of an unnamed stream that begins in record 21, which isn't in use.
const STRAY: Record = Record {
    attributes: &[
        Attribute::Resident {
            kind: LIST,
            flags: 0,
            value: b"\x80\0\0\0\x20\0\0\x1A\0\0\0\0\0\0\0\0\x15\0\0\0\0\0\x01\0\0\0\0\0\0\0\0\0",
        },
        TEXT_DATA,
    ],
    ..BLANK
};

/// Where record 20 stands.
const PLACE: usize = 24 * 1024;

#[test]
fn damaged_records_are_refused(rt: HostRuntime) -> Result<(), Fail> {
    let alloc = rt.alloc();
    let image = Image::of(SMALL_LEN);
    let text = image.with_records(&[FIRST, TEXT]);
    let c4 = Case::refuses(
        &TWENTY,
        text,
        damage_of(Rule::C4, 20),
        4,
        "ntfscat: damaged: rule C4 record 20\n",
    );
    let c11 = c4.with_refusal(
        damage_of(Rule::C11, 20),
        "ntfscat: damaged: rule C11 record 20\n",
    );
    let cases = [
        // A check word is torn, the number is another one, more bytes are in use than there are.
        c4.with_image(text.with_bytes(&[(PLACE + 0x1FE, &[9])])),
        c4.with_image(text.with_bytes(&[(PLACE + 0x2C, &[21])])),
        c4.with_image(text.with_bytes(&[(PLACE + 0x19, &[5])])),
        c4.with_image(image.with_records(&[FIRST, BAD_PAIRS]))
            .with_refusal(
                damage_of(Rule::C7, 20),
                "ntfscat: damaged: rule C7 record 20\n",
            ),
        c4.with_image(image.with_records(&[FIRST, LONG_SIZE]))
            .with_refusal(
                damage_of(Rule::C12, 20),
                "ntfscat: damaged: rule C12 record 20\n",
            ),
        c11.with_image(image.with_records(&[FIRST, CUT])),
        c11.with_image(image.with_records(&[FIRST, STRAY])),
    ];
    let base = bare_volume(alloc).ok_or("no image")?;
    all_answer(&rt, alloc, &base, &cases)
}

/// Record 0 that isn't in use.
const FREE_FIRST: Record = Record { flags: 0, ..FIRST };

const BLANK_FIRST: Record = Record {
    attributes: &[],
    ..FIRST
};

/// $MFT has a hole.
const HOLE_FIRST: Record = Record {
    attributes: &[Attribute::Runs {
        clusters: 32,
        size: 32_768,
        valid: 32_768,
        pairs: &[0x11, 0x1F, 0x04, 0x01, 0x01, 0],
    }],
    ..FIRST
};

/// $MFT has eleven records.
const SHORT_FIRST: Record = Record {
    attributes: &[Attribute::Runs {
        clusters: 32,
        size: 11_264,
        valid: 11_264,
        pairs: &[0x11, 0x20, 0x04, 0],
    }],
    ..FIRST
};

/// Where the clusters of $MFT lie.
const TABLE: Attribute = Attribute::Runs {
    clusters: 32,
    size: 32_768,
    valid: 32_768,
    pairs: &[0x11, 0x20, 0x04, 0],
};

/// Record 0 has an attribute list without entries.
const LISTED_FIRST: Record = Record {
    attributes: &[
        Attribute::Resident {
            kind: LIST,
            flags: 0,
            value: b"",
        },
        TABLE,
    ],
    ..FIRST
};

/// Record 0 has an attribute list in which an entry is cut off.
const CUT_FIRST: Record = Record {
    attributes: &[
        Attribute::Resident {
            kind: LIST,
            flags: 0,
            value: b"\x80\0\0\0\x20\0",
        },
        TABLE,
    ],
    ..FIRST
};

#[test]
fn a_record_0_with_a_list_has_a_map(rt: HostRuntime) -> Result<(), Fail> {
    let alloc = rt.alloc();
    let image = Image::of(SMALL_LEN).with_records(&[LISTED_FIRST, TEXT]);
    let cases = [
        Case::puts(&TWENTY, image, b"text"),
        Case::refuses(
            &["ntfscat", "-i", "0", "v"],
            image,
            NO_STREAM,
            7,
            "ntfscat: not found: stream\n",
        ),
    ];
    let base = bare_volume(alloc).ok_or("no image")?;
    all_answer(&rt, alloc, &base, &cases)
}

#[test]
fn volumes_without_a_map_are_refused(rt: HostRuntime) -> Result<(), Fail> {
    let alloc = rt.alloc();
    let image = Image::of(SMALL_LEN);
    let words = ["ntfscat", "-i", "16", "v"];
    let c3 = Case::refuses(
        &words,
        image,
        damage_of(Rule::C3, 0),
        4,
        "ntfscat: damaged: rule C3 record 0\n",
    );
    let cases = [
        c3,
        c3.with_image(image.with_records(&[FREE_FIRST])),
        c3.with_image(image.with_records(&[BLANK_FIRST])),
        c3.with_image(image.with_records(&[HOLE_FIRST])),
        c3.with_image(image.with_records(&[SHORT_FIRST])),
        c3.with_image(image.with_records(&[CUT_FIRST])),
    ];
    let base = bare_volume(alloc).ok_or("no image")?;
    all_answer(&rt, alloc, &base, &cases)
}

/// $MFT is a value.
const VALUE_FIRST: Record = Record {
    attributes: &[TEXT_DATA],
    ..FIRST
};

/// Where the unnamed data of record 0 stands.
const TABLE_PLACE: usize = 4 * 1024 + 0x38;

#[test]
fn maps_that_do_not_fit_are_refused(rt: HostRuntime) -> Result<(), Fail> {
    let alloc = rt.alloc();
    let image = Image::of(SMALL_LEN).with_records(&[FIRST, TEXT]);
    let c3 = Case::refuses(
        &TWENTY,
        image,
        damage_of(Rule::C3, 0),
        4,
        "ntfscat: damaged: rule C3 record 0\n",
    );
    let cases = [
        Case::puts(&TWENTY, image, b"text"),
        c3.with_image(Image::of(SMALL_LEN).with_records(&[VALUE_FIRST])),
        // Pairs that aren't right, and such whose clusters end behind the last.
        c3.with_image(image.with_bytes(&[(TABLE_PLACE + 0x40, &[0x91])])),
        c3.with_image(image.with_bytes(&[(TABLE_PLACE + 0x42, &[0x21])])),
        // The lowest and the highest VCN, a size above the clusters' bytes, and an initialised size above the size.
        c3.with_image(image.with_bytes(&[(TABLE_PLACE + 0x10, &[1]), (TABLE_PLACE + 0x18, &[32])])),
        c3.with_image(image.with_bytes(&[(TABLE_PLACE + 0x30, &[1])])),
        c3.with_image(image.with_bytes(&[(TABLE_PLACE + 0x38, &[1])])),
    ];
    let base = bare_volume(alloc).ok_or("no image")?;
    all_answer(&rt, alloc, &base, &cases)
}

#[test]
fn spellings_are_no_numbers(rt: HostRuntime) -> Result<(), Fail> {
    let alloc = rt.alloc();
    let refused = Case::refuses(
        &TWENTY,
        Image::of(SMALL_LEN),
        NUMBER,
        1,
        "ntfscat: usage: number\n",
    );
    let cases = [
        refused.with_words(&["ntfscat", "-i", "", "v"]),
        refused.with_words(&["ntfscat", "-i", "+16", "v"]),
        refused.with_words(&["ntfscat", "-i-16", "v"]),
        refused.with_words(&["ntfscat", "--inode=-16", "v"]),
        refused.with_words(&["ntfscat", "-i", "16 ", "v"]),
        refused.with_words(&["ntfscat", "-i", "1_6", "v"]),
        refused.with_words(&["ntfscat", "-i", "0x", "v"]),
    ];
    let base = small_volume(alloc).ok_or("no image")?;
    all_answer(&rt, alloc, &base, &cases)
}

#[test]
fn long_and_odd_spellings_are_no_numbers(rt: HostRuntime) -> Result<(), Fail> {
    let alloc = rt.alloc();
    let refused = Case::refuses(
        &TWENTY,
        Image::of(SMALL_LEN),
        NUMBER,
        1,
        "ntfscat: usage: number\n",
    );
    let cases = [
        refused.with_words(&["ntfscat", "-i", "0X10", "v"]),
        refused.with_words(&["ntfscat", "-i", "0x+1", "v"]),
        refused.with_words(&["ntfscat", "-i", "x10", "v"]),
        refused.with_words(&["ntfscat", "-i", "000000000000000000016", "v"]),
        refused.with_words(&["ntfscat", "-i", "18446744073709551616", "v"]),
        refused.with_words(&["ntfscat", "-i", "0x00000000000000010", "v"]),
    ];
    let base = small_volume(alloc).ok_or("no image")?;
    all_answer(&rt, alloc, &base, &cases)
}

/// A word that begins with a hyphen is an option, where none stands before it that takes it whole.
#[test]
fn words_of_ntfscat_are_refused(rt: HostRuntime) -> Result<(), Fail> {
    let line = Case::refuses(&TWENTY, Image::of(0), LINE, 1, "ntfscat: usage: line\n");
    let both = line.with_refusal(COMBINATION, "ntfscat: usage: combination\n");
    let absent = Case::refuses(
        &TWENTY,
        Image::of(0),
        NO_IMAGE,
        2,
        "ntfscat: no such file: w\n",
    );
    let cases = [
        line.with_words(&["ntfscat"]),
        line.with_words(&["ntfscat", "-i", "16"]),
        line.with_words(&["ntfscat", "-i", "-16", "v"]),
        line.with_words(&["ntfscat", "-m", "16", "v"]),
        line.with_words(&["ntfscat", "-i", "16", "-v"]),
        line.with_words(&["ntfscat", "-i", "16", "-i", "16", "v"]),
        both.with_words(&["ntfscat", "v"]),
        both.with_words(&["ntfscat", "-i", "16", "v", "v"]),
        both.with_words(&["ntfscat", "-i", "1x", "v", "v"]),
        absent.with_words(&["ntfscat", "-i", "16", "w"]),
        absent.with_words(&["ntfscat", "w", "-i16"]),
    ];
    all_answer(&rt, rt.alloc(), b"", &cases)
}
