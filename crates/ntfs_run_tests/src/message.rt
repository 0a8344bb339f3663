//! The message line of each status.
use crate::statuses::{
    COMBINATION, LINE, NO_IMAGE, NUMBER, TOOL, bad_geometry, damage_of, guarded_refusal,
    image_short, no_geometry, no_record, not_plain,
};
use ntfs_base::{Lack, MemSink, Missing, Named, Rule, UsageKind};
use ntfs_run::{Status, put_message};
use ntfs_words::{Request, Text, Tool, WordsFault};
use std::alloc::{AllocError, Global};
use std::process::Abort;
use std::test::Fail;

/// A status, its code and its text.
type Row<'a> = (Status, u8, &'a str);

/// A request of `ntfsinfo`.
fn request(alloc: Global) -> Result<Result<Request, WordsFault>, AllocError> {
    let image = Text::new(alloc, "v")?;
    Ok(Ok(Request::Info {
        mft: true,
        number: None,
        image,
    }))
}

/// The message line of a status, for a command line of `ntfsinfo`.
fn says(rt: &impl Abort, alloc: Global, row: &Row) -> Result<(), Fail> {
    let (status, code, text) = *row;
    let request = request(alloc)?;
    let mut err = MemSink::new(alloc);
    put_message(Some(Tool::Info), &request, &status, &mut err)
        .ok()
        .ok_or("a fault")?;
    assert_eq!(rt; status.code(), code);
    let line = err.content.as_slice();
    assert!(rt; line.starts_with(b"ntfsinfo: ") && line.ends_with(b"\n"));
    assert_eq!(rt; line.len(), 11 + text.len());
    assert!(rt; line[10..].starts_with(text.as_bytes()), "{text}");
    Ok(())
}

fn all_say(rt: &impl Abort, alloc: Global, rows: &[Row]) -> Result<(), Fail> {
    for row in rows {
        says(rt, alloc, row)?;
    }
    Ok(())
}

#[test]
fn nothing_is_said_of_work_that_is_done(rt: HostRuntime) -> Result<(), Fail> {
    let alloc = rt.alloc();
    let mut err = MemSink::new(alloc);
    let request = request(alloc)?;
    put_message(Some(Tool::Info), &request, &Status::Done, &mut err)
        .ok()
        .ok_or("a fault")?;
    assert_eq!(rt; err.content.len(), 0);
    assert_eq!(rt; Status::Done.code(), 0);
    Ok(())
}

const SAME_NAME: Status = Status::Usage {
    kind: UsageKind::SameName,
};

const IMAGE_THERE: Status = Status::Present { file: Named::Image };

#[test]
fn refused_words_and_files_have_their_texts(rt: HostRuntime) -> Result<(), Fail> {
    let rows = [
        (TOOL, 1, "usage: tool"),
        (LINE, 1, "usage: line"),
        (COMBINATION, 1, "usage: combination"),
        (NUMBER, 1, "usage: number"),
        (SAME_NAME, 1, "usage: same name"),
        (NO_IMAGE, 2, "no such file: v"),
        (IMAGE_THERE, 2, "file exists: v"),
        (Status::NotNtfs, 3, "not an NTFS volume"),
        (bad_geometry(8, 7), 3, "bad geometry: field 8 value 7"),
        (image_short(511, 512), 3, "image has 511 bytes, needs 512"),
    ];
    all_say(&rt, rt.alloc(), &rows)
}

const FEW_CLUSTERS: Status = Status::ShortClusters { need: 21, free: 20 };

const SHORT_RUN: Status = Status::ShortRun {
    need: 8,
    longest: 7,
};

const NO_ROOM: Status = Status::ShortRoom {
    number: 47,
    need: 1032,
    have: 1024,
};

const UNMENDED: Status = Status::CannotMend {
    rule: Rule::C4,
    number: 2,
};

#[test]
fn wants_and_faults_have_their_texts(rt: HostRuntime) -> Result<(), Fail> {
    let rows = [
        (Status::Dirty, 5, "volume is dirty"),
        (FEW_CLUSTERS, 6, "needs 21 clusters, 20 are free"),
        (
            SHORT_RUN,
            6,
            "needs 8 clusters in a row, longest free run is 7",
        ),
        (NO_ROOM, 6, "record 47 needs 1032 bytes, has 1024"),
        (
            Status::BadClone { place: 56 },
            9,
            "bad clone image at byte 56",
        ),
        (Status::ReadFault, 10, "read fault"),
        (Status::WriteFault, 11, "write fault"),
        (Status::NoMemory, 12, "no memory"),
        (UNMENDED, 13, "cannot mend: rule C4 record 2"),
    ];
    all_say(&rt, rt.alloc(), &rows)
}

const NO_PART: Status = Status::NotFound {
    what: Missing::Part { index: 1 },
};

const NO_STREAM: Status = Status::NotFound {
    what: Missing::Stream,
};

#[test]
fn sizes_and_what_is_missing_have_their_texts(rt: HostRuntime) -> Result<(), Fail> {
    let rows = [
        (
            no_geometry(Lack::Image),
            6,
            "size out of range: image has 4198400, needs 5000000",
        ),
        (
            no_geometry(Lack::Count),
            6,
            "size out of range: count has 4198400, needs 5000000",
        ),
        (
            no_geometry(Lack::Boot),
            6,
            "size out of range: boot has 4198400, needs 5000000",
        ),
        (NO_PART, 7, "not found: path part 1"),
        (no_record(12), 7, "not found: record 12"),
        (NO_STREAM, 7, "not found: stream"),
    ];
    all_say(&rt, rt.alloc(), &rows)
}

const TOO_LONG: Status = Status::TooLong {
    have: 8192,
    want: 8193,
};

#[test]
fn streams_that_are_refused_have_their_texts(rt: HostRuntime) -> Result<(), Fail> {
    let rows = [
        (not_plain(1), 8, "stream is not plain: flags 0x0001"),
        (not_plain(0x4000), 8, "stream is not plain: flags 0x4000"),
        (
            guarded_refusal(0, 0x80),
            8,
            "record 0 type 0x80 may not be written",
        ),
        (
            guarded_refusal(0, 0),
            8,
            "record 0 type 0x0 may not be written",
        ),
        (
            guarded_refusal(7, 0xDEAD_BEEF),
            8,
            "record 7 type 0xdeadbeef may not be written",
        ),
        (
            TOO_LONG,
            8,
            "stream has room for 8192 bytes, source has 8193",
        ),
    ];
    all_say(&rt, rt.alloc(), &rows)
}

#[test]
fn the_first_rules_have_their_names(rt: HostRuntime) -> Result<(), Fail> {
    let rows = [
        (damage_of(Rule::C1, 33), 4, "damaged: rule C1 record 33"),
        (damage_of(Rule::C2, 33), 4, "damaged: rule C2 record 33"),
        (damage_of(Rule::C3, 33), 4, "damaged: rule C3 record 33"),
        (damage_of(Rule::C4, 33), 4, "damaged: rule C4 record 33"),
        (damage_of(Rule::C5, 33), 4, "damaged: rule C5 record 33"),
        (damage_of(Rule::C6, 33), 4, "damaged: rule C6 record 33"),
        (damage_of(Rule::C7, 33), 4, "damaged: rule C7 record 33"),
        (damage_of(Rule::C8, 33), 4, "damaged: rule C8 record 33"),
    ];
    all_say(&rt, rt.alloc(), &rows)
}

#[test]
fn the_last_rules_have_their_names(rt: HostRuntime) -> Result<(), Fail> {
    let rows = [
        (damage_of(Rule::C9, 33), 4, "damaged: rule C9 record 33"),
        (damage_of(Rule::C10, 33), 4, "damaged: rule C10 record 33"),
        (damage_of(Rule::C11, 33), 4, "damaged: rule C11 record 33"),
        (damage_of(Rule::C12, 33), 4, "damaged: rule C12 record 33"),
        (damage_of(Rule::C13, 33), 4, "damaged: rule C13 record 33"),
        (damage_of(Rule::C14, 33), 4, "damaged: rule C14 record 33"),
        (damage_of(Rule::C15, 33), 4, "damaged: rule C15 record 33"),
        (damage_of(Rule::C16, 33), 4, "damaged: rule C16 record 33"),
    ];
    all_say(&rt, rt.alloc(), &rows)
}
