//! `ntfstrial`.
use crate::case::{Case, Image, NO_FAULT, Plan, all_follow, run_over};
use crate::statuses::{LINE, NUMBER, OUTPUT_THERE};
use ntfs_base::{FailingCall, Leaves, MemShelf, Named};
use ntfs_run::Status;
use std::test::Fail;

const TRIAL: [&str; 3] = ["ntfstrial", "0", "t"];

const MADE: &[u8] = b"made: 16384 clusters, 119 owned\n";

const MADE_AND_SAVED: &[u8] = b"made: 16384 clusters, 119 owned\nclone: 491966 bytes\n";

const LINES: &[u8] =
    b"made: 16384 clusters, 119 owned\nclone: 491966 bytes\nrestored: 67109376 bytes\n";

/// The length of the volume with the copy of its boot sector: 16,385 clusters.
const LEN: usize = 67_112_960;

#[test]
fn a_volume_is_tried(rt: HostRuntime) -> Result<(), Fail> {
    let alloc = rt.alloc();
    let mut shelf = MemShelf::new(alloc);
    let empty = Image::of(0);
    let cases = [
        Case::puts(&TRIAL, empty, LINES),
        Case::refuses(
            &["ntfstrial", "1", "t"],
            empty,
            OUTPUT_THERE,
            2,
            "ntfstrial: file exists: t\n",
        ),
        Case::puts(
            &["ntfscat", "t.back", "/resident.txt"],
            empty,
            b"hello, ntfs\n",
        ),
        Case::puts(&["ntfsclone", "-r", "-n", "t.clone"], empty, b""),
    ];
    all_follow(&rt, alloc, &mut shelf, &cases)?;
    for (name, len) in [("t", LEN), ("t.clone", 491_966), ("t.back", 67_109_376)] {
        let content = shelf.content(name).ok_or("no file")?;
        assert_eq!(rt; content.len(), len);
    }
    Ok(())
}

/// What was done before stands, and so do its lines.
#[test]
fn files_that_are_there_end_a_trial(rt: HostRuntime) -> Result<(), Fail> {
    let alloc = rt.alloc();
    let mut shelf = MemShelf::new(alloc);
    shelf.add(alloc, "t.clone", Vec::new(alloc))?;
    shelf.add(alloc, "u.back", Vec::new(alloc))?;
    let empty = Image::of(0);
    let clone = Status::Present { file: Named::Clone };
    let back = Status::Present { file: Named::Back };
    let cases = [
        Case::refuses(&TRIAL, empty, clone, 2, "ntfstrial: file exists: t.clone\n").with_output(
            MADE,
        ),
        Case::refuses(
            &["ntfstrial", "0", "u"],
            empty,
            back,
            2,
            "ntfstrial: file exists: u.back\n",
        )
        .with_output(MADE_AND_SAVED),
    ];
    all_follow(&rt, alloc, &mut shelf, &cases)?;
    for (name, len) in [
        ("t", LEN),
        ("t.clone", 0),
        ("u", LEN),
        ("u.clone", 491_966),
        ("u.back", 0),
    ] {
        let content = shelf.content(name).ok_or("no file")?;
        assert_eq!(rt; content.len(), len);
    }
    Ok(())
}

/// The output is flushed before a file is made, and then each line is put and flushed.
#[test]
fn an_output_that_fails_ends_a_trial(rt: HostRuntime) -> Result<(), Fail> {
    let alloc = rt.alloc();
    for (number, made, saved) in [(1, false, false), (2, true, false), (5, true, true)] {
        let call = FailingCall {
            number,
            leaves: Leaves::Before,
        };
        let plan = Plan {
            out: Some(call),
            ..NO_FAULT
        };
        let ran = run_over(alloc, &TRIAL, None, plan)?;
        assert_eq!(rt; ran.status, Status::WriteFault);
        assert!(rt; ran.err.content.as_slice() == b"ntfstrial: write fault\n".as_slice());
        assert!(rt; ran.shelf.content("t").is_some() == made, "call {number}");
        assert!(rt;
            ran.shelf.content("t.clone").is_some() == saved,
            "call {number}"
        );
        assert!(rt; ran.shelf.content("t.back").is_none());
    }
    Ok(())
}

#[test]
fn words_of_ntfstrial_are_refused(rt: HostRuntime) -> Result<(), Fail> {
    let alloc = rt.alloc();
    let mut shelf = MemShelf::new(alloc);
    let line = Case::refuses(&TRIAL, Image::of(0), LINE, 1, "ntfstrial: usage: line\n");
    let number = line.with_refusal(NUMBER, "ntfstrial: usage: number\n");
    let cases = [
        line.with_words(&["ntfstrial", "0"]),
        line.with_words(&["ntfstrial", "0", "t", "u"]),
        number.with_words(&["ntfstrial", "x", "t"]),
        number.with_words(&["ntfstrial", "18446744073709551616", "t"]),
    ];
    all_follow(&rt, alloc, &mut shelf, &cases)?;
    assert!(rt; shelf.content("t").is_none());
    Ok(())
}
