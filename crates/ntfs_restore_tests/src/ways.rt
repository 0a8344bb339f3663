//! The command lines that take a clone image: each gives the same answer, and those that restore make the same file.
use crate::case::{NO_FAULT, ends, run_with};
use ntfs_run::Status;
use std::alloc::Global;
use std::process::Abort;
use std::test::Fail;

/// The clone image is only read, from the input or from the file `c`.
const READ: [&[&str]; 2] = [&["ntfsclone", "-r", "-n"], &["ntfsclone", "-rn", "c"]];

/// It is restored to `b`, from the input or from `c`.
const RESTORE: [&[&str]; 2] = [
    &["ntfsclone", "-r", "-o", "b"],
    &["ntfsclone", "-r", "-o", "b", "c"],
];

/// What is to come of an image: a status, its code and its line.
#[derive(Clone, Copy)]
struct Answer<'a> {
    status: Status,
    code: u8,
    line: &'a str,
}

const DONE: Answer = Answer {
    status: Status::Done,
    code: 0,
    line: "",
};

/// A command line over an image gives an answer, and `b` is there afterwards with these bytes, or isn't.
fn answers(
    rt: &impl Abort,
    alloc: Global,
    words: &[&str],
    image: &[u8],
    answer: &Answer,
    want: Option<&[u8]>,
) -> Result<(), Fail> {
    let ran = run_with(alloc, words, &[("c", image)], image, NO_FAULT)?;
    ends(rt, &ran, answer.status, answer.code, answer.line);
    assert_eq!(rt; ran.out.content.len(), 0);
    assert!(rt; ran.shelf.content("c") == Some(image));
    assert!(rt; ran.shelf.content("b") == want, "{}", answer.line);
    Ok(())
}

fn all_read(rt: &impl Abort, alloc: Global, image: &[u8], answer: &Answer) -> Result<(), Fail> {
    for words in READ {
        answers(rt, alloc, words, image, answer, None)?;
    }
    Ok(())
}

fn all_restore(
    rt: &impl Abort,
    alloc: Global,
    image: &[u8],
    answer: &Answer,
    want: Option<&[u8]>,
) -> Result<(), Fail> {
    for words in RESTORE {
        answers(rt, alloc, words, image, answer, want)?;
    }
    Ok(())
}

/// An image is read to its end.
pub fn reads(rt: &impl Abort, alloc: Global, image: &[u8]) -> Result<(), Fail> {
    all_read(rt, alloc, image, &DONE)
}

/// An image is taken, and restores these bytes.
pub fn restores(rt: &impl Abort, alloc: Global, image: &[u8], want: &[u8]) -> Result<(), Fail> {
    all_read(rt, alloc, image, &DONE)?;
    all_restore(rt, alloc, image, &DONE, Some(want))
}

/// An image is refused at a place; a restore leaves these bytes, or makes no file.
pub fn refuses(
    rt: &impl Abort,
    alloc: Global,
    image: &[u8],
    place: u64,
    want: Option<&[u8]>,
) -> Result<(), Fail> {
    let line = format!(in alloc; "ntfsclone: bad clone image at byte {place}\n")?;
    let answer = Answer {
        status: Status::BadClone { place },
        code: 9,
        line: line.as_str(),
    };
    all_read(rt, alloc, image, &answer)?;
    all_restore(rt, alloc, image, &answer, want)
}
