//! Tables of command lines: what each answers, puts and says.
ghost use Rattle.std.specs.Prelude.{◌≡◌, [], IfOk};
ghost use Rattle.ntfs_base.specs.MemShelf.{seen_mem_shelf};

use crate::volume::{Patch, Record, patch, write_records};
use ntfs_base::{FailingCall, MemShelf, MemSink, MemSource};
use ntfs_run::{Status, run};
use std::alloc::{AllocError, Global};
use std::process::Abort;
use std::test::Fail;

/// What stands under `v`: so many bytes of a table's image and then zeros, with these records and these bytes in place
/// of its own.
#[derive(Clone, Copy)]
pub struct Image<'a> {
    pub len: usize,
    pub records: &'a [Record<'a>],
    pub damage: &'a [Patch<'a>],
}

impl<'a> Image<'a> {
    /// An image of so many bytes.
    pub fn of(len: usize) -> Image<'a> {
        Image {
            len,
            records: &[],
            damage: &[],
        }
    }

    /// With these records.
    pub fn with_records(self, records: &'a [Record<'a>]) -> Image<'a> {
        Image { records, ..self }
    }

    /// With these bytes.
    pub fn with_bytes(self, damage: &'a [Patch<'a>]) -> Image<'a> {
        Image { damage, ..self }
    }
}

/// A command line, and what comes of it.
#[derive(Clone, Copy)]
pub struct Case<'a> {
    pub words: &'a [&'a str],
    pub image: Image<'a>,
    pub status: Status,
    pub code: u8,
    pub output: &'a [u8],
    pub line: &'a str,
}

impl<'a> Case<'a> {
    /// Words whose work is done over an image.
    pub fn puts(words: &'a [&'a str], image: Image<'a>, output: &'a [u8]) -> Case<'a> {
        Case {
            words,
            image,
            status: Status::Done,
            code: 0,
            output,
            line: "",
        }
    }

    /// Words that are refused over an image.
    pub fn refuses(
        words: &'a [&'a str],
        image: Image<'a>,
        status: Status,
        code: u8,
        line: &'a str,
    ) -> Case<'a> {
        Case {
            words,
            image,
            status,
            code,
            output: b"",
            line,
        }
    }

    /// The same of other words.
    pub fn with_words(self, words: &'a [&'a str]) -> Case<'a> {
        Case { words, ..self }
    }

    /// The same over another image.
    pub fn with_image(self, image: Image<'a>) -> Case<'a> {
        Case { image, ..self }
    }

    /// The same with other bytes on the output.
    pub fn with_output(self, output: &'a [u8]) -> Case<'a> {
        Case { output, ..self }
    }

    /// The same with another refusal.
    pub fn with_refusal(self, status: Status, line: &'a str) -> Case<'a> {
        Case {
            status,
            line,
            ..self
        }
    }
}

/// Which call fails: on the file `v`, on the output and on the messages.
#[derive(Clone, Copy)]
pub struct Plan {
    pub file: Option<FailingCall>,
    pub out: Option<FailingCall>,
    pub err: Option<FailingCall>,
}

pub const NO_FAULT: Plan = Plan {
    file: None,
    out: None,
    err: None,
};

/// What a run has left.
#[derive(Drop)]
pub struct Ran {
    pub status: Status,
    pub shelf: MemShelf,
    pub out: MemSink,
    pub err: MemSink,
}

/// The words as texts of their own.
pub fn texts(alloc: Global, words: &[&str]) -> Result<Vec<String>, AllocError> {
    let mut all = Vec::new(alloc);
    for word in words {
        all.push(String::from_str(alloc, word)?)?;
    }
    Ok(all)
}

/// Runs words over a shelf and these sinks.
pub fn run_words(
    alloc: Global,
    words: &[&str],
    shelf: &mut MemShelf,
    out: &mut MemSink,
    err: &mut MemSink,
) -> Result<Status, AllocError>
    requires { (seen_mem_shelf shelf.old.places.items shelf.old.attached.items).attached ≡ [] }
    ensures { (seen_mem_shelf shelf.new.places.items shelf.new.attached.items).attached ≡ [] }
{
    run_words_from(alloc, words, Vec::new(alloc), shelf, out, err)
}

/// Runs words over a shelf, an input that gives these bytes, and these sinks.
pub fn run_words_from(
    alloc: Global,
    words: &[&str],
    input: Vec<u8>,
    shelf: &mut MemShelf,
    out: &mut MemSink,
    err: &mut MemSink,
) -> Result<Status, AllocError>
    requires { (seen_mem_shelf shelf.old.places.items shelf.old.attached.items).attached ≡ [] }
    ensures { (seen_mem_shelf shelf.new.places.items shelf.new.attached.items).attached ≡ [] }
{
    let words = texts(alloc, words)?;
    let mut input = MemSource::new(alloc, input);
    Ok(run(alloc, &words, shelf, &mut input, out, err))
}

/// A shelf with this file as `v`.
fn shelf_of(alloc: Global, file: Option<Vec<u8>>) -> Result<MemShelf, AllocError>
    ensures { IfOk result (λ shelf. (seen_mem_shelf shelf.places.items shelf.attached.items).attached ≡ []) }
{
    let mut shelf = MemShelf::new(alloc);
    match file {
        None => Ok(shelf),
        Some(bytes) => {
            shelf.add(alloc, "v", bytes)?;
            Ok(shelf)
        }
    }
}

fn failing_shelf(
    alloc: Global,
    file: Option<Vec<u8>>,
    call: Option<FailingCall>,
) -> Result<MemShelf, AllocError>
    ensures { IfOk result (λ shelf. (seen_mem_shelf shelf.places.items shelf.attached.items).attached ≡ []) }
{
    let mut shelf = shelf_of(alloc, file)?;
    match call {
        None => Ok(shelf),
        Some(call) => {
            shelf.fail(alloc, "v", call.number, call.leaves)?;
            Ok(shelf)
        }
    }
}

fn failing_sink(alloc: Global, call: Option<FailingCall>) -> Result<MemSink, AllocError> {
    let mut sink = MemSink::new(alloc);
    if let Some(call) = call {
        sink.calls.fail(alloc, call.number, call.leaves)?;
    }
    Ok(sink)
}

/// Runs words over a shelf with this file as `v`.
pub fn run_over(
    alloc: Global,
    words: &[&str],
    file: Option<Vec<u8>>,
    plan: Plan,
) -> Result<Ran, AllocError> {
    let mut shelf = failing_shelf(alloc, file, plan.file)?;
    let mut out = failing_sink(alloc, plan.out)?;
    let mut err = failing_sink(alloc, plan.err)?;
    let status = run_words(alloc, words, &mut shelf, &mut out, &mut err)?;
    Ok(Ran {
        status,
        shelf,
        out,
        err,
    })
}

/// The bytes of an image, of which a table has this one.
fn bytes_of(alloc: Global, image: &Image, base: &[u8]) -> Option<Vec<u8>> {
    let mut bytes = Vec::from_slice(alloc, base).ok()?;
    bytes.resize(image.len, 0).ok()?;
    write_records(&mut bytes, image.records)?;
    patch(&mut bytes, image.damage)?;
    Some(bytes)
}

fn answers(rt: &impl Abort, alloc: Global, base: &[u8], case: &Case) -> Result<(), Fail> {
    let bytes = bytes_of(alloc, &case.image, base).ok_or("no image")?;
    let ran = run_over(alloc, case.words, Some(bytes), NO_FAULT)?;
    assert_eq!(rt; ran.status, case.status, "{}", case.line);
    assert_eq!(rt; ran.status.code(), case.code);
    assert!(rt; ran.out.content.as_slice() == case.output);
    assert!(rt;
        ran.err.content.as_slice() == case.line.as_bytes(),
        "{}",
        case.line
    );
    Ok(())
}

/// Each command line of a table, over an image of its own.
pub fn all_answer(rt: &impl Abort, alloc: Global, base: &[u8], cases: &[Case]) -> Result<(), Fail> {
    for case in cases {
        answers(rt, alloc, base, case)?;
    }
    Ok(())
}

/// A command line over a shelf that others left.
fn follows(rt: &impl Abort, alloc: Global, shelf: &mut MemShelf, case: &Case) -> Result<(), Fail>
    requires { (seen_mem_shelf shelf.old.places.items shelf.old.attached.items).attached ≡ [] }
    ensures { (seen_mem_shelf shelf.new.places.items shelf.new.attached.items).attached ≡ [] }
{
    let mut out = MemSink::new(alloc);
    let mut err = MemSink::new(alloc);
    let status = run_words(alloc, case.words, shelf, &mut out, &mut err)?;
    assert_eq!(rt; status, case.status, "{}", case.line);
    assert_eq!(rt; status.code(), case.code);
    assert!(rt; out.content.as_slice() == case.output);
    assert!(rt;
        err.content.as_slice() == case.line.as_bytes(),
        "{}",
        case.line
    );
    Ok(())
}

/// The command lines of a table, one after the other over the same shelf.
pub fn all_follow(
    rt: &impl Abort,
    alloc: Global,
    shelf: &mut MemShelf,
    cases: &[Case],
) -> Result<(), Fail>
    requires { (seen_mem_shelf shelf.old.places.items shelf.old.attached.items).attached ≡ [] }
{
    'cases: for case in cases {
        follows(rt, alloc, shelf, case)?;
    }
    Ok(())
}
