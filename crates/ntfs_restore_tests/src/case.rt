//! Command lines over files in memory, an input and two outputs, of which one call may fail.
ghost use Rattle.std.specs.Prelude.{◌≡◌, [], IfOk};
ghost use Rattle.ntfs_base.specs.MemShelf.{seen_mem_shelf};

use ntfs_base::{FailingCall, MemShelf, MemSink, MemSource};
use ntfs_run::{Status, run};
use std::alloc::{AllocError, Global};
use std::process::Abort;
use std::test::Fail;

/// A file of a shelf: its name and its bytes.
pub type File<'a> = (&'a str, &'a [u8]);

/// Which call fails: on the file of a name, on the input, on the output and on the messages.
#[derive(Clone, Copy)]
pub struct Plan<'a> {
    pub file: Option<(&'a str, FailingCall)>,
    pub input: Option<FailingCall>,
    pub out: Option<FailingCall>,
    pub err: Option<FailingCall>,
}

pub const NO_FAULT: Plan = Plan {
    file: None,
    input: None,
    out: None,
    err: None,
};

/// What a run has left.
#[derive(Drop)]
pub struct Ran {
    pub status: Status,
    pub shelf: MemShelf,
    pub input: MemSource,
    pub out: MemSink,
    pub err: MemSink,
}

/// The words as texts of their own.
fn texts(alloc: Global, words: &[&str]) -> Result<Vec<String>, AllocError> {
    let mut all = Vec::new(alloc);
    for word in words {
        all.push(String::from_str(alloc, word)?)?;
    }
    Ok(all)
}

/// A shelf with these files.
fn shelf_with(alloc: Global, files: &[File]) -> Result<MemShelf, AllocError>
    ensures { IfOk result (λ shelf. (seen_mem_shelf shelf.places.items shelf.attached.items).attached ≡ []) }
{
    let mut shelf = MemShelf::new(alloc);
    'files: for file in files {
        shelf.add(alloc, file.0, Vec::from_slice(alloc, file.1)?)?;
    }
    Ok(shelf)
}

/// The same, of which a call on a file may fail.
fn failing_shelf(
    alloc: Global,
    files: &[File],
    call: Option<(&str, FailingCall)>,
) -> Result<MemShelf, AllocError>
    ensures { IfOk result (λ shelf. (seen_mem_shelf shelf.places.items shelf.attached.items).attached ≡ []) }
{
    let mut shelf = shelf_with(alloc, files)?;
    match call {
        None => Ok(shelf),
        Some((name, call)) => {
            shelf.fail(alloc, name, call.number, call.leaves)?;
            Ok(shelf)
        }
    }
}

fn failing_sink(alloc: Global, call: Option<FailingCall>) -> Result<MemSink, AllocError> {
    let mut sink = MemSink::new(alloc);
    if let Some(call) = call {
        sink.calls.fail(alloc, call.number, call.leaves)?;
    }
    Ok(sink)
}

fn failing_source(
    alloc: Global,
    bytes: &[u8],
    call: Option<FailingCall>,
) -> Result<MemSource, AllocError> {
    let mut source = MemSource::new(alloc, Vec::from_slice(alloc, bytes)?);
    if let Some(call) = call {
        source.calls.fail(alloc, call.number, call.leaves)?;
    }
    Ok(source)
}

/// Runs words over these files and an input that gives these bytes.
pub fn run_with(
    alloc: Global,
    words: &[&str],
    files: &[File],
    input: &[u8],
    plan: Plan,
) -> Result<Ran, AllocError> {
    let words = texts(alloc, words)?;
    let mut shelf = failing_shelf(alloc, files, plan.file)?;
    let mut input = failing_source(alloc, input, plan.input)?;
    let mut out = failing_sink(alloc, plan.out)?;
    let mut err = failing_sink(alloc, plan.err)?;
    let status = run(alloc, &words, &mut shelf, &mut input, &mut out, &mut err);
    Ok(Ran {
        status,
        shelf,
        input,
        out,
        err,
    })
}

/// Runs words over these files, with no input and no call that fails.
pub fn run_files(alloc: Global, words: &[&str], files: &[File]) -> Result<Ran, AllocError> {
    run_with(alloc, words, files, b"", NO_FAULT)
}

/// The front of some bytes.
pub fn front(bytes: &[u8], count: usize) -> Result<&[u8], Fail> {
    Ok(bytes.get(..count).ok_or("too short")?)
}

/// A run has this status and exit status, and says this line.
pub fn ends(rt: &impl Abort, ran: &Ran, status: Status, code: u8, line: &str) {
    assert_eq!(rt; ran.status, status, "{line}");
    assert_eq!(rt; ran.status.code(), code);
    assert!(rt; ran.err.content.as_slice() == line.as_bytes(), "{line}");
}
