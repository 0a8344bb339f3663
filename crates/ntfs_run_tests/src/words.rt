//! Words of command lines in all their spellings, through `run`.
use crate::case::{Case, Image, NO_FAULT, all_answer, all_follow, run_over};
use crate::info::{INFO, LINES};
use crate::statuses::{COMBINATION, LINE, NO_IMAGE, NUMBER, TOOL, not_plain};
use crate::volume::{BOOT, BOOT_LEN, image_of};
use ntfs_base::{MemShelf, Missing};
use ntfs_run::Status;
use std::test::Fail;

#[test]
fn ntfsinfo_is_asked_in_many_words(rt: HostRuntime) -> Result<(), Fail> {
    let alloc = rt.alloc();
    let lines = Case::puts(&INFO, Image::of(BOOT_LEN), LINES);
    let cases = [
        lines.with_words(&["ntfsinfo", "--mft", "v"]),
        lines.with_words(&["ntfsinfo", "v", "-m"]),
        lines.with_words(&["ntfsinfo", "v", "--mft"]),
        lines.with_words(&["ntfsinfo", "-m", "--", "v"]),
        lines.with_words(&["ntfsinfo", "-m", "v", "--"]),
    ];
    let base = image_of(alloc, BOOT_LEN, &BOOT).ok_or("no image")?;
    all_answer(&rt, alloc, &base, &cases)
}

#[test]
fn lines_of_ntfsinfo_are_refused(rt: HostRuntime) -> Result<(), Fail> {
    let line = Case::refuses(&INFO, Image::of(0), LINE, 1, "ntfsinfo: usage: line\n");
    let both = line.with_refusal(COMBINATION, "ntfsinfo: usage: combination\n");
    let number = line.with_refusal(NUMBER, "ntfsinfo: usage: number\n");
    let cases = [
        line.with_words(&["ntfsinfo"]),
        line.with_words(&["ntfsinfo", "-mm", "v"]),
        line.with_words(&["ntfsinfo", "-m", "--mft", "v"]),
        line.with_words(&["ntfsinfo", "-m=true", "v"]),
        line.with_words(&["ntfsinfo", "--mft=", "v"]),
        line.with_words(&["ntfsinfo", "--MFT", "v"]),
        line.with_words(&["ntfsinfo", "--mf", "v"]),
        line.with_words(&["ntfsinfo", "-h"]),
        line.with_words(&["ntfsinfo", "--help"]),
        line.with_words(&["ntfsinfo", "-V"]),
        line.with_words(&["ntfsinfo", "-i", "5", "--inode=5", "v"]),
        line.with_words(&["ntfsinfo", "v", "-i"]),
        both.with_words(&["ntfsinfo", "v"]),
        both.with_words(&["ntfsinfo", "-m", "-i", "5", "v"]),
        both.with_words(&["ntfsinfo", "-mi5", "v"]),
        both.with_words(&["ntfsinfo", "-m", "-i", "1x", "v"]),
        number.with_words(&["ntfsinfo", "-i", "1x", "v"]),
        number.with_words(&["ntfsinfo", "-i", "", "v"]),
        number.with_words(&["ntfsinfo", "-i=", "v"]),
    ];
    all_answer(&rt, rt.alloc(), b"", &cases)
}

fn absent<'a>(words: &'a [&'a str], line: &'a str) -> Case<'a> {
    Case::refuses(words, Image::of(0), NO_IMAGE, 2, line)
}

/// A name may be any word that isn't read as an option, and any word behind `--`.
#[test]
fn odd_words_are_names(rt: HostRuntime) -> Result<(), Fail> {
    let cases = [
        absent(&["ntfsinfo", "-m", ""], "ntfsinfo: no such file: \n"),
        absent(&["ntfsinfo", "-m", "-"], "ntfsinfo: no such file: -\n"),
        absent(
            &["ntfsinfo", "-m", "help"],
            "ntfsinfo: no such file: help\n",
        ),
        absent(
            &["ntfsinfo", "-m", "\u{E4} \u{20AC}"],
            "ntfsinfo: no such file: \u{E4} \u{20AC}\n",
        ),
        absent(
            &["ntfsinfo", "-m", "--", "-v"],
            "ntfsinfo: no such file: -v\n",
        ),
        absent(
            &["ntfsinfo", "-m", "--", "--"],
            "ntfsinfo: no such file: --\n",
        ),
        absent(
            &["ntfsinfo", "-m", "--", "-m"],
            "ntfsinfo: no such file: -m\n",
        ),
    ];
    all_answer(&rt, rt.alloc(), b"", &cases)
}

/// A tool that isn't built is none, whatever stands behind its word.
#[test]
fn words_that_name_no_tool_are_refused(rt: HostRuntime) -> Result<(), Fail> {
    let tool = Case::refuses(&[], Image::of(0), TOOL, 1, "ntfsprogs: usage: tool\n");
    let cases = [
        tool,
        tool.with_words(&[""]),
        tool.with_words(&["-"]),
        tool.with_words(&["--", "ntfsinfo", "-m", "v"]),
        tool.with_words(&["--help"]),
        tool.with_words(&["NTFSINFO", "-m", "v"]),
        tool.with_words(&["ntfsinfo ", "-m", "v"]),
        tool.with_words(&["ntfsinf\u{F6}", "-m", "v"]),
        tool.with_words(&["ntfscp", "v", "s", "/f"]),
        tool.with_words(&["ntfscp"]),
        tool.with_words(&["ntfsresize", "-i", "v"]),
        tool.with_words(&["ntfsfix", "v"]),
        tool.with_words(&["ntfsresize", "-x"]),
        tool.with_words(&["ntfsfix", "-d", "v"]),
    ];
    all_answer(&rt, rt.alloc(), b"", &cases)
}

#[test]
fn ten_thousand_words_are_refused(rt: HostRuntime) -> Result<(), Fail> {
    let alloc = rt.alloc();
    let mut words = Vec::new(alloc);
    words.push("ntfsinfo")?;
    for _ in 1..10_000 {
        words.push("v")?;
    }
    let ran = run_over(alloc, &words, None, NO_FAULT)?;
    assert_eq!(rt; ran.status, LINE);
    assert!(rt; ran.err.content.as_slice() == b"ntfsinfo: usage: line\n".as_slice());
    Ok(())
}

fn no_part(index: u64) -> Status {
    Status::NotFound {
        what: Missing::Part { index },
    }
}

const NO_STREAM: Status = Status::NotFound {
    what: Missing::Stream,
};

/// The $FILE_NAME of record 16 of a volume of `ntfsmake`: the root as parent, 12 characters in namespace 3, all else
/// zeros.
const FILE_NAME: &[u8] = b"\x05\0\0\0\0\0\x01\0\
    \0\0\0\0\0\0\0\0\0\0\0\0\0\0\0\0\0\0\0\0\0\0\0\0\
    \0\0\0\0\0\0\0\0\0\0\0\0\0\0\0\0\0\0\0\0\0\0\0\0\
    \0\0\0\0\0\0\0\0\x0C\x03\
    r\0e\0s\0i\0d\0e\0n\0t\0.\0t\0x\0t\0";

/// $VOLUME_INFORMATION of record 3: version 3.1.
const VERSION: &[u8] = b"\0\0\0\0\0\0\0\0\x03\x01\0\0";

/// $BITMAP of the root's index: its first block is in use.
const BLOCKS: &[u8] = b"\x01\0\0\0\0\0\0\0";

/// Streams of any type and name, which are compared unit by unit.
#[test]
fn ntfscat_puts_streams_of_types_and_names(rt: HostRuntime) -> Result<(), Fail> {
    let alloc = rt.alloc();
    let mut shelf = MemShelf::new(alloc);
    let empty = Image::of(0);
    let name = Case::puts(&[], empty, FILE_NAME);
    let version = Case::puts(&[], empty, VERSION);
    let blocks = Case::puts(&[], empty, BLOCKS);
    let none = Case::refuses(&[], empty, NO_STREAM, 7, "ntfscat: not found: stream\n");
    let cases = [
        Case::puts(&["ntfsmake", "v", "0", "1024", "4096"], empty, b""),
        name.with_words(&["ntfscat", "-i", "16", "-a", "0x30", "v"]),
        name.with_words(&["ntfscat", "-i16", "-a48", "v"]),
        name.with_words(&["ntfscat", "v", "--attribute=0x30", "--inode=16"]),
        version.with_words(&["ntfscat", "-i", "3", "-a", "0x70", "v"]),
        blocks.with_words(&["ntfscat", "-i", "5", "-a", "0xB0", "-n", "$I30", "v"]),
        blocks.with_words(&["ntfscat", "-i5", "-a0xb0", "--attribute-name=$I30", "v"]),
        none.with_words(&["ntfscat", "-i", "5", "-a", "0xB0", "v"]),
        none.with_words(&["ntfscat", "-i", "5", "-a", "0xB0", "-n", "$i30", "v"]),
        none.with_words(&["ntfscat", "-i", "5", "-a", "0xB0", "-n", "$I3", "v"]),
        none.with_words(&["ntfscat", "-i", "5", "-n", "$I30", "v"]),
        none.with_words(&["ntfscat", "-i", "16", "-n", "\u{1F600}", "v"]),
    ];
    all_follow(&rt, alloc, &mut shelf, &cases)
}

/// Parts of a path are looked up one by one; an empty path is the root.
#[test]
fn ntfscat_takes_paths(rt: HostRuntime) -> Result<(), Fail> {
    let alloc = rt.alloc();
    let mut shelf = MemShelf::new(alloc);
    let empty = Image::of(0);
    let hello = Case::puts(&[], empty, b"hello, ntfs\n");
    let nothing = hello.with_output(b"");
    let missing = Case::refuses(
        &[],
        empty,
        no_part(0),
        7,
        "ntfscat: not found: path part 0\n",
    );
    let below = missing.with_refusal(no_part(1), "ntfscat: not found: path part 1\n");
    let no_stream = missing.with_refusal(NO_STREAM, "ntfscat: not found: stream\n");
    let cases = [
        Case::puts(&["ntfsmake", "v", "0", "1024", "4096"], empty, b""),
        hello.with_words(&["ntfscat", "v", "/resident.txt"]),
        hello.with_words(&["ntfscat", "v", "resident.txt"]),
        hello.with_words(&["ntfscat", "v", "//resident.txt/"]),
        hello.with_words(&["ntfscat", "v", "RESIDENT.txt"]),
        hello
            .with_output(FILE_NAME)
            .with_words(&["ntfscat", "-a", "0x30", "v", "/resident.txt"]),
        hello
            .with_output(BLOCKS)
            .with_words(&["ntfscat", "-a", "0xB0", "-n", "$I30", "v", "/"]),
        nothing.with_words(&["ntfscat", "v", "/empty.bin"]),
        nothing.with_words(&["ntfscat", "v", "/long name.txt"]),
        nothing.with_words(&["ntfscat", "v", "/longna~1.txt"]),
        hello
            .with_output(b"inner\n")
            .with_words(&["ntfscat", "v", "/Dir/inner.txt"]),
        hello
            .with_output(b"A\n")
            .with_words(&["ntfscat", "v", "/A.txt"]),
        hello
            .with_output(b"a\n")
            .with_words(&["ntfscat", "v", "/a.txt"]),
        missing.with_words(&["ntfscat", "v", "/none"]),
        missing.with_words(&["ntfscat", "v", "none/resident.txt"]),
        below.with_words(&["ntfscat", "v", "/Dir/none"]),
        below.with_words(&["ntfscat", "v", "/resident.txt/none"]),
        no_stream.with_words(&["ntfscat", "v", ""]),
        no_stream.with_words(&["ntfscat", "v", "/resident.txt", "-n", "hello"]),
    ];
    all_follow(&rt, alloc, &mut shelf, &cases)
}

#[test]
fn ntfscat_refuses_a_compressed_stream_by_its_path(rt: HostRuntime) -> Result<(), Fail> {
    let alloc = rt.alloc();
    let mut shelf = MemShelf::new(alloc);
    let empty = Image::of(0);
    let cases = [
        Case::puts(&["ntfsmake", "v", "0", "1024", "4096"], empty, b""),
        Case::refuses(
            &["ntfscat", "v", "/packed.bin"],
            empty,
            not_plain(1),
            8,
            "ntfscat: stream is not plain: flags 0x0001\n",
        ),
    ];
    all_follow(&rt, alloc, &mut shelf, &cases)
}
