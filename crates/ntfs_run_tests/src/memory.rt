//! Each tool with all the memory that it asks for, or without some of it. `tools/refused_memory.py` has each allocation
//! refused in turn.
use crate::case::{NO_FAULT, run_over, texts};
use crate::info::{INFO, LINES};
use crate::volume::{BOOT, BOOT_LEN, image_of, small_volume, two_runs};
use ntfs_run::Status;
use ntfs_words::{Request, WordsFault, read_words};
use std::process::Abort;
use std::test::Fail;

/// Runs `ntfsinfo`: whether it was done. Where it wasn't, memory was wanting, and nothing is changed.
fn info_is_whole(rt: &impl Abort, host: &HostRuntime) -> Result<bool, Fail> {
    let alloc = host.alloc();
    let (Some(before), Some(image)) = (
        image_of(alloc, BOOT_LEN, &BOOT),
        image_of(alloc, BOOT_LEN, &BOOT),
    ) else {
        return Ok(false);
    };
    let Ok(ran) = run_over(alloc, &INFO, Some(image), NO_FAULT) else {
        return Ok(false);
    };
    assert!(rt; ran.shelf.content("v") == Some(before.as_slice()));
    if ran.status == Status::Done {
        assert!(rt; ran.out.content.as_slice() == LINES);
        return Ok(true);
    }
    assert_eq!(rt; ran.status, Status::NoMemory);
    assert_eq!(rt; ran.status.code(), 12);
    assert!(rt; LINES.starts_with(ran.out.content.as_slice()));
    assert!(rt; b"ntfsinfo: no memory\n".starts_with(ran.err.content.as_slice()));
    Ok(false)
}

/// Runs `ntfscat`: whether it was done. Where it wasn't, memory was wanting, a front of the stream was put, and nothing
/// is changed.
fn cat_is_whole(rt: &impl Abort, host: &HostRuntime) -> Result<bool, Fail> {
    let alloc = host.alloc();
    let (Ok(want), Some(before), Some(volume)) = (
        two_runs(alloc),
        small_volume(alloc),
        small_volume(alloc),
    ) else {
        return Ok(false);
    };
    let words = ["ntfscat", "-i", "17", "v"];
    let Ok(ran) = run_over(alloc, &words, Some(volume), NO_FAULT) else {
        return Ok(false);
    };
    assert!(rt; ran.shelf.content("v") == Some(before.as_slice()));
    if ran.status == Status::Done {
        assert!(rt; ran.out.content.as_slice() == want.as_slice());
        return Ok(true);
    }
    assert_eq!(rt; ran.status, Status::NoMemory);
    assert!(rt; want.as_slice().starts_with(ran.out.content.as_slice()));
    assert!(rt; b"ntfscat: no memory\n".starts_with(ran.err.content.as_slice()));
    Ok(false)
}

/// Reads the words of a command line: whether they were read. Where they weren't, memory was wanting.
fn words_are_whole(rt: &impl Abort, host: &HostRuntime) -> Result<bool, Fail> {
    let alloc = host.alloc();
    let line = [
        "ntfscat",
        "--attribute=0x80",
        "v",
        "Dir/inner.txt",
        "-n",
        "other",
    ];
    let Ok(words) = texts(alloc, &line) else {
        return Ok(false);
    };
    match read_words(alloc, &words) {
        Ok(Request::Cat { kind, image, .. }) => {
            assert_eq!(rt; kind, 0x80);
            assert!(rt; image.as_str() == "v");
            Ok(true)
        }
        Err(WordsFault::NoMemory) => Ok(false),
        _ => Err("other words were read".into()),
    }
}

/// Runs a tool that shows over a made volume, by a path where it takes one: whether it was done. Where it wasn't,
/// memory was wanting, a front of the output was put, and nothing is changed.
fn show_is_done(
    rt: &impl Abort,
    host: &HostRuntime,
    words: &[&str],
    want: &[u8],
    line: &[u8],
) -> Result<bool, Fail> {
    let alloc = host.alloc();
    let make = ["ntfsmake", "v", "2", "1024", "1024"];
    let Ok(made) = run_over(alloc, &make, None, NO_FAULT) else {
        return Ok(false);
    };
    let Some(volume) = made.shelf.content("v") else {
        return Ok(false);
    };
    let Ok(copy) = Vec::from_slice(alloc, volume) else {
        return Ok(false);
    };
    let Ok(ran) = run_over(alloc, words, Some(copy), NO_FAULT) else {
        return Ok(false);
    };
    if made.status != Status::Done {
        return Ok(false);
    }
    assert!(rt; ran.shelf.content("v") == Some(volume));
    if ran.status == Status::Done {
        assert!(rt; ran.out.content.as_slice() == want);
        return Ok(true);
    }
    assert_eq!(rt; ran.status, Status::NoMemory);
    assert!(rt; want.starts_with(ran.out.content.as_slice()));
    assert!(rt; line.starts_with(ran.err.content.as_slice()));
    Ok(false)
}

/// Runs `ntfscat` with a path.
fn path_is_whole(rt: &impl Abort, host: &HostRuntime) -> Result<bool, Fail> {
    let words = ["ntfscat", "v", "Dir/inner.txt"];
    show_is_done(rt, host, &words, b"inner\n", b"ntfscat: no memory\n")
}

/// Runs `ntfsls` with directories below.
fn list_is_whole(rt: &impl Abort, host: &HostRuntime) -> Result<bool, Fail> {
    let words = ["ntfsls", "-RFi", "--path=/Dir", "v"];
    show_is_done(rt, host, &words, b"24 inner.txt\n", b"ntfsls: no memory\n")
}

/// Runs `ntfscluster` for a range.
fn owners_are_whole(rt: &impl Abort, host: &HostRuntime) -> Result<bool, Fail> {
    let words = ["ntfscluster", "--cluster", "0-0", "v"];
    show_is_done(
        rt,
        host,
        &words,
        b"cluster 0 record 7 0x80 \"\" vcn 0\n",
        b"ntfscluster: no memory\n",
    )
}

/// The length of a volume of 1,024 clusters of 1,024 bytes, with the copy of its boot sector.
const MADE_LEN: usize = 1_049_600;

/// Runs `ntfsmake`: whether it was done. Where it wasn't, memory was wanting, and there is no file, or one that is
/// empty or has its length.
fn make_is_whole(rt: &impl Abort, host: &HostRuntime) -> Result<bool, Fail> {
    let alloc = host.alloc();
    let words = ["ntfsmake", "v", "2", "1024", "1024"];
    let Ok(ran) = run_over(alloc, &words, None, NO_FAULT) else {
        return Ok(false);
    };
    assert_eq!(rt; ran.out.content.len(), 0);
    let length = ran.shelf.content("v").map(|content| content.len());
    if ran.status == Status::Done {
        assert_eq!(rt; length, Some(MADE_LEN));
        return Ok(true);
    }
    assert_eq!(rt; ran.status, Status::NoMemory);
    assert!(rt; b"ntfsmake: no memory\n".starts_with(ran.err.content.as_slice()));
    assert!(rt; length.is_none() || length == Some(0) || length == Some(MADE_LEN));
    Ok(false)
}

#[test]
fn with_ample_memory_ntfsinfo_is_done(rt: HostRuntime) -> Result<(), Fail> {
    assert!(rt; info_is_whole(&rt, &rt)?);
    Ok(())
}

#[test]
fn with_ample_memory_ntfscat_is_done(rt: HostRuntime) -> Result<(), Fail> {
    assert!(rt; cat_is_whole(&rt, &rt)?);
    Ok(())
}

#[test]
fn with_ample_memory_ntfsmake_is_done(rt: HostRuntime) -> Result<(), Fail> {
    assert!(rt; make_is_whole(&rt, &rt)?);
    Ok(())
}

#[test]
fn with_ample_memory_ntfscat_by_a_path_is_done(rt: HostRuntime) -> Result<(), Fail> {
    assert!(rt; path_is_whole(&rt, &rt)?);
    Ok(())
}

#[test]
fn with_ample_memory_ntfsls_is_done(rt: HostRuntime) -> Result<(), Fail> {
    assert!(rt; list_is_whole(&rt, &rt)?);
    Ok(())
}

#[test]
fn with_ample_memory_ntfscluster_is_done(rt: HostRuntime) -> Result<(), Fail> {
    assert!(rt; owners_are_whole(&rt, &rt)?);
    Ok(())
}

#[test]
fn with_ample_memory_words_are_read(rt: HostRuntime) -> Result<(), Fail> {
    assert!(rt; words_are_whole(&rt, &rt)?);
    Ok(())
}
