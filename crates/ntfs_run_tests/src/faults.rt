//! Calls that fail, one at a time: on the file, on the output, on the messages.
use crate::case::{Case, Image, NO_FAULT, Plan, Ran, run_over};
use crate::info::{INFO, LINES};
use crate::volume::{BOOT, BOOT_LEN, between_zeros, image_of, small_volume, two_runs, zeros};
use ntfs_base::{FailingCall, Leaves, Named};
use ntfs_run::Status;
use std::alloc::{AllocError, Global};
use std::process::Abort;
use std::test::Fail;

/// The runs here have files of their own.
const NO_IMAGE: Image = Image {
    len: 0,
    records: &[],
    damage: &[],
};

const READ_FAULT: Case = Case {
    words: &INFO,
    image: NO_IMAGE,
    status: Status::ReadFault,
    code: 10,
    output: LINES,
    line: "ntfsinfo: read fault\n",
};

const WRITE_FAULT: Case = Case {
    status: Status::WriteFault,
    code: 11,
    line: "ntfsinfo: write fault\n",
    ..READ_FAULT
};

const TWO_RUNS: [&str; 4] = ["ntfscat", "-i", "17", "v"];

/// A volume whose clusters have 1,024 bytes.
const MAKE: [&str; 5] = ["ntfsmake", "v", "2", "1024", "1024"];

const HELLO: [&str; 3] = ["ntfscat", "v", "/resident.txt"];

/// A call of the file.
fn file_call(number: u64, leaves: Leaves) -> Plan {
    Plan {
        file: Some(FailingCall { number, leaves }),
        ..NO_FAULT
    }
}

/// A call of the output.
fn out_call(number: u64, leaves: Leaves) -> Plan {
    Plan {
        out: Some(FailingCall { number, leaves }),
        ..NO_FAULT
    }
}

/// A call of the messages.
fn err_call(number: u64, leaves: Leaves) -> Plan {
    Plan {
        err: Some(FailingCall { number, leaves }),
        ..NO_FAULT
    }
}

fn copy_of(alloc: Global, file: Option<&[u8]>) -> Result<Option<Vec<u8>>, AllocError> {
    match file {
        None => Ok(None),
        Some(bytes) => Ok(Some(Vec::from_slice(alloc, bytes)?)),
    }
}

/// A run with a call that fails: its status, a front of the output, a front of the line, and the file as it was.
fn is_cut(
    rt: &impl Abort,
    alloc: Global,
    file: Option<&[u8]>,
    plan: Plan,
    case: &Case,
) -> Result<Ran, Fail> {
    let ran = run_over(alloc, case.words, copy_of(alloc, file)?, plan)?;
    assert_eq!(rt; ran.status, case.status);
    assert_eq!(rt; ran.status.code(), case.code);
    assert!(rt; case.output.starts_with(ran.out.content.as_slice()));
    assert!(rt; case.line.as_bytes().starts_with(ran.err.content.as_slice()));
    if let Some(bytes) = file {
        assert!(rt; ran.shelf.content("v") == Some(bytes));
    }
    Ok(ran)
}

/// Each call of a tool that shows on its file fails alone; it makes so many.
fn each_read_fails(rt: &impl Abort, alloc: Global, file: &[u8], case: &Case) -> Result<u64, Fail> {
    let done = Case {
        status: Status::Done,
        code: 0,
        line: "",
        ..*case
    };
    let whole = is_cut(rt, alloc, Some(file), NO_FAULT, &done)?;
    assert!(rt; whole.out.content.as_slice() == case.output);
    let calls = whole.shelf.made("v");
    for before in 0..calls {
        let plan = file_call(before + 1, Leaves::Before);
        let ran = is_cut(rt, alloc, Some(file), plan, case)?;
        assert_eq!(rt; ran.shelf.faults.reads, 1);
        assert_eq!(rt; ran.err.content.len(), case.line.len());
    }
    Ok(calls)
}

#[test]
fn a_fault_of_the_shelf_is_a_read_fault(rt: HostRuntime) -> Result<(), Fail> {
    let alloc = rt.alloc();
    let image = image_of(alloc, BOOT_LEN, &BOOT).ok_or("no image")?;
    let calls = each_read_fails(&rt, alloc, &image, &READ_FAULT)?;
    assert_eq!(rt; calls, 2);
    for number in 1..3 {
        let plan = file_call(number, Leaves::Before);
        let ran = is_cut(&rt, alloc, Some(&image), plan, &READ_FAULT)?;
        assert_eq!(rt; ran.out.content.len(), 0);
    }
    Ok(())
}

/// Each call on the image fails alone: a front of the stream was put, and nothing has changed.
#[test]
fn a_fault_of_the_image_is_a_read_fault(rt: HostRuntime) -> Result<(), Fail> {
    let alloc = rt.alloc();
    let want = two_runs(alloc)?;
    let volume = small_volume(alloc).ok_or("no image")?;
    let case = Case {
        words: &TWO_RUNS,
        output: &want,
        line: "ntfscat: read fault\n",
        ..READ_FAULT
    };
    let calls = each_read_fails(&rt, alloc, &volume, &case)?;
    assert!(rt; calls >= 5);
    Ok(())
}

/// The same of a stream of two extents in two records: the boot sector, records 0, 28, 21 and 22 and two clusters are
/// read.
#[test]
fn a_fault_of_the_image_of_a_listed_stream_is_a_read_fault(rt: HostRuntime) -> Result<(), Fail> {
    let alloc = rt.alloc();
    let made = run_over(alloc, &MAKE, None, NO_FAULT)?;
    let volume = made.shelf.content("v").ok_or("no file")?;
    let want = between_zeros(alloc, 21, [0, 2048, 0])?;
    let case = Case {
        words: &["ntfscat", "-i", "21", "v"],
        output: &want,
        line: "ntfscat: read fault\n",
        ..READ_FAULT
    };
    let calls = each_read_fails(&rt, alloc, volume, &case)?;
    assert!(rt; calls >= 8);
    Ok(())
}

/// Each call that a tool makes on a made volume fails alone: by a path the root's index is walked first. Where the
/// first read fails, nothing was put.
#[test]
fn a_fault_of_the_image_by_a_path_is_a_read_fault(rt: HostRuntime) -> Result<(), Fail> {
    let alloc = rt.alloc();
    let made = run_over(alloc, &MAKE, None, NO_FAULT)?;
    let volume = made.shelf.content("v").ok_or("no file")?;
    let hello = Case {
        words: &HELLO,
        output: b"hello, ntfs\n",
        line: "ntfscat: read fault\n",
        ..READ_FAULT
    };
    let below = Case {
        words: &["ntfsls", "-R", "-p", "Dir", "v"],
        output: b"inner.txt\n",
        line: "ntfsls: read fault\n",
        ..READ_FAULT
    };
    for case in [hello, below] {
        let calls = each_read_fails(&rt, alloc, volume, &case)?;
        assert!(rt; calls >= 6);
        let first = is_cut(
            &rt,
            alloc,
            Some(volume),
            file_call(2, Leaves::Before),
            &case,
        )?;
        assert_eq!(rt; first.out.content.len(), 0);
    }
    Ok(())
}

/// The output of a stream that is found by its path fails after three bytes, which were put.
#[test]
fn a_fault_of_the_output_by_a_path_is_a_write_fault(rt: HostRuntime) -> Result<(), Fail> {
    let alloc = rt.alloc();
    let made = run_over(alloc, &MAKE, None, NO_FAULT)?;
    let volume = made.shelf.content("v").ok_or("no file")?;
    let case = Case {
        words: &HELLO,
        output: b"hello, ntfs\n",
        line: "ntfscat: write fault\n",
        ..WRITE_FAULT
    };
    let plan = out_call(1, Leaves::Front { bytes: 3 });
    let ran = is_cut(&rt, alloc, Some(volume), plan, &case)?;
    assert!(rt; ran.out.content.as_slice() == b"hel".as_slice());
    assert_eq!(rt; ran.err.content.len(), case.line.len());
    Ok(())
}

#[test]
fn a_fault_of_the_output_is_a_write_fault(rt: HostRuntime) -> Result<(), Fail> {
    let alloc = rt.alloc();
    let image = image_of(alloc, BOOT_LEN, &BOOT).ok_or("no image")?;
    for (number, leaves, put) in [
        (1, Leaves::Before, 0),
        (1, Leaves::Front { bytes: 5 }, 5),
        (1, Leaves::Asked, 165),
        (2, Leaves::Before, 165),
    ] {
        let plan = out_call(number, leaves);
        let ran = is_cut(&rt, alloc, Some(&image), plan, &WRITE_FAULT)?;
        assert_eq!(rt; ran.out.faults.failures, 1);
        assert_eq!(rt; ran.out.content.len(), put);
        assert_eq!(rt; ran.err.content.len(), WRITE_FAULT.line.len());
    }
    Ok(())
}

/// Each call on the output fails alone, with what it leaves.
#[test]
fn a_fault_of_the_output_of_ntfscat_is_a_write_fault(rt: HostRuntime) -> Result<(), Fail> {
    let alloc = rt.alloc();
    let want = two_runs(alloc)?;
    let volume = small_volume(alloc).ok_or("no image")?;
    let case = Case {
        words: &TWO_RUNS,
        output: &want,
        line: "ntfscat: write fault\n",
        ..WRITE_FAULT
    };
    let whole = run_over(
        alloc,
        &TWO_RUNS,
        Some(small_volume(alloc).ok_or("no image")?),
        NO_FAULT,
    )?;
    assert!(rt; whole.out.content.as_slice() == want.as_slice());
    let calls = whole.out.calls.made;
    assert!(rt; calls >= 2);
    for before in 0..calls {
        for leaves in [Leaves::Before, Leaves::Asked, Leaves::Front { bytes: 3 }] {
            let plan = out_call(before + 1, leaves);
            let ran = is_cut(&rt, alloc, Some(&volume), plan, &case)?;
            assert_eq!(rt; ran.out.faults.failures, 1);
            assert_eq!(rt; ran.err.content.len(), case.line.len());
        }
    }
    Ok(())
}

#[test]
fn a_fault_of_the_messages_changes_no_status(rt: HostRuntime) -> Result<(), Fail> {
    let alloc = rt.alloc();
    let image = image_of(alloc, BOOT_LEN, &BOOT).ok_or("no image")?;
    let case = Case {
        words: &["ntfsinfo", "-m", "w"],
        status: Status::Absent { file: Named::Image },
        code: 2,
        line: "ntfsinfo: no such file: w\n",
        ..READ_FAULT
    };
    for (number, put) in [(1, 2), (2, 25), (3, 25), (4, 26)] {
        let plan = err_call(number, Leaves::Front { bytes: 2 });
        let ran = is_cut(&rt, alloc, Some(&image), plan, &case)?;
        assert_eq!(rt; ran.err.faults.failures, 1);
        assert_eq!(rt; ran.err.content.len(), put);
    }
    Ok(())
}

#[test]
fn a_fault_of_the_messages_of_ntfsmake_changes_no_status(rt: HostRuntime) -> Result<(), Fail> {
    let alloc = rt.alloc();
    let file = zeros(alloc, 1)?;
    let case = Case {
        words: &MAKE,
        status: Status::Present {
            file: Named::Output,
        },
        code: 2,
        output: b"",
        line: "ntfsmake: file exists: v\n",
        ..READ_FAULT
    };
    for number in [1, 2, 3, 4] {
        let plan = err_call(number, Leaves::Before);
        let ran = is_cut(&rt, alloc, Some(&file), plan, &case)?;
        assert_eq!(rt; ran.err.faults.failures, 1);
    }
    Ok(())
}

const MAKE_FAULT: Case = Case {
    words: &MAKE,
    output: b"",
    line: "ntfsmake: write fault\n",
    ..WRITE_FAULT
};

/// A fault of the output comes before the file is made.
#[test]
fn a_fault_of_the_output_of_ntfsmake_leaves_no_file(rt: HostRuntime) -> Result<(), Fail> {
    let alloc = rt.alloc();
    let plan = out_call(1, Leaves::Before);
    let ran = is_cut(&rt, alloc, None, plan, &MAKE_FAULT)?;
    assert_eq!(rt; ran.out.faults.failures, 1);
    assert_eq!(rt; ran.err.content.len(), MAKE_FAULT.line.len());
    assert!(rt; ran.shelf.content("v").is_none());
    Ok(())
}

/// A call on the file fails: there is no file, or one that is empty, or has its length and clusters that are zero or
/// the volume's.
fn leaves_a_part(rt: &impl Abort, alloc: Global, plan: Plan, made: &[u8]) -> Result<(), Fail> {
    let blank = zeros(alloc, 1024)?;
    let ran = is_cut(rt, alloc, None, plan, &MAKE_FAULT)?;
    assert_eq!(rt; ran.shelf.faults.writes, 1);
    assert_eq!(rt; ran.err.content.len(), MAKE_FAULT.line.len());
    if let Some(content) = ran.shelf.content("v") {
        assert!(rt; content.is_empty() || content.len() == made.len());
        for (piece, want) in content.chunks(1024).zip(made.chunks(1024)) {
            assert!(rt; piece == blank.as_slice() || piece == want);
        }
    }
    Ok(())
}

#[test]
fn a_fault_leaves_a_part_of_the_volume(rt: HostRuntime) -> Result<(), Fail> {
    let alloc = rt.alloc();
    let whole = run_over(alloc, &MAKE, None, NO_FAULT)?;
    assert_eq!(rt; whole.status, Status::Done);
    let calls = whole.shelf.made("v");
    assert!(rt; calls >= 10);
    let made = whole.shelf.content("v").ok_or("no file")?;
    for before in 0..calls {
        leaves_a_part(&rt, alloc, file_call(before + 1, Leaves::Before), made)?;
    }
    for number in [2, 3] {
        leaves_a_part(&rt, alloc, file_call(number, Leaves::Asked), made)?;
    }
    Ok(())
}

/// The call that makes the file fails alone, and there is none.
#[test]
fn a_file_that_is_not_made_is_not_there(rt: HostRuntime) -> Result<(), Fail> {
    let alloc = rt.alloc();
    let plan = file_call(1, Leaves::Before);
    let ran = is_cut(&rt, alloc, None, plan, &MAKE_FAULT)?;
    assert!(rt; ran.shelf.content("v").is_none());
    Ok(())
}
