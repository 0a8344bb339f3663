//! Calls that fail, one at a time: on SOURCE, on the file that is made, on the input, on the output and on the
//! messages; and what stands then.
use crate::case::{File, NO_FAULT, Plan, Ran, ends, front, run_with};
use crate::save::{COPY, COPY_OVER, PUT, SAVE, SAVE_OVER};
use crate::volume::{SMALL, TINY, clone_of, restored_of, tiny_volume, volume_of};
use ntfs_base::{FailingCall, Leaves, Named};
use ntfs_run::Status;
use std::alloc::Global;
use std::process::Abort;
use std::test::Fail;

const RESTORE: [&str; 5] = ["ntfsclone", "-r", "-o", "c", "k"];

const RESTORE_OVER: [&str; 5] = ["ntfsclone", "-r", "-O", "c", "k"];

const TAKE: [&str; 4] = ["ntfsclone", "-r", "-o", "c"];

/// The bytes of the tiny volume's clone image without the command of the tail.
const WITHOUT_TAIL: usize = 2135;

/// What a call may leave that fails.
const ALL_LEAVES: [Leaves; 3] = [Leaves::Before, Leaves::Asked, Leaves::Front { bytes: 100 }];

/// A command line over files, and an input.
#[derive(Clone, Copy)]
struct Job<'a> {
    words: &'a [&'a str],
    files: &'a [File<'a>],
    input: &'a [u8],
}

impl<'a> Job<'a> {
    /// Words over files, with no input.
    fn of(words: &'a [&'a str], files: &'a [File<'a>]) -> Job<'a> {
        Job {
            words,
            files,
            input: b"",
        }
    }
}

/// What a file may hold that was made.
#[derive(Clone, Copy)]
enum Wanted<'a> {
    /// A front of these bytes.
    Front(&'a [u8]),
    /// Nothing, or as many bytes as these, of which each sector is zeros or theirs.
    Part(&'a [u8]),
}

fn is_zero(sector: &[u8]) -> bool {
    for byte in sector {
        if *byte != 0 {
            return false;
        }
    }
    true
}

fn is_part(bytes: &[u8], whole: &[u8]) -> bool {
    if bytes.is_empty() {
        return true;
    }
    for (sector, want) in bytes.chunks(512).zip(whole.chunks(512)) {
        if sector != want && !is_zero(sector) {
            return false;
        }
    }
    bytes.len() == whole.len()
}

fn holds(bytes: &[u8], want: Wanted) -> bool {
    match want {
        Wanted::Front(whole) => whole.starts_with(bytes),
        Wanted::Part(whole) => is_part(bytes, whole),
    }
}

/// A run without a fault is done.
fn is_done(rt: &impl Abort, alloc: Global, job: &Job) -> Result<Ran, Fail> {
    let ran = run_with(alloc, job.words, job.files, job.input, NO_FAULT)?;
    ends(rt, &ran, Status::Done, 0, "");
    assert_eq!(rt; ran.err.calls.made, 0);
    Ok(ran)
}

/// The files of a job are as they were.
fn keeps_files(rt: &impl Abort, ran: &Ran, job: &Job) {
    for (name, bytes) in job.files {
        assert!(rt; ran.shelf.content(name) == Some(*bytes));
    }
}

/// A run met a read fault.
fn is_read_fault(rt: &impl Abort, ran: &Ran) {
    ends(rt, ran, Status::ReadFault, 10, "ntfsclone: read fault\n");
}

/// A run met a write fault.
fn is_write_fault(rt: &impl Abort, ran: &Ran) {
    ends(rt, ran, Status::WriteFault, 11, "ntfsclone: write fault\n");
}

/// The call of this number on the file of a name.
fn file_call<'a>(name: &'a str, number: u64, leaves: Leaves) -> Plan<'a> {
    Plan {
        file: Some((name, FailingCall { number, leaves })),
        ..NO_FAULT
    }
}

// ---- SOURCE

/// A call on SOURCE fails: it is a read fault, and of a file that was made a part stands.
fn source_call_fails(
    rt: &impl Abort,
    alloc: Global,
    job: &Job,
    plan: Plan,
    want: Wanted,
) -> Result<Ran, Fail> {
    let ran = run_with(alloc, job.words, job.files, job.input, plan)?;
    is_read_fault(rt, &ran);
    assert_eq!(rt; ran.shelf.faults.reads, 1);
    keeps_files(rt, &ran, job);
    match ran.shelf.content("c") {
        None => {}
        Some(made) => assert!(rt; holds(made, want)),
    }
    Ok(ran)
}

/// Each call on SOURCE fails alone. There are so many.
fn each_source_call_fails(
    rt: &impl Abort,
    alloc: Global,
    job: &Job,
    name: &str,
    want: Wanted,
) -> Result<u64, Fail> {
    let calls = is_done(rt, alloc, job)?.shelf.made(name);
    for before in 0..calls {
        let plan = file_call(name, before + 1, Leaves::Before);
        let ran = source_call_fails(rt, alloc, job, plan, want)?;
        assert_eq!(rt; ran.out.content.len(), 0);
    }
    Ok(calls)
}

#[test]
fn a_fault_of_source_leaves_a_front_of_a_clone_image(rt: HostRuntime) -> Result<(), Fail> {
    let alloc = rt.alloc();
    let volume = volume_of(alloc, &SMALL)?;
    let clone = clone_of(alloc, &SMALL, &volume)?;
    let files = [("v", volume.as_slice())];
    let job = Job::of(&SAVE, &files);
    let calls = each_source_call_fails(&rt, alloc, &job, "v", Wanted::Front(&clone))?;
    assert!(rt; calls >= 10);
    Ok(())
}

#[test]
fn a_fault_of_source_leaves_a_part_of_a_copy(rt: HostRuntime) -> Result<(), Fail> {
    let alloc = rt.alloc();
    let volume = volume_of(alloc, &SMALL)?;
    let restored = restored_of(alloc, &SMALL, &volume)?;
    let files = [("v", volume.as_slice())];
    let job = Job::of(&COPY, &files);
    let calls = each_source_call_fails(&rt, alloc, &job, "v", Wanted::Part(&restored))?;
    assert!(rt; calls >= 10);
    Ok(())
}

#[test]
fn a_fault_of_a_clone_image_leaves_a_part(rt: HostRuntime) -> Result<(), Fail> {
    let alloc = rt.alloc();
    let volume = tiny_volume(alloc)?;
    let clone = clone_of(alloc, &TINY, &volume)?;
    let restored = restored_of(alloc, &TINY, &volume)?;
    for len in [clone.len(), WITHOUT_TAIL] {
        let files = [("k", front(&clone, len)?)];
        let job = Job::of(&RESTORE, &files);
        let calls = each_source_call_fails(&rt, alloc, &job, "k", Wanted::Part(&restored))?;
        assert!(rt; calls >= 3);
        let job = Job::of(&["ntfsclone", "-rn", "k"], &files);
        each_source_call_fails(&rt, alloc, &job, "k", Wanted::Front(b""))?;
    }
    Ok(())
}

/// How many calls on SOURCE come before the file would be made.
fn earlier_calls(rt: &impl Abort, alloc: Global, job: &Job, name: &str) -> Result<u64, Fail> {
    let ran = run_with(alloc, job.words, job.files, job.input, NO_FAULT)?;
    let present = Status::Present {
        file: Named::Output,
    };
    ends(rt, &ran, present, 2, "ntfsclone: file exists: c\n");
    Ok(ran.shelf.made(name))
}

/// Each of these calls fails alone, and the file that is there stays untouched.
fn each_earlier_call_fails(
    rt: &impl Abort,
    alloc: Global,
    calls: u64,
    job: &Job,
    name: &str,
) -> Result<(), Fail> {
    for before in 0..calls {
        let plan = file_call(name, before + 1, Leaves::Before);
        let ran = source_call_fails(rt, alloc, job, plan, Wanted::Front(b"old"))?;
        assert_eq!(rt; ran.shelf.made("c"), 0);
    }
    Ok(())
}

#[test]
fn a_volume_is_read_before_a_file_is_made(rt: HostRuntime) -> Result<(), Fail> {
    let alloc = rt.alloc();
    let volume = volume_of(alloc, &SMALL)?;
    let files = [("v", volume.as_slice()), ("c", b"old")];
    let job = Job::of(&SAVE, &files);
    let calls = earlier_calls(&rt, alloc, &job, "v")?;
    assert!(rt; calls >= 10);
    each_earlier_call_fails(&rt, alloc, calls, &job, "v")?;
    each_earlier_call_fails(&rt, alloc, calls, &Job::of(&SAVE_OVER, &files), "v")
}

#[test]
fn a_header_is_read_before_a_file_is_made(rt: HostRuntime) -> Result<(), Fail> {
    let alloc = rt.alloc();
    let clone = clone_of(alloc, &TINY, &tiny_volume(alloc)?)?;
    let files = [("k", clone.as_slice()), ("c", b"old")];
    let job = Job::of(&RESTORE, &files);
    let calls = earlier_calls(&rt, alloc, &job, "k")?;
    assert!(rt; calls >= 2);
    each_earlier_call_fails(&rt, alloc, calls, &job, "k")?;
    each_earlier_call_fails(&rt, alloc, calls, &Job::of(&RESTORE_OVER, &files), "k")
}

/// Where a clone image goes to the output, a front of it was put.
#[test]
fn a_fault_of_source_puts_a_front_of_a_clone_image(rt: HostRuntime) -> Result<(), Fail> {
    let alloc = rt.alloc();
    let volume = volume_of(alloc, &SMALL)?;
    let clone = clone_of(alloc, &SMALL, &volume)?;
    let files = [("v", volume.as_slice())];
    let job = Job::of(&PUT, &files);
    let calls = is_done(&rt, alloc, &job)?.shelf.made("v");
    for before in 0..calls {
        let plan = file_call("v", before + 1, Leaves::Before);
        let ran = source_call_fails(&rt, alloc, &job, plan, Wanted::Front(b""))?;
        assert!(rt; clone.starts_with(ran.out.content.as_slice()));
        assert!(rt; ran.out.content.len() < clone.len());
        assert_eq!(rt; ran.shelf.made("c"), 0);
    }
    Ok(())
}

// ---- the file that is made

/// A call on the file that is made fails. It is a write fault, or else a read fault, which is answered. Where the first
/// call fails there is no file; else it holds a part.
fn target_call_fails(
    rt: &impl Abort,
    alloc: Global,
    job: &Job,
    call: FailingCall,
    want: Wanted,
) -> Result<bool, Fail> {
    let plan = file_call("c", call.number, call.leaves);
    let ran = run_with(alloc, job.words, job.files, job.input, plan)?;
    let is_read = ran.shelf.faults.reads == 1;
    if is_read {
        is_read_fault(rt, &ran);
        assert_eq!(rt; ran.shelf.faults.writes, 0);
    } else {
        is_write_fault(rt, &ran);
        assert_eq!(rt; ran.shelf.faults.writes, 1);
    }
    assert_eq!(rt; ran.out.content.len(), 0);
    keeps_files(rt, &ran, job);
    match ran.shelf.content("c") {
        None => assert_eq!(rt; call.number, 1),
        Some(made) => assert!(rt; call.number > 1 && holds(made, want)),
    }
    Ok(is_read)
}

/// Each call on the file that is made fails alone. So many of them are reads.
fn each_target_call_fails(
    rt: &impl Abort,
    alloc: Global,
    job: &Job,
    leaves: Leaves,
    want: Wanted,
) -> Result<u64, Fail> {
    let calls = is_done(rt, alloc, job)?.shelf.made("c");
    let mut reads = 0u64;
    for before in 0..calls {
        let number = before + 1;
        let call = FailingCall { number, leaves };
        if target_call_fails(rt, alloc, job, call, want)? {
            reads = reads.wrapping_add(1);
        }
    }
    Ok(reads)
}

#[test]
fn a_fault_of_a_clone_image_that_is_made_leaves_a_front(rt: HostRuntime) -> Result<(), Fail> {
    let alloc = rt.alloc();
    let volume = volume_of(alloc, &SMALL)?;
    let clone = clone_of(alloc, &SMALL, &volume)?;
    let files = [("v", volume.as_slice())];
    let job = Job::of(&SAVE, &files);
    for leaves in ALL_LEAVES {
        let reads = each_target_call_fails(&rt, alloc, &job, leaves, Wanted::Front(&clone))?;
        assert_eq!(rt; reads, 0);
    }
    Ok(())
}

#[test]
fn a_fault_of_a_copy_leaves_a_part(rt: HostRuntime) -> Result<(), Fail> {
    let alloc = rt.alloc();
    let volume = volume_of(alloc, &SMALL)?;
    let restored = restored_of(alloc, &SMALL, &volume)?;
    let files = [("v", volume.as_slice())];
    let job = Job::of(&COPY, &files);
    for leaves in [Leaves::Before, Leaves::Asked] {
        let reads = each_target_call_fails(&rt, alloc, &job, leaves, Wanted::Part(&restored))?;
        assert_eq!(rt; reads, 0);
    }
    Ok(())
}

#[test]
fn a_fault_of_a_restored_file_leaves_a_part(rt: HostRuntime) -> Result<(), Fail> {
    let alloc = rt.alloc();
    let volume = tiny_volume(alloc)?;
    let clone = clone_of(alloc, &TINY, &volume)?;
    let restored = restored_of(alloc, &TINY, &volume)?;
    let files = [("k", clone.as_slice())];
    let job = Job::of(&RESTORE, &files);
    for leaves in ALL_LEAVES {
        let reads = each_target_call_fails(&rt, alloc, &job, leaves, Wanted::Part(&restored))?;
        assert_eq!(rt; reads, 0);
    }
    Ok(())
}

#[test]
fn a_fault_of_a_file_restored_from_the_input_leaves_a_part(rt: HostRuntime) -> Result<(), Fail> {
    let alloc = rt.alloc();
    let volume = tiny_volume(alloc)?;
    let clone = clone_of(alloc, &TINY, &volume)?;
    let restored = restored_of(alloc, &TINY, &volume)?;
    let job = Job {
        words: &TAKE,
        files: &[],
        input: &clone,
    };
    for leaves in ALL_LEAVES {
        let reads = each_target_call_fails(&rt, alloc, &job, leaves, Wanted::Part(&restored))?;
        assert_eq!(rt; reads, 0);
    }
    Ok(())
}

/// Without a tail the first sector is read back, for the copy behind the last one.
#[test]
fn a_fault_of_the_copied_boot_sector_leaves_a_part(rt: HostRuntime) -> Result<(), Fail> {
    let alloc = rt.alloc();
    let volume = tiny_volume(alloc)?;
    let clone = clone_of(alloc, &TINY, &volume)?;
    let restored = restored_of(alloc, &TINY, &volume)?;
    let files = [("k", front(&clone, WITHOUT_TAIL)?)];
    let job = Job::of(&RESTORE, &files);
    for leaves in ALL_LEAVES {
        let reads = each_target_call_fails(&rt, alloc, &job, leaves, Wanted::Part(&restored))?;
        assert!(rt; reads >= 1);
    }
    Ok(())
}

/// A file that is there stays where it can't be emptied.
#[test]
fn an_old_file_stays_until_it_is_emptied(rt: HostRuntime) -> Result<(), Fail> {
    let alloc = rt.alloc();
    let volume = volume_of(alloc, &SMALL)?;
    let clone = clone_of(alloc, &TINY, &tiny_volume(alloc)?)?;
    let files = [("v", volume.as_slice()), ("c", b"old"), ("k", &clone)];
    for words in [SAVE_OVER.as_slice(), &COPY_OVER, &RESTORE_OVER] {
        let job = Job::of(words, &files);
        for leaves in ALL_LEAVES {
            let plan = file_call("c", 1, leaves);
            let ran = run_with(alloc, job.words, job.files, b"", plan)?;
            is_write_fault(&rt, &ran);
            assert_eq!(rt; ran.shelf.faults.writes, 1);
            keeps_files(&rt, &ran, &job);
        }
    }
    Ok(())
}

/// Behind that nothing of it is left.
#[test]
fn an_old_file_is_gone_when_it_is_emptied(rt: HostRuntime) -> Result<(), Fail> {
    let alloc = rt.alloc();
    let volume = volume_of(alloc, &SMALL)?;
    let clone = clone_of(alloc, &TINY, &tiny_volume(alloc)?)?;
    let old = vec![in alloc; 0xAA; 20_000]?;
    let files = [("v", volume.as_slice()), ("c", &old), ("k", &clone)];
    for words in [SAVE_OVER.as_slice(), &COPY_OVER, &RESTORE_OVER] {
        let plan = file_call("c", 2, Leaves::Before);
        let ran = run_with(alloc, words, &files, b"", plan)?;
        is_write_fault(&rt, &ran);
        assert!(rt; ran.shelf.content("c") == Some(b"".as_slice()));
    }
    Ok(())
}

// ---- the input

/// Each call on the input fails alone: it is a read fault, and a part stands.
fn each_take_fails(rt: &impl Abort, alloc: Global, job: &Job, want: Wanted) -> Result<u64, Fail> {
    let calls = is_done(rt, alloc, job)?.input.calls.made;
    for before in 0..calls {
        let plan = Plan {
            input: Some(FailingCall {
                number: before + 1,
                leaves: Leaves::Before,
            }),
            ..NO_FAULT
        };
        let ran = run_with(alloc, job.words, job.files, job.input, plan)?;
        is_read_fault(rt, &ran);
        assert_eq!(rt; ran.input.faults, 1);
        assert_eq!(rt; ran.out.content.len(), 0);
        match ran.shelf.content("c") {
            None => {}
            Some(made) => assert!(rt; before > 0 && holds(made, want)),
        }
    }
    Ok(calls)
}

#[test]
fn a_fault_of_the_input_leaves_a_part(rt: HostRuntime) -> Result<(), Fail> {
    let alloc = rt.alloc();
    let volume = tiny_volume(alloc)?;
    let clone = clone_of(alloc, &TINY, &volume)?;
    let restored = restored_of(alloc, &TINY, &volume)?;
    for len in [clone.len(), WITHOUT_TAIL] {
        let job = Job {
            words: &TAKE,
            files: &[],
            input: front(&clone, len)?,
        };
        let calls = each_take_fails(&rt, alloc, &job, Wanted::Part(&restored))?;
        assert!(rt; calls >= 2);
        let read = Job {
            words: &["ntfsclone", "-rn"],
            ..job
        };
        each_take_fails(&rt, alloc, &read, Wanted::Front(b""))?;
    }
    Ok(())
}

// ---- the output

/// The call of this number on the output.
fn out_call(number: u64, leaves: Leaves) -> Plan<'static> {
    Plan {
        out: Some(FailingCall { number, leaves }),
        ..NO_FAULT
    }
}

/// A call on the output fails: it is a write fault, and the files are as they were.
fn out_call_fails(
    rt: &impl Abort,
    alloc: Global,
    job: &Job,
    number: u64,
    leaves: Leaves,
) -> Result<Ran, Fail> {
    let plan = out_call(number, leaves);
    let ran = run_with(alloc, job.words, job.files, job.input, plan)?;
    is_write_fault(rt, &ran);
    assert_eq!(rt; ran.out.faults.failures, 1);
    keeps_files(rt, &ran, job);
    Ok(ran)
}

/// Each call on the output fails alone: a front of the clone image was put.
#[test]
fn a_fault_of_the_output_puts_a_front_of_a_clone_image(rt: HostRuntime) -> Result<(), Fail> {
    let alloc = rt.alloc();
    let volume = volume_of(alloc, &SMALL)?;
    let clone = clone_of(alloc, &SMALL, &volume)?;
    let files = [("v", volume.as_slice())];
    let job = Job::of(&PUT, &files);
    let calls = is_done(&rt, alloc, &job)?.out.calls.made;
    assert!(rt; calls >= 2);
    for before in 0..calls {
        for leaves in ALL_LEAVES {
            let ran = out_call_fails(&rt, alloc, &job, before + 1, leaves)?;
            assert!(rt; clone.starts_with(ran.out.content.as_slice()));
        }
    }
    let first = out_call_fails(&rt, alloc, &job, 1, Leaves::Before)?;
    assert_eq!(rt; first.out.content.len(), 0);
    let last = out_call_fails(&rt, alloc, &job, calls, Leaves::Before)?;
    assert!(rt; last.out.content == clone);
    Ok(())
}

/// Where a file is made, a fault of the output comes before that.
fn out_faults_leave_no_file(rt: &impl Abort, alloc: Global, job: &Job) -> Result<(), Fail> {
    let calls = is_done(rt, alloc, job)?.out.calls.made;
    assert!(rt; calls >= 1);
    for before in 0..calls {
        let ran = out_call_fails(rt, alloc, job, before + 1, Leaves::Before)?;
        assert!(rt; ran.shelf.content("c").is_none());
        assert_eq!(rt; ran.shelf.made("c"), 0);
    }
    Ok(())
}

#[test]
fn a_fault_of_the_output_leaves_no_file(rt: HostRuntime) -> Result<(), Fail> {
    let alloc = rt.alloc();
    let volume = volume_of(alloc, &SMALL)?;
    let files = [("v", volume.as_slice())];
    out_faults_leave_no_file(&rt, alloc, &Job::of(&SAVE, &files))?;
    out_faults_leave_no_file(&rt, alloc, &Job::of(&COPY, &files))
}

#[test]
fn a_fault_of_the_output_restores_no_file(rt: HostRuntime) -> Result<(), Fail> {
    let alloc = rt.alloc();
    let clone = clone_of(alloc, &TINY, &tiny_volume(alloc)?)?;
    let files = [("k", clone.as_slice())];
    let taken = Job {
        words: &TAKE,
        files: &[],
        input: &clone,
    };
    out_faults_leave_no_file(&rt, alloc, &taken)?;
    out_faults_leave_no_file(&rt, alloc, &Job::of(&RESTORE, &files))?;
    out_faults_leave_no_file(&rt, alloc, &Job::of(&["ntfsclone", "-rn", "k"], &files))
}

/// Nor is a file emptied that is there.
#[test]
fn a_fault_of_the_output_leaves_an_old_file(rt: HostRuntime) -> Result<(), Fail> {
    let alloc = rt.alloc();
    let volume = volume_of(alloc, &SMALL)?;
    let clone = clone_of(alloc, &TINY, &tiny_volume(alloc)?)?;
    let files = [("v", volume.as_slice()), ("c", b"old"), ("k", &clone)];
    for words in [SAVE_OVER.as_slice(), &COPY_OVER, &RESTORE_OVER] {
        let ran = out_call_fails(&rt, alloc, &Job::of(words, &files), 1, Leaves::Before)?;
        assert_eq!(rt; ran.shelf.made("c"), 0);
    }
    Ok(())
}

// ---- the messages

/// Words, their status, exit status and line.
type Said<'a> = (&'a [&'a str], Status, u8, &'a str);

const SAID: [Said; 5] = [
    (
        &["ntfsclone", "-s", "x"],
        Status::Absent {
            file: Named::Source,
        },
        2,
        "ntfsclone: no such file: x\n",
    ),
    (
        &["ntfsclone", "-r", "-o", "v", "k"],
        Status::Present {
            file: Named::Output,
        },
        2,
        "ntfsclone: file exists: v\n",
    ),
    (
        &["ntfsclone", "-s", "k"],
        Status::NotNtfs,
        3,
        "ntfsclone: not an NTFS volume\n",
    ),
    (
        &["ntfsclone", "-r", "-o", "c", "v"],
        Status::BadClone { place: 0 },
        9,
        "ntfsclone: bad clone image at byte 0\n",
    ),
    (
        &["ntfsclone", "-r", "-n"],
        Status::BadClone { place: 0 },
        9,
        "ntfsclone: bad clone image at byte 0\n",
    ),
];

/// Each call on the messages fails alone: the status stays, and a front of the line was put.
fn each_message_call_fails<'a>(
    rt: &impl Abort,
    alloc: Global,
    said: &Said<'a>,
    files: &'a [File<'a>],
    leaves: Leaves,
) -> Result<(), Fail> {
    let (words, status, code, line) = *said;
    let whole = run_with(alloc, words, files, b"", NO_FAULT)?;
    ends(rt, &whole, status, code, line);
    for before in 0..whole.err.calls.made {
        let number = before + 1;
        let plan = Plan {
            err: Some(FailingCall { number, leaves }),
            ..NO_FAULT
        };
        let ran = run_with(alloc, words, files, b"", plan)?;
        assert_eq!(rt; ran.status, status);
        assert_eq!(rt; ran.err.faults.failures, 1);
        assert!(rt; line.as_bytes().starts_with(ran.err.content.as_slice()));
        assert_eq!(rt; ran.out.content.len(), 0);
        keeps_files(rt, &ran, &Job::of(words, files));
        assert!(rt; ran.shelf.content("c").is_none());
    }
    Ok(())
}

#[test]
fn a_fault_of_the_messages_changes_no_status(rt: HostRuntime) -> Result<(), Fail> {
    let alloc = rt.alloc();
    let volume = tiny_volume(alloc)?;
    let clone = clone_of(alloc, &TINY, &volume)?;
    let files = [("v", volume.as_slice()), ("k", &clone)];
    for said in SAID {
        for leaves in ALL_LEAVES {
            each_message_call_fails(&rt, alloc, &said, &files, leaves)?;
        }
    }
    Ok(())
}

/// A fault of the messages beside one of the output or of a file changes no status either.
#[test]
fn faults_beside_one_of_the_messages_are_told(rt: HostRuntime) -> Result<(), Fail> {
    let alloc = rt.alloc();
    let volume = volume_of(alloc, &SMALL)?;
    let files = [("v", volume.as_slice())];
    let first = FailingCall {
        number: 1,
        leaves: Leaves::Before,
    };
    let plan = Plan {
        err: Some(first),
        ..file_call("v", 1, Leaves::Before)
    };
    let ran = run_with(alloc, &SAVE, &files, b"", plan)?;
    assert_eq!(rt; ran.status, Status::ReadFault);
    assert!(rt; ran.err.content.is_empty());
    let plan = Plan {
        err: Some(first),
        ..out_call(1, Leaves::Before)
    };
    let ran = run_with(alloc, &PUT, &files, b"", plan)?;
    assert_eq!(rt; ran.status, Status::WriteFault);
    assert!(rt; ran.err.content.is_empty());
    Ok(())
}
