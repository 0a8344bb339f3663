ghost use Rattle.std.specs.Prelude.{◌≡◌, false};
ghost use Rattle.ntfs_base.specs.Shelf.{has_name};

use crate::disk_file::{Extent, write_from};
use crate::limits::limit_in;
use crate::{Access, DiskFile, DiskShelf, StandIns, StdInput, StdMessages, StdOutput};
use ntfs_base::{
    Failed, FileSink, FileSource, HostFile, Image, PutFault, Shelf, ShelfFault, Sink, Source,
};
use std::alloc::Allocator;
use std::cell::Cell;
use std::fs::{File, Files, Metadata, OpenOptions};
use std::io::{ErrorKind, Read, Write};
use std::os::unix::fs::FileExt;
use std::process::Abort;
use std::test::Fail;
use std::{fs, io};

/// Files that can't be opened for writing, nor for reading where that has an error.
#[derive(Drop)]
struct Refusing<R> {
    files: R,
    writing: ErrorKind,
    reading: Option<ErrorKind>,
}

impl<R: Files> Files for Refusing<R> {
    type File = R::File;

    type Dir = R::Dir;

    fn open_file(&self, how: &OpenOptions, path: &str) -> io::Result<R::File> {
        if how.asks_write() {
            return Err(io::Error::from(self.writing));
        }
        match self.reading {
            Some(kind) => Err(io::Error::from(kind)),
            None => self.files.open_file(how, path),
        }
    }

    fn open_dir(&self, path: &str) -> io::Result<R::Dir> {
        self.files.open_dir(path)
    }

    fn metadata(&self, path: &str) -> io::Result<Metadata> {
        match self.reading {
            Some(kind) => Err(io::Error::from(kind)),
            None => self.files.metadata(path),
        }
    }

    fn symlink_metadata(&self, path: &str) -> io::Result<Metadata> {
        self.files.symlink_metadata(path)
    }

    fn copy(&self, from: &str, to: &str) -> io::Result<u64> {
        self.files.copy(from, to)
    }

    fn rename(&self, from: &str, to: &str) -> io::Result<()> {
        self.files.rename(from, to)
    }

    fn remove_file(&self, path: &str) -> io::Result<()> {
        self.files.remove_file(path)
    }

    fn create_dir(&self, path: &str) -> io::Result<()> {
        self.files.create_dir(path)
    }

    fn remove_dir(&self, path: &str) -> io::Result<()> {
        self.files.remove_dir(path)
    }

    fn remove_dir_all<B: Allocator>(&self, alloc: B, path: &str) -> io::Result<()> {
        self.files.remove_dir_all(alloc, path)
    }
}

/// A stream of which each call fails.
#[derive(Drop)]
struct Broken;

impl Write for Broken {
    fn write(&mut self, _bytes: &[u8]) -> io::Result<usize> {
        Err(io::Error::from(ErrorKind::StorageFull))
    }

    fn flush(&mut self) -> io::Result<()> {
        Ok(())
    }
}

impl Read for Broken {
    fn read(&mut self, _into: &mut [u8]) -> io::Result<usize> {
        Err(io::Error::from(ErrorKind::Other))
    }
}

fn put_any<S: Sink>(sink: &mut S, bytes: &[u8]) -> Result<(), PutFault> {
    sink.put(bytes)
}

fn take_any<S: Source>(source: &mut S, into: &mut [u8]) -> Result<usize, Failed> {
    source.take(into)
}

fn attach_any<S: Shelf>(shelf: &mut S, name: &str) -> Result<S::File, ShelfFault>
    requires { has_name name.now (S.seen shelf.old).attached ≡ false }
{
    shelf.attach(name)
}

fn append_any<F: HostFile>(file: &mut F, bytes: &[u8]) -> Result<(), PutFault>
    ensures { (F.seen file.new).name ≡ (F.seen file.old).name }
{
    file.append(bytes)
}

fn set_len_any<F: HostFile>(file: &mut F, len: u64) -> Result<(), PutFault> {
    file.set_len(len)
}

/// Makes a file, appends bytes to it, and releases it.
fn make_any<S: Shelf>(
    shelf: &mut S,
    name: &str,
    must_be_new: bool,
    bytes: &[u8],
) -> Result<Result<(), PutFault>, ShelfFault>
    requires { has_name name.now (S.seen shelf.old).attached ≡ false }
{
    let mut file = shelf.create(name, must_be_new)?;
    let appended = append_any(&mut file, bytes);
    shelf.release(file);
    Ok(appended)
}

/// The length of a file, which is attached and released.
fn len_any<S: Shelf>(shelf: &mut S, name: &str) -> Result<u64, ShelfFault>
    requires { has_name name.now (S.seen shelf.old).attached ≡ false }
{
    let file = shelf.attach(name)?;
    let len = file.len();
    shelf.release(file);
    Ok(len)
}

fn sync_any<I: Image>(image: &mut I) -> Result<(), Failed>
    ensures { I.seen image.new ≡ I.seen image.old }
{
    image.sync()
}

#[test]
fn a_file_is_written_and_found_again(rt: HostRuntime) -> Result<(), Fail> {
    let name = "host_written.img";
    fs::write(&rt, name, [7u8; 5000].as_slice())?;
    let mut shelf = DiskShelf::new(rt.alloc(), &rt, Access::ReadWrite);
    let mut file = shelf.attach(name)?;
    assert_eq!(rt; file.len(), 5000);
    file.write_at(4998, b"ab")?;
    sync_any(&mut file)?;
    shelf.release(file);
    assert!(rt; shelf.attached.is_empty());
    let mut again = shelf.attach(name)?;
    assert_eq!(rt; again.len(), 5000);
    let mut end = [0u8; 4];
    again.read_at(4996, &mut end)?;
    assert_eq!(rt; end, *b"\x07\x07ab");
    fs::remove_file(&rt, name)?;
    Ok(())
}

#[test]
fn a_missing_file_is_absent_and_a_directory_fails(rt: HostRuntime) {
    let mut shelf = DiskShelf::new(rt.alloc(), &rt, Access::ReadWrite);
    assert!(rt;
        matches!(
            attach_any(&mut shelf, "host_missing.img"),
            Err(ShelfFault::Absent)
        )
    );
    assert_eq!(rt; shelf.faults.reads, 0);
    let mut shelf = DiskShelf::new(rt.alloc(), &rt, Access::ReadWrite);
    assert!(rt; matches!(shelf.attach("."), Err(ShelfFault::Failed)));
    assert_eq!(rt; shelf.faults.reads, 1);
}

#[test]
fn a_file_that_became_shorter_fails(rt: HostRuntime) -> Result<(), Fail> {
    let name = "host_shorter.img";
    fs::write(&rt, name, [7u8; 512].as_slice())?;
    let mut shelf = DiskShelf::new(rt.alloc(), &rt, Access::ReadWrite);
    let mut file = shelf.attach(name)?;
    fs::write(&rt, name, [7u8; 100].as_slice())?;
    assert_eq!(rt; file.len(), 512);
    let mut sector = [0u8; 512];
    assert_eq!(rt; file.read_at(0, &mut sector), Err(Failed));
    assert_eq!(rt; file.faults.reads, 1);
    shelf.release(file);
    assert_eq!(rt; shelf.faults.reads, 1);
    fs::remove_file(&rt, name)?;
    Ok(())
}

#[test]
fn a_file_that_is_opened_for_reading_alone_refuses_writes(rt: HostRuntime) -> Result<(), Fail> {
    let name = "host_read_only.img";
    fs::write(&rt, name, [7u8; 16].as_slice())?;
    let files = Refusing {
        files: &rt,
        writing: ErrorKind::PermissionDenied,
        reading: None,
    };
    let mut shelf = DiskShelf::new(rt.alloc(), files, Access::ReadWrite);
    let mut file = attach_any(&mut shelf, name)?;
    assert_eq!(rt; file.len(), 16);
    let mut byte = [0u8; 1];
    file.read_at(15, &mut byte)?;
    assert_eq!(rt; byte, [7]);
    assert_eq!(rt; file.write_at(0, b"a"), Err(Failed));
    assert_eq!(rt; file.set_len(1), Err(PutFault::Failed));
    assert_eq!(rt; file.append(b"a"), Err(PutFault::Failed));
    assert_eq!(rt; file.len(), 16);
    assert_eq!(rt; file.faults.writes, 3);
    assert_eq!(rt; file.faults.reads, 0);
    fs::remove_file(&rt, name)?;
    Ok(())
}

#[test]
fn an_error_of_the_system_gives_its_refusal(rt: HostRuntime) {
    for (kind, refusal, reads) in [
        (ErrorKind::NotFound, ShelfFault::Absent, 0),
        (ErrorKind::OutOfMemory, ShelfFault::NoMemory, 0),
        (ErrorKind::PermissionDenied, ShelfFault::Failed, 1),
    ] {
        let files = Refusing {
            files: &rt,
            writing: kind,
            reading: Some(kind),
        };
        let mut shelf = DiskShelf::new(rt.alloc(), files, Access::ReadWrite);
        assert_eq!(rt; shelf.attach("host_refused.img").err(), Some(refusal));
        assert_eq!(rt; shelf.faults.reads, reads);
    }
}

#[test]
fn a_file_is_made_cut_and_extended(rt: HostRuntime) -> Result<(), Fail> {
    let name = "host_made.img";
    let _ = fs::remove_file(&rt, name);
    let mut shelf = DiskShelf::new(rt.alloc(), &rt, Access::ReadWrite);
    for (must_be_new, bytes, answer) in [
        (true, b"abc".as_slice(), Ok(Ok(()))),
        (true, b"x", Err(ShelfFault::Present)),
        (false, b"de", Ok(Ok(()))),
    ] {
        assert!(rt; shelf.attached.is_empty());
        assert!(rt; make_any(&mut shelf, name, must_be_new, bytes) == answer);
    }
    assert_eq!(rt; shelf.faults.writes, 0);
    assert!(rt; shelf.attached.is_empty());
    let mut file = shelf.attach(name)?;
    assert_eq!(rt; file.len(), 2);
    set_len_any(&mut file, 1)?;
    append_any(&mut file, b"xy")?;
    set_len_any(&mut file, 5)?;
    assert_eq!(rt; set_len_any(&mut file, u64::MAX), Err(PutFault::Failed));
    assert_eq!(rt; file.len(), 5);
    let mut all = [7u8; 5];
    assert_eq!(rt; file.read_at(0, &mut all), Ok(()));
    assert_eq!(rt; all, *b"dxy\0\0");
    assert_eq!(rt; fs::metadata(&rt, name)?.len(), 5);
    fs::remove_file(&rt, name)?;
    Ok(())
}

#[test]
fn a_file_that_is_not_made_has_its_refusal(rt: HostRuntime) {
    for (kind, must_be_new, refusal, writes) in [
        (ErrorKind::AlreadyExists, true, ShelfFault::Present, 0),
        (ErrorKind::AlreadyExists, false, ShelfFault::Failed, 1),
        (ErrorKind::OutOfMemory, false, ShelfFault::NoMemory, 0),
        (ErrorKind::NotFound, true, ShelfFault::Failed, 1),
    ] {
        let files = Refusing {
            files: &rt,
            writing: kind,
            reading: None,
        };
        let mut shelf = DiskShelf::new(rt.alloc(), files, Access::ReadWrite);
        assert_eq!(rt;
            shelf.create("host_unmade.img", must_be_new).err(),
            Some(refusal)
        );
        assert_eq!(rt; shelf.faults.writes, writes);
        assert_eq!(rt; shelf.faults.reads, 0);
        assert!(rt; shelf.attached.is_empty());
    }
    let mut shelf = DiskShelf::new(rt.alloc(), &rt, Access::ReadWrite);
    assert_eq!(rt; shelf.create(".", false).err(), Some(ShelfFault::Failed));
    assert_eq!(rt; shelf.faults.writes, 1);
}

#[test]
fn a_file_is_a_sink_and_a_source(rt: HostRuntime) -> Result<(), Fail> {
    let name = "host_stream.img";
    let mut shelf = DiskShelf::new(rt.alloc(), &rt, Access::ReadWrite);
    let mut sink = FileSink::new(shelf.create(name, false)?);
    assert_eq!(rt; put_any(&mut sink, b"abc"), Ok(()));
    assert_eq!(rt; put_any(&mut sink, b"de"), Ok(()));
    assert_eq!(rt; sink.flush(), Ok(()));
    let mut source = FileSource::new(sink.into_file());
    let mut bytes = [0u8; 4];
    assert_eq!(rt; take_any(&mut source, &mut bytes), Ok(4));
    assert_eq!(rt; bytes, *b"abcd");
    fs::write(&rt, name, b"abcd".as_slice())?;
    assert_eq!(rt; take_any(&mut source, &mut bytes), Err(Failed));
    fs::write(&rt, name, b"abcde".as_slice())?;
    assert_eq!(rt; take_any(&mut source, &mut bytes), Ok(1));
    assert_eq!(rt; bytes[0], b'e');
    assert_eq!(rt; take_any(&mut source, &mut bytes), Ok(0));
    let file = source.into_file();
    assert_eq!(rt; file.len(), 5);
    assert_eq!(rt; file.faults.reads, 1);
    fs::remove_file(&rt, name)?;
    Ok(())
}

#[test]
fn streams_take_and_give(rt: HostRuntime) -> Result<(), Fail> {
    let mut out = StdOutput::new(rt.alloc(), rt.stdout())?;
    assert!(rt; put_any(&mut out, b"a line\n").is_ok());
    assert_eq!(rt; out.writer.buffer(), b"a line\n".as_slice());
    assert!(rt; out.flush().is_ok());
    assert!(rt; out.writer.buffer().is_empty());
    let mut messages = StdMessages::new(rt.stderr());
    assert!(rt; put_any(&mut messages, b"a message\n").is_ok());
    assert!(rt; messages.flush().is_ok());
    let mut input = StdInput::new(rt.stdin());
    let mut bytes = [0u8; 16];
    assert_eq!(rt; take_any(&mut input, &mut bytes), Ok(0));
    Ok(())
}

#[test]
fn output_goes_on_in_large_pieces(rt: HostRuntime) -> Result<(), Fail> {
    let mut out = StdOutput::new(rt.alloc(), Vec::new(rt.alloc()))?;
    'puts: for _ in 0..100 {
        assert!(rt; out.put(&[7u8; 1000]).is_ok());
    }
    assert_eq!(rt; out.writer.get_ref().len(), 65_000);
    assert!(rt; out.flush().is_ok());
    assert_eq!(rt; out.writer.get_ref().len(), 100_000);
    Ok(())
}

#[test]
fn a_stream_that_fails_is_counted(rt: HostRuntime) -> Result<(), Fail> {
    let mut out = StdOutput::new(rt.alloc(), Broken)?;
    assert!(rt; out.put(b"a line\n").is_ok());
    assert_eq!(rt; out.flush(), Err(Failed));
    assert_eq!(rt; out.faults.failures, 1);
    assert!(rt; !out.is_flushed);
    let mut messages = StdMessages::new(Broken);
    assert_eq!(rt; messages.put(b"a message\n"), Err(PutFault::Failed));
    assert_eq!(rt; messages.faults.failures, 1);
    let mut input = StdInput::new(Broken);
    assert_eq!(rt; input.take(&mut [0u8; 16]), Err(Failed));
    assert_eq!(rt; input.faults, 1);
    Ok(())
}

/// Attaches and makes a file of three bytes, and makes an output: whether all was done. Where it wasn't, memory was
/// wanting, no name stays attached and no fault is counted. `tools/refused_memory.py` has each allocation of it refused
/// in turn.
fn files_are_whole(rt: &impl Abort, host: &HostRuntime) -> Result<bool, Fail> {
    let name = "host_poor.img";
    if fs::write(host, name, b"abc".as_slice()).is_err() {
        return Ok(false);
    }
    let is_made = StdOutput::new(host.alloc(), host.stdout()).is_ok();
    let mut shelf = DiskShelf::new(host.alloc(), host, Access::ReadWrite);
    assert!(rt; shelf.attached.is_empty());
    let attached = len_any(&mut shelf, name);
    assert!(rt; attached == Ok(3) || attached == Err(ShelfFault::NoMemory));
    assert!(rt; shelf.attached.is_empty());
    let created = make_any(&mut shelf, name, false, b"");
    assert!(rt; created == Ok(Ok(())) || created == Err(ShelfFault::NoMemory));
    assert!(rt; shelf.attached.is_empty());
    assert_eq!(rt; shelf.faults.reads, 0);
    assert_eq!(rt; shelf.faults.writes, 0);
    let _ = fs::remove_file(host, name);
    Ok(is_made && attached.is_ok() && created.is_ok())
}

#[test]
fn with_ample_memory_files_are_attached_and_made(rt: HostRuntime) -> Result<(), Fail> {
    assert!(rt; files_are_whole(&rt, &rt)?);
    Ok(())
}

#[test]
fn a_shelf_of_files_that_are_only_read_changes_none(rt: HostRuntime) -> Result<(), Fail> {
    let name = "host_only_read.img";
    fs::write(&rt, name, b"abc".as_slice())?;
    let mut shelf = DiskShelf::new(rt.alloc(), &rt, Access::ReadOnly);
    let mut file = attach_any(&mut shelf, name)?;
    assert_eq!(rt; file.len(), 3);
    assert_eq!(rt; file.write_at(0, b"x"), Err(Failed));
    assert_eq!(rt; file.set_len(1), Err(PutFault::Failed));
    assert_eq!(rt; file.append(b"x"), Err(PutFault::Failed));
    assert_eq!(rt; file.faults.writes, 3);
    // The system has it open for reading alone as well.
    assert!(rt; file.file.write_at(b"x", 0).is_err());
    let mut bytes = [0u8; 3];
    assert_eq!(rt; file.read_at(0, &mut bytes), Ok(()));
    assert_eq!(rt; bytes, *b"abc");
    let mut shelf = DiskShelf::new(rt.alloc(), &rt, Access::ReadOnly);
    for must_be_new in [true, false] {
        assert_eq!(rt;
            shelf.create("host_unmade.img", must_be_new).err(),
            Some(ShelfFault::Failed)
        );
    }
    assert_eq!(rt; shelf.faults.writes, 2);
    assert!(rt; fs::metadata(&rt, "host_unmade.img").is_err());
    fs::remove_file(&rt, name)?;
    Ok(())
}

#[test]
fn what_has_no_length_is_no_image(rt: HostRuntime) {
    for access in [Access::ReadOnly, Access::ReadWrite] {
        for name in [".", "/dev/null", "/dev/zero", "/dev/full"] {
            let mut shelf = DiskShelf::new(rt.alloc(), &rt, access);
            assert_eq!(rt;
                shelf.attach(name).err(),
                Some(ShelfFault::Failed),
                "{name}"
            );
            assert_eq!(rt; shelf.faults.reads, 1);
        }
    }
    for name in ["/dev/null", "/dev/zero", "/dev/full"] {
        let mut shelf = DiskShelf::new(rt.alloc(), &rt, Access::ReadWrite);
        assert_eq!(rt;
            shelf.create(name, false).err(),
            Some(ShelfFault::Failed),
            "{name}"
        );
        assert_eq!(rt; shelf.faults.writes, 1);
    }
}

#[test]
fn a_sync_is_asked_of_the_system(rt: HostRuntime) -> Result<(), Fail> {
    let name = String::from_str(rt.alloc(), "/dev/null")?;
    let extent = Extent {
        size: 0,
        limit: u64::MAX,
    };
    // What is written there can't be synced.
    let device = File::open(&rt, "/dev/null")?;
    let mut file = DiskFile::new(name, device, Access::ReadWrite, extent);
    assert_eq!(rt; file.sync(), Err(Failed));
    assert_eq!(rt; file.faults.writes, 1);
    Ok(())
}

#[test]
fn the_limit_on_sizes_is_read(rt: HostRuntime) {
    // As Linux prints it: the name of a limit, the soft one, the hard one, and their unit.
    let head = "Limit                     Soft Limit           Hard Limit           Units\n";
    let lines = [
        (
            "Max file size             2048                 unlimited            bytes\n",
            2048,
        ),
        (
            "Max cpu time              1                    unlimited            seconds\n",
            u64::MAX,
        ),
        (
            "Max file size             unlimited            unlimited            bytes\n",
            u64::MAX,
        ),
        ("Max file size\n", u64::MAX),
    ];
    for (line, limit) in lines {
        assert_eq!(rt; limit_in(line.as_bytes()), limit);
    }
    assert_eq!(rt; limit_in(head.as_bytes()), u64::MAX);
    assert_eq!(rt; limit_in(&[0xFF]), u64::MAX);
}

#[test]
fn nothing_is_written_past_the_limit(rt: HostRuntime) -> Result<(), Fail> {
    let name = "host_limited.img";
    fs::write(&rt, name, b"abcdefgh".as_slice())?;
    let mut shelf = DiskShelf::new(rt.alloc(), &rt, Access::ReadWrite);
    let mut file = shelf.attach(name)?;
    file.limit = 10;
    assert_eq!(rt; file.append(b"ij"), Ok(()));
    assert_eq!(rt; file.append(b"k"), Err(PutFault::Failed));
    assert_eq!(rt; file.write_at(9, b"J"), Ok(()));
    assert_eq!(rt; file.write_at(9, b"JK"), Err(Failed));
    assert_eq!(rt; file.write_at(u64::MAX, b"K"), Err(Failed));
    assert_eq!(rt; file.set_len(11), Err(PutFault::Failed));
    assert_eq!(rt; file.faults.writes, 4);
    assert_eq!(rt; file.len(), 10);
    let mut all = [0u8; 10];
    assert_eq!(rt; file.read_at(0, &mut all), Ok(()));
    assert_eq!(rt; all, *b"abcdefghiJ");
    // A file that is longer already may become shorter.
    file.limit = 2;
    assert_eq!(rt; file.set_len(4), Ok(()));
    assert_eq!(rt; fs::metadata(&rt, name)?.len(), 4);
    fs::remove_file(&rt, name)?;
    Ok(())
}

/// A file that takes two bytes a write, is interrupted before each, and has room for so many.
#[derive(Drop)]
struct Slow {
    bytes: Cell<[u8; 8]>,
    room: u64,
    calls: Cell<u32>,
}

impl FileExt for Slow {
    fn read_at(&self, _into: &mut [u8], _at: u64) -> io::Result<usize> {
        Err(io::Error::from(ErrorKind::Unsupported))
    }

    fn write_at(&self, bytes: &[u8], at: u64) -> io::Result<usize> {
        let call = self.calls.get();
        self.calls.set(call.wrapping_add(1));
        if call % 2 == 0 {
            return Err(io::Error::from(ErrorKind::Interrupted));
        }
        let mut kept = self.bytes.get();
        let mut count = 0usize;
        for (byte, place) in bytes.iter().take(2).zip(at..self.room) {
            if let Some(old) = kept.get_mut(place as usize) {
                *old = *byte;
                count = count.wrapping_add(1);
            }
        }
        self.bytes.set(kept);
        Ok(bytes.len().min(count))
    }
}

#[test]
fn an_append_goes_on_where_a_write_ended(rt: HostRuntime) {
    for (room, end, left) in [
        (8, 7, *b"..abcde."),
        (6, 6, *b"..abcd.."),
        (5, 5, *b"..abc..."),
        (2, 2, *b"........"),
    ] {
        let file = Slow {
            bytes: Cell::new(*b"........"),
            room,
            calls: Cell::new(0),
        };
        let (done, answer) = write_from(&file, 2, b"abcde");
        assert_eq!(rt; done, end);
        assert_eq!(rt; answer.is_ok(), room == 8);
        assert_eq!(rt; file.bytes.get(), left);
    }
}

/// A stream that keeps how long each write was and its bytes, and of which one call fails.
#[derive(Drop)]
struct Noted {
    writes: Vec<usize>,
    bytes: Vec<u8>,
    fails_at: usize,
}

impl Write for Noted {
    fn write(&mut self, bytes: &[u8]) -> io::Result<usize> {
        self.writes
            .push(bytes.len())
            .map_err(|_| ErrorKind::OutOfMemory)?;
        if self.writes.len() == self.fails_at {
            return Err(io::Error::from(ErrorKind::StorageFull));
        }
        self.bytes.extend_from_slice(bytes)?;
        Ok(bytes.len())
    }

    fn flush(&mut self) -> io::Result<()> {
        Ok(())
    }
}

fn noting_messages(rt: &HostRuntime, fails_at: usize) -> StdMessages<Noted> {
    StdMessages::new(Noted {
        writes: Vec::new(rt.alloc()),
        bytes: Vec::new(rt.alloc()),
        fails_at,
    })
}

#[test]
fn a_line_is_written_at_once(rt: HostRuntime) -> Result<(), Fail> {
    let mut messages = noting_messages(&rt, 0);
    for piece in [
        "tool: ",
        "no such file: ",
        "a name",
        "\n",
        "one\ntwo",
        " three",
        "\n",
        "",
    ] {
        assert_eq!(rt; put_any(&mut messages, piece.as_bytes()), Ok(()));
    }
    assert_eq!(rt; messages.writer.writes.as_slice(), [27, 14].as_slice());
    assert_eq!(rt; put_any(&mut messages, b"no end"), Ok(()));
    assert_eq!(rt; messages.writer.writes.len(), 2);
    assert_eq!(rt; messages.flush(), Ok(()));
    assert_eq!(rt; messages.flush(), Ok(()));
    assert_eq!(rt; messages.writer.writes.as_slice(), [27, 14, 6].as_slice());
    let text = b"tool: no such file: a name\none\ntwo three\nno end".as_slice();
    assert_eq!(rt; messages.writer.bytes.as_slice(), text);
    Ok(())
}

#[test]
fn a_text_longer_than_the_room_goes_out_in_pieces(rt: HostRuntime) -> Result<(), Fail> {
    let mut messages = noting_messages(&rt, 0);
    let long = [7u8; 9000];
    for (piece, writes) in [
        (b"ab".as_slice(), 0),
        (long.as_slice(), 2),
        (b"c", 2),
        (&long[..8192], 3),
        (b"\n", 5),
    ] {
        assert_eq!(rt; put_any(&mut messages, piece), Ok(()));
        assert_eq!(rt; messages.writer.writes.len(), writes);
    }
    assert_eq!(rt;
        messages.writer.writes.as_slice(),
        [2, 9000, 1, 8192, 1].as_slice()
    );
    assert_eq!(rt; messages.writer.bytes.len(), 17_196);
    assert_eq!(rt;
        &messages.writer.bytes.as_slice()[..3],
        b"ab\x07".as_slice()
    );
    Ok(())
}

#[test]
fn a_message_that_is_not_written_is_counted_where_that_shows(rt: HostRuntime) {
    let mut messages = noting_messages(&rt, 1);
    assert_eq!(rt; messages.put(b"a line"), Ok(()));
    assert_eq!(rt; messages.put(b"\n"), Err(PutFault::Failed));
    assert_eq!(rt; messages.faults.failures, 1);
    assert!(rt; !messages.is_flushed);
    assert_eq!(rt; messages.flush(), Ok(()));
    let mut messages = noting_messages(&rt, 1);
    assert_eq!(rt; messages.put(b"no end"), Ok(()));
    assert_eq!(rt; messages.flush(), Err(Failed));
    assert_eq!(rt; messages.faults.failures, 1);
    assert!(rt; !messages.is_flushed);
    // It isn't written a second time.
    assert_eq!(rt; messages.flush(), Ok(()));
    assert!(rt; messages.writer.bytes.is_empty());
}

#[test]
fn nothing_stands_in_for_an_open_stream(rt: HostRuntime) -> Result<(), Fail> {
    let files = Refusing {
        files: &rt,
        writing: ErrorKind::PermissionDenied,
        reading: Some(ErrorKind::PermissionDenied),
    };
    let held = StandIns::open(&files, &rt.stdin(), &rt.stdout(), &rt.stderr())?;
    assert!(rt; held.input.is_none() && held.output.is_none() && held.messages.is_none());
    // What would stand in is neither read nor written.
    let mut folder = File::open(&rt, "/")?;
    assert!(rt; folder.read(&mut [0u8; 1]).is_err());
    assert!(rt; folder.write(b"x").is_err());
    Ok(())
}
