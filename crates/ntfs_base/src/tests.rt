//! What the devices in memory answer, with no call that fails and with some.
ghost use Rattle.std.specs.Prelude.{◌≡◌, false};
ghost use Rattle.ntfs_base.specs.Shelf.{has_name};

use super::*;
use std::alloc::{AllocError, Global};
use std::process::Abort;
use std::test::Fail;

fn bytes(alloc: Global, text: &[u8]) -> Result<Vec<u8>, AllocError> {
    Vec::from_slice(alloc, text)
}

/// Reads a range at a type that is known by its bound alone.
fn read<G: Image>(image: &mut G, at: u64, into: &mut [u8]) -> Option<Result<(), Failed>> {
    if at > image.len() || into.len() as u64 > image.len() - at {
        return None;
    }
    Some(image.read_at(at, into))
}

/// Writes a range at a type that is known by its bound alone.
fn write<G: Image>(image: &mut G, at: u64, from: &[u8]) -> Option<Result<(), Failed>>
    ensures { (G.seen image.new).name ≡ (G.seen image.old).name }
{
    if at > image.len() || from.len() as u64 > image.len() - at {
        return None;
    }
    Some(image.write_at(at, from))
}

/// Attaches a file, writes two texts at its front, one after the other, and releases it.
fn write_twice<S: Shelf>(
    shelf: &mut S,
    name: &str,
    first: &[u8],
    second: &[u8],
) -> Result<[Option<Result<(), Failed>>; 2], ShelfFault>
    requires { has_name name.now (S.seen shelf.old).attached ≡ false }
{
    let mut file = shelf.attach(name)?;
    let one = write(&mut file, 0, first);
    let two = write(&mut file, 0, second);
    shelf.release(file);
    Ok([one, two])
}

/// Makes a file, appends a text to it, and releases it.
fn make<S: Shelf>(
    shelf: &mut S,
    name: &str,
    must_be_new: bool,
    text: &[u8],
) -> Result<Result<(), PutFault>, ShelfFault>
    requires { has_name name.now (S.seen shelf.old).attached ≡ false }
{
    let mut file = shelf.create(name, must_be_new)?;
    let appended = append(&mut file, text);
    shelf.release(file);
    Ok(appended)
}

fn set_len<F: HostFile>(file: &mut F, len: u64) -> Result<(), PutFault> {
    file.set_len(len)
}

fn append<F: HostFile>(file: &mut F, text: &[u8]) -> Result<(), PutFault>
    ensures { (F.seen file.new).name ≡ (F.seen file.old).name }
{
    file.append(text)
}

fn file(alloc: Global, text: &[u8]) -> Result<MemFile, AllocError> {
    Ok(MemFile {
        name: String::from_str(alloc, "f")?,
        inside: MemContent::new(alloc, bytes(alloc, text)?),
    })
}

/// A file that tells nothing, and for which memory is always wanting.
#[derive(Drop)]
struct Poor;

impl Image for Poor {
    ghost use Rattle.std.specs.Prelude.{[], false};
    ghost use Rattle.std.proofs.lemmas.Bool.{false≢true};

    ghost seen = { λ _. record { is_told = false; content = []; size = 0; name = []; lower = [] } };

    ghost faults = { λ _. record { reads = 0; writes = 0 } };

    ghost told_size = { λ image told. absurd (false≢true told) };

    fn len(&self) -> u64 {
        0
    }

    fn read_at(&mut self, _at: u64, _into: &mut [u8]) -> Result<(), Failed> {
        Ok(())
    }

    #[tactic(auto, unfolding(crate::specs::Writes::after_writes))]
    fn write_at(&mut self, _at: u64, _bytes: &[u8]) -> Result<(), Failed> {
        Ok(())
    }

    fn sync(&mut self) -> Result<(), Failed> {
        Ok(())
    }
}

impl HostFile for Poor {
    fn set_len(&mut self, _len: u64) -> Result<(), PutFault> {
        Err(PutFault::NoMemory)
    }

    #[tactic(auto, unfolding(crate::specs::Growth::after_append))]
    fn append(&mut self, _bytes: &[u8]) -> Result<(), PutFault> {
        Err(PutFault::NoMemory)
    }
}

fn put<K: Sink>(sink: &mut K, text: &[u8]) -> Result<(), PutFault> {
    sink.put(text)
}

fn flush<K: Sink>(sink: &mut K) -> Result<(), Failed> {
    sink.flush()
}

fn take<S: Source>(source: &mut S, into: &mut [u8]) -> Result<usize, Failed> {
    source.take(into)
}

#[test]
fn an_image_is_read_and_written(rt: HostRuntime) -> Result<(), Fail> {
    let alloc = rt.alloc();
    let mut image = MemImage::new(alloc, bytes(alloc, b"0123456789")?);
    image.inside.calls.fail(alloc, 3, Leaves::Before)?;
    image.inside.calls.fail(alloc, 4, Leaves::Asked)?;
    image.inside.calls.fail(alloc, 5, Leaves::Before)?;
    let mut into = [0; 3];
    assert_eq!(rt; image.len(), 10);
    assert_eq!(rt; write(&mut image, 7, b"abc"), Some(Ok(())));
    assert_eq!(rt; read(&mut image, 6, &mut into), Some(Ok(())));
    assert!(rt; into == *b"6ab");
    assert_eq!(rt; write(&mut image, 0, b"XY"), Some(Err(Failed)));
    assert_eq!(rt; image.inside.bytes.as_slice(), b"0123456abc".as_slice());
    assert_eq!(rt; write(&mut image, 0, b"XY"), Some(Err(Failed)));
    assert_eq!(rt; image.inside.bytes.as_slice(), b"XY23456abc".as_slice());
    assert_eq!(rt; read(&mut image, 0, &mut into), Some(Err(Failed)));
    assert_eq!(rt; image.sync(), Ok(()));
    assert_eq!(rt; image.inside.calls.made, 6);
    assert_eq!(rt;
        image.inside.faults,
        Faults {
            reads: 1,
            writes: 2
        }
    );
    Ok(())
}

#[test]
fn a_source_gives_each_byte_once(rt: HostRuntime) -> Result<(), Fail> {
    let alloc = rt.alloc();
    let mut source = MemSource::new(alloc, bytes(alloc, b"abcde")?);
    source.calls.fail(alloc, 2, Leaves::Before)?;
    let mut into = [0; 3];
    assert_eq!(rt; take(&mut source, &mut into), Ok(3));
    assert!(rt; into == *b"abc");
    assert_eq!(rt; take(&mut source, &mut into), Err(Failed));
    assert_eq!(rt; take(&mut source, &mut into), Ok(2));
    assert!(rt; into[0] == b'd' && into[1] == b'e');
    assert_eq!(rt; take(&mut source, &mut into), Ok(0));
    assert_eq!(rt; source.faults, 1);
    Ok(())
}

#[test]
fn a_sink_takes_a_front(rt: HostRuntime) -> Result<(), Fail> {
    let alloc = rt.alloc();
    let mut sink = MemSink::new(alloc);
    sink.calls.fail(alloc, 2, Leaves::Front { bytes: 2 })?;
    sink.calls.fail(alloc, 3, Leaves::Before)?;
    assert_eq!(rt; put(&mut sink, b"abc"), Ok(()));
    assert!(rt; !sink.is_flushed);
    assert_eq!(rt; put(&mut sink, b"defg"), Err(PutFault::Failed));
    assert_eq!(rt; sink.content.as_slice(), b"abcde".as_slice());
    assert_eq!(rt; flush(&mut sink), Err(Failed));
    assert!(rt; !sink.is_flushed);
    assert_eq!(rt; flush(&mut sink), Ok(()));
    assert!(rt; sink.is_flushed);
    assert_eq!(rt;
        sink.faults,
        SinkFaults {
            failures: 2,
            wants: 0
        }
    );
    Ok(())
}

#[test]
fn a_shelf_numbers_the_calls_of_each_name(rt: HostRuntime) -> Result<(), Fail> {
    let alloc = rt.alloc();
    let mut shelf = MemShelf::new(alloc);
    shelf.add(alloc, "a", bytes(alloc, b"one")?)?;
    shelf.add(alloc, "b", bytes(alloc, b"two")?)?;
    shelf.fail(alloc, "a", 3, Leaves::Before)?;
    shelf.fail(alloc, "c", 2, Leaves::Before)?;
    assert!(rt; shelf.attached.is_empty());
    let written = write_twice(&mut shelf, "a", b"ONE", b"111")
        .ok()
        .ok_or("a isn't there")?;
    assert!(rt; written == [Some(Ok(())), Some(Err(Failed))]);
    assert_eq!(rt; shelf.content("a"), Some(b"ONE".as_slice()));
    assert_eq!(rt; shelf.content("b"), Some(b"two".as_slice()));
    assert_eq!(rt; shelf.made("a"), 3);
    assert_eq!(rt;
        shelf.faults,
        Faults {
            reads: 0,
            writes: 1
        }
    );
    Ok(())
}

#[test]
fn a_shelf_refuses_what_it_has_not(rt: HostRuntime) -> Result<(), Fail> {
    let alloc = rt.alloc();
    let mut shelf = MemShelf::new(alloc);
    shelf.fail(alloc, "c", 2, Leaves::Before)?;
    for want in [ShelfFault::Absent, ShelfFault::Failed, ShelfFault::Absent] {
        assert!(rt; shelf.attached.is_empty());
        assert!(rt; write_twice(&mut shelf, "c", b"", b"") == Err(want));
    }
    assert_eq!(rt; shelf.made("c"), 3);
    assert_eq!(rt; shelf.faults.reads, 1);
    Ok(())
}

#[test]
fn a_file_is_cut_and_extended(rt: HostRuntime) -> Result<(), Fail> {
    let alloc = rt.alloc();
    let mut made = file(alloc, b"0123")?;
    made.inside.calls.fail(alloc, 3, Leaves::Before)?;
    made.inside.calls.fail(alloc, 4, Leaves::Asked)?;
    made.inside
        .calls
        .fail(alloc, 5, Leaves::Front { bytes: 1 })?;
    let cases = [
        (3, Ok(()), b"012".as_slice()),
        (5, Ok(()), b"012\0\0"),
        (2, Err(PutFault::Failed), b"012\0\0"),
        (2, Err(PutFault::Failed), b"01"),
        (4, Err(PutFault::Failed), b"01"),
        (u64::MAX, Err(PutFault::NoMemory), b"01"),
    ];
    for (len, answer, left) in cases {
        assert_eq!(rt; set_len(&mut made, len), answer);
        assert_eq!(rt; made.inside.bytes.as_slice(), left);
    }
    assert_eq!(rt; made.len(), 2);
    assert_eq!(rt; made.inside.calls.made, 6);
    assert_eq!(rt; made.inside.faults.writes, 3);
    Ok(())
}

#[test]
fn a_file_grows_by_a_front(rt: HostRuntime) -> Result<(), Fail> {
    let alloc = rt.alloc();
    let mut made = file(alloc, b"01")?;
    made.inside
        .calls
        .fail(alloc, 2, Leaves::Front { bytes: 2 })?;
    made.inside.calls.fail(alloc, 3, Leaves::Before)?;
    made.inside.calls.fail(alloc, 4, Leaves::Asked)?;
    let cases = [
        (b"ab".as_slice(), Ok(()), b"01ab".as_slice()),
        (b"cde", Err(PutFault::Failed), b"01abcd"),
        (b"e", Err(PutFault::Failed), b"01abcd"),
        (b"e", Err(PutFault::Failed), b"01abcde"),
    ];
    for (text, answer, left) in cases {
        assert_eq!(rt; append(&mut made, text), answer);
        assert_eq!(rt; made.inside.bytes.as_slice(), left);
    }
    assert_eq!(rt; made.len(), 7);
    assert_eq!(rt; made.inside.calls.made, 4);
    assert_eq!(rt; made.inside.faults.writes, 3);
    Ok(())
}

#[test]
fn a_shelf_makes_files(rt: HostRuntime) -> Result<(), Fail> {
    let alloc = rt.alloc();
    let mut shelf = MemShelf::new(alloc);
    shelf.add(alloc, "a", bytes(alloc, b"one")?)?;
    shelf.fail(alloc, "b", 1, Leaves::Asked)?;
    shelf.fail(alloc, "b", 4, Leaves::Front { bytes: 1 })?;
    let cases = [
        ("a", true, Err(ShelfFault::Present), Some(b"one".as_slice())),
        ("a", false, Ok(Ok(())), Some(b"xy".as_slice())),
        ("b", true, Err(ShelfFault::Failed), None),
        ("b", true, Ok(Ok(())), Some(b"xy".as_slice())),
        ("b", true, Err(ShelfFault::Failed), Some(b"xy".as_slice())),
        ("b", true, Err(ShelfFault::Present), Some(b"xy".as_slice())),
        ("b", false, Ok(Ok(())), Some(b"xy".as_slice())),
    ];
    for (name, must_be_new, answer, left) in cases {
        assert!(rt; shelf.attached.is_empty());
        assert!(rt; make(&mut shelf, name, must_be_new, b"xy") == answer);
        assert_eq!(rt; shelf.content(name), left);
    }
    assert_eq!(rt; shelf.made("a"), 3);
    assert_eq!(rt; shelf.made("b"), 7);
    assert_eq!(rt;
        shelf.faults,
        Faults {
            reads: 0,
            writes: 2
        }
    );
    Ok(())
}

#[test]
fn a_file_is_read_from_its_start(rt: HostRuntime) -> Result<(), Fail> {
    let alloc = rt.alloc();
    let mut inside = file(alloc, b"abcde")?;
    inside.inside.calls.fail(alloc, 2, Leaves::Before)?;
    let mut source = FileSource::new(inside);
    let mut into = [0; 3];
    assert_eq!(rt; take(&mut source, &mut into), Ok(3));
    assert!(rt; into == *b"abc");
    assert_eq!(rt; take(&mut source, &mut into), Err(Failed));
    assert_eq!(rt; take(&mut source, &mut into), Ok(2));
    assert!(rt; into[0] == b'd' && into[1] == b'e');
    assert_eq!(rt; take(&mut source, &mut into), Ok(0));
    let left = source.into_file();
    assert_eq!(rt; left.inside.bytes.as_slice(), b"abcde".as_slice());
    assert_eq!(rt; left.inside.faults.reads, 1);
    assert_eq!(rt; left.inside.calls.made, 4);
    Ok(())
}

#[test]
fn a_file_takes_what_is_put(rt: HostRuntime) -> Result<(), Fail> {
    let alloc = rt.alloc();
    let mut inside = file(alloc, b"a")?;
    inside
        .inside
        .calls
        .fail(alloc, 2, Leaves::Front { bytes: 1 })?;
    inside.inside.calls.fail(alloc, 3, Leaves::Before)?;
    let mut sink = FileSink::new(inside);
    assert!(rt; sink.is_flushed);
    assert_eq!(rt; put(&mut sink, b"bc"), Ok(()));
    assert!(rt; !sink.is_flushed);
    assert_eq!(rt; put(&mut sink, b"de"), Err(PutFault::Failed));
    assert_eq!(rt; flush(&mut sink), Err(Failed));
    assert!(rt; !sink.is_flushed);
    assert_eq!(rt; flush(&mut sink), Ok(()));
    assert!(rt; sink.is_flushed);
    assert_eq!(rt; sink.wants, 0);
    let left = sink.into_file();
    assert_eq!(rt; left.inside.bytes.as_slice(), b"abcd".as_slice());
    assert_eq!(rt; left.inside.faults.writes, 2);
    Ok(())
}

#[test]
fn a_file_without_memory_is_wanting(rt: HostRuntime) {
    let mut sink = FileSink::new(Poor);
    assert_eq!(rt; put(&mut sink, b"a"), Err(PutFault::NoMemory));
    assert_eq!(rt; put(&mut sink, b"a"), Err(PutFault::NoMemory));
    assert_eq!(rt; sink.wants, 2);
    let mut poor = sink.into_file();
    assert_eq!(rt; set_len(&mut poor, 1), Err(PutFault::NoMemory));
    let mut source = FileSource::new(poor);
    assert_eq!(rt; take(&mut source, &mut [0; 1]), Ok(0));
}

#[test]
fn a_line_is_built_from_texts_and_numbers(rt: HostRuntime) {
    let mut line = Line::new();
    line.push(b"a ");
    line.push_number(18_446_744_073_709_551_615);
    line.push(b" ");
    line.push_hex(&[0x0A, 0xFF]);
    assert_eq!(rt; line.as_bytes(), b"a 18446744073709551615 0aff".as_slice());
}

/// Makes files and appends to them: whether all was done. Where memory is wanting, all is as it was.
/// `tools/refused_memory.py` has each allocation of it refused in turn.
fn growth_is_whole(rt: &impl Abort, host: &HostRuntime) -> Result<bool, Fail> {
    let alloc = host.alloc();
    let mut shelf = MemShelf::new(alloc);
    let Ok(text) = bytes(alloc, b"one") else {
        return Ok(false);
    };
    if shelf.add(alloc, "a", text).is_err() {
        assert_eq!(rt; shelf.content("a"), None);
        return Ok(false);
    }
    let mut is_whole = true;
    for (name, must_be_new, before) in [("b", true, None), ("a", false, Some(b"one".as_slice()))] {
        assert!(rt; shelf.attached.is_empty());
        let left = match make(&mut shelf, name, must_be_new, b"xy") {
            Ok(Ok(())) => Some(b"xy".as_slice()),
            Ok(Err(fault)) => {
                is_whole = false;
                assert_eq!(rt; fault, PutFault::NoMemory);
                Some(b"".as_slice())
            }
            Err(fault) => {
                is_whole = false;
                assert_eq!(rt; fault, ShelfFault::NoMemory);
                before
            }
        };
        assert_eq!(rt; shelf.content(name), left);
        assert!(rt; shelf.attached.is_empty());
    }
    assert_eq!(rt;
        shelf.faults,
        Faults {
            reads: 0,
            writes: 0
        }
    );
    Ok(is_whole)
}

/// Puts bytes on a sink: whether it took them. Where memory is wanting, it took none and counts a want.
fn put_is_whole(rt: &impl Abort, host: &HostRuntime) -> Result<bool, Fail> {
    let mut sink = MemSink::new(host.alloc());
    match put(&mut sink, b"ab") {
        Ok(()) => {
            assert_eq!(rt; sink.content.as_slice(), b"ab".as_slice());
            Ok(true)
        }
        Err(fault) => {
            assert_eq!(rt; fault, PutFault::NoMemory);
            assert_eq!(rt; sink.content.len(), 0);
            assert_eq!(rt; sink.faults.wants, 1);
            Ok(false)
        }
    }
}

#[test]
fn with_ample_memory_all_is_done(rt: HostRuntime) -> Result<(), Fail> {
    assert!(rt; growth_is_whole(&rt, &rt)?);
    assert!(rt; put_is_whole(&rt, &rt)?);
    Ok(())
}

#[test]
fn bytes_are_put_at_a_place(rt: HostRuntime) {
    let mut bytes = *b"0123456789abcdef";
    in_place::overwrite(&mut bytes, 14, b"XY");
    in_place::overwrite_zeros(&mut bytes, 0, 2);
    in_place::overwrite_u16(&mut bytes, 2, 0x4142);
    in_place::overwrite_u32(&mut bytes, 4, 0x6162_6364);
    in_place::move_piece(&mut bytes, 2, 4, 3);
    assert!(rt; bytes == *b"\0\0BBAdca89abcdXY");
    in_place::overwrite_u64(&mut bytes, 8, 0x3031_3233_3435_3637);
    in_place::overwrite(&mut bytes, 16, b"");
    assert!(rt; bytes == *b"\0\0BBAdca76543210");
}
