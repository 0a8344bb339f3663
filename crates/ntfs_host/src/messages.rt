ghost use Rattle.std.specs.Prelude.{◌≡◌, ◌↔◌, ◌≤◌, ◌+◌, true, [], length, IsTrue, OnOk};
ghost use Rattle.std.specs.Io.KnownBytes.{Appends};
ghost use Rattle.ntfs_host.specs.Waiting.{EndsLine, line_so_far};

use crate::counting::count_fault;
use arrayvec::ArrayVec;
use ntfs_base::{Failed, PutFault, Sink, SinkFaults};
use std::io;
use std::io::{Stderr, Write};

/// How many bytes of a line may wait: more than any message line has.
pub(crate) const ROOM: usize = 8192;

/// Standard error, where each line is written at once: what is put waits in a buffer of 8,192 bytes until a put ends
/// with a line feed, the buffer is full, or it is flushed. It takes no memory. Nothing is written when it is dropped.
#[derive(Drop)]
pub struct StdMessages<W = Stderr> {
    pub(crate) writer: W,
    pub(crate) waiting: ArrayVec<u8, ROOM>,
    pub is_flushed: bool,
    pub faults: SinkFaults,
    ghost nothing_waits: { is_flushed ≡ true → waiting.items ≡ [] },
}

impl<W> StdMessages<W> {
    /// Standard error, with no fault yet.
    pub fn new(stderr: W) -> StdMessages<W>
        ensures flushed { result.is_flushed ≡ true }
        ensures failures { result.faults.failures ≡ 0 }
        ensures wants { result.faults.wants ≡ 0 }
    {
        StdMessages {
            writer: stderr,
            waiting: ArrayVec::new(),
            is_flushed: true,
            faults: SinkFaults {
                failures: 0,
                wants: 0,
            },
        }
    }
}

/// Writes what waits. Where that fails, it is let go: how much of it was written isn't known.
fn write_waiting<W: Write>(writer: &mut W, waiting: &mut ArrayVec<u8, ROOM>) -> io::Result<()>
    ensures empty { waiting.new.items ≡ [] }
    ensures appends { OnOk result (Appends (W.contents writer.old) (W.contents writer.new) waiting.old.items) }
{
    let answer = writer.write_all(waiting.as_slice());
    waiting.clear();
    answer
}

fn ends_line(bytes: &[u8]) -> bool
    ensures { IsTrue result ↔ EndsLine bytes.now }
{
    bytes.last().copied() == Some(b'\n')
}

/// Has the bytes wait, and writes what waits where there is too little room, or where they end a line.
fn gather<W: Write>(
    writer: &mut W,
    waiting: &mut ArrayVec<u8, ROOM>,
    bytes: &[u8],
) -> io::Result<()>
    ensures appends { OnOk result (Appends (line_so_far (W.contents writer.old) waiting.old)
        (line_so_far (W.contents writer.new) waiting.new) bytes.now) }
    ensures gathers { length waiting.old.items + length bytes.now ≤ ROOM → (EndsLine bytes.now → ⊥)
        → writer.new ≡ writer.old }
    ensures lines { EndsLine bytes.now → waiting.new.items ≡ [] }
{
    if waiting.try_extend_from_slice(bytes).is_err() {
        write_waiting(writer, waiting)?;
        if waiting.try_extend_from_slice(bytes).is_err() {
            return writer.write_all(bytes);
        }
    }
    if ends_line(bytes) {
        write_waiting(writer, waiting)?;
    }
    Ok(())
}

impl<W: Write> Sink for StdMessages<W> {
    ghost use Rattle.std.specs.Prelude.{◌≡◌, ◌≤◌, ◌+◌, true, false, [], length, IfErr, OnOk, OnErr};
    ghost use Rattle.std.specs.Io.KnownBytes.{Appends, Keeps};
    ghost use Rattle.ntfs_base.specs.Calls.{count_after};
    ghost use Rattle.ntfs_base.specs.Sink.{Put};
    ghost use Rattle.ntfs_host.specs.Seen.{seen_output};
    ghost use Rattle.ntfs_host.specs.Waiting.{EndsLine, line_so_far};

    ghost seen = { λ _. seen_output };

    ghost is_flushed = { λ sink. sink.is_flushed };

    ghost faults = { λ sink. sink.faults };

    fn put(&mut self, bytes: &[u8]) -> Result<(), PutFault>
        ensures put { Put bytes.now seen_output result seen_output }
        ensures appends { OnOk result (Appends (line_so_far (W.contents self.old.writer) self.old.waiting)
            (line_so_far (W.contents self.new.writer) self.new.waiting) bytes.now) }
        ensures gathers { length self.old.waiting.items + length bytes.now ≤ ROOM → (EndsLine bytes.now → ⊥)
            → self.new.writer ≡ self.old.writer }
        ensures lines { EndsLine bytes.now → self.new.waiting.items ≡ [] }
        ensures waits { self.new.is_flushed ≡ false }
        ensures failed { IfErr result (λ fault. fault ≡ PutFault.Failed) }
        ensures counted { self.new.faults
            ≡ record self.old.faults { failures = count_after self.old.faults.failures result } }
    {
        self.is_flushed = false;
        let answer = gather(&mut self.writer, &mut self.waiting, bytes);
        match count_fault(&mut self.faults.failures, answer) {
            Ok(()) => Ok(()),
            Err(Failed) => Err(PutFault::Failed),
        }
    }

    fn flush(&mut self) -> Result<(), Failed>
        ensures keeps { OnOk result (Keeps (line_so_far (W.contents self.old.writer) self.old.waiting)
            (line_so_far (W.contents self.new.writer) self.new.waiting)) }
        ensures written { self.new.waiting.items ≡ [] }
        ensures flushed { OnOk result (self.new.is_flushed ≡ true) }
        ensures failed { OnErr result (self.new.is_flushed ≡ self.old.is_flushed) }
        ensures counted { self.new.faults
            ≡ record self.old.faults { failures = count_after self.old.faults.failures result } }
    {
        if self.is_flushed {
            return Ok(());
        }
        let answer = write_waiting(&mut self.writer, &mut self.waiting);
        count_fault(&mut self.faults.failures, answer)?;
        self.is_flushed = true;
        Ok(())
    }
}
