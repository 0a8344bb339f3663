ghost use Rattle.std.specs.Prelude.{◌≡◌, true, [], IfOk};
ghost use Rattle.std.specs.Io.Buffered.{writer_buffer, writer_contents};

use crate::counting::count_fault;
use ntfs_base::{Failed, PutFault, Sink, SinkFaults};
use std::alloc::{AllocError, Global};
use std::io::{BufWriter, Stdout, Write};

/// How many bytes of output may wait.
const ROOM: usize = 65_536;

/// Standard output, which is written in large pieces: puts wait in a buffer of 65,536 bytes until it is full or
/// flushed. Nothing is written when it is dropped.
pub struct StdOutput<W: Write + Drop = Stdout> {
    pub(crate) writer: BufWriter<W>,
    pub is_flushed: bool,
    pub faults: SinkFaults,
    ghost nothing_waits: { is_flushed ≡ true → writer_buffer writer ≡ [] },
}

impl<W: Write + Drop> StdOutput<W> {
    /// Standard output, with no fault yet. The buffer takes memory.
    pub fn new(alloc: Global, stdout: W) -> Result<StdOutput<W>, AllocError>
        ensures flushed { IfOk result (λ sink. sink.is_flushed ≡ true) }
        ensures failures { IfOk result (λ sink. sink.faults.failures ≡ 0) }
        ensures wants { IfOk result (λ sink. sink.faults.wants ≡ 0) }
    {
        let Ok(writer) = BufWriter::with_capacity(alloc, ROOM, stdout) else {
            return Err(AllocError);
        };
        Ok(StdOutput {
            writer,
            is_flushed: true,
            faults: SinkFaults {
                failures: 0,
                wants: 0,
            },
        })
    }
}

impl<W: Write + Drop> Sink for StdOutput<W> {
    ghost use Rattle.std.specs.Prelude.{◌≡◌, true, false, IfErr, OnOk, OnErr};
    ghost use Rattle.std.specs.Io.KnownBytes.{Appends, Keeps};
    ghost use Rattle.ntfs_base.specs.Calls.{count_after};
    ghost use Rattle.ntfs_base.specs.Sink.{Put};
    ghost use Rattle.ntfs_host.specs.Seen.{seen_output};

    ghost seen = { λ _. seen_output };

    ghost is_flushed = { λ sink. sink.is_flushed };

    ghost faults = { λ sink. sink.faults };

    fn put(&mut self, bytes: &[u8]) -> Result<(), PutFault>
        ensures put { Put bytes.now seen_output result seen_output }
        ensures appends { OnOk result (Appends (writer_contents W.contents self.old.writer)
            (writer_contents W.contents self.new.writer) bytes.now) }
        ensures waits { self.new.is_flushed ≡ false }
        ensures failed { IfErr result (λ fault. fault ≡ PutFault.Failed) }
        ensures counted { self.new.faults
            ≡ record self.old.faults { failures = count_after self.old.faults.failures result } }
    {
        self.is_flushed = false;
        match count_fault(&mut self.faults.failures, self.writer.write_all(bytes)) {
            Ok(()) => Ok(()),
            Err(Failed) => Err(PutFault::Failed),
        }
    }

    fn flush(&mut self) -> Result<(), Failed>
        ensures keeps { Keeps (writer_contents W.contents self.old.writer)
            (writer_contents W.contents self.new.writer) }
        ensures flushed { OnOk result (self.new.is_flushed ≡ true) }
        ensures failed { OnErr result (self.new.is_flushed ≡ self.old.is_flushed) }
        ensures counted { self.new.faults
            ≡ record self.old.faults { failures = count_after self.old.faults.failures result } }
    {
        if self.is_flushed {
            return Ok(());
        }
        count_fault(&mut self.faults.failures, self.writer.flush())?;
        self.is_flushed = true;
        Ok(())
    }
}

impl<W: Write + Drop> Drop for StdOutput<W> {
    fn drop(self) {
        let StdOutput {
            writer,
            is_flushed: _,
            faults: _,
        } = self;
        let _ = writer.into_parts();
    }
}
