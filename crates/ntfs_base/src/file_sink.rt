use crate::calls::one_more;
use crate::fault::{Failed, PutFault};
use crate::image::HostFile;
use crate::sink::Sink;

/// A file as a sink: bytes are appended to it. It counts how often memory was wanting; how often the file's writes have
/// failed is counted by the file.
#[derive(Drop)]
pub struct FileSink<F: HostFile> {
    pub file: F,
    pub is_flushed: bool,
    pub wants: u64,
}

impl<F: HostFile> FileSink<F> {
    ghost use Rattle.std.specs.Prelude.{◌≡◌, true};

    /// The sink that appends to a file, where nothing waits yet.
    pub fn new(file: F) -> FileSink<F>
        ensures file { result.file ≡ file }
        ensures flushed { result.is_flushed ≡ true }
        ensures wants { result.wants ≡ 0 }
    {
        FileSink {
            file,
            is_flushed: true,
            wants: 0,
        }
    }

    /// The file, as it is.
    pub fn into_file(self) -> F
        ensures { result ≡ self.file }
    {
        let FileSink {
            file,
            is_flushed: _,
            wants: _,
        } = self;
        file
    }
}

impl<F: HostFile> Sink for FileSink<F> {
    ghost use Rattle.std.specs.Prelude.{◌≡◌, true, false, IfErr, OnOk, OnErr};
    ghost use Rattle.ntfs_base.specs.Causes.{FlushCause, GrowthCause, SinkCause, WriteCause};
    ghost use Rattle.ntfs_base.specs.FileStream.{sink_of, sink_counts, wants_after};
    ghost use Rattle.ntfs_base.specs.Growth.{Appended};
    ghost use Rattle.ntfs_base.specs.Sink.{Put, PutsNothing};

    ghost seen = { λ sink. sink_of (F.seen sink.file) };

    ghost is_flushed = { λ sink. sink.is_flushed };

    ghost faults = { λ sink. sink_counts (F.faults sink.file) sink.wants };

    fn put(&mut self, bytes: &[u8]) -> Result<(), PutFault>
        ensures put { Put bytes.now (sink_of (F.seen self.old.file)) result (sink_of (F.seen self.new.file)) }
        ensures nothing { IfErr result (λ fault. PutsNothing fault (sink_of (F.seen self.old.file))
            (sink_of (F.seen self.new.file))) }
        ensures waits { self.new.is_flushed ≡ false }
        ensures cause { SinkCause (sink_counts (F.faults self.old.file) self.old.wants)
            (sink_counts (F.faults self.new.file) self.new.wants) result }
        ensures file { Appended bytes.now (F.seen self.old.file) result (F.seen self.new.file) }
        ensures counts { GrowthCause (F.faults self.old.file) (F.faults self.new.file) result }
        ensures wants { self.new.wants ≡ wants_after result self.old.wants }
    {
        self.is_flushed = false;
        match self.file.append(bytes) {
            Ok(()) => Ok(()),
            Err(PutFault::Failed) => Err(PutFault::Failed),
            Err(PutFault::NoMemory) => {
                self.wants = one_more(self.wants);
                Err(PutFault::NoMemory)
            }
        }
    }

    fn flush(&mut self) -> Result<(), Failed>
        ensures seen { sink_of (F.seen self.new.file) ≡ sink_of (F.seen self.old.file) }
        ensures flushed { OnOk result (self.new.is_flushed ≡ true) }
        ensures failed { OnErr result (self.new.is_flushed ≡ self.old.is_flushed) }
        ensures cause { FlushCause (sink_counts (F.faults self.old.file) self.old.wants)
            (sink_counts (F.faults self.new.file) self.new.wants) result }
        ensures file { F.seen self.new.file ≡ F.seen self.old.file }
        ensures counts { WriteCause (F.faults self.old.file) (F.faults self.new.file) result }
        ensures wants { self.new.wants ≡ self.old.wants }
    {
        self.file.sync()?;
        self.is_flushed = true;
        Ok(())
    }
}
