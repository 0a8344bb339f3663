use crate::calls::{Calls, front, one_more};
use crate::fault::{Failed, PutFault, SinkFaults};
use crate::sink::Sink;
use std::alloc::Global;

/// A sink in memory. Its memory may be wanting.
#[derive(Drop)]
pub struct MemSink {
    pub content: Vec<u8>,
    pub name: Vec<u8>,
    pub is_flushed: bool,
    pub calls: Calls,
    pub faults: SinkFaults,
}

impl MemSink {
    ghost use Rattle.std.specs.Prelude.{◌≡◌, [], true};

    /// An empty sink, without a name, of which no call fails.
    pub fn new(alloc: Global) -> MemSink
        ensures content { result.content.items ≡ [] }
        ensures name { result.name.items ≡ [] }
        ensures made { result.calls.made ≡ 0 }
        ensures failing { result.calls.failing.items ≡ [] }
        ensures flushed { result.is_flushed ≡ true }
        ensures failures { result.faults.failures ≡ 0 }
        ensures wants { result.faults.wants ≡ 0 }
    {
        MemSink {
            content: Vec::new(alloc),
            name: Vec::new(alloc),
            is_flushed: true,
            calls: Calls::new(alloc),
            faults: SinkFaults {
                failures: 0,
                wants: 0,
            },
        }
    }
}

impl Sink for MemSink {
    ghost use Rattle.std.specs.Prelude.{◌≡◌, ◌++◌, true, false, is_some, IfErr, IsErrOf, OnOk, OnErr};
    ghost use Rattle.ntfs_base.specs.Calls.{AsPlanned, count_after, front_by, next_failing, one_more as after_one_more};
    ghost use Rattle.ntfs_base.specs.Causes.{SinkCause, FlushCause};
    ghost use Rattle.ntfs_base.specs.MemStream.{seen_sink, PutsAsPlanned};
    ghost use Rattle.ntfs_base.specs.Sink.{Put, PutsNothing};

    ghost seen = { seen_sink };

    ghost is_flushed = { λ sink. sink.is_flushed };

    ghost faults = { λ sink. sink.faults };

    fn put(&mut self, bytes: &[u8]) -> Result<(), PutFault>
        ensures put { Put bytes.now (seen_sink self.old) result (seen_sink self.new) }
        ensures nothing { IfErr result (λ fault. PutsNothing fault (seen_sink self.old) (seen_sink self.new)) }
        ensures waits { self.new.is_flushed ≡ false }
        ensures cause { SinkCause self.old.faults self.new.faults result }
        ensures planned { PutsAsPlanned bytes.now self.old result self.new }
        ensures made { self.new.calls.made ≡ after_one_more self.old.calls.made }
        ensures failing { self.new.calls.failing ≡ self.old.calls.failing }
    {
        self.is_flushed = false;
        let planned = self.calls.next();
        if self
            .content
            .extend_from_slice(front(planned, bytes))
            .is_err()
        {
            self.faults.wants = one_more(self.faults.wants);
            return Err(PutFault::NoMemory);
        }
        if planned.is_some() {
            self.faults.failures = one_more(self.faults.failures);
            return Err(PutFault::Failed);
        }
        Ok(())
    }

    fn flush(&mut self) -> Result<(), Failed>
        ensures seen { seen_sink self.new ≡ seen_sink self.old }
        ensures flushed { OnOk result (self.new.is_flushed ≡ true) }
        ensures failed { OnErr result (self.new.is_flushed ≡ self.old.is_flushed) }
        ensures cause { FlushCause self.old.faults self.new.faults result }
        ensures planned { AsPlanned self.old.calls result self.new.calls }
        ensures failures { self.new.faults.failures ≡ count_after self.old.faults.failures result }
        ensures wants { self.new.faults.wants ≡ self.old.faults.wants }
    {
        if self.calls.next().is_some() {
            self.faults.failures = one_more(self.faults.failures);
            return Err(Failed);
        }
        self.is_flushed = true;
        Ok(())
    }
}
