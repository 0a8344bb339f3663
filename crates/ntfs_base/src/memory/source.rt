ghost use Rattle.std.specs.Prelude.{◌≤◌, length};

use crate::calls::{Calls, one_more};
use crate::fault::Failed;
use crate::source::Source;
use std::alloc::Global;

/// A source in memory.
#[derive(Drop)]
pub struct MemSource {
    pub bytes: Vec<u8>,
    pub given: usize,
    pub name: Vec<u8>,
    pub calls: Calls,
    pub faults: u64,
    ghost within: { given ≤ length bytes.items },
}

impl MemSource {
    ghost use Rattle.std.specs.Prelude.{◌≡◌, []};

    /// A source of these bytes, without a name, of which no call fails.
    pub fn new(alloc: Global, bytes: Vec<u8>) -> MemSource
        ensures bytes { result.bytes ≡ bytes }
        ensures given { result.given ≡ 0 }
        ensures name { result.name.items ≡ [] }
        ensures made { result.calls.made ≡ 0 }
        ensures failing { result.calls.failing.items ≡ [] }
        ensures faults { result.faults ≡ 0 }
    {
        MemSource {
            bytes,
            given: 0,
            name: Vec::new(alloc),
            calls: Calls::new(alloc),
            faults: 0,
        }
    }
}

impl Source for MemSource {
    ghost use Rattle.std.specs.Prelude.{◌≡◌, ◌+◌, ◌-◌, ◌≤◌, length, min, IfOk, OnErr, IsTrue};
    ghost use Rattle.ntfs_base.specs.Calls.{AsPlanned, count_after};
    ghost use Rattle.ntfs_base.specs.Causes.{SourceCause};
    ghost use Rattle.ntfs_base.specs.MemStream.{seen_source};
    ghost use Rattle.ntfs_base.specs.Source.{GivesNext, after_take};

    ghost seen = { seen_source };

    ghost faults = { λ source. source.faults };

    fn take(&mut self, into: &mut [u8]) -> Result<usize, Failed>
        ensures room { IfOk result (λ n. n ≤ length into.old) }
        ensures gives { IfOk result (λ n. GivesNext (seen_source self.old) n into.new) }
        ensures given { IfOk result (λ n. seen_source self.new ≡ after_take n (seen_source self.old)) }
        ensures failed { OnErr result (seen_source self.new ≡ seen_source self.old) }
        ensures cause { SourceCause self.old.faults self.new.faults result }
        ensures most { IfOk result (λ n. n ≡ min (length into.old) (length self.old.bytes.items - self.old.given)) }
        ensures planned { AsPlanned self.old.calls result self.new.calls }
        ensures counted { self.new.faults ≡ count_after self.old.faults result }
    {
        if self.calls.next().is_some() {
            self.faults = one_more(self.faults);
            return Err(Failed);
        }
        let count = into.len().min(self.bytes.len() - self.given);
        into[..count].copy_from_slice(&self.bytes[self.given..self.given + count]);
        self.given += count;
        Ok(count)
    }
}
