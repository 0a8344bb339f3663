use crate::calls::{Calls, Leaves, front, one_more};
use crate::fault::{Failed, Faults, PutFault};
use crate::in_place::overwrite;
use std::alloc::Global;

/// Bytes in memory, the calls on them, and how many of these have failed.
#[derive(Drop)]
pub struct MemContent {
    pub bytes: Vec<u8>,
    pub calls: Calls,
    pub faults: Faults,
}

impl MemContent {
    ghost use Rattle.std.specs.Prelude.{◌≡◌, ◌+◌, ◌≤◌, [], length, slice_range, OnOk};
    ghost use Rattle.ntfs_base.specs.Memory.{ReadsMemory, WritesMemory, SyncsMemory, SetsMemory, AppendsMemory, IsNumbered};

    /// These bytes, with no call yet and none that is to fail.
    pub fn new(alloc: Global, bytes: Vec<u8>) -> MemContent
        ensures bytes { result.bytes ≡ bytes }
        ensures made { result.calls.made ≡ 0 }
        ensures failing { result.calls.failing.items ≡ [] }
        ensures reads { result.faults.reads ≡ 0 }
        ensures writes { result.faults.writes ≡ 0 }
    {
        MemContent {
            bytes,
            calls: Calls::new(alloc),
            faults: Faults {
                reads: 0,
                writes: 0,
            },
        }
    }

    /// Reads the bytes from a place on, unless the call is one that is to fail.
    pub fn read(&mut self, at: u64, into: &mut [u8]) -> Result<(), Failed>
        requires { at + length into.old ≤ length self.old.bytes.items }
        ensures bytes { OnOk result (into.new ≡ slice_range self.old.bytes.items at (at + length into.old)) }
        ensures memory { ReadsMemory self.old result self.new }
    {
        if self.calls.next().is_some() {
            self.faults.reads = one_more(self.faults.reads);
            return Err(Failed);
        }
        let from = at as usize;
        into.copy_from_slice(&self.bytes[from..from + into.len()]);
        Ok(())
    }

    /// Writes bytes from a place on. A call that is to fail leaves the range as it was, or as asked.
    pub fn write(&mut self, at: u64, bytes: &[u8]) -> Result<(), Failed>
        requires { at + length bytes.now ≤ length self.old.bytes.items }
        ensures memory { WritesMemory (record { place = at; bytes = bytes.now }) self.old result self.new }
    {
        match self.calls.next() {
            None => {
                overwrite(&mut self.bytes, at as usize, bytes);
                Ok(())
            }
            Some(Leaves::Asked) => {
                overwrite(&mut self.bytes, at as usize, bytes);
                self.faults.writes = one_more(self.faults.writes);
                Err(Failed)
            }
            Some(_) => {
                self.faults.writes = one_more(self.faults.writes);
                Err(Failed)
            }
        }
    }

    /// Does nothing but count the call, and fail where it is to.
    pub fn sync(&mut self) -> Result<(), Failed>
        ensures memory { SyncsMemory self.old result self.new }
    {
        if self.calls.next().is_some() {
            self.faults.writes = one_more(self.faults.writes);
            return Err(Failed);
        }
        Ok(())
    }

    /// Cuts the bytes to a length, or extends them with zeros. A call that is to fail leaves them as they were, or as
    /// asked.
    pub fn set_len(&mut self, len: u64) -> Result<(), PutFault>
        ensures memory { SetsMemory len self.old result self.new }
        ensures numbered { IsNumbered self.old self.new }
    {
        match self.calls.next() {
            None => resize(&mut self.bytes, len),
            Some(leaves) => {
                if let Leaves::Asked = leaves {
                    resize(&mut self.bytes, len)?;
                }
                self.faults.writes = one_more(self.faults.writes);
                Err(PutFault::Failed)
            }
        }
    }

    /// Puts bytes at the end. A call that is to fail puts a front of them.
    pub fn append(&mut self, bytes: &[u8]) -> Result<(), PutFault>
        ensures memory { AppendsMemory bytes.now self.old result self.new }
        ensures numbered { IsNumbered self.old self.new }
    {
        let planned = self.calls.next();
        if self.bytes.extend_from_slice(front(planned, bytes)).is_err() {
            return Err(PutFault::NoMemory);
        }
        if planned.is_some() {
            self.faults.writes = one_more(self.faults.writes);
            return Err(PutFault::Failed);
        }
        Ok(())
    }
}

ghost use Rattle.std.specs.Prelude.{◌≡◌, ◌<◌, length, OnOk, OnErr, IfErr};
ghost use Rattle.ntfs_base.specs.Growth.{resize_of};

/// Cuts the bytes to a length, or extends them with zeros. Where memory is wanting they stay.
#[tactic(auto, unfolding(crate::specs::Growth::resize_of))]
fn resize(bytes: &mut Vec<u8>, len: u64) -> Result<(), PutFault>
    ensures resize_of { OnOk result (bytes.new.items ≡ resize_of len bytes.old.items) }
    ensures wanting { IfErr result (λ fault. fault ≡ PutFault.NoMemory) }
    ensures longer { OnErr result (length bytes.old.items < len) }
    ensures same { OnErr result (bytes.new.items ≡ bytes.old.items) }
{
    match bytes.resize(len as usize, 0) {
        Ok(()) => Ok(()),
        Err(_) => Err(PutFault::NoMemory),
    }
}
