//! Text that is put to a sink in large pieces.

ghost use Rattle.std.specs.Prelude.{◌≡◌, ◌+◌, ◌≤◌, [], ◌++◌, length, IfOk, OnErr};
ghost use Rattle.ntfs_base.specs.Frames.{OnlyPuts};
ghost use Rattle.ntfs_base.specs.Sink.{Put};
ghost use Rattle.ntfs_print.specs.Pending.{Pushes, put_origin};

use crate::buffer::zeros;
use ntfs_base::{PutFault, Sink};
use std::alloc::{AllocError, Global};
use std::marker::Model;

/// How many bytes wait at the most.
const ROOM: usize = 65_536;

/// Text that waits to be put, at most 65,536 bytes of it. Contracts see its bytes.
#[derive(Drop)]
pub struct Pending {
    bytes: Vec<u8>,
    len: usize,
}

impl Model for Pending {
    ghost use Rattle.std.specs.Prelude.{◌≡◌, ◌≤◌, ℕ, List, length, take};

    ghost Value = { List ℕ };

    ghost view = { λ pending. take pending.len pending.bytes.items };

    ghost invariant = { λ pending. (pending.len ≤ 65536) × (length pending.bytes.items ≡ 65536) };
}

impl Pending {
    /// No text, and room for 65,536 bytes: no other call takes memory.
    pub fn new(alloc: Global) -> Result<Pending, AllocError>
        ensures { IfOk result (λ pending. pending ≡ []) }
    {
        let bytes = zeros(alloc, ROOM)?;
        Ok(Pending { bytes, len: 0 })
    }

    /// How many bytes wait.
    fn len(&self) -> usize
        ensures value { result ≡ length self.now }
        ensures most { result ≤ 65536 }
    {
        self.len
    }

    /// Appends text for which there is room.
    fn keep(&mut self, text: &[u8])
        requires { length self.old + length text.now ≤ 65536 }
        ensures { self.new ≡ self.old ++ text.now }
    {
        let end = self.len + text.len();
        self.bytes[self.len..end].copy_from_slice(text);
        self.len = end;
    }

    /// Puts what waits. Afterwards nothing waits, after a refusal too.
    pub fn put_rest<K: Sink>(&mut self, out: &mut K) -> Result<(), PutFault>
        ensures put { Put self.old (K.seen out.old) result (K.seen out.new) }
        ensures nothing { self.new ≡ [] }
        ensures puts { OnlyPuts K.Sink put_origin out.old out.new result }
    {
        let result = out.put(&self.bytes[..self.len]);
        self.len = 0;
        result
    }

    /// Keeps text where nothing waits; one that is longer than the room is put.
    fn begin<K: Sink>(&mut self, text: &[u8], out: &mut K) -> Result<(), PutFault>
        requires { self.old ≡ [] }
        ensures pushes { Pushes text.now [] (K.seen out.old) result self.new (K.seen out.new) }
        ensures nothing { OnErr result (self.new ≡ []) }
        ensures puts { OnlyPuts K.Sink put_origin out.old out.new result }
    {
        if text.len() > ROOM {
            return out.put(text);
        }
        self.keep(text);
        Ok(())
    }

    /// Prints text: it waits behind what waits, or is put behind it where there is no room. After a refusal nothing
    /// waits, and a prefix of what waited and of the text was put.
    pub fn push<K: Sink>(&mut self, text: &[u8], out: &mut K) -> Result<(), PutFault>
        ensures pushes { Pushes text.now self.old (K.seen out.old) result self.new (K.seen out.new) }
        ensures nothing { OnErr result (self.new ≡ []) }
        ensures puts { OnlyPuts K.Sink put_origin out.old out.new result }
    {
        if text.len() <= ROOM - self.len() {
            self.keep(text);
            return Ok(());
        }
        self.put_rest(out)?;
        self.begin(text, out)
    }
}
