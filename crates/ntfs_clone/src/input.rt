//! The bytes of a source through a buffer.

ghost use Rattle.std.specs.Prelude.{◌≤◌, length};

use crate::fault::CloneFault;
use crate::taking::refill;
use ntfs_base::Source;
use std::alloc::{AllocError, Global};

/// A buffer, and the bytes of a source that wait in it.
#[derive(Drop)]
pub(crate) struct Input {
    pub(crate) bytes: Vec<u8>,
    pub(crate) start: usize,
    pub(crate) end: usize,
    ghost order: { start ≤ end },
    ghost within: { end ≤ length bytes.items },
}

impl Input {
    ghost use Rattle.std.specs.Prelude.{◌≡◌, ◌<◌, ◌+◌, [], take, drop, IfErr, IfOk, OnOk, IsTrue};
    ghost use Rattle.ntfs_base.specs.Frames.{OnlyTakes};
    ghost use Rattle.ntfs_clone.specs.Fault.{clone_origin};
    ghost use Rattle.ntfs_clone.specs.Reading.{unread, waiting};
    ghost use Rattle.ntfs_clone.specs.Taking.{HasGiven, to_come};
    ghost use Rattle.ntfs_clone.specs.declared.fault.CloneFault.TheVariants.{ReadFault};

    /// A buffer of so many bytes, in which none waits.
    pub(crate) fn new(alloc: Global, size: usize) -> Result<Input, AllocError>
        ensures size { IfOk result (λ input. length input.bytes.items ≡ size) }
        ensures waiting { IfOk result (λ input. waiting input ≡ []) }
    {
        Ok(Input {
            bytes: zeros(alloc, size)?,
            start: 0,
            end: 0,
        })
    }

    /// The bytes that wait.
    pub(crate) fn waiting(&self) -> &[u8]
        ensures { result.now ≡ waiting self.now }
    {
        &self.bytes[self.start..self.end]
    }

    /// Sees that so many bytes wait, or all that are left.
    pub(crate) fn want<I: Source>(&mut self, source: &mut I, count: usize) -> Result<(), CloneFault>
        requires { count ≤ length self.old.bytes.items }
        ensures size { length self.new.bytes.items ≡ length self.old.bytes.items }
        ensures unread { OnOk result (IsTrue (I.seen source.old).is_told
            → unread self.new (I.seen source.new) ≡ unread self.old (I.seen source.old)) }
        ensures enough { OnOk result (IsTrue (I.seen source.old).is_told
            → length (waiting self.new) < count → to_come (I.seen source.new) ≡ []) }
        ensures kept { HasGiven (I.seen source.old) (I.seen source.new) }
        ensures fails { IfErr result (λ fault. fault ≡ ReadFault) }
        ensures takes { OnlyTakes I.Source clone_origin source.old source.new result }
    {
        if self.end - self.start >= count {
            return Ok(());
        }
        let end = refill(source, &mut self.bytes, self.start, self.end)?;
        self.start = 0;
        self.end = end;
        Ok(())
    }

    /// Lets go of the first bytes that wait.
    pub(crate) fn pass(&mut self, count: usize)
        requires { count ≤ length (waiting self.old) }
        ensures size { length self.new.bytes.items ≡ length self.old.bytes.items }
        ensures waiting { waiting self.new ≡ drop count (waiting self.old) }
    {
        self.start += count;
    }
}

ghost use Rattle.std.specs.Prelude.{◌≡◌, replicate, IfOk};

/// So many zeros.
pub(crate) fn zeros(alloc: Global, count: usize) -> Result<Vec<u8>, AllocError>
    ensures { IfOk result (λ bytes. length bytes.items ≡ count) }
{
    vec![in alloc; 0; count]
}
