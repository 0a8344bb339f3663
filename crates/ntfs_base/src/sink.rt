ghost use Rattle.std.specs.Prelude.{◌≡◌, Bool, true, false, OnOk, OnErr, IfErr};
ghost use Rattle.ntfs_base.specs.Causes.{SinkCause, FlushCause};
ghost use Rattle.ntfs_base.specs.Sink.{SinkState, Put, PutsNothing};
ghost use Rattle.ntfs_base.specs.declared.fault.SinkFaults.{SinkFaults as SinkCounts};

use crate::fault::{Failed, PutFault};

/// What takes bytes in order, as standard output does.
pub trait Sink {
    /// What contracts see of it.
    ghost seen: { Self → SinkState };

    /// Nothing that was put waits to be written.
    ghost is_flushed: { Self → Bool };

    /// How often its calls have failed, and how often they wanted memory.
    ghost faults: { Self → SinkCounts };

    /// Appends the bytes: all of them, or a front of them with `Failed`, or none with `NoMemory`.
    fn put(&mut self, bytes: &[u8]) -> Result<(), PutFault>
        ensures put { Put bytes.now (seen self.old) result (seen self.new) }
        ensures nothing { IfErr result (λ fault. PutsNothing fault (seen self.old) (seen self.new)) }
        ensures waits { is_flushed self.new ≡ false }
        ensures cause { SinkCause (faults self.old) (faults self.new) result };

    /// Writes what waits. It changes no content.
    fn flush(&mut self) -> Result<(), Failed>
        ensures seen { seen self.new ≡ seen self.old }
        ensures flushed { OnOk result (is_flushed self.new ≡ true) }
        ensures failed { OnErr result (is_flushed self.new ≡ is_flushed self.old) }
        ensures cause { FlushCause (faults self.old) (faults self.new) result };
}
