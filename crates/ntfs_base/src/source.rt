ghost use Rattle.std.specs.Prelude.{◌≡◌, ◌≤◌, ℕ, length, IsTrue, OnErr, IfOk};
ghost use Rattle.ntfs_base.specs.Causes.{SourceCause};
ghost use Rattle.ntfs_base.specs.Source.{SourceState, GivesNext, after_take};

use crate::fault::Failed;

/// Bytes that come in order, once, as those of standard input.
pub trait Source {
    /// What contracts see of it.
    ghost seen: { Self → SourceState };

    /// How often its calls have failed.
    ghost faults: { Self → ℕ };

    /// Puts the next bytes at the front of the slice and answers how many: none only at the end, or where the slice is
    /// empty. What stands behind them in the slice may change. After `Failed` none was given, and the slice holds
    /// anything.
    fn take(&mut self, into: &mut [u8]) -> Result<usize, Failed>
        ensures room { IfOk result (λ n. n ≤ length into.old) }
        ensures gives { IfOk result (λ n. IsTrue (seen self.old).is_told → GivesNext (seen self.old) n into.new) }
        ensures given { IfOk result (λ n. seen self.new ≡ after_take n (seen self.old)) }
        ensures failed { OnErr result (seen self.new ≡ seen self.old) }
        ensures cause { SourceCause (faults self.old) (faults self.new) result };
}
