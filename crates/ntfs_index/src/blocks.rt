ghost use Rattle.std.specs.Prelude.{◌≡◌, ◌↔◌, ◌+◌, ◌≤◌, ℕ, Some, None, Err, length, IsTrue, OnOk};
ghost use Rattle.ntfs_base.specs.Causes.{Rose};
ghost use Rattle.ntfs_index.specs.Blocks.{BlocksState, IsSized};

use crate::fault::BlockFault;

/// The blocks of an index, by VCN, all of one size.
pub trait Blocks {
    /// What contracts see of them, which no call changes.
    ghost seen: { Self → BlocksState };

    /// How often calls have failed. The count stops at its last value, and never falls.
    ghost faults: { Self → ℕ };

    /// How often a block was asked for, where that is counted; elsewhere always 0.
    ghost asked: { Self → ℕ };

    /// Fetches the block of a VCN, as it stands in the allocation, with its fixups. After a fault the slice holds
    /// anything.
    fn block(&mut self, vcn: u64, into: &mut [u8]) -> Result<(), BlockFault>
        requires { length into.old ≡ (seen self.old).size }
        ensures gives { OnOk result (IsTrue (seen self.old).is_told → (seen self.old).blocks vcn ≡ Some into.new) }

        // It is outside exactly where the map has no such block, so that `Failed` comes only where it has.
        ensures outside { IsTrue (seen self.old).is_told →
            (result ≡ Err BlockFault.Outside) ↔ ((seen self.old).blocks vcn ≡ None) }
        ensures cause { result ≡ Err BlockFault.Failed → Rose (faults self.old) (faults self.new) }
        ensures seen { seen self.new ≡ seen self.old }
        ensures faults { faults self.old ≤ faults self.new }
        ensures asked { asked self.new ≤ asked self.old + 1 };

    /// The map that is told is finite, and its blocks have the told size.
    ghost sized: { (blocks : Self) → IsSized (seen blocks) };
}
