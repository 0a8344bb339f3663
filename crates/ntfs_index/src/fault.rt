use std::alloc::{AllocError, AllocFailed};

/// Why a block wasn't fetched.
#[derive(Clone, Copy, Debug, PartialEq, Eq)]
pub enum BlockFault {
    /// It lies outside the allocation.
    Outside,
    /// The outside failed.
    Failed,
}

/// Why a walk went no further.
#[derive(Clone, Copy, Debug, PartialEq, Eq)]
pub enum IndexFault {
    /// The first rule that the node of this VCN breaks; the root has the VCN 2^64 - 1.
    ///
    /// 1: the block doesn't unfix as `INDX`, or the root is shorter than 32 bytes or isn't of type 0x30, collation 1
    /// and the volume's block size. 2: a block's own VCN differs. 3: the first entry's place or the bytes in use don't
    /// fit. 4: an entry's length doesn't fit, or no entry ends the node. 5: a key, its name or a child's VCN doesn't
    /// fit. 6: a block is met a second time. 7: it lies outside the allocation.
    BadNode { vcn: u64, rule: u8 },
    /// There is a 17th level.
    TooDeep,
    /// A block wasn't fetched, since the outside failed.
    BlockFault,
    NoMemory,
}

impl From<AllocError> for IndexFault {
    ghost use Rattle.std.specs.Prelude.{◌≡◌};
    ghost use Rattle.ntfs_index.specs.declared.fault.IndexFault.TheVariants.{NoMemory};

    ghost from_gives = { λ _ e. e ≡ NoMemory };

    fn from(_: AllocError) -> IndexFault {
        IndexFault::NoMemory
    }
}

impl<T: Drop> From<AllocFailed<T>> for IndexFault {
    ghost use Rattle.std.specs.Prelude.{◌≡◌};
    ghost use Rattle.ntfs_index.specs.declared.fault.IndexFault.TheVariants.{NoMemory};

    ghost from_gives = { λ _ e. e ≡ NoMemory };

    fn from(_: AllocFailed<T>) -> IndexFault {
        IndexFault::NoMemory
    }
}
