use std::alloc::{AllocError, AllocFailed};

/// A read, a write or a sync failed outside the program.
#[derive(Clone, Copy, Debug, PartialEq, Eq)]
pub struct Failed;

/// Why a sink or a file didn't take all bytes, or a file wasn't cut or extended.
#[derive(Clone, Copy, Debug, PartialEq, Eq)]
pub enum PutFault {
    /// The outside failed; a front of the bytes may have been taken.
    Failed,
    /// Memory was wanting; no byte was taken.
    NoMemory,
}

/// Why a shelf didn't hand out a file.
#[derive(Clone, Copy, Debug, PartialEq, Eq)]
pub enum ShelfFault {
    Absent,
    Present,
    Failed,
    NoMemory,
}

impl From<AllocError> for ShelfFault {
    ghost use Rattle.std.specs.Prelude.{◌≡◌};
    ghost use Rattle.ntfs_base.specs.declared.fault.ShelfFault.TheVariants.{NoMemory};

    ghost from_gives = { λ _ e. e ≡ NoMemory };

    fn from(_: AllocError) -> ShelfFault {
        ShelfFault::NoMemory
    }
}

impl<T: Drop> From<AllocFailed<T>> for ShelfFault {
    ghost use Rattle.std.specs.Prelude.{◌≡◌};
    ghost use Rattle.ntfs_base.specs.declared.fault.ShelfFault.TheVariants.{NoMemory};

    ghost from_gives = { λ _ e. e ≡ NoMemory };

    fn from(_: AllocFailed<T>) -> ShelfFault {
        ShelfFault::NoMemory
    }
}

/// How often reads and writes of a device have failed. A count stops at its last value, and never falls.
#[derive(Clone, Copy, Debug, PartialEq, Eq)]
pub struct Faults {
    pub reads: u64,
    pub writes: u64,
}

/// How often a sink has failed, and how often it has wanted memory. A count stops at its last value, and never falls.
#[derive(Clone, Copy, Debug, PartialEq, Eq)]
pub struct SinkFaults {
    pub failures: u64,
    pub wants: u64,
}
