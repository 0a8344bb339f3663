use std::alloc::{AllocError, AllocFailed};

/// Why a run wasn't claimed. The set is then as before.
#[derive(Clone, Copy, Debug, PartialEq, Eq)]
pub enum ClaimFault {
    /// The least cluster of the run that is in the set.
    Taken { cluster: u64 },
    NoMemory,
}

impl From<AllocError> for ClaimFault {
    ghost use Rattle.std.specs.Prelude.{◌≡◌};
    ghost use Rattle.ntfs_bitmap.specs.declared.fault.ClaimFault.TheVariants.{NoMemory};

    ghost from_gives = { λ _ e. e ≡ NoMemory };

    fn from(_: AllocError) -> ClaimFault {
        ClaimFault::NoMemory
    }
}

impl<T: Drop> From<AllocFailed<T>> for ClaimFault {
    ghost use Rattle.std.specs.Prelude.{◌≡◌};
    ghost use Rattle.ntfs_bitmap.specs.declared.fault.ClaimFault.TheVariants.{NoMemory};

    ghost from_gives = { λ _ e. e ≡ NoMemory };

    fn from(_: AllocFailed<T>) -> ClaimFault {
        ClaimFault::NoMemory
    }
}
