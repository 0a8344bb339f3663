ghost use Rattle.std.specs.Prelude.{◌≡◌};
ghost use Rattle.ntfs_runs.specs.declared.fault.PairsFault.TheVariants.{NoMemory};

use std::alloc::{AllocError, AllocFailed};

/// The place of the first header that isn't right.
#[derive(Clone, Copy, Debug, PartialEq, Eq)]
pub struct BadPairs {
    pub place: usize,
}

/// Why there is no run list.
#[derive(Clone, Copy, Debug, PartialEq, Eq)]
pub enum PairsFault {
    /// The header at this place is the first that isn't right.
    BadPairs { place: usize },
    NoMemory,
}

impl From<AllocError> for PairsFault {
    ghost from_gives = { λ _ e. e ≡ NoMemory };

    fn from(_e: AllocError) -> PairsFault {
        PairsFault::NoMemory
    }
}
