use std::alloc::AllocError;

/// Why a volume was not made whole.
#[derive(Clone, Copy, Debug, PartialEq, Eq)]
pub enum MakeFault {
    /// A write failed.
    WriteFault,
    /// Memory was wanting.
    NoMemory,
}

impl From<AllocError> for MakeFault {
    ghost use Rattle.std.specs.Prelude.{◌≡◌};
    ghost use Rattle.ntfs_make.specs.declared.fault.MakeFault.TheVariants.{NoMemory};

    ghost from_gives = { λ _ e. e ≡ NoMemory };

    fn from(_: AllocError) -> MakeFault {
        MakeFault::NoMemory
    }
}
