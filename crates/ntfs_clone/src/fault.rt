use ntfs_base::{Failed, PutFault, Rule};
use std::alloc::AllocError;

/// Why a clone image wasn't read, restored or made.
#[derive(Clone, Copy, Debug, PartialEq, Eq)]
pub enum CloneFault {
    /// The clone image is wrong: the place in bytes of the first field or command that is wrong or cut off, or of the
    /// first byte behind the end.
    BadClone { place: u64 },
    /// The bytes that a volume has just given break a rule of the check that it had met.
    Damaged { rule: Rule, number: u64 },
    /// A read failed.
    ReadFault,
    /// A write failed.
    WriteFault,
    /// Memory was wanting.
    NoMemory,
}

impl From<Failed> for CloneFault {
    ghost use Rattle.std.specs.Prelude.{◌≡◌};
    ghost use Rattle.ntfs_clone.specs.declared.fault.CloneFault.TheVariants.{ReadFault};

    ghost from_gives = { λ _ fault. fault ≡ ReadFault };

    fn from(_: Failed) -> CloneFault {
        CloneFault::ReadFault
    }
}

impl From<PutFault> for CloneFault {
    ghost use Rattle.std.specs.Prelude.{◌≡◌};
    ghost use Rattle.ntfs_clone.specs.Fault.{file_fault};

    ghost from_gives = { λ fault clone. clone ≡ file_fault fault };

    fn from(fault: PutFault) -> CloneFault {
        match fault {
            PutFault::Failed => CloneFault::WriteFault,
            PutFault::NoMemory => CloneFault::NoMemory,
        }
    }
}

impl From<AllocError> for CloneFault {
    ghost use Rattle.std.specs.Prelude.{◌≡◌};
    ghost use Rattle.ntfs_clone.specs.declared.fault.CloneFault.TheVariants.{NoMemory};

    ghost from_gives = { λ _ fault. fault ≡ NoMemory };

    fn from(_: AllocError) -> CloneFault {
        CloneFault::NoMemory
    }
}
