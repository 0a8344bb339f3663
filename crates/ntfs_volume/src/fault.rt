use ntfs_base::{Failed, Rule};
use ntfs_boot::ImageFault;
use std::alloc::AllocError;

/// Why a call on a volume was refused.
#[derive(Clone, Copy, Debug, PartialEq, Eq)]
pub enum VolumeFault {
    /// The image isn't an NTFS volume.
    NotNtfs,
    /// A field of the boot sector is wrong, as `BootFault` has it.
    BadGeometry { field: u8, value: u64 },
    /// The image has fewer bytes than it needs.
    ImageShort { len: u64, need: u64 },
    /// The volume breaks this rule at this record.
    Damaged { rule: Rule, number: u64 },
    /// The record isn't in use.
    Absent,
    /// The record has no such attribute.
    NoAttribute,
    ReadFault,
    WriteFault,
    NoMemory,
}

impl From<ImageFault> for VolumeFault {
    ghost use Rattle.std.specs.Prelude.{◌≡◌};
    ghost use Rattle.ntfs_volume.specs.Fault.{volume_fault};

    ghost from_gives = { λ fault volume. volume ≡ volume_fault fault };

    fn from(fault: ImageFault) -> VolumeFault {
        match fault {
            ImageFault::NotNtfs => VolumeFault::NotNtfs,
            ImageFault::BadGeometry { field, value } => VolumeFault::BadGeometry { field, value },
            ImageFault::ImageShort { len, need } => VolumeFault::ImageShort { len, need },
            ImageFault::ReadFault => VolumeFault::ReadFault,
        }
    }
}

impl From<Failed> for VolumeFault {
    ghost use Rattle.std.specs.Prelude.{◌≡◌};
    ghost use Rattle.ntfs_volume.specs.declared.fault.VolumeFault.TheVariants.{ReadFault};

    ghost from_gives = { λ _ volume. volume ≡ ReadFault };

    fn from(_: Failed) -> VolumeFault {
        VolumeFault::ReadFault
    }
}

impl From<AllocError> for VolumeFault {
    ghost use Rattle.std.specs.Prelude.{◌≡◌};
    ghost use Rattle.ntfs_volume.specs.declared.fault.VolumeFault.TheVariants.{NoMemory};

    ghost from_gives = { λ _ volume. volume ≡ NoMemory };

    fn from(_: AllocError) -> VolumeFault {
        VolumeFault::NoMemory
    }
}

ghost use Rattle.std.specs.Prelude.{◌≡◌};
ghost use Rattle.ntfs_volume.specs.MftMap.{no_map};

/// There is no map, by what stands in this record.
pub(crate) fn no_map(number: u64) -> VolumeFault
    ensures { result ≡ no_map number }
{
    VolumeFault::Damaged {
        rule: Rule::C3,
        number,
    }
}
