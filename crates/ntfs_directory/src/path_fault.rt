//! Why a path names no record.

ghost use Rattle.std.specs.Prelude.{◌≡◌};
ghost use Rattle.ntfs_directory.specs.Paths.{no_part, path_fault};

use ntfs_base::{Missing, Rule};
use ntfs_volume::VolumeFault;
use std::alloc::AllocError;

/// Why a path was refused.
#[derive(Clone, Copy, Debug, PartialEq, Eq)]
pub enum PathFault {
    /// A part isn't there, or is asked of a record that is no directory.
    NotFound { what: Missing },
    /// The volume breaks this rule at this record.
    Damaged { rule: Rule, number: u64 },
    ReadFault,
    NoMemory,
}

impl From<AllocError> for PathFault {
    ghost use Rattle.std.specs.Prelude.{◌≡◌};
    ghost use Rattle.ntfs_directory.specs.declared.path_fault.PathFault.TheVariants.{NoMemory};

    ghost from_gives = { λ _ path. path ≡ NoMemory };

    fn from(_: AllocError) -> PathFault {
        PathFault::NoMemory
    }
}

/// A part, counted from 0, isn't there.
pub(crate) fn no_part(index: u64) -> PathFault
    ensures { result ≡ no_part index }
{
    PathFault::NotFound {
        what: Missing::Part { index },
    }
}

/// A refusal of the volume where a part is looked up.
pub(crate) fn path_fault(index: u64, fault: VolumeFault) -> PathFault
    ensures { result ≡ path_fault index fault }
{
    match fault {
        VolumeFault::NotNtfs | VolumeFault::BadGeometry { .. } => PathFault::Damaged {
            rule: Rule::C1,
            number: 0,
        },
        VolumeFault::ImageShort { .. } => PathFault::Damaged {
            rule: Rule::C2,
            number: 0,
        },
        VolumeFault::Damaged { rule, number } => PathFault::Damaged { rule, number },
        VolumeFault::Absent | VolumeFault::NoAttribute => no_part(index),
        VolumeFault::ReadFault | VolumeFault::WriteFault => PathFault::ReadFault,
        VolumeFault::NoMemory => PathFault::NoMemory,
    }
}
