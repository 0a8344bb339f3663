use ntfs_base::{Failed, Rule};
use ntfs_volume::VolumeFault;
use std::alloc::AllocError;

/// Why a volume isn't accepted, or wasn't judged.
#[derive(Clone, Copy, Debug, PartialEq, Eq)]
pub enum CheckFault {
    /// The volume breaks this rule at this record.
    Damaged { rule: Rule, number: u64 },
    ReadFault,
    NoMemory,
}

impl From<Failed> for CheckFault {
    ghost use Rattle.std.specs.Prelude.{◌≡◌};
    ghost use Rattle.ntfs_rules.specs.declared.fault.CheckFault.TheVariants.{ReadFault};

    ghost from_gives = { λ _ fault. fault ≡ ReadFault };

    fn from(_: Failed) -> CheckFault {
        CheckFault::ReadFault
    }
}

impl From<AllocError> for CheckFault {
    ghost use Rattle.std.specs.Prelude.{◌≡◌};
    ghost use Rattle.ntfs_rules.specs.declared.fault.CheckFault.TheVariants.{NoMemory};

    ghost from_gives = { λ _ fault. fault ≡ NoMemory };

    fn from(_: AllocError) -> CheckFault {
        CheckFault::NoMemory
    }
}

ghost use Rattle.std.specs.Prelude.{◌≡◌};

/// The volume breaks this rule at this record.
pub fn damaged(rule: Rule, number: u64) -> CheckFault
    ensures { result ≡ CheckFault.Damaged rule number }
{
    CheckFault::Damaged { rule, number }
}

ghost use Rattle.ntfs_rules.specs.Outcome.{cut_of};

/// What cut a call on a volume off: none where its refusal says something of the volume.
pub fn cut_of(fault: VolumeFault) -> Option<CheckFault>
    ensures { result ≡ cut_of fault }
{
    match fault {
        VolumeFault::ReadFault | VolumeFault::WriteFault => Some(CheckFault::ReadFault),
        VolumeFault::NoMemory => Some(CheckFault::NoMemory),
        _ => None,
    }
}
