use ntfs_base::{Missing, PutFault, Rule};
use ntfs_directory::PathFault;
use ntfs_stream::StreamFault;
use ntfs_volume::VolumeFault;
use std::alloc::AllocError;

/// Why a printing call stopped.
#[derive(Clone, Copy, Debug, PartialEq, Eq)]
pub enum ShowFault {
    /// A part of the path, the record or the stream isn't there.
    NotFound { what: Missing },
    /// The stream is compressed or encrypted: its flags.
    NotPlain { flags: u16 },
    /// The volume breaks this rule at this record.
    Damaged { rule: Rule, number: u64 },
    ReadFault,
    WriteFault,
    NoMemory,
}

impl From<PutFault> for ShowFault {
    ghost use Rattle.std.specs.Prelude.{◌≡◌};
    ghost use Rattle.ntfs_print.specs.Fault.{show_fault};

    ghost from_gives = { λ fault show. show ≡ show_fault fault };

    fn from(fault: PutFault) -> ShowFault {
        match fault {
            PutFault::Failed => ShowFault::WriteFault,
            PutFault::NoMemory => ShowFault::NoMemory,
        }
    }
}

impl From<StreamFault> for ShowFault {
    ghost use Rattle.std.specs.Prelude.{◌≡◌};
    ghost use Rattle.ntfs_print.specs.Fault.{stream_refusal};

    ghost from_gives = { λ fault show. show ≡ stream_refusal fault };

    fn from(fault: StreamFault) -> ShowFault {
        match fault {
            StreamFault::NotPlain { flags } => ShowFault::NotPlain { flags },
            StreamFault::ReadFault => ShowFault::ReadFault,
            StreamFault::WriteFault => ShowFault::WriteFault,
            StreamFault::NoMemory => ShowFault::NoMemory,
        }
    }
}

impl From<PathFault> for ShowFault {
    ghost use Rattle.std.specs.Prelude.{◌≡◌};
    ghost use Rattle.ntfs_print.specs.Fault.{path_refusal};

    ghost from_gives = { λ fault show. show ≡ path_refusal fault };

    fn from(fault: PathFault) -> ShowFault {
        match fault {
            PathFault::NotFound { what } => ShowFault::NotFound { what },
            PathFault::Damaged { rule, number } => ShowFault::Damaged { rule, number },
            PathFault::ReadFault => ShowFault::ReadFault,
            PathFault::NoMemory => ShowFault::NoMemory,
        }
    }
}

impl From<AllocError> for ShowFault {
    ghost use Rattle.std.specs.Prelude.{◌≡◌};
    ghost use Rattle.ntfs_print.specs.declared.fault.ShowFault.TheVariants.{NoMemory};

    ghost from_gives = { λ _ show. show ≡ NoMemory };

    fn from(_: AllocError) -> ShowFault {
        ShowFault::NoMemory
    }
}

ghost use Rattle.std.specs.Prelude.{◌≡◌};
ghost use Rattle.ntfs_print.specs.Fault.{gather_refusal};

/// The refusal of a gathering from the record of a number. The three refusals of an image that isn't opened are none of
/// a gathering.
pub fn gather_refusal(fault: VolumeFault, number: u64) -> ShowFault
    ensures { result ≡ gather_refusal number fault }
{
    match fault {
        VolumeFault::NotNtfs | VolumeFault::BadGeometry { .. } => ShowFault::Damaged {
            rule: Rule::C1,
            number: 0,
        },
        VolumeFault::ImageShort { .. } => ShowFault::Damaged {
            rule: Rule::C2,
            number: 0,
        },
        VolumeFault::Damaged { rule, number } => ShowFault::Damaged { rule, number },
        VolumeFault::Absent => ShowFault::NotFound {
            what: Missing::Record { number },
        },
        VolumeFault::NoAttribute => ShowFault::NotFound {
            what: Missing::Stream,
        },
        VolumeFault::ReadFault => ShowFault::ReadFault,
        VolumeFault::WriteFault => ShowFault::WriteFault,
        VolumeFault::NoMemory => ShowFault::NoMemory,
    }
}
