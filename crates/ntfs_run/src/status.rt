use ntfs_base::{Lack, Missing, Named, PutFault, Rule, UsageKind};
use ntfs_boot::ImageFault;
use ntfs_check::CheckFault;
use ntfs_clone::CloneFault;
use ntfs_directory::PathFault;
use ntfs_make::MakeFault;
use ntfs_show::ShowFault;
use ntfs_volume::VolumeFault;
use ntfs_words::WordsFault;
use std::alloc::AllocError;

/// How a command ended.
#[derive(Clone, Copy, Debug, PartialEq, Eq)]
pub enum Status {
    /// The work was done whole.
    Done,
    /// The words of the command line were refused.
    Usage { kind: UsageKind },
    /// A file isn't there.
    Absent { file: Named },
    /// A file is there that has to be new.
    Present { file: Named },
    /// The image isn't an NTFS volume.
    NotNtfs,
    /// A field of the boot sector is wrong.
    BadGeometry { field: u8, value: u64 },
    /// The image has fewer bytes than it needs.
    ImageShort { len: u64, need: u64 },
    /// The volume breaks this rule, first at this record.
    Damaged { rule: Rule, number: u64 },
    /// The volume is marked as dirty.
    Dirty,
    /// A new size needs more clusters than are free.
    ShortClusters { need: u64, free: u64 },
    /// A new size needs more clusters in a row than are free.
    ShortRun { need: u64, longest: u64 },
    /// A record has too little room, in bytes.
    ShortRoom { number: u64, need: u64, have: u32 },
    /// A new size is out of range.
    ShortGeometry { lack: Lack, have: u64, need: u64 },
    /// A part of the path, a record or a stream isn't there.
    NotFound { what: Missing },
    /// A stream is compressed or encrypted: its flags.
    NotPlain { flags: u16 },
    /// An attribute of this type and record may not be written.
    Guarded { number: u64, kind: u32 },
    /// A source is longer than the stream has room for, in bytes.
    TooLong { have: u64, want: u64 },
    /// A clone image is wrong from this byte on.
    BadClone { place: u64 },
    /// A read failed.
    ReadFault,
    /// A write failed.
    WriteFault,
    /// Memory was wanting.
    NoMemory,
    /// The volume can't be mended: it breaks this rule at this record.
    CannotMend { rule: Rule, number: u64 },
}

impl Status {
    ghost use Rattle.std.specs.Prelude.{◌≡◌};
    ghost use Rattle.ntfs_run.specs.Code.{code_of};

    /// The exit status of the program.
    pub fn code(&self) -> u8
        ensures { result ≡ code_of self.now }
    {
        match self {
            Status::Done => 0,
            Status::Usage { .. } => 1,
            Status::Absent { .. } | Status::Present { .. } => 2,
            Status::NotNtfs | Status::BadGeometry { .. } | Status::ImageShort { .. } => 3,
            Status::Damaged { .. } => 4,
            Status::Dirty => 5,
            Status::ShortClusters { .. }
            | Status::ShortRun { .. }
            | Status::ShortRoom { .. }
            | Status::ShortGeometry { .. } => 6,
            Status::NotFound { .. } => 7,
            Status::NotPlain { .. } | Status::Guarded { .. } | Status::TooLong { .. } => 8,
            Status::BadClone { .. } => 9,
            Status::ReadFault => 10,
            Status::WriteFault => 11,
            Status::NoMemory => 12,
            Status::CannotMend { .. } => 13,
        }
    }
}

impl From<WordsFault> for Status {
    ghost use Rattle.std.specs.Prelude.{◌≡◌};
    ghost use Rattle.ntfs_run.specs.Outcome.{words_status};

    ghost from_gives = { λ fault status. status ≡ words_status fault };

    fn from(fault: WordsFault) -> Status {
        match fault {
            WordsFault::Usage { kind } => Status::Usage { kind },
            WordsFault::NoMemory => Status::NoMemory,
        }
    }
}

impl From<AllocError> for Status {
    ghost use Rattle.std.specs.Prelude.{◌≡◌};
    ghost use Rattle.ntfs_run.specs.declared.status.Status.TheVariants.{NoMemory};

    ghost from_gives = { λ _ status. status ≡ NoMemory };

    fn from(_error: AllocError) -> Status {
        Status::NoMemory
    }
}

impl From<ImageFault> for Status {
    ghost use Rattle.std.specs.Prelude.{◌≡◌};
    ghost use Rattle.ntfs_run.specs.Outcome.{image_status};

    ghost from_gives = { λ fault status. status ≡ image_status fault };

    fn from(fault: ImageFault) -> Status {
        match fault {
            ImageFault::NotNtfs => Status::NotNtfs,
            ImageFault::BadGeometry { field, value } => Status::BadGeometry { field, value },
            ImageFault::ImageShort { len, need } => Status::ImageShort { len, need },
            ImageFault::ReadFault => Status::ReadFault,
        }
    }
}

impl From<VolumeFault> for Status {
    ghost use Rattle.std.specs.Prelude.{◌≡◌};
    ghost use Rattle.ntfs_run.specs.Outcome.{volume_status};

    ghost from_gives = { λ fault status. status ≡ volume_status fault };

    fn from(fault: VolumeFault) -> Status {
        match fault {
            VolumeFault::NotNtfs => Status::NotNtfs,
            VolumeFault::BadGeometry { field, value } => Status::BadGeometry { field, value },
            VolumeFault::ImageShort { len, need } => Status::ImageShort { len, need },
            VolumeFault::Damaged { rule, number } => Status::Damaged { rule, number },
            VolumeFault::ReadFault => Status::ReadFault,
            VolumeFault::WriteFault => Status::WriteFault,
            VolumeFault::NoMemory => Status::NoMemory,
            VolumeFault::Absent | VolumeFault::NoAttribute => Status::Damaged {
                rule: Rule::C3,
                number: 0,
            },
        }
    }
}

impl From<ShowFault> for Status {
    ghost use Rattle.std.specs.Prelude.{◌≡◌};
    ghost use Rattle.ntfs_run.specs.Outcome.{show_status};

    ghost from_gives = { λ fault status. status ≡ show_status fault };

    fn from(fault: ShowFault) -> Status {
        match fault {
            ShowFault::NotFound { what } => Status::NotFound { what },
            ShowFault::NotPlain { flags } => Status::NotPlain { flags },
            ShowFault::Damaged { rule, number } => Status::Damaged { rule, number },
            ShowFault::ReadFault => Status::ReadFault,
            ShowFault::WriteFault => Status::WriteFault,
            ShowFault::NoMemory => Status::NoMemory,
        }
    }
}

impl From<PathFault> for Status {
    ghost use Rattle.std.specs.Prelude.{◌≡◌};
    ghost use Rattle.ntfs_run.specs.Outcome.{path_status};

    ghost from_gives = { λ fault status. status ≡ path_status fault };

    fn from(fault: PathFault) -> Status {
        match fault {
            PathFault::NotFound { what } => Status::NotFound { what },
            PathFault::Damaged { rule, number } => Status::Damaged { rule, number },
            PathFault::ReadFault => Status::ReadFault,
            PathFault::NoMemory => Status::NoMemory,
        }
    }
}

impl From<PutFault> for Status {
    ghost use Rattle.std.specs.Prelude.{◌≡◌};
    ghost use Rattle.ntfs_run.specs.Outcome.{put_status};

    ghost from_gives = { λ fault status. status ≡ put_status fault };

    fn from(fault: PutFault) -> Status {
        match fault {
            PutFault::Failed => Status::WriteFault,
            PutFault::NoMemory => Status::NoMemory,
        }
    }
}

impl From<MakeFault> for Status {
    ghost use Rattle.std.specs.Prelude.{◌≡◌};
    ghost use Rattle.ntfs_run.specs.Make.{make_status};

    ghost from_gives = { λ fault status. status ≡ make_status fault };

    fn from(fault: MakeFault) -> Status {
        match fault {
            MakeFault::WriteFault => Status::WriteFault,
            MakeFault::NoMemory => Status::NoMemory,
        }
    }
}

impl From<CheckFault> for Status {
    ghost use Rattle.std.specs.Prelude.{◌≡◌};
    ghost use Rattle.ntfs_run.specs.Outcome.{check_status};

    ghost from_gives = { λ fault status. status ≡ check_status fault };

    fn from(fault: CheckFault) -> Status {
        match fault {
            CheckFault::Damaged { rule, number } => Status::Damaged { rule, number },
            CheckFault::ReadFault => Status::ReadFault,
            CheckFault::NoMemory => Status::NoMemory,
        }
    }
}

impl From<CloneFault> for Status {
    ghost use Rattle.std.specs.Prelude.{◌≡◌};
    ghost use Rattle.ntfs_run.specs.Outcome.{clone_status};

    ghost from_gives = { λ fault status. status ≡ clone_status fault };

    fn from(fault: CloneFault) -> Status {
        match fault {
            CloneFault::BadClone { place } => Status::BadClone { place },
            CloneFault::Damaged { rule, number } => Status::Damaged { rule, number },
            CloneFault::ReadFault => Status::ReadFault,
            CloneFault::WriteFault => Status::WriteFault,
            CloneFault::NoMemory => Status::NoMemory,
        }
    }
}
