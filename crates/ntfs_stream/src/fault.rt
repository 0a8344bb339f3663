use ntfs_base::{Failed, PutFault};

/// Why a stream wasn't read whole.
#[derive(Clone, Copy, Debug, PartialEq, Eq)]
pub enum StreamFault {
    /// The stream is compressed or encrypted: its flags.
    NotPlain { flags: u16 },
    ReadFault,
    WriteFault,
    NoMemory,
}

impl From<PutFault> for StreamFault {
    ghost use Rattle.std.specs.Prelude.{◌≡◌};
    ghost use Rattle.ntfs_stream.specs.Fault.{sink_fault};

    ghost from_gives = { λ fault stream. stream ≡ sink_fault fault };

    fn from(fault: PutFault) -> StreamFault {
        match fault {
            PutFault::Failed => StreamFault::WriteFault,
            PutFault::NoMemory => StreamFault::NoMemory,
        }
    }
}

impl From<Failed> for StreamFault {
    ghost use Rattle.std.specs.Prelude.{◌≡◌};
    ghost use Rattle.ntfs_stream.specs.declared.fault.StreamFault.TheVariants.{ReadFault};

    ghost from_gives = { λ _ stream. stream ≡ ReadFault };

    fn from(_: Failed) -> StreamFault {
        StreamFault::ReadFault
    }
}
