//! The faults of a walk, as those of the volume.

ghost use Rattle.std.specs.Prelude.{◌≡◌};
ghost use Rattle.ntfs_directory.specs.Fault.{bad_entry, directory_fault, entry_refusal, unwalkable};

use ntfs_base::Rule;
use ntfs_index::IndexFault;
use ntfs_volume::VolumeFault;

/// The index of the directory of a number can't be walked.
pub(crate) fn unwalkable(number: u64) -> VolumeFault
    ensures { result ≡ unwalkable number }
{
    VolumeFault::Damaged {
        rule: Rule::C13,
        number,
    }
}

/// An entry of the directory of a number names no record that it may.
pub(crate) fn bad_entry(number: u64) -> VolumeFault
    ensures { result ≡ bad_entry number }
{
    VolumeFault::Damaged {
        rule: Rule::C14,
        number,
    }
}

/// A refusal of the record that an entry of the directory of a number names.
pub(crate) fn entry_refusal(number: u64, fault: VolumeFault) -> VolumeFault
    ensures { result ≡ entry_refusal number fault }
{
    match fault {
        VolumeFault::Absent => bad_entry(number),
        other => other,
    }
}

/// A fault of the walk of the directory of a number.
pub(crate) fn directory_fault(number: u64, fault: IndexFault) -> VolumeFault
    ensures { result ≡ directory_fault number fault }
{
    match fault {
        IndexFault::BadNode { vcn: _, rule: _ } | IndexFault::TooDeep => unwalkable(number),
        IndexFault::BlockFault => VolumeFault::ReadFault,
        IndexFault::NoMemory => VolumeFault::NoMemory,
    }
}
