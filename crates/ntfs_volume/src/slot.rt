//! File records in place.

ghost use Rattle.std.specs.Prelude.{◌≡◌};
ghost use Rattle.ntfs_fixup.specs.Fixups.{HasWholeStrides};
ghost use Rattle.ntfs_record.specs.Slots.{tells_own};
ghost use Rattle.ntfs_volume.specs.MftMap.{live_record};

use ntfs_fixup::{Magic, unfix};
use ntfs_record::{RecordView, is_in_use, parse};

/// The record tells no other number than its own.
pub(crate) fn tells_own(told: Option<u32>, number: u64) -> bool
    ensures { result ≡ tells_own number told }
{
    match told {
        None => true,
        Some(own) => u64::from(own) == number,
    }
}

/// A view of the record of these bytes, which are unfixed in place: none where it isn't in use, or isn't right.
pub(crate) fn live_record<'a>(raw: &'a mut [u8]) -> Option<RecordView<'a>>
    requires { HasWholeStrides raw.old }
    ensures { result ≡ live_record raw.old }
{
    if !is_in_use(raw) {
        return None;
    }
    if unfix(raw, Magic::File).is_err() {
        return None;
    }
    match parse(raw) {
        Err(_) => None,
        Ok(view) => Some(view),
    }
}
