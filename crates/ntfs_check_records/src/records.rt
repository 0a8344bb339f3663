//! Records with views of what they say.

ghost use Rattle.std.specs.Prelude.{◌≡◌, length, Some, IfErr};
ghost use Rattle.ntfs_base.specs.Bytes.{cluster_at};
ghost use Rattle.ntfs_base.specs.Frames.{IfTold, IsSettled, OnlyReads};
ghost use Rattle.ntfs_check_records.specs.Reading.{IsView, ReadsView, records_of};
ghost use Rattle.ntfs_fixup.specs.Fixups.{HasWholeStrides};
ghost use Rattle.ntfs_record.specs.Slots as slots;
ghost use Rattle.ntfs_rules.specs.Outcome.{check_origin};
ghost use Rattle.ntfs_volume.specs.Located.{located_slot, slot_at};
ghost use Rattle.ntfs_volume.specs.Opened.{HasClusters};

use ntfs_base::Image;
use ntfs_fixup::{Magic, unfix};
use ntfs_record::{RecordView, is_in_use, parse};
use ntfs_rules::{CheckFault, cut_of};
use ntfs_volume::Table;

/// The record tells no other number than its own.
pub fn tells_own(told: Option<u32>, number: u64) -> bool
    ensures { result ≡ slots.tells_own number told }
{
    match told {
        None => true,
        Some(own) => u64::from(own) == number,
    }
}

/// A view of the record of a number, which has these bytes, which are unfixed in place: none where it isn't in use, or
/// something is wrong with it.
pub fn sound_record<'a>(number: u64, raw: &'a mut [u8]) -> Option<RecordView<'a>>
    requires { HasWholeStrides raw.old }
    ensures { IsView (located_slot number (Some raw.old)) result }
{
    if !is_in_use(raw) {
        return None;
    }
    if unfix(raw, Magic::File).is_err() {
        return None;
    }
    match parse(raw) {
        Err(_) => None,
        Ok(view) => {
            if tells_own(view.number(), number) {
                Some(view)
            } else {
                None
            }
        }
    }
}

/// Reads the record of a number: none where it isn't in use, or something is wrong with it.
pub fn read_sound<'a, G: Image>(
    image: &mut G,
    table: &Table,
    number: u64,
    block: &'a mut [u8],
) -> Result<Option<RecordView<'a>>, CheckFault>
    requires held { HasClusters (G.seen image.old).size table.now }
    requires block { length block.old ≡ table.now.geometry.record_size }
    requires strides { HasWholeStrides block.old }
    ensures found { IfTold G.Image image.old (λ content. ReadsView
        (slot_at (records_of table.now (cluster_at content table.now.geometry.cluster)) number) result) }
    ensures cut { IfErr result (λ fault. IsSettled (check_origin fault) → ⊥) }
    ensures reads { OnlyReads G.Image check_origin image.old image.new result }
{
    match table.read_record(image, number, block) {
        Err(fault) => match cut_of(fault) {
            Some(cut) => Err(cut),
            None => Ok(None),
        },
        Ok(()) => match parse(block) {
            Err(_) => Ok(None),
            Ok(view) => Ok(Some(view)),
        },
    }
}
