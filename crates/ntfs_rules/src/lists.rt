//! What is known of records with fixed numbers.

ghost use Rattle.std.specs.Prelude.{◌≡◌, IfErr, IfOk};
ghost use Rattle.ntfs_base.specs.Bytes.{cluster_at};
ghost use Rattle.ntfs_base.specs.Frames.{IfTold, IsSettled, OnlyReads};
ghost use Rattle.ntfs_rules.specs.Outcome.{check_origin};
ghost use Rattle.ntfs_rules.specs.Content.{has_list_attribute};
ghost use Rattle.ntfs_volume.specs.Located.{slots_of};
ghost use Rattle.ntfs_volume.specs.Opened.{HasClusters};
ghost use Rattle.ntfs_volume.specs.Streams.{lists_of};

use crate::fault::{CheckFault, cut_of};
use ntfs_base::Image;
use ntfs_record::{RecordView, parse};
use ntfs_volume::Table;
use ntfs_volume::laws::records_are_slots;
use std::alloc::Global;

/// A record has an attribute list.
fn has_list_attribute(view: &RecordView<'_>) -> bool
    ensures { result ≡ has_list_attribute view.now }
{
    'attributes: for attribute in view.attributes() {
        if attribute.kind == 0x20 {
            return true;
        }
    }
    false
}

/// The record of a number has an attribute list; one that isn't in use, or can't be read, has none.
pub fn has_list<G: Image>(
    alloc: Global,
    image: &mut G,
    table: &Table,
    number: u64,
) -> Result<bool, CheckFault>
    requires held { HasClusters (G.seen image.old).size table.now }
    ensures found { IfTold G.Image image.old (λ content. IfOk result (λ is. is
        ≡ (lists_of table.now.geometry (cluster_at content table.now.geometry.cluster)
        (slots_of table.now.geometry table.now.map (cluster_at content table.now.geometry.cluster)) number).is_there)) }
    ensures cut { IfErr result (λ fault. IsSettled (check_origin fault) → ⊥) }
    ensures reads { OnlyReads G.Image check_origin image.old image.new result }
{
    records_are_slots();
    let mut block = vec![in alloc; 0; table.geometry().record_size as usize]?;
    match table.read_record(image, number, &mut block) {
        Err(fault) => match cut_of(fault) {
            Some(cut) => Err(cut),
            None => Ok(false),
        },
        Ok(()) => match parse(&block) {
            Err(_) => Ok(false),
            Ok(view) => Ok(has_list_attribute(&view)),
        },
    }
}
