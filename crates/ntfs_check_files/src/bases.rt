//! Base references.

ghost use Rattle.std.specs.Prelude.{◌≡◌, ◌==◌, ◌&&◌, ◌||◌, None};
ghost use Rattle.ntfs_volume.specs.References as references;
ghost use Rattle.ntfs_base.specs.Bytes.{cluster_at};
ghost use Rattle.ntfs_base.specs.Frames.{IfTold, OnlyReads};
ghost use Rattle.ntfs_check_records.specs.Reading.{records_of};
ghost use Rattle.ntfs_check_records.specs.Reading.{Answers};
ghost use Rattle.ntfs_rules.specs.Files as files;
ghost use Rattle.ntfs_rules.specs.Outcome.{check_origin};
ghost use Rattle.ntfs_rules.specs.Records.{c4};
ghost use Rattle.ntfs_volume.specs.Opened.{HasClusters};

use ntfs_base::Image;
use ntfs_check_records::read_sound;
use ntfs_record::RecordView;
use ntfs_rules::CheckFault;
use ntfs_volume::{Table, matches, target};
use std::alloc::Global;

/// A record that was read is a base record to which a reference matches.
fn is_base_for(reference: u64, view: &RecordView<'_>) -> bool
    ensures { result ≡ ((view.now.head.base == 0)
        && references.matches reference (references.target reference) view.now.head.sequence) }
{
    view.base() == 0 && matches(reference, target(reference), view.sequence())
}

/// A reference matches a base record in use.
fn names_base<G: Image>(
    alloc: Global,
    image: &mut G,
    table: &Table,
    reference: u64,
) -> Result<bool, CheckFault>
    requires held { HasClusters (G.seen image.old).size table.now }
    ensures answers { IfTold G.Image image.old (λ content.
        c4 (records_of table.now (cluster_at content table.now.geometry.cluster)) ≡ None
        → Answers (files.names_base (records_of table.now (cluster_at content table.now.geometry.cluster)) reference)
        result) }
    ensures reads { OnlyReads G.Image check_origin image.old image.new result }
{
    let mut block = vec![in alloc; 0; table.geometry().record_size as usize]?;
    match read_sound(image, table, target(reference), &mut block) {
        Err(fault) => Err(fault),
        Ok(None) => Ok(false),
        Ok(Some(view)) => Ok(is_base_for(reference, &view)),
    }
}

/// The base reference of a record, where it has one, matches a base record in use.
pub(crate) fn has_named_base<G: Image>(
    alloc: Global,
    image: &mut G,
    table: &Table,
    view: &RecordView<'_>,
) -> Result<bool, CheckFault>
    requires held { HasClusters (G.seen image.old).size table.now }
    ensures answers { IfTold G.Image image.old (λ content.
        c4 (records_of table.now (cluster_at content table.now.geometry.cluster)) ≡ None
        → Answers ((view.now.head.base == 0) || files.names_base
        (records_of table.now (cluster_at content table.now.geometry.cluster)) view.now.head.base) result) }
    ensures reads { OnlyReads G.Image check_origin image.old image.new result }
{
    let reference = view.base();
    if reference == 0 {
        return Ok(true);
    }
    names_base(alloc, image, table, reference)
}
