//! The name of an entry in the file of a base record.

ghost use Rattle.std.specs.Prelude.{◌≡◌, [], false, map, IfErr, IfOk};
ghost use Rattle.std.specs.List.{list_any};
ghost use Rattle.ntfs_base.specs.Bytes.{cluster_at};
ghost use Rattle.ntfs_base.specs.Frames.{IfTold, IsSettled, OnlyReads};
ghost use Rattle.ntfs_check_directories.specs.Names as spec;
ghost use Rattle.ntfs_record.specs.Views.{placed_of, shown_placed};
ghost use Rattle.ntfs_rules.specs.Directories.{file_name_kind};
ghost use Rattle.ntfs_rules.specs.Outcome.{check_origin};
ghost use Rattle.ntfs_volume.specs.Gather.{extents_in};
ghost use Rattle.ntfs_volume.specs.Gathering.{file_lists};
ghost use Rattle.ntfs_volume.specs.Located.{sound_located};
ghost use Rattle.ntfs_volume.specs.Opened.{HasClusters};

use crate::list::{Base, name_in_list};
use crate::name::{Sought, shows_name};
use ntfs_base::Image;
use ntfs_record::RecordView;
use ntfs_rules::CheckFault;
use ntfs_volume::{Table, Wanted, first_of};
use std::alloc::Global;

/// One of a record's own attributes is the name.
fn own_name(sought: &Sought<'_>, view: &RecordView<'_>) -> bool
    ensures { result ≡ list_any (spec.shows_name sought.now) (map shown_placed (placed_of view.now)) }
{
    'attributes: for attribute in view.attributes() {
        if shows_name(sought, &attribute) {
            return true;
        }
    }
    false
}

/// One of the attributes of the file of a base record is the name, and all $FILE_NAMEs of it are found.
pub(crate) fn file_has_name<G: Image>(
    alloc: Global,
    image: &mut G,
    table: &Table,
    sought: &Sought<'_>,
    base: Base,
    view: &RecordView<'_>,
) -> Result<bool, CheckFault>
    requires held { HasClusters (G.seen image.old).size table.now }
    requires sequence { base.sequence ≡ view.now.head.sequence }
    ensures found { IfTold G.Image image.old (λ content. IfOk result (λ is. is ≡ spec.have_sought false sought.now
        (extents_in base.number file_name_kind []
        (file_lists table.now.geometry (cluster_at content table.now.geometry.cluster) view.now)
        (sound_located view.now) (spec.records_in table.now content)))) }
    ensures cut { IfErr result (λ fault. IsSettled (check_origin fault) → ⊥) }
    ensures reads { OnlyReads G.Image check_origin image.old image.new result }
{
    match first_of(view, Wanted::List) {
        None => Ok(own_name(sought, view)),
        Some(list) => name_in_list(alloc, image, table, sought, base, view, &list),
    }
}
