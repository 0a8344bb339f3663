//! Rule C12.

ghost use Rattle.std.specs.Prelude.{◌≡◌, None};
ghost use Rattle.ntfs_base.specs.Bytes.{cluster_at};
ghost use Rattle.ntfs_base.specs.Frames.{Gives, IfTold, OnlyReads};
ghost use Rattle.ntfs_base.specs.declared.refusal.Rule.TheVariants as rule;
ghost use Rattle.ntfs_rules.specs.Files.{c11, c12};
ghost use Rattle.ntfs_rules.specs.Outcome.{check_origin, unless_number};
ghost use Rattle.ntfs_rules.specs.Records.{c4, c7};
ghost use Rattle.ntfs_rules.specs.VolumeData.{listings, numbers, volume_data};
ghost use Rattle.ntfs_volume.specs.Opened.{HasClusters};

use crate::asked::Streams;
use ntfs_base::{Image, Rule};
use ntfs_check_records::ask_all;
use ntfs_rules::CheckFault;
use ntfs_volume::Table;
use std::alloc::Global;

/// Rule C12: in each base record, attributes of one type and name are one stream.
pub fn check_streams<G: Image>(
    alloc: Global,
    image: &mut G,
    table: &Table,
) -> Result<(), CheckFault>
    requires held { HasClusters (G.seen image.old).size table.now }
    ensures gives { IfTold G.Image image.old (λ content.
        c4 (volume_data table.now (cluster_at content table.now.geometry.cluster)).slots ≡ None
        → c7 (numbers (volume_data table.now (cluster_at content table.now.geometry.cluster))) ≡ None
        → c11 (listings (volume_data table.now (cluster_at content table.now.geometry.cluster)))
        (volume_data table.now (cluster_at content table.now.geometry.cluster)).slots ≡ None
        → Gives check_origin (λ done. done) (unless_number rule.C12
        (c12 (volume_data table.now (cluster_at content table.now.geometry.cluster)).geometry.cluster
        (listings (volume_data table.now (cluster_at content table.now.geometry.cluster)))
        (numbers (volume_data table.now (cluster_at content table.now.geometry.cluster)))) tt) result) }
    ensures reads { OnlyReads G.Image check_origin image.old image.new result }
{
    ask_all(alloc, image, table, &Streams, Rule::C12)
}
