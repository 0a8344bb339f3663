//! Rules C10 and C11.

ghost use Rattle.std.specs.Prelude.{◌≡◌, None};
ghost use Rattle.ntfs_base.specs.Bytes.{cluster_at};
ghost use Rattle.ntfs_base.specs.Frames.{Gives, IfTold, OnlyReads};
ghost use Rattle.ntfs_base.specs.declared.refusal.Rule.TheVariants as rule;
ghost use Rattle.ntfs_check_files.specs.Extending.{AreExtensions};
ghost use Rattle.ntfs_check_files.specs.Premises.{KeepsTen};
ghost use Rattle.ntfs_rules.specs.Files.{c10, c11};
ghost use Rattle.ntfs_rules.specs.Outcome.{check_origin, unless_number};
ghost use Rattle.ntfs_rules.specs.Records.{c4};
ghost use Rattle.ntfs_rules.specs.VolumeData.{listings, volume_data};
ghost use Rattle.ntfs_volume.specs.Opened.{HasClusters};

use crate::asked::Asked;
use crate::collect::collect_extensions;
use crate::extensions::Extensions;
use ntfs_base::{Image, Rule};
use ntfs_check_records::ask_all;
use ntfs_rules::CheckFault;
use ntfs_volume::Table;
use std::alloc::Global;

/// Rule C10: the base reference of each record that has one matches a base record in use.
pub fn check_base_references<G: Image>(
    alloc: Global,
    image: &mut G,
    table: &Table,
) -> Result<(), CheckFault>
    requires held { HasClusters (G.seen image.old).size table.now }
    ensures gives { IfTold G.Image image.old (λ content.
        c4 (volume_data table.now (cluster_at content table.now.geometry.cluster)).slots ≡ None
        → Gives check_origin (λ done. done) (unless_number rule.C10
        (c10 (volume_data table.now (cluster_at content table.now.geometry.cluster)).slots) tt) result) }
    ensures reads { OnlyReads G.Image check_origin image.old image.new result }
{
    ask_all(alloc, image, table, &Asked::Base, Rule::C10)
}

/// Rule C11, where these are the records that extend base records.
fn judge_lists<G: Image>(
    alloc: Global,
    image: &mut G,
    table: &Table,
    extensions: &Extensions,
) -> Result<(), CheckFault>
    requires held { HasClusters (G.seen image.old).size table.now }
    ensures gives { IfTold G.Image image.old (λ content.
        KeepsTen (volume_data table.now (cluster_at content table.now.geometry.cluster))
        → AreExtensions table.now (cluster_at content table.now.geometry.cluster) extensions.now
        → Gives check_origin (λ done. done) (unless_number rule.C11
        (c11 (listings (volume_data table.now (cluster_at content table.now.geometry.cluster)))
        (volume_data table.now (cluster_at content table.now.geometry.cluster)).slots) tt) result) }
    ensures reads { OnlyReads G.Image check_origin image.old image.new result }
{
    ask_all(alloc, image, table, &Asked::List { extensions }, Rule::C11)
}

/// Rule C11: a base record without an attribute list has no record that extends it, and the entries of a list are the
/// attributes that are there.
pub fn check_lists<G: Image>(alloc: Global, image: &mut G, table: &Table) -> Result<(), CheckFault>
    requires held { HasClusters (G.seen image.old).size table.now }
    ensures gives { IfTold G.Image image.old (λ content.
        KeepsTen (volume_data table.now (cluster_at content table.now.geometry.cluster))
        → Gives check_origin (λ done. done) (unless_number rule.C11
        (c11 (listings (volume_data table.now (cluster_at content table.now.geometry.cluster)))
        (volume_data table.now (cluster_at content table.now.geometry.cluster)).slots) tt) result) }
    ensures reads { OnlyReads G.Image check_origin image.old image.new result }
{
    match collect_extensions(alloc, image, table) {
        Err(fault) => Err(fault),
        Ok(extensions) => judge_lists(alloc, image, table, &extensions),
    }
}
