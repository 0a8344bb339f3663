//! Rules C13 and C14.

ghost use Rattle.std.specs.Prelude.{◌≡◌};
ghost use Rattle.ntfs_base.specs.Bytes.{cluster_at};
ghost use Rattle.ntfs_base.specs.Frames.{Gives, IfTold, OnlyReads};
ghost use Rattle.ntfs_base.specs.declared.refusal.Rule.TheVariants as rule;
ghost use Rattle.ntfs_check_directories.specs.Asked.{first_unordered};
ghost use Rattle.ntfs_rules.specs.Directories.{c13, c14};
ghost use Rattle.ntfs_rules.specs.Outcome.{check_origin, unless_number};
ghost use Rattle.ntfs_rules.specs.VolumeData.{contents, listings, volume_data};
ghost use Rattle.ntfs_volume.specs.Opened.{HasClusters};

use crate::asked::Asked;
use ntfs_base::{Image, Rule};
use ntfs_check_records::ask_all;
use ntfs_directory::read_up_case;
use ntfs_rules::{CheckFault, cut_of, damaged};
use ntfs_upcase::UpCase;
use ntfs_volume::Table;
use std::alloc::Global;

/// The record of $UpCase.
const UP_CASE: u64 = 10;

/// The first directory that isn't in order under a table breaks rule C13.
fn check_under<G: Image>(
    alloc: Global,
    image: &mut G,
    table: &Table,
    upper: &UpCase,
) -> Result<(), CheckFault>
    requires held { HasClusters (G.seen image.old).size table.now }
    ensures gives { IfTold G.Image image.old (λ content. Gives check_origin (λ done. done)
        (unless_number rule.C13 (first_unordered table.now content upper.now) tt) result) }
    ensures reads { OnlyReads G.Image check_origin image.old image.new result }
{
    ask_all(alloc, image, table, &Asked::Order { upper }, Rule::C13)
}

/// Rule C13: record 10 has the table of upper-case units, and each directory has an index whose walk is whole, with
/// names that ascend by the table, none twice. It presumes no rule before it.
pub fn check_orders<G: Image>(alloc: Global, image: &mut G, table: &Table) -> Result<(), CheckFault>
    requires held { HasClusters (G.seen image.old).size table.now }
    ensures gives { IfTold G.Image image.old (λ content.
        let v = volume_data table.now (cluster_at content table.now.geometry.cluster) in
        Gives check_origin (λ done. done)
        (unless_number rule.C13 (c13 v.geometry (listings v) (contents v)) tt) result) }
    ensures reads { OnlyReads G.Image check_origin image.old image.new result }
{
    match read_up_case(alloc, image, table) {
        Err(fault) => match cut_of(fault) {
            Some(cut) => Err(cut),
            None => Err(damaged(Rule::C13, UP_CASE)),
        },
        Ok(upper) => check_under(alloc, image, table, &upper),
    }
}

/// Rule C14: each entry of each directory leads to a base record in use that has its name, in this directory and in
/// the entry's namespace. It presumes no rule before it; of a walk with a fault the entries before the fault count.
pub fn check_names_of_entries<G: Image>(
    alloc: Global,
    image: &mut G,
    table: &Table,
) -> Result<(), CheckFault>
    requires held { HasClusters (G.seen image.old).size table.now }
    ensures gives { IfTold G.Image image.old (λ content.
        let v = volume_data table.now (cluster_at content table.now.geometry.cluster) in
        Gives check_origin (λ done. done)
        (unless_number rule.C14 (c14 v.geometry (listings v) (contents v)) tt) result) }
    ensures reads { OnlyReads G.Image check_origin image.old image.new result }
{
    ask_all(alloc, image, table, &Asked::Names, Rule::C14)
}
