//! The order of a directory.

ghost use Rattle.std.specs.Prelude.{◌≡◌, None, IfErr, IfOk};
ghost use Rattle.ntfs_base.specs.Frames.{IfTold, IsSettled, OnlyReads};
ghost use Rattle.ntfs_directory.specs.Directory.{directory_walk};
ghost use Rattle.ntfs_directory.specs.State.{IsOn, answered, left_of};
ghost use Rattle.ntfs_rules.specs.Directories as rules;
ghost use Rattle.ntfs_rules.specs.Outcome.{check_origin};
ghost use Rattle.ntfs_volume.specs.Opened.{HasClusters};

use crate::row::Row;
use ntfs_base::Image;
use ntfs_directory::{Directory, name_in_key, open_directory};
use ntfs_rules::{CheckFault, cut_of};
use ntfs_upcase::UpCase;
use ntfs_volume::Table;
use std::alloc::Global;

/// What is left of a walk is whole, and its names ascend, none twice.
fn is_rest_ordered<G: Image>(
    alloc: Global,
    image: &mut G,
    table: &Table,
    directory: &mut Directory,
    upper: &UpCase,
) -> Result<bool, CheckFault>
    requires held { HasClusters (G.seen image.old).size table.now }
    requires on { IsOn table.now.geometry directory.old }
    requires sound { answered directory.old ≡ None }
    ensures found { IfTold G.Image image.old (λ content. IfOk result (λ is.
        is ≡ rules.is_ordered upper.now (left_of table.now.geometry content directory.old))) }
    ensures cut { IfErr result (λ fault. IsSettled (check_origin fault) → ⊥) }
    ensures reads { OnlyReads G.Image check_origin image.old image.new result }
{
    let mut row = Row::new(alloc);
    'entries: loop {
        match directory.next(image, table) {
            Err(fault) => {
                return match cut_of(fault) {
                    Some(cut) => Err(cut),
                    None => Ok(false),
                };
            }
            Ok(None) => return Ok(true),
            Ok(Some(_)) => {
                if !row.take(alloc, upper, name_in_key(directory.key()))? {
                    return Ok(false);
                }
            }
        }
    }
}

/// The directory of a number is whole, and its names ascend, none twice.
pub(crate) fn is_ordered<G: Image>(
    alloc: Global,
    image: &mut G,
    table: &Table,
    upper: &UpCase,
    number: u64,
) -> Result<bool, CheckFault>
    requires held { HasClusters (G.seen image.old).size table.now }
    ensures found { IfTold G.Image image.old (λ content. IfOk result (λ is.
        is ≡ rules.is_ordered upper.now (directory_walk table.now.geometry table.now.map content number))) }
    ensures cut { IfErr result (λ fault. IsSettled (check_origin fault) → ⊥) }
    ensures reads { OnlyReads G.Image check_origin image.old image.new result }
{
    match open_directory(alloc, image, table, number) {
        Err(fault) => match cut_of(fault) {
            Some(cut) => Err(cut),
            None => Ok(false),
        },
        Ok(mut directory) => is_rest_ordered(alloc, image, table, &mut directory, upper),
    }
}
