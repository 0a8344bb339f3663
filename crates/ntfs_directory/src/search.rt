//! The entry of a name in a directory.

ghost use Rattle.std.specs.Prelude.{◌≡◌, None, length};
ghost use Rattle.ntfs_base.specs.Frames.{Gives, IfTold, OnlyReads};
ghost use Rattle.ntfs_directory.specs.Paths as spec;
ghost use Rattle.ntfs_directory.specs.State.{IsOn, answered, left_of};
ghost use Rattle.ntfs_volume.specs.Fault.{volume_origin};
ghost use Rattle.ntfs_volume.specs.Opened.{HasClusters};

use crate::directory::{Directory, open_directory};
use crate::entries::{EntryRecord, name_in_key, read_entry};
use ntfs_base::Image;
use ntfs_upcase::UpCase;
use ntfs_volume::{Table, VolumeFault};
use std::alloc::Global;

/// The reference of a name in what is left of a walk: of the first entry with the same units, which ends the walk, else
/// of the first that is the same name under a table of upper-case units.
fn find_name<G: Image>(
    image: &mut G,
    table: &Table,
    directory: &mut Directory,
    upper: &UpCase,
    name: &[u8],
) -> Result<Option<u64>, VolumeFault>
    requires held { HasClusters (G.seen image.old).size table.now }
    requires on { IsOn table.now.geometry directory.old }
    requires sound { answered directory.old ≡ None }
    ensures gives { IfTold G.Image image.old (λ content. Gives volume_origin (λ found. found)
        (spec.named_in upper.now name.now (left_of table.now.geometry content directory.old)) result) }
    ensures reads { OnlyReads G.Image volume_origin image.old image.new result }
{
    let mut like = None;
    'entries: loop {
        match directory.next(image, table)? {
            None => return Ok(like),
            Some(entry) => {
                let met = name_in_key(directory.key());
                if met == name {
                    return Ok(Some(entry.reference));
                }
                like = like_entry(like, upper.same_name(met, name), entry.reference);
            }
        }
    }
}

/// The first reference that is alike.
fn like_entry(like: Option<u64>, is_like: bool, reference: u64) -> Option<u64>
    ensures { result ≡ spec.or_like like is_like reference }
{
    match like {
        Some(first) => Some(first),
        None => { if is_like { Some(reference) } else { None } }
    }
}

/// The reference of a name in the directory of a number, where it has one.
fn find_reference<G: Image>(
    alloc: Global,
    image: &mut G,
    table: &Table,
    upper: &UpCase,
    number: u64,
    name: &[u8],
) -> Result<Option<u64>, VolumeFault>
    requires held { HasClusters (G.seen image.old).size table.now }
    ensures gives { IfTold G.Image image.old (λ content. Gives volume_origin (λ found. found)
        (spec.reference_in table.now.geometry table.now.map content upper.now number name.now) result) }
    ensures reads { OnlyReads G.Image volume_origin image.old image.new result }
{
    match open_directory(alloc, image, table, number) {
        Err(fault) => Err(fault),
        Ok(mut directory) => find_name(image, table, &mut directory, upper, name),
    }
}

/// The record of a name in the directory of a number, where it has one, through a buffer of one record.
pub(crate) fn find_in<G: Image>(
    alloc: Global,
    image: &mut G,
    table: &Table,
    upper: &UpCase,
    number: u64,
    name: &[u8],
    block: &mut [u8],
) -> Result<Option<EntryRecord>, VolumeFault>
    requires held { HasClusters (G.seen image.old).size table.now }
    requires block { length block.old ≡ table.now.geometry.record_size }
    ensures gives { IfTold G.Image image.old (λ content. Gives volume_origin (λ found. found)
        (spec.entry_found table.now.geometry table.now.map content upper.now number name.now) result) }
    ensures reads { OnlyReads G.Image volume_origin image.old image.new result }
{
    match find_reference(alloc, image, table, upper, number, name) {
        Err(fault) => Err(fault),
        Ok(None) => Ok(None),
        Ok(Some(reference)) => match read_entry(image, table, number, reference, block) {
            Err(fault) => Err(fault),
            Ok(found) => Ok(Some(found)),
        },
    }
}
