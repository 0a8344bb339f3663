//! The record that a path names.

ghost use Rattle.std.specs.Prelude.{◌≡◌, length, vec_len, IfOk, IfErr};
ghost use Rattle.ntfs_base.specs.Frames.{Gives, IfTold, OnlyReads};
ghost use Rattle.ntfs_directory.specs.Paths as spec;
ghost use Rattle.ntfs_volume.specs.Opened.{HasClusters};

use crate::entries::{EntryRecord, read_base};
use crate::parts::first_part;
use crate::path_fault::{PathFault, no_part, path_fault};
use crate::search::find_in;
use crate::up_case::read_up_case;
use ntfs_base::Image;
use ntfs_upcase::{UpCase, units_of};
use ntfs_volume::Table;
use std::alloc::{AllocError, Global};

/// The record of the root.
const ROOT: u64 = 5;

/// A buffer of one record.
fn zeros(alloc: Global, size: usize) -> Result<Vec<u8>, AllocError>
    ensures { IfOk result (λ bytes. vec_len bytes ≡ size) }
{
    vec![in alloc; 0; size]
}

/// The record of a part, counted from 0, which is asked of a record.
#[tactic(auto, unfolding(crate::specs::Paths::part_in))]
fn enter_part<G: Image>(
    alloc: Global,
    image: &mut G,
    table: &Table,
    upper: &UpCase,
    index: u64,
    at: EntryRecord,
    part: &str,
    block: &mut [u8],
) -> Result<EntryRecord, PathFault>
    requires held { HasClusters (G.seen image.old).size table.now }
    requires block { length block.old ≡ table.now.geometry.record_size }
    ensures gives { IfTold G.Image image.old (λ content. Gives spec.path_origin (λ found. found)
        (spec.part_in table.now.geometry table.now.map content upper.now index at part.now) result) }
    ensures listed { IfErr result spec.IsPathRefusal }
    ensures reads { OnlyReads G.Image spec.path_origin image.old image.new result }
{
    if !at.is_directory {
        return Err(no_part(index));
    }
    let name = units_of(alloc, part)?;
    match find_in(alloc, image, table, upper, at.number, &name, block) {
        Err(fault) => Err(path_fault(index, fault)),
        Ok(None) => Err(no_part(index)),
        Ok(Some(found)) => Ok(found),
    }
}

/// The record of all parts of a path, of which the first is asked of a record.
fn enter_parts<G: Image>(
    alloc: Global,
    image: &mut G,
    table: &Table,
    upper: &UpCase,
    from: EntryRecord,
    path: &str,
    block: &mut [u8],
) -> Result<EntryRecord, PathFault>
    requires held { HasClusters (G.seen image.old).size table.now }
    requires block { length block.old ≡ table.now.geometry.record_size }
    ensures gives { IfTold G.Image image.old (λ content. Gives spec.path_origin (λ found. found)
        (spec.parts_from table.now.geometry table.now.map content upper.now 0 from (spec.path_parts path.now)) result) }
    ensures listed { IfErr result spec.IsPathRefusal }
    ensures reads { OnlyReads G.Image spec.path_origin image.old image.new result }
{
    let mut at = from;
    let mut rest = path;
    let mut index = 0;
    'parts: loop {
        match first_part(rest) {
            None => return Ok(at),
            Some((part, behind)) => {
                at = enter_part(alloc, image, table, upper, index, at, part, block)?;
                rest = behind;
                index += 1;
            }
        }
    }
}

/// The record of the root.
#[tactic(auto, unfolding(crate::specs::Paths::root_record))]
fn read_root<G: Image>(
    image: &mut G,
    table: &Table,
    block: &mut [u8],
) -> Result<EntryRecord, PathFault>
    requires held { HasClusters (G.seen image.old).size table.now }
    requires block { length block.old ≡ table.now.geometry.record_size }
    ensures gives { IfTold G.Image image.old (λ content. Gives spec.path_origin (λ found. found)
        (spec.root_record table.now.geometry table.now.map content) result) }
    ensures listed { IfErr result spec.IsPathRefusal }
    ensures reads { OnlyReads G.Image spec.path_origin image.old image.new result }
{
    match read_base(image, table, ROOT, block) {
        Err(fault) => Err(path_fault(0, fault)),
        Ok(base) => Ok(EntryRecord {
            number: ROOT,
            is_directory: base.is_directory,
        }),
    }
}

/// The record of a path that has a part.
fn read_parts<G: Image>(
    alloc: Global,
    image: &mut G,
    table: &Table,
    path: &str,
    block: &mut [u8],
) -> Result<EntryRecord, PathFault>
    requires held { HasClusters (G.seen image.old).size table.now }
    requires block { length block.old ≡ table.now.geometry.record_size }
    ensures gives { IfTold G.Image image.old (λ content. Gives spec.path_origin (λ found. found)
        (spec.record_below_root table.now.geometry table.now.map content (spec.path_parts path.now)) result) }
    ensures listed { IfErr result spec.IsPathRefusal }
    ensures reads { OnlyReads G.Image spec.path_origin image.old image.new result }
{
    match read_up_case(alloc, image, table) {
        Err(fault) => Err(path_fault(0, fault)),
        Ok(upper) => match read_root(image, table, block) {
            Err(fault) => Err(fault),
            Ok(root) => enter_parts(alloc, image, table, &upper, root, path, block),
        },
    }
}

/// The record of a path.
fn read_path<G: Image>(
    alloc: Global,
    image: &mut G,
    table: &Table,
    path: &str,
    block: &mut [u8],
) -> Result<EntryRecord, PathFault>
    requires held { HasClusters (G.seen image.old).size table.now }
    requires block { length block.old ≡ table.now.geometry.record_size }
    ensures gives { IfTold G.Image image.old (λ content. Gives spec.path_origin (λ found. found)
        (spec.record_of_parts table.now.geometry table.now.map content (spec.path_parts path.now)) result) }
    ensures listed { IfErr result spec.IsPathRefusal }
    ensures reads { OnlyReads G.Image spec.path_origin image.old image.new result }
{
    match first_part(path) {
        None => read_root(image, table, block),
        Some(_) => read_parts(alloc, image, table, path, block),
    }
}

/// The number of the record that a path names, through a buffer of one record.
fn number_of<G: Image>(
    alloc: Global,
    image: &mut G,
    table: &Table,
    path: &str,
    block: &mut [u8],
) -> Result<u64, PathFault>
    requires held { HasClusters (G.seen image.old).size table.now }
    requires block { length block.old ≡ table.now.geometry.record_size }
    ensures gives { IfTold G.Image image.old (λ content. Gives spec.path_origin (λ number. number)
        (spec.path_of table.now.geometry table.now.map content path.now) result) }
    ensures listed { IfErr result spec.IsPathRefusal }
    ensures reads { OnlyReads G.Image spec.path_origin image.old image.new result }
{
    match first_part(path) {
        None => Ok(ROOT),
        Some(_) => match read_parts(alloc, image, table, path, block) {
            Err(fault) => Err(fault),
            Ok(found) => Ok(found.number),
        },
    }
}

/// The number of the record that a path names. The empty path names the root, and nothing is read for it.
///
/// It answers `NotFound` for the first part that isn't there, or is asked of a record that is no directory; `Damaged`
/// where $UpCase, a directory or a record on the way is, up to the entry that is taken.
pub fn resolve_path<G: Image>(
    alloc: Global,
    image: &mut G,
    table: &Table,
    path: &str,
) -> Result<u64, PathFault>
    requires held { HasClusters (G.seen image.old).size table.now }
    ensures gives { IfTold G.Image image.old (λ content. Gives spec.path_origin (λ number. number)
        (spec.path_of table.now.geometry table.now.map content path.now) result) }
    ensures listed { IfErr result spec.IsPathRefusal }
    ensures reads { OnlyReads G.Image spec.path_origin image.old image.new result }
{
    let mut block = zeros(alloc, table.geometry().record_size as usize)?;
    number_of(alloc, image, table, path, &mut block)
}

/// How many parts a path has.
fn count_parts(path: &str) -> u64
    ensures { result ≡ length (spec.path_parts path.now) }
{
    let mut rest = path;
    let mut count = 0;
    'parts: while let Some((_, behind)) = first_part(rest) {
        rest = behind;
        count += 1;
    }
    count
}

/// The number of the directory that a path names, through a buffer of one record.
fn directory_number<G: Image>(
    alloc: Global,
    image: &mut G,
    table: &Table,
    path: &str,
    block: &mut [u8],
) -> Result<u64, PathFault>
    requires held { HasClusters (G.seen image.old).size table.now }
    requires block { length block.old ≡ table.now.geometry.record_size }
    ensures gives { IfTold G.Image image.old (λ content. Gives spec.path_origin (λ number. number)
        (spec.directory_at table.now.geometry table.now.map content path.now) result) }
    ensures listed { IfErr result spec.IsPathRefusal }
    ensures reads { OnlyReads G.Image spec.path_origin image.old image.new result }
{
    match read_path(alloc, image, table, path, block) {
        Err(fault) => Err(fault),
        Ok(found) => {
            if !found.is_directory {
                return Err(no_part(count_parts(path)));
            }
            Ok(found.number)
        }
    }
}

/// The number of the directory that a path names, as `resolve_path` does. A path that ends at no directory lacks the
/// part that would follow.
pub fn directory_at<G: Image>(
    alloc: Global,
    image: &mut G,
    table: &Table,
    path: &str,
) -> Result<u64, PathFault>
    requires held { HasClusters (G.seen image.old).size table.now }
    ensures gives { IfTold G.Image image.old (λ content. Gives spec.path_origin (λ number. number)
        (spec.directory_at table.now.geometry table.now.map content path.now) result) }
    ensures listed { IfErr result spec.IsPathRefusal }
    ensures reads { OnlyReads G.Image spec.path_origin image.old image.new result }
{
    let mut block = zeros(alloc, table.geometry().record_size as usize)?;
    directory_number(alloc, image, table, path, &mut block)
}
