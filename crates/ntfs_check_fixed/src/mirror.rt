//! Rule C16: the first four records of $MFT have copies in the mirror.

ghost use Rattle.std.specs.Prelude.{◌≡◌, ◌≤◌, ◌<◌, ◌%◌, ◌*◌, ◌∷◌, [], length, map, take, if◌then◌else◌, Some, None};
ghost use Rattle.ntfs_base.specs.Bytes.{cluster_at, stream};
ghost use Rattle.ntfs_base.specs.Checks.{first_wrong};
ghost use Rattle.ntfs_base.specs.Frames.{Gives, IfTold, IsJudged, OnlyReads};
ghost use Rattle.ntfs_base.specs.declared.refusal.Rule.TheVariants as rule;
ghost use Rattle.ntfs_check_fixed.specs.Copies.{copy_check, is_copied, is_same_at};
ghost use Rattle.ntfs_directory.specs.UpCase.{data_kind};
ghost use Rattle.ntfs_fixup.specs.Fixups.{HasWholeStrides};
ghost use Rattle.ntfs_rules.specs.FixedRecords.{c16, is_copy, unfixed_in};
ghost use Rattle.ntfs_rules.specs.Outcome.{check_origin, unless_number};
ghost use Rattle.ntfs_rules.specs.VolumeData.{bytes_found, content_in, table_bytes, volume_data};
ghost use Rattle.ntfs_volume.specs.Opened.{HasClusters};

use crate::fixed::find_stream;
use ntfs_base::{Image, Rule};
use ntfs_fixup::{Magic, array_count, array_offset, unfix};
use ntfs_record::layout::in_use_of;
use ntfs_rules::{CheckFault, damaged, read_front};
use ntfs_volume::Table;
use std::alloc::Global;

/// A byte is the same in both records, or lies in the fixup array of the first.
#[tactic(auto, unfolding(ntfs_rules::specs::FixedRecords::is_in_array))]
fn is_same_at(block: &[u8], copy: &[u8], place: usize) -> bool
    requires block { place < length block.now }
    requires copy { place < length copy.now }
    requires header { 48 ≤ length block.now }
    ensures { result ≡ is_same_at block.now copy.now place }
{
    let begin = usize::from(array_offset(block));
    let end = begin + 2 * usize::from(array_count(block));
    (begin <= place && place < end) || copy[place] == block[place]
}

/// Two records are the same in the bytes in use of the first but for its fixup array.
pub(crate) fn is_copy(block: &[u8], copy: &[u8]) -> bool
    requires header { 48 ≤ length block.now }
    requires long { length copy.now ≡ length block.now }
    ensures { result ≡ is_copy block.now copy.now }
{
    let end = (in_use_of(block) as usize).min(block.len());
    'bytes: for place in 0..end {
        if !is_same_at(block, copy, place) {
            return false;
        }
    }
    true
}

/// Takes the record of a number out of these bytes and unfixes it, where it is there and is whole.
fn take_record(bytes: &[u8], number: u8, into: &mut [u8]) -> bool
    requires { HasWholeStrides into.old }
    ensures { (if result then Some into.new else None) ≡ unfixed_in (length into.old) bytes.now number }
{
    let begin = usize::from(number) * into.len();
    let end = begin + into.len();
    if bytes.len() < end {
        return false;
    }
    into.copy_from_slice(&bytes[begin..end]);
    match unfix(into, Magic::File) {
        Ok(()) => true,
        Err(_) => false,
    }
}

/// A record that is one of so many has a copy in the mirror.
fn is_copied(
    records: &[u8],
    count: u64,
    mirror: &[u8],
    number: u8,
    block: &mut [u8],
    copy: &mut [u8],
) -> bool
    requires block { HasWholeStrides block.old }
    requires copy { length copy.old ≡ length block.old }
    ensures { result ≡ is_copied (length block.old) count records.now mirror.now number }
{
    if u64::from(number) >= count
        || !take_record(records, number, block)
        || !take_record(mirror, number, copy)
    {
        return false;
    }
    is_copy(block, copy)
}

/// Refuses by the first of these records that isn't one of so many, or has no copy.
fn check_copies(
    alloc: Global,
    size: u32,
    records: &[u8],
    count: u64,
    mirror: &[u8],
    numbers: &[u8],
) -> Result<(), CheckFault>
    requires whole { size % 512 ≡ 0 }
    requires least { 1024 ≤ size }
    requires most { size ≤ 65536 }
    ensures gives { Gives check_origin (λ done. done) (unless_number rule.C16
        (first_wrong (map (copy_check size count records.now mirror.now) numbers.now)) tt) result }
    ensures judged { IsJudged check_origin result }
{
    let mut block = vec![in alloc; 0; size as usize]?;
    let mut copy = vec![in alloc; 0; size as usize]?;
    'records: for number in numbers {
        if !is_copied(records, count, mirror, *number, &mut block, &mut copy) {
            return Err(damaged(Rule::C16, u64::from(*number)));
        }
    }
    Ok(())
}

/// Refuses by the first of the four records that has no copy in these bytes.
fn check_against<G: Image>(
    alloc: Global,
    image: &mut G,
    table: &Table,
    mirror: &[u8],
) -> Result<(), CheckFault>
    requires held { HasClusters (G.seen image.old).size table.now }
    ensures gives { IfTold G.Image image.old (λ content. Gives check_origin (λ done. done) (unless_number rule.C16
        (c16 table.now.geometry.record_size (take table.now.map.valid
        (stream (cluster_at content table.now.geometry.cluster) table.now.map.clusters)) mirror.now) tt) result) }
    ensures reads { OnlyReads G.Image check_origin image.old image.new result }
{
    let size = table.geometry().record_size;
    let mut records = vec![in alloc; 0; 4 * size as usize]?;
    let mut scan = table.scan();
    match scan.fill(image, &mut records) {
        Err(_) => Err(CheckFault::ReadFault),
        Ok(count) => check_copies(alloc, size, &records, count, mirror, &[0, 1, 2, 3]),
    }
}

/// Rule C16: records 0 to 3 of $MFT have copies in the mirror.
pub fn check_mirror<G: Image>(alloc: Global, image: &mut G, table: &Table) -> Result<(), CheckFault>
    requires held { HasClusters (G.seen image.old).size table.now }
    ensures gives { IfTold G.Image image.old (λ content.
        let v = volume_data table.now (cluster_at content table.now.geometry.cluster) in
        Gives check_origin (λ done. done) (unless_number rule.C16 (c16 v.geometry.record_size (table_bytes v)
        (bytes_found v.geometry.cluster (content_in v 1 data_kind []))) tt) result) }
    ensures reads { OnlyReads G.Image check_origin image.old image.new result }
{
    let geometry = table.geometry();
    let found = find_stream(alloc, image, table, 1, 0x80, &[])?;
    match found {
        None => Err(damaged(Rule::C16, 0)),
        Some(stream) => {
            let most = 4 * u64::from(geometry.record_size);
            let front = read_front(alloc, image, geometry, &stream, most)?;
            check_against(alloc, image, table, front.bytes())
        }
    }
}
