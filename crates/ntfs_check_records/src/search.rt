//! The first record of a volume of which what is asked doesn't hold.

ghost use Rattle.std.specs.Prelude.{◌≡◌, ◌≤◌, ◌<◌, ◌+◌, ◌*◌, ◌/◌, ◌^◌, length, min, vec_len, IfOk, OnOk};
ghost use Rattle.ntfs_base.specs.Bytes.{cluster_at};
ghost use Rattle.ntfs_base.specs.Frames.{Gives, IfTold, OnlyReads};
ghost use Rattle.ntfs_check_records.specs.Asked.{FindsRefused, SearchesFailing, asked_at, first_refused};
ghost use Rattle.ntfs_rules.specs.Outcome.{check_origin, unless_number};
ghost use Rattle.ntfs_fixup.specs.Fixups.{HasWholeStrides};
ghost use Rattle.ntfs_volume.specs.Opened.{HasClusters};
ghost use Rattle.ntfs_volume.specs.Scan.{HoldRecords, scan_at, taken_count};

use crate::question::Question;
use ntfs_base::{Image, Rule};
use ntfs_rules::{CheckFault, damaged};
use ntfs_volume::{Scan, Table};
use std::alloc::{AllocError, Global};

/// The most bytes of records that are read at once.
const MOST_BYTES: u64 = 1 << 20;

/// A buffer for as many records of a size as there are, within the bound.
pub fn buffer_for(alloc: Global, size: u64, count: u64) -> Result<Vec<u8>, AllocError>
    requires { 1024 ≤ size }
    ensures room { IfOk result (λ buffer. vec_len buffer ≡ min count (2 ^ 20 / size) * size) }
{
    let records = count.min(MOST_BYTES / size);
    vec![in alloc; 0; (records * size) as usize]
}

/// The first of so many records that stand one behind the other, from that of a number on, that doesn't pass. Each is
/// copied into a block, where it is unfixed.
fn first_in<G: Image, Q: Question>(
    alloc: Global,
    image: &mut G,
    table: &Table,
    asked: &Q,
    number: u64,
    count: u64,
    raws: &[u8],
    block: &mut [u8],
) -> Result<Option<u64>, CheckFault>
    requires held { HasClusters (G.seen image.old).size table.now }
    requires block { length block.old ≡ table.now.geometry.record_size }
    requires strides { HasWholeStrides block.old }
    requires room { count * length block.old ≤ length raws.now }
    requires few { number + count < 2 ^ 64 }
    ensures found { IfTold G.Image image.old (λ content.
        Q.presumes asked.now table.now content
        → HoldRecords table.now.geometry table.now.map (cluster_at content table.now.geometry.cluster) number count
        raws.now
        → SearchesFailing (asked_at (Q.answer asked.now table.now content) table.now
        (cluster_at content table.now.geometry.cluster))
        number (number + count) result) }
    ensures long { length block.new ≡ length block.old }
    ensures reads { OnlyReads G.Image check_origin image.old image.new result }
{
    let size = block.len();
    let mut index = 0u64;
    'records: while index < count {
        let place = index as usize * size;
        block.copy_from_slice(&raws[place..place + size]);
        match asked.passes(alloc, image, table, number + index, block) {
            Err(fault) => return Err(fault),
            Ok(passed) => {
                if !passed {
                    return Ok(Some(number + index));
                }
            }
        }
        index += 1;
    }
    Ok(None)
}

/// The first of the records that come next in a scan that doesn't pass, of as many as the buffer has room for.
fn next_failing<G: Image, Q: Question>(
    alloc: Global,
    image: &mut G,
    table: &Table,
    scan: &mut Scan<'_>,
    asked: &Q,
    buffer: &mut [u8],
    block: &mut [u8],
) -> Result<Option<u64>, CheckFault>
    requires held { HasClusters (G.seen image.old).size table.now }
    requires table { scan.old.table ≡ table.now }
    requires block { length block.old ≡ table.now.geometry.record_size }
    requires strides { HasWholeStrides block.old }
    requires few { scan.old.next < 2 ^ 32 }
    ensures found { IfTold G.Image image.old (λ content.
        Q.presumes asked.now table.now content
        → SearchesFailing (asked_at (Q.answer asked.now table.now content) table.now
        (cluster_at content table.now.geometry.cluster))
        scan.old.next (scan.old.next + taken_count scan.old (length buffer.old)) result) }
    ensures next { OnOk result (scan.new
        ≡ scan_at table.now (scan.old.next + taken_count scan.old (length buffer.old))) }
    ensures long { length block.new ≡ length block.old }
    ensures reads { OnlyReads G.Image check_origin image.old image.new result }
{
    let number = scan.next_number();
    match scan.fill(image, buffer) {
        Err(_) => Err(CheckFault::ReadFault),
        Ok(count) => first_in(alloc, image, table, asked, number, count, buffer, block),
    }
}

/// The first record of a volume that doesn't pass. Every record that lies wholly in the initialised part of $MFT is
/// read once, by way of one buffer of at most a mebibyte, up to the one that is found.
fn first_failing<G: Image, Q: Question>(
    alloc: Global,
    image: &mut G,
    table: &Table,
    asked: &Q,
) -> Result<Option<u64>, CheckFault>
    requires held { HasClusters (G.seen image.old).size table.now }
    ensures found { IfTold G.Image image.old (λ content.
        Q.presumes asked.now table.now content
        → FindsRefused (first_refused (Q.answer asked.now table.now content) table.now
        (cluster_at content table.now.geometry.cluster)) result) }
    ensures reads { OnlyReads G.Image check_origin image.old image.new result }
{
    let count = table.initialised_count();
    let size = table.geometry().record_size;
    let mut buffer = buffer_for(alloc, u64::from(size), count)?;
    let mut block = vec![in alloc; 0; size as usize]?;
    let mut scan = table.scan();
    'fills: while scan.next_number() < count {
        let found = next_failing(
            alloc,
            image,
            table,
            &mut scan,
            asked,
            &mut buffer,
            &mut block,
        )?;
        if found.is_some() {
            return Ok(found);
        }
    }
    Ok(None)
}

/// Whether what is asked holds of all records in use, or which is the first of which it doesn't: that one breaks a
/// rule.
pub fn ask_all<G: Image, Q: Question>(
    alloc: Global,
    image: &mut G,
    table: &Table,
    asked: &Q,
    rule: Rule,
) -> Result<(), CheckFault>
    requires held { HasClusters (G.seen image.old).size table.now }
    ensures gives { IfTold G.Image image.old (λ content.
        Q.presumes asked.now table.now content
        → Gives check_origin (λ done. done) (unless_number rule (first_refused
        (Q.answer asked.now table.now content) table.now (cluster_at content table.now.geometry.cluster)) tt) result) }
    ensures reads { OnlyReads G.Image check_origin image.old image.new result }
{
    match first_failing(alloc, image, table, asked) {
        Err(fault) => Err(fault),
        Ok(None) => Ok(()),
        Ok(Some(number)) => Err(damaged(rule, number)),
    }
}
