//! All records that extend base records, in one pass.

ghost use Rattle.std.specs.Prelude.{◌≡◌, ◌≤◌, ◌<◌, ◌+◌, ◌*◌, ◌^◌, ◌++◌, ℕ, List, Some, length, IfErr, IfOk, OnOk};
ghost use Rattle.ntfs_base.specs.Bytes.{cluster_at};
ghost use Rattle.ntfs_base.specs.Frames.{IfTold, IsSettled, OnlyReads};
ghost use Rattle.ntfs_check_files.specs.Extending.{AreExtensions, HasTaken, extending, number_if};
ghost use Rattle.ntfs_fixup.specs.Fixups.{HasWholeStrides};
ghost use Rattle.ntfs_rules.specs.Outcome.{check_origin};
ghost use Rattle.ntfs_survey.specs.Surveying.{record_at};
ghost use Rattle.ntfs_volume.specs.Located.{located_slot};
ghost use Rattle.ntfs_volume.specs.Opened.{HasClusters, Opened};
ghost use Rattle.ntfs_volume.specs.Scan.{HoldRecords, scan_at, taken_count};

use crate::extensions::Extensions;
use ntfs_base::Image;
use ntfs_check_records::{buffer_for, sound_record};
use ntfs_rules::CheckFault;
use ntfs_volume::{Scan, Table, target};
use std::alloc::{AllocError, Global};

/// Takes the record of a number, which has these bytes; they hold anything afterwards.
fn take_record(
    alloc: Global,
    number: u64,
    raw: &mut [u8],
    extensions: &mut Extensions,
) -> Result<(), AllocError>
    requires { HasWholeStrides raw.old }
    ensures { OnOk result ((q : ℕ) → extending extensions.new q
        ≡ extending extensions.old q ++ number_if q number (located_slot number (Some raw.old))) }
{
    match sound_record(number, raw) {
        None => Ok(()),
        Some(view) => {
            let base = view.base();
            if base == 0 {
                return Ok(());
            }
            extensions.add(alloc, target(base), number)
        }
    }
}

/// Takes so many records that stand one behind the other, from that of a number on. Each is copied into a block, where
/// it is unfixed.
fn take_records(
    alloc: Global,
    number: u64,
    count: u64,
    raws: &[u8],
    block: &mut [u8],
    extensions: &mut Extensions,
) -> Result<(), AllocError>
    requires strides { HasWholeStrides block.old }
    requires room { count * length block.old ≤ length raws.now }
    requires few { number + count < 2 ^ 64 }
    ensures taken { OnOk result ((o : Opened) (f : ℕ → List ℕ) → length block.old ≡ o.geometry.record_size
        → HoldRecords o.geometry o.map f number count raws.now
        → HasTaken (record_at o f) number count extensions.old extensions.new) }
    ensures long { length block.new ≡ length block.old }
{
    let size = block.len();
    let mut index = 0u64;
    'records: while index < count {
        let place = index as usize * size;
        block.copy_from_slice(&raws[place..place + size]);
        take_record(alloc, number + index, block, extensions)?;
        index += 1;
    }
    Ok(())
}

/// Takes the records that come next in a scan, as many as the buffer has room for.
fn take_next<G: Image>(
    alloc: Global,
    image: &mut G,
    table: &Table,
    scan: &mut Scan<'_>,
    buffer: &mut [u8],
    block: &mut [u8],
    extensions: &mut Extensions,
) -> Result<(), CheckFault>
    requires held { HasClusters (G.seen image.old).size table.now }
    requires table { scan.old.table ≡ table.now }
    requires block { length block.old ≡ table.now.geometry.record_size }
    requires strides { HasWholeStrides block.old }
    requires few { scan.old.next < 2 ^ 32 }
    ensures taken { IfTold G.Image image.old (λ content. OnOk result
        (HasTaken (record_at table.now (cluster_at content table.now.geometry.cluster)) scan.old.next
        (taken_count scan.old (length buffer.old)) extensions.old extensions.new)) }
    ensures next { OnOk result (scan.new
        ≡ scan_at table.now (scan.old.next + taken_count scan.old (length buffer.old))) }
    ensures long { length block.new ≡ length block.old }
    ensures cut { IfErr result (λ fault. IsSettled (check_origin fault) → ⊥) }
    ensures reads { OnlyReads G.Image check_origin image.old image.new result }
{
    let number = scan.next_number();
    match scan.fill(image, buffer) {
        Err(_) => Err(CheckFault::ReadFault),
        Ok(count) => match take_records(alloc, number, count, buffer, block, extensions) {
            Err(_) => Err(CheckFault::NoMemory),
            Ok(()) => Ok(()),
        },
    }
}

/// The records of a volume that extend base records. Every record that lies wholly in the initialised part of $MFT is
/// read once, by way of one buffer of at most a mebibyte; beside it there is memory for the numbers of those that do.
pub(crate) fn collect_extensions<G: Image>(
    alloc: Global,
    image: &mut G,
    table: &Table,
) -> Result<Extensions, CheckFault>
    requires held { HasClusters (G.seen image.old).size table.now }
    ensures all { IfTold G.Image image.old (λ content. IfOk result
        (AreExtensions table.now (cluster_at content table.now.geometry.cluster))) }
    ensures cut { IfErr result (λ fault. IsSettled (check_origin fault) → ⊥) }
    ensures reads { OnlyReads G.Image check_origin image.old image.new result }
{
    let count = table.initialised_count();
    let size = table.geometry().record_size;
    let mut buffer = buffer_for(alloc, u64::from(size), count)?;
    let mut block = vec![in alloc; 0; size as usize]?;
    let mut extensions = Extensions::new(alloc);
    let mut scan = table.scan();
    'fills: while scan.next_number() < count {
        if let Err(fault) = take_next(
            alloc,
            image,
            table,
            &mut scan,
            &mut buffer,
            &mut block,
            &mut extensions,
        ) {
            return Err(fault);
        }
    }
    Ok(extensions)
}
