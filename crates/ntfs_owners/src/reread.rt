//! The records of a volume read once more, one after another, for the runs that are wanted.

ghost use Rattle.std.specs.Prelude.{◌≡◌, ◌≤◌, ◌<◌, ◌+◌, ◌*◌, ◌/◌, ◌^◌, ◌++◌, ℕ, List, Some, length, map, min, vec_len, IfErr, IfOk, OnOk, if◌then◌else◌};
ghost use Rattle.ntfs_base.specs.Bytes.{cluster_at};
ghost use Rattle.ntfs_base.specs.Frames.{IfTold, OnlyReads};
ghost use Rattle.ntfs_boot.specs.Geometry.{IsGood};
ghost use Rattle.ntfs_fixup.specs.Fixups.{HasWholeStrides};
ghost use Rattle.ntfs_record.specs.Slots as slots;
ghost use Rattle.ntfs_print.specs.Fault.{show_origin};
ghost use Rattle.ntfs_owners.specs.Held.{IsCut, held_of, slot_held, slots_held, wants_record, wants_runs};
ghost use Rattle.ntfs_survey.specs.Surveying.{record_at, slots_in};
ghost use Rattle.ntfs_volume.specs.Located.{live_located, located_slot, slots_from, slots_of, sound_located, unsound_located};
ghost use Rattle.ntfs_volume.specs.Opened.{HasClusters};
ghost use Rattle.ntfs_volume.specs.Scan.{scan_at, taken_count};

use crate::held::{Wanted, add_attributes};
use crate::holding::Holding;
use ntfs_base::Image;
use ntfs_boot::Geometry;
use ntfs_fixup::{Magic, unfix};
use ntfs_print::{ShowFault, gather_refusal};
use ntfs_record::{RecordView, is_in_use, parse};
use ntfs_volume::{Scan, Table};
use std::alloc::{AllocError, Global};

/// The most bytes of records that are read at once.
const MOST_BYTES: u64 = 1 << 20;

/// The record tells no other number than its own.
fn tells_own(told: Option<u32>, number: u64) -> bool
    ensures { result ≡ slots.tells_own number told }
{
    match told {
        None => true,
        Some(own) => u64::from(own) == number,
    }
}

/// Adds what is wanted of a record that is read, unless it tells another number than its own.
fn add_view(
    alloc: Global,
    wanted: &Wanted,
    number: u64,
    view: &RecordView<'_>,
    held: &mut Vec<Holding>,
) -> Result<(), AllocError>
    ensures { OnOk result (map held_of held.new.items ≡ map held_of held.old.items
        ++ slot_held (wants_record wanted.now) (wants_runs wanted.now) number
        (if slots.tells_own number view.now.layout.number then sound_located view.now else unsound_located)) }
{
    if !tells_own(view.number(), number) {
        return Ok(());
    }
    if !wanted.wants_record(number, view.base()) {
        return Ok(());
    }
    add_attributes(alloc, wanted, number, view, held)
}

/// Adds what is wanted of the record of a number, which is in use and has these bytes, which are unfixed in place.
fn add_live(
    alloc: Global,
    wanted: &Wanted,
    number: u64,
    raw: &mut [u8],
    held: &mut Vec<Holding>,
) -> Result<(), AllocError>
    requires { HasWholeStrides raw.old }
    ensures { OnOk result (map held_of held.new.items ≡ map held_of held.old.items
        ++ slot_held (wants_record wanted.now) (wants_runs wanted.now) number
        (live_located number (slots.record_in raw.old))) }
{
    if unfix(raw, Magic::File).is_err() {
        return Ok(());
    }
    match parse(raw) {
        Err(_) => Ok(()),
        Ok(view) => add_view(alloc, wanted, number, &view, held),
    }
}

/// Adds what is wanted of the record of a number, which has these bytes.
fn add_record(
    alloc: Global,
    wanted: &Wanted,
    number: u64,
    raw: &mut [u8],
    held: &mut Vec<Holding>,
) -> Result<(), AllocError>
    requires { HasWholeStrides raw.old }
    ensures { OnOk result (map held_of held.new.items ≡ map held_of held.old.items
        ++ slot_held (wants_record wanted.now) (wants_runs wanted.now) number
        (located_slot number (Some raw.old))) }
{
    if !is_in_use(raw) {
        return Ok(());
    }
    add_live(alloc, wanted, number, raw, held)
}

/// Adds what is wanted of the records from a number on that stand in these bytes, one behind the other.
fn add_records(
    alloc: Global,
    wanted: &Wanted,
    geometry: &Geometry,
    number: u64,
    raws: &mut [u8],
    held: &mut Vec<Holding>,
) -> Result<(), AllocError>
    requires good { IsGood geometry.now }
    requires few { number + length raws.old < 2 ^ 64 }
    ensures { OnOk result ((count : ℕ) → length raws.old ≡ count * geometry.now.record_size
        → map held_of held.new.items ≡ map held_of held.old.items
        ++ slots_held (wants_record wanted.now) (wants_runs wanted.now) number
        (slots_in geometry.now.record_size raws.old number count)) }
{
    let mut next = number;
    'records: for raw in raws.chunks_exact_mut(geometry.record_size as usize) {
        add_record(alloc, wanted, next, raw, held)?;
        next += 1;
    }
    Ok(())
}

/// A buffer for as many records of a size as there are, within the bound.
fn buffer_for(alloc: Global, size: u64, count: u64) -> Result<Vec<u8>, AllocError>
    requires { 1024 ≤ size }
    ensures room { IfOk result (λ buffer. vec_len buffer ≡ min count (2 ^ 20 / size) * size) }
    ensures most { IfOk result (λ buffer. vec_len buffer ≤ 2 ^ 20) }
{
    let records = count.min(MOST_BYTES / size);
    vec![in alloc; 0; (records * size) as usize]
}

/// Adds what is wanted of the records that come next in a scan, as many as the buffer has room for.
fn add_next<G: Image>(
    alloc: Global,
    image: &mut G,
    table: &Table,
    wanted: &Wanted,
    scan: &mut Scan<'_>,
    buffer: &mut [u8],
    held: &mut Vec<Holding>,
) -> Result<(), ShowFault>
    requires volume { HasClusters (G.seen image.old).size table.now }
    requires table { scan.old.table ≡ table.now }
    requires few { scan.old.next < 2 ^ 32 }
    requires room { length buffer.old ≤ 2 ^ 20 }
    ensures added { IfTold G.Image image.old (λ content. OnOk result (map held_of held.new.items
        ≡ map held_of held.old.items ++ slots_held (wants_record wanted.now) (wants_runs wanted.now) scan.old.next
        (slots_from (record_at table.now (cluster_at content table.now.geometry.cluster)) scan.old.next
        (taken_count scan.old (length buffer.old))))) }
    ensures next { OnOk result (scan.new
        ≡ scan_at table.now (scan.old.next + taken_count scan.old (length buffer.old))) }
    ensures cuts { IfErr result IsCut }
    ensures reads { OnlyReads G.Image show_origin image.old image.new result }
{
    let geometry = table.geometry();
    let number = scan.next_number();
    match scan.fill(image, buffer) {
        Err(fault) => Err(gather_refusal(fault, 0)),
        Ok(count) => {
            let bytes = count * u64::from(geometry.record_size);
            add_records(
                alloc,
                wanted,
                geometry,
                number,
                &mut buffer[..bytes as usize],
                held,
            )?;
            Ok(())
        }
    }
}

/// Adds what is wanted of all records of a volume.
fn add_all<G: Image>(
    alloc: Global,
    image: &mut G,
    table: &Table,
    wanted: &Wanted,
    held: &mut Vec<Holding>,
) -> Result<(), ShowFault>
    requires volume { HasClusters (G.seen image.old).size table.now }
    ensures added { IfTold G.Image image.old (λ content. OnOk result (map held_of held.new.items
        ≡ map held_of held.old.items ++ slots_held (wants_record wanted.now) (wants_runs wanted.now) 0
        (slots_of table.now.geometry table.now.map (cluster_at content table.now.geometry.cluster)))) }
    ensures cuts { IfErr result IsCut }
    ensures reads { OnlyReads G.Image show_origin image.old image.new result }
{
    let count = table.initialised_count();
    let mut buffer = buffer_for(alloc, u64::from(table.geometry().record_size), count)?;
    let mut scan = table.scan();
    'fills: while scan.next_number() < count {
        add_next(alloc, image, table, wanted, &mut scan, &mut buffer, held)?;
    }
    Ok(())
}

/// The runs of a volume that are wanted, with the texts that tell whose they are: by record, by place in it.
///
/// Each record that lies wholly in the initialised part of $MFT is read once, by way of one buffer of at most a
/// mebibyte; one that can't be read has no runs. Beside it there is memory for the runs and the texts.
pub(crate) fn collect<G: Image>(
    alloc: Global,
    image: &mut G,
    table: &Table,
    wanted: &Wanted,
) -> Result<Vec<Holding>, ShowFault>
    requires volume { HasClusters (G.seen image.old).size table.now }
    ensures held { IfTold G.Image image.old (λ content. IfOk result (λ held. map held_of held.items
        ≡ slots_held (wants_record wanted.now) (wants_runs wanted.now) 0
        (slots_of table.now.geometry table.now.map (cluster_at content table.now.geometry.cluster)))) }
    ensures cuts { IfErr result IsCut }
    ensures reads { OnlyReads G.Image show_origin image.old image.new result }
{
    let mut held = Vec::new(alloc);
    add_all(alloc, image, table, wanted, &mut held)?;
    Ok(held)
}
