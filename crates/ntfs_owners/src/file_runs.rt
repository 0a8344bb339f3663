//! The runs of a file: of a record and of its extension records.

ghost use Rattle.std.specs.Prelude.{◌≡◌, Err, Ok, true, length, map, IfErr, IfOk, OnOk, List};
ghost use Rattle.ntfs_base.specs.Bytes.{cluster_at};
ghost use Rattle.ntfs_base.specs.Frames.{Copies, Gives, IfTold, IsSettled, OnlyReads, Puts, refused_as};
ghost use Rattle.ntfs_print.specs.Fault.{gather_refusal, show_origin};
ghost use Rattle.ntfs_owners.specs.Held.{held_of};
ghost use Rattle.ntfs_owners.specs.OwnerLines.{held_lines};
ghost use Rattle.ntfs_owners.specs.Owners.{IsOwnersFault, file_outcome, file_runs, live_sequence, read_refusal};
ghost use Rattle.ntfs_print.specs.Pending.{OnlyPrints};
ghost use Rattle.ntfs_owners.specs.declared.owner_query.OwnerQuery.{OwnerQuery};
ghost use Rattle.ntfs_survey.specs.Owned.{is_whole, volume_survey};
ghost use Rattle.ntfs_survey.specs.Surveying.{record_at};
ghost use Rattle.ntfs_survey.specs.declared.owners.Owner.{Owner};
ghost use Rattle.ntfs_volume.specs.Opened.{HasClusters};

use crate::held::Wanted;
use crate::holding::Holding;
use crate::owner_lines::print_held;
use crate::owner_query::surveyed;
use crate::reread::collect;
use ntfs_base::{Image, Missing, Rule, Sink};
use ntfs_print::{Pending, ShowFault, zeros};
use ntfs_record::parse;
use ntfs_volume::{Table, VolumeFault};
use std::alloc::Global;

/// A refusal to read a record. What reading doesn't give, and what isn't right where a survey found all right, stands
/// as damage of the record.
pub(crate) fn read_refusal(fault: VolumeFault, number: u64) -> ShowFault
    ensures { result ≡ read_refusal number fault }
{
    match fault {
        VolumeFault::Absent => ShowFault::NotFound {
            what: Missing::Record { number },
        },
        VolumeFault::ReadFault => ShowFault::ReadFault,
        VolumeFault::WriteFault => ShowFault::WriteFault,
        VolumeFault::NoMemory => ShowFault::NoMemory,
        VolumeFault::NotNtfs
        | VolumeFault::BadGeometry { .. }
        | VolumeFault::ImageShort { .. }
        | VolumeFault::Damaged { .. }
        | VolumeFault::NoAttribute => ShowFault::Damaged {
            rule: Rule::C4,
            number,
        },
    }
}

/// Surveys a volume, and keeps nothing of it.
pub(crate) fn survey_all<G: Image>(
    alloc: Global,
    image: &mut G,
    table: &Table,
) -> Result<(), ShowFault>
    requires held { HasClusters (G.seen image.old).size table.now }
    ensures right { IfTold G.Image image.old (λ content. OnOk result ((owners : List Owner)
        × (volume_survey table.now (cluster_at content table.now.geometry.cluster) ≡ Ok owners))) }
    ensures wrong { IfTold G.Image image.old (λ content. IfErr result (λ fault. IsSettled (show_origin fault)
        → refused_as (gather_refusal 0) (volume_survey table.now (cluster_at content table.now.geometry.cluster))
        ≡ Err fault)) }
    ensures listed { (query : OwnerQuery) → IfErr result (IsOwnersFault query) }
    ensures reads { OnlyReads G.Image show_origin image.old image.new result }
{
    surveyed(alloc, image, table)?;
    Ok(())
}

/// The sequence number of the record of a number, which has to be in use; where that record is right. It is read into
/// `block`.
fn sequence_in<G: Image>(
    image: &mut G,
    table: &Table,
    number: u64,
    block: &mut [u8],
) -> Result<u16, ShowFault>
    requires held { HasClusters (G.seen image.old).size table.now }
    requires block { length block.old ≡ table.now.geometry.record_size }
    ensures gives { IfTold G.Image image.old (λ content.
        is_whole (record_at table.now (cluster_at content table.now.geometry.cluster) number) ≡ true
        → Gives show_origin (λ sequence. sequence)
        (live_sequence table.now (cluster_at content table.now.geometry.cluster) number) result) }
    ensures listed { IfErr result (IsOwnersFault (OwnerQuery.Number number)) }
    ensures reads { OnlyReads G.Image show_origin image.old image.new result }
{
    match table.read_record(image, number, block) {
        Err(fault) => Err(read_refusal(fault, number)),
        Ok(()) => match parse(block) {
            Err(_) => Err(ShowFault::Damaged {
                rule: Rule::C4,
                number,
            }),
            Ok(view) => Ok(view.sequence()),
        },
    }
}

/// The sequence number of the record of a number, which has to be in use; where a survey found all right.
fn sequence_of<G: Image>(
    alloc: Global,
    image: &mut G,
    table: &Table,
    number: u64,
) -> Result<u16, ShowFault>
    requires held { HasClusters (G.seen image.old).size table.now }
    ensures gives { IfTold G.Image image.old (λ content.
        (owners : List Owner) → volume_survey table.now (cluster_at content table.now.geometry.cluster) ≡ Ok owners
        → Gives show_origin (λ sequence. sequence)
        (live_sequence table.now (cluster_at content table.now.geometry.cluster) number) result) }
    ensures listed { IfErr result (IsOwnersFault (OwnerQuery.Number number)) }
    ensures reads { OnlyReads G.Image show_origin image.old image.new result }
{
    let mut block = zeros(alloc, table.geometry().record_size as usize)?;
    sequence_in(image, table, number, &mut block)
}

/// The runs of a record and of its extension records, which has to be in use, on a volume that is surveyed first.
fn file_runs<G: Image>(
    alloc: Global,
    image: &mut G,
    table: &Table,
    number: u64,
) -> Result<Vec<Holding>, ShowFault>
    requires held { HasClusters (G.seen image.old).size table.now }
    ensures gives { IfTold G.Image image.old (λ content. Gives show_origin (λ held. map held_of held.items)
        (file_runs table.now (cluster_at content table.now.geometry.cluster) number) result) }
    ensures listed { IfErr result (IsOwnersFault (OwnerQuery.Number number)) }
    ensures reads { OnlyReads G.Image show_origin image.old image.new result }
{
    survey_all(alloc, image, table)?;
    let sequence = sequence_of(alloc, image, table, number)?;
    collect(alloc, image, table, &Wanted::File { number, sequence })
}

/// Puts the lines of what attributes hold, by way of a buffer.
fn put_held<K: Sink>(alloc: Global, held: &[Holding], out: &mut K) -> Result<(), ShowFault>
    ensures puts { Puts show_origin (Ok (held_lines (map held_of held.now))) (K.seen out.old) result
        (K.seen out.new) }
    ensures listed { (query : OwnerQuery) → IfErr result (IsOwnersFault query) }
    ensures frame { OnlyPrints K.Sink show_origin out.old out.new result }
{
    let mut pending = Pending::new(alloc)?;
    print_held(held, &mut pending, out)?;
    pending.put_rest(out)?;
    Ok(())
}

/// Prints the runs of a record and of its extension records.
pub(crate) fn show_file<G: Image, K: Sink>(
    alloc: Global,
    image: &mut G,
    table: &Table,
    number: u64,
    out: &mut K,
) -> Result<(), ShowFault>
    requires held { HasClusters (G.seen image.old).size table.now }
    ensures told { IfTold G.Image image.old (λ content. Puts show_origin
        (file_outcome table.now (cluster_at content table.now.geometry.cluster) number) (K.seen out.old) result
        (K.seen out.new)) }
    ensures listed { IfErr result (IsOwnersFault (OwnerQuery.Number number)) }
    ensures copies { Copies G.Image K.Sink show_origin image.old image.new out.old out.new result }
{
    let held = file_runs(alloc, image, table, number)?;
    put_held(alloc, &held, out)
}
