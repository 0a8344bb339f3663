//! Rule C15: each record with a fixed number is as its row says.

ghost use Rattle.std.specs.Prelude.{◌≡◌, ◌∷◌, [], IfErr, IfOk, IfSome, map, Ok};
ghost use Rattle.ntfs_base.specs.Bytes.{Cluster, cluster_at};
ghost use Rattle.ntfs_base.specs.Checks.{first_wrong};
ghost use Rattle.ntfs_base.specs.Frames.{Gives, IfTold, IsSettled, OnlyReads};
ghost use Rattle.ntfs_base.specs.declared.refusal.Rule.TheVariants as rule;
ghost use Rattle.ntfs_check_fixed.specs.Rows.{found_by, holds_in, row_check, stream_holds_in};
ghost use Rattle.ntfs_rules.specs.FixedRecords.{c15, row_5};
ghost use Rattle.ntfs_rules.specs.Outcome.{check_origin, unless_number};
ghost use Rattle.ntfs_rules.specs.VolumeData.{listings, numbers, volume_data};
ghost use Rattle.ntfs_volume.specs.Located.{slot_at, slots_of, with_cells};
ghost use Rattle.ntfs_volume.specs.Opened.{HasClusters};
ghost use Rattle.ntfs_volume.specs.Streams.{IsReadable, gather_of};

use crate::rows::{Row, row_kind, row_name, row_record, stream_row};
use ntfs_base::{Image, Rule};
use ntfs_record::parse;
use ntfs_rules::{CheckFault, cut_of, damaged, has_list};
use ntfs_volume::{Stream, Table};
use std::alloc::Global;

/// The stream of a type and name of a base record; none where it can't be gathered.
pub(crate) fn find_stream<G: Image>(
    alloc: Global,
    image: &mut G,
    table: &Table,
    number: u64,
    kind: u32,
    name: &[u8],
) -> Result<Option<Stream>, CheckFault>
    requires held { HasClusters (G.seen image.old).size table.now }
    ensures found { IfTold G.Image image.old (λ content. IfOk result (λ found. found
        ≡ found_by (gather_of table.now.geometry table.now.map (cluster_at content table.now.geometry.cluster)
        number kind name.now))) }
    ensures readable { IfOk result (λ found. IfSome found (λ s. IsReadable table.now.geometry s.stream)) }
    ensures cut { IfErr result (λ fault. IsSettled (check_origin fault) → ⊥) }
    ensures reads { OnlyReads G.Image check_origin image.old image.new result }
{
    match table.gather(alloc, image, number, kind, name) {
        Ok(stream) => Ok(Some(stream)),
        Err(fault) => match cut_of(fault) {
            Some(cut) => Err(cut),
            None => Ok(None),
        },
    }
}

/// The root directory is as its row says.
fn root_holds<G: Image>(alloc: Global, image: &mut G, table: &Table) -> Result<bool, CheckFault>
    requires held { HasClusters (G.seen image.old).size table.now }
    ensures found { IfTold G.Image image.old (λ content. IfOk result (λ is. is ≡ row_5 (slot_at
        (with_cells table.now.geometry.clusters (slots_of table.now.geometry table.now.map
        (cluster_at content table.now.geometry.cluster))) 5))) }
    ensures cut { IfErr result (λ fault. IsSettled (check_origin fault) → ⊥) }
    ensures reads { OnlyReads G.Image check_origin image.old image.new result }
{
    let mut block = vec![in alloc; 0; table.geometry().record_size as usize]?;
    match table.read_record(image, 5, &mut block) {
        Err(fault) => match cut_of(fault) {
            Some(cut) => Err(cut),
            None => Ok(false),
        },
        Ok(()) => match parse(&block) {
            Err(_) => Ok(false),
            Ok(view) => Ok(view.flags() / 2 % 2 == 1),
        },
    }
}

/// A record with a stream is as its row says.
fn stream_holds<G: Image>(
    alloc: Global,
    image: &mut G,
    table: &Table,
    row: Row,
) -> Result<bool, CheckFault>
    requires held { HasClusters (G.seen image.old).size table.now }
    ensures found { IfTold G.Image image.old (λ content. IfOk result (λ is. is
        ≡ stream_holds_in table.now (cluster_at content table.now.geometry.cluster) row)) }
    ensures cut { IfErr result (λ fault. IsSettled (check_origin fault) → ⊥) }
    ensures reads { OnlyReads G.Image check_origin image.old image.new result }
{
    let has_list = has_list(alloc, image, table, row_record(row))?;
    let found = find_stream(
        alloc,
        image,
        table,
        row_record(row),
        row_kind(row),
        row_name(row),
    )?;
    match found {
        None => Ok(false),
        Some(stream) => Ok(stream_row(table.geometry(), table.runs(), has_list, row, &stream)),
    }
}

/// A record is as its row says.
fn holds<G: Image>(
    alloc: Global,
    image: &mut G,
    table: &Table,
    row: Row,
) -> Result<bool, CheckFault>
    requires held { HasClusters (G.seen image.old).size table.now }
    ensures found { IfTold G.Image image.old (λ content. IfOk result (λ is. is
        ≡ holds_in table.now (cluster_at content table.now.geometry.cluster) row)) }
    ensures cut { IfErr result (λ fault. IsSettled (check_origin fault) → ⊥) }
    ensures reads { OnlyReads G.Image check_origin image.old image.new result }
{
    match row {
        Row::Root => root_holds(alloc, image, table),
        other => stream_holds(alloc, image, table, other),
    }
}

/// Refuses a volume where a record isn't as its row says.
fn check_row<G: Image>(
    alloc: Global,
    image: &mut G,
    table: &Table,
    row: Row,
) -> Result<(), CheckFault>
    requires held { HasClusters (G.seen image.old).size table.now }
    ensures gives { IfTold G.Image image.old (λ content. Gives check_origin (λ done. done) (unless_number rule.C15
        (first_wrong (row_check table.now (cluster_at content table.now.geometry.cluster) row ∷ [])) tt) result) }
    ensures reads { OnlyReads G.Image check_origin image.old image.new result }
{
    if holds(alloc, image, table, row)? {
        Ok(())
    } else {
        Err(damaged(Rule::C15, row_record(row)))
    }
}

/// Refuses a volume by the first of these rows that a record isn't like.
fn check_rows<G: Image>(
    alloc: Global,
    image: &mut G,
    table: &Table,
    rows: &[Row],
) -> Result<(), CheckFault>
    requires held { HasClusters (G.seen image.old).size table.now }
    ensures gives { IfTold G.Image image.old (λ content. Gives check_origin (λ done. done) (unless_number rule.C15
        (first_wrong (map (row_check table.now (cluster_at content table.now.geometry.cluster)) rows.now)) tt)
        result) }
    ensures reads { OnlyReads G.Image check_origin image.old image.new result }
{
    'rows: for row in rows {
        if let Err(fault) = check_row(alloc, image, table, *row) {
            return Err(fault);
        }
    }
    Ok(())
}

/// Rule C15: each of the records with a fixed number is as its row says.
pub fn check_fixed_records<G: Image>(
    alloc: Global,
    image: &mut G,
    table: &Table,
) -> Result<(), CheckFault>
    requires held { HasClusters (G.seen image.old).size table.now }
    ensures gives { IfTold G.Image image.old (λ content.
        let v = volume_data table.now (cluster_at content table.now.geometry.cluster) in
        Gives check_origin (λ done. done) (unless_number rule.C15
        (c15 v.geometry (map (λ (k : Cluster). k.number) v.table) (listings v) (numbers v)) tt) result) }
    ensures reads { OnlyReads G.Image check_origin image.old image.new result }
{
    let rows = [
        Row::Mft,
        Row::Mirror,
        Row::Log,
        Row::Volume,
        Row::Root,
        Row::Bitmap,
        Row::Boot,
        Row::Bad,
    ];
    check_rows(alloc, image, table, &rows)
}
