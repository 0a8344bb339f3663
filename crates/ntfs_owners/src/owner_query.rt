//! Who owns the clusters of a volume, as it is printed.

ghost use Rattle.std.specs.Prelude.{◌≡◌, ◌≤◌, ◌||◌, ◌<◌, ℕ, length, true, map, IfErr, IfOk, OnOk, Ok};
ghost use Rattle.ntfs_base.specs.Bytes.{cluster_at};
ghost use Rattle.ntfs_base.specs.Frames.{Copies, Gives, IfTold, OnlyPuts, OnlyReads, Puts, refused_as};
ghost use Rattle.ntfs_bitmap.specs.ClusterSet.{bound_of, count_where, has};
ghost use Rattle.ntfs_record.specs.Views.{placed_of, shown_body, shown_placed, shown_view};
ghost use Rattle.ntfs_print.specs.Fault.{gather_refusal, show_origin};
ghost use Rattle.ntfs_owners.specs.Owners.{are_bad_in, record_attributes, bad_stream_name, bad_clusters_record, is_bad_in, is_bad_stream, none_if_absent, owners_outcome, runs_have, summary_lines, summary_outcome, volume_summary, IsOwnersFault};
ghost use Rattle.ntfs_owners.specs.declared.owner_query.OwnerQuery.{OwnerQuery};
ghost use Rattle.ntfs_survey.specs.Owned.{is_whole, runs_in, volume_survey};
ghost use Rattle.ntfs_survey.specs.Surveying.{record_at};
ghost use Rattle.ntfs_volume.specs.Opened.{HasClusters};

use crate::cluster_query::show_range;
use crate::cover::{add_runs, owned_count};
use crate::file_runs::{read_refusal, show_file};
use ntfs_base::{Image, Line, Rule, Sink};
use ntfs_bitmap::ClusterSet;
use ntfs_print::{Label, ShowFault, gather_refusal, push_number_line, zeros};
use ntfs_record::{AttributeView, Body, RecordView, parse};
use ntfs_runs::{PairsFault, decode};
use ntfs_survey::{Survey, survey};
use ntfs_volume::{Table, Volume, VolumeFault};
use std::alloc::{AllocError, Global};

/// What is asked about the owners of clusters.
#[derive(Clone, Copy, Debug, PartialEq, Eq)]
pub enum OwnerQuery {
    /// How many clusters there are, are owned, are bad and are free.
    Info,
    /// The attributes that have a cluster, for each from one to another, which is among them.
    Clusters { from: u64, to: u64 },
    /// The runs of the attributes of a record and of its extension records.
    Number { number: u64 },
}

/// How many clusters there are, and how many of them a record in use owns, and how many are bad, each counted once.
#[derive(Clone, Copy)]
struct Summary {
    clusters: u64,
    owned: u64,
    bad: u64,
}

/// The record of bad clusters, `$BadClus`.
const BAD_RECORD: u64 = 8;

/// The type of $DATA.
const DATA: u32 = 0x80;

/// The name of the stream of bad clusters.
#[tactic(auto, unfolding(crate::specs::Owners::bad_stream_name))]
fn bad_stream_name() -> &'static [u8]
    ensures { result.now ≡ bad_stream_name }
{
    b"$\0B\0a\0d\0"
}

/// Surveys a volume.
pub(crate) fn surveyed<G: Image>(
    alloc: Global,
    image: &mut G,
    table: &Table,
) -> Result<Survey, ShowFault>
    requires held { HasClusters (G.seen image.old).size table.now }
    ensures gives { IfTold G.Image image.old (λ content. Gives show_origin (λ survey. survey)
        (refused_as (gather_refusal 0) (volume_survey table.now (cluster_at content table.now.geometry.cluster)))
        result) }
    ensures listed { (query : OwnerQuery) → IfErr result (IsOwnersFault query) }
    ensures reads { OnlyReads G.Image show_origin image.old image.new result }
{
    match survey(alloc, image, table) {
        Err(fault) => Err(gather_refusal(fault, 0)),
        Ok(survey) => Ok(survey),
    }
}

/// Adds the clusters that mapping pairs spell; wrong ones spell none.
fn add_pairs(
    alloc: Global,
    pairs: &[u8],
    bound: u64,
    set: &mut ClusterSet,
) -> Result<(), AllocError>
    requires bound { bound_of set.old ≡ bound }
    ensures bound { bound_of set.new ≡ bound }
    ensures added { OnOk result ((k : ℕ) → k < bound
        → has set.new k ≡ has set.old k || runs_have (runs_in pairs.now) k) }
{
    match decode(alloc, pairs) {
        Err(PairsFault::NoMemory) => Err(AllocError),
        Err(PairsFault::BadPairs { .. }) => Ok(()),
        Ok(list) => add_runs(set, bound, list.runs()),
    }
}

/// The attribute is a $DATA of the name of the stream of bad clusters.
#[tactic(auto, unfolding(crate::specs::Owners::is_bad_stream))]
fn is_bad_stream(attribute: &AttributeView<'_>) -> bool
    ensures { result ≡ is_bad_stream (shown_view attribute.now) }
{
    attribute.kind == DATA && attribute.name == bad_stream_name()
}

/// The mapping pairs of an attribute; a resident one has none.
fn pairs_of<'a>(body: &Body<'a>) -> &'a [u8]
    ensures { result.now ≡ (shown_body body.now).pairs }
{
    match body {
        Body::Resident { .. } => &[],
        Body::Runs { pairs, .. } => pairs,
    }
}

/// Adds the clusters of an attribute, where it is one of bad clusters.
fn add_bad_attribute(
    alloc: Global,
    attribute: &AttributeView<'_>,
    bound: u64,
    set: &mut ClusterSet,
) -> Result<(), AllocError>
    requires bound { bound_of set.old ≡ bound }
    ensures bound { bound_of set.new ≡ bound }
    ensures added { OnOk result ((k : ℕ) → k < bound
        → has set.new k ≡ has set.old k || is_bad_in k (shown_view attribute.now)) }
{
    if !is_bad_stream(attribute) {
        return Ok(());
    }
    add_pairs(alloc, pairs_of(&attribute.body), bound, set)
}

/// How many clusters below a bound are bad by the attributes of a record.
fn bad_in_record(alloc: Global, view: &RecordView<'_>, bound: u64) -> Result<u64, AllocError>
    ensures { IfOk result (λ count. count ≡ count_where (are_bad_in (map shown_placed (placed_of view.now))) bound) }
{
    let mut set = ClusterSet::empty(alloc, bound)?;
    'attributes: for attribute in view.attributes() {
        add_bad_attribute(alloc, &attribute, bound, &mut set)?;
    }
    Ok(set.count_below(bound))
}

/// None are counted in the record of a number that isn't in use; another refusal to read it stays one.
fn none_if_absent(fault: VolumeFault, number: u64) -> Result<u64, ShowFault>
    ensures value { result ≡ none_if_absent number fault }
    ensures listed { (query : OwnerQuery) → IfErr result (IsOwnersFault query) }
{
    match fault {
        VolumeFault::Absent => Ok(0),
        other => Err(read_refusal(other, number)),
    }
}

/// How many clusters are bad by the record of bad clusters, where that record is right. It is read into `block`.
fn bad_by_record<G: Image>(
    alloc: Global,
    image: &mut G,
    table: &Table,
    block: &mut [u8],
) -> Result<u64, ShowFault>
    requires held { HasClusters (G.seen image.old).size table.now }
    requires block { length block.old ≡ table.now.geometry.record_size }
    ensures gives { IfTold G.Image image.old (λ content.
        is_whole (record_at table.now (cluster_at content table.now.geometry.cluster) bad_clusters_record) ≡ true
        → Gives show_origin (λ count. count) (Ok (count_where (are_bad_in (record_attributes table.now
        (cluster_at content table.now.geometry.cluster) bad_clusters_record)) table.now.geometry.clusters)) result) }
    ensures listed { (query : OwnerQuery) → IfErr result (IsOwnersFault query) }
    ensures reads { OnlyReads G.Image show_origin image.old image.new result }
{
    match table.read_record(image, BAD_RECORD, block) {
        Err(fault) => none_if_absent(fault, BAD_RECORD),
        Ok(()) => match parse(block) {
            Err(_) => Err(ShowFault::Damaged {
                rule: Rule::C4,
                number: BAD_RECORD,
            }),
            Ok(view) => Ok(bad_in_record(alloc, &view, table.geometry().clusters)?),
        },
    }
}

/// How many clusters are bad by the record of bad clusters, where that record is right.
fn bad_count<G: Image>(alloc: Global, image: &mut G, table: &Table) -> Result<u64, ShowFault>
    requires held { HasClusters (G.seen image.old).size table.now }
    ensures gives { IfTold G.Image image.old (λ content.
        is_whole (record_at table.now (cluster_at content table.now.geometry.cluster) bad_clusters_record) ≡ true
        → Gives show_origin (λ count. count) (Ok (count_where (are_bad_in (record_attributes table.now
        (cluster_at content table.now.geometry.cluster) bad_clusters_record)) table.now.geometry.clusters)) result) }
    ensures listed { (query : OwnerQuery) → IfErr result (IsOwnersFault query) }
    ensures reads { OnlyReads G.Image show_origin image.old image.new result }
{
    let mut block = zeros(alloc, table.geometry().record_size as usize)?;
    bad_by_record(alloc, image, table, &mut block)
}

/// Counts the clusters of a volume.
fn count_all<G: Image>(alloc: Global, image: &mut G, table: &Table) -> Result<Summary, ShowFault>
    requires held { HasClusters (G.seen image.old).size table.now }
    ensures gives { IfTold G.Image image.old (λ content. Gives show_origin (λ summary. summary)
        (volume_summary table.now (cluster_at content table.now.geometry.cluster)) result) }
    ensures fits { IfOk result (λ summary. summary.owned ≤ summary.clusters) }
    ensures listed { (query : OwnerQuery) → IfErr result (IsOwnersFault query) }
    ensures reads { OnlyReads G.Image show_origin image.old image.new result }
{
    let survey = surveyed(alloc, image, table)?;
    let clusters = table.geometry().clusters;
    let owned = owned_count(alloc, survey.owners(), clusters)?;
    let bad = bad_count(alloc, image, table)?;
    Ok(Summary {
        clusters,
        owned,
        bad,
    })
}

#[tactic(auto, unfolding(crate::specs::Owners::summary_lines))]
fn summary_text(summary: &Summary) -> Line
    requires { summary.now.owned ≤ summary.now.clusters }
    ensures { result ≡ summary_lines summary.now }
{
    let mut text = Line::new();
    push_number_line(&mut text, Label::Clusters, summary.clusters);
    push_number_line(&mut text, Label::Owned, summary.owned);
    push_number_line(&mut text, Label::Bad, summary.bad);
    push_number_line(&mut text, Label::Free, summary.clusters - summary.owned);
    text
}

/// Puts the lines of a summary.
fn put_summary<K: Sink>(summary: &Summary, out: &mut K) -> Result<(), ShowFault>
    requires { summary.now.owned ≤ summary.now.clusters }
    ensures puts { Puts show_origin (Ok (summary_lines summary.now)) (K.seen out.old) result (K.seen out.new) }
    ensures listed { (query : OwnerQuery) → IfErr result (IsOwnersFault query) }
    ensures frame { OnlyPuts K.Sink show_origin out.old out.new result }
{
    let text = summary_text(summary);
    out.put(text.as_bytes())?;
    Ok(())
}

/// Prints how many clusters there are, are owned, are bad and are free.
fn show_summary<G: Image, K: Sink>(
    alloc: Global,
    image: &mut G,
    table: &Table,
    out: &mut K,
) -> Result<(), ShowFault>
    requires held { HasClusters (G.seen image.old).size table.now }
    ensures told { IfTold G.Image image.old (λ content. Puts show_origin
        (summary_outcome table.now (cluster_at content table.now.geometry.cluster)) (K.seen out.old) result
        (K.seen out.new)) }
    ensures listed { (query : OwnerQuery) → IfErr result (IsOwnersFault query) }
    ensures copies { Copies G.Image K.Sink show_origin image.old image.new out.old out.new result }
{
    let summary = count_all(alloc, image, table)?;
    put_summary(&summary, out)
}

/// Prints what is asked about the owners of the clusters of the volume whose table is kept.
///
/// The volume is surveyed first: nothing is put where a record isn't right, or mapping pairs aren't. For a summary
/// there are four lines, `clusters: `, `owned: `, `bad: ` and `free: `, with numbers. A cluster is owned that an
/// attribute of a record in use names, and bad where a $DATA attribute `$Bad` of record 8 itself names it; each is
/// counted once. For a range of clusters there is a line for each attribute and each of its runs that has the cluster,
/// by cluster, then by record, place and VCN: `cluster C record R 0x80 "NAME" vcn V`. For a record there is a line for
/// each run, holes too, of each attribute of it and of its extension records, by record, place and VCN:
/// `record R 0x80 "NAME" vcn V lcn L length N`, with `lcn hole` for a hole; nothing is put where it isn't in use. After
/// a fault or want of memory a prefix of the lines was put. Beside the survey's memory and a mebibyte it takes memory
/// for the runs and names of what is printed, and then 65,536 bytes.
pub fn show_owners<G: Image, K: Sink>(
    alloc: Global,
    image: &mut G,
    table: &Table,
    query: &OwnerQuery,
    out: &mut K,
) -> Result<(), ShowFault>
    requires held { HasClusters (G.seen image.old).size table.now }
    ensures told { IfTold G.Image image.old (λ content. Puts show_origin
        (owners_outcome table.now content query.now) (K.seen out.old) result (K.seen out.new)) }
    ensures listed { IfErr result (IsOwnersFault query.now) }
    ensures copies { Copies G.Image K.Sink show_origin image.old image.new out.old out.new result }
{
    match *query {
        OwnerQuery::Info => show_summary(alloc, image, table, out),
        OwnerQuery::Clusters { from, to } => show_range(alloc, image, table, from, to, out),
        OwnerQuery::Number { number } => show_file(alloc, image, table, number, out),
    }
}

/// Prints what is asked about the owners of the clusters of a volume, as `show_owners` does.
pub fn owners<G: Image, K: Sink>(
    alloc: Global,
    volume: &mut Volume<'_, G>,
    query: &OwnerQuery,
    out: &mut K,
) -> Result<(), ShowFault>
    requires held { HasClusters (G.seen volume.old.image.now).size volume.old.table }
    ensures told { IfTold G.Image volume.old.image.now (λ content. Puts show_origin
        (owners_outcome volume.old.table content query.now) (K.seen out.old) result (K.seen out.new)) }
    ensures listed { IfErr result (IsOwnersFault query.now) }
    ensures same_reference { volume.new.image.ghost_name ≡ volume.old.image.ghost_name }
    ensures kept { volume.new.table ≡ volume.old.table }
    ensures copies { Copies G.Image K.Sink show_origin volume.old.image.now volume.new.image.now
        out.old out.new result }
{
    show_owners(alloc, &mut *volume.image, &volume.table, query, out)
}
