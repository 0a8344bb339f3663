//! The streams of a base record with an attribute list.

ghost use Rattle.std.specs.Prelude.{◌≡◌, Some, filter, true, ℕ, List, IfErr, IfOk, IfSome};
ghost use Rattle.ntfs_check_records.specs.Entries.{good_entries};
ghost use Rattle.std.specs.List.{list_all};
ghost use Rattle.ntfs_attrlist.specs.Entry.{Listed};
ghost use Rattle.ntfs_attrlist.specs.Reading.{list_items};
ghost use Rattle.ntfs_attrlist.specs.Views.{shown_entry};
ghost use Rattle.ntfs_base.specs.Bytes.{cluster_at};
ghost use Rattle.ntfs_base.specs.Frames.{IfTold, IsSettled, OnlyReads};
ghost use Rattle.ntfs_check_records.specs.Reading.{records_of};
ghost use Rattle.ntfs_check_streams.specs.Join as spec;
ghost use Rattle.ntfs_check_streams.specs.Last.{like_last};
ghost use Rattle.ntfs_check_streams.specs.Said.{is_listed_stream, good_listed, shown_in};
ghost use Rattle.ntfs_record.specs.FileRecord.{Attribute, Laid};
ghost use Rattle.ntfs_record.specs.Views.{Shown};
ghost use Rattle.ntfs_rules.specs.Outcome.{check_origin};
ghost use Rattle.ntfs_volume.specs.Gather.{all_found, lists};
ghost use Rattle.ntfs_volume.specs.ListViews.{list_bytes_of};
ghost use Rattle.ntfs_volume.specs.Listing.{listing_of_bytes};
ghost use Rattle.ntfs_volume.specs.Opened.{HasClusters};
ghost use Rattle.ntfs_volume.specs.Views.{told, told_view};

use crate::join::{Joined, is_stream, join, span_of};
use crate::named::{Base, is_listed, is_of, read_span};
use ntfs_attrlist::{ListEntry, entries};
use ntfs_base::Image;
use ntfs_record::{AttributeView, Body, RecordView};
use ntfs_rules::{CheckFault, cut_of};
use ntfs_volume::{Table, are_entries, read_list};
use std::alloc::Global;

/// The attributes so far, and those of a type and name that the entries of a list name, are a stream.
fn join_entries<G: Image>(
    alloc: Global,
    image: &mut G,
    table: &Table,
    base: Base,
    kind: u32,
    name: &[u8],
    start: Joined,
    list: &[u8],
) -> Result<bool, CheckFault>
    requires held { HasClusters (G.seen image.old).size table.now }
    ensures found { IfTold G.Image image.old (λ content. IfOk result (λ is. is
        ≡ spec.are_joined table.now.geometry.cluster kind start (all_found base.number base.sequence
        (records_of table.now (cluster_at content table.now.geometry.cluster))
        (filter (lists kind name.now) (good_entries (list_items list.now)))))) }
    ensures cut { IfErr result (λ fault. IsSettled (check_origin fault) → ⊥) }
    ensures reads { OnlyReads G.Image check_origin image.old image.new result }
{
    let geometry = table.geometry();
    let mut block = vec![in alloc; 0; geometry.record_size as usize]?;
    let mut joined = start;
    'entries: for item in entries(list) {
        if let Ok(entry) = item {
            if is_listed(kind, name, &entry) {
                match read_span(image, table, base, &entry, &mut block)? {
                    None => return Ok(false),
                    Some(span) => joined = join(kind, joined, span),
                }
            }
        }
    }
    Ok(is_stream(geometry.cluster, joined))
}

/// The list, where it has this type and name.
fn join_lead(kind: u32, name: &[u8], lead: &AttributeView<'_>) -> Joined
    ensures { result ≡ spec.join_lead kind name.now (Some (told_view lead.now)) }
{
    if !is_of(kind, name, lead) {
        return Joined::Nothing;
    }
    join(kind, Joined::Nothing, span_of(lead))
}

/// The attributes of a type and name are a stream: the list, where it has them, and those that its entries name.
fn are_listed<G: Image>(
    alloc: Global,
    image: &mut G,
    table: &Table,
    base: Base,
    lead: &AttributeView<'_>,
    list: &[u8],
    kind: u32,
    name: &[u8],
) -> Result<bool, CheckFault>
    requires held { HasClusters (G.seen image.old).size table.now }
    ensures found { IfTold G.Image image.old (λ content. IfOk result (λ is. is
        ≡ is_listed_stream table.now.geometry.cluster base.number base.sequence
        (records_of table.now (cluster_at content table.now.geometry.cluster))
        (good_entries (list_items list.now)) (Some (told_view lead.now)) kind name.now)) }
    ensures cut { IfErr result (λ fault. IsSettled (check_origin fault) → ⊥) }
    ensures reads { OnlyReads G.Image check_origin image.old image.new result }
{
    let start = join_lead(kind, name, lead);
    join_entries(alloc, image, table, base, kind, name, start, list)
}

/// So it is with all attributes of the base record itself.
fn own_listed<G: Image>(
    alloc: Global,
    image: &mut G,
    table: &Table,
    base: Base,
    view: &RecordView<'_>,
    lead: &AttributeView<'_>,
    list: &[u8],
) -> Result<bool, CheckFault>
    requires held { HasClusters (G.seen image.old).size table.now }
    ensures found { IfTold G.Image image.old (λ content. IfOk result (λ is. is
        ≡ list_all (λ (s : Shown). is_listed_stream table.now.geometry.cluster base.number base.sequence
        (records_of table.now (cluster_at content table.now.geometry.cluster))
        (good_entries (list_items list.now)) (Some (told_view lead.now)) s.kind s.name) (shown_in view.now))) }
    ensures cut { IfErr result (λ fault. IsSettled (check_origin fault) → ⊥) }
    ensures reads { OnlyReads G.Image check_origin image.old image.new result }
{
    'attributes: for attribute in view.attributes() {
        let holds = are_listed(
            alloc,
            image,
            table,
            base,
            lead,
            list,
            attribute.kind,
            attribute.name,
        )?;
        if !holds {
            return Ok(false);
        }
    }
    Ok(true)
}

/// The entry before, where there is one, names the same type and name.
fn is_like(last: Option<ListEntry<'_>>, entry: &ListEntry<'_>) -> bool
    ensures { result ≡ like_last last.entry (shown_entry entry.now) }
{
    match last {
        None => false,
        Some(other) => is_listed(entry.kind, entry.name, &other),
    }
}

/// So it is with the type and name of an entry, where it is so with those of the entry before.
fn entry_listed<G: Image>(
    alloc: Global,
    image: &mut G,
    table: &Table,
    base: Base,
    lead: &AttributeView<'_>,
    list: &[u8],
    last: Option<ListEntry<'_>>,
    entry: &ListEntry<'_>,
) -> Result<bool, CheckFault>
    requires held { HasClusters (G.seen image.old).size table.now }
    ensures found { IfTold G.Image image.old (λ content.
        IfSome last.entry (λ other. is_listed_stream table.now.geometry.cluster base.number base.sequence
        (records_of table.now (cluster_at content table.now.geometry.cluster))
        (good_entries (list_items list.now)) (Some (told_view lead.now)) other.kind other.name.now ≡ true)
        → IfOk result (λ is. is ≡ is_listed_stream table.now.geometry.cluster base.number base.sequence
        (records_of table.now (cluster_at content table.now.geometry.cluster))
        (good_entries (list_items list.now)) (Some (told_view lead.now)) entry.now.kind entry.now.name.now)) }
    ensures cut { IfErr result (λ fault. IsSettled (check_origin fault) → ⊥) }
    ensures reads { OnlyReads G.Image check_origin image.old image.new result }
{
    if is_like(last, entry) {
        return Ok(true);
    }
    are_listed(
        alloc, image, table, base, lead, list, entry.kind, entry.name,
    )
}

/// So it is with all entries of the list; entries in a row that name the same type and name are asked once.
fn entries_listed<G: Image>(
    alloc: Global,
    image: &mut G,
    table: &Table,
    base: Base,
    lead: &AttributeView<'_>,
    list: &[u8],
) -> Result<bool, CheckFault>
    requires held { HasClusters (G.seen image.old).size table.now }
    ensures found { IfTold G.Image image.old (λ content. IfOk result (λ is. is
        ≡ list_all (λ (entry : Listed). is_listed_stream table.now.geometry.cluster base.number base.sequence
        (records_of table.now (cluster_at content table.now.geometry.cluster))
        (good_entries (list_items list.now)) (Some (told_view lead.now)) entry.kind entry.name)
        (good_entries (list_items list.now)))) }
    ensures cut { IfErr result (λ fault. IsSettled (check_origin fault) → ⊥) }
    ensures reads { OnlyReads G.Image check_origin image.old image.new result }
{
    let mut last = None;
    'entries: for item in entries(list) {
        if let Ok(entry) = item {
            if !entry_listed(alloc, image, table, base, lead, list, last, &entry)? {
                return Ok(false);
            }
            last = Some(entry);
        }
    }
    Ok(true)
}

/// A list of these bytes can be read, and all types and names that it and its record have are streams.
fn all_listed<G: Image>(
    alloc: Global,
    image: &mut G,
    table: &Table,
    base: Base,
    view: &RecordView<'_>,
    lead: &AttributeView<'_>,
    list: &[u8],
) -> Result<bool, CheckFault>
    requires held { HasClusters (G.seen image.old).size table.now }
    ensures found { IfTold G.Image image.old (λ content. IfOk result (λ is. is
        ≡ good_listed table.now.geometry.cluster base.number base.sequence
        (records_of table.now (cluster_at content table.now.geometry.cluster))
        (listing_of_bytes (Some list.now)) (Some (told_view lead.now)) (shown_in view.now))) }
    ensures cut { IfErr result (λ fault. IsSettled (check_origin fault) → ⊥) }
    ensures reads { OnlyReads G.Image check_origin image.old image.new result }
{
    if !are_entries(list) {
        return Ok(false);
    }
    if !own_listed(alloc, image, table, base, view, lead, list)? {
        return Ok(false);
    }
    entries_listed(alloc, image, table, base, lead, list)
}

/// The same of the list of a base record.
pub(crate) fn have_list<G: Image>(
    alloc: Global,
    image: &mut G,
    table: &Table,
    base: Base,
    view: &RecordView<'_>,
    lead: &AttributeView<'_>,
) -> Result<bool, CheckFault>
    requires held { HasClusters (G.seen image.old).size table.now }
    ensures found { IfTold G.Image image.old (λ content. (a : Attribute (Laid (List ℕ))) → told a ≡ told_view lead.now
        → IfOk result (λ is. is ≡ good_listed table.now.geometry.cluster base.number base.sequence
        (records_of table.now (cluster_at content table.now.geometry.cluster))
        (listing_of_bytes (list_bytes_of table.now.geometry (cluster_at content table.now.geometry.cluster) a
        view.now)) (Some (told_view lead.now)) (shown_in view.now))) }
    ensures cut { IfErr result (λ fault. IsSettled (check_origin fault) → ⊥) }
    ensures reads { OnlyReads G.Image check_origin image.old image.new result }
{
    match lead.body {
        Body::Resident { value } => all_listed(alloc, image, table, base, view, lead, value),
        Body::Runs { .. } => match read_list(alloc, image, table.geometry(), view, lead) {
            Err(fault) => match cut_of(fault) {
                Some(cut) => Err(cut),
                None => Ok(false),
            },
            Ok(bytes) => all_listed(alloc, image, table, base, view, lead, &bytes),
        },
    }
}
