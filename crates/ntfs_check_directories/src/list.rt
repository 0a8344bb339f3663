//! The name of an entry among the attributes that an attribute list names.

ghost use Rattle.std.specs.Prelude.{◌≡◌, ◌<◌, Some, false, [], length, map, find, ℕ, List, IfErr, IfOk};
ghost use Rattle.std.specs.Option.{option_map};
ghost use Rattle.ntfs_attrlist.specs.Views.{shown_entry};
ghost use Rattle.ntfs_base.specs.Bytes.{cluster_at};
ghost use Rattle.ntfs_base.specs.Frames.{IfTold, IsSettled, OnlyReads};
ghost use Rattle.ntfs_check_directories.specs.Names as spec;
ghost use Rattle.ntfs_record.specs.FileRecord.{Attribute, Laid};
ghost use Rattle.ntfs_record.specs.Views.{placed_of, shown_body, shown_placed, shown_view};
ghost use Rattle.ntfs_rules.specs.Directories.{file_name_kind};
ghost use Rattle.ntfs_rules.specs.Outcome.{check_origin};
ghost use Rattle.ntfs_volume.specs.Gather as gathering;
ghost use Rattle.ntfs_volume.specs.Gathering.{is_meant};
ghost use Rattle.ntfs_volume.specs.ListViews.{list_bytes_of};
ghost use Rattle.ntfs_volume.specs.Listing.{listing_of_bytes};
ghost use Rattle.ntfs_volume.specs.Located.{slot_at, sound_located};
ghost use Rattle.ntfs_volume.specs.Opened.{HasClusters};
ghost use Rattle.ntfs_volume.specs.References as references;
ghost use Rattle.ntfs_volume.specs.Views.{told, told_view};

use crate::name::{FILE_NAME, Sought, is_of, shows_value};
use ntfs_attrlist::{ListEntry, entries};
use ntfs_base::Image;
use ntfs_record::{AttributeView, Body, RecordView, parse};
use ntfs_rules::{CheckFault, cut_of};
use ntfs_volume::{Table, are_entries, has_base, matches, read_list, target};
use std::alloc::Global;

/// A base record, which has this number and sequence number.
#[derive(Clone, Copy)]
pub(crate) struct Base {
    pub(crate) number: u64,
    pub(crate) sequence: u16,
}

fn lowest_of(body: &Body<'_>) -> u64
    ensures { result ≡ (shown_body body.now).lowest }
{
    match body {
        Body::Resident { .. } => 0,
        Body::Runs { lowest, .. } => *lowest,
    }
}

/// The attribute is the one that an entry names.
#[tactic(auto, unfolding(ntfs_volume::specs::Gather::means))]
fn is_meant(entry: &ListEntry<'_>, attribute: &AttributeView<'_>) -> bool
    ensures { result ≡ is_meant (shown_entry entry.now) (shown_view attribute.now) }
{
    is_of(entry.kind, entry.name, attribute)
        && lowest_of(&attribute.body) == entry.lowest
        && attribute.instance == entry.instance
}

/// The entry names an attribute of this type and name.
fn is_listed(kind: u32, name: &[u8], entry: &ListEntry<'_>) -> bool
    ensures { result ≡ gathering.lists kind name.now (shown_entry entry.now) }
{
    entry.kind == kind && entry.name == name
}

/// The record that a reference names is the one that is meant, and a part of the file of a base record.
#[tactic(auto, unfolding(ntfs_volume::specs::Gather::is_member))]
fn is_member(base: Base, reference: u64, holder: &RecordView<'_>) -> bool
    ensures { result ≡ gathering.is_member base.number base.sequence reference holder.now.head }
{
    let named = target(reference);
    matches(reference, named, holder.sequence())
        && (named == base.number || has_base(holder.base(), base.number, base.sequence))
}

/// Whether the first attribute of a record that an entry names is the name, where there is one.
fn meant_name(sought: &Sought<'_>, holder: &RecordView<'_>, entry: &ListEntry<'_>) -> Option<bool>
    ensures { result ≡ option_map (spec.shows_value sought.now)
        (find (is_meant (shown_entry entry.now)) (map shown_placed (placed_of holder.now))) }
{
    'attributes: for attribute in holder.attributes() {
        if is_meant(entry, &attribute) {
            return Some(shows_value(sought, &attribute));
        }
    }
    None
}

/// Whether the attribute that an entry names of a record is the name, where it is there.
fn found_name(
    sought: &Sought<'_>,
    base: Base,
    holder: &RecordView<'_>,
    entry: &ListEntry<'_>,
) -> Option<bool>
    ensures { result ≡ spec.shown_by sought.now (gathering.found_in base.number base.sequence
        (shown_entry entry.now) (sound_located holder.now)) }
{
    if !is_member(base, entry.reference, holder) {
        return None;
    }
    meant_name(sought, holder, entry)
}

/// The same of the record that the entry names, through a buffer of one record.
fn read_name<G: Image>(
    image: &mut G,
    table: &Table,
    sought: &Sought<'_>,
    base: Base,
    entry: &ListEntry<'_>,
    block: &mut [u8],
) -> Result<Option<bool>, CheckFault>
    requires held { HasClusters (G.seen image.old).size table.now }
    requires sized { 0 < table.now.geometry.record_size }
    requires block { length block.old ≡ table.now.geometry.record_size }
    ensures found { IfTold G.Image image.old (λ content. IfOk result (λ found. found
        ≡ spec.shown_by sought.now (gathering.found_in base.number base.sequence (shown_entry entry.now)
        (slot_at (spec.records_in table.now content) (references.target entry.now.reference))))) }
    ensures cut { IfErr result (λ fault. IsSettled (check_origin fault) → ⊥) }
    ensures reads { OnlyReads G.Image check_origin image.old image.new result }
{
    match table.read_record(image, target(entry.reference), block) {
        Err(fault) => match cut_of(fault) {
            Some(cut) => Err(cut),
            None => Ok(None),
        },
        Ok(()) => match parse(block) {
            Err(_) => Ok(None),
            Ok(holder) => Ok(found_name(sought, base, &holder, entry)),
        },
    }
}

/// All entries of a list for $FILE_NAMEs find them, and one of these is the name.
fn listed_name<G: Image>(
    alloc: Global,
    image: &mut G,
    table: &Table,
    sought: &Sought<'_>,
    base: Base,
    list: &[u8],
) -> Result<bool, CheckFault>
    requires held { HasClusters (G.seen image.old).size table.now }
    ensures found { IfTold G.Image image.old (λ content. IfOk result (λ is. is ≡ spec.have_sought false sought.now
        (gathering.listed_extents base.number file_name_kind [] (listing_of_bytes (Some list.now)) base.sequence
        (spec.records_in table.now content)))) }
    ensures cut { IfErr result (λ fault. IsSettled (check_origin fault) → ⊥) }
    ensures reads { OnlyReads G.Image check_origin image.old image.new result }
{
    if !are_entries(list) {
        return Ok(false);
    }
    let mut block = vec![in alloc; 0; table.geometry().record_size as usize]?;
    let mut any = false;
    'entries: for item in entries(list) {
        if let Ok(entry) = item {
            if is_listed(FILE_NAME, &[], &entry) {
                match read_name(image, table, sought, base, &entry, &mut block)? {
                    None => return Ok(false),
                    Some(shows) => any = any || shows,
                }
            }
        }
    }
    Ok(any)
}

/// The same of the attribute list of a base record.
pub(crate) fn name_in_list<G: Image>(
    alloc: Global,
    image: &mut G,
    table: &Table,
    sought: &Sought<'_>,
    base: Base,
    view: &RecordView<'_>,
    list: &AttributeView<'_>,
) -> Result<bool, CheckFault>
    requires held { HasClusters (G.seen image.old).size table.now }
    ensures found { IfTold G.Image image.old (λ content. (a : Attribute (Laid (List ℕ))) → told a ≡ told_view list.now
        → IfOk result (λ is. is ≡ spec.have_sought false sought.now (gathering.listed_extents base.number
        file_name_kind [] (listing_of_bytes (list_bytes_of table.now.geometry
        (cluster_at content table.now.geometry.cluster) a view.now)) base.sequence
        (spec.records_in table.now content)))) }
    ensures cut { IfErr result (λ fault. IsSettled (check_origin fault) → ⊥) }
    ensures reads { OnlyReads G.Image check_origin image.old image.new result }
{
    match list.body {
        Body::Resident { value } => listed_name(alloc, image, table, sought, base, value),
        Body::Runs { .. } => match read_list(alloc, image, table.geometry(), view, list) {
            Err(fault) => match cut_of(fault) {
                Some(cut) => Err(cut),
                None => Ok(false),
            },
            Ok(bytes) => listed_name(alloc, image, table, sought, base, &bytes),
        },
    }
}
