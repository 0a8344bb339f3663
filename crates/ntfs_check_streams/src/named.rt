//! What the attribute that an entry of a list names tells of its part of a stream.

ghost use Rattle.std.specs.Prelude.{◌≡◌, ◌<◌, length, map, find, IfErr, IfOk};
ghost use Rattle.std.specs.Option.{option_map};
ghost use Rattle.ntfs_attrlist.specs.Views.{shown_entry};
ghost use Rattle.ntfs_base.specs.Bytes.{cluster_at};
ghost use Rattle.ntfs_base.specs.Frames.{IfTold, IsSettled, OnlyReads};
ghost use Rattle.ntfs_check_records.specs.Reading.{records_of};
ghost use Rattle.ntfs_check_streams.specs.Join as spec;
ghost use Rattle.ntfs_fixup.specs.Fixups.{HasWholeStrides};
ghost use Rattle.ntfs_record.specs.Views.{Shown, placed_of, shown_body, shown_placed, shown_view};
ghost use Rattle.ntfs_rules.specs.Outcome.{check_origin};
ghost use Rattle.ntfs_volume.specs.Gather as gathering;
ghost use Rattle.ntfs_volume.specs.Gathering.{is_meant, shown_id};
ghost use Rattle.ntfs_volume.specs.Located.{slot_at, sound_located};
ghost use Rattle.ntfs_volume.specs.Opened.{HasClusters};
ghost use Rattle.ntfs_volume.specs.References as references;

use crate::join::{Span, span_of};
use ntfs_attrlist::ListEntry;
use ntfs_base::Image;
use ntfs_check_records::read_sound;
use ntfs_record::{AttributeView, Body, RecordView};
use ntfs_rules::CheckFault;
use ntfs_volume::{Table, has_base, matches, target};

/// A base record, which has this number and sequence number.
#[derive(Clone, Copy)]
pub(crate) struct Base {
    pub(crate) number: u64,
    pub(crate) sequence: u16,
}

/// The attribute is of this type and name.
#[tactic(auto, unfolding(ntfs_volume::specs::Gather::is_of))]
pub(crate) fn is_of(kind: u32, name: &[u8], attribute: &AttributeView<'_>) -> bool
    ensures { result ≡ gathering.is_of kind name.now (shown_id (shown_view attribute.now)) }
{
    attribute.kind == kind && attribute.name == name
}

fn lowest_of(body: &Body<'_>) -> u64
    ensures { result ≡ (shown_body body.now).lowest }
{
    match body {
        Body::Resident { .. } => 0,
        Body::Runs { lowest, .. } => *lowest,
    }
}

/// The attribute is the one that an entry names.
#[tactic(auto, unfolding(ntfs_volume::specs::Gather::means))]
fn is_meant(entry: &ListEntry<'_>, attribute: &AttributeView<'_>) -> bool
    ensures { result ≡ is_meant (shown_entry entry.now) (shown_view attribute.now) }
{
    is_of(entry.kind, entry.name, attribute)
        && lowest_of(&attribute.body) == entry.lowest
        && attribute.instance == entry.instance
}

/// The entry names an attribute of this type and name.
pub(crate) fn is_listed(kind: u32, name: &[u8], entry: &ListEntry<'_>) -> bool
    ensures { result ≡ gathering.lists kind name.now (shown_entry entry.now) }
{
    entry.kind == kind && entry.name == name
}

/// The record that a reference names is the one that is meant, and a part of the file of a base record.
#[tactic(auto, unfolding(ntfs_volume::specs::Gather::is_member))]
fn is_member(base: Base, reference: u64, holder: &RecordView<'_>) -> bool
    ensures { result ≡ gathering.is_member base.number base.sequence reference holder.now.head }
{
    let named = target(reference);
    matches(reference, named, holder.sequence())
        && (named == base.number || has_base(holder.base(), base.number, base.sequence))
}

/// What the first attribute of a record that an entry names tells, where there is one.
fn meant_span(holder: &RecordView<'_>, entry: &ListEntry<'_>) -> Option<Span>
    ensures { result ≡ option_map (λ (s : Shown). spec.span_shown s.body)
        (find (is_meant (shown_entry entry.now)) (map shown_placed (placed_of holder.now))) }
{
    'attributes: for attribute in holder.attributes() {
        if is_meant(entry, &attribute) {
            return Some(span_of(&attribute));
        }
    }
    None
}

/// What the attribute that an entry names of a record tells, where it is there.
fn found_span(base: Base, holder: &RecordView<'_>, entry: &ListEntry<'_>) -> Option<Span>
    ensures { result ≡ spec.span_found (gathering.found_in base.number base.sequence
        (shown_entry entry.now) (sound_located holder.now)) }
{
    if !is_member(base, entry.reference, holder) {
        return None;
    }
    meant_span(holder, entry)
}

/// The same of the record that the entry names, through a buffer of one record.
pub(crate) fn read_span<G: Image>(
    image: &mut G,
    table: &Table,
    base: Base,
    entry: &ListEntry<'_>,
    block: &mut [u8],
) -> Result<Option<Span>, CheckFault>
    requires held { HasClusters (G.seen image.old).size table.now }
    requires block { length block.old ≡ table.now.geometry.record_size }
    requires strides { HasWholeStrides block.old }
    ensures found { IfTold G.Image image.old (λ content. IfOk result (λ found. found
        ≡ spec.span_found (gathering.found_in base.number base.sequence (shown_entry entry.now)
        (slot_at (records_of table.now (cluster_at content table.now.geometry.cluster))
        (references.target entry.now.reference))))) }
    ensures cut { IfErr result (λ fault. IsSettled (check_origin fault) → ⊥) }
    ensures reads { OnlyReads G.Image check_origin image.old image.new result }
{
    match read_sound(image, table, target(entry.reference), block) {
        Err(fault) => Err(fault),
        Ok(None) => Ok(None),
        Ok(Some(holder)) => Ok(found_span(base, &holder, entry)),
    }
}
