//! Gathering: the stream of a type and name of a base record, from whichever records hold its extents.

ghost use Rattle.std.specs.Prelude.{◌≡◌, ◌≤◌, ◌<◌, ◌+◌, ◌^◌, ℕ, List, length, vec_len, map, find, Some, Ok, true, false, IfSome, IfOk, OnOk};
ghost use Rattle.std.specs.Option.{option_map};
ghost use Rattle.ntfs_attrlist.specs.Views.{shown_entry};
ghost use Rattle.ntfs_base.specs.Bytes.{cluster_at};
ghost use Rattle.ntfs_base.specs.Frames.{Gives, IfTold, IsJudged, OnlyReads};
ghost use Rattle.ntfs_record.specs.FileRecord.{Attribute, Laid};
ghost use Rattle.ntfs_record.specs.Views.{HasBounds, placed_of, shown_body, shown_placed, shown_view};
ghost use Rattle.ntfs_volume.specs.Fault.{volume_origin};
ghost use Rattle.ntfs_volume.specs.Gather as gathering;
ghost use Rattle.ntfs_volume.specs.Gathering.{AreParts, HoldsRecord, cell_slot, file_lists, finished, finished_of, found_part, is_meant, listed_parts, no_parts, shown_id, shown_parts, shown_parts_of, stream_in_file, volume_slots};
ghost use Rattle.ntfs_volume.specs.Gathering as faults;
ghost use Rattle.ntfs_volume.specs.ListViews.{list_bytes_of};
ghost use Rattle.ntfs_volume.specs.Listing.{listing_of_bytes};
ghost use Rattle.ntfs_volume.specs.Located.{slot_at};
ghost use Rattle.ntfs_volume.specs.Opened.{HasClusters};
ghost use Rattle.ntfs_volume.specs.Records.{read_of};
ghost use Rattle.ntfs_volume.specs.References as references;
ghost use Rattle.ntfs_volume.specs.Streams.{IsReadable, gather_of};
ghost use Rattle.ntfs_volume.specs.Views.{told, told_view};

use crate::fault::VolumeFault;
use crate::list::{are_entries, read_list, zeros};
use crate::parts::{Parts, damaged};
use crate::stream::Stream;
use crate::table::Table;
use crate::volume::Volume;
use crate::wanted::{Wanted, first_of};
use ntfs_attrlist::{ListEntry, entries};
use ntfs_base::{Image, Rule};
use ntfs_record::{AttributeView, Body, RecordView, parse};
use std::alloc::{AllocError, Global};

/// What is gathered: of which base record, which has this sequence number, of which type and name.
#[derive(Clone, Copy)]
struct Goal<'a> {
    number: u64,
    sequence: u16,
    kind: u32,
    name: &'a [u8],
}

/// The bytes of the record that was read last, and its number.
#[derive(Drop)]
struct Held {
    block: Vec<u8>,
    number: Option<u64>,
}

/// The attribute list of a record is wrong.
fn bad_list(number: u64) -> VolumeFault
    ensures { result ≡ gathering.bad_list number }
{
    damaged(Rule::C11, number)
}

/// Something is wrong with a record that is in use.
fn bad_record(number: u64) -> VolumeFault
    ensures { result ≡ gathering.bad_record number }
{
    damaged(Rule::C4, number)
}

/// The number of the record that a reference names.
pub fn target(reference: u64) -> u64
    ensures { result ≡ references.target reference }
{
    reference % (1 << 48)
}

/// The reference names the record of this number and sequence number.
#[tactic(auto, unfolding(crate::specs::References::matches))]
pub fn matches(reference: u64, number: u64, sequence: u16) -> bool
    ensures { result ≡ references.matches reference number sequence }
{
    let turn = reference >> 48;
    target(reference) == number && (turn == 0 || turn == u64::from(sequence))
}

/// A base reference names the record of this number and sequence number as the base.
#[tactic(auto, unfolding(crate::specs::References::has_base))]
pub fn has_base(base: u64, number: u64, sequence: u16) -> bool
    ensures { result ≡ references.has_base base number sequence }
{
    base != 0 && matches(base, number, sequence)
}

/// The record of a number and a base reference is a part of the file of this base record.
fn belongs(number: u64, base: u64, of_number: u64, of_sequence: u16) -> bool
    ensures { result ≡ references.belongs number base of_number of_sequence }
{
    number == of_number || has_base(base, of_number, of_sequence)
}

/// The record that a reference names is the one that is meant, and a part of the file of the base record of a number.
#[tactic(auto, unfolding(crate::specs::Gather::is_member))]
fn is_member(number: u64, sequence: u16, reference: u64, holder: &RecordView<'_>) -> bool
    ensures { result ≡ gathering.is_member number sequence reference holder.now.head }
{
    let named = target(reference);
    matches(reference, named, holder.sequence()) && belongs(named, holder.base(), number, sequence)
}

/// The attribute is of this type and name.
#[tactic(auto, unfolding(crate::specs::Gather::is_of))]
fn is_of(kind: u32, name: &[u8], attribute: &AttributeView<'_>) -> bool
    ensures { result ≡ gathering.is_of kind name.now (shown_id (shown_view attribute.now)) }
{
    attribute.kind == kind && attribute.name == name
}

fn lowest_of(body: &Body<'_>) -> u64
    ensures { result ≡ (shown_body body.now).lowest }
{
    match body {
        Body::Resident { .. } => 0,
        Body::Runs { lowest, .. } => *lowest,
    }
}

/// The attribute is the one that an entry names.
#[tactic(auto, unfolding(crate::specs::Gather::means))]
fn is_meant(entry: &ListEntry<'_>, attribute: &AttributeView<'_>) -> bool
    ensures { result ≡ is_meant (shown_entry entry.now) (shown_view attribute.now) }
{
    is_of(entry.kind, entry.name, attribute)
        && lowest_of(&attribute.body) == entry.lowest
        && attribute.instance == entry.instance
}

/// The entry names an attribute of the type and name that are gathered.
fn is_listed(goal: &Goal<'_>, entry: &ListEntry<'_>) -> bool
    ensures { result ≡ gathering.lists goal.now.kind goal.now.name.now (shown_entry entry.now) }
{
    entry.kind == goal.kind && entry.name == goal.name
}

/// The first attribute of a record that an entry names.
fn find_extent<'a>(holder: &RecordView<'a>, entry: &ListEntry<'_>) -> Option<AttributeView<'a>>
    ensures found { option_map shown_view result ≡
        find (is_meant (shown_entry entry.now)) (map shown_placed (placed_of holder.now)) }
    ensures bounds { IfSome result (λ view. HasBounds (shown_view view)) }
{
    'attributes: for attribute in holder.attributes() {
        if is_meant(entry, &attribute) {
            return Some(attribute);
        }
    }
    None
}

/// The fault of a list that can't be read.
fn list_fault(number: u64, fault: VolumeFault) -> VolumeFault
    ensures { result ≡ faults.list_fault number fault }
{
    match fault {
        VolumeFault::Damaged { .. } => bad_list(number),
        other => other,
    }
}

/// The fault of an entry whose record can't be read.
fn entry_fault(number: u64, fault: VolumeFault) -> VolumeFault
    ensures { result ≡ faults.entry_fault number fault }
{
    match fault {
        VolumeFault::Absent => bad_list(number),
        other => other,
    }
}

impl Held {
    /// Reads the record of a number, where it isn't there yet.
    fn read<G: Image>(
        &mut self,
        table: &Table,
        image: &mut G,
        number: u64,
    ) -> Result<(), VolumeFault>
        requires held { HasClusters (G.seen image.old).size table.now }
        requires block { vec_len self.old.block ≡ table.now.geometry.record_size }
        requires known { IfTold G.Image image.old (λ content. HoldsRecord table.now content self.old) }
        ensures gives { IfTold G.Image image.old (λ content. Gives volume_origin (λ done. self.new.block.items)
            (read_of table.now.geometry table.now.map (cluster_at content table.now.geometry.cluster) number) result) }
        ensures block { vec_len self.new.block ≡ table.now.geometry.record_size }
        ensures known { IfTold G.Image image.old (λ content. HoldsRecord table.now content self.new) }
        ensures reads { OnlyReads G.Image volume_origin image.old image.new result }
    {
        if self.number == Some(number) {
            return Ok(());
        }
        self.number = None;
        table.read_record(image, number, &mut self.block)?;
        self.number = Some(number);
        Ok(())
    }
}

/// Takes the extent that an entry names of a record.
fn take_extent(
    alloc: Global,
    goal: &Goal<'_>,
    holder: &RecordView<'_>,
    entry: &ListEntry<'_>,
    clusters: u64,
    parts: &mut Parts,
) -> Result<(), VolumeFault>
    requires count { parts.old.count + 1 < 2 ^ 64 }
    requires parts { AreParts clusters parts.old }
    ensures gives { Gives volume_origin (λ done. shown_parts parts.new) (found_part goal.now.number goal.now.sequence
        (shown_entry entry.now) (cell_slot clusters holder.now) (shown_parts parts.old)) result }
    ensures parts { OnOk result (AreParts clusters parts.new) }
    ensures count { OnOk result (parts.new.count ≡ parts.old.count + 1) }
    ensures judged { IsJudged volume_origin result }
{
    if !is_member(goal.number, goal.sequence, entry.reference, holder) {
        return Err(bad_list(goal.number));
    }
    match find_extent(holder, entry) {
        None => Err(bad_list(goal.number)),
        Some(extent) => {
            parts.take(alloc, target(entry.reference), &extent, clusters)?;
            Ok(())
        }
    }
}

/// Takes the extent that an entry names.
fn take_entry<G: Image>(
    alloc: Global,
    image: &mut G,
    table: &Table,
    goal: &Goal<'_>,
    base: &RecordView<'_>,
    entry: &ListEntry<'_>,
    held: &mut Held,
    parts: &mut Parts,
) -> Result<(), VolumeFault>
    requires held { HasClusters (G.seen image.old).size table.now }
    requires base { IfTold G.Image image.old (λ content. slot_at (volume_slots table.now content) goal.now.number
        ≡ cell_slot table.now.geometry.clusters base.now) }
    requires parts { AreParts table.now.geometry.clusters parts.old }
    requires count { parts.old.count + 1 < 2 ^ 64 }
    requires block { vec_len held.old.block ≡ table.now.geometry.record_size }
    requires known { IfTold G.Image image.old (λ content. HoldsRecord table.now content held.old) }
    ensures gives { IfTold G.Image image.old (λ content. Gives volume_origin (λ done. shown_parts parts.new)
        (found_part goal.now.number goal.now.sequence (shown_entry entry.now) (slot_at (volume_slots table.now content)
        (references.target entry.now.reference)) (shown_parts parts.old)) result) }
    ensures parts { OnOk result (AreParts table.now.geometry.clusters parts.new) }
    ensures count { OnOk result (parts.new.count ≡ parts.old.count + 1) }
    ensures block { vec_len held.new.block ≡ table.now.geometry.record_size }
    ensures known { IfTold G.Image image.old (λ content. HoldsRecord table.now content held.new) }
    ensures reads { OnlyReads G.Image volume_origin image.old image.new result }
{
    let number = target(entry.reference);
    let clusters = table.geometry().clusters;
    if number == goal.number {
        return take_extent(alloc, goal, base, entry, clusters, parts);
    }
    match held.read(table, image, number) {
        Err(fault) => Err(entry_fault(goal.number, fault)),
        Ok(()) => match parse(&held.block) {
            Err(_) => Err(bad_record(number)),
            Ok(holder) => take_extent(alloc, goal, &holder, entry, clusters, parts),
        },
    }
}

/// Takes the extents of the entries of a list in which all are right.
fn take_entries<G: Image>(
    alloc: Global,
    image: &mut G,
    table: &Table,
    goal: &Goal<'_>,
    base: &RecordView<'_>,
    list: &[u8],
    parts: &mut Parts,
) -> Result<(), VolumeFault>
    requires held { HasClusters (G.seen image.old).size table.now }
    requires base { IfTold G.Image image.old (λ content. slot_at (volume_slots table.now content) goal.now.number
        ≡ cell_slot table.now.geometry.clusters base.now) }
    requires parts { AreParts table.now.geometry.clusters parts.old }
    requires none { parts.old.count ≡ 0 }
    ensures gives { IfTold G.Image image.old (λ content. Gives volume_origin (λ done. shown_parts parts.new)
        (listed_parts goal.now.number goal.now.sequence goal.now.kind goal.now.name.now (volume_slots table.now content)
        (listing_of_bytes (Some list.now)) (shown_parts parts.old)) result) }
    ensures parts { OnOk result (AreParts table.now.geometry.clusters parts.new) }
    ensures reads { OnlyReads G.Image volume_origin image.old image.new result }
{
    if !are_entries(list) {
        return Err(bad_list(goal.number));
    }
    let block = zeros(alloc, table.geometry().record_size as usize)?;
    let mut held = Held {
        block,
        number: None,
    };
    'entries: for item in entries(list) {
        if let Ok(entry) = item {
            if is_listed(goal, &entry) {
                if let Err(fault) = take_entry(
                    alloc, image, table, goal, base, &entry, &mut held, parts,
                ) {
                    return Err(fault);
                }
            }
        }
    }
    Ok(())
}

/// Takes the extents that the attribute list of the base record names.
fn take_list<G: Image>(
    alloc: Global,
    image: &mut G,
    table: &Table,
    goal: &Goal<'_>,
    base: &RecordView<'_>,
    list: &AttributeView<'_>,
    parts: &mut Parts,
) -> Result<(), VolumeFault>
    requires held { HasClusters (G.seen image.old).size table.now }
    requires base { IfTold G.Image image.old (λ content. slot_at (volume_slots table.now content) goal.now.number
        ≡ cell_slot table.now.geometry.clusters base.now) }
    requires parts { AreParts table.now.geometry.clusters parts.old }
    requires none { parts.old.count ≡ 0 }
    ensures gives { IfTold G.Image image.old (λ content. (a : Attribute (Laid (List ℕ))) → told a ≡ told_view list.now
        → Gives volume_origin (λ done. shown_parts parts.new) (listed_parts goal.now.number goal.now.sequence
        goal.now.kind goal.now.name.now (volume_slots table.now content) (listing_of_bytes
        (list_bytes_of table.now.geometry (cluster_at content table.now.geometry.cluster) a base.now))
        (shown_parts parts.old)) result) }
    ensures parts { OnOk result (AreParts table.now.geometry.clusters parts.new) }
    ensures reads { OnlyReads G.Image volume_origin image.old image.new result }
{
    match list.body {
        Body::Resident { value } => take_entries(alloc, image, table, goal, base, value, parts),
        Body::Runs { .. } => match read_list(alloc, image, table.geometry(), base, list) {
            Err(fault) => Err(list_fault(goal.number, fault)),
            Ok(bytes) => take_entries(alloc, image, table, goal, base, &bytes, parts),
        },
    }
}

/// Takes the base record's own extents.
fn take_own(
    alloc: Global,
    goal: &Goal<'_>,
    base: &RecordView<'_>,
    clusters: u64,
    parts: &mut Parts,
) -> Result<(), AllocError>
    requires none { parts.old.count ≡ 0 }
    requires parts { AreParts clusters parts.old }
    ensures shown { OnOk result (shown_parts parts.new ≡ shown_parts_of clusters goal.now.number goal.now.kind
        goal.now.name.now (map shown_placed (placed_of base.now)) (shown_parts parts.old)) }
    ensures parts { OnOk result (AreParts clusters parts.new) }
{
    'attributes: for attribute in base.attributes() {
        if is_of(goal.kind, goal.name, &attribute) {
            parts.take(alloc, goal.number, &attribute, clusters)?;
        }
    }
    Ok(())
}

/// The stream of a base record's own extents.
fn gather_own(
    alloc: Global,
    table: &Table,
    goal: &Goal<'_>,
    base: &RecordView<'_>,
) -> Result<Stream, VolumeFault>
    ensures gives { Gives volume_origin (λ stream. stream) (finished table.now.geometry.cluster goal.now.number
        (shown_parts_of table.now.geometry.clusters goal.now.number goal.now.kind goal.now.name.now
        (map shown_placed (placed_of base.now)) no_parts)) result }
    ensures readable { IfOk result (λ found. IsReadable table.now.geometry found.stream) }
    ensures judged { IsJudged volume_origin result }
{
    let geometry = table.geometry();
    let mut parts = Parts::new(alloc);
    match take_own(alloc, goal, base, geometry.clusters, &mut parts) {
        Err(_) => Err(VolumeFault::NoMemory),
        Ok(()) => parts.finish(goal.number, geometry),
    }
}

/// The stream of the extents that a base record's attribute list names.
fn gather_listed<G: Image>(
    alloc: Global,
    image: &mut G,
    table: &Table,
    goal: &Goal<'_>,
    base: &RecordView<'_>,
    list: &AttributeView<'_>,
) -> Result<Stream, VolumeFault>
    requires held { HasClusters (G.seen image.old).size table.now }
    requires base { IfTold G.Image image.old (λ content. slot_at (volume_slots table.now content) goal.now.number
        ≡ cell_slot table.now.geometry.clusters base.now) }
    ensures gives { IfTold G.Image image.old (λ content. (a : Attribute (Laid (List ℕ))) → told a ≡ told_view list.now
        → Gives volume_origin (λ stream. stream) (finished_of table.now.geometry.cluster goal.now.number
        (listed_parts goal.now.number goal.now.sequence goal.now.kind goal.now.name.now
        (volume_slots table.now content) (listing_of_bytes (list_bytes_of table.now.geometry
        (cluster_at content table.now.geometry.cluster) a base.now)) no_parts)) result) }
    ensures readable { IfOk result (λ found. IsReadable table.now.geometry found.stream) }
    ensures reads { OnlyReads G.Image volume_origin image.old image.new result }
{
    let mut parts = Parts::new(alloc);
    match take_list(alloc, image, table, goal, base, list, &mut parts) {
        Err(fault) => Err(fault),
        Ok(()) => parts.finish(goal.number, table.geometry()),
    }
}

/// The stream of a base record.
fn gather_file<G: Image>(
    alloc: Global,
    image: &mut G,
    table: &Table,
    goal: &Goal<'_>,
    base: &RecordView<'_>,
) -> Result<Stream, VolumeFault>
    requires held { HasClusters (G.seen image.old).size table.now }
    requires base { IfTold G.Image image.old (λ content. slot_at (volume_slots table.now content) goal.now.number
        ≡ cell_slot table.now.geometry.clusters base.now) }
    requires sequence { goal.now.sequence ≡ base.now.head.sequence }
    ensures gives { IfTold G.Image image.old (λ content. Gives volume_origin (λ stream. stream)
        (stream_in_file table.now.geometry.cluster goal.now.number goal.now.kind goal.now.name.now
        (file_lists table.now.geometry (cluster_at content table.now.geometry.cluster) base.now)
        (cell_slot table.now.geometry.clusters base.now) (volume_slots table.now content)) result) }
    ensures readable { IfOk result (λ found. IsReadable table.now.geometry found.stream) }
    ensures reads { OnlyReads G.Image volume_origin image.old image.new result }
{
    match first_of(base, Wanted::List) {
        None => gather_own(alloc, table, goal, base),
        Some(list) => gather_listed(alloc, image, table, goal, base, &list),
    }
}

impl Table {
    /// The stream of a type and name of a base record.
    pub fn gather<G: Image>(
        &self,
        alloc: Global,
        image: &mut G,
        base: u64,
        kind: u32,
        name: &[u8],
    ) -> Result<Stream, VolumeFault>
        requires held { HasClusters (G.seen image.old).size self.now }
        ensures gives { IfTold G.Image image.old (λ content. Gives volume_origin (λ stream. stream)
            (gather_of self.now.geometry self.now.map (cluster_at content self.now.geometry.cluster)
            base kind name.now) result) }
        ensures readable { IfOk result (λ found. IsReadable self.now.geometry found.stream) }
        ensures reads { OnlyReads G.Image volume_origin image.old image.new result }
    {
        let mut block = zeros(alloc, self.geometry().record_size as usize)?;
        if let Err(fault) = self.read_record(image, base, &mut block) {
            return Err(fault);
        }
        match parse(&block) {
            Err(_) => Err(bad_record(base)),
            Ok(view) => {
                if view.base() != 0 {
                    return Err(VolumeFault::Absent);
                }
                let goal = Goal {
                    number: base,
                    sequence: view.sequence(),
                    kind,
                    name,
                };
                gather_file(alloc, image, self, &goal, &view)
            }
        }
    }
}

impl<'a, G: Image> Volume<'a, G> {
    /// The stream of a type and name of a base record, by the kept map.
    pub fn gather(
        &mut self,
        alloc: Global,
        base: u64,
        kind: u32,
        name: &[u8],
    ) -> Result<Stream, VolumeFault>
        requires held { HasClusters (G.seen self.old.image.now).size self.old.table }
        ensures gives { IfTold G.Image self.old.image.now (λ content. Gives volume_origin (λ stream. stream)
            (gather_of self.old.table.geometry self.old.table.map
            (cluster_at content self.old.table.geometry.cluster) base kind name.now) result) }
        ensures readable { IfOk result (λ found. IsReadable self.old.table.geometry found.stream) }
        ensures same_reference { self.new.image.ghost_name ≡ self.old.image.ghost_name }
        ensures kept { self.new.table ≡ self.old.table }
        ensures reads { OnlyReads G.Image volume_origin self.old.image.now self.new.image.now result }
    {
        self.table.gather(alloc, &mut *self.image, base, kind, name)
    }
}
