//! Attribute lists against the attributes that are there.

ghost use Rattle.std.specs.Prelude.{◌≡◌, ◌==◌, ◌||◌, not, ℕ, List, Some, false};
ghost use Rattle.ntfs_base.specs.Bytes.{cluster_at};
ghost use Rattle.ntfs_base.specs.Frames.{IfTold, OnlyReads};
ghost use Rattle.ntfs_boot.specs.Geometry.{IsOpened};
ghost use Rattle.ntfs_check_records.specs.Reading.{records_of};
ghost use Rattle.ntfs_check_files.specs.Extending.{extending};
ghost use Rattle.ntfs_check_files.specs.Members.{matches_listing};
ghost use Rattle.ntfs_check_records.specs.Reading.{Answers};
ghost use Rattle.ntfs_record.specs.FileRecord.{Attribute, Laid};
ghost use Rattle.ntfs_rules.specs.Outcome.{check_origin};
ghost use Rattle.ntfs_volume.specs.Gathering.{file_lists};
ghost use Rattle.ntfs_volume.specs.ListViews.{list_bytes_of};
ghost use Rattle.ntfs_volume.specs.Listing.{listing_of_bytes};
ghost use Rattle.ntfs_volume.specs.Opened.{HasClusters};
ghost use Rattle.ntfs_volume.specs.Views.{told, told_view};

use crate::compare::are_listed;
use crate::extensions::Extensions;
use crate::members::keep_file;
use ntfs_base::Image;
use ntfs_record::{AttributeView, Body, RecordView};
use ntfs_rules::{CheckFault, cut_of};
use ntfs_volume::{Table, Wanted, are_entries, first_of, read_list};
use std::alloc::Global;

/// A list of these bytes has the attributes of the file of a base record as its entries.
fn matches_bytes<G: Image>(
    alloc: Global,
    image: &mut G,
    table: &Table,
    number: u64,
    view: &RecordView<'_>,
    numbers: &[u64],
    list: &[u8],
) -> Result<bool, CheckFault>
    requires held { HasClusters (G.seen image.old).size table.now }
    ensures answers { IfTold G.Image image.old (λ content. Answers (matches_listing
        (records_of table.now (cluster_at content table.now.geometry.cluster)) number view.now numbers.now
        (listing_of_bytes (Some list.now))) result) }
    ensures reads { OnlyReads G.Image check_origin image.old image.new result }
{
    if !are_entries(list) {
        return Ok(false);
    }
    match keep_file(alloc, image, table, number, view, numbers) {
        Err(fault) => Err(fault),
        Ok(kept) => Ok(are_listed(list, &kept)),
    }
}

/// The attribute list of a base record has the attributes of the file as its entries.
fn matches_list<G: Image>(
    alloc: Global,
    image: &mut G,
    table: &Table,
    number: u64,
    view: &RecordView<'_>,
    numbers: &[u64],
    list: &AttributeView<'_>,
) -> Result<bool, CheckFault>
    requires held { HasClusters (G.seen image.old).size table.now }
    ensures answers { IfTold G.Image image.old (λ content. (a : Attribute (Laid (List ℕ))) → told a ≡ told_view list.now
        → Answers (matches_listing (records_of table.now (cluster_at content table.now.geometry.cluster)) number
        view.now numbers.now (listing_of_bytes (list_bytes_of table.now.geometry
        (cluster_at content table.now.geometry.cluster) a view.now))) result) }
    ensures reads { OnlyReads G.Image check_origin image.old image.new result }
{
    match list.body {
        Body::Resident { value } => {
            matches_bytes(alloc, image, table, number, view, numbers, value)
        }
        Body::Runs { .. } => match read_list(alloc, image, table.geometry(), view, list) {
            Err(fault) => match cut_of(fault) {
                Some(cut) => Err(cut),
                None => Ok(false),
            },
            Ok(bytes) => matches_bytes(alloc, image, table, number, view, numbers, &bytes),
        },
    }
}

/// A base record without a list has no record that extends it; the list of one that has it has the attributes of the
/// file as its entries. Nothing is said against a record that isn't a base record.
pub(crate) fn is_listed<G: Image>(
    alloc: Global,
    image: &mut G,
    table: &Table,
    extensions: &Extensions,
    number: u64,
    view: &RecordView<'_>,
) -> Result<bool, CheckFault>
    requires held { HasClusters (G.seen image.old).size table.now }
    ensures answers { IfTold G.Image image.old (λ content. Answers (not (view.now.head.base == 0) || matches_listing
        (records_of table.now (cluster_at content table.now.geometry.cluster)) number view.now
        (extending extensions.now number)
        (file_lists table.now.geometry (cluster_at content table.now.geometry.cluster) view.now)) result) }
    ensures reads { OnlyReads G.Image check_origin image.old image.new result }
{
    let base = view.base();
    if base != 0 {
        return Ok(true);
    }
    let numbers = extensions.of(number);
    match first_of(view, Wanted::List) {
        None => Ok(numbers.is_empty()),
        Some(list) => matches_list(alloc, image, table, number, view, numbers, &list),
    }
}
