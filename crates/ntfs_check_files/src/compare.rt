//! The entries of an attribute list against the attributes of a file.

ghost use Rattle.std.specs.Prelude.{◌≡◌, ◌==◌, ◌&&◌};
ghost use Rattle.ntfs_check_records.specs.Entries.{good_entries};
ghost use Rattle.std.specs.List.{list_any};
ghost use Rattle.ntfs_attrlist.specs.Reading.{list_items};
ghost use Rattle.ntfs_attrlist.specs.Views.{shown_entry};
ghost use Rattle.ntfs_check_files.specs.Members.{all_name, all_named, is_same, names_kept, told_member};
ghost use Rattle.ntfs_rules.specs.Files.{count_of, names_member};
ghost use Rattle.ntfs_volume.specs.Gather.{means};

use crate::members::Attribute;
use ntfs_attrlist::{ListEntry, entries};
use ntfs_volume::matches;

/// An entry is of the type, name, lowest VCN and instance of an attribute.
#[tactic(auto, unfolding(ntfs_volume::specs::Gather::means, ntfs_volume::specs::Gather::is_of))]
fn is_meant(entry: &ListEntry<'_>, attribute: &Attribute) -> bool
    ensures { result ≡ means (shown_entry entry.now) (told_member attribute.now).id }
{
    attribute.kind == entry.kind
        && attribute.name.as_slice() == entry.name
        && attribute.lowest == entry.lowest
        && attribute.instance == entry.instance
}

/// An entry names an attribute.
#[tactic(auto, unfolding(ntfs_rules::specs::Files::names_member))]
fn is_named(entry: &ListEntry<'_>, attribute: &Attribute) -> bool
    ensures { result ≡ names_kept (shown_entry entry.now) attribute.now }
{
    is_meant(entry, attribute) && matches(entry.reference, attribute.number, attribute.sequence)
}

/// Two attributes are the same.
#[tactic(auto, unfolding(ntfs_rules::specs::Files::is_same_member))]
fn is_same(attribute: &Attribute, other: &Attribute) -> bool
    ensures { result ≡ is_same attribute.now other.now }
{
    attribute.number == other.number
        && attribute.kind == other.kind
        && attribute.name.as_slice() == other.name.as_slice()
        && attribute.lowest == other.lowest
        && attribute.instance == other.instance
}

/// An entry names one of these attributes.
fn names_any(entry: &ListEntry<'_>, kept: &[Attribute]) -> bool
    ensures { result ≡ list_any (names_kept (shown_entry entry.now)) kept.now }
{
    kept.iter().any(|attribute| is_named(entry, attribute))
}

/// One entry alone of a list names an attribute.
fn is_named_once(list: &[u8], attribute: &Attribute) -> bool
    ensures { result ≡ (count_of (names_member (told_member attribute.now)) (good_entries (list_items list.now)) == 1) }
{
    let mut found = false;
    'entries: for item in entries(list) {
        if let Ok(entry) = item {
            if is_named(&entry, attribute) {
                if found {
                    return false;
                }
                found = true;
            }
        }
    }
    found
}

/// One of these attributes alone is the same as an attribute.
fn is_only(attribute: &Attribute, kept: &[Attribute]) -> bool
    ensures { result ≡ (count_of (is_same attribute.now) kept.now == 1) }
{
    let mut found = false;
    'kept: for other in kept {
        if is_same(attribute, other) {
            if found {
                return false;
            }
            found = true;
        }
    }
    found
}

/// Each entry of a list names one of these attributes.
fn all_name(list: &[u8], kept: &[Attribute]) -> bool
    ensures { result ≡ all_name (good_entries (list_items list.now)) kept.now }
{
    'entries: for item in entries(list) {
        if let Ok(entry) = item {
            if !names_any(&entry, kept) {
                return false;
            }
        }
    }
    true
}

/// Each of these attributes is named by one entry of a list alone, and is the only such one.
fn all_named(list: &[u8], kept: &[Attribute]) -> bool
    ensures { result ≡ all_named (good_entries (list_items list.now)) kept.now }
{
    kept.iter().all(|attribute| is_named_once(list, attribute) && is_only(attribute, kept))
}

/// The entries of a list and these attributes are each other's.
pub(crate) fn are_listed(list: &[u8], kept: &[Attribute]) -> bool
    ensures { result ≡ (all_name (good_entries (list_items list.now)) kept.now
        && all_named (good_entries (list_items list.now)) kept.now) }
{
    all_name(list, kept) && all_named(list, kept)
}
