//! The name of an entry, as a record that it leads to must have it.

ghost use Rattle.std.specs.Prelude.{◌≡◌, ◌≤◌, [], length};
ghost use Rattle.ntfs_base.specs.Bytes.{number_at};
ghost use Rattle.ntfs_check_directories.specs.Names as spec;
ghost use Rattle.ntfs_record.specs.Views.{shown_view};
ghost use Rattle.ntfs_rules.specs.Directories as rules;
ghost use Rattle.ntfs_volume.specs.Gather as gathering;
ghost use Rattle.ntfs_volume.specs.Gathering.{shown_id};

use byteorder::{ByteOrder, LittleEndian};
use ntfs_directory::{name_in_key, namespace_in_key};
use ntfs_record::{AttributeView, Body};
use ntfs_volume::matches;

/// The type of $FILE_NAME.
pub(crate) const FILE_NAME: u32 = 0x30;

/// The name of an entry: that of a key in the directory of a number, which has this sequence number.
#[derive(Clone, Copy)]
pub(crate) struct Sought<'a> {
    pub(crate) directory: u64,
    pub(crate) sequence: u16,
    pub(crate) key: &'a [u8],
}

/// The byte at a place; 0 behind the end.
fn byte_at(bytes: &[u8], place: usize) -> u8
    ensures { result ≡ number_at 1 place bytes.now }
{
    match bytes.get(place) {
        Some(byte) => *byte,
        None => 0,
    }
}

/// The fields of a $FILE_NAME and the name in it are there.
#[tactic(auto, unfolding(ntfs_rules::specs::Directories::has_whole_name))]
fn has_whole_name(value: &[u8]) -> bool
    ensures { result ≡ rules.has_whole_name value.now }
{
    0x42 + 2 * usize::from(byte_at(value, 0x40)) <= value.len()
}

/// The reference of the directory in which a $FILE_NAME stands.
#[tactic(auto, unfolding(ntfs_base::specs::Bytes::number_at))]
fn parent_of(value: &[u8]) -> u64
    requires { 8 ≤ length value.now }
    ensures { result ≡ rules.parent_of value.now }
{
    LittleEndian::read_u64(value)
}

/// A value is the name.
#[tactic(auto, unfolding(ntfs_rules::specs::Directories::is_name_of, ntfs_rules::specs::Directories::has_whole_name, ntfs_rules::specs::Directories::name_of, ntfs_directory::specs::Entries::key_name, ntfs_directory::specs::Entries::key_namespace))]
fn is_sought(sought: &Sought<'_>, value: &[u8]) -> bool
    ensures { result ≡ spec.is_sought sought.now value.now }
{
    if !has_whole_name(value) {
        return false;
    }
    matches(parent_of(value), sought.directory, sought.sequence)
        && namespace_in_key(value) == namespace_in_key(sought.key)
        && name_in_key(value) == name_in_key(sought.key)
}

/// The value of a resident attribute is the name.
pub(crate) fn shows_value(sought: &Sought<'_>, attribute: &AttributeView<'_>) -> bool
    ensures { result ≡ spec.shows_value sought.now (shown_view attribute.now) }
{
    match attribute.body {
        Body::Resident { value } => is_sought(sought, value),
        Body::Runs { .. } => false,
    }
}

/// The attribute is of this type and name.
#[tactic(auto, unfolding(ntfs_volume::specs::Gather::is_of))]
pub(crate) fn is_of(kind: u32, name: &[u8], attribute: &AttributeView<'_>) -> bool
    ensures { result ≡ gathering.is_of kind name.now (shown_id (shown_view attribute.now)) }
{
    attribute.kind == kind && attribute.name == name
}

/// An unnamed $FILE_NAME is the name.
pub(crate) fn shows_name(sought: &Sought<'_>, attribute: &AttributeView<'_>) -> bool
    ensures { result ≡ spec.shows_name sought.now (shown_view attribute.now) }
{
    is_of(FILE_NAME, &[], attribute) && shows_value(sought, attribute)
}
