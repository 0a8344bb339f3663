//! Entries of a directory: the name in a key, and the record that an entry names.

ghost use Rattle.std.specs.Prelude.{◌≡◌, ◌*◌, length};
ghost use Rattle.ntfs_base.specs.Bytes.{number_at};
ghost use Rattle.ntfs_base.specs.Frames.{Gives, IfTold, OnlyReads};
ghost use Rattle.ntfs_directory.specs.Entries as spec;
ghost use Rattle.ntfs_volume.specs.Fault.{volume_origin};
ghost use Rattle.ntfs_volume.specs.Opened.{HasClusters};
ghost use Rattle.ntfs_volume.specs.References as references;

use crate::fault::{bad_entry, entry_refusal};
use ntfs_base::{Image, Rule};
use ntfs_record::{RecordView, parse};
use ntfs_volume::{Table, VolumeFault};

/// Where the name begins in a key.
const NAME: usize = 0x42;

/// What a base record says of itself.
#[derive(Clone, Copy)]
pub(crate) struct BaseRecord {
    /// Its sequence number.
    pub(crate) sequence: u16,
    /// Whether it has the directory flag.
    pub(crate) is_directory: bool,
}

/// The record that an entry names.
#[derive(Clone, Copy, Debug, PartialEq, Eq)]
pub struct EntryRecord {
    /// Its number.
    pub number: u64,
    /// Whether it has the directory flag.
    pub is_directory: bool,
}

/// The byte at a place; 0 behind the end.
fn byte_at(bytes: &[u8], place: usize) -> u8
    ensures { result ≡ number_at 1 place bytes.now }
{
    match bytes.get(place) {
        Some(byte) => *byte,
        None => 0,
    }
}

/// The namespace of the name in a key, a $FILE_NAME: 0 POSIX, 1 Win32, 2 DOS, 3 both of these.
#[tactic(auto, unfolding(crate::specs::Entries::key_namespace))]
pub fn namespace_in_key(key: &[u8]) -> u8
    ensures { result ≡ spec.key_namespace key.now }
{
    byte_at(key, 0x41)
}

/// How many bytes the name in a key has.
fn name_length(key: &[u8]) -> usize
    ensures { result ≡ 2 * spec.key_name_length key.now }
{
    2 * usize::from(byte_at(key, 0x40))
}

/// The name in a key, a $FILE_NAME: its bytes in UTF-16LE.
pub fn name_in_key(key: &[u8]) -> &[u8]
    ensures { result.now ≡ spec.key_name key.now }
{
    let name = key.split_at(NAME.min(key.len())).1;
    name.split_at(name_length(key).min(name.len())).0
}

/// The number of the record that a reference names.
fn target(reference: u64) -> u64
    ensures { result ≡ references.target reference }
{
    reference % (1 << 48)
}

/// The reference names the record of this number and sequence number.
#[tactic(auto, unfolding(ntfs_volume::specs::References::matches))]
fn matches(reference: u64, number: u64, sequence: u16) -> bool
    ensures { result ≡ references.matches reference number sequence }
{
    let turn = reference >> 48;
    target(reference) == number && (turn == 0 || turn == u64::from(sequence))
}

/// What the view of a base record says of itself.
#[tactic(auto, unfolding(crate::specs::Entries::is_directory_flag))]
fn base_said(view: &RecordView<'_>) -> BaseRecord
    ensures { result ≡ spec.base_said view.now }
{
    BaseRecord {
        sequence: view.sequence(),
        is_directory: view.flags() & 2 != 0,
    }
}

/// Reads the base record of a number through a buffer of one record, which then holds anything.
///
/// It answers `Absent` where that record isn't in use, or an extension.
#[tactic(auto, unfolding(crate::specs::Entries::base_record))]
pub(crate) fn read_base<G: Image>(
    image: &mut G,
    table: &Table,
    number: u64,
    block: &mut [u8],
) -> Result<BaseRecord, VolumeFault>
    requires held { HasClusters (G.seen image.old).size table.now }
    requires block { length block.old ≡ table.now.geometry.record_size }
    ensures gives { IfTold G.Image image.old (λ content. Gives volume_origin (λ found. found)
        (spec.base_record table.now.geometry table.now.map content number) result) }
    ensures reads { OnlyReads G.Image volume_origin image.old image.new result }
{
    table.read_record(image, number, block)?;
    match parse(block) {
        Err(_) => Err(VolumeFault::Damaged {
            rule: Rule::C4,
            number,
        }),
        Ok(view) => {
            if view.base() != 0 {
                return Err(VolumeFault::Absent);
            }
            Ok(base_said(&view))
        }
    }
}

/// Reads the record that an entry of the directory of a number names by its reference, through a buffer of one record,
/// which then holds anything.
///
/// Where the reference matches no base record in use the directory is `Damaged` by rule C14; where the record is in use
/// and breaks rule C4, that record is by that rule.
#[tactic(auto, unfolding(crate::specs::Entries::entry_record))]
pub fn read_entry<G: Image>(
    image: &mut G,
    table: &Table,
    directory: u64,
    reference: u64,
    block: &mut [u8],
) -> Result<EntryRecord, VolumeFault>
    requires held { HasClusters (G.seen image.old).size table.now }
    requires block { length block.old ≡ table.now.geometry.record_size }
    ensures gives { IfTold G.Image image.old (λ content. Gives volume_origin (λ found. found)
        (spec.entry_record table.now.geometry table.now.map content directory reference) result) }
    ensures reads { OnlyReads G.Image volume_origin image.old image.new result }
{
    let number = target(reference);
    match read_base(image, table, number, block) {
        Err(fault) => Err(entry_refusal(directory, fault)),
        Ok(base) => {
            if !matches(reference, number, base.sequence) {
                return Err(bad_entry(directory));
            }
            Ok(EntryRecord {
                number,
                is_directory: base.is_directory,
            })
        }
    }
}
