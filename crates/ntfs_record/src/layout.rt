//! The fields of a file record and of its attributes, by the names that the definitions give them: a reader and a
//! setter of each.

ghost use Rattle.std.specs.Prelude.{◌≡◌, ◌+◌, ◌≤◌, length};
ghost use Rattle.ntfs_base.specs.Bytes.{number_at, piece_at as piece_of};
ghost use Rattle.ntfs_record.specs.Layout as spec;

use byteorder::{ByteOrder, LittleEndian};
use ntfs_base::in_place::{overwrite, overwrite_u16, overwrite_u32, overwrite_u64};
pub use ntfs_fixup::{array_count, array_offset, set_array_count, set_array_offset};

#[tactic(auto, unfolding(ntfs_base::specs::Bytes::number_at))]
fn u8_at(bytes: &[u8], place: usize) -> u8
    requires { place + 1 ≤ length bytes.now }
    ensures { result ≡ number_at 1 place bytes.now }
{
    bytes[place]
}

fn u16_at(bytes: &[u8], place: usize) -> u16
    requires { place + 2 ≤ length bytes.now }
    ensures { result ≡ number_at 2 place bytes.now }
{
    LittleEndian::read_u16(&bytes[place..])
}

fn u32_at(bytes: &[u8], place: usize) -> u32
    requires { place + 4 ≤ length bytes.now }
    ensures { result ≡ number_at 4 place bytes.now }
{
    LittleEndian::read_u32(&bytes[place..])
}

fn u64_at(bytes: &[u8], place: usize) -> u64
    requires { place + 8 ≤ length bytes.now }
    ensures { result ≡ number_at 8 place bytes.now }
{
    LittleEndian::read_u64(&bytes[place..])
}

/// So many of the bytes, from a place on.
#[tactic(auto, unfolding(ntfs_base::specs::Bytes::piece_at))]
pub(crate) fn piece_at(bytes: &[u8], place: usize, count: usize) -> &[u8]
    requires { place + count ≤ length bytes.now }
    ensures { result.now ≡ piece_of place count bytes.now }
{
    &bytes[place..place + count]
}

/// `lsn`: the record's number in the journal's log.
pub fn log_number_of(bytes: &[u8]) -> u64
    requires { 16 ≤ length bytes.now }
    ensures { result ≡ spec.log_number_of bytes.now }
{
    u64_at(bytes, 0x08)
}

#[tactic(auto, unfolding(crate::specs::Layout::with_log_number))]
pub fn set_log_number(bytes: &mut [u8], log_number: u64)
    requires { 16 ≤ length bytes.old }
    ensures { bytes.new ≡ spec.with_log_number log_number bytes.old }
{
    overwrite_u64(bytes, 0x08, log_number);
}

/// `sequence_number`: the sequence number.
pub fn sequence_of(bytes: &[u8]) -> u16
    requires { 18 ≤ length bytes.now }
    ensures { result ≡ spec.sequence_of bytes.now }
{
    u16_at(bytes, 0x10)
}

#[tactic(auto, unfolding(crate::specs::Layout::with_sequence))]
pub fn set_sequence(bytes: &mut [u8], sequence: u16)
    requires { 18 ≤ length bytes.old }
    ensures { bytes.new ≡ spec.with_sequence sequence bytes.old }
{
    overwrite_u16(bytes, 0x10, sequence);
}

/// `link_count`: the hard links.
pub fn links_of(bytes: &[u8]) -> u16
    requires { 20 ≤ length bytes.now }
    ensures { result ≡ spec.links_of bytes.now }
{
    u16_at(bytes, 0x12)
}

#[tactic(auto, unfolding(crate::specs::Layout::with_links))]
pub fn set_links(bytes: &mut [u8], links: u16)
    requires { 20 ≤ length bytes.old }
    ensures { bytes.new ≡ spec.with_links links bytes.old }
{
    overwrite_u16(bytes, 0x12, links);
}

/// `attrs_offset`: the place of the first attribute.
pub fn first_attribute_of(bytes: &[u8]) -> u16
    requires { 22 ≤ length bytes.now }
    ensures { result ≡ spec.first_attribute_of bytes.now }
{
    u16_at(bytes, 0x14)
}

#[tactic(auto, unfolding(crate::specs::Layout::with_first_attribute))]
pub fn set_first_attribute(bytes: &mut [u8], first_attribute: u16)
    requires { 22 ≤ length bytes.old }
    ensures { bytes.new ≡ spec.with_first_attribute first_attribute bytes.old }
{
    overwrite_u16(bytes, 0x14, first_attribute);
}

/// `flags`: 1 in use, 2 directory.
pub fn flags_of(bytes: &[u8]) -> u16
    requires { 24 ≤ length bytes.now }
    ensures { result ≡ spec.flags_of bytes.now }
{
    u16_at(bytes, 0x16)
}

#[tactic(auto, unfolding(crate::specs::Layout::with_flags))]
pub fn set_flags(bytes: &mut [u8], flags: u16)
    requires { 24 ≤ length bytes.old }
    ensures { bytes.new ≡ spec.with_flags flags bytes.old }
{
    overwrite_u16(bytes, 0x16, flags);
}

/// `bytes_in_use`: the bytes in use.
pub fn in_use_of(bytes: &[u8]) -> u32
    requires { 28 ≤ length bytes.now }
    ensures { result ≡ spec.in_use_of bytes.now }
{
    u32_at(bytes, 0x18)
}

#[tactic(auto, unfolding(crate::specs::Layout::with_in_use))]
pub fn set_in_use(bytes: &mut [u8], in_use: u32)
    requires { 28 ≤ length bytes.old }
    ensures { bytes.new ≡ spec.with_in_use in_use bytes.old }
{
    overwrite_u32(bytes, 0x18, in_use);
}

/// `bytes_allocated`: the bytes allocated.
pub fn allocated_of(bytes: &[u8]) -> u32
    requires { 32 ≤ length bytes.now }
    ensures { result ≡ spec.allocated_of bytes.now }
{
    u32_at(bytes, 0x1C)
}

#[tactic(auto, unfolding(crate::specs::Layout::with_allocated))]
pub fn set_allocated(bytes: &mut [u8], allocated: u32)
    requires { 32 ≤ length bytes.old }
    ensures { bytes.new ≡ spec.with_allocated allocated bytes.old }
{
    overwrite_u32(bytes, 0x1C, allocated);
}

/// `base_mft_record`: the reference of the base record, 0 in a base record.
pub fn base_of(bytes: &[u8]) -> u64
    requires { 40 ≤ length bytes.now }
    ensures { result ≡ spec.base_of bytes.now }
{
    u64_at(bytes, 0x20)
}

#[tactic(auto, unfolding(crate::specs::Layout::with_base))]
pub fn set_base(bytes: &mut [u8], base: u64)
    requires { 40 ≤ length bytes.old }
    ensures { bytes.new ≡ spec.with_base base bytes.old }
{
    overwrite_u64(bytes, 0x20, base);
}

/// `next_attr_instance`: the instance of the next attribute.
pub fn next_instance_of(bytes: &[u8]) -> u16
    requires { 42 ≤ length bytes.now }
    ensures { result ≡ spec.next_instance_of bytes.now }
{
    u16_at(bytes, 0x28)
}

#[tactic(auto, unfolding(crate::specs::Layout::with_next_instance))]
pub fn set_next_instance(bytes: &mut [u8], next_instance: u16)
    requires { 42 ≤ length bytes.old }
    ensures { bytes.new ≡ spec.with_next_instance next_instance bytes.old }
{
    overwrite_u16(bytes, 0x28, next_instance);
}

/// `mft_record_number`: the record's own number, where the record tells it.
pub fn own_number_of(bytes: &[u8]) -> u32
    requires { 48 ≤ length bytes.now }
    ensures { result ≡ spec.own_number_of bytes.now }
{
    u32_at(bytes, 0x2C)
}

#[tactic(auto, unfolding(crate::specs::Layout::with_own_number))]
pub fn set_own_number(bytes: &mut [u8], own_number: u32)
    requires { 48 ≤ length bytes.old }
    ensures { bytes.new ≡ spec.with_own_number own_number bytes.old }
{
    overwrite_u32(bytes, 0x2C, own_number);
}

/// `type`: the type.
pub fn kind_at(bytes: &[u8], place: usize) -> u32
    requires { place + 4 ≤ length bytes.now }
    ensures { result ≡ spec.kind_at place bytes.now }
{
    u32_at(bytes, place)
}

#[tactic(auto, unfolding(crate::specs::Layout::with_kind_at))]
pub fn set_kind_at(bytes: &mut [u8], place: usize, kind: u32)
    requires { place + 4 ≤ length bytes.old }
    ensures { bytes.new ≡ spec.with_kind_at place kind bytes.old }
{
    overwrite_u32(bytes, place, kind);
}

/// `length`: the length of the attribute.
pub fn length_at(bytes: &[u8], place: usize) -> u32
    requires { place + 8 ≤ length bytes.now }
    ensures { result ≡ spec.length_at place bytes.now }
{
    u32_at(bytes, place + 0x04)
}

#[tactic(auto, unfolding(crate::specs::Layout::with_length_at))]
pub fn set_length_at(bytes: &mut [u8], place: usize, bytes_long: u32)
    requires { place + 8 ≤ length bytes.old }
    ensures { bytes.new ≡ spec.with_length_at place bytes_long bytes.old }
{
    overwrite_u32(bytes, place + 0x04, bytes_long);
}

/// `non_resident`: 0 in a resident attribute, 1 in a non-resident one.
pub fn non_resident_at(bytes: &[u8], place: usize) -> u8
    requires { place + 9 ≤ length bytes.now }
    ensures { result ≡ spec.non_resident_at place bytes.now }
{
    u8_at(bytes, place + 0x08)
}

#[tactic(auto, unfolding(crate::specs::Layout::with_non_resident_at))]
pub fn set_non_resident_at(bytes: &mut [u8], place: usize, non_resident: u8)
    requires { place + 9 ≤ length bytes.old }
    ensures { bytes.new ≡ spec.with_non_resident_at place non_resident bytes.old }
{
    overwrite(bytes, place + 0x08, &[non_resident]);
}

/// `name_length`: the units of the name, of two bytes each.
pub fn name_units_at(bytes: &[u8], place: usize) -> u8
    requires { place + 10 ≤ length bytes.now }
    ensures { result ≡ spec.name_units_at place bytes.now }
{
    u8_at(bytes, place + 0x09)
}

#[tactic(auto, unfolding(crate::specs::Layout::with_name_units_at))]
pub fn set_name_units_at(bytes: &mut [u8], place: usize, name_units: u8)
    requires { place + 10 ≤ length bytes.old }
    ensures { bytes.new ≡ spec.with_name_units_at place name_units bytes.old }
{
    overwrite(bytes, place + 0x09, &[name_units]);
}

/// `name_offset`: the offset of the name.
pub fn name_offset_at(bytes: &[u8], place: usize) -> u16
    requires { place + 12 ≤ length bytes.now }
    ensures { result ≡ spec.name_offset_at place bytes.now }
{
    u16_at(bytes, place + 0x0A)
}

#[tactic(auto, unfolding(crate::specs::Layout::with_name_offset_at))]
pub fn set_name_offset_at(bytes: &mut [u8], place: usize, name_offset: u16)
    requires { place + 12 ≤ length bytes.old }
    ensures { bytes.new ≡ spec.with_name_offset_at place name_offset bytes.old }
{
    overwrite_u16(bytes, place + 0x0A, name_offset);
}

/// `flags`: the low byte compressed, 0x4000 encrypted, 0x8000 sparse.
pub fn attribute_flags_at(bytes: &[u8], place: usize) -> u16
    requires { place + 14 ≤ length bytes.now }
    ensures { result ≡ spec.attribute_flags_at place bytes.now }
{
    u16_at(bytes, place + 0x0C)
}

#[tactic(auto, unfolding(crate::specs::Layout::with_attribute_flags_at))]
pub fn set_attribute_flags_at(bytes: &mut [u8], place: usize, attribute_flags: u16)
    requires { place + 14 ≤ length bytes.old }
    ensures { bytes.new ≡ spec.with_attribute_flags_at place attribute_flags bytes.old }
{
    overwrite_u16(bytes, place + 0x0C, attribute_flags);
}

/// `instance`: the instance, which tells the attributes of a record apart.
pub fn instance_at(bytes: &[u8], place: usize) -> u16
    requires { place + 16 ≤ length bytes.now }
    ensures { result ≡ spec.instance_at place bytes.now }
{
    u16_at(bytes, place + 0x0E)
}

#[tactic(auto, unfolding(crate::specs::Layout::with_instance_at))]
pub fn set_instance_at(bytes: &mut [u8], place: usize, instance: u16)
    requires { place + 16 ≤ length bytes.old }
    ensures { bytes.new ≡ spec.with_instance_at place instance bytes.old }
{
    overwrite_u16(bytes, place + 0x0E, instance);
}

/// `value_length`: the length of the value.
pub fn value_length_at(bytes: &[u8], place: usize) -> u32
    requires { place + 20 ≤ length bytes.now }
    ensures { result ≡ spec.value_length_at place bytes.now }
{
    u32_at(bytes, place + 0x10)
}

#[tactic(auto, unfolding(crate::specs::Layout::with_value_length_at))]
pub fn set_value_length_at(bytes: &mut [u8], place: usize, value_length: u32)
    requires { place + 20 ≤ length bytes.old }
    ensures { bytes.new ≡ spec.with_value_length_at place value_length bytes.old }
{
    overwrite_u32(bytes, place + 0x10, value_length);
}

/// `value_offset`: the offset of the value.
pub fn value_offset_at(bytes: &[u8], place: usize) -> u16
    requires { place + 22 ≤ length bytes.now }
    ensures { result ≡ spec.value_offset_at place bytes.now }
{
    u16_at(bytes, place + 0x14)
}

#[tactic(auto, unfolding(crate::specs::Layout::with_value_offset_at))]
pub fn set_value_offset_at(bytes: &mut [u8], place: usize, value_offset: u16)
    requires { place + 22 ≤ length bytes.old }
    ensures { bytes.new ≡ spec.with_value_offset_at place value_offset bytes.old }
{
    overwrite_u16(bytes, place + 0x14, value_offset);
}

/// `lowest_vcn`: the lowest VCN.
pub fn lowest_at(bytes: &[u8], place: usize) -> u64
    requires { place + 24 ≤ length bytes.now }
    ensures { result ≡ spec.lowest_at place bytes.now }
{
    u64_at(bytes, place + 0x10)
}

#[tactic(auto, unfolding(crate::specs::Layout::with_lowest_at))]
pub fn set_lowest_at(bytes: &mut [u8], place: usize, lowest: u64)
    requires { place + 24 ≤ length bytes.old }
    ensures { bytes.new ≡ spec.with_lowest_at place lowest bytes.old }
{
    overwrite_u64(bytes, place + 0x10, lowest);
}

/// `highest_vcn`: the highest VCN, a signed number, of which -1 says that there is no VCN.
pub fn highest_at(bytes: &[u8], place: usize) -> u64
    requires { place + 32 ≤ length bytes.now }
    ensures { result ≡ spec.highest_at place bytes.now }
{
    u64_at(bytes, place + 0x18)
}

#[tactic(auto, unfolding(crate::specs::Layout::with_highest_at))]
pub fn set_highest_at(bytes: &mut [u8], place: usize, highest: u64)
    requires { place + 32 ≤ length bytes.old }
    ensures { bytes.new ≡ spec.with_highest_at place highest bytes.old }
{
    overwrite_u64(bytes, place + 0x18, highest);
}

/// `mapping_pairs_offset`: the offset of the mapping pairs.
pub fn pairs_offset_at(bytes: &[u8], place: usize) -> u16
    requires { place + 34 ≤ length bytes.now }
    ensures { result ≡ spec.pairs_offset_at place bytes.now }
{
    u16_at(bytes, place + 0x20)
}

#[tactic(auto, unfolding(crate::specs::Layout::with_pairs_offset_at))]
pub fn set_pairs_offset_at(bytes: &mut [u8], place: usize, pairs_offset: u16)
    requires { place + 34 ≤ length bytes.old }
    ensures { bytes.new ≡ spec.with_pairs_offset_at place pairs_offset bytes.old }
{
    overwrite_u16(bytes, place + 0x20, pairs_offset);
}

/// `allocated_size`: the size of its clusters.
pub fn allocated_at(bytes: &[u8], place: usize) -> u64
    requires { place + 48 ≤ length bytes.now }
    ensures { result ≡ spec.allocated_at place bytes.now }
{
    u64_at(bytes, place + 0x28)
}

#[tactic(auto, unfolding(crate::specs::Layout::with_allocated_at))]
pub fn set_allocated_at(bytes: &mut [u8], place: usize, allocated: u64)
    requires { place + 48 ≤ length bytes.old }
    ensures { bytes.new ≡ spec.with_allocated_at place allocated bytes.old }
{
    overwrite_u64(bytes, place + 0x28, allocated);
}

/// `data_size`: the size of the stream.
pub fn size_at(bytes: &[u8], place: usize) -> u64
    requires { place + 56 ≤ length bytes.now }
    ensures { result ≡ spec.size_at place bytes.now }
{
    u64_at(bytes, place + 0x30)
}

#[tactic(auto, unfolding(crate::specs::Layout::with_size_at))]
pub fn set_size_at(bytes: &mut [u8], place: usize, size: u64)
    requires { place + 56 ≤ length bytes.old }
    ensures { bytes.new ≡ spec.with_size_at place size bytes.old }
{
    overwrite_u64(bytes, place + 0x30, size);
}

/// `initialized_size`: the initialised size.
pub fn valid_at(bytes: &[u8], place: usize) -> u64
    requires { place + 64 ≤ length bytes.now }
    ensures { result ≡ spec.valid_at place bytes.now }
{
    u64_at(bytes, place + 0x38)
}

#[tactic(auto, unfolding(crate::specs::Layout::with_valid_at))]
pub fn set_valid_at(bytes: &mut [u8], place: usize, valid: u64)
    requires { place + 64 ≤ length bytes.old }
    ensures { bytes.new ≡ spec.with_valid_at place valid bytes.old }
{
    overwrite_u64(bytes, place + 0x38, valid);
}
