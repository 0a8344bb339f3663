//! The fields of an entry, by the names that the definitions give them. Each stands at its offset from the first byte.

ghost use Rattle.std.specs.Prelude.{◌≡◌, ◌+◌, ◌*◌, ◌≤◌, length};
ghost use Rattle.ntfs_attrlist.specs.Layout as spec;

use byteorder::{ByteOrder, LittleEndian};

#[tactic(auto, using(crate::proofs::FieldLemmas::number_at_slice))]
pub(crate) fn entry_kind(raw: &[u8]) -> u32
    requires { 26 ≤ length raw.now }
    ensures { result ≡ spec.entry_kind raw.now }
{
    LittleEndian::read_u32(&raw[0x00..])
}

#[tactic(auto, using(crate::proofs::FieldLemmas::number_at_slice))]
pub(crate) fn list_entry_length(raw: &[u8]) -> u16
    requires { 26 ≤ length raw.now }
    ensures { result ≡ spec.list_entry_length raw.now }
{
    LittleEndian::read_u16(&raw[0x04..])
}

#[tactic(auto, unfolding(ntfs_base::specs::Bytes::number_at))]
pub(crate) fn entry_name_units(raw: &[u8]) -> u8
    requires { 26 ≤ length raw.now }
    ensures { result ≡ spec.entry_name_units raw.now }
{
    raw[0x06]
}

#[tactic(auto, unfolding(ntfs_base::specs::Bytes::number_at))]
pub(crate) fn entry_name_offset(raw: &[u8]) -> u8
    requires { 26 ≤ length raw.now }
    ensures { result ≡ spec.entry_name_offset raw.now }
{
    raw[0x07]
}

#[tactic(auto, using(crate::proofs::FieldLemmas::number_at_slice))]
pub(crate) fn entry_lowest(raw: &[u8]) -> u64
    requires { 26 ≤ length raw.now }
    ensures { result ≡ spec.entry_lowest raw.now }
{
    LittleEndian::read_u64(&raw[0x08..])
}

#[tactic(auto, using(crate::proofs::FieldLemmas::number_at_slice))]
pub(crate) fn entry_reference(raw: &[u8]) -> u64
    requires { 26 ≤ length raw.now }
    ensures { result ≡ spec.entry_reference raw.now }
{
    LittleEndian::read_u64(&raw[0x10..])
}

#[tactic(auto, using(crate::proofs::FieldLemmas::number_at_slice))]
pub(crate) fn entry_instance(raw: &[u8]) -> u16
    requires { 26 ≤ length raw.now }
    ensures { result ≡ spec.entry_instance raw.now }
{
    LittleEndian::read_u16(&raw[0x18..])
}

pub(crate) fn entry_name(raw: &[u8]) -> &[u8]
    requires fields { 26 ≤ length raw.now }
    requires within { spec.entry_name_offset raw.now + 2 * spec.entry_name_units raw.now ≤ length raw.now }
    ensures { result.now ≡ spec.entry_name raw.now }
{
    let offset = usize::from(entry_name_offset(raw));
    let size = 2 * usize::from(entry_name_units(raw));
    &raw[offset..offset + size]
}
