//! The fields of an index, under the names of the public layout.

ghost use Rattle.std.specs.Prelude.{◌≡◌, ◌+◌, ◌≤◌, length};
ghost use Rattle.ntfs_base.specs.Bytes.{number_at};
ghost use Rattle.ntfs_index.specs.Layout as spec;

use byteorder::{ByteOrder, LittleEndian};

/// Where the INDEX_HEADER of a root begins, behind the INDEX_ROOT.
pub(crate) const ROOT_HEADER: usize = 0x10;

/// Where the INDEX_HEADER of a block begins, in its INDEX_BLOCK.
pub(crate) const BLOCK_HEADER: usize = 0x18;

fn u16_at(bytes: &[u8], place: usize) -> u16
    requires { place + 2 ≤ length bytes.now }
    ensures { result ≡ number_at 2 place bytes.now }
{
    LittleEndian::read_u16(&bytes[place..])
}

fn u32_at(bytes: &[u8], place: usize) -> u32
    requires { place + 4 ≤ length bytes.now }
    ensures { result ≡ number_at 4 place bytes.now }
{
    LittleEndian::read_u32(&bytes[place..])
}

fn u64_at(bytes: &[u8], place: usize) -> u64
    requires { place + 8 ≤ length bytes.now }
    ensures { result ≡ number_at 8 place bytes.now }
{
    LittleEndian::read_u64(&bytes[place..])
}

// ---- INDEX_ROOT

/// type: the kind of the attribute that is each entry's key.
pub(crate) fn root_type(root: &[u8]) -> u32
    requires { 0x10 ≤ length root.now }
    ensures { result ≡ spec.root_type root.now }
{
    u32_at(root, 0x00)
}

/// collation_rule.
pub(crate) fn collation_rule(root: &[u8]) -> u32
    requires { 0x10 ≤ length root.now }
    ensures { result ≡ spec.collation_rule root.now }
{
    u32_at(root, 0x04)
}

/// index_block_size, in bytes.
pub(crate) fn index_block_size(root: &[u8]) -> u32
    requires { 0x10 ≤ length root.now }
    ensures { result ≡ spec.index_block_size root.now }
{
    u32_at(root, 0x08)
}

// ---- INDEX_BLOCK

/// index_block_vcn: the block's own VCN.
pub(crate) fn index_block_vcn(block: &[u8]) -> u64
    requires { 0x18 ≤ length block.now }
    ensures { result ≡ spec.index_block_vcn block.now }
{
    u64_at(block, 0x10)
}

// ---- INDEX_HEADER

/// entries_offset: the first entry, in bytes from the header on.
pub(crate) fn entries_offset(header: usize, bytes: &[u8]) -> u32
    requires { header + 16 ≤ length bytes.now }
    ensures { result ≡ spec.entries_offset header bytes.now }
{
    u32_at(bytes, header)
}

/// index_length: the end of the last entry, in bytes from the header on.
pub(crate) fn index_length(header: usize, bytes: &[u8]) -> u32
    requires { header + 16 ≤ length bytes.now }
    ensures { result ≡ spec.index_length header bytes.now }
{
    u32_at(bytes, header + 0x04)
}

// ---- INDEX_ENTRY

/// indexed_file: the reference.
pub(crate) fn indexed_file(entry: &[u8]) -> u64
    requires { 0x10 ≤ length entry.now }
    ensures { result ≡ spec.indexed_file entry.now }
{
    u64_at(entry, 0x00)
}

/// length, in bytes.
pub(crate) fn index_entry_length(entry: &[u8]) -> u16
    requires { 0x10 ≤ length entry.now }
    ensures { result ≡ spec.index_entry_length entry.now }
{
    u16_at(entry, 0x08)
}

/// key_length, in bytes.
pub(crate) fn key_length(entry: &[u8]) -> u16
    requires { 0x10 ≤ length entry.now }
    ensures { result ≡ spec.key_length entry.now }
{
    u16_at(entry, 0x0A)
}

/// flags.
pub(crate) fn entry_flags(entry: &[u8]) -> u16
    requires { 0x10 ≤ length entry.now }
    ensures { result ≡ spec.entry_flags entry.now }
{
    u16_at(entry, 0x0C)
}

/// file_name_length of the key, in units.
#[tactic(auto, unfolding(ntfs_base::specs::Bytes::number_at))]
pub(crate) fn file_name_length(entry: &[u8]) -> u8
    requires { 0x51 ≤ length entry.now }
    ensures { result ≡ spec.file_name_length entry.now }
{
    entry[0x50]
}

/// The child's VCN, in the entry's last 8 bytes.
pub(crate) fn child_vcn(entry: &[u8]) -> u64
    requires fields { 0x10 ≤ length entry.now }
    requires least { 8 ≤ spec.index_entry_length entry.now }
    requires within { spec.index_entry_length entry.now ≤ length entry.now }
    ensures { result ≡ spec.child_vcn entry.now }
{
    u64_at(entry, usize::from(index_entry_length(entry)) - 8)
}
