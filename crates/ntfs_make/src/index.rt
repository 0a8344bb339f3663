//! Index entries, index roots and the block of the root's index.

ghost use Rattle.std.specs.Prelude.{◌≡◌, ◌++◌, ◌≤◌, OnOk, IfOk, map};
ghost use Rattle.ntfs_make.specs.Table.{name_value, root_value, root_name_value};
ghost use Rattle.ntfs_make.specs.Index as spec;

use crate::field::{Field, cut_or_fill, pad, put_fields, put_letters};
use crate::layout::Layout;
use crate::root_names::root_names;
use crate::table::{FileName, Root, RootName};
use ntfs_fixup::refix;
use std::alloc::{AllocError, Global};

// The reference of a record, whose sequence number is 1.
pub(crate) fn reference(number: u32) -> u64
    ensures { result ≡ spec.reference number }
{
    u64::from(number) + (1 << 48)
}

// Puts a file name as attributes and index entries have it.
#[tactic(auto, unfolding(crate::specs::Index::file_name_bytes))]
pub(crate) fn put_name(out: &mut Vec<u8>, name: &FileName) -> Result<(), AllocError>
    ensures { OnOk result (out.new.items ≡ out.old.items ++ spec.file_name_bytes (name_value name.now)) }
{
    put_fields(
        out,
        &[
            Field::U64(reference(name.parent)), // 0x00 parent_directory
            Field::Zeros(32), // 0x08 creation_time, last_data_change_time, last_mft_change_time, last_access_time
            Field::U64(0), // 0x28 allocated_size
            Field::U64(0), // 0x30 data_size
            Field::U32(0), // 0x38 file_attributes
            Field::U32(0), // 0x3C packed_ea_size
            Field::U8(name.letters.len() as u64), // 0x40 file_name_length
            Field::U8(u64::from(name.space)), // 0x41 file_name_type
        ],
    )?;
    put_letters(out, name.letters)
}

// Puts the entry of a name.
#[tactic(auto, unfolding(crate::specs::Index::entry_bytes))]
fn put_entry(
    alloc: Global,
    out: &mut Vec<u8>,
    number: u32,
    name: &FileName,
) -> Result<(), AllocError>
    ensures { OnOk result (out.new.items ≡ out.old.items ++ spec.entry_bytes number (name_value name.now)) }
{
    let mut key = Vec::new(alloc);
    put_name(&mut key, name)?;
    let size = key.len() as u64;
    pad(&mut key)?;
    put_fields(
        out,
        &[
            Field::U64(reference(number)), // 0x00 indexed_file
            Field::U16(16 + key.len() as u64), // 0x08 length
            Field::U16(size), // 0x0A key_length
            Field::U16(0), // 0x0C flags
            Field::U16(0), // 0x0E reserved
        ],
    )?;
    out.extend_from_slice(&key)
}

// Puts the end of a node without children.
#[tactic(auto, unfolding(crate::specs::Index::end_bytes))]
fn put_end(out: &mut Vec<u8>) -> Result<(), AllocError>
    ensures { OnOk result (out.new.items ≡ out.old.items ++ spec.end_bytes) }
{
    put_fields(
        out,
        &[
            Field::U64(0), // 0x00 indexed_file
            Field::U16(16), // 0x08 length
            Field::U16(0), // 0x0A key_length
            Field::U16(2), // 0x0C flags
            Field::U16(0), // 0x0E reserved
        ],
    )
}

// Puts the end of a node with the child 0.
#[tactic(auto, unfolding(crate::specs::Index::child_bytes))]
fn put_child(out: &mut Vec<u8>) -> Result<(), AllocError>
    ensures { OnOk result (out.new.items ≡ out.old.items ++ spec.child_bytes) }
{
    put_fields(
        out,
        &[
            Field::U64(0), // 0x00 indexed_file
            Field::U16(24), // 0x08 length
            Field::U16(0), // 0x0A key_length
            Field::U16(3), // 0x0C flags
            Field::U16(0), // 0x0E reserved
            Field::U64(0), // 0x10 vcn
        ],
    )
}

// The entries of a root.
#[tactic(auto, unfolding(crate::specs::Index::root_entries))]
fn root_entries(alloc: Global, root: &Root) -> Result<Vec<u8>, AllocError>
    ensures { IfOk result (λ entries. entries.items ≡ spec.root_entries (root_value root.now)) }
{
    let mut entries = Vec::new(alloc);
    match root {
        Root::Child => put_child(&mut entries)?,
        Root::Empty => put_end(&mut entries)?,
        Root::One(number, name) => {
            put_entry(alloc, &mut entries, *number, name)?;
            put_end(&mut entries)?;
        }
    }
    Ok(entries)
}

// What an index root tells as the clusters of a block.
#[tactic(auto, unfolding(crate::specs::Index::clusters_per_block))]
fn clusters_per_block(cluster: u64) -> u64
    requires { 512 ≤ cluster }
    ensures { result ≡ spec.clusters_per_block cluster }
{
    if cluster <= 4096 {
        4096 / cluster
    } else {
        4096 / 512
    }
}

// Whether the node has a child.
#[tactic(auto, unfolding(crate::specs::Index::flag_of))]
fn flag_of(root: &Root) -> u64
    ensures { result ≡ spec.flag_of (root_value root.now) }
{
    match root {
        Root::Child => 1,
        Root::Empty => 0,
        Root::One(_, _) => 0,
    }
}

// Puts the value of an index root.
#[tactic(auto, unfolding(crate::specs::Index::root_bytes))]
pub(crate) fn put_root(
    alloc: Global,
    out: &mut Vec<u8>,
    layout: &Layout,
    root: &Root,
) -> Result<(), AllocError>
    ensures { OnOk result (out.new.items ≡ out.old.items ++ spec.root_bytes layout.now (root_value root.now)) }
{
    let entries = root_entries(alloc, root)?;
    let used = 16 + entries.len() as u64;
    put_fields(
        out,
        &[
            Field::U32(0x30), // 0x00 type
            Field::U32(1), // 0x04 collation_rule
            Field::U32(4096), // 0x08 index_block_size
            Field::U8(clusters_per_block(layout.shape().cluster)), // 0x0C clusters_per_index_block
            Field::Zeros(3), // 0x0D reserved
            Field::U32(16), // 0x10 entries_offset
            Field::U32(used), // 0x14 index_length
            Field::U32(used), // 0x18 allocated_size
            Field::U8(flag_of(root)), // 0x1C flags
            Field::Zeros(3), // 0x1D reserved
        ],
    )?;
    out.extend_from_slice(&entries)
}

// The entries of these names, and the end.
#[tactic(auto, unfolding(crate::specs::Index::entries_of))]
fn entries_of(alloc: Global, names: &[RootName]) -> Result<Vec<u8>, AllocError>
    ensures { IfOk result (λ entries. entries.items ≡ spec.entries_of (map root_name_value names.now)) }
{
    let mut entries = Vec::new(alloc);
    'names: for one in names {
        put_entry(alloc, &mut entries, one.number, &one.name)?;
    }
    put_end(&mut entries)?;
    Ok(entries)
}

// Puts the block of the root's index as it is before its fixups.
#[tactic(auto, unfolding(crate::specs::Index::index_text))]
fn put_index(alloc: Global, out: &mut Vec<u8>) -> Result<(), AllocError>
    ensures { OnOk result (out.new.items ≡ out.old.items ++ spec.index_text) }
{
    let entries = entries_of(alloc, root_names())?;
    put_fields(
        out,
        &[
            Field::U32(0x5844_4E49), // 0x00 magic
            Field::U16(0x28), // 0x04 usa_ofs
            Field::U16(9), // 0x06 usa_count
            Field::U64(0), // 0x08 lsn
            Field::U64(0), // 0x10 index_block_vcn
            Field::U32(0x28), // 0x18 entries_offset
            Field::U32(0x28 + entries.len() as u64), // 0x1C index_length
            Field::U32(4096 - 0x18), // 0x20 allocated_size
            Field::U8(0), // 0x24 flags
            Field::Zeros(3), // 0x25 reserved
            Field::Zeros(0x18), // 0x28 the update sequence array, up to the entries
        ],
    )?;
    out.extend_from_slice(&entries)
}

// The block of the root's index.
#[tactic(auto, unfolding(crate::specs::Index::index_block))]
pub(crate) fn index_block(alloc: Global) -> Result<Vec<u8>, AllocError>
    ensures { IfOk result (λ block. block.items ≡ spec.index_block) }
{
    let mut block = Vec::new(alloc);
    put_index(alloc, &mut block)?;
    cut_or_fill(&mut block, 4096)?;
    refix(&mut block);
    Ok(block)
}
