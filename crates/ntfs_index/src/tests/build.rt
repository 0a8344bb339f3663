//! Roots and blocks by rows of entries, and what their walks give, as text.

ghost use Rattle.std.specs.Prelude.{◌≡◌, ◌+◌, ◌*◌, ◌<◌, ◌≤◌, ◌%◌, length, vec_len, IfOk};
ghost use Rattle.ntfs_index.specs.Blocks.{IsBlockSize};

use crate::{Entry, IndexFault, MemBlocks, start};
use ntfs_boot::Geometry;
use std::alloc::{AllocError, Global};

/// The root, in a row or a patch; and nothing, in a row's child or entry.
pub const ROOT: u64 = u64::MAX;

pub const NONE: u64 = u64::MAX;

/// An entry of a node: the root, or a block by its number from 0 on.
#[derive(Clone, Copy)]
pub struct Row {
    pub node: u64,
    /// The reference, which also begins the key; none ends the node.
    pub entry: u64,
    /// The child's VCN.
    pub child: u64,
}

/// A byte that is put at a place of a node, once it is made.
pub type Patch = (u64, usize, u8);

pub fn own(node: u64, entry: u64) -> Row {
    Row {
        node,
        entry,
        child: NONE,
    }
}

pub fn above(node: u64, entry: u64, child: u64) -> Row {
    Row { node, entry, child }
}

pub fn end(node: u64) -> Row {
    Row {
        node,
        entry: NONE,
        child: NONE,
    }
}

pub fn end_above(node: u64, child: u64) -> Row {
    Row {
        node,
        entry: NONE,
        child,
    }
}

/// Writes bytes over others, as far as they reach.
pub fn put(bytes: &mut [u8], place: usize, text: &[u8])
    ensures { length bytes.new ≡ length bytes.old }
{
    for (to, from) in bytes.iter_mut().skip(place).zip(text) {
        *to = *from;
    }
}

pub fn zeros(alloc: Global, len: usize) -> Result<Vec<u8>, AllocError>
    ensures { IfOk result (λ bytes. vec_len bytes ≡ len) }
{
    vec![in alloc; 0; len]
}

/// A volume of this cluster and block size.
pub fn geometry(cluster: u32, block: u32) -> Geometry
    ensures cluster { result.cluster ≡ cluster }
    ensures block { result.block ≡ block }
{
    Geometry {
        sector: 512,
        cluster,
        record_size: 1024,
        block,
        sectors: 0,
        clusters: 0,
        mft: 0,
        mirror: 0,
        serial: 0,
    }
}

/// An entry with a key of this length, whose name has `units` units: the fields, the key, and the child's VCN at a
/// multiple of 8. The key begins with the reference, and is filled with its lowest byte.
pub fn entry(alloc: Global, row: &Row, key: u16, units: u8) -> Result<Vec<u8>, AllocError> {
    let (ends, key) = if row.entry == NONE {
        (2u8, 0)
    } else {
        (0, key)
    };
    let (child, eight) = if row.child == NONE { (0u8, 0) } else { (1, 8) };
    let plain = (key.wrapping_add(7) / 8 * 8).wrapping_add(16);
    let length = plain.wrapping_add(eight);
    let mut bytes = zeros(alloc, usize::from(length))?;
    put(&mut bytes, 0x08, &length.to_le_bytes());
    put(&mut bytes, 0x0A, &key.to_le_bytes());
    put(&mut bytes, 0x0C, &[child | ends]);
    if ends == 0 {
        fill(&mut bytes, usize::from(key), (row.entry % 256) as u8);
        put(&mut bytes, 0x00, &row.entry.to_le_bytes());
        put(&mut bytes, 0x10, &row.entry.to_le_bytes());
        put(&mut bytes, 0x50, &[units]);
    }
    if child == 1 {
        put(&mut bytes, usize::from(plain), &row.child.to_le_bytes());
    }
    Ok(bytes)
}

// Fills the key of an entry with a byte.
fn fill(entry: &mut [u8], key: usize, byte: u8) {
    for to in entry.iter_mut().skip(0x10).take(key) {
        *to = byte;
    }
}

/// The entries of a node among the rows, each with the least key, 66 bytes.
pub fn entries(alloc: Global, rows: &[Row], node: u64) -> Result<Vec<u8>, AllocError> {
    let mut bytes = Vec::new(alloc);
    for row in rows {
        if row.node == node {
            bytes.extend_from_slice(&entry(alloc, row, 66, 0)?)?;
        }
    }
    Ok(bytes)
}

/// A node header at a place: where the entries begin, counted from it, and the bytes in use.
fn header(bytes: &mut [u8], place: usize, first: usize, entries: &[u8])
    requires place { place < 100 }
    requires first { first < 1000 }
    requires entries { length entries.now ≤ 100000 }
{
    let used = (first + entries.len()) as u32;
    put(bytes, place, &(first as u32).to_le_bytes());
    put(bytes, place + 4, &used.to_le_bytes());
    put(bytes, place + 8, &used.to_le_bytes());
    put(bytes, place + first, entries);
}

/// A root with these entries: INDEX_ROOT, INDEX_HEADER and the entries from 0x20 on.
pub fn root(alloc: Global, block: u32, entries: &[u8]) -> Result<Vec<u8>, AllocError>
    requires { length entries.now ≤ 100000 }
{
    let mut bytes = zeros(alloc, 0x20 + entries.len())?;
    put(&mut bytes, 0x00, &[0x30, 0, 0, 0, 1]);
    put(&mut bytes, 0x08, &block.to_le_bytes());
    put(&mut bytes, 0x0C, &[1]);
    header(&mut bytes, 0x10, 0x10, entries);
    Ok(bytes)
}

/// Saves the ends of all strides in the array at 0x28 and puts the number 7 there.
fn guard(block: &mut [u8])
    requires whole { length block.old % 512 ≡ 0 }
    requires most { length block.old ≤ 65536 }
{
    put(block, 0x28, &[7, 0]);
    for stride in 0..block.len() / 512 {
        let last = 512 * stride + 510;
        let saved = [block[last], block[last + 1]];
        put(block, 0x2A + 2 * stride, &saved);
        put(block, last, &[7, 0]);
    }
}

/// A block of this VCN and size with these entries, which begin behind its array, at a multiple of 8.
pub fn block(alloc: Global, vcn: u64, size: u32, entries: &[u8]) -> Result<Vec<u8>, AllocError>
    requires size { IsBlockSize size }
    requires entries { length entries.now ≤ 100000 }
    ensures { IfOk result (λ bytes. vec_len bytes ≡ size) }
{
    let mut bytes = zeros(alloc, size as usize)?;
    let words = 1 + size / 512;
    put(&mut bytes, 0x00, b"INDX\x28\0");
    put(&mut bytes, 0x06, &(words as u16).to_le_bytes());
    put(&mut bytes, 0x10, &vcn.to_le_bytes());
    header(
        &mut bytes,
        0x18,
        (0x28 + 2 * words as usize + 7) / 8 * 8 - 0x18,
        entries,
    );
    guard(&mut bytes);
    Ok(bytes)
}

/// A tree of these rows: its root, and its blocks, of 1,024 bytes each, as the volume's clusters are.
pub fn tree(
    alloc: Global,
    rows: &[Row],
    patches: &[Patch],
) -> Result<(Vec<u8>, MemBlocks), AllocError>
    ensures { IfOk result (λ made. made.1.size ≡ 1024) }
{
    let geometry = geometry(1024, 1024);
    let mut count = 0;
    for row in rows {
        if row.node != ROOT && count <= row.node && row.node < 40 {
            count = row.node + 1;
        }
    }
    let mut bytes = Vec::new(alloc);
    for vcn in 0..count {
        let mut block = made_block(alloc, rows, vcn)?;
        patch(&mut block, patches, vcn);
        bytes.extend_from_slice(&block)?;
    }
    let mut root = made_root(alloc, rows)?;
    patch(&mut root, patches, ROOT);
    Ok((root, MemBlocks::new(alloc, bytes, &geometry)))
}

fn made_block(alloc: Global, rows: &[Row], vcn: u64) -> Result<Vec<u8>, AllocError> {
    let entries = entries(alloc, rows, vcn)?;
    if entries.len() > 100_000 {
        return Ok(entries);
    }
    block(alloc, vcn, 1024, &entries)
}

fn made_root(alloc: Global, rows: &[Row]) -> Result<Vec<u8>, AllocError> {
    let entries = entries(alloc, rows, ROOT)?;
    if entries.len() > 100_000 {
        return Ok(entries);
    }
    root(alloc, 1024, &entries)
}

fn patch(bytes: &mut [u8], patches: &[Patch], node: u64) {
    for (at, place, byte) in patches {
        if *at == node {
            put(bytes, *place, &[*byte]);
        }
    }
}

/// What a walk gives, as text: each entry's reference, and the end, each with the number of blocks that were asked for
/// by then behind a dot. The end must come again without another block asked for.
pub fn told(
    alloc: Global,
    root: &[u8],
    geometry: &Geometry,
    blocks: &mut MemBlocks,
) -> Result<String, AllocError>
    requires block { IsBlockSize geometry.now.block }
    requires size { blocks.old.size ≡ geometry.now.block }
{
    let mut text = String::new(alloc);
    let mut walk = match start(alloc, root, geometry) {
        Ok(walk) => walk,
        Err(fault) => return end_entry(alloc, text, Err(fault), blocks.calls.made),
    };
    'calls: for _ in 0..50 {
        let given = walk.next(blocks);
        let asked = blocks.calls.made;
        if let Ok(Some(entry)) = given {
            let reference = entry.reference;
            text.push_str(&format!(in alloc; "{reference}.{asked} ")?)?;
        } else {
            if walk.next(blocks) != given || blocks.calls.made != asked {
                text.push_str("and another answer after ")?;
            }
            return end_entry(alloc, text, given, asked);
        }
    }
    Ok(text)
}

fn end_entry(
    alloc: Global,
    mut text: String,
    given: Result<Option<Entry>, IndexFault>,
    asked: u64,
) -> Result<String, AllocError> {
    match given {
        Ok(_) => text.push_str("whole")?,
        Err(IndexFault::BadNode { vcn, rule }) => text.push_str(&place(alloc, vcn, rule)?)?,
        Err(IndexFault::TooDeep) => text.push_str("too deep")?,
        Err(IndexFault::BlockFault) => text.push_str("block fault")?,
        Err(IndexFault::NoMemory) => text.push_str("no memory")?,
    }
    text.push_str(&format!(in alloc; ".{asked}")?)?;
    Ok(text)
}

fn place(alloc: Global, vcn: u64, rule: u8) -> Result<String, AllocError> {
    if vcn == ROOT {
        format!(in alloc; "rule {rule} at root")
    } else {
        format!(in alloc; "rule {rule} at {vcn}")
    }
}
