//! Open nodes: the root and the blocks that a walk is in, each with the bytes of its entries and how far the walk has
//! come.

ghost use Rattle.std.specs.Prelude.{◌≡◌, ◌+◌, ◌≤◌, true, length, vec_len, IfOk, MatchResult};
ghost use Rattle.ntfs_base.specs.Frames.{Gives, IsJudged};
ghost use Rattle.ntfs_fixup.specs.Fixups.{HasWholeStrides};
ghost use Rattle.ntfs_index.specs.Fetches.{index_origin};
ghost use Rattle.ntfs_index.specs.Node as spec;
ghost use Rattle.ntfs_index.specs.Path.{IsFirst, IsPassed, entry_at};

use crate::fault::IndexFault;
use crate::layout::{
    BLOCK_HEADER, ROOT_HEADER, collation_rule, entries_offset, index_block_size, index_block_vcn,
    index_length, root_type,
};
use ntfs_fixup::{Magic, unfix};
use std::alloc::Global;

/// The VCN of a root in a fault.
const ROOT_VCN: u64 = u64::MAX;

/// A node that a walk is in.
#[derive(Drop)]
pub(crate) struct OpenNode {
    /// Its block's VCN.
    pub vcn: u64,
    /// Its bytes, up to the end of those in use.
    pub bytes: Vec<u8>,
    /// Where the present entry begins.
    pub place: usize,
    /// Whether the present entry's child was entered.
    pub entered: bool,
}

impl OpenNode {
    /// The bytes in use from the present entry on.
    pub fn entry(&self) -> &[u8]
        ensures { result.now ≡ entry_at self.now }
    {
        self.bytes.split_at(self.place.min(self.bytes.len())).1
    }

    /// Goes on behind the present entry, which has so many bytes.
    pub fn pass(&mut self, length: u16)
        ensures { IsPassed self.old length self.new }
    {
        self.place = self.place.min(self.bytes.len()) + usize::from(length);
        self.entered = false;
    }
}

/// Rule 3.
#[tactic(auto, unfolding(crate::specs::Node::has_right_header))]
fn has_right_header(header: usize, bytes: &[u8]) -> bool
    requires header { header ≤ 0x18 }
    requires fields { header + 16 ≤ length bytes.now }
    ensures { result ≡ spec.has_right_header header bytes.now }
{
    let first = entries_offset(header, bytes);
    let used = index_length(header, bytes);
    16 <= first && first % 8 == 0 && first <= used && header + used as usize <= bytes.len()
}

/// A node at its first entry, by its bytes and where its header begins.
#[tactic(auto, unfolding(crate::specs::Node::entries_in))]
fn open_at(vcn: u64, mut bytes: Vec<u8>, header: usize) -> Result<OpenNode, IndexFault>
    requires header { header ≤ 0x18 }
    requires fields { header + 16 ≤ vec_len bytes }
    ensures exact { MatchResult result (λ node. spec.entries_at vcn header bytes.items ≡ Ok (entry_at node))
        (λ fault. spec.entries_at vcn header bytes.items ≡ Err fault) }
    ensures first { IfOk result (IsFirst vcn) }
    ensures most { IfOk result (λ node. length node.bytes.items ≤ length bytes.items) }
{
    if !has_right_header(header, &bytes) {
        return Err(IndexFault::BadNode { vcn, rule: 3 });
    }
    let place = header + entries_offset(header, &bytes) as usize;
    bytes.truncate(header + index_length(header, &bytes) as usize);
    Ok(OpenNode {
        vcn,
        bytes,
        place,
        entered: false,
    })
}

/// Rule 1 of a root.
#[tactic(auto, unfolding(crate::specs::Node::is_root))]
fn is_root(size: u32, root: &[u8]) -> bool
    ensures value { result ≡ spec.is_root size root.now }
    ensures fields { result ≡ true → 32 ≤ length root.now }
{
    root.len() >= 32
        && root_type(root) == 0x30
        && collation_rule(root) == 1
        && index_block_size(root) == size
}

/// The root of an index, at its first entry, on a volume whose blocks have this size.
#[tactic(auto, unfolding(crate::specs::Node::root_node))]
pub(crate) fn open_root(alloc: Global, size: u32, root: &[u8]) -> Result<OpenNode, IndexFault>
    ensures gives { Gives index_origin entry_at (spec.root_node size root.now) result }
    ensures first { IfOk result (IsFirst spec.root_vcn) }
    ensures judged { IsJudged index_origin result }
{
    if !is_root(size, root) {
        return Err(IndexFault::BadNode {
            vcn: ROOT_VCN,
            rule: 1,
        });
    }
    open_at(ROOT_VCN, Vec::from_slice(alloc, root)?, ROOT_HEADER)
}

/// The block of a VCN, at its first entry, by its bytes with fixups.
pub(crate) fn open_block(vcn: u64, mut raw: Vec<u8>) -> Result<OpenNode, IndexFault>
    requires { HasWholeStrides raw.items }
    ensures exact { MatchResult result (λ node. spec.raw_node vcn (Some raw.items) ≡ Ok (entry_at node))
        (λ fault. spec.raw_node vcn (Some raw.items) ≡ Err fault) }
    ensures first { IfOk result (IsFirst vcn) }
    ensures most { IfOk result (λ node. length node.bytes.items ≤ length raw.items) }
{
    if unfix(&mut raw, Magic::Indx).is_err() {
        return Err(IndexFault::BadNode { vcn, rule: 1 });
    }
    if index_block_vcn(&raw) != vcn {
        return Err(IndexFault::BadNode { vcn, rule: 2 });
    }
    open_at(vcn, raw, BLOCK_HEADER)
}
