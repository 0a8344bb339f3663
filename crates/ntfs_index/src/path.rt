//! The path of open nodes from the root to the present one, and the turns that a walk takes along it.

ghost use Rattle.std.specs.Prelude.{◌≡◌, ◌+◌, ◌-◌, ◌<◌, ◌≤◌, ◌++◌, [], ◌∷◌, true, false, length, IfOk, IfErr, OnOk, OnErr, vec_len};
ghost use Rattle.ntfs_base.specs.Frames.{Gives, IsSettled};
ghost use Rattle.ntfs_index.specs.Blocks.{IsBlockSize};
ghost use Rattle.ntfs_index.specs.Fetches.{IfBlocks, OnlyFetches, index_origin};
ghost use Rattle.ntfs_index.specs.Most.{IfGave, path_most};
ghost use Rattle.ntfs_index.specs.Node.{block_node};
ghost use Rattle.ntfs_index.specs.Path.{IsAtRoot, IsDown, IsEntered, IsFirst, IsPath, HasMoved, IsTurn, IsUp, KeepsKey, asks_left, entry_at};

use crate::blocks::Blocks;
use crate::entry::{Step, key_of, step_of};
use crate::fault::{BlockFault, IndexFault};
use crate::node::{OpenNode, open_block};
use std::alloc::{AllocError, Global};
use std::collections::BTreeSet;
use std::mem;

/// How many levels an index may have below its root.
const LEVELS: usize = 15;

/// The nodes that a walk is in, and the VCNs of the blocks that it has met.
#[derive(Drop)]
pub(crate) struct Path {
    /// The node that is walked at present.
    pub present: OpenNode,
    /// The nodes above it, from the root on.
    pub above: Vec<OpenNode>,
    pub met: BTreeSet<u64>,
}

/// What one turn has done.
#[derive(Clone, Copy)]
pub(crate) enum Turn {
    /// It gave an entry with this reference.
    Gave { reference: u64 },
    /// It went down to a child, or up.
    Moved,
    /// It came to the end of the root.
    Ended,
}

/// A block of zeros.
fn zeros(alloc: Global, size: usize) -> Result<Vec<u8>, AllocError>
    ensures { IfOk result (λ bytes. vec_len bytes ≡ size) }
{
    vec![in alloc; 0; size]
}

/// Fetches the block of a VCN and opens it.
#[tactic(auto, unfolding(crate::specs::Node::block_node))]
fn fetch<B: Blocks>(
    alloc: Global,
    size: u32,
    blocks: &mut B,
    vcn: u64,
) -> Result<OpenNode, IndexFault>
    requires size { IsBlockSize size }
    requires blocks { (B.seen blocks.old).size ≡ size }
    ensures told { IfBlocks B.Blocks blocks.old (λ map. Gives index_origin entry_at (block_node map vcn) result) }
    ensures first { IfOk result (IsFirst vcn) }
    ensures small { IfOk result (λ node. length node.bytes.items ≤ 65536) }
    ensures fetches { OnlyFetches B.Blocks index_origin 1 blocks.old blocks.new result }
{
    let mut raw = zeros(alloc, size as usize)?;
    match blocks.block(vcn, &mut raw) {
        Ok(()) => open_block(vcn, raw),
        Err(BlockFault::Outside) => Err(IndexFault::BadNode { vcn, rule: 7 }),
        Err(BlockFault::Failed) => Err(IndexFault::BlockFault),
    }
}

/// Shows a key. Want of memory leaves the one that was shown.
fn show(key: &mut Vec<u8>, bytes: &[u8]) -> Result<(), AllocError>
    ensures shown { OnOk result (key.new.items ≡ bytes.now) }
    ensures kept { OnErr result (key.new.items ≡ key.old.items) }
{
    key.reserve(bytes.len())?;
    key.clear();
    key.extend_from_slice(bytes)
}

impl Path {
    /// Goes down to the child of the present entry.
    fn enter<B: Blocks>(
        &mut self,
        alloc: Global,
        size: u32,
        blocks: &mut B,
        vcn: u64,
    ) -> Result<(), IndexFault>
        requires path { IsPath self.old }
        requires child { self.old.present.entered ≡ false }
        requires size { IsBlockSize size }
        requires blocks { (B.seen blocks.old).size ≡ size }
        ensures told { IfBlocks B.Blocks blocks.old (λ map. IsEntered map vcn self.old result self.new) }
        ensures path { IsPath self.new }
        ensures down { OnOk result (IsDown self.old self.new) }
        ensures most { path_most self.new ≤ path_most self.old }
        ensures one { B.asked blocks.new ≤ B.asked blocks.old + 1 }
        ensures once { B.asked blocks.new + length self.old.met.keys ≤ B.asked blocks.old + length self.new.met.keys }
        ensures fetches { OnlyFetches B.Blocks index_origin (asks_left self.old) blocks.old blocks.new result }
    {
        if self.above.len() == LEVELS {
            return Err(IndexFault::TooDeep);
        }
        if !self.met.insert(vcn)? {
            return Err(IndexFault::BadNode { vcn, rule: 6 });
        }
        let met = self.met.len();
        prove!(met < 1 << 63);
        let child = fetch(alloc, size, blocks, vcn)?;
        let mut parent = mem::replace(&mut self.present, child);
        parent.entered = true;
        self.above.push(parent)?;
        Ok(())
    }

    /// Goes up from the end of a node; false where it is the root.
    fn leave(&mut self) -> bool
        requires path { IsPath self.old }
        ensures path { IsPath self.new }
        ensures up { result ≡ true → IsUp self.old self.new }
        ensures root { result ≡ false → IsAtRoot self.old self.new }
        ensures met { self.new.met ≡ self.old.met }
        ensures most { path_most self.new ≤ path_most self.old }
    {
        match self.above.pop() {
            Some(parent) => {
                self.present = parent;
                true
            }
            None => false,
        }
    }

    /// One turn: gives the next entry and shows its key, goes down or up, or comes to the end.
    pub fn take_turn<B: Blocks>(
        &mut self,
        key: &mut Vec<u8>,
        alloc: Global,
        size: u32,
        blocks: &mut B,
    ) -> Result<Turn, IndexFault>
        requires path { IsPath self.old }
        requires size { IsBlockSize size }
        requires blocks { (B.seen blocks.old).size ≡ size }
        ensures told { IfBlocks B.Blocks blocks.old (λ map. IsTurn map self.old result self.new key.new.items) }
        ensures path { IsPath self.new }
        ensures moves { HasMoved result self.old self.new (B.asked blocks.old) (B.asked blocks.new) }
        ensures most { path_most self.new ≤ path_most self.old }
        ensures fewer { IfGave result (path_most self.new < path_most self.old) }
        ensures key { KeepsKey result key.old.items key.new.items }
        ensures once { B.asked blocks.new + length self.old.met.keys ≤ B.asked blocks.old + length self.new.met.keys }
        ensures fetches { OnlyFetches B.Blocks index_origin (asks_left self.old) blocks.old blocks.new result }
    {
        match step_of(self.present.entry(), self.present.entered) {
            Step::Child { vcn } => {
                self.enter(alloc, size, blocks, vcn)?;
                Ok(Turn::Moved)
            }
            Step::Own { reference, length } => {
                show(key, key_of(self.present.entry()))?;
                self.present.pass(length);
                Ok(Turn::Gave { reference })
            }
            Step::Damage { rule } => Err(IndexFault::BadNode {
                vcn: self.present.vcn,
                rule,
            }),
            Step::End => {
                if self.leave() {
                    Ok(Turn::Moved)
                } else {
                    Ok(Turn::Ended)
                }
            }
        }
    }
}
