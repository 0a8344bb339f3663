//! The walk: what a caller sees of it.

ghost use Rattle.std.specs.Prelude.{◌≡◌, ◌+◌, ◌<◌, ◌≤◌, ℕ, None, Some, Err, length, IfOk, IfErr, OnOk, IsOk};
ghost use Rattle.ntfs_base.specs.Frames.{IsJudged, IsSettled};
ghost use Rattle.ntfs_index.specs.Blocks.{BlockMap, IsBlockSize};
ghost use Rattle.ntfs_index.specs.Fetches.{IfBlocks, OnlyFetches, index_origin};
ghost use Rattle.ntfs_index.specs.Most.{path_most};
ghost use Rattle.ntfs_index.specs.Node.{root_node};
ghost use Rattle.ntfs_index.specs.Path.{IsPath, asks_left, left_of_path};
ghost use Rattle.ntfs_index.specs.State.{IfGiven, IsBegun, IsNext, ShowsKey, entries_most, left};
ghost use Rattle.ntfs_index.specs.Walk.{listing, walk};
ghost use Rattle.ntfs_index.specs.declared.fault.IndexFault.{IndexFault};

use crate::blocks::Blocks;
use crate::entry::Entry;
use crate::fault::IndexFault;
use crate::node::open_root;
use crate::path::{Path, Turn};
use ntfs_boot::Geometry;
use std::alloc::Global;
use std::collections::BTreeSet;
use std::marker::Model;

/// A walk of an index, from its root on. It holds the open nodes, 16 at most, and the VCNs of the blocks that it has
/// met.
#[derive(Drop)]
pub struct Walk {
    alloc: Global,
    size: u32,
    path: Path,
    key: Vec<u8>,
    fault: Option<IndexFault>,
}

impl Model for Walk {
    ghost use Rattle.std.specs.Prelude.{map};
    ghost use Rattle.ntfs_index.specs.Blocks.{IsBlockSize};
    ghost use Rattle.ntfs_index.specs.Path.{IsPath, left_in};
    ghost use Rattle.ntfs_index.specs.State.{WalkState};

    ghost Value = { WalkState };

    ghost view = { λ w. record {
      size = w.size;
      present = left_in w.path.present;
      above = map left_in w.path.above.items;
      met = w.path.met.keys;
      key = w.key.items;
      fault = w.fault;
    } };

    ghost invariant = { λ w. IsPath w.path × IsBlockSize w.size };
}

/// Begins the walk of a root, the value of $INDEX_ROOT, on a volume of this geometry.
///
/// It answers `BadNode` exactly where the root breaks rule 1 or 3.
pub fn start(alloc: Global, root: &[u8], geometry: &Geometry) -> Result<Walk, IndexFault>
    requires { IsBlockSize geometry.now.block }
    ensures walk { IfOk result (λ begun. (blocks : BlockMap) →
        left begun blocks ≡ listing (walk geometry.now.block root.now blocks)) }
    ensures begun { IfOk result (IsBegun geometry.now.block) }
    ensures accepted { IfOk result (λ begun. IsOk (root_node geometry.now.block root.now)) }
    ensures refused { IfErr result (λ fault. IsSettled (index_origin fault) →
        root_node geometry.now.block root.now ≡ Err fault) }
    ensures judged { IsJudged index_origin result }
{
    let present = open_root(alloc, geometry.block, root)?;
    Ok(Walk {
        alloc,
        size: geometry.block,
        path: Path {
            present,
            above: Vec::new(alloc),
            met: BTreeSet::new(alloc),
        },
        key: Vec::new(alloc),
        fault: None,
    })
}

// Takes turns until an entry is given or the walk ends.
fn advance<B: Blocks>(
    path: &mut Path,
    key: &mut Vec<u8>,
    alloc: Global,
    size: u32,
    blocks: &mut B,
) -> Result<Option<Entry>, IndexFault>
    requires path { IsPath path.old }
    requires size { IsBlockSize size }
    requires blocks { (B.seen blocks.old).size ≡ size }
    ensures told { IfBlocks B.Blocks blocks.old (λ map.
        IsNext (left_of_path map path.old) result (left_of_path map path.new) key.new.items) }
    ensures path { IsPath path.new }
    ensures key { ShowsKey result key.old.items key.new.items }
    ensures fewer { IfGiven result (path_most path.new < path_most path.old) }
    ensures most { path_most path.new ≤ path_most path.old }
    ensures once { B.asked blocks.new + length path.old.met.keys ≤ B.asked blocks.old + length path.new.met.keys }
    ensures fetches { OnlyFetches B.Blocks index_origin (asks_left path.old) blocks.old blocks.new result }
{
    'turns: loop {
        match path.take_turn(key, alloc, size, blocks)? {
            Turn::Gave { reference } => return Ok(Some(Entry { reference })),
            Turn::Moved => {}
            Turn::Ended => return Ok(None),
        }
    }
}

impl Walk {
    /// The next entry, or `None` where the walk is whole. After a fault it answers that fault again.
    ///
    /// What it gives is the walk where all calls had blocks with one and the same map. It asks for 15 blocks at most,
    /// and for no block twice. With each entry the number that can follow at most falls, over whatever blocks.
    pub fn next<B: Blocks>(&mut self, blocks: &mut B) -> Result<Option<Entry>, IndexFault>
        requires { (B.seen blocks.old).size ≡ self.old.size }
        ensures told { self.old.fault ≡ None → IfBlocks B.Blocks blocks.old (λ map.
            IsNext (left self.old map) result (left self.new map) self.new.key) }
        ensures fetches { self.old.fault ≡ None → OnlyFetches B.Blocks index_origin 15 blocks.old blocks.new result }
        ensures once { B.asked blocks.new + length self.old.met ≤ B.asked blocks.old + length self.new.met }
        ensures again { (fault : IndexFault) → self.old.fault ≡ Some fault →
            (result ≡ Err fault) × (self.new ≡ self.old) × (blocks.new ≡ blocks.old) }
        ensures faulted { IfErr result (λ fault. self.new.fault ≡ Some fault) }
        ensures sound { OnOk result (self.new.fault ≡ None) }
        ensures key { ShowsKey result self.old.key self.new.key }
        ensures fewer { IfGiven result (entries_most self.new < entries_most self.old) }
        ensures no_more { entries_most self.new ≤ entries_most self.old }
        ensures size { self.new.size ≡ self.old.size }
        ensures few { length self.new.above ≤ 15 }
    {
        if let Some(fault) = self.fault {
            return Err(fault);
        }
        match advance(&mut self.path, &mut self.key, self.alloc, self.size, blocks) {
            Ok(found) => Ok(found),
            Err(fault) => {
                self.fault = Some(fault);
                Err(fault)
            }
        }
    }

    /// The key of the last entry, a $FILE_NAME as it stands; empty before the first.
    pub fn key(&self) -> &[u8]
        ensures { result.now ≡ self.now.key }
    {
        &self.key
    }
}
