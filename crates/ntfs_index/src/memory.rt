ghost use Rattle.std.specs.Prelude.{◌<◌};

use crate::allocation::{block_place, vcn_unit};
use crate::blocks::Blocks;
use crate::fault::BlockFault;
use ntfs_base::{Calls, one_more};
use ntfs_boot::Geometry;
use std::alloc::Global;

/// The blocks of an allocation in memory.
#[derive(Drop)]
pub struct MemBlocks {
    pub bytes: Vec<u8>,
    /// The bytes that one VCN counts.
    pub unit: u32,
    /// The size of a block in bytes.
    pub size: u32,
    pub calls: Calls,
    pub faults: u64,
    ghost counts: { 0 < unit },
}

impl MemBlocks {
    ghost use Rattle.std.specs.Prelude.{◌≡◌, ◌<◌, []};
    ghost use Rattle.ntfs_index.specs.Blocks.{vcn_unit};

    /// The blocks in the bytes of an allocation on a volume of this geometry, of which no call fails.
    pub fn new(alloc: Global, bytes: Vec<u8>, geometry: &Geometry) -> MemBlocks
        requires { 0 < geometry.now.cluster }
        ensures bytes { result.bytes ≡ bytes }
        ensures unit { result.unit ≡ vcn_unit geometry.now.cluster geometry.now.block }
        ensures size { result.size ≡ geometry.now.block }
        ensures made { result.calls.made ≡ 0 }
        ensures failing { result.calls.failing.items ≡ [] }
        ensures faults { result.faults ≡ 0 }
    {
        MemBlocks {
            bytes,
            unit: vcn_unit(geometry),
            size: geometry.block,
            calls: Calls::new(alloc),
            faults: 0,
        }
    }
}

#[tactic(auto, unfolding(ntfs_base::specs::Bytes::piece_at))]
impl Blocks for MemBlocks {
    ghost use Rattle.std.specs.Prelude.{◌≡◌, ◌↔◌, ◌+◌, ◌≤◌, Some, None, Err, length, IsTrue, OnOk};
    ghost use Rattle.ntfs_base.specs.Causes.{Rose};
    ghost use Rattle.ntfs_index.specs.MemBlocks.{FetchesAsPlanned, seen_blocks};
    ghost use Rattle.ntfs_index.specs.Sized.{blocks_of-sized};

    ghost seen = { seen_blocks };

    ghost faults = { λ blocks. blocks.faults };

    ghost asked = { λ blocks. blocks.calls.made };

    ghost sized = { λ blocks. blocks_of-sized blocks.unit blocks.size blocks.bytes.items blocks.counts };

    fn block(&mut self, vcn: u64, into: &mut [u8]) -> Result<(), BlockFault>
        requires { length into.old ≡ self.old.size }
        ensures gives { OnOk result (IsTrue (seen_blocks self.old).is_told →
            (seen_blocks self.old).blocks vcn ≡ Some into.new) }
        ensures outside { IsTrue (seen_blocks self.old).is_told →
            (result ≡ Err BlockFault.Outside) ↔ ((seen_blocks self.old).blocks vcn ≡ None) }
        ensures cause { result ≡ Err BlockFault.Failed → Rose self.old.faults self.new.faults }
        ensures seen { seen_blocks self.new ≡ seen_blocks self.old }
        ensures faults { self.old.faults ≤ self.new.faults }
        ensures asked { self.new.calls.made ≤ self.old.calls.made + 1 }
        ensures planned { FetchesAsPlanned vcn self.old result self.new }
    {
        let planned = self.calls.next();
        let Some(place) = block_place(vcn, self.unit, self.size, self.bytes.len() as u64) else {
            return Err(BlockFault::Outside);
        };
        if planned.is_some() {
            self.faults = one_more(self.faults);
            return Err(BlockFault::Failed);
        }
        let place = place as usize;
        into.copy_from_slice(&self.bytes[place..place + self.size as usize]);
        Ok(())
    }
}
