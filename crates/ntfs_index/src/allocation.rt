//! Where the blocks of an index lie in the bytes of its allocation.

ghost use Rattle.std.specs.Prelude.{◌≡◌, ◌+◌, ◌<◌, ◌≤◌, ℕ, List, length, option_map, IfSome};
ghost use Rattle.ntfs_base.specs.Bytes.{piece_at};
ghost use Rattle.ntfs_index.specs.Blocks.{blocks_of, vcn_unit as unit_of};

use ntfs_boot::Geometry;

/// The bytes that one VCN of an index counts: a cluster, or a sector of 512 where a cluster is larger than a block.
#[tactic(auto, unfolding(crate::specs::Blocks::vcn_unit))]
pub fn vcn_unit(geometry: &Geometry) -> u32
    ensures unit { result ≡ unit_of geometry.now.cluster geometry.now.block }
    ensures some { 0 < geometry.now.cluster → 0 < result }
{
    if geometry.cluster <= geometry.block {
        geometry.cluster
    } else {
        512
    }
}

/// Where the block of a VCN begins in an allocation of so many bytes; `None` where it doesn't lie wholly in them.
#[tactic(auto, unfolding(crate::specs::Blocks::blocks_of))]
pub fn block_place(vcn: u64, unit: u32, size: u32, len: u64) -> Option<u64>
    ensures block { (bytes : List ℕ) → length bytes ≡ len →
        blocks_of unit size bytes vcn ≡ option_map (λ place. piece_at place size bytes) result }
    ensures within { IfSome result (λ place. place + size ≤ len) }
{
    let place = vcn.checked_mul(u64::from(unit))?;
    let end = place.checked_add(u64::from(size))?;
    if end <= len { Some(place) } else { None }
}
