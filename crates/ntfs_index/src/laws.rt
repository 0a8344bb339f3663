//! Laws of walks: each function does nothing, and its contract holds of every root and all blocks.

ghost use Rattle.std.specs.Prelude.{◌≡◌, ◌↔◌, [], None, Ok, List, ℕ};
ghost use Rattle.ntfs_index.specs.Blocks.{BlockMap, allocation_blocks};
ghost use Rattle.ntfs_index.specs.Node.{root_node, root_vcn, visits};
ghost use Rattle.ntfs_index.specs.Walk.{walk, walk_allocation, listing, blocks_met};
ghost use Rattle.ntfs_index.specs.Tree.{IsIndex, AreDistinct, index_entries, index_blocks};
ghost use Rattle.ntfs_index.specs.Laws.{AgreeOnMet, HasNoChild, own_entries};

/// A walk depends on the blocks that it met, whether it is whole or not: other blocks may be any, or missing.
pub fn walk_depends_on_blocks_met(root: &[u8], size: u32)
    ensures { (a b : BlockMap) → AgreeOnMet a b (blocks_met (walk size root.now a)) →
        walk size root.now b ≡ walk size root.now a }
{}

/// The walk of an index in an allocation depends on the blocks of it that it met: other bytes of the allocation may be
/// any, and it may be longer.
pub fn walk_of_an_allocation_depends_on_blocks_met(root: &[u8], cluster: u32, size: u32)
    ensures { (a b : List ℕ) →
        AgreeOnMet (allocation_blocks cluster size a) (allocation_blocks cluster size b)
        (blocks_met (walk_allocation cluster size root.now a)) →
        walk_allocation cluster size root.now b ≡ walk_allocation cluster size root.now a }
{}

/// A walk meets no block twice, whether it is whole or not.
pub fn each_block_is_met_once(root: &[u8], size: u32)
    ensures { (blocks : BlockMap) → AreDistinct (blocks_met (walk size root.now blocks)) }
{}

/// The walk of a root without children gives the root's own entries and meets no block.
pub fn root_without_children_gives_its_own(root: &[u8], size: u32)
    ensures entries { (blocks : BlockMap) (bytes : List ℕ) → root_node size root.now ≡ Ok bytes →
        HasNoChild (visits root_vcn 0 bytes) →
        (listing (walk size root.now blocks)).entries ≡ own_entries (visits root_vcn 0 bytes) }
    ensures met { (blocks : BlockMap) (bytes : List ℕ) → root_node size root.now ≡ Ok bytes →
        HasNoChild (visits root_vcn 0 bytes) → blocks_met (walk size root.now blocks) ≡ [] }
{}

/// The walk of an index is whole, and gives its tree in order.
pub fn index_is_walked_in_order(root: &[u8], size: u32)
    ensures entries { (blocks : BlockMap) → IsIndex size root.now blocks →
        (listing (walk size root.now blocks)).entries ≡ index_entries size root.now blocks }
    ensures whole { (blocks : BlockMap) → IsIndex size root.now blocks →
        (listing (walk size root.now blocks)).fault ≡ None }
    ensures met { (blocks : BlockMap) → IsIndex size root.now blocks →
        blocks_met (walk size root.now blocks) ≡ index_blocks size root.now blocks }
{}

/// What a whole walk walked is an index, so that the walk gave its tree in order.
pub fn whole_walk_shows_an_index(root: &[u8], size: u32)
    ensures { (blocks : BlockMap) → (listing (walk size root.now blocks)).fault ≡ None → IsIndex size root.now blocks }
{}
