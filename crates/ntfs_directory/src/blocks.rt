//! The blocks of a directory's index, read from an image.

ghost use Rattle.std.specs.Prelude.{◌≡◌, ◌≤◌, ℕ};
ghost use Rattle.ntfs_directory.specs.Allocation.{CanRead};

use crate::allocation::Allocation;
use ntfs_base::Image;
use ntfs_boot::Geometry;
use ntfs_index::{BlockFault, Blocks, block_place, vcn_unit};
use std::marker::{Brand, PhantomData};

/// What proofs alone know of an image that is lent: how often its writes had failed, and by which reference it is lent.
///
/// A walk tells of its blocks what `Blocks` says, and of their image no more than that it is seen as before and that
/// its count of failed reads hasn't fallen. That they still hold that reference, and that the count of failed writes
/// hasn't fallen either, stands in their type.
pub(crate) trait Lending {
    ghost writes: { ℕ };

    ghost reference: { ℕ };
}

impl Lending for Brand {
    ghost writes = { 0 };

    ghost reference = { 0 };
}

/// An allocation over the image and the geometry of its volume.
#[derive(Drop)]
pub(crate) struct Lent<'i, 'g, 'a, G: Image> {
    pub(crate) image: &'i mut G,
    pub(crate) geometry: &'g Geometry,
    pub(crate) allocation: &'a Allocation,
}

/// The blocks in an allocation.
#[derive(Drop)]
pub(crate) struct ImageBlocks<'i, 'g, 'a, G: Image, K: Lending> {
    image: &'i mut G,
    geometry: &'g Geometry,
    allocation: &'a Allocation,
    lending: PhantomData<K>,
    ghost same: { image.ghost_name ≡ K.reference },
    ghost counted: { K.writes ≤ (G.faults image.now).writes },
    ghost readable: { CanRead (G.seen image.now).size geometry.now allocation.now },
}

impl<'i, 'g, 'a, G: Image, K: Lending> ImageBlocks<'i, 'g, 'a, G, K> {
    /// The blocks in an allocation that is lent.
    pub(crate) fn new(over: Lent<'i, 'g, 'a, G>) -> ImageBlocks<'i, 'g, 'a, G, K>
        requires same { over.image.ghost_name ≡ K.reference }
        requires counted { K.writes ≤ (G.faults over.image.now).writes }
        requires readable { CanRead (G.seen over.image.now).size over.geometry.now over.allocation.now }
        ensures same_reference { result.image.ghost_name ≡ over.entry.image.ghost_name }
        ensures image { result.image.now ≡ over.entry.image.now }
        ensures geometry { result.geometry.now ≡ over.entry.geometry.now }
        ensures allocation { result.allocation.now ≡ over.entry.allocation.now }
    {
        let Lent {
            image,
            geometry,
            allocation,
        } = over;
        ImageBlocks {
            image,
            geometry,
            allocation,
            lending: PhantomData::<K>,
        }
    }

    /// What is lent.
    pub(crate) fn into_lent(self) -> Lent<'i, 'g, 'a, G>
        ensures same_reference { result.image.ghost_name ≡ K.reference }
        ensures image { result.image.now ≡ self.entry.image.now }
    {
        let ImageBlocks {
            image,
            geometry,
            allocation,
            lending: _,
        } = self;
        Lent {
            image,
            geometry,
            allocation,
        }
    }
}

impl<'i, 'g, 'a, G: Image, K: Lending> Blocks for ImageBlocks<'i, 'g, 'a, G, K> {
    ghost use Rattle.std.specs.Prelude.{◌≡◌, ◌↔◌, ◌+◌, ◌≤◌, Some, None, Err, length, IsTrue, OnOk};
    ghost use Rattle.ntfs_base.specs.Causes.{HaveNotFallen, Rose};
    ghost use Rattle.ntfs_directory.specs.ImageBlocks.{blocks_in, seen_in, seen_in-sized};

    ghost seen = { λ blocks. seen_in blocks.geometry.now blocks.allocation.now
        (G.seen blocks.image.now) };

    ghost faults = { λ blocks. (G.faults blocks.image.now).reads };

    ghost asked = { λ blocks. 0 };

    ghost sized = { λ blocks. seen_in-sized (G.seen blocks.image.now).size blocks.geometry.now
        blocks.allocation.now (G.seen blocks.image.now) blocks.readable };

    fn block(&mut self, vcn: u64, into: &mut [u8]) -> Result<(), BlockFault>
        requires { length into.old ≡ self.old.geometry.now.block }
        ensures gives { OnOk result (IsTrue (G.seen self.old.image.now).is_told →
            blocks_in self.old.geometry.now self.old.allocation.now (G.seen self.old.image.now) vcn ≡ Some into.new) }
        ensures outside { IsTrue (G.seen self.old.image.now).is_told → (result ≡ Err BlockFault.Outside) ↔
            (blocks_in self.old.geometry.now self.old.allocation.now (G.seen self.old.image.now) vcn ≡ None) }
        ensures cause { result ≡ Err BlockFault.Failed →
            Rose (G.faults self.old.image.now).reads (G.faults self.new.image.now).reads }
        ensures image { G.seen self.new.image.now ≡ G.seen self.old.image.now }
        ensures geometry { self.new.geometry ≡ self.old.geometry }
        ensures allocation { self.new.allocation ≡ self.old.allocation }
        ensures seen { seen_in self.new.geometry.now self.new.allocation.now (G.seen self.new.image.now)
            ≡ seen_in self.old.geometry.now self.old.allocation.now (G.seen self.old.image.now) }
        ensures faults { (G.faults self.old.image.now).reads ≤ (G.faults self.new.image.now).reads }
        ensures asked { 0 ≤ 0 + 1 }
        ensures counts { HaveNotFallen (G.faults self.old.image.now) (G.faults self.new.image.now) }
    {
        let size = self.geometry.block;
        let Some(place) = block_place(vcn, vcn_unit(self.geometry), size, self.allocation.len())
        else {
            return Err(BlockFault::Outside);
        };
        match self
            .allocation
            .read(&mut *self.image, self.geometry, place, into)
        {
            Ok(()) => Ok(()),
            Err(_) => Err(BlockFault::Failed),
        }
    }
}
