use crate::fault::{Failed, Faults};
use crate::image::Image;
use crate::memory::content::MemContent;
use std::alloc::Global;

/// An image in memory, which comes from no shelf.
#[derive(Drop)]
pub struct MemImage {
    pub inside: MemContent,
}

impl MemImage {
    ghost use Rattle.std.specs.Prelude.{◌≡◌, []};

    /// An image with these bytes, of which no call fails.
    pub fn new(alloc: Global, bytes: Vec<u8>) -> MemImage
        ensures bytes { result.inside.bytes ≡ bytes }
        ensures made { result.inside.calls.made ≡ 0 }
        ensures failing { result.inside.calls.failing.items ≡ [] }
        ensures reads { result.inside.faults.reads ≡ 0 }
        ensures writes { result.inside.faults.writes ≡ 0 }
    {
        MemImage {
            inside: MemContent::new(alloc, bytes),
        }
    }
}

ghost use Rattle.std.specs.Prelude.{◌≡◌, ◌+◌, ◌≤◌, [], ◌∷◌, length, slice_range, IsTrue, OnOk, refl};
ghost use Rattle.ntfs_base.specs.Causes.{ReadCause, WriteCause};
ghost use Rattle.ntfs_base.specs.Memory.{ReadsMemory, WritesMemory, SyncsMemory, seen_of};
ghost use Rattle.ntfs_base.specs.Writes.{Wrote};

impl Image for MemImage {
    ghost seen = { λ image. seen_of [] image.inside };

    ghost faults = { λ image. image.inside.faults };

    ghost told_size = { λ image told. refl };

    fn len(&self) -> u64 {
        self.inside.bytes.len() as u64
    }

    fn read_at(&mut self, at: u64, into: &mut [u8]) -> Result<(), Failed>
        requires { at + length into.old ≤ (seen_of [] self.old.inside).size }
        ensures bytes { OnOk result (IsTrue (seen_of [] self.old.inside).is_told
            → into.new ≡ slice_range (seen_of [] self.old.inside).content at (at + length into.old)) }
        ensures seen { seen_of [] self.new.inside ≡ seen_of [] self.old.inside }
        ensures cause { ReadCause self.old.inside.faults self.new.inside.faults result }
        ensures memory { ReadsMemory self.old.inside result self.new.inside }
    {
        self.inside.read(at, into)
    }

    fn write_at(&mut self, at: u64, bytes: &[u8]) -> Result<(), Failed>
        requires { at + length bytes.now ≤ (seen_of [] self.old.inside).size }
        ensures wrote { Wrote (record { place = at; bytes = bytes.now } ∷ []) (seen_of [] self.old.inside) result
            (seen_of [] self.new.inside) }
        ensures cause { WriteCause self.old.inside.faults self.new.inside.faults result }
        ensures memory { WritesMemory (record { place = at; bytes = bytes.now }) self.old.inside result
            self.new.inside }
    {
        self.inside.write(at, bytes)
    }

    fn sync(&mut self) -> Result<(), Failed>
        ensures seen { seen_of [] self.new.inside ≡ seen_of [] self.old.inside }
        ensures cause { WriteCause self.old.inside.faults self.new.inside.faults result }
        ensures memory { SyncsMemory self.old.inside result self.new.inside }
    {
        self.inside.sync()
    }
}
