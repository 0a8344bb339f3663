use crate::fault::{Failed, Faults, PutFault};
use crate::image::{HostFile, Image};
use crate::memory::content::MemContent;

/// A file of a shelf in memory.
#[derive(Drop)]
pub struct MemFile {
    pub name: String,
    pub inside: MemContent,
}

ghost use Rattle.std.specs.Prelude.{◌≡◌, ◌+◌, ◌≤◌, [], ◌∷◌, length, slice_range, string_bytes, IsTrue, OnOk, IfErr, refl};
ghost use Rattle.ntfs_base.specs.Causes.{ReadCause, WriteCause, GrowthCause};
ghost use Rattle.ntfs_base.specs.Growth.{SetLength, Appended, KeepsFile};
ghost use Rattle.ntfs_base.specs.Memory.{ReadsMemory, WritesMemory, SyncsMemory, SetsMemory, AppendsMemory, IsNumbered};
ghost use Rattle.ntfs_base.specs.MemShelf.{seen_mem_file};
ghost use Rattle.ntfs_base.specs.Writes.{Wrote};

impl Image for MemFile {
    ghost seen = { λ image. seen_mem_file image };

    ghost faults = { λ image. image.inside.faults };

    ghost told_size = { λ image told. refl };

    fn len(&self) -> u64 {
        self.inside.bytes.len() as u64
    }

    fn read_at(&mut self, at: u64, into: &mut [u8]) -> Result<(), Failed>
        requires { at + length into.old ≤ (seen_mem_file self.old).size }
        ensures bytes { OnOk result (IsTrue (seen_mem_file self.old).is_told
            → into.new ≡ slice_range (seen_mem_file self.old).content at (at + length into.old)) }
        ensures seen { seen_mem_file self.new ≡ seen_mem_file self.old }
        ensures cause { ReadCause self.old.inside.faults self.new.inside.faults result }
        ensures memory { ReadsMemory self.old.inside result self.new.inside }
        ensures name { self.new.name ≡ self.old.name }
    {
        self.inside.read(at, into)
    }

    fn write_at(&mut self, at: u64, bytes: &[u8]) -> Result<(), Failed>
        requires { at + length bytes.now ≤ (seen_mem_file self.old).size }
        ensures wrote { Wrote (record { place = at; bytes = bytes.now } ∷ []) (seen_mem_file self.old) result
            (seen_mem_file self.new) }
        ensures cause { WriteCause self.old.inside.faults self.new.inside.faults result }
        ensures memory { WritesMemory (record { place = at; bytes = bytes.now }) self.old.inside result
            self.new.inside }
        ensures name { self.new.name ≡ self.old.name }
    {
        self.inside.write(at, bytes)
    }

    fn sync(&mut self) -> Result<(), Failed>
        ensures seen { seen_mem_file self.new ≡ seen_mem_file self.old }
        ensures cause { WriteCause self.old.inside.faults self.new.inside.faults result }
        ensures memory { SyncsMemory self.old.inside result self.new.inside }
        ensures name { self.new.name ≡ self.old.name }
    {
        self.inside.sync()
    }
}

impl HostFile for MemFile {
    fn set_len(&mut self, len: u64) -> Result<(), PutFault>
        ensures set { SetLength len (seen_mem_file self.old) result (seen_mem_file self.new) }
        ensures nothing { IfErr result (λ fault. KeepsFile fault (seen_mem_file self.old) (seen_mem_file self.new)) }
        ensures cause { GrowthCause self.old.inside.faults self.new.inside.faults result }
        ensures memory { SetsMemory len self.old.inside result self.new.inside }
        ensures numbered { IsNumbered self.old.inside self.new.inside }
        ensures name { self.new.name ≡ self.old.name }
    {
        self.inside.set_len(len)
    }

    fn append(&mut self, bytes: &[u8]) -> Result<(), PutFault>
        ensures appended { Appended bytes.now (seen_mem_file self.old) result (seen_mem_file self.new) }
        ensures nothing { IfErr result (λ fault. KeepsFile fault (seen_mem_file self.old) (seen_mem_file self.new)) }
        ensures cause { GrowthCause self.old.inside.faults self.new.inside.faults result }
        ensures memory { AppendsMemory bytes.now self.old.inside result self.new.inside }
        ensures numbered { IsNumbered self.old.inside self.new.inside }
        ensures name { self.new.name ≡ self.old.name }
    {
        self.inside.append(bytes)
    }
}
