ghost use Rattle.std.specs.Prelude.{◌≡◌, ◌+◌, ◌≤◌, List, [], ◌∷◌, length, slice_range, IsTrue, OnOk, IfErr};
ghost use Rattle.ntfs_base.specs.Causes.{HaveNotFallen, ReadCause, WriteCause, GrowthCause};
ghost use Rattle.ntfs_base.specs.Growth.{SetLength, Appended, KeepsFile};
ghost use Rattle.ntfs_base.specs.Image.{ImageState, HasToldSize};
ghost use Rattle.ntfs_base.specs.Writes.{Wrote};
ghost use Rattle.ntfs_base.specs.declared.fault.Faults.{Faults as Counts};

use crate::fault::{Failed, PutFault};

/// A list of bytes of a fixed length outside the program, as a volume's image is.
pub trait Image {
    /// What contracts see of it.
    ghost seen: { Self → ImageState };

    /// How often its calls have failed.
    ghost faults: { Self → Counts };

    /// The length in bytes, which no call of this trait changes.
    fn len(&self) -> u64
        ensures size { result ≡ (seen self.now).size }
        ensures told { HasToldSize (seen self.now) };

    /// Reads the bytes from a place on, as many as the slice has. After `Failed` the slice holds anything.
    fn read_at(&mut self, at: u64, into: &mut [u8]) -> Result<(), Failed>
        requires { at + length into.old ≤ (seen self.old).size }
        ensures bytes { OnOk result (IsTrue (seen self.old).is_told
            → into.new ≡ slice_range (seen self.old).content at (at + length into.old)) }
        ensures seen { seen self.new ≡ seen self.old }
        ensures cause { ReadCause (faults self.old) (faults self.new) result };

    /// Writes the bytes from a place on. After `Failed` the range is wholly as before or wholly as asked.
    fn write_at(&mut self, at: u64, bytes: &[u8]) -> Result<(), Failed>
        requires { at + length bytes.now ≤ (seen self.old).size }
        ensures wrote { Wrote (record { place = at; bytes = bytes.now } ∷ []) (seen self.old) result (seen self.new) }
        ensures cause { WriteCause (faults self.old) (faults self.new) result };

    /// Asks that all writes be durable. It changes no content.
    fn sync(&mut self) -> Result<(), Failed>
        ensures seen { seen self.new ≡ seen self.old }
        ensures cause { WriteCause (faults self.old) (faults self.new) result };

    /// Content that is told has the told length.
    ghost told_size: { (image : Self) → HasToldSize (seen image) };
}

/// A file of a shelf: an image that may be cut or made longer.
pub trait HostFile: Image {
    /// Sets the length: cuts the file, or extends it with zeros. After `Failed` the file is as before or as asked,
    /// after `NoMemory` as before.
    fn set_len(&mut self, len: u64) -> Result<(), PutFault>
        ensures set { SetLength len (Self.seen self.old) result (Self.seen self.new) }
        ensures nothing { IfErr result (λ fault. KeepsFile fault (Self.seen self.old) (Self.seen self.new)) }
        ensures cause { GrowthCause (Self.faults self.old) (Self.faults self.new) result };

    /// Adds the bytes at the end: all of them, or a front of them with `Failed`, or none with `NoMemory`.
    fn append(&mut self, bytes: &[u8]) -> Result<(), PutFault>
        ensures appended { Appended bytes.now (Self.seen self.old) result (Self.seen self.new) }
        ensures nothing { IfErr result (λ fault. KeepsFile fault (Self.seen self.old) (Self.seen self.new)) }
        ensures cause { GrowthCause (Self.faults self.old) (Self.faults self.new) result };
}
