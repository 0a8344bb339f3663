ghost use Rattle.std.specs.Prelude.{◌≡◌, false, true, OnOk, OnErr, IfOk, IfErr};
ghost use Rattle.ntfs_base.specs.Causes.{HaveNotFallen};
ghost use Rattle.ntfs_base.specs.Shelf.{ShelfState, IsHandedOut, IsCreated, AttachCause, CreateCause, after_attach, after_create, after_release, has_name, added_count};
ghost use Rattle.ntfs_base.specs.declared.fault.Faults.{Faults as Counts};

use crate::fault::ShelfFault;
use crate::image::HostFile;

/// Files by their names, of which each can be attached once at a time. Every name means another file.
pub trait Shelf {
    type File: HostFile;

    /// What contracts see of it.
    ghost seen: { Self → ShelfState };

    /// How often its calls, and those of files that were released, have failed.
    ghost faults: { Self → Counts };

    /// Hands out the file of a name, which has to be released again. It answers `Absent` exactly where there is none,
    /// and never `Present`.
    fn attach(&mut self, name: &str) -> Result<Self::File, ShelfFault>
        requires { has_name name.now (seen self.old).attached ≡ false }
        ensures file { IfOk result (λ file. IsHandedOut (seen self.old) name.now (Self.File.seen file)
            (Self.File.faults file)) }
        ensures attached { OnOk result (seen self.new ≡ after_attach name.now (seen self.old)) }
        ensures refused { OnErr result (seen self.new ≡ seen self.old) }
        ensures refusal { IfErr result (λ fault. AttachCause fault (seen self.old) name.now (faults self.old)
            (faults self.new)) }
        ensures counts { HaveNotFallen (faults self.old) (faults self.new) };

    /// Makes an empty file of a name, in place of one that is there, and hands it out; it has to be released again. It
    /// answers `Present` exactly where the file must be new and there is one, and never `Absent`.
    fn create(&mut self, name: &str, must_be_new: bool) -> Result<Self::File, ShelfFault>
        requires { has_name name.now (seen self.old).attached ≡ false }
        ensures file { IfOk result (λ file. IsCreated (seen self.old) name.now must_be_new (Self.File.seen file)
            (Self.File.faults file)) }
        ensures created { OnOk result (seen self.new ≡ after_create name.now (seen self.old)) }
        ensures refused { OnErr result (seen self.new ≡ seen self.old) }
        ensures refusal { IfErr result (λ fault. CreateCause fault (seen self.old) name.now must_be_new
            (faults self.old) (faults self.new)) }
        ensures counts { HaveNotFallen (faults self.old) (faults self.new) };

    /// Takes a file back: its content stands under its name, and its faults are the shelf's.
    fn release(&mut self, file: Self::File)
        requires { has_name (Self.File.seen file).name (seen self.old).attached ≡ true }
        ensures released { seen self.new ≡ after_release (Self.File.seen file) (seen self.old) }
        ensures reads { (faults self.new).reads ≡ added_count (faults self.old).reads (Self.File.faults file).reads }
        ensures writes { (faults self.new).writes ≡ added_count (faults self.old).writes
            (Self.File.faults file).writes }
        ensures counts { HaveNotFallen (faults self.old) (faults self.new) };
}
