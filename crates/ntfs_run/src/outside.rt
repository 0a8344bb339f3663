//! What the tools do alike with files and the output.
ghost use Rattle.std.specs.Prelude.{◌≡◌, true, false, not, IfErr, IfOk, OnErr, OnOk};
ghost use Rattle.std.specs.Option.{ok_or};
ghost use Rattle.ntfs_base.specs.Causes.{HaveNotFallen, Rose};
ghost use Rattle.ntfs_base.specs.Frames.{Because, Gives, IfFiles, OnlyPuts};
ghost use Rattle.ntfs_base.specs.Shelf.{IsCreated, IsHandedOut, after_attach, after_create, file_of, has_name};
ghost use Rattle.ntfs_run.specs.Outcome.{AttachRefuses, CreateRefuses, attach_status, create_status, may_make, status_origin};

use crate::status::Status;
use ntfs_base::{Named, Shelf, ShelfFault, Sink};

/// Attaches the image of a name, which has to be released again.
pub fn attach_image<S: Shelf>(name: &str, shelf: &mut S) -> Result<S::File, Status>
    requires { has_name name.now (S.seen shelf.old).attached ≡ false }
    ensures gives { IfFiles S.Shelf shelf.old (λ files. Gives status_origin (λ file. (S.File.seen file).content)
        (ok_or (file_of files name.now) (Status.Absent Named.Image)) result) }
    ensures file { IfOk result (λ file.
        IsHandedOut (S.seen shelf.old) name.now (S.File.seen file) (S.File.faults file)) }
    ensures attached { OnOk result (S.seen shelf.new ≡ after_attach name.now (S.seen shelf.old)) }
    ensures refused { OnErr result (S.seen shelf.new ≡ S.seen shelf.old) }
    ensures refusal { IfErr result (AttachRefuses Named.Image) }
    ensures counts { HaveNotFallen (S.faults shelf.old) (S.faults shelf.new) }
    ensures cause { IfErr result (λ fault.
        Because (status_origin fault) (Rose (S.faults shelf.old).reads (S.faults shelf.new).reads) ⊥ (Unit {0})) }
{
    attach_file(Named::Image, name, shelf)
}

/// Attaches the file of a name, which has to be released again, as the one that is meant.
pub fn attach_file<S: Shelf>(file: Named, name: &str, shelf: &mut S) -> Result<S::File, Status>
    requires { has_name name.now (S.seen shelf.old).attached ≡ false }
    ensures gives { IfFiles S.Shelf shelf.old (λ files. Gives status_origin (λ file. (S.File.seen file).content)
        (ok_or (file_of files name.now) (Status.Absent file)) result) }
    ensures file { IfOk result (λ file.
        IsHandedOut (S.seen shelf.old) name.now (S.File.seen file) (S.File.faults file)) }
    ensures attached { OnOk result (S.seen shelf.new ≡ after_attach name.now (S.seen shelf.old)) }
    ensures refused { OnErr result (S.seen shelf.new ≡ S.seen shelf.old) }
    ensures refusal { IfErr result (AttachRefuses file) }
    ensures counts { HaveNotFallen (S.faults shelf.old) (S.faults shelf.new) }
    ensures cause { IfErr result (λ fault.
        Because (status_origin fault) (Rose (S.faults shelf.old).reads (S.faults shelf.new).reads) ⊥ (Unit {0})) }
{
    match shelf.attach(name) {
        Ok(found) => Ok(found),
        Err(fault) => Err(attach_status(file, fault)),
    }
}

/// Makes the empty file of a name, as the one that is meant; it has to be released again. It must be new, or may be
/// overwritten.
pub fn create_file<S: Shelf>(
    file: Named,
    name: &str,
    overwrite: bool,
    shelf: &mut S,
) -> Result<S::File, Status>
    requires { has_name name.now (S.seen shelf.old).attached ≡ false }
    ensures gives { IfFiles S.Shelf shelf.old (λ files.
        Gives status_origin (λ made. tt) (may_make file overwrite name.now files) result) }
    ensures file { IfOk result (λ made.
        IsCreated (S.seen shelf.old) name.now (not overwrite) (S.File.seen made) (S.File.faults made)) }
    ensures created { OnOk result (S.seen shelf.new ≡ after_create name.now (S.seen shelf.old)) }
    ensures refused { OnErr result (S.seen shelf.new ≡ S.seen shelf.old) }
    ensures refusal { IfErr result (CreateRefuses file overwrite) }
    ensures counts { HaveNotFallen (S.faults shelf.old) (S.faults shelf.new) }
    ensures cause { IfErr result (λ fault.
        Because (status_origin fault) ⊥ (Rose (S.faults shelf.old).writes (S.faults shelf.new).writes) (Unit {0})) }
{
    match shelf.create(name, !overwrite) {
        Ok(made) => Ok(made),
        Err(fault) => Err(create_status(file, fault)),
    }
}

/// Writes what waits on the output.
pub fn flush<O: Sink>(out: &mut O) -> Result<(), Status>
    ensures seen { O.seen out.new ≡ O.seen out.old }
    ensures flushed { OnOk result (O.is_flushed out.new ≡ true) }
    ensures frame { OnlyPuts O.Sink status_origin out.old out.new result }
    ensures refusal { IfErr result (λ fault. fault ≡ Status.WriteFault) }
{
    match out.flush() {
        Ok(()) => Ok(()),
        Err(_) => Err(Status::WriteFault),
    }
}

/// Why the file that is meant wasn't attached.
fn attach_status(file: Named, fault: ShelfFault) -> Status
    ensures { result ≡ attach_status file fault }
{
    match fault {
        ShelfFault::Absent => Status::Absent { file },
        ShelfFault::Present => Status::Present { file },
        ShelfFault::Failed => Status::ReadFault,
        ShelfFault::NoMemory => Status::NoMemory,
    }
}

/// Why the file that is meant wasn't made.
fn create_status(file: Named, fault: ShelfFault) -> Status
    ensures { result ≡ create_status file fault }
{
    match fault {
        ShelfFault::Absent => Status::Absent { file },
        ShelfFault::Present => Status::Present { file },
        ShelfFault::Failed => Status::WriteFault,
        ShelfFault::NoMemory => Status::NoMemory,
    }
}
