ghost use Rattle.std.specs.Prelude.{◌≡◌, IfOk};

use crate::access::Access;
use crate::counting::{create_refused, refusal_of};
use crate::disk_file::{DiskFile, Extent, extent_of};
use ntfs_base::{Faults, Shelf, ShelfFault, one_more, remove_name};
use std::alloc::Global;
use std::fs::{File, Files, OpenOptions};
use std::io;
use std::io::ErrorKind;
use std::os::unix::fs::FileTypeExt;

/// The files of the system, by their paths. Where they are only read, it opens each for reading alone and makes none.
/// Else it opens each for reading and writing or, where that is refused, for reading alone; then writes to it fail.
#[derive(Drop)]
pub struct DiskShelf<R> {
    pub(crate) files: R,
    pub(crate) access: Access,
    /// The names that are attached now, the last one first.
    pub(crate) attached: Vec<String>,
    pub faults: Faults,
}

impl<R> DiskShelf<R> {
    ghost use Rattle.std.specs.Prelude.{◌≡◌, []};
    ghost use Rattle.ntfs_host.specs.Seen.{seen_shelf};

    /// The files that a runtime reaches, of which none is attached. It takes no memory.
    pub fn new(alloc: Global, files: R, access: Access) -> DiskShelf<R>
        ensures attached { (seen_shelf result).attached ≡ [] }
        ensures access { result.access ≡ access }
        ensures reads { result.faults.reads ≡ 0 }
        ensures writes { result.faults.writes ≡ 0 }
    {
        DiskShelf {
            files,
            access,
            attached: Vec::new(alloc),
            faults: Faults {
                reads: 0,
                writes: 0,
            },
        }
    }
}

/// Opens a file, and tells what may be done with it. What is neither a file nor a block device isn't opened: a pipe
/// would wait for a writer, and a device may act.
fn open<R: Files<File = File>>(
    files: &R,
    access: Access,
    name: &str,
) -> io::Result<(File, Access, Extent)>
    ensures { IfOk result (λ opened. access ≡ Access.ReadOnly → opened.1 ≡ Access.ReadOnly) }
{
    let about = files.metadata(name)?;
    if !about.is_file() && !about.file_type().is_block_device() {
        return Err(io::Error::from(ErrorKind::InvalidInput));
    }
    let (mut file, access) = open_as(files, access, name)?;
    let extent = extent_of(files, &mut file)?;
    Ok((file, access, extent))
}

/// Opens a file for what is asked or, where that is refused, for reading alone.
fn open_as<R: Files<File = File>>(
    files: &R,
    access: Access,
    name: &str,
) -> io::Result<(File, Access)>
    ensures { IfOk result (λ opened. access ≡ Access.ReadOnly → opened.1 ≡ Access.ReadOnly) }
{
    if access == Access::ReadWrite {
        let opened = OpenOptions::new().read(true).write(true).open(files, name);
        if let Ok(file) = opened {
            return Ok((file, Access::ReadWrite));
        }
    }
    let file = File::open(files, name)?;
    Ok((file, Access::ReadOnly))
}

/// Makes an empty file. One that is there is emptied, unless the file must be new; what can't be emptied, as a device,
/// is refused.
fn make<R: Files<File = File>>(
    files: &R,
    name: &str,
    must_be_new: bool,
) -> io::Result<(File, Extent)>
    ensures { IfOk result (λ made. made.1.size ≡ 0) }
{
    let mut file = OpenOptions::new()
        .read(true)
        .write(true)
        .create(true)
        .truncate(true)
        .create_new(must_be_new)
        .open(files, name)?;
    let extent = extent_of(files, &mut file)?;
    if extent.size > 0 {
        return Err(io::Error::from(ErrorKind::InvalidInput));
    }
    Ok((file, extent))
}

impl<R: Files<File = File>> Shelf for DiskShelf<R> {
    type File = DiskFile;

    ghost use Rattle.std.specs.Prelude.{◌≡◌, ◌≢◌, IfOk, IfErr, IsTrue, Err, OnOk, OnErr};
    ghost use Rattle.ntfs_base.specs.Shelf.{IsHandedOut, IsCreated, after_attach, after_create};
    ghost use Rattle.ntfs_host.specs.Counting.{faults_after, faults_after_create};
    ghost use Rattle.ntfs_host.specs.Seen.{seen_file, seen_shelf};

    ghost seen = { seen_shelf };

    ghost faults = { λ shelf. shelf.faults };

    fn attach(&mut self, name: &str) -> Result<DiskFile, ShelfFault>
        ensures only_read { IfOk result (λ file. self.old.access ≡ Access.ReadOnly → file.access ≡ Access.ReadOnly) }
        ensures access { self.new.access ≡ self.old.access }
        ensures file { IfOk result (λ file. IsHandedOut (seen_shelf self.old) name.now (seen_file file) file.faults) }
        ensures attached { OnOk result (seen_shelf self.new ≡ after_attach name.now (seen_shelf self.old)) }
        ensures refused { OnErr result (seen_shelf self.new ≡ seen_shelf self.old) }
        ensures counted { IfErr result (λ fault. self.new.faults ≡ faults_after fault self.old.faults) }
        ensures uncounted { OnOk result (self.new.faults ≡ self.old.faults) }
        ensures never_present { IfErr result (λ fault. fault ≢ ShelfFault.Present) }
    {
        let alloc = *self.attached.allocator();
        let text = String::from_str(alloc, name)?;
        let bears = text.clone()?;
        self.attached.reserve(1)?;
        match open(&self.files, self.access, name) {
            Ok((file, access, extent)) => {
                self.attached.insert(0, text).unwrap();
                Ok(DiskFile::new(bears, file, access, extent))
            }
            Err(error) => Err(refusal_of(&mut self.faults, &error)),
        }
    }

    fn create(&mut self, name: &str, must_be_new: bool) -> Result<DiskFile, ShelfFault>
        ensures only_read { self.old.access ≡ Access.ReadOnly → result ≡ Err ShelfFault.Failed }
        ensures writable { IfOk result (λ file. file.access ≡ Access.ReadWrite) }
        ensures access { self.new.access ≡ self.old.access }
        ensures file { IfOk result (λ file.
            IsCreated (seen_shelf self.old) name.now must_be_new (seen_file file) file.faults) }
        ensures created { OnOk result (seen_shelf self.new ≡ after_create name.now (seen_shelf self.old)) }
        ensures refused { OnErr result (seen_shelf self.new ≡ seen_shelf self.old) }
        ensures counted { IfErr result (λ fault. self.new.faults ≡ faults_after_create fault self.old.faults) }
        ensures uncounted { OnOk result (self.new.faults ≡ self.old.faults) }
        ensures never_absent { IfErr result (λ fault. fault ≢ ShelfFault.Absent) }
        ensures present { IfErr result (λ fault. fault ≡ ShelfFault.Present → IsTrue must_be_new) }
    {
        if self.access == Access::ReadOnly {
            self.faults.writes = one_more(self.faults.writes);
            return Err(ShelfFault::Failed);
        }
        let alloc = *self.attached.allocator();
        let text = String::from_str(alloc, name)?;
        let bears = text.clone()?;
        self.attached.reserve(1)?;
        match make(&self.files, name, must_be_new) {
            Ok((file, extent)) => {
                self.attached.insert(0, text).unwrap();
                Ok(DiskFile::new(bears, file, Access::ReadWrite, extent))
            }
            Err(error) => Err(create_refused(&mut self.faults, must_be_new, &error)),
        }
    }

    fn release(&mut self, file: DiskFile) {
        let DiskFile {
            name,
            file: _,
            access: _,
            size: _,
            limit: _,
            faults,
        } = file;
        remove_name(&mut self.attached, name.as_str());
        self.faults.reads = self.faults.reads.saturating_add(faults.reads);
        self.faults.writes = self.faults.writes.saturating_add(faults.writes);
    }
}
