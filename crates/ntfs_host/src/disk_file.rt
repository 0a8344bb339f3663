ghost use Rattle.std.specs.Prelude.{◌≡◌, ◌≤◌, ◌<◌, ◌+◌, ◌↔◌, ◌^◌, length, IsOk, IfOk, OnOk};
ghost use Rattle.ntfs_host.specs.Disk.{MayWrite, MaySetLength};

use crate::access::Access;
use crate::counting::count_fault;
use crate::limits::size_limit;
use ntfs_base::{Failed, Faults, HostFile, Image, PutFault};
use std::fs::{File, Files};
use std::io;
use std::io::{ErrorKind, Seek, SeekFrom};
use std::os::unix::fs::{FileExt, FileTypeExt};

/// An open file or block device. Its length is read when it is opened, and kept: it is what this file's own calls have
/// made of it since. A file that has become shorter by other hands fails where a read meets its end.
#[derive(Drop)]
pub struct DiskFile {
    pub(crate) name: String,
    pub(crate) file: File,
    pub(crate) access: Access,
    /// In bytes: as it was when the file was opened, and as the calls since then have left it.
    pub(crate) size: u64,
    /// In bytes: where the system lets a file end. Past it the system would end the program, so nothing is written.
    pub(crate) limit: u64,
    pub(crate) faults: Faults,
}

impl DiskFile {
    ghost use Rattle.std.specs.Prelude.{◌≡◌};

    /// An open file under a name, with no fault yet.
    pub(crate) fn new(name: String, file: File, access: Access, extent: Extent) -> DiskFile
        ensures name { result.name ≡ name }
        ensures access { result.access ≡ access }
        ensures size { result.size ≡ extent.size }
        ensures limit { result.limit ≡ extent.limit }
        ensures reads { result.faults.reads ≡ 0 }
        ensures writes { result.faults.writes ≡ 0 }
    {
        DiskFile {
            name,
            file,
            access,
            size: extent.size,
            limit: extent.limit,
            faults: Faults {
                reads: 0,
                writes: 0,
            },
        }
    }

    /// Whether so many bytes may be written from a place on.
    fn check_write(&self, at: u64, count: u64) -> io::Result<()>
        ensures may { IsOk result ↔ MayWrite self.now at count }
        ensures fits { OnOk result (at + count < 2 ^ 64) }
    {
        if self.access == Access::ReadOnly {
            return Err(io::Error::from(ErrorKind::PermissionDenied));
        }
        if at > self.limit || count > self.limit - at {
            return Err(io::Error::from(ErrorKind::FileTooLarge));
        }
        Ok(())
    }

    fn write_whole(&self, at: u64, bytes: &[u8]) -> io::Result<()>
        ensures { OnOk result (MayWrite self.now at (length bytes.now)) }
    {
        self.check_write(at, bytes.len() as u64)?;
        self.file.write_all_at(bytes, at)
    }

    /// Writes the bytes behind the last one, and answers besides where those end that were surely written.
    fn write_behind(&self, bytes: &[u8]) -> (u64, io::Result<()>)
        ensures least { self.now.size ≤ result.0 }
        ensures most { result.0 ≤ self.now.size + length bytes.now }
        ensures whole { OnOk result.1 (result.0 ≡ self.now.size + length bytes.now) }
        ensures may { OnOk result.1 (MayWrite self.now self.now.size (length bytes.now)) }
    {
        if let Err(error) = self.check_write(self.size, bytes.len() as u64) {
            return (self.size, Err(error));
        }
        write_from(&self.file, self.size, bytes)
    }

    fn change_length(&self, len: u64) -> io::Result<()>
        ensures { OnOk result (MaySetLength self.now len) }
    {
        self.check_write(0, if len > self.size { len } else { 0 })?;
        self.file.set_len(len)
    }
}

/// How long a file is, and where the system lets it end, in bytes.
#[derive(Clone, Copy)]
pub(crate) struct Extent {
    pub(crate) size: u64,
    pub(crate) limit: u64,
}

/// A file has a length, and a block device. Nothing else has one: a directory, a pipe or a terminal is refused.
pub(crate) fn extent_of<R: Files<File = File>>(files: &R, file: &mut File) -> io::Result<Extent> {
    let about = file.metadata()?;
    if about.is_file() {
        return Ok(Extent {
            size: about.len(),
            limit: size_limit(files),
        });
    }
    if about.file_type().is_block_device() {
        return Ok(Extent {
            size: file.seek(SeekFrom::End(0))?,
            limit: u64::MAX,
        });
    }
    Err(io::Error::from(ErrorKind::InvalidInput))
}

/// One write, made anew where a signal interrupted it. It writes at least one byte.
fn write_once<F: FileExt>(file: &F, at: u64, bytes: &[u8]) -> io::Result<usize>
    ensures some { IfOk result (λ n. 0 < n) }
    ensures most { IfOk result (λ n. n ≤ length bytes.now) }
{
    'tries: for _ in 0..u64::MAX {
        match file.write_at(bytes, at) {
            Ok(0) => return Err(io::Error::from(ErrorKind::WriteZero)),
            Err(error) if error.kind() == ErrorKind::Interrupted => {}
            answer => return answer,
        }
    }
    Err(io::Error::from(ErrorKind::Interrupted))
}

/// Writes the bytes from a place on, and answers besides where those end that were surely written.
pub(crate) fn write_from<F: FileExt>(file: &F, at: u64, bytes: &[u8]) -> (u64, io::Result<()>)
    requires { at + length bytes.now < 2 ^ 64 }
    ensures least { at ≤ result.0 }
    ensures most { result.0 ≤ at + length bytes.now }
    ensures whole { OnOk result.1 (result.0 ≡ at + length bytes.now) }
{
    let mut done = 0;
    'writes: while done < bytes.len() {
        match write_once(file, at + done as u64, &bytes[done..]) {
            Ok(count) => done += count,
            Err(error) => return (at + done as u64, Err(error)),
        }
    }
    (at + done as u64, Ok(()))
}

impl Image for DiskFile {
    ghost use Rattle.std.specs.Prelude.{◌≡◌, [], ◌∷◌, length, OnOk};
    ghost use Rattle.std.proofs.lemmas.Bool.{false≢true};
    ghost use Rattle.ntfs_base.specs.Calls.{count_after};
    ghost use Rattle.ntfs_base.specs.Writes.{Wrote};
    ghost use Rattle.ntfs_host.specs.Seen.{seen_file};

    ghost seen = { seen_file };

    ghost faults = { λ image. image.faults };

    ghost told_size = { λ image told. absurd (false≢true told) };

    fn len(&self) -> u64 {
        self.size
    }

    fn read_at(&mut self, at: u64, into: &mut [u8]) -> Result<(), Failed>
        ensures seen { seen_file self.new ≡ seen_file self.old }
        ensures counted { self.new.faults
            ≡ record self.old.faults { reads = count_after self.old.faults.reads result } }
        ensures access { self.new.access ≡ self.old.access }
    {
        count_fault(&mut self.faults.reads, self.file.read_exact_at(into, at))
    }

    fn write_at(&mut self, at: u64, bytes: &[u8]) -> Result<(), Failed>
        ensures may { OnOk result (MayWrite self.old at (length bytes.now)) }
        ensures wrote { Wrote (record { place = at; bytes = bytes.now } ∷ [])
            (seen_file self.old) result (seen_file self.new) }
        ensures seen { seen_file self.new ≡ seen_file self.old }
        ensures counted { self.new.faults
            ≡ record self.old.faults { writes = count_after self.old.faults.writes result } }
        ensures access { self.new.access ≡ self.old.access }
    {
        let written = self.write_whole(at, bytes);
        count_fault(&mut self.faults.writes, written)
    }

    fn sync(&mut self) -> Result<(), Failed>
        ensures seen { seen_file self.new ≡ seen_file self.old }
        ensures counted { self.new.faults
            ≡ record self.old.faults { writes = count_after self.old.faults.writes result } }
        ensures access { self.new.access ≡ self.old.access }
    {
        count_fault(&mut self.faults.writes, self.file.sync_data())
    }
}

impl HostFile for DiskFile {
    ghost use Rattle.std.specs.Prelude.{◌≡◌, IfErr, OnErr};
    ghost use Rattle.ntfs_base.specs.Calls.{count_after};
    ghost use Rattle.ntfs_base.specs.Growth.{SetLength, Appended};
    ghost use Rattle.ntfs_host.specs.Seen.{seen_file};

    /// After `Failed` the kept length is the old one.
    fn set_len(&mut self, len: u64) -> Result<(), PutFault>
        ensures may { OnOk result (MaySetLength self.old len) }
        ensures set { SetLength len (seen_file self.old) result (seen_file self.new) }
        ensures same { OnErr result (seen_file self.new ≡ seen_file self.old) }
        ensures failed { IfErr result (λ fault. fault ≡ PutFault.Failed) }
        ensures counted { self.new.faults
            ≡ record self.old.faults { writes = count_after self.old.faults.writes result } }
        ensures access { self.new.access ≡ self.old.access }
    {
        let answer = self.change_length(len);
        match count_fault(&mut self.faults.writes, answer) {
            Ok(()) => {
                self.size = len;
                Ok(())
            }
            Err(Failed) => Err(PutFault::Failed),
        }
    }

    /// Writes at the kept length, which grows by what was surely written, also where the call failed.
    fn append(&mut self, bytes: &[u8]) -> Result<(), PutFault>
        ensures may { OnOk result (MayWrite self.old self.old.size (length bytes.now)) }
        ensures appended { Appended bytes.now (seen_file self.old) result (seen_file self.new) }
        ensures failed { IfErr result (λ fault. fault ≡ PutFault.Failed) }
        ensures counted { self.new.faults
            ≡ record self.old.faults { writes = count_after self.old.faults.writes result } }
        ensures access { self.new.access ≡ self.old.access }
    {
        let (end, answer) = self.write_behind(bytes);
        self.size = end;
        match count_fault(&mut self.faults.writes, answer) {
            Ok(()) => Ok(()),
            Err(Failed) => Err(PutFault::Failed),
        }
    }
}
