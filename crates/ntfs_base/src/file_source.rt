ghost use Rattle.std.specs.Prelude.{◌≤◌};

use crate::fault::Failed;
use crate::image::HostFile;
use crate::source::Source;

/// A file as a source: it is read from its start, up to the length that it tells.
#[derive(Drop)]
pub struct FileSource<F: HostFile> {
    pub file: F,
    /// How many bytes were given.
    pub given: u64,
    ghost within: { given ≤ (F.seen file).size },
}

impl<F: HostFile> FileSource<F> {
    ghost use Rattle.std.specs.Prelude.{◌≡◌};

    /// The source of a file's bytes, of which none was given yet.
    pub fn new(file: F) -> FileSource<F>
        ensures file { result.file ≡ file }
        ensures given { result.given ≡ 0 }
    {
        FileSource { file, given: 0 }
    }

    /// The file, as it is.
    pub fn into_file(self) -> F
        ensures { result ≡ self.file }
    {
        let FileSource { file, given: _ } = self;
        file
    }
}

impl<F: HostFile> Source for FileSource<F> {
    ghost use Rattle.std.specs.Prelude.{◌≡◌, ◌+◌, ◌-◌, ◌≤◌, length, min, IfOk, OnErr, IsTrue};
    ghost use Rattle.ntfs_base.specs.Causes.{SourceCause, ReadCause};
    ghost use Rattle.ntfs_base.specs.FileStream.{source_of};
    ghost use Rattle.ntfs_base.specs.Source.{GivesNext, after_take};

    ghost seen = { λ source. source_of (F.seen source.file) source.given };

    ghost faults = { λ source. (F.faults source.file).reads };

    /// It gives as many bytes as there is room for, up to the file's length, which is known of an untold file too.
    fn take(&mut self, into: &mut [u8]) -> Result<usize, Failed>
        ensures room { IfOk result (λ n. n ≤ length into.old) }
        ensures gives { IfOk result (λ n. IsTrue (F.seen self.old.file).is_told
            → GivesNext (source_of (F.seen self.old.file) self.old.given) n into.new) }
        ensures given { IfOk result (λ n. source_of (F.seen self.new.file) self.new.given
            ≡ after_take n (source_of (F.seen self.old.file) self.old.given)) }
        ensures failed { OnErr result (source_of (F.seen self.new.file) self.new.given
            ≡ source_of (F.seen self.old.file) self.old.given) }
        ensures cause { SourceCause (F.faults self.old.file).reads (F.faults self.new.file).reads result }
        ensures most { IfOk result (λ n. n ≡ min (length into.old) ((F.seen self.old.file).size - self.old.given)) }
        ensures place { IfOk result (λ n. self.new.given ≡ self.old.given + n) }
        ensures stays { OnErr result (self.new.given ≡ self.old.given) }
        ensures file { F.seen self.new.file ≡ F.seen self.old.file }
        ensures counts { ReadCause (F.faults self.old.file) (F.faults self.new.file) result }
    {
        let rest = self.file.len() - self.given;
        let count = (into.len() as u64).min(rest) as usize;
        self.file.read_at(self.given, &mut into[..count])?;
        self.given += count as u64;
        Ok(count)
    }
}
