//! A clone image that is read from a source, and restored to a file.
ghost use Rattle.std.specs.Prelude.{◌≡◌, [], IfErr, IfOk, IsTrue, OnOk};
ghost use Rattle.ntfs_base.specs.Frames.{Gives, IsSameDevice, OnlyTakes, refused_as};
ghost use Rattle.ntfs_base.specs.Source.{after_take};
ghost use Rattle.ntfs_clone.specs.Commands.{clone_commands, emptied};
ghost use Rattle.ntfs_clone.specs.Header.{IsHeader, clone_header};
ghost use Rattle.ntfs_clone.specs.Taking.{HasGiven, to_come};
ghost use Rattle.ntfs_run.specs.Filling.{CloneRefuses, HeaderRefuses, IsRestoredAs, ReadRefuses, RestoresFrom};
ghost use Rattle.ntfs_run.specs.Outcome.{clone_status, status_origin};

use crate::status::Status;
use ntfs_base::{FileSource, HostFile, Source};
use ntfs_clone::{CloneHeader, read_commands, read_header, restore_to};
use std::alloc::Global;

/// Reads the header of a clone image.
pub fn read_clone_header<I: Source>(source: &mut I) -> Result<CloneHeader, Status>
    ensures gives { IsTrue (I.seen source.old).is_told → Gives status_origin (λ header. header)
        (refused_as clone_status (clone_header (to_come (I.seen source.old)))) result }
    ensures good { IfOk result IsHeader }
    ensures given { IfOk result (λ header. I.seen source.new ≡ after_take header.offset (I.seen source.old)) }
    ensures kept { HasGiven (I.seen source.old) (I.seen source.new) }
    ensures refusal { IfErr result HeaderRefuses }
    ensures takes { OnlyTakes I.Source status_origin source.old source.new result }
{
    Ok(read_header(source)?)
}

/// Reads a clone image behind its header to its end.
pub fn read_to_end<I: Source>(
    alloc: Global,
    header: &CloneHeader,
    source: &mut I,
) -> Result<(), Status>
    requires { IsHeader header.now }
    ensures gives { IsTrue (I.seen source.old).is_told → Gives status_origin (λ done. done)
        (refused_as clone_status (emptied (clone_commands header.now (to_come (I.seen source.old))))) result }
    ensures end { OnOk result (IsTrue (I.seen source.old).is_told → to_come (I.seen source.new) ≡ []) }
    ensures kept { HasGiven (I.seen source.old) (I.seen source.new) }
    ensures refusal { IfErr result ReadRefuses }
    ensures takes { OnlyTakes I.Source status_origin source.old source.new result }
{
    read_commands(alloc, header, source)?;
    Ok(())
}

/// Restores a clone image, of which the header was read, to an empty file.
pub fn restore_to_file<I: Source, F: HostFile>(
    alloc: Global,
    header: &CloneHeader,
    source: &mut I,
    file: &mut F,
) -> Result<(), Status>
    requires header { IsHeader header.now }
    requires empty { (F.seen file.old).size ≡ 0 }
    ensures gives { IsTrue (I.seen source.old).is_told → Gives status_origin (λ done. done)
        (refused_as clone_status (emptied (clone_commands header.now (to_come (I.seen source.old))))) result }
    ensures end { OnOk result (IsTrue (I.seen source.old).is_told → to_come (I.seen source.new) ≡ []) }
    ensures restored { IsTrue (I.seen source.old).is_told → IsTrue (F.seen file.old).is_told
        → IsRestoredAs header.now (to_come (I.seen source.old)) result (F.seen file.new).content }
    ensures kept { HasGiven (I.seen source.old) (I.seen source.new) }
    ensures restores { RestoresFrom I.Source F.Image source.old source.new file.old file.new result }
    ensures refusal { IfErr result CloneRefuses }
{
    restore_to(alloc, header, source, file)?;
    Ok(())
}
