//! A clone image that is restored to a file.

ghost use Rattle.std.specs.Prelude.{◌≡◌, ◌≤◌, ◌<◌, ◌+◌, ◌-◌, ◌*◌, ◌⊎◌, ◌++◌, ◌∷◌, ◌==◌, [], List, length, take, true, None, IfOk, IfErr, IsOk, OnOk, OnErr, IfSome, IsTrue};
ghost use Rattle.ntfs_base.specs.Frames.{Gives, IsSameDevice, OnlyTakes, OnlyWrites};
ghost use Rattle.ntfs_clone.specs.Commands.{Command, clone_commands, covered_count, emptied, right_commands};
ghost use Rattle.ntfs_clone.specs.Fault.{IsReadOnlyFault, IsRestoreFault, IsWriteFault, clone_origin};
ghost use Rattle.ntfs_clone.specs.Header.{IsHeader};
ghost use Rattle.ntfs_clone.specs.Reading.{IsAllowed, command_found, found_length};
ghost use Rattle.ntfs_clone.specs.Restored.{laid_out};
ghost use Rattle.ntfs_clone.specs.Taking.{HasGiven, to_come};
ghost use Rattle.ntfs_clone.specs.Writing.{IsFront, IsHeld, IsRestored, IsSameFile, IsWritten, Makes, OnTarget, Reaches, Restores};

use crate::backup::back_up;
use crate::command::{Next, Progress};
use crate::fault::CloneFault;
use crate::header::CloneHeader;
use crate::input::Input;
use crate::reading::{BUFFER, end, next, read_commands};
use crate::row::Row;
use crate::writing::{flush, new_row, put_cluster, put_gap};
use ntfs_base::{HostFile, Source};
use std::alloc::Global;

/// Puts what a command says behind what was put before. Its bytes begin these.
fn put<F: HostFile>(
    header: &CloneHeader,
    command: &Next,
    bytes: &[u8],
    progress: &Progress,
    row: &mut Row,
    target: &mut F,
) -> Result<(), CloneFault>
    requires header { IsHeader header.now }
    requires allowed { IsAllowed progress.now.room progress.now.after_empty command.now }
    requires whole { found_length header.now.cluster command.now ≤ length bytes.now }
    requires reaches { Reaches header.now progress.now.room row.old }
    requires size { (F.seen target.old).size ≡ header.now.device }
    ensures reaches { OnOk result (Reaches header.now
        (progress.now.room - covered_count (command_found header.now.cluster bytes.now command.now)) row.new) }
    ensures held { OnOk result ((read : List Command) → IsTrue (F.seen target.old).is_told
        → IsHeld header.now read row.old (F.seen target.old).content
        → IsHeld header.now (read ++ command_found header.now.cluster bytes.now command.now ∷ []) row.new
        (F.seen target.new).content) }
    ensures front { OnErr result ((read : List Command) → IsTrue (F.seen target.old).is_told
        → IsHeld header.now read row.old (F.seen target.old).content
        → IsFront header.now read (F.seen target.new).content) }
    ensures same { IsSameFile (F.seen target.old) (F.seen target.new) }
    ensures fails { IfErr result IsWriteFault }
    ensures writes { OnlyWrites F.Image clone_origin target.old target.new result }
{
    match *command {
        Next::Gap { count } => put_gap(header, count, progress, row, target),
        Next::Cluster => {
            let cluster = &bytes[1..1 + header.cluster as usize];
            put_cluster(header, cluster, progress, row, target)
        }
    }
}

/// Reads all commands and writes what they say, in rows. It answers whether they end before the tail.
fn write_commands<I: Source, F: HostFile>(
    alloc: Global,
    header: &CloneHeader,
    source: &mut I,
    target: &mut F,
) -> Result<bool, CloneFault>
    requires header { IsHeader header.now }
    requires size { (F.seen target.old).size ≡ header.now.device }
    requires empty { IsTrue (F.seen target.old).is_told → (F.seen target.old).content ≡ laid_out header.now [] }
    ensures gives { IsTrue (I.seen source.old).is_told → Gives clone_origin (λ before_tail. tt)
        (emptied (clone_commands header.now (to_come (I.seen source.old)))) result }
    ensures end { OnOk result (IsTrue (I.seen source.old).is_told → to_come (I.seen source.new) ≡ []) }
    ensures written { IsTrue (I.seen source.old).is_told → IsTrue (F.seen target.old).is_told
        → IsWritten header.now (to_come (I.seen source.old)) result (F.seen target.new).content }
    ensures fails { IfErr result IsRestoreFault }
    ensures kept { HasGiven (I.seen source.old) (I.seen source.new) }
    ensures same { IsSameFile (F.seen target.old) (F.seen target.new) }
    ensures restores { Restores I.Source F.Image source.old source.new target.old target.new result }
{
    let cluster = header.cluster as usize;
    let mut input = Input::new(alloc, BUFFER)?;
    let mut row = new_row(alloc)?;
    let mut progress = Progress::new(header);
    'commands: while let Some(command) = next(&mut input, source, cluster, &progress)? {
        put(
            header,
            &command,
            input.waiting(),
            &progress,
            &mut row,
            target,
        )?;
        progress = progress.behind(&command, cluster);
        input.pass(command.length(cluster));
    }
    flush(header, &mut row, target)?;
    end(&input, &progress)?;
    Ok(progress.room == 1)
}

/// Gives an empty file the device's length.
fn lay_out<F: HostFile>(header: &CloneHeader, target: &mut F) -> Result<(), CloneFault>
    requires { (F.seen target.old).size ≡ 0 }
    ensures size { OnOk result ((F.seen target.new).size ≡ header.now.device) }
    ensures sizes { ((F.seen target.new).size ≡ 0) ⊎ ((F.seen target.new).size ≡ header.now.device) }
    ensures makes { IsTrue (F.seen target.old).is_told
        → Makes (laid_out header.now []) [] result (F.seen target.new).content }
    ensures same { IsSameDevice (F.seen target.old) (F.seen target.new) }
    ensures fails { IfErr result IsWriteFault }
    ensures writes { OnlyWrites F.Image clone_origin target.old target.new result }
{
    target.set_len(header.device)?;
    Ok(())
}

/// Restores a clone image to an empty file. Its header was read from the source before.
///
/// The file gets the device's length, the clusters that the image has are written in rows, and the gaps stay zeros.
/// What of the tail passes the device's end is cut off. Where the commands end before the tail, the backup boot sector
/// is made anew, if the file begins with the boot sector of the header's volume. Of an image that is wrong, the
/// commands before that place stand. After a fault nothing stands, or a front of the commands, or the whole.
///
/// It reads the source once, through a buffer of half a mebibyte; a row has as much.
pub fn restore_to<I: Source, F: HostFile>(
    alloc: Global,
    header: &CloneHeader,
    source: &mut I,
    target: &mut F,
) -> Result<(), CloneFault>
    requires header { IsHeader header.now }
    requires empty { (F.seen target.old).size ≡ 0 }
    ensures gives { IsTrue (I.seen source.old).is_told → Gives clone_origin (λ done. done)
        (emptied (clone_commands header.now (to_come (I.seen source.old)))) result }
    ensures end { OnOk result (IsTrue (I.seen source.old).is_told → to_come (I.seen source.new) ≡ []) }
    ensures restored { IsTrue (I.seen source.old).is_told → IsTrue (F.seen target.old).is_told
        → IsRestored header.now (to_come (I.seen source.old)) result (F.seen target.new).content }
    ensures refuses { IfErr result IsRestoreFault }
    ensures size { OnOk result ((F.seen target.new).size ≡ header.now.device) }
    ensures sizes { ((F.seen target.new).size ≡ 0) ⊎ ((F.seen target.new).size ≡ header.now.device) }
    ensures kept { HasGiven (I.seen source.old) (I.seen source.new) }
    ensures same { IsSameDevice (F.seen target.old) (F.seen target.new) }
    ensures restores { Restores I.Source F.Image source.old source.new target.old target.new result }
{
    lay_out(header, target)?;
    if write_commands(alloc, header, source, target)? {
        back_up(header, target)
    } else {
        Ok(())
    }
}

/// Restores a clone image to an empty file, as `restore_to` does, or only reads it to its end, as `read_commands` does.
pub fn restore<I: Source, F: HostFile>(
    alloc: Global,
    header: &CloneHeader,
    source: &mut I,
    target: Option<&mut F>,
) -> Result<(), CloneFault>
    requires header { IsHeader header.now }
    requires empty { IfSome target (λ file. (F.seen file.now).size ≡ 0) }
    ensures gives { IsTrue (I.seen source.old).is_told → Gives clone_origin (λ done. done)
        (emptied (clone_commands header.now (to_come (I.seen source.old)))) result }
    ensures end { OnOk result (IsTrue (I.seen source.old).is_told → to_come (I.seen source.new) ≡ []) }
    ensures restored { IfSome target.entry (λ before. OnTarget target.exit (λ after.
        IsTrue (I.seen source.old).is_told → IsTrue (F.seen before.now).is_told
        → IsRestored header.now (to_come (I.seen source.old)) result (F.seen after.0.now).content)) }
    ensures size { OnOk result (OnTarget target.exit (λ after. (F.seen after.0.now).size ≡ header.now.device)) }
    ensures sizes { OnTarget target.exit (λ after.
        ((F.seen after.0.now).size ≡ 0) ⊎ ((F.seen after.0.now).size ≡ header.now.device)) }
    ensures same { IfSome target.entry (λ before. OnTarget target.exit (λ after.
        IsSameDevice (F.seen before.now) (F.seen after.0.now))) }
    ensures restores { IfSome target.entry (λ before. OnTarget target.exit (λ after.
        Restores I.Source F.Image source.old source.new before.now after.0.now result)) }
    ensures refuses { IfErr result IsRestoreFault }
    ensures only_reads { target.entry ≡ None → IfErr result IsReadOnlyFault }
    ensures takes { target.entry ≡ None → OnlyTakes I.Source clone_origin source.old source.new result }
    ensures kept { HasGiven (I.seen source.old) (I.seen source.new) }
{
    match target {
        None => read_commands(alloc, header, source),
        Some(file) => restore_to(alloc, header, source, file),
    }
}
