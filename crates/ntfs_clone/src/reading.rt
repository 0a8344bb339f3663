//! The commands of a clone image, read one after the other.

ghost use Rattle.std.specs.Prelude.{◌≡◌, ◌≤◌, ◌<◌, ◌+◌, ◌==◌, ◌&&◌, [], length, nat_le, option_map, IfOk, IfErr, IfSome, OnOk, IsTrue};
ghost use Rattle.ntfs_base.specs.Frames.{Gives, OnlyTakes, must};
ghost use Rattle.ntfs_clone.specs.Commands.{clone_commands, emptied, next_command};
ghost use Rattle.ntfs_clone.specs.Fault.{IsReadOnlyFault, clone_origin};
ghost use Rattle.ntfs_clone.specs.Header.{IsHeader};
ghost use Rattle.ntfs_clone.specs.Reading.{IsAllowed, command_found, found_length, unread, waiting};
ghost use Rattle.ntfs_clone.specs.Taking.{HasGiven, to_come};
ghost use Rattle.ntfs_clone.specs.declared.fault.CloneFault.TheVariants.{BadClone, ReadFault};

use crate::command::{Next, Progress, next_command};
use crate::fault::CloneFault;
use crate::header::CloneHeader;
use crate::input::Input;
use ntfs_base::Source;
use std::alloc::Global;

/// The bytes of a buffer through which a clone image is read.
pub(crate) const BUFFER: usize = 0x80000;

/// The next command, where it is whole and may stand there. Its bytes wait in the buffer afterwards.
pub(crate) fn next<I: Source>(
    input: &mut Input,
    source: &mut I,
    cluster: usize,
    progress: &Progress,
) -> Result<Option<Next>, CloneFault>
    requires least { 8 ≤ cluster }
    requires room { cluster < length input.old.bytes.items }
    ensures size { length input.new.bytes.items ≡ length input.old.bytes.items }
    ensures exact { IfOk result (λ found. IsTrue (I.seen source.old).is_told
        → option_map (command_found cluster (waiting input.new)) found
        ≡ next_command cluster progress.now.room progress.now.after_empty (unread input.new (I.seen source.new))) }
    ensures unread { OnOk result (IsTrue (I.seen source.old).is_told
        → unread input.new (I.seen source.new) ≡ unread input.old (I.seen source.old)) }
    ensures enough { OnOk result (IsTrue (I.seen source.old).is_told
        → length (waiting input.new) < cluster + 1 → to_come (I.seen source.new) ≡ []) }
    ensures allowed { IfOk result (λ found. IfSome found (IsAllowed progress.now.room progress.now.after_empty)) }
    ensures whole { IfOk result (λ found. IfSome found (λ command.
        found_length cluster command ≤ length (waiting input.new))) }
    ensures kept { HasGiven (I.seen source.old) (I.seen source.new) }
    ensures fails { IfErr result (λ fault. fault ≡ ReadFault) }
    ensures takes { OnlyTakes I.Source clone_origin source.old source.new result }
{
    input.want(source, cluster + 1)?;
    Ok(next_command(input.waiting(), cluster, progress))
}

/// Whether the commands are all, where none follows.
pub(crate) fn end(input: &Input, progress: &Progress) -> Result<(), CloneFault>
    ensures { result ≡ must ((length (waiting input.now) == 0) && nat_le progress.now.room 1)
        (BadClone progress.now.place) }
{
    if input.waiting().len() == 0 && progress.room <= 1 {
        Ok(())
    } else {
        Err(CloneFault::BadClone {
            place: progress.place,
        })
    }
}

/// Reads the commands of a clone image to its end and writes nothing. Its header was read from the source before.
///
/// The commands are read through a buffer of half a mebibyte. An image is refused by the place of the first command
/// that is wrong or cut off, or of the first byte behind the end: its commands have to cover all clusters, or one more,
/// the tail, and no two gaps of 0 may follow each other.
pub fn read_commands<I: Source>(
    alloc: Global,
    header: &CloneHeader,
    source: &mut I,
) -> Result<(), CloneFault>
    requires { IsHeader header.now }
    ensures gives { IsTrue (I.seen source.old).is_told → Gives clone_origin (λ done. done)
        (emptied (clone_commands header.now (to_come (I.seen source.old)))) result }
    ensures end { OnOk result (IsTrue (I.seen source.old).is_told → to_come (I.seen source.new) ≡ []) }
    ensures refuses { IfErr result IsReadOnlyFault }
    ensures kept { HasGiven (I.seen source.old) (I.seen source.new) }
    ensures takes { OnlyTakes I.Source clone_origin source.old source.new result }
{
    let cluster = header.cluster as usize;
    let mut input = Input::new(alloc, BUFFER)?;
    let mut progress = Progress::new(header);
    'commands: while let Some(command) = next(&mut input, source, cluster, &progress)? {
        progress = progress.behind(&command, cluster);
        input.pass(command.length(cluster));
    }
    end(&input, &progress)
}
