//! A command of a clone image, and how far the commands have come.

ghost use Rattle.std.specs.Prelude.{◌≡◌, ◌≤◌, ◌<◌, ◌+◌, ◌-◌, ◌∷◌, ℕ, List, length, nat_le, option_map, false, IfSome, Some, None, if◌then◌else◌};
ghost use Rattle.ntfs_base.specs.Bytes.{number_at};
ghost use Rattle.ntfs_clone.specs.Commands.{covered_count, gap, is_empty_gap, kept_if, may_follow, next_command};
ghost use Rattle.ntfs_clone.specs.Header.{IsHeader};
ghost use Rattle.ntfs_clone.specs.Reading.{HasPlace, IsAllowed, commands_left, command_found, found_length};

use crate::header::CloneHeader;
use byteorder::{ByteOrder, LittleEndian};

/// A command that was found at the front of some bytes. The bytes of a cluster stand there behind the first.
#[derive(Clone, Copy)]
pub(crate) enum Next {
    /// So many clusters that the image leaves out.
    Gap { count: u64 },
    /// One cluster.
    Cluster,
}

impl Next {
    /// Its bytes in a clone image.
    pub(crate) fn length(&self, cluster: usize) -> usize
        requires { cluster ≤ 65536 }
        ensures { result ≡ found_length cluster self.now }
    {
        match *self {
            Next::Gap { count: _ } => 9,
            Next::Cluster => 1 + cluster,
        }
    }
}

/// How far the commands have come.
#[derive(Clone, Copy)]
pub(crate) struct Progress {
    /// How many clusters may still be covered, with the tail as one.
    pub(crate) room: u64,
    /// Whether the last command was a gap of 0.
    pub(crate) after_empty: bool,
    /// The place in bytes of the next command.
    pub(crate) place: u64,
}

impl Progress {
    /// Before the first command.
    pub(crate) fn new(header: &CloneHeader) -> Progress
        requires { IsHeader header.now }
        ensures room { result.room ≡ header.now.clusters + 1 }
        ensures after_empty { result.after_empty ≡ false }
        ensures place { result.place ≡ header.now.offset }
        ensures fits { HasPlace result }
    {
        Progress {
            room: header.clusters + 1,
            after_empty: false,
            place: u64::from(header.offset),
        }
    }

    /// Behind a command that may stand there.
    pub(crate) fn behind(&self, command: &Next, cluster: usize) -> Progress
        requires fits { HasPlace self.now }
        requires allowed { IsAllowed self.now.room self.now.after_empty command.now }
        requires cluster { cluster ≤ 65536 }
        ensures room { (bytes : List ℕ)
            → result.room ≡ self.now.room - covered_count (command_found cluster bytes command.now) }
        ensures after_empty { (bytes : List ℕ)
            → result.after_empty ≡ is_empty_gap (command_found cluster bytes command.now) }
        ensures place { result.place ≡ self.now.place + found_length cluster command.now }
        ensures fits { HasPlace result }
        ensures fewer { commands_left result.room result.after_empty
            < commands_left self.now.room self.now.after_empty }
    {
        match *command {
            Next::Gap { count: 0 } => Progress {
                room: self.room,
                after_empty: true,
                place: self.place + 9,
            },
            Next::Gap { count } => Progress {
                room: self.room - count,
                after_empty: false,
                place: self.place + 9,
            },
            Next::Cluster => Progress {
                room: self.room - 1,
                after_empty: false,
                place: self.place + 1 + cluster as u64,
            },
        }
    }
}

#[tactic(auto, unfolding(ntfs_base::specs::Bytes::number_at))]
/// The gap whose number of clusters begins these bytes, where it may stand there.
fn gap_in(rest: &[u8], progress: &Progress) -> Option<Next>
    ensures exact { (c : ℕ) (bytes : List ℕ) → option_map (command_found c bytes) result
        ≡ kept_if (may_follow progress.now.room progress.now.after_empty)
        (if nat_le 8 (length rest.now) then Some (gap (number_at 8 0 rest.now)) else None) }
    ensures allowed { IfSome result (IsAllowed progress.now.room progress.now.after_empty) }
    ensures whole { (c : ℕ) → IfSome result (λ command. found_length c command ≤ 1 + length rest.now) }
{
    if rest.len() < 8 {
        return None;
    }
    let count = LittleEndian::read_u64(rest);
    let repeats = progress.after_empty && count == 0;
    if progress.room > 0 && count <= progress.room && !repeats {
        Some(Next::Gap { count })
    } else {
        None
    }
}

/// The command whose first byte and further bytes these are.
#[tactic(auto, unfolding(crate::specs::Commands::next_command, crate::specs::Commands::command_in))]
fn command_of(kind: u8, rest: &[u8], cluster: usize, progress: &Progress) -> Option<Next>
    ensures exact { option_map (command_found cluster (kind ∷ rest.now)) result
        ≡ next_command cluster progress.now.room progress.now.after_empty (kind ∷ rest.now) }
    ensures allowed { IfSome result (IsAllowed progress.now.room progress.now.after_empty) }
    ensures whole { IfSome result (λ command. found_length cluster command ≤ 1 + length rest.now) }
{
    if kind == 0 {
        gap_in(rest, progress)
    } else if kind == 1 && rest.len() >= cluster && progress.room > 0 {
        Some(Next::Cluster)
    } else {
        None
    }
}

/// The command with which the bytes begin, where it is whole and may stand there.
#[tactic(auto, unfolding(crate::specs::Commands::next_command, crate::specs::Commands::command_in))]
pub(crate) fn next_command(bytes: &[u8], cluster: usize, progress: &Progress) -> Option<Next>
    ensures exact { option_map (command_found cluster bytes.now) result
        ≡ next_command cluster progress.now.room progress.now.after_empty bytes.now }
    ensures allowed { IfSome result (IsAllowed progress.now.room progress.now.after_empty) }
    ensures whole { IfSome result (λ command. found_length cluster command ≤ length bytes.now) }
{
    match bytes.split_first() {
        None => None,
        Some((kind, rest)) => command_of(*kind, rest, cluster, progress),
    }
}
