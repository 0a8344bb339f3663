//! Bytes of a clone image that wait, so that they are put in large pieces.

ghost use Rattle.std.specs.Prelude.{◌≡◌, ◌*◌, ◌++◌, [], length, IfErr, OnOk};
ghost use Rattle.ntfs_base.specs.Sink.{Put};
ghost use Rattle.ntfs_clone.specs.CloneOf.{clone_header_bytes};
ghost use Rattle.ntfs_clone.specs.Fault.{IsWriteFault};
ghost use Rattle.ntfs_clone.specs.Saving.{OnlySaves, Saves, spelled_gap, spelled_row};

use crate::fault::CloneFault;
use crate::header::CloneHeader;
use ntfs_base::Sink;
use std::alloc::AllocError;

/// How many bytes wait at the most, and how many are read at once.
pub(crate) const ROOM: usize = 0x80000;

/// Puts what waits.
pub(crate) fn put_rest<K: Sink>(waiting: &mut Vec<u8>, sink: &mut K) -> Result<(), CloneFault>
    ensures put { Put waiting.old.items (K.seen sink.old) result (K.seen sink.new) }
    ensures nothing { OnOk result (waiting.new.items ≡ []) }
    ensures fails { IfErr result IsWriteFault }
    ensures saves { OnlySaves K.Sink sink.old sink.new result }
{
    sink.put(waiting)?;
    waiting.clear();
    Ok(())
}

/// Puts what waits, where there is no room for so many bytes more.
pub(crate) fn make_room<K: Sink>(
    waiting: &mut Vec<u8>,
    count: usize,
    sink: &mut K,
) -> Result<(), CloneFault>
    ensures saved { Saves [] waiting.old.items (K.seen sink.old) result waiting.new.items (K.seen sink.new) }
    ensures fails { IfErr result IsWriteFault }
    ensures saves { OnlySaves K.Sink sink.old sink.new result }
{
    if count <= ROOM.saturating_sub(waiting.len()) {
        Ok(())
    } else {
        put_rest(waiting, sink)
    }
}

/// Appends the header of a clone image.
#[tactic(auto, unfolding(crate::specs::CloneOf::clone_header_bytes))]
pub(crate) fn add_header(waiting: &mut Vec<u8>, header: &CloneHeader) -> Result<(), AllocError>
    ensures { OnOk result (waiting.new.items ≡ waiting.old.items ++ clone_header_bytes header.now) }
{
    waiting.extend_from_slice(b"\0ntfsclone-image\x0A\0")?;
    waiting.extend_from_slice(&header.cluster.to_le_bytes())?;
    waiting.extend_from_slice(&header.device.to_le_bytes())?;
    waiting.extend_from_slice(&header.clusters.to_le_bytes())?;
    waiting.extend_from_slice(&header.in_use.to_le_bytes())?;
    waiting.extend_from_slice(&header.offset.to_le_bytes())?;
    waiting.extend_from_slice(&[0; 6])?;
    Ok(())
}

/// Appends the commands of so many clusters in a row, whose bytes these are.
pub(crate) fn add_clusters(
    waiting: &mut Vec<u8>,
    row: &[u8],
    cluster: usize,
    count: usize,
) -> Result<(), AllocError>
    requires { length row.now ≡ count * cluster }
    ensures { OnOk result (waiting.new.items ≡ waiting.old.items ++ spelled_row row.now cluster 0 count) }
{
    'clusters: for index in 0..count {
        let from = index * cluster;
        waiting.extend_from_slice(&[1])?;
        waiting.extend_from_slice(&row[from..from + cluster])?;
    }
    Ok(())
}

/// Appends the command of so many clusters that are left out.
fn add_gap(waiting: &mut Vec<u8>, count: u64) -> Result<(), AllocError>
    ensures { OnOk result (waiting.new.items ≡ waiting.old.items ++ spelled_gap count) }
{
    if count > 0 {
        waiting.extend_from_slice(&[0])?;
        waiting.extend_from_slice(&count.to_le_bytes())?;
    }
    Ok(())
}

/// Saves the command of so many clusters that are left out.
pub(crate) fn save_gap<K: Sink>(
    waiting: &mut Vec<u8>,
    count: u64,
    sink: &mut K,
) -> Result<(), CloneFault>
    ensures saved { Saves (spelled_gap count) waiting.old.items (K.seen sink.old) result waiting.new.items
        (K.seen sink.new) }
    ensures fails { IfErr result IsWriteFault }
    ensures saves { OnlySaves K.Sink sink.old sink.new result }
{
    make_room(waiting, 9, sink)?;
    add_gap(waiting, count)?;
    Ok(())
}
