//! A volume that is saved as a clone image.

ghost use Rattle.std.specs.Prelude.{◌≡◌, ◌≤◌, ◌<◌, ◌+◌, ◌-◌, ◌*◌, ◌++◌, [], length, Ok, IfErr};
ghost use Rattle.ntfs_base.specs.Frames.{Copies, IfTold, Puts};
ghost use Rattle.ntfs_bitmap.specs.ClusterSet.{Clusters, bound_of};
ghost use Rattle.ntfs_boot.specs.Geometry.{IsOpened};
ghost use Rattle.ntfs_clone.specs.CloneOf.{clone_of, cluster_commands, clone_tail, volume_of};
ghost use Rattle.ntfs_clone.specs.Commands.{cluster, command_bytes, commands_bytes};
ghost use Rattle.ntfs_clone.specs.Fault.{IsSaveFault, clone_origin};
ghost use Rattle.ntfs_clone.specs.Saving.{HasPut, Saves, spelled_gap, spelled_row};

use crate::fault::CloneFault;
use crate::input::zeros;
use crate::stretch::{Stretch, stretch_from};
use crate::volume::{header_of, read_row, read_tail};
use crate::waiting::{ROOM, add_clusters, add_header, make_room, put_rest, save_gap};
use ntfs_base::{Image, Sink};
use ntfs_bitmap::ClusterSet;
use ntfs_boot::Geometry;
use std::alloc::Global;

/// Saves so many owned clusters in a row, which are read at once.
fn save_row<G: Image, K: Sink>(
    image: &mut G,
    geometry: &Geometry,
    from: u64,
    count: usize,
    row: &mut [u8],
    waiting: &mut Vec<u8>,
    sink: &mut K,
) -> Result<(), CloneFault>
    requires opened { IsOpened (G.seen image.old).size geometry.now }
    requires within { from + count ≤ geometry.now.clusters }
    requires room { count * (geometry.now.cluster + 1) ≤ 524288 }
    requires row { length row.old ≡ 524288 }
    ensures saved { IfTold G.Image image.old (λ content. Saves
        (spelled_row content geometry.now.cluster from count)
        waiting.old.items (K.seen sink.old) result waiting.new.items (K.seen sink.new)) }
    ensures kept { HasPut (K.seen sink.old) (K.seen sink.new) }
    ensures copies { Copies G.Image K.Sink clone_origin image.old image.new sink.old sink.new result }
    ensures fails { IfErr result IsSaveFault }
{
    let cluster = geometry.cluster as usize;
    let part = &mut row[..count * cluster];
    read_row(image, geometry, from, count, part)?;
    make_room(waiting, count * (cluster + 1), sink)?;
    add_clusters(waiting, part, cluster, count)?;
    Ok(())
}

/// Saves the owned clusters from one up to an end, by rows of as many as there is room for.
fn save_rows<G: Image, K: Sink>(
    image: &mut G,
    geometry: &Geometry,
    from: u64,
    end: u64,
    row: &mut [u8],
    waiting: &mut Vec<u8>,
    sink: &mut K,
) -> Result<(), CloneFault>
    requires opened { IsOpened (G.seen image.old).size geometry.now }
    requires order { from ≤ end }
    requires within { end ≤ geometry.now.clusters }
    requires row { length row.old ≡ 524288 }
    ensures saved { IfTold G.Image image.old (λ content. Saves
        (spelled_row content geometry.now.cluster from (end - from))
        waiting.old.items (K.seen sink.old) result waiting.new.items (K.seen sink.new)) }
    ensures kept { HasPut (K.seen sink.old) (K.seen sink.new) }
    ensures copies { Copies G.Image K.Sink clone_origin image.old image.new sink.old sink.new result }
    ensures fails { IfErr result IsSaveFault }
{
    let most = ROOM as u64 / (u64::from(geometry.cluster) + 1);
    let mut at = from;
    'rows: while at < end {
        let count = (end - at).min(most);
        save_row(image, geometry, at, count as usize, row, waiting, sink)?;
        at += count;
    }
    Ok(())
}

/// Saves the clusters of a stretch.
fn save_stretch<G: Image, K: Sink>(
    image: &mut G,
    geometry: &Geometry,
    from: u64,
    stretch: &Stretch,
    row: &mut [u8],
    waiting: &mut Vec<u8>,
    sink: &mut K,
) -> Result<(), CloneFault>
    requires opened { IsOpened (G.seen image.old).size geometry.now }
    requires order { from ≤ stretch.now.free }
    requires behind { stretch.now.free ≤ stretch.now.end }
    requires within { stretch.now.end ≤ geometry.now.clusters }
    requires row { length row.old ≡ 524288 }
    ensures saved { IfTold G.Image image.old (λ content. Saves
        (spelled_row content geometry.now.cluster from (stretch.now.free - from)
        ++ spelled_gap (stretch.now.end - stretch.now.free))
        waiting.old.items (K.seen sink.old) result waiting.new.items (K.seen sink.new)) }
    ensures kept { HasPut (K.seen sink.old) (K.seen sink.new) }
    ensures copies { Copies G.Image K.Sink clone_origin image.old image.new sink.old sink.new result }
    ensures fails { IfErr result IsSaveFault }
{
    save_rows(image, geometry, from, stretch.free, row, waiting, sink)?;
    save_gap(waiting, stretch.end - stretch.free, sink)
}

/// Saves all clusters, stretch by stretch.
fn save_stretches<G: Image, K: Sink>(
    image: &mut G,
    geometry: &Geometry,
    owned: &ClusterSet,
    row: &mut [u8],
    waiting: &mut Vec<u8>,
    sink: &mut K,
) -> Result<(), CloneFault>
    requires opened { IsOpened (G.seen image.old).size geometry.now }
    requires bound { bound_of owned.now ≡ geometry.now.clusters }
    requires row { length row.old ≡ 524288 }
    ensures saved { IfTold G.Image image.old (λ content. Saves
        (commands_bytes (cluster_commands (volume_of geometry.now owned.now content) 0 geometry.now.clusters []))
        waiting.old.items (K.seen sink.old) result waiting.new.items (K.seen sink.new)) }
    ensures kept { HasPut (K.seen sink.old) (K.seen sink.new) }
    ensures copies { Copies G.Image K.Sink clone_origin image.old image.new sink.old sink.new result }
    ensures fails { IfErr result IsSaveFault }
{
    let mut from = 0;
    'stretches: while from < geometry.clusters {
        let stretch = stretch_from(owned, geometry.clusters, from);
        save_stretch(image, geometry, from, &stretch, row, waiting, sink)?;
        from = stretch.end;
    }
    Ok(())
}

/// Saves the tail, as one cluster more.
fn save_tail<G: Image, K: Sink>(
    image: &mut G,
    geometry: &Geometry,
    row: &mut [u8],
    waiting: &mut Vec<u8>,
    sink: &mut K,
) -> Result<(), CloneFault>
    requires opened { IsOpened (G.seen image.old).size geometry.now }
    requires row { length row.old ≡ 524288 }
    ensures saved { (owned : Clusters) → IfTold G.Image image.old (λ content. Saves
        (command_bytes (cluster (clone_tail (volume_of geometry.now owned content))))
        waiting.old.items (K.seen sink.old) result waiting.new.items (K.seen sink.new)) }
    ensures kept { HasPut (K.seen sink.old) (K.seen sink.new) }
    ensures copies { Copies G.Image K.Sink clone_origin image.old image.new sink.old sink.new result }
    ensures fails { IfErr result IsSaveFault }
{
    let cluster = geometry.cluster as usize;
    let tail = &mut row[..cluster];
    read_tail(image, geometry, tail)?;
    make_room(waiting, cluster + 1, sink)?;
    add_clusters(waiting, tail, cluster, 1)?;
    Ok(())
}

/// Puts the clone image of a volume of this geometry, of which these clusters are owned, to a sink.
///
/// The image is the header, each owned cluster with its bytes, each longest row of others as one gap, and the tail,
/// which holds the backup boot sector. Owned clusters in a row are read at once, up to half a mebibyte, and what is put
/// goes in pieces of up to half a mebibyte. After a fault or want of memory a prefix of the image was put. It takes a
/// mebibyte, and doesn't flush the sink.
pub fn save_clusters<G: Image, K: Sink>(
    alloc: Global,
    image: &mut G,
    geometry: &Geometry,
    owned: &ClusterSet,
    sink: &mut K,
) -> Result<(), CloneFault>
    requires opened { IsOpened (G.seen image.old).size geometry.now }
    requires bound { bound_of owned.now ≡ geometry.now.clusters }
    ensures told { IfTold G.Image image.old (λ content. Puts clone_origin
        (Ok (clone_of (volume_of geometry.now owned.now content))) (K.seen sink.old) result (K.seen sink.new)) }
    ensures kept { HasPut (K.seen sink.old) (K.seen sink.new) }
    ensures fails { IfErr result IsSaveFault }
    ensures copies { Copies G.Image K.Sink clone_origin image.old image.new sink.old sink.new result }
{
    let mut row = zeros(alloc, ROOM)?;
    let mut waiting = Vec::with_capacity(alloc, ROOM)?;
    add_header(&mut waiting, &header_of(geometry, owned))?;
    save_stretches(image, geometry, owned, &mut row, &mut waiting, sink)?;
    save_tail(image, geometry, &mut row, &mut waiting, sink)?;
    put_rest(&mut waiting, sink)
}
