//! A volume that is copied raw: its owned clusters and its tail, to a file.

ghost use Rattle.std.specs.Prelude.{◌≡◌, ◌≤◌, ◌<◌, ◌+◌, ◌*◌, ◌⊎◌, ℕ, [], true, length, IfErr, IsTrue, OnOk};
ghost use Rattle.ntfs_base.specs.Frames.{IfTold, IsSameDevice, OnlyWrites};
ghost use Rattle.ntfs_bitmap.specs.ClusterSet.{Clusters, bound_of, has};
ghost use Rattle.ntfs_boot.specs.Geometry.{IsGood, IsOpened};
ghost use Rattle.ntfs_clone.specs.CloneOf.{Volume, device_of, volume_of};
ghost use Rattle.ntfs_clone.specs.Copying.{CopiesTo, IsCopied, IsCopiedUpTo, copied_up_to};
ghost use Rattle.ntfs_clone.specs.Fault.{IsSaveFault, IsWriteFault, clone_origin};
ghost use Rattle.ntfs_clone.specs.Writing.{IsSameFile, Makes};

use crate::fault::CloneFault;
use crate::input::zeros;
use crate::stretch::stretch_from;
use crate::volume::{device_of, read_row, read_tail};
use crate::waiting::ROOM;
use crate::writing::write_within;
use ntfs_base::{HostFile, Image};
use ntfs_bitmap::ClusterSet;
use ntfs_boot::Geometry;
use std::alloc::Global;

/// Copies so many clusters in a row, which are read at once and written at once.
fn copy_row<G: Image, F: HostFile>(
    image: &mut G,
    geometry: &Geometry,
    from: u64,
    count: usize,
    row: &mut [u8],
    target: &mut F,
) -> Result<(), CloneFault>
    requires opened { IsOpened (G.seen image.old).size geometry.now }
    requires within { from + count ≤ geometry.now.clusters }
    requires room { count * geometry.now.cluster ≤ 524288 }
    requires row { length row.old ≡ 524288 }
    requires size { (F.seen target.old).size ≡ device_of geometry.now }
    ensures copied { (owned : Clusters) → ((k : ℕ) → from ≤ k → k < from + count → has owned k ≡ true)
        → IfTold G.Image image.old (λ content. IsTrue (F.seen target.old).is_told
        → (F.seen target.old).content ≡ copied_up_to (volume_of geometry.now owned content) from
        → IsCopiedUpTo (volume_of geometry.now owned content) (from + count) result (F.seen target.new).content) }
    ensures same { IsSameFile (F.seen target.old) (F.seen target.new) }
    ensures fails { IfErr result IsSaveFault }
    ensures copies { CopiesTo G.Image F.Image image.old image.new target.old target.new result }
{
    let part = &mut row[..count * geometry.cluster as usize];
    read_row(image, geometry, from, count, part)?;
    write_within(
        target,
        device_of(geometry),
        from * u64::from(geometry.cluster),
        part,
    )
}

/// Copies the owned clusters from one up to an end, by rows of as many as there is room for.
fn copy_rows<G: Image, F: HostFile>(
    image: &mut G,
    geometry: &Geometry,
    from: u64,
    end: u64,
    row: &mut [u8],
    target: &mut F,
) -> Result<(), CloneFault>
    requires opened { IsOpened (G.seen image.old).size geometry.now }
    requires order { from ≤ end }
    requires within { end ≤ geometry.now.clusters }
    requires row { length row.old ≡ 524288 }
    requires size { (F.seen target.old).size ≡ device_of geometry.now }
    ensures copied { (owned : Clusters) → ((k : ℕ) → from ≤ k → k < end → has owned k ≡ true)
        → IfTold G.Image image.old (λ content. IsTrue (F.seen target.old).is_told
        → (F.seen target.old).content ≡ copied_up_to (volume_of geometry.now owned content) from
        → IsCopiedUpTo (volume_of geometry.now owned content) end result (F.seen target.new).content) }
    ensures same { IsSameFile (F.seen target.old) (F.seen target.new) }
    ensures fails { IfErr result IsSaveFault }
    ensures copies { CopiesTo G.Image F.Image image.old image.new target.old target.new result }
{
    let most = ROOM as u64 / u64::from(geometry.cluster);
    let mut at = from;
    'rows: while at < end {
        let count = (end - at).min(most);
        copy_row(image, geometry, at, count as usize, row, target)?;
        at += count;
    }
    Ok(())
}

/// Copies all owned clusters, stretch by stretch. The others stay zeros.
fn copy_stretches<G: Image, F: HostFile>(
    image: &mut G,
    geometry: &Geometry,
    owned: &ClusterSet,
    row: &mut [u8],
    target: &mut F,
) -> Result<(), CloneFault>
    requires opened { IsOpened (G.seen image.old).size geometry.now }
    requires bound { bound_of owned.now ≡ geometry.now.clusters }
    requires row { length row.old ≡ 524288 }
    requires size { (F.seen target.old).size ≡ device_of geometry.now }
    ensures copied { IfTold G.Image image.old (λ content. IsTrue (F.seen target.old).is_told
        → (F.seen target.old).content ≡ copied_up_to (volume_of geometry.now owned.now content) 0
        → IsCopiedUpTo (volume_of geometry.now owned.now content) geometry.now.clusters result
        (F.seen target.new).content) }
    ensures same { IsSameFile (F.seen target.old) (F.seen target.new) }
    ensures fails { IfErr result IsSaveFault }
    ensures copies { CopiesTo G.Image F.Image image.old image.new target.old target.new result }
{
    let mut from = 0;
    'stretches: while from < geometry.clusters {
        let stretch = stretch_from(owned, geometry.clusters, from);
        copy_rows(image, geometry, from, stretch.free, row, target)?;
        from = stretch.end;
    }
    Ok(())
}

/// Copies the tail behind all clusters.
fn copy_tail<G: Image, F: HostFile>(
    image: &mut G,
    geometry: &Geometry,
    row: &mut [u8],
    target: &mut F,
) -> Result<(), CloneFault>
    requires opened { IsOpened (G.seen image.old).size geometry.now }
    requires row { length row.old ≡ 524288 }
    requires size { (F.seen target.old).size ≡ device_of geometry.now }
    ensures copied { (owned : Clusters) → IfTold G.Image image.old (λ content. IsTrue (F.seen target.old).is_told
        → (F.seen target.old).content ≡ copied_up_to (volume_of geometry.now owned content) geometry.now.clusters
        → IsCopied (volume_of geometry.now owned content) result (F.seen target.new).content) }
    ensures same { IsSameFile (F.seen target.old) (F.seen target.new) }
    ensures fails { IfErr result IsSaveFault }
    ensures copies { CopiesTo G.Image F.Image image.old image.new target.old target.new result }
{
    let tail = &mut row[..geometry.cluster as usize];
    read_tail(image, geometry, tail)?;
    write_within(
        target,
        device_of(geometry),
        geometry.clusters * u64::from(geometry.cluster),
        tail,
    )
}

/// Gives an empty file the device's length.
fn lay_out<F: HostFile>(geometry: &Geometry, target: &mut F) -> Result<(), CloneFault>
    requires good { IsGood geometry.now }
    requires empty { (F.seen target.old).size ≡ 0 }
    ensures laid { (v : Volume) → v.device ≡ device_of geometry.now → IsTrue (F.seen target.old).is_told
        → Makes (copied_up_to v 0) [] result (F.seen target.new).content }
    ensures size { OnOk result ((F.seen target.new).size ≡ device_of geometry.now) }
    ensures sizes { ((F.seen target.new).size ≡ 0) ⊎ ((F.seen target.new).size ≡ device_of geometry.now) }
    ensures same { IsSameDevice (F.seen target.old) (F.seen target.new) }
    ensures fails { IfErr result IsWriteFault }
    ensures writes { OnlyWrites F.Image clone_origin target.old target.new result }
{
    target.set_len(device_of(geometry))?;
    Ok(())
}

/// Copies the volume of an image, of this geometry and with these clusters owned, to an empty file.
///
/// The file gets the device's length; the owned clusters and the tail, which holds the backup boot sector, are written
/// at their places, in rows of up to half a mebibyte, and all else stays zeros. It has then what the clone image of the
/// volume restores. After a fault nothing stands, or the clusters before one, or the whole. It takes half a mebibyte.
pub fn copy_clusters<G: Image, F: HostFile>(
    alloc: Global,
    image: &mut G,
    geometry: &Geometry,
    owned: &ClusterSet,
    target: &mut F,
) -> Result<(), CloneFault>
    requires opened { IsOpened (G.seen image.old).size geometry.now }
    requires bound { bound_of owned.now ≡ geometry.now.clusters }
    requires empty { (F.seen target.old).size ≡ 0 }
    ensures copied { IfTold G.Image image.old (λ content. IsTrue (F.seen target.old).is_told
        → IsCopied (volume_of geometry.now owned.now content) result (F.seen target.new).content) }
    ensures size { OnOk result ((F.seen target.new).size ≡ device_of geometry.now) }
    ensures sizes { ((F.seen target.new).size ≡ 0) ⊎ ((F.seen target.new).size ≡ device_of geometry.now) }
    ensures same { IsSameDevice (F.seen target.old) (F.seen target.new) }
    ensures fails { IfErr result IsSaveFault }
    ensures copies { CopiesTo G.Image F.Image image.old image.new target.old target.new result }
{
    let mut row = zeros(alloc, ROOM)?;
    lay_out(geometry, target)?;
    copy_stretches(image, geometry, owned, &mut row, target)?;
    copy_tail(image, geometry, &mut row, target)
}
