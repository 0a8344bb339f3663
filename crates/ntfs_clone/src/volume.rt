//! The volume that is cloned: its device, and the bytes of its clusters and its tail.

ghost use Rattle.std.specs.Prelude.{◌≡◌, ◌≤◌, ◌+◌, ◌-◌, ◌*◌, ◌++◌, List, ℕ, drop, length, replicate, take, IfErr, OnOk};
ghost use Rattle.ntfs_base.specs.Frames.{IfTold, OnlyReads};
ghost use Rattle.ntfs_bitmap.specs.ClusterSet.{Clusters};
ghost use Rattle.ntfs_boot.specs.Geometry.{IsGood, IsOpened};
ghost use Rattle.ntfs_clone.specs.CloneOf.{device_of, saved_header, clone_tail, volume_of};
ghost use Rattle.ntfs_clone.specs.Fault.{clone_origin};
ghost use Rattle.ntfs_clone.specs.declared.fault.CloneFault.TheVariants.{ReadFault};

use crate::fault::CloneFault;
use crate::header::CloneHeader;
use ntfs_base::Image;
use ntfs_bitmap::ClusterSet;
use ntfs_boot::Geometry;

/// The bytes of the device.
pub(crate) fn device_of(geometry: &Geometry) -> u64
    requires { IsGood geometry.now }
    ensures value { result ≡ device_of geometry.now }
    ensures least { geometry.now.clusters * geometry.now.cluster ≤ result }
    ensures most { result ≤ geometry.now.clusters * geometry.now.cluster + geometry.now.cluster }
{
    (geometry.sectors + 1) * u64::from(geometry.sector)
}

/// The header of the clone image.
#[tactic(auto, unfolding(crate::specs::CloneOf::saved_header))]
pub(crate) fn header_of(geometry: &Geometry, owned: &ClusterSet) -> CloneHeader
    requires { IsGood geometry.now }
    ensures { (image : List ℕ) → result ≡ saved_header (volume_of geometry.now owned.now image) }
{
    CloneHeader {
        cluster: geometry.cluster,
        device: device_of(geometry),
        clusters: geometry.clusters,
        in_use: owned.count_below(geometry.clusters),
        offset: 56,
    }
}

/// Reads so many clusters in a row from one on.
pub(crate) fn read_row<G: Image>(
    image: &mut G,
    geometry: &Geometry,
    from: u64,
    count: usize,
    row: &mut [u8],
) -> Result<(), CloneFault>
    requires opened { IsOpened (G.seen image.old).size geometry.now }
    requires within { from + count ≤ geometry.now.clusters }
    requires length { length row.old ≡ count * geometry.now.cluster }
    ensures bytes { OnOk result (IfTold G.Image image.old (λ content.
        row.new ≡ take (count * geometry.now.cluster) (drop (from * geometry.now.cluster) content))) }
    ensures reads { OnlyReads G.Image clone_origin image.old image.new result }
    ensures fails { IfErr result (λ fault. fault ≡ ReadFault) }
{
    image.read_at(from * u64::from(geometry.cluster), row)?;
    Ok(())
}

/// Puts zeros from a place on.
fn clear(bytes: &mut [u8], from: usize)
    requires { from ≤ length bytes.old }
    ensures { bytes.new ≡ take from bytes.old ++ replicate (length bytes.old - from) 0 }
{
    bytes[from..].fill(0);
}

/// Reads what stands behind all clusters up to the end of the device, as one cluster: with zeros where the image ends
/// early.
pub(crate) fn read_tail<G: Image>(
    image: &mut G,
    geometry: &Geometry,
    tail: &mut [u8],
) -> Result<(), CloneFault>
    requires opened { IsOpened (G.seen image.old).size geometry.now }
    requires length { length tail.old ≡ geometry.now.cluster }
    ensures bytes { (owned : Clusters) → OnOk result (IfTold G.Image image.old (λ content.
        tail.new ≡ clone_tail (volume_of geometry.now owned content))) }
    ensures reads { OnlyReads G.Image clone_origin image.old image.new result }
    ensures fails { IfErr result (λ fault. fault ≡ ReadFault) }
{
    let place = geometry.clusters * u64::from(geometry.cluster);
    let end = device_of(geometry).min(image.len());
    let count = (end - place) as usize;
    image.read_at(place, &mut tail[..count])?;
    clear(tail, count);
    Ok(())
}
