//! Making a volume.

ghost use Rattle.std.specs.Prelude.{◌≡◌, ◌≤◌, ◌+◌, ◌*◌, map, replicate, OnOk, OnErr, IsTrue, [], ◌∷◌};
ghost use Rattle.ntfs_base.specs.Frames.{OnlyWrites};
ghost use Rattle.ntfs_base.specs.Writes.{Wrote};
ghost use Rattle.ntfs_make.specs.Shape.{IsShape, shape_of};
ghost use Rattle.ntfs_make.specs.Areas.{areas_of};
ghost use Rattle.ntfs_make.specs.Volume as spec;
ghost use Rattle.ntfs_make.specs.Left.{IsZeroOrMade};

use crate::boot::boot_sector;
use crate::fault::MakeFault;
use crate::layout::Layout;
use crate::shape::{Shape, sectors};
use crate::stream::{piece, stream_part};
use crate::table::Area;
use ntfs_base::Image;
use std::alloc::Global;

// Writes what stands in an area.
#[tactic(auto, unfolding(crate::specs::Streams::area_bytes))]
fn write_area<G: Image>(
    alloc: Global,
    image: &mut G,
    layout: &Layout,
    area: &Area,
) -> Result<(), MakeFault>
    requires lies { spec.LiesInVolume layout.now area.now }
    requires size { (G.seen image.old).size ≡ (layout.now.clusters + 1) * layout.now.cluster }
    ensures wrote { Wrote (spec.area_write layout.now area.now ∷ []) (G.seen image.old) result (G.seen image.new) }
    ensures writes { OnlyWrites G.Image spec.make_origin image.old image.new result }
{
    let cluster = layout.shape().cluster;
    let from = area.first_vcn * cluster;
    let count = area.length * cluster;
    let part = stream_part(alloc, layout, area.content, from, count)?;
    let bytes = piece(&part.bytes, from - part.place, count);
    image
        .write_at(area.start * cluster, bytes)
        .map_err(|_| MakeFault::WriteFault)
}

// Writes the copy of the boot sector.
fn write_copy<G: Image>(alloc: Global, image: &mut G, layout: &Layout) -> Result<(), MakeFault>
    requires size { (G.seen image.old).size ≡ (layout.now.clusters + 1) * layout.now.cluster }
    ensures wrote { Wrote (spec.copy_write layout.now ∷ []) (G.seen image.old) result (G.seen image.new) }
    ensures writes { OnlyWrites G.Image spec.make_origin image.old image.new result }
{
    let boot = boot_sector(alloc, layout)?;
    image
        .write_at(sectors(&layout.shape()) * 512, &boot)
        .map_err(|_| MakeFault::WriteFault)
}

// Writes what stands in all areas.
fn write_areas<G: Image>(alloc: Global, image: &mut G, layout: &Layout) -> Result<(), MakeFault>
    requires { (G.seen image.old).size ≡ (layout.now.clusters + 1) * layout.now.cluster }
    ensures wrote { Wrote (map (spec.area_write layout.now) (areas_of layout.now)) (G.seen image.old) result
        (G.seen image.new) }
    ensures writes { OnlyWrites G.Image spec.make_origin image.old image.new result }
{
    let areas = layout.areas();
    'areas: for area in areas {
        write_area(alloc, image, layout, area)?;
    }
    Ok(())
}

/// Makes a volume of so many clusters of so many bytes each, as the seed tells. It reads nothing, and writes only
/// where the volume has bytes that aren't zero, so the image has to be zeros before.
pub fn make<G: Image>(
    alloc: Global,
    image: &mut G,
    seed: u64,
    clusters: u32,
    cluster: u32,
) -> Result<(), MakeFault>
    requires range { IsShape (shape_of seed clusters cluster) }
    requires size { (G.seen image.old).size ≡ (clusters + 1) * cluster }
    requires zeros { IsTrue (G.seen image.old).is_told
        → (G.seen image.old).content ≡ replicate ((clusters + 1) * cluster) 0 }
    // All writes are made, or, after a fault, those of a front; all but the content stays.
    ensures wrote { Wrote (spec.volume_writes seed clusters cluster) (G.seen image.old) result (G.seen image.new) }
    // The count of write faults rose where a write failed, and none fell.
    ensures writes { OnlyWrites G.Image spec.make_origin image.old image.new result }
    ensures made { OnOk result (IsTrue (G.seen image.old).is_told
        → (G.seen image.new).content ≡ spec.volume_bytes_of seed clusters cluster) }
    // After a fault each byte is zero or that of the volume.
    ensures left { OnErr result (IsTrue (G.seen image.old).is_told
        → IsZeroOrMade seed clusters cluster (G.seen image.new).content) }
{
    let shape = Shape {
        seed,
        clusters: u64::from(clusters),
        cluster: u64::from(cluster),
    };
    let layout = Layout::new(alloc, shape)?;
    write_areas(alloc, image, &layout)?;
    write_copy(alloc, image, &layout)
}
