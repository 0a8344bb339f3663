//! A volume: an image and what is kept of it.

ghost use Rattle.std.specs.Borrow.{sem};
ghost use Rattle.std.specs.Prelude.{◌≡◌, length, slice_get, IfOk};
ghost use Rattle.ntfs_base.specs.Bytes.{cluster_at};
ghost use Rattle.ntfs_base.specs.Causes.{HaveNotFallen};
ghost use Rattle.ntfs_base.specs.Frames.{Gives, IfTold, OnlyReads};
ghost use Rattle.ntfs_volume.specs.Fault.{volume_origin};
ghost use Rattle.ntfs_volume.specs.Lending.{LendsImage};
ghost use Rattle.ntfs_volume.specs.Opened.{HasClusters, opened_of};
ghost use Rattle.ntfs_volume.specs.Records.{read_of, record_count};

use crate::fault::VolumeFault;
use crate::mft_map::read_table;
use crate::table::Table;
use ntfs_base::Image;
use ntfs_boot::Geometry;
use std::alloc::Global;

/// An opened volume: an image, and the geometry and map that were read when it was opened.
#[derive(Drop)]
pub struct Volume<'a, G: Image> {
    pub image: &'a mut G,
    pub table: Table,
}

/// Opens the volume of an image, by its geometry and $MFT's map.
///
/// Of the image after a refusal this contract says nothing: `read_table`, which does the reading, does.
pub fn open_volume<'a, G: Image>(
    alloc: Global,
    image: &'a mut G,
) -> Result<Volume<'a, G>, VolumeFault>
    ensures gives { IfTold G.Image image.old (λ content.
        Gives volume_origin (λ volume. volume.table) (opened_of content) result) }
    ensures same_reference { IfOk result (λ volume. volume.image.ghost_name ≡ image.entry.ghost_name) }
    ensures seen { IfOk result (λ volume. G.seen volume.image.now ≡ G.seen image.old) }
    ensures counts { IfOk result (λ volume. HaveNotFallen (G.faults image.old) (G.faults volume.image.now)) }
    ensures held { IfOk result (λ volume. HasClusters (G.seen image.old).size volume.table) }
{
    let table = read_table(alloc, image)?;
    Ok(Volume::new(image, table))
}

impl<'a, G: Image> Volume<'a, G> {
    /// The volume of an image of which this is kept.
    pub fn new(image: &'a mut G, table: Table) -> Volume<'a, G>
        ensures same_reference { result.image.ghost_name ≡ image.entry.ghost_name }
        ensures image { result.image.now ≡ image.old }
        ensures kept { result.table ≡ table }
    {
        Volume { image, table }
    }

    /// The kept geometry.
    pub fn geometry(&self) -> &Geometry
        ensures { result.now ≡ self.now.table.geometry }
    {
        self.table.geometry()
    }

    /// How many records $MFT has room for, by the kept map.
    pub fn record_count(&self) -> u64
        ensures { result ≡ record_count self.now.table.geometry self.now.table.map }
    {
        self.table.record_count()
    }

    /// The image, to be read and written as any other.
    pub fn image(&mut self) -> &mut G
        ensures* lends { sem 𝓛 (LendsImage G.row self.entry result) }
        ensures now { result.now ≡ self.old.image.now }
    {
        &mut *self.image
    }

    /// The cluster of a VCN of $MFT by the kept map, and none past its end.
    pub fn record_cluster(&self, vcn: u64) -> Option<u64>
        ensures { result ≡ slice_get self.now.table.map.clusters vcn }
    {
        self.table.record_cluster(vcn)
    }

    /// Reads the record of a number by the kept map, and unfixes it. After a refusal `into` holds anything.
    pub fn read_record(&mut self, number: u64, into: &mut [u8]) -> Result<(), VolumeFault>
        requires held { HasClusters (G.seen self.old.image.now).size self.old.table }
        requires block { length into.old ≡ self.old.table.geometry.record_size }
        ensures gives { IfTold G.Image self.old.image.now (λ content. Gives volume_origin (λ done. into.new)
            (read_of self.old.table.geometry self.old.table.map
            (cluster_at content self.old.table.geometry.cluster) number) result) }
        ensures same_reference { self.new.image.ghost_name ≡ self.old.image.ghost_name }
        ensures kept { self.new.table ≡ self.old.table }
        ensures reads { OnlyReads G.Image volume_origin self.old.image.now self.new.image.now result }
    {
        self.table.read_record(&mut *self.image, number, into)
    }
}
