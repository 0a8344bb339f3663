ghost use Rattle.std.specs.Prelude.{◌≡◌, ◌≤◌, IfOk, IfErr};
ghost use Rattle.ntfs_base.specs.Frames.{Gives, IfTold, IsJudged, OnlyReads};
ghost use Rattle.ntfs_boot.specs.Geometry.{IsGood, IsOpened, IsRefusal, bytes_of_clusters, geometry_in, image_origin, volume_geometry};

use crate::geometry::{BootFault, Geometry, read_geometry};
use ntfs_base::{Failed, Image};

/// Why an image gives no geometry.
#[derive(Clone, Copy, Debug, PartialEq, Eq)]
pub enum ImageFault {
    /// It isn't an NTFS volume.
    NotNtfs,
    /// A field of the boot sector is wrong, as `BootFault` has it.
    BadGeometry { field: u8, value: u64 },
    /// It has fewer bytes than it needs.
    ImageShort { len: u64, need: u64 },
    /// It couldn't be read.
    ReadFault,
}

impl From<BootFault> for ImageFault {
    ghost use Rattle.std.specs.Prelude.{◌≡◌};
    ghost use Rattle.ntfs_boot.specs.Geometry.{image_fault};

    ghost from_gives = { λ fault image. image ≡ image_fault fault };

    fn from(fault: BootFault) -> ImageFault {
        match fault {
            BootFault::NotNtfs => ImageFault::NotNtfs,
            BootFault::BadGeometry { field, value } => ImageFault::BadGeometry { field, value },
        }
    }
}

impl From<Failed> for ImageFault {
    ghost use Rattle.std.specs.Prelude.{◌≡◌};
    ghost use Rattle.ntfs_boot.specs.declared.volume.ImageFault.TheVariants.{ReadFault};

    ghost from_gives = { λ _ image. image ≡ ReadFault };

    fn from(_: Failed) -> ImageFault {
        ImageFault::ReadFault
    }
}

/// Reads the geometry of an image, which has to have 512 bytes for the boot sector and then all bytes of its clusters.
pub fn read_volume_geometry<G: Image>(image: &mut G) -> Result<Geometry, ImageFault>
    ensures gives { IfTold G.Image image.old (λ content. Gives image_origin (λ g. g) (volume_geometry content) result) }
    ensures opened { IfOk result (IsOpened (G.seen image.old).size) }
    ensures refuses { IfErr result (IsRefusal (G.seen image.old).size) }
    ensures reads { OnlyReads G.Image image_origin image.old image.new result }
{
    let len = image.len();
    if len < 512 {
        return Err(ImageFault::ImageShort { len, need: 512 });
    }
    let mut sector = [0; 512];
    image.read_at(0, &mut sector)?;
    geometry_in(len, &sector)
}

/// The geometry that a boot sector gives, of an image of this length that has all its clusters.
fn geometry_in(len: u64, sector: &[u8; 512]) -> Result<Geometry, ImageFault>
    requires { 512 ≤ len }
    ensures exact { result ≡ geometry_in len sector.now }
    ensures opened { IfOk result (IsOpened len) }
    ensures refuses { IfErr result (IsRefusal len) }
    ensures judged { IsJudged image_origin result }
{
    let geometry = read_geometry(sector)?;
    let need = bytes_of_clusters(&geometry);
    if len < need {
        return Err(ImageFault::ImageShort { len, need });
    }
    Ok(geometry)
}

/// The bytes of all clusters of a good geometry.
fn bytes_of_clusters(geometry: &Geometry) -> u64
    requires { IsGood geometry.now }
    ensures { result ≡ bytes_of_clusters geometry.now }
{
    geometry.clusters * u64::from(geometry.cluster)
}
