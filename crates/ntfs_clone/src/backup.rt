//! The backup boot sector of a restored volume.

ghost use Rattle.std.specs.Prelude.{◌≡◌, ◌≤◌, ◌+◌, ◌*◌, take, true, IfOk, IfErr, IsTrue};
ghost use Rattle.ntfs_base.specs.Bytes.{overwrite};
ghost use Rattle.ntfs_base.specs.Frames.{OnlyReads};
ghost use Rattle.ntfs_boot.specs.Geometry.{IsGood, sector_geometry};
ghost use Rattle.ntfs_clone.specs.Fault.{IsFileFault, clone_origin};
ghost use Rattle.ntfs_clone.specs.Header.{IsHeader};
ghost use Rattle.ntfs_clone.specs.Restored.{backed_up, fits_geometry};
ghost use Rattle.ntfs_clone.specs.Writing.{IsSameFile, Makes, OnlyChanges};
ghost use Rattle.ntfs_clone.specs.declared.fault.CloneFault.TheVariants.{ReadFault};

use crate::fault::CloneFault;
use crate::header::CloneHeader;
use crate::writing::write_within;
use ntfs_base::HostFile;
use ntfs_boot::{BootFault, Geometry, read_geometry};

/// What the first 512 bytes of a file say.
fn read_front<F: HostFile>(target: &mut F) -> Result<Result<Geometry, BootFault>, CloneFault>
    requires { 512 ≤ (F.seen target.old).size }
    ensures exact { IfOk result (λ found. IsTrue (F.seen target.old).is_told
        → found ≡ sector_geometry (take 512 (F.seen target.old).content)) }
    ensures good { IfOk result (λ found. IfOk found IsGood) }
    ensures fails { IfErr result (λ fault. fault ≡ ReadFault) }
    ensures reads { OnlyReads F.Image clone_origin target.old target.new result }
{
    let mut front = [0; 512];
    target.read_at(0, &mut front)?;
    Ok(read_geometry(&front))
}

/// Whether a geometry is that of the volume that the header tells, and has room on the device with its backup.
fn fits_geometry(header: &CloneHeader, geometry: &Geometry) -> bool
    ensures value { result ≡ fits_geometry header.now geometry.now }
    ensures inside { result ≡ true → (geometry.now.sectors + 1) * geometry.now.sector ≤ header.now.device }
{
    let end = (u128::from(geometry.sectors) + 1) * u128::from(geometry.sector);
    geometry.cluster == header.cluster
        && geometry.clusters == header.clusters
        && end <= u128::from(header.device)
}

/// Copies the first sector of a file of this length to the one behind all sectors.
fn copy_sector<F: HostFile>(
    geometry: &Geometry,
    device: u64,
    target: &mut F,
) -> Result<(), CloneFault>
    requires good { IsGood geometry.now }
    requires inside { (geometry.now.sectors + 1) * geometry.now.sector ≤ device }
    requires size { (F.seen target.old).size ≡ device }
    ensures makes { IsTrue (F.seen target.old).is_told → Makes
        (overwrite (geometry.now.sectors * geometry.now.sector) (take geometry.now.sector (F.seen target.old).content)
        (F.seen target.old).content) (F.seen target.old).content result (F.seen target.new).content }
    ensures same { IsSameFile (F.seen target.old) (F.seen target.new) }
    ensures fails { IfErr result IsFileFault }
    ensures changes { OnlyChanges F.Image target.old target.new result }
{
    let mut buffer = [0; 4096];
    let sector = &mut buffer[..geometry.sector as usize];
    target.read_at(0, sector)?;
    let place = geometry.sectors * u64::from(geometry.sector);
    write_within(target, device, place, sector)
}

/// Makes the backup boot sector anew, where the file begins with the boot sector of the header's volume.
#[tactic(auto, unfolding(crate::specs::Restored::backed_up))]
pub(crate) fn back_up<F: HostFile>(header: &CloneHeader, target: &mut F) -> Result<(), CloneFault>
    requires header { IsHeader header.now }
    requires size { (F.seen target.old).size ≡ header.now.device }
    ensures makes { IsTrue (F.seen target.old).is_told → Makes (backed_up header.now (F.seen target.old).content)
        (F.seen target.old).content result (F.seen target.new).content }
    ensures same { IsSameFile (F.seen target.old) (F.seen target.new) }
    ensures fails { IfErr result IsFileFault }
    ensures changes { OnlyChanges F.Image target.old target.new result }
{
    match read_front(target)? {
        Ok(geometry) if fits_geometry(header, &geometry) => copy_sector(
            &geometry,
            header.device,
            target,
        ),
        _ => Ok(()),
    }
}
