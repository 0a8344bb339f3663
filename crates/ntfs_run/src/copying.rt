//! A volume that is copied raw to a file.
ghost use Rattle.std.specs.Prelude.{◌≡◌, false, IfErr, IsTrue};
ghost use Rattle.ntfs_base.specs.Frames.{IfTold};
ghost use Rattle.ntfs_check.specs.Findings.{Fit};
ghost use Rattle.ntfs_volume.specs.Opened.{HasClusters};
ghost use Rattle.ntfs_run.specs.Clone.{volume_in};
ghost use Rattle.ntfs_run.specs.Filling.{Fills, IsCutOff, IsFilled};

use crate::checked::Accepted;
use crate::status::Status;
use ntfs_base::{HostFile, Image};
use ntfs_clone::copy_clusters;
use std::alloc::Global;

/// Copies a volume raw to an empty file.
pub fn copy_to_file<G: Image, F: HostFile>(
    alloc: Global,
    image: &mut G,
    checked: &Accepted,
    file: &mut F,
) -> Result<(), Status>
    requires held { HasClusters (G.seen image.old).size checked.now.table }
    requires fit { Fit checked.now.table checked.now.findings }
    requires size { (F.seen file.old).size ≡ 0 }
    ensures filled { IfTold G.Image image.old (λ content. IsTrue (F.seen file.old).is_told
        → IsFilled false (volume_in checked.now content) result (F.seen file.new).content) }
    ensures fills { Fills G.Image F.Image image.old image.new file.old file.new result }
    ensures refusal { IfErr result IsCutOff }
{
    let geometry = checked.table.geometry();
    copy_clusters(alloc, image, geometry, checked.findings.owned(), file)?;
    Ok(())
}
