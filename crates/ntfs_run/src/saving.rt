//! A volume that is saved as a clone image: to a sink, or to a file.
ghost use Rattle.std.specs.Prelude.{◌≡◌, [], true, Ok, IfErr, IfOk, IsTrue};
ghost use Rattle.ntfs_base.specs.Frames.{Copies, Gives, IfTold, OnlyReads, Puts};
ghost use Rattle.ntfs_check.specs.Findings.{Fit};
ghost use Rattle.ntfs_clone.specs.CloneOf.{clone_of};
ghost use Rattle.ntfs_clone.specs.Saving.{HasPut};
ghost use Rattle.ntfs_volume.specs.Opened.{HasClusters};
ghost use Rattle.ntfs_run.specs.Clone.{VolumeRefuses, volume_in, volume_to_save};
ghost use Rattle.ntfs_run.specs.Filling.{Fills, IsCutOff, IsFilled};
ghost use Rattle.ntfs_run.specs.Outcome.{status_origin};

use crate::checked::{Accepted, check_volume};
use crate::status::Status;
use ntfs_base::{FileSink, HostFile, Image, Sink};
use ntfs_clone::save_clusters;
use std::alloc::Global;

/// Checks the volume of an image that is to be saved or copied. One that is dirty is refused, unless that is forced.
#[tactic(auto, unfolding(crate::specs::Clone::volume_to_save))]
pub fn check_for_save<G: Image>(
    alloc: Global,
    force: bool,
    image: &mut G,
) -> Result<Accepted, Status>
    ensures gives { IfTold G.Image image.old (λ content.
        Gives status_origin (λ checked. volume_in checked content) (volume_to_save force content) result) }
    ensures held { IfOk result (λ checked. HasClusters (G.seen image.old).size checked.table) }
    ensures fit { IfOk result (λ checked. Fit checked.table checked.findings) }
    ensures refusal { IfErr result (VolumeRefuses force) }
    ensures reads { OnlyReads G.Image status_origin image.old image.new result }
{
    let checked = check_volume(alloc, image)?;
    if checked.findings.is_dirty() && !force {
        return Err(Status::Dirty);
    }
    Ok(checked)
}

/// Puts the clone image of a volume to a sink, which isn't flushed.
pub fn save_to<G: Image, K: Sink>(
    alloc: Global,
    image: &mut G,
    checked: &Accepted,
    sink: &mut K,
) -> Result<(), Status>
    requires held { HasClusters (G.seen image.old).size checked.now.table }
    requires fit { Fit checked.now.table checked.now.findings }
    ensures puts { IfTold G.Image image.old (λ content. Puts status_origin
        (Ok (clone_of (volume_in checked.now content))) (K.seen sink.old) result (K.seen sink.new)) }
    ensures kept { HasPut (K.seen sink.old) (K.seen sink.new) }
    ensures copies { Copies G.Image K.Sink status_origin image.old image.new sink.old sink.new result }
    ensures refusal { IfErr result IsCutOff }
{
    let geometry = checked.table.geometry();
    save_clusters(alloc, image, geometry, checked.findings.owned(), sink)?;
    Ok(())
}

/// Saves a volume to an empty file, which is given back with the answer.
pub fn save_to_file<G: Image, F: HostFile>(
    alloc: Global,
    image: &mut G,
    checked: &Accepted,
    file: F,
) -> (F, Result<(), Status>)
    requires held { HasClusters (G.seen image.old).size checked.now.table }
    requires fit { Fit checked.now.table checked.now.findings }
    requires empty { IsTrue (F.seen file).is_told → (F.seen file).content ≡ [] }
    ensures filled { IfTold G.Image image.old (λ content. IsTrue (F.seen file).is_told
        → IsFilled true (volume_in checked.now content) result.1 (F.seen result.0).content) }
    ensures fills { Fills G.Image F.Image image.old image.new file result.0 result.1 }
    ensures refusal { IfErr result.1 IsCutOff }
{
    let mut sink = FileSink::new(file);
    let result = save_to(alloc, image, checked, &mut sink);
    (sink.into_file(), result)
}
