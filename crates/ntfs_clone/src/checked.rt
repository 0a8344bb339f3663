//! A volume that was checked: its clone image, and its raw copy.

ghost use Rattle.std.specs.Prelude.{◌≡◌, ◌⊎◌, IfErr, IsTrue, OnOk, Ok};
ghost use Rattle.ntfs_base.specs.Frames.{Copies, IfTold, IsSameDevice, Puts};
ghost use Rattle.ntfs_bitmap.specs.ClusterSet.{bound_of};
ghost use Rattle.ntfs_check.specs.Checked.{CheckStands};
ghost use Rattle.ntfs_clone.specs.CloneOf.{clone_of, device_of, volume_of};
ghost use Rattle.ntfs_clone.specs.Copying.{CopiesTo, IsCopied};
ghost use Rattle.ntfs_clone.specs.Fault.{IsSaveFault, clone_origin};
ghost use Rattle.ntfs_clone.specs.Same.{owned_volume};
ghost use Rattle.ntfs_volume.specs.Opened.{HasClusters};

use crate::copying::copy_clusters;
use crate::fault::CloneFault;
use crate::saving::save_clusters;
use ntfs_base::{HostFile, Image, Sink};
use ntfs_bitmap::ClusterSet;
use ntfs_check::Checked;
use ntfs_volume::Volume;
use std::alloc::Global;

/// Puts the clone image of an opened volume of which these clusters are owned.
fn save_volume<G: Image, K: Sink>(
    alloc: Global,
    volume: &mut Volume<'_, G>,
    owned: &ClusterSet,
    sink: &mut K,
) -> Result<(), CloneFault>
    requires held { HasClusters (G.seen volume.old.image.now).size volume.old.table }
    requires bound { bound_of owned.now ≡ volume.old.table.geometry.clusters }
    ensures told { IfTold G.Image volume.old.image.now (λ content. Puts clone_origin
        (Ok (clone_of (volume_of volume.old.table.geometry owned.now content)))
        (K.seen sink.old) result (K.seen sink.new)) }
    ensures fails { IfErr result IsSaveFault }
    ensures same_reference { volume.new.image.ghost_name ≡ volume.old.image.ghost_name }
    ensures kept { volume.new.table ≡ volume.old.table }
    ensures copies { Copies G.Image K.Sink clone_origin volume.old.image.now volume.new.image.now
        sink.old sink.new result }
{
    save_clusters(
        alloc,
        &mut *volume.image,
        volume.table.geometry(),
        owned,
        sink,
    )
}

/// Puts the clone image of a checked volume to a sink, with the clusters that its records own, as `save_clusters` does.
///
/// No refusal says that a rule is broken: nothing is read again by which the image could be judged.
pub fn save<G: Image, K: Sink>(
    alloc: Global,
    checked: &mut Checked<'_, G>,
    sink: &mut K,
) -> Result<(), CloneFault>
    requires stands { CheckStands G.Image checked.old }
    ensures told { IfTold G.Image checked.old.volume.image.now (λ content. Puts clone_origin
        (Ok (clone_of (owned_volume content checked.old.volume.table)))
        (K.seen sink.old) result (K.seen sink.new)) }
    ensures fails { IfErr result IsSaveFault }
    ensures same_reference { checked.new.volume.image.ghost_name ≡ checked.old.volume.image.ghost_name }
    ensures kept { checked.new.volume.table ≡ checked.old.volume.table }
    ensures found { checked.new.findings ≡ checked.old.findings }
    ensures stands { CheckStands G.Image checked.new }
    ensures copies { Copies G.Image K.Sink clone_origin checked.old.volume.image.now checked.new.volume.image.now
        sink.old sink.new result }
{
    save_volume(alloc, &mut checked.volume, checked.findings.owned(), sink)
}

/// Copies an opened volume of which these clusters are owned to an empty file.
fn copy_volume<G: Image, F: HostFile>(
    alloc: Global,
    volume: &mut Volume<'_, G>,
    owned: &ClusterSet,
    target: &mut F,
) -> Result<(), CloneFault>
    requires held { HasClusters (G.seen volume.old.image.now).size volume.old.table }
    requires bound { bound_of owned.now ≡ volume.old.table.geometry.clusters }
    requires empty { (F.seen target.old).size ≡ 0 }
    ensures copied { IfTold G.Image volume.old.image.now (λ content. IsTrue (F.seen target.old).is_told
        → IsCopied (volume_of volume.old.table.geometry owned.now content) result (F.seen target.new).content) }
    ensures size { OnOk result ((F.seen target.new).size ≡ device_of volume.old.table.geometry) }
    ensures sizes { ((F.seen target.new).size ≡ 0)
        ⊎ ((F.seen target.new).size ≡ device_of volume.old.table.geometry) }
    ensures same { IsSameDevice (F.seen target.old) (F.seen target.new) }
    ensures fails { IfErr result IsSaveFault }
    ensures same_reference { volume.new.image.ghost_name ≡ volume.old.image.ghost_name }
    ensures kept { volume.new.table ≡ volume.old.table }
    ensures copies { CopiesTo G.Image F.Image volume.old.image.now volume.new.image.now
        target.old target.new result }
{
    copy_clusters(
        alloc,
        &mut *volume.image,
        volume.table.geometry(),
        owned,
        target,
    )
}

/// Copies a checked volume to an empty file, with the clusters that its records own, as `copy_clusters` does: the file
/// has then what the clone image of the volume restores.
///
/// No refusal says that a rule is broken: nothing is read again by which the image could be judged.
pub fn copy_raw<G: Image, F: HostFile>(
    alloc: Global,
    checked: &mut Checked<'_, G>,
    target: &mut F,
) -> Result<(), CloneFault>
    requires stands { CheckStands G.Image checked.old }
    requires empty { (F.seen target.old).size ≡ 0 }
    ensures copied { IfTold G.Image checked.old.volume.image.now (λ content. IsTrue (F.seen target.old).is_told
        → IsCopied (owned_volume content checked.old.volume.table) result (F.seen target.new).content) }
    ensures size { OnOk result ((F.seen target.new).size ≡ device_of checked.old.volume.table.geometry) }
    ensures sizes { ((F.seen target.new).size ≡ 0)
        ⊎ ((F.seen target.new).size ≡ device_of checked.old.volume.table.geometry) }
    ensures same { IsSameDevice (F.seen target.old) (F.seen target.new) }
    ensures fails { IfErr result IsSaveFault }
    ensures same_reference { checked.new.volume.image.ghost_name ≡ checked.old.volume.image.ghost_name }
    ensures kept { checked.new.volume.table ≡ checked.old.volume.table }
    ensures found { checked.new.findings ≡ checked.old.findings }
    ensures stands { CheckStands G.Image checked.new }
    ensures copies { CopiesTo G.Image F.Image checked.old.volume.image.now checked.new.volume.image.now
        target.old target.new result }
{
    copy_volume(alloc, &mut checked.volume, checked.findings.owned(), target)
}
