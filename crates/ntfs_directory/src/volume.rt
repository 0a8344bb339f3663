//! The same calls over an opened volume.

ghost use Rattle.std.specs.Prelude.{◌≡◌, ◌<◌, ◌≤◌, Some, None, Err, IfErr, IfOk, OnOk};
ghost use Rattle.ntfs_base.specs.Frames.{Gives, IfTold, OnlyReads};
ghost use Rattle.ntfs_directory.specs.Directory.{begun_walk};
ghost use Rattle.ntfs_directory.specs.Paths.{IsPathRefusal, path_of, path_origin};
ghost use Rattle.ntfs_directory.specs.Paths as paths;
ghost use Rattle.ntfs_directory.specs.State.{IsNextEntry, IsOn, IsSameDirectory, KeepsEntryKey, answered, left_of};
ghost use Rattle.ntfs_index.specs.State.{IfGiven, IsBegun, entries_most};
ghost use Rattle.ntfs_volume.specs.Fault.{volume_origin};
ghost use Rattle.ntfs_volume.specs.Opened.{HasClusters};
ghost use Rattle.ntfs_volume.specs.declared.fault.VolumeFault.{VolumeFault as Fault};

use crate::directory::{Directory, open_directory};
use crate::path::{directory_at, resolve_path};
use crate::path_fault::PathFault;
use ntfs_base::Image;
use ntfs_index::Entry;
use ntfs_volume::{Volume, VolumeFault};
use std::alloc::Global;

/// Begins the walk of the directory of a number of a volume, as `open_directory` does.
pub fn directory_of<G: Image>(
    alloc: Global,
    volume: &mut Volume<'_, G>,
    number: u64,
) -> Result<Directory, VolumeFault>
    requires held { HasClusters (G.seen volume.old.image.now).size volume.old.table }
    ensures gives { IfTold G.Image volume.old.image.now (λ content.
        Gives volume_origin (left_of volume.old.table.geometry content)
        (begun_walk volume.old.table.geometry volume.old.table.map content number) result) }
    ensures begun { IfOk result (λ found. IsBegun volume.old.table.geometry.block found.walk) }
    ensures bears { IfOk result (λ found. found.number ≡ number) }
    ensures on { IfOk result (IsOn volume.old.table.geometry) }
    ensures same_reference { volume.new.image.ghost_name ≡ volume.old.image.ghost_name }
    ensures kept { volume.new.table ≡ volume.old.table }
    ensures reads { OnlyReads G.Image volume_origin volume.old.image.now volume.new.image.now result }
{
    open_directory(alloc, &mut *volume.image, &volume.table, number)
}

/// The number of the record that a path of a volume names, as `resolve_path` gives it.
pub fn resolve<G: Image>(
    alloc: Global,
    volume: &mut Volume<'_, G>,
    path: &str,
) -> Result<u64, PathFault>
    requires held { HasClusters (G.seen volume.old.image.now).size volume.old.table }
    ensures gives { IfTold G.Image volume.old.image.now (λ content. Gives path_origin (λ number. number)
        (path_of volume.old.table.geometry volume.old.table.map content path.now) result) }
    ensures listed { IfErr result IsPathRefusal }
    ensures same_reference { volume.new.image.ghost_name ≡ volume.old.image.ghost_name }
    ensures kept { volume.new.table ≡ volume.old.table }
    ensures reads { OnlyReads G.Image path_origin volume.old.image.now volume.new.image.now result }
{
    resolve_path(alloc, &mut *volume.image, &volume.table, path)
}

/// The number of the directory that a path of a volume names, as `directory_at` gives it.
pub fn resolve_directory<G: Image>(
    alloc: Global,
    volume: &mut Volume<'_, G>,
    path: &str,
) -> Result<u64, PathFault>
    requires held { HasClusters (G.seen volume.old.image.now).size volume.old.table }
    ensures gives { IfTold G.Image volume.old.image.now (λ content. Gives path_origin (λ number. number)
        (paths.directory_at volume.old.table.geometry volume.old.table.map content path.now) result) }
    ensures listed { IfErr result IsPathRefusal }
    ensures same_reference { volume.new.image.ghost_name ≡ volume.old.image.ghost_name }
    ensures kept { volume.new.table ≡ volume.old.table }
    ensures reads { OnlyReads G.Image path_origin volume.old.image.now volume.new.image.now result }
{
    directory_at(alloc, &mut *volume.image, &volume.table, path)
}

impl Directory {
    /// The next entry of a directory of a volume, as `next` gives it.
    pub fn next_of<G: Image>(
        &mut self,
        volume: &mut Volume<'_, G>,
    ) -> Result<Option<Entry>, VolumeFault>
        requires held { HasClusters (G.seen volume.old.image.now).size volume.old.table }
        requires on { IsOn volume.old.table.geometry self.old }
        ensures told { answered self.old ≡ None → IfTold G.Image volume.old.image.now (λ content. IsNextEntry
            (left_of volume.old.table.geometry content self.old) result
            (left_of volume.old.table.geometry content self.new) self.new.walk.key) }
        ensures reads { answered self.old ≡ None →
            OnlyReads G.Image volume_origin volume.old.image.now volume.new.image.now result }
        ensures again { (fault : Fault) → answered self.old ≡ Some fault → (result ≡ Err fault) × (self.new ≡ self.old)
            × (volume.new.image.now ≡ volume.old.image.now) }
        ensures faulted { IfErr result (λ fault. answered self.new ≡ Some fault) }
        ensures sound { OnOk result (answered self.new ≡ None) }
        ensures key { KeepsEntryKey result self.old.walk.key self.new.walk.key }
        ensures fewer { IfGiven result (entries_most self.new.walk < entries_most self.old.walk) }
        ensures no_more { entries_most self.new.walk ≤ entries_most self.old.walk }
        ensures same { IsSameDirectory self.old self.new }
        ensures same_reference { volume.new.image.ghost_name ≡ volume.old.image.ghost_name }
        ensures kept { volume.new.table ≡ volume.old.table }
    {
        self.next(&mut *volume.image, &volume.table)
    }
}
