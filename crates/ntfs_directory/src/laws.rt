//! Laws of directories: the function does nothing, and its contract holds of every volume.

ghost use Rattle.std.specs.Prelude.{◌≡◌, ℕ, List, Ok, Err};
ghost use Rattle.ntfs_boot.specs.declared.geometry.Geometry.{Geometry};
ghost use Rattle.ntfs_directory.specs.Directory.{DirectoryWalk, begun_walk, directory_walk, only_refused};
ghost use Rattle.ntfs_volume.specs.MftMap.{Map};
ghost use Rattle.ntfs_volume.specs.declared.fault.VolumeFault.{VolumeFault};

/// The walk of a directory is what it begins with; or it can't begin, and is nothing but that refusal.
pub fn a_walk_begins_or_is_refused()
    ensures begins { (g : Geometry) (map : Map) (image : List ℕ) (d : ℕ) (walk : DirectoryWalk)
        → begun_walk g map image d ≡ Ok walk → directory_walk g map image d ≡ walk }
    ensures refused { (g : Geometry) (map : Map) (image : List ℕ) (d : ℕ) (fault : VolumeFault)
        → begun_walk g map image d ≡ Err fault → directory_walk g map image d ≡ only_refused fault }
{}
