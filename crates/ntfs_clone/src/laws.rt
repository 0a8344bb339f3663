//! Laws of the definitions, each the contract of a function that does nothing.

ghost use Rattle.std.specs.Prelude.{◌≡◌, ◌≤◌, ◌+◌, ◌*◌, ◌⊎◌, ℕ, List, Ok, false, length, slice_index};
ghost use Rattle.ntfs_bitmap.specs.ClusterSet.{Clusters};
ghost use Rattle.ntfs_boot.specs.Geometry.{IsOpened};
ghost use Rattle.ntfs_boot.specs.declared.geometry.Geometry.{Geometry};
ghost use Rattle.ntfs_clone.specs.CloneOf.{IsVolume, Volume, clone_of, saved_commands, saved_header, volume_of};
ghost use Rattle.ntfs_clone.specs.Commands.{AreSequenced, Command, clone_commands, commands_bytes, covered, read_clone};
ghost use Rattle.ntfs_clone.specs.Copying.{IsPartCopy, copy_of};
ghost use Rattle.ntfs_clone.specs.Header.{IsHeader};
ghost use Rattle.ntfs_clone.specs.Restored.{restore_of, restored};
ghost use Rattle.ntfs_clone.specs.Same.{IsOneVolume, IsSameVolume, owned_volume};
ghost use Rattle.ntfs_clone.specs.declared.header.CloneHeader.{CloneHeader};
ghost use Rattle.ntfs_rules.specs.Laws.{HoldsOwned, IsWhole};
ghost use Rattle.ntfs_volume.specs.Opened.{Opened};

/// Commands that follow one another as they may and cover all clusters, as they are spelled, are read as they are.
pub fn spelled_commands_are_read()
    ensures { (h : CloneHeader) (commands : List Command) → IsHeader h
        → AreSequenced h.cluster (h.clusters + 1) false commands → h.clusters ≤ covered commands
        → clone_commands h (commands_bytes commands) ≡ Ok commands }
{}

/// A raw copy of a volume is what its clone image restores. What a fault leaves of it has zeros and bytes of the copy
/// at their places, and nothing else.
pub fn copies_are_what_clones_restore()
    ensures whole { (v : Volume) → copy_of v ≡ restored (saved_header v) (saved_commands v) }
    ensures part { (v : Volume) (content : List ℕ) (i : ℕ) → IsPartCopy v content
        → (slice_index content i ≡ 0) ⊎ (slice_index content i ≡ slice_index (copy_of v) i) }
{}

/// What a save of a volume wrote is read: its header, and its commands. The volume of an opened image can be saved.
pub fn saved_clones_are_read()
    ensures opened { (g : Geometry) (owned : Clusters) (image : List ℕ) → IsOpened (length image) g
        → IsVolume (volume_of g owned image) }
    ensures read { (v : Volume) → IsVolume v
        → read_clone (clone_of v) ≡ Ok (record { header = saved_header v; commands = saved_commands v }) }
{}

/// A clone image has at most four commands a cluster, and eight more.
pub fn clones_have_few_commands()
    ensures { (h : CloneHeader) (bytes : List ℕ) (commands : List Command) → clone_commands h bytes ≡ Ok commands
        → length commands ≤ 4 * h.clusters + 8 }
{}

/// What counts of an accepted image are its owned clusters: another image that has the same bytes in these, and room
/// for all clusters, is one volume with it. It opens with the same geometry and is accepted, its records own the same
/// clusters, and it means the same, whatever it has elsewhere.
pub fn owned_clusters_are_all_that_counts()
    ensures { (image other : List ℕ) (o : Opened) → IsWhole image o → HoldsOwned image other o
        → IsOneVolume image other o }
{}

/// A restored clone is the same volume. What the saved clone of an accepted image restores, and a raw copy has, is as
/// long as the device and one volume with the image: it is accepted, with the same geometry, and its records own the
/// same clusters and mean the same. Owned clusters and the tail are the image's byte for byte, and the tail has zeros
/// where the image ends early; the clusters that nobody owns are zeros.
pub fn restored_clones_are_the_same_volume()
    ensures restored { (image : List ℕ) (o : Opened) → IsWhole image o
        → restore_of (clone_of (owned_volume image o)) ≡ Ok (copy_of (owned_volume image o)) }
    ensures same { (image : List ℕ) (o : Opened) → IsWhole image o
        → IsSameVolume image (copy_of (owned_volume image o)) o }
{}
