//! Laws of the definitions. Each function does nothing, and its contract is the law.

ghost use Rattle.std.specs.Prelude.{◌≡◌, ◌≤◌, ◌<◌, ◌++◌, ℕ, List, None, Ok};
ghost use Rattle.std.specs.List.{AllByRecursion};
ghost use Rattle.std.specs.List.Sorted.{IsPermutation};
ghost use Rattle.ntfs_base.specs.Bytes.{cluster_at};
ghost use Rattle.ntfs_rules.specs.Accepts.{Accepts, claims_in, fault_of, first_fault};
ghost use Rattle.ntfs_rules.specs.Clusters.{times};
ghost use Rattle.ntfs_rules.specs.Laws.{AreJoined, BeginsBefore, HoldsOwned, IsNoList, IsWhole, data_in, file_extents};
ghost use Rattle.ntfs_rules.specs.VolumeData.{VolumeData, listings, numbers, volume_data};
ghost use Rattle.ntfs_record.specs.FileRecord.{Laid};
ghost use Rattle.ntfs_runs.specs.Cells.{Cells};
ghost use Rattle.ntfs_survey.specs.Laws.{Ascend};
ghost use Rattle.ntfs_survey.specs.Owned.{Claim};
ghost use Rattle.ntfs_volume.specs.Gather.{Extent, extents};
ghost use Rattle.ntfs_volume.specs.Laws.{IsBase};
ghost use Rattle.ntfs_volume.specs.Located.{Located};
ghost use Rattle.ntfs_volume.specs.MftMap.{head_clusters};
ghost use Rattle.ntfs_volume.specs.Opened.{Opened, opened_of};

/// Two images whose volumes are equal as finite data have the same first fault: so one is accepted where the other is.
pub fn equal_volumes_have_one_fault()
    ensures { (image other : List ℕ) (o p : Opened) → opened_of image ≡ Ok o → opened_of other ≡ Ok p
        → volume_data o (cluster_at image o.geometry.cluster) ≡ volume_data p (cluster_at other p.geometry.cluster)
        → first_fault image ≡ first_fault other }
{}

/// An image is accepted exactly where it opens as a volume that breaks no rule.
pub fn accepted_images_are_whole()
    ensures only { (image : List ℕ) → Accepts image → (o : Opened) × IsWhole image o }
    ensures opened { (image : List ℕ) (o : Opened) → Accepts image → opened_of image ≡ Ok o → IsWhole image o }
    ensures each { (image : List ℕ) (o : Opened) → IsWhole image o → Accepts image }
{}

/// On a volume that breaks no rule a cluster is owned once at most, and what is owned lies on the volume. The clusters
/// of $MFT's map are owned, and cluster 0 with the boot sector; the map begins with the clusters from the boot sector's
/// on, in a row, that have room for a record.
pub fn clusters_are_owned_once()
    ensures distinct { (o : Opened) (f : ℕ → List ℕ) (k : ℕ) → fault_of (volume_data o f) ≡ None
        → times k (claims_in (volume_data o f)) ≤ 1 }
    ensures below { (o : Opened) (f : ℕ → List ℕ) → fault_of (volume_data o f) ≡ None
        → AllByRecursion (λ (claim : Claim ℕ). claim.cluster < o.geometry.clusters) (claims_in (volume_data o f)) }
    ensures table { (o : Opened) (f : ℕ → List ℕ) → fault_of (volume_data o f) ≡ None
        → AllByRecursion (λ k. times k (claims_in (volume_data o f)) ≡ 1) o.map.clusters }
    ensures first { (o : Opened) (f : ℕ → List ℕ) → fault_of (volume_data o f) ≡ None
        → times 0 (claims_in (volume_data o f)) ≡ 1 }
    ensures begins { (image : List ℕ) (o : Opened) (f : ℕ → List ℕ) → opened_of image ≡ Ok o
        → fault_of (volume_data o f) ≡ None
        → (rest : List ℕ) × (o.map.clusters ≡ head_clusters o.geometry ++ rest) }
{}

/// What counts of a volume that breaks no rule are its owned clusters: another image that has the same bytes in these,
/// and room for the others, opens as the same volume, and is accepted; as finite data both are one, so that the same
/// records own the same clusters.
pub fn owned_clusters_are_the_volume()
    ensures opened { (image other : List ℕ) (o : Opened) → IsWhole image o → HoldsOwned image other o
        → opened_of other ≡ Ok o }
    ensures data { (image other : List ℕ) (o : Opened) → IsWhole image o → HoldsOwned image other o
        → data_in other o ≡ data_in image o }
    ensures whole { (image other : List ℕ) (o : Opened) → IsWhole image o → HoldsOwned image other o
        → IsWhole other o }
    ensures accepted { (image other : List ℕ) (o : Opened) → IsWhole image o → HoldsOwned image other o
        → Accepts other }
    ensures claims { (image other : List ℕ) (o : Opened) → IsWhole image o → HoldsOwned image other o
        → claims_in (data_in other o) ≡ claims_in (data_in image o) }
{}

/// On a volume that breaks no rule an attribute list tells what the base references tell. For a base record, and a type
/// and name that isn't its list's, the extents that are gathered are all attributes of that type and name in that
/// record and in the records in use that have it as their base, and nothing else, in the order of their lowest VCN.
/// They are one value, or they follow one another from VCN 0 on; of names ($FILE_NAME, type 0x30) there may be more
/// values.
pub fn lists_tell_what_base_references_tell()
    ensures all { (v : VolumeData) (r kind : ℕ) (name : List ℕ) → fault_of v ≡ None → IsBase (numbers v) r
        → IsNoList (numbers v) r kind name
        → (found : List (Extent (Located (Laid (Cells ℕ))))) × (extents (listings v) (numbers v) r kind name ≡ Ok found)
        × IsPermutation found (file_extents r kind name (numbers v)) }
    ensures joined { (v : VolumeData) (r kind : ℕ) (name : List ℕ) (found : List (Extent (Located (Laid (Cells ℕ)))))
        → fault_of v ≡ None → IsBase (numbers v) r → IsNoList (numbers v) r kind name
        → extents (listings v) (numbers v) r kind name ≡ Ok found → AreJoined kind found }
    ensures ordered { (o : Opened) (f : ℕ → List ℕ) (r kind : ℕ) (name : List ℕ)
        (found : List (Extent (Located (Laid (Cells ℕ))))) → fault_of (volume_data o f) ≡ None
        → IsBase (numbers (volume_data o f)) r → IsNoList (numbers (volume_data o f)) r kind name
        → extents (listings (volume_data o f)) (numbers (volume_data o f)) r kind name ≡ Ok found
        → Ascend BeginsBefore found }
{}
