//! Laws of the definitions. Each function does nothing, or calls another law, and its contract is the law.

ghost use Rattle.std.specs.Prelude.{◌≡◌, ℕ, false, map, Contains, List, Ok, Some, slice_get};
ghost use Rattle.std.specs.List.{AllByRecursion, flat_map};
ghost use Rattle.ntfs_boot.specs.declared.geometry.Geometry.{Geometry};
ghost use Rattle.ntfs_record.specs.FileRecord.{Attribute, Laid};
ghost use Rattle.ntfs_record.specs.Slots.{Slot};
ghost use Rattle.ntfs_runs.specs.Cells.{Cells};
ghost use Rattle.ntfs_survey.specs.Laws.{AreInOrder, Ascend, ComesBefore, HaveNoCells, IsOfCell, IsOwned, claim_at, map_claim};
ghost use Rattle.ntfs_survey.specs.Owned.{owned, owner_claims, owners_of, volume_survey};
ghost use Rattle.ntfs_volume.specs.Gather.{Lists};
ghost use Rattle.ntfs_volume.specs.Laws.{AgreeAt, in_slots};
ghost use Rattle.ntfs_volume.specs.Located.{Located, slot_at, slots_of, with_cells};
ghost use Rattle.ntfs_volume.specs.MftMap.{Map};
ghost use Rattle.ntfs_volume.specs.Opened.{Opened};
ghost use Rattle.ntfs_volume.specs.Streams.{Gathered, gather};

use ntfs_volume::laws::cells_are_of_members;

/// The owners, taken cluster by cluster in their order, are all owned clusters in theirs.
pub fn owners_are_of_owned_clusters()
    ensures { (n : ℕ) (slots : List (Slot (Located (Laid (List ℕ)))))
        → flat_map owner_claims (owners_of slots) ≡ owned (with_cells n slots) }
{}

/// A cluster is owned exactly where a cell of an attribute that isn't resident is that cluster: by the attribute's
/// record, at its place, at the cell's VCN.
pub fn owned_clusters_are_cells<X>()
    ensures only { (slots : List (Slot (Located (Laid (Cells X))))) → AllByRecursion (IsOfCell slots) (owned slots) }
    ensures each { (slots : List (Slot (Located (Laid (Cells X))))) (r : ℕ)
        (a : Attribute (Located (Laid (Cells X)))) (i : ℕ) (k : X) → Contains (slot_at slots r).attributes a
        → a.face.is_resident ≡ false → slice_get a.payload.payload.runs.cells i ≡ Some (Some k)
        → Contains (owned slots) (claim_at r a i k) }
{}

/// With something else in place of each cluster and place, the same clusters are owned, with that in place of them.
pub fn owned_clusters_map<X, Y>()
    ensures { (moved : ℕ → ℕ) (f : X → Y) (slots : List (Slot (Located (Laid (Cells X)))))
        → owned (in_slots moved f slots) ≡ map (map_claim moved f) (owned slots) }
{}

/// Owned clusters are listed by record, by place, by VCN, all ascending: of records whose attributes stand one behind
/// the other, as those of a volume do.
pub fn owned_clusters_ascend<X>()
    ensures ascend { (slots : List (Slot (Located (Laid (Cells X))))) → AreInOrder slots
        → Ascend ComesBefore (owned slots) }
    ensures volumes { (g : Geometry) (map : Map) (f : ℕ → List ℕ)
        → AreInOrder (with_cells g.clusters (slots_of g map f)) }
{}

/// A survey reads the clusters of $MFT's map and nothing else: images that agree on these have the same.
pub fn surveys_agree()
    ensures { (o : Opened) (f h : ℕ → List ℕ) → AgreeAt f h o.map.clusters
        → volume_survey o f ≡ volume_survey o h }
{}

/// Each cluster of a stream that is gathered is owned: of records whose resident attributes have no cells, as those of
/// a volume don't.
pub fn gathered_clusters_are_owned<X>()
    ensures streams { (c : ℕ) (listings : Lists) (slots : List (Slot (Located (Laid (Cells X))))) (r kind : ℕ)
        (name : List ℕ) (gathered : Gathered X) → HaveNoCells slots
        → gather c listings slots r kind name ≡ Ok gathered
        → AllByRecursion (IsOwned slots) gathered.stream.cells }
    ensures volumes { (g : Geometry) (map : Map) (f : ℕ → List ℕ)
        → HaveNoCells (with_cells g.clusters (slots_of g map f)) }
{
    cells_are_of_members::<X>();
}
