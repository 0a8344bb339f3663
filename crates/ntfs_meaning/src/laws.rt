//! Laws of the definitions. Each function does nothing, and its contract is the law.

ghost use Rattle.std.specs.Prelude.{◌≡◌, ◌∷◌, ℕ, false, true, Contains, List, [], None, Ok, Some};
ghost use Rattle.std.specs.List.{AllByRecursion};
ghost use Rattle.ntfs_directory.specs.Directory.{index_name, root_kind};
ghost use Rattle.ntfs_directory.specs.UpCase.{data_kind};
ghost use Rattle.ntfs_meaning.specs.Laws.{AreOther, IsThere, IsValueThere, Name};
ghost use Rattle.ntfs_meaning.specs.Meaning.{Plain, base_role, meaning};
ghost use Rattle.ntfs_rules.specs.Accepts.{claims_in, fault_of};
ghost use Rattle.ntfs_rules.specs.Clusters.{times};
ghost use Rattle.ntfs_rules.specs.Directories.{is_directory, walk_of};
ghost use Rattle.ntfs_rules.specs.FixedRecords.{bad_name, volume_information_kind};
ghost use Rattle.ntfs_rules.specs.VolumeData.{VolumeData, bytes_found, content_in, contents, listings, stream_in, volume_data};
ghost use Rattle.ntfs_runs.specs.Cells.{are_cells};
ghost use Rattle.ntfs_volume.specs.Located.{idle, slot_at};
ghost use Rattle.ntfs_volume.specs.Opened.{Opened};
ghost use Rattle.ntfs_volume.specs.Streams.{Gathered};

/// On a volume that breaks no rule the streams of the records with fixed numbers are there: the unnamed $DATA of $MFT,
/// $MFTMirr, $LogFile, $Bitmap and $Boot, `$Bad` of $BadClus and $VOLUME_INFORMATION of $Volume; and so is the index
/// root of each directory, as a value. A stream has no cluster at or above the number of clusters. Each of its clusters
/// is owned, once; and none stands in another stream too: one of another base record, type or name.
pub fn accepted_streams_are_there()
    ensures fixed { (v : VolumeData) → fault_of v ≡ None
        → AllByRecursion (λ r. IsThere v r data_kind []) (0 ∷ 1 ∷ 2 ∷ 6 ∷ 7 ∷ []) }
    ensures bad { (v : VolumeData) → fault_of v ≡ None → IsThere v 8 data_kind bad_name }
    ensures information { (v : VolumeData) → fault_of v ≡ None → IsThere v 3 volume_information_kind [] }
    ensures directories { (v : VolumeData) (d : ℕ) → fault_of v ≡ None → (slot_at v.slots d).is_live ≡ true
        → is_directory (slot_at v.slots d) ≡ true → IsValueThere v d root_kind index_name }
    ensures below { (o : Opened) (f : ℕ → List ℕ) (r kind : ℕ) (name : List ℕ) (s : Gathered ℕ)
        → stream_in (volume_data o f) r kind name ≡ Ok s → are_cells true o.geometry.clusters s.stream.cells ≡ true }
    ensures owned { (o : Opened) (f : ℕ → List ℕ) (r kind : ℕ) (name : List ℕ) (s : Gathered ℕ) (k : ℕ)
        → fault_of (volume_data o f) ≡ None → stream_in (volume_data o f) r kind name ≡ Ok s
        → Contains s.stream.cells (Some k) → times k (claims_in (volume_data o f)) ≡ 1 }
    ensures apart { (o : Opened) (f : ℕ → List ℕ) (a b : Name) (s t : Gathered ℕ) (k : ℕ)
        → fault_of (volume_data o f) ≡ None → stream_in (volume_data o f) a.number a.kind a.name ≡ Ok s
        → stream_in (volume_data o f) b.number b.kind b.name ≡ Ok t → AreOther a b
        → Contains s.stream.cells (Some k) → Contains t.stream.cells (Some k) → ⊥ }
{}

/// On a volume that breaks no rule a record that isn't in use says nothing, not even that it is torn; and one that is
/// in use says nothing by the flags of its slot, which are always the same.
pub fn records_not_in_use_mean_nothing()
    ensures idle { (o : Opened) (f : ℕ → List ℕ) (n : ℕ) → fault_of (volume_data o f) ≡ None
        → (slot_at (meaning (volume_data o f)) n).is_live ≡ false
        → slot_at (meaning (volume_data o f)) n ≡ idle false }
    ensures live { (o : Opened) (f : ℕ → List ℕ) (n : ℕ) → fault_of (volume_data o f) ≡ None
        → (slot_at (meaning (volume_data o f)) n).is_live ≡ true
        → ((slot_at (meaning (volume_data o f)) n).is_sound ≡ true)
        × ((slot_at (meaning (volume_data o f)) n).is_baad ≡ false) }
{}

/// The meaning tells the streams: volumes of one cluster size with the same meaning have the same stream of each base
/// record, type and name that isn't left out, and so the same bytes; and with one index block size, the same walk of
/// each directory. What is left out are the unnamed $DATA of records 0, 1, 2, 6 and 7, `$Bad` of record 8 and type 0x70
/// of record 3.
pub fn the_meaning_tells_streams()
    ensures streams { (v w : VolumeData) (r kind : ℕ) (name : List ℕ) → v.geometry.cluster ≡ w.geometry.cluster
        → meaning v ≡ meaning w → base_role r kind name ≡ Plain → content_in v r kind name ≡ content_in w r kind name }
    ensures bytes { (v w : VolumeData) (r kind : ℕ) (name : List ℕ) → v.geometry.cluster ≡ w.geometry.cluster
        → meaning v ≡ meaning w → base_role r kind name ≡ Plain
        → bytes_found v.geometry.cluster (content_in v r kind name)
        ≡ bytes_found w.geometry.cluster (content_in w r kind name) }
    ensures walks { (v w : VolumeData) (d : ℕ) → v.geometry.cluster ≡ w.geometry.cluster
        → v.geometry.block ≡ w.geometry.block → meaning v ≡ meaning w
        → walk_of v.geometry (listings v) (contents v) d ≡ walk_of w.geometry (listings w) (contents w) d }
{}
