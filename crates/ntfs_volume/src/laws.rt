//! Laws of the definitions. Each function does nothing, and its contract is the law.

ghost use Rattle.std.specs.Prelude.{◌≡◌, ◌+◌, ◌*◌, ◌%◌, ◌≤◌, ◌++◌, drop, false, filter, length, map, take, true, ℕ, List, Ok, Err, Some};
ghost use Rattle.std.specs.List.{AllByRecursion, AllZip};
ghost use Rattle.std.specs.Result.{result_map_both};
ghost use Rattle.ntfs_attrlist.specs.Entry.{Listed};
ghost use Rattle.ntfs_base.specs.Bytes.{cluster_at, stream};
ghost use Rattle.ntfs_boot.specs.Geometry.{volume_geometry};
ghost use Rattle.ntfs_boot.specs.declared.geometry.Geometry.{Geometry};
ghost use Rattle.ntfs_record.specs.FileRecord.{Attribute, FileRecord, Head, Laid};
ghost use Rattle.ntfs_record.specs.Parsing.{parse_of};
ghost use Rattle.ntfs_record.specs.Slots.{Slot, map_slots, slot_of, sound_slot, unsound_slot};
ghost use Rattle.ntfs_runs.specs.Cells.{Cells};
ghost use Rattle.ntfs_volume.specs.Gather.{Extent, KeepsIds, Lists, extent_at, extents, id_of, is_of, lists, mapped};
ghost use Rattle.ntfs_volume.specs.Laws.{AgreeAt, HaveLength, IsBase, IsFirstExtent, IsMember, IsNamedBy, IsOf, IsOfMember, SameRecords, clusters_from, gathered_from, attributes_at, head_bytes, in_slots, list_clusters, told_by, with_bytes};
ghost use Rattle.ntfs_volume.specs.Located.{Located, slot_at, slots_of, with_cells};
ghost use Rattle.ntfs_volume.specs.MftMap.{Map, further, head_clusters, live_record, mft_map};
ghost use Rattle.ntfs_volume.specs.Opened.{Opened, opened_of};
ghost use Rattle.ntfs_volume.specs.Records.{raw_record, read_of, unsound};
ghost use Rattle.ntfs_volume.specs.Streams.{Gathered, IsReadable, gather, gather_of, map_gathered};
ghost use Rattle.ntfs_volume.specs.declared.fault.VolumeFault.TheVariants as volume;

/// The clusters that a list tells come behind those that are known first, and the known ones alone decide: images that
/// agree on all clusters that are found give the same.
pub fn maps_grow()
    ensures begins { (g : Geometry) (f : ℕ → List ℕ) (valid : ℕ) (first : FileRecord) (known : List ℕ)
        (entries : List Listed) (all : List ℕ) → further g f valid first known entries ≡ Ok all
        → (rest : List ℕ) × (all ≡ known ++ rest) }
    ensures agree { (g : Geometry) (f h : ℕ → List ℕ) (valid : ℕ) (first : FileRecord) (known : List ℕ)
        (entries : List Listed) (all : List ℕ) → AgreeAt f h all → further g f valid first known entries ≡ Ok all
        → further g h valid first known entries ≡ Ok all }
{}

/// A map is told by the clusters of the record 0 at the boot sector's cluster, of that record's attribute list, and by
/// its own: an image that agrees with another on these has the same map, and with the same geometry opens alike.
pub fn maps_agree()
    ensures maps { (g : Geometry) (f h : ℕ → List ℕ) (map : Map) → mft_map g f ≡ Ok map
        → AgreeAt f h (told_by g f map) → mft_map g h ≡ Ok map }
    ensures opened { (image other : List ℕ) (opened : Opened) → opened_of image ≡ Ok opened
        → volume_geometry other ≡ Ok opened.geometry
        → AgreeAt (cluster_at image opened.geometry.cluster) (cluster_at other opened.geometry.cluster)
        (told_by opened.geometry (cluster_at image opened.geometry.cluster) opened.map)
        → opened_of other ≡ Ok opened }
{}

/// A map begins with the clusters of the first extent that the record 0 at the boot sector's cluster tells. So where
/// that extent begins with the clusters in which this record stands, the map does, and the record 0 that is read by the
/// map is the same one.
pub fn map_begins_at_the_boot_sector()
    ensures first { (g : Geometry) (f : ℕ → List ℕ) (map : Map) → mft_map g f ≡ Ok map
        → (first : FileRecord) × (known rest : List ℕ) × (live_record (head_bytes g f) ≡ Some first)
        × IsFirstExtent first known × (map.clusters ≡ known ++ rest) }
    ensures begins { (g : Geometry) (f : ℕ → List ℕ) (map : Map) (first : FileRecord) (rest : List ℕ)
        → mft_map g f ≡ Ok map → live_record (head_bytes g f) ≡ Some first
        → IsFirstExtent first (head_clusters g ++ rest) → (more : List ℕ) × (map.clusters ≡ head_clusters g ++ more) }
    ensures same { (g : Geometry) (f : ℕ → List ℕ) (map : Map) (rest : List ℕ)
        → map.clusters ≡ head_clusters g ++ rest → 1 ≤ g.cluster → HaveLength f g.cluster (head_clusters g)
        → g.record_size ≤ map.valid → raw_record g map f 0 ≡ Some (head_bytes g f) }
{}

/// A record's bytes are those of the map's clusters from the record's number times its size on, and lie in the
/// initialised part; where each cluster has its whole length, they begin in the cluster at that place.
pub fn a_record_is_its_clusters()
    ensures bytes { (g : Geometry) (map : Map) (f : ℕ → List ℕ) (r : ℕ) (raw : List ℕ)
        → raw_record g map f r ≡ Some raw
        → raw ≡ take g.record_size (drop (r * g.record_size) (stream f map.clusters)) }
    ensures within { (g : Geometry) (map : Map) (f : ℕ → List ℕ) (r : ℕ) (raw : List ℕ)
        → raw_record g map f r ≡ Some raw
        → (r * g.record_size + g.record_size ≤ map.valid)
        × (r * g.record_size + g.record_size ≤ length (stream f map.clusters)) }
    ensures cluster { (g : Geometry) (map : Map) (f : ℕ → List ℕ) (r : ℕ) (raw : List ℕ)
        → 1 ≤ g.cluster → HaveLength f g.cluster map.clusters → raw_record g map f r ≡ Some raw
        → raw ≡ take g.record_size (drop ((r * g.record_size) % g.cluster)
        (stream f (clusters_from g.record_size g.cluster r map.clusters))) }
{}

/// Images that agree on the map's clusters have the same records.
pub fn records_agree()
    ensures { (g : Geometry) (map : Map) (f h : ℕ → List ℕ) (r : ℕ) → AgreeAt f h map.clusters
        → read_of g map f r ≡ read_of g map h r }
{}

/// Images that agree on the map's clusters, and on those of a record's attribute list, have the same streams of that
/// record.
pub fn streams_agree()
    ensures { (g : Geometry) (map : Map) (f h : ℕ → List ℕ) (r kind : ℕ) (name : List ℕ) → AgreeAt f h map.clusters
        → AgreeAt f h (list_clusters g.clusters (attributes_at r (slots_of g map f)))
        → gather_of g map f r kind name ≡ gather_of g map h r kind name }
{}

/// The record of a number is read exactly where its slot is live and sound, and the slot says what it says; it is
/// absent where the slot isn't live, and unsound where the slot is.
pub fn records_are_slots()
    ensures read { (g : Geometry) (map : Map) (f : ℕ → List ℕ) (r : ℕ) (block : List ℕ)
        → read_of g map f r ≡ Ok block
        → (said : FileRecord) × (parse_of block ≡ Ok said) × (slot_of r (raw_record g map f r) ≡ sound_slot said) }
    ensures absent { (g : Geometry) (map : Map) (f : ℕ → List ℕ) (r : ℕ)
        → read_of g map f r ≡ Err volume.Absent → (slot_of r (raw_record g map f r)).is_live ≡ false }
    ensures wrong { (g : Geometry) (map : Map) (f : ℕ → List ℕ) (r : ℕ)
        → read_of g map f r ≡ Err (unsound r) → slot_of r (raw_record g map f r) ≡ unsound_slot }
{}

/// Only of a base record that is in use and sound are there extents. Without an attribute list they are its own
/// attributes of that type and name, in their order; with one they are those that its entries of that type and name
/// name, one for each entry, in the list's order.
pub fn extents_are_of_the_base<P>()
    ensures base { (listings : Lists) (slots : List (Slot P)) (r kind : ℕ) (name : List ℕ) (found : List (Extent P))
        → extents listings slots r kind name ≡ Ok found → IsBase slots r }
    ensures own { (listings : Lists) (slots : List (Slot P)) (r kind : ℕ) (name : List ℕ) → IsBase slots r
        → (listings r).is_there ≡ false
        → extents listings slots r kind name ≡ Ok (map (extent_at r (slot_at slots r).head)
        (filter (λ (a : Attribute P). is_of kind name (id_of a.face)) (slot_at slots r).attributes)) }
    ensures listed { (listings : Lists) (slots : List (Slot P)) (r kind : ℕ) (name : List ℕ)
        (found : List (Extent P)) → (listings r).is_there ≡ true → extents listings slots r kind name ≡ Ok found
        → ((listings r).is_good ≡ true)
        × AllZip (IsNamedBy slots r) (filter (lists kind name) (listings r).entries) found }
    ensures only { (listings : Lists) (slots : List (Slot P)) (r kind : ℕ) (name : List ℕ)
        (found : List (Extent P)) → IsBase slots r → (listings r).is_there ≡ true → (listings r).is_good ≡ true
        → AllZip (IsNamedBy slots r) (filter (lists kind name) (listings r).entries) found
        → extents listings slots r kind name ≡ Ok found }
{}

/// Each extent is an attribute of that type and name, in the record that it names; that record is in use and sound, and
/// is the base record or has it as its base.
pub fn extents_are_members<P>()
    ensures members { (listings : Lists) (slots : List (Slot P)) (r kind : ℕ) (name : List ℕ)
        (found : List (Extent P)) → extents listings slots r kind name ≡ Ok found
        → AllByRecursion (IsMember slots r) found }
    ensures named { (listings : Lists) (slots : List (Slot P)) (r kind : ℕ) (name : List ℕ)
        (found : List (Extent P)) → extents listings slots r kind name ≡ Ok found
        → AllByRecursion (IsOf kind name) found }
{}

/// Each cell of a stream stands in the mapping pairs of an extent: of an attribute of that type and name, in the base
/// record or in one that has it as its base.
pub fn cells_are_of_members<X>()
    ensures { (c : ℕ) (listings : Lists) (slots : List (Slot (Located (Laid (Cells X))))) (r kind : ℕ) (name : List ℕ)
        (gathered : Gathered X) → gather c listings slots r kind name ≡ Ok gathered
        → AllByRecursion (IsOfMember slots r kind name) gathered.stream.cells }
{}

/// Gathering reads the base record, its list, and the records that entries of that type and name name, and nothing
/// else: where these are the same, the same is gathered.
pub fn gathering_reads_its_records_alone<P, X>()
    ensures extents { (listings others : Lists) (slots rest : List (Slot P)) (r kind : ℕ) (name : List ℕ)
        → listings r ≡ others r → SameRecords slots rest (gathered_from r kind name (listings r))
        → extents listings slots r kind name ≡ extents others rest r kind name }
    ensures streams { (c : ℕ) (listings others : Lists) (slots rest : List (Slot (Located (Laid (Cells X)))))
        (r kind : ℕ) (name : List ℕ) → listings r ≡ others r
        → SameRecords slots rest (gathered_from r kind name (listings r))
        → gather c listings slots r kind name ≡ gather c others rest r kind name }
{}

/// Attributes that are changed by a map which keeps what tells them from one another have the same extents, each
/// changed by that map.
pub fn extents_of_mapped_records<P, Q>()
    ensures { (f : ℕ → Head → Attribute P → Attribute Q) (listings : Lists) (slots : List (Slot P)) (r kind : ℕ)
        (name : List ℕ) → KeepsIds f
        → extents listings (map_slots f 0 slots) r kind name
        ≡ result_map_both (map (mapped f)) (λ fault. fault) (extents listings slots r kind name) }
{}

/// Gathering never looks at what stands for a cluster: with something else in place of each cluster and place, the same
/// stream is gathered, with that in place of them. So to gather cluster numbers and then read the clusters' bytes is to
/// read the bytes first and then gather.
pub fn gathering_maps<X, Y>()
    ensures clusters { (moved : ℕ → ℕ) (f : X → Y) (c : ℕ) (listings : Lists)
        (slots : List (Slot (Located (Laid (Cells X))))) (r kind : ℕ) (name : List ℕ)
        → gather c listings (in_slots moved f slots) r kind name
        ≡ result_map_both (map_gathered moved f) (λ fault. fault) (gather c listings slots r kind name) }
    ensures filled { (f : ℕ → List ℕ) (n c : ℕ) (listings : Lists) (slots : List (Slot (Located (Laid (List ℕ)))))
        (r kind : ℕ) (name : List ℕ)
        → gather c listings (with_bytes n f slots) r kind name
        ≡ result_map_both (map_gathered (λ place. place) f) (λ fault. fault)
        (gather c listings (with_cells n slots) r kind name) }
{}

/// A stream that is gathered from a volume's records can be read on it.
pub fn streams_are_readable()
    ensures { (g : Geometry) (map : Map) (f : ℕ → List ℕ) (r kind : ℕ) (name : List ℕ) (gathered : Gathered ℕ)
        → gather_of g map f r kind name ≡ Ok gathered → IsReadable g gathered.stream }
{}
