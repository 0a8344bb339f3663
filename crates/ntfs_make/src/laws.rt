//! Laws of the definitions, each the contract of a function that does nothing.

ghost use Rattle.std.specs.Prelude.{◌≡◌, ◌<◌, ◌^◌, ◌++◌, ℕ, List, Some, slice_get, true};
ghost use Rattle.ntfs_make.specs.NameOrder.{AllUnits, are_in_order, first_or, volume_table};
ghost use Rattle.ntfs_make.specs.RootNames.{comes_before, is_before, root_names};
ghost use Rattle.ntfs_upcase.specs.Collation.{collate};
ghost use Rattle.ntfs_upcase.specs.Names.{unit_bytes};
ghost use Rattle.ntfs_make.specs.Shape.{IsShape, shape_of};
ghost use Rattle.ntfs_make.specs.Areas.{area_at};
ghost use Rattle.ntfs_make.specs.Laws.{HoldsVcns, WholeStream, whole_streams, IsReadBack, HasRecords};
ghost use Rattle.ntfs_base.specs.Writes.{AreApart};
ghost use Rattle.ntfs_make.specs.Volume.{volume_writes};
ghost use Rattle.ntfs_make.specs.declared.shape.Shape.{Shape};
ghost use Rattle.ntfs_make.specs.declared.table.Extent.{Extent};
ghost use Rattle.ntfs_make.specs.declared.table.ListEntry.{ListEntry};
ghost use Rattle.ntfs_make.specs.Attributes.{list_entry_bytes, nonresident_bytes, resident_bytes};
ghost use Rattle.ntfs_make.specs.Boot.{boot_sector};
ghost use Rattle.ntfs_make.specs.Index.{clusters_per_block, entry_bytes, flag_of, root_bytes};
ghost use Rattle.ntfs_make.specs.ReadBack.{FitsBoot, FitsEntry, FitsExtent, FitsHeader, FitsListEntry, FitsResident, FitsRoot, IsBootOf, IsEntryOf, IsExtentOf, IsHeaderOf, IsListEntryOf, IsResidentOf, IsRootOf};
ghost use Rattle.ntfs_make.specs.Records.{header_bytes};
ghost use Rattle.ntfs_make.specs.Table.{NameValue, RootValue, RowValue};

/// No two areas of a volume share a byte, nor does one with the copy of the boot sector, so each byte is that of the
/// one that has it.
pub fn areas_are_apart()
    ensures { (seed clusters cluster : ℕ) → IsShape (shape_of seed clusters cluster)
        → AreApart (volume_writes seed clusters cluster) }
{}

/// The clusters of each area have the bytes of its stream at its VCNs.
pub fn areas_hold_their_vcns()
    ensures { (seed clusters cluster number : ℕ) → IsShape (shape_of seed clusters cluster) → number < 29
        → HoldsVcns (shape_of seed clusters cluster) (area_at (shape_of seed clusters cluster) number) }
{}

/// A stream of which each VCN has a cluster is read back whole through the clusters of its areas, with zeros behind it.
pub fn streams_are_read_back()
    ensures { (seed clusters cluster i : ℕ) (one : WholeStream) → IsShape (shape_of seed clusters cluster)
        → slice_get whole_streams i ≡ Some one → IsReadBack (shape_of seed clusters cluster) one }
{}

/// Record r of the table stands at r times 1,024 bytes in the stream that the clusters of both areas of $MFT have, in
/// this order.
pub fn records_stand_at_their_numbers()
    ensures { (seed clusters cluster : ℕ) → IsShape (shape_of seed clusters cluster)
        → HasRecords (shape_of seed clusters cluster) }
{}

/// In the generator's order one name comes before another where the collation by the volume's own $UpCase says so and,
/// where that doesn't tell them apart, where its units come first.
pub fn names_are_collated()
    ensures { (a b : List ℕ) → AllUnits a → AllUnits b
        → is_before a b ≡ first_or (collate volume_table (unit_bytes a) (unit_bytes b)) (comes_before a b) }
{}

/// The names of the root's index stand in that order.
pub fn root_names_are_in_order()
    ensures { are_in_order root_names ≡ true }
{}

/// What the readers of records, lists, indexes and of the boot sector find in what the generator spells, whatever
/// stands behind: each field's number, at the place that the reader has.
pub fn structures_are_read_back()
    ensures headers { (row : RowValue) (size : ℕ) (rest : List ℕ) → FitsHeader row size
        → IsHeaderOf row size (header_bytes row size ++ rest) }
    ensures residents { (kind : ℕ) (name : List ℕ) (instance : ℕ) (value rest : List ℕ)
        → FitsResident kind name instance value
        → IsResidentOf kind name instance value (resident_bytes kind name instance value ++ rest) }
    ensures extents { (shape : Shape) (kind : ℕ) (name : List ℕ) (instance : ℕ) (extent : Extent) (rest : List ℕ)
        → FitsExtent shape kind name instance extent
        → IsExtentOf shape kind name instance extent (nonresident_bytes shape kind name instance extent ++ rest) }
    ensures listed { (shape : Shape) (entry : ListEntry) (rest : List ℕ) → FitsListEntry shape entry
        → IsListEntryOf shape entry (list_entry_bytes shape entry ++ rest) }
    ensures roots { (shape : Shape) (node : RootValue) (rest : List ℕ) → clusters_per_block shape.cluster < 2 ^ 8
        → flag_of node < 2 ^ 8 → FitsRoot node → IsRootOf node (root_bytes shape node ++ rest) }
    ensures entries { (number : ℕ) (file : NameValue) (rest : List ℕ) → FitsEntry number file
        → IsEntryOf number file (entry_bytes number file ++ rest) }
    ensures boot { (shape : Shape) (rest : List ℕ) → FitsBoot shape → IsBootOf shape (boot_sector shape ++ rest) }
{}
