//! Laws of the definitions, each the contract of a function that does nothing.

ghost use Rattle.std.specs.Prelude.{◌≡◌, ◌==◌, ℕ, false, map, Some, length, slice_get};
ghost use Rattle.ntfs_record.specs.FileRecord.{attributes_of};
ghost use Rattle.ntfs_volume.specs.Located.{located_attributes, located_slot, unlocated};
ghost use Rattle.ntfs_volume.specs.MftMap.{live_record};
ghost use Rattle.ntfs_make.specs.Records.{record_of_row};
ghost use Rattle.ntfs_make.specs.Rows.{rows};
ghost use Rattle.ntfs_make.specs.Shape.{IsShape, shape_of};
ghost use Rattle.ntfs_make.specs.Table.{RowValue};
ghost use Rattle.ntfs_made_records.specs.Made.{HaveMadeCells, made_attributes, made_record, made_slot};

/// Each record that the generator writes is read back with exactly the attributes that its row of the table puts into
/// it, and tells its own number; one without flags isn't in use. The mapping pairs of an extent spell its runs.
pub fn made_records_are_read()
    ensures slots { (seed clusters cluster r : ℕ) (row : RowValue) → IsShape (shape_of seed clusters cluster)
        → slice_get rows r ≡ Some row
        → located_slot r (Some (record_of_row (shape_of seed clusters cluster) row))
        ≡ made_slot (shape_of seed clusters cluster) row }
    ensures recorded { (seed clusters cluster r : ℕ) (row : RowValue) → IsShape (shape_of seed clusters cluster)
        → slice_get rows r ≡ Some row → (row.flags == 0) ≡ false
        → live_record (record_of_row (shape_of seed clusters cluster) row)
        ≡ Some (made_record (shape_of seed clusters cluster) row) }
    ensures attributes { (seed clusters cluster r : ℕ) (row : RowValue) → IsShape (shape_of seed clusters cluster)
        → slice_get rows r ≡ Some row
        → attributes_of (made_record (shape_of seed clusters cluster) row)
        ≡ map unlocated (made_attributes (shape_of seed clusters cluster) 0x38 0 row.attributes) }
    ensures located { (seed clusters cluster r : ℕ) (row : RowValue) → IsShape (shape_of seed clusters cluster)
        → slice_get rows r ≡ Some row
        → located_attributes (made_record (shape_of seed clusters cluster) row)
        ≡ made_attributes (shape_of seed clusters cluster) 0x38 0 row.attributes }
    ensures cells { (seed clusters cluster r : ℕ) (row : RowValue) → IsShape (shape_of seed clusters cluster)
        → slice_get rows r ≡ Some row → HaveMadeCells (shape_of seed clusters cluster) row }
    ensures length { (seed clusters cluster r : ℕ) (row : RowValue) → IsShape (shape_of seed clusters cluster)
        → slice_get rows r ≡ Some row → length (record_of_row (shape_of seed clusters cluster) row) ≡ 1024 }
{}
