//! Laws of the definitions. Each function does nothing, and its contract is the law.

ghost use Rattle.std.specs.Prelude.{◌≡◌, ◌<◌, ◌/◌, ◌^◌, ℕ, Ok, Some, slice_get};
ghost use Rattle.ntfs_base.specs.Bytes.{cluster_at};
ghost use Rattle.ntfs_boot.specs.Geometry.{volume_geometry};
ghost use Rattle.ntfs_made_map.specs.Opened.{made_geometry, made_map, made_opened};
ghost use Rattle.ntfs_make.specs.Records.{record_of_row};
ghost use Rattle.ntfs_make.specs.Rows.{rows};
ghost use Rattle.ntfs_make.specs.Shape.{IsShape, shape_of};
ghost use Rattle.ntfs_make.specs.Table.{RowValue};
ghost use Rattle.ntfs_make.specs.Volume.{volume_bytes_of};
ghost use Rattle.ntfs_volume.specs.Opened.{opened_of};
ghost use Rattle.ntfs_volume.specs.Records.{raw_record};

/// A made volume opens: its boot sector tells the geometry of what it was made from, the volume has all its clusters,
/// and record 0 gives $MFT's map, which are the clusters of both areas of $MFT. Through them there are 64 records, and
/// record r is that of row r of the generator's table.
pub fn made_volumes_open()
    ensures geometry { (seed clusters cluster : ℕ) → seed < 2 ^ 64 → IsShape (shape_of seed clusters cluster)
        → volume_geometry (volume_bytes_of seed clusters cluster)
        ≡ Ok (made_geometry (shape_of seed clusters cluster)) }
    ensures opened { (seed clusters cluster : ℕ) → seed < 2 ^ 64 → IsShape (shape_of seed clusters cluster)
        → opened_of (volume_bytes_of seed clusters cluster) ≡ Ok (made_opened (shape_of seed clusters cluster)) }
    ensures records { (seed clusters cluster r : ℕ) (row : RowValue) → IsShape (shape_of seed clusters cluster)
        → slice_get rows r ≡ Some row
        → raw_record (made_geometry (shape_of seed clusters cluster)) (made_map (shape_of seed clusters cluster))
        (cluster_at (volume_bytes_of seed clusters cluster) cluster) r
        ≡ Some (record_of_row (shape_of seed clusters cluster) row) }
    ensures count { (seed clusters cluster : ℕ) → (made_map (shape_of seed clusters cluster)).valid
        / (made_geometry (shape_of seed clusters cluster)).record_size ≡ 64 }
{}
