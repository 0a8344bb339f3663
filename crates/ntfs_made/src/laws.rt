//! The law of the generator. The function calls the laws below, and its contract is the law.

ghost use Rattle.std.specs.Prelude.{◌≡◌, ◌<◌, ◌^◌, ℕ, None, Ok};
ghost use Rattle.ntfs_made.specs.Data.{has_owner, made_cluster, made_data, made_slots};
ghost use Rattle.ntfs_made_map.specs.Opened.{made_geometry, made_map, made_opened};
ghost use Rattle.ntfs_make.specs.Shape.{IsShape, shape_of};
ghost use Rattle.ntfs_make.specs.Volume.{volume_bytes_of};
ghost use Rattle.ntfs_rules.specs.Accepts.{claims_in};
ghost use Rattle.ntfs_rules.specs.Clusters.{c8, count_if, times};
ghost use Rattle.ntfs_rules.specs.Records.{c4, c7};
ghost use Rattle.ntfs_rules.specs.VolumeData.{numbers};
ghost use Rattle.ntfs_survey.specs.Owned.{owners_of, volume_survey};
ghost use Rattle.ntfs_volume.specs.Located.{slots_of};
ghost use Rattle.ntfs_volume.specs.Opened.{opened_of};

use ntfs_made_map::laws::made_volumes_open;
use ntfs_made_records::laws::made_records_are_read;

/// A made volume is a volume. It opens, as rules C1 to C3 say, and its records are those of the generator's table. They
/// keep rules C4 and C7, so that it can be surveyed: the owners are those that the table tells. And they keep rule C8:
/// no cluster has two owners. Each cluster of an area has one, and so has the bad cluster; the others have none.
pub fn made_volumes_are_volumes()
    ensures opened { (seed clusters cluster : ℕ) → seed < 2 ^ 64 → IsShape (shape_of seed clusters cluster)
        → opened_of (volume_bytes_of seed clusters cluster) ≡ Ok (made_opened (shape_of seed clusters cluster)) }
    ensures slots { (seed clusters cluster : ℕ) → IsShape (shape_of seed clusters cluster)
        → slots_of (made_geometry (shape_of seed clusters cluster)) (made_map (shape_of seed clusters cluster))
        (made_cluster (shape_of seed clusters cluster)) ≡ made_slots (shape_of seed clusters cluster) }
    ensures sound { (seed clusters cluster : ℕ) → IsShape (shape_of seed clusters cluster)
        → c4 (made_data (shape_of seed clusters cluster)).slots ≡ None }
    ensures cells { (seed clusters cluster : ℕ) → IsShape (shape_of seed clusters cluster)
        → c7 (numbers (made_data (shape_of seed clusters cluster))) ≡ None }
    ensures once { (seed clusters cluster : ℕ) → IsShape (shape_of seed clusters cluster)
        → c8 (claims_in (made_data (shape_of seed clusters cluster))) ≡ None }
    ensures surveyed { (seed clusters cluster : ℕ) → IsShape (shape_of seed clusters cluster)
        → volume_survey (made_opened (shape_of seed clusters cluster))
        (made_cluster (shape_of seed clusters cluster))
        ≡ Ok (owners_of (made_slots (shape_of seed clusters cluster))) }
    ensures owned { (seed clusters cluster k : ℕ) → IsShape (shape_of seed clusters cluster)
        → times k (claims_in (made_data (shape_of seed clusters cluster)))
        ≡ count_if (has_owner (shape_of seed clusters cluster) k) }
{
    made_volumes_open();
    made_records_are_read();
}
