//! The areas of the volume in their order.

ghost use Rattle.std.specs.Prelude.{◌≡◌, length};
ghost use Rattle.ntfs_make.specs.Areas as spec;

use crate::table::{AreaRow, ClusterCount, Content};

// An area that holds a stream from a VCN on.
macro_rules! area_from {
    ($first_vcn:expr, $length:expr, $content:expr) => {
        AreaRow {
            length: $length,
            first_vcn: $first_vcn,
            content: $content,
        }
    };
}

// An area that holds a stream from its first VCN on.
macro_rules! area {
    ($length:expr, $content:expr) => {
        area_from!(ClusterCount::Exactly(0), $length, $content)
    };
}

// The area of `fileNN`, whose record is 32 above its number.
macro_rules! file_area {
    ($number:expr) => {
        area!(
            ClusterCount::OfFile($number),
            Content::Counting(32 + $number, ClusterCount::OfFile($number))
        )
    };
}

static AREAS: [AreaRow; 29] = [
    area!(ClusterCount::ForBytes(8192), Content::Boot),
    area!(ClusterCount::ForBytes(32768), Content::Mft),
    area!(ClusterCount::ForBytes(4096), Content::Mirror),
    area!(ClusterCount::ForBytes(65536), Content::Log),
    area!(ClusterCount::ForBitmap, Content::Bitmap),
    area!(ClusterCount::ForBytes(131072), Content::UpCase),
    area!(ClusterCount::ForBytes(4096), Content::Index),
    area_from!(
        ClusterCount::ForBytes(32768),
        ClusterCount::ForBytes(32768),
        Content::Mft
    ),
    area_from!(
        ClusterCount::Exactly(2),
        ClusterCount::Exactly(1),
        Content::Counting(18, ClusterCount::Exactly(4))
    ),
    area!(
        ClusterCount::Exactly(2),
        Content::Counting(19, ClusterCount::Exactly(2))
    ),
    area!(
        ClusterCount::Exactly(4),
        Content::Counting(20, ClusterCount::Exactly(16))
    ),
    area!(
        ClusterCount::Exactly(1),
        Content::Counting(21, ClusterCount::Exactly(2))
    ),
    area_from!(
        ClusterCount::Exactly(1),
        ClusterCount::Exactly(1),
        Content::Counting(21, ClusterCount::Exactly(2))
    ),
    file_area!(0),
    file_area!(1),
    file_area!(2),
    file_area!(3),
    file_area!(4),
    file_area!(5),
    file_area!(6),
    file_area!(7),
    file_area!(8),
    file_area!(9),
    file_area!(10),
    file_area!(11),
    file_area!(12),
    file_area!(13),
    file_area!(14),
    file_area!(15),
];

// The table.
#[tactic(auto, unfolding(crate::specs::Areas::area_rows))]
pub(crate) fn area_rows() -> &'static [AreaRow]
    ensures table { result.now ≡ spec.area_rows }
    ensures count { length result.now ≡ 29 }
{
    &AREAS
}
