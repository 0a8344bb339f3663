//! The names of the root, in the order of its index.

ghost use Rattle.std.specs.Prelude.{◌≡◌, map};
ghost use Rattle.ntfs_make.specs.Table.{root_name_value};
ghost use Rattle.ntfs_make.specs.RootNames as spec;

use crate::table::{FileName, RootName};

macro_rules! root_name {
    ($record:expr, $space:expr, $letters:expr) => {
        RootName { number: $record, name: FileName { parent: 5, space: $space, letters: $letters } }
    };
}

static NAMES: [RootName; 39] = [
    root_name!(4, 3, b"$AttrDef"),
    root_name!(8, 3, b"$BadClus"),
    root_name!(6, 3, b"$Bitmap"),
    root_name!(7, 3, b"$Boot"),
    root_name!(11, 3, b"$Extend"),
    root_name!(2, 3, b"$LogFile"),
    root_name!(0, 3, b"$MFT"),
    root_name!(1, 3, b"$MFTMirr"),
    root_name!(9, 3, b"$Secure"),
    root_name!(10, 3, b"$UpCase"),
    root_name!(3, 3, b"$Volume"),
    root_name!(5, 3, b"."),
    root_name!(26, 0, b"A.txt"),
    root_name!(27, 0, b"a.txt"),
    root_name!(23, 3, b"Dir"),
    root_name!(17, 3, b"empty.bin"),
    root_name!(32, 3, b"file00"),
    root_name!(33, 3, b"file01"),
    root_name!(34, 3, b"file02"),
    root_name!(35, 3, b"file03"),
    root_name!(36, 3, b"file04"),
    root_name!(37, 3, b"file05"),
    root_name!(38, 3, b"file06"),
    root_name!(39, 3, b"file07"),
    root_name!(40, 3, b"file08"),
    root_name!(41, 3, b"file09"),
    root_name!(42, 3, b"file10"),
    root_name!(43, 3, b"file11"),
    root_name!(44, 3, b"file12"),
    root_name!(45, 3, b"file13"),
    root_name!(46, 3, b"file14"),
    root_name!(47, 3, b"file15"),
    root_name!(19, 3, b"half.bin"),
    root_name!(21, 3, b"listed.bin"),
    root_name!(25, 1, b"long name.txt"),
    root_name!(25, 2, b"LONGNA~1.TXT"),
    root_name!(20, 3, b"packed.bin"),
    root_name!(16, 3, b"resident.txt"),
    root_name!(18, 3, b"sparse.bin"),
];

// The table.
pub(crate) fn root_names() -> &'static [RootName]
    ensures { map root_name_value result.now ≡ spec.root_names }
{
    &NAMES
}
