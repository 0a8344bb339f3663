//! The file records, in order of their number, with their names, attributes and streams.

ghost use Rattle.std.specs.Prelude.{◌≡◌, map, length};
ghost use Rattle.ntfs_make.specs.Table.{row_value};
ghost use Rattle.ntfs_make.specs.Rows as spec;

use crate::table::{
    Attribute, AttributeBody, Extent, FileName, ListEntry, LowestVcn, PlannedRun, Root, Row, Size,
};

// $STANDARD_INFORMATION.
macro_rules! standard {
    () => {
        Attribute { kind: 0x10, name: b"", body: AttributeBody::Zeros(72) }
    };
}

// $FILE_NAME.
macro_rules! file_name {
    ($parent:expr, $space:expr, $letters:expr) => {
        Attribute {
            kind: 0x30,
            name: b"",
            body: AttributeBody::Name(FileName { parent: $parent, space: $space, letters: $letters }),
        }
    };
}

// A resident attribute of these bytes.
macro_rules! value {
    ($kind:expr, $name:expr, $value:expr) => {
        Attribute { kind: $kind, name: $name, body: AttributeBody::Bytes($value) }
    };
}

// $ATTRIBUTE_LIST.
macro_rules! list {
    ($entries:expr) => {
        Attribute { kind: 0x20, name: b"", body: AttributeBody::List($entries) }
    };
}

macro_rules! list_entry {
    ($kind:expr, $lowest:expr, $record:expr, $instance:expr) => {
        ListEntry { kind: $kind, lowest: $lowest, number: $record, instance: $instance }
    };
}

// $INDEX_ROOT of a directory.
macro_rules! root {
    ($root:expr) => {
        Attribute { kind: 0x90, name: b"$I30", body: AttributeBody::Root($root) }
    };
}

// An attribute in clusters.
macro_rules! extent {
    ($kind:expr, $name:expr, $extent:expr) => {
        Attribute { kind: $kind, name: $name, body: AttributeBody::Extent($extent) }
    };
}

// An extent of one run, of a stream of one size, with what stands before and behind it in the stream.
macro_rules! one_run {
    ($before:expr, $run:expr, $behind:expr, $size:expr) => {
        Extent {
            flags: 0,
            unit: 0,
            compressed_size: None,
            before: $before,
            first: $run,
            second: PlannedRun::NoRun,
            third: PlannedRun::NoRun,
            behind: $behind,
            size: $size,
            initialised: $size
        }
    };
}

// The unnamed $DATA of one run and one size.
macro_rules! data {
    ($run:expr, $size:expr) => {
        extent!(0x80, b"", one_run!(PlannedRun::NoRun, $run, PlannedRun::NoRun, $size))
    };
}

macro_rules! row {
    ($number:expr, $flags:expr, $base:expr, $attributes:expr) => {
        Row { number: $number, flags: $flags, base: $base, attributes: $attributes }
    };
}

// A file in the root: its times, its name of both namespaces, and its contents.
macro_rules! file {
    ($number:expr, $letters:expr, $data:expr) => {
        row!($number, 1, None, &[standard!(), file_name!(5, 3, $letters), $data])
    };
}

// A record that is not in use.
macro_rules! unused {
    ($number:expr) => {
        row!($number, 0, None, &[])
    };
}

static SYSTEM: [Row; 16] = [
    row!(
        0,
        1,
        None,
        &[
            standard!(),
            list!(&[
                list_entry!(0x10, LowestVcn::Zero, 0, 0),
                list_entry!(0x30, LowestVcn::Zero, 0, 2),
                list_entry!(0x80, LowestVcn::Zero, 0, 3),
                list_entry!(0x80, LowestVcn::Behind(1), 28, 0),
                list_entry!(0xB0, LowestVcn::Zero, 0, 4)
            ]),
            file_name!(5, 3, b"$MFT"),
            extent!(
                0x80,
                b"",
                one_run!(
                    PlannedRun::NoRun,
                    PlannedRun::InArea(1),
                    PlannedRun::InArea(7),
                    Size::Exact(65536)
                )
            ),
            value!(0xB0, b"", b"\xff\x0f\xff\x1f\xff\xff\0\0"),
        ]
    ),
    file!(
        1,
        b"$MFTMirr",
        data!(PlannedRun::InArea(2), Size::Exact(4096))
    ),
    file!(
        2,
        b"$LogFile",
        data!(PlannedRun::InArea(3), Size::Exact(65536))
    ),
    file!(
        3,
        b"$Volume",
        value!(0x70, b"", b"\0\0\0\0\0\0\0\0\x03\x01\0\0")
    ),
    file!(4, b"$AttrDef", value!(0x80, b"", b"")),
    row!(
        5,
        3,
        None,
        &[
            standard!(),
            file_name!(5, 3, b"."),
            root!(Root::Child),
            extent!(
                0xA0,
                b"$I30",
                one_run!(
                    PlannedRun::NoRun,
                    PlannedRun::InArea(6),
                    PlannedRun::NoRun,
                    Size::Exact(4096)
                )
            ),
            value!(0xB0, b"$I30", b"\x01\0\0\0\0\0\0\0"),
        ]
    ),
    file!(6, b"$Bitmap", data!(PlannedRun::InArea(4), Size::Bitmap)),
    file!(7, b"$Boot", data!(PlannedRun::InArea(0), Size::Exact(8192))),
    row!(
        8,
        1,
        None,
        &[
            standard!(),
            file_name!(5, 3, b"$BadClus"),
            value!(0x80, b"", b""),
            extent!(
                0x80,
                b"$Bad",
                Extent {
                    flags: 0x0000,
                    unit: 0,
                    compressed_size: None,
                    before: PlannedRun::NoRun,
                    first: PlannedRun::BeforeBad,
                    second: PlannedRun::Bad,
                    third: PlannedRun::BehindBad,
                    behind: PlannedRun::NoRun,
                    size: Size::Volume,
                    initialised: Size::Exact(0)
                }
            ),
        ]
    ),
    file!(9, b"$Secure", value!(0x80, b"", b"")),
    file!(
        10,
        b"$UpCase",
        data!(PlannedRun::InArea(5), Size::Exact(131072))
    ),
    row!(
        11,
        3,
        None,
        &[
            standard!(),
            file_name!(5, 3, b"$Extend"),
            root!(Root::Empty),
        ]
    ),
    unused!(12),
    unused!(13),
    unused!(14),
    unused!(15),
];

static KINDS: [Row; 16] = [
    file!(16, b"resident.txt", value!(0x80, b"", b"hello, ntfs\n")),
    file!(17, b"empty.bin", data!(PlannedRun::NoRun, Size::Exact(0))),
    file!(
        18,
        b"sparse.bin",
        extent!(
            0x80,
            b"",
            Extent {
                flags: 0x8000,
                unit: 0,
                compressed_size: Some(Size::InArea(8)),
                before: PlannedRun::NoRun,
                first: PlannedRun::Holes(2),
                second: PlannedRun::InArea(8),
                third: PlannedRun::Holes(1),
                behind: PlannedRun::NoRun,
                size: Size::Clusters(4),
                initialised: Size::Clusters(4)
            }
        )
    ),
    file!(
        19,
        b"half.bin",
        extent!(
            0x80,
            b"",
            Extent {
                flags: 0x0000,
                unit: 0,
                compressed_size: None,
                before: PlannedRun::NoRun,
                first: PlannedRun::InArea(9),
                second: PlannedRun::NoRun,
                third: PlannedRun::NoRun,
                behind: PlannedRun::NoRun,
                size: Size::ClusterAnd(5),
                initialised: Size::Exact(10)
            }
        )
    ),
    file!(
        20,
        b"packed.bin",
        extent!(
            0x80,
            b"",
            Extent {
                flags: 0x0001,
                unit: 4,
                compressed_size: Some(Size::InArea(10)),
                before: PlannedRun::NoRun,
                first: PlannedRun::InArea(10),
                second: PlannedRun::Holes(12),
                third: PlannedRun::NoRun,
                behind: PlannedRun::NoRun,
                size: Size::Clusters(16),
                initialised: Size::Clusters(16)
            }
        )
    ),
    row!(
        21,
        1,
        None,
        &[
            standard!(),
            list!(&[
                list_entry!(0x10, LowestVcn::Zero, 21, 0),
                list_entry!(0x30, LowestVcn::Zero, 21, 2),
                list_entry!(0x80, LowestVcn::Zero, 21, 3),
                list_entry!(0x80, LowestVcn::Behind(11), 22, 0)
            ]),
            file_name!(5, 3, b"listed.bin"),
            extent!(
                0x80,
                b"",
                one_run!(
                    PlannedRun::NoRun,
                    PlannedRun::InArea(11),
                    PlannedRun::InArea(12),
                    Size::Clusters(2)
                )
            ),
        ]
    ),
    row!(
        22,
        1,
        Some(21),
        &[extent!(
            0x80,
            b"",
            one_run!(
                PlannedRun::InArea(11),
                PlannedRun::InArea(12),
                PlannedRun::NoRun,
                Size::Exact(0)
            )
        ),]
    ),
    row!(
        23,
        3,
        None,
        &[
            standard!(),
            file_name!(5, 3, b"Dir"),
            root!(Root::One(
                24,
                FileName {
                    parent: 23,
                    space: 3,
                    letters: b"inner.txt"
                }
            )),
        ]
    ),
    row!(
        24,
        1,
        None,
        &[
            standard!(),
            file_name!(23, 3, b"inner.txt"),
            value!(0x80, b"", b"inner\n"),
        ]
    ),
    row!(
        25,
        1,
        None,
        &[
            standard!(),
            file_name!(5, 1, b"long name.txt"),
            file_name!(5, 2, b"LONGNA~1.TXT"),
            value!(0x80, b"", b""),
        ]
    ),
    row!(
        26,
        1,
        None,
        &[
            standard!(),
            file_name!(5, 0, b"A.txt"),
            value!(0x80, b"", b"A\n"),
        ]
    ),
    row!(
        27,
        1,
        None,
        &[
            standard!(),
            file_name!(5, 0, b"a.txt"),
            value!(0x80, b"", b"a\n"),
        ]
    ),
    row!(
        28,
        1,
        Some(0),
        &[extent!(
            0x80,
            b"",
            one_run!(
                PlannedRun::InArea(1),
                PlannedRun::InArea(7),
                PlannedRun::NoRun,
                Size::Exact(0)
            )
        ),]
    ),
    unused!(29),
    unused!(30),
    unused!(31),
];

static FILES: [Row; 16] = [
    file!(
        32,
        b"file00",
        data!(PlannedRun::InArea(13), Size::InArea(13))
    ),
    file!(
        33,
        b"file01",
        data!(PlannedRun::InArea(14), Size::InArea(14))
    ),
    file!(
        34,
        b"file02",
        data!(PlannedRun::InArea(15), Size::InArea(15))
    ),
    file!(
        35,
        b"file03",
        data!(PlannedRun::InArea(16), Size::InArea(16))
    ),
    file!(
        36,
        b"file04",
        data!(PlannedRun::InArea(17), Size::InArea(17))
    ),
    file!(
        37,
        b"file05",
        data!(PlannedRun::InArea(18), Size::InArea(18))
    ),
    file!(
        38,
        b"file06",
        data!(PlannedRun::InArea(19), Size::InArea(19))
    ),
    file!(
        39,
        b"file07",
        data!(PlannedRun::InArea(20), Size::InArea(20))
    ),
    file!(
        40,
        b"file08",
        data!(PlannedRun::InArea(21), Size::InArea(21))
    ),
    file!(
        41,
        b"file09",
        data!(PlannedRun::InArea(22), Size::InArea(22))
    ),
    file!(
        42,
        b"file10",
        data!(PlannedRun::InArea(23), Size::InArea(23))
    ),
    file!(
        43,
        b"file11",
        data!(PlannedRun::InArea(24), Size::InArea(24))
    ),
    file!(
        44,
        b"file12",
        data!(PlannedRun::InArea(25), Size::InArea(25))
    ),
    file!(
        45,
        b"file13",
        data!(PlannedRun::InArea(26), Size::InArea(26))
    ),
    file!(
        46,
        b"file14",
        data!(PlannedRun::InArea(27), Size::InArea(27))
    ),
    file!(
        47,
        b"file15",
        data!(PlannedRun::InArea(28), Size::InArea(28))
    ),
];

static SPARE: [Row; 16] = [
    unused!(48),
    unused!(49),
    unused!(50),
    unused!(51),
    unused!(52),
    unused!(53),
    unused!(54),
    unused!(55),
    unused!(56),
    unused!(57),
    unused!(58),
    unused!(59),
    unused!(60),
    unused!(61),
    unused!(62),
    unused!(63),
];

// The files of every volume, and the records that they leave free: those from 0 on.
pub(crate) fn system_rows() -> &'static [Row]
    ensures table { map row_value result.now ≡ spec.system_rows }
    ensures count { length result.now ≡ 16 }
{
    &SYSTEM
}

// A file of each kind, and the extensions of records: the records from 16 on.
pub(crate) fn kind_rows() -> &'static [Row]
    ensures table { map row_value result.now ≡ spec.kind_rows }
    ensures count { length result.now ≡ 16 }
{
    &KINDS
}

// Sixteen files: the records from 32 on.
pub(crate) fn file_rows() -> &'static [Row]
    ensures table { map row_value result.now ≡ spec.file_rows }
    ensures count { length result.now ≡ 16 }
{
    &FILES
}

// Records that are not in use: those from 48 on.
pub(crate) fn spare_rows() -> &'static [Row]
    ensures table { map row_value result.now ≡ spec.spare_rows }
    ensures count { length result.now ≡ 16 }
{
    &SPARE
}
