//! Each edit of an attribute that is the first, the middle or the last of a record, with room for it and without.

ghost use Rattle.std.specs.Prelude.{◌≡◌, IfSome};
ghost use Rattle.ntfs_record.specs.Layout.{first_attribute_of};
ghost use Rattle.ntfs_record.specs.Parsing.{raws_of, IsAccepted};
ghost use Rattle.ntfs_record.specs.Views.{shown_body};
ghost use Rattle.ntfs_edit.specs.Edits.{BeginsFrom, residence_of};

use crate::laws::{edited_records_parse, one_attribute_is_edited};
use crate::{NoRoom, replace_pairs, set_resident, set_sizes};
use ntfs_base::in_place::overwrite;
use ntfs_record::{Body, parse};
use std::process::Abort;

const LENGTH: usize = 512;

const FIRST: usize = 0x38;

const LARGE: usize = 4096;

/// The instance of the attribute that is edited.
const EDITED: u16 = 7;

/// The end mark, and what stands behind it in the bytes in use.
const TAIL: [u8; 8] = [0xFF, 0xFF, 0xFF, 0xFF, 0x11, 0x22, 0x33, 0x44];

/// An attribute that isn't edited.
const OTHER: Shape = Shape {
    resident: true,
    length: 32,
    instance: 1,
    units: 0,
    name: 0,
    number: 3,
    offset: 24,
    sizes: [0, 0, 0],
    body: b"abc\x09\x08\x07\x06\x05",
};

/// The fields of an attribute, and its bytes behind them. The number is the length of a value, or the highest VCN.
#[derive(Clone, Copy, Debug)]
struct Shape {
    resident: bool,
    length: u32,
    instance: u16,
    units: u8,
    name: u16,
    number: u64,
    offset: u16,
    sizes: [u64; 3],
    body: &'static [u8],
}

#[derive(Clone, Copy, Debug)]
enum Edit {
    Pairs(&'static [u8], u64),
    Value(&'static [u8]),
    Sizes(u64, u64, u64),
}

/// An attribute, its edit, and what it then is.
#[derive(Clone, Copy, Debug)]
struct Case {
    old: Shape,
    edit: Edit,
    new: Shape,
}

/// Puts a text where it has room.
fn put(bytes: &mut [u8], place: usize, text: &[u8]) {
    if place <= bytes.len() && text.len() <= bytes.len() - place {
        overwrite(bytes, place, text);
    }
}

/// Puts an attribute at a place, and gives the place behind it.
fn put_shape(bytes: &mut [u8], place: usize, shape: &Shape) -> usize {
    let place = place.min(LARGE);
    put(bytes, place, &[0x80, 0, 0, 0]);
    put(bytes, place + 0x04, &shape.length.to_le_bytes());
    put(
        bytes,
        place + 0x08,
        &[u8::from(!shape.resident), shape.units],
    );
    put(bytes, place + 0x0A, &shape.name.to_le_bytes());
    put(bytes, place + 0x0C, &[0, 0]);
    put(bytes, place + 0x0E, &shape.instance.to_le_bytes());
    if shape.resident {
        put(bytes, place + 0x10, &shape.number.to_le_bytes());
        put(bytes, place + 0x14, &shape.offset.to_le_bytes());
        put(bytes, place + 0x16, &[1, 0]);
        put(bytes, place + 0x18, shape.body);
    } else {
        put(bytes, place + 0x10, &[0, 0, 0, 0, 0, 0, 0, 0]);
        put(bytes, place + 0x18, &shape.number.to_le_bytes());
        put(bytes, place + 0x20, &shape.offset.to_le_bytes());
        put(bytes, place + 0x22, &[4, 1, 2, 3, 4, 5]);
        put(bytes, place + 0x28, &shape.sizes[0].to_le_bytes());
        put(bytes, place + 0x30, &shape.sizes[1].to_le_bytes());
        put(bytes, place + 0x38, &shape.sizes[2].to_le_bytes());
        put(bytes, place + 0x40, shape.body);
    }
    place + shape.length as usize
}

/// Puts attributes into a record, with the tail behind them, and tells the bytes in use.
fn lay(bytes: &mut [u8], shapes: &[Shape]) -> usize {
    let mut place = FIRST;
    for shape in shapes {
        place = put_shape(bytes, place, shape);
    }
    let place = place.min(LARGE);
    put(bytes, place, &TAIL);
    let used = place + TAIL.len();
    put(bytes, 0x18, &(used as u32).to_le_bytes());
    used
}

/// Makes a record with these attributes of bytes that differ from each other.
fn make(bytes: &mut [u8], shapes: &[Shape]) -> usize {
    for (place, byte) in bytes.iter_mut().enumerate() {
        *byte = (place % 251) as u8;
    }
    let length = bytes.len().min(LARGE);
    put(bytes, 0x00, &[b'F', b'I', b'L', b'E', 0x30, 0, 3, 0]);
    put(bytes, 0x14, &[0x38, 0]);
    put(bytes, 0x1C, &(length as u32).to_le_bytes());
    lay(bytes, shapes)
}

fn residence(body: &Body<'_>) -> u8
    ensures { result ≡ residence_of (shown_body body.now).is_resident }
{
    match body {
        Body::Resident { .. } => 0,
        Body::Runs { .. } => 1,
    }
}

/// The place of the attribute that is edited, where it is resident, or not.
fn place_of(bytes: &[u8], wanted: u8) -> Option<u32>
    ensures accepted { IfSome result (λ place. IsAccepted bytes.now) }
    ensures begins { IfSome result (λ place. BeginsFrom wanted place (first_attribute_of bytes.now)
        (raws_of bytes.now (first_attribute_of bytes.now))) }
{
    edited_records_parse(bytes);
    one_attribute_is_edited(bytes);
    let view = parse(bytes).ok()?;
    'attributes: for attribute in view.attributes() {
        if residence(&attribute.body) == wanted && attribute.instance == EDITED {
            return Some(attribute.place);
        }
    }
    None
}

fn apply(bytes: &mut [u8], edit: Edit) -> Option<Result<(), NoRoom>> {
    match edit {
        Edit::Pairs(pairs, next) => {
            let place = place_of(bytes, 1)?;
            Some(replace_pairs(bytes, place, pairs, next))
        }
        Edit::Value(value) => {
            let place = place_of(bytes, 0)?;
            Some(set_resident(bytes, place, value))
        }
        Edit::Sizes(allocated, size, valid) => {
            let place = place_of(bytes, 1)?;
            set_sizes(bytes, place, allocated, size, valid);
            Some(Ok(()))
        }
    }
}

/// A record of three attributes, of which the one of a number is this.
fn three(shape: Shape, number: usize) -> [Shape; 3] {
    match number {
        0 => [shape, OTHER, OTHER],
        1 => [OTHER, shape, OTHER],
        _ => [OTHER, OTHER, shape],
    }
}

/// The edit changes the attribute as the case says, and nothing else but the bytes in use.
fn fits(rt: &impl Abort, case: &Case, number: usize, length: usize) {
    let length = length.min(LENGTH);
    let mut bytes = [0; LENGTH];
    let mut want = [0; LENGTH];
    make(&mut bytes[..length], &three(case.old, number));
    make(&mut want[..length], &three(case.old, number));
    lay(&mut want[..length], &three(case.new, number));
    assert_eq!(rt;
        apply(&mut bytes[..length], case.edit),
        Some(Ok(())),
        "{number} of {length}: {case:?}"
    );
    assert_eq!(rt; bytes, want, "{number} of {length}: {case:?}");
}

/// A record without room for the edit is left as it was.
fn is_refused(rt: &impl Abort, case: &Case, number: usize, need: usize) {
    let need = need.min(LENGTH);
    let length = need.saturating_sub(1);
    let mut bytes = [0; LENGTH];
    let mut want = [0; LENGTH];
    make(&mut bytes[..length], &three(case.old, number));
    make(&mut want[..length], &three(case.old, number));
    let refusal = NoRoom {
        need: need as u64,
        have: length as u32,
    };
    assert_eq!(rt;
        apply(&mut bytes[..length], case.edit),
        Some(Err(refusal)),
        "{number}: {case:?}"
    );
    assert_eq!(rt; bytes, want, "{number}: {case:?}");
}

/// The edit of the first, the middle and the last attribute, with room behind them, with just enough, and with a byte
/// too few.
fn runs(rt: &impl Abort, cases: &[Case]) {
    for case in cases {
        for number in 0..3 {
            let used = FIRST + 64 + case.old.length as usize + TAIL.len();
            let need = FIRST + 64 + case.new.length as usize + TAIL.len();
            fits(rt, case, number, LENGTH);
            fits(rt, case, number, used.max(need));
            if used < need {
                is_refused(rt, case, number, need);
            }
        }
    }
}

const VALUE: Shape = Shape {
    resident: true,
    length: 32,
    instance: EDITED,
    units: 0,
    name: 0x18,
    number: 3,
    offset: 24,
    sizes: [0, 0, 0],
    body: b"abc\x09\x08\x07\x06\x05",
};

const NAMED: Shape = Shape {
    resident: true,
    length: 40,
    instance: EDITED,
    units: 1,
    name: 24,
    number: 5,
    offset: 32,
    sizes: [0, 0, 0],
    body: b"n\0\x01\x02\x03\x04\x05\x06hello\x09\x09\x09",
};

#[test]
fn values_are_set(rt: HostRuntime) {
    let cases = [
        // They fill the attribute, pass it by a byte, and leave padding.
        Case {
            old: VALUE,
            edit: Edit::Value(b"abcdefgh"),
            new: Shape {
                number: 8,
                body: b"abcdefgh",
                ..VALUE
            },
        },
        Case {
            old: VALUE,
            edit: Edit::Value(b"abcdefghi"),
            new: Shape {
                length: 40,
                number: 9,
                body: b"abcdefghi\0\0\0\0\0\0\0",
                ..VALUE
            },
        },
        Case {
            old: VALUE,
            edit: Edit::Value(b"xy"),
            new: Shape {
                number: 2,
                body: b"xy\0\0\0\0\0\0",
                ..VALUE
            },
        },
        // No bytes.
        Case {
            old: VALUE,
            edit: Edit::Value(b""),
            new: Shape {
                length: 24,
                number: 0,
                body: b"",
                ..VALUE
            },
        },
        // With a name.
        Case {
            old: NAMED,
            edit: Edit::Value(b""),
            new: Shape {
                length: 32,
                number: 0,
                body: b"n\0\x01\x02\x03\x04\x05\x06",
                ..NAMED
            },
        },
        Case {
            old: NAMED,
            edit: Edit::Value(b"seventeen letters"),
            new: Shape {
                length: 56,
                number: 17,
                body: b"n\0\x01\x02\x03\x04\x05\x06seventeen letters\0\0\0\0\0\0\0",
                ..NAMED
            },
        },
    ];
    runs(&rt, &cases);
}

const RUNS: Shape = Shape {
    resident: false,
    length: 72,
    instance: EDITED,
    units: 0,
    name: 0x40,
    number: 1,
    offset: 64,
    sizes: [0x2000, 0x1300, 0x1000],
    body: b"\x11\x02\x05\0\x09\x09\x09\x09",
};

const NAME_BEFORE: Shape = Shape {
    length: 80,
    units: 2,
    name: 64,
    offset: 72,
    body: b"n\0m\0\x01\x02\x03\x04\x11\x02\x05\0\x09\x09\x09\x09",
    ..RUNS
};

const NAME_BEHIND: Shape = Shape {
    length: 80,
    units: 2,
    name: 72,
    offset: 64,
    body: b"\x11\x02\x05\0\x09\x09\x09\x09n\0m\0\x01\x02\x03\x04",
    ..RUNS
};

#[test]
fn pairs_are_replaced(rt: HostRuntime) {
    let cases = [
        // They leave padding, fill the attribute, and pass it by a byte.
        Case {
            old: RUNS,
            edit: Edit::Pairs(b"\x11\x04\x05\0", 4),
            new: Shape {
                number: 3,
                body: b"\x11\x04\x05\0\0\0\0\0",
                ..RUNS
            },
        },
        Case {
            old: RUNS,
            edit: Edit::Pairs(b"\x32\x04\x01\x02\x03\x01\x09\0", 0x112),
            new: Shape {
                number: 0x111,
                body: b"\x32\x04\x01\x02\x03\x01\x09\0",
                ..RUNS
            },
        },
        Case {
            old: RUNS,
            edit: Edit::Pairs(b"\x32\x04\x01\x02\x03\x11\x09\x01\0", 13),
            new: Shape {
                length: 80,
                number: 12,
                body: b"\x32\x04\x01\x02\x03\x11\x09\x01\0\0\0\0\0\0\0\0",
                ..RUNS
            },
        },
        // No VCN.
        Case {
            old: RUNS,
            edit: Edit::Pairs(b"\0", 0),
            new: Shape {
                number: 0xFFFF_FFFF_FFFF_FFFF,
                body: b"\0\0\0\0\0\0\0\0",
                ..RUNS
            },
        },
        // With a name before them, and with one behind, over which they run.
        Case {
            old: NAME_BEFORE,
            edit: Edit::Pairs(b"\x32\x04\x01\x02\x03\x11\x09\x01\0", 13),
            new: Shape {
                length: 88,
                number: 12,
                body: b"n\0m\0\x01\x02\x03\x04\x32\x04\x01\x02\x03\x11\x09\x01\0\0\0\0\0\0\0\0",
                ..NAME_BEFORE
            },
        },
        Case {
            old: NAME_BEHIND,
            edit: Edit::Pairs(b"\x11\x04\x05\0", 4),
            new: Shape {
                number: 3,
                body: b"\x11\x04\x05\0\0\0\0\0\0\0\0\0\0\0\0\0",
                ..NAME_BEHIND
            },
        },
        Case {
            old: NAME_BEHIND,
            edit: Edit::Pairs(
                b"\x21\x01\x00\x01\x21\x01\x00\x02\x21\x01\x00\x03\x21\x01\x00\x04\0",
                4,
            ),
            new: Shape {
                length: 88,
                number: 3,
                body: b"\x21\x01\x00\x01\x21\x01\x00\x02\x21\x01\x00\x03\x21\x01\x00\x04\0\0\0\0\0\0\0\0",
                ..NAME_BEHIND
            },
        },
    ];
    runs(&rt, &cases);
}

#[test]
fn sizes_are_set(rt: HostRuntime) {
    let sizes = [0x0102_0304_0506_0708, 0xFFFF_FFFF_FFFF_FFFE, 9];
    let edit = Edit::Sizes(sizes[0], sizes[1], sizes[2]);
    let cases = [
        Case {
            old: RUNS,
            edit,
            new: Shape { sizes, ..RUNS },
        },
        Case {
            old: NAME_BEFORE,
            edit,
            new: Shape {
                sizes,
                ..NAME_BEFORE
            },
        },
    ];
    runs(&rt, &cases);
}

/// A record of so many attributes, of which the one of a number gets another value.
fn sets_one(rt: &impl Abort, count: usize, number: usize) {
    let mut shapes = [Shape {
        length: 24,
        number: 0,
        body: b"",
        ..OTHER
    }; 100];
    let shapes = &mut shapes[..count.min(100)];
    let mut bytes = [0; LARGE];
    let mut want = [0; LARGE];
    if let Some(shape) = shapes.get_mut(number) {
        *shape = VALUE;
    }
    make(&mut bytes, shapes);
    make(&mut want, shapes);
    if let Some(shape) = shapes.get_mut(number) {
        *shape = Shape {
            length: 40,
            number: 9,
            body: b"nine more\0\0\0\0\0\0\0",
            ..VALUE
        };
    }
    lay(&mut want, shapes);
    assert_eq!(rt;
        apply(&mut bytes, Edit::Value(b"nine more")),
        Some(Ok(())),
        "{number} of {count}"
    );
    assert!(rt; bytes == want, "{number} of {count}");
}

#[test]
fn records_of_two_and_of_a_hundred_attributes_are_edited(rt: HostRuntime) {
    for (count, number) in [(2, 0), (2, 1), (100, 0), (100, 57), (100, 99)] {
        sets_one(&rt, count, number);
    }
}
