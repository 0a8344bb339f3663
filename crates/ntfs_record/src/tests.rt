//! A record of four attributes, read whole, and each thing that can be wrong with it.
use crate::laws::slots_are_told;
use crate::layout::{allocated_at, set_size_at, size_at};
use crate::{AttributeView, Body, RecordFault, SlotView, is_in_use, parse, slot_in};
use std::test::Fail;

const LENGTH: usize = 304;

/// Where a byte stands, and the byte.
type Patch = (usize, u8);

const HEADER: [Patch; 17] = [
    (0x00, b'F'),
    (0x01, b'I'),
    (0x02, b'L'),
    (0x03, b'E'),
    (0x04, 0x30),
    (0x06, 3),
    (0x08, 7),
    (0x10, 5),
    (0x12, 2),
    (0x14, 56),
    (0x16, 3),
    (0x18, 0x20),
    (0x19, 0x01),
    (0x1C, 0x30),
    (0x1D, 0x01),
    (0x28, 4),
    (0x2C, 16),
];

/// A value of eight bytes without a name.
const RESIDENT: [Patch; 8] = [
    (56, 0x10),
    (60, 32),
    (66, 24),
    (72, 8),
    (76, 24),
    (80, b'v'),
    (87, b'w'),
    (56 + 0x0C, 0),
];

/// A value of three bytes, with a name of two units.
const NAMED: [Patch; 12] = [
    (88, 0x80),
    (92, 40),
    (97, 2),
    (98, 24),
    (100, 1),
    (102, 1),
    (104, 3),
    (108, 32),
    (112, b'a'),
    (114, b'b'),
    (120, b'x'),
    (122, b'z'),
];

/// Two VCNs.
const RUNS: [Patch; 13] = [
    (128, 0x80),
    (132, 72),
    (136, 1),
    (138, 64),
    (142, 2),
    (152, 1),
    (160, 64),
    (169, 0x20),
    (177, 0x13),
    (185, 0x10),
    (192, 0x11),
    (193, 2),
    (194, 5),
];

/// No VCN, with a name of one unit.
const EMPTY: [Patch; 14] = [
    (200, 0xA0),
    (204, 80),
    (208, 1),
    (209, 1),
    (210, 64),
    (214, 3),
    (224, 0xFF),
    (225, 0xFF),
    (226, 0xFF),
    (227, 0xFF),
    (228, 0xFF),
    (229, 0xFF),
    (230, 0xFF),
    (231, 0xFF),
];

const LAST: [Patch; 6] = [
    (232, 72),
    (264, b'n'),
    (280, 0xFF),
    (281, 0xFF),
    (282, 0xFF),
    (283, 0xFF),
];

fn put(bytes: &mut [u8], patches: &[Patch]) {
    for (place, value) in patches {
        if let Some(byte) = bytes.get_mut(*place) {
            *byte = *value;
        }
    }
}

/// The record, with some bytes changed.
fn change(patches: &[Patch]) -> [u8; LENGTH] {
    let mut bytes = [0; LENGTH];
    put(&mut bytes, &HEADER);
    put(&mut bytes, &RESIDENT);
    put(&mut bytes, &NAMED);
    put(&mut bytes, &RUNS);
    put(&mut bytes, &EMPTY);
    put(&mut bytes, &LAST);
    put(&mut bytes, patches);
    bytes
}

#[test]
fn the_header_is_shown(rt: HostRuntime) -> Result<(), Fail> {
    let bytes = change(&[]);
    let record_view = parse(&bytes).ok().ok_or("a record")?;
    assert_eq!(rt; record_view.sequence(), 5);
    assert_eq!(rt; record_view.links(), 2);
    assert_eq!(rt; record_view.flags(), 3);
    assert_eq!(rt; record_view.base(), 0);
    assert_eq!(rt; record_view.in_use(), 288);
    assert_eq!(rt; record_view.number(), Some(16));
    assert_eq!(rt; record_view.attributes().count(), 4);
    Ok(())
}

#[test]
fn a_number_is_told_behind_a_late_array_alone(rt: HostRuntime) -> Result<(), Fail> {
    let bytes = change(&[(0x04, 0x2E), (0x25, 1)]);
    let record_view = parse(&bytes).ok().ok_or("a record")?;
    assert_eq!(rt; record_view.number(), None);
    assert_eq!(rt; record_view.base(), 1 << 40);
    Ok(())
}

#[test]
fn the_attributes_are_shown(rt: HostRuntime) -> Result<(), Fail> {
    let bytes = change(&[]);
    let record_view = parse(&bytes).ok().ok_or("a record")?;
    let mut attributes = record_view.attributes();
    assert_eq!(rt;
        attributes.next(),
        Some(AttributeView {
            place: 56,
            kind: 0x10,
            name: &[],
            flags: 0,
            instance: 0,
            body: Body::Resident {
                value: &[b'v', 0, 0, 0, 0, 0, 0, b'w']
            },
        })
    );
    assert_eq!(rt;
        attributes.next(),
        Some(AttributeView {
            place: 88,
            kind: 0x80,
            name: b"a\0b\0",
            flags: 1,
            instance: 1,
            body: Body::Resident { value: b"x\0z" },
        })
    );
    assert_eq!(rt;
        attributes.next(),
        Some(AttributeView {
            place: 128,
            kind: 0x80,
            name: &[],
            flags: 0,
            instance: 2,
            body: Body::Runs {
                lowest: 0,
                next: 2,
                allocated: 0x2000,
                size: 0x1300,
                valid: 0x1000,
                pairs: &[0x11, 2, 5, 0, 0, 0, 0, 0],
            },
        })
    );
    assert_eq!(rt;
        attributes.next(),
        Some(AttributeView {
            place: 200,
            kind: 0xA0,
            name: b"n\0",
            flags: 0,
            instance: 3,
            body: Body::Runs {
                lowest: 0,
                next: 0,
                allocated: 0,
                size: 0,
                valid: 0,
                pairs: &[0; 8],
            },
        })
    );
    assert_eq!(rt; attributes.next(), None);
    assert_eq!(rt; attributes.next(), None);
    Ok(())
}

/// What is changed in the record, and the fault that then comes.
const HEADER_FAULTS: [([Patch; 2], u8); 8] = [
    // It doesn't begin with `FILE`.
    ([(0x00, b'B'), (0x01, b'A')], 1),
    ([(0x03, b'e'), (0x1C, 0)], 1),
    // The bytes allocated aren't the length.
    ([(0x1C, 0x28), (0x19, 0x02)], 2),
    // The bytes in use pass those allocated.
    ([(0x18, 0x38), (0x14, 57)], 3),
    // The first attribute isn't at a multiple of 8, stands in the array, in the header, or past the bytes in use.
    ([(0x14, 60), (0x14, 60)], 4),
    ([(0x06, 5), (0x06, 5)], 4),
    ([(0x04, 0x10), (0x14, 0x20)], 4),
    ([(0x18, 59), (0x19, 0)], 4),
];

#[test]
fn the_first_fault_of_the_header_is_named(rt: HostRuntime) {
    for (patches, field) in HEADER_FAULTS {
        let bytes = change(&patches);
        assert_eq!(rt;
            parse(&bytes).err(),
            Some(RecordFault::BadHeader { field }),
            "{field}"
        );
    }
    assert_eq!(rt;
        parse(b"FIL").err(),
        Some(RecordFault::BadHeader { field: 1 })
    );
    assert_eq!(rt;
        parse(b"FILE0123").err(),
        Some(RecordFault::BadHeader { field: 2 })
    );
}

const ATTRIBUTE_FAULTS: [([Patch; 4], u32); 18] = [
    // The length: no multiple of 8, too short for a resident or a non-resident attribute, or past the bytes in use.
    ([(60, 36), (60, 36), (60, 36), (60, 36)], 56),
    ([(60, 16), (60, 16), (60, 16), (60, 16)], 56),
    ([(132, 56), (160, 56), (132, 56), (132, 56)], 128),
    ([(61, 1), (61, 1), (61, 1), (61, 1)], 56),
    ([(204, 88), (204, 88), (204, 88), (204, 88)], 200),
    ([(280, 0), (280, 0), (280, 0), (280, 0)], 280),
    // The non-resident byte.
    ([(64, 2), (64, 2), (64, 2), (64, 2)], 56),
    // A name that ends past the length.
    ([(97, 9), (97, 9), (97, 9), (97, 9)], 88),
    ([(210, 79), (210, 79), (210, 79), (210, 79)], 200),
    // A value that ends past the length, or begins in the fields.
    ([(72, 9), (72, 9), (72, 9), (72, 9)], 56),
    ([(108, 41), (104, 0), (108, 41), (108, 41)], 88),
    ([(76, 23), (76, 23), (76, 23), (76, 23)], 56),
    // Pairs that begin past the length, or in the fields.
    ([(160, 73), (160, 73), (160, 73), (160, 73)], 128),
    ([(160, 63), (160, 63), (160, 63), (160, 63)], 128),
    // The lowest VCN.
    ([(144, 1), (150, 1), (152, 0), (158, 1)], 128),
    // The highest VCN: below the lowest less one, of a list without VCNs too, or past 2^48.
    ([(144, 3), (144, 3), (144, 3), (144, 3)], 128),
    ([(224, 0xFE), (224, 0xFE), (224, 0xFE), (224, 0xFE)], 200),
    ([(158, 1), (158, 1), (158, 1), (158, 1)], 128),
];

#[test]
fn the_first_attribute_with_a_fault_is_named(rt: HostRuntime) {
    for (patches, place) in ATTRIBUTE_FAULTS {
        let bytes = change(&patches);
        assert_eq!(rt;
            parse(&bytes).err(),
            Some(RecordFault::BadAttribute { place }),
            "{place}"
        );
    }
}

/// What is as far as it may go.
const EDGES: [[Patch; 2]; 6] = [
    // The offset of a name without units plays no part.
    [(66, 0xFF), (67, 0xFF)],
    // A name, a value and pairs that end with the attribute.
    [(97, 8), (97, 8)],
    [(104, 8), (104, 8)],
    [(160, 72), (160, 72)],
    // VCNs that end at 2^48, or none behind the lowest.
    [(158, 1), (152, 0)],
    [(144, 2), (144, 2)],
];

#[test]
fn what_is_at_its_edge_is_no_fault(rt: HostRuntime) {
    for patches in EDGES {
        let bytes = change(&patches);
        assert_eq!(rt; parse(&bytes).err(), None);
    }
}

/// The same record in two strides whose ends agree, with some bytes changed.
fn two_strides(patches: &[Patch]) -> [u8; 1024] {
    let mut bytes = [0; 1024];
    put(&mut bytes, &HEADER);
    put(&mut bytes, &RESIDENT);
    put(&mut bytes, &NAMED);
    put(&mut bytes, &RUNS);
    put(&mut bytes, &EMPTY);
    put(&mut bytes, &LAST);
    put(&mut bytes, &[(0x1C, 0), (0x1D, 4)]);
    put(&mut bytes, patches);
    bytes
}

#[derive(Clone, Copy, Debug, PartialEq, Eq)]
enum Told {
    Idle,
    Baad,
    Unsound,
    Sound { sequence: u16 },
}

fn answer_of(slot: &SlotView<'_>) -> Told {
    match slot {
        SlotView::Idle { is_baad } => { if *is_baad { Told::Baad } else { Told::Idle } }
        SlotView::Unsound => Told::Unsound,
        SlotView::Sound { view } => Told::Sound {
            sequence: view.sequence(),
        },
    }
}

/// What is changed in the record, the number that it has, and what is told of it.
const SLOTS: [([Patch; 4], u64, Told); 8] = [
    ([(0, b'F'); 4], 16, Told::Sound { sequence: 5 }),
    // It tells another number, or none.
    ([(0, b'F'); 4], 17, Told::Unsound),
    ([(0x04, 0x2E); 4], 17, Told::Sound { sequence: 5 }),
    // It isn't in use, by its flag or by its first bytes.
    ([(0x16, 2); 4], 16, Told::Idle),
    ([(3, b'O'); 4], 16, Told::Idle),
    ([(0, b'B'), (1, b'A'), (2, b'A'), (3, b'D')], 16, Told::Baad),
    // Its first stride is torn, or its first attribute stands wrong.
    ([(510, 1); 4], 16, Told::Unsound),
    ([(0x14, 60); 4], 16, Told::Unsound),
];

#[test]
fn a_record_of_a_number_is_told(rt: HostRuntime) {
    for (patches, number, want) in SLOTS {
        let mut raw = two_strides(&patches);
        slots_are_told(&raw, number);
        let live = is_in_use(&raw);
        let slot = answer_of(&slot_in(&mut raw, number));
        assert_eq!(rt; slot, want, "{number}");
        assert_eq!(rt; live, want != Told::Idle && want != Told::Baad);
    }
}

#[test]
fn a_field_is_set_alone(rt: HostRuntime) {
    let mut bytes = change(&[]);
    set_size_at(&mut bytes, 128, 0x1234);
    assert_eq!(rt; size_at(&bytes, 128), 0x1234);
    assert_eq!(rt; allocated_at(&bytes, 128), 0x2000);
    assert!(rt; bytes == change(&[(176, 0x34), (177, 0x12)]));
}
