//! A small volume: clusters of 1,024 bytes, $MFT from cluster 4 on, each record a cluster. Record 16 has an attribute
//! list, and record 17 extends it; record 18 has none.
ghost use Rattle.std.specs.Prelude.{◌<◌, ◌^◌};

use crate::check_streams;
use ntfs_base::{Image, MemImage, Rule};
use ntfs_rules::{CheckFault, cut_of, damaged};
use ntfs_volume::read_table;
use std::alloc::{AllocError, Global};
use std::test::Fail;

/// Writes a text over the bytes, where it lies in them.
fn patch(bytes: &mut [u8], at: usize, text: &[u8]) {
    if at <= bytes.len() && text.len() <= bytes.len() - at {
        bytes[at..at + text.len()].copy_from_slice(text);
    }
}

/// The place of the record of a number.
fn record_at(number: u16) -> usize
    ensures { result < 2 ^ 27 }
{
    1024 * (usize::from(number) + 4)
}

/// Puts a record in use at its place, of sequence number 3, with these attributes.
fn record(bytes: &mut [u8], number: u16, base: u64, attributes: &[u8]) {
    let at = record_at(number);
    patch(bytes, at, b"FILE\x30\0\x03\0");
    patch(
        bytes,
        at + 0x10,
        &[3, 0, 1, 0, 56, 0, 1, 0, 0, 4, 0, 0, 0, 4],
    );
    patch(bytes, at + 0x20, &base.to_le_bytes());
    patch(bytes, at + 0x2C, &number.to_le_bytes());
    patch(bytes, at + 0x30, &[5, 0]);
    patch(bytes, at + 510, &[5, 0]);
    patch(bytes, at + 1022, &[5, 0]);
    patch(bytes, at + 56, attributes);
    patch(
        bytes,
        (at + 56).saturating_add(attributes.len()),
        &[0xFF; 4],
    );
}

/// A resident attribute of this type and instance with an empty value.
fn resident(kind: u8, instance: u8) -> [u8; 24] {
    [
        kind, 0, 0, 0, 24, 0, 0, 0, 0, 0, 24, 0, 0, 0, instance, 0, 0, 0, 0, 0, 24, 0, 0, 0,
    ]
}

/// An entry of this type and instance, which names record 16 or 17 by its sequence number.
fn entry(kind: u8, instance: u8, number: u8) -> [u8; 32] {
    [
        kind, 0, 0, 0, 32, 0, 0, 26, 0, 0, 0, 0, 0, 0, 0, 0, number, 0, 0, 0, 0, 0, 3, 0, instance,
        0, 0, 0, 0, 0, 0, 0,
    ]
}

/// Puts a record with the attribute 0x10 and a $DATA of so many clusters from one on, all initialised.
fn data(bytes: &mut [u8], number: u16, count: u8, first: u8) {
    record(bytes, number, 0, &resident(0x10, 0));
    let at = record_at(number) + 80;
    let size = (1024 * u64::from(count)).to_le_bytes();
    patch(bytes, at, &[0x80, 0, 0, 0, 72, 0, 0, 0, 1, 0, 64, 0]);
    patch(bytes, at + 0x18, &[count.saturating_sub(1)]);
    patch(bytes, at + 0x20, &[64, 0]);
    patch(bytes, at + 0x30, &size);
    patch(bytes, at + 0x38, &size);
    patch(bytes, at + 64, &[0x11, count, first, 0, 0, 0, 0, 0]);
    patch(bytes, at + 72, &[0xFF; 4]);
}

/// 32 records, all initialised. Record 16 has the attribute 0x10 and a list of three, record 17 two of type 0x30, and
/// record 18 the attribute 0x10 and a $DATA of one cluster.
fn volume(alloc: Global) -> Result<Vec<u8>, AllocError> {
    let mut bytes = vec![in alloc; 0; 1024 * 64 + 512]?;
    patch(&mut bytes, 3, b"NTFS    \0\x02\x02");
    patch(&mut bytes, 0x28, &[128]);
    patch(&mut bytes, 0x30, &[4]);
    patch(&mut bytes, 0x38, &[4]);
    patch(&mut bytes, 0x40, &[0xF6]);
    patch(&mut bytes, 0x44, &[0xF4]);
    data(&mut bytes, 0, 32, 4);
    record(&mut bytes, 16, 0, &resident(0x10, 0));
    let list = record_at(16) + 80;
    patch(
        &mut bytes,
        list,
        &[
            0x20, 0, 0, 0, 120, 0, 0, 0, 0, 0, 24, 0, 0, 0, 1, 0, 96, 0, 0, 0, 24,
        ],
    );
    patch(&mut bytes, list + 24, &entry(0x10, 0, 16));
    patch(&mut bytes, list + 56, &entry(0x30, 2, 17));
    patch(&mut bytes, list + 88, &entry(0x30, 3, 17));
    patch(&mut bytes, list + 120, &[0xFF; 4]);
    record(&mut bytes, 17, 3 << 48 | 16, &resident(0x30, 2));
    patch(&mut bytes, record_at(17) + 80, &resident(0x30, 3));
    patch(&mut bytes, record_at(17) + 104, &[0xFF; 4]);
    data(&mut bytes, 18, 1, 50);
    Ok(bytes)
}

/// Rule C12 of a volume at a type that is known by its bound alone.
fn check_in<G: Image>(alloc: Global, image: &mut G) -> Result<(), CheckFault> {
    match read_table(alloc, image) {
        Err(fault) => match cut_of(fault) {
            None => Err(damaged(Rule::C3, 0)),
            Some(cut) => Err(cut),
        },
        Ok(table) => check_streams(alloc, image, &table),
    }
}

fn broken_by(number: u64) -> Result<(), CheckFault> {
    Err(damaged(Rule::C12, number))
}

#[test]
fn the_first_record_that_breaks_the_rule(rt: HostRuntime) -> Result<(), Fail> {
    let alloc = rt.alloc();
    let list = record_at(16) + 80;
    let other = record_at(17) + 56;
    let last = record_at(18);
    let cases: [(&[(usize, u8)], Result<(), CheckFault>); 8] = [
        (&[], Ok(())),
        // Two values of one type that isn't $FILE_NAME, in the record that a list names.
        (
            &[
                (list + 56, 0x40),
                (list + 88, 0x40),
                (other, 0x40),
                (other + 24, 0x40),
            ],
            broken_by(16),
        ),
        // A second list of the same name.
        (&[(list + 56, 0x20), (other, 0x20)], broken_by(16)),
        // An entry that names no attribute.
        (&[(other, 0x50)], broken_by(16)),
        // A $DATA that doesn't begin at VCN 0, and one without room for its size.
        (
            &[(last + 80 + 0x10, 1), (last + 80 + 0x18, 1)],
            broken_by(18),
        ),
        (&[(last + 80 + 0x30, 1)], broken_by(18)),
        // A value beside it, and the same of a record that is no base record.
        (&[(last + 56, 0x80)], broken_by(18)),
        (&[(last + 56, 0x80), (last + 0x20, 19)], Ok(())),
    ];
    for (damages, want) in cases {
        let mut bytes = volume(alloc)?;
        for (place, byte) in damages {
            patch(&mut bytes, *place, &[*byte]);
        }
        let mut image = MemImage::new(alloc, bytes);
        assert_eq!(rt; check_in(alloc, &mut image), want, "{}", damages.len());
    }
    Ok(())
}
