//! Small volumes: clusters of 1,024 bytes, $MFT from cluster 4 on, each record a cluster. Record 16 has an attribute
//! list, and record 17 extends it.
ghost use Rattle.std.specs.Prelude.{◌<◌, ◌^◌};

use crate::{check_base_references, check_lists};
use ntfs_base::{Image, MemImage, Rule};
use ntfs_rules::CheckFault;
use ntfs_volume::{VolumeFault, read_table};
use std::alloc::{AllocError, Global};
use std::test::Fail;

/// Writes a text over the bytes, where it lies in them.
fn patch(bytes: &mut [u8], at: usize, text: &[u8]) {
    if at <= bytes.len() && text.len() <= bytes.len() - at {
        bytes[at..at + text.len()].copy_from_slice(text);
    }
}

/// The place of the record of a number.
fn record_at(number: u16) -> usize
    ensures { result < 2 ^ 27 }
{
    1024 * (usize::from(number) + 4)
}

/// Puts a record in use at its place, of sequence number 3, with these attributes.
fn record(bytes: &mut [u8], number: u16, base: u64, attributes: &[u8]) {
    let at = record_at(number);
    patch(bytes, at, b"FILE\x30\0\x03\0");
    patch(
        bytes,
        at + 0x10,
        &[3, 0, 1, 0, 56, 0, 1, 0, 0, 4, 0, 0, 0, 4],
    );
    patch(bytes, at + 0x20, &base.to_le_bytes());
    patch(bytes, at + 0x2C, &number.to_le_bytes());
    patch(bytes, at + 0x30, &[5, 0]);
    patch(bytes, at + 510, &[5, 0]);
    patch(bytes, at + 1022, &[5, 0]);
    patch(bytes, at + 56, attributes);
    patch(
        bytes,
        (at + 56).saturating_add(attributes.len()),
        &[0xFF; 4],
    );
}

/// A resident attribute of this type and instance with an empty value.
fn resident(kind: u8, instance: u8) -> [u8; 24] {
    [
        kind, 0, 0, 0, 24, 0, 0, 0, 0, 0, 24, 0, 0, 0, instance, 0, 0, 0, 0, 0, 24, 0, 0, 0,
    ]
}

/// An entry of this type and instance, which names record 16 or 17 by its sequence number.
fn entry(kind: u8, instance: u8, number: u8) -> [u8; 32] {
    [
        kind, 0, 0, 0, 32, 0, 0, 26, 0, 0, 0, 0, 0, 0, 0, 0, number, 0, 0, 0, 0, 0, 3, 0, instance,
        0, 0, 0, 0, 0, 0, 0,
    ]
}

/// 32 records, all initialised. Record 16 has the attribute 0x10 and a list of three, and record 17 two of type 0x40.
fn volume(alloc: Global) -> Result<Vec<u8>, AllocError> {
    let mut bytes = vec![in alloc; 0; 1024 * 64 + 512]?;
    patch(&mut bytes, 3, b"NTFS    \0\x02\x02");
    patch(&mut bytes, 0x28, &[128]);
    patch(&mut bytes, 0x30, &[4]);
    patch(&mut bytes, 0x38, &[4]);
    patch(&mut bytes, 0x40, &[0xF6]);
    patch(&mut bytes, 0x44, &[0xF4]);
    record(&mut bytes, 0, 0, &resident(0x10, 0));
    let table = record_at(0) + 80;
    patch(
        &mut bytes,
        table,
        &[0x80, 0, 0, 0, 80, 0, 0, 0, 1, 0, 64, 0],
    );
    patch(&mut bytes, table + 0x18, &[31]);
    patch(&mut bytes, table + 0x20, &[64, 0]);
    patch(
        &mut bytes,
        table + 0x30,
        &[0, 0x80, 0, 0, 0, 0, 0, 0, 0, 0x80],
    );
    patch(&mut bytes, table + 64, &[0x11, 32, 4, 0, 0, 0, 0, 0]);
    patch(&mut bytes, table + 80, &[0xFF; 4]);
    record(&mut bytes, 16, 0, &resident(0x10, 0));
    let list = record_at(16) + 80;
    patch(
        &mut bytes,
        list,
        &[
            0x20, 0, 0, 0, 120, 0, 0, 0, 0, 0, 24, 0, 0, 0, 1, 0, 96, 0, 0, 0, 24,
        ],
    );
    patch(&mut bytes, list + 24, &entry(0x10, 0, 16));
    patch(&mut bytes, list + 56, &entry(0x40, 2, 17));
    patch(&mut bytes, list + 88, &entry(0x40, 3, 17));
    patch(&mut bytes, list + 120, &[0xFF; 4]);
    record(&mut bytes, 17, 3 << 48 | 16, &resident(0x40, 2));
    patch(&mut bytes, record_at(17) + 80, &resident(0x40, 3));
    patch(&mut bytes, record_at(17) + 104, &[0xFF; 4]);
    Ok(bytes)
}

fn volume_fault(fault: VolumeFault) -> CheckFault {
    match fault {
        VolumeFault::NoMemory => CheckFault::NoMemory,
        _ => CheckFault::ReadFault,
    }
}

/// Rules C10 and C11 of a volume at a type that is known by its bound alone.
fn check_in<G: Image>(alloc: Global, image: &mut G) -> Result<(), CheckFault> {
    match read_table(alloc, image) {
        Err(fault) => Err(volume_fault(fault)),
        Ok(table) => {
            check_base_references(alloc, image, &table)?;
            check_lists(alloc, image, &table)
        }
    }
}

fn damaged(rule: Rule, number: u64) -> Result<(), CheckFault> {
    Err(CheckFault::Damaged { rule, number })
}

#[test]
fn the_first_record_that_breaks_a_rule(rt: HostRuntime) -> Result<(), Fail> {
    let alloc = rt.alloc();
    let list = record_at(16) + 80;
    let cases: [(&[(usize, u8)], Result<(), CheckFault>); 10] = [
        (&[], Ok(())),
        // The base record's sequence number is another, none is told, or the base record isn't in use.
        (&[(record_at(17) + 0x26, 4)], damaged(Rule::C10, 17)),
        (&[(record_at(17) + 0x26, 0)], Ok(())),
        (&[(record_at(16) + 0x16, 0)], damaged(Rule::C10, 17)),
        // An entry that names no attribute, one that names another's, and one of another sequence number.
        (&[(list + 88, 0x50)], damaged(Rule::C11, 16)),
        (&[(list + 88 + 24, 2)], damaged(Rule::C11, 16)),
        (&[(list + 88 + 22, 4)], damaged(Rule::C11, 16)),
        // An attribute that no entry names, two that are the same, and a record that is extended without a list.
        (&[(list + 16, 64)], damaged(Rule::C11, 16)),
        (&[(record_at(17) + 80 + 14, 2)], damaged(Rule::C11, 16)),
        (&[(list, 0x30)], damaged(Rule::C11, 16)),
    ];
    for (damages, want) in cases {
        let mut bytes = volume(alloc)?;
        for (place, byte) in damages {
            patch(&mut bytes, *place, &[*byte]);
        }
        let mut image = MemImage::new(alloc, bytes);
        assert_eq!(rt; check_in(alloc, &mut image), want, "{}", damages.len());
    }
    Ok(())
}
