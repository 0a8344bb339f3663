//! Rules C4 to C9 of a small volume: clusters of 1,024 bytes, $MFT from cluster 4 on, each record a cluster.
ghost use Rattle.std.specs.Prelude.{◌<◌, ◌^◌};

use crate::check_clusters;
use ntfs_base::{Image, Leaves, MemImage, Rule};
use ntfs_rules::{CheckFault, cut_of, damaged};
use ntfs_volume::read_table;
use std::alloc::{AllocError, Global};
use std::process::Abort;
use std::test::Fail;

/// Writes a text over the bytes, where it lies in them.
fn patch(bytes: &mut [u8], at: usize, text: &[u8]) {
    if at <= bytes.len() && text.len() <= bytes.len() - at {
        bytes[at..at + text.len()].copy_from_slice(text);
    }
}

/// The place of the record of a number.
fn record_at(number: u16) -> usize
    ensures { result < 2 ^ 27 }
{
    1024 * (usize::from(number) + 4)
}

/// An unnamed $DATA of 80 bytes that isn't resident, all of it initialised: its pairs stand at 64.
#[derive(Clone, Copy)]
struct Data<'a> {
    lowest: u64,
    next: u64,
    size: u64,
    pairs: &'a [u8],
}

/// Puts a record in use at its place, with a stream at 80, behind an empty attribute.
fn record(bytes: &mut [u8], number: u16, base: u64, stream: Data<'_>) {
    let at = record_at(number);
    patch(bytes, at, b"FILE\x30\0\x03\0");
    patch(
        bytes,
        at + 0x10,
        &[3, 0, 1, 0, 56, 0, 1, 0, 0, 4, 0, 0, 0, 4],
    );
    patch(bytes, at + 0x20, &base.to_le_bytes());
    patch(bytes, at + 0x2C, &number.to_le_bytes());
    patch(bytes, at + 0x30, &[5, 0]);
    patch(bytes, at + 510, &[5, 0]);
    patch(bytes, at + 1022, &[5, 0]);
    patch(bytes, at + 56, &[0x10, 0, 0, 0, 24, 0, 0, 0, 0, 0, 24, 0]);
    patch(bytes, at + 56 + 0x14, &[24, 0]);
    put_data(bytes, at + 80, stream);
}

/// Puts a stream at a place, as the last attribute of its record.
fn put_data(bytes: &mut [u8], at: usize, stream: Data<'_>)
    requires { at < 2 ^ 32 }
{
    patch(bytes, at, &[0x80, 0, 0, 0, 80, 0, 0, 0, 1, 0, 64, 0]);
    patch(bytes, at + 0x10, &stream.lowest.to_le_bytes());
    patch(bytes, at + 0x18, &stream.next.wrapping_sub(1).to_le_bytes());
    patch(bytes, at + 0x20, &[64, 0]);
    patch(bytes, at + 0x30, &stream.size.to_le_bytes());
    patch(bytes, at + 0x38, &stream.size.to_le_bytes());
    patch(bytes, at + 64, stream.pairs);
    patch(bytes, at + 80, &[0xFF; 4]);
}

/// $MFT: clusters 4 to 35.
const TABLE: Data<'static> = Data {
    lowest: 0,
    next: 32,
    size: 32_768,
    pairs: &[0x11, 32, 4, 0],
};

/// $Bitmap: cluster 40.
const BITMAP: Data<'static> = Data {
    lowest: 0,
    next: 1,
    size: 8,
    pairs: &[0x11, 1, 40, 0],
};

/// Clusters 42 and 43, a hole of three, and cluster 50.
const HOLED: Data<'static> = Data {
    lowest: 0,
    next: 6,
    size: 6144,
    pairs: &[0x11, 2, 42, 0x01, 3, 0x11, 1, 8, 0],
};

/// Clusters 44 to 47, from VCN 6 on.
const FURTHER: Data<'static> = Data {
    lowest: 6,
    next: 10,
    size: 0,
    pairs: &[0x11, 4, 44, 0],
};

/// The reference of record 16 with its sequence number, 3.
const BASE: u64 = 3 << 48 | 16;

/// A volume of 64 clusters: $MFT with its bitmap, $Bitmap, and a file of two records.
fn small(alloc: Global) -> Result<Vec<u8>, AllocError> {
    let mut bytes = vec![in alloc; 0; 1024 * 64 + 512]?;
    patch(&mut bytes, 3, b"NTFS    \0\x02\x02");
    patch(&mut bytes, 0x28, &[128]);
    patch(&mut bytes, 0x30, &[4]);
    patch(&mut bytes, 0x38, &[4]);
    patch(&mut bytes, 0x40, &[0xF6]);
    patch(&mut bytes, 0x44, &[0xF4]);
    record(&mut bytes, 0, 0, TABLE);
    record(&mut bytes, 6, 0, BITMAP);
    record(&mut bytes, 16, 0, HOLED);
    record(&mut bytes, 17, BASE, FURTHER);
    let marks = record_at(0) + 160;
    patch(
        &mut bytes,
        marks,
        &[0xB0, 0, 0, 0, 32, 0, 0, 0, 0, 0, 24, 0],
    );
    patch(&mut bytes, marks + 0x10, &[4, 0, 0, 0, 24, 0, 0, 0]);
    // The bits of records 0, 6, 16 and 17, and those of all owned clusters.
    patch(&mut bytes, marks + 24, &[0x41, 0, 3, 0]);
    patch(&mut bytes, marks + 32, &[0xFF; 4]);
    patch(
        &mut bytes,
        1024 * 40,
        &[0xF0, 0xFF, 0xFF, 0xFF, 0x0F, 0xFD, 4, 0],
    );
    Ok(bytes)
}

/// The volume with bytes at places changed.
fn changed(alloc: Global, damages: &[(usize, u8)]) -> Result<MemImage, AllocError> {
    let mut bytes = small(alloc)?;
    for (place, byte) in damages {
        patch(&mut bytes, *place, &[*byte]);
    }
    Ok(MemImage::new(alloc, bytes))
}

/// How many clusters are owned, at a type of images that is known by its bound alone.
fn check_in<G: Image>(alloc: Global, image: &mut G) -> Result<u64, CheckFault> {
    match read_table(alloc, image) {
        Err(fault) => match cut_of(fault) {
            None => Err(damaged(Rule::C3, 0)),
            Some(cut) => Err(cut),
        },
        Ok(table) => match check_clusters(alloc, image, &table) {
            Err(fault) => Err(fault),
            Ok(set) => Ok(set.count_below(64)),
        },
    }
}

/// A case: bytes at places, and the rule and the record that the refusal names.
type Case<'a> = (&'a [(usize, u8)], Rule, u64);

#[test]
fn records_and_their_bits(rt: HostRuntime) -> Result<(), Fail> {
    let alloc = rt.alloc();
    let torn_17 = (record_at(17) + 510, 6);
    let bit_17 = (record_at(0) + 160 + 26, 1);
    let name_17 = (record_at(17) + 80 + 9, 1);
    let cases: [Case<'_>; 8] = [
        // The bit of record 17, of record 16 before it, bits of 16 records alone, and no bitmap at all.
        (&[bit_17], Rule::C5, 17),
        (&[(record_at(0) + 160 + 26, 0)], Rule::C5, 16),
        (&[(record_at(0) + 160 + 0x10, 2)], Rule::C5, 16),
        (&[(record_at(0) + 160, 0xC0)], Rule::C5, 0),
        // A name of one unit at 64, where the pairs begin; and rules C4 and C5 before it.
        (&[name_17], Rule::C6, 17),
        (&[name_17, bit_17], Rule::C5, 17),
        (&[(record_at(16) + 80 + 9, 1), torn_17], Rule::C4, 17),
        (&[bit_17, torn_17], Rule::C4, 17),
    ];
    for (damages, rule, number) in cases {
        let mut image = changed(alloc, damages)?;
        let expected = Err(damaged(rule, number));
        assert_eq!(rt; check_in(alloc, &mut image), expected, "{number}");
    }
    Ok(())
}

#[test]
fn clusters_and_their_bits(rt: HostRuntime) -> Result<(), Fail> {
    let alloc = rt.alloc();
    let pairs_16 = (record_at(16) + 144, 0x91);
    let at_43 = (record_at(17) + 146, 43);
    let cases: [Case<'_>; 9] = [
        // Wrong pairs come behind a bit of $MFT's bitmap and a name, and before a cluster with two owners.
        (&[pairs_16], Rule::C7, 16),
        (&[pairs_16, (record_at(0) + 160 + 26, 1)], Rule::C5, 17),
        (&[pairs_16, (record_at(17) + 80 + 9, 1)], Rule::C6, 17),
        (&[(record_at(6) + 144, 0x91), at_43], Rule::C7, 6),
        // Cluster 43 is record 16's too; the bit of cluster 47 isn't owned then, but that comes behind.
        (&[at_43], Rule::C8, 17),
        // The bit of cluster 41, which nobody owns; that of cluster 50, which is owned; and a list in record 6.
        (&[(1024 * 40 + 5, 0xFF)], Rule::C9, 6),
        (&[(1024 * 40 + 6, 0)], Rule::C9, 6),
        (&[(record_at(6) + 56, 0x20)], Rule::C9, 6),
        // A size of 7 bytes, which has no bits of the last 8 clusters.
        (
            &[(record_at(6) + 80 + 0x30, 7), (record_at(6) + 80 + 0x38, 7)],
            Rule::C9,
            6,
        ),
    ];
    for (damages, rule, number) in cases {
        let mut image = changed(alloc, damages)?;
        let expected = Err(damaged(rule, number));
        assert_eq!(rt; check_in(alloc, &mut image), expected, "{number}");
    }
    Ok(())
}

#[test]
fn an_accepted_volume_and_each_call_failing_alone(rt: HostRuntime) -> Result<(), Fail> {
    let alloc = rt.alloc();
    for failing in 1..11u64 {
        let mut image = changed(alloc, &[])?;
        image.inside.calls.fail(alloc, failing, Leaves::Before)?;
        let answer = check_in(alloc, &mut image);
        let expected = if failing > 9 {
            Ok(40)
        } else {
            Err(CheckFault::ReadFault)
        };
        assert_eq!(rt; answer, expected, "call {failing}");
        assert_eq!(rt; image.inside.calls.made, failing.min(9));
    }
    Ok(())
}
