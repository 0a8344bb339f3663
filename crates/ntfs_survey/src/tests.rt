//! Surveys of small volumes: clusters of 1,024 bytes, $MFT from cluster 4 on, each record a cluster.
ghost use Rattle.std.specs.Prelude.{◌<◌, ◌^◌};

use crate::{Owner, survey_volume};
use ntfs_base::{Image, Leaves, MemImage, Rule};
use ntfs_volume::{VolumeFault, open_volume};
use std::alloc::{AllocError, Global};
use std::process::Abort;
use std::test::Fail;

/// Writes a text over the bytes, where it lies in them.
fn patch(bytes: &mut [u8], at: usize, text: &[u8]) {
    if at <= bytes.len() && text.len() <= bytes.len() - at {
        bytes[at..at + text.len()].copy_from_slice(text);
    }
}

/// The place of the record of a number.
fn record_at(number: u16) -> usize
    ensures { result < 2 ^ 27 }
{
    1024 * (usize::from(number) + 4)
}

/// An attribute of 80 bytes that isn't resident: its VCNs, and its pairs, which stand at 64.
#[derive(Clone, Copy)]
struct Runs<'a> {
    lowest: u64,
    next: u64,
    pairs: &'a [u8],
}

/// Puts a record in use at its place, with these attributes behind a resident one of 24 bytes.
fn record(bytes: &mut [u8], number: u16, base: u64, attributes: &[Runs<'_>]) {
    let at = record_at(number);
    patch(bytes, at, b"FILE\x30\0\x03\0");
    patch(
        bytes,
        at + 0x10,
        &[3, 0, 1, 0, 56, 0, 1, 0, 0, 4, 0, 0, 0, 4],
    );
    patch(bytes, at + 0x20, &base.to_le_bytes());
    patch(bytes, at + 0x2C, &number.to_le_bytes());
    patch(bytes, at + 0x30, &[5, 0]);
    patch(bytes, at + 510, &[5, 0]);
    patch(bytes, at + 1022, &[5, 0]);
    patch(bytes, at + 56, &[0x10, 0, 0, 0, 24, 0, 0, 0, 0, 0, 24, 0]);
    patch(bytes, at + 56 + 0x14, &[24, 0]);
    let mut place = at + 80;
    for runs in attributes {
        patch(bytes, place, &[0x80, 0, 0, 0, 80, 0, 0, 0, 1, 0, 64, 0]);
        patch(
            bytes,
            place.saturating_add(0x10),
            &runs.lowest.to_le_bytes(),
        );
        patch(
            bytes,
            place.saturating_add(0x18),
            &runs.next.wrapping_sub(1).to_le_bytes(),
        );
        patch(bytes, place.saturating_add(0x20), &[64, 0]);
        patch(bytes, place.saturating_add(64), runs.pairs);
        place = place.saturating_add(80);
    }
    patch(bytes, place, &[0xFF; 4]);
}

/// A volume of so many clusters, of which the first records of $MFT, so many, are initialised.
fn volume(alloc: Global, clusters: u16, records: u16) -> Result<Vec<u8>, AllocError> {
    let mut bytes = vec![in alloc; 0; 1024 * usize::from(clusters) + 512]?;
    let sectors = 2 * u64::from(clusters);
    patch(&mut bytes, 3, b"NTFS    \0\x02\x02");
    patch(&mut bytes, 0x28, &sectors.to_le_bytes());
    patch(&mut bytes, 0x30, &[4]);
    patch(&mut bytes, 0x38, &[4]);
    patch(&mut bytes, 0x40, &[0xF6]);
    patch(&mut bytes, 0x44, &[0xF4]);
    let count = records.to_le_bytes();
    let table = Runs {
        lowest: 0,
        next: u64::from(records),
        pairs: &[0x12, count[0], count[1], 4, 0],
    };
    record(&mut bytes, 0, 0, &[table]);
    let size = 1024 * u64::from(records);
    patch(&mut bytes, record_at(0) + 80 + 0x30, &size.to_le_bytes());
    patch(&mut bytes, record_at(0) + 80 + 0x38, &size.to_le_bytes());
    Ok(bytes)
}

/// The reference of record 16 with its sequence number, 3.
const BASE: u64 = 3 << 48 | 16;

/// Two clusters from 40 on, a hole of three, and cluster 50.
const HOLED: Runs<'static> = Runs {
    lowest: 0,
    next: 6,
    pairs: &[0x11, 2, 40, 0x01, 3, 0x11, 1, 10, 0],
};

/// Cluster 41, once more.
const AGAIN: Runs<'static> = Runs {
    lowest: 0,
    next: 1,
    pairs: &[0x11, 1, 41, 0],
};

/// Four clusters from 44 on, from VCN 6 on.
const FURTHER: Runs<'static> = Runs {
    lowest: 6,
    next: 10,
    pairs: &[0x11, 4, 44, 0],
};

/// 64 clusters and 32 records. Record 16 has two streams, and its extension record 17 one extent; record 18 has runs and
/// isn't in use.
fn small(alloc: Global) -> Result<Vec<u8>, AllocError> {
    let mut bytes = volume(alloc, 64, 32)?;
    record(&mut bytes, 16, 0, &[HOLED, AGAIN]);
    record(&mut bytes, 17, BASE, &[FURTHER]);
    record(&mut bytes, 18, 0, &[AGAIN]);
    patch(&mut bytes, record_at(18) + 0x16, &[0]);
    Ok(bytes)
}

fn owner(first: u64, length: u64, number: u64, place: u32, vcn: u64) -> Owner {
    Owner {
        first,
        length,
        number,
        place,
        vcn,
    }
}

fn damaged(rule: Rule, number: u64) -> VolumeFault {
    VolumeFault::Damaged { rule, number }
}

/// Surveys a volume at a type that is known by its bound alone, and compares its owners.
fn survey_in<G: Image>(alloc: Global, image: &mut G, want: &[Owner]) -> Result<bool, VolumeFault> {
    let mut volume = open_volume(alloc, image)?;
    match survey_volume(alloc, &mut volume) {
        Err(fault) => Err(fault),
        Ok(survey) => Ok(survey.owners() == want),
    }
}

/// The volume with bytes at places changed.
fn changed(alloc: Global, damages: &[(usize, u8)]) -> Result<MemImage, AllocError> {
    let mut bytes = small(alloc)?;
    for (place, byte) in damages {
        patch(&mut bytes, *place, &[*byte]);
    }
    Ok(MemImage::new(alloc, bytes))
}

#[test]
fn owners_by_record_place_and_vcn(rt: HostRuntime) -> Result<(), Fail> {
    let alloc = rt.alloc();
    let all = [
        owner(4, 32, 0, 80, 0),
        owner(40, 2, 16, 80, 0),
        owner(50, 1, 16, 80, 5),
        owner(41, 1, 16, 160, 0),
        owner(44, 4, 17, 80, 6),
    ];
    let last = [all[0], all[1], all[2], all[3], owner(60, 4, 17, 80, 6)];
    let own_18 = [
        all[0],
        all[1],
        all[2],
        all[3],
        all[4],
        owner(41, 1, 18, 80, 0),
    ];
    let cases: [(&[(usize, u8)], &[Owner]); 5] = [
        (&[], &all),
        // The clusters up to the volume's last one; record 18 in use; 17 records initialised; record 16 not in use.
        (&[(record_at(17) + 146, 60)], &last),
        (&[(record_at(18) + 0x16, 1)], &own_18),
        (&[(record_at(0) + 80 + 0x39, 68)], &all[..4]),
        (&[(record_at(16) + 0x16, 0), (record_at(17), 0)], &all[..1]),
    ];
    for (damages, want) in cases {
        let mut image = changed(alloc, damages)?;
        assert_eq!(rt;
            survey_in(alloc, &mut image, want),
            Ok(true),
            "{}",
            want.len()
        );
        // The boot sector and record 0, and all records at once.
        assert_eq!(rt; image.inside.calls.made, 3);
    }
    Ok(())
}

#[test]
fn the_first_record_that_breaks_a_rule(rt: HostRuntime) -> Result<(), Fail> {
    let alloc = rt.alloc();
    let torn_16 = (record_at(16) + 510, 6);
    let torn_17 = (record_at(17) + 510, 6);
    let pairs_16 = (record_at(16) + 144, 0x91);
    let pairs_17 = (record_at(17) + 144, 0x91);
    let cases: [(&[(usize, u8)], VolumeFault); 14] = [
        // Wrong pairs, the end of pairs left out, and a cluster at the number of clusters.
        (&[pairs_17], damaged(Rule::C7, 17)),
        (&[(record_at(16) + 227, 1)], damaged(Rule::C7, 16)),
        (&[(record_at(17) + 146, 61)], damaged(Rule::C7, 17)),
        // A VCN more and one less than the pairs spell, and another first VCN.
        (&[(record_at(17) + 80 + 0x18, 10)], damaged(Rule::C7, 17)),
        (&[(record_at(17) + 80 + 0x18, 8)], damaged(Rule::C7, 17)),
        (&[(record_at(17) + 80 + 0x10, 5)], damaged(Rule::C7, 17)),
        (&[pairs_16, pairs_17], damaged(Rule::C7, 16)),
        // Rule C4 comes first, whichever record is the first.
        (&[torn_17], damaged(Rule::C4, 17)),
        (&[torn_16, torn_17], damaged(Rule::C4, 16)),
        (&[pairs_16, torn_17], damaged(Rule::C4, 17)),
        (&[torn_16, pairs_17], damaged(Rule::C4, 16)),
        // Another number, an attribute that doesn't fit, and a record that is marked as torn.
        (&[(record_at(16) + 0x2C, 17)], damaged(Rule::C4, 16)),
        (&[(record_at(16) + 84, 81)], damaged(Rule::C4, 16)),
        (
            &[
                pairs_16,
                (record_at(18), b'B'),
                (record_at(18) + 1, b'A'),
                (record_at(18) + 2, b'A'),
                (record_at(18) + 3, b'D'),
            ],
            damaged(Rule::C4, 18),
        ),
    ];
    for (damages, fault) in cases {
        let mut image = changed(alloc, damages)?;
        assert_eq!(rt;
            survey_in(alloc, &mut image, &[]),
            Err(fault),
            "{}",
            damages.len()
        );
    }
    Ok(())
}

/// A volume whose 2,050 records need three reads; the last one owns cluster 2,060.
#[test]
fn many_records_and_each_call_failing_alone(rt: HostRuntime) -> Result<(), Fail> {
    let alloc = rt.alloc();
    let want = [owner(4, 2050, 0, 80, 0), owner(2060, 1, 2049, 80, 0)];
    for failing in 1..7u64 {
        let mut bytes = volume(alloc, 2061, 2050)?;
        let runs = Runs {
            lowest: 0,
            next: 1,
            pairs: &[0x21, 1, 0x0C, 0x08, 0],
        };
        record(&mut bytes, 2049, 0, &[runs]);
        let mut image = MemImage::new(alloc, bytes);
        image.inside.calls.fail(alloc, failing, Leaves::Before)?;
        let answer = survey_in(alloc, &mut image, &want);
        let expected = if failing > 5 {
            Ok(true)
        } else {
            Err(VolumeFault::ReadFault)
        };
        assert_eq!(rt; answer, expected, "call {failing}");
        assert_eq!(rt; image.inside.calls.made, failing.min(5));
    }
    Ok(())
}
