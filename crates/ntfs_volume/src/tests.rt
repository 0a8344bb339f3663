//! Records of a small volume: 64 clusters of 512 bytes, $MFT in two runs, the second record over both.
ghost use Rattle.std.specs.Prelude.{◌≡◌};
ghost use Rattle.ntfs_boot.specs.Geometry.{IsOpened};
ghost use Rattle.ntfs_runs.specs.Clusters.{AreSpellable, AreWithin};

use crate::laws::{
    cells_are_of_members, extents_are_members, extents_are_of_the_base, extents_of_mapped_records,
    gathering_maps, gathering_reads_its_records_alone,
};
use crate::made::patch;
use crate::{Table, Volume, VolumeFault};
use ntfs_base::{Image, Leaves, MemImage, Rule};
use ntfs_boot::{Geometry, read_geometry, read_volume_geometry};
use ntfs_runs::{RunList, decode};
use std::alloc::{AllocError, Global};
use std::process::Abort;
use std::test::Fail;

/// The first half of a record of this number, whose second half may lie elsewhere.
fn record(bytes: &mut [u8], first: usize, second: usize, number: u8) {
    patch(bytes, first, b"FILE\x30\0\x03\0");
    if first > 1 << 20 || second > 1 << 20 {
        return;
    }
    patch(bytes, first + 0x14, &[56, 0, 1, 0, 64, 0, 0, 0, 0, 4]);
    patch(bytes, first + 0x2C, &[number, 0, 0, 0, 5, 0, 1, 0, 2, 0]);
    patch(bytes, first + 56, &[0xFF; 4]);
    patch(bytes, first + 510, &[5, 0]);
    patch(bytes, second + 510, &[5, 0]);
}

/// Clusters 4 to 6 and 12 to 34 are $MFT's: record 1 lies in clusters 6 and 12, record 2 in 13 and 14 with the number
/// 1.
fn volume(alloc: Global) -> Result<Vec<u8>, AllocError> {
    let mut bytes = vec![in alloc; 0; 33_280]?;
    patch(&mut bytes, 3, b"NTFS    \0\x02\x01");
    patch(&mut bytes, 0x28, &[64]);
    patch(&mut bytes, 0x30, &[4]);
    patch(&mut bytes, 0x38, &[40]);
    patch(&mut bytes, 0x40, &[0xF6]);
    patch(&mut bytes, 0x44, &[0xF4]);
    record(&mut bytes, 6 * 512, 12 * 512, 1);
    record(&mut bytes, 13 * 512, 14 * 512, 1);
    record(&mut bytes, 31 * 512, 32 * 512, 11);
    Ok(bytes)
}

/// Reads a record at a type that is known by its bound alone; $MFT has 12 records, 11 of them initialised.
fn read<G: Image>(
    image: &mut G,
    geometry: Geometry,
    runs: RunList,
    number: u64,
    into: &mut [u8],
) -> Option<Result<(), VolumeFault>>
    requires opened { IsOpened (G.seen image.old).size geometry }
    requires spellable { AreSpellable runs }
    requires within { AreWithin runs }
{
    let table = Table::fitting(geometry, runs, 12_288, 11_264)?;
    if into.len() != geometry.record_size as usize {
        return None;
    }
    let mut volume = Volume::new(image, table);
    Some(volume.read_record(number, into))
}

/// The answer for a record, with a read that fails.
fn answer(
    alloc: Global,
    number: u64,
    failing: u64,
    into: &mut [u8],
) -> Result<Result<(), VolumeFault>, Fail> {
    let mut image = MemImage::new(alloc, volume(alloc)?);
    image.inside.calls.fail(alloc, failing, Leaves::Before)?;
    match read_volume_geometry(&mut image) {
        Err(_) => Err("a geometry")?,
        Ok(geometry) => match decode(alloc, &[0x11, 3, 4, 0x11, 23, 8, 0]) {
            Err(_) => Err("runs")?,
            Ok(runs) => Ok(read(&mut image, geometry, runs, number, into).ok_or("a table")?),
        },
    }
}

#[test]
fn records_are_read_or_refused(rt: HostRuntime) -> Result<(), Fail> {
    let alloc = rt.alloc();
    let unsound = VolumeFault::Damaged {
        rule: Rule::C4,
        number: 2,
    };
    let cases = [
        (0, 9, Err(VolumeFault::Absent)),
        (1, 9, Ok(())),
        (1, 2, Err(VolumeFault::ReadFault)),
        (1, 3, Err(VolumeFault::ReadFault)),
        (2, 9, Err(unsound)),
        (11, 9, Err(VolumeFault::Absent)),
        (12, 9, Err(VolumeFault::Absent)),
    ];
    for (number, failing, want) in cases {
        let mut block = [0; 1024];
        assert_eq!(rt;
            answer(alloc, number, failing, &mut block)?,
            want,
            "{number} {failing}"
        );
    }
    Ok(())
}

#[test]
fn a_record_in_two_runs_is_unfixed(rt: HostRuntime) -> Result<(), Fail> {
    let mut block = [0; 1024];
    assert_eq!(rt; answer(rt.alloc(), 1, 9, &mut block)?, Ok(()));
    assert_eq!(rt; block.starts_with(b"FILE"), true);
    assert_eq!(rt;
        (block[510], block[511], block[1022], block[1023]),
        (1, 0, 2, 0)
    );
    Ok(())
}

/// Whether $MFT of this size, in all 2^26 clusters of 65,536 bytes of a volume, makes a table.
fn fits(alloc: Global, size: u64, valid: u64) -> Result<bool, Fail> {
    let mut sector = [0; 512];
    patch(&mut sector, 3, b"NTFS    \0\x02\x80");
    patch(&mut sector, 0x2C, &[2]);
    patch(&mut sector, 0x40, &[0xF6]);
    patch(&mut sector, 0x44, &[0xF4]);
    match read_geometry(&sector) {
        Err(_) => Err("a geometry")?,
        Ok(geometry) => match decode(alloc, &[0x14, 0, 0, 0, 4, 0, 0]) {
            Err(_) => Err("runs")?,
            Ok(runs) => Ok(Table::fitting(geometry, runs, size, valid).is_some()),
        },
    }
}

#[test]
fn a_table_has_12_records_and_fewer_than_2_to_the_32(rt: HostRuntime) -> Result<(), Fail> {
    let cases = [
        (12_287, 0, false),
        (12_288, 12_288, true),
        (12_288, 12_289, false),
        ((1 << 42) - 1, 0, true),
        (1 << 42, 0, false),
    ];
    for (size, valid, want) in cases {
        assert_eq!(rt; fits(rt.alloc(), size, valid)?, want, "{size} {valid}");
    }
    Ok(())
}

/// The laws of gathering are spoken of payloads of any type: cluster numbers, and the bytes of clusters.
#[test]
fn laws_of_gathering_are_called() {
    extents_are_of_the_base::<u64>();
    extents_are_members::<u64>();
    cells_are_of_members::<u64>();
    gathering_reads_its_records_alone::<u64, u64>();
    extents_of_mapped_records::<u64, bool>();
    gathering_maps::<u64, Vec<u8>>();
}
