//! Clone images: each field of the header wrong, cut off and at its limits, each command likewise, and what is
//! restored. The images are spelled here from the format in words.
ghost use Rattle.std.specs.Prelude.{◌≡◌, [], IfOk};
ghost use Rattle.ntfs_base.specs.MemShelf.{seen_mem_file};

use crate::{CloneFault, CloneHeader, read_header, restore};
use ntfs_base::{Leaves, MemContent, MemFile, MemShelf, MemSource, Shelf, ShelfFault};
use std::alloc::{AllocError, Global};
use std::test::Fail;

/// Writes a text over the bytes, where it lies in them.
pub(crate) fn patch(bytes: &mut [u8], at: usize, text: &[u8]) {
    if at <= bytes.len() && text.len() <= bytes.len() - at {
        bytes[at..at + text.len()].copy_from_slice(text);
    }
}

/// A header of four clusters of 512 bytes on a device of five, whose commands begin at 56.
const HEADER: [u8; 56] =
    *b"\0ntfsclone-image\x0A\0\0\x02\0\0\0\x0A\0\0\0\0\0\0\x04\0\0\0\0\0\0\0\x02\0\0\0\0\0\0\0\x38\0\0\0\0\0\0\0\0\0";

/// A header with a text at a place, of which so many bytes are there, zeros behind its 56 bytes.
fn header(alloc: Global, len: usize, at: usize, text: &[u8]) -> Result<Vec<u8>, AllocError> {
    let mut front = HEADER;
    patch(&mut front, at, text);
    let mut bytes = Vec::from_slice(alloc, &front)?;
    bytes.resize(len, 0)?;
    Ok(bytes)
}

#[test]
fn each_field_is_refused_by_its_place(rt: HostRuntime) -> Result<(), Fail> {
    let alloc = rt.alloc();
    // How many bytes there are, a place and what stands there, and the place that is refused.
    for (len, at, text, place) in [
        (0, 0, b"".as_slice(), 0),
        (15, 0, b"", 0),
        (56, 1, b"N", 0),
        (56, 15, b"\0", 0),
        (16, 0, b"", 16),
        (17, 0, b"", 16),
        (56, 16, b"\x0B", 16),
        (56, 17, b"\x01", 16),
        (18, 0, b"", 18),
        (21, 0, b"", 18),
        (56, 18, b"\0\0", 18),
        (56, 18, b"\0\x01", 18),
        (56, 18, b"\x01\x02", 18),
        (56, 18, b"\0\0\x02", 18),
        (22, 0, b"", 22),
        (29, 0, b"", 22),
    ] {
        let mut source = MemSource::new(alloc, header(alloc, len, at, text)?);
        assert_eq!(rt;
            read_header(&mut source),
            Err(CloneFault::BadClone { place })
        );
    }
    for (len, at, text, place) in [
        (56, 22, b"\xFF\x07".as_slice(), 22),
        (56, 22, b"\x01\0\0\0\0\0\0\x40", 22),
        (56, 30, b"\x06", 22),
        (56, 22, b"\0\0\0\0\0\0\0\x40\0\0\0\0\x01", 30),
        (30, 22, b"\0", 30),
        (37, 22, b"\0", 30),
        (38, 22, b"\0\x02", 22),
        (56, 30, b"\0", 30),
        (38, 0, b"", 38),
        (45, 0, b"", 38),
        (46, 0, b"", 46),
        (49, 0, b"", 46),
        (56, 46, b"\x31", 46),
        (55, 0, b"", 50),
        (56, 46, b"\x39", 50),
        (3999, 46, b"\xA0\x0F", 50),
    ] {
        let mut source = MemSource::new(alloc, header(alloc, len, at, text)?);
        assert_eq!(rt;
            read_header(&mut source),
            Err(CloneFault::BadClone { place })
        );
    }
    Ok(())
}

const GOOD: CloneHeader = CloneHeader {
    cluster: 512,
    device: 2560,
    clusters: 4,
    in_use: 2,
    offset: 56,
};

#[test]
fn fields_at_their_limits_are_taken(rt: HostRuntime) -> Result<(), Fail> {
    let alloc = rt.alloc();
    for (len, at, text, want) in [
        (56, 0, b"".as_slice(), GOOD),
        (
            56,
            22,
            b"\0\x08",
            CloneHeader {
                device: 2048,
                ..GOOD
            },
        ),
        (
            56,
            38,
            b"\xFF\xFF",
            CloneHeader {
                in_use: 65_535,
                ..GOOD
            },
        ),
        (50, 46, b"\x32", CloneHeader { offset: 50, ..GOOD }),
        (
            4000,
            46,
            b"\xA0\x0F",
            CloneHeader {
                offset: 4000,
                ..GOOD
            },
        ),
        (
            9000,
            46,
            b"\x28\x23",
            CloneHeader {
                offset: 9000,
                ..GOOD
            },
        ),
        (
            56,
            18,
            b"\0\0\x01\0\0\0\0\0\0\0\0\x40\xFF\xFF\xFF\xFF",
            CloneHeader {
                cluster: 65_536,
                device: 1 << 62,
                clusters: 0xFFFF_FFFF,
                ..GOOD
            },
        ),
    ] {
        let mut source = MemSource::new(alloc, header(alloc, len, at, text)?);
        assert_eq!(rt; read_header(&mut source), Ok(want));
        assert_eq!(rt; source.given, want.offset as usize);
    }
    Ok(())
}

/// A piece of a clone image behind its header.
#[derive(Clone, Copy)]
enum Piece<'a> {
    Gap(u64),
    /// A cluster of one byte.
    Cluster(u8),
    /// So many bytes of the front of a cluster's command.
    Cut(usize),
    Raw(&'a [u8]),
}

/// A good header, with the device's length, and these pieces behind it.
fn image(alloc: Global, device: u64, pieces: &[Piece<'_>]) -> Result<Vec<u8>, AllocError> {
    let mut bytes = header(alloc, 56, 22, &device.to_le_bytes())?;
    for piece in pieces {
        match piece {
            Piece::Gap(count) => {
                bytes.push(0)?;
                bytes.extend_from_slice(&count.to_le_bytes())?;
            }
            Piece::Cluster(byte) => {
                bytes.push(1)?;
                bytes.extend_from_slice(&[*byte; 512])?;
            }
            Piece::Cut(count) => {
                let mut front = [0x11; 513];
                front[0] = 1;
                bytes.extend_from_slice(front.get(..*count).unwrap_or(&front))?;
            }
            Piece::Raw(raw) => bytes.extend_from_slice(raw)?,
        }
    }
    Ok(bytes)
}

/// Reads an image to its end.
fn read(alloc: Global, bytes: Vec<u8>) -> Result<(), CloneFault> {
    let mut source = MemSource::new(alloc, bytes);
    let header = read_header(&mut source)?;
    restore(alloc, &header, &mut source, None::<&mut MemFile>)
}

#[test]
fn commands_cover_all_clusters_or_the_tail_too(rt: HostRuntime) -> Result<(), Fail> {
    let alloc = rt.alloc();
    let c = Piece::Cluster(0x11);
    for pieces in [
        [Piece::Gap(4)].as_slice(),
        &[Piece::Gap(5)],
        &[c, c, c, c],
        &[c, c, c, c, c],
        &[c, Piece::Gap(2), c, Piece::Gap(1)],
        &[Piece::Gap(0), Piece::Gap(4)],
        &[Piece::Gap(4), Piece::Gap(0)],
        &[Piece::Gap(4), Piece::Gap(0), c],
        &[Piece::Gap(0), c, Piece::Gap(0), Piece::Gap(3)],
    ] {
        assert_eq!(rt; read(alloc, image(alloc, 2560, pieces)?), Ok(()));
    }
    Ok(())
}

#[test]
fn each_command_is_refused_by_its_place(rt: HostRuntime) -> Result<(), Fail> {
    let alloc = rt.alloc();
    let c = Piece::Cluster(0x11);
    for (pieces, place) in [
        ([].as_slice(), 56),
        (&[Piece::Gap(3)], 65),
        (&[Piece::Gap(6)], 56),
        (&[Piece::Gap(u64::MAX)], 56),
        (&[Piece::Gap(3), Piece::Gap(3)], 65),
        (&[c, c, c], 56 + 3 * 513),
        (&[c, c, c, c, c, Piece::Raw(b"\0")], 56 + 5 * 513),
        (&[Piece::Gap(5), Piece::Gap(0)], 65),
        (&[Piece::Gap(5), Piece::Raw(b"\x07")], 65),
    ] {
        assert_eq!(rt;
            read(alloc, image(alloc, 2560, pieces)?),
            Err(CloneFault::BadClone { place })
        );
    }
    for (pieces, place) in [
        ([Piece::Gap(0), Piece::Gap(0), Piece::Gap(4)].as_slice(), 65),
        (&[Piece::Gap(4), Piece::Gap(0), Piece::Gap(0)], 74),
        (&[Piece::Gap(4), Piece::Gap(0), Piece::Gap(2)], 74),
        (&[Piece::Raw(b"\x02")], 56),
        (&[Piece::Raw(b"\0")], 56),
        (&[Piece::Raw(b"\0\x04\0\0\0\0\0\0")], 56),
        (&[Piece::Cut(1)], 56),
        (&[Piece::Gap(2), Piece::Cut(512)], 65),
        (&[Piece::Gap(4), Piece::Cut(512)], 65),
    ] {
        assert_eq!(rt;
            read(alloc, image(alloc, 2560, pieces)?),
            Err(CloneFault::BadClone { place })
        );
    }
    Ok(())
}

/// An empty file of which the call of this number is to fail, where it isn't 0.
pub(crate) fn empty_file(alloc: Global, call: u64, leaves: Leaves) -> Result<MemFile, AllocError>
    ensures { IfOk result (λ file. (seen_mem_file file).size ≡ 0) }
{
    let mut inside = MemContent::new(alloc, Vec::new(alloc));
    inside.calls.fail(alloc, call, leaves)?;
    Ok(MemFile {
        name: String::from_str(alloc, "f")?,
        inside,
    })
}

/// Restores an image to an empty file.
pub(crate) fn restore_into(
    alloc: Global,
    bytes: Vec<u8>,
    target: &mut MemFile,
) -> Result<(), CloneFault>
    requires { (seen_mem_file target.old).size ≡ 0 }
{
    let mut source = MemSource::new(alloc, bytes);
    let header = read_header(&mut source)?;
    restore(alloc, &header, &mut source, Some(target))
}

/// Whether the bytes are so many of each of these, in their order.
pub(crate) fn has_runs(bytes: &[u8], runs: &[(usize, u8)]) -> bool {
    let mut left = bytes;
    for (count, byte) in runs {
        match left.split_at_checked(*count) {
            Some((front, rest)) if front.iter().all(|x| x == byte) => left = rest,
            _ => return false,
        }
    }
    left.len() == 0
}

#[test]
fn gaps_are_zeros_and_the_tail_is_cut(rt: HostRuntime) -> Result<(), Fail> {
    let alloc = rt.alloc();
    let (a, b, t) = (Piece::Cluster(1), Piece::Cluster(2), Piece::Cluster(3));
    let clusters = [(512, 1), (1024, 0), (512, 2)];
    for (device, pieces, last) in [
        (2048, [a, Piece::Gap(2), b].as_slice(), [(0, 0), (0, 0)]),
        (2048, &[a, Piece::Gap(2), b, t], [(0, 0), (0, 0)]),
        (2060, &[a, Piece::Gap(2), b, t], [(12, 3), (0, 0)]),
        (2560, &[a, Piece::Gap(2), b, t], [(512, 3), (0, 0)]),
        (3000, &[a, Piece::Gap(2), b, t], [(512, 3), (440, 0)]),
        (
            3000,
            &[a, Piece::Gap(2), b, Piece::Gap(1)],
            [(0, 3), (952, 0)],
        ),
    ] {
        let mut target = empty_file(alloc, 0, Leaves::Before)?;
        assert_eq!(rt;
            restore_into(alloc, image(alloc, device, pieces)?, &mut target),
            Ok(())
        );
        let [one, two, three] = clusters;
        let [four, five] = last;
        assert!(rt; has_runs(&target.inside.bytes, &[one, two, three, four, five]));
    }
    Ok(())
}

/// So many bytes of 0xAA.
fn filled(alloc: Global, count: usize) -> Result<Vec<u8>, AllocError> {
    vec![in alloc; 0xAA; count]
}

/// The file of a shelf under a name, made anew.
fn made_anew<S: Shelf>(shelf: &mut S, name: &str) -> Result<S::File, ShelfFault>
    requires { (S.seen shelf.old).attached ≡ [] }
    ensures { IfOk result (λ file. (S.File.seen file).size ≡ 0) }
{
    shelf.create(name, false)
}

#[test]
fn a_longer_file_keeps_nothing(rt: HostRuntime) -> Result<(), Fail> {
    let alloc = rt.alloc();
    let mut shelf = MemShelf::new(alloc);
    shelf.add(alloc, "B", filled(alloc, 9000)?)?;
    let mut target = made_anew(&mut shelf, "B")
        .ok()
        .ok_or("the file wasn't made")?;
    let pieces = [Piece::Gap(1), Piece::Cluster(1), Piece::Gap(2)];
    assert_eq!(rt;
        restore_into(alloc, image(alloc, 2560, &pieces)?, &mut target),
        Ok(())
    );
    assert!(rt; has_runs(&target.inside.bytes, &[(512, 0), (512, 1), (1536, 0)]));
    Ok(())
}

#[test]
fn the_commands_before_a_wrong_one_stand(rt: HostRuntime) -> Result<(), Fail> {
    let alloc = rt.alloc();
    let a = Piece::Cluster(1);
    for (pieces, place, rows) in [
        (
            [a, Piece::Gap(2), Piece::Cut(512)].as_slice(),
            56 + 522,
            [(512, 1), (2048, 0)],
        ),
        (
            &[a, a, Piece::Raw(b"\x02")],
            56 + 1026,
            [(1024, 1), (1536, 0)],
        ),
        (
            &[a, a, a, a, Piece::Gap(2)],
            56 + 2052,
            [(2048, 1), (512, 0)],
        ),
        (&[Piece::Gap(6)], 56, [(0, 1), (2560, 0)]),
    ] {
        let mut target = empty_file(alloc, 0, Leaves::Before)?;
        let fault = Err(CloneFault::BadClone { place });
        assert_eq!(rt;
            restore_into(alloc, image(alloc, 2560, pieces)?, &mut target),
            fault
        );
        assert!(rt; has_runs(&target.inside.bytes, &rows));
    }
    Ok(())
}

#[test]
fn a_failed_call_leaves_a_front(rt: HostRuntime) -> Result<(), Fail> {
    let alloc = rt.alloc();
    let pieces = [
        Piece::Cluster(1),
        Piece::Gap(2),
        Piece::Cluster(2),
        Piece::Cluster(3),
    ];
    // The length, the first row and the last one are written by a call each.
    for (call, leaves, rows) in [
        (1, Leaves::Before, [(0, 0), (0, 0), (0, 0), (0, 0)]),
        (1, Leaves::Asked, [(2560, 0), (0, 0), (0, 0), (0, 0)]),
        (2, Leaves::Before, [(2560, 0), (0, 0), (0, 0), (0, 0)]),
        (2, Leaves::Asked, [(512, 1), (2048, 0), (0, 0), (0, 0)]),
        (3, Leaves::Before, [(512, 1), (2048, 0), (0, 0), (0, 0)]),
        (3, Leaves::Asked, [(512, 1), (1024, 0), (512, 2), (512, 3)]),
    ] {
        let mut target = empty_file(alloc, call, leaves)?;
        let result = restore_into(alloc, image(alloc, 2560, &pieces)?, &mut target);
        assert_eq!(rt; result, Err(CloneFault::WriteFault));
        assert!(rt; has_runs(&target.inside.bytes, &rows));
        assert_eq!(rt; target.inside.calls.made, call);
    }
    let mut target = empty_file(alloc, 0, Leaves::Before)?;
    assert_eq!(rt;
        restore_into(alloc, image(alloc, 2560, &pieces)?, &mut target),
        Ok(())
    );
    assert_eq!(rt; target.inside.calls.made, 3);
    Ok(())
}

/// The clone of a volume of clusters of 4,096 bytes, of which the first begins with a boot sector that has so many
/// sectors, and so many of them in a cluster; the others are left out, and the tail is 0xEE where it is there.
fn volume(
    alloc: Global,
    device: u64,
    boot: (u8, u8),
    has_tail: bool,
) -> Result<Vec<u8>, AllocError> {
    let mut cluster = [0; 4096];
    patch(&mut cluster, 0, b"\xEB\x52\x90NTFS    ");
    patch(&mut cluster, 0x0B, &[0, 2, boot.1]);
    patch(&mut cluster, 0x28, &[boot.0]);
    patch(&mut cluster, 0x30, &[1]);
    patch(&mut cluster, 0x38, &[2]);
    patch(&mut cluster, 0x40, &[0xF6, 0, 0, 0, 0xF4]);
    let mut bytes = header(alloc, 56, 18, &[0, 0x10, 0, 0])?;
    patch(&mut bytes, 22, &device.to_le_bytes());
    bytes.push(1)?;
    bytes.extend_from_slice(&cluster)?;
    bytes.extend_from_slice(&[0, 3, 0, 0, 0, 0, 0, 0, 0])?;
    if has_tail {
        bytes.push(1)?;
        bytes.extend_from_slice(&[0xEE; 4096])?;
    }
    Ok(bytes)
}

#[test]
fn the_backup_boot_sector_is_made_where_it_was_left_out(rt: HostRuntime) -> Result<(), Fail> {
    let alloc = rt.alloc();
    // The device, the sectors and those of a cluster, whether the tail is there, and the first bytes of the sector
    // behind all sectors.
    for (device, boot, has_tail, place, want) in [
        (
            16_896,
            (32, 8),
            false,
            16_384,
            b"\xEB\x52\x90NTFS".as_slice(),
        ),
        (16_896, (32, 8), true, 16_384, &[0xEE; 7]),
        (16_895, (32, 8), false, 16_384, &[0; 7]),
        (17_408, (33, 8), false, 16_896, b"\xEB\x52\x90NTFS"),
        (17_408, (33, 8), false, 16_384, &[0; 7]),
        (17_408, (32, 4), false, 16_384, &[0; 7]),
        (20_992, (40, 8), false, 20_480, &[0; 7]),
    ] {
        let mut target = empty_file(alloc, 0, Leaves::Before)?;
        let bytes = volume(alloc, device, boot, has_tail)?;
        assert_eq!(rt; restore_into(alloc, bytes, &mut target), Ok(()));
        assert_eq!(rt; target.inside.bytes.len() as u64, device);
        assert_eq!(rt; target.inside.bytes.get(place..place + 7), Some(want));
    }
    Ok(())
}

#[test]
fn a_failed_read_is_told(rt: HostRuntime) -> Result<(), Fail> {
    let alloc = rt.alloc();
    // The header's first part, its rest, the commands and the end are read by a call each.
    for call in [1, 2, 3, 4] {
        let mut source = MemSource::new(alloc, image(alloc, 2560, &[Piece::Gap(4)])?);
        source.calls.fail(alloc, call, Leaves::Before)?;
        let result = match read_header(&mut source) {
            Ok(header) => restore(alloc, &header, &mut source, None::<&mut MemFile>),
            Err(fault) => Err(fault),
        };
        assert_eq!(rt; result, Err(CloneFault::ReadFault));
        assert_eq!(rt; source.faults, 1);
    }
    // The first sector is read back by two calls, and then the copy is written.
    for (call, fault) in [
        (3, CloneFault::ReadFault),
        (4, CloneFault::ReadFault),
        (5, CloneFault::WriteFault),
    ] {
        let mut target = empty_file(alloc, call, Leaves::Before)?;
        let bytes = volume(alloc, 16_896, (32, 8), false)?;
        assert_eq!(rt; restore_into(alloc, bytes, &mut target), Err(fault));
        assert_eq!(rt;
            target.inside.bytes.get(16_384..16_388),
            Some(b"\0\0\0\0".as_slice())
        );
    }
    Ok(())
}
