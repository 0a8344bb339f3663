//! The commands of a clone image of four clusters of 512 bytes and a tail: where each wrong one is refused, and what a
//! restore leaves then, which is what stands before it.
use crate::case::{NO_FAULT, ends, front, run_files, run_with};
use crate::image::{Header, Piece, SMALL, add_piece, image_of, runs_of};
use crate::ways::{reads, refuses, restores};
use ntfs_run::Status;
use std::alloc::Global;
use std::process::Abort;
use std::test::Fail;

/// The cluster of ones, whose command has 513 bytes.
const ONE: Piece = Piece::Cluster(1);

/// The gap of no cluster. A gap's command has 9 bytes.
const NONE: Piece = Piece::Gap(0);

/// So many bytes of each of these.
type Runs<'a> = &'a [(usize, u8)];

/// Commands, and what they restore.
type Good<'a> = (&'a [Piece<'a>], Runs<'a>);

/// Commands of which one is wrong, its place, and what stands before it.
type Bad<'a> = (&'a [Piece<'a>], u64, Runs<'a>);

fn all_restore(rt: &impl Abort, alloc: Global, rows: &[Good<'_>]) -> Result<(), Fail> {
    for (pieces, runs) in rows {
        let image = image_of(alloc, &SMALL, pieces)?;
        restores(rt, alloc, &image, &runs_of(alloc, runs)?)?;
    }
    Ok(())
}

fn all_refuse(rt: &impl Abort, alloc: Global, rows: &[Bad<'_>]) -> Result<(), Fail> {
    for (pieces, place, runs) in rows {
        let image = image_of(alloc, &SMALL, pieces)?;
        refuses(rt, alloc, &image, *place, Some(&runs_of(alloc, runs)?))?;
    }
    Ok(())
}

const WHOLE: [Good; 8] = [
    (&[Piece::Gap(4)], &[(2560, 0)]),
    (&[Piece::Gap(5)], &[(2560, 0)]),
    (&[Piece::Gap(4), Piece::Gap(1)], &[(2560, 0)]),
    (&[ONE, ONE, ONE, ONE], &[(2048, 1), (512, 0)]),
    (&[ONE, ONE, ONE, ONE, ONE], &[(2560, 1)]),
    (&[ONE, Piece::Gap(4)], &[(512, 1), (2048, 0)]),
    (
        &[Piece::Gap(1), ONE, Piece::Gap(2), ONE],
        &[(512, 0), (512, 1), (1024, 0), (512, 1)],
    ),
    (
        &[Piece::Gap(3), Piece::Cluster(0xFF)],
        &[(1536, 0), (512, 0xFF), (512, 0)],
    ),
];

/// The commands cover all clusters, or the tail too.
#[test]
fn commands_cover_all_clusters(rt: HostRuntime) -> Result<(), Fail> {
    all_restore(&rt, rt.alloc(), &WHOLE)
}

const WITH_NONE: [Good; 8] = [
    (&[NONE, Piece::Gap(4)], &[(2560, 0)]),
    (&[Piece::Gap(4), NONE], &[(2560, 0)]),
    (&[NONE, Piece::Gap(5)], &[(2560, 0)]),
    (&[Piece::Gap(4), NONE, ONE], &[(2048, 0), (512, 1)]),
    (&[Piece::Gap(4), NONE, Piece::Gap(1)], &[(2560, 0)]),
    (
        &[NONE, ONE, NONE, Piece::Gap(3), NONE],
        &[(512, 1), (2048, 0)],
    ),
    (
        &[NONE, ONE, NONE, ONE, NONE, ONE, NONE, ONE, NONE, ONE],
        &[(2560, 1)],
    ),
    (
        &[ONE, NONE, ONE, Piece::Gap(1), NONE, Piece::Gap(1), NONE],
        &[(1024, 1), (1536, 0)],
    ),
];

/// A gap of no cluster may stand anywhere, also where all clusters are covered.
#[test]
fn gaps_of_no_cluster_change_nothing(rt: HostRuntime) -> Result<(), Fail> {
    all_restore(&rt, rt.alloc(), &WITH_NONE)
}

const TWO_NONE: [Bad; 10] = [
    (&[NONE, NONE], 65, &[(2560, 0)]),
    (&[NONE, NONE, Piece::Gap(4)], 65, &[(2560, 0)]),
    (&[NONE, NONE, ONE], 65, &[(2560, 0)]),
    (
        &[ONE, NONE, NONE, Piece::Gap(3)],
        578,
        &[(512, 1), (2048, 0)],
    ),
    (
        &[ONE, NONE, ONE, NONE, NONE, ONE, ONE],
        1100,
        &[(1024, 1), (1536, 0)],
    ),
    (&[NONE, Piece::Gap(1), NONE, NONE], 83, &[(2560, 0)]),
    (&[Piece::Gap(4), NONE, NONE], 74, &[(2560, 0)]),
    (&[Piece::Gap(4), NONE, NONE, ONE], 74, &[(2560, 0)]),
    (
        &[ONE, ONE, ONE, ONE, NONE, NONE],
        2117,
        &[(2048, 1), (512, 0)],
    ),
    (&[NONE, NONE, NONE, NONE], 65, &[(2560, 0)]),
];

#[test]
fn two_gaps_of_no_cluster_in_a_row_are_refused(rt: HostRuntime) -> Result<(), Fail> {
    all_refuse(&rt, rt.alloc(), &TWO_NONE)
}

const LONG_GAPS: [Bad; 10] = [
    (&[Piece::Gap(6)], 56, &[(2560, 0)]),
    (&[Piece::Gap(9_223_372_036_854_775_808)], 56, &[(2560, 0)]),
    (&[Piece::Gap(u64::MAX)], 56, &[(2560, 0)]),
    (&[Piece::Gap(3), Piece::Gap(3)], 65, &[(2560, 0)]),
    (&[Piece::Gap(4), Piece::Gap(2)], 65, &[(2560, 0)]),
    (&[ONE, Piece::Gap(5)], 569, &[(512, 1), (2048, 0)]),
    (&[ONE, Piece::Gap(u64::MAX)], 569, &[(512, 1), (2048, 0)]),
    (
        &[ONE, NONE, Piece::Gap(5), ONE],
        578,
        &[(512, 1), (2048, 0)],
    ),
    (
        &[ONE, ONE, ONE, ONE, Piece::Gap(2)],
        2108,
        &[(2048, 1), (512, 0)],
    ),
    (
        &[ONE, ONE, ONE, ONE, Piece::Gap(18_446_744_073_709_551_612)],
        2108,
        &[(2048, 1), (512, 0)],
    ),
];

#[test]
fn gaps_past_the_tail_are_refused(rt: HostRuntime) -> Result<(), Fail> {
    all_refuse(&rt, rt.alloc(), &LONG_GAPS)
}

const EARLY_ENDS: [Bad; 8] = [
    (&[], 56, &[(2560, 0)]),
    (&[NONE], 65, &[(2560, 0)]),
    (&[Piece::Gap(3)], 65, &[(2560, 0)]),
    (&[Piece::Gap(3), NONE], 74, &[(2560, 0)]),
    (
        &[Piece::Gap(1), Piece::Gap(1), Piece::Gap(1)],
        83,
        &[(2560, 0)],
    ),
    (&[ONE, Piece::Gap(2)], 578, &[(512, 1), (2048, 0)]),
    (&[ONE, ONE, ONE], 1595, &[(1536, 1), (1024, 0)]),
    (
        &[ONE, Piece::Gap(1), ONE],
        1091,
        &[(512, 1), (512, 0), (512, 1), (1024, 0)],
    ),
];

#[test]
fn commands_that_end_before_the_last_cluster_are_refused(rt: HostRuntime) -> Result<(), Fail> {
    all_refuse(&rt, rt.alloc(), &EARLY_ENDS)
}

const TOO_MANY: [Bad; 8] = [
    (&[Piece::Gap(5), NONE], 65, &[(2560, 0)]),
    (&[Piece::Gap(5), ONE], 65, &[(2560, 0)]),
    (&[Piece::Gap(5), Piece::Gap(5)], 65, &[(2560, 0)]),
    (&[Piece::Gap(4), Piece::Gap(1), NONE], 74, &[(2560, 0)]),
    (
        &[Piece::Gap(4), ONE, Piece::Raw(b"\0")],
        578,
        &[(2048, 0), (512, 1)],
    ),
    (&[ONE, ONE, ONE, ONE, ONE, ONE], 2621, &[(2560, 1)]),
    (&[ONE, ONE, ONE, ONE, ONE, NONE], 2621, &[(2560, 1)]),
    (
        &[ONE, ONE, ONE, ONE, ONE, Piece::Raw(b"\x09")],
        2621,
        &[(2560, 1)],
    ),
];

/// Nothing may follow the tail. What was restored by then stands.
#[test]
fn commands_behind_the_tail_are_refused(rt: HostRuntime) -> Result<(), Fail> {
    all_refuse(&rt, rt.alloc(), &TOO_MANY)
}

/// Good commands, the place behind them, and what they restore: no cluster is covered, some are, all, and the tail too.
const FRONTS: [Bad; 7] = [
    (&[], 56, &[(2560, 0)]),
    (&[Piece::Gap(2)], 65, &[(2560, 0)]),
    (&[ONE], 569, &[(512, 1), (2048, 0)]),
    (&[ONE, NONE, ONE], 1091, &[(1024, 1), (1536, 0)]),
    (&[ONE, ONE, ONE, ONE], 2108, &[(2048, 1), (512, 0)]),
    (&[ONE, Piece::Gap(3), NONE], 587, &[(512, 1), (2048, 0)]),
    (&[ONE, ONE, ONE, ONE, ONE], 2621, &[(2560, 1)]),
];

/// Each front of an image is refused where this piece stands behind it.
fn all_refuse_behind(rt: &impl Abort, alloc: Global, piece: Piece<'_>) -> Result<(), Fail> {
    for (pieces, place, runs) in FRONTS {
        let mut image = image_of(alloc, &SMALL, pieces)?;
        add_piece(alloc, &mut image, 512, piece)?;
        refuses(rt, alloc, &image, place, Some(&runs_of(alloc, runs)?))?;
    }
    Ok(())
}

#[test]
fn clusters_that_are_cut_off_are_refused(rt: HostRuntime) -> Result<(), Fail> {
    let alloc = rt.alloc();
    for count in [0, 1, 8, 9, 256, 510, 511] {
        all_refuse_behind(&rt, alloc, Piece::Cut(count))?;
    }
    Ok(())
}

/// A gap is cut off behind each byte of its command.
#[test]
fn gaps_that_are_cut_off_are_refused(rt: HostRuntime) -> Result<(), Fail> {
    let alloc = rt.alloc();
    for len in 1..9 {
        let cut = front(b"\0\x01\0\0\0\0\0\0\0", len)?;
        all_refuse_behind(&rt, alloc, Piece::Raw(cut))?;
    }
    Ok(())
}

/// Commands are 0 and 1 alone, whatever follows.
#[test]
fn unknown_commands_are_refused(rt: HostRuntime) -> Result<(), Fail> {
    let alloc = rt.alloc();
    for byte in [2, 3, 0x10, 0x7F, 0x80, 0xFF] {
        let mut raw = Vec::new(alloc);
        raw.push(byte)?;
        all_refuse_behind(&rt, alloc, Piece::Raw(&raw))?;
        raw.resize(513, 0)?;
        all_refuse_behind(&rt, alloc, Piece::Raw(&raw))?;
    }
    Ok(())
}

/// One byte behind the end of a good image, which ends with the clusters or with the tail.
#[test]
fn one_byte_too_many_is_refused(rt: HostRuntime) -> Result<(), Fail> {
    let alloc = rt.alloc();
    for (pieces, runs) in WHOLE {
        let mut image = image_of(alloc, &SMALL, pieces)?;
        let place = image.len() as u64;
        let want = runs_of(alloc, runs)?;
        image.push(0)?;
        refuses(&rt, alloc, &image, place, Some(&want))?;
    }
    Ok(())
}

/// The bytes of a device, and what stands of four clusters and a tail before a wrong command behind them.
const DEVICES: [(u64, Runs); 5] = [
    (2048, &[(2048, 1)]),
    (2049, &[(2048, 1), (1, 9)]),
    (2559, &[(2048, 1), (511, 9)]),
    (2560, &[(2048, 1), (512, 9)]),
    (4000, &[(2048, 1), (512, 9), (1440, 0)]),
];

/// A wrong command leaves the device's length, whatever the tail has.
#[test]
fn the_device_has_its_length_after_a_wrong_command(rt: HostRuntime) -> Result<(), Fail> {
    let alloc = rt.alloc();
    let tail = Piece::Cluster(9);
    let pieces = [ONE, ONE, ONE, ONE, tail, Piece::Raw(b"\x02")];
    for (device, runs) in DEVICES {
        let header = Header { device, ..SMALL };
        let image = image_of(alloc, &header, &pieces)?;
        refuses(&rt, alloc, &image, 2621, Some(&runs_of(alloc, runs)?))?;
    }
    Ok(())
}

/// Of a longer old file nothing stands after a wrong command.
#[test]
fn a_wrong_command_leaves_nothing_of_the_old_file(rt: HostRuntime) -> Result<(), Fail> {
    let alloc = rt.alloc();
    let old = vec![in alloc; 0xAA; 9000]?;
    let image = image_of(alloc, &SMALL, &[ONE, Piece::Gap(1), Piece::Cut(300)])?;
    let words = ["ntfsclone", "-r", "--overwrite", "b"];
    let files = [("b", old.as_slice())];
    let ran = run_with(alloc, &words, &files, &image, NO_FAULT)?;
    let line = "ntfsclone: bad clone image at byte 578\n";
    ends(&rt, &ran, Status::BadClone { place: 578 }, 9, line);
    let want = runs_of(alloc, &[(512, 1), (2048, 0)])?;
    assert!(rt; ran.shelf.content("b") == Some(want.as_slice()));
    let words = ["ntfsclone", "-r", "-O", "b", "c"];
    let ran = run_files(alloc, &words, &[("b", &old), ("c", &image)])?;
    ends(&rt, &ran, Status::BadClone { place: 578 }, 9, line);
    assert!(rt; ran.shelf.content("b") == Some(want.as_slice()));
    Ok(())
}

/// Nine clusters of 65,536 bytes, of which the eighth begins before half a mebibyte and ends behind it.
const LARGE: Header = Header {
    cluster: 65_536,
    device: 655_360,
    clusters: 9,
    in_use: 9,
    offset: 56,
};

/// The clusters and the tail have the bytes 1, 2 and so on.
fn large_image(alloc: Global) -> Result<Vec<u8>, Fail> {
    let mut image = LARGE.spell(alloc, 56)?;
    for byte in 1..11 {
        add_piece(alloc, &mut image, 65_536, Piece::Cluster(byte))?;
    }
    Ok(image)
}

/// So many of those bytes, and then zeros.
fn large_front(alloc: Global, len: usize) -> Result<Vec<u8>, Fail> {
    let mut bytes = Vec::new(alloc);
    for byte in 1..11 {
        bytes.extend_from_slice(&vec![in alloc; byte; 65_536]?)?;
    }
    bytes.resize(len, 0)?;
    bytes.resize(655_360, 0)?;
    Ok(bytes)
}

#[test]
fn large_images_are_restored_whole(rt: HostRuntime) -> Result<(), Fail> {
    let alloc = rt.alloc();
    let image = large_image(alloc)?;
    restores(&rt, alloc, &image, &large_front(alloc, 655_360)?)?;
    let untailed = front(&image, 589_889)?;
    restores(&rt, alloc, untailed, &large_front(alloc, 589_824)?)
}

/// The place of a cluster's command, as a length too, and how many bytes the clusters before it have.
const LARGE_PLACES: [(u64, usize, usize); 4] = [
    (65_593, 65_593, 65_536),
    (458_815, 458_815, 458_752),
    (524_352, 524_352, 524_288),
    (589_889, 589_889, 589_824),
];

/// A large image ends in the midst of a command, and all before that stands.
#[test]
fn large_images_that_are_cut_off_are_refused(rt: HostRuntime) -> Result<(), Fail> {
    let alloc = rt.alloc();
    let image = large_image(alloc)?;
    for (place, len, covered) in LARGE_PLACES {
        let want = large_front(alloc, covered)?;
        for more in [1, 65_536] {
            let cut = front(&image, len.saturating_add(more))?;
            refuses(&rt, alloc, cut, place, Some(&want))?;
        }
    }
    Ok(())
}

/// 30,000 clusters, each of them left out by a gap of its own with a gap of no cluster behind it.
fn many_gaps(alloc: Global) -> Result<Vec<u8>, Fail> {
    let header = Header {
        device: 15_360_512,
        clusters: 30_000,
        ..SMALL
    };
    let mut image = header.spell(alloc, 56)?;
    for _ in 0..30_000 {
        image.extend_from_slice(b"\0\x01\0\0\0\0\0\0\0\0\0\0\0\0\0\0\0\0")?;
    }
    Ok(image)
}

#[test]
fn many_commands_are_taken(rt: HostRuntime) -> Result<(), Fail> {
    let alloc = rt.alloc();
    let mut image = many_gaps(alloc)?;
    reads(&rt, alloc, &image)?;
    add_piece(alloc, &mut image, 512, ONE)?;
    let want = runs_of(alloc, &[(15_360_000, 0), (512, 1)])?;
    restores(&rt, alloc, &image, &want)
}

#[test]
fn the_last_of_many_commands_is_refused(rt: HostRuntime) -> Result<(), Fail> {
    let alloc = rt.alloc();
    let mut image = many_gaps(alloc)?;
    add_piece(alloc, &mut image, 512, NONE)?;
    let blank = runs_of(alloc, &[(15_360_512, 0)])?;
    refuses(&rt, alloc, &image, 540_056, Some(&blank))?;
    refuses(&rt, alloc, front(&image, 540_055)?, 540_047, Some(&blank))
}
