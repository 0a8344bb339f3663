//! The header of a clone image: each field cut off, wrong and at its limits. Where it is refused, no file is made.
use crate::case::{ends, run_files};
use crate::image::{Header, Piece, SMALL, image_of, patched, runs_of};
use crate::ways::{reads, refuses, restores};
use ntfs_base::Named;
use ntfs_run::Status;
use std::test::Fail;

/// The first and the last length of an image that ends within a field, and the place of the field. The bytes between
/// the last field and the first command count as one.
const CUT: [(usize, usize, u64); 8] = [
    (0, 15, 0),
    (16, 17, 16),
    (18, 21, 18),
    (22, 29, 22),
    (30, 37, 30),
    (38, 45, 38),
    (46, 49, 46),
    (50, 55, 50),
];

#[test]
fn a_header_that_is_cut_off_is_refused_at_its_field(rt: HostRuntime) -> Result<(), Fail> {
    let alloc = rt.alloc();
    for (first, last, place) in CUT {
        for len in first..=last {
            let image = SMALL.spell(alloc, len)?;
            refuses(&rt, alloc, &image, place, None)?;
        }
    }
    Ok(())
}

/// Each byte of the name and the version is told apart; the place is that of the whole field.
#[test]
fn another_name_or_version_is_refused(rt: HostRuntime) -> Result<(), Fail> {
    let alloc = rt.alloc();
    let image = image_of(alloc, &SMALL, &[Piece::Gap(4)])?;
    for at in 0..16 {
        let other = patched(alloc, &image, at, b"x")?;
        refuses(&rt, alloc, &other, 0, None)?;
    }
    for (at, text) in [
        (16, b"\x0B".as_slice()),
        (16, b"\x09"),
        (16, b"\0"),
        (17, b"\x01"),
        (16, b"\0\x0A"),
    ] {
        let other = patched(alloc, &image, at, text)?;
        refuses(&rt, alloc, &other, 16, None)?;
    }
    Ok(())
}

const BAD_CLUSTERS: [u32; 10] = [
    0,
    1,
    256,
    511,
    513,
    768,
    65_535,
    65_537,
    131_072,
    4_294_967_295,
];

const GOOD_CLUSTERS: [u32; 8] = [512, 1024, 2048, 4096, 8192, 16_384, 32_768, 65_536];

/// A cluster has a power of two from 512 to 65,536 bytes. The device of 262,144 has room for four of the largest.
#[test]
fn the_bytes_of_a_cluster_are_tested(rt: HostRuntime) -> Result<(), Fail> {
    let alloc = rt.alloc();
    let device = 262_144;
    for cluster in BAD_CLUSTERS {
        let header = Header {
            cluster,
            device,
            ..SMALL
        };
        let image = image_of(alloc, &header, &[Piece::Gap(4)])?;
        refuses(&rt, alloc, &image, 18, None)?;
    }
    let want = runs_of(alloc, &[(262_144, 0)])?;
    for cluster in GOOD_CLUSTERS {
        let header = Header {
            cluster,
            device,
            ..SMALL
        };
        let image = image_of(alloc, &header, &[Piece::Gap(4)])?;
        restores(&rt, alloc, &image, &want)?;
    }
    Ok(())
}

/// Devices that don't hold the clusters, or have more than 2^62 bytes.
const BAD_DEVICES: [Header; 10] = [
    Header { device: 0, ..SMALL },
    Header {
        device: 2047,
        ..SMALL
    },
    Header {
        device: 4_611_686_018_427_387_905,
        ..SMALL
    },
    Header {
        device: u64::MAX,
        ..SMALL
    },
    Header {
        cluster: 65_536,
        device: 262_143,
        ..SMALL
    },
    Header {
        clusters: 6,
        ..SMALL
    },
    Header {
        device: 2_199_023_255_039,
        clusters: 4_294_967_295,
        ..SMALL
    },
    Header {
        device: 4_611_686_018_427_387_904,
        clusters: 9_007_199_254_740_993,
        ..SMALL
    },
    Header {
        device: 4_611_686_018_427_387_904,
        clusters: u64::MAX,
        ..SMALL
    },
    Header {
        device: 4_611_686_018_427_387_905,
        clusters: 0,
        offset: 0,
        ..SMALL
    },
];

#[test]
fn a_device_that_does_not_fit_is_refused(rt: HostRuntime) -> Result<(), Fail> {
    let alloc = rt.alloc();
    for header in BAD_DEVICES {
        let mut image = header.spell(alloc, 56)?;
        image.extend_from_slice(b"\0\x04\0\0\0\0\0\0\0")?;
        refuses(&rt, alloc, &image, 22, None)?;
    }
    Ok(())
}

/// Headers with no clusters or with 2^32 and more, on devices that have room for them.
const BAD_COUNTS: [Header; 6] = [
    Header {
        clusters: 0,
        ..SMALL
    },
    Header {
        device: 0,
        clusters: 0,
        ..SMALL
    },
    Header {
        device: 2_199_023_255_552,
        clusters: 4_294_967_296,
        ..SMALL
    },
    Header {
        device: 4_611_686_018_427_387_904,
        clusters: 9_007_199_254_740_992,
        ..SMALL
    },
    Header {
        cluster: 65_536,
        device: 4_611_686_018_427_387_904,
        clusters: 70_368_744_177_664,
        ..SMALL
    },
    Header {
        clusters: 0,
        offset: 0,
        ..SMALL
    },
];

#[test]
fn a_wrong_number_of_clusters_is_refused(rt: HostRuntime) -> Result<(), Fail> {
    let alloc = rt.alloc();
    for header in BAD_COUNTS {
        let image = header.spell(alloc, 56)?;
        refuses(&rt, alloc, &image, 30, None)?;
    }
    Ok(())
}

/// Where the number of clusters is cut off, the device is tested by its limit alone.
#[test]
fn a_device_is_tested_by_the_clusters_that_are_told(rt: HostRuntime) -> Result<(), Fail> {
    let alloc = rt.alloc();
    for (device, len, place) in [
        (0, 30, 30),
        (0, 37, 30),
        (0, 38, 22),
        (2047, 37, 30),
        (4_611_686_018_427_387_904, 37, 30),
        (4_611_686_018_427_387_905, 30, 22),
        (4_611_686_018_427_387_905, 37, 22),
        (0, 29, 22),
    ] {
        let header = Header { device, ..SMALL };
        let image = header.spell(alloc, len)?;
        refuses(&rt, alloc, &image, place, None)?;
    }
    Ok(())
}

/// A place of the first command, how many bytes there are, and the place that is refused.
const BAD_OFFSETS: [(u32, usize, u64); 10] = [
    (0, 56, 46),
    (1, 56, 46),
    (49, 50, 46),
    (49, 65, 46),
    (51, 50, 50),
    (57, 56, 50),
    (4000, 56, 50),
    (4000, 3999, 50),
    (600_000, 599_999, 50),
    (4_294_967_295, 65, 50),
];

#[test]
fn a_wrong_place_of_the_commands_is_refused(rt: HostRuntime) -> Result<(), Fail> {
    let alloc = rt.alloc();
    for (offset, len, place) in BAD_OFFSETS {
        let header = Header { offset, ..SMALL };
        let image = header.spell(alloc, len)?;
        refuses(&rt, alloc, &image, place, None)?;
    }
    Ok(())
}

/// The first field that is wrong is told, whatever stands behind it.
#[test]
fn the_first_wrong_field_is_told(rt: HostRuntime) -> Result<(), Fail> {
    let alloc = rt.alloc();
    let all = Header {
        cluster: 3,
        device: u64::MAX,
        clusters: 0,
        in_use: 9,
        offset: 7,
    };
    let image = all.spell(alloc, 56)?;
    refuses(&rt, alloc, &image, 18, None)?;
    refuses(&rt, alloc, &patched(alloc, &image, 17, b"\x01")?, 16, None)?;
    refuses(&rt, alloc, &patched(alloc, &image, 15, b"\0\x0B")?, 0, None)?;
    let image = patched(alloc, &image, 18, b"\0\x02\0\0")?;
    refuses(&rt, alloc, &image, 22, None)?;
    let image = patched(alloc, &image, 22, b"\0\x02\0\0\0\0\0\0")?;
    refuses(&rt, alloc, &image, 30, None)?;
    let image = patched(alloc, &image, 30, b"\x01")?;
    refuses(&rt, alloc, &image, 46, None)?;
    let image = patched(alloc, &image, 46, b"\x38")?;
    refuses(&rt, alloc, &image, 56, Some(&runs_of(alloc, &[(512, 0)])?))
}

/// Headers at their limits, each with a gap of all clusters. They are only read: some devices are too large.
const LIMITS: [Header; 10] = [
    Header {
        device: 2048,
        ..SMALL
    },
    Header {
        device: 512,
        clusters: 1,
        ..SMALL
    },
    Header {
        clusters: 5,
        ..SMALL
    },
    Header {
        device: 4_611_686_018_427_387_904,
        ..SMALL
    },
    Header {
        device: 2_199_023_255_040,
        clusters: 4_294_967_295,
        ..SMALL
    },
    Header {
        cluster: 65_536,
        device: 281_474_976_645_120,
        clusters: 4_294_967_295,
        ..SMALL
    },
    Header {
        cluster: 65_536,
        device: 4_611_686_018_427_387_904,
        clusters: 4_294_967_295,
        ..SMALL
    },
    Header { in_use: 0, ..SMALL },
    Header {
        in_use: u64::MAX,
        ..SMALL
    },
    Header {
        offset: 50,
        ..SMALL
    },
];

#[test]
fn fields_at_their_limits_are_taken(rt: HostRuntime) -> Result<(), Fail> {
    let alloc = rt.alloc();
    for header in LIMITS {
        let image = image_of(alloc, &header, &[Piece::Gap(header.clusters)])?;
        reads(&rt, alloc, &image)?;
    }
    Ok(())
}

/// The bytes of the device, the clusters, those in use, those of the gap, and the zeros that are restored.
const TOLD: [(u64, u64, u64, u64, usize); 5] = [
    (512, 1, 1, 0, 0),
    (513, 1, 0, 0, 1),
    (2048, 4, u64::MAX, 3, 1536),
    (2560, 5, 5, 4, 2048),
    (300_000, 3, 2, 2, 299_488),
];

/// A first cluster and a gap on devices of these sizes.
#[test]
fn what_a_header_tells_is_restored(rt: HostRuntime) -> Result<(), Fail> {
    let alloc = rt.alloc();
    for (device, clusters, in_use, gap, zeros) in TOLD {
        let header = Header {
            device,
            clusters,
            in_use,
            ..SMALL
        };
        let image = image_of(alloc, &header, &[Piece::Cluster(7), Piece::Gap(gap)])?;
        let want = runs_of(alloc, &[(512, 7), (zeros, 0)])?;
        restores(&rt, alloc, &image, &want)?;
    }
    Ok(())
}

/// A first cluster, a gap, a last cluster and the tail.
const PIECES: [Piece; 4] = [
    Piece::Cluster(1),
    Piece::Gap(2),
    Piece::Cluster(2),
    Piece::Cluster(3),
];

/// Wherever the commands begin, the same is restored, and what stands before them doesn't matter.
#[test]
fn commands_may_begin_anywhere_behind_the_fields(rt: HostRuntime) -> Result<(), Fail> {
    let alloc = rt.alloc();
    let want = runs_of(alloc, &[(512, 1), (1024, 0), (512, 2), (512, 3)])?;
    for offset in [50, 51, 56, 57, 512, 4000, 9000, 600_000] {
        let header = Header { offset, ..SMALL };
        let image = image_of(alloc, &header, &PIECES)?;
        restores(&rt, alloc, &image, &want)?;
    }
    let header = Header {
        offset: 4000,
        ..SMALL
    };
    let image = image_of(alloc, &header, &PIECES)?;
    let filler = vec![in alloc; 1; 3950]?;
    restores(&rt, alloc, &patched(alloc, &image, 50, &filler)?, &want)
}

/// Places count from the image's first byte.
#[test]
fn the_place_of_a_command_counts_from_the_first_byte(rt: HostRuntime) -> Result<(), Fail> {
    let alloc = rt.alloc();
    let blank = runs_of(alloc, &[(2560, 0)])?;
    for (offset, place, next) in [
        (50, 50, 59),
        (4000, 4000, 4009),
        (600_000, 600_000, 600_009),
    ] {
        let header = Header { offset, ..SMALL };
        let image = image_of(alloc, &header, &[])?;
        refuses(&rt, alloc, &image, place, Some(&blank))?;
        let image = image_of(alloc, &header, &[Piece::Gap(3)])?;
        refuses(&rt, alloc, &image, next, Some(&blank))?;
    }
    Ok(())
}

const OVER: [&str; 5] = ["ntfsclone", "-r", "-O", "b", "c"];

const NEW: [&str; 5] = ["ntfsclone", "-r", "-o", "b", "c"];

/// A wrong header is told before the old file is looked at, and the file stays as it was.
#[test]
fn a_wrong_header_leaves_the_old_file(rt: HostRuntime) -> Result<(), Fail> {
    let alloc = rt.alloc();
    let old = b"an old file";
    for (len, place, line) in [
        (0, 0, "ntfsclone: bad clone image at byte 0\n"),
        (37, 30, "ntfsclone: bad clone image at byte 30\n"),
        (55, 50, "ntfsclone: bad clone image at byte 50\n"),
    ] {
        let image = SMALL.spell(alloc, len)?;
        for words in [OVER, NEW] {
            let ran = run_files(alloc, &words, &[("b", old), ("c", &image)])?;
            ends(&rt, &ran, Status::BadClone { place }, 9, line);
            assert!(rt; ran.shelf.content("b") == Some(old.as_slice()));
        }
    }
    Ok(())
}

/// Behind a good header the old file is looked at first, and the commands then.
#[test]
fn a_good_header_comes_before_the_old_file(rt: HostRuntime) -> Result<(), Fail> {
    let alloc = rt.alloc();
    let old = b"an old file";
    let image = SMALL.spell(alloc, 56)?;
    let ran = run_files(alloc, &NEW, &[("b", old), ("c", &image)])?;
    let there = Status::Present {
        file: Named::Output,
    };
    ends(&rt, &ran, there, 2, "ntfsclone: file exists: b\n");
    assert!(rt; ran.shelf.content("b") == Some(old.as_slice()));
    let ran = run_files(alloc, &OVER, &[("b", old), ("c", &image)])?;
    let line = "ntfsclone: bad clone image at byte 56\n";
    ends(&rt, &ran, Status::BadClone { place: 56 }, 9, line);
    let blank = runs_of(alloc, &[(2560, 0)])?;
    assert!(rt; ran.shelf.content("b") == Some(blank.as_slice()));
    Ok(())
}
