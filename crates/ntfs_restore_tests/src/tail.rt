//! What stands behind all clusters of a restored volume: the tail, cut where the device ends, or else the backup boot
//! sector, made from the first one.
use crate::image::{Header, Piece, SMALL, image_of, patched, runs_of};
use crate::ways::restores;
use std::alloc::Global;
use std::process::Abort;
use std::test::Fail;

/// Behind a cluster of ones stand two left out, and one of twos.
const FRONT: [(usize, u8); 3] = [(512, 1), (1024, 0), (512, 2)];

/// The bytes of a device that has room for four clusters, those of it that the tail has, and the zeros behind them.
const DEVICES: [(u64, usize, usize); 8] = [
    (2048, 0, 0),
    (2049, 1, 0),
    (2060, 12, 0),
    (2559, 511, 0),
    (2560, 512, 0),
    (2561, 512, 1),
    (3000, 512, 440),
    (600_000, 512, 597_440),
];

/// The device cuts the tail, and has zeros behind it.
#[test]
fn a_tail_is_cut_where_the_device_ends(rt: HostRuntime) -> Result<(), Fail> {
    let alloc = rt.alloc();
    let pieces = [
        Piece::Cluster(1),
        Piece::Gap(2),
        Piece::Cluster(2),
        Piece::Cluster(3),
    ];
    for (device, tail, zeros) in DEVICES {
        let header = Header { device, ..SMALL };
        let image = image_of(alloc, &header, &pieces)?;
        let mut want = runs_of(alloc, &FRONT)?;
        want.extend_from_slice(&runs_of(alloc, &[(tail, 3), (zeros, 0)])?)?;
        restores(&rt, alloc, &image, &want)?;
    }
    Ok(())
}

/// A tail that is left out, by a gap or by the end of the image, is zeros.
#[test]
fn a_tail_that_is_left_out_is_zeros(rt: HostRuntime) -> Result<(), Fail> {
    let alloc = rt.alloc();
    let (one, gap, two) = (Piece::Cluster(1), Piece::Gap(2), Piece::Cluster(2));
    let left_out = [one, gap, two];
    let by_a_gap = [one, gap, two, Piece::Gap(1)];
    for (device, tail, zeros) in DEVICES {
        let header = Header { device, ..SMALL };
        let mut want = runs_of(alloc, &FRONT)?;
        want.extend_from_slice(&runs_of(alloc, &[(tail, 0), (zeros, 0)])?)?;
        restores(&rt, alloc, &image_of(alloc, &header, &left_out)?, &want)?;
        restores(&rt, alloc, &image_of(alloc, &header, &by_a_gap)?, &want)?;
    }
    Ok(())
}

/// A volume of four clusters of 4,096 bytes by its boot sector: the bytes of a sector, the sectors of a cluster and all
/// sectors. The device has so many bytes.
#[derive(Clone, Copy)]
struct Boot {
    sector: u16,
    per_cluster: u8,
    sectors: u64,
    device: u64,
}

impl Boot {
    /// Its first cluster, which has bytes 0x77 behind the fields of the boot sector.
    fn cluster(&self, alloc: Global) -> Result<Vec<u8>, Fail> {
        let mut bytes = Vec::from_slice(alloc, b"\xEB\x52\x90NTFS    ")?;
        bytes.extend_from_slice(&self.sector.to_le_bytes())?;
        bytes.push(self.per_cluster)?;
        bytes.resize(0x28, 0)?;
        bytes.extend_from_slice(&self.sectors.to_le_bytes())?;
        bytes.extend_from_slice(b"\x01\0\0\0\0\0\0\0\x02\0\0\0\0\0\0\0")?;
        bytes.extend_from_slice(b"\xF6\0\0\0\xF4\0\0\0")?;
        bytes.resize(4096, 0x77)?;
        Ok(bytes)
    }

    fn header(&self) -> Header {
        Header {
            cluster: 4096,
            device: self.device,
            ..SMALL
        }
    }
}

/// Boot sectors of the header's volume, and where the backup stands. Each is on a device that has room for it.
const BACKED_UP: [(Boot, usize, usize); 8] = [
    (
        Boot {
            sector: 512,
            per_cluster: 8,
            sectors: 32,
            device: 16_896,
        },
        16_384,
        16_896,
    ),
    (
        Boot {
            sector: 512,
            per_cluster: 8,
            sectors: 32,
            device: 50_000,
        },
        16_384,
        50_000,
    ),
    (
        Boot {
            sector: 512,
            per_cluster: 8,
            sectors: 33,
            device: 17_408,
        },
        16_896,
        17_408,
    ),
    (
        Boot {
            sector: 512,
            per_cluster: 8,
            sectors: 39,
            device: 20_480,
        },
        19_968,
        20_480,
    ),
    (
        Boot {
            sector: 1024,
            per_cluster: 4,
            sectors: 16,
            device: 17_408,
        },
        16_384,
        17_408,
    ),
    (
        Boot {
            sector: 1024,
            per_cluster: 4,
            sectors: 19,
            device: 20_481,
        },
        19_456,
        20_481,
    ),
    (
        Boot {
            sector: 2048,
            per_cluster: 2,
            sectors: 8,
            device: 18_432,
        },
        16_384,
        18_432,
    ),
    (
        Boot {
            sector: 4096,
            per_cluster: 1,
            sectors: 4,
            device: 20_480,
        },
        16_384,
        20_480,
    ),
];

/// Where the commands end with the clusters, be it by a gap of none, sector 0 is copied behind all sectors.
#[test]
fn the_backup_boot_sector_is_made(rt: HostRuntime) -> Result<(), Fail> {
    let alloc = rt.alloc();
    for (boot, place, end) in BACKED_UP {
        let cluster = boot.cluster(alloc)?;
        let sector = cluster.get(..boot.sector as usize).ok_or("too short")?;
        let mut want = Vec::from_slice(alloc, &cluster)?;
        want.resize(place, 0)?;
        want.extend_from_slice(sector)?;
        want.resize(end, 0)?;
        let header = boot.header();
        let pieces = [Piece::Raw(b"\x01"), Piece::Raw(&cluster), Piece::Gap(3)];
        let mut image = image_of(alloc, &header, &pieces)?;
        restores(&rt, alloc, &image, &want)?;
        image.extend_from_slice(b"\0\0\0\0\0\0\0\0\0")?;
        restores(&rt, alloc, &image, &want)?;
    }
    Ok(())
}

/// Where the image has a tail, that stands; where the tail is a gap, it is zeros.
#[test]
fn a_tail_stands_in_place_of_the_backup(rt: HostRuntime) -> Result<(), Fail> {
    let alloc = rt.alloc();
    for (boot, _, end) in BACKED_UP {
        let cluster = boot.cluster(alloc)?;
        let header = boot.header();
        let front = [Piece::Raw(b"\x01"), Piece::Raw(&cluster), Piece::Gap(3)];
        let mut image = image_of(alloc, &header, &front)?;
        image.push(1)?;
        image.extend_from_slice(&vec![in alloc; 0xEE; 4096]?)?;
        let mut want = Vec::from_slice(alloc, &cluster)?;
        want.resize(16_384, 0)?;
        want.resize(20_480, 0xEE)?;
        want.resize(end, 0)?;
        restores(&rt, alloc, &image, &want)?;
        let by_a_gap = [Piece::Raw(b"\x01"), Piece::Raw(&cluster), Piece::Gap(4)];
        want.truncate(4096);
        want.resize(end, 0)?;
        restores(&rt, alloc, &image_of(alloc, &header, &by_a_gap)?, &want)?;
    }
    Ok(())
}

/// An image with this first cluster restores it, and zeros behind it.
fn restores_alone(
    rt: &impl Abort,
    alloc: Global,
    header: &Header,
    cluster: &[u8],
) -> Result<(), Fail> {
    let pieces = [Piece::Raw(b"\x01"), Piece::Raw(cluster), Piece::Gap(3)];
    let image = image_of(alloc, header, &pieces)?;
    let mut want = Vec::from_slice(alloc, cluster)?;
    want.resize(header.device as usize, 0)?;
    restores(rt, alloc, &image, &want)
}

/// Boot sectors whose backup has no room on the device, or that tell other clusters than the header, larger or smaller
/// ones, more or fewer.
const OTHERS: [Boot; 9] = [
    Boot {
        sector: 512,
        per_cluster: 8,
        sectors: 32,
        device: 16_895,
    },
    Boot {
        sector: 512,
        per_cluster: 8,
        sectors: 32,
        device: 16_384,
    },
    Boot {
        sector: 512,
        per_cluster: 8,
        sectors: 39,
        device: 20_479,
    },
    Boot {
        sector: 4096,
        per_cluster: 1,
        sectors: 4,
        device: 20_479,
    },
    Boot {
        sector: 512,
        per_cluster: 4,
        sectors: 16,
        device: 20_480,
    },
    Boot {
        sector: 512,
        per_cluster: 16,
        sectors: 64,
        device: 40_960,
    },
    Boot {
        sector: 512,
        per_cluster: 4,
        sectors: 32,
        device: 20_480,
    },
    Boot {
        sector: 512,
        per_cluster: 8,
        sectors: 40,
        device: 40_960,
    },
    Boot {
        sector: 512,
        per_cluster: 8,
        sectors: 24,
        device: 20_480,
    },
];

#[test]
fn no_backup_is_made_of_another_volume(rt: HostRuntime) -> Result<(), Fail> {
    let alloc = rt.alloc();
    for boot in OTHERS {
        restores_alone(&rt, alloc, &boot.header(), &boot.cluster(alloc)?)?;
    }
    Ok(())
}

/// A volume whose backup would be made.
const GOOD: Boot = Boot {
    sector: 512,
    per_cluster: 8,
    sectors: 32,
    device: 16_896,
};

/// A first cluster that tells no volume: another name, or a field that NTFS doesn't have.
#[test]
fn no_backup_is_made_of_what_is_no_boot_sector(rt: HostRuntime) -> Result<(), Fail> {
    let alloc = rt.alloc();
    let cluster = GOOD.cluster(alloc)?;
    for (at, text) in [
        (3, b"n".as_slice()),
        (10, b"\0"),
        (0x0B, b"\0\x01"),
        (0x0D, b"\x07"),
        (0x28, b"\0"),
        (0x30, b"\x04"),
        (0x38, b"\x04"),
        (0x40, b"\xF7"),
        (0x44, b"\xF7"),
    ] {
        let other = patched(alloc, &cluster, at, text)?;
        restores_alone(&rt, alloc, &GOOD.header(), &other)?;
    }
    Ok(())
}

/// A first cluster that was left out has no boot sector.
#[test]
fn no_backup_is_made_of_a_gap(rt: HostRuntime) -> Result<(), Fail> {
    let alloc = rt.alloc();
    let image = image_of(alloc, &GOOD.header(), &[Piece::Gap(4)])?;
    restores(&rt, alloc, &image, &runs_of(alloc, &[(16_896, 0)])?)
}

/// The device may have no room for a boot sector behind the only cluster, and be as short as a sector.
#[test]
fn a_device_of_one_sector_is_restored(rt: HostRuntime) -> Result<(), Fail> {
    let alloc = rt.alloc();
    let header = Header {
        device: 512,
        clusters: 1,
        ..SMALL
    };
    let image = image_of(alloc, &header, &[Piece::Cluster(5)])?;
    restores(&rt, alloc, &image, &runs_of(alloc, &[(512, 5)])?)
}
