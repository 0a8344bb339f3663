//! Made volumes are opened. The numbers are worked out by hand from the order and the lengths of the areas.
ghost use Rattle.std.specs.Prelude.{◌≡◌, ◌<◌, ◌+◌, ◌*◌, [], IfOk, replicate};
ghost use Rattle.ntfs_base.specs.Memory.{seen_of};

use ntfs_base::MemImage;
use ntfs_boot::Geometry;
use ntfs_make::{is_in_range, make};
use ntfs_runs::Run;
use ntfs_volume::{Table, read_table};
use std::alloc::{AllocError, Global};
use std::process::Abort;
use std::test::Fail;

// Where the areas of $MFT and of its mirror begin.
#[derive(Clone, Copy)]
struct Places {
    first: u64,
    second: u64,
    mirror: u64,
}

// Volumes of one size: the sectors of an even and of an odd seed, the clusters of each area of $MFT, and the places
// where the areas follow one another and where they stand below the end.
#[derive(Clone, Copy)]
struct Size {
    clusters: u32,
    cluster: u32,
    sectors: [u64; 2],
    length: u64,
    places: [Places; 2],
}

const SMALL: Size = Size {
    clusters: 2048,
    cluster: 512,
    sectors: [2048, 2048],
    length: 64,
    places: [
        Places {
            first: 17,
            second: 488,
            mirror: 82,
        },
        Places {
            first: 1984,
            second: 1513,
            mirror: 1975,
        },
    ],
};

const USUAL: Size = Size {
    clusters: 1024,
    cluster: 4096,
    sectors: [8192, 8199],
    length: 8,
    places: [
        Places {
            first: 3,
            second: 68,
            mirror: 12,
        },
        Places {
            first: 1016,
            second: 951,
            mirror: 1014,
        },
    ],
};

const LARGE: Size = Size {
    clusters: 1024,
    cluster: 65_536,
    sectors: [131_072, 131_199],
    length: 1,
    places: [
        Places {
            first: 2,
            second: 15,
            mirror: 4,
        },
        Places {
            first: 1023,
            second: 1010,
            mirror: 1021,
        },
    ],
};

fn zeros(alloc: Global, count: usize) -> Result<Vec<u8>, AllocError>
    ensures { IfOk result (λ bytes. bytes.items ≡ replicate count 0) }
{
    vec![in alloc; 0; count]
}

// An image of zeros for so many clusters of so many bytes.
fn blank(alloc: Global, clusters: u32, cluster: u32) -> Result<MemImage, AllocError>
    ensures content { IfOk result (λ image. (seen_of [] image.inside).content
        ≡ replicate ((clusters + 1) * cluster) 0) }
    ensures size { IfOk result (λ image. (seen_of [] image.inside).size ≡ (clusters + 1) * cluster) }
{
    let bytes = zeros(alloc, (clusters as usize + 1) * cluster as usize)?;
    Ok(MemImage::new(alloc, bytes))
}

// A made volume.
fn volume(rt: &impl Abort, alloc: Global, seed: u64, size: &Size) -> Result<MemImage, Fail> {
    let mut image = blank(alloc, size.clusters, size.cluster)?;
    assert!(rt; is_in_range(size.clusters, size.cluster));
    if make(alloc, &mut image, seed, size.clusters, size.cluster).is_err() {
        return Err("no volume".into());
    }
    Ok(image)
}

// The geometry and the map are those that are wanted.
fn is_opened(rt: &impl Abort, table: &Table, seed: u64, sectors: u64, size: &Size, at: Places) {
    let geometry = Geometry {
        sector: 512,
        cluster: size.cluster,
        record_size: 1024,
        block: 4096,
        sectors,
        clusters: u64::from(size.clusters),
        mft: at.first,
        mirror: at.mirror,
        serial: seed,
    };
    let runs = [at.first, at.second].map(|lcn| Run {
        length: size.length,
        lcn: Some(lcn),
    });
    assert_eq!(rt; *table.geometry(), geometry);
    assert_eq!(rt; table.runs(), runs.as_slice());
    assert_eq!(rt; (table.record_count(), table.initialised_count()), (64, 64));
}

// The volume of a seed from 0 to 3 opens.
fn opens(rt: &impl Abort, alloc: Global, seed: u64, size: &Size) -> Result<(), Fail>
    requires { seed < 4 }
{
    let mut image = volume(rt, alloc, seed, size)?;
    let Ok(table) = read_table(alloc, &mut image) else {
        return Err("not opened".into());
    };
    let sectors = size.sectors[(seed % 2) as usize];
    is_opened(
        rt,
        &table,
        seed,
        sectors,
        size,
        size.places[(seed / 2) as usize],
    );
    Ok(())
}

#[test]
fn made_volumes_open(rt: HostRuntime) -> Result<(), Fail> {
    for size in [SMALL, USUAL] {
        for seed in 0..4 {
            opens(&rt, rt.alloc(), seed, &size)?;
        }
    }
    opens(&rt, rt.alloc(), 0, &LARGE)?;
    opens(&rt, rt.alloc(), 3, &LARGE)
}
