//! Made volumes are accepted: that they keep the rules of which no law speaks is shown here alone.
ghost use Rattle.std.specs.Prelude.{◌≡◌, ◌+◌, ◌*◌, [], IfOk, replicate};
ghost use Rattle.ntfs_base.specs.Memory.{seen_of};

use ntfs_base::MemImage;
use ntfs_bitmap::ClusterSet;
use ntfs_check::judge;
use ntfs_make::{is_in_range, make};
use ntfs_rules::CheckFault;
use ntfs_volume::{VolumeFault, read_table};
use std::alloc::{AllocError, Global};
use std::process::Abort;
use std::test::Fail;

fn zeros(alloc: Global, count: usize) -> Result<Vec<u8>, AllocError>
    ensures { IfOk result (λ bytes. bytes.items ≡ replicate count 0) }
{
    vec![in alloc; 0; count]
}

/// An image of zeros for so many clusters of so many bytes, and one more.
fn blank(alloc: Global, clusters: u32, cluster: u32) -> Result<MemImage, AllocError>
    ensures content { IfOk result (λ image. (seen_of [] image.inside).content
        ≡ replicate ((clusters + 1) * cluster) 0) }
    ensures size { IfOk result (λ image. (seen_of [] image.inside).size ≡ (clusters + 1) * cluster) }
{
    let bytes = zeros(alloc, (clusters as usize + 1) * cluster as usize)?;
    Ok(MemImage::new(alloc, bytes))
}

/// A made volume.
fn volume(
    rt: &impl Abort,
    alloc: Global,
    seed: u64,
    clusters: u32,
    cluster: u32,
) -> Result<MemImage, Fail> {
    let mut image = blank(alloc, clusters, cluster)?;
    assert!(rt; is_in_range(clusters, cluster));
    if make(alloc, &mut image, seed, clusters, cluster).is_err() {
        return Err("no volume".into());
    }
    Ok(image)
}

/// The verdict on an image: the owned clusters, or why there are none.
fn judged(
    alloc: Global,
    image: &mut MemImage,
) -> Result<Result<ClusterSet, CheckFault>, VolumeFault> {
    let table = read_table(alloc, image)?;
    Ok(judge(alloc, image, &table))
}

/// The made volumes of the seeds from one up to another are accepted, each with so many owned clusters.
fn are_accepted(
    rt: &impl Abort,
    alloc: Global,
    first: u64,
    end: u64,
    clusters: u32,
    cluster: u32,
    owned: u64,
) -> Result<(), Fail> {
    for seed in first..end {
        let mut image = volume(rt, alloc, seed, clusters, cluster)?;
        let Ok(Ok(set)) = judged(alloc, &mut image) else {
            return Err("not accepted".into());
        };
        assert_eq!(rt; set.count_below(u64::from(clusters)), owned, "{seed}");
    }
    Ok(())
}

/// Clusters of 512 bytes: $Boot 16, $MFT 64 and 64, $MFTMirr 8, $LogFile 128, $Bitmap 1, $UpCase 256, the root's index
/// 8, `sparse.bin`, `half.bin`, `packed.bin` and `listed.bin` 9 together, the sixteen files 40, and the bad one.
fn small_are_accepted(rt: &impl Abort, alloc: Global, first: u64, end: u64) -> Result<(), Fail> {
    are_accepted(rt, alloc, first, end, 2048, 512, 595)
}

/// Clusters of 65,536 bytes: each area of system files has 1, but $UpCase 2; the others as above.
fn large_are_accepted(rt: &impl Abort, alloc: Global, first: u64, end: u64) -> Result<(), Fail> {
    are_accepted(rt, alloc, first, end, 1024, 65536, 59)
}

#[test]
fn volumes_of_small_clusters_and_seeds_0_to_7_are_accepted(rt: HostRuntime) -> Result<(), Fail> {
    small_are_accepted(&rt, rt.alloc(), 0, 8)
}

#[test]
fn volumes_of_small_clusters_and_seeds_8_to_15_are_accepted(rt: HostRuntime) -> Result<(), Fail> {
    small_are_accepted(&rt, rt.alloc(), 8, 16)
}

/// Clusters of 4,096 bytes: $Boot 2, $MFT 8 and 8, $MFTMirr 1, $LogFile 16, $Bitmap 1, $UpCase 32, the root's index 1;
/// the others as above.
#[test]
fn volumes_of_usual_clusters_are_accepted(rt: HostRuntime) -> Result<(), Fail> {
    are_accepted(&rt, rt.alloc(), 0, 16, 1024, 4096, 119)
}

#[test]
fn volumes_of_large_clusters_and_seeds_0_to_3_are_accepted(rt: HostRuntime) -> Result<(), Fail> {
    large_are_accepted(&rt, rt.alloc(), 0, 4)
}

#[test]
fn volumes_of_large_clusters_and_seeds_4_to_7_are_accepted(rt: HostRuntime) -> Result<(), Fail> {
    large_are_accepted(&rt, rt.alloc(), 4, 8)
}

#[test]
fn volumes_of_large_clusters_and_seeds_8_to_11_are_accepted(rt: HostRuntime) -> Result<(), Fail> {
    large_are_accepted(&rt, rt.alloc(), 8, 12)
}

#[test]
fn volumes_of_large_clusters_and_seeds_12_to_15_are_accepted(rt: HostRuntime) -> Result<(), Fail> {
    large_are_accepted(&rt, rt.alloc(), 12, 16)
}
