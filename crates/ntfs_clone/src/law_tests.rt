//! Made volumes that are saved and restored, and copied raw: what comes back is the same volume.
ghost use Rattle.std.specs.Prelude.{◌≡◌, ◌+◌, ◌*◌, [], IfOk, replicate};
ghost use Rattle.ntfs_base.specs.Memory.{seen_of};

use crate::tests::{empty_file, restore_into};
use crate::{copy_raw, save};
use ntfs_base::{Image, Leaves, MemFile, MemImage, MemSink};
use ntfs_bitmap::ClusterSet;
use ntfs_check::{check, judge};
use ntfs_make::{is_in_range, make};
use ntfs_survey::{Survey, survey};
use ntfs_volume::{open_volume, read_table};
use std::alloc::{AllocError, Global};
use std::process::Abort;
use std::test::Fail;

fn zeros(alloc: Global, count: usize) -> Result<Vec<u8>, AllocError>
    ensures { IfOk result (λ bytes. bytes.items ≡ replicate count 0) }
{
    vec![in alloc; 0; count]
}

/// An image of zeros for so many clusters of so many bytes.
fn blank(alloc: Global, clusters: u32, cluster: u32) -> Result<MemImage, AllocError>
    ensures content { IfOk result (λ image. (seen_of [] image.inside).content
        ≡ replicate ((clusters + 1) * cluster) 0) }
    ensures size { IfOk result (λ image. (seen_of [] image.inside).size ≡ (clusters + 1) * cluster) }
{
    let bytes = zeros(alloc, (clusters as usize + 1) * cluster as usize)?;
    Ok(MemImage::new(alloc, bytes))
}

/// A made volume.
fn volume(
    rt: &impl Abort,
    alloc: Global,
    seed: u64,
    clusters: u32,
    cluster: u32,
) -> Result<MemImage, Fail> {
    let mut image = blank(alloc, clusters, cluster)?;
    assert!(rt; is_in_range(clusters, cluster));
    if make(alloc, &mut image, seed, clusters, cluster).is_err() {
        return Err("no volume".into());
    }
    Ok(image)
}

/// The clusters of an accepted image that records own, and whose they are.
fn owned<G: Image>(alloc: Global, image: &mut G) -> Result<(ClusterSet, Survey), Fail> {
    let Ok(table) = read_table(alloc, image) else {
        return Err("not opened".into());
    };
    let Ok(set) = judge(alloc, image, &table) else {
        return Err("not accepted".into());
    };
    match survey(alloc, image, &table) {
        Ok(owners) => Ok((set, owners)),
        Err(_) => Err("not surveyed".into()),
    }
}

/// The clone image of an accepted image, and its raw copy.
fn saved(alloc: Global, image: &mut MemImage) -> Result<(MemSink, MemFile), Fail> {
    let Ok(volume) = open_volume(alloc, image) else {
        return Err("not opened".into());
    };
    let Ok(mut checked) = check(alloc, volume) else {
        return Err("not accepted".into());
    };
    let mut sink = MemSink::new(alloc);
    if save(alloc, &mut checked, &mut sink).is_err() {
        return Err("not saved".into());
    }
    let mut file = empty_file(alloc, 0, Leaves::Before)?;
    match copy_raw(alloc, &mut checked, &mut file) {
        Ok(()) => Ok((sink, file)),
        Err(_) => Err("not copied".into()),
    }
}

/// What a clone image restores.
fn restored(alloc: Global, clone: &MemSink) -> Result<MemFile, Fail> {
    let bytes = Vec::from_slice(alloc, &clone.content)?;
    let mut file = empty_file(alloc, 0, Leaves::Before)?;
    match restore_into(alloc, bytes, &mut file) {
        Ok(()) => Ok(file),
        Err(_) => Err("not restored".into()),
    }
}

/// The bytes of the cluster of a number.
fn bytes_of(image: &[u8], number: u32, cluster: u32) -> &[u8] {
    let place = number as usize * cluster as usize;
    image.get(place..place + cluster as usize).unwrap_or(&[])
}

/// The clusters that are owned have the image's bytes, and the others are zeros.
fn has_clusters(
    rt: &impl Abort,
    image: &[u8],
    back: &[u8],
    set: &ClusterSet,
    clusters: u32,
    cluster: u32,
) {
    for number in 0..clusters {
        let bytes = bytes_of(back, number, cluster);
        if set.contains(u64::from(number)) {
            assert!(rt; bytes == bytes_of(image, number, cluster));
        } else {
            assert!(rt; bytes.iter().all(|byte| *byte == 0));
        }
    }
}

/// The file that was restored from an image has its owners.
fn has_owners(
    rt: &impl Abort,
    alloc: Global,
    image: &mut MemImage,
    back: &mut MemFile,
    clusters: u32,
    cluster: u32,
) -> Result<(), Fail> {
    let (set, owners) = owned(alloc, image)?;
    let (set_back, owners_back) = owned(alloc, back)?;
    assert_eq!(rt; owners_back.owners(), owners.owners());
    for number in 0..u64::from(clusters) {
        assert_eq!(rt; set_back.contains(number), set.contains(number));
    }
    has_clusters(
        rt,
        &image.inside.bytes,
        &back.inside.bytes,
        &set,
        clusters,
        cluster,
    );
    Ok(())
}

/// A made volume comes back, on a device of so many bytes.
fn comes_back(
    rt: &impl Abort,
    alloc: Global,
    seed: u64,
    clusters: u32,
    cluster: u32,
    device: usize,
) -> Result<(), Fail> {
    let mut image = volume(rt, alloc, seed, clusters, cluster)?;
    let (clone, copy) = saved(alloc, &mut image)?;
    let mut back = restored(alloc, &clone)?;
    assert_eq!(rt; back.inside.bytes.len(), device);
    assert!(rt; copy.inside.bytes == back.inside.bytes);
    has_owners(rt, alloc, &mut image, &mut back, clusters, cluster)?;
    let end = clusters as usize * cluster as usize;
    let tail = image.inside.bytes.get(end..device);
    assert!(rt; back.inside.bytes.get(end..) == tail);
    Ok(())
}

/// Even seeds from 0 to 14: behind all clusters stands the backup boot sector.
#[test]
fn made_volumes_come_back(rt: HostRuntime) -> Result<(), Fail> {
    for half in 0..8u64 {
        comes_back(&rt, rt.alloc(), 2 * half, 1024, 1024, 1_049_088)?;
    }
    Ok(())
}

/// Odd seeds from 1 to 15: before the backup boot sector stands a sector that fills no cluster.
#[test]
fn made_volumes_with_an_odd_sector_come_back(rt: HostRuntime) -> Result<(), Fail> {
    for half in 0..8u64 {
        comes_back(&rt, rt.alloc(), 2 * half + 1, 1024, 1024, 1_049_600)?;
    }
    Ok(())
}

#[test]
fn made_volumes_of_other_cluster_sizes_come_back(rt: HostRuntime) -> Result<(), Fail> {
    comes_back(&rt, rt.alloc(), 5, 2048, 512, 1_049_088)?;
    comes_back(&rt, rt.alloc(), 0, 1024, 4096, 4_194_816)
}

/// Fills bytes by a simple generator, from a state on.
fn fill(bytes: &mut [u8], from: u32) -> u32 {
    let mut state = from;
    for byte in bytes.iter_mut() {
        state = state.wrapping_mul(1_664_525).wrapping_add(1_013_904_223);
        *byte = (state >> 24) as u8;
    }
    state
}

/// Fills the clusters that nobody owns.
fn fill_free(bytes: &mut [u8], set: &ClusterSet, clusters: u32, cluster: u32) {
    let mut state = 1;
    for number in 0..clusters {
        let place = number as usize * cluster as usize;
        let end = place + cluster as usize;
        if !set.contains(u64::from(number)) && end <= bytes.len() {
            state = fill(&mut bytes[place..end], state);
        }
    }
}

#[test]
fn what_nobody_owns_does_not_matter(rt: HostRuntime) -> Result<(), Fail> {
    let alloc = rt.alloc();
    for (seed, clusters, cluster) in [(3, 1024, 1024), (0, 1024, 4096)] {
        let mut image = volume(&rt, alloc, seed, clusters, cluster)?;
        let (set, _) = owned(alloc, &mut image)?;
        let mut bytes = Vec::from_slice(alloc, &image.inside.bytes)?;
        fill_free(&mut bytes, &set, clusters, cluster);
        assert!(rt; bytes != image.inside.bytes);
        let mut filled = MemImage::new(alloc, bytes);
        let (want, _) = saved(alloc, &mut image)?;
        let (clone, _) = saved(alloc, &mut filled)?;
        assert!(rt; clone.content == want.content);
        let file = restored(alloc, &want)?;
        let back = restored(alloc, &clone)?;
        assert!(rt; back.inside.bytes == file.inside.bytes);
    }
    Ok(())
}
