//! Volumes that are accepted, and volumes that break a rule.
ghost use Rattle.std.specs.Prelude.{◌≡◌, ◌+◌, ◌*◌, [], IfOk, replicate};
ghost use Rattle.ntfs_base.specs.Memory.{seen_of};

use crate::damages::clusters::{C7, C8, C9};
use crate::damages::directories::{C13, C14};
use crate::damages::files::{C10, C11, C12};
use crate::damages::fixed::{C15, C16};
use crate::damages::pairs::PAIRS;
use crate::damages::records::{C4, C5, C6};
use crate::damages::{Damage, Patch};
use crate::judge;
use ntfs_base::{Image, Leaves, MemImage};
use ntfs_bitmap::ClusterSet;
use ntfs_make::{is_in_range, make};
use ntfs_rules::CheckFault;
use ntfs_volume::{VolumeFault, read_table};
use std::alloc::{AllocError, Global};
use std::process::Abort;
use std::test::Fail;

fn zeros(alloc: Global, count: usize) -> Result<Vec<u8>, AllocError>
    ensures { IfOk result (λ bytes. bytes.items ≡ replicate count 0) }
{
    vec![in alloc; 0; count]
}

/// An image of zeros for so many clusters of so many bytes.
fn blank(alloc: Global, clusters: u32, cluster: u32) -> Result<MemImage, AllocError>
    ensures content { IfOk result (λ image. (seen_of [] image.inside).content
        ≡ replicate ((clusters + 1) * cluster) 0) }
    ensures size { IfOk result (λ image. (seen_of [] image.inside).size ≡ (clusters + 1) * cluster) }
{
    let bytes = zeros(alloc, (clusters as usize + 1) * cluster as usize)?;
    Ok(MemImage::new(alloc, bytes))
}

/// A made volume.
pub(crate) fn volume(
    rt: &impl Abort,
    alloc: Global,
    seed: u64,
    clusters: u32,
    cluster: u32,
) -> Result<MemImage, Fail> {
    let mut image = blank(alloc, clusters, cluster)?;
    assert!(rt; is_in_range(clusters, cluster));
    if make(alloc, &mut image, seed, clusters, cluster).is_err() {
        return Err("no volume".into());
    }
    Ok(image)
}

/// The verdict on an image: the owned clusters, or why there are none.
fn judged<G: Image>(
    alloc: Global,
    image: &mut G,
) -> Result<Result<ClusterSet, CheckFault>, VolumeFault> {
    let table = read_table(alloc, image)?;
    Ok(judge(alloc, image, &table))
}

/// The image is accepted, with so many owned clusters.
fn is_accepted<G: Image>(
    rt: &impl Abort,
    alloc: Global,
    image: &mut G,
    clusters: u32,
    owned: u64,
) -> Result<(), Fail> {
    match judged(alloc, image) {
        Ok(Ok(set)) => {
            assert_eq!(rt; set.count_below(u64::from(clusters)), owned);
            Ok(())
        }
        _ => Err("not accepted".into()),
    }
}

/// The made volumes of seeds 0 to 15, and of other cluster sizes.
#[test]
fn made_volumes_are_accepted(rt: HostRuntime) -> Result<(), Fail> {
    let alloc = rt.alloc();
    for seed in 0..16u64 {
        let mut image = volume(&rt, alloc, seed, 1024, 1024)?;
        is_accepted(&rt, alloc, &mut image, 1024, 323)?;
    }
    let mut small = volume(&rt, alloc, 5, 2048, 512)?;
    is_accepted(&rt, alloc, &mut small, 2048, 595)?;
    let mut usual = volume(&rt, alloc, 0, 1024, 4096)?;
    is_accepted(&rt, alloc, &mut usual, 1024, 119)
}

/// Writes a text over the bytes, where it lies in them.
pub(crate) fn patch(bytes: &mut [u8], place: usize, text: &[u8]) {
    if place <= bytes.len() && text.len() <= bytes.len() - place {
        bytes[place..place + text.len()].copy_from_slice(text);
    }
}

fn patch_all(bytes: &mut [u8], patches: &[Patch]) {
    for (place, text) in patches {
        patch(bytes, *place, text);
    }
}

/// A damaged volume gets its verdict.
fn is_named(rt: &impl Abort, alloc: Global, whole: &[u8], damage: &Damage) -> Result<(), Fail> {
    let mut bytes = Vec::from_slice(alloc, whole)?;
    patch_all(&mut bytes, damage.patches);
    let mut image = MemImage::new(alloc, bytes);
    let Ok(Err(fault)) = judged(alloc, &mut image) else {
        return Err(damage.name.into());
    };
    let want = CheckFault::Damaged {
        rule: damage.rule,
        number: damage.number,
    };
    assert_eq!(rt; fault, want, "{}", damage.name);
    Ok(())
}

fn all_are_named(rt: &impl Abort, alloc: Global, tables: &[&[Damage]]) -> Result<(), Fail> {
    let whole = volume(rt, alloc, 0, 1024, 4096)?;
    for table in tables {
        for damage in *table {
            is_named(rt, alloc, whole.inside.bytes.as_slice(), damage)?;
        }
    }
    Ok(())
}

#[test]
fn rules_of_records_and_clusters_name_their_record(rt: HostRuntime) -> Result<(), Fail> {
    all_are_named(&rt, rt.alloc(), &[C4, C5, C6, C7, C8, C9])
}

#[test]
fn rules_of_files_and_directories_name_their_record(rt: HostRuntime) -> Result<(), Fail> {
    all_are_named(&rt, rt.alloc(), &[C10, C11, C12, C13, C14])
}

#[test]
fn rules_of_fixed_records_name_their_record(rt: HostRuntime) -> Result<(), Fail> {
    all_are_named(&rt, rt.alloc(), &[C15, C16])
}

#[test]
fn of_two_rules_the_first_is_named(rt: HostRuntime) -> Result<(), Fail> {
    all_are_named(&rt, rt.alloc(), &[PAIRS])
}

/// The opening reads the boot sector and record 0; each of the first sixty further calls fails alone.
#[test]
fn each_read_that_fails_is_a_read_fault(rt: HostRuntime) -> Result<(), Fail> {
    let alloc = rt.alloc();
    let mut image = volume(&rt, alloc, 2, 1024, 1024)?;
    let before = image.inside.calls.made;
    is_accepted(&rt, alloc, &mut image, 1024, 323)?;
    let calls = image.inside.calls.made.wrapping_sub(before);
    assert!(rt; calls > 20);
    for failing in 4..calls.min(64) {
        let bytes = Vec::from_slice(alloc, image.inside.bytes.as_slice())?;
        let mut other = MemImage::new(alloc, bytes);
        other.inside.calls.fail(alloc, failing, Leaves::Before)?;
        match judged(alloc, &mut other) {
            Ok(Err(fault)) => assert_eq!(rt; fault, CheckFault::ReadFault),
            Err(fault) => assert_eq!(rt; fault, VolumeFault::ReadFault),
            Ok(Ok(_)) => return Err("accepted".into()),
        }
    }
    Ok(())
}
