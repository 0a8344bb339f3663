//! What is found of made volumes, and volumes that are checked.

use crate::laws::reading_keeps_what_stands;
use crate::tests::{patch, volume};
use crate::{CheckFault, Checked, Findings, check, examine};
use ntfs_base::{Calls, Image, Leaves, MemImage, Rule};
use ntfs_bitmap::ClusterSet;
use ntfs_volume::{VolumeFault, open_volume, read_table};
use std::alloc::Global;
use std::process::Abort;
use std::test::Fail;

/// What is found of the volume of an image.
fn found<G: Image>(
    alloc: Global,
    image: &mut G,
) -> Result<Result<Findings, CheckFault>, VolumeFault> {
    let table = read_table(alloc, image)?;
    Ok(examine(alloc, image, &table))
}

/// These two clusters of 1,024 are in the set, and no others.
fn has_two(set: &ClusterSet, one: u64, two: u64) -> bool {
    set.contains(one) && set.contains(two) && set.count_below(1024) == 2
}

/// A made volume of 1,024 clusters of 4,096 bytes: $Boot has clusters 0 and 1, $Bitmap is one cluster, cluster 512 is
/// bad, and 119 are owned.
fn is_found(rt: &impl Abort, alloc: Global, seed: u64, bitmap: u64) -> Result<(), Fail> {
    let mut image = volume(rt, alloc, seed, 1024, 4096)?;
    let Ok(Ok(findings)) = found(alloc, &mut image) else {
        return Err("nothing found".into());
    };
    assert_eq!(rt; findings.owned().count_below(1024), 119);
    assert!(rt; has_two(findings.fixed(), bitmap, 512));
    assert_eq!(rt; findings.boot_end(), 2);
    assert_eq!(rt; findings.bad_count(), 1);
    assert!(rt; !findings.is_dirty());
    Ok(())
}

/// From cluster 0 on, or from the last one down, the parts leave one cluster free between each other: $Boot has 2, the
/// first part of $MFT 8, $MFTMirr 1 and $LogFile 16, and then comes $Bitmap.
#[test]
fn findings_of_made_volumes(rt: HostRuntime) -> Result<(), Fail> {
    let alloc = rt.alloc();
    is_found(&rt, alloc, 0, 31)?;
    is_found(&rt, alloc, 3, 995)
}

/// The flags of $VOLUME_INFORMATION in record 3 and in its copy, and whether the volume is dirty.
#[test]
fn a_volume_is_dirty_by_its_lowest_flag(rt: HostRuntime) -> Result<(), Fail> {
    let alloc = rt.alloc();
    let mut whole = volume(&rt, alloc, 0, 1024, 4096)?;
    let cases = [
        ([0x00, 0x00], false),
        ([0x01, 0x00], true),
        ([0xFE, 0xFF], false),
        ([0x01, 0x80], true),
    ];
    for (flags, dirty) in cases {
        // Records stand from cluster 3 on and their copies in cluster 12; the value begins at 280 of the record.
        patch(
            &mut whole.inside.bytes,
            3 * 4096 + 3 * 1024 + 280 + 0x0A,
            &flags,
        );
        patch(
            &mut whole.inside.bytes,
            12 * 4096 + 3 * 1024 + 280 + 0x0A,
            &flags,
        );
        match found(alloc, &mut whole) {
            Ok(Ok(findings)) => assert_eq!(&rt; findings.is_dirty(), dirty),
            _ => return Err("nothing found".into()),
        }
    }
    Ok(())
}

/// The check of an image, as soon as it is opened.
fn checked<'a, G: Image>(
    alloc: Global,
    image: &'a mut G,
) -> Result<Result<Checked<'a, G>, CheckFault>, VolumeFault> {
    let volume = open_volume(alloc, image)?;
    Ok(check(alloc, volume))
}

#[test]
fn an_opened_volume_is_checked(rt: HostRuntime) -> Result<(), Fail> {
    let alloc = rt.alloc();
    reading_keeps_what_stands::<MemImage, (), CheckFault>();
    let mut image = volume(&rt, alloc, 0, 1024, 4096)?;
    let Ok(Ok(mut whole)) = checked(alloc, &mut image) else {
        return Err("not accepted".into());
    };
    assert_eq!(&rt; whole.owned().count_below(1024), 119);
    assert!(&rt; has_two(whole.fixed(), 31, 512));
    assert_eq!(&rt; whole.boot_end(), 2);
    assert_eq!(&rt; whole.bad_count(), 1);
    assert!(&rt; !whole.dirty());
    assert_eq!(&rt;
        (whole.geometry().clusters, whole.geometry().cluster),
        (1024, 4096)
    );
    assert_eq!(&rt; whole.volume().record_count(), 64);
    Ok(())
}

/// Why the image of a volume that opens is refused, where it is.
fn refusal_of<G: Image>(alloc: Global, image: &mut G) -> Option<CheckFault> {
    let Ok(verdict) = checked(alloc, image) else {
        return None;
    };
    verdict.err()
}

/// Record 1 is torn, which breaks rule C4.
#[test]
fn a_volume_that_breaks_a_rule_is_given_up(rt: HostRuntime) -> Result<(), Fail> {
    let alloc = rt.alloc();
    let mut image = volume(&rt, alloc, 0, 1024, 4096)?;
    patch(&mut image.inside.bytes, 3 * 4096 + 1024 + 510, &[119, 119]);
    let torn = CheckFault::Damaged {
        rule: Rule::C4,
        number: 1,
    };
    assert_eq!(&rt; refusal_of(alloc, &mut image), Some(torn));
    Ok(())
}

/// After so many calls of an examination one more fails, where there is one: it is a read fault, and no call comes
/// after it. Answers whether one failed.
fn fails_after(
    rt: &impl Abort,
    alloc: Global,
    image: &mut MemImage,
    calls: u64,
) -> Result<bool, Fail> {
    image.inside.calls = Calls::new(alloc);
    let Ok(table) = read_table(alloc, image) else {
        return Err("no table".into());
    };
    let last = image.inside.calls.made.wrapping_add(calls);
    let failing = last.wrapping_add(1);
    image.inside.calls.fail(alloc, failing, Leaves::Before)?;
    match examine(alloc, image, &table) {
        Err(fault) => {
            assert_eq!(rt; fault, CheckFault::ReadFault, "{calls}");
            assert_eq!(rt; image.inside.calls.made, failing);
            Ok(true)
        }
        Ok(_) => {
            assert_eq!(rt; image.inside.calls.made, last);
            Ok(false)
        }
    }
}

/// How many calls an examination makes.
fn calls_of(alloc: Global, image: &mut MemImage) -> Result<u64, Fail> {
    let Ok(table) = read_table(alloc, image) else {
        return Err("no table".into());
    };
    let before = image.inside.calls.made;
    match examine(alloc, image, &table) {
        Err(_) => Err("nothing found".into()),
        Ok(_) => Ok(image.inside.calls.made.wrapping_sub(before)),
    }
}

/// Of all calls of an examination each third one from this one on fails alone; then none fails.
fn each_third_fails(rt: &impl Abort, alloc: Global, first: u64) -> Result<(), Fail> {
    let mut image = volume(rt, alloc, 1, 1024, 4096)?;
    let all = calls_of(alloc, &mut image)?;
    for calls in 0..all {
        if calls % 3 == first && !fails_after(rt, alloc, &mut image, calls)? {
            return Err("no call fails".into());
        }
    }
    assert!(rt; !fails_after(rt, alloc, &mut image, all)?);
    Ok(())
}

#[test]
fn calls_of_an_examination_may_fail_alone(rt: HostRuntime) -> Result<(), Fail> {
    each_third_fails(&rt, rt.alloc(), 0)
}

#[test]
fn the_calls_after_these_may_fail_alone(rt: HostRuntime) -> Result<(), Fail> {
    each_third_fails(&rt, rt.alloc(), 1)
}

#[test]
fn the_calls_before_these_may_fail_alone(rt: HostRuntime) -> Result<(), Fail> {
    each_third_fails(&rt, rt.alloc(), 2)
}
