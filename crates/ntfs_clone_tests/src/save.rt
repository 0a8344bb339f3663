//! Volumes that are saved as clone images, to a file and to the output, and that are copied raw.
use crate::case::{Ran, ends, front, run_files, run_over_made};
use crate::volume::{
    BACKWARD, LARGE, Layout, ODD, SECTORS, SMALL, SMALL_ODD, USUAL, clone_of, restored_of,
    volume_of, zeros,
};
use ntfs_base::Named;
use ntfs_run::Status;
use std::alloc::Global;
use std::process::Abort;
use std::test::Fail;

pub const SAVE: [&str; 5] = ["ntfsclone", "-s", "-o", "c", "v"];

pub const SAVE_OVER: [&str; 5] = ["ntfsclone", "-s", "-O", "c", "v"];

pub const PUT: [&str; 3] = ["ntfsclone", "-s", "v"];

pub const COPY: [&str; 4] = ["ntfsclone", "-o", "c", "v"];

pub const COPY_OVER: [&str; 4] = ["ntfsclone", "-O", "c", "v"];

/// The header of the usual volume's clone image: the name and version, 4,096 bytes a cluster, 4,194,816 bytes of the
/// device, 1,024 clusters, 119 of them in use, the place of the first command, and six zeros.
const HEADER: [u8; 56] =
    *b"\0ntfsclone-image\x0A\0\0\x10\0\0\0\x02\x40\0\0\0\0\0\0\x04\0\0\0\0\0\0\x77\0\0\0\0\0\0\0\x38\0\0\0\0\0\0\0\0\0";

/// A run is done: it has put this, and leaves this file as `c` beside the volume.
fn is_done(rt: &impl Abort, ran: &Ran, put: &[u8], file: Option<&[u8]>, volume: &[u8]) {
    ends(rt, ran, Status::Done, 0, "");
    assert!(rt; ran.out.is_flushed);
    assert!(rt; ran.out.content.as_slice() == put);
    assert!(rt; ran.shelf.content("c") == file);
    assert!(rt; ran.shelf.content("v") == Some(volume));
}

/// A volume of this layout is saved to a new file.
fn is_saved(rt: &impl Abort, alloc: Global, layout: &Layout) -> Result<(), Fail> {
    let volume = volume_of(alloc, layout)?;
    let clone = clone_of(alloc, layout, &volume)?;
    assert_eq!(rt; clone.len(), layout.clone);
    let ran = run_files(alloc, &SAVE, &[("v", &volume)])?;
    is_done(rt, &ran, b"", Some(&clone), &volume);
    Ok(())
}

/// A volume of this layout is copied to a new file.
fn is_copied(rt: &impl Abort, alloc: Global, layout: &Layout) -> Result<(), Fail> {
    let volume = volume_of(alloc, layout)?;
    let restored = restored_of(alloc, layout, &volume)?;
    let ran = run_files(alloc, &COPY, &[("v", &volume)])?;
    is_done(rt, &ran, b"", Some(&restored), &volume);
    Ok(())
}

#[test]
fn volumes_are_saved(rt: HostRuntime) -> Result<(), Fail> {
    let alloc = rt.alloc();
    for layout in [USUAL, ODD, BACKWARD] {
        is_saved(&rt, alloc, &layout)?;
    }
    Ok(())
}

#[test]
fn volumes_of_small_clusters_are_saved(rt: HostRuntime) -> Result<(), Fail> {
    let alloc = rt.alloc();
    for layout in [SMALL, SMALL_ODD, SECTORS] {
        is_saved(&rt, alloc, &layout)?;
    }
    Ok(())
}

/// The volume stays on the shelf on which it was made.
#[test]
fn a_volume_of_large_clusters_is_saved(rt: HostRuntime) -> Result<(), Fail> {
    let alloc = rt.alloc();
    let ran = run_over_made(alloc, &LARGE.make, &PUT)?;
    ends(&rt, &ran, Status::Done, 0, "");
    assert_eq!(rt; ran.out.content.len(), LARGE.clone);
    let volume = ran.shelf.content("v").ok_or("no volume")?;
    assert!(rt; ran.out.content == clone_of(alloc, &LARGE, volume)?);
    Ok(())
}

#[test]
fn volumes_are_copied(rt: HostRuntime) -> Result<(), Fail> {
    let alloc = rt.alloc();
    for layout in [USUAL, ODD, BACKWARD] {
        is_copied(&rt, alloc, &layout)?;
    }
    Ok(())
}

#[test]
fn volumes_of_small_clusters_are_copied(rt: HostRuntime) -> Result<(), Fail> {
    let alloc = rt.alloc();
    for layout in [SMALL, SMALL_ODD, SECTORS] {
        is_copied(&rt, alloc, &layout)?;
    }
    Ok(())
}

/// How many commands of clusters of 4,096 bytes and of gaps there are behind the header, and how many clusters they
/// cover.
fn count_commands(clone: &[u8]) -> Result<(u64, u64, u64), Fail> {
    let mut rest = clone.get(56..).ok_or("no header")?;
    let (mut clusters, mut gaps, mut covered) = (0u64, 0u64, 0u64);
    for _ in 0..1000 {
        match rest {
            [] => return Ok((clusters, gaps, covered)),
            [0, low, high, 0, 0, 0, 0, 0, 0, behind @ ..] => {
                gaps = gaps.wrapping_add(1);
                let count = u16::from_le_bytes([*low, *high]);
                covered = covered.wrapping_add(u64::from(count));
                rest = behind;
            }
            [1, behind @ ..] => {
                clusters = clusters.wrapping_add(1);
                covered = covered.wrapping_add(1);
                rest = behind.get(4096..).ok_or("cut off")?;
            }
            _ => return Err("no command")?,
        }
    }
    Err("many commands")?
}

#[test]
fn a_clone_image_has_a_header_and_commands(rt: HostRuntime) -> Result<(), Fail> {
    let alloc = rt.alloc();
    let volume = volume_of(alloc, &USUAL)?;
    let ran = run_files(alloc, &SAVE, &[("v", &volume)])?;
    let clone = ran.shelf.content("c").ok_or("no clone")?;
    assert_eq!(rt; clone.len(), 491_966);
    assert!(rt; clone.starts_with(&HEADER));
    assert_eq!(rt; count_commands(clone)?, (120, 30, 1025));
    Ok(())
}

#[test]
fn a_clone_image_goes_to_the_output(rt: HostRuntime) -> Result<(), Fail> {
    let alloc = rt.alloc();
    for layout in [USUAL, ODD, SMALL, SECTORS] {
        let volume = volume_of(alloc, &layout)?;
        let clone = clone_of(alloc, &layout, &volume)?;
        let ran = run_files(alloc, &PUT, &[("v", &volume)])?;
        is_done(&rt, &ran, &clone, None, &volume);
    }
    Ok(())
}

/// Old files that are longer or shorter are gone, and so is an empty one.
#[test]
fn a_clone_image_goes_over_an_old_file(rt: HostRuntime) -> Result<(), Fail> {
    let alloc = rt.alloc();
    let volume = volume_of(alloc, &SMALL)?;
    let clone = clone_of(alloc, &SMALL, &volume)?;
    let old = vec![in alloc; 0xAA; 2_000_000]?;
    for len in [0, 7, 332_426, 2_000_000] {
        let old = front(&old, len)?;
        let ran = run_files(alloc, &SAVE_OVER, &[("v", &volume), ("c", old)])?;
        is_done(&rt, &ran, b"", Some(&clone), &volume);
    }
    let ran = run_files(alloc, &SAVE_OVER, &[("v", &volume)])?;
    is_done(&rt, &ran, b"", Some(&clone), &volume);
    Ok(())
}

#[test]
fn a_copy_goes_over_an_old_file(rt: HostRuntime) -> Result<(), Fail> {
    let alloc = rt.alloc();
    let volume = volume_of(alloc, &SMALL)?;
    let restored = restored_of(alloc, &SMALL, &volume)?;
    let old = vec![in alloc; 0xAA; 2_000_000]?;
    for len in [0, 7, 1_049_088, 2_000_000] {
        let old = front(&old, len)?;
        let ran = run_files(alloc, &COPY_OVER, &[("v", &volume), ("c", old)])?;
        is_done(&rt, &ran, b"", Some(&restored), &volume);
    }
    let ran = run_files(alloc, &COPY_OVER, &[("v", &volume)])?;
    is_done(&rt, &ran, b"", Some(&restored), &volume);
    Ok(())
}

/// The same words again are refused, and the file is as the first ones left it.
fn is_made_once(rt: &impl Abort, alloc: Global, words: &[&str]) -> Result<(), Fail> {
    let volume = volume_of(alloc, &SMALL)?;
    let first = run_files(alloc, words, &[("v", &volume)])?;
    ends(rt, &first, Status::Done, 0, "");
    let made = Vec::from_slice(alloc, first.shelf.content("c").ok_or("no file")?)?;
    let again = run_files(alloc, words, &[("v", &volume), ("c", &made)])?;
    let present = Status::Present {
        file: Named::Output,
    };
    ends(rt, &again, present, 2, "ntfsclone: file exists: c\n");
    assert_eq!(rt; again.out.content.len(), 0);
    assert!(rt; again.shelf.content("c") == Some(made.as_slice()));
    assert!(rt; again.shelf.content("v") == Some(volume.as_slice()));
    Ok(())
}

#[test]
fn a_volume_is_saved_to_a_new_file_once(rt: HostRuntime) -> Result<(), Fail> {
    is_made_once(&rt, rt.alloc(), &SAVE)
}

#[test]
fn a_volume_is_copied_to_a_new_file_once(rt: HostRuntime) -> Result<(), Fail> {
    is_made_once(&rt, rt.alloc(), &COPY)
}

/// An image may end at the last cluster, or anywhere behind it: what isn't there of the tail is zeros, and what is
/// behind the device isn't taken.
#[test]
fn the_tail_ends_with_the_image_or_the_device(rt: HostRuntime) -> Result<(), Fail> {
    let alloc = rt.alloc();
    let mut volume = volume_of(alloc, &SMALL)?;
    volume.resize(1_100_000, 0x77)?;
    for len in [
        1_048_576, 1_048_577, 1_049_087, 1_049_088, 1_049_089, 1_100_000,
    ] {
        let image = front(&volume, len)?;
        let clone = clone_of(alloc, &SMALL, image)?;
        let saved = run_files(alloc, &SAVE, &[("v", image)])?;
        is_done(&rt, &saved, b"", Some(&clone), image);
        let restored = restored_of(alloc, &SMALL, image)?;
        let copied = run_files(alloc, &COPY, &[("v", image)])?;
        is_done(&rt, &copied, b"", Some(&restored), image);
    }
    Ok(())
}

/// The tail of an image whose device ends in a whole cluster more.
#[test]
fn a_longer_tail_ends_with_the_image(rt: HostRuntime) -> Result<(), Fail> {
    let alloc = rt.alloc();
    let volume = volume_of(alloc, &SMALL_ODD)?;
    for len in [1_048_576, 1_049_088, 1_049_599, 1_049_600] {
        let image = front(&volume, len)?;
        let clone = clone_of(alloc, &SMALL_ODD, image)?;
        let saved = run_files(alloc, &SAVE, &[("v", image)])?;
        is_done(&rt, &saved, b"", Some(&clone), image);
        let restored = restored_of(alloc, &SMALL_ODD, image)?;
        let copied = run_files(alloc, &COPY, &[("v", image)])?;
        is_done(&rt, &copied, b"", Some(&restored), image);
    }
    Ok(())
}

/// Words that save the volume to `c`.
const SAVING: [&[&str]; 9] = [
    &["ntfsclone", "v", "-s", "-o", "c"],
    &["ntfsclone", "-so", "c", "v"],
    &["ntfsclone", "-soc", "v"],
    &["ntfsclone", "-f", "-s", "-o", "c", "v"],
    &["ntfsclone", "-sfO", "c", "v"],
    &["ntfsclone", "--save-image", "--output", "c", "v"],
    &["ntfsclone", "--save-image", "--output=c", "v"],
    &[
        "ntfsclone",
        "--force",
        "--save-image",
        "--overwrite",
        "c",
        "v",
    ],
    &["ntfsclone", "-s", "-o", "c", "--", "v"],
];

#[test]
fn words_in_any_order_save(rt: HostRuntime) -> Result<(), Fail> {
    let alloc = rt.alloc();
    let volume = volume_of(alloc, &SECTORS)?;
    let clone = clone_of(alloc, &SECTORS, &volume)?;
    for words in SAVING {
        let ran = run_files(alloc, words, &[("v", &volume)])?;
        is_done(&rt, &ran, b"", Some(&clone), &volume);
    }
    Ok(())
}

/// Words that copy the volume to `c`.
const COPYING: [&[&str]; 5] = [
    &["ntfsclone", "v", "-o", "c"],
    &["ntfsclone", "-oc", "v"],
    &["ntfsclone", "-fo", "c", "v"],
    &["ntfsclone", "--output=c", "v"],
    &["ntfsclone", "--force", "--overwrite", "c", "v"],
];

#[test]
fn words_in_any_order_copy(rt: HostRuntime) -> Result<(), Fail> {
    let alloc = rt.alloc();
    let volume = volume_of(alloc, &SECTORS)?;
    let restored = restored_of(alloc, &SECTORS, &volume)?;
    for words in COPYING {
        let ran = run_files(alloc, words, &[("v", &volume)])?;
        is_done(&rt, &ran, b"", Some(&restored), &volume);
    }
    Ok(())
}

/// A clone image that is only read: nothing is put and no file is made.
#[test]
fn a_clone_image_is_read_and_nothing_is_written(rt: HostRuntime) -> Result<(), Fail> {
    let alloc = rt.alloc();
    let volume = volume_of(alloc, &SMALL)?;
    let clone = clone_of(alloc, &SMALL, &volume)?;
    let words = ["ntfsclone", "-r", "-n", "k"];
    let ran = run_files(alloc, &words, &[("v", &volume), ("k", &clone)])?;
    is_done(&rt, &ran, b"", None, &volume);
    assert!(rt; ran.shelf.content("k") == Some(clone.as_slice()));
    Ok(())
}

#[test]
fn a_wrong_clone_image_is_refused_and_nothing_is_written(rt: HostRuntime) -> Result<(), Fail> {
    let alloc = rt.alloc();
    let volume = volume_of(alloc, &SMALL)?;
    let mut clone = clone_of(alloc, &SMALL, &volume)?;
    clone.push(0)?;
    let ran = run_files(alloc, &["ntfsclone", "-rn", "k"], &[("k", &clone)])?;
    let status = Status::BadClone { place: 332_426 };
    ends(
        &rt,
        &ran,
        status,
        9,
        "ntfsclone: bad clone image at byte 332426\n",
    );
    assert_eq!(rt; ran.out.content.len(), 0);
    assert!(rt; ran.shelf.content("c").is_none());
    assert!(rt; ran.shelf.content("k") == Some(clone.as_slice()));
    Ok(())
}
