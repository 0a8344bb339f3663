//! Volumes that come back from their clone images.
use crate::case::{File, NO_FAULT, ends, front, run_files, run_with};
use crate::image::{patched, runs_of};
use crate::layout::{DOWNWARD_PAGES, LARGE, ODD_PAGES, PAGES, RECORDS, SECTORS, Volume};
use crate::ways::{refuses, restores};
use ntfs_base::Named;
use ntfs_run::Status;
use std::alloc::Global;
use std::process::Abort;
use std::test::Fail;

const OVER: [&str; 5] = ["ntfsclone", "-r", "-O", "b", "c"];

const NEW: [&str; 5] = ["ntfsclone", "-r", "-o", "b", "c"];

const FROM_INPUT: [&str; 4] = ["ntfsclone", "-r", "-o", "b"];

const COPY: [&str; 4] = ["ntfsclone", "-o", "b", "v"];

const SAVE: [&str; 3] = ["ntfsclone", "-s", "v"];

/// Where the backup boot sector of the first volume stands.
const BACKUP: usize = 4_194_304;

/// A command line does its work over these files, and `b` has these bytes then.
fn makes(
    rt: &impl Abort,
    alloc: Global,
    words: &[&str],
    files: &[File],
    want: &[u8],
) -> Result<(), Fail> {
    let ran = run_files(alloc, words, files)?;
    ends(rt, &ran, Status::Done, 0, "");
    assert_eq!(rt; ran.out.content.len(), 0);
    assert!(rt; ran.shelf.content("b") == Some(want));
    Ok(())
}

/// A command line does its work over these files, and puts these bytes.
fn puts(
    rt: &impl Abort,
    alloc: Global,
    words: &[&str],
    files: &[File],
    want: &[u8],
) -> Result<(), Fail> {
    let ran = run_files(alloc, words, files)?;
    ends(rt, &ran, Status::Done, 0, "");
    assert!(rt; ran.out.content.as_slice() == want);
    Ok(())
}

/// Of 9,000,000 bytes of an old file none stands; what nobody owned is zeros.
#[test]
fn a_longer_old_file_is_overwritten(rt: HostRuntime) -> Result<(), Fail> {
    let alloc = rt.alloc();
    let file = PAGES.file(alloc)?;
    let clone = PAGES.clone_image(alloc, &file)?;
    assert_eq!(rt; clone.len(), 491_966);
    let want = PAGES.restored(alloc, &file)?;
    assert_eq!(rt; want.len(), 4_194_816);
    let old = vec![in alloc; 0xAA; 9_000_000]?;
    makes(&rt, alloc, &OVER, &[("b", &old), ("c", &clone)], &want)
}

#[test]
fn a_shorter_old_file_is_overwritten(rt: HostRuntime) -> Result<(), Fail> {
    let alloc = rt.alloc();
    let file = PAGES.file(alloc)?;
    let clone = PAGES.clone_image(alloc, &file)?;
    let want = PAGES.restored(alloc, &file)?;
    for len in [0, 1, 5000, 4_194_815] {
        let old = vec![in alloc; 0xAA; len]?;
        makes(&rt, alloc, &OVER, &[("b", &old), ("c", &clone)], &want)?;
    }
    makes(&rt, alloc, &OVER, &[("c", &clone)], &want)
}

/// The command lines that make `b` where it isn't there.
const MAKE_NEW: [&[&str]; 4] = [
    &NEW,
    &FROM_INPUT,
    &COPY,
    &["ntfsclone", "-s", "-o", "b", "v"],
];

/// A command line that would make `b` leaves it as it is, and the other files too.
fn keeps<'a>(
    rt: &impl Abort,
    alloc: Global,
    words: &[&str],
    old: &'a [u8],
    clone: &'a [u8],
    file: &'a [u8],
) -> Result<(), Fail> {
    let files = [("b", old), ("c", clone), ("v", file)];
    let ran = run_with(alloc, words, &files, clone, NO_FAULT)?;
    let there = Status::Present {
        file: Named::Output,
    };
    ends(rt, &ran, there, 2, "ntfsclone: file exists: b\n");
    assert!(rt; ran.shelf.content("b") == Some(old));
    assert!(rt; ran.shelf.content("c") == Some(clone));
    assert!(rt; ran.shelf.content("v") == Some(file));
    Ok(())
}

/// An old file isn't overwritten unasked.
#[test]
fn an_old_file_stays_unless_it_may_be_overwritten(rt: HostRuntime) -> Result<(), Fail> {
    let alloc = rt.alloc();
    let file = PAGES.file(alloc)?;
    let clone = PAGES.clone_image(alloc, &file)?;
    for words in MAKE_NEW {
        keeps(&rt, alloc, words, b"an old file", &clone, &file)?;
    }
    Ok(())
}

/// The image is cut off: within its first command, behind it, and before the tail. Then it ends with all clusters, and
/// the backup boot sector is made from sector 0. One byte too many leaves the whole volume.
#[test]
fn a_cut_clone_image_restores_its_front(rt: HostRuntime) -> Result<(), Fail> {
    let alloc = rt.alloc();
    let file = PAGES.file(alloc)?;
    let mut clone = PAGES.clone_image(alloc, &file)?;
    let want = PAGES.restored(alloc, &file)?;
    let blank = runs_of(alloc, &[(4_194_816, 0)])?;
    refuses(&rt, alloc, front(&clone, 1000)?, 56, Some(&blank))?;
    let mut first = Vec::from_slice(alloc, front(&file, 4096)?)?;
    first.resize(4_194_816, 0)?;
    refuses(&rt, alloc, front(&clone, 4153)?, 4153, Some(&first))?;
    restores(&rt, alloc, front(&clone, 487_869)?, &want)?;
    restores(&rt, alloc, &clone, &want)?;
    clone.push(0)?;
    refuses(&rt, alloc, &clone, 491_966, Some(&want))
}

/// The backup boot sector is the tail's where the image has one, and a copy of sector 0 where it has none.
#[test]
fn the_backup_boot_sector_is_what_the_tail_says(rt: HostRuntime) -> Result<(), Fail> {
    let alloc = rt.alloc();
    for (volume, backup) in [(PAGES, BACKUP), (ODD_PAGES, 4_197_888)] {
        let file = volume.file(alloc)?;
        let copied = volume.restored(alloc, &file)?;
        let other = patched(alloc, &file, backup, b"no boot sector")?;
        let want = volume.restored(alloc, &other)?;
        restores(&rt, alloc, &volume.clone_image(alloc, &other)?, &want)?;
        restores(&rt, alloc, &volume.untailed(alloc, &other)?, &copied)?;
    }
    Ok(())
}

/// A clone image with all its clusters but without its tail, of which one byte is wrong then, leaves no backup.
#[test]
fn a_wrong_clone_image_has_no_backup_made(rt: HostRuntime) -> Result<(), Fail> {
    let alloc = rt.alloc();
    let file = PAGES.file(alloc)?;
    let mut clone = PAGES.untailed(alloc, &file)?;
    let mut want = PAGES.restored(alloc, &file)?;
    want.truncate(BACKUP);
    want.resize(4_194_816, 0)?;
    clone.push(1)?;
    refuses(&rt, alloc, &clone, 487_869, Some(&want))
}

/// A volume's clone image restores it, from a file and from the input; a raw copy is the same, and the clone image of
/// what was restored is the same again.
fn comes_back(rt: &impl Abort, alloc: Global, volume: &Volume) -> Result<(), Fail> {
    let file = volume.file(alloc)?;
    let clone = volume.clone_image(alloc, &file)?;
    let want = volume.restored(alloc, &file)?;
    makes(rt, alloc, &NEW, &[("c", &clone)], &want)?;
    let ran = run_with(alloc, &FROM_INPUT, &[], &clone, NO_FAULT)?;
    ends(rt, &ran, Status::Done, 0, "");
    assert_eq!(rt; ran.input.given, clone.len());
    assert!(rt; ran.shelf.content("b") == Some(want.as_slice()));
    makes(rt, alloc, &COPY, &[("v", &file)], &want)?;
    puts(rt, alloc, &SAVE, &[("v", &want)], &clone)
}

#[test]
fn a_volume_of_pages_comes_back(rt: HostRuntime) -> Result<(), Fail> {
    comes_back(&rt, rt.alloc(), &PAGES)
}

#[test]
fn an_odd_volume_of_pages_comes_back(rt: HostRuntime) -> Result<(), Fail> {
    comes_back(&rt, rt.alloc(), &ODD_PAGES)
}

#[test]
fn a_downward_volume_of_pages_comes_back(rt: HostRuntime) -> Result<(), Fail> {
    comes_back(&rt, rt.alloc(), &DOWNWARD_PAGES)
}

const SECTORS_AT: [Volume; 3] = [
    SECTORS,
    Volume {
        make: ["ntfsmake", "v", "1", "2048", "512"],
        ..SECTORS
    },
    Volume {
        make: ["ntfsmake", "v", "2", "2048", "512"],
        is_downward: true,
        ..SECTORS
    },
];

#[test]
fn volumes_of_sectors_come_back(rt: HostRuntime) -> Result<(), Fail> {
    let alloc = rt.alloc();
    for volume in SECTORS_AT {
        comes_back(&rt, alloc, &volume)?;
    }
    Ok(())
}

const RECORDS_AT: [Volume; 3] = [
    RECORDS,
    Volume {
        make: ["ntfsmake", "v", "1", "1024", "1024"],
        device: 1_049_600,
        ..RECORDS
    },
    Volume {
        make: ["ntfsmake", "v", "2", "1024", "1024"],
        is_downward: true,
        ..RECORDS
    },
];

#[test]
fn volumes_of_records_come_back(rt: HostRuntime) -> Result<(), Fail> {
    let alloc = rt.alloc();
    for volume in RECORDS_AT {
        comes_back(&rt, alloc, &volume)?;
    }
    Ok(())
}

/// A large volume's clone image restores it, and is that of what was restored.
fn large_comes_back(rt: &impl Abort, alloc: Global, volume: &Volume) -> Result<(), Fail> {
    let file = volume.file(alloc)?;
    let clone = volume.clone_image(alloc, &file)?;
    let want = volume.restored(alloc, &file)?;
    makes(rt, alloc, &NEW, &[("c", &clone)], &want)?;
    puts(rt, alloc, &SAVE, &[("v", &want)], &clone)
}

#[test]
fn a_large_volume_comes_back(rt: HostRuntime) -> Result<(), Fail> {
    large_comes_back(&rt, rt.alloc(), &LARGE)
}

const ODD_LARGE: Volume = Volume {
    make: ["ntfsmake", "v", "1", "1024", "65536"],
    device: 67_174_400,
    ..LARGE
};

#[test]
fn a_large_odd_volume_comes_back(rt: HostRuntime) -> Result<(), Fail> {
    large_comes_back(&rt, rt.alloc(), &ODD_LARGE)
}

const DOWNWARD_LARGE: Volume = Volume {
    make: ["ntfsmake", "v", "2", "1024", "65536"],
    is_downward: true,
    ..LARGE
};

#[test]
fn a_large_downward_volume_comes_back(rt: HostRuntime) -> Result<(), Fail> {
    large_comes_back(&rt, rt.alloc(), &DOWNWARD_LARGE)
}

#[test]
fn a_large_volume_is_copied(rt: HostRuntime) -> Result<(), Fail> {
    let alloc = rt.alloc();
    let file = ODD_LARGE.file(alloc)?;
    let want = ODD_LARGE.restored(alloc, &file)?;
    makes(&rt, alloc, &COPY, &[("v", &file)], &want)
}

/// Records of which the streams are compared.
const STREAMS: [&str; 8] = ["0", "2", "6", "10", "16", "18", "21", "47"];

/// A restored volume shows the same streams as the one that was saved.
#[test]
fn a_restored_volume_has_the_same_streams(rt: HostRuntime) -> Result<(), Fail> {
    let alloc = rt.alloc();
    let file = RECORDS.file(alloc)?;
    let clone = RECORDS.clone_image(alloc, &file)?;
    let ran = run_files(alloc, &NEW, &[("c", &clone)])?;
    let restored = ran.shelf.content("b").ok_or("no volume")?;
    for number in STREAMS {
        let words = ["ntfscat", "-i", number, "v"];
        let shown = run_files(alloc, &words, &[("v", &file)])?;
        ends(&rt, &shown, Status::Done, 0, "");
        assert!(rt; shown.out.content.len() > 0);
        puts(&rt, alloc, &words, &[("v", restored)], &shown.out.content)?;
    }
    let words = ["ntfscat", "v", "/resident.txt"];
    puts(&rt, alloc, &words, &[("v", restored)], b"hello, ntfs\n")
}
