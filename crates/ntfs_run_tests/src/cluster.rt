//! `ntfscluster` over a volume that `ntfsmake` makes: 1,024 clusters of 4,096 bytes.
use crate::case::{Case, Image, NO_FAULT, all_answer, all_follow, run_over};
use crate::statuses::{COMBINATION, LINE, NO_IMAGE, NUMBER, damage_of, no_record};
use crate::volume::BOOT_LEN;
use ntfs_base::{MemShelf, Missing, Rule};
use ntfs_run::Status;
use std::test::Fail;

const MAKE: [&str; 5] = ["ntfsmake", "v", "0", "1024", "4096"];

const INFO: [&str; 3] = ["ntfscluster", "-i", "v"];

/// Where record 22 begins, which is in use.
const AT_RECORD_22: usize = 34_816;

#[test]
fn clusters_of_a_made_volume_are_counted(rt: HostRuntime) -> Result<(), Fail> {
    let alloc = rt.alloc();
    let mut shelf = MemShelf::new(alloc);
    let empty = Image::of(0);
    let summary = Case::puts(
        &INFO,
        empty,
        b"clusters: 1024\nowned: 119\nbad: 1\nfree: 905\n",
    );
    let cases = [
        Case::puts(&MAKE, empty, b""),
        summary,
        summary.with_words(&["ntfscluster", "--info", "v"]),
        summary.with_words(&["ntfscluster", "v", "-i"]),
    ];
    all_follow(&rt, alloc, &mut shelf, &cases)
}

const OF_MFT: &[u8] = b"record 0 0x80 \"\" vcn 0 lcn 3 length 8\n\
    record 28 0x80 \"\" vcn 8 lcn 68 length 8\n";

/// A hole of two clusters, a cluster, and a hole.
const OF_SPARSE: &[u8] = b"record 18 0x80 \"\" vcn 0 lcn hole length 2\n\
    record 18 0x80 \"\" vcn 2 lcn 77 length 1\n\
    record 18 0x80 \"\" vcn 3 lcn hole length 1\n";

/// The runs of a record by its number and by its path.
#[test]
fn runs_of_a_record_are_printed(rt: HostRuntime) -> Result<(), Fail> {
    let alloc = rt.alloc();
    let mut shelf = MemShelf::new(alloc);
    let empty = Image::of(0);
    let table = Case::puts(&[], empty, OF_MFT);
    let sparse = Case::puts(&[], empty, OF_SPARSE);
    let missing = Case::refuses(
        &[],
        empty,
        no_record(12),
        7,
        "ntfscluster: not found: record 12\n",
    );
    let cases = [
        Case::puts(&MAKE, empty, b""),
        table.with_words(&["ntfscluster", "-I", "0", "v"]),
        table.with_words(&["ntfscluster", "--inode=0", "v"]),
        table.with_words(&["ntfscluster", "-F", "/$MFT", "v"]),
        sparse.with_words(&["ntfscluster", "-I18", "v"]),
        sparse.with_words(&["ntfscluster", "v", "--filename", "Sparse.bin"]),
        sparse
            .with_output(b"")
            .with_words(&["ntfscluster", "-I", "16", "v"]),
        missing.with_words(&["ntfscluster", "-I", "12", "v"]),
        missing
            .with_refusal(NO_PART, "ntfscluster: not found: path part 1\n")
            .with_words(&["ntfscluster", "-F", "/Dir/none", "v"]),
    ];
    all_follow(&rt, alloc, &mut shelf, &cases)
}

/// Each cluster of a range that has an owner; 512 is the bad one.
#[test]
fn owners_of_a_range_are_printed(rt: HostRuntime) -> Result<(), Fail> {
    let alloc = rt.alloc();
    let mut shelf = MemShelf::new(alloc);
    let empty = Image::of(0);
    let nothing = Case::puts(&[], empty, b"");
    let cases = [
        nothing.with_words(&MAKE),
        nothing
            .with_output(
                b"cluster 0 record 7 0x80 \"\" vcn 0\ncluster 1 record 7 0x80 \"\" vcn 1\n\
                cluster 3 record 0 0x80 \"\" vcn 0\n",
            )
            .with_words(&["ntfscluster", "-c", "0-3", "v"]),
        nothing
            .with_output(b"cluster 512 record 8 0x80 \"$Bad\" vcn 512\n")
            .with_words(&["ntfscluster", "--cluster=500-0520", "v"]),
        nothing.with_words(&["ntfscluster", "-c2-2", "v"]),
        nothing.with_words(&["ntfscluster", "-c", "1024-18446744073709551615", "v"]),
    ];
    all_follow(&rt, alloc, &mut shelf, &cases)
}

const NO_PART: Status = Status::NotFound {
    what: Missing::Part { index: 1 },
};

#[test]
fn words_and_images_are_refused(rt: HostRuntime) -> Result<(), Fail> {
    let empty = Image::of(0);
    let line = Case::refuses(&INFO, empty, LINE, 1, "ntfscluster: usage: line\n");
    let both = line.with_refusal(COMBINATION, "ntfscluster: usage: combination\n");
    let number = line.with_refusal(NUMBER, "ntfscluster: usage: number\n");
    let absent = Case::refuses(&INFO, empty, NO_IMAGE, 2, "ntfscluster: no such file: w\n");
    let cases = [
        line.with_words(&["ntfscluster"]),
        line.with_words(&["ntfscluster", "-i"]),
        line.with_words(&["ntfscluster", "i", "v"]),
        line.with_words(&["ntfscluster", "-i", "-v"]),
        line.with_words(&["ntfscluster", "-i", "v", "w"]),
        line.with_words(&["ntfscluster", "-ii", "v"]),
        both.with_words(&["ntfscluster", "v"]),
        both.with_words(&["ntfscluster", "-i", "-c", "1-x", "v"]),
        number.with_words(&["ntfscluster", "-c", "1-x", "v"]),
        number.with_words(&["ntfscluster", "-c", "2-1", "v"]),
        number.with_words(&["ntfscluster", "-I", "0X1", "v"]),
        absent.with_words(&["ntfscluster", "-i", "w"]),
        Case::refuses(
            &INFO,
            Image::of(512),
            Status::NotNtfs,
            3,
            "ntfscluster: not an NTFS volume\n",
        ),
    ];
    all_answer(&rt, rt.alloc(), b"", &cases)
}

/// Nothing is put where a record isn't right, or mapping pairs aren't.
#[test]
fn a_damaged_volume_is_refused(rt: HostRuntime) -> Result<(), Fail> {
    let alloc = rt.alloc();
    let made = run_over(alloc, &MAKE, None, NO_FAULT)?;
    let base = made.shelf.content("v").ok_or("no file")?;
    let image = Image::of(BOOT_LEN);
    // The end of the first sector of record 22, and the first byte of its mapping pairs.
    let torn = [(AT_RECORD_22 + 0x1FE, b"\x09".as_slice())];
    let pairs = [(AT_RECORD_22 + 0x78, b"\x91".as_slice())];
    let cases = [
        Case::refuses(
            &INFO,
            image.with_bytes(&torn),
            damage_of(Rule::C4, 22),
            4,
            "ntfscluster: damaged: rule C4 record 22\n",
        ),
        Case::refuses(
            &INFO,
            image.with_bytes(&pairs),
            damage_of(Rule::C7, 22),
            4,
            "ntfscluster: damaged: rule C7 record 22\n",
        ),
    ];
    all_answer(&rt, alloc, base, &cases)
}
