//! What is printed of who owns the clusters of the small volume.

use super::{TWO, Told, begin, empty, end, no_record, patch, record_at, runs, stream, volume};
use crate::{OwnerQuery, ShowFault, owners, show_owners};
use ntfs_base::{Image, Leaves, MemImage, MemSink, Rule, Sink};
use ntfs_volume::{VolumeFault, open_volume, read_table};
use std::alloc::{AllocError, Global};
use std::process::Abort;
use std::test::Fail;

/// Asks about the owners of a volume at types that are known by their bounds alone.
fn ask<G: Image, K: Sink>(
    alloc: Global,
    image: &mut G,
    query: &OwnerQuery,
    out: &mut K,
) -> Result<Result<(), ShowFault>, VolumeFault> {
    let mut volume = open_volume(alloc, image)?;
    Ok(owners(alloc, &mut volume, query, out))
}

/// Asks about them by the table of a volume alone.
fn ask_by_table<G: Image, K: Sink>(
    alloc: Global,
    image: &mut G,
    query: &OwnerQuery,
    out: &mut K,
) -> Result<Result<(), ShowFault>, VolumeFault> {
    let table = read_table(alloc, image)?;
    Ok(show_owners(alloc, image, &table, query, out))
}

/// Both calls answer this over a volume, and put these bytes.
fn tells(
    rt: &impl Abort,
    alloc: Global,
    bytes: &[u8],
    query: OwnerQuery,
    answer: Result<(), ShowFault>,
    want: &[u8],
) -> Result<(), Fail> {
    let mut image = MemImage::new(alloc, Vec::from_slice(alloc, bytes)?);
    let mut out = MemSink::new(alloc);
    assert_eq!(rt; ask(alloc, &mut image, &query, &mut out), Ok(answer));
    assert_eq!(rt; out.content.as_slice(), want);
    let mut out = MemSink::new(alloc);
    assert_eq!(rt;
        ask_by_table(alloc, &mut image, &query, &mut out),
        Ok(answer)
    );
    assert_eq!(rt; out.content.as_slice(), want);
    Ok(())
}

/// Both answer this where a summary is asked for.
fn counts(
    rt: &impl Abort,
    alloc: Global,
    bytes: &[u8],
    answer: Result<(), ShowFault>,
    want: &[u8],
) -> Result<(), Fail> {
    tells(rt, alloc, bytes, OwnerQuery::Info, answer, want)
}

/// A hole of three VCNs and the clusters 60 and 61, of a stream of bad clusters.
const BAD: Told<'static> = Told {
    name: b"$\0B\0a\0d\0",
    next: 5,
    pairs: &[0x01, 3, 0x11, 2, 60, 0],
    ..TWO
};

/// The clusters 61 and 62, of another extent of it.
const MORE_BAD: Told<'static> = Told {
    lowest: 5,
    next: 7,
    pairs: &[0x11, 2, 61, 0],
    ..BAD
};

/// Record 8 has a stream of this name, and behind it another one of that name.
fn two_streams(bytes: &mut [u8], first: &[u8], second: &[u8]) {
    begin(bytes, 8, 0);
    runs(bytes, 8, 56, Told { name: first, ..BAD });
    runs(
        bytes,
        8,
        136,
        Told {
            name: second,
            ..MORE_BAD
        },
    );
    end(bytes, 8, 216);
}

/// Clusters 4 to 35 are those of $MFT, and 49 and 50 have several owners, of which each is counted.
#[test]
fn clusters_are_counted_once(rt: HostRuntime) -> Result<(), Fail> {
    let alloc = rt.alloc();
    let bytes = volume(alloc)?;
    let none = b"clusters: 64\nowned: 34\nbad: 0\nfree: 30\n";
    counts(&rt, alloc, &bytes, Ok(()), none)?;
    let cases: [(&[u8], &[u8], &[u8]); 4] = [
        (
            BAD.name,
            BAD.name,
            b"clusters: 64\nowned: 37\nbad: 3\nfree: 27\n",
        ),
        (
            BAD.name,
            b"",
            b"clusters: 64\nowned: 37\nbad: 2\nfree: 27\n",
        ),
        (
            b"$\0B\0a\0",
            BAD.name,
            b"clusters: 64\nowned: 37\nbad: 2\nfree: 27\n",
        ),
        (
            b"$\0b\0a\0d\0",
            b"",
            b"clusters: 64\nowned: 37\nbad: 0\nfree: 27\n",
        ),
    ];
    for (first, second, want) in cases {
        let mut bytes = volume(alloc)?;
        two_streams(&mut bytes, first, second);
        counts(&rt, alloc, &bytes, Ok(()), want)?;
    }
    // In another record it isn't one of bad clusters, and a record 8 that isn't in use has none.
    let mut bytes = volume(alloc)?;
    stream(&mut bytes, 9, BAD);
    counts(
        &rt,
        alloc,
        &bytes,
        Ok(()),
        b"clusters: 64\nowned: 36\nbad: 0\nfree: 28\n",
    )?;
    stream(&mut bytes, 8, BAD);
    patch(&mut bytes, record_at(8) + 0x16, &[0]);
    counts(
        &rt,
        alloc,
        &bytes,
        Ok(()),
        b"clusters: 64\nowned: 36\nbad: 0\nfree: 28\n",
    )?;
    Ok(())
}

#[test]
fn what_is_counted_must_be_right(rt: HostRuntime) -> Result<(), Fail> {
    let alloc = rt.alloc();
    let torn = (record_at(22) + 510, 6);
    let pairs = (record_at(8) + 56 + 72, 0x91);
    let cases: [(&[(usize, u8)], Rule, u64); 4] = [
        (&[torn], Rule::C4, 22),
        (&[pairs], Rule::C7, 8),
        (&[pairs, torn], Rule::C4, 22),
        (&[(record_at(8) + 510, 6)], Rule::C4, 8),
    ];
    for (damages, rule, number) in cases {
        let mut bytes = volume(alloc)?;
        two_streams(&mut bytes, BAD.name, BAD.name);
        for (place, byte) in damages {
            patch(&mut bytes, *place, &[*byte]);
        }
        counts(
            &rt,
            alloc,
            &bytes,
            Err(ShowFault::Damaged { rule, number }),
            b"",
        )?;
    }
    Ok(())
}

/// The opening reads the boot sector and record 0; then all records are read, and record 8.
#[test]
fn each_call_of_a_count_failing_alone(rt: HostRuntime) -> Result<(), Fail> {
    let alloc = rt.alloc();
    for failing in 3..5 {
        let mut image = MemImage::new(alloc, volume(alloc)?);
        image.inside.calls.fail(alloc, failing, Leaves::Before)?;
        let mut out = MemSink::new(alloc);
        assert_eq!(rt;
            ask(alloc, &mut image, &OwnerQuery::Info, &mut out),
            Ok(Err(ShowFault::ReadFault))
        );
        assert!(rt; out.content.is_empty());
        assert_eq!(rt; image.inside.calls.made, failing);
    }
    let mut image = MemImage::new(alloc, volume(alloc)?);
    let mut out = MemSink::new(alloc);
    out.calls.fail(alloc, 1, Leaves::Front { bytes: 3 })?;
    assert_eq!(rt;
        ask(alloc, &mut image, &OwnerQuery::Info, &mut out),
        Ok(Err(ShowFault::WriteFault))
    );
    assert_eq!(rt; out.content.as_slice(), b"clu".as_slice());
    Ok(())
}

/// The lines of record 19 and of its extension, record 20.
const FILE_19: &[u8] =
    b"record 19 0x80 \"\" vcn 1 lcn hole length 1\nrecord 20 0x80 \"\" vcn 0 lcn 50 length 1\n";

#[test]
fn the_runs_of_a_file_are_listed(rt: HostRuntime) -> Result<(), Fail> {
    let alloc = rt.alloc();
    let bytes = volume(alloc)?;
    // Record 21 has a value alone; 20 is an extension record itself.
    let cases: [(u64, &[u8]); 7] = [
        (0, b"record 0 0x80 \"\" vcn 0 lcn 4 length 32\n"),
        (16, b"record 16 0x80 \"s\" vcn 0 lcn 50 length 1\n"),
        (
            17,
            b"record 17 0x80 \"\" vcn 0 lcn 50 length 1\nrecord 17 0x80 \"\" vcn 1 lcn 49 length 1\n",
        ),
        (19, FILE_19),
        (20, b"record 20 0x80 \"\" vcn 0 lcn 50 length 1\n"),
        (21, b""),
        (
            22,
            b"record 22 0x80 \"\" vcn 0 lcn 50 length 1\nrecord 22 0x80 \"\" vcn 1 lcn 49 length 1\n",
        ),
    ];
    for (number, want) in cases {
        tells(
            &rt,
            alloc,
            &bytes,
            OwnerQuery::Number { number },
            Ok(()),
            want,
        )?;
    }
    Ok(())
}

/// An extension record may tell any sequence number of its base by 0, and no other than the base's.
#[test]
fn extension_records_match_their_base(rt: HostRuntime) -> Result<(), Fail> {
    let alloc = rt.alloc();
    let alone = b"record 19 0x80 \"\" vcn 1 lcn hole length 1\n".as_slice();
    for (sequence, want) in [(0, FILE_19), (1, FILE_19), (2, alone)] {
        let mut bytes = volume(alloc)?;
        patch(&mut bytes, record_at(20) + 0x26, &[sequence]);
        tells(
            &rt,
            alloc,
            &bytes,
            OwnerQuery::Number { number: 19 },
            Ok(()),
            want,
        )?;
    }
    Ok(())
}

/// The survey's refusals come before that of a record that isn't in use, and nothing is put before either.
#[test]
fn the_runs_of_a_file_are_refused(rt: HostRuntime) -> Result<(), Fail> {
    let alloc = rt.alloc();
    let torn = ShowFault::Damaged {
        rule: Rule::C4,
        number: 22,
    };
    let pairs = ShowFault::Damaged {
        rule: Rule::C7,
        number: 17,
    };
    let cases: [(u64, usize, u8, ShowFault); 5] = [
        (23, 0x100, 0, no_record(23)),
        (u64::MAX, 0x100, 0, no_record(u64::MAX)),
        (23, record_at(22) + 510, 6, torn),
        (19, record_at(22) + 510, 6, torn),
        (19, record_at(17) + 56 + 72, 0x91, pairs),
    ];
    for (number, place, byte, fault) in cases {
        let mut bytes = volume(alloc)?;
        patch(&mut bytes, place, &[byte]);
        tells(
            &rt,
            alloc,
            &bytes,
            OwnerQuery::Number { number },
            Err(fault),
            b"",
        )?;
    }
    Ok(())
}

/// The opening reads the boot sector and record 0; then all records are read, the record, and all records again.
#[test]
fn each_call_of_a_list_of_runs_failing_alone(rt: HostRuntime) -> Result<(), Fail> {
    let alloc = rt.alloc();
    let query = OwnerQuery::Number { number: 19 };
    for failing in 3..6 {
        let mut image = MemImage::new(alloc, volume(alloc)?);
        image.inside.calls.fail(alloc, failing, Leaves::Before)?;
        let mut out = MemSink::new(alloc);
        assert_eq!(rt;
            ask(alloc, &mut image, &query, &mut out),
            Ok(Err(ShowFault::ReadFault))
        );
        assert!(rt; out.content.is_empty());
        assert_eq!(rt; image.inside.calls.made, failing);
    }
    let mut image = MemImage::new(alloc, volume(alloc)?);
    let mut out = MemSink::new(alloc);
    out.calls.fail(alloc, 1, Leaves::Front { bytes: 3 })?;
    assert_eq!(rt;
        ask(alloc, &mut image, &query, &mut out),
        Ok(Err(ShowFault::WriteFault))
    );
    assert_eq!(rt; out.content.as_slice(), b"rec".as_slice());
    Ok(())
}

/// Cluster 50 has five owners.
const OF_50: &[u8] = b"cluster 50 record 16 0x80 \"s\" vcn 0\n\
    cluster 50 record 17 0x80 \"\" vcn 0\n\
    cluster 50 record 18 0x80 \"\" vcn 0\n\
    cluster 50 record 20 0x80 \"\" vcn 0\n\
    cluster 50 record 22 0x80 \"\" vcn 0\n";

/// Cluster 49 has two.
const OF_49: &[u8] =
    b"cluster 49 record 17 0x80 \"\" vcn 1\ncluster 49 record 22 0x80 \"\" vcn 1\n";

/// The lines of all owned clusters of the volume.
fn all_owned(alloc: Global) -> Result<Vec<u8>, AllocError> {
    let mut lines = Vec::new(alloc);
    for vcn in 0..32_u64 {
        let cluster = vcn + 4;
        let line = format!(in alloc; "cluster {cluster} record 0 0x80 \"\" vcn {vcn}\n")?;
        lines.extend_from_slice(line.as_bytes())?;
    }
    lines.extend_from_slice(OF_49)?;
    lines.extend_from_slice(OF_50)?;
    Ok(lines)
}

/// A range of one cluster, of some, of none owned, beyond the volume, turned round, and of all.
#[test]
fn owners_of_a_range_are_listed(rt: HostRuntime) -> Result<(), Fail> {
    let alloc = rt.alloc();
    let bytes = volume(alloc)?;
    let all = all_owned(alloc)?;
    let last = b"cluster 35 record 0 0x80 \"\" vcn 31\n".as_slice();
    let cases: [(u64, u64, &[u8]); 10] = [
        (50, 50, OF_50),
        (49, 49, OF_49),
        (51, 63, b""),
        (36, 48, b""),
        (35, 48, last),
        (35, 35, last),
        (64, u64::MAX, b""),
        (u64::MAX, u64::MAX, b""),
        (50, 49, b""),
        (0, u64::MAX, all.as_slice()),
    ];
    for (from, to, want) in cases {
        tells(
            &rt,
            alloc,
            &bytes,
            OwnerQuery::Clusters { from, to },
            Ok(()),
            want,
        )?;
    }
    Ok(())
}

/// Two attributes of a record have cluster 61, one behind a hole; an attribute has cluster 50 twice.
#[test]
fn a_cluster_is_listed_for_each_of_its_runs(rt: HostRuntime) -> Result<(), Fail> {
    let alloc = rt.alloc();
    let mut bytes = volume(alloc)?;
    two_streams(&mut bytes, BAD.name, BAD.name);
    let bad = b"cluster 60 record 8 0x80 \"$Bad\" vcn 3\n\
        cluster 61 record 8 0x80 \"$Bad\" vcn 4\n\
        cluster 61 record 8 0x80 \"$Bad\" vcn 5\n\
        cluster 62 record 8 0x80 \"$Bad\" vcn 6\n";
    let query = OwnerQuery::Clusters { from: 51, to: 63 };
    tells(&rt, alloc, &bytes, query, Ok(()), bad)?;
    let mut bytes = empty(alloc)?;
    stream(&mut bytes, 17, TWO);
    patch(&mut bytes, record_at(17) + 56 + 72 + 5, &[0]);
    let twice = b"cluster 50 record 17 0x80 \"\" vcn 0\n\
    cluster 50 record 17 0x80 \"\" vcn 1\n";
    let query = OwnerQuery::Clusters { from: 36, to: 63 };
    tells(&rt, alloc, &bytes, query, Ok(()), twice)?;
    Ok(())
}

/// Nothing is put before the survey's refusals. All records are read twice, and each call that fails alone is told.
#[test]
fn owners_of_a_range_are_refused(rt: HostRuntime) -> Result<(), Fail> {
    let alloc = rt.alloc();
    let query = OwnerQuery::Clusters { from: 50, to: 50 };
    let mut bytes = volume(alloc)?;
    patch(&mut bytes, record_at(22) + 510, &[6]);
    let torn = ShowFault::Damaged {
        rule: Rule::C4,
        number: 22,
    };
    tells(&rt, alloc, &bytes, query, Err(torn), b"")?;
    for failing in 3..5 {
        let mut image = MemImage::new(alloc, volume(alloc)?);
        image.inside.calls.fail(alloc, failing, Leaves::Before)?;
        let mut out = MemSink::new(alloc);
        assert_eq!(rt;
            ask(alloc, &mut image, &query, &mut out),
            Ok(Err(ShowFault::ReadFault))
        );
        assert!(rt; out.content.is_empty());
    }
    let mut image = MemImage::new(alloc, volume(alloc)?);
    let mut out = MemSink::new(alloc);
    out.calls.fail(alloc, 1, Leaves::Front { bytes: 9 })?;
    assert_eq!(rt;
        ask(alloc, &mut image, &query, &mut out),
        Ok(Err(ShowFault::WriteFault))
    );
    assert_eq!(rt; out.content.as_slice(), b"cluster 5".as_slice());
    Ok(())
}
