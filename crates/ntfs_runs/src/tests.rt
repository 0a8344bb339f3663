ghost use Rattle.std.specs.Prelude.{◌≡◌, IfOk};
ghost use Rattle.ntfs_runs.specs.Clusters.{AreSpellable};

use crate::{BadPairs, PairsFault, Run, RunList, decode, encode_into, pairs};
use std::alloc::{AllocError, Global};
use std::process::Abort;
use std::test::Fail;

fn at(length: u64, lcn: u64) -> Run
    ensures { result ≡ record { length = length; lcn = Some lcn } }
{
    Run {
        length,
        lcn: Some(lcn),
    }
}

fn hole(length: u64) -> Run
    ensures { result ≡ record { length = length; lcn = None } }
{
    Run { length, lcn: None }
}

fn list(alloc: Global, runs: &[Run]) -> Result<RunList, AllocError>
    ensures { IfOk result (λ list. list ≡ runs.now) }
{
    let mut list = RunList::new(alloc);
    'runs: for run in runs {
        list.push(*run)?;
    }
    Ok(list)
}

fn reads(rt: &impl Abort, alloc: Global, bytes: &[u8], want: &[Run]) -> Result<(), Fail> {
    let runs = decode(alloc, bytes)?;
    assert_eq!(rt; runs.runs(), want, "of {bytes:?}");
    let mut items = pairs(bytes);
    for run in want {
        assert_eq!(rt; items.next(), Some(Ok(*run)), "of {bytes:?}");
    }
    assert_eq!(rt; items.next(), None, "of {bytes:?}");
    Ok(())
}

fn is_bad(rt: &impl Abort, alloc: Global, bytes: &[u8], place: usize) {
    match decode(alloc, bytes) {
        Ok(_) => panic!(rt; "{bytes:?} was read"),
        Err(fault) => assert_eq!(rt; fault, PairsFault::BadPairs { place }, "of {bytes:?}"),
    }
}

fn spells(rt: &impl Abort, alloc: Global, runs: &[Run], want: &[u8]) -> Result<(), Fail>
    requires { AreSpellable runs.now }
{
    let mut into = [0xEEu8; 64];
    let list = list(alloc, runs)?;
    assert_eq!(rt; encode_into(&list, &mut into), Some(want.len()));
    assert!(rt; want.len() < 64);
    assert_eq!(rt; &into[..want.len()], want, "of {runs:?}");
    assert_eq!(rt; into[want.len()], 0xEE);
    assert!(rt; 0 < want.len());
    assert_eq!(rt; encode_into(&list, &mut into[..want.len() - 1]), None);
    Ok(())
}

#[test]
fn documented_pairs_are_read(rt: HostRuntime) -> Result<(), Fail> {
    reads(&rt, rt.alloc(), &[0x00], &[])?;
    reads(
        &rt,
        rt.alloc(),
        &[0x21, 0x18, 0x34, 0x56, 0x00],
        &[at(0x18, 0x5634)],
    )?;
    reads(
        &rt,
        rt.alloc(),
        &[
            0x31, 0x38, 0x73, 0x25, 0x34, 0x32, 0x14, 0x01, 0xE5, 0x11, 0x02, 0x31, 0x42, 0xAA,
            0x00, 0x03, 0x00,
        ],
        &[at(0x38, 0x342573), at(0x114, 0x363758), at(0x42, 0x393802)],
    )?;
    reads(
        &rt,
        rt.alloc(),
        &[
            0x11, 0x30, 0x60, 0x21, 0x10, 0x00, 0x01, 0x11, 0x20, 0xE0, 0x00, 0x77,
        ],
        &[at(0x30, 0x60), at(0x10, 0x160), at(0x20, 0x140)],
    )
}

#[test]
fn holes_are_read(rt: HostRuntime) -> Result<(), Fail> {
    reads(
        &rt,
        rt.alloc(),
        &[
            0x01, 0x05, 0x01, 0x06, 0x11, 0x04, 0x64, 0x01, 0x02, 0x11, 0x03, 0xF6, 0x02, 0x00,
            0x01, 0x00,
        ],
        &[hole(5), hole(6), at(4, 100), hole(2), at(3, 90), hole(256)],
    )
}

#[test]
fn numbers_are_signed_in_each_size(rt: HostRuntime) -> Result<(), Fail> {
    reads(
        &rt,
        rt.alloc(),
        &[
            0x11, 0x7F, 0x7F, 0x21, 0x01, 0xFF, 0x7F, 0x21, 0x01, 0x00, 0x80, 0x11, 0x01, 0x82,
            0x00,
        ],
        &[at(127, 127), at(1, 127 + 32767), at(1, 126), at(1, 0)],
    )?;
    reads(
        &rt,
        rt.alloc(),
        &[
            0x42, 0x80, 0x00, 0xFF, 0xFF, 0xFF, 0x7F, 0x33, 0x00, 0x80, 0x00, 0x00, 0x00, 0x80,
            0x00,
        ],
        &[at(128, 0x7FFF_FFFF), at(32768, 0x7F7F_FFFF)],
    )?;
    reads(
        &rt,
        rt.alloc(),
        &[
            0x54, 1, 0, 0, 0, 0xFF, 0xFF, 0xFF, 0xFF, 0x7F, 0x55, 2, 0, 0, 0, 0, 1, 0, 0, 0, 0x80,
            0x00,
        ],
        &[at(1, 0x7F_FFFF_FFFF), at(2, 0)],
    )?;
    reads(
        &rt,
        rt.alloc(),
        &[
            0x66, 3, 0, 0, 0, 0, 0, 0xFF, 0xFF, 0xFF, 0xFF, 0xFF, 0x7F, 0x67, 4, 0, 0, 0, 0, 0, 0,
            1, 0, 0, 0, 0, 0x80, 0x00,
        ],
        &[at(3, 0x7FFF_FFFF_FFFF), at(4, 0)],
    )?;
    reads(
        &rt,
        rt.alloc(),
        &[
            0x78, 5, 0, 0, 0, 0, 0, 0, 0, 0, 0, 0, 0, 0, 0, 1, 0x81, 6, 0xFE, 0xFF, 0xFF, 0xFF,
            0xFF, 0xFF, 0xFF, 0xFF, 0x00,
        ],
        &[at(5, 0x1_0000_0000_0000), at(6, 0xFFFF_FFFF_FFFE)],
    )
}

#[test]
fn each_fault_has_the_place_of_its_header(rt: HostRuntime) {
    is_bad(&rt, rt.alloc(), &[], 0);
    is_bad(&rt, rt.alloc(), &[0x11, 0x04, 0x64], 3);
    is_bad(&rt, rt.alloc(), &[0x11, 0x04, 0x64, 0x11, 0x04], 3);
    is_bad(
        &rt,
        rt.alloc(),
        &[0x11, 0x04, 0x64, 0x19, 1, 0, 0, 0, 0, 0, 0, 0, 0, 1, 0x00],
        3,
    );
    is_bad(
        &rt,
        rt.alloc(),
        &[0x11, 0x04, 0x64, 0x91, 1, 0, 0, 0, 0, 0, 0, 0, 0, 0, 0x00],
        3,
    );
    is_bad(&rt, rt.alloc(), &[0x10, 0x04, 0x00], 0);
    is_bad(&rt, rt.alloc(), &[0x11, 0x80, 0x05, 0x00], 0);
    is_bad(&rt, rt.alloc(), &[0x11, 0x00, 0x05, 0x00], 0);
    is_bad(
        &rt,
        rt.alloc(),
        &[0x11, 0x04, 0x05, 0x11, 0x04, 0xFA, 0x00],
        3,
    );
    is_bad(&rt, rt.alloc(), &[0x71, 0x01, 1, 0, 0, 0, 0, 0, 1, 0x00], 0);
    is_bad(
        &rt,
        rt.alloc(),
        &[0x01, 0x01, 0x07, 0, 0, 0, 0, 0, 0, 1, 0x00],
        2,
    );
    is_bad(&rt, rt.alloc(), &[0x07, 1, 0, 0, 0, 0, 0, 1, 0x00], 0);
}

#[test]
fn limits_are_taken(rt: HostRuntime) -> Result<(), Fail> {
    reads(
        &rt,
        rt.alloc(),
        &[0x71, 0x01, 0, 0, 0, 0, 0, 0, 1, 0x00],
        &[at(1, 1 << 48)],
    )?;
    reads(
        &rt,
        rt.alloc(),
        &[0x07, 0, 0, 0, 0, 0, 0, 1, 0x00],
        &[hole(1 << 48)],
    )?;
    reads(
        &rt,
        rt.alloc(),
        &[
            0x01, 0x01, 0x06, 0xFF, 0xFF, 0xFF, 0xFF, 0xFF, 0x7F, 0x06, 0, 0, 0, 0, 0, 0x40, 0x00,
        ],
        &[hole(1), hole(0x7FFF_FFFF_FFFF), hole(0x4000_0000_0000)],
    )
}

#[test]
fn an_iterator_ends_after_its_fault(rt: HostRuntime) {
    let mut items = pairs(&[0x11, 0x04, 0x64, 0x10, 0x00]);
    assert_eq!(rt; items.next(), Some(Ok(at(4, 100))));
    assert_eq!(rt; items.next(), Some(Err(BadPairs { place: 3 })));
    assert_eq!(rt; items.next(), None);
    assert_eq!(rt; items.next(), None);
}

#[test]
fn runs_are_spelled_in_the_fewest_bytes(rt: HostRuntime) -> Result<(), Fail> {
    spells(&rt, rt.alloc(), &[], &[0x00])?;
    spells(
        &rt,
        rt.alloc(),
        &[at(4, 100), hole(2), at(3, 90)],
        &[0x11, 0x04, 0x64, 0x01, 0x02, 0x11, 0x03, 0xF6, 0x00],
    )?;
    spells(&rt, rt.alloc(), &[at(127, 5)], &[0x11, 0x7F, 0x05, 0x00])?;
    spells(
        &rt,
        rt.alloc(),
        &[at(128, 5)],
        &[0x12, 0x80, 0x00, 0x05, 0x00],
    )?;
    spells(
        &rt,
        rt.alloc(),
        &[at(1, 127), at(1, 255), at(1, 127), at(1, 256)],
        &[
            0x11, 0x01, 0x7F, 0x21, 0x01, 0x80, 0x00, 0x11, 0x01, 0x80, 0x21, 0x01, 0x81, 0x00,
            0x00,
        ],
    )?;
    spells(
        &rt,
        rt.alloc(),
        &[at(32768, 1 << 48), at(1, 0)],
        &[
            0x73, 0x00, 0x80, 0x00, 0, 0, 0, 0, 0, 0, 1, 0x71, 0x01, 0, 0, 0, 0, 0, 0, 0xFF, 0x00,
        ],
    )
}

#[test]
fn neighbours_are_joined(rt: HostRuntime) -> Result<(), Fail> {
    spells(
        &rt,
        rt.alloc(),
        &[
            hole(2),
            hole(3),
            at(4, 10),
            at(1, 14),
            at(2, 15),
            at(2, 18),
            hole(1),
            hole(7),
        ],
        &[
            0x01, 0x05, 0x11, 0x07, 0x0A, 0x11, 0x02, 0x08, 0x01, 0x08, 0x00,
        ],
    )
}

#[test]
fn a_cluster_is_looked_up(rt: HostRuntime) -> Result<(), Fail> {
    let runs = list(rt.alloc(), &[at(4, 100), hole(2), at(3, 90)])?;
    for (vcn, want) in [
        (0, Some(Some(100))),
        (3, Some(Some(103))),
        (4, Some(None)),
        (5, Some(None)),
        (6, Some(Some(90))),
        (8, Some(Some(92))),
        (9, None),
    ] {
        assert_eq!(rt; runs.lcn_of(vcn), want, "at {vcn}");
    }
    Ok(())
}

#[test]
fn vcns_of_a_list_are_counted(rt: HostRuntime) -> Result<(), Fail> {
    assert_eq!(rt; RunList::new(rt.alloc()).vcn_count(), 0);
    let runs = list(rt.alloc(), &[at(4, 100), hole(2), at(3, 90)])?;
    assert_eq!(rt; runs.vcn_count(), 9);
    let most = list(rt.alloc(), &[hole(1 << 47), at(1 << 47, 1)])?;
    assert_eq!(rt; most.vcn_count(), 1 << 48);
    Ok(())
}

#[test]
fn a_list_lies_below_a_number_of_clusters(rt: HostRuntime) -> Result<(), Fail> {
    assert!(rt; RunList::new(rt.alloc()).lies_below(false, 0));
    let runs = list(rt.alloc(), &[at(4, 100), at(3, 90)])?;
    for (clusters, want) in [
        (0, false),
        (100, false),
        (103, false),
        (104, true),
        (105, true),
    ] {
        assert_eq!(rt; runs.lies_below(false, clusters), want, "at {clusters}");
        assert_eq!(rt; runs.lies_below(true, clusters), want, "at {clusters}");
    }
    let holes = list(rt.alloc(), &[at(4, 100), hole(2), at(3, 90)])?;
    assert!(rt; holes.lies_below(true, 104));
    assert!(rt; !holes.lies_below(false, 104));
    let last = list(rt.alloc(), &[at(1, u64::MAX), at(u64::MAX, 0)])?;
    assert!(rt; !last.lies_below(true, u64::MAX));
    let none = list(rt.alloc(), &[hole(0), at(0, u64::MAX)])?;
    assert!(rt; none.lies_below(false, 0));
    Ok(())
}

#[test]
fn a_long_list_is_read_and_spelled_again(rt: HostRuntime) -> Result<(), Fail> {
    let mut bytes = Vec::new(rt.alloc());
    for _ in 0..100_000u32 {
        bytes.extend_from_slice(&[0x11, 0x01, 0x03])?;
    }
    bytes.push(0)?;
    let runs = decode(rt.alloc(), &bytes)?;
    assert_eq!(rt; runs.runs().len(), 100_000);
    assert_eq!(rt; runs.runs().last(), Some(&at(1, 300_000)));
    let mut into = vec![in rt.alloc(); 0u8; 300_001]?;
    assert_eq!(rt; encode_into(&runs, &mut into), Some(300_001));
    assert!(rt; into == bytes);
    Ok(())
}

/// Reads pairs and puts a run in a list: whether both were done. `tools/refused_memory.py` has each allocation of it
/// refused in turn.
fn reading_is_whole(rt: &impl Abort, host: &HostRuntime) -> Result<bool, Fail> {
    let alloc = host.alloc();
    let text = [0x21, 0x18, 0x34, 0x56, 0x01, 0x05, 0x00];
    match decode(alloc, &text) {
        Ok(runs) => assert_eq!(rt; runs.runs(), [at(0x18, 0x5634), hole(5)].as_slice()),
        Err(fault) => {
            assert_eq!(rt; fault, PairsFault::NoMemory);
            return Ok(false);
        }
    }
    match decode(alloc, &text[..4]) {
        Ok(_) => panic!(rt; "pairs without an end were read"),
        Err(PairsFault::NoMemory) => return Ok(false),
        Err(fault) => assert_eq!(rt; fault, PairsFault::BadPairs { place: 4 }),
    }
    let mut runs = RunList::new(alloc);
    let pushed = runs.push(hole(1)).is_ok();
    assert_eq!(rt; runs.runs().len(), if pushed { 1 } else { 0 });
    Ok(pushed)
}

#[test]
fn with_ample_memory_all_is_read(rt: HostRuntime) -> Result<(), Fail> {
    assert!(rt; reading_is_whole(&rt, &rt)?);
    Ok(())
}
