// Expected values are counted by hand, or by a plain list with a truth value for each number.
ghost use Rattle.std.specs.Prelude.{◌≡◌};
ghost use Rattle.ntfs_bitmap.specs.ClusterSet.{bound_of};

use crate::{ClaimFault, ClusterSet, FreeRun, bit_of};
use std::alloc::{AllocError, Global};
use std::process::Abort;
use std::test::Fail;

const LARGEST: u64 = 0xFFFF_FFFF;

/// Claims a run, where it is below a bound.
fn claim(set: &mut ClusterSet, bound: u64, first: u64, length: u64) -> Result<(), ClaimFault>
    requires { bound_of set.old ≡ bound }
    ensures { bound_of set.new ≡ bound }
{
    if first > bound || length > bound - first {
        return Err(ClaimFault::NoMemory);
    }
    set.claim_run(first, length)
}

#[test]
fn neighbours_are_one_run(rt: HostRuntime) -> Result<(), Fail> {
    let mut set = ClusterSet::empty(rt.alloc(), LARGEST)?;
    assert_eq!(rt; set.claim_run(0, 2), Ok(()));
    assert_eq!(rt; set.claim_run(5, 3), Ok(()));
    assert_eq!(rt; set.claim_run(2, 3), Ok(()));
    assert_eq!(rt; set.count_below(4_294_967_295), 8);
    assert_eq!(rt; set.first_free_from(0), Some(8));
    assert_eq!(rt; set.claim_run(7, 2), Err(ClaimFault::Taken { cluster: 7 }));
    assert_eq!(rt;
        set.free_run_from(0, 100),
        Some(FreeRun {
            first: 8,
            length: 92
        })
    );
    Ok(())
}

#[test]
fn a_set_of_no_numbers_has_none(rt: HostRuntime) -> Result<(), Fail> {
    let mut set = ClusterSet::empty(rt.alloc(), 0)?;
    assert_eq!(rt; set.claim_run(0, 0), Ok(()));
    assert!(rt; !set.contains(0));
    assert_eq!(rt; set.first_free_from(0), None);
    assert_eq!(rt; set.count_below(u64::MAX), 0);
    assert_eq!(rt; set.free_run_from(0, 0), None);
    assert_eq!(rt; set.first_difference(0, &[0xFF]), None);
    Ok(())
}

/// What a set says of its last cluster: whether it is in, the least free one from it on, how many are below the bound,
/// and how it compares with a bit that isn't set and with one that is.
fn last_of(set: &ClusterSet, last: u64) -> (bool, Option<u64>, u64, Option<u64>, Option<u64>) {
    (
        set.contains(last),
        set.first_free_from(last),
        set.count_below(u64::MAX),
        set.first_difference(last, &[0]),
        set.first_difference(last, &[1]),
    )
}

#[test]
fn the_last_cluster_is_one_of_the_set(rt: HostRuntime) -> Result<(), Fail> {
    for last in [0, 1, LARGEST - 1, u64::MAX - 1] {
        let bound = last.saturating_add(1);
        let mut set = ClusterSet::empty(rt.alloc(), bound)?;
        assert_eq!(rt;
            last_of(&set, last),
            (false, Some(last), 0, None, Some(last))
        );
        assert_eq!(rt;
            set.free_run_from(last, bound),
            Some(FreeRun {
                first: last,
                length: 1
            })
        );
        assert_eq!(rt; claim(&mut set, bound, last, 1), Ok(()));
        assert_eq!(rt; last_of(&set, last), (true, None, 1, Some(last), None));
        assert_eq!(rt;
            claim(&mut set, bound, last, 1),
            Err(ClaimFault::Taken { cluster: last })
        );
        assert_eq!(rt; claim(&mut set, bound, bound, 0), Ok(()));
        assert!(rt; !set.contains(bound));
    }
    Ok(())
}

#[test]
fn a_claim_joins_on_both_sides(rt: HostRuntime) -> Result<(), Fail> {
    for (first, length, run) in [
        (
            10,
            1,
            FreeRun {
                first: 11,
                length: 9,
            },
        ),
        (
            19,
            1,
            FreeRun {
                first: 10,
                length: 9,
            },
        ),
        (
            10,
            10,
            FreeRun {
                first: 40,
                length: 60,
            },
        ),
        (
            14,
            2,
            FreeRun {
                first: 10,
                length: 4,
            },
        ),
    ] {
        let mut set = ClusterSet::empty(rt.alloc(), 100)?;
        assert_eq!(rt; set.claim_run(5, 5), Ok(()));
        assert_eq!(rt; set.claim_run(20, 20), Ok(()));
        assert_eq!(rt; claim(&mut set, 100, first, length), Ok(()));
        assert_eq!(rt; set.free_run_from(5, 100), Some(run));
        assert_eq!(rt; set.count_below(100), length.saturating_add(25));
        assert_eq!(rt;
            set.claim_run(0, 100),
            Err(ClaimFault::Taken { cluster: 5 })
        );
    }
    Ok(())
}

#[test]
fn a_run_of_length_0_claims_nothing(rt: HostRuntime) -> Result<(), Fail> {
    let mut set = ClusterSet::empty(rt.alloc(), 10)?;
    assert_eq!(rt; set.claim_run(3, 2), Ok(()));
    assert_eq!(rt; set.claim_run(4, 0), Ok(()));
    assert_eq!(rt; set.claim_run(7, 0), Ok(()));
    assert_eq!(rt; set.count_below(10), 2);
    assert!(rt; !set.contains(7));
    Ok(())
}

#[test]
fn a_limit_cuts_a_free_run(rt: HostRuntime) -> Result<(), Fail> {
    let mut set = ClusterSet::empty(rt.alloc(), 50)?;
    assert_eq!(rt; set.claim_run(10, 10), Ok(()));
    for (from, limit, run) in [
        (
            0,
            50,
            Some(FreeRun {
                first: 0,
                length: 10,
            }),
        ),
        (
            3,
            7,
            Some(FreeRun {
                first: 3,
                length: 4,
            }),
        ),
        (
            9,
            20,
            Some(FreeRun {
                first: 9,
                length: 1,
            }),
        ),
        (10, 20, None),
        (
            10,
            21,
            Some(FreeRun {
                first: 20,
                length: 1,
            }),
        ),
        (
            30,
            50,
            Some(FreeRun {
                first: 30,
                length: 20,
            }),
        ),
        (30, 30, None),
        (60, 50, None),
    ] {
        let limit: u64 = limit;
        assert_eq!(rt; set.free_run_from(from, limit.min(50)), run);
    }
    Ok(())
}

#[test]
fn a_difference_is_found_at_each_bit(rt: HostRuntime) -> Result<(), Fail> {
    let mut set = ClusterSet::empty(rt.alloc(), 1000)?;
    assert_eq!(rt; set.claim_run(108, 9), Ok(()));
    let plain: [u8; 3] = [0, 0xFF, 0x01];
    assert_eq!(rt; set.first_difference(100, &plain), None);
    for place in 0..24u64 {
        let mut bits = plain;
        let byte = (place / 8) as usize;
        bits[byte] ^= 1 << (place % 8);
        assert_eq!(rt; bit_of(&bits, place), place < 8 || place > 16);
        assert_eq!(rt; set.first_difference(100, &bits), Some(100 + place));
    }
    Ok(())
}

#[test]
fn bits_past_the_bound_are_not_compared(rt: HostRuntime) -> Result<(), Fail> {
    let mut set = ClusterSet::empty(rt.alloc(), 11)?;
    assert_eq!(rt; set.claim_run(0, 11), Ok(()));
    assert_eq!(rt; set.first_difference(0, &[0xFF, 0x07]), None);
    assert_eq!(rt; set.first_difference(0, &[0xFF, 0xFF, 0xFF]), None);
    assert_eq!(rt; set.first_difference(0, &[0xFF, 0x03]), Some(10));
    assert_eq!(rt; set.first_difference(3, &[0xFF, 0]), None);
    assert_eq!(rt; set.first_difference(3, &[]), None);
    assert_eq!(rt; set.first_difference(11, &[0]), None);
    assert_eq!(rt; set.first_difference(u64::MAX, &[0]), None);
    Ok(())
}

/// The next number of a sequence without a plain order.
fn scatter(seed: u64) -> u64 {
    seed.wrapping_mul(6_364_136_223_846_793_005)
        .wrapping_add(1_442_695_040_888_963_407)
}

/// Adds a run to a plain list, where no number of it is in; else the least that is.
fn add_plain(list: &mut [bool], first: u64, length: u64) -> Result<(), ClaimFault> {
    for (cluster, flag) in (0u64..).zip(list.iter()) {
        if *flag && cluster >= first && cluster - first < length {
            return Err(ClaimFault::Taken { cluster });
        }
    }
    for (cluster, flag) in (0u64..).zip(list.iter_mut()) {
        if cluster >= first && cluster - first < length {
            *flag = true;
        }
    }
    Ok(())
}

/// How many numbers of a plain list are in.
fn count_plain(list: &[bool]) -> u64 {
    list.iter().filter(|flag| **flag).count() as u64
}

fn flags(alloc: Global, count: usize) -> Result<Vec<bool>, AllocError> {
    vec![in alloc; false; count]
}

#[test]
fn scattered_claims_are_those_of_a_plain_list(rt: HostRuntime) -> Result<(), Fail> {
    let mut list = flags(rt.alloc(), 400)?;
    let mut set = ClusterSet::empty(rt.alloc(), 400)?;
    let mut seed = 1;
    'claims: for _ in 0..1000u32 {
        seed = scatter(seed);
        let first = (seed >> 33) % 397;
        let length = (seed >> 20) % 4;
        let expected = add_plain(&mut list, first, length);
        assert_eq!(rt; claim(&mut set, 400, first, length), expected);
    }
    for (cluster, flag) in (0u64..).zip(list.iter()) {
        assert_eq!(rt; set.contains(cluster), *flag);
    }
    assert_eq!(rt; set.count_below(400), count_plain(&list));
    Ok(())
}

/// Claims three runs: whether all came. `tools/refused_memory.py` has each allocation of it refused in turn; a refused
/// claim leaves the set as it was.
fn claims_are_whole(rt: &impl Abort, host: &HostRuntime) -> Result<bool, Fail> {
    let Ok(mut set) = ClusterSet::empty(host.alloc(), 100) else {
        return Ok(false);
    };
    'claims: for place in 0..3u64 {
        assert_eq!(rt; set.count_below(100), 5 * place);
        if claim(&mut set, 100, 10 * place, 5) == Err(ClaimFault::NoMemory) {
            assert_eq!(rt; set.count_below(100), 5 * place);
            return Ok(false);
        }
    }
    assert_eq!(rt; set.first_free_from(20), Some(25));
    Ok(true)
}

#[test]
fn with_ample_memory_all_claims_come(rt: HostRuntime) -> Result<(), Fail> {
    assert!(rt; claims_are_whole(&rt, &rt)?);
    Ok(())
}
