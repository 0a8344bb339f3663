//! Sound trees, and those with too many levels.

use super::build::{ROOT, Row, above, end, end_above, geometry, own, told, tree};
use std::alloc::{AllocError, Global};
use std::process::Abort;
use std::test::Fail;

fn check(rt: &impl Abort, alloc: Global, name: &str, rows: &[Row], want: &str) -> Result<(), Fail> {
    let (root, mut blocks) = tree(alloc, rows, &[])?;
    let got = told(alloc, &root, &geometry(1024, 1024), &mut blocks)?;
    assert_eq!(rt; got.as_str(), want, "{name}");
    Ok(())
}

/// Three levels of uneven depth, and a leaf without entries.
pub fn uneven() -> [Row; 17] {
    [
        above(ROOT, 8, 0),
        above(ROOT, 12, 3),
        own(ROOT, 13),
        end_above(ROOT, 4),
        above(0, 4, 1),
        own(0, 6),
        end_above(0, 2),
        own(1, 2),
        end(1),
        own(2, 7),
        end(2),
        own(3, 10),
        own(3, 11),
        end(3),
        end(4),
        own(5, 99),
        end(5),
    ]
}

#[test]
fn trees_are_walked_in_order(rt: HostRuntime) -> Result<(), Fail> {
    let empty = [end(ROOT)];
    let alone = [own(ROOT, 5), own(ROOT, 3), end(ROOT)];
    let two = [
        above(ROOT, 4, 0),
        own(ROOT, 5),
        end(ROOT),
        own(0, 2),
        own(0, 3),
        end(0),
    ];
    let last = [own(ROOT, 1), end_above(ROOT, 1), end(0), own(1, 7), end(1)];
    for (name, rows, want) in [
        ("no entry", &empty[..], "whole.0"),
        ("a root alone", &alone[..], "5.0 3.0 whole.0"),
        (
            "a child before its entry",
            &two[..],
            "2.1 3.1 4.1 5.1 whole.1",
        ),
        ("the end's child last", &last[..], "1.0 7.1 whole.1"),
        (
            "three levels",
            &uneven()[..],
            "2.2 4.2 6.2 7.3 8.3 10.4 11.4 12.4 13.4 whole.5",
        ),
    ] {
        check(&rt, rt.alloc(), name, rows, want)?;
    }
    Ok(())
}

/// A root with the entry 1, and so many blocks below it, each the child of the one before, the last with the entry 9
/// and a child of its own, where that isn't `NONE`.
fn chain(alloc: Global, blocks: u64, child: u64) -> Result<Vec<Row>, AllocError> {
    let mut rows = Vec::new(alloc);
    rows.push(own(ROOT, 1))?;
    rows.push(end_above(ROOT, 0))?;
    for block in 1..blocks {
        rows.push(end_above(block - 1, block))?;
    }
    rows.push(own(blocks.wrapping_sub(1), 9))?;
    rows.push(end_above(blocks.wrapping_sub(1), child))?;
    Ok(rows)
}

#[test]
fn a_17th_level_is_too_deep(rt: HostRuntime) -> Result<(), Fail> {
    for (name, blocks, child, want) in [
        ("16 levels", 15, ROOT, "1.0 9.15 whole.15"),
        ("17 levels", 16, ROOT, "1.0 too deep.15"),
        (
            "a 17th level that is met already",
            15,
            3,
            "1.0 9.15 too deep.15",
        ),
        ("a 17th level outside", 15, 77, "1.0 9.15 too deep.15"),
        (
            "a 16th level that is met already",
            14,
            3,
            "1.0 9.14 rule 6 at 3.14",
        ),
        ("a 16th level outside", 14, 77, "1.0 9.14 rule 7 at 77.15"),
    ] {
        let rows = chain(rt.alloc(), blocks, child)?;
        check(&rt, rt.alloc(), name, &rows, want)?;
    }
    Ok(())
}

#[test]
fn a_block_is_met_once(rt: HostRuntime) -> Result<(), Fail> {
    let siblings = [above(ROOT, 3, 0), end_above(ROOT, 0), own(0, 2), end(0)];
    let parents = [
        above(ROOT, 5, 0),
        end_above(ROOT, 1),
        end_above(0, 2),
        end_above(1, 2),
        own(2, 9),
        end(2),
    ];
    let itself = [end_above(ROOT, 0), own(0, 2), end_above(0, 0)];
    let upwards = [
        end_above(ROOT, 0),
        above(0, 6, 1),
        end(0),
        own(1, 4),
        end_above(1, 0),
    ];
    for (name, rows, want) in [
        ("by one node", &siblings[..], "2.1 3.1 rule 6 at 0.1"),
        ("by two nodes", &parents[..], "9.2 5.2 rule 6 at 2.3"),
        ("by itself", &itself[..], "2.1 rule 6 at 0.1"),
        ("by its child", &upwards[..], "4.2 rule 6 at 0.2"),
    ] {
        check(&rt, rt.alloc(), name, rows, want)?;
    }
    Ok(())
}
