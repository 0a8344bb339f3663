//! One small tree with each rule broken: a root with the entries 1 and 3 and two children, the blocks 0 and 1 with the
//! entries 2 and 4.
//!
//! In the root, entry 1 stands at 0x20, entry 3 at 0x78, the end at 0xD8, and the bytes in use end at 0xF0. In a block
//! its entry stands at 0x30, the end at 0x88, and the bytes in use end at 0x98.

use super::build::{Patch, ROOT, Row, above, end, end_above, geometry, own, told, tree};
use std::alloc::Global;
use std::process::Abort;
use std::test::Fail;

fn rows() -> [Row; 7] {
    [
        own(ROOT, 1),
        above(ROOT, 3, 0),
        end_above(ROOT, 1),
        own(0, 2),
        end(0),
        own(1, 4),
        end(1),
    ]
}

fn check(
    rt: &impl Abort,
    alloc: Global,
    name: &str,
    patches: &[Patch],
    want: &str,
) -> Result<(), Fail> {
    check_rows(rt, alloc, name, &rows(), patches, want)
}

fn check_rows(
    rt: &impl Abort,
    alloc: Global,
    name: &str,
    rows: &[Row],
    patches: &[Patch],
    want: &str,
) -> Result<(), Fail> {
    let (root, mut blocks) = tree(alloc, rows, patches)?;
    let got = told(alloc, &root, &geometry(1024, 1024), &mut blocks)?;
    assert_eq!(rt; got.as_str(), want, "{name}");
    Ok(())
}

#[test]
fn a_root_breaks_a_rule(rt: HostRuntime) -> Result<(), Fail> {
    for (name, place, byte, want) in [
        ("nothing", 0x00, 0x30, "1.0 2.1 3.1 4.2 whole.2"),
        ("type", 0x00, 0x31, "rule 1 at root.0"),
        ("collation", 0x04, 2, "rule 1 at root.0"),
        ("block size", 0x09, 8, "rule 1 at root.0"),
        ("first entry below 16", 0x10, 8, "rule 3 at root.0"),
        ("first entry between", 0x10, 0x14, "rule 3 at root.0"),
        ("first entry behind", 0x10, 0xE8, "rule 3 at root.0"),
        ("use behind the root", 0x14, 0xE1, "rule 3 at root.0"),
        ("no byte in use", 0x14, 0x10, "rule 4 at root.0"),
        ("no end in use", 0x14, 0xC8, "1.0 2.1 3.1 rule 4 at root.1"),
    ] {
        check(&rt, rt.alloc(), name, &[(ROOT, place, byte)], want)?;
    }
    Ok(())
}

#[test]
fn an_entry_of_the_root_breaks_a_rule(rt: HostRuntime) -> Result<(), Fail> {
    for (name, place, byte, want) in [
        ("length below 16", 0x28, 8, "rule 4 at root.0"),
        ("length between", 0x28, 0x5C, "rule 4 at root.0"),
        ("length behind", 0x80, 0x80, "1.0 rule 4 at root.0"),
        ("key behind the entry", 0x2A, 0x49, "rule 5 at root.0"),
        ("key without a name", 0x2A, 0x41, "rule 5 at root.0"),
        ("name behind the key", 0x70, 1, "rule 5 at root.0"),
        ("key over the child", 0x82, 0x49, "1.0 rule 5 at root.0"),
        ("the end's child", 0xE0, 16, "1.0 2.1 3.1 rule 5 at root.1"),
        ("the end's key", 0xE2, 0xFF, "1.0 2.1 3.1 4.2 whole.2"),
        ("other flags", 0x2C, 4, "1.0 2.1 3.1 4.2 whole.2"),
    ] {
        check(&rt, rt.alloc(), name, &[(ROOT, place, byte)], want)?;
    }
    Ok(())
}

#[test]
fn a_block_breaks_a_rule(rt: HostRuntime) -> Result<(), Fail> {
    for (name, node, place, byte, want) in [
        ("magic", 0, 0x00, b'X', "1.0 rule 1 at 0.1"),
        ("array", 0, 0x04, 0x29, "1.0 rule 1 at 0.1"),
        ("torn stride", 0, 1022, 8, "1.0 rule 1 at 0.1"),
        ("own VCN", 1, 0x10, 9, "1.0 2.1 3.1 rule 2 at 1.2"),
        ("first entry", 1, 0x18, 0x14, "1.0 2.1 3.1 rule 3 at 1.2"),
        ("bytes in use", 1, 0x1D, 0x40, "1.0 2.1 3.1 rule 3 at 1.2"),
        ("length", 0, 0x38, 8, "1.0 rule 4 at 0.1"),
        ("no end in use", 0, 0x1C, 0x70, "1.0 2.1 rule 4 at 0.1"),
        ("key", 0, 0x3A, 0x49, "1.0 rule 5 at 0.1"),
        ("outside", ROOT, 0xD0, 9, "1.0 rule 7 at 9.1"),
    ] {
        check(&rt, rt.alloc(), name, &[(node, place, byte)], want)?;
    }
    Ok(())
}

#[test]
fn the_first_of_two_rules_is_named(rt: HostRuntime) -> Result<(), Fail> {
    for (name, one, two, want) in [
        ("1, 2", (0, 0x00, b'X'), (0, 0x10, 9), "1.0 rule 1 at 0.1"),
        (
            "1, 3",
            (0, 0x00, b'X'),
            (0, 0x18, 0x14),
            "1.0 rule 1 at 0.1",
        ),
        ("2, 3", (0, 0x10, 9), (0, 0x18, 0x14), "1.0 rule 2 at 0.1"),
        ("3, 4", (0, 0x18, 0x14), (0, 0x38, 8), "1.0 rule 3 at 0.1"),
        ("4, 5", (0, 0x38, 8), (0, 0x3A, 0x49), "1.0 rule 4 at 0.1"),
        (
            "1, 3 of a root",
            (ROOT, 0, 0x31),
            (ROOT, 0x10, 8),
            "rule 1 at root.0",
        ),
        (
            "5, then 4",
            (ROOT, 0x2A, 0x49),
            (ROOT, 0x80, 8),
            "rule 5 at root.0",
        ),
        (
            "4, then 7",
            (ROOT, 0x80, 0x61),
            (ROOT, 0xD0, 9),
            "1.0 rule 4 at root.0",
        ),
        (
            "5, then 7",
            (ROOT, 0x82, 0x49),
            (ROOT, 0xD0, 9),
            "1.0 rule 5 at root.0",
        ),
        (
            "7, then 5",
            (ROOT, 0xD0, 9),
            (ROOT, 0xE0, 16),
            "1.0 rule 7 at 9.1",
        ),
    ] {
        check(&rt, rt.alloc(), name, &[one, two], want)?;
    }
    Ok(())
}

/// A root with the entries 3 at 0x20 and 5 at 0x80, both above block 0, and the end at 0xE0.
#[test]
fn a_block_is_met_again_and_a_rule_is_broken(rt: HostRuntime) -> Result<(), Fail> {
    let rows = [
        above(ROOT, 3, 0),
        above(ROOT, 5, 0),
        end(ROOT),
        own(0, 2),
        end(0),
    ];
    for (name, patches, want) in [
        ("6 alone", &[][..], "2.1 3.1 rule 6 at 0.1"),
        (
            "4, then 6",
            &[(ROOT, 0x88, 8)][..],
            "2.1 3.1 rule 4 at root.1",
        ),
        (
            "5, then 6",
            &[(ROOT, 0x8A, 0x49)][..],
            "2.1 3.1 rule 5 at root.1",
        ),
        ("6, then 4", &[(ROOT, 0xE8, 8)][..], "2.1 3.1 rule 6 at 0.1"),
        ("7, then 6", &[(ROOT, 0x78, 9)][..], "rule 7 at 9.1"),
        ("2, then 6", &[(0, 0x10, 9)][..], "rule 2 at 0.1"),
    ] {
        check_rows(&rt, rt.alloc(), name, &rows, patches, want)?;
    }
    Ok(())
}

#[test]
fn a_root_has_at_least_32_bytes(rt: HostRuntime) -> Result<(), Fail> {
    for (length, want) in [
        (0, "rule 1 at root.0"),
        (31, "rule 1 at root.0"),
        (32, "rule 3 at root.0"),
        (239, "rule 3 at root.0"),
        (240, "1.0 2.1 3.1 4.2 whole.2"),
    ] {
        let (root, mut blocks) = tree(rt.alloc(), &rows(), &[])?;
        let cut = root.get(..length).ok_or("no root")?;
        let got = told(rt.alloc(), cut, &geometry(1024, 1024), &mut blocks)?;
        assert_eq!(rt; got.as_str(), want, "{length}");
    }
    Ok(())
}
