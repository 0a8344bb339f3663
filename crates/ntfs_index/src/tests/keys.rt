//! Keys, the units of VCNs, and calls that fail.

ghost use Rattle.std.specs.Prelude.{◌≡◌, ◌<◌};
ghost use Rattle.ntfs_index.specs.Blocks.{IsBlockSize};

use super::build::{
    ROOT, above, block, end, end_above, entries, entry, geometry, own, root, told, tree,
};
use super::trees::uneven;
use crate::{Entry, IndexFault, MemBlocks, Walk, block_place, start, vcn_unit};
use ntfs_base::Leaves;
use std::alloc::{AllocError, Global};
use std::process::Abort;
use std::test::Fail;

/// The key of an entry that `build::entry` makes: the reference in 8 bytes, then its lowest byte, but for the units.
fn is_key(key: &[u8], len: usize, reference: u8, units: u8) -> bool {
    for (i, byte) in key.iter().enumerate() {
        let want = match i {
            0x40 => units,
            1..=7 => 0,
            _ => reference,
        };
        if *byte != want {
            return false;
        }
    }
    key.len() == len
}

fn gives(rt: &impl Abort, walk: &mut Walk, blocks: &mut MemBlocks, reference: u8)
    requires { blocks.old.size ≡ walk.old.size }
    ensures { blocks.new.size ≡ walk.new.size }
{
    let given = walk.next(blocks);
    assert_eq!(rt;
        given,
        Ok(Some(Entry {
            reference: u64::from(reference)
        }))
    );
    assert!(rt; is_key(walk.key(), 66, reference, 0));
}

fn breaks(
    rt: &impl Abort,
    walk: &mut Walk,
    blocks: &mut MemBlocks,
    fault: IndexFault,
    reference: u8,
)
    requires { blocks.old.size ≡ walk.old.size }
    ensures { blocks.new.size ≡ walk.new.size }
{
    let given = walk.next(blocks);
    assert_eq!(rt; given, Err(fault));
    assert!(rt; is_key(walk.key(), 66, reference, 0));
}

#[test]
fn the_key_is_that_of_the_last_entry(rt: HostRuntime) -> Result<(), Fail> {
    let rows = [
        above(ROOT, 4, 0),
        end_above(ROOT, 1),
        own(0, 2),
        end(0),
        own(1, 9),
        end(1),
    ];
    let (root, mut blocks) = tree(rt.alloc(), &rows, &[(1, 0x38, 8)])?;
    let Ok(mut walk) = start(rt.alloc(), &root, &geometry(1024, 1024)) else {
        panic!(rt; "no walk");
    };
    assert!(rt; walk.key().is_empty());
    gives(&rt, &mut walk, &mut blocks, 2);
    gives(&rt, &mut walk, &mut blocks, 4);
    let fault = IndexFault::BadNode { vcn: 1, rule: 4 };
    breaks(&rt, &mut walk, &mut blocks, fault, 4);
    breaks(&rt, &mut walk, &mut blocks, fault, 4);
    Ok(())
}

/// One entry with a reference, a key of this length and a name of so many units, and the end.
fn lone(alloc: Global, reference: u64, key: u16, units: u8) -> Result<Vec<u8>, AllocError> {
    let mut bytes = entry(alloc, &own(ROOT, reference), key, units)?;
    bytes.extend_from_slice(&entry(alloc, &end(ROOT), 0, 0)?)?;
    Ok(bytes)
}

fn check_key(rt: &impl Abort, alloc: Global, key: u16, units: u8) -> Result<(), Fail> {
    let geometry = geometry(1024, 1024);
    let entries = lone(alloc, 7, key, units)?;
    assert!(rt; entries.len() <= 100_000);
    let root = root(alloc, 1024, &entries)?;
    let mut blocks = MemBlocks::new(alloc, Vec::new(alloc), &geometry);
    let Ok(mut walk) = start(alloc, &root, &geometry) else {
        panic!(rt; "no walk");
    };
    assert_eq!(rt;
        walk.next(&mut blocks),
        Ok(Some(Entry { reference: 7 })),
        "{key}"
    );
    assert!(rt; is_key(walk.key(), usize::from(key), 7, units), "{key}");
    assert_eq!(rt; walk.next(&mut blocks), Ok(None), "{key}");
    assert!(rt; is_key(walk.key(), usize::from(key), 7, units), "{key}");
    Ok(())
}

#[test]
fn keys_have_any_length(rt: HostRuntime) -> Result<(), Fail> {
    for (key, units) in [
        (66, 0),
        (67, 0),
        (68, 1),
        (576, 255),
        (577, 255),
        (65_512, 255),
    ] {
        check_key(&rt, rt.alloc(), key, units)?;
    }
    Ok(())
}

/// An allocation with two blocks, at the VCN 0 and at this one, which follows it.
fn two_blocks(alloc: Global, size: u32, vcn: u64) -> Result<Vec<u8>, AllocError>
    requires { IsBlockSize size }
{
    let mut first = lone(alloc, 2, 66, 0)?;
    let mut second = lone(alloc, 4, 66, 0)?;
    first.truncate(1000);
    second.truncate(1000);
    let mut bytes = block(alloc, 0, size, &first)?;
    bytes.extend_from_slice(&block(alloc, vcn, size, &second)?)?;
    Ok(bytes)
}

#[test]
fn a_vcn_counts_clusters_or_sectors(rt: HostRuntime) -> Result<(), Fail> {
    for (cluster, size, unit, vcn, outside) in [
        (512, 1024, 512, 2, 3),
        (1024, 1024, 1024, 1, 2),
        (4096, 1024, 512, 2, 4),
        (65_536, 1024, 512, 2, 3),
        (1024, 4096, 1024, 4, 5),
        (4096, 4096, 4096, 1, 2),
        (8192, 4096, 512, 8, 9),
        (512, 65_536, 512, 128, 129),
        (65_536, 65_536, 65_536, 1, u64::MAX - 1),
    ] {
        assert!(rt; 0 < cluster && size % 512 == 0 && 1024 <= size && size <= 65_536);
        let geometry = geometry(cluster, size);
        assert_eq!(rt; vcn_unit(&geometry), unit, "{cluster} {size}");
        let rows = [
            above(ROOT, 3, 0),
            above(ROOT, 5, vcn),
            end_above(ROOT, outside),
        ];
        let entries = entries(rt.alloc(), &rows, ROOT)?;
        assert!(rt; entries.len() <= 100_000);
        let root = root(rt.alloc(), size, &entries)?;
        let bytes = two_blocks(rt.alloc(), size, vcn)?;
        let mut blocks = MemBlocks::new(rt.alloc(), bytes, &geometry);
        let got = told(rt.alloc(), &root, &geometry, &mut blocks)?;
        let want = format!(in rt.alloc(); "2.1 3.1 4.2 5.2 rule 7 at {outside}.3")?;
        assert_eq!(rt; got, want, "{cluster} {size}");
    }
    Ok(())
}

#[test]
fn each_call_fails_alone(rt: HostRuntime) -> Result<(), Fail> {
    for (number, want) in [
        (1, "block fault.1"),
        (2, "block fault.2"),
        (3, "2.2 4.2 6.2 block fault.3"),
        (4, "2.2 4.2 6.2 7.3 8.3 block fault.4"),
        (5, "2.2 4.2 6.2 7.3 8.3 10.4 11.4 12.4 13.4 block fault.5"),
        (6, "2.2 4.2 6.2 7.3 8.3 10.4 11.4 12.4 13.4 whole.5"),
    ] {
        let (root, mut blocks) = tree(rt.alloc(), &uneven(), &[])?;
        blocks.calls.fail(rt.alloc(), number, Leaves::Before)?;
        let got = told(rt.alloc(), &root, &geometry(1024, 1024), &mut blocks)?;
        assert_eq!(rt; got.as_str(), want, "{number}");
        assert_eq!(rt; blocks.faults, u64::from(number < 6), "{number}");
    }
    Ok(())
}

#[test]
fn a_block_lies_in_the_allocation(rt: HostRuntime) {
    for (vcn, unit, size, len, want) in [
        (0, 1024, 1024, 1023, None),
        (0, 1024, 1024, 1024, Some(0)),
        (1, 512, 1024, 1535, None),
        (1, 512, 1024, 1536, Some(512)),
        (3, 4096, 4096, 16_384, Some(12_288)),
        (1 << 55, 512, 1024, u64::MAX, None),
        ((1 << 55) - 2, 512, 1024, u64::MAX, None),
        ((1 << 55) - 3, 512, 1024, u64::MAX, Some(u64::MAX - 1535)),
        (u64::MAX, 65_536, 65_536, u64::MAX, None),
    ] {
        assert_eq!(rt; block_place(vcn, unit, size, len), want, "{vcn}");
    }
}
