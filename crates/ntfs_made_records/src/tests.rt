//! The records of made volumes, read one by one and held against the attributes that the volume's plan puts into them.
ghost use Rattle.std.specs.Prelude.{◌≡◌, ◌+◌, ◌*◌, [], IfOk, replicate};
ghost use Rattle.ntfs_base.specs.Memory.{seen_of};

use ntfs_base::{Leaves, MemImage};
use ntfs_fixup::{Magic, unfix};
use ntfs_make::{MakeFault, is_in_range, make};
use ntfs_record::{is_in_use, parse};
use std::alloc::{AllocError, Global};
use std::process::Abort;
use std::test::Fail;

/// A volume, and where its records 0 and 32 stand: the plan's second and eighth parts, each of 32 records.
#[derive(Clone, Copy)]
struct Plan {
    seed: u64,
    clusters: u32,
    cluster: u32,
    first: usize,
    second: usize,
}

const PLANS: [Plan; 4] = [
    Plan {
        seed: 0,
        clusters: 1024,
        cluster: 4096,
        first: 3 * 4096,
        second: 68 * 4096,
    },
    Plan {
        seed: 0,
        clusters: 2048,
        cluster: 512,
        first: 17 * 512,
        second: 488 * 512,
    },
    Plan {
        seed: 3,
        clusters: 1024,
        cluster: 4096,
        first: 1016 * 4096,
        second: 951 * 4096,
    },
    Plan {
        seed: 3,
        clusters: 2048,
        cluster: 512,
        first: 1984 * 512,
        second: 1513 * 512,
    },
];

/// The types of the attributes of a record; one that isn't in use has none.
fn kinds_of(number: u32) -> &'static [u32] {
    match number {
        0 => &[0x10, 0x20, 0x30, 0x80, 0xB0],
        3 => &[0x10, 0x30, 0x70],
        5 => &[0x10, 0x30, 0x90, 0xA0, 0xB0],
        8 => &[0x10, 0x30, 0x80, 0x80],
        11 | 23 => &[0x10, 0x30, 0x90],
        21 => &[0x10, 0x20, 0x30, 0x80],
        25 => &[0x10, 0x30, 0x30, 0x80],
        22 | 28 => &[0x80],
        1..=10 | 16..=27 | 32..=47 => &[0x10, 0x30, 0x80],
        _ => &[],
    }
}

fn zeros(alloc: Global, count: usize) -> Result<Vec<u8>, AllocError>
    ensures { IfOk result (λ bytes. bytes.items ≡ replicate count 0) }
{
    vec![in alloc; 0; count]
}

/// An image of zeros for so many clusters of so many bytes.
fn blank(alloc: Global, clusters: u32, cluster: u32) -> Result<MemImage, AllocError>
    ensures content { IfOk result (λ image. (seen_of [] image.inside).content
        ≡ replicate ((clusters + 1) * cluster) 0) }
    ensures size { IfOk result (λ image. (seen_of [] image.inside).size ≡ (clusters + 1) * cluster) }
{
    let bytes = zeros(alloc, (clusters as usize + 1) * cluster as usize)?;
    Ok(MemImage::new(alloc, bytes))
}

/// Makes a volume on an image of zeros.
fn attempt(
    rt: &impl Abort,
    alloc: Global,
    image: &mut MemImage,
    plan: &Plan,
) -> Result<(), MakeFault>
    requires content { (seen_of [] image.old.inside).content
        ≡ replicate ((plan.now.clusters + 1) * plan.now.cluster) 0 }
    requires size { (seen_of [] image.old.inside).size ≡ (plan.now.clusters + 1) * plan.now.cluster }
{
    assert!(rt; is_in_range(plan.clusters, plan.cluster));
    make(alloc, image, plan.seed, plan.clusters, plan.cluster)
}

/// A made volume.
fn volume(rt: &impl Abort, alloc: Global, plan: &Plan) -> Result<MemImage, Fail> {
    let mut image = blank(alloc, plan.clusters, plan.cluster)?;
    attempt(rt, alloc, &mut image, plan)?;
    Ok(image)
}

/// Where a record stands.
fn place_of(plan: &Plan, number: u32) -> usize {
    let within = (number as usize % 32).wrapping_mul(1024);
    if number < 32 {
        return plan.first.wrapping_add(within);
    }
    plan.second.wrapping_add(within)
}

/// Whether an unfixed record tells this number, and has attributes of these types in this order, whose instances count
/// up from 0.
fn has_attributes(block: &[u8], number: u32, kinds: &[u32]) -> bool {
    let Ok(record) = parse(block) else {
        return false;
    };
    let mut count = 0usize;
    'attributes: for attribute in record.attributes() {
        if kinds.get(count) != Some(&attribute.kind) || usize::from(attribute.instance) != count {
            return false;
        }
        count = count.wrapping_add(1);
    }
    count == kinds.len() && record.number() == Some(number)
}

/// Whether a record as it stands on disk has the attributes of its number.
fn is_as_planned(raw: &[u8; 1024], number: u32) -> bool {
    let kinds = kinds_of(number);
    if kinds.is_empty() {
        return !is_in_use(raw);
    }
    let mut block = *raw;
    is_in_use(raw)
        && unfix(&mut block, Magic::File).is_ok()
        && has_attributes(&block, number, kinds)
}

/// The first of the 64 records that isn't as planned.
fn first_wrong(bytes: &[u8], plan: &Plan) -> Option<u32> {
    'records: for number in 0..64 {
        let place = place_of(plan, number);
        let Some(raw) = bytes.get(place..place.wrapping_add(1024)) else {
            return Some(number);
        };
        let mut block = [0; 1024];
        block.copy_from_slice(raw);
        if !is_as_planned(&block, number) {
            return Some(number);
        }
    }
    None
}

#[test]
fn each_record_has_its_attributes(rt: HostRuntime) -> Result<(), Fail> {
    for plan in &PLANS {
        let image = volume(&rt, rt.alloc(), plan)?;
        assert_eq!(rt; first_wrong(&image.inside.bytes, plan), None);
    }
    Ok(())
}
