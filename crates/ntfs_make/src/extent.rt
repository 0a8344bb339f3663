//! The clusters of a extent.

ghost use Rattle.std.specs.Prelude.{◌≡◌, ◌++◌, ◌<◌, ◌≤◌, ◌^◌, ◌+◌, length, OnOk, IfOk, IfSome};
ghost use Rattle.ntfs_runs.specs.Clusters.{AreSpellable};
ghost use Rattle.ntfs_make.specs.Extents as spec;

use crate::layout::Layout;
use crate::shape::{bad_cluster, bitmap_size};
use crate::table::{Extent, PlannedRun, Size};
use ntfs_runs::{Run, RunList, encode_into};
use std::alloc::{AllocError, Global};

// The run of these cells; it is empty where there are none.
#[tactic(auto, unfolding(crate::specs::Extents::run_of))]
pub(crate) fn run_of(layout: &Layout, planned: PlannedRun) -> Run
    ensures exact { result ≡ spec.run_of layout.now planned }
    ensures length { result.length < 2 ^ 33 }
    ensures lcn { IfSome result.lcn (λ lcn. lcn ≤ 2 ^ 48) }
{
    let shape = layout.shape();
    match planned {
        PlannedRun::NoRun => Run {
            length: 0,
            lcn: None,
        },
        PlannedRun::InArea(number) => {
            let area = layout.area(number);
            Run {
                length: area.length,
                lcn: Some(area.start),
            }
        }
        PlannedRun::Holes(count) => Run {
            length: u64::from(count),
            lcn: None,
        },
        PlannedRun::BeforeBad => Run {
            length: bad_cluster(shape.clusters),
            lcn: None,
        },
        PlannedRun::Bad => Run {
            length: 1,
            lcn: Some(bad_cluster(shape.clusters)),
        },
        PlannedRun::BehindBad => Run {
            length: shape.clusters - bad_cluster(shape.clusters) - 1,
            lcn: None,
        },
    }
}

// Puts a run at the end, where it has a cluster.
fn push_run(runs: &mut RunList, run: Run) -> Result<(), AllocError>
    ensures { OnOk result (runs.new ≡ runs.old ++ spec.unless_empty run) }
{
    if run.length != 0 {
        runs.push(run)?;
    }
    Ok(())
}

// The runs of an extent, without the empty ones.
#[tactic(auto, unfolding(crate::specs::Extents::extent_runs))]
fn extent_runs(alloc: Global, layout: &Layout, extent: &Extent) -> Result<RunList, AllocError>
    ensures exact { IfOk result (λ runs. runs ≡ spec.extent_runs layout.now (spec.planned_runs extent.now)) }
    ensures spellable { IfOk result (λ runs. AreSpellable runs) }
    ensures few { IfOk result (λ runs. length runs ≤ 3) }
{
    let mut runs = RunList::new(alloc);
    push_run(&mut runs, run_of(layout, extent.first))?;
    push_run(&mut runs, run_of(layout, extent.second))?;
    push_run(&mut runs, run_of(layout, extent.third))?;
    Ok(runs)
}

// Puts the mapping pairs of an extent at the end.
#[tactic(auto, unfolding(crate::specs::Extents::pairs_of))]
pub(crate) fn put_pairs(
    alloc: Global,
    out: &mut Vec<u8>,
    layout: &Layout,
    extent: &Extent,
) -> Result<(), AllocError>
    ensures { OnOk result (out.new.items ≡ out.old.items ++ spec.pairs_of layout.now (spec.planned_runs extent.now)) }
{
    let runs = extent_runs(alloc, layout, extent)?;
    let mut text = [0; 64];
    match encode_into(&runs, &mut text) {
        Some(count) => out.extend_from_slice(&text[..count]),
        None => unreachable!(),
    }
}

// How many VCNs an extent has.
#[tactic(auto, unfolding(crate::specs::Extents::vcn_count))]
pub(crate) fn vcn_count(layout: &Layout, extent: &Extent) -> u64
    ensures exact { result ≡ spec.vcn_count layout.now (spec.planned_runs extent.now) }
    ensures small { result < 2 ^ 35 }
{
    run_of(layout, extent.first).length
        + run_of(layout, extent.second).length
        + run_of(layout, extent.third).length
}

// A number of bytes.
#[tactic(auto, unfolding(crate::specs::Extents::size_bytes))]
pub(crate) fn size_bytes(layout: &Layout, size: Size) -> u64
    ensures { result ≡ spec.size_bytes layout.now size }
{
    let shape = layout.shape();
    match size {
        Size::Exact(count) => count,
        Size::Clusters(count) => u64::from(count) * shape.cluster,
        Size::ClusterAnd(count) => shape.cluster + u64::from(count),
        Size::InArea(number) => layout.area(number).length * shape.cluster,
        Size::Bitmap => bitmap_size(shape.clusters),
        Size::Volume => shape.clusters * shape.cluster,
    }
}
