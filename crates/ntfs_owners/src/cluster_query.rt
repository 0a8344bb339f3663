//! Who has the clusters of a range.

ghost use Rattle.std.specs.Prelude.{◌≡◌, ◌≤◌, ◌-◌, Ok, length, map, min, IfErr, IfOk, List, ◌+◌};
ghost use Rattle.ntfs_base.specs.Bytes.{cluster_at};
ghost use Rattle.ntfs_base.specs.Frames.{Copies, IfTold, Puts};
ghost use Rattle.ntfs_print.specs.Fault.{show_origin};
ghost use Rattle.ntfs_owners.specs.Held.{held_of};
ghost use Rattle.ntfs_owners.specs.OwnerLines.{held_clusters};
ghost use Rattle.ntfs_owners.specs.Owners.{IsOwnersFault, range_outcome};
ghost use Rattle.ntfs_print.specs.Pending.{OnlyPrints, Pushes};
ghost use Rattle.ntfs_owners.specs.Sweep.{IsPutCut};
ghost use Rattle.ntfs_owners.specs.declared.owner_query.OwnerQuery.{OwnerQuery};
ghost use Rattle.ntfs_volume.specs.Opened.{HasClusters};

use crate::cluster_rows::rows_in;
use crate::file_runs::survey_all;
use crate::held::Wanted;
use crate::holding::Holding;
use crate::reread::collect;
use crate::sweep::print_clusters;
use ntfs_base::{Image, Sink};
use ntfs_print::{Pending, ShowFault};
use ntfs_volume::Table;
use std::alloc::Global;

/// Prints the lines of the clusters from one on, below another one, for what attributes hold.
fn print_range<K: Sink>(
    alloc: Global,
    held: &[Holding],
    from: u64,
    end: u64,
    pending: &mut Pending,
    out: &mut K,
) -> Result<(), ShowFault>
    ensures pushes { Pushes (held_clusters from (end - from) (map held_of held.now)) pending.old (K.seen out.old)
        result pending.new (K.seen out.new) }
    ensures faults { IfErr result IsPutCut }
    ensures frame { OnlyPrints K.Sink show_origin out.old out.new result }
{
    let rows = rows_in(alloc, held, from, end)?;
    print_clusters(alloc, &rows, from, end, pending, out)
}

/// Puts them, by way of a buffer.
fn put_range<K: Sink>(
    alloc: Global,
    held: &[Holding],
    from: u64,
    end: u64,
    out: &mut K,
) -> Result<(), ShowFault>
    ensures puts { Puts show_origin (Ok (held_clusters from (end - from) (map held_of held.now))) (K.seen out.old)
        result (K.seen out.new) }
    ensures listed { (query : OwnerQuery) → IfErr result (IsOwnersFault query) }
    ensures frame { OnlyPrints K.Sink show_origin out.old out.new result }
{
    let mut pending = Pending::new(alloc)?;
    print_range(alloc, held, from, end, &mut pending, out)?;
    pending.put_rest(out)?;
    Ok(())
}

/// The cluster behind the last of a range on a volume.
fn range_end(table: &Table, to: u64) -> u64
    ensures { result ≡ min table.now.geometry.clusters (to + 1) }
{
    table.geometry().clusters.min(to.saturating_add(1))
}

/// Prints, for each cluster of a range, the attributes that have it.
pub(crate) fn show_range<G: Image, K: Sink>(
    alloc: Global,
    image: &mut G,
    table: &Table,
    from: u64,
    to: u64,
    out: &mut K,
) -> Result<(), ShowFault>
    requires held { HasClusters (G.seen image.old).size table.now }
    ensures told { IfTold G.Image image.old (λ content. Puts show_origin
        (range_outcome table.now (cluster_at content table.now.geometry.cluster) from to) (K.seen out.old) result
        (K.seen out.new)) }
    ensures listed { (query : OwnerQuery) → IfErr result (IsOwnersFault query) }
    ensures copies { Copies G.Image K.Sink show_origin image.old image.new out.old out.new result }
{
    survey_all(alloc, image, table)?;
    let end = range_end(table, to);
    let held = collect(alloc, image, table, &Wanted::Range { from, end })?;
    put_range(alloc, &held, from, end, out)
}
