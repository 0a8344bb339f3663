//! The lines of clusters, by a sweep over the rows that have them.

ghost use Rattle.std.specs.Prelude.{◌≡◌, ◌≤◌, ◌<◌, ◌-◌, ℕ, [], None, length, drop, filter, map, nat_lt, All, IfErr, IfOk, OnOk};
ghost use Rattle.std.specs.List.Sorted.{IsNonDecreasing, IsNonDecreasingBy, IsPermutation};
ghost use Rattle.ntfs_base.specs.Frames.{OnlyPuts};
ghost use Rattle.ntfs_owners.specs.OwnerLines.{cluster_head, cluster_tail};
ghost use Rattle.ntfs_print.specs.Pending.{OnlyPrints, Pushes, put_origin};
ghost use Rattle.ntfs_print.specs.Fault.{show_origin};
ghost use Rattle.ntfs_owners.specs.Sweep.{HasCluster, IsPutCut, IsSwept, LiesBetween, due_row, span_end, span_first, line_in, next_cluster, rows_cluster, row_span, starts_from, swept_lines};

use crate::owner_lines::{Word, push_word};
use crate::row::Row;
use ntfs_base::{Line, PutFault, Sink};
use ntfs_print::{Pending, ShowFault};
use std::alloc::{AllocError, Global};

/// The line of a cluster up to the text that tells whose it is.
#[tactic(auto, unfolding(crate::specs::OwnerLines::cluster_head))]
fn cluster_head(cluster: u64) -> Line
    ensures { result ≡ cluster_head cluster }
{
    let mut line = Line::new();
    push_word(&mut line, Word::Cluster);
    line.push_number(cluster);
    push_word(&mut line, Word::Space);
    line
}

/// The line of a cluster behind that text.
#[tactic(auto, unfolding(crate::specs::OwnerLines::cluster_tail))]
fn cluster_tail(vcn: u64) -> Line
    ensures { result ≡ cluster_tail vcn }
{
    let mut line = Line::new();
    line.push_number(vcn);
    push_word(&mut line, Word::End);
    line
}

/// Prints the line of a cluster in a row that has it.
fn print_cluster<K: Sink>(
    row: &Row<'_>,
    cluster: u64,
    pending: &mut Pending,
    out: &mut K,
) -> Result<(), PutFault>
    requires first { row.now.first ≤ cluster }
    requires end { cluster < row.now.end }
    ensures pushes { Pushes (line_in cluster (row_span row.now)) pending.old (K.seen out.old) result
        pending.new (K.seen out.new) }
    ensures puts { OnlyPuts K.Sink put_origin out.old out.new result }
{
    let head = cluster_head(cluster);
    let tail = cluster_tail(row.vcn + (cluster - row.first));
    pending.push(head.as_bytes(), out)?;
    pending.push(row.text.as_bytes(), out)?;
    pending.push(tail.as_bytes(), out)
}

/// Prints the lines of a cluster in the rows of these numbers, which have it.
fn print_rows<K: Sink>(
    rows: &[Row<'_>],
    active: &[usize],
    cluster: u64,
    pending: &mut Pending,
    out: &mut K,
) -> Result<(), PutFault>
    requires { All (HasCluster (map row_span rows.now) cluster) active.now }
    ensures pushes { Pushes (rows_cluster cluster (map row_span rows.now) active.now) pending.old (K.seen out.old)
        result pending.new (K.seen out.new) }
    ensures puts { OnlyPuts K.Sink put_origin out.old out.new result }
{
    'active: for number in active {
        print_cluster(&rows[*number], cluster, pending, out)?;
    }
    Ok(())
}

/// Each row's first cluster and its number, in the order of the first clusters.
fn starts_of(alloc: Global, rows: &[Row<'_>]) -> Result<Vec<(u64, usize)>, AllocError>
    ensures all { IfOk result (λ starts. IsPermutation (starts_from 0 (map row_span rows.now)) starts.items) }
    ensures sorted { IfOk result (λ starts. IsNonDecreasingBy (λ start. start.0) starts.items) }
{
    let mut starts = Vec::with_capacity(alloc, rows.len())?;
    'rows: for number in 0..rows.len() {
        starts.push((rows[number].first, number))?;
    }
    starts.sort_unstable_by_key(|start: &(u64, usize)| start.0);
    Ok(starts)
}

/// The number of the next row that waits, where it begins at this cluster.
fn due_row(starts: &[(u64, usize)], next: usize, at: u64) -> Option<usize>
    ensures { result ≡ due_row at (drop next starts.now) }
{
    match starts.get(next) {
        Some(start) if start.0 == at => Some(start.1),
        _ => None,
    }
}

/// The cluster that is looked at next: this one, where a row is active, else the first of the next row that waits.
fn next_cluster(active: &[usize], starts: &[(u64, usize)], next: usize, at: u64) -> Option<u64>
    ensures { result ≡ next_cluster at active.now (drop next starts.now) }
{
    if !active.is_empty() {
        return Some(at);
    }
    match starts.get(next) {
        None => None,
        Some(start) => Some(start.0),
    }
}

/// Makes the rows active that wait and begin at this cluster.
fn add_due(
    starts: &[(u64, usize)],
    next: &mut usize,
    at: u64,
    active: &mut Vec<usize>,
) -> Result<(), AllocError>
    ensures swept { OnOk result ((first end : ℕ → ℕ) (m : ℕ)
        → IsSwept first end m at active.old.items (drop next.old starts.now)
        → IsSwept first end m at active.new.items (drop next.new starts.now)) }
    ensures none { OnOk result (due_row at (drop next.new starts.now) ≡ None) }
{
    'due: while let Some(row) = due_row(starts, *next, at) {
        active.push(row)?;
        *next += 1;
    }
    Ok(())
}

/// Makes the rows active that wait and begin at this cluster, and keeps the active rows in their order.
fn start_due(
    starts: &[(u64, usize)],
    next: &mut usize,
    at: u64,
    active: &mut Vec<usize>,
) -> Result<(), AllocError>
    ensures swept { OnOk result ((first end : ℕ → ℕ) (m : ℕ)
        → IsSwept first end m at active.old.items (drop next.old starts.now)
        → IsSwept first end m at active.new.items (drop next.new starts.now)) }
    ensures order { OnOk result (IsNonDecreasing active.old.items → IsNonDecreasing active.new.items) }
    ensures none { OnOk result (due_row at (drop next.new starts.now) ≡ None) }
{
    if due_row(starts, *next, at).is_none() {
        return Ok(());
    }
    add_due(starts, next, at, active)?;
    active.sort_unstable();
    Ok(())
}

/// The row of a number ends behind this cluster.
fn ends_behind(rows: &[Row<'_>], number: usize, at: u64) -> bool
    ensures { result ≡ nat_lt at (span_end (map row_span rows.now) number) }
{
    match rows.get(number) {
        None => false,
        Some(row) => at < row.end,
    }
}

/// Leaves out the active rows that don't end behind this cluster.
fn drop_ended(rows: &[Row<'_>], active: &mut Vec<usize>, at: u64)
    ensures { active.new.items ≡ filter (λ i. nat_lt at (span_end (map row_span rows.now) i)) active.old.items }
{
    let mut kept = 0;
    let mut index = 0;
    'active: while index < active.len() {
        let number = active[index];
        if ends_behind(rows, number, at) {
            active[kept] = number;
            kept += 1;
        }
        index += 1;
    }
    active.truncate(kept);
}

/// Prints the lines of the clusters from one on, below another one, for rows that lie there.
fn sweep<K: Sink>(
    alloc: Global,
    rows: &[Row<'_>],
    starts: &[(u64, usize)],
    from: u64,
    end: u64,
    pending: &mut Pending,
    out: &mut K,
) -> Result<(), ShowFault>
    requires swept { IsSwept (span_first (map row_span rows.now)) (span_end (map row_span rows.now))
        (length (map row_span rows.now)) from [] starts.now }
    requires ends { All (λ span. span.end ≤ end) (map row_span rows.now) }
    ensures pushes { Pushes (swept_lines (map row_span rows.now) from (end - from)) pending.old (K.seen out.old) result
        pending.new (K.seen out.new) }
    ensures faults { IfErr result IsPutCut }
    ensures frame { OnlyPrints K.Sink show_origin out.old out.new result }
{
    let mut active = Vec::new(alloc);
    let mut next = 0;
    let mut at = from;
    'clusters: while let Some(cluster) = next_cluster(&active, starts, next, at) {
        start_due(starts, &mut next, cluster, &mut active)?;
        print_rows(rows, &active, cluster, pending, out)?;
        at = cluster + 1;
        drop_ended(rows, &mut active, at);
    }
    Ok(())
}

/// Prints the lines of the clusters from one on, below another one, for rows that lie there: by cluster ascending, then
/// in the rows' order.
pub(crate) fn print_clusters<K: Sink>(
    alloc: Global,
    rows: &[Row<'_>],
    from: u64,
    end: u64,
    pending: &mut Pending,
    out: &mut K,
) -> Result<(), ShowFault>
    requires { All (LiesBetween from end) (map row_span rows.now) }
    ensures pushes { Pushes (swept_lines (map row_span rows.now) from (end - from)) pending.old (K.seen out.old) result
        pending.new (K.seen out.new) }
    ensures faults { IfErr result IsPutCut }
    ensures frame { OnlyPrints K.Sink show_origin out.old out.new result }
{
    let starts = starts_of(alloc, rows)?;
    sweep(alloc, rows, &starts, from, end, pending, out)
}
