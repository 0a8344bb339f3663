//! The clusters of a range, row by row.

ghost use Rattle.std.specs.Prelude.{◌≡◌, ◌≤◌, ◌<◌, ◌+◌, ◌-◌, ◌^◌, ◌++◌, length, map, IfOk, OnOk};
ghost use Rattle.std.specs.Option.{option_to_list, option_map};
ghost use Rattle.ntfs_runs.specs.Clusters.{vcns};
ghost use Rattle.ntfs_owners.specs.Held.{held_of};
ghost use Rattle.ntfs_owners.specs.Sweep.{held_spans, row_spans, run_spans, row_span};

use crate::holding::Holding;
use crate::row::Row;
use ntfs_runs::Run;
use std::alloc::{AllocError, Global};

/// The clusters of a run from a VCN on that lie from one on, below another one.
fn row_in<'a>(text: &'a str, vcn: u64, run: &Run, from: u64, end: u64) -> Option<Row<'a>>
    requires { vcn + run.now.length < 2 ^ 64 }
    ensures { option_to_list (option_map row_span result)
        ≡ row_spans from end text.now vcn run.now.length run.now.lcn }
{
    let first = run.lcn?;
    let low = first.max(from);
    let high = end.min(first.saturating_add(run.length));
    if low >= high {
        return None;
    }
    Some(Row {
        text,
        vcn: vcn + (low - first),
        first: low,
        end: high,
    })
}

/// Adds a row, where there is one.
fn add_row<'a>(row: Option<Row<'a>>, rows: &mut Vec<Row<'a>>) -> Result<(), AllocError>
    ensures { OnOk result (map row_span rows.new.items
        ≡ map row_span rows.old.items ++ option_to_list (option_map row_span row.entry)) }
{
    if let Some(row) = row {
        rows.push(row)?;
    }
    Ok(())
}

/// Adds the clusters of runs from a VCN on that lie from one on, below another one.
fn add_runs<'a>(
    text: &'a str,
    lowest: u64,
    runs: &[Run],
    from: u64,
    end: u64,
    rows: &mut Vec<Row<'a>>,
) -> Result<(), AllocError>
    requires { lowest + length (vcns runs.now) < 2 ^ 64 }
    ensures { OnOk result (map row_span rows.new.items
        ≡ map row_span rows.old.items ++ run_spans from end text.now lowest runs.now) }
{
    let mut vcn = lowest;
    'runs: for run in runs {
        add_row(row_in(text, vcn, run, from, end), rows)?;
        vcn += run.length;
    }
    Ok(())
}

/// The clusters of what attributes hold that lie from one on, below another one: row by row, in the attributes' order.
pub(crate) fn rows_in<'a>(
    alloc: Global,
    held: &'a [Holding],
    from: u64,
    end: u64,
) -> Result<Vec<Row<'a>>, AllocError>
    ensures { IfOk result (λ rows. map row_span rows.items ≡ held_spans from end (map held_of held.now)) }
{
    let mut rows = Vec::new(alloc);
    'held: for holding in held {
        add_runs(
            holding.text.as_str(),
            holding.lowest,
            holding.runs.runs(),
            from,
            end,
            &mut rows,
        )?;
    }
    Ok(rows)
}
