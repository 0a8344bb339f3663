//! The bytes of runs, put row by row.

ghost use Rattle.std.specs.Prelude.{◌≡◌, ◌≤◌, Ok, true, length, OnOk};
ghost use Rattle.ntfs_base.specs.Bytes.{cluster_at};
ghost use Rattle.ntfs_base.specs.Frames.{Copies, IfTold, Puts};
ghost use Rattle.ntfs_boot.specs.Geometry.{IsOpened};
ghost use Rattle.ntfs_runs.specs.Cells.{are_cells, map_cells};
ghost use Rattle.ntfs_runs.specs.Clusters.{row, vcns};
ghost use Rattle.ntfs_stream.specs.Fault.{WantsBySink, stream_origin};
ghost use Rattle.ntfs_stream.specs.Putting.{IsLeftBehind, pieces};

use crate::fault::StreamFault;
use crate::row::{Remaining, behind_row, first_row, put_row};
use ntfs_base::{Image, Sink};
use ntfs_boot::Geometry;
use ntfs_runs::Run;

/// Puts the bytes of a run as far as bytes of the stream remain, by rows of as many clusters as the buffer has room
/// for.
fn put_run<G: Image, K: Sink>(
    image: &mut G,
    geometry: &Geometry,
    run: &Run,
    rest: &mut Remaining,
    buffer: &mut [u8],
    sink: &mut K,
) -> Result<(), StreamFault>
    requires opened { IsOpened (G.seen image.old).size geometry.now }
    requires cells { are_cells true geometry.now.clusters (row run.now.length run.now.lcn) ≡ true }
    requires buffer { geometry.now.cluster ≤ length buffer.old }
    requires rest { rest.old.valid ≤ rest.old.size }
    ensures told { IfTold G.Image image.old (λ content. Puts stream_origin
        (Ok (pieces geometry.now.cluster rest.old.size rest.old.valid
        (map_cells (cluster_at content geometry.now.cluster) (row run.now.length run.now.lcn))))
        (K.seen sink.old) result (K.seen sink.new)) }
    ensures rest { OnOk result (IsLeftBehind geometry.now.cluster run.now.length rest.old rest.new) }
    ensures copies { Copies G.Image K.Sink stream_origin image.old image.new sink.old sink.new result }
    ensures wants { WantsBySink result (K.faults sink.old) (K.faults sink.new) }
{
    let cluster = u64::from(geometry.cluster);
    let mut left = *run;
    'rows: while left.length > 0 && rest.size > 0 {
        let part = first_row(&left, cluster, rest.size, buffer.len());
        let bytes = part.length * cluster;
        put_row(
            image,
            geometry,
            &part,
            *rest,
            &mut buffer[..bytes as usize],
            sink,
        )?;
        rest.advance(bytes);
        left = behind_row(&left, part.length);
    }
    Ok(())
}

/// Puts the bytes of a stream's runs by way of a buffer.
pub(crate) fn put_runs<G: Image, K: Sink>(
    image: &mut G,
    geometry: &Geometry,
    runs: &[Run],
    rest: &mut Remaining,
    buffer: &mut [u8],
    sink: &mut K,
) -> Result<(), StreamFault>
    requires opened { IsOpened (G.seen image.old).size geometry.now }
    requires cells { are_cells true geometry.now.clusters (vcns runs.now) ≡ true }
    requires buffer { geometry.now.cluster ≤ length buffer.old }
    requires rest { rest.old.valid ≤ rest.old.size }
    ensures told { IfTold G.Image image.old (λ content. Puts stream_origin
        (Ok (pieces geometry.now.cluster rest.old.size rest.old.valid
        (map_cells (cluster_at content geometry.now.cluster) (vcns runs.now))))
        (K.seen sink.old) result (K.seen sink.new)) }
    ensures copies { Copies G.Image K.Sink stream_origin image.old image.new sink.old sink.new result }
    ensures wants { WantsBySink result (K.faults sink.old) (K.faults sink.new) }
{
    'runs: for run in runs {
        put_run(image, geometry, run, rest, buffer, sink)?;
    }
    Ok(())
}
