//! A row of clusters of a run, or of a hole, read at once and put at once.

ghost use Rattle.std.specs.Int.{div_ceil, next_multiple_of};
ghost use Rattle.std.specs.Prelude.{◌≡◌, ◌≤◌, ◌<◌, ◌^◌, ◌+◌, ◌-◌, ◌*◌, ◌/◌, ◌%◌, ◌++◌, Ok, true, length, min, take, replicate, IfErr, IfSome};
ghost use Rattle.ntfs_base.specs.Bytes.{cluster_at};
ghost use Rattle.ntfs_base.specs.Frames.{Copies, Gives, IfTold, OnlyReads, Puts};
ghost use Rattle.ntfs_boot.specs.Geometry.{IsOpened};
ghost use Rattle.ntfs_runs.specs.Cells.{are_cells, map_cells};
ghost use Rattle.ntfs_runs.specs.Clusters.{behind, row};
ghost use Rattle.ntfs_stream.specs.Fault.{WantsBySink, stream_origin};
ghost use Rattle.ntfs_stream.specs.declared.fault.StreamFault.TheVariants.{ReadFault};
ghost use Rattle.ntfs_stream.specs.Putting.{HasNoBytes, pieces, row_length, shown_cells};

use crate::fault::StreamFault;
use ntfs_base::{Image, Sink};
use ntfs_boot::Geometry;
use ntfs_runs::Run;

/// How many bytes of a stream remain to be put, and how many of them are initialised.
#[derive(Clone, Copy)]
pub(crate) struct Remaining {
    pub(crate) size: u64,
    pub(crate) valid: u64,
}

impl Remaining {
    /// The bytes of clusters were put.
    pub(crate) fn advance(&mut self, bytes: u64)
        ensures size { self.new.size ≡ self.old.size - bytes }
        ensures valid { self.new.valid ≡ self.old.valid - bytes }
    {
        self.size = self.size.saturating_sub(bytes);
        self.valid = self.valid.saturating_sub(bytes);
    }
}

/// The first clusters of a run, as many as are read at once: a buffer of so many bytes has room for them, and so many
/// bytes of the stream remain.
#[tactic(auto, unfolding(crate::specs::Putting::row_length))]
pub(crate) fn first_row(run: &Run, cluster: u64, size: u64, room: usize) -> Run
    requires { 0 < cluster }
    ensures length { result.length ≡ row_length cluster size room run.now.length }
    ensures lcn { result.lcn ≡ run.now.lcn }
{
    let most = (room as u64 / cluster).min(size.div_ceil(cluster));
    Run {
        length: run.length.min(most),
        lcn: run.lcn,
    }
}

/// The rest of a run behind so many of its clusters.
pub(crate) fn behind_row(run: &Run, clusters: u64) -> Run
    requires length { clusters ≤ run.now.length }
    requires lcn { IfSome run.now.lcn (λ lcn. lcn + clusters < 2 ^ 64) }
    ensures length { result.length ≡ run.now.length - clusters }
    ensures lcn { result.lcn ≡ behind run.now.lcn clusters }
{
    Run {
        length: run.length - clusters,
        lcn: match run.lcn {
            None => None,
            Some(lcn) => Some(lcn + clusters),
        },
    }
}

/// How many bytes are read for so many initialised ones: those of the clusters that hold them.
fn read_length(valid: u64, cluster: u64) -> u64
    requires cluster { 0 < cluster }
    requires valid { valid + cluster ≤ 2 ^ 64 }
    ensures exact { result ≡ next_multiple_of valid cluster }
    ensures enough { valid ≤ result }
    ensures less { result < valid + cluster }
    ensures whole { result % cluster ≡ 0 }
{
    valid.next_multiple_of(cluster)
}

/// Puts zeros from a place on.
fn clear(buffer: &mut [u8], from: usize)
    requires { from ≤ length buffer.old }
    ensures { buffer.new ≡ take from buffer.old ++ replicate (length buffer.old - from) 0 }
{
    buffer[from..].fill(0);
}

/// Reads a row of which so many bytes are initialised: a hole, and what isn't initialised, is zeros. A hole, and a
/// cluster of which nothing is initialised, is never read.
fn read_row<G: Image>(
    image: &mut G,
    geometry: &Geometry,
    part: &Run,
    valid: u64,
    buffer: &mut [u8],
) -> Result<(), StreamFault>
    requires opened { IsOpened (G.seen image.old).size geometry.now }
    requires cells { are_cells true geometry.now.clusters (row part.now.length part.now.lcn) ≡ true }
    requires buffer { length buffer.old ≡ part.now.length * geometry.now.cluster }
    ensures gives { IfTold G.Image image.old (λ content. Gives stream_origin (λ done. buffer.new)
        (Ok (shown_cells geometry.now.cluster valid
        (map_cells (cluster_at content geometry.now.cluster) (row part.now.length part.now.lcn)))) result) }
    ensures unread { HasNoBytes part.now.lcn valid → image.new ≡ image.old }
    ensures reads { OnlyReads G.Image stream_origin image.old image.new result }
    ensures fails { IfErr result (λ fault. fault ≡ ReadFault) }
{
    let valid = valid.min(buffer.len() as u64);
    match part.lcn {
        Some(lcn) if valid > 0 => {
            let cluster = u64::from(geometry.cluster);
            let end = read_length(valid, cluster);
            image.read_at(lcn * cluster, &mut buffer[..end as usize])?;
            clear(buffer, valid as usize);
        }
        _ => clear(buffer, 0),
    }
    Ok(())
}

/// Reads a row and puts its bytes, as far as bytes of the stream remain.
pub(crate) fn put_row<G: Image, K: Sink>(
    image: &mut G,
    geometry: &Geometry,
    part: &Run,
    rest: Remaining,
    buffer: &mut [u8],
    sink: &mut K,
) -> Result<(), StreamFault>
    requires opened { IsOpened (G.seen image.old).size geometry.now }
    requires cells { are_cells true geometry.now.clusters (row part.now.length part.now.lcn) ≡ true }
    requires buffer { length buffer.old ≡ part.now.length * geometry.now.cluster }
    ensures told { IfTold G.Image image.old (λ content. Puts stream_origin
        (Ok (pieces geometry.now.cluster rest.size rest.valid
        (map_cells (cluster_at content geometry.now.cluster) (row part.now.length part.now.lcn))))
        (K.seen sink.old) result (K.seen sink.new)) }
    ensures unread { HasNoBytes part.now.lcn rest.valid → image.new ≡ image.old }
    ensures copies { Copies G.Image K.Sink stream_origin image.old image.new sink.old sink.new result }
    ensures wants { WantsBySink result (K.faults sink.old) (K.faults sink.new) }
{
    read_row(image, geometry, part, rest.valid, buffer)?;
    sink.put(&buffer[..rest.size.min(buffer.len() as u64) as usize])?;
    Ok(())
}
