//! Bytes of a stream's runs from any place on.

ghost use Rattle.std.specs.Prelude.{◌≡◌, ◌≤◌, ◌<◌, ◌+◌, ◌-◌, ◌%◌, ◌++◌, take, replicate, length, min, slice_get, Some, OnOk};
ghost use Rattle.ntfs_base.specs.Bytes.{piece_at};
ghost use Rattle.ntfs_base.specs.Frames.{IfTold, OnlyReads};
ghost use Rattle.ntfs_directory.specs.Fault.{failed_origin};
ghost use Rattle.ntfs_directory.specs.Runs.{CanReadRuns, placed_bytes};
ghost use Rattle.ntfs_runs.specs.Clusters.{AreWithin, vcns};

use ntfs_base::{Failed, Image};
use ntfs_boot::Geometry;
use ntfs_runs::RunList;

/// Where the clusters of a stream lie, and its sizes.
#[derive(Clone, Copy)]
pub(crate) struct Placed<'a> {
    pub(crate) runs: &'a RunList,
    pub(crate) size: u64,
    pub(crate) valid: u64,
}

/// Puts zeros from a place on.
fn clear(buffer: &mut [u8], from: usize)
    requires { from ≤ length buffer.old }
    ensures { buffer.new ≡ take from buffer.old ++ replicate (length buffer.old - from) 0 }
{
    buffer[from..].fill(0);
}

/// How many of so many bytes from a place on lie in its cluster.
fn piece_length(place: u64, cluster: u64, most: usize) -> usize
    requires { 0 < cluster }
    ensures { result ≡ min (cluster - place % cluster) most }
{
    (cluster - place % cluster).min(most as u64) as usize
}

/// What stands at a VCN that the runs have: its cluster, or a hole.
fn cell_of(runs: &RunList, vcn: u64) -> Option<u64>
    requires within { AreWithin runs.now }
    requires there { vcn < length (vcns runs.now) }
    ensures { slice_get (vcns runs.now) vcn ≡ Some result }
{
    match runs.lcn_of(vcn) {
        None => unreachable!(),
        Some(cell) => cell,
    }
}

/// Reads bytes that lie in one cluster of a stream. A hole, and bytes that aren't initialised, are zeros; a hole, and a
/// piece of which nothing is initialised, is never read.
fn read_piece<G: Image>(
    image: &mut G,
    geometry: &Geometry,
    stream: &Placed<'_>,
    place: u64,
    into: &mut [u8],
) -> Result<(), Failed>
    requires readable { CanReadRuns (G.seen image.old).size geometry.now stream.now }
    requires some { 0 < length into.old }
    requires within { place + length into.old ≤ stream.now.size }
    requires one { place % geometry.now.cluster + length into.old ≤ geometry.now.cluster }
    ensures bytes { OnOk result (IfTold G.Image image.old (λ content. into.new ≡
        piece_at place (length into.old) (placed_bytes geometry.now content stream.now))) }
    ensures reads { OnlyReads G.Image failed_origin image.old image.new result }
{
    let cluster = u64::from(geometry.cluster);
    let valid = stream.valid.saturating_sub(place).min(into.len() as u64) as usize;
    match cell_of(stream.runs, place / cluster) {
        Some(lcn) if valid > 0 => {
            image.read_at(lcn * cluster + place % cluster, into)?;
            clear(into, valid);
        }
        _ => clear(into, 0),
    }
    Ok(())
}

/// Reads the bytes of a stream from a place on.
pub(crate) fn read_runs<G: Image>(
    image: &mut G,
    geometry: &Geometry,
    stream: &Placed<'_>,
    place: u64,
    into: &mut [u8],
) -> Result<(), Failed>
    requires readable { CanReadRuns (G.seen image.old).size geometry.now stream.now }
    requires within { place + length into.old ≤ stream.now.size }
    ensures bytes { OnOk result (IfTold G.Image image.old (λ content. into.new ≡
        piece_at place (length into.old) (placed_bytes geometry.now content stream.now))) }
    ensures reads { OnlyReads G.Image failed_origin image.old image.new result }
{
    let cluster = u64::from(geometry.cluster);
    let mut done = 0;
    'pieces: while done < into.len() {
        let at = place + done as u64;
        let count = piece_length(at, cluster, into.len() - done);
        read_piece(image, geometry, stream, at, &mut into[done..done + count])?;
        done += count;
    }
    Ok(())
}
