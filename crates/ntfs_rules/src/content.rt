//! The bytes of a stream, cluster by cluster.

ghost use Rattle.std.specs.Prelude.{◌≡◌, ◌≤◌, ◌<◌, ◌-◌, ◌+◌, ◌*◌, ◌^◌, ◌++◌, take, replicate, length, min, slice_get, Some, IfErr, IfOk, IfSome, OnOk};
ghost use Rattle.std.specs.Option.{option_map};
ghost use Rattle.ntfs_base.specs.Bytes.{cluster_at, piece_at};
ghost use Rattle.ntfs_base.specs.Frames.{IfTold, IsSettled, OnlyReads};
ghost use Rattle.ntfs_boot.specs.Geometry.{IsOpened};
ghost use Rattle.ntfs_rules.specs.Content.{AreReadable, shown_bytes};
ghost use Rattle.ntfs_rules.specs.Outcome.{check_origin};
ghost use Rattle.ntfs_runs.specs.Clusters.{AreWithin, vcns};
ghost use Rattle.ntfs_stream.specs.Putting.{shown_cell};
ghost use Rattle.ntfs_stream.specs.StreamBytes.{bytes_of_stream, filled_stream};
ghost use Rattle.ntfs_volume.specs.Streams.{IsReadable};

use crate::fault::CheckFault;
use ntfs_base::Image;
use ntfs_boot::Geometry;
use ntfs_runs::RunList;
use ntfs_volume::Stream;
use std::alloc::{AllocError, Global};
use std::marker::Model;

/// Puts zeros from a place on.
fn clear(buffer: &mut [u8], from: usize)
    requires { from ≤ length buffer.old }
    ensures { buffer.new ≡ take from buffer.old ++ replicate (length buffer.old - from) 0 }
{
    buffer[from..].fill(0);
}

/// Reads a cluster of a stream of which so many bytes, from its first on, are initialised. A hole, and bytes that
/// aren't initialised, are zeros; a hole, and a cluster of which nothing is initialised, is never read.
fn read_cell<G: Image>(
    image: &mut G,
    geometry: &Geometry,
    cell: Option<u64>,
    valid: u64,
    into: &mut [u8],
) -> Result<(), CheckFault>
    requires opened { IsOpened (G.seen image.old).size geometry.now }
    requires below { IfSome cell (λ k. k < geometry.now.clusters) }
    requires whole { length into.old ≡ geometry.now.cluster }
    ensures bytes { OnOk result (IfTold G.Image image.old (λ content. into.new ≡ shown_cell geometry.now.cluster valid
        (option_map (cluster_at content geometry.now.cluster) cell))) }
    ensures refused { IfErr result (λ fault. fault ≡ CheckFault.ReadFault) }
    ensures reads { OnlyReads G.Image check_origin image.old image.new result }
{
    let cluster = u64::from(geometry.cluster);
    let count = valid.min(cluster) as usize;
    match cell {
        Some(lcn) if count > 0 => {
            image.read_at(lcn * cluster, into)?;
            clear(into, count);
        }
        _ => clear(into, 0),
    }
    Ok(())
}

/// What stands at a VCN that the runs have: its cluster, or a hole.
fn cell_of(runs: &RunList, vcn: u64) -> Option<u64>
    requires within { AreWithin runs.now }
    requires there { vcn < length (vcns runs.now) }
    ensures { slice_get (vcns runs.now) vcn ≡ Some result }
{
    match runs.lcn_of(vcn) {
        None => unreachable!(),
        Some(cell) => cell,
    }
}

/// Reads what runs show of a VCN, where so many bytes from the first VCN on are initialised.
pub fn read_vcn<G: Image>(
    image: &mut G,
    geometry: &Geometry,
    runs: &RunList,
    valid: u64,
    vcn: u64,
    into: &mut [u8],
) -> Result<(), CheckFault>
    requires readable { AreReadable (G.seen image.old).size geometry.now runs.now }
    requires there { vcn < length (vcns runs.now) }
    requires whole { length into.old ≡ geometry.now.cluster }
    ensures bytes { OnOk result (IfTold G.Image image.old (λ content. into.new
        ≡ piece_at (vcn * geometry.now.cluster) geometry.now.cluster
        (shown_bytes geometry.now content valid runs.now))) }
    ensures refused { IfErr result (λ fault. fault ≡ CheckFault.ReadFault) }
    ensures reads { OnlyReads G.Image check_origin image.old image.new result }
{
    let before = vcn.saturating_mul(u64::from(geometry.cluster));
    let left = valid.saturating_sub(before);
    read_cell(image, geometry, cell_of(runs, vcn), left, into)?;
    Ok(())
}

/// The first bytes of a stream.
#[derive(Drop)]
pub struct Front {
    bytes: Vec<u8>,
}

impl Model for Front {
    ghost use Rattle.std.specs.Prelude.{ℕ, List};

    ghost Value = { List ℕ };

    ghost view = { λ f. f.bytes.items };
}

impl Front {
    pub fn bytes(&self) -> &[u8]
        ensures { result.now ≡ self.now }
    {
        &self.bytes
    }
}

/// A copy of so many bytes, or of all where there are fewer.
fn front_of(alloc: Global, bytes: &[u8], most: u64) -> Result<Front, AllocError>
    ensures { IfOk result (λ front. front ≡ take most bytes.now) }
{
    let count = most.min(bytes.len() as u64) as usize;
    let mut copy = Vec::new(alloc);
    copy.extend_from_slice(&bytes[..count])?;
    Ok(Front { bytes: copy })
}

/// The first bytes that runs show, so many, of which so many are initialised.
fn read_runs<G: Image>(
    alloc: Global,
    image: &mut G,
    geometry: &Geometry,
    runs: &RunList,
    valid: u64,
    most: u64,
) -> Result<Front, CheckFault>
    requires readable { AreReadable (G.seen image.old).size geometry.now runs.now }
    requires there { most ≤ length (vcns runs.now) * geometry.now.cluster }
    requires few { most < 2 ^ 32 }
    ensures bytes { IfOk result (λ front. IfTold G.Image image.old (λ content. front
        ≡ take most (shown_bytes geometry.now content valid runs.now))) }
    ensures cut { IfErr result (λ fault. IsSettled (check_origin fault) → ⊥) }
    ensures reads { OnlyReads G.Image check_origin image.old image.new result }
{
    let cluster = u64::from(geometry.cluster);
    let mut buffer = vec![in alloc; 0; geometry.cluster as usize]?;
    let mut bytes = Vec::new(alloc);
    let mut vcn = 0u64;
    'clusters: while vcn * cluster < most {
        if let Err(fault) = read_vcn(image, geometry, runs, valid, vcn, &mut buffer) {
            return Err(fault);
        }
        let count = (most - vcn * cluster).min(cluster) as usize;
        bytes.extend_from_slice(&buffer[..count])?;
        vcn += 1;
    }
    Ok(Front { bytes })
}

/// The first bytes of a stream, so many, or all where there are fewer.
pub fn read_front<G: Image>(
    alloc: Global,
    image: &mut G,
    geometry: &Geometry,
    stream: &Stream,
    most: u64,
) -> Result<Front, CheckFault>
    requires opened { IsOpened (G.seen image.old).size geometry.now }
    requires readable { IsReadable geometry.now stream.now.stream }
    requires few { most < 2 ^ 32 }
    ensures bytes { IfOk result (λ front. IfTold G.Image image.old (λ content. front ≡ take most
        (bytes_of_stream geometry.now.cluster (filled_stream geometry.now content stream.now.stream)))) }
    ensures cut { IfErr result (λ fault. IsSettled (check_origin fault) → ⊥) }
    ensures reads { OnlyReads G.Image check_origin image.old image.new result }
{
    if let Some(value) = stream.value() {
        return Ok(front_of(alloc, value, most)?);
    }
    match stream.runs() {
        None => unreachable!(),
        Some(runs) => {
            let count = most.min(stream.size());
            read_runs(alloc, image, geometry, runs, stream.valid(), count)
        }
    }
}
