//! The bytes of clusters in a row, read run by run.

ghost use Rattle.std.specs.Prelude.{◌≡◌, ◌≤◌, ◌<◌, ◌+◌, ◌-◌, ◌*◌, ◌^◌, Ok, true, min, length, replicate, take, drop, Some, None, IfErr, if◌then◌else◌};
ghost use Rattle.ntfs_base.specs.Bytes.{cluster_at, raw_of, stream};
ghost use Rattle.ntfs_base.specs.Frames.{Gives, IfTold, OnlyReads};
ghost use Rattle.ntfs_boot.specs.Geometry.{IsOpened};
ghost use Rattle.ntfs_runs.specs.Cells.{are_cells, map_cells};
ghost use Rattle.ntfs_runs.specs.Clusters.{row, vcns};
ghost use Rattle.ntfs_volume.specs.Fault.{volume_origin};
ghost use Rattle.ntfs_volume.specs.Opened.{AreTableRuns};
ghost use Rattle.ntfs_volume.specs.StreamBytes.{cells_bytes, clusters_in};

use crate::fault::VolumeFault;
use ntfs_base::Image;
use ntfs_boot::Geometry;
use ntfs_runs::Run;

fn clear(bytes: &mut [u8])
    ensures { bytes.new ≡ replicate (length bytes.old) 0 }
{
    bytes.fill(0);
}

/// Reads bytes of one run, from a place in it on; a hole has zeros. Where none are wanted, the place may lie anywhere.
fn read_run<G: Image>(
    image: &mut G,
    geometry: &Geometry,
    run: &Run,
    from: u64,
    into: &mut [u8],
) -> Result<(), VolumeFault>
    requires opened { IsOpened (G.seen image.old).size geometry.now }
    requires cells { are_cells true geometry.now.clusters (row run.now.length run.now.lcn) ≡ true }
    requires within { 0 < length into.old → from + length into.old ≤ run.now.length * geometry.now.cluster }
    ensures gives { IfTold G.Image image.old (λ content. Gives volume_origin (λ done. into.new)
        (Ok (take (length into.old) (drop from (cells_bytes geometry.now.cluster
        (map_cells (cluster_at content geometry.now.cluster) (row run.now.length run.now.lcn)))))) result) }
    ensures refused { IfErr result (λ fault. fault ≡ VolumeFault.ReadFault) }
    ensures reads { OnlyReads G.Image volume_origin image.old image.new result }
{
    if into.is_empty() {
        return Ok(());
    }
    let Some(lcn) = run.lcn else {
        clear(into);
        return Ok(());
    };
    image.read_at(lcn * u64::from(geometry.cluster) + from, into)?;
    Ok(())
}

/// How many bytes of so many are to be read behind those that are skipped, of so many that are wanted.
fn count_in(bytes: u128, skip: u64, wanted: usize) -> usize
    ensures { result ≡ min (bytes - skip) wanted }
{
    bytes.saturating_sub(u128::from(skip)).min(wanted as u128) as usize
}

/// How many bytes remain to be skipped behind so many.
fn skip_behind(bytes: u128, skip: u64) -> u64
    ensures { result ≡ skip - bytes }
{
    u128::from(skip).saturating_sub(bytes) as u64
}

/// Reads bytes of runs from a place on, each run's in a row; a hole has zeros.
pub(crate) fn read_from<G: Image>(
    image: &mut G,
    geometry: &Geometry,
    runs: &[Run],
    from: u64,
    block: &mut [u8],
) -> Result<(), VolumeFault>
    requires opened { IsOpened (G.seen image.old).size geometry.now }
    requires cells { are_cells true geometry.now.clusters (vcns runs.now) ≡ true }
    requires within { from + length block.old ≤ length (vcns runs.now) * geometry.now.cluster }
    ensures gives { IfTold G.Image image.old (λ content. Gives volume_origin (λ done. block.new)
        (Ok (take (length block.old) (drop from (cells_bytes geometry.now.cluster
        (map_cells (cluster_at content geometry.now.cluster) (vcns runs.now)))))) result) }
    ensures refused { IfErr result (λ fault. fault ≡ VolumeFault.ReadFault) }
    ensures reads { OnlyReads G.Image volume_origin image.old image.new result }
{
    let mut skip = from;
    let mut done = 0;
    'runs: for run in runs {
        let bytes = u128::from(run.length) * u128::from(geometry.cluster);
        let count = count_in(bytes, skip, block.len() - done);
        read_run(image, geometry, run, skip, &mut block[done..done + count])?;
        done += count;
        skip = skip_behind(bytes, skip);
    }
    Ok(())
}

/// Reads the bytes of the record of a number, and tells whether they lie wholly in the first bytes of $MFT's clusters.
pub(crate) fn read_raw<G: Image>(
    image: &mut G,
    geometry: &Geometry,
    runs: &[Run],
    bytes: u64,
    number: u64,
    block: &mut [u8],
) -> Result<bool, VolumeFault>
    requires opened { IsOpened (G.seen image.old).size geometry.now }
    requires runs { AreTableRuns geometry.now.clusters runs.now }
    requires bytes { bytes ≤ length (vcns runs.now) * geometry.now.cluster }
    requires block { length block.old ≡ geometry.now.record_size }
    ensures gives { IfTold G.Image image.old (λ content. Gives volume_origin
        (λ there. if there then Some block.new else None)
        (Ok (raw_of geometry.now.record_size
        (take bytes (stream (cluster_at content geometry.now.cluster) (clusters_in (vcns runs.now)))) number)) result) }
    ensures reads { OnlyReads G.Image volume_origin image.old image.new result }
{
    let size = u64::from(geometry.record_size);
    if number >= bytes / size {
        return Ok(false);
    }
    read_from(image, geometry, runs, number * size, block)?;
    Ok(true)
}
