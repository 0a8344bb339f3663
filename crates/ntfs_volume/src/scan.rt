//! The records of a volume one after another, as they stand on disk, through one buffer.

ghost use Rattle.std.specs.Prelude.{◌≡◌, ◌≤◌, ◌<◌, ◌+◌, ◌-◌, ◌*◌, ◌^◌, min, length, take, drop, true, Ok, IfOk, IfErr, OnErr, ℕ, List, None};
ghost use Rattle.ntfs_base.specs.Bytes.{cluster_at};
ghost use Rattle.ntfs_base.specs.Frames.{Gives, IfTold, OnlyReads};
ghost use Rattle.ntfs_boot.specs.Geometry.{IsOpened};
ghost use Rattle.ntfs_runs.specs.Cells.{are_cells, map_cells};
ghost use Rattle.ntfs_runs.specs.Clusters.{vcns};
ghost use Rattle.ntfs_volume.specs.Fault.{volume_origin};
ghost use Rattle.ntfs_volume.specs.Opened.{HasClusters};
ghost use Rattle.ntfs_volume.specs.Records.{raw_record};
ghost use Rattle.ntfs_volume.specs.Scan.{HoldRecords, IsCursor, IsScan, StandsAt, initialised_count, scan_at, taken_count};
ghost use Rattle.ntfs_volume.specs.StreamBytes.{cells_bytes};

use crate::fault::VolumeFault;
use crate::pieces::read_from;
use crate::table::Table;
use ntfs_base::Image;
use ntfs_boot::Geometry;
use ntfs_runs::Run;
use std::marker::Model;

/// A run of a list, and the place in the bytes of all runs at which it begins.
#[derive(Clone, Copy)]
pub(crate) struct Cursor {
    pub(crate) index: usize,
    pub(crate) begins: u64,
}

/// The run in which a place lies, from a run before it on.
fn seek(cluster: u32, runs: &[Run], from: Cursor, place: u64) -> Cursor
    requires from { IsCursor cluster runs.now from }
    requires above { from.begins ≤ place }
    requires within { place ≤ length (vcns runs.now) * cluster }
    ensures stands { StandsAt cluster runs.now place result }
    ensures further { from.index ≤ result.index }
{
    let mut at = from;
    'runs: while at.index < runs.len() {
        let bytes = u128::from(runs[at.index].length) * u128::from(cluster);
        let end = u128::from(at.begins) + bytes;
        if u128::from(place) < end {
            return at;
        }
        at = Cursor {
            index: at.index + 1,
            begins: end as u64,
        };
    }
    at
}

/// Reads bytes from a place on, which lies in the run of a cursor or behind it, up to one in the run of another.
fn read_between<G: Image>(
    image: &mut G,
    geometry: &Geometry,
    runs: &[Run],
    from: Cursor,
    to: Cursor,
    place: u64,
    into: &mut [u8],
) -> Result<(), VolumeFault>
    requires opened { IsOpened (G.seen image.old).size geometry.now }
    requires cells { are_cells true geometry.now.clusters (vcns runs.now) ≡ true }
    requires from { IsCursor geometry.now.cluster runs.now from }
    requires above { from.begins ≤ place }
    requires further { from.index ≤ to.index }
    requires to { StandsAt geometry.now.cluster runs.now (place + length into.old) to }
    ensures gives { IfTold G.Image image.old (λ content. Gives volume_origin (λ done. into.new)
        (Ok (take (length into.old) (drop place (cells_bytes geometry.now.cluster
        (map_cells (cluster_at content geometry.now.cluster) (vcns runs.now)))))) result) }
    ensures refused { IfErr result (λ fault. fault ≡ VolumeFault.ReadFault) }
    ensures reads { OnlyReads G.Image volume_origin image.old image.new result }
{
    let end = runs.len().min(to.index + 1);
    read_from(
        image,
        geometry,
        &runs[from.index..end],
        place - from.begins,
        into,
    )
}

/// The records of a volume that lie wholly in the initialised part of $MFT, one after another, as they stand on disk.
#[derive(Drop)]
pub struct Scan<'a> {
    table: &'a Table,
    runs: &'a [Run],
    cursor: Cursor,
    next: u64,
}

impl<'a> Model for Scan<'a> {
    ghost use Rattle.ntfs_volume.specs.Scan.{IsScan, Scanning, scan_at};

    ghost Value = { Scanning };

    ghost view = { λ s. scan_at s.table.now s.next };

    ghost invariant = { λ s. IsScan s.table.now s.runs.now s.cursor s.next };
}

impl<'a> Scan<'a> {
    /// The records of a volume whose $MFT has these runs, from the first on.
    pub(crate) fn new(table: &'a Table, runs: &'a [Run]) -> Scan<'a>
        requires { IsScan table.now runs.now (record { index = 0; begins = 0 }) 0 }
        ensures { result ≡ scan_at table.now 0 }
    {
        Scan {
            table,
            runs,
            cursor: Cursor {
                index: 0,
                begins: 0,
            },
            next: 0,
        }
    }

    /// The number of the record that comes next.
    pub fn next_number(&self) -> u64
        ensures next { result ≡ self.now.next }
        ensures there { result ≤ initialised_count self.now.table.geometry self.now.table.map }
    {
        self.next
    }

    /// Fills a buffer with the records that come next, as many as it has room for, and tells how many they are: none
    /// where the last came before. After a refusal the buffer holds anything, and the same records come next.
    pub fn fill<G: Image>(&mut self, image: &mut G, buffer: &mut [u8]) -> Result<u64, VolumeFault>
        requires held { HasClusters (G.seen image.old).size self.old.table }
        ensures gives { IfTold G.Image image.old (λ content. IfOk result (λ count.
            HoldRecords self.old.table.geometry self.old.table.map
            (cluster_at content self.old.table.geometry.cluster) self.old.next count buffer.new)) }
        ensures count { IfOk result (λ count. count ≡ taken_count self.old (length buffer.old)) }
        ensures next { IfOk result (λ count. self.new ≡ scan_at self.old.table (self.old.next + count)) }
        ensures kept { OnErr result (self.new ≡ self.old) }
        ensures refused { IfErr result (λ fault. fault ≡ VolumeFault.ReadFault) }
        ensures reads { OnlyReads G.Image volume_origin image.old image.new result }
    {
        let geometry = self.table.geometry();
        let size = u64::from(geometry.record_size);
        let left = self.table.initialised_count() - self.next;
        let count = left.min(buffer.len() as u64 / size);
        let place = self.next * size;
        let bytes = count * size;
        let behind = seek(geometry.cluster, self.runs, self.cursor, place + bytes);
        read_between(
            image,
            geometry,
            self.runs,
            self.cursor,
            behind,
            place,
            &mut buffer[..bytes as usize],
        )?;
        self.cursor = behind;
        self.next += count;
        Ok(count)
    }
}
