//! Clusters that are written in rows.

ghost use Rattle.std.specs.Prelude.{◌≡◌, ◌≤◌, ◌<◌, ◌+◌, ◌-◌, ◌*◌, ◌^◌, ◌++◌, ◌∷◌, [], ℕ, List, length, take, IfOk, IfErr, OnOk, OnErr, IsTrue};
ghost use Rattle.ntfs_base.specs.Frames.{OnlyWrites};
ghost use Rattle.ntfs_base.specs.Writes.{Wrote};
ghost use Rattle.ntfs_clone.specs.Commands.{Command, cluster, gap};
ghost use Rattle.ntfs_clone.specs.Fault.{IsWriteFault, clone_origin};
ghost use Rattle.ntfs_clone.specs.Header.{IsHeader};
ghost use Rattle.ntfs_clone.specs.declared.fault.CloneFault.TheVariants.{WriteFault};
ghost use Rattle.ntfs_clone.specs.Writing.{Begins, IsFront, IsHeld, IsSameFile, Reaches};

use crate::command::Progress;
use crate::fault::CloneFault;
use crate::header::CloneHeader;
use crate::row::Row;
use ntfs_base::HostFile;
use std::alloc::{AllocError, Global};

/// The bytes of clusters that are written at once.
pub(crate) const ROW: usize = 0x80000;

/// An empty row at the front of the device.
pub(crate) fn new_row(alloc: Global) -> Result<Row, AllocError>
    ensures bytes { IfOk result (λ row. row.bytes.items ≡ []) }
    ensures place { IfOk result (λ row. row.place ≡ 0) }
{
    Ok(Row {
        bytes: Vec::with_capacity(alloc, ROW)?,
        place: 0,
    })
}

/// Writes bytes at a place on a device of this length; what passes its end is cut off.
pub(crate) fn write_within<F: HostFile>(
    target: &mut F,
    device: u64,
    place: u64,
    bytes: &[u8],
) -> Result<(), CloneFault>
    requires within { place ≤ device }
    requires size { (F.seen target.old).size ≡ device }
    ensures wrote { Wrote (record { place = place; bytes = take (device - place) bytes.now } ∷ [])
        (F.seen target.old) result (F.seen target.new) }
    ensures fails { IfErr result (λ fault. fault ≡ WriteFault) }
    ensures writes { OnlyWrites F.Image clone_origin target.old target.new result }
{
    let count = (bytes.len() as u64).min(device - place) as usize;
    target
        .write_at(place, &bytes[..count])
        .map_err(|_| CloneFault::WriteFault)
}

/// Writes the row that waits, and goes on behind it.
pub(crate) fn flush<F: HostFile>(
    header: &CloneHeader,
    row: &mut Row,
    target: &mut F,
) -> Result<(), CloneFault>
    requires begins { Begins header.now row.old }
    requires size { (F.seen target.old).size ≡ header.now.device }
    requires fits { row.old.place + length row.old.bytes.items < 2 ^ 64 }
    ensures empty { OnOk result (row.new.bytes.items ≡ []) }
    ensures place { OnOk result (row.new.place ≡ row.old.place + length row.old.bytes.items) }
    ensures held { OnOk result ((read : List Command) → IsTrue (F.seen target.old).is_told
        → IsHeld header.now read row.old (F.seen target.old).content
        → IsHeld header.now read row.new (F.seen target.new).content) }
    ensures front { OnErr result ((read : List Command) → IsTrue (F.seen target.old).is_told
        → IsHeld header.now read row.old (F.seen target.old).content
        → IsFront header.now read (F.seen target.new).content) }
    ensures same { IsSameFile (F.seen target.old) (F.seen target.new) }
    ensures fails { IfErr result IsWriteFault }
    ensures writes { OnlyWrites F.Image clone_origin target.old target.new result }
{
    if row.bytes.len() == 0 {
        return Ok(());
    }
    write_within(target, header.device, row.place, &row.bytes)?;
    row.place += row.bytes.len() as u64;
    row.bytes.clear();
    Ok(())
}

/// Writes the row where it has no room for a further cluster.
fn make_room<F: HostFile>(
    header: &CloneHeader,
    row: &mut Row,
    target: &mut F,
) -> Result<(), CloneFault>
    requires begins { Begins header.now row.old }
    requires size { (F.seen target.old).size ≡ header.now.device }
    requires cluster { header.now.cluster ≤ 65536 }
    requires fits { row.old.place + length row.old.bytes.items < 2 ^ 63 }
    ensures place { OnOk result (row.new.place + length row.new.bytes.items
        ≡ row.old.place + length row.old.bytes.items) }
    ensures whole { OnOk result (length row.new.bytes.items ≤ length row.old.bytes.items) }
    ensures held { OnOk result ((read : List Command) → IsTrue (F.seen target.old).is_told
        → IsHeld header.now read row.old (F.seen target.old).content
        → IsHeld header.now read row.new (F.seen target.new).content) }
    ensures front { OnErr result ((read : List Command) → IsTrue (F.seen target.old).is_told
        → IsHeld header.now read row.old (F.seen target.old).content
        → IsFront header.now read (F.seen target.new).content) }
    ensures same { IsSameFile (F.seen target.old) (F.seen target.new) }
    ensures fails { IfErr result IsWriteFault }
    ensures writes { OnlyWrites F.Image clone_origin target.old target.new result }
{
    if row.bytes.len() + header.cluster as usize > ROW {
        flush(header, row, target)
    } else {
        Ok(())
    }
}

/// Goes on behind so many clusters that are left out: what waits is written, and they stay zeros.
pub(crate) fn put_gap<F: HostFile>(
    header: &CloneHeader,
    count: u64,
    progress: &Progress,
    row: &mut Row,
    target: &mut F,
) -> Result<(), CloneFault>
    requires header { IsHeader header.now }
    requires room { count ≤ progress.now.room }
    requires reaches { Reaches header.now progress.now.room row.old }
    requires size { (F.seen target.old).size ≡ header.now.device }
    ensures reaches { OnOk result (Reaches header.now (progress.now.room - count) row.new) }
    ensures held { OnOk result ((read : List Command) → IsTrue (F.seen target.old).is_told
        → IsHeld header.now read row.old (F.seen target.old).content
        → IsHeld header.now (read ++ gap count ∷ []) row.new (F.seen target.new).content) }
    ensures front { OnErr result ((read : List Command) → IsTrue (F.seen target.old).is_told
        → IsHeld header.now read row.old (F.seen target.old).content
        → IsFront header.now read (F.seen target.new).content) }
    ensures same { IsSameFile (F.seen target.old) (F.seen target.new) }
    ensures fails { IfErr result IsWriteFault }
    ensures writes { OnlyWrites F.Image clone_origin target.old target.new result }
{
    flush(header, row, target)?;
    row.place += count * u64::from(header.cluster);
    Ok(())
}

/// Puts a cluster behind those that wait.
pub(crate) fn put_cluster<F: HostFile>(
    header: &CloneHeader,
    bytes: &[u8],
    progress: &Progress,
    row: &mut Row,
    target: &mut F,
) -> Result<(), CloneFault>
    requires header { IsHeader header.now }
    requires room { 0 < progress.now.room }
    requires bytes { length bytes.now ≡ header.now.cluster }
    requires reaches { Reaches header.now progress.now.room row.old }
    requires size { (F.seen target.old).size ≡ header.now.device }
    ensures reaches { OnOk result (Reaches header.now (progress.now.room - 1) row.new) }
    ensures held { OnOk result ((read : List Command) → IsTrue (F.seen target.old).is_told
        → IsHeld header.now read row.old (F.seen target.old).content
        → IsHeld header.now (read ++ cluster bytes.now ∷ []) row.new (F.seen target.new).content) }
    ensures front { OnErr result ((read : List Command) → IsTrue (F.seen target.old).is_told
        → IsHeld header.now read row.old (F.seen target.old).content
        → IsFront header.now read (F.seen target.new).content) }
    ensures same { IsSameFile (F.seen target.old) (F.seen target.new) }
    ensures fails { IfErr result IsWriteFault }
    ensures writes { OnlyWrites F.Image clone_origin target.old target.new result }
{
    make_room(header, row, target)?;
    row.bytes.extend_from_slice(bytes)?;
    Ok(())
}
