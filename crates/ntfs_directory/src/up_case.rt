//! The table of upper-case units of a volume, by which the names in its directories are compared.

ghost use Rattle.std.specs.Prelude.{◌≡◌, [], true, vec_len, IfErr, IfOk};
ghost use Rattle.ntfs_base.specs.Bytes.{cluster_at};
ghost use Rattle.ntfs_base.specs.Frames.{Gives, IfTold, IsSettled, OnlyReads};
ghost use Rattle.ntfs_boot.specs.Geometry.{IsOpened};
ghost use Rattle.ntfs_directory.specs.Allocation.{allocation_bytes};
ghost use Rattle.ntfs_directory.specs.Fault.{unwalkable};
ghost use Rattle.ntfs_directory.specs.UpCase.{data_kind, has_table_sizes, is_up_case, up_case_found, up_case_of, up_case_record, up_case_size};
ghost use Rattle.ntfs_upcase.specs.Names.{units};
ghost use Rattle.ntfs_volume.specs.Fault.{volume_origin};
ghost use Rattle.ntfs_volume.specs.Opened.{HasClusters};
ghost use Rattle.ntfs_volume.specs.Streams.{IsReadable, gather_of};

use crate::allocation::read_stream;
use crate::fault::unwalkable;
use ntfs_base::Image;
use ntfs_boot::Geometry;
use ntfs_upcase::UpCase;
use ntfs_volume::{Stream, Table, VolumeFault};
use std::alloc::Global;

/// The record of $UpCase.
const RECORD: u64 = 10;

/// The type of $DATA.
const DATA: u32 = 0x80;

/// Two bytes for each of the 65,536 units.
const SIZE: usize = 131_072;

/// Gathers $UpCase, which must be there.
fn gather_up_case<G: Image>(
    alloc: Global,
    image: &mut G,
    table: &Table,
) -> Result<Stream, VolumeFault>
    requires held { HasClusters (G.seen image.old).size table.now }
    ensures gives { IfTold G.Image image.old (λ content. Gives volume_origin (λ found. found.stream)
        (up_case_found (gather_of table.now.geometry table.now.map
        (cluster_at content table.now.geometry.cluster) up_case_record data_kind [])) result) }
    ensures readable { IfOk result (λ found. IsReadable table.now.geometry found.stream) }
    ensures reads { OnlyReads G.Image volume_origin image.old image.new result }
{
    match table.gather(alloc, image, RECORD, DATA, &[]) {
        Err(VolumeFault::Absent) => Err(unwalkable(RECORD)),
        Err(VolumeFault::NoAttribute) => Err(unwalkable(RECORD)),
        Err(fault) => Err(fault),
        Ok(found) => Ok(found),
    }
}

/// A stream has no flags, the size of a table, and is initialised to its end.
#[tactic(auto, unfolding(crate::specs::UpCase::has_table_sizes))]
fn has_table_sizes(stream: &Stream) -> bool
    ensures { result ≡ has_table_sizes stream.now.stream }
{
    stream.flags() == 0 && stream.size() == SIZE as u64 && stream.valid() == SIZE as u64
}

/// A stream is a table, on a volume of so many clusters.
fn is_up_case(stream: &Stream, clusters: u64) -> bool
    ensures { result ≡ is_up_case clusters stream.now.stream }
{
    match stream.runs() {
        None => false,
        Some(runs) => has_table_sizes(stream) && runs.lies_below(false, clusters),
    }
}

/// All bytes of a table.
fn table_bytes<G: Image>(
    alloc: Global,
    image: &mut G,
    geometry: &Geometry,
    stream: &Stream,
) -> Result<Vec<u8>, VolumeFault>
    requires opened { IsOpened (G.seen image.old).size geometry.now }
    requires readable { IsReadable geometry.now stream.now.stream }
    requires whole { is_up_case geometry.now.clusters stream.now.stream ≡ true }
    ensures bytes { IfOk result (λ bytes. IfTold G.Image image.old (λ content.
        bytes.items ≡ allocation_bytes geometry.now content stream.now.stream)) }
    ensures long { IfOk result (λ bytes. vec_len bytes ≡ up_case_size) }
    ensures cut { IfErr result (λ fault. IsSettled (volume_origin fault) → ⊥) }
    ensures reads { OnlyReads G.Image volume_origin image.old image.new result }
{
    let mut bytes = vec![in alloc; 0; SIZE]?;
    read_stream(image, geometry, stream, 0, &mut bytes)?;
    Ok(bytes)
}

/// The table of a volume, which $UpCase has.
///
/// It is refused by rule C13 where record 10 has no such stream, or one that has flags, holes, another size or less
/// initialised.
pub fn read_up_case<G: Image>(
    alloc: Global,
    image: &mut G,
    table: &Table,
) -> Result<UpCase, VolumeFault>
    requires held { HasClusters (G.seen image.old).size table.now }
    ensures gives { IfTold G.Image image.old (λ content. Gives volume_origin (λ names. names)
        (up_case_of table.now.geometry table.now.map content) result) }
    ensures reads { OnlyReads G.Image volume_origin image.old image.new result }
{
    let found = gather_up_case(alloc, image, table)?;
    if !is_up_case(&found, table.geometry().clusters) {
        return Err(unwalkable(RECORD));
    }
    let bytes = table_bytes(alloc, image, table.geometry(), &found)?;
    Ok(UpCase::from_bytes(alloc, &bytes)?)
}
