//! The bytes of a record's stream, put.

ghost use Rattle.std.specs.Prelude.{◌≡◌, IfOk};
ghost use Rattle.ntfs_base.specs.Frames.{Copies, Gives, IfTold, OnlyReads, Puts};
ghost use Rattle.ntfs_boot.specs.Geometry.{IsOpened};
ghost use Rattle.ntfs_show.specs.Cat.{cat_outcome, gathered_stream, printed_bytes};
ghost use Rattle.ntfs_print.specs.Fault.{show_origin};
ghost use Rattle.ntfs_volume.specs.Opened.{HasClusters};
ghost use Rattle.ntfs_volume.specs.Streams.{IsReadable};

use ntfs_base::{Image, Sink};
use ntfs_boot::Geometry;
use ntfs_print::{ShowFault, gather_refusal, zeros};
use ntfs_stream::put_stream;
use ntfs_volume::{Stream, Table, Volume};
use std::alloc::Global;

/// Gathers the stream of a type and name of a record.
fn gather<G: Image>(
    alloc: Global,
    image: &mut G,
    table: &Table,
    number: u64,
    kind: u32,
    name: &[u8],
) -> Result<Stream, ShowFault>
    requires held { HasClusters (G.seen image.old).size table.now }
    ensures gives { IfTold G.Image image.old (λ content. Gives show_origin (λ stream. stream)
        (gathered_stream table.now content number kind name.now) result) }
    ensures readable { IfOk result (λ found. IsReadable table.now.geometry found.stream) }
    ensures reads { OnlyReads G.Image show_origin image.old image.new result }
{
    match table.gather(alloc, image, number, kind, name) {
        Err(fault) => Err(gather_refusal(fault, number)),
        Ok(stream) => Ok(stream),
    }
}

/// Puts the bytes of a stream by way of a buffer of 65,536 bytes, which is a whole number of clusters of any volume.
fn put_gathered<G: Image, K: Sink>(
    alloc: Global,
    image: &mut G,
    geometry: &Geometry,
    stream: &Stream,
    out: &mut K,
) -> Result<(), ShowFault>
    requires opened { IsOpened (G.seen image.old).size geometry.now }
    requires readable { IsReadable geometry.now stream.now.stream }
    ensures told { IfTold G.Image image.old (λ content.
        Puts show_origin (printed_bytes geometry.now content stream.now.stream) (K.seen out.old) result
        (K.seen out.new)) }
    ensures copies { Copies G.Image K.Sink show_origin image.old image.new out.old out.new result }
{
    let mut buffer = zeros(alloc, 65_536)?;
    put_stream(image, geometry, stream, &mut buffer, out)?;
    Ok(())
}

/// Puts the bytes of the stream of a type and name of a record of the volume whose table is kept.
///
/// The stream is gathered from whichever records hold its extents. Its bytes are those of a resident value, or of the
/// clusters, with zeros in holes and from the initialised size on. They are put as they are read: after a fault or want
/// of memory a prefix of them was put, and after any other refusal nothing. It takes the memory that gathering takes,
/// and then 65,536 bytes.
pub fn cat_stream<G: Image, K: Sink>(
    alloc: Global,
    image: &mut G,
    table: &Table,
    number: u64,
    kind: u32,
    name: &[u8],
    out: &mut K,
) -> Result<(), ShowFault>
    requires held { HasClusters (G.seen image.old).size table.now }
    ensures told { IfTold G.Image image.old (λ content. Puts show_origin
        (cat_outcome table.now content number kind name.now) (K.seen out.old) result (K.seen out.new)) }
    ensures copies { Copies G.Image K.Sink show_origin image.old image.new out.old out.new result }
{
    let stream = gather(alloc, image, table, number, kind, name)?;
    put_gathered(alloc, image, table.geometry(), &stream, out)
}

/// Puts the bytes of the stream of a type and name of a record of a volume, as `cat_stream` does.
pub fn cat<G: Image, K: Sink>(
    alloc: Global,
    volume: &mut Volume<'_, G>,
    number: u64,
    kind: u32,
    name: &[u8],
    out: &mut K,
) -> Result<(), ShowFault>
    requires held { HasClusters (G.seen volume.old.image.now).size volume.old.table }
    ensures told { IfTold G.Image volume.old.image.now (λ content. Puts show_origin
        (cat_outcome volume.old.table content number kind name.now) (K.seen out.old) result (K.seen out.new)) }
    ensures same_reference { volume.new.image.ghost_name ≡ volume.old.image.ghost_name }
    ensures kept { volume.new.table ≡ volume.old.table }
    ensures copies { Copies G.Image K.Sink show_origin volume.old.image.now volume.new.image.now
        out.old out.new result }
{
    cat_stream(
        alloc,
        &mut *volume.image,
        &volume.table,
        number,
        kind,
        name,
        out,
    )
}
