//! The bytes of a stream, put to a sink.

ghost use Rattle.std.specs.Prelude.{◌≡◌, Err, false, length};
ghost use Rattle.ntfs_base.specs.Frames.{Copies, IfTold, Puts};
ghost use Rattle.ntfs_boot.specs.Geometry.{IsOpened};
ghost use Rattle.ntfs_stream.specs.Fault.{WantsBySink, stream_origin};
ghost use Rattle.ntfs_stream.specs.declared.fault.StreamFault.TheVariants.{NotPlain};
ghost use Rattle.ntfs_stream.specs.StreamBytes.{IsBuffer, is_plain, stream_outcome};
ghost use Rattle.ntfs_volume.specs.Opened.{HasClusters};
ghost use Rattle.ntfs_volume.specs.Streams.{IsReadable};

use crate::fault::StreamFault;
use crate::row::Remaining;
use crate::rows::put_runs;
use ntfs_base::{Image, Sink};
use ntfs_boot::Geometry;
use ntfs_volume::{Stream, Volume};

/// A stream that is neither compressed nor encrypted.
#[tactic(auto, unfolding(crate::specs::StreamBytes::is_plain))]
fn is_plain(flags: u16) -> bool
    ensures { result ≡ is_plain flags }
{
    flags % 256 == 0 && flags / 0x4000 % 2 == 0
}

/// Puts the bytes of a stream on a volume of this geometry. A compressed or encrypted one is refused, and then nothing
/// is read and nothing put.
///
/// The bytes are those of a resident value, or of the clusters, with zeros in holes and from the initialised size on.
/// Clusters in a row are read at once and put at once, as many as the buffer has room for; a hole, and a cluster of
/// which nothing is initialised, is never read. After a fault a prefix of the bytes was put. It takes no memory, and
/// afterwards the buffer holds anything.
pub fn put_stream<G: Image, K: Sink>(
    image: &mut G,
    geometry: &Geometry,
    stream: &Stream,
    buffer: &mut [u8],
    sink: &mut K,
) -> Result<(), StreamFault>
    requires opened { IsOpened (G.seen image.old).size geometry.now }
    requires readable { IsReadable geometry.now stream.now.stream }
    requires buffer { IsBuffer geometry.now.cluster (length buffer.old) }
    ensures told { IfTold G.Image image.old (λ content.
        Puts stream_origin (stream_outcome geometry.now content stream.now.stream)
        (K.seen sink.old) result (K.seen sink.new)) }
    ensures refuses { is_plain stream.now.stream.flags ≡ false → result ≡ Err (NotPlain stream.now.stream.flags) }
    ensures untouched { is_plain stream.now.stream.flags ≡ false → (image.new ≡ image.old) × (sink.new ≡ sink.old) }
    ensures copies { Copies G.Image K.Sink stream_origin image.old image.new sink.old sink.new result }
    ensures wants { WantsBySink result (K.faults sink.old) (K.faults sink.new) }
{
    let flags = stream.flags();
    if !is_plain(flags) {
        return Err(StreamFault::NotPlain { flags });
    }
    match stream.value() {
        Some(value) => Ok(sink.put(value)?),
        None => match stream.runs() {
            None => unreachable!(),
            Some(list) => {
                let mut rest = Remaining {
                    size: stream.size(),
                    valid: stream.valid(),
                };
                put_runs(image, geometry, list.runs(), &mut rest, buffer, sink)
            }
        },
    }
}

/// Puts the bytes of a stream of a volume, as `put_stream` does.
pub fn read_stream<G: Image, K: Sink>(
    volume: &mut Volume<'_, G>,
    stream: &Stream,
    buffer: &mut [u8],
    sink: &mut K,
) -> Result<(), StreamFault>
    requires held { HasClusters (G.seen volume.old.image.now).size volume.old.table }
    requires readable { IsReadable volume.old.table.geometry stream.now.stream }
    requires buffer { IsBuffer volume.old.table.geometry.cluster (length buffer.old) }
    ensures told { IfTold G.Image volume.old.image.now (λ content.
        Puts stream_origin (stream_outcome volume.old.table.geometry content stream.now.stream)
        (K.seen sink.old) result (K.seen sink.new)) }
    ensures refuses { is_plain stream.now.stream.flags ≡ false → result ≡ Err (NotPlain stream.now.stream.flags) }
    ensures untouched { is_plain stream.now.stream.flags ≡ false → (volume.new.image.now ≡ volume.old.image.now)
        × (sink.new ≡ sink.old) }
    ensures same_reference { volume.new.image.ghost_name ≡ volume.old.image.ghost_name }
    ensures kept { volume.new.table ≡ volume.old.table }
    ensures copies { Copies G.Image K.Sink stream_origin
        volume.old.image.now volume.new.image.now sink.old sink.new result }
    ensures wants { WantsBySink result (K.faults sink.old) (K.faults sink.new) }
{
    put_stream(
        &mut *volume.image,
        volume.table.geometry(),
        stream,
        buffer,
        sink,
    )
}
