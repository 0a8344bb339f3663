ghost use Rattle.std.specs.Prelude.{◌≡◌, IsErrOf, Ok};
ghost use Rattle.ntfs_base.specs.Frames.{OnlyPuts, Puts};
ghost use Rattle.ntfs_print.specs.Fault.{show_origin};
ghost use Rattle.ntfs_show.specs.Info.{info_lines};

use ntfs_base::{Line, Sink};
use ntfs_boot::Geometry;
use ntfs_print::{Label, ShowFault, push_number_line, push_serial_line};

/// Prints the geometry of a volume in nine lines, and takes no memory.
///
/// The lines are the sizes of a sector, a cluster, a file record and an index block in bytes, the numbers of sectors
/// and clusters, the first clusters of $MFT and $MFTMirr, and the serial number in 16 hexadecimal digits. After a
/// refusal a prefix of them was put.
pub fn info_volume<K: Sink>(geometry: &Geometry, out: &mut K) -> Result<(), ShowFault>
    ensures puts { Puts show_origin (Ok (info_lines geometry.now)) (K.seen out.old) result (K.seen out.new) }
    ensures nothing { IsErrOf result ShowFault.NoMemory → K.seen out.new ≡ K.seen out.old }
    ensures frame { OnlyPuts K.Sink show_origin out.old out.new result }
{
    let text = text_of(geometry);
    out.put(text.as_bytes())?;
    Ok(())
}

#[tactic(auto, unfolding(crate::specs::Info::info_lines))]
fn text_of(geometry: &Geometry) -> Line
    ensures { result ≡ info_lines geometry.now }
{
    let mut text = Line::new();
    push_number_line(&mut text, Label::SectorSize, u64::from(geometry.sector));
    push_number_line(&mut text, Label::ClusterSize, u64::from(geometry.cluster));
    push_number_line(
        &mut text,
        Label::RecordSize,
        u64::from(geometry.record_size),
    );
    push_number_line(&mut text, Label::IndexBlockSize, u64::from(geometry.block));
    push_number_line(&mut text, Label::Sectors, geometry.sectors);
    push_number_line(&mut text, Label::Clusters, geometry.clusters);
    push_number_line(&mut text, Label::MftCluster, geometry.mft);
    push_number_line(&mut text, Label::MirrorCluster, geometry.mirror);
    push_serial_line(&mut text, geometry.serial);
    text
}
