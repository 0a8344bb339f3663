//! `ntfsinfo`.
ghost use Rattle.std.specs.Prelude.{◌≡◌, true, IfErr, OnOk};
ghost use Rattle.ntfs_base.specs.Frames.{Copies, IfTold, Puts};
ghost use Rattle.ntfs_print.specs.Printing.{Prints};
ghost use Rattle.ntfs_volume.specs.Opened.{HasClusters};
ghost use Rattle.ntfs_run.specs.Info.{GeometryRefuses, RecordRefuses, image_lines, record_lines};
ghost use Rattle.ntfs_run.specs.Outcome.{status_origin};

use crate::outside::flush;
use crate::status::Status;
use ntfs_base::{Image, Sink};
use ntfs_boot::read_volume_geometry;
use ntfs_show::{info_volume, show_record};
use ntfs_volume::Table;
use std::alloc::Global;

/// Prints the geometry of an image and flushes the output.
#[tactic(auto, unfolding(crate::specs::Info::image_lines))]
pub fn print_geometry<G: Image, O: Sink>(image: &mut G, out: &mut O) -> Result<(), Status>
    ensures puts { IfTold G.Image image.old (λ content.
        Puts status_origin (image_lines content) (O.seen out.old) result (O.seen out.new)) }
    ensures copies { Copies G.Image O.Sink status_origin image.old image.new out.old out.new result }
    ensures refusal { IfErr result GeometryRefuses }
    ensures flushed { OnOk result (O.is_flushed out.new ≡ true) }
{
    let geometry = read_volume_geometry(image)?;
    info_volume(&geometry, out)?;
    flush(out)
}

/// Prints the record of a number of the volume of this table.
pub fn print_record<G: Image, O: Sink>(
    alloc: Global,
    number: u64,
    image: &mut G,
    table: &Table,
    out: &mut O,
) -> Result<(), Status>
    requires { HasClusters (G.seen image.old).size table.now }
    ensures prints { IfTold G.Image image.old (λ content.
        Prints status_origin (record_lines number table.now content) (O.seen out.old) result (O.seen out.new)) }
    ensures copies { Copies G.Image O.Sink status_origin image.old image.new out.old out.new result }
    ensures refusal { IfErr result RecordRefuses }
{
    show_record(alloc, image, table, number, out)?;
    Ok(())
}
