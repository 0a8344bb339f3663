//! `ntfscat`.
ghost use Rattle.std.specs.Prelude.{◌≡◌, IfErr, IfOk};
ghost use Rattle.ntfs_base.specs.Frames.{Copies, IfTold, Puts, refused_as};
ghost use Rattle.ntfs_show.specs.Cat.{cat_outcome};
ghost use Rattle.ntfs_volume.specs.Opened.{HasClusters};
ghost use Rattle.ntfs_run.specs.Cat.{CatRefuses, cat_bytes, stream_name};
ghost use Rattle.ntfs_run.specs.Outcome.{show_status, status_origin};

use crate::place::number_meant;
use crate::status::Status;
use ntfs_base::{Image, Sink};
use ntfs_show::cat_stream;
use ntfs_upcase::units_of;
use ntfs_volume::Table;
use ntfs_words::{Target, Text};
use std::alloc::{AllocError, Global};

/// A stream: its record, its type, and its name where it has one.
#[derive(Clone, Copy)]
pub struct StreamRequest<'a> {
    pub target: &'a Target,
    pub kind: u32,
    pub name: &'a Option<Text>,
}

/// Puts a stream of the volume of this table.
#[tactic(auto, unfolding(crate::specs::Cat::cat_bytes))]
pub fn put_stream<G: Image, O: Sink>(
    alloc: Global,
    stream: &StreamRequest,
    image: &mut G,
    table: &Table,
    out: &mut O,
) -> Result<(), Status>
    requires { HasClusters (G.seen image.old).size table.now }
    ensures puts { IfTold G.Image image.old (λ content. Puts status_origin
        (cat_bytes stream.now.target.now stream.now.kind (stream_name stream.now.name.now) table.now content)
        (O.seen out.old) result (O.seen out.new)) }
    ensures copies { Copies G.Image O.Sink status_origin image.old image.new out.old out.new result }
    ensures refusal { IfErr result CatRefuses }
{
    let number = number_meant(alloc, stream.target, image, table)?;
    put_numbered(alloc, number, stream, image, table, out)
}

/// Puts a stream of the record of this number.
fn put_numbered<G: Image, O: Sink>(
    alloc: Global,
    number: u64,
    stream: &StreamRequest,
    image: &mut G,
    table: &Table,
    out: &mut O,
) -> Result<(), Status>
    requires { HasClusters (G.seen image.old).size table.now }
    ensures puts { IfTold G.Image image.old (λ content. Puts status_origin (refused_as show_status
        (cat_outcome table.now content number stream.now.kind (stream_name stream.now.name.now)))
        (O.seen out.old) result (O.seen out.new)) }
    ensures copies { Copies G.Image O.Sink status_origin image.old image.new out.old out.new result }
    ensures refusal { IfErr result CatRefuses }
{
    let name = stream_name(alloc, stream.name)?;
    cat_stream(alloc, image, table, number, stream.kind, &name, out)?;
    Ok(())
}

/// The name of a stream in UTF-16LE.
fn stream_name(alloc: Global, name: &Option<Text>) -> Result<Vec<u8>, AllocError>
    ensures { IfOk result (λ bytes. bytes.items ≡ stream_name name.now) }
{
    match name {
        None => Ok(Vec::new(alloc)),
        Some(text) => units_of(alloc, text.as_str()),
    }
}
