//! The tools that only show: what a request prints of an image, an arm for each tool.
ghost use Rattle.std.specs.Prelude.{◌≡◌, [], true, false, IfErr, OnOk};
ghost use Rattle.ntfs_base.specs.Frames.{Copies, IfFiles, IfTold};
ghost use Rattle.ntfs_print.specs.Printing.{Prints};
ghost use Rattle.ntfs_volume.specs.Opened.{HasClusters};
ghost use Rattle.ntfs_run.specs.Outcome.{OnlyShows, status_origin};
ghost use Rattle.ntfs_run.specs.Show.{ShowRefuses, asks_geometry, only_shows, image_printing, volume_printing};
ghost use Rattle.ntfs_run.specs.Shown.{of_file, of_volume};

use crate::cat::{StreamRequest, put_stream};
use crate::cluster::print_owners;
use crate::info::{print_geometry, print_record};
use crate::ls::print_list;
use crate::outside::{attach_image, flush};
use crate::status::Status;
use ntfs_base::{Image, Shelf, Sink, UsageKind};
use ntfs_show::ListOptions;
use ntfs_volume::{Table, read_table};
use ntfs_words::Request;
use std::alloc::Global;

/// Prints what a request asks about the image of a name, and flushes the output.
pub fn show<S: Shelf, O: Sink>(
    alloc: Global,
    request: &Request,
    name: &str,
    shelf: &mut S,
    out: &mut O,
) -> Result<(), Status>
    requires attached { (S.seen shelf.old).attached ≡ [] }
    requires shown { only_shows request.now ≡ true }
    ensures prints { IfFiles S.Shelf shelf.old (λ files. Prints status_origin
        (of_file name.now files (image_printing request.now)) (O.seen out.old) result (O.seen out.new)) }
    ensures shows { OnlyShows S.Shelf O.Sink (ShowRefuses request.now) shelf.old shelf.new out.old out.new result }
{
    let mut file = attach_image(name, shelf)?;
    let result = show_image(alloc, request, &mut file, out);
    shelf.release(file);
    result
}

/// Prints what a request asks about an image, and flushes the output.
fn show_image<G: Image, O: Sink>(
    alloc: Global,
    request: &Request,
    image: &mut G,
    out: &mut O,
) -> Result<(), Status>
    requires shown { only_shows request.now ≡ true }
    ensures prints { IfTold G.Image image.old (λ content.
        Prints status_origin (image_printing request.now content) (O.seen out.old) result (O.seen out.new)) }
    ensures copies { Copies G.Image O.Sink status_origin image.old image.new out.old out.new result }
    ensures refusal { IfErr result (ShowRefuses request.now) }
    ensures flushed { OnOk result (O.is_flushed out.new ≡ true) }
{
    if asks_geometry(request) {
        print_geometry(image, out)
    } else {
        show_volume(alloc, request, image, out)
    }
}

/// The geometry alone is asked for, for which no volume is opened.
fn asks_geometry(request: &Request) -> bool
    ensures { result ≡ asks_geometry request.now }
{
    match request {
        Request::Info { number: None, .. } => true,
        _ => false,
    }
}

/// Opens the volume of an image, prints what a request asks about it, and flushes the output.
fn show_volume<G: Image, O: Sink>(
    alloc: Global,
    request: &Request,
    image: &mut G,
    out: &mut O,
) -> Result<(), Status>
    requires shown { only_shows request.now ≡ true }
    requires asked { asks_geometry request.now ≡ false }
    ensures prints { IfTold G.Image image.old (λ content. Prints status_origin
        (of_volume content (λ volume. volume_printing request.now volume content)) (O.seen out.old) result
        (O.seen out.new)) }
    ensures copies { Copies G.Image O.Sink status_origin image.old image.new out.old out.new result }
    ensures refusal { IfErr result (ShowRefuses request.now) }
    ensures flushed { OnOk result (O.is_flushed out.new ≡ true) }
{
    let table = read_table(alloc, image)?;
    show_opened(alloc, request, image, &table, out)
}

/// Prints what a request asks about the volume of this table, and flushes the output.
fn show_opened<G: Image, O: Sink>(
    alloc: Global,
    request: &Request,
    image: &mut G,
    table: &Table,
    out: &mut O,
) -> Result<(), Status>
    requires held { HasClusters (G.seen image.old).size table.now }
    requires shown { only_shows request.now ≡ true }
    requires asked { asks_geometry request.now ≡ false }
    ensures prints { IfTold G.Image image.old (λ content. Prints status_origin
        (volume_printing request.now table.now content) (O.seen out.old) result (O.seen out.new)) }
    ensures copies { Copies G.Image O.Sink status_origin image.old image.new out.old out.new result }
    ensures refusal { IfErr result (ShowRefuses request.now) }
    ensures flushed { OnOk result (O.is_flushed out.new ≡ true) }
{
    print_asked(alloc, request, image, table, out)?;
    flush(out)
}

/// Prints what a request asks about the volume of this table.
#[tactic(auto, unfolding(crate::specs::Show::volume_printing))]
fn print_asked<G: Image, O: Sink>(
    alloc: Global,
    request: &Request,
    image: &mut G,
    table: &Table,
    out: &mut O,
) -> Result<(), Status>
    requires held { HasClusters (G.seen image.old).size table.now }
    requires shown { only_shows request.now ≡ true }
    requires asked { asks_geometry request.now ≡ false }
    ensures prints { IfTold G.Image image.old (λ content. Prints status_origin
        (volume_printing request.now table.now content) (O.seen out.old) result (O.seen out.new)) }
    ensures copies { Copies G.Image O.Sink status_origin image.old image.new out.old out.new result }
    ensures refusal { IfErr result (ShowRefuses request.now) }
{
    match request {
        Request::Info {
            number: Some(number),
            ..
        } => print_record(alloc, *number, image, table, out),
        Request::Ls {
            all,
            numbers,
            classify,
            recursive,
            system,
            dos,
            path,
            ..
        } => {
            let options = ListOptions {
                all: *all,
                numbers: *numbers,
                classify: *classify,
                recursive: *recursive,
                system: *system,
                dos: *dos,
            };
            print_list(alloc, &options, path, image, table, out)
        }
        Request::Cat {
            target,
            kind,
            name,
            ..
        } => {
            let stream = StreamRequest {
                target,
                kind: *kind,
                name,
            };
            put_stream(alloc, &stream, image, table, out)
        }
        Request::Cluster { ask, .. } => print_owners(alloc, ask, image, table, out),
        _ => Err(Status::Usage {
            kind: UsageKind::Tool,
        }),
    }
}
