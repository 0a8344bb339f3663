//! The top call: from the words of a command line to a status, over whatever stands outside.
ghost use Rattle.std.specs.Prelude.{◌≡◌, [], true, IfOk, OnOk, is_ok, map, string_bytes};
ghost use Rattle.ntfs_base.specs.Frames.{IfFiles};
ghost use Rattle.ntfs_words.specs.Answers.{HasRanges, tool_for};
ghost use Rattle.ntfs_run.specs.Command.{HasApartNames, is_standing};
ghost use Rattle.ntfs_run.specs.Outcome.{Does, IfInput, IfNoneMade, KeepsFilesBut, MayReadInput, TakesInput, status_of};
ghost use Rattle.ntfs_run.specs.Reply.{CanRefuse, LeavesFiles, Replies, outcome_for, outputs_of, reads_input};

use crate::clone::{RestoreRequest, SaveRequest, restore_clone, save_volume};
use crate::make::{MakeRequest, make_file};
use crate::message::put_message;
use crate::request::{read_request, tool_in};
use crate::show::show;
use crate::status::Status;
use crate::trial::try_volume;
use ntfs_base::{Shelf, Sink, Source, UsageKind};
use ntfs_words::{Request, WordsFault};
use std::alloc::Global;

/// Runs a command line, without the program's own name, over a shelf of files, an input, an output and a sink of
/// messages.
///
/// The shelf may have no file attached, and has none when `run` returns. Where the status isn't `Done`, one line with
/// the cause is put to `err`.
pub fn run<S: Shelf, I: Source, O: Sink, E: Sink>(
    alloc: Global,
    words: &[String],
    shelf: &mut S,
    input: &mut I,
    out: &mut O,
    err: &mut E,
) -> Status
    requires { (S.seen shelf.old).attached ≡ [] }
    ensures { Replies S.Shelf I.Source O.Sink E.Sink (map string_bytes words.now) shelf.old shelf.new
        input.old input.new out.old out.new err.old err.new result }
{
    let request = read_request(alloc, words);
    let status = status_of(answer(alloc, &request, shelf, input, out));
    let _ = put_message(tool_in(words), &request, &status, err);
    status
}

/// What the tool of a request answers.
fn answer<S: Shelf, I: Source, O: Sink>(
    alloc: Global,
    request: &Result<Request, WordsFault>,
    shelf: &mut S,
    input: &mut I,
    out: &mut O,
) -> Result<(), Status>
    requires attached { (S.seen shelf.old).attached ≡ [] }
    requires ranges { IfOk request.now HasRanges }
    requires stands { IfOk request.now (λ request. is_standing (tool_for request) ≡ true) }
    requires apart { IfOk request.now HasApartNames }
    ensures does { IfFiles S.Shelf shelf.old (λ files. IfInput I.Source (reads_input request.now) input.old (λ bytes.
        Does (outcome_for request.now files bytes) (status_of result) (O.seen out.old) (O.seen out.new)
        (S.seen shelf.new).files)) }
    ensures left { IfFiles S.Shelf shelf.old (λ files. IfInput I.Source (reads_input request.now) input.old (λ bytes.
        LeavesFiles request.now files bytes (S.seen shelf.new).files)) }
    ensures others { IfFiles S.Shelf shelf.old (λ files.
        KeepsFilesBut (outputs_of request.now) files (S.seen shelf.new).files) }
    ensures input { TakesInput I.Source (reads_input request.now) (status_of result) input.old input.new }
    ensures runs { MayReadInput S.Shelf I.Source O.Sink (CanRefuse request.now) shelf.old shelf.new input.old input.new
        out.old out.new result }
    ensures taken { OnOk result (is_ok request.now ≡ true) }
    ensures shows { IfNoneMade (outputs_of request.now) (S.seen shelf.new ≡ S.seen shelf.old) }
{
    match request {
        Err(fault) => Err(Status::from(*fault)),
        Ok(request @ Request::Info { image, .. }) => {
            show(alloc, request, image.as_str(), shelf, out)
        }
        Ok(request @ Request::Ls { image, .. }) => {
            show(alloc, request, image.as_str(), shelf, out)
        }
        Ok(request @ Request::Cat { image, .. }) => {
            show(alloc, request, image.as_str(), shelf, out)
        }
        Ok(request @ Request::Cluster { image, .. }) => {
            show(alloc, request, image.as_str(), shelf, out)
        }
        Ok(
            Request::Clone {
                restore: true,
                output,
                overwrite,
                source,
                ..
            },
        ) => {
            let request = RestoreRequest {
                output,
                overwrite: *overwrite,
                source,
            };
            restore_clone(alloc, &request, shelf, input, out)
        }
        Ok(
            Request::Clone {
                save,
                force,
                output,
                overwrite,
                source,
                ..
            },
        ) => {
            let request = SaveRequest {
                save: *save,
                force: *force,
                output,
                overwrite: *overwrite,
                source,
            };
            save_volume(alloc, &request, shelf, out)
        }
        Ok(
            Request::Make {
                file,
                seed,
                clusters,
                cluster,
            },
        ) => {
            let request = MakeRequest {
                file: file.as_str(),
                seed: *seed,
                clusters: *clusters,
                cluster: *cluster,
            };
            make_file(alloc, &request, shelf, out)
        }
        Ok(Request::Trial { seed, name }) => try_volume(alloc, *seed, name.as_str(), shelf, out),
        Ok(_) => Err(Status::Usage {
            kind: UsageKind::Tool,
        }),
    }
}

/// The status of what a tool answers.
fn status_of(answer: Result<(), Status>) -> Status
    ensures { result ≡ status_of answer }
{
    match answer {
        Ok(()) => Status::Done,
        Err(status) => status,
    }
}
