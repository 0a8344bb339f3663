//! The words of ntfsresize.
ghost use Rattle.std.specs.Prelude.{◌≡◌, IfOk, map, string_bytes};
ghost use Rattle.clap.specs.Words.{app_of};
ghost use Rattle.ntfs_words.specs.Answers.{IsRequestOf};
ghost use Rattle.ntfs_words.specs.Resize.{resize_app, resize_asked, resize_request};
ghost use Rattle.ntfs_words.specs.Line.{Reads};

use crate::line::{Line, read_line};
use crate::part::{Part, command_of};
use crate::request::{Request, WordsFault};
use crate::text::Text;
use crate::tool::Tool;
use crate::values::{combination, size_in};
use clap::Command;
use std::alloc::{AllocError, Global};

/// `ntfsresize [-i|--info] [-s|--size SIZE] [-n|--no-action] [-f|--force] IMAGE`
#[tactic(auto, using(crate::proofs::SimpleLemmas::resize_is_simple), unfolding(crate::specs::Resize::resize_asked))]
pub(crate) fn read_resize(alloc: Global, words: &[String]) -> Result<Request, WordsFault>
    ensures reads { Reads (resize_asked (map string_bytes words.now)) result }
    ensures request { IfOk result (IsRequestOf Tool.Resize) }
{
    let line = read_line(resize_command(alloc)?, words)?;
    resize_request(alloc, &line)
}

#[tactic(auto, unfolding(crate::specs::Resize::resize_app))]
fn resize_command<'a>(alloc: Global) -> Result<Command<'a>, AllocError>
    ensures { IfOk result (λ command. app_of command ≡ resize_app) }
{
    command_of(
        alloc,
        "ntfsresize",
        &[
            Part::Flag {
                short: 'i',
                long: "info",
            },
            Part::Valued {
                short: 's',
                long: "size",
            },
            Part::Flag {
                short: 'n',
                long: "no-action",
            },
            Part::Flag {
                short: 'f',
                long: "force",
            },
            Part::Needed { name: "IMAGE" },
        ],
    )
}

#[tactic(auto, unfolding(crate::specs::Resize::resize_request))]
fn resize_request(alloc: Global, line: &Line) -> Result<Request, WordsFault>
    ensures reads { Reads (resize_request line.now) result }
    ensures request { IfOk result (IsRequestOf Tool.Resize) }
{
    let image = line.word("IMAGE")?;
    let info = line.is_on("info");
    let no_action = line.is_on("no-action");
    let force = line.is_on("force");
    if info && (line.is_given("size") || no_action || force) {
        return Err(combination());
    }
    let size = size_in(line.text("size"))?;
    let image = Text::new(alloc, image)?;
    Ok(Request::Resize {
        info,
        no_action,
        force,
        size,
        image,
    })
}
