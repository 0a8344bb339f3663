//! The words of ntfsinfo.
ghost use Rattle.std.specs.Prelude.{◌≡◌, IfOk, map, string_bytes};
ghost use Rattle.clap.specs.Words.{app_of};
ghost use Rattle.ntfs_words.specs.Answers.{IsRequestOf};
ghost use Rattle.ntfs_words.specs.Info.{info_app, info_asked, info_request};
ghost use Rattle.ntfs_words.specs.Line.{Reads};

use crate::line::{Line, read_line};
use crate::part::{Part, command_of};
use crate::request::{Request, WordsFault};
use crate::text::Text;
use crate::tool::Tool;
use crate::values::{combination, exactly_one, number_in};
use clap::Command;
use std::alloc::{AllocError, Global};

/// `ntfsinfo [-m|--mft] [-i|--inode NUM] IMAGE`
#[tactic(auto, using(crate::proofs::SimpleLemmas::info_is_simple), unfolding(crate::specs::Info::info_asked))]
pub(crate) fn read_info(alloc: Global, words: &[String]) -> Result<Request, WordsFault>
    ensures reads { Reads (info_asked (map string_bytes words.now)) result }
    ensures request { IfOk result (IsRequestOf Tool.Info) }
{
    let line = read_line(info_command(alloc)?, words)?;
    info_request(alloc, &line)
}

#[tactic(auto, unfolding(crate::specs::Info::info_app))]
fn info_command<'a>(alloc: Global) -> Result<Command<'a>, AllocError>
    ensures { IfOk result (λ command. app_of command ≡ info_app) }
{
    command_of(
        alloc,
        "ntfsinfo",
        &[
            Part::Flag {
                short: 'm',
                long: "mft",
            },
            Part::Valued {
                short: 'i',
                long: "inode",
            },
            Part::Needed { name: "IMAGE" },
        ],
    )
}

#[tactic(auto, unfolding(crate::specs::Info::info_request))]
fn info_request(alloc: Global, line: &Line) -> Result<Request, WordsFault>
    ensures reads { Reads (info_request line.now) result }
    ensures request { IfOk result (IsRequestOf Tool.Info) }
{
    let image = line.word("IMAGE")?;
    let mft = line.is_on("mft");
    let inode = line.text("inode");
    if !exactly_one(&[mft, inode.is_some()]) {
        return Err(combination());
    }
    let number = number_in(inode)?;
    let image = Text::new(alloc, image)?;
    Ok(Request::Info { mft, number, image })
}
