//! The words of ntfsls.
ghost use Rattle.std.specs.Prelude.{◌≡◌, IfOk, map, string_bytes};
ghost use Rattle.clap.specs.Words.{app_of};
ghost use Rattle.ntfs_words.specs.Answers.{IsRequestOf};
ghost use Rattle.ntfs_words.specs.Ls.{ls_app, ls_asked, ls_request};
ghost use Rattle.ntfs_words.specs.Line.{Reads};

use crate::line::{Line, read_line};
use crate::part::{Part, command_of};
use crate::request::{Request, WordsFault};
use crate::text::{Text, text_in};
use crate::tool::Tool;
use clap::Command;
use std::alloc::{AllocError, Global};

/// `ntfsls [-a|--all] [-i|--inode] [-F|--classify] [-R|--recursive] [-s|--system] [-x|--dos] [-p|--path PATH] IMAGE`
#[tactic(auto, using(crate::proofs::SimpleLemmas::ls_is_simple), unfolding(crate::specs::Ls::ls_asked))]
pub(crate) fn read_ls(alloc: Global, words: &[String]) -> Result<Request, WordsFault>
    ensures reads { Reads (ls_asked (map string_bytes words.now)) result }
    ensures request { IfOk result (IsRequestOf Tool.Ls) }
{
    let line = read_line(ls_command(alloc)?, words)?;
    ls_request(alloc, &line)
}

#[tactic(auto, unfolding(crate::specs::Ls::ls_app))]
fn ls_command<'a>(alloc: Global) -> Result<Command<'a>, AllocError>
    ensures { IfOk result (λ command. app_of command ≡ ls_app) }
{
    command_of(
        alloc,
        "ntfsls",
        &[
            Part::Flag {
                short: 'a',
                long: "all",
            },
            Part::Flag {
                short: 'i',
                long: "inode",
            },
            Part::Flag {
                short: 'F',
                long: "classify",
            },
            Part::Flag {
                short: 'R',
                long: "recursive",
            },
            Part::Flag {
                short: 's',
                long: "system",
            },
            Part::Flag {
                short: 'x',
                long: "dos",
            },
            Part::Valued {
                short: 'p',
                long: "path",
            },
            Part::Needed { name: "IMAGE" },
        ],
    )
}

#[tactic(auto, unfolding(crate::specs::Ls::ls_request))]
fn ls_request(alloc: Global, line: &Line) -> Result<Request, WordsFault>
    ensures reads { Reads (ls_request line.now) result }
    ensures request { IfOk result (IsRequestOf Tool.Ls) }
{
    let image = line.word("IMAGE")?;
    Ok(Request::Ls {
        all: line.is_on("all"),
        numbers: line.is_on("inode"),
        classify: line.is_on("classify"),
        recursive: line.is_on("recursive"),
        system: line.is_on("system"),
        dos: line.is_on("dos"),
        path: text_in(alloc, line.text("path"))?,
        image: Text::new(alloc, image)?,
    })
}
