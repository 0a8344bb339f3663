//! The words of ntfsfix.
ghost use Rattle.std.specs.Prelude.{◌≡◌, IfOk, map, string_bytes};
ghost use Rattle.clap.specs.Words.{app_of};
ghost use Rattle.ntfs_words.specs.Answers.{IsRequestOf};
ghost use Rattle.ntfs_words.specs.Fix.{fix_app, fix_asked, fix_request};
ghost use Rattle.ntfs_words.specs.Line.{Reads};

use crate::line::{Line, read_line};
use crate::part::{Part, command_of};
use crate::request::{Request, WordsFault};
use crate::text::Text;
use crate::tool::Tool;
use crate::values::combination;
use clap::Command;
use std::alloc::{AllocError, Global};

/// `ntfsfix [-n|--no-action] [-d|--clear-dirty] [-b|--clear-bad-sectors] [--rebuild] IMAGE`
#[tactic(auto, using(crate::proofs::SimpleLemmas::fix_is_simple), unfolding(crate::specs::Fix::fix_asked))]
pub(crate) fn read_fix(alloc: Global, words: &[String]) -> Result<Request, WordsFault>
    ensures reads { Reads (fix_asked (map string_bytes words.now)) result }
    ensures request { IfOk result (IsRequestOf Tool.Fix) }
{
    let line = read_line(fix_command(alloc)?, words)?;
    fix_request(alloc, &line)
}

#[tactic(auto, unfolding(crate::specs::Fix::fix_app))]
fn fix_command<'a>(alloc: Global) -> Result<Command<'a>, AllocError>
    ensures { IfOk result (λ command. app_of command ≡ fix_app) }
{
    command_of(
        alloc,
        "ntfsfix",
        &[
            Part::Flag {
                short: 'n',
                long: "no-action",
            },
            Part::Flag {
                short: 'd',
                long: "clear-dirty",
            },
            Part::Flag {
                short: 'b',
                long: "clear-bad-sectors",
            },
            Part::LongFlag { long: "rebuild" },
            Part::Needed { name: "IMAGE" },
        ],
    )
}

#[tactic(auto, unfolding(crate::specs::Fix::fix_request))]
fn fix_request(alloc: Global, line: &Line) -> Result<Request, WordsFault>
    ensures reads { Reads (fix_request line.now) result }
    ensures request { IfOk result (IsRequestOf Tool.Fix) }
{
    let image = line.word("IMAGE")?;
    let no_action = line.is_on("no-action");
    let clear_bad = line.is_on("clear-bad-sectors");
    let rebuild = line.is_on("rebuild");
    if no_action && (rebuild || clear_bad) {
        return Err(combination());
    }
    Ok(Request::Fix {
        no_action,
        clear_dirty: line.is_on("clear-dirty"),
        clear_bad,
        rebuild,
        image: Text::new(alloc, image)?,
    })
}
