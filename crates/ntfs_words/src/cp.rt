//! The words of ntfscp.
ghost use Rattle.std.specs.Prelude.{◌≡◌, IfOk, map, string_bytes};
ghost use Rattle.clap.specs.Words.{app_of};
ghost use Rattle.ntfs_words.specs.Answers.{IsRequestOf};
ghost use Rattle.ntfs_words.specs.Cp.{cp_app, cp_asked, cp_request, cp_target};
ghost use Rattle.ntfs_words.specs.Line.{Reads};

use crate::line::{Line, read_line};
use crate::part::{Part, command_of};
use crate::request::{Request, Target, WordsFault};
use crate::text::{Text, text_in};
use crate::tool::Tool;
use crate::values::{kind_in, number_word, same_name_usage};
use clap::Command;
use std::alloc::{AllocError, Global};

/// `ntfscp [-i|--inode] [-a|--attribute TYPE] [-N|--attr-name NAME] [-n|--no-action] IMAGE SOURCE DEST`
#[tactic(auto, using(crate::proofs::SimpleLemmas::cp_is_simple), unfolding(crate::specs::Cp::cp_asked))]
pub(crate) fn read_cp(alloc: Global, words: &[String]) -> Result<Request, WordsFault>
    ensures reads { Reads (cp_asked (map string_bytes words.now)) result }
    ensures request { IfOk result (IsRequestOf Tool.Cp) }
{
    let line = read_line(cp_command(alloc)?, words)?;
    cp_request(alloc, &line)
}

#[tactic(auto, unfolding(crate::specs::Cp::cp_app))]
fn cp_command<'a>(alloc: Global) -> Result<Command<'a>, AllocError>
    ensures { IfOk result (λ command. app_of command ≡ cp_app) }
{
    command_of(
        alloc,
        "ntfscp",
        &[
            Part::Flag {
                short: 'i',
                long: "inode",
            },
            Part::Valued {
                short: 'a',
                long: "attribute",
            },
            Part::Valued {
                short: 'N',
                long: "attr-name",
            },
            Part::Flag {
                short: 'n',
                long: "no-action",
            },
            Part::Needed { name: "IMAGE" },
            Part::Needed { name: "SOURCE" },
            Part::Needed { name: "DEST" },
        ],
    )
}

#[tactic(auto, unfolding(crate::specs::Cp::cp_request))]
fn cp_request(alloc: Global, line: &Line) -> Result<Request, WordsFault>
    ensures reads { Reads (cp_request line.now) result }
    ensures request { IfOk result (IsRequestOf Tool.Cp) }
{
    let image = line.word("IMAGE")?;
    let source = line.word("SOURCE")?;
    let target = cp_target(alloc, line.is_on("inode"), line.word("DEST")?)?;
    let kind = kind_in(line.text("attribute"))?;
    if image == source {
        return Err(same_name_usage());
    }
    Ok(Request::Cp {
        kind,
        name: text_in(alloc, line.text("attr-name"))?,
        no_action: line.is_on("no-action"),
        image: Text::new(alloc, image)?,
        source: Text::new(alloc, source)?,
        target,
    })
}

/// The record, whose last word is its path, or with `-i` its number.
#[tactic(auto, unfolding(crate::specs::Cp::cp_target))]
fn cp_target(alloc: Global, by_number: bool, word: &str) -> Result<Target, WordsFault>
    ensures { Reads (cp_target by_number word.now) result }
{
    if by_number {
        Ok(Target::Number {
            number: number_word(word)?,
        })
    } else {
        Ok(Target::Path {
            path: Text::new(alloc, word)?,
        })
    }
}
