//! The words of ntfscat.
ghost use Rattle.std.specs.Prelude.{◌≡◌, IfOk, map, option_map, string_bytes};
ghost use Rattle.clap.specs.Words.{app_of};
ghost use Rattle.ntfs_words.specs.Answers.{IsRequestOf};
ghost use Rattle.ntfs_words.specs.Cat.{cat_app, cat_asked, cat_request, cat_target};
ghost use Rattle.ntfs_words.specs.Line.{Reads};

use crate::line::{Line, read_line};
use crate::part::{Part, command_of};
use crate::request::{Request, Target, WordsFault};
use crate::text::{Text, text_in};
use crate::tool::Tool;
use crate::values::{combination, kind_in, number_word};
use clap::Command;
use std::alloc::{AllocError, Global};

/// `ntfscat [-i|--inode NUM] [-a|--attribute TYPE] [-n|--attribute-name NAME] IMAGE [FILE]`
#[tactic(auto, using(crate::proofs::SimpleLemmas::cat_is_simple), unfolding(crate::specs::Cat::cat_asked))]
pub(crate) fn read_cat(alloc: Global, words: &[String]) -> Result<Request, WordsFault>
    ensures reads { Reads (cat_asked (map string_bytes words.now)) result }
    ensures request { IfOk result (IsRequestOf Tool.Cat) }
{
    let line = read_line(cat_command(alloc)?, words)?;
    cat_request(alloc, &line)
}

#[tactic(auto, unfolding(crate::specs::Cat::cat_app))]
fn cat_command<'a>(alloc: Global) -> Result<Command<'a>, AllocError>
    ensures { IfOk result (λ command. app_of command ≡ cat_app) }
{
    command_of(
        alloc,
        "ntfscat",
        &[
            Part::Valued {
                short: 'i',
                long: "inode",
            },
            Part::Valued {
                short: 'a',
                long: "attribute",
            },
            Part::Valued {
                short: 'n',
                long: "attribute-name",
            },
            Part::Needed { name: "IMAGE" },
            Part::Optional { name: "FILE" },
        ],
    )
}

#[tactic(auto, unfolding(crate::specs::Cat::cat_request))]
fn cat_request(alloc: Global, line: &Line) -> Result<Request, WordsFault>
    ensures reads { Reads (cat_request line.now) result }
    ensures request { IfOk result (IsRequestOf Tool.Cat) }
{
    let image = line.word("IMAGE")?;
    let target = cat_target(alloc, line.text("inode"), line.text("FILE"))?;
    let kind = kind_in(line.text("attribute"))?;
    let name = text_in(alloc, line.text("attribute-name"))?;
    let image = Text::new(alloc, image)?;
    Ok(Request::Cat {
        target,
        kind,
        name,
        image,
    })
}

/// The record, by exactly one of its number and its path.
#[tactic(auto, unfolding(crate::specs::Cat::cat_target))]
fn cat_target(alloc: Global, number: Option<&str>, path: Option<&str>) -> Result<Target, WordsFault>
    ensures { Reads (cat_target (option_map (λ text. text.now) number.entry)
        (option_map (λ text. text.now) path.entry)) result }
{
    match (number, path) {
        (Some(number), None) => Ok(Target::Number {
            number: number_word(number)?,
        }),
        (None, Some(path)) => Ok(Target::Path {
            path: Text::new(alloc, path)?,
        }),
        (Some(_), Some(_)) => Err(combination()),
        (None, None) => Err(combination()),
    }
}
