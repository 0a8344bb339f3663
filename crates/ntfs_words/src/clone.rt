//! The words of ntfsclone.
ghost use Rattle.std.specs.Prelude.{◌≡◌, IfOk, map, option_map, string_bytes};
ghost use Rattle.clap.specs.Words.{app_of};
ghost use Rattle.ntfs_words.specs.Answers.{IsRequestOf};
ghost use Rattle.ntfs_words.specs.Clone.{are_same, clone_app, clone_asked, clone_request, has_clash, has_gap, has_output, output_word};
ghost use Rattle.ntfs_words.specs.Line.{Reads};

use crate::line::{Line, read_line};
use crate::part::{Part, command_of};
use crate::request::{Request, WordsFault};
use crate::text::text_in;
use crate::tool::Tool;
use crate::values::{combination, same_name_usage};
use clap::Command;
use std::alloc::{AllocError, Global};

/// `ntfsclone [-s|--save-image] [-r|--restore-image] [-o|--output FILE] [-O|--overwrite FILE] [-n|--no-action]
/// [-f|--force] [SOURCE]`
#[tactic(auto, using(crate::proofs::SimpleLemmas::clone_is_simple), unfolding(crate::specs::Clone::clone_asked))]
pub(crate) fn read_clone(alloc: Global, words: &[String]) -> Result<Request, WordsFault>
    ensures reads { Reads (clone_asked (map string_bytes words.now)) result }
    ensures request { IfOk result (IsRequestOf Tool.Clone) }
{
    let line = read_line(clone_command(alloc)?, words)?;
    clone_request(alloc, &line)
}

#[tactic(auto, unfolding(crate::specs::Clone::clone_app))]
fn clone_command<'a>(alloc: Global) -> Result<Command<'a>, AllocError>
    ensures { IfOk result (λ command. app_of command ≡ clone_app) }
{
    command_of(
        alloc,
        "ntfsclone",
        &[
            Part::Flag {
                short: 's',
                long: "save-image",
            },
            Part::Flag {
                short: 'r',
                long: "restore-image",
            },
            Part::Valued {
                short: 'o',
                long: "output",
            },
            Part::Valued {
                short: 'O',
                long: "overwrite",
            },
            Part::Flag {
                short: 'n',
                long: "no-action",
            },
            Part::Flag {
                short: 'f',
                long: "force",
            },
            Part::Optional { name: "SOURCE" },
        ],
    )
}

#[tactic(auto, unfolding(crate::specs::Clone::clone_request))]
fn clone_request(alloc: Global, line: &Line) -> Result<Request, WordsFault>
    ensures reads { Reads (clone_request line.now) result }
    ensures request { IfOk result (IsRequestOf Tool.Clone) }
{
    if has_clash(line) || has_gap(line) {
        return Err(combination());
    }
    let source = line.text("SOURCE");
    let output = output_word(line);
    if are_same(source, output) {
        return Err(same_name_usage());
    }
    Ok(Request::Clone {
        save: line.is_on("save-image"),
        restore: line.is_on("restore-image"),
        no_action: line.is_on("no-action"),
        force: line.is_on("force"),
        output: text_in(alloc, output)?,
        overwrite: line.is_given("overwrite"),
        source: text_in(alloc, source)?,
    })
}

/// Options that don't go together.
#[tactic(auto, unfolding(crate::specs::Clone::has_clash))]
fn has_clash(line: &Line) -> bool
    ensures { result ≡ has_clash line.now }
{
    let restores = line.is_on("restore-image");
    (line.is_on("save-image") && restores)
        || (line.is_given("output") && line.is_given("overwrite"))
        || (line.is_on("no-action") && (!restores || has_output(line)))
        || (line.is_on("force") && restores)
}

/// An output or a source is missing.
#[tactic(auto, unfolding(crate::specs::Clone::has_gap))]
fn has_gap(line: &Line) -> bool
    ensures { result ≡ has_gap line.now }
{
    let restores = line.is_on("restore-image");
    (!line.is_on("save-image") && !restores && !has_output(line))
        || (restores && !line.is_on("no-action") && !has_output(line))
        || (!restores && !line.is_given("SOURCE"))
}

/// An output is named.
#[tactic(auto, unfolding(crate::specs::Clone::has_output))]
fn has_output(line: &Line) -> bool
    ensures { result ≡ has_output line.now }
{
    line.is_given("output") || line.is_given("overwrite")
}

/// The output's name.
fn output_word<'a>(line: &Line<'a>) -> Option<&'a str>
    ensures { option_map (λ text. text.now) result ≡ output_word line.now }
{
    match line.text("output") {
        Some(output) => Some(output),
        None => line.text("overwrite"),
    }
}

/// Two names are there and the same.
#[tactic(auto, unfolding(crate::specs::Clone::are_same))]
fn are_same(first: Option<&str>, second: Option<&str>) -> bool
    ensures { result ≡ are_same (option_map (λ text. text.now) first.entry)
        (option_map (λ text. text.now) second.entry) }
{
    match (first, second) {
        (Some(first), Some(second)) => first == second,
        (Some(_), None) => false,
        (None, _) => false,
    }
}
