//! A tool's command as a table of its parts.
ghost use Rattle.std.specs.Prelude.{◌≡◌, IfOk, false, map};
ghost use Rattle.clap.specs.Words.{app_of, rule_of};
ghost use Rattle.ntfs_words.specs.Line.{app_with, rule_for};

use clap::{Arg, ArgAction, Command};
use std::alloc::{AllocError, Global};

/// A part of a tool's command. An option is known by its long name, a positional word by its own.
#[derive(Clone, Copy, Debug)]
pub(crate) enum Part<'a> {
    /// An option without a value.
    Flag { short: char, long: &'a str },
    /// An option without a value that has no letter.
    LongFlag { long: &'a str },
    /// An option with a value.
    Valued { short: char, long: &'a str },
    /// A positional word that must be there.
    Needed { name: &'a str },
    /// A positional word that may be missing.
    Optional { name: &'a str },
}

/// The command of a name and its parts. It has no options for help and the version.
pub(crate) fn command_of<'a>(
    alloc: Global,
    name: &'a str,
    parts: &[Part<'a>],
) -> Result<Command<'a>, AllocError>
    ensures { IfOk result (λ command. app_of command ≡ app_with name.entry.now (map rule_for parts.now)) }
{
    let mut command = Command::new(alloc, name)
        .disable_help_flag(true)
        .disable_version_flag(true);
    'parts: for part in parts {
        command = command.arg(argument_of(alloc, *part))?;
    }
    Ok(command)
}

/// A part as an argument of clap.
fn argument_of<'a>(alloc: Global, part: Part<'a>) -> Arg<'a>
    ensures rule { rule_of result ≡ rule_for part.entry }
    ensures local { result.global ≡ false }
{
    match part {
        Part::Flag { short, long } => flag_of(alloc, long).short(short),
        Part::LongFlag { long } => flag_of(alloc, long),
        Part::Valued { short, long } => Arg::new(alloc, long).long(long).short(short),
        Part::Needed { name } => Arg::new(alloc, name).required(true),
        Part::Optional { name } => Arg::new(alloc, name),
    }
}

/// An option without a value and without a letter.
fn flag_of<'a>(alloc: Global, long: &'a str) -> Arg<'a>
    ensures rule { rule_of result ≡ rule_for (Part.LongFlag long.entry) }
    ensures local { result.global ≡ false }
{
    Arg::new(alloc, long).long(long).action(ArgAction::SetTrue)
}
