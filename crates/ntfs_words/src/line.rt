//! A line that a tool's command takes.
ghost use Rattle.std.specs.Prelude.{◌≡◌, IfOk, IfErr, true, map, option_map, string_bytes};
ghost use Rattle.clap.specs.Words.{app_of, is_simple_and_free};
ghost use Rattle.ntfs_words.specs.Line.{Reads, is_given, is_on, line_of, clap_refusal, text_of, word_of};

use crate::request::WordsFault;
use clap::error::ErrorKind;
use clap::{ArgMatches, Command};
use ntfs_base::UsageKind;
use std::marker::Model;

/// What a line gave for each part of its command, by the part's name.
#[derive(Drop)]
pub(crate) struct Line<'a> {
    matches: ArgMatches<'a>,
}

impl<'a> Model for Line<'a> {
    ghost use Rattle.std.specs.Prelude.{List};
    ghost use Rattle.clap.specs.Words.{Row, found_of, rows_of};

    ghost Value = { List Row };

    ghost view = { λ line. rows_of (found_of line.matches) };
}

impl<'a> Line<'a> {
    /// The option was given.
    #[tactic(auto, unfolding(crate::specs::Line::is_on))]
    pub(crate) fn is_on(&self, id: &str) -> bool
        ensures { result ≡ is_on id.now self.now }
    {
        match self.text(id) {
            Some(text) => text == "true",
            None => false,
        }
    }

    /// The option or word was given.
    pub(crate) fn is_given(&self, id: &str) -> bool
        ensures { result ≡ is_given id.now self.now }
    {
        self.text(id).is_some()
    }

    /// The value of an option, or a positional word.
    pub(crate) fn text(&self, id: &str) -> Option<&'a str>
        ensures { option_map (λ text. text.now) result ≡ text_of id.now self.now }
    {
        self.matches.get_str(id)
    }

    /// A positional word that the command needs.
    #[tactic(auto, unfolding(crate::specs::Line::word_of))]
    pub(crate) fn word(&self, id: &str) -> Result<&'a str, WordsFault>
        ensures ok { IfOk result (λ word. word_of id.now self.now ≡ Ok word.now) }
        ensures err { IfErr result (λ fault. word_of id.now self.now ≡ Err fault) }
    {
        match self.text(id) {
            Some(text) => Ok(text),
            None => Err(WordsFault::Usage {
                kind: UsageKind::Line,
            }),
        }
    }
}

/// Reads words as a line of a command. The first word, which names the tool, isn't looked at.
#[tactic(auto, unfolding(crate::specs::Line::line_of))]
pub(crate) fn read_line<'a>(
    command: Command<'a>,
    words: &'a [String],
) -> Result<Line<'a>, WordsFault>
    requires { is_simple_and_free (app_of command) ≡ true }
    ensures { Reads (line_of (app_of command.entry) (map string_bytes words.entry.now)) result }
{
    match command.try_get_matches_from(words) {
        Ok(matches) => Ok(Line { matches }),
        Err(error) => Err(clap_refusal(error.kind())),
    }
}

/// Every kind of refusal is the line's, but for want of memory.
fn clap_refusal(kind: ErrorKind) -> WordsFault
    ensures { result ≡ clap_refusal kind }
{
    match kind {
        ErrorKind::OutOfMemory => WordsFault::NoMemory,
        _ => WordsFault::Usage {
            kind: UsageKind::Line,
        },
    }
}
