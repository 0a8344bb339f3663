//! The words of ntfstrial.
ghost use Rattle.std.specs.Prelude.{◌≡◌, IfOk, map, string_bytes};
ghost use Rattle.clap.specs.Words.{app_of};
ghost use Rattle.ntfs_words.specs.Answers.{IsRequestOf};
ghost use Rattle.ntfs_words.specs.Trial.{trial_app, trial_asked, trial_request};
ghost use Rattle.ntfs_words.specs.Line.{Reads};

use crate::line::{Line, read_line};
use crate::part::{Part, command_of};
use crate::request::{Request, WordsFault};
use crate::text::Text;
use crate::tool::Tool;
use crate::values::number_word;
use clap::Command;
use std::alloc::{AllocError, Global};

/// `ntfstrial SEED NAME`
#[tactic(auto, using(crate::proofs::SimpleLemmas::trial_is_simple), unfolding(crate::specs::Trial::trial_asked))]
pub(crate) fn read_trial(alloc: Global, words: &[String]) -> Result<Request, WordsFault>
    ensures reads { Reads (trial_asked (map string_bytes words.now)) result }
    ensures request { IfOk result (IsRequestOf Tool.Trial) }
{
    let line = read_line(trial_command(alloc)?, words)?;
    trial_request(alloc, &line)
}

#[tactic(auto, unfolding(crate::specs::Trial::trial_app))]
fn trial_command<'a>(alloc: Global) -> Result<Command<'a>, AllocError>
    ensures { IfOk result (λ command. app_of command ≡ trial_app) }
{
    command_of(
        alloc,
        "ntfstrial",
        &[Part::Needed { name: "SEED" }, Part::Needed { name: "NAME" }],
    )
}

#[tactic(auto, unfolding(crate::specs::Trial::trial_request))]
fn trial_request(alloc: Global, line: &Line) -> Result<Request, WordsFault>
    ensures reads { Reads (trial_request line.now) result }
    ensures request { IfOk result (IsRequestOf Tool.Trial) }
{
    let seed = line.word("SEED")?;
    let name = line.word("NAME")?;
    let seed = number_word(seed)?;
    let name = Text::new(alloc, name)?;
    Ok(Request::Trial { seed, name })
}
