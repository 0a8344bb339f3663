//! The words of ntfscluster.
ghost use Rattle.std.specs.Prelude.{◌≡◌, IfOk, map, option_map, string_bytes};
ghost use Rattle.clap.specs.Words.{app_of};
ghost use Rattle.ntfs_words.specs.Answers.{IsRequestOf};
ghost use Rattle.ntfs_words.specs.Cluster.{ask_in, cluster_app, cluster_asked, cluster_request};
ghost use Rattle.ntfs_words.specs.Line.{Reads};

use crate::line::{Line, read_line};
use crate::part::{Part, command_of};
use crate::request::{Ask, Request, WordsFault};
use crate::text::Text;
use crate::tool::Tool;
use crate::values::{combination, exactly_one, number_word, range_word};
use clap::Command;
use std::alloc::{AllocError, Global};

/// `ntfscluster [-i|--info] [-c|--cluster RANGE] [-I|--inode NUM] [-F|--filename FILE] IMAGE`
#[tactic(auto, using(crate::proofs::SimpleLemmas::cluster_is_simple), unfolding(crate::specs::Cluster::cluster_asked))]
pub(crate) fn read_cluster(alloc: Global, words: &[String]) -> Result<Request, WordsFault>
    ensures reads { Reads (cluster_asked (map string_bytes words.now)) result }
    ensures request { IfOk result (IsRequestOf Tool.Cluster) }
{
    let line = read_line(cluster_command(alloc)?, words)?;
    cluster_request(alloc, &line)
}

#[tactic(auto, unfolding(crate::specs::Cluster::cluster_app))]
fn cluster_command<'a>(alloc: Global) -> Result<Command<'a>, AllocError>
    ensures { IfOk result (λ command. app_of command ≡ cluster_app) }
{
    command_of(
        alloc,
        "ntfscluster",
        &[
            Part::Flag {
                short: 'i',
                long: "info",
            },
            Part::Valued {
                short: 'c',
                long: "cluster",
            },
            Part::Valued {
                short: 'I',
                long: "inode",
            },
            Part::Valued {
                short: 'F',
                long: "filename",
            },
            Part::Needed { name: "IMAGE" },
        ],
    )
}

#[tactic(auto, unfolding(crate::specs::Cluster::cluster_request))]
fn cluster_request(alloc: Global, line: &Line) -> Result<Request, WordsFault>
    ensures reads { Reads (cluster_request line.now) result }
    ensures request { IfOk result (IsRequestOf Tool.Cluster) }
{
    let image = line.word("IMAGE")?;
    let info = line.is_on("info");
    let range = line.text("cluster");
    let number = line.text("inode");
    let path = line.text("filename");
    if !exactly_one(&[info, range.is_some(), number.is_some(), path.is_some()]) {
        return Err(combination());
    }
    let ask = ask_in(alloc, info, range, number, path)?;
    let image = Text::new(alloc, image)?;
    Ok(Request::Cluster { ask, image })
}

/// The question, of which one is given.
#[tactic(auto, unfolding(crate::specs::Cluster::ask_in))]
fn ask_in(
    alloc: Global,
    info: bool,
    range: Option<&str>,
    number: Option<&str>,
    path: Option<&str>,
) -> Result<Ask, WordsFault>
    ensures { Reads (ask_in info (option_map (λ text. text.now) range.entry)
        (option_map (λ text. text.now) number.entry) (option_map (λ text. text.now) path.entry)) result }
{
    if info {
        return Ok(Ask::Info);
    }
    if let Some(range) = range {
        let (from, to) = range_word(range)?;
        return Ok(Ask::Clusters { from, to });
    }
    if let Some(number) = number {
        let number = number_word(number)?;
        return Ok(Ask::Number { number });
    }
    match path {
        Some(path) => Ok(Ask::Path {
            path: Text::new(alloc, path)?,
        }),
        None => Err(combination()),
    }
}
