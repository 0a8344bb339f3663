//! The words of ntfsmake.
ghost use Rattle.std.specs.Prelude.{◌≡◌, IfOk, map, ◌≤◌, Ok, Err, true, if◌then◌else◌, string_bytes};
ghost use Rattle.clap.specs.Words.{app_of};
ghost use Rattle.ntfs_words.specs.Answers.{IsRequestOf};
ghost use Rattle.ntfs_words.specs.Make.{is_cluster_size, is_in_range, make_app, make_asked, make_request};
ghost use Rattle.ntfs_words.specs.Line.{Reads};
ghost use Rattle.ntfs_words.specs.Values.{no_number};

use crate::line::{Line, read_line};
use crate::part::{Part, command_of};
use crate::request::{Request, WordsFault};
use crate::text::Text;
use crate::tool::Tool;
use crate::values::{no_number, number_word};
use clap::Command;
use std::alloc::{AllocError, Global};

/// `ntfsmake FILE SEED CLUSTERS CLUSTER`
#[tactic(auto, using(crate::proofs::SimpleLemmas::make_is_simple), unfolding(crate::specs::Make::make_asked))]
pub(crate) fn read_make(alloc: Global, words: &[String]) -> Result<Request, WordsFault>
    ensures reads { Reads (make_asked (map string_bytes words.now)) result }
    ensures request { IfOk result (IsRequestOf Tool.Make) }
{
    let line = read_line(make_command(alloc)?, words)?;
    make_request(alloc, &line)
}

#[tactic(auto, unfolding(crate::specs::Make::make_app))]
fn make_command<'a>(alloc: Global) -> Result<Command<'a>, AllocError>
    ensures { IfOk result (λ command. app_of command ≡ make_app) }
{
    command_of(
        alloc,
        "ntfsmake",
        &[
            Part::Needed { name: "FILE" },
            Part::Needed { name: "SEED" },
            Part::Needed { name: "CLUSTERS" },
            Part::Needed { name: "CLUSTER" },
        ],
    )
}

#[tactic(auto, unfolding(crate::specs::Make::make_request))]
fn make_request(alloc: Global, line: &Line) -> Result<Request, WordsFault>
    ensures reads { Reads (make_request line.now) result }
    ensures request { IfOk result (IsRequestOf Tool.Make) }
{
    let file = line.word("FILE")?;
    let seed = line.word("SEED")?;
    let clusters = line.word("CLUSTERS")?;
    let cluster = line.word("CLUSTER")?;
    let seed = number_word(seed)?;
    let clusters = number_word(clusters)?;
    let (clusters, cluster) = in_range(clusters, number_word(cluster)?)?;
    let file = Text::new(alloc, file)?;
    Ok(Request::Make {
        file,
        seed,
        clusters,
        cluster,
    })
}

/// The same numbers in 32 bits, where they are in the ranges of a volume.
fn in_range(clusters: u64, cluster: u64) -> Result<(u32, u32), WordsFault>
    ensures { result ≡ (if is_in_range clusters cluster then Ok (clusters, cluster) else Err no_number) }
{
    if !is_in_range(clusters, cluster) {
        return Err(no_number());
    }
    Ok((clusters as u32, cluster as u32))
}

/// The ranges of a generated volume.
#[tactic(auto, unfolding(crate::specs::Make::is_in_range))]
fn is_in_range(clusters: u64, cluster: u64) -> bool
    ensures value { result ≡ is_in_range clusters cluster }
    ensures clusters { result ≡ true → clusters ≤ 1048576 }
    ensures cluster { result ≡ true → cluster ≤ 65536 }
{
    let least = if cluster == 512 { 2048 } else { 1024 };
    is_cluster_size(cluster) && least <= clusters && clusters <= 1_048_576
}

/// A power of two from 512 to 65,536.
#[tactic(auto, unfolding(crate::specs::Make::is_cluster_size))]
fn is_cluster_size(cluster: u64) -> bool
    ensures value { result ≡ is_cluster_size cluster }
    ensures most { result ≡ true → cluster ≤ 65536 }
{
    cluster == 512
        || cluster == 1024
        || cluster == 2048
        || cluster == 4096
        || cluster == 8192
        || cluster == 16384
        || cluster == 32768
        || cluster == 65536
}
