//! The words of a command line.
ghost use Rattle.std.specs.Prelude.{◌≡◌, IfErr, IfOk, Some, map, string_bytes};
ghost use Rattle.ntfs_words.specs.Answers.{CanFail, HasRanges, tool_for};
ghost use Rattle.ntfs_words.specs.Tool.{tool_of};
ghost use Rattle.ntfs_words.specs.Line.{Reads};
ghost use Rattle.ntfs_words.specs.Words.{asked};

use crate::cat::read_cat;
use crate::clone::read_clone;
use crate::cluster::read_cluster;
use crate::cp::read_cp;
use crate::fix::read_fix;
use crate::info::read_info;
use crate::ls::read_ls;
use crate::make::read_make;
use crate::request::{Request, WordsFault};
use crate::resize::read_resize;
use crate::tool::{Tool, tool_of};
use crate::trial::read_trial;
use ntfs_base::UsageKind;
use std::alloc::Global;

/// Reads the words of a command line, without the program's own name: what they ask for, or why they are refused.
pub fn read_words(alloc: Global, words: &[String]) -> Result<Request, WordsFault>
    ensures reads { Reads (asked (map string_bytes words.now)) result }
    ensures tool { IfOk result (λ request. tool_of (map string_bytes words.now) ≡ Some (tool_for request)) }
    ensures ranges { IfOk result HasRanges }
    ensures kinds { IfErr result (CanFail (tool_of (map string_bytes words.now))) }
{
    match tool_of(words) {
        None => Err(WordsFault::Usage {
            kind: UsageKind::Tool,
        }),
        Some(Tool::Info) => read_info(alloc, words),
        Some(Tool::Ls) => read_ls(alloc, words),
        Some(Tool::Cat) => read_cat(alloc, words),
        Some(Tool::Cluster) => read_cluster(alloc, words),
        Some(Tool::Cp) => read_cp(alloc, words),
        Some(Tool::Clone) => read_clone(alloc, words),
        Some(Tool::Resize) => read_resize(alloc, words),
        Some(Tool::Fix) => read_fix(alloc, words),
        Some(Tool::Make) => read_make(alloc, words),
        Some(Tool::Trial) => read_trial(alloc, words),
    }
}
