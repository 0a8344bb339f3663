//! What a command line asks of the tools that stand. The first word names the tool.
ghost use Rattle.std.specs.Prelude.{◌≡◌, IfErr, IfOk, Some, map, string_bytes, true};
ghost use Rattle.ntfs_words.specs.Answers.{CanFail, HasRanges, tool_for};
ghost use Rattle.ntfs_words.specs.Line.{Reads};
ghost use Rattle.ntfs_run.specs.Command.{HasApartNames, is_standing, request_in, tool_in};

use ntfs_base::UsageKind;
use ntfs_words::{Request, Tool, WordsFault, read_words, tool_of};
use std::alloc::Global;

/// The tool that the first word names, of those that stand.
pub fn tool_in(words: &[String]) -> Option<Tool>
    ensures { result ≡ tool_in (map string_bytes words.now) }
{
    let tool = tool_of(words)?;
    if is_standing(tool) { Some(tool) } else { None }
}

/// A tool that stands; the word of another one names no tool yet.
fn is_standing(tool: Tool) -> bool
    ensures { result ≡ is_standing tool }
{
    match tool {
        Tool::Info => true,
        Tool::Ls => true,
        Tool::Cat => true,
        Tool::Cluster => true,
        Tool::Cp => false,
        Tool::Clone => true,
        Tool::Resize => false,
        Tool::Fix => false,
        Tool::Make => true,
        Tool::Trial => true,
    }
}

/// Reads the words of a command line: what they ask for, or why they are refused.
#[tactic(auto, unfolding(crate::specs::Command::request_in))]
pub fn read_request(alloc: Global, words: &[String]) -> Result<Request, WordsFault>
    ensures reads { Reads (request_in (map string_bytes words.now)) result }
    ensures ranges { IfOk result HasRanges }
    ensures kinds { IfErr result (CanFail (tool_in (map string_bytes words.now))) }
    ensures tool { IfOk result (λ request. tool_in (map string_bytes words.now) ≡ Some (tool_for request)) }
    ensures stands { IfOk result (λ request. is_standing (tool_for request) ≡ true) }
    ensures apart { IfOk result HasApartNames }
{
    if tool_in(words).is_none() {
        return Err(WordsFault::Usage {
            kind: UsageKind::Tool,
        });
    }
    read_words(alloc, words)
}
