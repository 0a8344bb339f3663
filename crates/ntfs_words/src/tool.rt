//! The tools, by the first word of a command line.
ghost use Rattle.std.specs.Prelude.{◌≡◌, ◌≤◌, length, map, string_bytes};
ghost use Rattle.ntfs_words.specs.Tool.{tool_name, tool_named, tool_of};

/// The tools of the program.
#[derive(Clone, Copy, Debug, PartialEq, Eq)]
pub enum Tool {
    Info,
    Ls,
    Cat,
    Cluster,
    Cp,
    Clone,
    Resize,
    Fix,
    Make,
    Trial,
}

/// The tool that the first word names.
pub fn tool_of(words: &[String]) -> Option<Tool>
    ensures { result ≡ tool_of (map string_bytes words.now) }
{
    match words {
        [] => None,
        [word, ..] => tool_named(word.as_str()),
    }
}

#[tactic(auto, unfolding(crate::specs::Tool::tool_named, crate::specs::Tool::tool_name))]
fn tool_named(word: &str) -> Option<Tool>
    ensures { result ≡ tool_named word.now }
{
    match word {
        "ntfsinfo" => Some(Tool::Info),
        "ntfsls" => Some(Tool::Ls),
        "ntfscat" => Some(Tool::Cat),
        "ntfscluster" => Some(Tool::Cluster),
        "ntfscp" => Some(Tool::Cp),
        "ntfsclone" => Some(Tool::Clone),
        "ntfsresize" => Some(Tool::Resize),
        "ntfsfix" => Some(Tool::Fix),
        "ntfsmake" => Some(Tool::Make),
        "ntfstrial" => Some(Tool::Trial),
        _ => None,
    }
}

/// The name of a tool.
#[tactic(auto, unfolding(crate::specs::Tool::tool_name))]
pub fn tool_name(tool: Tool) -> &'static str
    ensures value { result.now ≡ tool_name tool }
    ensures room { length result.now ≤ 12 }
{
    match tool {
        Tool::Info => "ntfsinfo",
        Tool::Ls => "ntfsls",
        Tool::Cat => "ntfscat",
        Tool::Cluster => "ntfscluster",
        Tool::Cp => "ntfscp",
        Tool::Clone => "ntfsclone",
        Tool::Resize => "ntfsresize",
        Tool::Fix => "ntfsfix",
        Tool::Make => "ntfsmake",
        Tool::Trial => "ntfstrial",
    }
}
