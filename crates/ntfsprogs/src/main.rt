//! NTFS image tools in one program, whose first word names a tool.
#![tactic(auto)]

mod arguments;

ghost use Rattle.std.specs.Prelude.{◌≡◌, ◌⊎◌, Some};

use arguments::arguments;
use ntfs_base::Sink;
use ntfs_host::{Access, DiskShelf, StandIns, StdInput, StdMessages, StdOutput};
use ntfs_run::{run, tool_in};
use ntfs_words::Tool;
use std::process::ExitCode;

/// The exit status where memory is wanting.
const NO_MEMORY: u8 = 12;

/// The exit status where a standard stream is closed and nothing can stand in for it.
const NO_STREAM: u8 = 10;

/// Runs the words of the command line over the files of the system and the standard streams, and ends with the code of
/// the status. Where there are no words to be had it prints nothing.
fn main(rt: HostRuntime) -> ExitCode {
    ExitCode::from(exit_status(&rt))
}

fn exit_status(rt: &HostRuntime) -> u8 {
    // They are held to the end, before any other file is opened: no image gets the descriptor of a closed stream.
    let Ok(_stand_ins) = StandIns::open(rt, &rt.stdin(), &rt.stdout(), &rt.stderr()) else {
        return NO_STREAM;
    };
    let alloc = rt.alloc();
    let words = match arguments(alloc, rt) {
        Ok(words) => words,
        Err(fault) => return fault.code(),
    };
    let Ok(mut out) = StdOutput::new(alloc, rt.stdout()) else {
        return NO_MEMORY;
    };
    let mut shelf = DiskShelf::new(alloc, rt, access_of(tool_in(&words)));
    let mut input = StdInput::new(rt.stdin());
    let mut err = StdMessages::new(rt.stderr());
    let status = run(alloc, &words, &mut shelf, &mut input, &mut out, &mut err);
    // What was put before a refusal is printed too.
    let _ = out.flush();
    let _ = err.flush();
    status.code()
}

/// What the tool that the first word names does with files. Where it names none, nothing is done.
fn access_of(tool: Option<Tool>) -> Access
    ensures makes { tool ≡ Some Tool.Make → result ≡ Access.ReadWrite }
    ensures clones { tool ≡ Some Tool.Clone → result ≡ Access.ReadWrite }
    ensures tries { tool ≡ Some Tool.Trial → result ≡ Access.ReadWrite }
    ensures shows { result ≡ Access.ReadWrite
        → (tool ≡ Some Tool.Make) ⊎ ((tool ≡ Some Tool.Clone) ⊎ (tool ≡ Some Tool.Trial)) }
{
    match tool {
        Some(Tool::Make | Tool::Clone | Tool::Trial) => Access::ReadWrite,
        _ => Access::ReadOnly,
    }
}
