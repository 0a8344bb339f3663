// Each row is a command line, its words between single spaces, and what it asks for or how it is refused. The expected
// texts are written down from the table of the tools' words, never from the program's answers.
use crate::{Ask, Request, Target, Text, WordsFault, read_words};
use ntfs_base::UsageKind;
use std::alloc::{AllocError, Global};
use std::process::Abort;
use std::test::Fail;

mod lines;
mod show;

use show::told;

// A command line and what is told of it.
type Row = (&'static str, &'static str);

fn answer(alloc: Global, line: &str) -> Result<String, AllocError> {
    let mut words = Vec::new(alloc);
    'words: for word in line.split(' ') {
        words.push(String::from_str(alloc, word)?)?;
    }
    told(alloc, &read_words(alloc, words.as_slice()))
}

fn check(rt: &impl Abort, alloc: Global, rows: &[Row]) -> Result<(), Fail> {
    'rows: for row in rows {
        assert_eq!(rt; answer(alloc, row.0)?.as_str(), row.1, "{}", row.0);
    }
    Ok(())
}

#[test]
fn lines_ask_for_what_they_say(rt: HostRuntime) -> Result<(), Fail> {
    let alloc = rt.alloc();
    check(&rt, alloc, lines::TOOL.as_slice())?;
    check(&rt, alloc, lines::INFO.as_slice())?;
    check(&rt, alloc, lines::LS.as_slice())?;
    check(&rt, alloc, lines::CAT.as_slice())?;
    check(&rt, alloc, lines::CLUSTER.as_slice())?;
    check(&rt, alloc, lines::CP.as_slice())
}

#[test]
fn lines_of_changing_tools_ask_for_what_they_say(rt: HostRuntime) -> Result<(), Fail> {
    let alloc = rt.alloc();
    check(&rt, alloc, lines::CLONE.as_slice())?;
    check(&rt, alloc, lines::RESIZE.as_slice())?;
    check(&rt, alloc, lines::FIX.as_slice())?;
    check(&rt, alloc, lines::MAKE.as_slice())?;
    check(&rt, alloc, lines::TRIAL.as_slice())
}

#[test]
fn no_words_and_many_words_are_refused(rt: HostRuntime) -> Result<(), Fail> {
    let alloc = rt.alloc();
    let mut words = Vec::new(alloc);
    assert_eq!(rt;
        told(alloc, &read_words(alloc, words.as_slice()))?.as_str(),
        "Tool"
    );
    words.push(String::from_str(alloc, "ntfsfix")?)?;
    'words: for _ in 0..1000 {
        words.push(String::from_str(alloc, "V")?)?;
    }
    assert_eq!(rt;
        told(alloc, &read_words(alloc, words.as_slice()))?.as_str(),
        "Line"
    );
    Ok(())
}
