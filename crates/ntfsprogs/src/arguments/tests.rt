use super::{ArgumentFault, arguments};
use std::env::{Env, FillError};
use std::process::Abort;
use std::test::Fail;

/// Words, of which the first is the program's own name.
#[derive(Drop)]
struct Given<'a>(&'a [&'a [u8]]);

impl Env for Given<'_> {
    fn arg(&self, number: usize, into: &mut [u8]) -> Result<usize, FillError> {
        let Some(word) = self.0.get(number) else {
            return Err(FillError::NotPresent);
        };
        let Some(front) = into.get_mut(..word.len()) else {
            return Err(FillError::TooLong);
        };
        front.copy_from_slice(word);
        Ok(word.len())
    }

    fn var(&self, _name: &str, _into: &mut [u8]) -> Result<usize, FillError> {
        Err(FillError::NotPresent)
    }

    fn var_at(&self, _number: usize, _into: &mut [u8]) -> Result<usize, FillError> {
        Err(FillError::NotPresent)
    }
}

/// Takes words of many lengths: whether all were taken. Where they weren't, memory was wanting.
/// `tools/refused_memory.py` has each allocation of it refused in turn.
fn words_are_whole(rt: &impl Abort, host: &HostRuntime) -> Result<bool, Fail> {
    let long = [b'a'; 9000];
    let given: [&[u8]; 8] = [
        b"own",
        b"",
        b"ntfscat",
        &long[..4096],
        &long[..4097],
        "\u{e9}\n".as_bytes(),
        &long,
        b"-",
    ];
    match arguments(host.alloc(), &Given(&given)) {
        Ok(words) => {
            assert_eq!(rt; words.len(), 7);
            for (word, bytes) in words.iter().zip(&given[1..]) {
                assert!(rt; word.as_bytes() == *bytes);
            }
            Ok(true)
        }
        Err(fault) => {
            assert_eq!(rt; fault, ArgumentFault::NoMemory);
            Ok(false)
        }
    }
}

#[test]
fn each_word_is_taken(rt: HostRuntime) -> Result<(), Fail> {
    assert!(rt; words_are_whole(&rt, &rt)?);
    Ok(())
}

#[test]
fn a_word_that_is_no_text_is_refused(rt: HostRuntime) {
    for words in [
        [b"own".as_slice(), b"a", b"\xff"],
        [b"own", b"\xed\xa0\x80", b"a"],
    ] {
        let fault = arguments(rt.alloc(), &Given(&words)).err();
        assert_eq!(rt; fault, Some(ArgumentFault::NoText));
    }
    assert!(rt; arguments(rt.alloc(), &Given(&[])).is_ok());
}

/// A link to the program, by the name of a tool, has that name as its first word.
#[test]
fn the_name_of_a_tool_is_the_first_word(rt: HostRuntime) -> Result<(), Fail> {
    let rows: [(&[u8], Option<&str>); 14] = [
        (b"ntfsls", Some("ntfsls")),
        (b"/usr/bin/ntfsinfo", Some("ntfsinfo")),
        (b"./ntfscat", Some("ntfscat")),
        (b"../ntfsprogs/ntfstrial", Some("ntfstrial")),
        (b"ntfsprogs", None),
        (b"", None),
        (b"/", None),
        (b"ntfsinfo.old", None),
        (b"ntfsinfo/program", None),
        (b"my-ntfsinfo", None),
        (b"NTFSINFO", None),
        (b"\xff/ntfsinfo", None),
        (b"ntfsinfo\xff", None),
        (b"ntfs info", None),
    ];
    for (own, first) in rows {
        let given: [&[u8]; 2] = [own, b"-m"];
        let Ok(words) = arguments(rt.alloc(), &Given(&given)) else {
            return Err("no words".into());
        };
        assert_eq!(rt; words.len(), if first.is_some() { 2 } else { 1 });
        assert_eq!(rt;
            words.first().map(|word| word.as_str()),
            Some(first.unwrap_or("-m"))
        );
    }
    Ok(())
}
