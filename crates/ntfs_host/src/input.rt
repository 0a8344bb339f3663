use crate::counting::count_fault;
use ntfs_base::{Failed, Source};
use std::io;
use std::io::{ErrorKind, Read, Stdin};

/// Standard input. It reads nothing ahead.
#[derive(Drop)]
pub struct StdInput<R = Stdin> {
    pub(crate) reader: R,
    pub faults: u64,
}

impl<R> StdInput<R> {
    ghost use Rattle.std.specs.Prelude.{◌≡◌};

    /// Standard input, with no fault yet.
    pub fn new(stdin: R) -> StdInput<R>
        ensures { result.faults ≡ 0 }
    {
        StdInput {
            reader: stdin,
            faults: 0,
        }
    }
}

impl<R: Read> Source for StdInput<R> {
    ghost use Rattle.std.specs.Prelude.{◌≡◌, ◌≤◌, ◌<◌, length, take, IfOk, OnErr};
    ghost use Rattle.std.specs.Io.KnownBytes.{Consumes, IsAtEnd, Keeps};
    ghost use Rattle.ntfs_base.specs.Calls.{count_after};
    ghost use Rattle.ntfs_host.specs.Seen.{seen_input};

    ghost seen = { λ _. seen_input };

    ghost faults = { λ source. source.faults };

    fn take(&mut self, into: &mut [u8]) -> Result<usize, Failed>
        ensures room { IfOk result (λ n. n ≤ length into.old) }
        ensures consumes { IfOk result (λ n. Consumes (R.remaining self.old.reader)
            (R.remaining self.new.reader) (take n into.new)) }
        ensures end { IfOk result (λ n. n ≡ 0 → 0 < length into.old → IsAtEnd (R.remaining self.new.reader)) }
        ensures keeps { OnErr result (Keeps (R.remaining self.old.reader) (R.remaining self.new.reader)) }
        ensures counted { self.new.faults ≡ count_after self.old.faults result }
    {
        count_fault(&mut self.faults, read_once(&mut self.reader, into))
    }
}

ghost use Rattle.std.specs.Prelude.{◌≤◌, ◌≡◌, ◌<◌, length, take, IfOk, OnErr};
ghost use Rattle.std.specs.Io.KnownBytes.{Consumes, IsAtEnd, Keeps};

/// One read, made anew where a signal interrupted it.
fn read_once<R: Read>(reader: &mut R, into: &mut [u8]) -> io::Result<usize>
    ensures room { IfOk result (λ n. n ≤ length into.old) }
    ensures consumes { IfOk result (λ n. Consumes (R.remaining reader.old) (R.remaining reader.new) (take n into.new)) }
    ensures end { IfOk result (λ n. n ≡ 0 → 0 < length into.old → IsAtEnd (R.remaining reader.new)) }
    ensures keeps { OnErr result (Keeps (R.remaining reader.old) (R.remaining reader.new)) }
{
    'tries: for _ in 0..u64::MAX {
        match reader.read(into) {
            Err(error) if error.kind() == ErrorKind::Interrupted => {}
            answer => return answer,
        }
    }
    Err(io::Error::from(ErrorKind::Interrupted))
}
