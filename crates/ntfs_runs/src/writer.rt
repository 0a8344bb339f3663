ghost use Rattle.std.specs.Prelude.{◌≡◌, ◌≤◌, ◌<◌, ◌+◌, ◌^◌, List, [], ◌∷◌, ◌++◌, length, drop, IfSome, IfNone};
ghost use Rattle.std.specs.Option.{SomeIff, OnSome};
ghost use Rattle.ntfs_runs.specs.declared.run.Run.{Run};
ghost use Rattle.ntfs_runs.specs.Canon.{goes_on};
ghost use Rattle.ntfs_runs.specs.Writing.{IsSmall, IsSound, Adds, promise_of, waiting_of};

use crate::put::{put_closing, put_run};
use crate::run::Run;

/// Whether the second run goes on from the first: they are adjacent clusters, or two holes.
fn is_adjacent(first: Run, second: Run) -> bool
    requires { IsSmall first }
    ensures { result ≡ goes_on first second }
{
    match first.lcn {
        None => match second.lcn {
            None => true,
            Some(_) => false,
        },
        Some(before) => match second.lcn {
            None => false,
            Some(lcn) => before + first.length == lcn,
        },
    }
}

/// A spelling that is being written: the place behind what is written, the last LCN there, and the run that the next
/// one may still lengthen.
#[derive(Clone, Copy, Debug)]
pub(crate) struct Writer {
    at: usize,
    last: u64,
    pending: Option<Run>,
}

impl Writer {
    pub(crate) fn new() -> Writer
        ensures { result ≡ record { at = 0; last = 0; pending = None } }
    {
        Writer {
            at: 0,
            last: 0,
            pending: None,
        }
    }

    /// Takes the next run; `None` where what is promised then doesn't fit.
    pub(crate) fn add(&mut self, into: &mut [u8], run: Run) -> Option<()>
        requires sound { IsSound self.old into.old }
        requires small { IsSmall run }
        requires together { waiting_of self.old.pending + run.length ≤ 2 ^ 48 }
        ensures added { OnSome result (Adds self.old self.new into.old into.new run) }
        ensures full { IfNone result ((runs : List Run)
            → length into.old < length (promise_of self.old into.old (run ∷ runs))) }
    {
        let Some(pending) = self.pending else {
            self.pending = Some(run);
            return Some(());
        };
        if is_adjacent(pending, run) {
            self.pending = Some(Run {
                length: pending.length + run.length,
                lcn: pending.lcn,
            });
            return Some(());
        }
        self.at = put_run(into, self.at, self.last, pending)?;
        self.last = pending.lcn.unwrap_or(self.last);
        self.pending = Some(run);
        Some(())
    }

    /// Writes what waits and the closing 0, and gives the length of the whole; `None` where it doesn't fit.
    pub(crate) fn finish(self, into: &mut [u8]) -> Option<usize>
        requires { IsSound self into.old }
        ensures fits { SomeIff result (length (promise_of self into.old []) ≤ length into.old)
            (length (promise_of self into.old [])) }
        ensures written { IfSome result (λ n. into.new ≡ promise_of self into.old [] ++ drop n into.old) }
    {
        match self.pending {
            None => put_closing(into, self.at),
            Some(run) => {
                let at = put_run(into, self.at, self.last, run)?;
                put_closing(into, at)
            }
        }
    }
}
