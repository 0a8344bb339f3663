ghost use Rattle.std.specs.Prelude.{◌≡◌, [], ◌∷◌, MatchOption};
ghost use Rattle.ntfs_runs.specs.Reading.{reading, items};

use crate::fault::BadPairs;
use crate::front::{Front, MOST, front_at};
use crate::run::Run;
use std::marker::Model;

/// What reads mapping pairs from left to right. It ends at the closing 0 or after its first fault.
#[derive(Debug, Drop)]
pub struct Pairs<'a> {
    rest: &'a [u8],
    place: usize,
    last: u64,
    room: u64,
    has_ended: bool,
}

impl<'a> Model for Pairs<'a> {
    ghost use Rattle.std.specs.Prelude.{◌+◌, ◌<◌, ◌^◌, List, Result, length};
    ghost use Rattle.ntfs_runs.specs.declared.run.Run.{Run};
    ghost use Rattle.ntfs_runs.specs.declared.fault.BadPairs.{BadPairs};
    ghost use Rattle.ntfs_runs.specs.Reading.{items_left};

    ghost Value = { List (Result Run BadPairs) };

    ghost view = { λ s. items_left s.has_ended s.last s.room s.place s.rest.now };

    ghost invariant = { λ s. s.place + length s.rest.now < 2 ^ 64 };
}

impl<'a> Pairs<'a> {
    #[tactic(auto, unfolding(crate::specs::Reading::reading))]
    pub(crate) fn new(bytes: &'a [u8]) -> Pairs<'a>
        ensures { result ≡ items (reading bytes.now) }
    {
        Pairs {
            rest: bytes,
            place: 0,
            last: 0,
            room: MOST,
            has_ended: false,
        }
    }

    fn step(&mut self) -> Option<Result<Run, BadPairs>>
        ensures { MatchOption result ((self.old ≡ []) × (self.new ≡ [])) (λ item. self.old ≡ item ∷ self.new) }
    {
        if self.has_ended {
            return None;
        }
        match front_at(self.rest, self.last, self.room) {
            Front::Closing => {
                self.has_ended = true;
                None
            }
            Front::Wrong => {
                self.has_ended = true;
                Some(Err(BadPairs { place: self.place }))
            }
            Front::Pair { run, size } => {
                let (_, rest) = self.rest.split_at(size);
                self.rest = rest;
                self.place += size;
                self.last = run.lcn.unwrap_or(self.last);
                self.room -= run.length;
                Some(Ok(run))
            }
        }
    }
}

impl<'a> Iterator for Pairs<'a> {
    ghost use Rattle.std.specs.Iterator.{YieldsFirst, item_count};

    type Item = Result<Run, BadPairs>;

    ghost next_gives = { YieldsFirst (λ s. s) };

    ghost remaining = { item_count (λ s. s) };

    fn next(&mut self) -> Option<Result<Run, BadPairs>> {
        self.step()
    }
}
