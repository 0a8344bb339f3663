ghost use Rattle.std.specs.Prelude.{◌≡◌, [], ◌∷◌, length, MatchOption};
ghost use Rattle.ntfs_attrlist.specs.Reading as reading;
ghost use Rattle.ntfs_attrlist.specs.Views.{shown_item};

use crate::entry::{ListEntry, entry_from};
use crate::fault::BadEntry;
use crate::layout::{entry_name_offset, entry_name_units, list_entry_length};
use std::marker::Model;

/// The bytes of an entry's fields, which its name follows.
const FIELDS: usize = 26;

/// Whether an entry stands at the front of the bytes.
#[tactic(auto, unfolding(crate::specs::Reading::has_entry))]
fn has_entry(bytes: &[u8]) -> bool
    ensures { result ≡ reading.has_entry bytes.now }
{
    if bytes.len() < FIELDS {
        return false;
    }
    let size = usize::from(list_entry_length(bytes));
    let name_end = usize::from(entry_name_offset(bytes)) + 2 * usize::from(entry_name_units(bytes));
    FIELDS <= size && size <= bytes.len() && name_end <= size
}

/// The entries of an attribute list that are left, in their order. A caller sees the list of what they say, and at its
/// end the fault where one stands; after the fault nothing comes.
#[derive(Debug, Drop)]
pub struct Entries<'a> {
    rest: &'a [u8],
    place: usize,
}

impl<'a> Model for Entries<'a> {
    ghost use Rattle.std.specs.Prelude.{◌+◌, ◌<◌, ◌^◌, List, Result, length};
    ghost use Rattle.ntfs_attrlist.specs.declared.fault.BadEntry.{BadEntry};
    ghost use Rattle.ntfs_attrlist.specs.Entry.{Listed};
    ghost use Rattle.ntfs_attrlist.specs.Reading.{list_items_from};

    ghost Value = { List (Result Listed BadEntry) };

    ghost view = { λ e. list_items_from 0 e.place e.rest.now };

    ghost invariant = { λ e. e.place + length e.rest.now < 2 ^ 64 };
}

impl<'a> Entries<'a> {
    #[tactic(auto, unfolding(crate::specs::Reading::list_items))]
    pub(crate) fn new(list: &'a [u8]) -> Entries<'a>
        ensures { result ≡ reading.list_items list.now }
    {
        Entries {
            rest: list,
            place: 0,
        }
    }

    fn step(&mut self) -> Option<Result<ListEntry<'a>, BadEntry>>
        ensures { MatchOption result
            ((self.old ≡ []) × (self.new ≡ []))
            (λ item. self.old ≡ shown_item item ∷ self.new) }
    {
        if self.rest.is_empty() {
            return None;
        }
        if !has_entry(self.rest) {
            self.rest = &[];
            return Some(Err(BadEntry { place: self.place }));
        }
        let (raw, rest) = self
            .rest
            .split_at(usize::from(list_entry_length(self.rest)));
        self.rest = rest;
        self.place += raw.len();
        Some(Ok(entry_from(raw)))
    }
}

impl<'a> Iterator for Entries<'a> {
    ghost use Rattle.std.specs.Iterator.{YieldsFirstBy, item_count};
    ghost use Rattle.ntfs_attrlist.specs.Views.{shown_item};

    type Item = Result<ListEntry<'a>, BadEntry>;

    ghost next_gives = { YieldsFirstBy shown_item (λ e. e) };

    ghost remaining = { item_count (λ e. e) };

    fn next(&mut self) -> Option<Result<ListEntry<'a>, BadEntry>> {
        self.step()
    }
}
