//! Laws of the definitions. Each function does nothing, and its contract is the law.

ghost use Rattle.std.specs.Prelude.{◌≡◌, ◌≤◌, ◌<◌, ◌*◌, ◌⊎◌, ◌↔◌, ℕ, List, map, length, Ok, Err};
ghost use Rattle.std.specs.List.{concat};
ghost use Rattle.ntfs_attrlist.specs.Entry.{Listed, listed_of};
ghost use Rattle.ntfs_attrlist.specs.AttributeList as list;
ghost use Rattle.ntfs_attrlist.specs.Reading.{list_entries};

/// Sound entries that were joined are read, all of them; all entries are read exactly where the list is their bytes
/// joined, and a fault exactly where the list breaks.
pub fn lists_are_read()
    ensures joined { (raws : List (List ℕ)) → list.AreRawEntries raws
        → list_entries (concat raws) ≡ Ok (map listed_of raws) }
    ensures found { (bytes : List ℕ) (listed : List Listed)
        → (list_entries bytes ≡ Ok listed) ↔ list.AreEntries bytes listed }
    ensures fault { (bytes : List ℕ) (place : ℕ)
        → (list_entries bytes ≡ Err (record { place = place }))
        ↔ ((listed : List Listed) × list.BreaksAt bytes listed place) }
{}

/// Bytes are a list of certain entries, or break at a certain place behind certain entries, and never both.
pub fn lists_have_one_reading()
    ensures either { (bytes : List ℕ) → ((listed : List Listed) × list.AreEntries bytes listed)
        ⊎ ((listed : List Listed) × (place : ℕ) × list.BreaksAt bytes listed place) }
    ensures not_both { (bytes : List ℕ) (listed others : List Listed) (place : ℕ)
        → list.AreEntries bytes listed → ¬ list.BreaksAt bytes others place }
    ensures entries { (bytes : List ℕ) (listed others : List Listed)
        → list.AreEntries bytes listed → list.AreEntries bytes others → listed ≡ others }
    ensures breaks { (bytes : List ℕ) (listed others : List Listed) (place other : ℕ)
        → list.BreaksAt bytes listed place → list.BreaksAt bytes others other → (listed ≡ others) × (place ≡ other) }
{}

/// No entry stands at the front of bytes exactly where one of the format's causes holds.
pub fn bad_entries_have_causes()
    ensures { (bytes : List ℕ) → list.IsBadEntry bytes ↔ (¬ list.BeginsWithEntry bytes) }
{}

/// An entry has 26 bytes at least, and a fault stands in the list.
pub fn entries_take_their_bytes()
    ensures entries { (bytes : List ℕ) (listed : List Listed)
        → list.AreEntries bytes listed → 26 * length listed ≤ length bytes }
    ensures breaks { (bytes : List ℕ) (listed : List Listed) (place : ℕ)
        → list.BreaksAt bytes listed place → (26 * length listed ≤ place) × (place < length bytes) }
{}
