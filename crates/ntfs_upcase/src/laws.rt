//! What holds of the words of the contracts, for every table and all names: each function is a law, and does nothing.
ghost use Rattle.std.specs.Prelude.{◌≡◌, ◌+◌, ◌*◌, ◌/◌, ◌%◌, ◌<◌, ◌≤◌, ◌++◌, ◌↔◌, ℕ, List, false, length, slice_index, IsTrue};
ghost use Rattle.std.specs.Cmp.{IsTotalOrder, IsEquivalence};
ghost use Rattle.std.specs.Str.{IsUtf8};
ghost use Rattle.std.specs.Char.Utf16.{has_unpaired_surrogate};
ghost use Rattle.ntfs_base.specs.Bytes.{number_at, AreBytes};
ghost use Rattle.ntfs_upcase.specs.Names.{units, text_bytes, name_bytes};
ghost use Rattle.ntfs_upcase.specs.Collation.{collate, same_name, upper_units};

use std::cmp::Ordering;

/// A name has a unit for each two of its bytes, and unit `i` is the number in bytes `2 i` and `2 i + 1`.
pub fn names_are_units()
    ensures count { (name : List ℕ) → length (units name) ≡ length name / 2 }
    ensures unit { (name : List ℕ) (i : ℕ) → 2 * i + 1 < length name
        → slice_index (units name) i ≡ number_at 2 (2 * i) name }
{}

/// Under every table the comparison is a total order on names as the table sees them: it is reflexive and transitive,
/// says the opposite of a pair turned round, and tells two names apart exactly where their mapped units differ.
pub fn collation_is_a_total_order()
    ensures order { (table : List ℕ) → IsTotalOrder (collate table) }
    ensures reflexive { (table a : List ℕ) → collate table a a ≡ Ordering.Equal }
    ensures antisymmetric { (table a b : List ℕ)
        → (collate table a b ≡ Ordering.Equal) ↔ (upper_units table a ≡ upper_units table b) }
{}

/// A name comes before every longer one that it begins.
pub fn a_prefix_comes_first()
    ensures { (table name more : List ℕ) → length name % 2 ≡ 0 → 2 ≤ length more
        → collate table name (name ++ more) ≡ Ordering.Less }
{}

/// To be one name is an equivalence, and means to have the same units, as the table maps them.
pub fn same_name_is_an_equivalence()
    ensures equivalence { (table : List ℕ) → IsEquivalence (same_name table) }
    ensures mapped { (table a b : List ℕ)
        → IsTrue (same_name table a b) ↔ (upper_units table a ≡ upper_units table b) }
{}

/// Every text comes back from its name.
pub fn texts_come_back()
    ensures { (text : List ℕ) → IsUtf8 text → text_bytes (name_bytes text) ≡ text }
{}

/// Every name in which each surrogate has its partner comes back from its text.
pub fn names_come_back()
    ensures { (name : List ℕ) → AreBytes name → length name % 2 ≡ 0
        → has_unpaired_surrogate (units name) ≡ false → name_bytes (text_bytes name) ≡ name }
{}
