//! Laws of the definitions. Each function does nothing, and its contract is the law.

ghost use Rattle.std.specs.Prelude.{◌≡◌, ◌≢◌, ◌↔◌, ◌≤◌, ◌^◌, ◌+◌, ℕ, List, Bool, true, false, Some, Ok, length, pos, ◌+ℤ◌, ◌≤ℤ◌};
ghost use Rattle.std.specs.Int.{w64, cast_signed};
ghost use Rattle.ntfs_record.specs.FileRecord.{Attribute, Head, FileRecord};
ghost use Rattle.ntfs_record.specs.Slots.{Slot, map_slot, map_slots, first_not, is_in_use, begins_baad, record_in, tells_own, idle_slot, unsound_slot, sound_slot, slot_of};
ghost use Rattle.ntfs_record.specs.Attribute.{next_of, end_kind, attribute_at, attribute_of, raw_at, IsSoundAt, IsRaw};
ghost use Rattle.ntfs_record.specs.IsRecord.{IsRecord};
ghost use Rattle.ntfs_record.specs.Layout.{first_attribute_of, kind_at};
ghost use Rattle.ntfs_record.specs.Parsing.{raws_of, parse_of};
ghost use Rattle.ntfs_record.specs.Spelling.{Stands, Spelling, spell, IsSpelling, record_of_spelling, spelling_of};

/// The highest VCN is a signed number. Sound attributes are those whose highest VCN is at least the lowest less one
/// and at most 2^48, and the VCN after it is one more.
pub fn highest_is_signed(lowest: u64, highest: u64)
    ensures sound { ((lowest ≤ next_of highest) × (next_of highest ≤ 2 ^ 48 + 1))
        ↔ ((pos lowest ≤ℤ (cast_signed w64 highest +ℤ pos 1)) × (cast_signed w64 highest ≤ℤ pos (2 ^ 48))) }
    ensures next { pos 0 ≤ℤ (cast_signed w64 highest +ℤ pos 1)
        → pos (next_of highest) ≡ cast_signed w64 highest +ℤ pos 1 }
{}

/// The map over the records by their number: two maps are one, functions that agree give the same, and the first record
/// that a test refuses is found on either side of a map. The lemmas say it for payloads of every type.
pub fn records_are_mapped()
    ensures composed { (f g : ℕ → Head → Attribute ℕ → Attribute ℕ) (n : ℕ) (slots : List (Slot ℕ))
        → map_slots g n (map_slots f n slots) ≡ map_slots (λ r h a. g r h (f r h a)) n slots }
    ensures agreeing { (f g : ℕ → Head → Attribute ℕ → Attribute ℕ) (n : ℕ) (slots : List (Slot ℕ))
        → ((r : ℕ) (h : Head) (a : Attribute ℕ) → f r h a ≡ g r h a) → map_slots f n slots ≡ map_slots g n slots }
    ensures first { (f : ℕ → Head → Attribute ℕ → Attribute ℕ) (test other : ℕ → Slot ℕ → Bool) (n : ℕ)
        (slots : List (Slot ℕ)) → ((r : ℕ) (s : Slot ℕ) → other r (map_slot (f r) s) ≡ test r s)
        → first_not other n (map_slots f n slots) ≡ first_not test n slots }
{}

/// A record that isn't in use has the blank head and no attributes, one that tells another number isn't sound, and one
/// begins with `BAAD` where its bytes do.
pub fn slots_are_told(raw: &[u8], number: u64)
    ensures idle { is_in_use raw.now ≡ false → slot_of number (Some raw.now) ≡ idle_slot (begins_baad raw.now) }
    ensures other { (r : FileRecord) → is_in_use raw.now ≡ true → record_in raw.now ≡ Some r
        → tells_own number r.layout.number ≡ false → slot_of number (Some raw.now) ≡ unsound_slot }
    ensures own { (r : FileRecord) → is_in_use raw.now ≡ true → record_in raw.now ≡ Some r
        → tells_own number r.layout.number ≡ true → slot_of number (Some raw.now) ≡ sound_slot r }
    ensures baad { (slot_of number (Some raw.now)).is_baad ≡ begins_baad raw.now }
{}

/// An attribute's own bytes, with nothing wrong, say where they stand in a record what they say alone, and have nothing
/// wrong there; and those of a sound attribute of a record have nothing wrong alone.
pub fn attributes_stand(bytes: &[u8], place: usize)
    ensures says { (raw : List ℕ) → Stands place raw bytes.now → IsRaw raw
        → attribute_at place bytes.now ≡ attribute_of raw }
    ensures sound { (raw : List ℕ) (used : ℕ) → Stands place raw bytes.now → IsRaw raw
        → place + length raw + 4 ≤ used → IsSoundAt used place bytes.now }
    ensures own { (used : ℕ) → used ≤ length bytes.now → IsSoundAt used place bytes.now
        → kind_at place bytes.now ≢ end_kind
        → Stands place (raw_at bytes.now place) bytes.now × IsRaw (raw_at bytes.now place) }
{}

/// What is spelled from sound attributes parses to them, and what is a record is spelled by its own parts.
pub fn records_are_spelled(bytes: &[u8])
    ensures raws { (s : Spelling) → IsSpelling s → raws_of (spell s) (first_attribute_of (spell s)) ≡ s.raws }
    ensures parses { (s : Spelling) → IsSpelling s → parse_of (spell s) ≡ Ok (record_of_spelling s) }
    ensures bytes { (r : FileRecord) → IsRecord bytes.now r → spell (spelling_of bytes.now) ≡ bytes.now }
    ensures sound { (r : FileRecord) → IsRecord bytes.now r → IsSpelling (spelling_of bytes.now) }
    ensures says { (r : FileRecord) → IsRecord bytes.now r → r ≡ record_of_spelling (spelling_of bytes.now) }
{}
