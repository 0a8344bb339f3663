//! Laws of the definitions. Each function does nothing, and its contract is the law.

ghost use Rattle.std.specs.Prelude.{◌≡◌, ◌≤◌, ◌<◌, ◌+◌, ◌^◌, ◌++◌, ◌∷◌, ℕ, List, Option, Some, Ok, true, length, map};
ghost use Rattle.std.specs.List.{concat, Contains, AllByRecursion};
ghost use Rattle.ntfs_fixup.specs.Fixups.{HasWholeStrides, HasFront, refix_of};
ghost use Rattle.ntfs_fixup.specs.declared.header.Magic.TheVariants.{File};
ghost use Rattle.ntfs_record.specs.FileRecord.{Attribute, Laid, FileRecord};
ghost use Rattle.ntfs_record.specs.Attribute.{attribute_of, IsRaw};
ghost use Rattle.ntfs_record.specs.Layout.{first_attribute_of, non_resident_at};
ghost use Rattle.ntfs_record.specs.Parsing.{raws_of, parse_of, IsAccepted};
ghost use Rattle.ntfs_record.specs.IsRecord.{IsRecord};
ghost use Rattle.ntfs_record.specs.Slots.{is_in_use, record_in, own_slot, slot_of};
ghost use Rattle.ntfs_record.specs.Spelling.{AllRaw};
ghost use Rattle.ntfs_record.specs.Views.{Placed, placed_from, placed_of, shown_placed};
ghost use Rattle.ntfs_runs.specs.Canon.{canon, AreCells};
ghost use Rattle.ntfs_runs.specs.Cells.{Cells};
ghost use Rattle.ntfs_edit.specs.Edits.{with_pairs, with_value, with_sizes, TakesPairs, TakesValue, TakesSizes, pairs_said, value_said, sizes_said, BeginsFrom, BeginsAsShown, changed};
ghost use Rattle.ntfs_edit.specs.Respelt.{need_of, respelt, respelt_record, IsChange};
ghost use Rattle.ntfs_edit.specs.Rows.{ChangesOne, EditsRead, AllEditsRead, all_read, with_cells_read, cells_said, Turn};

/// An edited attribute has nothing wrong, and says what it said, with other mapping pairs, another value or other
/// sizes.
pub fn edited_attributes_are_read()
    ensures pairs { (pairs raw : List ℕ) (next : ℕ) → TakesPairs pairs next raw
        → IsRaw (with_pairs pairs next raw) × (attribute_of (with_pairs pairs next raw) ≡ pairs_said pairs next raw) }
    ensures value { (value raw : List ℕ) → TakesValue value raw
        → IsRaw (with_value value raw) × (attribute_of (with_value value raw) ≡ value_said value (attribute_of raw)) }
    ensures sizes { (allocated size valid : ℕ) (raw : List ℕ) → TakesSizes allocated size valid raw
        → IsRaw (with_sizes allocated size valid raw)
        × (attribute_of (with_sizes allocated size valid raw)
        ≡ sizes_said allocated size valid (attribute_of raw)) }
{}

/// Of a record's attributes the one that begins at a place is edited, and the others stay and say what they said; where
/// that one stays sound, all are. An attribute of the record begins at its place, and each that a view shows at the
/// place that is shown.
pub fn one_attribute_is_edited(bytes: &[u8])
    ensures one { (residence place : ℕ) (f : List ℕ → List ℕ) → IsAccepted bytes.now
        → BeginsFrom residence place (first_attribute_of bytes.now) (raws_of bytes.now (first_attribute_of bytes.now))
        → ChangesOne place f bytes.now }
    ensures sound { (place : ℕ) (f : List ℕ → List ℕ) (one : ChangesOne place f bytes.now) → IsAccepted bytes.now
        → IsRaw (f one.raw) → AllRaw (changed place f bytes.now) }
    ensures reads { (place : ℕ) (f : List ℕ → List ℕ) (said : Attribute (Laid (List ℕ)))
        (one : ChangesOne place f bytes.now) → attribute_of (f one.raw) ≡ said
        → map attribute_of (changed place f bytes.now)
        ≡ map attribute_of one.before ++ (said ∷ map attribute_of one.after) }
    ensures begins { (residence here : ℕ) (raws : List (List ℕ)) (p : Placed) → Contains (placed_from here raws) p
        → non_resident_at 0 p.raw ≡ residence → BeginsFrom residence p.place here raws }
    ensures shown { (r : FileRecord) → IsRecord bytes.now r
        → AllByRecursion (BeginsAsShown bytes.now) (map shown_placed (placed_of r)) }
{}

/// A record with its own attributes is itself. One with other sound attributes, for which it has room, is as long as it
/// was, parses to the old record with these, and can be edited again. What parses can be edited.
pub fn edited_records_parse(bytes: &[u8])
    ensures same { IsAccepted bytes.now
        → respelt bytes.now (raws_of bytes.now (first_attribute_of bytes.now)) ≡ bytes.now }
    ensures long { (raws : List (List ℕ)) → IsChange bytes.now raws
        → length (respelt bytes.now raws) ≡ length bytes.now }
    ensures parses { (raws : List (List ℕ)) → IsChange bytes.now raws
        → parse_of (respelt bytes.now raws) ≡ Ok (respelt_record bytes.now raws) }
    ensures accepted { (raws : List (List ℕ)) → IsChange bytes.now raws → IsAccepted (respelt bytes.now raws) }
    ensures parsed { (r : FileRecord) → parse_of bytes.now ≡ Ok r → length bytes.now < 2 ^ 32
        → IsAccepted bytes.now }
{}

/// A record whose attributes are all edited parses, where it has room for them all, and what is read of its attributes
/// is changed. What is read here are the plain values and the cells of the runs; the lemmas say it of all that can be
/// read.
pub fn lists_of_edits_are_read(bytes: &[u8])
    ensures parses { (reads : Attribute (Laid (List ℕ)) → Attribute (Cells ℕ)) (f : List ℕ → List ℕ)
        (g : Attribute (Cells ℕ) → Attribute (Cells ℕ)) → IsAccepted bytes.now
        → 0x30 ≤ first_attribute_of bytes.now
        → AllEditsRead reads f g (raws_of bytes.now (first_attribute_of bytes.now))
        → need_of bytes.now (map f (raws_of bytes.now (first_attribute_of bytes.now))) ≤ length bytes.now
        → parse_of (respelt bytes.now (map f (raws_of bytes.now (first_attribute_of bytes.now))))
        ≡ Ok (respelt_record bytes.now (map f (raws_of bytes.now (first_attribute_of bytes.now)))) }
    ensures reads { (reads : Attribute (Laid (List ℕ)) → Attribute (Cells ℕ)) (f : List ℕ → List ℕ)
        (g : Attribute (Cells ℕ) → Attribute (Cells ℕ)) (raws : List (List ℕ)) → AllEditsRead reads f g raws
        → all_read reads (map f raws) ≡ map g (all_read reads raws) }
    ensures both { (reads : Attribute (Laid (List ℕ)) → Attribute (Cells ℕ)) (f h : List ℕ → List ℕ)
        (g k : Attribute (Cells ℕ) → Attribute (Cells ℕ)) (raw : List ℕ) → EditsRead reads f g raw
        → EditsRead reads h k (f raw) → EditsRead reads (λ r. h (f r)) (λ a. k (g a)) raw }
{}

/// Two edits in a row, of which the second doesn't shrink the record, are one; the room that a record needs with other
/// attributes stays the same whatever it was edited to. So a walk that edits one attribute after the other edits them
/// all.
pub fn edits_in_a_row_are_one(bytes: &[u8])
    ensures need { (raws others : List (List ℕ)) → IsChange bytes.now raws
        → need_of (respelt bytes.now raws) others ≡ need_of bytes.now others }
    ensures twice { (raws others : List (List ℕ)) → IsChange bytes.now raws
        → need_of bytes.now raws ≤ need_of bytes.now others
        → respelt (respelt bytes.now raws) others ≡ respelt bytes.now others }
    ensures turn { (place : ℕ) (f : List ℕ → List ℕ) (before : List (List ℕ)) (raw : List ℕ) (after : List (List ℕ))
        → IsChange bytes.now (before ++ (raw ∷ after))
        → first_attribute_of bytes.now + length (concat before) ≡ place
        → Turn bytes.now (respelt bytes.now (before ++ (raw ∷ after))) place f before raw after }
{}

/// A record that unfixes has its first attribute behind the header's last field. Refixed, unfixed and parsed again, an
/// edited record says its new attributes; it is in use where it was, and then says them as the record of its number.
pub fn edited_records_are_read_again(bytes: &[u8])
    ensures first { IsAccepted bytes.now → HasWholeStrides bytes.now → HasFront File bytes.now
        → 0x30 ≤ first_attribute_of bytes.now }
    ensures says { (raws : List (List ℕ)) → IsAccepted bytes.now → HasWholeStrides bytes.now → HasFront File bytes.now
        → AllRaw raws → need_of bytes.now raws ≤ length bytes.now
        → record_in (refix_of (respelt bytes.now raws)) ≡ Some (respelt_record bytes.now raws) }
    ensures in_use { (raws : List (List ℕ)) → IsChange bytes.now raws → HasWholeStrides bytes.now
        → HasFront File bytes.now → is_in_use (refix_of (respelt bytes.now raws)) ≡ is_in_use bytes.now }
    ensures slot { (number : ℕ) (raws : List (List ℕ)) → IsAccepted bytes.now → HasWholeStrides bytes.now
        → HasFront File bytes.now → AllRaw raws → need_of bytes.now raws ≤ length bytes.now
        → is_in_use bytes.now ≡ true
        → slot_of number (Some (refix_of (respelt bytes.now raws)))
        ≡ own_slot number (respelt_record bytes.now raws) }
{}

/// A run list in its canonical spelling is read back from the attribute that got it, whatever padding stands behind it.
pub fn encoded_pairs_are_read()
    ensures { (cells : List (Option ℕ)) (next : ℕ) (raw : List ℕ) → AreCells cells
        → TakesPairs (canon cells) next raw
        → EditsRead with_cells_read (with_pairs (canon cells) next) (cells_said next cells) raw }
{}
