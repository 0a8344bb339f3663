ghost use Rattle.std.specs.Prelude.{◌≡◌, ◌≤◌, ◌+◌, ◌*◌, ◌↔◌, ℕ, List, length, map};
ghost use Rattle.std.specs.List.{All};
ghost use Rattle.std.specs.Result.{ok_prefix};
ghost use Rattle.ntfs_attrlist.specs.Entry.{Listed};
ghost use Rattle.ntfs_attrlist.specs.AttributeList.{AreEntries, BreaksAt};
ghost use Rattle.ntfs_attrlist.specs.Reading as reading;

use crate::walk::Entries;

/// The entries of an attribute list, in their order, up to the first place at which bytes are left but no entry stands.
/// `list` is the whole list: the value of an attribute of type 0x20, or the bytes of its stream (the Linux-NTFS
/// documentation, "$ATTRIBUTE_LIST"). Names are parts of it, two bytes a unit; a place counts bytes from its first. A
/// fault comes last. No memory is taken, and each byte is passed once.
pub fn entries<'a>(list: &'a [u8]) -> Entries<'a>
    // Entries without a fault come exactly where the list is their bytes joined.
    ensures found { (listed : List Listed) → (result ≡ map Ok listed) ↔ AreEntries list.now listed }
    // A fault comes behind these entries exactly where the list is their bytes up to its place, and none stands there.
    ensures fault { (listed : List Listed) (place : ℕ)
        → (result ≡ reading.entries_and_fault listed place) ↔ BreaksAt list.now listed place }
    // The definitions: item by item, and as a whole.
    ensures exact { result ≡ reading.list_items list.now }
    ensures whole { reading.all_or_first result ≡ reading.list_entries list.now }
    // How many come: an entry has 26 bytes at least, and there is one fault at most.
    ensures few { 26 * length (ok_prefix result) ≤ length list.now }
    ensures count { 26 * length result ≤ length list.now + 25 }
    // Numbers fit their fields, a name has at most 255 units and lies in the list, and so does the place of a fault.
    ensures bounds { All (reading.HasItemBounds (length list.now)) result }
{
    Entries::new(list)
}
