ghost use Rattle.std.specs.Prelude.{◌≡◌};
ghost use Rattle.ntfs_attrlist.specs.Entry.{listed_of, IsRawEntry};
ghost use Rattle.ntfs_attrlist.specs.Views.{shown_entry};

use crate::layout::{entry_instance, entry_kind, entry_lowest, entry_name, entry_reference};

/// An entry of an attribute list (the Linux-NTFS documentation, "$ATTRIBUTE_LIST"). Its name is a part of the list.
#[derive(Clone, Copy, Debug, PartialEq, Eq)]
pub struct ListEntry<'a> {
    /// `type`, u32 at 0x00: the attribute's type.
    pub kind: u32,
    /// `name`, of `name_length` units (u8 at 0x06) from `name_offset` bytes on (u8 at 0x07): UTF-16LE, two bytes a
    /// unit; empty where the attribute has none.
    pub name: &'a [u8],
    /// `lowest_vcn`, u64 at 0x08: the first VCN that the attribute holds, 0 where it is resident.
    pub lowest: u64,
    /// `mft_reference`, u64 at 0x10: the file record in which the attribute stands, its number in the low 48 bits and
    /// its sequence number in the upper 16.
    pub reference: u64,
    /// `instance`, u16 at 0x18: the attribute's instance in that record.
    pub instance: u16,
}

/// What the bytes of one entry say.
#[tactic(auto, unfolding(crate::specs::Entry::listed_of))]
pub(crate) fn entry_from<'a>(raw: &'a [u8]) -> ListEntry<'a>
    requires { IsRawEntry raw.now }
    ensures { shown_entry result ≡ listed_of raw.now }
{
    ListEntry {
        kind: entry_kind(raw),
        name: entry_name(raw),
        lowest: entry_lowest(raw),
        reference: entry_reference(raw),
        instance: entry_instance(raw),
    }
}
