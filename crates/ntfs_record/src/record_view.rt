//! A whole file record.

ghost use Rattle.std.specs.Prelude.{◌≡◌, ◌<◌, ◌^◌, ℕ, length, map, All, List, IfOk, IfErr};
ghost use Rattle.ntfs_record.specs.FileRecord.{FileRecord};
ghost use Rattle.ntfs_record.specs.declared.fault.RecordFault.{RecordFault};
ghost use Rattle.ntfs_record.specs.Parsing.{parse_of};
ghost use Rattle.ntfs_record.specs.Views.{placed_of, shown_placed, HasBounds};
ghost use Rattle.ntfs_record.specs.IsRecord.{IsRecord, IsKept, HasRecordCause};

use crate::attribute::Attributes;
use crate::fault::RecordFault;
use crate::header::header_fault_of;
use crate::layout::{
    array_offset, base_of, first_attribute_of, flags_of, in_use_of, links_of, own_number_of,
    sequence_of,
};
use crate::soundness::unsound_of;
use std::marker::Model;

/// A file record in place, with nothing wrong. A caller sees its header and the list of its attributes' own bytes.
#[derive(Debug, Drop)]
pub struct RecordView<'a> {
    bytes: &'a [u8],
}

impl<'a> Model for RecordView<'a> {
    ghost use Rattle.ntfs_record.specs.FileRecord.{FileRecord};
    ghost use Rattle.ntfs_record.specs.Parsing.{record_of, IsAccepted};

    ghost Value = { FileRecord };

    ghost view = { λ r. record_of r.bytes.now };

    ghost invariant = { λ r. IsAccepted r.bytes.now };
}

#[tactic(auto, using(crate::proofs::Sound::sound_header), unfolding(crate::specs::Parsing::record_of))]
impl<'a> RecordView<'a> {
    /// The sequence number, which tells how often the record was used for another file.
    pub fn sequence(&self) -> u16
        ensures { result ≡ self.now.head.sequence }
    {
        sequence_of(self.bytes)
    }

    /// The number of hard links.
    pub fn links(&self) -> u16
        ensures { result ≡ self.now.head.links }
    {
        links_of(self.bytes)
    }

    /// 1 is in use, 2 is a directory.
    pub fn flags(&self) -> u16
        ensures { result ≡ self.now.head.flags }
    {
        flags_of(self.bytes)
    }

    /// The reference of the base record, 0 in a base record.
    pub fn base(&self) -> u64
        ensures { result ≡ self.now.head.base }
    {
        base_of(self.bytes)
    }

    /// The number of bytes in use.
    pub fn in_use(&self) -> u32
        ensures { result ≡ self.now.layout.in_use }
    {
        in_use_of(self.bytes)
    }

    /// The record's own number, where it tells one.
    pub fn number(&self) -> Option<u32>
        ensures { result ≡ self.now.layout.number }
    {
        if array_offset(self.bytes) < 0x30 {
            return None;
        }
        Some(own_number_of(self.bytes))
    }

    /// The attributes, in the record's order.
    pub fn attributes(&self) -> Attributes<'a>
        ensures placed { result ≡ placed_of self.now }
        ensures raws { map (λ p. p.raw) result ≡ self.now.raws }
        ensures few { length result < 2 ^ 32 }
        ensures bounds { All HasBounds (map shown_placed result) }
    {
        Attributes::new(self.bytes, usize::from(first_attribute_of(self.bytes)))
    }
}

#[tactic(auto, unfolding(crate::specs::Parsing::parse_of))]
fn view_of(bytes: &[u8]) -> Result<RecordView<'_>, RecordFault>
    ensures { result ≡ parse_of bytes.now }
{
    if let Some(field) = header_fault_of(bytes) {
        return Err(RecordFault::BadHeader { field });
    }
    if let Some(place) = unsound_of(bytes) {
        return Err(RecordFault::BadAttribute { place });
    }
    Ok(RecordView { bytes })
}

/// Tests the bytes of an unfixed file record, all of them, and gives a view of it.
pub fn parse<'a>(bytes: &'a [u8]) -> Result<RecordView<'a>, RecordFault>
    // The definition, in both outcomes.
    ensures exact { result ≡ parse_of bytes.now }
    // What is found is a record, and what is a record is found.
    ensures found { IfOk result (IsRecord bytes.now) }
    ensures only { (r : FileRecord) → IsRecord bytes.now r → result ≡ Ok r }
    // Its attributes lie in the bytes, one after the other, and their numbers are bounded.
    ensures kept { IfOk result (IsKept bytes.now) }
    // A fault has its cause, and what has a cause gives the fault.
    ensures cause { IfErr result (HasRecordCause bytes.now) }
    ensures only_cause { (fault : RecordFault) → HasRecordCause bytes.now fault → result ≡ Err fault }
{
    view_of(bytes)
}
