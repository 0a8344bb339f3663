//! The attributes of a file record, one after the other.

ghost use Rattle.std.specs.Prelude.{◌≡◌, ◌+◌, ◌≤◌, ◌<◌, ◌^◌, length};
ghost use Rattle.ntfs_record.specs.Layout as layout;
ghost use Rattle.ntfs_record.specs.Attribute as spec;
ghost use Rattle.ntfs_record.specs.Parsing as parsing;
ghost use Rattle.ntfs_record.specs.Views as views;

use crate::layout::{
    allocated_at, attribute_flags_at, in_use_of, instance_at, kind_at, length_at, lowest_at,
    name_offset_at, name_units_at, non_resident_at, pairs_offset_at, piece_at, size_at, valid_at,
    value_length_at, value_offset_at,
};
use crate::soundness::{is_end, next_at};
use std::marker::Model;

/// What an attribute has: its value, or where the clusters of its stream are told.
#[derive(Clone, Copy, Debug, PartialEq, Eq)]
pub enum Body<'a> {
    Resident {
        value: &'a [u8],
    },
    /// `next` is the highest VCN plus one, and `pairs` are all bytes from the offset of the mapping pairs to the end of
    /// the attribute.
    Runs {
        lowest: u64,
        next: u64,
        allocated: u64,
        size: u64,
        valid: u64,
        pairs: &'a [u8],
    },
}

/// An attribute of a file record. Its slices are parts of the record's bytes, and its place counts from their first.
#[derive(Clone, Copy, Debug, PartialEq, Eq)]
pub struct AttributeView<'a> {
    pub place: u32,
    pub kind: u32,
    pub name: &'a [u8],
    pub flags: u16,
    pub instance: u16,
    pub body: Body<'a>,
}

#[tactic(auto, unfolding(ntfs_base::specs::Bytes::piece_at))]
fn name_at<'a>(bytes: &'a [u8], place: usize) -> &'a [u8]
    requires within { layout.in_use_of bytes.now ≤ length bytes.now }
    requires sound { spec.IsSoundAt (layout.in_use_of bytes.now) place bytes.now }
    ensures { result.now ≡ spec.name_at place bytes.now }
{
    let units = usize::from(name_units_at(bytes, place));
    if units == 0 {
        return piece_at(bytes, 0, 0);
    }
    piece_at(
        bytes,
        place + usize::from(name_offset_at(bytes, place)),
        2 * units,
    )
}

fn value_at<'a>(bytes: &'a [u8], place: usize) -> &'a [u8]
    requires within { place + layout.length_at place bytes.now ≤ length bytes.now }
    requires value { spec.HasValue place bytes.now }
    ensures { result.now ≡ spec.value_at place bytes.now }
{
    let start = place + usize::from(value_offset_at(bytes, place));
    piece_at(bytes, start, value_length_at(bytes, place) as usize)
}

fn pairs_at<'a>(bytes: &'a [u8], place: usize) -> &'a [u8]
    requires within { place + layout.length_at place bytes.now ≤ length bytes.now }
    requires runs { spec.HasRuns place bytes.now }
    ensures { result.now ≡ spec.pairs_at place bytes.now }
{
    let offset = usize::from(pairs_offset_at(bytes, place));
    piece_at(
        bytes,
        place + offset,
        length_at(bytes, place) as usize - offset,
    )
}

#[tactic(auto, unfolding(crate::specs::Attribute::resident_at, crate::specs::Attribute::runs_at))]
fn body_at<'a>(bytes: &'a [u8], place: usize) -> Body<'a>
    requires within { layout.in_use_of bytes.now ≤ length bytes.now }
    requires sound { spec.IsSoundAt (layout.in_use_of bytes.now) place bytes.now }
    ensures { views.shown_body result ≡ views.shown_body_of (spec.attribute_at place bytes.now) }
{
    if non_resident_at(bytes, place) == 0 {
        return Body::Resident {
            value: value_at(bytes, place),
        };
    }
    Body::Runs {
        lowest: lowest_at(bytes, place),
        next: next_at(bytes, place),
        allocated: allocated_at(bytes, place),
        size: size_at(bytes, place),
        valid: valid_at(bytes, place),
        pairs: pairs_at(bytes, place),
    }
}

#[tactic(auto, unfolding(crate::specs::Attribute::resident_at, crate::specs::Attribute::runs_at))]
fn view_at<'a>(bytes: &'a [u8], place: usize) -> AttributeView<'a>
    requires within { layout.in_use_of bytes.now ≤ length bytes.now }
    requires sound { spec.IsSoundAt (layout.in_use_of bytes.now) place bytes.now }
    requires small { place < 2 ^ 32 }
    ensures { views.shown_view result ≡ views.shown_attribute place (spec.attribute_at place bytes.now) }
{
    AttributeView {
        place: place as u32,
        kind: kind_at(bytes, place),
        name: name_at(bytes, place),
        flags: attribute_flags_at(bytes, place),
        instance: instance_at(bytes, place),
        body: body_at(bytes, place),
    }
}

/// The attributes of a file record that are left, in their order: a caller sees the list of their own bytes, each at
/// its place.
#[derive(Debug, Drop)]
pub struct Attributes<'a> {
    bytes: &'a [u8],
    place: usize,
}

impl<'a> Model for Attributes<'a> {
    ghost use Rattle.std.specs.Prelude.{List};
    ghost use Rattle.ntfs_record.specs.Views.{Placed, placed_from};
    ghost use Rattle.ntfs_record.specs.Parsing.{raws_of, IsSoundFrom};

    ghost Value = { List Placed };

    ghost view = { λ a. placed_from a.place (raws_of a.bytes.now a.place) };

    ghost invariant = { λ a. IsSoundFrom a.bytes.now a.place };
}

impl<'a> Attributes<'a> {
    pub(crate) fn new(bytes: &'a [u8], place: usize) -> Attributes<'a>
        requires { parsing.IsSoundFrom bytes.now place }
        ensures { result ≡ views.placed_from place (parsing.raws_of bytes.now place) }
    {
        Attributes { bytes, place }
    }
}

impl<'a> Iterator for Attributes<'a> {
    ghost use Rattle.std.specs.Prelude.{map};
    ghost use Rattle.std.specs.Iterator.{YieldsFirstBy, item_count};
    ghost use Rattle.ntfs_record.specs.Views.{shown_view, shown_placed};

    type Item = AttributeView<'a>;

    ghost next_gives = { YieldsFirstBy shown_view (map shown_placed) };

    ghost remaining = { item_count (map shown_placed) };

    fn next(&mut self) -> Option<AttributeView<'a>> {
        let used = in_use_of(self.bytes) as usize;
        if is_end(self.bytes, used, self.place) {
            return None;
        }
        let view = view_at(self.bytes, self.place);
        self.place += length_at(self.bytes, self.place) as usize;
        Some(view)
    }
}
