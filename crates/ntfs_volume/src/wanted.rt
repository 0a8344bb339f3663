//! The first attribute of a record that is wanted.

ghost use Rattle.std.specs.Prelude.{◌≡◌, ◌≤◌, ◌^◌, ◌&&◌, ◌==◌, not, find, map, IfSome};
ghost use Rattle.std.specs.Option.{option_map};
ghost use Rattle.ntfs_record.specs.FileRecord.{attributes_of};
ghost use Rattle.ntfs_record.specs.Views.{shown_body};
ghost use Rattle.ntfs_volume.specs.MftMap.{is_data};
ghost use Rattle.ntfs_volume.specs.Views.{is_wanted, told, told_view};

use ntfs_record::{AttributeView, Body, RecordView};

/// Which attribute of a record is wanted.
#[derive(Clone, Copy, PartialEq, Eq)]
pub enum Wanted {
    /// A list of attributes.
    List,
    /// The first extent of $MFT.
    First,
    /// Unnamed data of this lowest VCN and instance.
    Extent { lowest: u64, instance: u16 },
}

pub(crate) fn is_wanted(view: &AttributeView<'_>, wanted: Wanted) -> bool
    ensures { result ≡ is_wanted wanted (told_view view.now) }
{
    match wanted {
        Wanted::List => view.kind == 0x20,
        Wanted::First => is_data(view) && begins(&view.body),
        Wanted::Extent { lowest, instance } => {
            is_data(view) && lowest_of(&view.body) == lowest && view.instance == instance
        }
    }
}

fn is_data(view: &AttributeView<'_>) -> bool
    ensures { result ≡ is_data view.now.kind view.now.name.now }
{
    view.kind == 0x80 && view.name.is_empty()
}

fn lowest_of(body: &Body<'_>) -> u64
    ensures { result ≡ (shown_body body.now).lowest }
{
    match body {
        Body::Resident { .. } => 0,
        Body::Runs { lowest, .. } => *lowest,
    }
}

fn begins(body: &Body<'_>) -> bool
    ensures { result ≡ (not (shown_body body.now).is_resident && ((shown_body body.now).lowest == 0)) }
{
    match body {
        Body::Resident { .. } => false,
        Body::Runs { lowest, .. } => *lowest == 0,
    }
}

/// The first attribute of the record that is wanted.
pub fn first_of<'a>(view: &RecordView<'a>, wanted: Wanted) -> Option<AttributeView<'a>>
    ensures found { option_map told_view result ≡ find (is_wanted wanted) (map told (attributes_of view.now)) }
    ensures lowest { IfSome result (λ attribute. (shown_body attribute.body).lowest ≤ 2 ^ 48) }
{
    'attributes: for attribute in view.attributes() {
        if is_wanted(&attribute, wanted) {
            return Some(attribute);
        }
    }
    None
}
