//! File records by their number, from their bytes as they stand on disk.

ghost use Rattle.std.specs.Prelude.{◌≡◌, ◌≤◌, length, Some};
ghost use Rattle.ntfs_fixup.specs.Fixups.{HasWholeStrides};
ghost use Rattle.ntfs_record.specs.Slots as spec;

use crate::header::begins_file;
use crate::layout::flags_of;
use crate::record_view::{RecordView, parse};
use ntfs_fixup::{Magic, unfix};

/// A record of a number.
#[derive(Drop)]
pub enum SlotView<'a> {
    /// It isn't in use; its bytes may begin with `BAAD`.
    Idle { is_baad: bool },
    /// It doesn't unfix, something is wrong with it, or it tells another number.
    Unsound,
    Sound { view: RecordView<'a> },
}

/// The bytes begin with `FILE` and have the flag of a record in use.
#[tactic(auto, unfolding(crate::specs::Slots::is_in_use))]
pub fn is_in_use(raw: &[u8]) -> bool
    requires { 24 ≤ length raw.now }
    ensures { result ≡ spec.is_in_use raw.now }
{
    begins_file(raw) && flags_of(raw) % 2 == 1
}

/// The bytes begin with `BAAD`.
#[tactic(auto, unfolding(crate::specs::Slots::begins_baad))]
fn begins_baad(raw: &[u8]) -> bool
    ensures { result ≡ spec.begins_baad raw.now }
{
    raw.starts_with(b"BAAD")
}

/// The record tells no other number than this.
fn tells_own(view: &RecordView<'_>, number: u64) -> bool
    ensures { result ≡ spec.tells_own number view.now.layout.number }
{
    match view.number() {
        None => true,
        Some(own) => u64::from(own) == number,
    }
}

fn own_slot<'a>(view: RecordView<'a>, number: u64) -> SlotView<'a>
    ensures { spec.shown_slot result ≡ spec.own_slot number view.entry }
{
    if tells_own(&view, number) {
        return SlotView::Sound { view };
    }
    SlotView::Unsound
}

fn live_slot<'a>(raw: &'a mut [u8], number: u64) -> SlotView<'a>
    requires { HasWholeStrides raw.old }
    ensures { spec.shown_slot result ≡ spec.live_slot number (spec.record_in raw.old) }
{
    if unfix(raw, Magic::File).is_err() {
        return SlotView::Unsound;
    }
    match parse(raw) {
        Err(_) => SlotView::Unsound,
        Ok(view) => own_slot(view, number),
    }
}

/// The record of this number, which has these bytes; those of a record in use are unfixed in place.
#[tactic(auto, unfolding(crate::specs::Slots::slot_of))]
pub fn slot_in<'a>(raw: &'a mut [u8], number: u64) -> SlotView<'a>
    requires { HasWholeStrides raw.old }
    ensures { spec.shown_slot result ≡ spec.slot_of number (Some raw.old) }
{
    if is_in_use(raw) {
        return live_slot(raw, number);
    }
    SlotView::Idle {
        is_baad: begins_baad(raw),
    }
}
