//! Questions about records, one record at a time.

ghost use Rattle.std.specs.Prelude.{◌≡◌, ◌+◌, ◌≤◌, ◌*◌, length, Some};
ghost use Rattle.ntfs_check_clusters.specs.Asked.{cluster_answer, has_bit_in, has_names_between, is_name_between};
ghost use Rattle.ntfs_check_records.specs.Asked.{passes_asked};
ghost use Rattle.ntfs_fixup.specs.Fixups.{HasWholeStrides};
ghost use Rattle.ntfs_record.specs.Attribute.{IsRaw};
ghost use Rattle.ntfs_record.specs.IsRecord.{IsKept};
ghost use Rattle.ntfs_record.specs.Parsing.{parse_of};
ghost use Rattle.ntfs_record.specs.Slots as slots;
ghost use Rattle.ntfs_volume.specs.Located.{live_located, located_slot};

use ntfs_base::Image;
use ntfs_bitmap::bit_of;
use ntfs_check_records::{Question, tells_own};
use ntfs_fixup::{Magic, unfix};
use ntfs_record::layout::{
    length_at, name_offset_at, name_units_at, non_resident_at, pairs_offset_at, value_offset_at,
};
use ntfs_record::{RecordView, is_in_use, parse};
use ntfs_rules::CheckFault;
use ntfs_volume::Table;
use std::alloc::Global;

/// What is asked of each record in use.
#[derive(Clone, Copy)]
pub(crate) enum Asked<'a> {
    /// Whether its bit is set among these.
    Mark { bits: &'a [u8] },
    /// Whether its names stand behind the fields of their attributes, and before what follows.
    Names,
}

/// Bit `place` stands in the bytes and is 1.
#[tactic(auto, unfolding(ntfs_rules::specs::Records::has_bit))]
pub(crate) fn has_bit(bits: &[u8], place: u64) -> bool
    ensures { result ≡ has_bit_in bits.now place }
{
    place / 8 < bits.len() as u64 && bit_of(bits, place)
}

/// The name of an attribute, which has these bytes, stands between its fields and its value or mapping pairs.
#[tactic(auto, unfolding(ntfs_rules::specs::Records::has_name_between))]
fn is_name_between(own: &[u8]) -> bool
    requires { IsRaw own.now }
    ensures { result ≡ is_name_between own.now }
{
    let units = usize::from(name_units_at(own, 0));
    if units == 0 {
        return true;
    }
    let begin = usize::from(name_offset_at(own, 0));
    if non_resident_at(own, 0) == 0 {
        24 <= begin && begin + 2 * units <= usize::from(value_offset_at(own, 0))
    } else {
        64 <= begin && begin + 2 * units <= usize::from(pairs_offset_at(own, 0))
    }
}

/// All names of a record of these bytes stand so.
fn has_names_between(block: &[u8], view: &RecordView<'_>) -> bool
    requires { IsKept block.now view.now }
    ensures { result ≡ has_names_between view.now }
{
    'attributes: for attribute in view.attributes() {
        let place = attribute.place as usize;
        let end = place + length_at(block, place) as usize;
        if !is_name_between(&block[place..end]) {
            return false;
        }
    }
    true
}

/// The names of the record of a number, which is in use and has these bytes, which are unfixed in place: nothing is
/// said against one that can't be read.
fn passes_names(number: u64, raw: &mut [u8]) -> bool
    requires { HasWholeStrides raw.old }
    ensures { result ≡ passes_asked (cluster_answer Asked.Names) number
        (live_located number (slots.record_in raw.old)) }
{
    if unfix(raw, Magic::File).is_err() {
        return true;
    }
    let block: &[u8] = raw;
    match parse(block) {
        Err(_) => true,
        Ok(view) => !tells_own(view.number(), number) || has_names_between(block, &view),
    }
}

/// The answer of the record of a number, which has these bytes; they hold anything afterwards.
fn passes_raw(asked: &Asked<'_>, number: u64, raw: &mut [u8]) -> bool
    requires { HasWholeStrides raw.old }
    ensures { result ≡ passes_asked (cluster_answer asked.now) number (located_slot number (Some raw.old)) }
{
    if !is_in_use(raw) {
        return true;
    }
    match asked {
        Asked::Mark { bits } => has_bit(bits, number),
        Asked::Names => passes_names(number, raw),
    }
}

impl<'a> Question for Asked<'a> {
    ghost use Rattle.std.specs.Prelude.{⊤};
    ghost use Rattle.ntfs_check_clusters.specs.Asked.{cluster_answer};

    ghost presumes = { λ asked o content. ⊤ };

    ghost answer = { λ asked o content. cluster_answer asked };

    fn passes<G: Image>(
        &self,
        _alloc: Global,
        _image: &mut G,
        _table: &Table,
        number: u64,
        raw: &mut [u8],
    ) -> Result<bool, CheckFault> {
        Ok(passes_raw(self, number, raw))
    }
}
