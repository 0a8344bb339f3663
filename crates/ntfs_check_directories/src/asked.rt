//! Questions about directories, one directory at a time.

ghost use Rattle.std.specs.Prelude.{◌≡◌, Some};
ghost use Rattle.ntfs_check_directories.specs.Asked.{directory_said};
ghost use Rattle.ntfs_fixup.specs.Fixups.{HasWholeStrides};
ghost use Rattle.ntfs_volume.specs.Located.{located_slot, sound_located};

use crate::leads::all_lead;
use crate::order::is_ordered;
use ntfs_base::Image;
use ntfs_check_records::{Question, sound_record};
use ntfs_record::RecordView;
use ntfs_rules::CheckFault;
use ntfs_upcase::UpCase;
use ntfs_volume::Table;
use std::alloc::Global;

/// What is asked of each directory.
#[derive(Clone, Copy)]
pub(crate) enum Asked<'a> {
    /// Whether its names are in order under a table.
    Order { upper: &'a UpCase },
    /// Whether its entries lead to records that have their names.
    Names,
}

/// The sequence number of a base record with the flag of a directory.
#[tactic(auto, unfolding(ntfs_rules::specs::Directories::has_directory_flag))]
fn directory_said(view: &RecordView<'_>) -> Option<u16>
    ensures { result ≡ directory_said (sound_located view.now) }
{
    if view.base() == 0 && view.flags() / 2 % 2 == 1 {
        Some(view.sequence())
    } else {
        None
    }
}

/// The sequence number of the record of a number, which has these bytes, where it is a directory in use. The bytes hold
/// anything afterwards.
fn directory_in(number: u64, raw: &mut [u8]) -> Option<u16>
    requires { HasWholeStrides raw.old }
    ensures { result ≡ directory_said (located_slot number (Some raw.old)) }
{
    match sound_record(number, raw) {
        None => None,
        Some(view) => directory_said(&view),
    }
}

impl<'a> Question for Asked<'a> {
    ghost use Rattle.std.specs.Prelude.{⊤};
    ghost use Rattle.ntfs_check_directories.specs.Asked.{directory_answer};

    ghost presumes = { λ asked o content. ⊤ };

    ghost answer = { λ asked o content. directory_answer asked o content };

    fn passes<G: Image>(
        &self,
        alloc: Global,
        image: &mut G,
        table: &Table,
        number: u64,
        raw: &mut [u8],
    ) -> Result<bool, CheckFault> {
        match directory_in(number, raw) {
            None => Ok(true),
            Some(sequence) => match self {
                Asked::Order { upper } => is_ordered(alloc, image, table, upper, number),
                Asked::Names => all_lead(alloc, image, table, number, sequence, raw),
            },
        }
    }
}
