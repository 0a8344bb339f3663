//! Questions about records, one record at a time.

use crate::bases::has_named_base;
use crate::extensions::Extensions;
use crate::lists::is_listed;
use ntfs_base::Image;
use ntfs_check_records::{Question, sound_record};
use ntfs_rules::CheckFault;
use ntfs_volume::Table;
use std::alloc::Global;

/// What is asked of each record in use.
#[derive(Clone, Copy)]
pub(crate) enum Asked<'a> {
    /// Whether its base reference, where it has one, matches a base record in use.
    Base,
    /// Whether its list, where it is a base record, has the attributes of the file, which are in these records too.
    List { extensions: &'a Extensions },
}

impl<'a> Question for Asked<'a> {
    ghost use Rattle.ntfs_base.specs.Bytes.{cluster_at};
    ghost use Rattle.ntfs_check_files.specs.Asked.{Presumes, file_answer};

    ghost presumes = { λ asked o content. Presumes asked o (cluster_at content o.geometry.cluster) };

    ghost answer = { λ asked o content. file_answer asked o (cluster_at content o.geometry.cluster) };

    fn passes<G: Image>(
        &self,
        alloc: Global,
        image: &mut G,
        table: &Table,
        number: u64,
        raw: &mut [u8],
    ) -> Result<bool, CheckFault> {
        match sound_record(number, raw) {
            None => Ok(true),
            Some(view) => match self {
                Asked::Base => has_named_base(alloc, image, table, &view),
                Asked::List { extensions } => {
                    is_listed(alloc, image, table, extensions, number, &view)
                }
            },
        }
    }
}
