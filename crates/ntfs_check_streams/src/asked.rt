//! Rule C12 of one record.

use crate::file::has_streams;
use ntfs_base::Image;
use ntfs_check_records::{Question, sound_record};
use ntfs_rules::CheckFault;
use ntfs_volume::Table;
use std::alloc::Global;

/// Whether all attributes of one type and name are one stream.
pub(crate) struct Streams;

impl Question for Streams {
    ghost use Rattle.ntfs_base.specs.Bytes.{cluster_at};
    ghost use Rattle.ntfs_check_streams.specs.Asked.{KeepsEleven, stream_answer};
    ghost use Rattle.ntfs_rules.specs.VolumeData.{volume_data};

    ghost presumes = { λ asked o content. KeepsEleven (volume_data o (cluster_at content o.geometry.cluster)) };

    ghost answer = { λ asked o content. stream_answer o (cluster_at content o.geometry.cluster) };

    fn passes<G: Image>(
        &self,
        alloc: Global,
        image: &mut G,
        table: &Table,
        number: u64,
        raw: &mut [u8],
    ) -> Result<bool, CheckFault> {
        match sound_record(number, raw) {
            None => Ok(true),
            Some(view) => has_streams(alloc, image, table, number, &view),
        }
    }
}
