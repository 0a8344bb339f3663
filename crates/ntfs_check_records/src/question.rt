//! What is asked of each record in use.

ghost use Rattle.std.specs.Prelude.{◌≡◌, length, List, Some, ℕ};
ghost use Rattle.ntfs_base.specs.Bytes.{cluster_at};
ghost use Rattle.ntfs_base.specs.Frames.{IfTold, OnlyReads};
ghost use Rattle.ntfs_check_records.specs.Asked.{RecordTest, asked_at};
ghost use Rattle.ntfs_check_records.specs.Reading.{Answers};
ghost use Rattle.ntfs_fixup.specs.Fixups.{HasWholeStrides};
ghost use Rattle.ntfs_rules.specs.Outcome.{check_origin};
ghost use Rattle.ntfs_volume.specs.Opened.{HasClusters, Opened};
ghost use Rattle.ntfs_volume.specs.Records.{raw_record};

use ntfs_base::Image;
use ntfs_rules::CheckFault;
use ntfs_volume::Table;
use std::alloc::Global;

/// A question that is asked of each record in use.
pub trait Question {
    /// What an answer presumes of an opened volume, whose image has this content.
    ghost presumes: { Self → Opened → List ℕ → Type 0 };

    /// What a record in use answers.
    ghost answer: { Self → Opened → List ℕ → RecordTest };

    /// The answer of the record of a number, which has these bytes; they hold anything afterwards. One that isn't in
    /// use passes.
    fn passes<G: Image>(
        &self,
        alloc: Global,
        image: &mut G,
        table: &Table,
        number: u64,
        raw: &mut [u8],
    ) -> Result<bool, CheckFault>
        requires held { HasClusters (G.seen image.old).size table.now }
        requires strides { HasWholeStrides raw.old }
        requires block { length raw.old ≡ table.now.geometry.record_size }
        ensures answers { IfTold G.Image image.old (λ content.
            presumes self.now table.now content
            → raw_record table.now.geometry table.now.map (cluster_at content table.now.geometry.cluster) number
            ≡ Some raw.old
            → Answers (asked_at (answer self.now table.now content) table.now
            (cluster_at content table.now.geometry.cluster) number) result) }
        ensures reads { OnlyReads G.Image check_origin image.old image.new result };
}
