//! Rules C5 and C6: what is asked of each record in use.

ghost use Rattle.std.specs.Prelude.{◌≡◌, ◌<◌, ◌^◌, take, IfErr, IfOk};
ghost use Rattle.std.specs.Option.{option_map};
ghost use Rattle.ntfs_base.specs.Bytes.{cluster_at};
ghost use Rattle.ntfs_base.specs.Frames.{Gives, IfTold, IsSettled, OnlyReads};
ghost use Rattle.ntfs_check_clusters.specs.Marks.{marks_in};
ghost use Rattle.ntfs_check_clusters.specs.Outcome.{marks_of};
ghost use Rattle.ntfs_rules.specs.Outcome.{check_origin, unless_number};
ghost use Rattle.ntfs_rules.specs.Records.{c6};
ghost use Rattle.ntfs_rules.specs.VolumeData.{volume_data};
ghost use Rattle.ntfs_base.specs.declared.refusal.Rule.TheVariants as rule;
ghost use Rattle.ntfs_volume.specs.Opened.{HasClusters};

use crate::asked::Asked;
use crate::gathered::gather_unnamed;
use ntfs_base::{Image, Rule};
use ntfs_check_records::ask_all;
use ntfs_rules::{CheckFault, Front, damaged, read_front};
use ntfs_volume::Table;
use std::alloc::Global;

/// The number of the record of $MFT.
const RECORD: u64 = 0;

/// The type of $BITMAP.
const KIND: u32 = 0xB0;

/// The first bytes of $MFT's bitmap, so many or all; none where record 0 has no such stream.
fn read_marks<G: Image>(
    alloc: Global,
    image: &mut G,
    table: &Table,
    most: u64,
) -> Result<Option<Front>, CheckFault>
    requires held { HasClusters (G.seen image.old).size table.now }
    requires few { most < 2 ^ 32 }
    ensures bytes { IfTold G.Image image.old (λ content. IfOk result (λ front. front ≡ option_map (take most)
        (marks_in (volume_data table.now (cluster_at content table.now.geometry.cluster))))) }
    ensures cut { IfErr result (λ fault. IsSettled (check_origin fault) → ⊥) }
    ensures reads { OnlyReads G.Image check_origin image.old image.new result }
{
    match gather_unnamed(alloc, image, table, RECORD, KIND)? {
        None => Ok(None),
        Some(stream) => {
            let front = read_front(alloc, image, table.geometry(), &stream, most)?;
            Ok(Some(front))
        }
    }
}

/// Rule C5: record 0 has an unnamed $BITMAP, in which the bit of each record in use is 1. Its bits of the records in
/// the initialised part are read at once.
pub(crate) fn check_marks<G: Image>(
    alloc: Global,
    image: &mut G,
    table: &Table,
) -> Result<(), CheckFault>
    requires held { HasClusters (G.seen image.old).size table.now }
    ensures gives { IfTold G.Image image.old (λ content. Gives check_origin (λ done. done) (unless_number rule.C5
        (marks_of (volume_data table.now (cluster_at content table.now.geometry.cluster))) tt) result) }
    ensures reads { OnlyReads G.Image check_origin image.old image.new result }
{
    let most = table.initialised_count().div_ceil(8);
    match read_marks(alloc, image, table, most)? {
        None => Err(damaged(Rule::C5, RECORD)),
        Some(front) => {
            let asked = Asked::Mark {
                bits: front.bytes(),
            };
            ask_all(alloc, image, table, &asked, Rule::C5)
        }
    }
}

/// Rule C6: the names of all attributes stand between the fields and what follows.
pub(crate) fn check_names<G: Image>(
    alloc: Global,
    image: &mut G,
    table: &Table,
) -> Result<(), CheckFault>
    requires held { HasClusters (G.seen image.old).size table.now }
    ensures gives { IfTold G.Image image.old (λ content. Gives check_origin (λ done. done) (unless_number rule.C6
        (c6 (volume_data table.now (cluster_at content table.now.geometry.cluster)).slots) tt) result) }
    ensures reads { OnlyReads G.Image check_origin image.old image.new result }
{
    ask_all(alloc, image, table, &Asked::Names, Rule::C6)
}
