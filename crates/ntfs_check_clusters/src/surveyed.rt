//! Rules C4 and C7, by one survey of all records.

ghost use Rattle.std.specs.Prelude.{◌≡◌, All, IfOk};
ghost use Rattle.ntfs_base.specs.Bytes.{cluster_at};
ghost use Rattle.ntfs_base.specs.Frames.{Gives, IfTold, OnlyReads};
ghost use Rattle.ntfs_check_clusters.specs.Outcome.{after_survey, surveyed};
ghost use Rattle.ntfs_rules.specs.Outcome.{check_origin};
ghost use Rattle.ntfs_survey.specs.Owned.{LiesBelow};
ghost use Rattle.ntfs_volume.specs.Opened.{HasClusters};

use ntfs_base::{Image, Rule};
use ntfs_rules::{CheckFault, damaged};
use ntfs_survey::{Survey, survey};
use ntfs_volume::{Table, VolumeFault};
use std::alloc::Global;

/// What a refusal of a survey says: that of rule C7 waits for the rules before it.
fn after_survey(fault: VolumeFault) -> Result<Result<Survey, u64>, CheckFault>
    ensures { result ≡ after_survey fault }
{
    match fault {
        VolumeFault::Damaged {
            rule: Rule::C7,
            number,
        } => Ok(Err(number)),
        VolumeFault::Damaged { rule, number } => Err(damaged(rule, number)),
        VolumeFault::NoMemory => Err(CheckFault::NoMemory),
        _ => Err(CheckFault::ReadFault),
    }
}

/// The survey of a volume, by rule C4; or the first record that breaks rule C7, which comes after C5 and C6.
pub(crate) fn survey_all<G: Image>(
    alloc: Global,
    image: &mut G,
    table: &Table,
) -> Result<Result<Survey, u64>, CheckFault>
    requires held { HasClusters (G.seen image.old).size table.now }
    ensures gives { IfTold G.Image image.old (λ content. Gives check_origin (λ found. found)
        (surveyed table.now (cluster_at content table.now.geometry.cluster)) result) }
    ensures below { IfOk result (λ found. IfOk found (All (LiesBelow table.now.geometry.clusters))) }
    ensures reads { OnlyReads G.Image check_origin image.old image.new result }
{
    match survey(alloc, image, table) {
        Ok(owners) => Ok(Ok(owners)),
        Err(fault) => after_survey(fault),
    }
}
