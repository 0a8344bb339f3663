//! What a check finds of a volume that keeps all rules.

ghost use Rattle.std.specs.Prelude.{◌≡◌, ◌≤◌, IfOk, None, Ok};
ghost use Rattle.ntfs_base.specs.Bytes.{cluster_at};
ghost use Rattle.ntfs_base.specs.Frames.{Gives, IfTold, OnlyReads};
ghost use Rattle.ntfs_bitmap.specs.ClusterSet.{bound_of};
ghost use Rattle.ntfs_check.specs.Findings.{Fit, again, examined};
ghost use Rattle.ntfs_check_fixed.specs.Facts.{facts_of};
ghost use Rattle.ntfs_rules.specs.Accepts.{fault_of};
ghost use Rattle.ntfs_rules.specs.Outcome.{check_origin};
ghost use Rattle.ntfs_rules.specs.VolumeData.{volume_data};
ghost use Rattle.ntfs_volume.specs.Opened.{HasClusters};

use crate::judging::judge;
use ntfs_base::{Image, Rule};
use ntfs_bitmap::ClusterSet;
use ntfs_check_fixed::{Facts, read_facts};
use ntfs_rules::{CheckFault, damaged};
use ntfs_survey::survey;
use ntfs_volume::{Table, VolumeFault};
use std::alloc::Global;
use std::marker::Model;

/// What is found of a volume that keeps all rules.
#[derive(Drop)]
pub struct Findings {
    owned: ClusterSet,
    facts: Facts,
}

impl Model for Findings {
    ghost use Rattle.ntfs_check.specs.Findings.{VolumeFindings};

    ghost Value = { VolumeFindings };

    ghost view = { λ f. record { owned = f.owned; facts = f.facts } };
}

impl Findings {
    /// The clusters that records own.
    pub fn owned(&self) -> &ClusterSet
        ensures { result.now ≡ self.now.owned }
    {
        &self.owned
    }

    /// The clusters of $Bitmap and of `$Bad`.
    pub fn fixed(&self) -> &ClusterSet
        ensures { result.now ≡ self.now.facts.fixed }
    {
        self.facts.fixed()
    }

    /// 1 + the highest cluster that record 7 owns.
    pub fn boot_end(&self) -> u64
        ensures { result ≡ self.now.facts.boot_end }
    {
        self.facts.boot_end()
    }

    /// How many clusters `$Bad` has.
    pub fn bad_count(&self) -> u64
        ensures { result ≡ self.now.facts.bad_count }
    {
        self.facts.bad_count()
    }

    /// The flag of a dirty volume is set.
    pub fn is_dirty(&self) -> bool
        ensures { result ≡ self.now.facts.dirty }
    {
        self.facts.is_dirty()
    }
}

/// What a refusal of a survey says of a volume that was judged before.
fn again(fault: VolumeFault) -> CheckFault
    ensures { result ≡ again fault }
{
    match fault {
        VolumeFault::Damaged { rule, number } => damaged(rule, number),
        VolumeFault::NoMemory => CheckFault::NoMemory,
        _ => CheckFault::ReadFault,
    }
}

/// What is asked later of a volume that keeps all rules.
fn facts_again<G: Image>(alloc: Global, image: &mut G, table: &Table) -> Result<Facts, CheckFault>
    requires held { HasClusters (G.seen image.old).size table.now }
    ensures gives { IfTold G.Image image.old (λ content.
        let v = volume_data table.now (cluster_at content table.now.geometry.cluster) in
        fault_of v ≡ None → Gives check_origin (λ facts. facts) (Ok (facts_of v)) result) }
    ensures bound { IfOk result (λ facts. bound_of facts.fixed ≡ table.now.geometry.clusters) }
    ensures ended { IfOk result (λ facts. facts.boot_end ≤ table.now.geometry.clusters) }
    ensures reads { OnlyReads G.Image check_origin image.old image.new result }
{
    match survey(alloc, image, table) {
        Err(fault) => Err(again(fault)),
        Ok(owners) => read_facts(alloc, image, table, owners.owners()),
    }
}

/// What is found of the volume of a table that keeps all sixteen rules; else the first that it breaks, with its record.
///
/// An image that tells no content may give other bytes when it is read again: where record 7 owns nothing then, the
/// refusal is that of rule C4.
pub fn examine<G: Image>(
    alloc: Global,
    image: &mut G,
    table: &Table,
) -> Result<Findings, CheckFault>
    requires held { HasClusters (G.seen image.old).size table.now }
    ensures gives { IfTold G.Image image.old (λ content. Gives check_origin (λ findings. findings)
        (examined (volume_data table.now (cluster_at content table.now.geometry.cluster))) result) }
    ensures fit { IfOk result (Fit table.now) }
    ensures reads { OnlyReads G.Image check_origin image.old image.new result }
{
    let owned = judge(alloc, image, table)?;
    let facts = facts_again(alloc, image, table)?;
    if facts.boot_end() == 0 {
        return Err(damaged(Rule::C4, 7));
    }
    Ok(Findings { owned, facts })
}
