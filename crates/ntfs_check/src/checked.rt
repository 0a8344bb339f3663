//! A volume that was checked, with what was found of it.

ghost use Rattle.std.specs.Prelude.{◌≡◌, IfOk, Ok};
ghost use Rattle.ntfs_base.specs.Bytes.{cluster_at};
ghost use Rattle.ntfs_base.specs.Causes.{HaveNotFallen};
ghost use Rattle.ntfs_base.specs.Frames.{Gives, IfTold};
ghost use Rattle.ntfs_check.specs.Checked.{CheckStands, Verdict};
ghost use Rattle.ntfs_check.specs.Findings.{examined};
ghost use Rattle.ntfs_rules.specs.Outcome.{check_origin};
ghost use Rattle.ntfs_rules.specs.VolumeData.{volume_data};
ghost use Rattle.ntfs_volume.specs.Opened.{HasClusters, opened_of};

use crate::findings::{Findings, examine};
use ntfs_base::Image;
use ntfs_bitmap::ClusterSet;
use ntfs_boot::Geometry;
use ntfs_rules::CheckFault;
use ntfs_volume::Volume;
use std::alloc::Global;

/// A volume that keeps all sixteen rules, and what was found of it.
#[derive(Drop)]
pub struct Checked<'a, G: Image> {
    pub volume: Volume<'a, G>,
    pub findings: Findings,
}

impl<'a, G: Image> Checked<'a, G> {
    /// The clusters that records own.
    pub fn owned(&self) -> &ClusterSet
        ensures { result.now ≡ self.now.findings.owned }
    {
        self.findings.owned()
    }

    /// The clusters of $Bitmap and of `$Bad`.
    pub fn fixed(&self) -> &ClusterSet
        ensures { result.now ≡ self.now.findings.facts.fixed }
    {
        self.findings.fixed()
    }

    /// 1 + the highest cluster that record 7 owns.
    pub fn boot_end(&self) -> u64
        ensures { result ≡ self.now.findings.facts.boot_end }
    {
        self.findings.boot_end()
    }

    /// The kept geometry.
    pub fn geometry(&self) -> &Geometry
        ensures { result.now ≡ self.now.volume.table.geometry }
    {
        self.volume.geometry()
    }

    /// The flag of a dirty volume is set.
    pub fn dirty(&self) -> bool
        ensures { result ≡ self.now.findings.facts.dirty }
    {
        self.findings.is_dirty()
    }

    /// How many clusters `$Bad` has.
    pub fn bad_count(&self) -> u64
        ensures { result ≡ self.now.findings.facts.bad_count }
    {
        self.findings.bad_count()
    }

    /// The volume, to be read.
    pub fn volume(&mut self) -> &mut Volume<'a, G>
        ensures now { result.now ≡ self.old.volume }
    {
        &mut self.volume
    }
}

/// Checks an opened volume by the sixteen rules: it is given back with what was found of it where it keeps them all;
/// else the first that it breaks is named, with its record, and the volume is given up.
///
/// Where the image tells its content, that content opens as the kept geometry and map. Of the image after a refusal
/// this contract says nothing: `examine`, which does the reading, does.
pub fn check<'a, G: Image>(
    alloc: Global,
    volume: Volume<'a, G>,
) -> Result<Checked<'a, G>, CheckFault>
    requires held { HasClusters (G.seen volume.image.now).size volume.table }
    requires opened { IfTold G.Image volume.image.now (λ content. opened_of content ≡ Ok volume.table) }
    ensures gives { IfTold G.Image volume.entry.image.now (λ content. Gives check_origin (λ checked. checked.findings)
        (examined (volume_data volume.entry.table (cluster_at content volume.entry.table.geometry.cluster))) result) }
    ensures verdict { IfTold G.Image volume.entry.image.now (λ content. Verdict content result) }
    ensures same_reference { IfOk result (λ checked. checked.volume.image.ghost_name
        ≡ volume.entry.image.ghost_name) }
    ensures seen { IfOk result (λ checked. G.seen checked.volume.image.now ≡ G.seen volume.entry.image.now) }
    ensures counts { IfOk result (λ checked. HaveNotFallen (G.faults volume.entry.image.now)
        (G.faults checked.volume.image.now)) }
    ensures kept { IfOk result (λ checked. checked.volume.table ≡ volume.entry.table) }
    ensures stands { IfOk result (CheckStands G.Image) }
{
    let Volume { image, table } = volume;
    let findings = examine(alloc, image, &table)?;
    Ok(Checked {
        volume: Volume::new(image, table),
        findings,
    })
}
