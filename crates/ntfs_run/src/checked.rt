//! The check of a volume, before a tool uses it.
ghost use Rattle.std.specs.Prelude.{◌≡◌, IfErr, IfOk};
ghost use Rattle.ntfs_base.specs.Frames.{Gives, IfTold, OnlyReads};
ghost use Rattle.ntfs_check.specs.Findings.{Fit};
ghost use Rattle.ntfs_volume.specs.Opened.{HasClusters};
ghost use Rattle.ntfs_run.specs.Checked.{CheckRefuses, checked_of};
ghost use Rattle.ntfs_run.specs.Outcome.{status_origin};

use crate::status::Status;
use ntfs_base::Image;
use ntfs_check::{Findings, examine};
use ntfs_volume::{Table, read_table};
use std::alloc::Global;

/// A volume that keeps all rules: where its records lie, and what was found of it.
#[derive(Drop)]
pub struct Accepted {
    pub table: Table,
    pub findings: Findings,
}

/// Opens the volume of an image and checks that it keeps all sixteen rules.
#[tactic(auto, unfolding(crate::specs::Checked::checked_of))]
pub fn check_volume<G: Image>(alloc: Global, image: &mut G) -> Result<Accepted, Status>
    ensures gives { IfTold G.Image image.old (λ content.
        Gives status_origin (λ checked. checked) (checked_of content) result) }
    ensures held { IfOk result (λ checked. HasClusters (G.seen image.old).size checked.table) }
    ensures fit { IfOk result (λ checked. Fit checked.table checked.findings) }
    ensures refusal { IfErr result CheckRefuses }
    ensures reads { OnlyReads G.Image status_origin image.old image.new result }
{
    let table = read_table(alloc, image)?;
    let findings = examine(alloc, image, &table)?;
    Ok(Accepted { table, findings })
}
