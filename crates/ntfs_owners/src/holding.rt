//! What an attribute holds.

ghost use Rattle.std.specs.Prelude.{◌<◌, ◌+◌, ◌^◌, length};
ghost use Rattle.ntfs_runs.specs.Clusters.{vcns};

use ntfs_runs::RunList;

/// The runs of an attribute from a VCN on, as they are spelled, and the text in front of a VCN in its lines.
#[derive(Drop)]
pub(crate) struct Holding {
    pub(crate) text: String,
    pub(crate) lowest: u64,
    pub(crate) runs: RunList,
    ghost fits: { lowest + length (vcns runs) < 2 ^ 64 },
}
