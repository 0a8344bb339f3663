//! The record that a request means.
ghost use Rattle.std.specs.Prelude.{◌≡◌, IfErr};
ghost use Rattle.ntfs_base.specs.Frames.{Gives, IfTold, OnlyReads};
ghost use Rattle.ntfs_volume.specs.Opened.{HasClusters};
ghost use Rattle.ntfs_run.specs.Outcome.{status_origin};
ghost use Rattle.ntfs_run.specs.Place.{IsUnmeant, path_number, number_meant};

use crate::status::Status;
use ntfs_base::Image;
use ntfs_directory::resolve_path;
use ntfs_volume::Table;
use ntfs_words::Target;
use std::alloc::Global;

/// The number of the record that a path names in the volume of this table.
#[tactic(auto, unfolding(crate::specs::Place::path_number))]
pub fn path_number<G: Image>(
    alloc: Global,
    path: &str,
    image: &mut G,
    table: &Table,
) -> Result<u64, Status>
    requires { HasClusters (G.seen image.old).size table.now }
    ensures gives { IfTold G.Image image.old (λ content.
        Gives status_origin (λ number. number) (path_number path.now table.now content) result) }
    ensures refusal { IfErr result IsUnmeant }
    ensures reads { OnlyReads G.Image status_origin image.old image.new result }
{
    Ok(resolve_path(alloc, image, table, path)?)
}

/// The number of the record that is meant.
pub fn number_meant<G: Image>(
    alloc: Global,
    target: &Target,
    image: &mut G,
    table: &Table,
) -> Result<u64, Status>
    requires { HasClusters (G.seen image.old).size table.now }
    ensures gives { IfTold G.Image image.old (λ content.
        Gives status_origin (λ number. number) (number_meant target.now table.now content) result) }
    ensures refusal { IfErr result IsUnmeant }
    ensures reads { OnlyReads G.Image status_origin image.old image.new result }
{
    match target {
        Target::Number { number } => Ok(*number),
        Target::Path { path } => path_number(alloc, path.as_str(), image, table),
    }
}
