//! Streams without a name that rules look at.

ghost use Rattle.std.specs.Prelude.{◌≡◌, [], IfErr, IfOk, IfSome};
ghost use Rattle.std.specs.Result.{result_ok};
ghost use Rattle.ntfs_base.specs.Bytes.{cluster_at};
ghost use Rattle.ntfs_base.specs.Frames.{IfTold, IsSettled, OnlyReads};
ghost use Rattle.ntfs_rules.specs.Outcome.{check_origin};
ghost use Rattle.ntfs_volume.specs.Opened.{HasClusters};
ghost use Rattle.ntfs_volume.specs.Streams.{IsReadable, gather_of};

use ntfs_base::Image;
use ntfs_rules::{CheckFault, cut_of};
use ntfs_volume::{Stream, Table};
use std::alloc::Global;

/// The stream of a type that has no name, of a base record: none where it can't be gathered.
pub(crate) fn gather_unnamed<G: Image>(
    alloc: Global,
    image: &mut G,
    table: &Table,
    number: u64,
    kind: u32,
) -> Result<Option<Stream>, CheckFault>
    requires held { HasClusters (G.seen image.old).size table.now }
    ensures found { IfTold G.Image image.old (λ content. IfOk result (λ found. found
        ≡ result_ok (gather_of table.now.geometry table.now.map
        (cluster_at content table.now.geometry.cluster) number kind []))) }
    ensures readable { IfOk result (λ found. IfSome found (λ s. IsReadable table.now.geometry s.stream)) }
    ensures cut { IfErr result (λ fault. IsSettled (check_origin fault) → ⊥) }
    ensures reads { OnlyReads G.Image check_origin image.old image.new result }
{
    match table.gather(alloc, image, number, kind, &[]) {
        Ok(stream) => Ok(Some(stream)),
        Err(fault) => match cut_of(fault) {
            Some(cut) => Err(cut),
            None => Ok(None),
        },
    }
}
