//! The streams of a base record.

ghost use Rattle.std.specs.Prelude.{◌≡◌, ◌==◌, ◌||◌, not, IfErr, IfOk};
ghost use Rattle.std.specs.List.{list_all};
ghost use Rattle.ntfs_base.specs.Bytes.{cluster_at};
ghost use Rattle.ntfs_base.specs.Frames.{IfTold, IsSettled, OnlyReads};
ghost use Rattle.ntfs_check_records.specs.Reading.{records_of};
ghost use Rattle.ntfs_check_streams.specs.Join.{join_shown};
ghost use Rattle.ntfs_check_streams.specs.Said as spec;
ghost use Rattle.ntfs_check_streams.specs.declared.join.Joined.TheVariants as joined;
ghost use Rattle.ntfs_rules.specs.Outcome.{check_origin};
ghost use Rattle.ntfs_volume.specs.Gathering.{file_lists};
ghost use Rattle.ntfs_volume.specs.Opened.{HasClusters};

use crate::join::{Joined, is_stream, join, span_of};
use crate::list::have_list;
use crate::named::{Base, is_of};
use ntfs_base::Image;
use ntfs_record::RecordView;
use ntfs_rules::CheckFault;
use ntfs_volume::{Table, Wanted, first_of};
use std::alloc::Global;

/// A record's own attributes of a type and name, joined.
fn join_own(view: &RecordView<'_>, kind: u32, name: &[u8]) -> Joined
    ensures { result ≡ join_shown kind name.now joined.Nothing (spec.shown_in view.now) }
{
    let mut all = Joined::Nothing;
    'attributes: for attribute in view.attributes() {
        if is_of(kind, name, &attribute) {
            all = join(kind, all, span_of(&attribute));
        }
    }
    all
}

/// A record's own attributes of each type and name are a stream, where a cluster has so many bytes.
fn are_own(cluster: u32, view: &RecordView<'_>) -> bool
    ensures { result ≡ list_all (spec.are_own cluster (spec.shown_in view.now)) (spec.shown_in view.now) }
{
    'attributes: for attribute in view.attributes() {
        if !is_stream(cluster, join_own(view, attribute.kind, attribute.name)) {
            return false;
        }
    }
    true
}

/// All attributes of one type and name of the file of a base record are one stream. Nothing is said against a record
/// that isn't a base record.
pub(crate) fn has_streams<G: Image>(
    alloc: Global,
    image: &mut G,
    table: &Table,
    number: u64,
    view: &RecordView<'_>,
) -> Result<bool, CheckFault>
    requires held { HasClusters (G.seen image.old).size table.now }
    ensures found { IfTold G.Image image.old (λ content. IfOk result (λ is. is ≡ (not (view.now.head.base == 0)
        || spec.are_streams table.now.geometry.cluster number view.now
        (file_lists table.now.geometry (cluster_at content table.now.geometry.cluster) view.now)
        (records_of table.now (cluster_at content table.now.geometry.cluster))))) }
    ensures cut { IfErr result (λ fault. IsSettled (check_origin fault) → ⊥) }
    ensures reads { OnlyReads G.Image check_origin image.old image.new result }
{
    let reference = view.base();
    if reference != 0 {
        return Ok(true);
    }
    match first_of(view, Wanted::List) {
        None => Ok(are_own(table.geometry().cluster, view)),
        Some(lead) => {
            let sequence = view.sequence();
            have_list(alloc, image, table, Base { number, sequence }, view, &lead)
        }
    }
}
