//! `ntfscluster`.
ghost use Rattle.std.specs.Prelude.{◌≡◌, IfErr};
ghost use Rattle.ntfs_base.specs.Frames.{Copies, Gives, IfTold, OnlyReads, Puts, refused_as};
ghost use Rattle.ntfs_owners.specs.Owners.{owners_outcome};
ghost use Rattle.ntfs_volume.specs.Opened.{HasClusters};
ghost use Rattle.ntfs_run.specs.Cluster.{ClusterRefuses, owner_lines, query_of};
ghost use Rattle.ntfs_run.specs.Outcome.{show_status, status_origin};

use crate::place::path_number;
use crate::status::Status;
use ntfs_base::{Image, Sink};
use ntfs_show::{OwnerQuery, show_owners};
use ntfs_volume::Table;
use ntfs_words::Ask;
use std::alloc::Global;

/// Prints what is asked about the owners of the clusters of the volume of this table.
pub fn print_owners<G: Image, O: Sink>(
    alloc: Global,
    ask: &Ask,
    image: &mut G,
    table: &Table,
    out: &mut O,
) -> Result<(), Status>
    requires { HasClusters (G.seen image.old).size table.now }
    ensures puts { IfTold G.Image image.old (λ content.
        Puts status_origin (owner_lines ask.now table.now content) (O.seen out.old) result (O.seen out.new)) }
    ensures copies { Copies G.Image O.Sink status_origin image.old image.new out.old out.new result }
    ensures refusal { IfErr result ClusterRefuses }
{
    let query = query_of(alloc, ask, image, table)?;
    print_query(alloc, query, image, table, out)
}

/// What is asked, with the number of the record that a path names.
#[tactic(auto, unfolding(crate::specs::Cluster::query_of))]
fn query_of<G: Image>(
    alloc: Global,
    ask: &Ask,
    image: &mut G,
    table: &Table,
) -> Result<OwnerQuery, Status>
    requires { HasClusters (G.seen image.old).size table.now }
    ensures gives { IfTold G.Image image.old (λ content.
        Gives status_origin (λ query. query) (query_of ask.now table.now content) result) }
    ensures refusal { IfErr result ClusterRefuses }
    ensures reads { OnlyReads G.Image status_origin image.old image.new result }
{
    match ask {
        Ask::Info => Ok(OwnerQuery::Info),
        Ask::Clusters { from, to } => Ok(OwnerQuery::Clusters {
            from: *from,
            to: *to,
        }),
        Ask::Number { number } => Ok(OwnerQuery::Number { number: *number }),
        Ask::Path { path } => {
            let number = path_number(alloc, path.as_str(), image, table)?;
            Ok(OwnerQuery::Number { number })
        }
    }
}

/// Prints the answer to a question about the owners.
fn print_query<G: Image, O: Sink>(
    alloc: Global,
    query: OwnerQuery,
    image: &mut G,
    table: &Table,
    out: &mut O,
) -> Result<(), Status>
    requires { HasClusters (G.seen image.old).size table.now }
    ensures puts { IfTold G.Image image.old (λ content. Puts status_origin
        (refused_as show_status (owners_outcome table.now content query)) (O.seen out.old) result (O.seen out.new)) }
    ensures copies { Copies G.Image O.Sink status_origin image.old image.new out.old out.new result }
    ensures refusal { IfErr result ClusterRefuses }
{
    show_owners(alloc, image, table, &query, out)?;
    Ok(())
}
