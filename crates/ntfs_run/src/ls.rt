//! `ntfsls`.
ghost use Rattle.std.specs.Prelude.{◌≡◌, IfErr};
ghost use Rattle.ntfs_base.specs.Frames.{Copies, IfTold};
ghost use Rattle.ntfs_print.specs.Printing.{Prints};
ghost use Rattle.ntfs_volume.specs.Opened.{HasClusters};
ghost use Rattle.ntfs_run.specs.Ls.{ListRefuses, list_lines, path_or_root};
ghost use Rattle.ntfs_run.specs.Outcome.{status_origin};

use crate::status::Status;
use ntfs_base::{Image, Sink};
use ntfs_show::{ListOptions, show_list};
use ntfs_volume::Table;
use ntfs_words::Text;
use std::alloc::Global;

/// Prints the entries of a directory of the volume of this table, of the root where no path is given.
pub fn print_list<G: Image, O: Sink>(
    alloc: Global,
    options: &ListOptions,
    path: &Option<Text>,
    image: &mut G,
    table: &Table,
    out: &mut O,
) -> Result<(), Status>
    requires { HasClusters (G.seen image.old).size table.now }
    ensures prints { IfTold G.Image image.old (λ content. Prints status_origin
        (list_lines options.now path.now table.now content) (O.seen out.old) result (O.seen out.new)) }
    ensures copies { Copies G.Image O.Sink status_origin image.old image.new out.old out.new result }
    ensures refusal { IfErr result ListRefuses }
{
    show_list(alloc, image, table, options, path_or_root(path), out)?;
    Ok(())
}

fn path_or_root(path: &Option<Text>) -> &str
    ensures { result.now ≡ path_or_root path.entry.now }
{
    match path {
        None => "",
        Some(path) => path.as_str(),
    }
}
