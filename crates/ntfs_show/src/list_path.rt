//! The directory that a path names, printed.

ghost use Rattle.std.specs.Prelude.{◌≡◌, [], IsTrue, vec_len};
ghost use Rattle.ntfs_base.specs.Frames.{Copies, IfTold};
ghost use Rattle.ntfs_print.specs.Fault.{show_origin};
ghost use Rattle.ntfs_show.specs.ListPath.{list_outcome};
ghost use Rattle.ntfs_print.specs.Printing.{Prints, before, prints};
ghost use Rattle.ntfs_show.specs.Progress.{ListsOrStops};
ghost use Rattle.ntfs_volume.specs.Opened.{HasClusters};

use crate::list_options::ListOptions;
use crate::list_walk::Desk;
use crate::listing::list_from;
use ntfs_base::{Image, Sink};
use ntfs_directory::directory_at;
use ntfs_print::ShowFault;
use ntfs_volume::{Table, Volume};
use std::alloc::Global;

/// Prints what is shown of the directory that a path names.
fn list_path<G: Image, K: Sink>(
    alloc: Global,
    image: &mut G,
    table: &Table,
    desk: &mut Desk,
    path: &str,
    out: &mut K,
) -> Result<(), ShowFault>
    requires held { HasClusters (G.seen image.old).size table.now }
    requires block { vec_len desk.old.block ≡ table.now.geometry.record_size }
    ensures lists { ListsOrStops (IsTrue (G.seen image.old).is_told)
        (λ (all : Unit {0}). before desk.old.pending (list_outcome desk.old.options table.now
        (G.seen image.old).content path.now))
        (K.seen out.old) result (λ done all. before desk.new.pending (prints [])) desk.new.pending
        (K.seen out.new) }
    ensures copies { Copies G.Image K.Sink show_origin image.old image.new out.old out.new result }
{
    let start = directory_at(alloc, image, table, path)?;
    list_from(alloc, image, table, desk, start, out)
}

/// Prints the entries of the directory that a path names, of the volume whose table is kept.
///
/// It prints a line for each entry that the options show, in the order of the index, as the walk gives it; with the
/// recursion the entries of each directory that wasn't met before stand right behind its line. Where the options need
/// the record of an entry, it is read before the line is printed. Before a refusal stand exactly the lines of what
/// comes before it; after a fault or want of memory a prefix of them was put. The lines are put in pieces of at most
/// 65,536 bytes, but for a line that is longer. The recursion takes memory for each directory that it is in and for
/// each that it met, and none of the processor's stack.
pub fn show_list<G: Image, K: Sink>(
    alloc: Global,
    image: &mut G,
    table: &Table,
    options: &ListOptions,
    path: &str,
    out: &mut K,
) -> Result<(), ShowFault>
    requires held { HasClusters (G.seen image.old).size table.now }
    ensures told { IfTold G.Image image.old (λ content. Prints show_origin
        (list_outcome options.now table.now content path.now) (K.seen out.old) result (K.seen out.new)) }
    ensures copies { Copies G.Image K.Sink show_origin image.old image.new out.old out.new result }
{
    let mut desk = Desk::new(alloc, *options, table.geometry().record_size)?;
    let result = list_path(alloc, image, table, &mut desk, path, out);
    desk.put_rest(out)?;
    result
}

/// Prints the entries of the directory that a path names, of a volume, as `show_list` does.
pub fn list<G: Image, K: Sink>(
    alloc: Global,
    volume: &mut Volume<'_, G>,
    options: &ListOptions,
    path: &str,
    out: &mut K,
) -> Result<(), ShowFault>
    requires held { HasClusters (G.seen volume.old.image.now).size volume.old.table }
    ensures told { IfTold G.Image volume.old.image.now (λ content. Prints show_origin
        (list_outcome options.now volume.old.table content path.now) (K.seen out.old) result (K.seen out.new)) }
    ensures same_reference { volume.new.image.ghost_name ≡ volume.old.image.ghost_name }
    ensures kept { volume.new.table ≡ volume.old.table }
    ensures copies { Copies G.Image K.Sink show_origin volume.old.image.now volume.new.image.now
        out.old out.new result }
{
    show_list(alloc, &mut *volume.image, &volume.table, options, path, out)
}
