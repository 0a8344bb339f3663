//! The entries of one directory, printed.

ghost use Rattle.std.specs.Prelude.{◌≡◌, ◌<◌, Bool, IsTrue, IfOk, OnOk, [], length, vec_len};
ghost use Rattle.ntfs_base.specs.Frames.{Copies, Gives, IfTold, OnlyPuts, OnlyReads};
ghost use Rattle.ntfs_base.specs.Sink.{Put};
ghost use Rattle.ntfs_index.specs.State.{entries_most};
ghost use Rattle.ntfs_print.specs.Fault.{show_origin};
ghost use Rattle.ntfs_show.specs.ListState.{Around, IfTurnGiven, IsNew, IsNewTurn, IsSameDesk, IsWalked, after_entries, after_turn, below_to_list, left_to_list};
ghost use Rattle.ntfs_show.specs.Listing.{entry_kind, front_below, entry_printing, list_given, record_numbers};
ghost use Rattle.ntfs_print.specs.Pending.{put_origin};
ghost use Rattle.ntfs_print.specs.Printing.{Printing, before};
ghost use Rattle.ntfs_show.specs.Progress.{ListsOrStops};
ghost use Rattle.ntfs_print.specs.declared.fault.ShowFault.{ShowFault as Fault};
ghost use Rattle.ntfs_volume.specs.Opened.{HasClusters};
ghost use Rattle.ntfs_volume.specs.References.{target};

use crate::list_line::build_line;
use crate::list_options::{ListOptions, is_entered, is_shown};
use ntfs_base::{Image, PutFault, Sink};
use ntfs_directory::{Directory, read_entry};
use ntfs_print::{Pending, ShowFault, gather_refusal, zeros};
use ntfs_volume::Table;
use std::alloc::{AllocError, Global};
use std::collections::BTreeSet;

/// What came of the next entry of a directory.
#[derive(Clone, Copy)]
pub(crate) enum Turn {
    /// It was given; the number of the directory that it is, where that is to be entered.
    Given { below: Option<u64> },
    /// There was none.
    Ended,
}

/// What a listing works with.
#[derive(Drop)]
pub(crate) struct Desk {
    alloc: Global,
    options: ListOptions,
    /// Room for a record.
    block: Vec<u8>,
    /// The line that is built.
    line: Vec<u8>,
    /// The lines that wait.
    pending: Pending,
}

impl Desk {
    /// Room for a record of so many bytes, and nothing that waits.
    pub(crate) fn new(alloc: Global, options: ListOptions, size: u32) -> Result<Desk, AllocError>
        ensures options { IfOk result (λ desk. desk.options ≡ options) }
        ensures block { IfOk result (λ desk. vec_len desk.block ≡ size) }
        ensures none { IfOk result (λ desk. desk.pending ≡ []) }
    {
        let block = zeros(alloc, size as usize)?;
        let pending = Pending::new(alloc)?;
        Ok(Desk {
            alloc,
            options,
            block,
            line: Vec::new(alloc),
            pending,
        })
    }

    /// Puts the lines that wait.
    pub(crate) fn put_rest<K: Sink>(&mut self, out: &mut K) -> Result<(), PutFault>
        ensures put { Put self.old.pending (K.seen out.old) result (K.seen out.new) }
        ensures puts { OnlyPuts K.Sink put_origin out.old out.new result }
    {
        self.pending.put_rest(out)
    }
}

/// The number of the record that a reference names.
#[tactic(auto, unfolding(crate::specs::Listing::record_numbers))]
fn record_number(reference: u64) -> u64
    ensures value { result ≡ target reference }
    ensures below { result < record_numbers }
{
    reference % (1 << 48)
}

/// Reads what an entry of a directory is by its record, where the options need that.
#[tactic(auto, unfolding(crate::specs::Listing::entry_kind))]
fn read_kind<G: Image>(
    image: &mut G,
    table: &Table,
    options: ListOptions,
    number: u64,
    reference: u64,
    block: &mut [u8],
) -> Result<bool, ShowFault>
    requires held { HasClusters (G.seen image.old).size table.now }
    requires block { length block.old ≡ table.now.geometry.record_size }
    ensures gives { IfTold G.Image image.old (λ content. Gives show_origin (λ is. is)
        (entry_kind options table.now content number reference) result) }
    ensures reads { OnlyReads G.Image show_origin image.old image.new result }
{
    if !(options.classify || options.recursive) {
        return Ok(false);
    }
    match read_entry(image, table, number, reference, block) {
        Ok(found) => Ok(found.is_directory),
        Err(fault) => Err(gather_refusal(fault, number)),
    }
}

/// Prints the line of an entry, once its record is read where the options need that. It answers whether the entry is a
/// directory, as far as the options ask.
fn show_entry<G: Image, K: Sink>(
    image: &mut G,
    table: &Table,
    desk: &mut Desk,
    number: u64,
    front: &[u8],
    reference: u64,
    key: &[u8],
    out: &mut K,
) -> Result<bool, ShowFault>
    requires held { HasClusters (G.seen image.old).size table.now }
    requires block { vec_len desk.old.block ≡ table.now.geometry.record_size }
    ensures lists { ListsOrStops (IsTrue (G.seen image.old).is_told)
        (λ (behind : Bool → Printing Fault). before desk.old.pending (entry_printing desk.old.options front.now
        (record { reference = reference; key = key.now })
        (entry_kind desk.old.options table.now (G.seen image.old).content number reference) behind))
        (K.seen out.old) result (λ is_directory behind. before desk.new.pending (behind is_directory))
        desk.new.pending (K.seen out.new) }
    ensures desk { IsSameDesk desk.old desk.new }
    ensures copies { Copies G.Image K.Sink show_origin image.old image.new out.old out.new result }
{
    let is_directory = read_kind(
        image,
        table,
        desk.options,
        number,
        reference,
        &mut desk.block,
    )?;
    build_line(
        desk.alloc,
        &mut desk.line,
        desk.options,
        record_number(reference),
        front,
        key,
        is_directory,
    )?;
    desk.pending.push(&desk.line, out)?;
    Ok(is_directory)
}

/// Prints the line of an entry where it is shown. It answers the number of the directory that it is, where that is to
/// be entered.
fn show_given<G: Image, K: Sink>(
    image: &mut G,
    table: &Table,
    desk: &mut Desk,
    number: u64,
    front: &[u8],
    reference: u64,
    key: &[u8],
    met: &BTreeSet<u64>,
    out: &mut K,
) -> Result<Option<u64>, ShowFault>
    requires held { HasClusters (G.seen image.old).size table.now }
    requires block { vec_len desk.old.block ≡ table.now.geometry.record_size }
    ensures lists { ListsOrStops (IsTrue (G.seen image.old).is_told)
        (λ (around : Around). before desk.old.pending (list_given desk.old.options table.now (G.seen image.old).content
        around.enter front.now number (record { reference = reference; key = key.now }) around.next met.now.keys))
        (K.seen out.old) result
        (λ below around. before desk.new.pending (below_to_list around.enter (front_below front.now key.now) around.next
        met.now.keys below))
        desk.new.pending (K.seen out.new) }
    ensures below { IfOk result (IsNew met.now.keys) }
    ensures desk { IsSameDesk desk.old desk.new }
    ensures copies { Copies G.Image K.Sink show_origin image.old image.new out.old out.new result }
{
    if !is_shown(desk.options, key) {
        return Ok(None);
    }
    let is_directory = show_entry(image, table, desk, number, front, reference, key, out)?;
    let below = record_number(reference);
    if is_entered(desk.options, is_directory, below, met) {
        Ok(Some(below))
    } else {
        Ok(None)
    }
}

/// Prints the line of the next entry of a directory, where there is one and it is shown.
fn show_next<G: Image, K: Sink>(
    image: &mut G,
    table: &Table,
    desk: &mut Desk,
    number: u64,
    front: &[u8],
    directory: &mut Directory,
    met: &BTreeSet<u64>,
    out: &mut K,
) -> Result<Turn, ShowFault>
    requires held { HasClusters (G.seen image.old).size table.now }
    requires block { vec_len desk.old.block ≡ table.now.geometry.record_size }
    requires walked { IsWalked table.now number directory.old }
    ensures lists { ListsOrStops (IsTrue (G.seen image.old).is_told)
        (λ (around : Around). before desk.old.pending (left_to_list desk.old.options table.now
        (G.seen image.old).content around front.now directory.old met.now.keys))
        (K.seen out.old) result
        (λ turn around. before desk.new.pending (after_turn desk.old.options table.now (G.seen image.old).content
        around front.now directory.new met.now.keys turn))
        desk.new.pending (K.seen out.new) }
    ensures below { IfOk result (IsNewTurn met.now.keys) }
    ensures walked { OnOk result (IsWalked table.now number directory.new) }
    ensures fewer { IfOk result (λ turn. IfTurnGiven turn
        (entries_most directory.new.walk < entries_most directory.old.walk)) }
    ensures desk { IsSameDesk desk.old desk.new }
    ensures copies { Copies G.Image K.Sink show_origin image.old image.new out.old out.new result }
{
    match directory.next(image, table) {
        Err(fault) => Err(gather_refusal(fault, number)),
        Ok(None) => Ok(Turn::Ended),
        Ok(Some(entry)) => {
            let below = show_given(
                image,
                table,
                desk,
                number,
                front,
                entry.reference,
                directory.key(),
                met,
                out,
            )?;
            Ok(Turn::Given { below })
        }
    }
}

/// Prints the lines of the entries of a directory that follow. It stops behind that of a directory that is to be
/// entered, and answers its number; else at the end.
pub(crate) fn show_entries<G: Image, K: Sink>(
    image: &mut G,
    table: &Table,
    desk: &mut Desk,
    number: u64,
    front: &[u8],
    directory: &mut Directory,
    met: &BTreeSet<u64>,
    out: &mut K,
) -> Result<Option<u64>, ShowFault>
    requires held { HasClusters (G.seen image.old).size table.now }
    requires block { vec_len desk.old.block ≡ table.now.geometry.record_size }
    requires walked { IsWalked table.now number directory.old }
    ensures lists { ListsOrStops (IsTrue (G.seen image.old).is_told)
        (λ (around : Around). before desk.old.pending (left_to_list desk.old.options table.now
        (G.seen image.old).content around front.now directory.old met.now.keys))
        (K.seen out.old) result
        (λ below around. before desk.new.pending (after_entries desk.old.options table.now (G.seen image.old).content
        around front.now directory.new met.now.keys below))
        desk.new.pending (K.seen out.new) }
    ensures below { IfOk result (IsNew met.now.keys) }
    ensures walked { OnOk result (IsWalked table.now number directory.new) }
    ensures desk { IsSameDesk desk.old desk.new }
    ensures copies { Copies G.Image K.Sink show_origin image.old image.new out.old out.new result }
{
    'entries: loop {
        match show_next(image, table, desk, number, front, directory, met, out)? {
            Turn::Given { below: None } => {}
            Turn::Given {
                below: Some(number),
            } => return Ok(Some(number)),
            Turn::Ended => return Ok(None),
        }
    }
}
