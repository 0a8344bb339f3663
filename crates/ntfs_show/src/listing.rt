//! A directory and the directories below it, printed.

ghost use Rattle.std.specs.Prelude.{◌≡◌, ◌<◌, ◌≤◌, ◌++◌, [], ◌∷◌, List, ℕ, true, false, IsTrue, IfOk, IfErr, OnOk, length, vec_len};
ghost use Rattle.ntfs_base.specs.Frames.{Copies, Gives, IfTold, OnlyReads, refused_as};
ghost use Rattle.ntfs_directory.specs.Directory.{begun_walk};
ghost use Rattle.ntfs_directory.specs.Entries.{key_name};
ghost use Rattle.ntfs_directory.specs.State.{left_of};
ghost use Rattle.ntfs_show.specs.Descent.{IsBegunAt, IsDescent, HasEntered, IsBack, MeetsOne, descent_most, left_of_descent, more_of_descent};
ghost use Rattle.ntfs_print.specs.Fault.{gather_refusal, show_origin};
ghost use Rattle.ntfs_show.specs.ListState.{IsSameDesk, IsWalked};
ghost use Rattle.ntfs_show.specs.Listing.{also_met, was_entered, list_of, record_numbers};
ghost use Rattle.ntfs_print.specs.Printing.{before, prints};
ghost use Rattle.ntfs_show.specs.Progress.{ListsOrStops};
ghost use Rattle.ntfs_show.specs.declared.list_options.ListOptions.{ListOptions as Options};
ghost use Rattle.ntfs_upcase.specs.Names.{text_bytes};
ghost use Rattle.ntfs_volume.specs.Opened.{HasClusters};

use crate::list_line::push_name;
use crate::list_options::ListOptions;
use crate::list_walk::{Desk, show_entries};
use ntfs_base::{Image, Sink};
use ntfs_directory::{Directory, open_directory};
use ntfs_print::{ShowFault, gather_refusal};
use ntfs_volume::Table;
use std::alloc::{AllocError, Global};
use std::collections::BTreeSet;
use std::mem;

/// A directory that is walked.
#[derive(Drop)]
pub(crate) struct Level {
    directory: Directory,
    number: u64,
    /// Its name and a slash; nothing at the start.
    name: Vec<u8>,
}

/// The directories that a listing is in.
#[derive(Drop)]
pub(crate) struct Descent {
    alloc: Global,
    /// The one whose entries are printed.
    present: Level,
    /// Those above it, from the start on.
    above: Vec<Level>,
    /// What stands before the names of the present one's entries.
    path: Vec<u8>,
    /// The numbers of the directories that were met.
    met: BTreeSet<u64>,
}

/// The name in the key of a directory, and a slash.
fn name_below(alloc: Global, key: &[u8]) -> Result<Vec<u8>, AllocError>
    ensures { IfOk result (λ name. name.items ≡ text_bytes (key_name key.now) ++ 47 ∷ []) }
{
    let mut name = Vec::new(alloc);
    push_name(alloc, &mut name, key)?;
    name.push(b'/')?;
    Ok(name)
}

/// Meets the directory of a number.
fn meet(met: &mut BTreeSet<u64>, number: u64) -> Result<(), AllocError>
    ensures also { OnOk result (met.new.keys ≡ also_met number met.old.keys) }
    ensures one { OnOk result (MeetsOne number met.old.keys met.new.keys) }
{
    met.insert(number)?;
    Ok(())
}

/// Puts a directory below the others.
fn push_level(levels: &mut Vec<Level>, level: Level) -> Result<(), AllocError>
    ensures { OnOk result (levels.new.items ≡ levels.old.items ++ level ∷ []) }
{
    levels.push(level)?;
    Ok(())
}

/// Begins the walk of the directory of a number, under a name.
fn open_level<G: Image>(
    alloc: Global,
    image: &mut G,
    table: &Table,
    number: u64,
    name: Vec<u8>,
) -> Result<Level, ShowFault>
    requires held { HasClusters (G.seen image.old).size table.now }
    ensures gives { IfTold G.Image image.old (λ content.
        Gives show_origin (λ level. left_of table.now.geometry content level.directory)
        (refused_as (gather_refusal number) (begun_walk table.now.geometry table.now.map content number)) result) }
    ensures walked { IfOk result (λ level. IsWalked table.now number level.directory) }
    ensures bears { IfOk result (λ level. level.number ≡ number) }
    ensures named { IfOk result (λ level. level.name ≡ name) }
    ensures reads { OnlyReads G.Image show_origin image.old image.new result }
{
    match open_directory(alloc, image, table, number) {
        Ok(directory) => Ok(Level {
            directory,
            number,
            name,
        }),
        Err(fault) => Err(gather_refusal(fault, number)),
    }
}

impl Descent {
    /// Enters the directory of a number, which the last entry of the present one names.
    fn enter<G: Image>(
        &mut self,
        image: &mut G,
        table: &Table,
        number: u64,
    ) -> Result<(), ShowFault>
        requires held { HasClusters (G.seen image.old).size table.now }
        requires descent { IsDescent table.now record_numbers self.old }
        requires below { number < record_numbers }
        requires new { was_entered number self.old.met.keys ≡ false }
        ensures told { (o : Options) → IfTold G.Image image.old (λ content.
            HasEntered o table.now content record_numbers number self.old result self.new) }
        ensures descent { OnOk result (IsDescent table.now record_numbers self.new) }
        ensures fewer { OnOk result (descent_most record_numbers self.new < descent_most record_numbers self.old) }
        ensures reads { OnlyReads G.Image show_origin image.old image.new result }
    {
        let name = name_below(self.alloc, self.present.directory.key())?;
        self.path.extend_from_slice(&name)?;
        meet(&mut self.met, number)?;
        let child = open_level(self.alloc, image, table, number, name)?;
        let parent = mem::replace(&mut self.present, child);
        push_level(&mut self.above, parent)?;
        Ok(())
    }

    /// Leaves the present directory; false where it is the start.
    fn leave(&mut self) -> bool
        requires { vec_len self.old.present.name ≤ vec_len self.old.path }
        ensures up { result ≡ true → IsBack self.old self.new }
        ensures start { result ≡ false → self.old.above.items ≡ [] }
    {
        match self.above.pop() {
            Some(parent) => {
                self.path
                    .truncate(self.path.len() - self.present.name.len());
                self.present = parent;
                true
            }
            None => false,
        }
    }

    /// Prints entries of the present directory until it ends, and is left, or another one is entered. It answers
    /// whether that left one to go on with.
    fn turn<G: Image, K: Sink>(
        &mut self,
        image: &mut G,
        table: &Table,
        desk: &mut Desk,
        out: &mut K,
    ) -> Result<bool, ShowFault>
        requires held { HasClusters (G.seen image.old).size table.now }
        requires block { vec_len desk.old.block ≡ table.now.geometry.record_size }
        requires descent { IsDescent table.now record_numbers self.old }
        ensures lists { ListsOrStops (IsTrue (G.seen image.old).is_told)
            (λ (all : Unit {0}). before desk.old.pending (left_of_descent desk.old.options table.now
            (G.seen image.old).content record_numbers self.old))
            (K.seen out.old) result
            (λ more all. before desk.new.pending (more_of_descent desk.old.options table.now (G.seen image.old).content
            record_numbers self.new more))
            desk.new.pending (K.seen out.new) }
        ensures descent { IfOk result (λ more. more ≡ true → IsDescent table.now record_numbers self.new) }
        ensures fewer { IfOk result (λ more. more ≡ true →
            descent_most record_numbers self.new < descent_most record_numbers self.old) }
        ensures desk { IsSameDesk desk.old desk.new }
        ensures copies { Copies G.Image K.Sink show_origin image.old image.new out.old out.new result }
    {
        let below = show_entries(
            image,
            table,
            desk,
            self.present.number,
            &self.path,
            &mut self.present.directory,
            &self.met,
            out,
        )?;
        match below {
            Some(number) => {
                self.enter(image, table, number)?;
                Ok(true)
            }
            None => Ok(self.leave()),
        }
    }

    /// Prints all that is left.
    fn list<G: Image, K: Sink>(
        &mut self,
        image: &mut G,
        table: &Table,
        desk: &mut Desk,
        out: &mut K,
    ) -> Result<(), ShowFault>
        requires held { HasClusters (G.seen image.old).size table.now }
        requires block { vec_len desk.old.block ≡ table.now.geometry.record_size }
        requires descent { IsDescent table.now record_numbers self.old }
        ensures lists { ListsOrStops (IsTrue (G.seen image.old).is_told)
            (λ (all : Unit {0}). before desk.old.pending (left_of_descent desk.old.options table.now
            (G.seen image.old).content record_numbers self.old))
            (K.seen out.old) result (λ done all. before desk.new.pending (prints [])) desk.new.pending
            (K.seen out.new) }
        ensures copies { Copies G.Image K.Sink show_origin image.old image.new out.old out.new result }
    {
        'directories: loop {
            if !self.turn(image, table, desk, out)? {
                return Ok(());
            }
        }
    }
}

/// Begins at the directory of a number.
fn begin<G: Image>(
    alloc: Global,
    image: &mut G,
    table: &Table,
    start: u64,
) -> Result<Descent, ShowFault>
    requires held { HasClusters (G.seen image.old).size table.now }
    ensures told { (o : Options) → IfTold G.Image image.old (λ content.
        IsBegunAt o table.now content record_numbers start result) }
    ensures descent { IfOk result (IsDescent table.now record_numbers) }
    ensures reads { OnlyReads G.Image show_origin image.old image.new result }
{
    let mut met = BTreeSet::new(alloc);
    meet(&mut met, start)?;
    let present = open_level(alloc, image, table, start, Vec::new(alloc))?;
    Ok(Descent {
        alloc,
        present,
        above: Vec::new(alloc),
        path: Vec::new(alloc),
        met,
    })
}

/// Prints what is shown from the directory of a number on.
pub(crate) fn list_from<G: Image, K: Sink>(
    alloc: Global,
    image: &mut G,
    table: &Table,
    desk: &mut Desk,
    start: u64,
    out: &mut K,
) -> Result<(), ShowFault>
    requires held { HasClusters (G.seen image.old).size table.now }
    requires block { vec_len desk.old.block ≡ table.now.geometry.record_size }
    ensures lists { ListsOrStops (IsTrue (G.seen image.old).is_told)
        (λ (all : Unit {0}). before desk.old.pending (list_of desk.old.options table.now (G.seen image.old).content
        start))
        (K.seen out.old) result (λ done all. before desk.new.pending (prints [])) desk.new.pending
        (K.seen out.new) }
    ensures copies { Copies G.Image K.Sink show_origin image.old image.new out.old out.new result }
{
    let mut descent = begin(alloc, image, table, start)?;
    descent.list(image, table, desk, out)
}
