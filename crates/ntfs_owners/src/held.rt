//! The runs of a record's attributes, with the text that tells in a line whose they are.

ghost use Rattle.std.specs.Prelude.{◌≡◌, ◌≤◌, ◌^◌, ◌++◌, length, map, IfOk, OnOk, string_bytes};
ghost use Rattle.std.specs.List.{list_any};
ghost use Rattle.ntfs_record.specs.Views.{HasBounds, placed_of, shown_placed, shown_view};
ghost use Rattle.ntfs_runs.specs.Clusters.{vcns};
ghost use Rattle.ntfs_owners.specs.Held.{all_shown_held, held_of, holder_text, pairs_held, reaches, shown_held, wants_record, wants_runs};
ghost use Rattle.ntfs_survey.specs.Owned.{runs_in};
ghost use Rattle.ntfs_volume.specs.References as references;

use crate::holding::Holding;
use ntfs_print::kind_and_name;
use ntfs_record::{AttributeView, Body, RecordView};
use ntfs_runs::{PairsFault, Run, RunList, decode};
use std::alloc::{AllocError, Global};

/// Which runs of a volume are wanted: those of a file, by the number and the sequence number of its base record, or
/// those that have clusters from one on, below another one.
#[derive(Clone, Copy)]
pub(crate) enum Wanted {
    File { number: u64, sequence: u16 },
    Range { from: u64, end: u64 },
}

/// The text in front of a VCN: the number of a record, and an attribute's type and name.
#[tactic(auto, unfolding(crate::specs::Held::holder_text))]
fn holder_text(alloc: Global, number: u64, kind: u32, name: &[u8]) -> Result<String, AllocError>
    ensures { IfOk result (λ text. string_bytes text ≡ holder_text number kind name.now) }
{
    let label = kind_and_name(alloc, kind, name)?;
    format!(in alloc; "record {number} {label} vcn ")
}

/// The runs that mapping pairs spell; wrong ones spell none.
fn runs_of(alloc: Global, pairs: &[u8]) -> Result<RunList, AllocError>
    ensures runs { IfOk result (λ list. list ≡ runs_in pairs.now) }
    ensures few { IfOk result (λ list. length (vcns list) ≤ 2 ^ 48) }
{
    match decode(alloc, pairs) {
        Err(PairsFault::NoMemory) => Err(AllocError),
        Err(PairsFault::BadPairs { .. }) => Ok(RunList::new(alloc)),
        Ok(list) => Ok(list),
    }
}

/// The run has a cluster from one on, below another one.
#[tactic(auto, unfolding(crate::specs::Held::reaches))]
fn reaches(from: u64, end: u64, run: &Run) -> bool
    ensures { result ≡ reaches from end run.now }
{
    match run.lcn {
        None => false,
        Some(first) => first < end && (from < first || from - first < run.length),
    }
}

/// One of the runs has a cluster from one on, below another one.
fn any_reaches(from: u64, end: u64, runs: &[Run]) -> bool
    ensures { result ≡ list_any (reaches from end) runs.now }
{
    'runs: for run in runs {
        if reaches(from, end, run) {
            return true;
        }
    }
    false
}

/// A reference names the record of this number and sequence number.
#[tactic(auto, unfolding(ntfs_volume::specs::References::matches))]
fn matches(reference: u64, number: u64, sequence: u16) -> bool
    ensures { result ≡ references.matches reference number sequence }
{
    let turn = reference >> 48;
    reference % (1 << 48) == number && (turn == 0 || turn == u64::from(sequence))
}

/// The record of a number and a base reference is this base record, or has it as its base.
#[tactic(auto, unfolding(ntfs_volume::specs::References::has_base))]
fn belongs(number: u64, base: u64, file: u64, sequence: u16) -> bool
    ensures { result ≡ references.belongs number base file sequence }
{
    number == file || (base != 0 && matches(base, file, sequence))
}

impl Wanted {
    /// The record of a number and a base reference is wanted.
    pub(crate) fn wants_record(&self, number: u64, base: u64) -> bool
        ensures { result ≡ wants_record self.now number base }
    {
        match *self {
            Wanted::File {
                number: file,
                sequence,
            } => belongs(number, base, file, sequence),
            Wanted::Range { .. } => true,
        }
    }

    /// The runs are wanted.
    fn wants_runs(&self, runs: &[Run]) -> bool
        ensures { result ≡ wants_runs self.now runs.now }
    {
        match *self {
            Wanted::File { .. } => true,
            Wanted::Range { from, end } => any_reaches(from, end, runs),
        }
    }
}

/// Adds what an attribute of the record of a number holds, where its runs are wanted.
fn add_pairs(
    alloc: Global,
    wanted: &Wanted,
    number: u64,
    attribute: &AttributeView<'_>,
    lowest: u64,
    pairs: &[u8],
    held: &mut Vec<Holding>,
) -> Result<(), AllocError>
    requires low { lowest ≤ 2 ^ 48 }
    ensures { OnOk result (map held_of held.new.items ≡ map held_of held.old.items
        ++ pairs_held (wants_runs wanted.now) number attribute.now.kind attribute.now.name.now lowest pairs.now) }
{
    let runs = runs_of(alloc, pairs)?;
    if !wanted.wants_runs(runs.runs()) {
        return Ok(());
    }
    let text = holder_text(alloc, number, attribute.kind, attribute.name)?;
    held.push(Holding { text, lowest, runs })?;
    Ok(())
}

/// Adds what an attribute of the record of a number holds, where its runs are wanted; a resident one holds none.
fn add_attribute(
    alloc: Global,
    wanted: &Wanted,
    number: u64,
    attribute: &AttributeView<'_>,
    held: &mut Vec<Holding>,
) -> Result<(), AllocError>
    requires { HasBounds (shown_view attribute.now) }
    ensures { OnOk result (map held_of held.new.items ≡ map held_of held.old.items
        ++ shown_held (wants_runs wanted.now) number (shown_view attribute.now)) }
{
    match attribute.body {
        Body::Resident { .. } => Ok(()),
        Body::Runs { lowest, pairs, .. } => {
            add_pairs(alloc, wanted, number, attribute, lowest, pairs, held)
        }
    }
}

/// Adds what the attributes of the record of a number hold, in their order.
pub(crate) fn add_attributes(
    alloc: Global,
    wanted: &Wanted,
    number: u64,
    view: &RecordView<'_>,
    held: &mut Vec<Holding>,
) -> Result<(), AllocError>
    ensures { OnOk result (map held_of held.new.items ≡ map held_of held.old.items
        ++ all_shown_held (wants_runs wanted.now) number (map shown_placed (placed_of view.now))) }
{
    'attributes: for attribute in view.attributes() {
        add_attribute(alloc, wanted, number, &attribute, held)?;
    }
    Ok(())
}
