//! The parts of a stream, joined one after another.

ghost use Rattle.std.specs.Prelude.{◌≡◌, ◌≤◌, ◌<◌, ◌+◌, ◌-◌, ◌^◌, ◌==◌, ◌&&◌, ◌++◌, ℕ, true, length, IfOk, OnOk};
ghost use Rattle.ntfs_base.specs.Frames.{Gives, IsJudged};
ghost use Rattle.ntfs_record.specs.Views.{shown_view};
ghost use Rattle.ntfs_runs.specs.Cells.{are_cells};
ghost use Rattle.ntfs_runs.specs.Clusters.{AreWithin, vcns};
ghost use Rattle.ntfs_volume.specs.Fault.{volume_origin};
ghost use Rattle.ntfs_volume.specs.Gathering.{AreParts, AreRuns, added, finished, first_of, is_settled, joined, met, no_parts, shown_first, shown_part, shown_parts, taken};
ghost use Rattle.ntfs_volume.specs.StreamBytes as bytes;
ghost use Rattle.ntfs_volume.specs.Streams.{IsReadable};

use crate::fault::VolumeFault;
use crate::list::have_room;
use crate::stream::{Content, Stream};
use ntfs_base::Rule;
use ntfs_boot::Geometry;
use ntfs_record::{AttributeView, Body};
use ntfs_runs::{PairsFault, Run, RunList, decode};
use std::alloc::{AllocError, Global};

/// What the first part gives the stream.
#[derive(Drop)]
pub(crate) struct First {
    pub(crate) number: u64,
    pub(crate) place: u32,
    pub(crate) flags: u16,
    pub(crate) value: Option<Vec<u8>>,
    pub(crate) size: u64,
    pub(crate) valid: u64,
}

/// The parts so far: the first of them, their runs and the VCN behind them where they join, and the record of the first
/// whose pairs are wrong.
#[derive(Drop)]
pub(crate) struct Parts {
    pub(crate) first: Option<First>,
    pub(crate) runs: RunList,
    pub(crate) next: u64,
    pub(crate) joins: bool,
    pub(crate) wrong: Option<u64>,
    pub(crate) count: u64,
}

/// The volume breaks this rule at this record.
pub(crate) fn damaged(rule: Rule, number: u64) -> VolumeFault
    ensures { result ≡ VolumeFault.Damaged rule number }
{
    VolumeFault::Damaged { rule, number }
}

/// The parts join, and the sizes fit so many VCNs.
fn fit(joins: bool, cluster: u32, vcns: u64, size: u64, valid: u64) -> bool
    ensures { result ≡ (joins && bytes.have_room cluster vcns size valid) }
{
    joins && have_room(cluster, vcns, size, valid)
}

/// The runs of pairs that spell so many VCNs, all below the number of clusters; none of other pairs.
fn read_runs(
    alloc: Global,
    pairs: &[u8],
    count: u64,
    clusters: u64,
) -> Result<Option<RunList>, AllocError>
    ensures { IfOk result (AreRuns clusters count pairs.now) }
{
    match decode(alloc, pairs) {
        Err(PairsFault::NoMemory) => Err(AllocError),
        Err(PairsFault::BadPairs { .. }) => Ok(None),
        Ok(list) => {
            if list.lies_below(true, clusters) && list.vcn_count() == count {
                Ok(Some(list))
            } else {
                Ok(None)
            }
        }
    }
}

/// Puts runs behind others.
fn append(list: &mut RunList, runs: &[Run]) -> Result<(), AllocError>
    ensures { OnOk result (list.new ≡ list.old ++ runs.now) }
{
    'runs: for run in runs {
        list.push(*run)?;
    }
    Ok(())
}

/// A copy of bytes.
fn copy_of(alloc: Global, bytes: &[u8]) -> Result<Vec<u8>, AllocError>
    ensures { IfOk result (λ copy. copy.items ≡ bytes.now) }
{
    let mut copy = Vec::new(alloc);
    copy.extend_from_slice(bytes)?;
    Ok(copy)
}

/// What an attribute of a record gives as the first part.
fn first_of(alloc: Global, number: u64, extent: &AttributeView<'_>) -> Result<First, AllocError>
    ensures { IfOk result (λ first. (n : ℕ)
        → shown_first first ≡ first_of (shown_part n number (shown_view extent.now))) }
{
    match extent.body {
        Body::Resident { value } => Ok(First {
            number,
            place: extent.place,
            flags: extent.flags,
            value: Some(copy_of(alloc, value)?),
            size: 0,
            valid: 0,
        }),
        Body::Runs { size, valid, .. } => Ok(First {
            number,
            place: extent.place,
            flags: extent.flags,
            value: None,
            size,
            valid,
        }),
    }
}

impl Parts {
    /// No part yet.
    pub(crate) fn new(alloc: Global) -> Parts
        ensures shown { shown_parts result ≡ no_parts }
        ensures parts { (n : ℕ) → AreParts n result }
    {
        Parts {
            first: None,
            runs: RunList::new(alloc),
            next: 0,
            joins: true,
            wrong: None,
            count: 0,
        }
    }

    /// One part more was met.
    fn meet(
        &mut self,
        alloc: Global,
        number: u64,
        extent: &AttributeView<'_>,
    ) -> Result<(), AllocError>
        requires { self.old.count + 1 < 2 ^ 64 }
        ensures shown { OnOk result ((n : ℕ) → shown_parts self.new
            ≡ met (shown_parts self.old) (shown_part n number (shown_view extent.now))) }
        ensures parts { (n : ℕ) → AreParts n self.old → AreParts n self.new }
    {
        self.count += 1;
        if self.first.is_some() {
            return Ok(());
        }
        self.first = Some(first_of(alloc, number, extent)?);
        Ok(())
    }

    /// The cells of further parts play no part.
    fn is_settled(&self) -> bool
        ensures { result ≡ is_settled (shown_parts self.now) }
    {
        let is_value = match &self.first {
            None => false,
            Some(first) => first.value.is_some(),
        };
        is_value || self.wrong.is_some()
    }

    /// A part from this VCN on joins the parts so far.
    fn goes_on(&self, lowest: u64) -> bool
        ensures { result ≡ (self.now.joins && (lowest == self.now.next)) }
    {
        self.joins && lowest == self.next
    }

    /// Joins a part from a VCN up to another one, with these runs.
    fn join(&mut self, lowest: u64, next: u64, runs: &[Run]) -> Result<(), AllocError>
        ensures shown { OnOk result (shown_parts self.new ≡ joined (shown_parts self.old) lowest next (vcns runs.now)) }
        ensures parts { (n : ℕ) → AreParts n self.old → lowest ≤ next → length (vcns runs.now) ≡ next - lowest
            → are_cells true n (vcns runs.now) ≡ true → AreWithin runs.now → OnOk result (AreParts n self.new) }
    {
        self.joins = self.goes_on(lowest);
        self.next = next;
        if self.joins {
            append(&mut self.runs, runs)?;
        }
        Ok(())
    }

    /// Adds the cells of a part.
    fn add(
        &mut self,
        alloc: Global,
        number: u64,
        extent: &AttributeView<'_>,
        clusters: u64,
    ) -> Result<(), AllocError>
        requires vcns { (shown_view extent.now).body.lowest ≤ (shown_view extent.now).body.next }
        requires parts { AreParts clusters self.old }
        ensures shown { OnOk result (shown_parts self.new
            ≡ added (shown_parts self.old) (shown_part clusters number (shown_view extent.now))) }
        ensures parts { OnOk result (AreParts clusters self.new) }
    {
        match extent.body {
            Body::Resident { .. } => {
                self.joins = false;
                Ok(())
            }
            Body::Runs {
                lowest,
                next,
                pairs,
                ..
            } => match read_runs(alloc, pairs, next.saturating_sub(lowest), clusters)? {
                None => {
                    self.wrong = Some(number);
                    Ok(())
                }
                Some(list) => self.join(lowest, next, list.runs()),
            },
        }
    }

    /// Takes one part more: an attribute of the record of a number.
    pub(crate) fn take(
        &mut self,
        alloc: Global,
        number: u64,
        extent: &AttributeView<'_>,
        clusters: u64,
    ) -> Result<(), AllocError>
        requires count { self.old.count + 1 < 2 ^ 64 }
        requires vcns { (shown_view extent.now).body.lowest ≤ (shown_view extent.now).body.next }
        requires parts { AreParts clusters self.old }
        ensures shown { OnOk result (shown_parts self.new
            ≡ taken (shown_parts self.old) (shown_part clusters number (shown_view extent.now))) }
        ensures parts { OnOk result (AreParts clusters self.new) }
    {
        self.meet(alloc, number, extent)?;
        if self.is_settled() {
            return Ok(());
        }
        self.add(alloc, number, extent, clusters)
    }

    /// The stream of the parts of a base record.
    pub(crate) fn finish(self, number: u64, geometry: &Geometry) -> Result<Stream, VolumeFault>
        requires { AreParts geometry.now.clusters self }
        ensures gives { Gives volume_origin (λ stream. stream)
            (finished geometry.now.cluster number (shown_parts self)) result }
        ensures readable { IfOk result (λ found. IsReadable geometry.now found.stream) }
        ensures judged { IsJudged volume_origin result }
    {
        let Parts {
            first,
            runs,
            next,
            joins,
            wrong,
            count,
        } = self;
        match first {
            None => Err(VolumeFault::NoAttribute),
            Some(first) => {
                let First {
                    number: holder,
                    place,
                    flags,
                    value,
                    size,
                    valid,
                } = first;
                match value {
                    Some(bytes) => {
                        let content = Content::Value { bytes };
                        Ok(Stream::new(flags, holder, place, count, content))
                    }
                    None => match wrong {
                        Some(wrong) => Err(damaged(Rule::C7, wrong)),
                        None => {
                            if !fit(joins, geometry.cluster, next, size, valid) {
                                return Err(damaged(Rule::C12, number));
                            }
                            let content = Content::Runs { size, valid, runs };
                            Ok(Stream::new(flags, holder, place, count, content))
                        }
                    },
                }
            }
        }
    }
}
