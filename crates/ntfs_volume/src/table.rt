//! What is kept of a volume: its geometry and $MFT's map.

ghost use Rattle.std.specs.Prelude.{◌≡◌, ◌≤◌, ◌<◌, ◌/◌, ◌^◌, length, slice_get, true, MatchOption, false, ℕ, List, None};
ghost use Rattle.std.specs.Option.{ok_or};
ghost use Rattle.ntfs_base.specs.Bytes.{cluster_at};
ghost use Rattle.ntfs_base.specs.Frames.{Gives, IfTold, OnlyReads};
ghost use Rattle.ntfs_boot.specs.Geometry.{IsGood};
ghost use Rattle.ntfs_runs.specs.Clusters.{AreSpellable, AreWithin, vcns};
ghost use Rattle.ntfs_volume.specs.MftMap.{is_record_count, is_table};
ghost use Rattle.ntfs_volume.specs.StreamBytes.{clusters_in, have_room};
ghost use Rattle.ntfs_volume.specs.Fault.{volume_origin};
ghost use Rattle.ntfs_volume.specs.Opened.{HasClusters, IsTable, fits_table, opened_by};
ghost use Rattle.ntfs_volume.specs.Records.{raw_record, read_of, record_count};
ghost use Rattle.ntfs_volume.specs.Scan.{initialised_count, scan_at};

use crate::fault::VolumeFault;
use crate::pieces::read_raw;
use crate::scan::Scan;
use crate::slot::tells_own;
use ntfs_base::{Image, Rule};
use ntfs_boot::Geometry;
use ntfs_fixup::{Magic, unfix};
use ntfs_record::{is_in_use, parse};
use ntfs_runs::{Run, RunList};
use std::marker::Model;

/// Where the file records of a volume lie: its geometry and $MFT's map, as they were read.
#[derive(Drop)]
pub struct Table {
    geometry: Geometry,
    runs: RunList,
    size: u64,
    valid: u64,
}

impl Model for Table {
    ghost use Rattle.ntfs_volume.specs.Opened.{IsTable, Opened, opened_by};

    ghost Value = { Opened };

    ghost view = { λ t. opened_by t.geometry t.runs t.size t.valid };

    ghost invariant = { λ t. IsTable t.geometry t.runs t.size t.valid };
}

impl Table {
    /// What is kept of a volume of this geometry, whose $MFT has these runs, size and initialised size.
    pub fn new(geometry: Geometry, runs: RunList, size: u64, valid: u64) -> Table
        requires { IsTable geometry runs size valid }
        ensures { result ≡ opened_by geometry runs size valid }
    {
        Table {
            geometry,
            runs,
            size,
            valid,
        }
    }

    /// The same, where these fit.
    pub fn fitting(geometry: Geometry, runs: RunList, size: u64, valid: u64) -> Option<Table>
        requires good { IsGood geometry }
        requires spellable { AreSpellable runs }
        requires within { AreWithin runs }
        ensures { MatchOption result (fits_table geometry runs size valid ≡ false)
            (λ table. (fits_table geometry runs size valid ≡ true) × (table ≡ opened_by geometry runs size valid)) }
    {
        if !fits_table(&geometry, &runs, size, valid) {
            return None;
        }
        Some(Table::new(geometry, runs, size, valid))
    }

    /// The geometry.
    pub fn geometry(&self) -> &Geometry
        ensures kept { result.now ≡ self.now.geometry }
        ensures good { IsGood self.now.geometry }
    {
        &self.geometry
    }

    /// How many records $MFT has room for.
    pub fn record_count(&self) -> u64
        ensures { result ≡ record_count self.now.geometry self.now.map }
    {
        self.size / u64::from(self.geometry.record_size)
    }

    /// How many records lie wholly in the initialised part of $MFT.
    pub fn initialised_count(&self) -> u64
        ensures count { result ≡ initialised_count self.now.geometry self.now.map }
        ensures most { result < 2 ^ 32 }
        ensures past { (f : ℕ → List ℕ) (r : ℕ) → result ≤ r → raw_record self.now.geometry self.now.map f r ≡ None }
    {
        self.valid / u64::from(self.geometry.record_size)
    }

    /// The records that lie wholly in the initialised part of $MFT, from the first on, as they stand on disk.
    pub fn scan(&self) -> Scan<'_>
        ensures { result ≡ scan_at self.now 0 }
    {
        Scan::new(self, self.runs.runs())
    }

    /// The runs of $MFT's map.
    pub fn runs(&self) -> &[Run]
        ensures clusters { clusters_in (vcns result.now) ≡ self.now.map.clusters }
        ensures within { AreWithin result.now }
    {
        self.runs.runs()
    }

    /// The cluster of a VCN of $MFT, and none past its end.
    pub fn record_cluster(&self, vcn: u64) -> Option<u64>
        ensures { result ≡ slice_get self.now.map.clusters vcn }
    {
        match self.runs.lcn_of(vcn) {
            None => None,
            Some(cell) => cell,
        }
    }

    /// Reads the record of a number, and unfixes it. After a refusal `into` holds anything.
    pub fn read_record<G: Image>(
        &self,
        image: &mut G,
        number: u64,
        into: &mut [u8],
    ) -> Result<(), VolumeFault>
        requires held { HasClusters (G.seen image.old).size self.now }
        requires block { length into.old ≡ self.now.geometry.record_size }
        ensures gives { IfTold G.Image image.old (λ content. Gives volume_origin (λ done. into.new)
            (read_of self.now.geometry self.now.map (cluster_at content self.now.geometry.cluster) number) result) }
        ensures reads { OnlyReads G.Image volume_origin image.old image.new result }
    {
        let there = read_raw(
            image,
            &self.geometry,
            self.runs.runs(),
            self.valid,
            number,
            into,
        )?;
        if !there {
            return Err(VolumeFault::Absent);
        }
        unfix_record(number, into)
    }
}

ghost use Rattle.ntfs_base.specs.Frames.{IsJudged};
ghost use Rattle.ntfs_fixup.specs.Fixups.{HasWholeStrides};
ghost use Rattle.ntfs_volume.specs.Records.{unfixed_record, unsound};

/// The sizes fit so many VCNs of a cluster's bytes.
fn have_room(cluster: u32, vcns: u64, size: u64, valid: u64) -> bool
    ensures { result ≡ have_room cluster vcns size valid }
{
    size <= vcns.saturating_mul(u64::from(cluster)) && valid <= size
}

#[tactic(auto, unfolding(crate::specs::MftMap::is_record_count))]
fn is_record_count(count: u64) -> bool
    ensures { result ≡ is_record_count count }
{
    12 <= count && count < 1 << 32
}

/// So many clusters have room for the size, with a right number of records.
#[tactic(auto, unfolding(crate::specs::MftMap::is_table))]
fn is_table(geometry: &Geometry, count: u64, size: u64, valid: u64) -> bool
    requires { IsGood geometry.now }
    ensures { result ≡ is_table geometry.now count size valid }
{
    have_room(geometry.cluster, count, size, valid)
        && is_record_count(size / u64::from(geometry.record_size))
}

/// Runs without holes, below the number of clusters, with room for the size and a right number of records.
fn fits_table(geometry: &Geometry, runs: &RunList, size: u64, valid: u64) -> bool
    requires good { IsGood geometry.now }
    requires spellable { AreSpellable runs.now }
    ensures { result ≡ fits_table geometry.now runs.now size valid }
{
    runs.lies_below(false, geometry.clusters) && is_table(geometry, runs.vcn_count(), size, valid)
}

fn unsound(number: u64) -> VolumeFault
    ensures { result ≡ unsound number }
{
    VolumeFault::Damaged {
        rule: Rule::C4,
        number,
    }
}

/// Unfixes the bytes of the record of a number.
fn unfix_record(number: u64, raw: &mut [u8]) -> Result<(), VolumeFault>
    requires { HasWholeStrides raw.old }
    ensures gives { Gives volume_origin (λ done. raw.new) (unfixed_record number raw.old) result }
    ensures judged { IsJudged volume_origin result }
{
    if !is_in_use(raw) {
        return Err(VolumeFault::Absent);
    }
    if unfix(raw, Magic::File).is_err() {
        return Err(unsound(number));
    }
    match parse(raw) {
        Err(_) => Err(unsound(number)),
        Ok(view) => {
            if tells_own(view.number(), number) {
                Ok(())
            } else {
                Err(unsound(number))
            }
        }
    }
}
