//! What an accepted volume is asked for later.

ghost use Rattle.std.specs.Prelude.{◌≡◌, ◌+◌, ◌<◌, ◌≤◌, ◌^◌, All, ℕ, length, map, true, false, None, IfErr, IfOk, IfSome, OnOk};
ghost use Rattle.std.specs.List.{flat_map};
ghost use Rattle.ntfs_base.specs.Bytes.{Cluster, cluster_at};
ghost use Rattle.ntfs_base.specs.Frames.{IfTold, IsSettled, OnlyReads};
ghost use Rattle.ntfs_bitmap.specs.ClusterSet.{bound_of, has, in_run};
ghost use Rattle.ntfs_check_fixed.specs.Facts.{AddsClusters, HasNoValue, gathered_cells, owned_end, facts_of, fixed_in, is_among, is_dirty, value_in};
ghost use Rattle.ntfs_check_fixed.specs.Rows.{HasNoClusters};
ghost use Rattle.ntfs_rules.specs.Accepts.{claims_in};
ghost use Rattle.ntfs_rules.specs.FixedRecords.{are_in_place, c15};
ghost use Rattle.ntfs_rules.specs.Outcome.{check_origin};
ghost use Rattle.ntfs_rules.specs.VolumeData.{listings, numbers, volume_data};
ghost use Rattle.ntfs_runs.specs.Cells.{are_cells};
ghost use Rattle.ntfs_runs.specs.Clusters.{row, vcns};
ghost use Rattle.ntfs_survey.specs.Owned.{LiesBelow, owner_claims};
ghost use Rattle.ntfs_volume.specs.Opened.{HasClusters};
ghost use Rattle.ntfs_volume.specs.StreamBytes.{clusters_in};
ghost use Rattle.ntfs_volume.specs.Streams.{IsReadable};

use crate::fixed::find_stream;
use crate::rows::{Row, row_name, runs_of};
use ntfs_base::Image;
use ntfs_bitmap::{ClaimFault, ClusterSet};
use ntfs_boot::Geometry;
use ntfs_rules::CheckFault;
use ntfs_runs::Run;
use ntfs_survey::Owner;
use ntfs_volume::{Stream, Table};
use std::alloc::{AllocError, Global};
use std::marker::Model;

/// Adds free clusters to a set.
fn claim(set: &mut ClusterSet, first: u64, length: u64) -> Result<(), AllocError>
    requires within { first + length ≤ bound_of set.old }
    requires free { (k : ℕ) → first ≤ k → k < first + length → has set.old k ≡ false }
    ensures { OnOk result (AddsClusters set.old set.new (in_run first length)) }
{
    match set.claim_run(first, length) {
        Ok(()) => Ok(()),
        Err(ClaimFault::Taken { .. } | ClaimFault::NoMemory) => Err(AllocError),
    }
}

/// Adds the clusters of a run, some of which may be in the set.
fn add_run(set: &mut ClusterSet, first: u64, length: u64) -> Result<(), AllocError>
    requires within { first + length ≤ bound_of set.old }
    requires few { bound_of set.old < 2 ^ 63 }
    ensures { OnOk result (AddsClusters set.old set.new (in_run first length)) }
{
    let end = first + length;
    let mut at = first;
    'pieces: while let Some(free) = set.free_run_from(at, end) {
        if let Err(fault) = claim(set, free.first, free.length) {
            return Err(fault);
        }
        at = free.first + free.length;
    }
    Ok(())
}

/// Adds the clusters of runs; a hole has none.
fn add_runs(set: &mut ClusterSet, runs: &[Run]) -> Result<(), AllocError>
    requires cells { are_cells true (bound_of set.old) (vcns runs.now) ≡ true }
    requires few { bound_of set.old < 2 ^ 63 }
    ensures { OnOk result (AddsClusters set.old set.new (is_among (vcns runs.now))) }
{
    'runs: for run in runs {
        match run.lcn {
            None => {}
            Some(first) => {
                if run.length > 0 {
                    if let Err(fault) = add_run(set, first, run.length) {
                        return Err(fault);
                    }
                }
            }
        }
    }
    Ok(())
}

/// How many clusters a run has; a hole has none.
fn clusters_of(run: &Run) -> u64
    ensures { result ≡ length (clusters_in (row run.now.length run.now.lcn)) }
{
    match run.lcn {
        None => 0,
        Some(_) => run.length,
    }
}

/// How many clusters runs have that stand at the VCNs of their numbers.
fn count_clusters(runs: &[Run]) -> u64
    ensures { (n : ℕ) → n < 2 ^ 63 → are_cells true n (vcns runs.now) ≡ true
        → are_in_place 0 (vcns runs.now) ≡ true → result ≡ length (clusters_in (vcns runs.now)) }
{
    let mut count = 0u64;
    'runs: for run in runs {
        count = count.saturating_add(clusters_of(run));
    }
    count
}

/// 1 + the highest cluster of an owner, where it is the record of a number; else 0.
fn end_in(owner: &Owner, number: u64) -> u64
    ensures { (n : ℕ) → n < 2 ^ 63 → LiesBelow n owner.now → result ≡ owned_end number (owner_claims owner.now) }
{
    if owner.number != number {
        return 0;
    }
    owner.first.saturating_add(owner.length)
}

/// 1 + the highest cluster that the record of a number has; 0 where it has none.
fn owned_end(owners: &[Owner], number: u64) -> u64
    ensures { (n : ℕ) → n < 2 ^ 63 → All (LiesBelow n) owners.now
        → result ≡ owned_end number (flat_map owner_claims owners.now) }
{
    let mut end = 0u64;
    'owners: for owner in owners {
        end = end.max(end_in(owner, number));
    }
    end
}

/// The flag of a dirty volume is set in the value of $VOLUME_INFORMATION.
fn is_dirty(value: &[u8]) -> bool
    ensures { result ≡ is_dirty value.now }
{
    if value.len() < 11 {
        return false;
    }
    value[0x0A] % 2 == 1
}

/// The value of a stream; one that isn't resident has none.
fn value_of(stream: &Stream) -> &[u8]
    ensures { HasNoValue stream.now.stream → result.now ≡ stream.now.stream.value }
{
    match stream.value() {
        None => &[],
        Some(value) => value,
    }
}

/// The flag is set in a stream, where there is one.
fn is_flagged(found: &Option<Stream>) -> bool
    ensures { IfSome found.now (λ s. HasNoValue s.stream) → result ≡ is_dirty (value_in found.now) }
{
    match found {
        None => is_dirty(&[]),
        Some(stream) => is_dirty(value_of(stream)),
    }
}

/// The runs of a stream, where there is one that isn't resident.
fn runs_found<'a>(geometry: &Geometry, found: &'a Option<Stream>) -> &'a [Run]
    requires { IfSome found.now (λ s. IsReadable geometry.now s.stream) }
    ensures cells { IfSome found.now (λ s. HasNoClusters s.stream) → vcns result.now ≡ gathered_cells found.now }
    ensures below { are_cells true geometry.now.clusters (vcns result.now) ≡ true }
{
    match found {
        None => &[],
        Some(stream) => runs_of(stream),
    }
}

/// The clusters of two lists of runs.
fn fixed_in(
    alloc: Global,
    clusters: u64,
    bitmap: &[Run],
    bad: &[Run],
) -> Result<ClusterSet, AllocError>
    requires bitmap { are_cells true clusters (vcns bitmap.now) ≡ true }
    requires bad { are_cells true clusters (vcns bad.now) ≡ true }
    requires few { clusters < 2 ^ 63 }
    ensures { IfOk result (λ set. set ≡ fixed_in clusters (vcns bitmap.now) (vcns bad.now)) }
{
    let mut set = ClusterSet::empty(alloc, clusters)?;
    add_runs(&mut set, bitmap)?;
    add_runs(&mut set, bad)?;
    Ok(set)
}

/// What an accepted volume is asked for later.
#[derive(Drop)]
pub struct Facts {
    boot_end: u64,
    fixed: ClusterSet,
    bad_count: u64,
    dirty: bool,
}

impl Model for Facts {
    ghost use Rattle.ntfs_check_fixed.specs.Facts.{VolumeFacts};

    ghost Value = { VolumeFacts };

    ghost view = { λ f. record {
      boot_end = f.boot_end;
      fixed = f.fixed;
      bad_count = f.bad_count;
      dirty = f.dirty;
    } };
}

impl Facts {
    /// 1 + the highest cluster that record 7 owns; 0 where it owns none.
    pub fn boot_end(&self) -> u64
        ensures { result ≡ self.now.boot_end }
    {
        self.boot_end
    }

    /// The clusters of $Bitmap and of `$Bad`.
    pub fn fixed(&self) -> &ClusterSet
        ensures { result.now ≡ self.now.fixed }
    {
        &self.fixed
    }

    /// How many clusters `$Bad` has.
    pub fn bad_count(&self) -> u64
        ensures { result ≡ self.now.bad_count }
    {
        self.bad_count
    }

    /// The flag of a dirty volume is set.
    pub fn is_dirty(&self) -> bool
        ensures { result ≡ self.now.dirty }
    {
        self.dirty
    }
}

/// What an accepted volume is asked for later; the owners are those of a survey.
pub fn read_facts<G: Image>(
    alloc: Global,
    image: &mut G,
    table: &Table,
    owners: &[Owner],
) -> Result<Facts, CheckFault>
    requires held { HasClusters (G.seen image.old).size table.now }
    ensures found { IfTold G.Image image.old (λ content.
        let v = volume_data table.now (cluster_at content table.now.geometry.cluster) in
        c15 v.geometry (map (λ (k : Cluster). k.number) v.table) (listings v) (numbers v) ≡ None
        → claims_in v ≡ flat_map owner_claims owners.now → All (LiesBelow v.geometry.clusters) owners.now
        → IfOk result (λ facts. facts ≡ facts_of v)) }
    ensures bound { IfOk result (λ facts. bound_of facts.fixed ≡ table.now.geometry.clusters) }
    ensures ended { All (LiesBelow table.now.geometry.clusters) owners.now
        → IfOk result (λ facts. facts.boot_end ≤ table.now.geometry.clusters) }
    ensures cut { IfErr result (λ fault. IsSettled (check_origin fault) → ⊥) }
    ensures reads { OnlyReads G.Image check_origin image.old image.new result }
{
    let geometry = table.geometry();
    let bitmap = find_stream(alloc, image, table, 6, 0x80, &[])?;
    let bad = find_stream(alloc, image, table, 8, 0x80, row_name(Row::Bad))?;
    let information = find_stream(alloc, image, table, 3, 0x70, &[])?;
    let bad_runs = runs_found(geometry, &bad);
    let bad_count = count_clusters(bad_runs);
    let fixed = fixed_in(
        alloc,
        geometry.clusters,
        runs_found(geometry, &bitmap),
        bad_runs,
    )?;
    Ok(Facts {
        boot_end: owned_end(owners, 7),
        fixed,
        bad_count,
        dirty: is_flagged(&information),
    })
}
