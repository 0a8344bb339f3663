//! A directory, walked over an image.

ghost use Rattle.std.specs.Prelude.{◌≡◌, ◌<◌, ◌≤◌, ℕ, Some, None, Err, true, IfOk, IfErr, IsOk, OnOk};
ghost use Rattle.ntfs_base.specs.Bytes.{cluster_at};
ghost use Rattle.ntfs_base.specs.Frames.{Gives, IfTold, IsJudged, IsSettled, OnlyReads, refused_as};
ghost use Rattle.ntfs_boot.specs.Geometry.{IsGood, IsOpened};
ghost use Rattle.ntfs_directory.specs.Directory.{allocation_found, allocation_kind, begun_walk, index_name, root_kind, index_root_value};
ghost use Rattle.ntfs_directory.specs.Fault.{directory_fault, unwalkable};
ghost use Rattle.ntfs_directory.specs.State.{DirectoryState, IsNextEntry, IsOn, IsSameDirectory, KeepsEntryKey, answered, left_of};
ghost use Rattle.ntfs_index.specs.Blocks.{BlockMap};
ghost use Rattle.ntfs_index.specs.Node.{root_node};
ghost use Rattle.ntfs_index.specs.Fetches.{index_origin};
ghost use Rattle.ntfs_index.specs.State.{IfGiven, IsBegun, IsNext, ShowsKey, entries_most, left};
ghost use Rattle.ntfs_index.specs.declared.fault.IndexFault.{IndexFault as Broken};
ghost use Rattle.ntfs_directory.specs.ImageBlocks.{ReadsFrom, blocks_in};
ghost use Rattle.ntfs_index.specs.Walk.{listing, walk};
ghost use Rattle.ntfs_volume.specs.Fault.{volume_origin};
ghost use Rattle.ntfs_volume.specs.Opened.{HasClusters};
ghost use Rattle.ntfs_volume.specs.Streams.{IsReadable, gather_of};
ghost use Rattle.ntfs_volume.specs.declared.fault.VolumeFault.{VolumeFault as Fault};

use crate::allocation::Allocation;
use crate::blocks::{ImageBlocks, Lending, Lent};
use crate::fault::{directory_fault, unwalkable};
use ntfs_base::Image;
use ntfs_boot::Geometry;
use ntfs_index::{Entry, IndexFault, Walk, start};
use ntfs_volume::{Stream, Table, Volume, VolumeFault};
use std::alloc::Global;
use std::marker::{Brand, Model};

/// The name of the attributes that are a directory's index, `$I30`.
const INDEX_NAME: [u8; 8] = [0x24, 0x00, 0x49, 0x00, 0x33, 0x00, 0x30, 0x00];

/// The type of $INDEX_ROOT.
const ROOT: u32 = 0x90;

/// The type of $INDEX_ALLOCATION.
const ALLOCATION: u32 = 0xA0;

/// A directory that is walked, entry by entry.
#[derive(Drop)]
pub struct Directory {
    number: u64,
    allocation: Allocation,
    walk: Walk,
}

impl Model for Directory {
    ghost use Rattle.ntfs_directory.specs.State.{DirectoryState};

    ghost Value = { DirectoryState };

    ghost view = { λ d. record { number = d.number; allocation = d.allocation; walk = d.walk } };
}

/// Gathers the root of a directory's index, which must be there and be resident.
fn gather_root<G: Image>(
    alloc: Global,
    image: &mut G,
    table: &Table,
    number: u64,
) -> Result<Stream, VolumeFault>
    requires held { HasClusters (G.seen image.old).size table.now }
    ensures gives { IfTold G.Image image.old (λ content. Gives volume_origin (λ found. found.stream.value)
        (index_root_value number (gather_of table.now.geometry table.now.map
        (cluster_at content table.now.geometry.cluster) number root_kind index_name)) result) }
    ensures resident { IfOk result (λ found. found.stream.is_resident ≡ true) }
    ensures reads { OnlyReads G.Image volume_origin image.old image.new result }
{
    match table.gather(alloc, image, number, ROOT, &INDEX_NAME) {
        Err(VolumeFault::NoAttribute) => Err(unwalkable(number)),
        Err(fault) => Err(fault),
        Ok(found) => {
            if found.value().is_some() {
                Ok(found)
            } else {
                Err(unwalkable(number))
            }
        }
    }
}

/// Gathers the allocation of a directory's index, which may be missing.
fn gather_allocation<G: Image>(
    alloc: Global,
    image: &mut G,
    table: &Table,
    number: u64,
) -> Result<Allocation, VolumeFault>
    requires held { HasClusters (G.seen image.old).size table.now }
    ensures gives { IfTold G.Image image.old (λ content. Gives volume_origin (λ found. found)
        (allocation_found (gather_of table.now.geometry table.now.map
        (cluster_at content table.now.geometry.cluster) number allocation_kind index_name)) result) }
    ensures readable { IfOk result (IsReadable table.now.geometry) }
    ensures reads { OnlyReads G.Image volume_origin image.old image.new result }
{
    match table.gather(alloc, image, number, ALLOCATION, &INDEX_NAME) {
        Err(VolumeFault::NoAttribute) => Ok(Allocation::new(None)),
        Err(fault) => Err(fault),
        Ok(found) => Ok(Allocation::new(Some(found))),
    }
}

/// Begins the walk of a directory's root.
fn begin(
    alloc: Global,
    root: &Stream,
    geometry: &Geometry,
    number: u64,
) -> Result<Walk, VolumeFault>
    requires resident { root.now.stream.is_resident ≡ true }
    requires good { IsGood geometry.now }
    ensures walk { IfOk result (λ begun. (blocks : BlockMap) →
        left begun blocks ≡ listing (walk geometry.now.block root.now.stream.value blocks)) }
    ensures begun { IfOk result (IsBegun geometry.now.block) }
    ensures accepted { IfOk result (λ begun. IsOk (root_node geometry.now.block root.now.stream.value)) }
    ensures refused { IfErr result (λ fault. IsSettled (volume_origin fault) →
        refused_as (directory_fault number) (root_node geometry.now.block root.now.stream.value) ≡ Err fault) }
    ensures judged { IsJudged volume_origin result }
{
    match root.value() {
        None => unreachable!(),
        Some(value) => match start(alloc, value, geometry) {
            Ok(walk) => Ok(walk),
            Err(fault) => Err(directory_fault(number, fault)),
        },
    }
}

/// Begins the walk of the directory of a number.
///
/// It answers `Absent` exactly where gathering does, and `Damaged` by its rules, or by rule C13 where there is no index
/// root that can be entered.
pub fn open_directory<G: Image>(
    alloc: Global,
    image: &mut G,
    table: &Table,
    number: u64,
) -> Result<Directory, VolumeFault>
    requires held { HasClusters (G.seen image.old).size table.now }
    ensures gives { IfTold G.Image image.old (λ content.
        Gives volume_origin (left_of table.now.geometry content)
        (begun_walk table.now.geometry table.now.map content number) result) }
    ensures begun { IfOk result (λ found. IsBegun table.now.geometry.block found.walk) }
    ensures bears { IfOk result (λ found. found.number ≡ number) }
    ensures on { IfOk result (IsOn table.now.geometry) }
    ensures reads { OnlyReads G.Image volume_origin image.old image.new result }
{
    let root = gather_root(alloc, image, table, number)?;
    let allocation = gather_allocation(alloc, image, table, number)?;
    let walk = begin(alloc, &root, table.geometry(), number)?;
    Ok(Directory {
        number,
        allocation,
        walk,
    })
}

/// The next entry of a walk over the blocks of an allocation that is lent, and what is lent.
fn next_lent<'i, 'g, 'a, G: Image, K: Lending>(
    walk: &mut Walk,
    over: Lent<'i, 'g, 'a, G>,
) -> (Result<Option<Entry>, IndexFault>, Lent<'i, 'g, 'a, G>)
    requires same { over.image.ghost_name ≡ K.reference }
    requires counted { K.writes ≤ (G.faults over.image.now).writes }
    requires opened { IsOpened (G.seen over.image.now).size over.geometry.now }
    requires readable { IsReadable over.geometry.now over.allocation.now }
    requires block { walk.old.size ≡ over.geometry.now.block }
    ensures told { walk.old.fault ≡ None → IfTold G.Image over.entry.image.now (λ content. IsNext
        (left walk.old (blocks_in over.entry.geometry.now over.entry.allocation.now (G.seen over.entry.image.now)))
        result.0
        (left walk.new (blocks_in over.entry.geometry.now over.entry.allocation.now (G.seen over.entry.image.now)))
        walk.new.key) }
    ensures same_reference { result.1.image.ghost_name ≡ K.reference }
    ensures reads { walk.old.fault ≡ None →
        ReadsFrom G.Image index_origin K.writes over.entry.image.now result.1.image.now result.0 }
    ensures again { (fault : Broken) → walk.old.fault ≡ Some fault →
        (result.0 ≡ Err fault) × (walk.new ≡ walk.old) × (result.1.image.now ≡ over.entry.image.now) }
    ensures faulted { IfErr result.0 (λ fault. walk.new.fault ≡ Some fault) }
    ensures sound { OnOk result.0 (walk.new.fault ≡ None) }
    ensures key { ShowsKey result.0 walk.old.key walk.new.key }
    ensures fewer { IfGiven result.0 (entries_most walk.new < entries_most walk.old) }
    ensures no_more { entries_most walk.new ≤ entries_most walk.old }
    ensures block { walk.new.size ≡ walk.old.size }
{
    let mut blocks: ImageBlocks<'i, 'g, 'a, G, K> = ImageBlocks::new(over);
    let answer = walk.next(&mut blocks);
    (answer, blocks.into_lent())
}

/// The next entry of a walk over the blocks of an allocation.
fn next_entry<G: Image>(
    walk: &mut Walk,
    allocation: &Allocation,
    image: &mut G,
    geometry: &Geometry,
) -> Result<Option<Entry>, IndexFault>
    requires opened { IsOpened (G.seen image.old).size geometry.now }
    requires readable { IsReadable geometry.now allocation.now }
    requires block { walk.old.size ≡ geometry.now.block }
    ensures told { walk.old.fault ≡ None → IfTold G.Image image.old (λ content. IsNext
        (left walk.old (blocks_in geometry.now allocation.now (G.seen image.old))) result
        (left walk.new (blocks_in geometry.now allocation.now (G.seen image.old))) walk.new.key) }
    ensures reads { walk.old.fault ≡ None → OnlyReads G.Image index_origin image.old image.new result }
    ensures again { (fault : Broken) → walk.old.fault ≡ Some fault →
        (result ≡ Err fault) × (walk.new ≡ walk.old) × (image.new ≡ image.old) }
    ensures faulted { IfErr result (λ fault. walk.new.fault ≡ Some fault) }
    ensures sound { OnOk result (walk.new.fault ≡ None) }
    ensures key { ShowsKey result walk.old.key walk.new.key }
    ensures fewer { IfGiven result (entries_most walk.new < entries_most walk.old) }
    ensures no_more { entries_most walk.new ≤ entries_most walk.old }
    ensures block { walk.new.size ≡ walk.old.size }
{
    let over = Lent {
        image,
        geometry,
        allocation,
    };
    let (answer, _) = next_lent::<G, Brand>(walk, over);
    answer
}

/// What a walk answers, as the directory of a number does.
fn in_directory(
    number: u64,
    answer: Result<Option<Entry>, IndexFault>,
) -> Result<Option<Entry>, VolumeFault>
    ensures { result ≡ refused_as (directory_fault number) answer }
{
    match answer {
        Ok(found) => Ok(found),
        Err(fault) => Err(directory_fault(number, fault)),
    }
}

impl Directory {
    /// The next entry, or `None` where the walk is whole. After a fault it answers that fault again.
    ///
    /// What it gives is the walk of that directory where the image's content is still the same. With each entry the
    /// number that can follow at most falls, whatever the image holds.
    pub fn next<G: Image>(
        &mut self,
        image: &mut G,
        table: &Table,
    ) -> Result<Option<Entry>, VolumeFault>
        requires held { HasClusters (G.seen image.old).size table.now }
        requires on { IsOn table.now.geometry self.old }
        ensures told { answered self.old ≡ None → IfTold G.Image image.old (λ content. IsNextEntry
            (left_of table.now.geometry content self.old) result
            (left_of table.now.geometry content self.new) self.new.walk.key) }
        ensures reads { answered self.old ≡ None → OnlyReads G.Image volume_origin image.old image.new result }
        ensures again { (fault : Fault) → answered self.old ≡ Some fault →
            (result ≡ Err fault) × (self.new ≡ self.old) × (image.new ≡ image.old) }
        ensures faulted { IfErr result (λ fault. answered self.new ≡ Some fault) }
        ensures sound { OnOk result (answered self.new ≡ None) }
        ensures key { KeepsEntryKey result self.old.walk.key self.new.walk.key }
        ensures fewer { IfGiven result (entries_most self.new.walk < entries_most self.old.walk) }
        ensures no_more { entries_most self.new.walk ≤ entries_most self.old.walk }
        ensures same { IsSameDirectory self.old self.new }
    {
        let answer = next_entry(&mut self.walk, &self.allocation, image, table.geometry());
        in_directory(self.number, answer)
    }

    /// The key of the last entry, a $FILE_NAME as it stands; empty before the first.
    pub fn key(&self) -> &[u8]
        ensures { result.now ≡ self.now.walk.key }
    {
        self.walk.key()
    }
}
