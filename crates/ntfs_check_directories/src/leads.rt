//! The records to which the entries of a directory lead.

ghost use Rattle.std.specs.Prelude.{◌≡◌, ◌<◌, None, length, IfErr, IfOk};
ghost use Rattle.ntfs_base.specs.Frames.{IfTold, IsSettled, OnlyReads};
ghost use Rattle.ntfs_check_directories.specs.Names as spec;
ghost use Rattle.ntfs_directory.specs.Directory.{directory_walk};
ghost use Rattle.ntfs_directory.specs.State.{IsOn, answered, left_of};
ghost use Rattle.ntfs_rules.specs.Files.{is_base_for};
ghost use Rattle.ntfs_rules.specs.Outcome.{check_origin};
ghost use Rattle.ntfs_volume.specs.Located.{sound_located};
ghost use Rattle.ntfs_volume.specs.Opened.{HasClusters};

use crate::file::file_has_name;
use crate::list::Base;
use crate::name::Sought;
use ntfs_base::Image;
use ntfs_directory::{Directory, open_directory};
use ntfs_record::{RecordView, parse};
use ntfs_rules::{CheckFault, cut_of};
use ntfs_volume::{Table, matches, target};
use std::alloc::Global;

/// A reference matches this record, which is a base record.
#[tactic(auto, unfolding(ntfs_rules::specs::Files::is_base_for))]
fn is_base_for(reference: u64, view: &RecordView<'_>) -> bool
    ensures { result ≡ is_base_for reference (sound_located view.now) }
{
    view.base() == 0 && matches(reference, target(reference), view.sequence())
}

/// A reference matches a base record in use that has the name. The record is read through a buffer of one record.
fn leads<G: Image>(
    alloc: Global,
    image: &mut G,
    table: &Table,
    sought: &Sought<'_>,
    reference: u64,
    block: &mut [u8],
) -> Result<bool, CheckFault>
    requires held { HasClusters (G.seen image.old).size table.now }
    requires sized { 0 < table.now.geometry.record_size }
    requires block { length block.old ≡ table.now.geometry.record_size }
    ensures found { IfTold G.Image image.old (λ content. IfOk result (λ is.
        is ≡ spec.leads_at table.now content sought.now reference)) }
    ensures cut { IfErr result (λ fault. IsSettled (check_origin fault) → ⊥) }
    ensures reads { OnlyReads G.Image check_origin image.old image.new result }
{
    let number = target(reference);
    match table.read_record(image, number, block) {
        Err(fault) => match cut_of(fault) {
            Some(cut) => Err(cut),
            None => Ok(false),
        },
        Ok(()) => match parse(block) {
            Err(_) => Ok(false),
            Ok(view) => {
                if !is_base_for(reference, &view) {
                    return Ok(false);
                }
                let sequence = view.sequence();
                file_has_name(
                    alloc,
                    image,
                    table,
                    sought,
                    Base { number, sequence },
                    &view,
                )
            }
        },
    }
}

/// The entries that are left of a walk of the directory of a number, which has this sequence number, lead to records
/// that have their names; up to a fault, where there is one.
fn all_rest_lead<G: Image>(
    alloc: Global,
    image: &mut G,
    table: &Table,
    directory: &mut Directory,
    number: u64,
    sequence: u16,
    block: &mut [u8],
) -> Result<bool, CheckFault>
    requires held { HasClusters (G.seen image.old).size table.now }
    requires on { IsOn table.now.geometry directory.old }
    requires sound { answered directory.old ≡ None }
    requires sized { 0 < table.now.geometry.record_size }
    requires block { length block.old ≡ table.now.geometry.record_size }
    ensures found { IfTold G.Image image.old (λ content. IfOk result (λ is. is ≡ spec.all_lead table.now content number
        sequence (left_of table.now.geometry content directory.old))) }
    ensures cut { IfErr result (λ fault. IsSettled (check_origin fault) → ⊥) }
    ensures reads { OnlyReads G.Image check_origin image.old image.new result }
{
    'entries: loop {
        match directory.next(image, table) {
            Err(fault) => {
                return match cut_of(fault) {
                    Some(cut) => Err(cut),
                    None => Ok(true),
                };
            }
            Ok(None) => return Ok(true),
            Ok(Some(entry)) => {
                let sought = Sought {
                    directory: number,
                    sequence,
                    key: directory.key(),
                };
                if !leads(alloc, image, table, &sought, entry.reference, block)? {
                    return Ok(false);
                }
            }
        }
    }
}

/// The entries of the directory of a number, which has this sequence number, lead to records that have their names.
pub(crate) fn all_lead<G: Image>(
    alloc: Global,
    image: &mut G,
    table: &Table,
    number: u64,
    sequence: u16,
    block: &mut [u8],
) -> Result<bool, CheckFault>
    requires held { HasClusters (G.seen image.old).size table.now }
    requires sized { 0 < table.now.geometry.record_size }
    requires block { length block.old ≡ table.now.geometry.record_size }
    ensures found { IfTold G.Image image.old (λ content. IfOk result (λ is. is ≡ spec.all_lead table.now content number
        sequence (directory_walk table.now.geometry table.now.map content number))) }
    ensures cut { IfErr result (λ fault. IsSettled (check_origin fault) → ⊥) }
    ensures reads { OnlyReads G.Image check_origin image.old image.new result }
{
    match open_directory(alloc, image, table, number) {
        Err(fault) => match cut_of(fault) {
            Some(cut) => Err(cut),
            None => Ok(true),
        },
        Ok(mut directory) => {
            all_rest_lead(alloc, image, table, &mut directory, number, sequence, block)
        }
    }
}
