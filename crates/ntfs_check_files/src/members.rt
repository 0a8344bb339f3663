//! The attributes of a file, from all its records.

ghost use Rattle.std.specs.Prelude.{◌≡◌, ◌==◌, ◌&&◌, ◌++◌, true, false, map, IfErr, IfOk, OnOk};
ghost use Rattle.ntfs_base.specs.Bytes.{cluster_at};
ghost use Rattle.ntfs_base.specs.Frames.{IfTold, IsSettled, OnlyReads};
ghost use Rattle.ntfs_check_records.specs.Reading.{records_of};
ghost use Rattle.ntfs_check_files.specs.Members.{members_in, members_said, shown_member, told_member};
ghost use Rattle.ntfs_record.specs.Views.{shown_body, shown_view};
ghost use Rattle.ntfs_rules.specs.Outcome.{check_origin};
ghost use Rattle.ntfs_volume.specs.Opened.{HasClusters};

use ntfs_base::Image;
use ntfs_check_records::read_sound;
use ntfs_record::{AttributeView, Body, RecordView};
use ntfs_rules::CheckFault;
use ntfs_volume::Table;
use std::alloc::{AllocError, Global};

/// An attribute: the number and the sequence number of its record, and what tells it from others there.
#[derive(Drop)]
pub(crate) struct Attribute {
    pub(crate) number: u64,
    pub(crate) sequence: u16,
    pub(crate) kind: u32,
    pub(crate) name: Vec<u8>,
    pub(crate) lowest: u64,
    pub(crate) instance: u16,
}

fn lowest_of(body: &Body<'_>) -> u64
    ensures { result ≡ (shown_body body.now).lowest }
{
    match body {
        Body::Resident { .. } => 0,
        Body::Runs { lowest, .. } => *lowest,
    }
}

/// An attribute of the record of a number.
fn attribute_of(
    alloc: Global,
    number: u64,
    sequence: u16,
    view: &AttributeView<'_>,
) -> Result<Attribute, AllocError>
    ensures { IfOk result (λ m. told_member m ≡ shown_member number sequence (shown_view view.now)) }
{
    let name = Vec::from_slice(alloc, view.name)?;
    Ok(Attribute {
        number,
        sequence,
        kind: view.kind,
        name,
        lowest: lowest_of(&view.body),
        instance: view.instance,
    })
}

/// An attribute is the first that is a list, where such a one is skipped.
fn is_skipped(skips: bool, view: &AttributeView<'_>) -> bool
    ensures { result ≡ (skips && (view.now.kind == 0x20)) }
{
    skips && view.kind == 0x20
}

/// Keeps the attributes of the record of a number, where it skips without the first that is a list.
fn keep_attributes(
    alloc: Global,
    number: u64,
    view: &RecordView<'_>,
    skips: bool,
    kept: &mut Vec<Attribute>,
) -> Result<(), AllocError>
    ensures { OnOk result (map told_member kept.new.items
        ≡ map told_member kept.old.items ++ members_said skips number view.now) }
{
    let sequence = view.sequence();
    let mut skipping = skips;
    'attributes: for attribute in view.attributes() {
        if is_skipped(skipping, &attribute) {
            skipping = false;
        } else {
            let member = attribute_of(alloc, number, sequence, &attribute)?;
            kept.push(member)?;
        }
    }
    Ok(())
}

/// The attributes of a base record but the list, and those of the records that extend it.
pub(crate) fn keep_file<G: Image>(
    alloc: Global,
    image: &mut G,
    table: &Table,
    number: u64,
    view: &RecordView<'_>,
    numbers: &[u64],
) -> Result<Vec<Attribute>, CheckFault>
    requires held { HasClusters (G.seen image.old).size table.now }
    ensures kept { IfTold G.Image image.old (λ content. IfOk result (λ kept. map told_member kept.items
        ≡ members_said true number view.now
        ++ members_in (records_of table.now (cluster_at content table.now.geometry.cluster)) numbers.now)) }
    ensures cut { IfErr result (λ fault. IsSettled (check_origin fault) → ⊥) }
    ensures reads { OnlyReads G.Image check_origin image.old image.new result }
{
    let mut kept = Vec::new(alloc);
    keep_attributes(alloc, number, view, true, &mut kept)?;
    if let Err(fault) = keep_extensions(alloc, image, table, numbers, &mut kept) {
        return Err(fault);
    }
    Ok(kept)
}

/// Keeps the attributes of these records.
fn keep_extensions<G: Image>(
    alloc: Global,
    image: &mut G,
    table: &Table,
    numbers: &[u64],
    kept: &mut Vec<Attribute>,
) -> Result<(), CheckFault>
    requires held { HasClusters (G.seen image.old).size table.now }
    ensures kept { IfTold G.Image image.old (λ content. OnOk result (map told_member kept.new.items
        ≡ map told_member kept.old.items
        ++ members_in (records_of table.now (cluster_at content table.now.geometry.cluster)) numbers.now)) }
    ensures cut { IfErr result (λ fault. IsSettled (check_origin fault) → ⊥) }
    ensures reads { OnlyReads G.Image check_origin image.old image.new result }
{
    let mut block = vec![in alloc; 0; table.geometry().record_size as usize]?;
    'numbers: for number in numbers {
        if let Err(fault) = keep_extension(alloc, image, table, *number, &mut block, kept) {
            return Err(fault);
        }
    }
    Ok(())
}

ghost use Rattle.std.specs.Prelude.{length};
ghost use Rattle.ntfs_check_files.specs.Members.{members_read};
ghost use Rattle.ntfs_fixup.specs.Fixups.{HasWholeStrides};
ghost use Rattle.ntfs_volume.specs.Located.{slot_at};

/// Keeps the attributes of the record of a number.
fn keep_extension<G: Image>(
    alloc: Global,
    image: &mut G,
    table: &Table,
    number: u64,
    block: &mut [u8],
    kept: &mut Vec<Attribute>,
) -> Result<(), CheckFault>
    requires held { HasClusters (G.seen image.old).size table.now }
    requires block { length block.old ≡ table.now.geometry.record_size }
    requires strides { HasWholeStrides block.old }
    ensures kept { IfTold G.Image image.old (λ content. OnOk result (map told_member kept.new.items
        ≡ map told_member kept.old.items ++ members_read number
        (slot_at (records_of table.now (cluster_at content table.now.geometry.cluster)) number))) }
    ensures long { length block.new ≡ length block.old }
    ensures cut { IfErr result (λ fault. IsSettled (check_origin fault) → ⊥) }
    ensures reads { OnlyReads G.Image check_origin image.old image.new result }
{
    match read_sound(image, table, number, block) {
        Err(fault) => Err(fault),
        Ok(None) => Ok(()),
        Ok(Some(view)) => {
            keep_attributes(alloc, number, &view, false, kept)?;
            Ok(())
        }
    }
}
