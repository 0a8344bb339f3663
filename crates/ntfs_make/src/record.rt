//! File records.

ghost use Rattle.std.specs.Prelude.{◌≡◌, ◌++◌, ◌<◌, ◌^◌, OnOk, IfOk, map, flat_map};
ghost use Rattle.ntfs_make.specs.Table.{attribute_value, row_value};
ghost use Rattle.ntfs_make.specs.Records as spec;

use crate::attribute::put_attributes;
use crate::field::{Field, cut_or_fill, put_fields, put_zeros};
use crate::index::reference;
use crate::layout::Layout;
use crate::table::{Attribute, AttributeBody, Row};
use ntfs_fixup::refix;
use std::alloc::{AllocError, Global};

// How many names a record has.
#[tactic(auto, unfolding(crate::specs::Records::link_count))]
fn link_count(attributes: &[Attribute]) -> u64
    ensures { result ≡ spec.link_count (map attribute_value attributes.now) }
{
    let mut links = 0;
    'attributes: for attribute in attributes {
        if let AttributeBody::Name(_) = attribute.body {
            links += 1;
        }
    }
    links
}

// The base reference of a record: 0 where it is a base record itself.
fn base_reference(base: Option<u32>) -> u64
    ensures { result ≡ spec.base_reference base }
{
    match base {
        Some(record) => reference(record),
        None => 0,
    }
}

// Puts the header of a record whose attributes have so many bytes.
#[tactic(auto, unfolding(crate::specs::Records::header_bytes))]
fn put_header(out: &mut Vec<u8>, row: &Row, size: u64) -> Result<(), AllocError>
    requires { size < 2 ^ 63 }
    ensures { OnOk result (out.new.items ≡ out.old.items ++ spec.header_bytes (row_value row.now) size) }
{
    put_fields(
        out,
        &[
            Field::U32(0x454C_4946), // 0x00 magic
            Field::U16(0x30), // 0x04 usa_ofs
            Field::U16(3), // 0x06 usa_count
            Field::U64(0), // 0x30 the update sequence array, up to the first attribute // 0x08 lsn
            Field::U16(1), // 0x10 sequence_number
            Field::U16(link_count(row.attributes)), // 0x12 link_count
            Field::U16(0x38), // 0x14 attrs_offset
            Field::U16(u64::from(row.flags)), // 0x16 flags
            Field::U32(0x38 + size + 8), // 0x18 bytes_in_use
            Field::U32(1024), // 0x1C bytes_allocated
            Field::U64(base_reference(row.base)), // 0x20 base_mft_record
            Field::U16(row.attributes.len() as u64), // 0x28 next_attr_instance
            Field::U16(0), // 0x2A reserved
            Field::U32(u64::from(row.number)), // 0x2C mft_record_number
            Field::U64(0),
        ],
    )
}

// Puts a record in use as it is before its fixups.
#[tactic(auto, unfolding(crate::specs::Records::record_text, crate::specs::Records::end_mark))]
fn put_text(alloc: Global, out: &mut Vec<u8>, layout: &Layout, row: &Row) -> Result<(), AllocError>
    ensures { OnOk result (out.new.items ≡ out.old.items ++ spec.record_text layout.now (row_value row.now)) }
{
    let mut attributes = Vec::new(alloc);
    put_attributes(alloc, &mut attributes, layout, row.attributes)?;
    put_header(out, row, attributes.len() as u64)?;
    out.extend_from_slice(&attributes)?;
    put_fields(out, &[Field::U32(0xFFFF_FFFF), Field::U32(0)])
}

// A record.
#[tactic(auto, unfolding(crate::specs::Records::record_of_row))]
fn record_of(alloc: Global, layout: &Layout, row: &Row) -> Result<Vec<u8>, AllocError>
    ensures { IfOk result (λ bytes. bytes.items ≡ spec.record_of_row layout.now (row_value row.now)) }
{
    let mut record = Vec::with_capacity(alloc, 1024)?;
    if row.flags == 0 {
        put_zeros(&mut record, 1024)?;
    } else {
        put_text(alloc, &mut record, layout, row)?;
        cut_or_fill(&mut record, 1024)?;
        refix(&mut record);
    }
    Ok(record)
}

// Puts the records of the rows from a place on, up to another, as far as there are any.
pub(crate) fn put_records(
    alloc: Global,
    out: &mut Vec<u8>,
    layout: &Layout,
    rows: &[Row],
    first: usize,
    last: usize,
) -> Result<(), AllocError>
    ensures { OnOk result (out.new.items ≡ out.old.items
        ++ spec.records_bytes layout.now (spec.rows_between first last (map row_value rows.now))) }
{
    let end = last.min(rows.len());
    let some = &rows[first.min(end)..end];
    'rows: for row in some {
        let record = record_of(alloc, layout, row)?;
        out.extend_from_slice(&record)?;
    }
    Ok(())
}
