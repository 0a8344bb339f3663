//! The attributes of a record.

ghost use Rattle.std.specs.Prelude.{◌≡◌, ◌++◌, OnOk, IfOk, map};
ghost use Rattle.ntfs_make.specs.Table.{attribute_value, body_value};
ghost use Rattle.ntfs_make.specs.Attributes as spec;

use crate::extent::{put_pairs, run_of, size_bytes, vcn_count};
use crate::field::{Field, pad, put_fields, put_letters, put_zeros};
use crate::index::{put_name, put_root, reference};
use crate::layout::Layout;
use crate::table::{Attribute, AttributeBody, Extent, ListEntry, LowestVcn, Size};
use std::alloc::{AllocError, Global};

// The lowest VCN that an entry of an attribute list tells.
fn listed_lowest(layout: &Layout, lowest: LowestVcn) -> u64
    ensures { result ≡ spec.listed_lowest layout.now lowest }
{
    match lowest {
        LowestVcn::Zero => 0,
        LowestVcn::Behind(number) => layout.area(number).length,
    }
}

// Puts an entry of an attribute list.
#[tactic(auto, unfolding(crate::specs::Attributes::list_entry_bytes))]
fn put_list_entry(out: &mut Vec<u8>, layout: &Layout, entry: &ListEntry) -> Result<(), AllocError>
    ensures { OnOk result (out.new.items ≡ out.old.items ++ spec.list_entry_bytes layout.now entry.now) }
{
    put_fields(
        out,
        &[
            Field::U32(u64::from(entry.kind)), // 0x00 type
            Field::U16(32), // 0x04 length
            Field::U8(0), // 0x06 name_length
            Field::U8(26), // 0x07 name_offset
            Field::U64(listed_lowest(layout, entry.lowest)), // 0x08 lowest_vcn
            Field::U64(reference(entry.number)), // 0x10 mft_reference
            Field::U16(u64::from(entry.instance)), // 0x18 instance
            Field::Zeros(6), // 0x1A
        ],
    )
}

// Puts the entries of an attribute list.
#[tactic(auto, unfolding(crate::specs::Attributes::list_bytes))]
fn put_list(out: &mut Vec<u8>, layout: &Layout, list: &[ListEntry]) -> Result<(), AllocError>
    ensures { OnOk result (out.new.items ≡ out.old.items ++ spec.list_bytes layout.now list.now) }
{
    'entries: for entry in list {
        put_list_entry(out, layout, entry)?;
    }
    Ok(())
}

// A resident value; an extent has none.
#[tactic(auto, unfolding(crate::specs::Attributes::value_of))]
fn value_of(alloc: Global, layout: &Layout, body: &AttributeBody) -> Result<Vec<u8>, AllocError>
    ensures { IfOk result (λ value. value.items ≡ spec.value_of layout.now (body_value body.now)) }
{
    let mut value = Vec::new(alloc);
    match body {
        AttributeBody::Zeros(count) => put_zeros(&mut value, *count)?,
        AttributeBody::Bytes(bytes) => value.extend_from_slice(bytes)?,
        AttributeBody::List(list) => put_list(&mut value, layout, list)?,
        AttributeBody::Name(name) => put_name(&mut value, name)?,
        AttributeBody::Root(root) => put_root(alloc, &mut value, layout, root)?,
        AttributeBody::Extent(_) => {}
    }
    Ok(value)
}

// Puts an attribute with a resident value.
#[tactic(auto, unfolding(crate::specs::Attributes::resident_bytes))]
fn put_resident(
    alloc: Global,
    out: &mut Vec<u8>,
    kind: u32,
    name: &[u8],
    instance: u64,
    value: &[u8],
) -> Result<(), AllocError>
    ensures { OnOk result (out.new.items ≡ out.old.items ++ spec.resident_bytes kind name.now instance value.now) }
{
    let mut body = Vec::new(alloc);
    put_letters(&mut body, name)?;
    pad(&mut body)?;
    let place = 24 + body.len() as u64;
    body.extend_from_slice(value)?;
    pad(&mut body)?;
    put_fields(
        out,
        &[
            Field::U32(u64::from(kind)), // 0x00 type
            Field::U32(24 + body.len() as u64), // 0x04 length
            Field::U8(0), // 0x08 non_resident
            Field::U8(name.len() as u64), // 0x09 name_length
            Field::U16(24), // 0x0A name_offset
            Field::U16(0), // 0x0C flags
            Field::U16(instance), // 0x0E instance
            Field::U32(value.len() as u64), // 0x10 value_length
            Field::U16(place), // 0x14 value_offset
            Field::U16(0), // 0x16 resident_flags, reserved
        ],
    )?;
    out.extend_from_slice(&body)
}

// Puts the bytes of the extent's clusters, where the extent tells them.
#[tactic(auto, unfolding(crate::specs::Attributes::compressed_size_bytes))]
fn put_compressed_size(
    out: &mut Vec<u8>,
    layout: &Layout,
    compressed_size: Option<Size>,
) -> Result<(), AllocError>
    ensures { OnOk result (out.new.items ≡ out.old.items ++ spec.compressed_size_bytes layout.now compressed_size) }
{
    match compressed_size {
        Some(size) => put_fields(out, &[Field::U64(size_bytes(layout, size))]),
        None => Ok(()),
    }
}

// The bytes of all VCNs of the stream; an extent that isn't the first tells none.
#[tactic(auto, unfolding(crate::specs::Attributes::allocated_size_of))]
fn allocated_size_of(layout: &Layout, extent: &Extent) -> u64
    ensures { result ≡ spec.allocated_size_of layout.now extent.now }
{
    if run_of(layout, extent.before).length == 0 {
        (vcn_count(layout, extent) + run_of(layout, extent.behind).length) * layout.shape().cluster
    } else {
        0
    }
}

// What stands behind the fields of an attribute in clusters, and where its mapping pairs begin.
#[derive(Drop)]
struct Tail {
    bytes: Vec<u8>,
    place: u64,
}

// The name and the mapping pairs of an attribute in clusters.
#[tactic(auto, unfolding(crate::specs::Attributes::tail_bytes, crate::specs::Attributes::front_bytes))]
fn tail_of(alloc: Global, layout: &Layout, name: &[u8], extent: &Extent) -> Result<Tail, AllocError>
    ensures bytes { IfOk result (λ tail. tail.bytes.items ≡ spec.tail_bytes layout.now name.now extent.now) }
    ensures place { IfOk result (λ tail. tail.place ≡ spec.pairs_place layout.now name.now extent.now) }
{
    let mut bytes = Vec::new(alloc);
    put_compressed_size(&mut bytes, layout, extent.compressed_size)?;
    let mut letters = Vec::new(alloc);
    put_letters(&mut letters, name)?;
    pad(&mut letters)?;
    bytes.extend_from_slice(&letters)?;
    let place = 64 + bytes.len() as u64;
    put_pairs(alloc, &mut bytes, layout, extent)?;
    pad(&mut bytes)?;
    Ok(Tail { bytes, place })
}

// Puts the fields that tell an extent's VCNs and its stream's sizes.
#[tactic(auto, unfolding(crate::specs::Attributes::sizes_bytes))]
fn put_sizes(
    out: &mut Vec<u8>,
    layout: &Layout,
    place: u64,
    extent: &Extent,
) -> Result<(), AllocError>
    ensures { OnOk result (out.new.items ≡ out.old.items ++ spec.sizes_bytes layout.now place extent.now) }
{
    let lowest = run_of(layout, extent.before).length;
    let next = lowest + vcn_count(layout, extent);
    put_fields(
        out,
        &[
            Field::U64(lowest), // 0x10 lowest_vcn
            Field::U64(next.wrapping_sub(1)), // 0x18 highest_vcn
            Field::U16(place), // 0x20 mapping_pairs_offset
            Field::U16(u64::from(extent.unit)), // 0x22 compression_unit
            Field::U32(0), // 0x24 reserved
            Field::U64(allocated_size_of(layout, extent)), // 0x28 allocated_size
            Field::U64(size_bytes(layout, extent.size)), // 0x30 data_size
            Field::U64(size_bytes(layout, extent.initialised)), // 0x38 initialized_size
        ],
    )
}

// Puts an attribute in clusters.
#[tactic(auto, unfolding(crate::specs::Attributes::nonresident_bytes))]
fn put_extent(
    alloc: Global,
    out: &mut Vec<u8>,
    layout: &Layout,
    attribute: &Attribute,
    instance: u64,
    extent: &Extent,
) -> Result<(), AllocError>
    ensures { OnOk result (out.new.items ≡ out.old.items
        ++ spec.nonresident_bytes layout.now attribute.now.kind attribute.now.name.now instance extent.now) }
{
    let tail = tail_of(alloc, layout, attribute.name, extent)?;
    put_fields(
        out,
        &[
            Field::U32(u64::from(attribute.kind)), // 0x00 type
            Field::U32(64 + tail.bytes.len() as u64), // 0x04 length
            Field::U8(1), // 0x08 non_resident
            Field::U8(attribute.name.len() as u64), // 0x09 name_length
            Field::U16(64), // 0x0A name_offset
            Field::U16(u64::from(extent.flags)), // 0x0C flags
            Field::U16(instance), // 0x0E instance
        ],
    )?;
    put_sizes(out, layout, tail.place, extent)?;
    out.extend_from_slice(&tail.bytes)
}

// Puts an attribute.
#[tactic(auto, unfolding(crate::specs::Attributes::attribute_bytes))]
fn put_attribute(
    alloc: Global,
    out: &mut Vec<u8>,
    layout: &Layout,
    instance: u64,
    attribute: &Attribute,
) -> Result<(), AllocError>
    ensures { OnOk result (out.new.items ≡ out.old.items
        ++ spec.attribute_bytes layout.now instance (attribute_value attribute.now)) }
{
    if let AttributeBody::Extent(extent) = &attribute.body {
        return put_extent(alloc, out, layout, attribute, instance, extent);
    }
    let value = value_of(alloc, layout, &attribute.body)?;
    put_resident(alloc, out, attribute.kind, attribute.name, instance, &value)
}

// Puts the attributes of a record, whose instances are numbered from 0.
pub(crate) fn put_attributes(
    alloc: Global,
    out: &mut Vec<u8>,
    layout: &Layout,
    attributes: &[Attribute],
) -> Result<(), AllocError>
    ensures { OnOk result (out.new.items ≡ out.old.items
        ++ spec.attributes_bytes layout.now 0 (map attribute_value attributes.now)) }
{
    let mut instance = 0;
    'attributes: for attribute in attributes {
        put_attribute(alloc, out, layout, instance, attribute)?;
        instance += 1;
    }
    Ok(())
}
