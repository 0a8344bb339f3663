//! Fields of a structure on disk, and the few ways in which bytes are put behind bytes.

ghost use Rattle.std.specs.Prelude.{◌≡◌, ◌≤◌, ◌++◌, OnOk};
ghost use Rattle.byteorder.specs.Endian.{little_bytes};
ghost use Rattle.ntfs_make.specs.Fields as spec;

use byteorder::{ByteOrder, LittleEndian};
use std::alloc::AllocError;

/// A field: a number in so many bits, or so many zero bytes.
#[derive(Clone, Copy)]
pub enum Field {
    U8(u64),
    U16(u64),
    U32(u64),
    U64(u64),
    Zeros(usize),
}

// Puts so many zero bytes at the end.
#[tactic(auto, unfolding(crate::specs::Fields::zero_bytes))]
pub(crate) fn put_zeros(out: &mut Vec<u8>, count: usize) -> Result<(), AllocError>
    ensures { OnOk result (out.new.items ≡ out.old.items ++ spec.zero_bytes count) }
{
    'zeros: for place in 0..count {
        out.push(0)?;
    }
    Ok(())
}

// Puts the lowest bytes of a number at the end, the lowest first.
fn put_number(out: &mut Vec<u8>, size: usize, number: u64) -> Result<(), AllocError>
    requires { size ≤ 8 }
    ensures { OnOk result (out.new.items ≡ out.old.items ++ little_bytes size number) }
{
    let mut bytes = [0; 8];
    LittleEndian::write_u64(&mut bytes, number);
    out.extend_from_slice(&bytes[..size])
}

fn put_field(out: &mut Vec<u8>, field: Field) -> Result<(), AllocError>
    ensures { OnOk result (out.new.items ≡ out.old.items ++ spec.field_bytes field) }
{
    match field {
        Field::U8(number) => put_number(out, 1, number),
        Field::U16(number) => put_number(out, 2, number),
        Field::U32(number) => put_number(out, 4, number),
        Field::U64(number) => put_number(out, 8, number),
        Field::Zeros(count) => put_zeros(out, count),
    }
}

// Puts the fields at the end, one after the other.
#[tactic(auto, unfolding(crate::specs::Fields::fields_bytes))]
pub(crate) fn put_fields(out: &mut Vec<u8>, fields: &[Field]) -> Result<(), AllocError>
    ensures { OnOk result (out.new.items ≡ out.old.items ++ spec.fields_bytes fields.now) }
{
    'fields: for field in fields {
        put_field(out, *field)?;
    }
    Ok(())
}

// Puts zeros at the end, up to a multiple of 8.
#[tactic(auto, unfolding(crate::specs::Fields::with_padding))]
pub(crate) fn pad(out: &mut Vec<u8>) -> Result<(), AllocError>
    ensures { OnOk result (out.new.items ≡ spec.with_padding out.old.items) }
{
    let count = (8 - out.len() % 8) % 8;
    put_zeros(out, count)
}

// Cuts the bytes to a size, or puts zeros at their end up to it.
#[tactic(auto, unfolding(crate::specs::Fields::with_length))]
pub(crate) fn cut_or_fill(out: &mut Vec<u8>, size: usize) -> Result<(), AllocError>
    ensures { OnOk result (out.new.items ≡ spec.with_length size out.old.items) }
{
    out.truncate(size);
    let count = size - out.len();
    put_zeros(out, count)
}

// Puts a text of ASCII at the end, in UTF-16LE.
#[tactic(auto, unfolding(crate::specs::Fields::utf16_bytes))]
pub(crate) fn put_letters(out: &mut Vec<u8>, letters: &[u8]) -> Result<(), AllocError>
    ensures { OnOk result (out.new.items ≡ out.old.items ++ spec.utf16_bytes letters.now) }
{
    'letters: for letter in letters {
        put_number(out, 2, u64::from(*letter))?;
    }
    Ok(())
}
