// The units of a name.
ghost use Rattle.std.specs.Prelude.{◌≡◌, ◌+◌, [], ◌∷◌, length, IfOk, IfSome, IfNone};
ghost use Rattle.ntfs_upcase.specs.Names.{units};

use byteorder::{ByteOrder, LittleEndian};
use std::alloc::{AllocError, Global};

// The first unit and the bytes behind it, where two bytes are left.
#[inline]
pub(crate) fn first_unit(bytes: &[u8]) -> Option<(u16, &[u8])>
    ensures none { IfNone result (units bytes.now ≡ []) }
    ensures unit { IfSome result (λ first. units bytes.now ≡ first.0 ∷ units first.1.now) }
    ensures shorter { IfSome result (λ first. length first.1.now + 2 ≡ length bytes.now) }
{
    if bytes.len() < 2 {
        return None;
    }
    let (unit, rest) = bytes.split_at(2);
    Some((LittleEndian::read_u16(unit), rest))
}

// All units of the bytes, in a list of just their length.
pub(crate) fn unit_list(alloc: Global, bytes: &[u8]) -> Result<Vec<u16>, AllocError>
    ensures { IfOk result (λ list. list.items ≡ units bytes.now) }
{
    let mut list = Vec::with_capacity(alloc, bytes.len() / 2)?;
    let mut left = bytes;
    'units: while let Some((unit, rest)) = first_unit(left) {
        list.push(unit)?;
        left = rest;
    }
    Ok(list)
}
