//! The bits of `$Bitmap`.

ghost use Rattle.std.specs.Prelude.{◌≡◌, ◌+◌, ◌*◌, ◌<◌, ◌≤◌, ℕ, length, nat_eq};
ghost use Rattle.std.specs.Int.{bit_at};
ghost use Rattle.ntfs_bitmap.specs.Bits.{bit_of, IsOtherBit};
ghost use Rattle.ntfs_bitmap.specs.Search.{FindsLeast};

/// Bit `place` of the bytes, the lowest bit of each byte first: whether it is set.
pub fn bit_of(bits: &[u8], place: u64) -> bool
    requires { place < 8 * length bits.now }
    ensures { result ≡ bit_of bits.now place }
{
    (bits[(place / 8) as usize] >> (place % 8)) & 1 == 1
}

/// The byte whose bits are all the same.
fn byte_of(bit: bool) -> u8
    ensures { (place : ℕ) → place < 8 → nat_eq (bit_at result place) 1 ≡ bit }
{
    if bit { 0xFF } else { 0 }
}

/// The first bit from `from` on, before `to`, that isn't `expected`.
pub(crate) fn first_other_bit(bits: &[u8], from: u64, to: u64, expected: bool) -> Option<u64>
    requires order { from ≤ to }
    requires within { to ≤ 8 * length bits.now }
    ensures { FindsLeast (IsOtherBit bits.now from to expected) result }
{
    let whole = byte_of(expected);
    let mut at = from;
    'bits: while at < to {
        if at % 8 == 0 && to - at >= 8 && bits[(at / 8) as usize] == whole {
            at += 8;
        } else if bit_of(bits, at) != expected {
            return Some(at);
        } else {
            at += 1;
        }
    }
    None
}
