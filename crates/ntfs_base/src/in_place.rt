//! Bytes that are put at a place of a slice, over what stood there.

ghost use Rattle.std.specs.Prelude.{◌≡◌, ◌+◌, ◌≤◌, length, replicate};
ghost use Rattle.byteorder.specs.Endian.{little_bytes};
ghost use Rattle.ntfs_base.specs.Bytes.{piece_at, overwrite as after_overwrite};

/// Puts a text at a place.
pub fn overwrite(bytes: &mut [u8], place: usize, text: &[u8])
    requires { place + length text.now ≤ length bytes.old }
    ensures { bytes.new ≡ after_overwrite place text.now bytes.old }
{
    bytes[place..place + text.len()].copy_from_slice(text);
}

/// Puts so many zeros at a place.
pub fn overwrite_zeros(bytes: &mut [u8], place: usize, count: usize)
    requires { place + count ≤ length bytes.old }
    ensures { bytes.new ≡ after_overwrite place (replicate count 0) bytes.old }
{
    bytes[place..place + count].fill(0);
}

/// Puts a number of 16 bits at a place, the lowest byte first.
pub fn overwrite_u16(bytes: &mut [u8], place: usize, number: u16)
    requires { place + 2 ≤ length bytes.old }
    ensures { bytes.new ≡ after_overwrite place (little_bytes 2 number) bytes.old }
{
    overwrite(bytes, place, &number.to_le_bytes());
}

/// Puts a number of 32 bits at a place, the lowest byte first.
pub fn overwrite_u32(bytes: &mut [u8], place: usize, number: u32)
    requires { place + 4 ≤ length bytes.old }
    ensures { bytes.new ≡ after_overwrite place (little_bytes 4 number) bytes.old }
{
    overwrite(bytes, place, &number.to_le_bytes());
}

/// Puts a number of 64 bits at a place, the lowest byte first.
pub fn overwrite_u64(bytes: &mut [u8], place: usize, number: u64)
    requires { place + 8 ≤ length bytes.old }
    ensures { bytes.new ≡ after_overwrite place (little_bytes 8 number) bytes.old }
{
    overwrite(bytes, place, &number.to_le_bytes());
}

/// Puts a piece of the bytes at another place; the two may overlap.
pub fn move_piece(bytes: &mut [u8], from: usize, count: usize, to: usize)
    requires from { from + count ≤ length bytes.old }
    requires to { to + count ≤ length bytes.old }
    ensures { bytes.new ≡ after_overwrite to (piece_at from count bytes.old) bytes.old }
{
    bytes.copy_within(from..from + count, to);
}
