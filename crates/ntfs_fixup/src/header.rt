//! The front of a block, and its words: the magic, and where the update sequence array lies.

ghost use Rattle.std.specs.Prelude.{◌≡◌, ◌+◌, ◌*◌, ◌≤◌, ◌<◌, ◌^◌, length};
ghost use Rattle.ntfs_base.specs.Bytes.{number_at};
ghost use Rattle.ntfs_fixup.specs.Fixups.{HasWholeStrides, magic_number, has_magic, array_offset, array_count, with_array_offset, with_array_count, least_offset, has_good_array, sequence_number, last_word};

use byteorder::{ByteOrder, LittleEndian};
use ntfs_base::in_place::overwrite_u16;

/// What a block begins with.
#[derive(Clone, Copy, Debug, PartialEq, Eq)]
pub enum Magic {
    /// `FILE`: a file record.
    File,
    /// `INDX`: an index block.
    Indx,
}

impl Magic {
    // The magic as a number of four bytes.
    #[tactic(auto, unfolding(crate::specs::Fixups::magic_number))]
    fn number(self) -> u32
        ensures { result ≡ magic_number self }
    {
        match self {
            Magic::File => 0x454C_4946,
            Magic::Indx => 0x5844_4E49,
        }
    }

    // The least offset of the update sequence array.
    #[tactic(auto, unfolding(crate::specs::Fixups::least_offset))]
    fn least_offset(self) -> usize
        ensures { result ≡ least_offset self }
    {
        match self {
            Magic::File => 0x2A,
            Magic::Indx => 0x28,
        }
    }
}

// The word at a place.
pub(crate) fn word_at(block: &[u8], place: usize) -> u16
    requires { place + 2 ≤ length block.now }
    ensures { result ≡ number_at 2 place block.now }
{
    LittleEndian::read_u16(&block[place..])
}

// Whether the block begins with the magic.
#[tactic(auto, unfolding(crate::specs::Fixups::has_magic, ntfs_base::specs::Bytes::number_at))]
pub(crate) fn has_magic(block: &[u8], magic: Magic) -> bool
    requires { HasWholeStrides block.now }
    ensures { result ≡ has_magic magic block.now }
{
    LittleEndian::read_u32(block) == magic.number()
}

/// Where the update sequence array begins: `usa_ofs`.
#[tactic(auto, unfolding(crate::specs::Fixups::array_offset))]
pub fn array_offset(block: &[u8]) -> usize
    requires { 6 ≤ length block.now }
    ensures value { result ≡ array_offset block.now }
    ensures fits { result < 2 ^ 16 }
{
    usize::from(word_at(block, 0x04))
}

/// How many words the update sequence array has: `usa_count`.
#[tactic(auto, unfolding(crate::specs::Fixups::array_count))]
pub fn array_count(block: &[u8]) -> usize
    requires { 8 ≤ length block.now }
    ensures value { result ≡ array_count block.now }
    ensures fits { result < 2 ^ 16 }
{
    usize::from(word_at(block, 0x06))
}

/// Sets where the update sequence array begins.
#[tactic(auto, unfolding(crate::specs::Fixups::with_array_offset))]
pub fn set_array_offset(block: &mut [u8], offset: u16)
    requires { 6 ≤ length block.old }
    ensures { block.new ≡ with_array_offset offset block.old }
{
    overwrite_u16(block, 0x04, offset);
}

/// Sets how many words the update sequence array has.
#[tactic(auto, unfolding(crate::specs::Fixups::with_array_count))]
pub fn set_array_count(block: &mut [u8], count: u16)
    requires { 8 ≤ length block.old }
    ensures { block.new ≡ with_array_count count block.old }
{
    overwrite_u16(block, 0x06, count);
}

// Whether the update sequence array is good for the magic.
#[tactic(auto, using(std::proofs::lemmas::Bool::Decides::nat_tests), unfolding(crate::specs::Fixups::has_good_array))]
pub(crate) fn has_good_array(block: &[u8], magic: Magic) -> bool
    requires { HasWholeStrides block.now }
    ensures { result ≡ has_good_array magic block.now }
{
    let offset = array_offset(block);
    let count = array_count(block);
    count == 1 + block.len() / 512
        && offset % 2 == 0
        && magic.least_offset() <= offset
        && offset + 2 * count <= 510
}

// The update sequence number, in an array that begins at the offset.
#[tactic(auto, unfolding(crate::specs::Fixups::sequence_number))]
pub(crate) fn sequence_number(block: &[u8], offset: usize) -> u16
    requires array { offset ≡ array_offset block.now }
    requires room { offset + 2 ≤ length block.now }
    ensures { result ≡ sequence_number block.now }
{
    word_at(block, offset)
}

// The word at the end of a stride.
#[tactic(auto, unfolding(crate::specs::Fixups::last_word))]
pub(crate) fn last_word(block: &[u8], stride: usize) -> u16
    requires { 512 * stride + 512 ≤ length block.now }
    ensures { result ≡ last_word block.now stride }
{
    word_at(block, 512 * stride + 510)
}
