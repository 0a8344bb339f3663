//! Refixing: the ends of the strides saved in the array, and the next number in their place.

ghost use Rattle.std.specs.Prelude.{◌≡◌, IsTrue, ℕ, ◌+◌, ◌*◌, ◌/◌, ◌%◌, ◌<◌, ◌≤◌, length, slice_index, slice_set};
ghost use Rattle.std.specs.Int.{byte_at};
ghost use Rattle.ntfs_fixup.specs.Fixups.{HasWholeStrides, HasRoom, array_offset, stride_count, has_good_array, sequence_number, AllAgree, HasFront, KeepsFront, IsOutsideArray, next_number, refix_byte, refix_of};
ghost use Rattle.ntfs_fixup.specs.declared.header.Magic.{Magic};

use crate::header::{Magic, array_offset, sequence_number};
use byteorder::{ByteOrder, LittleEndian};

// The number after an update sequence number.
#[tactic(auto, using(std::proofs::lemmas::Bool::Decides::nat_tests), unfolding(crate::specs::Fixups::next_number))]
fn next_number(number: u16) -> u16
    ensures { result ≡ next_number number }
{
    let raised = number.wrapping_add(1);
    if raised == 0 || raised == 0xFFFF {
        1
    } else {
        raised
    }
}

// Puts a word at a place.
fn put_word(block: &mut [u8], place: usize, word: u16)
    requires { place + 2 ≤ length block.old }
    ensures { let first = slice_set block.old place (byte_at 0 word) in
        block.new ≡ slice_set first (place + 1) (byte_at 1 word) }
{
    LittleEndian::write_u16(&mut block[place..], word);
}

// Saves the ends of all strides in the array.
fn save(block: &mut [u8], offset: usize)
    requires block { HasWholeStrides block.old }
    requires array { offset ≡ array_offset block.old }
    requires room { HasRoom block.old }
    ensures saved { (k i : ℕ) → k < stride_count block.old → i < 2 →
        slice_index block.new (offset + 2 * (k + 1) + i) ≡ slice_index block.old (512 * k + 510 + i) }
    ensures before { (p : ℕ) → p < offset + 2 → slice_index block.new p ≡ slice_index block.old p }
    ensures behind { (p : ℕ) → offset + 2 * (stride_count block.old + 1) ≤ p →
        slice_index block.new p ≡ slice_index block.old p }
{
    'saved: for stride in 0..block.len() / 512 {
        let saved = offset + 2 * (stride + 1);
        let last = 512 * stride + 510;
        block[saved] = block[last];
        block[saved + 1] = block[last + 1];
    }
}

// Puts the number at the end of each stride.
fn mark(block: &mut [u8], number: u16)
    requires { HasWholeStrides block.old }
    ensures ends { (k i : ℕ) → k < stride_count block.old → i < 2 →
        slice_index block.new (512 * k + 510 + i) ≡ byte_at i number }
    ensures others { (p : ℕ) → p % 512 < 510 → slice_index block.new p ≡ slice_index block.old p }
{
    'strides: for stride in 0..block.len() / 512 {
        put_word(block, 512 * stride + 510, number);
    }
}

/// Raises the update sequence number, saves the ends of the strides in the array and puts the number there.
pub fn refix(block: &mut [u8])
    requires block { HasWholeStrides block.old }
    requires array { IsTrue (has_good_array Magic.Indx block.old) }
    ensures exact { block.new ≡ refix_of block.old }
    ensures bytes { (p : ℕ) → p < length block.old → slice_index block.new p ≡ refix_byte block.old p }
    ensures number { sequence_number block.new ≡ next_number (sequence_number block.old) }
    ensures agree { AllAgree block.new }

    // What is neither a stride's end nor in the array stays, and so do all bytes before the array.
    ensures others { (p : ℕ) → p % 512 < 510 → IsOutsideArray block.old p →
        slice_index block.new p ≡ slice_index block.old p }
    ensures keeps { KeepsFront block.old block.new }
    ensures front { (magic : Magic) → HasFront magic block.old → HasFront magic block.new }
{
    let offset = array_offset(block);
    let number = next_number(sequence_number(block, offset));
    save(block, offset);
    mark(block, number);
    put_word(block, offset, number);
}
