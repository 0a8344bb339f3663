//! Unfixing: the test of all strides, and then the true bytes at their ends.

ghost use Rattle.std.specs.Prelude.{◌≡◌, ◌↔◌, ℕ, ◌%◌, ◌<◌, length, slice_index, IsOk, OnOk, OnErr, MatchResult};
ghost use Rattle.ntfs_fixup.specs.Fixups.{HasWholeStrides, HasRoom, HasFront, KeepsFront, AllAgree, Refuses, array_offset, first_torn, unfix_byte, unfix_of};
ghost use Rattle.ntfs_fixup.specs.declared.unfixing.FixFault.{FixFault};

use crate::header::{Magic, array_offset, has_good_array, has_magic, last_word, sequence_number};

/// Why a block is refused.
#[derive(Clone, Copy, Debug, PartialEq, Eq)]
pub enum FixFault {
    /// It doesn't begin with the magic.
    NoMagic,
    /// Its update sequence array isn't good.
    BadArray,
    /// The first stride, counted from 0, that doesn't end with the update sequence number.
    Torn { stride: u32 },
}

// The first stride that doesn't end with the update sequence number.
fn first_torn(block: &[u8], offset: usize) -> Option<u32>
    requires block { HasWholeStrides block.now }
    requires array { offset ≡ array_offset block.now }
    requires room { HasRoom block.now }
    ensures { result ≡ first_torn block.now }
{
    let number = sequence_number(block, offset);
    'tested: for stride in 0..block.len() / 512 {
        if last_word(block, stride) != number {
            return Some(stride as u32);
        }
    }
    None
}

// Puts the saved bytes at the ends of all strides.
fn restore(block: &mut [u8], offset: usize)
    requires block { HasWholeStrides block.old }
    requires array { offset ≡ array_offset block.old }
    requires room { HasRoom block.old }
    ensures { (p : ℕ) → p < length block.old → slice_index block.new p ≡ unfix_byte block.old p }
{
    'strides: for stride in 0..block.len() / 512 {
        let saved = offset + 2 * (stride + 1);
        let last = 512 * stride + 510;
        block[last] = block[saved];
        block[last + 1] = block[saved + 1];
    }
}

// The whole of `unfix`, by its one definition.
fn unfix_exactly(block: &mut [u8], magic: Magic) -> Result<(), FixFault>
    requires { HasWholeStrides block.old }
    ensures exact { MatchResult result (λ _. unfix_of magic block.old ≡ Ok block.new)
        (λ fault. unfix_of magic block.old ≡ Err fault) }
    ensures kept { OnErr result (block.new ≡ block.old) }
{
    if !has_magic(block, magic) {
        return Err(FixFault::NoMagic);
    }
    if !has_good_array(block, magic) {
        return Err(FixFault::BadArray);
    }
    let offset = array_offset(block);
    if let Some(stride) = first_torn(block, offset) {
        return Err(FixFault::Torn { stride });
    }
    restore(block, offset);
    Ok(())
}

/// Tests a block, and where it is whole puts the true bytes at the ends of its strides.
pub fn unfix(block: &mut [u8], magic: Magic) -> Result<(), FixFault>
    requires { HasWholeStrides block.old }
    ensures exact { MatchResult result (λ _. unfix_of magic block.old ≡ Ok block.new)
        (λ fault. unfix_of magic block.old ≡ Err fault) }

    // Each fault has its cause, and comes exactly where that stands.
    ensures refused { (fault : FixFault) → (result ≡ Err fault) ↔ Refuses magic block.old fault }
    ensures whole { IsOk result ↔ (HasFront magic block.old × AllAgree block.old) }
    ensures kept { OnErr result (block.new ≡ block.old) }

    // The last two bytes of each stride are the saved ones, and the others stay, with all bytes before the array.
    ensures bytes { OnOk result ((p : ℕ) → p < length block.old →
        slice_index block.new p ≡ unfix_byte block.old p) }
    ensures others { OnOk result ((p : ℕ) → p % 512 < 510 →
        slice_index block.new p ≡ slice_index block.old p) }
    ensures keeps { OnOk result (KeepsFront block.old block.new) }
    ensures front { OnOk result (HasFront magic block.new) }
{
    unfix_exactly(block, magic)
}
