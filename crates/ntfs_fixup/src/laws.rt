//! Laws of unfixing and refixing: each function does nothing, and its contract holds of every block.

ghost use Rattle.std.specs.Prelude.{◌≡◌, IsTrue};
ghost use Rattle.std.specs.Result.{IsOkAnd};
ghost use Rattle.ntfs_fixup.specs.Fixups.{HasWholeStrides, HasFront, AllAgree, SameOutsideArray, has_good_array, refix_of, unfix_block, unfix_of};

use crate::header::Magic;

/// All strides of a refixed block agree, and unfixing it gives back the block that stood there, but for the array's
/// own bytes.
pub fn unfix_after_refix(block: &[u8])
    requires block { HasWholeStrides block.now }
    requires array { IsTrue (has_good_array Magic.Indx block.now) }
    ensures agree { AllAgree (refix_of block.now) }
    ensures back { SameOutsideArray block.now (unfix_block (refix_of block.now)) }
{}

/// A block that begins with a magic and has an array good for it is accepted under that magic once it is refixed: a
/// good `FILE` block under `FILE`, an `INDX` block under `INDX`.
pub fn unfix_accepts_refixed(block: &[u8], magic: Magic)
    requires block { HasWholeStrides block.now }
    requires front { HasFront magic block.now }
    ensures accepted { unfix_of magic (refix_of block.now) ≡ Ok (unfix_block (refix_of block.now)) }
    ensures back { IsOkAnd (unfix_of magic (refix_of block.now)) (SameOutsideArray block.now) }
{}

/// An array that is good for a file record is good for an index block, so that `refix` takes it.
pub fn any_good_array_is_taken(block: &[u8], magic: Magic)
    requires { IsTrue (has_good_array magic block.now) }
    ensures { IsTrue (has_good_array Magic.Indx block.now) }
{}
