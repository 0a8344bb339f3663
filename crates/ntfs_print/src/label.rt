//! An attribute's type and its name, as they stand in a line.

ghost use Rattle.std.specs.Prelude.{◌≡◌, IfOk};
ghost use Rattle.std.specs.String.{string_bytes};
ghost use Rattle.ntfs_print.specs.Label.{kind_and_name};

use ntfs_upcase::text_of;
use std::alloc::{AllocError, Global};

/// The type of an attribute in lower-case hexadecimal digits without leading zeros, and its name between quotes, as in
/// `0x80 "NAME"`. The name is in UTF-16LE, and each surrogate in it that has no partner is shown as U+FFFD.
#[tactic(auto, unfolding(crate::specs::Label::kind_and_name))]
pub fn kind_and_name(alloc: Global, kind: u32, name: &[u8]) -> Result<String, AllocError>
    ensures { IfOk result (λ text. string_bytes text ≡ kind_and_name kind name.now) }
{
    let text = text_of(alloc, name)?;
    format!(in alloc; "0x{kind:x} \"{text}\"")
}
