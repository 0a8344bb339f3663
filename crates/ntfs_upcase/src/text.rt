// The text of a name, and the name of a text.
ghost use Rattle.std.specs.Prelude.{◌≡◌, ◌++◌, IfOk, OnOk};
ghost use Rattle.std.specs.String.{string_bytes};
ghost use Rattle.std.specs.Char.Escape.{encode_utf16};
ghost use Rattle.ntfs_upcase.specs.Names.{text_bytes, name_bytes, unit_bytes};

use crate::unit::unit_list;
use std::alloc::{AllocError, Global};

/// The text that a name spells, with U+FFFD for each surrogate that has no partner.
#[tactic(auto, unfolding(crate::specs::Names::text_bytes))]
pub fn text_of(alloc: Global, name: &[u8]) -> Result<String, AllocError>
    ensures { IfOk result (λ text. string_bytes text ≡ text_bytes name.now) }
{
    let units = unit_list(alloc, name)?;
    String::from_utf16_lossy(alloc, &units)
}

/// The bytes of the name that a text spells: its characters in UTF-16LE.
pub fn units_of(alloc: Global, text: &str) -> Result<Vec<u8>, AllocError>
    ensures { IfOk result (λ name. name.items ≡ name_bytes text.now) }
{
    let mut name = Vec::with_capacity(alloc, text.len())?;
    'characters: for character in text.chars() {
        push_character(&mut name, character)?;
    }
    Ok(name)
}

// Writes the one or two units of a character behind the name.
fn push_character(name: &mut Vec<u8>, character: char) -> Result<(), AllocError>
    ensures { OnOk result (name.new.items ≡ name.old.items ++ unit_bytes (encode_utf16 character)) }
{
    let mut units = [0u16; 2];
    let spelled: &[u16] = character.encode_utf16(&mut units);
    'units: for unit in spelled {
        name.extend_from_slice(&unit.to_le_bytes())?;
    }
    Ok(())
}
