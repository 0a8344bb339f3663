//! The line of an entry of a directory.

ghost use Rattle.std.specs.Prelude.{◌≡◌, ◌++◌, OnOk};
ghost use Rattle.ntfs_directory.specs.Entries.{key_name};
ghost use Rattle.ntfs_print.specs.Numbers.{line_end};
ghost use Rattle.ntfs_show.specs.Listing.{entry_line, entry_path, kind_text, number_text};
ghost use Rattle.ntfs_upcase.specs.Names.{text_bytes};

use crate::list_options::ListOptions;
use ntfs_directory::name_in_key;
use ntfs_upcase::text_of;
use std::alloc::{AllocError, Global};

/// Begins a line with the number of an entry's record, where numbers are asked for.
#[tactic(auto, unfolding(crate::specs::Listing::number_text))]
fn begin_line(line: &mut Vec<u8>, options: ListOptions, number: u64) -> Result<(), AllocError>
    ensures { OnOk result (line.new.items ≡ number_text options number) }
{
    line.clear();
    if options.numbers {
        let mut digits = itoa::Buffer::new();
        line.extend_from_slice(digits.format(number).as_bytes())?;
        line.push(b' ')?;
    }
    Ok(())
}

/// Appends the name in a key, in UTF-8.
pub(crate) fn push_name(alloc: Global, text: &mut Vec<u8>, key: &[u8]) -> Result<(), AllocError>
    ensures { OnOk result (text.new.items ≡ text.old.items ++ text_bytes (key_name key.now)) }
{
    let name = text_of(alloc, name_in_key(key))?;
    text.extend_from_slice(name.as_bytes())
}

/// Appends the path of an entry.
fn push_path(alloc: Global, text: &mut Vec<u8>, front: &[u8], key: &[u8]) -> Result<(), AllocError>
    ensures { OnOk result (text.new.items ≡ text.old.items ++ entry_path front.now key.now) }
{
    text.extend_from_slice(front)?;
    push_name(alloc, text, key)
}

/// Ends a line, with a slash where it is that of a directory and kinds are asked for.
#[tactic(auto, unfolding(crate::specs::Listing::kind_text))]
fn end_line(line: &mut Vec<u8>, options: ListOptions, is_directory: bool) -> Result<(), AllocError>
    ensures { OnOk result (line.new.items ≡ line.old.items ++ (kind_text options is_directory ++ line_end)) }
{
    if options.classify && is_directory {
        line.push(b'/')?;
    }
    line.push(b'\n')?;
    Ok(())
}

/// Builds the line of an entry in place of the last one.
#[tactic(auto, unfolding(crate::specs::Listing::entry_line))]
pub(crate) fn build_line(
    alloc: Global,
    line: &mut Vec<u8>,
    options: ListOptions,
    number: u64,
    front: &[u8],
    key: &[u8],
    is_directory: bool,
) -> Result<(), AllocError>
    ensures { OnOk result (line.new.items
        ≡ entry_line options number (entry_path front.now key.now) is_directory) }
{
    begin_line(line, options, number)?;
    push_path(alloc, line, front, key)?;
    end_line(line, options, is_directory)
}
