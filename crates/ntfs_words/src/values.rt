//! Values of options, and the refusals of lines that a command takes.
ghost use Rattle.std.specs.Prelude.{◌≡◌, option_map};
ghost use Rattle.ntfs_words.specs.Values.{combination, is_one, kind_in, no_number, number_in, number_word, range_word, same_name_usage, size_in};

use crate::number::{kind_of, number_of, range_of, size_of};
use crate::request::WordsFault;
use ntfs_base::UsageKind;

/// Options that don't go together, or one that is missing.
pub(crate) fn combination() -> WordsFault
    ensures { result ≡ combination }
{
    WordsFault::Usage {
        kind: UsageKind::Combination,
    }
}

/// Exactly one of some options was given.
pub(crate) fn exactly_one(given: &[bool]) -> bool
    ensures { result ≡ is_one given.now }
{
    given.iter().filter(|&&one| one).count() == 1
}

/// A word that spells no number, type, size or range.
pub(crate) fn no_number() -> WordsFault
    ensures { result ≡ no_number }
{
    WordsFault::Usage {
        kind: UsageKind::Number,
    }
}

/// Two host files of one name.
pub(crate) fn same_name_usage() -> WordsFault
    ensures { result ≡ same_name_usage }
{
    WordsFault::Usage {
        kind: UsageKind::SameName,
    }
}

/// The number of a word.
pub(crate) fn number_word(text: &str) -> Result<u64, WordsFault>
    ensures { result ≡ number_word text.now }
{
    number_of(text).ok_or(no_number())
}

/// The number of an option that may be missing.
#[tactic(auto, unfolding(crate::specs::Values::number_in))]
pub(crate) fn number_in(text: Option<&str>) -> Result<Option<u64>, WordsFault>
    ensures { result ≡ number_in (option_map (λ text. text.now) text.entry) }
{
    match text {
        Some(text) => Ok(Some(number_word(text)?)),
        None => Ok(None),
    }
}

/// The range of a word.
pub(crate) fn range_word(text: &str) -> Result<(u64, u64), WordsFault>
    ensures { result ≡ range_word text.now }
{
    range_of(text).ok_or(no_number())
}

/// The type of an attribute, `$DATA` where none is given.
#[tactic(auto, unfolding(crate::specs::Values::kind_in))]
pub(crate) fn kind_in(text: Option<&str>) -> Result<u32, WordsFault>
    ensures { result ≡ kind_in (option_map (λ text. text.now) text.entry) }
{
    match text {
        Some(text) => kind_of(text).ok_or(no_number()),
        None => Ok(0x80),
    }
}

/// The size of an option that may be missing.
#[tactic(auto, unfolding(crate::specs::Values::size_in))]
pub(crate) fn size_in(text: Option<&str>) -> Result<Option<u64>, WordsFault>
    ensures { result ≡ size_in (option_map (λ text. text.now) text.entry) }
{
    match text {
        Some(text) => Ok(Some(size_of(text).ok_or(no_number())?)),
        None => Ok(None),
    }
}
