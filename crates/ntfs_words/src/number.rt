//! The spellings of numbers, types, sizes and ranges.
ghost use Rattle.std.specs.Prelude.{◌≡◌, ◌≤◌};
ghost use Rattle.ntfs_words.specs.Numbers.{decimal_of, digits_of, kind_of, number_of, range_of, scaled, size_of};

/// The number that a word spells in 1 to 20 decimal digits, or in `0x` and 1 to 16 hexadecimal digits of either case.
#[tactic(auto, unfolding(crate::specs::Numbers::number_of))]
pub fn number_of(word: &str) -> Option<u64>
    ensures { result ≡ number_of word.now }
{
    match word.strip_prefix("0x") {
        Some(digits) => digits_of(digits, 16, 16),
        None => digits_of(word, 10, 20),
    }
}

/// The type of an attribute that a word spells: a number of 32 bits.
#[tactic(auto, unfolding(crate::specs::Numbers::kind_of))]
pub fn kind_of(word: &str) -> Option<u32>
    ensures { result ≡ kind_of word.now }
{
    let number = number_of(word)?;
    match u32::try_from(number) {
        Ok(kind) => Some(kind),
        Err(_) => None,
    }
}

/// The size in bytes that a word spells: 1 to 20 decimal digits, and then nothing, `k`, `M` or `G`.
#[tactic(auto, unfolding(crate::specs::Numbers::size_of))]
pub fn size_of(word: &str) -> Option<u64>
    ensures { result ≡ size_of word.now }
{
    if let Some(digits) = word.strip_suffix("k") {
        return scaled(digits, 1_000);
    }
    if let Some(digits) = word.strip_suffix("M") {
        return scaled(digits, 1_000_000);
    }
    if let Some(digits) = word.strip_suffix("G") {
        return scaled(digits, 1_000_000_000);
    }
    scaled(word, 1)
}

/// So many units, where they are at most 2^63.
#[tactic(auto, unfolding(crate::specs::Numbers::scaled))]
fn scaled(digits: &str, unit: u64) -> Option<u64>
    requires { 1 ≤ unit }
    ensures { result ≡ scaled unit digits.now }
{
    let count = digits_of(digits, 10, 20)?;
    if count <= (1 << 63) / unit {
        Some(count * unit)
    } else {
        None
    }
}

/// The clusters from one to another that a word spells: two decimal numbers with a hyphen between them, the second no
/// less than the first.
#[tactic(auto, unfolding(crate::specs::Numbers::range_of))]
pub fn range_of(word: &str) -> Option<(u64, u64)>
    ensures { result ≡ range_of word.now }
{
    let (first, last) = word.split_once('-')?;
    let from = decimal_of(first)?;
    let to = decimal_of(last)?;
    if from <= to { Some((from, to)) } else { None }
}

#[tactic(auto, unfolding(crate::specs::Numbers::decimal_of))]
fn decimal_of(word: &str) -> Option<u64>
    ensures { result ≡ decimal_of word.now }
{
    digits_of(word, 10, word.len())
}

/// The number that 1 to so many digits spell, where it has 64 bits.
fn digits_of(text: &str, radix: u32, most: usize) -> Option<u64>
    requires least { 2 ≤ radix }
    requires greatest { radix ≤ 16 }
    ensures { result ≡ digits_of radix most text.now }
{
    if text.is_empty() {
        return None;
    }
    if text.len() > most {
        return None;
    }
    if text.as_bytes()[0] == b'+' {
        return None;
    }
    match u64::from_str_radix(text, radix) {
        Ok(number) => Some(number),
        Err(_) => None,
    }
}
