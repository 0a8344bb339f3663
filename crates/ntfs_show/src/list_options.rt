//! What a listing is asked for: which entries are shown, and which directories are entered.

ghost use Rattle.std.specs.Prelude.{◌≡◌};
ghost use Rattle.ntfs_show.specs.Listing.{is_entered, is_shown, is_shown_namespace, is_system_name};

use ntfs_directory::{name_in_key, namespace_in_key};
use std::collections::BTreeSet;

/// Which entries of a directory are shown, and what is printed of each.
#[derive(Clone, Copy, Debug, PartialEq, Eq)]
pub struct ListOptions {
    /// Names of the POSIX namespace too.
    pub all: bool,
    /// The number of the record before each name.
    pub numbers: bool,
    /// A slash behind each directory.
    pub classify: bool,
    /// Below each directory its entries.
    pub recursive: bool,
    /// Names that begin with a dollar sign too.
    pub system: bool,
    /// The names of DOS in place of those of Win32.
    pub dos: bool,
}

#[tactic(auto, unfolding(crate::specs::Listing::is_shown_namespace))]
fn is_shown_namespace(options: ListOptions, namespace: u8) -> bool
    ensures { result ≡ is_shown_namespace options namespace }
{
    let other = if options.dos { 2 } else { 1 };
    namespace == 3 || namespace == other || (options.all && namespace == 0)
}

#[tactic(auto, unfolding(crate::specs::Listing::is_system_name))]
fn is_system_name(name: &[u8]) -> bool
    ensures { result ≡ is_system_name name.now }
{
    name.len() >= 2 && name[0] == 0x24 && name[1] == 0
}

#[tactic(auto, unfolding(crate::specs::Listing::is_shown))]
pub(crate) fn is_shown(options: ListOptions, key: &[u8]) -> bool
    ensures { result ≡ is_shown options key.now }
{
    is_shown_namespace(options, namespace_in_key(key))
        && (options.system || !is_system_name(name_in_key(key)))
}

#[tactic(auto, unfolding(crate::specs::Listing::is_entered))]
pub(crate) fn is_entered(
    options: ListOptions,
    is_directory: bool,
    number: u64,
    met: &BTreeSet<u64>,
) -> bool
    ensures { result ≡ is_entered options is_directory number met.now.keys }
{
    options.recursive && is_directory && !met.contains(&number)
}
