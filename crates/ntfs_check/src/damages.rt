//! Damages of the made volume of seed 0 with 1,024 clusters of 4,096 bytes: which bytes stand at which places, and the
//! rule that is broken then with the record that is named. `tools/check_table.py` writes them from `tools/breaks.py`,
//! whose verdicts were written by hand.

pub(crate) mod clusters;
pub(crate) mod directories;
pub(crate) mod files;
pub(crate) mod fixed;
pub(crate) mod pairs;
pub(crate) mod records;

use ntfs_base::Rule;

/// A place, and the bytes there.
pub(crate) type Patch = (usize, &'static [u8]);

/// A damaged volume, and its verdict.
#[derive(Clone, Copy)]
pub(crate) struct Damage {
    pub(crate) name: &'static str,
    pub(crate) patches: &'static [Patch],
    pub(crate) rule: Rule,
    pub(crate) number: u64,
}
