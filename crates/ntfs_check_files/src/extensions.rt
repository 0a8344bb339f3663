//! The records that extend base records, by the base record's number.

ghost use Rattle.std.specs.Prelude.{◌≡◌, ◌==◌, [], ◌∷◌, ◌++◌, ℕ, OnOk, if◌then◌else◌};
ghost use Rattle.ntfs_check_files.specs.Extending.{extending};

use std::alloc::{AllocError, Global};
use std::collections::BTreeMap;

/// For each base record the numbers of the records that have it as base, in their order.
#[derive(Drop)]
pub(crate) struct Extensions {
    numbers: BTreeMap<u64, Vec<u64>>,
}

impl Extensions {
    /// No record extends any.
    pub(crate) fn new(alloc: Global) -> Extensions
        ensures { (q : ℕ) → extending result q ≡ [] }
    {
        Extensions {
            numbers: BTreeMap::new(alloc),
        }
    }

    /// One record more extends a base record.
    pub(crate) fn add(&mut self, alloc: Global, base: u64, number: u64) -> Result<(), AllocError>
        ensures { OnOk result ((q : ℕ) → extending self.new q
            ≡ if base == q then extending self.old q ++ number ∷ [] else extending self.old q) }
    {
        let mut numbers = match self.numbers.remove(&base) {
            None => Vec::new(alloc),
            Some(numbers) => numbers,
        };
        numbers.push(number)?;
        self.numbers.insert(base, numbers)?;
        Ok(())
    }

    /// The numbers of the records that extend a base record.
    pub(crate) fn of(&self, base: u64) -> &[u64]
        ensures { result.now ≡ extending self.now base }
    {
        match self.numbers.get(&base) {
            None => &[],
            Some(numbers) => numbers,
        }
    }
}
