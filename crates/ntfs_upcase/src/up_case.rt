// The table of upper-case units, and the comparison through it.
ghost use Rattle.std.specs.Prelude.{◌≡◌, length, IfOk};
ghost use Rattle.ntfs_upcase.specs.Names.{units};
ghost use Rattle.ntfs_upcase.specs.Collation.{collate, same_name};

use crate::unit::{first_unit, unit_list};
use std::alloc::{AllocError, Global};
use std::cmp::Ordering;
use std::marker::Model;

/// The upper-case unit of each of the 65,536 units, as a volume's `$UpCase` gives them. Contracts see it as their list.
#[derive(Drop)]
pub struct UpCase {
    upper: Vec<u16>,
}

impl Model for UpCase {
    ghost use Rattle.std.specs.Prelude.{◌≡◌, List, ℕ, length};

    ghost Value = { List ℕ };

    ghost view = { λ table. table.upper.items };

    ghost invariant = { λ table. length table.upper.items ≡ 65536 };
}

impl UpCase {
    /// The table in the bytes of `$UpCase`, two to a unit, the lower first.
    pub fn from_bytes(alloc: Global, table: &[u8]) -> Result<UpCase, AllocError>
        requires { length table.now ≡ 131072 }
        ensures { IfOk result (λ made. made ≡ units table.now) }
    {
        let upper = unit_list(alloc, table)?;
        Ok(UpCase { upper })
    }

    /// The order of two names: unit by unit through the table, and a name that the other begins with comes first.
    pub fn collate(&self, a: &[u8], b: &[u8]) -> Ordering
        ensures { result ≡ collate self.now a.now b.now }
    {
        compare(self.upper.as_slice(), a, b)
    }

    /// Whether two names are one name to the volume: they have the same units but for case.
    #[tactic(auto, unfolding(crate::specs::Collation::same_name))]
    pub fn same_name(&self, a: &[u8], b: &[u8]) -> bool
        ensures { result ≡ same_name self.now a.now b.now }
    {
        self.collate(a, b).is_eq()
    }
}

// The loop of `collate`: it ends at the first units that differ.
fn compare(table: &[u16], a: &[u8], b: &[u8]) -> Ordering
    requires { length table.now ≡ 65536 }
    ensures { result ≡ collate table.now a.now b.now }
{
    let mut a_left = a;
    let mut b_left = b;
    'units: loop {
        match (first_unit(a_left), first_unit(b_left)) {
            (Some((x, a_rest)), Some((y, b_rest))) => {
                let order = table[x as usize].cmp(&table[y as usize]);
                if order != Ordering::Equal {
                    return order;
                }
                a_left = a_rest;
                b_left = b_rest;
            }
            (Some(_), None) => return Ordering::Greater,
            (None, Some(_)) => return Ordering::Less,
            (None, None) => return Ordering::Equal,
        }
    }
}
