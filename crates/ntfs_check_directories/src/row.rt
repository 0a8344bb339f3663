//! Names in their order: those that tie stand in a row.

ghost use Rattle.std.specs.Prelude.{◌≡◌, [], true, IfOk};
ghost use Rattle.ntfs_check_directories.specs.Row.{name_may_follow, names_in_row, order_behind, row_of, stands_in};

use ntfs_upcase::UpCase;
use std::alloc::{AllocError, Global};
use std::cmp::Ordering;
use std::marker::Model;

/// Names that tie.
#[derive(Drop)]
pub(crate) struct Row {
    names: Vec<Vec<u8>>,
}

impl Model for Row {
    ghost use Rattle.std.specs.Prelude.{ℕ, List};
    ghost use Rattle.ntfs_check_directories.specs.Row.{names_in_row};

    ghost Value = { List (List ℕ) };

    ghost view = { λ r. names_in_row r.names.items };
}

/// The name is one of these.
fn stands_in(names: &[Vec<u8>], name: &[u8]) -> bool
    ensures { result ≡ stands_in (names_in_row names.now) name.now }
{
    'names: for other in names {
        if other.as_slice() == name {
            return true;
        }
    }
    false
}

impl Row {
    /// No names.
    pub(crate) fn new(alloc: Global) -> Row
        ensures { result ≡ [] }
    {
        Row {
            names: Vec::new(alloc),
        }
    }

    /// The order of the names and of one behind them.
    fn order_behind(&self, upper: &UpCase, name: &[u8]) -> Ordering
        ensures { result ≡ order_behind upper.now self.now name.now }
    {
        match self.names.first() {
            None => Ordering::Less,
            Some(first) => upper.collate(first, name),
        }
    }

    /// The name is one of them.
    fn has(&self, name: &[u8]) -> bool
        ensures { result ≡ stands_in self.now name.now }
    {
        stands_in(&self.names, name)
    }

    /// Whether a name may follow: it then stands in the row, alone where it comes after the others. Else the row holds
    /// anything.
    #[tactic(auto, unfolding(crate::specs::Row::name_may_follow, crate::specs::Row::row_of))]
    pub(crate) fn take(
        &mut self,
        alloc: Global,
        upper: &UpCase,
        name: &[u8],
    ) -> Result<bool, AllocError>
        ensures may { IfOk result (λ is. is ≡ name_may_follow upper.now self.old name.now) }
        ensures row { IfOk result (λ is. is ≡ true → self.new ≡ row_of upper.now self.old name.now) }
    {
        match self.order_behind(upper, name) {
            Ordering::Greater => return Ok(false),
            Ordering::Equal => {
                if self.has(name) {
                    return Ok(false);
                }
            }
            Ordering::Less => self.names.clear(),
        }
        self.names.push(Vec::from_slice(alloc, name)?)?;
        Ok(true)
    }
}
