ghost use Rattle.std.specs.Prelude.{◌≡◌, ◌≤◌, ◌^◌, [], ◌∷◌, ◌++◌, OnOk, OnErr, length, slice_get};
ghost use Rattle.ntfs_runs.specs.Clusters.{vcns, AreSpellable, AreWithin};
ghost use Rattle.ntfs_runs.specs.Cells.{are_cells};

use crate::cells::{are_below, count_of};
use crate::run::Run;
use std::alloc::{AllocError, Global};
use std::marker::Model;

/// A list of runs.
#[derive(Debug, Drop)]
pub struct RunList {
    runs: Vec<Run>,
}

impl Model for RunList {
    ghost use Rattle.std.specs.Prelude.{List};
    ghost use Rattle.ntfs_runs.specs.declared.run.Run.{Run};

    ghost Value = { List Run };

    ghost view = { λ list. list.runs.items };
}

impl RunList {
    /// The empty list, which takes no memory.
    pub fn new(alloc: Global) -> RunList
        ensures { result ≡ [] }
    {
        RunList {
            runs: Vec::new(alloc),
        }
    }

    /// Puts a run at the end.
    pub fn push(&mut self, run: Run) -> Result<(), AllocError>
        ensures ok { OnOk result (self.new ≡ self.old ++ run ∷ []) }
        ensures err { OnErr result (self.new ≡ self.old) }
    {
        self.runs.push(run)?;
        Ok(())
    }

    /// The runs, in their order.
    pub fn runs(&self) -> &[Run]
        ensures { result.now ≡ self.now }
    {
        &self.runs
    }

    /// The cluster of a VCN: `None` past the end, `Some(None)` in a hole.
    pub fn lcn_of(&self, vcn: u64) -> Option<Option<u64>>
        requires { AreWithin self.now }
        ensures { result ≡ slice_get (vcns self.now) vcn }
    {
        cell_of(&self.runs, vcn)
    }

    /// How many VCNs the runs have.
    pub fn vcn_count(&self) -> u64
        requires { AreSpellable self.now }
        ensures count { result ≡ length (vcns self.now) }
        ensures most { result ≤ 2 ^ 48 }
    {
        count_of(&self.runs)
    }

    /// All clusters of the runs are below so many, and holes are there only where they may be.
    pub fn lies_below(&self, holes: bool, clusters: u64) -> bool
        ensures { result ≡ are_cells holes clusters (vcns self.now) }
    {
        are_below(&self.runs, holes, clusters)
    }
}

fn cell_of(runs: &[Run], vcn: u64) -> Option<Option<u64>>
    requires { AreWithin runs.now }
    ensures { result ≡ slice_get (vcns runs.now) vcn }
{
    let mut left = vcn;
    'runs: for run in runs {
        if left < run.length {
            return Some(match run.lcn {
                None => None,
                Some(lcn) => Some(lcn + left),
            });
        }
        left -= run.length;
    }
    None
}
