//! The owners of clusters that a survey gives.

ghost use Rattle.std.specs.Prelude.{◌≡◌};

use std::marker::Model;

/// A run of clusters, and whose it is: the attribute at a place of the record of a number has it from a VCN on.
#[derive(Clone, Copy, Debug, PartialEq, Eq)]
pub struct Owner {
    pub first: u64,
    pub length: u64,
    pub number: u64,
    pub place: u32,
    pub vcn: u64,
}

/// The runs of all records of a volume.
#[derive(Debug, Drop)]
pub struct Survey {
    owners: Vec<Owner>,
}

impl Model for Survey {
    ghost use Rattle.std.specs.Prelude.{List};
    ghost use Rattle.ntfs_survey.specs.declared.owners.Owner.{Owner};

    ghost Value = { List Owner };

    ghost view = { λ s. s.owners.items };
}

impl Survey {
    pub(crate) fn new(owners: Vec<Owner>) -> Survey
        ensures { result ≡ owners.items }
    {
        Survey { owners }
    }

    /// The owners by record, by place in it, by VCN, one for each run as it is spelled that isn't a hole.
    pub fn owners(&self) -> &[Owner]
        ensures { result.now ≡ self.now }
    {
        &self.owners
    }
}
