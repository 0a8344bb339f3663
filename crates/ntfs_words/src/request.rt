//! What command lines ask for, and how they are refused.

use crate::text::Text;
use ntfs_base::UsageKind;
use std::alloc::AllocError;

/// What ntfscluster is asked about.
#[derive(Debug, Drop)]
pub enum Ask {
    /// The volume's clusters as a whole.
    Info,
    /// The owners of the clusters from one to another.
    Clusters { from: u64, to: u64 },
    /// The runs of the record of a number.
    Number { number: u64 },
    /// The runs of the record at a path.
    Path { path: Text },
}

/// A record, by its number or its path in the volume.
#[derive(Debug, Drop)]
pub enum Target {
    Number { number: u64 },
    Path { path: Text },
}

/// What a tool is asked to do.
#[derive(Debug, Drop)]
pub enum Request {
    Info {
        mft: bool,
        number: Option<u64>,
        image: Text,
    },
    Ls {
        all: bool,
        numbers: bool,
        classify: bool,
        recursive: bool,
        system: bool,
        dos: bool,
        path: Option<Text>,
        image: Text,
    },
    Cat {
        target: Target,
        kind: u32,
        name: Option<Text>,
        image: Text,
    },
    Cluster {
        ask: Ask,
        image: Text,
    },
    Cp {
        kind: u32,
        name: Option<Text>,
        no_action: bool,
        image: Text,
        source: Text,
        target: Target,
    },
    Clone {
        save: bool,
        restore: bool,
        no_action: bool,
        force: bool,
        output: Option<Text>,
        overwrite: bool,
        source: Option<Text>,
    },
    Resize {
        info: bool,
        no_action: bool,
        force: bool,
        size: Option<u64>,
        image: Text,
    },
    Fix {
        no_action: bool,
        clear_dirty: bool,
        clear_bad: bool,
        rebuild: bool,
        image: Text,
    },
    Make {
        file: Text,
        seed: u64,
        clusters: u32,
        cluster: u32,
    },
    Trial {
        seed: u64,
        name: Text,
    },
}

/// Why words were not read.
#[derive(Clone, Copy, Debug, PartialEq, Eq)]
pub enum WordsFault {
    /// The words are refused.
    Usage { kind: UsageKind },
    /// Memory was wanting.
    NoMemory,
}

impl From<AllocError> for WordsFault {
    ghost use Rattle.std.specs.Prelude.{◌≡◌};
    ghost use Rattle.ntfs_words.specs.declared.request.WordsFault.TheVariants.{NoMemory};

    ghost from_gives = { λ _ fault. fault ≡ NoMemory };

    fn from(_error: AllocError) -> WordsFault {
        WordsFault::NoMemory
    }
}
