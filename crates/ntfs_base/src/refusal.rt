/// The sixteen rules of an accepted volume, printed as `C1` to `C16`.
#[derive(Clone, Copy, Debug, PartialEq, Eq)]
pub enum Rule {
    C1,
    C2,
    C3,
    C4,
    C5,
    C6,
    C7,
    C8,
    C9,
    C10,
    C11,
    C12,
    C13,
    C14,
    C15,
    C16,
}

/// What wasn't found in a volume.
#[derive(Clone, Copy, Debug, PartialEq, Eq)]
pub enum Missing {
    /// The part of a path, counted from 0.
    Part { index: u64 },
    /// The file record of this number.
    Record { number: u64 },
    /// The stream of a record.
    Stream,
}

/// What a new size of a volume lacks.
#[derive(Clone, Copy, Debug, PartialEq, Eq)]
pub enum Lack {
    /// Bytes of the image file.
    Image,
    /// Cluster numbers that NTFS can count.
    Count,
    /// Room for the boot file, `$Boot`.
    Boot,
}

/// Which host file of a command line is meant.
#[derive(Clone, Copy, Debug, PartialEq, Eq)]
pub enum Named {
    /// The image.
    Image,
    /// The source of a copy or a clone.
    Source,
    /// A file that a tool makes.
    Output,
    /// The clone image of a trial.
    Clone,
    /// The restored volume of a trial.
    Back,
}

/// Why a command line was refused.
#[derive(Clone, Copy, Debug, PartialEq, Eq)]
pub enum UsageKind {
    /// No first word, or one that names no tool.
    Tool,
    /// Words that the tool doesn't take.
    Line,
    /// Options that don't go together, or one that is missing.
    Combination,
    /// A number, size or range of another spelling.
    Number,
    /// Two host files of one name.
    SameName,
}
